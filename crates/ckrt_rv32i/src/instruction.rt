//! The instructions of RV32I.
ghost use Rattle.std.specs.Prelude.{◌≡◌, ◌<◌, ◌^◌, ◌↔◌, IsTrue};
ghost use Rattle.ckrt_rv32i.specs.Table.{IsInRange, FitsBits, FitsEvenBits};

use crate::memory_bus::Size;

/// When a branch is taken. `rs1` stands at the left.
#[derive(Clone, Copy, Debug, PartialEq, Eq)]
pub enum Condition {
    /// BEQ.
    Eq,
    /// BNE.
    Ne,
    /// BLT: signed.
    Lt,
    /// BGE: signed.
    Ge,
    /// BLTU: unsigned.
    Ltu,
    /// BGEU: unsigned.
    Geu,
}

/// How many bytes a load reads, and how they are extended to a word.
#[derive(Clone, Copy, Debug, PartialEq, Eq)]
pub enum LoadKind {
    /// LB: sign-extended.
    Byte,
    /// LH: sign-extended.
    Half,
    /// LW.
    Word,
    /// LBU: zero-extended.
    ByteUnsigned,
    /// LHU: zero-extended.
    HalfUnsigned,
}

/// An operation on a register and a sign-extended immediate.
#[derive(Clone, Copy, Debug, PartialEq, Eq)]
pub enum ImmOp {
    /// The sum, which wraps.
    Addi,
    /// 1 if less, as signed words, else 0.
    Slti,
    /// 1 if less, as unsigned words after sign extension, else 0.
    Sltiu,
    /// Bitwise exclusive or.
    Xori,
    /// Bitwise or.
    Ori,
    /// Bitwise and.
    Andi,
}

/// A shift by an amount that stands in the word.
#[derive(Clone, Copy, Debug, PartialEq, Eq)]
pub enum ShiftOp {
    /// To the left.
    Slli,
    /// To the right, zeros come in.
    Srli,
    /// To the right, the sign bit comes in.
    Srai,
}

/// An operation on two registers. A shift takes its amount from the low five bits of `rs2`.
#[derive(Clone, Copy, Debug, PartialEq, Eq)]
pub enum AluOp {
    /// The sum, which wraps.
    Add,
    /// The difference, which wraps.
    Sub,
    /// Shift to the left.
    Sll,
    /// 1 if less, as signed words, else 0.
    Slt,
    /// 1 if less, as unsigned words, else 0.
    Sltu,
    /// Bitwise exclusive or.
    Xor,
    /// Shift to the right, zeros come in.
    Srl,
    /// Shift to the right, the sign bit comes in.
    Sra,
    /// Bitwise or.
    Or,
    /// Bitwise and.
    And,
}

/// An instruction (RISC-V unprivileged manual, RV32I 2.1). Registers are 0 to 31, offsets are in bytes; `in_range` tests each field's range.
#[derive(Clone, Copy, Debug, PartialEq, Eq)]
pub enum Instr {
    /// LUI: puts `imm`, of 20 bits, into the upper bits of `rd`, and 0 into the lower.
    Lui {
        rd: u8,
        imm: u32,
    },
    /// AUIPC: the same, with the pc added.
    Auipc {
        rd: u8,
        imm: u32,
    },
    /// JAL: jumps by an even offset of 21 bits, with the address of the next instruction in `rd`.
    Jal {
        rd: u8,
        offset: i32,
    },
    /// JALR: jumps to the sum of `rs1` and an offset of 12 bits, bit 0 cleared, with the address of the next instruction in `rd`.
    Jalr {
        rd: u8,
        rs1: u8,
        offset: i32,
    },
    /// A branch: jumps by an even offset of 13 bits if the condition holds of `rs1` and `rs2`.
    Branch {
        condition: Condition,
        rs1: u8,
        rs2: u8,
        offset: i32,
    },
    /// Loads from the sum of `rs1` and an offset of 12 bits into `rd`.
    Load {
        kind: LoadKind,
        rd: u8,
        rs1: u8,
        offset: i32,
    },
    /// Stores the low bytes of `rs2` at the sum of `rs1` and an offset of 12 bits.
    Store {
        size: Size,
        rs1: u8,
        rs2: u8,
        offset: i32,
    },
    /// An operation on `rs1` and an immediate of 12 bits.
    AluImm {
        op: ImmOp,
        rd: u8,
        rs1: u8,
        imm: i32,
    },
    /// A shift of `rs1` by 0 to 31.
    Shift {
        op: ShiftOp,
        rd: u8,
        rs1: u8,
        shamt: u8,
    },
    /// An operation on `rs1` and `rs2`.
    Alu {
        op: AluOp,
        rd: u8,
        rs1: u8,
        rs2: u8,
    },
    /// FENCE: orders memory accesses, which are in order here, so it does nothing; `imm` is the upper 12 bits of the word.
    Fence {
        rd: u8,
        rs1: u8,
        imm: u32,
    },
    /// ECALL: a call.
    Ecall,
    /// EBREAK: the fault Breakpoint.
    Ebreak,
}

impl Instr {
    /// Whether each field is in its range, so that some word encodes the instruction.
    pub fn in_range(&self) -> bool
        ensures { IsTrue result ↔ IsInRange self.now }
    {
        match *self {
            Instr::Lui { rd, imm } | Instr::Auipc { rd, imm } => rd < 32 && imm < 1 << 20,
            Instr::Jal { rd, offset } => rd < 32 && fits_21_even(offset),
            Instr::Branch {
                rs1,
                rs2,
                offset,
                ..
            } => rs1 < 32 && rs2 < 32 && fits_13_even(offset),
            Instr::Store {
                rs1,
                rs2,
                offset,
                ..
            } => rs1 < 32 && rs2 < 32 && fits_12(offset),
            Instr::Jalr { rd, rs1, offset } => rd < 32 && rs1 < 32 && fits_12(offset),
            Instr::Load {
                rd,
                rs1,
                offset,
                ..
            } => rd < 32 && rs1 < 32 && fits_12(offset),
            Instr::AluImm { rd, rs1, imm, .. } => rd < 32 && rs1 < 32 && fits_12(imm),
            Instr::Shift { rd, rs1, shamt, .. } => rd < 32 && rs1 < 32 && shamt < 32,
            Instr::Alu { rd, rs1, rs2, .. } => rd < 32 && rs1 < 32 && rs2 < 32,
            Instr::Fence { rd, rs1, imm } => rd < 32 && rs1 < 32 && imm < 1 << 12,
            Instr::Ecall | Instr::Ebreak => true,
        }
    }
}

fn fits_12(value: i32) -> bool
    ensures { IsTrue result ↔ FitsBits 12 value }
{
    -0x800 <= value && value < 0x800
}

fn fits_13_even(value: i32) -> bool
    ensures { IsTrue result ↔ FitsEvenBits 13 value }
{
    -0x1000 <= value && value < 0x1000 && value.unsigned_abs() % 2 == 0
}

fn fits_21_even(value: i32) -> bool
    ensures { IsTrue result ↔ FitsEvenBits 21 value }
{
    -0x10_0000 <= value && value < 0x10_0000 && value.unsigned_abs() % 2 == 0
}
