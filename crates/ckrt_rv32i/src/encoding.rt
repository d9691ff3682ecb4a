//! From an instruction to its word.
ghost use Rattle.std.specs.Prelude.{◌≡◌, ◌+◌, ◌*◌, ◌/◌, ◌%◌, ◌^◌, ◌<◌};
ghost use Rattle.ckrt_rv32i.specs.Words.{signed_of};
ghost use Rattle.ckrt_rv32i.specs.Table.{opcode_of, rd_of, funct3_of, rs1_of, rs2_of, funct7_of, i_immediate, s_immediate, b_immediate, u_immediate, j_immediate, fence_immediate, FitsBits, FitsEvenBits, IsInRange, Encodes, condition_funct3, load_funct3, store_funct3, imm_funct3, shift_funct3, shift_funct7, alu_funct3, alu_funct7};

use crate::instruction::{AluOp, Condition, ImmOp, Instr, LoadKind, ShiftOp};
use crate::memory_bus::Size;

fn condition_funct3(condition: Condition) -> u32
    ensures value { result ≡ condition_funct3 condition }
    ensures small { result < 8 }
{
    match condition {
        Condition::Eq => 0,
        Condition::Ne => 1,
        Condition::Lt => 4,
        Condition::Ge => 5,
        Condition::Ltu => 6,
        Condition::Geu => 7,
    }
}

fn load_funct3(kind: LoadKind) -> u32
    ensures value { result ≡ load_funct3 kind }
    ensures small { result < 8 }
{
    match kind {
        LoadKind::Byte => 0,
        LoadKind::Half => 1,
        LoadKind::Word => 2,
        LoadKind::ByteUnsigned => 4,
        LoadKind::HalfUnsigned => 5,
    }
}

fn store_funct3(size: Size) -> u32
    ensures value { result ≡ store_funct3 size }
    ensures small { result < 8 }
{
    match size {
        Size::Byte => 0,
        Size::Half => 1,
        Size::Word => 2,
    }
}

fn imm_funct3(op: ImmOp) -> u32
    ensures value { result ≡ imm_funct3 op }
    ensures small { result < 8 }
{
    match op {
        ImmOp::Addi => 0,
        ImmOp::Slti => 2,
        ImmOp::Sltiu => 3,
        ImmOp::Xori => 4,
        ImmOp::Ori => 6,
        ImmOp::Andi => 7,
    }
}

/// The columns funct3 and funct7 of a shift.
fn shift_columns(op: ShiftOp) -> (u32, u32)
    ensures value { (result.0 ≡ shift_funct3 op) × (result.1 ≡ shift_funct7 op) }
    ensures small { (result.0 < 8) × (result.1 < 128) }
{
    match op {
        ShiftOp::Slli => (1, 0),
        ShiftOp::Srli => (5, 0),
        ShiftOp::Srai => (5, 0b0100000),
    }
}

/// The columns funct3 and funct7 of an operation on two registers.
fn alu_columns(op: AluOp) -> (u32, u32)
    ensures value { (result.0 ≡ alu_funct3 op) × (result.1 ≡ alu_funct7 op) }
    ensures small { (result.0 < 8) × (result.1 < 128) }
{
    match op {
        AluOp::Add => (0, 0),
        AluOp::Sub => (0, 0b0100000),
        AluOp::Sll => (1, 0),
        AluOp::Slt => (2, 0),
        AluOp::Sltu => (3, 0),
        AluOp::Xor => (4, 0),
        AluOp::Srl => (5, 0),
        AluOp::Sra => (5, 0b0100000),
        AluOp::Or => (6, 0),
        AluOp::And => (7, 0),
    }
}

/// The two's complement in 12 bits.
fn complement_12(value: i32) -> u32
    requires { FitsBits 12 value }
    ensures small { result < 2 ^ 12 }
    ensures value { signed_of 12 result ≡ value }
{
    if value < 0 {
        (value + 0x1000) as u32
    } else {
        value as u32
    }
}

/// The two's complement of an even number in 13 bits.
fn complement_13(value: i32) -> u32
    requires { FitsEvenBits 13 value }
    ensures small { result < 2 ^ 13 }
    ensures even { result % 2 ≡ 0 }
    ensures value { signed_of 13 result ≡ value }
{
    if value < 0 {
        (value + 0x2000) as u32
    } else {
        value as u32
    }
}

/// The two's complement of an even number in 21 bits.
fn complement_21(value: i32) -> u32
    requires { FitsEvenBits 21 value }
    ensures small { result < 2 ^ 21 }
    ensures even { result % 2 ≡ 0 }
    ensures value { signed_of 21 result ≡ value }
{
    if value < 0 {
        (value + 0x20_0000) as u32
    } else {
        value as u32
    }
}

/// A branch's offset as its bits stand in the place of rd and in that of funct7.
fn branch_fields(offset: i32) -> (u32, u32)
    requires { FitsEvenBits 13 offset }
    ensures small { (result.0 < 32) × (result.1 < 128) }
    ensures value { signed_of 13 (result.1 / 64 * 2 ^ 12 + result.0 % 2 * 2 ^ 11
        + result.1 % 64 * 2 ^ 5 + result.0 / 2 * 2) ≡ offset }
{
    let bits = complement_13(offset);
    let low = (((bits >> 1) % 16) << 1) + ((bits >> 11) % 2);
    let high = ((bits >> 12) << 6) + ((bits >> 5) % 64);
    (low, high)
}

/// The word of these fields, the last of which is the upper 12 bits.
fn word_of(opcode: u32, rd: u32, funct3: u32, rs1: u32, upper: u32) -> u32
    requires opcode { opcode < 128 }
    requires rd { rd < 32 }
    requires funct3 { funct3 < 8 }
    requires rs1 { rs1 < 32 }
    requires upper { upper < 2 ^ 12 }
    ensures opcode { opcode_of result ≡ opcode }
    ensures rd { rd_of result ≡ rd }
    ensures funct3 { funct3_of result ≡ funct3 }
    ensures rs1 { rs1_of result ≡ rs1 }
    ensures upper { result / 2 ^ 20 ≡ upper }
{
    (upper << 20) + (rs1 << 15) + (funct3 << 12) + (rd << 7) + opcode
}

/// The word of the format R: two registers and a destination.
fn r_word(opcode: u32, rd: u8, columns: (u32, u32), rs1: u8, rs2: u8) -> u32
    requires opcode { opcode < 128 }
    requires columns { (columns.0 < 8) × (columns.1 < 128) }
    requires registers { (rd < 32) × (rs1 < 32) × (rs2 < 32) }
    ensures opcode { opcode_of result ≡ opcode }
    ensures columns { (funct3_of result ≡ columns.0) × (funct7_of result ≡ columns.1) }
    ensures registers { (rd_of result ≡ rd) × (rs1_of result ≡ rs1) × (rs2_of result ≡ rs2) }
{
    let (funct3, funct7) = columns;
    word_of(
        opcode,
        rd as u32,
        funct3,
        rs1 as u32,
        (funct7 << 5) + rs2 as u32,
    )
}

/// The word of the format I: a register, an immediate and a destination.
fn i_word(opcode: u32, rd: u8, funct3: u32, rs1: u8, imm: i32) -> u32
    requires opcode { opcode < 128 }
    requires funct3 { funct3 < 8 }
    requires registers { (rd < 32) × (rs1 < 32) }
    requires imm { FitsBits 12 imm }
    ensures opcode { opcode_of result ≡ opcode }
    ensures funct3 { funct3_of result ≡ funct3 }
    ensures registers { (rd_of result ≡ rd) × (rs1_of result ≡ rs1) }
    ensures imm { i_immediate result ≡ imm }
{
    word_of(opcode, rd as u32, funct3, rs1 as u32, complement_12(imm))
}

/// The word of a store, of the format S.
fn s_word(funct3: u32, rs1: u8, rs2: u8, offset: i32) -> u32
    requires funct3 { funct3 < 8 }
    requires registers { (rs1 < 32) × (rs2 < 32) }
    requires offset { FitsBits 12 offset }
    ensures opcode { opcode_of result ≡ 0b0100011 }
    ensures funct3 { funct3_of result ≡ funct3 }
    ensures registers { (rs1_of result ≡ rs1) × (rs2_of result ≡ rs2) }
    ensures offset { s_immediate result ≡ offset }
{
    let bits = complement_12(offset);
    word_of(
        0b0100011,
        bits & 0x1f,
        funct3,
        rs1 as u32,
        ((bits >> 5) << 5) + rs2 as u32,
    )
}

/// The word of a branch, of the format B.
fn b_word(funct3: u32, rs1: u8, rs2: u8, offset: i32) -> u32
    requires funct3 { funct3 < 8 }
    requires registers { (rs1 < 32) × (rs2 < 32) }
    requires offset { FitsEvenBits 13 offset }
    ensures opcode { opcode_of result ≡ 0b1100011 }
    ensures funct3 { funct3_of result ≡ funct3 }
    ensures registers { (rs1_of result ≡ rs1) × (rs2_of result ≡ rs2) }
    ensures offset { b_immediate result ≡ offset }
{
    let (low, high) = branch_fields(offset);
    word_of(0b1100011, low, funct3, rs1 as u32, (high << 5) + rs2 as u32)
}

/// The word of the format U: the upper 20 bits and a destination.
fn u_word(opcode: u32, rd: u8, upper: u32) -> u32
    requires opcode { opcode < 128 }
    requires rd { rd < 32 }
    requires upper { upper < 2 ^ 20 }
    ensures opcode { opcode_of result ≡ opcode }
    ensures rd { rd_of result ≡ rd }
    ensures upper { result / 2 ^ 12 ≡ upper }
{
    (upper << 12) + ((rd as u32) << 7) + opcode
}

/// The word of JAL, of the format J.
fn j_word(rd: u8, offset: i32) -> u32
    requires rd { rd < 32 }
    requires offset { FitsEvenBits 21 offset }
    ensures opcode { opcode_of result ≡ 0b1101111 }
    ensures rd { rd_of result ≡ rd }
    ensures offset { j_immediate result ≡ offset }
{
    let bits = complement_21(offset);
    let upper = ((bits >> 20) << 19)
        + (((bits >> 1) & 0x3ff) << 9)
        + (((bits >> 11) & 1) << 8)
        + ((bits >> 12) & 0xff);
    u_word(0b1101111, rd, upper)
}

/// The word that encodes the instruction, whose fields are in range (`Instr::in_range` tests it). There is one.
pub fn encode(instr: &Instr) -> u32
    requires { IsInRange instr.now }
    ensures { Encodes result instr.now }
{
    match *instr {
        Instr::Lui { rd, imm } => u_word(0b0110111, rd, imm),
        Instr::Auipc { rd, imm } => u_word(0b0010111, rd, imm),
        Instr::Jal { rd, offset } => j_word(rd, offset),
        Instr::Jalr { rd, rs1, offset } => i_word(0b1100111, rd, 0, rs1, offset),
        Instr::Branch {
            condition,
            rs1,
            rs2,
            offset,
        } => b_word(condition_funct3(condition), rs1, rs2, offset),
        Instr::Load {
            kind,
            rd,
            rs1,
            offset,
        } => i_word(0b0000011, rd, load_funct3(kind), rs1, offset),
        Instr::Store {
            size,
            rs1,
            rs2,
            offset,
        } => s_word(store_funct3(size), rs1, rs2, offset),
        Instr::AluImm { op, rd, rs1, imm } => i_word(0b0010011, rd, imm_funct3(op), rs1, imm),
        Instr::Shift { op, rd, rs1, shamt } => r_word(0b0010011, rd, shift_columns(op), rs1, shamt),
        Instr::Alu { op, rd, rs1, rs2 } => r_word(0b0110011, rd, alu_columns(op), rs1, rs2),
        Instr::Fence { rd, rs1, imm } => word_of(0b0001111, rd as u32, 0, rs1 as u32, imm),
        Instr::Ecall => 0x0000_0073,
        Instr::Ebreak => 0x0010_0073,
    }
}
