//! From a word to its instruction.
ghost use Rattle.std.specs.Prelude.{◌≡◌, ◌^◌, ◌<◌, ◌↔◌, Some, IfSome};
ghost use Rattle.ckrt_rv32i.specs.declared.instruction.Instr.{Instr};
ghost use Rattle.ckrt_rv32i.specs.Words.{field, signed_of};
ghost use Rattle.ckrt_rv32i.specs.Table.{Encodes, IsInRange, rd_of, funct3_of, rs1_of, rs2_of, funct7_of, i_immediate, s_immediate, b_immediate, u_immediate, j_immediate, fence_immediate};
ghost use Rattle.ckrt_rv32i.specs.Decoding.{instruction_of, condition_of, load_of, store_of, imm_of, shift_of, alu_of, jalr_row, branch_row, load_row, store_row, imm_row, shift_row, alu_row, fence_row, system_row};

use crate::instruction::{AluOp, Condition, ImmOp, Instr, LoadKind, ShiftOp};
use crate::memory_bus::Size;

/// The `count` bits of a word from the bit `low` on.
#[inline(always)]
fn field(word: u32, low: u32, count: u32) -> u32
    requires low { low < 32 }
    requires count { count < 32 }
    ensures value { result ≡ field word low count }
    ensures small { result < 2 ^ count }
{
    (word >> low) & ((1 << count) - 1)
}

#[inline(always)]
fn rd_of(word: u32) -> u8
    ensures { result ≡ rd_of word }
{
    field(word, 7, 5) as u8
}

#[inline(always)]
fn funct3_of(word: u32) -> u32
    ensures { result ≡ funct3_of word }
{
    field(word, 12, 3)
}

#[inline(always)]
fn rs1_of(word: u32) -> u8
    ensures { result ≡ rs1_of word }
{
    field(word, 15, 5) as u8
}

#[inline(always)]
fn rs2_of(word: u32) -> u8
    ensures { result ≡ rs2_of word }
{
    field(word, 20, 5) as u8
}

#[inline(always)]
fn funct7_of(word: u32) -> u32
    ensures { result ≡ funct7_of word }
{
    field(word, 25, 7)
}

/// The number whose two's complement of 12 bits is `value`.
#[inline(always)]
fn signed_12(value: u32) -> i32
    requires { value < 2 ^ 12 }
    ensures { result ≡ signed_of 12 value }
{
    if value < 0x800 {
        value as i32
    } else {
        value as i32 - 0x1000
    }
}

#[inline(always)]
fn i_immediate(word: u32) -> i32
    ensures { result ≡ i_immediate word }
{
    signed_12(field(word, 20, 12))
}

#[inline(always)]
fn s_immediate(word: u32) -> i32
    ensures { result ≡ s_immediate word }
{
    signed_12((field(word, 25, 7) << 5) + field(word, 7, 5))
}

#[inline(always)]
fn b_immediate(word: u32) -> i32
    ensures { result ≡ b_immediate word }
{
    let value = (field(word, 31, 1) << 12)
        + (field(word, 7, 1) << 11)
        + (field(word, 25, 6) << 5)
        + (field(word, 8, 4) << 1);
    if value < 0x1000 {
        value as i32
    } else {
        value as i32 - 0x2000
    }
}

#[inline(always)]
fn u_immediate(word: u32) -> u32
    ensures { result ≡ u_immediate word }
{
    field(word, 12, 20)
}

#[inline(always)]
fn j_immediate(word: u32) -> i32
    ensures { result ≡ j_immediate word }
{
    let value = (field(word, 31, 1) << 20)
        + (field(word, 12, 8) << 12)
        + (field(word, 20, 1) << 11)
        + (field(word, 21, 10) << 1);
    if value < 0x10_0000 {
        value as i32
    } else {
        value as i32 - 0x20_0000
    }
}

#[inline(always)]
fn condition_of(funct3: u32) -> Option<Condition>
    ensures { result ≡ condition_of funct3 }
{
    match funct3 {
        0 => Some(Condition::Eq),
        1 => Some(Condition::Ne),
        4 => Some(Condition::Lt),
        5 => Some(Condition::Ge),
        6 => Some(Condition::Ltu),
        7 => Some(Condition::Geu),
        _ => None,
    }
}

#[inline(always)]
fn load_of(funct3: u32) -> Option<LoadKind>
    ensures { result ≡ load_of funct3 }
{
    match funct3 {
        0 => Some(LoadKind::Byte),
        1 => Some(LoadKind::Half),
        2 => Some(LoadKind::Word),
        4 => Some(LoadKind::ByteUnsigned),
        5 => Some(LoadKind::HalfUnsigned),
        _ => None,
    }
}

#[inline(always)]
fn store_of(funct3: u32) -> Option<Size>
    ensures { result ≡ store_of funct3 }
{
    match funct3 {
        0 => Some(Size::Byte),
        1 => Some(Size::Half),
        2 => Some(Size::Word),
        _ => None,
    }
}

#[inline(always)]
fn imm_of(funct3: u32) -> Option<ImmOp>
    ensures { result ≡ imm_of funct3 }
{
    match funct3 {
        0 => Some(ImmOp::Addi),
        2 => Some(ImmOp::Slti),
        3 => Some(ImmOp::Sltiu),
        4 => Some(ImmOp::Xori),
        6 => Some(ImmOp::Ori),
        7 => Some(ImmOp::Andi),
        _ => None,
    }
}

#[inline(always)]
fn shift_of(funct3: u32, funct7: u32) -> Option<ShiftOp>
    ensures { result ≡ shift_of funct3 funct7 }
{
    match (funct3, funct7) {
        (1, 0) => Some(ShiftOp::Slli),
        (5, 0) => Some(ShiftOp::Srli),
        (5, 0b0100000) => Some(ShiftOp::Srai),
        _ => None,
    }
}

#[inline(always)]
fn alu_of(funct3: u32, funct7: u32) -> Option<AluOp>
    ensures { result ≡ alu_of funct3 funct7 }
{
    match (funct3, funct7) {
        (0, 0) => Some(AluOp::Add),
        (0, 0b0100000) => Some(AluOp::Sub),
        (1, 0) => Some(AluOp::Sll),
        (2, 0) => Some(AluOp::Slt),
        (3, 0) => Some(AluOp::Sltu),
        (4, 0) => Some(AluOp::Xor),
        (5, 0) => Some(AluOp::Srl),
        (5, 0b0100000) => Some(AluOp::Sra),
        (6, 0) => Some(AluOp::Or),
        (7, 0) => Some(AluOp::And),
        _ => None,
    }
}

#[inline(always)]
fn decode_jalr(word: u32) -> Option<Instr>
    ensures { result ≡ jalr_row word }
{
    if funct3_of(word) != 0 {
        return None;
    }
    Some(Instr::Jalr {
        rd: rd_of(word),
        rs1: rs1_of(word),
        offset: i_immediate(word),
    })
}

#[inline(always)]
fn decode_branch(word: u32) -> Option<Instr>
    ensures { result ≡ branch_row word }
{
    let condition = condition_of(funct3_of(word))?;
    Some(Instr::Branch {
        condition,
        rs1: rs1_of(word),
        rs2: rs2_of(word),
        offset: b_immediate(word),
    })
}

#[inline(always)]
fn decode_load(word: u32) -> Option<Instr>
    ensures { result ≡ load_row word }
{
    let kind = load_of(funct3_of(word))?;
    Some(Instr::Load {
        kind,
        rd: rd_of(word),
        rs1: rs1_of(word),
        offset: i_immediate(word),
    })
}

#[inline(always)]
fn decode_store(word: u32) -> Option<Instr>
    ensures { result ≡ store_row word }
{
    let size = store_of(funct3_of(word))?;
    Some(Instr::Store {
        size,
        rs1: rs1_of(word),
        rs2: rs2_of(word),
        offset: s_immediate(word),
    })
}

#[inline(always)]
fn decode_imm(word: u32) -> Option<Instr>
    ensures { result ≡ imm_row word }
{
    match imm_of(funct3_of(word)) {
        Some(op) => Some(Instr::AluImm {
            op,
            rd: rd_of(word),
            rs1: rs1_of(word),
            imm: i_immediate(word),
        }),
        None => decode_shift(word),
    }
}

#[inline(always)]
fn decode_shift(word: u32) -> Option<Instr>
    ensures { result ≡ shift_row word }
{
    let op = shift_of(funct3_of(word), funct7_of(word))?;
    Some(Instr::Shift {
        op,
        rd: rd_of(word),
        rs1: rs1_of(word),
        shamt: rs2_of(word),
    })
}

#[inline(always)]
fn decode_alu(word: u32) -> Option<Instr>
    ensures { result ≡ alu_row word }
{
    let op = alu_of(funct3_of(word), funct7_of(word))?;
    Some(Instr::Alu {
        op,
        rd: rd_of(word),
        rs1: rs1_of(word),
        rs2: rs2_of(word),
    })
}

#[inline(always)]
fn decode_fence(word: u32) -> Option<Instr>
    ensures { result ≡ fence_row word }
{
    if funct3_of(word) != 0 {
        return None;
    }
    Some(Instr::Fence {
        rd: rd_of(word),
        rs1: rs1_of(word),
        imm: field(word, 20, 12),
    })
}

#[inline(always)]
fn decode_system(word: u32) -> Option<Instr>
    ensures { result ≡ system_row word }
{
    match word {
        0x0000_0073 => Some(Instr::Ecall),
        0x0010_0073 => Some(Instr::Ebreak),
        _ => None,
    }
}

#[inline(always)]
#[tactic(auto, unfolding(crate::specs::Decoding::instruction_of))]
fn decode_row(word: u32) -> Option<Instr>
    ensures { result ≡ instruction_of word }
{
    match field(word, 0, 7) {
        0b0110111 => Some(Instr::Lui {
            rd: rd_of(word),
            imm: u_immediate(word),
        }),
        0b0010111 => Some(Instr::Auipc {
            rd: rd_of(word),
            imm: u_immediate(word),
        }),
        0b1101111 => Some(Instr::Jal {
            rd: rd_of(word),
            offset: j_immediate(word),
        }),
        0b1100111 => decode_jalr(word),
        0b1100011 => decode_branch(word),
        0b0000011 => decode_load(word),
        0b0100011 => decode_store(word),
        0b0010011 => decode_imm(word),
        0b0110011 => decode_alu(word),
        0b0001111 => decode_fence(word),
        0b1110011 => decode_system(word),
        _ => None,
    }
}

/// The instruction that the word encodes. `None` where it encodes none: CSR words and FENCE.I are no instructions here.
#[inline(always)]
#[tactic(auto, using(crate::proofs::DecodingLaws::decoded, crate::proofs::DecodingLaws::encoded, crate::proofs::DecodingLaws::in_range))]
pub fn decode(word: u32) -> Option<Instr>
    ensures exact { (i : Instr) → (result ≡ Some i) ↔ Encodes word i }
    ensures in_range { IfSome result IsInRange }
    ensures value { result ≡ instruction_of word }
{
    decode_row(word)
}
