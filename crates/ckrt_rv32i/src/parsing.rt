//! From a text to its instruction.
ghost use Rattle.std.specs.Prelude.{◌≡◌, ◌==◌, ◌≤◌, ◌<◌, ◌↔◌, ℕ, IsTrue, true, false, Some, IfSome, drop, length, slice_index};
ghost use Rattle.ckrt_rv32i.specs.declared.instruction.Instr.{Instr};
ghost use Rattle.ckrt_rv32i.specs.Table.{IsInRange};
ghost use Rattle.ckrt_rv32i.specs.Text.{text_of};
ghost use Rattle.ckrt_rv32i.specs.Reading.{word_of, behind_word, ends_word, begins_number, from_number, digits_from, next_number, numbers_of, low_bits, with_numbers, named, read};

use crate::instruction::{AluOp, Condition, ImmOp, Instr, LoadKind, ShiftOp};
use crate::memory_bus::Size;
use crate::text::{instr_name, instr_text};

/// What an instruction does, its operands aside.
#[derive(Clone, Copy)]
enum Operation {
    Lui,
    Auipc,
    Jal,
    Jalr,
    Branch(Condition),
    Load(LoadKind),
    Store(Size),
    AluImm(ImmOp),
    Shift(ShiftOp),
    Alu(AluOp),
    Fence,
    Ecall,
    Ebreak,
}

const OPERATIONS: [Operation; 40] = [
    Operation::Lui,
    Operation::Auipc,
    Operation::Jal,
    Operation::Jalr,
    Operation::Branch(Condition::Eq),
    Operation::Branch(Condition::Ne),
    Operation::Branch(Condition::Lt),
    Operation::Branch(Condition::Ge),
    Operation::Branch(Condition::Ltu),
    Operation::Branch(Condition::Geu),
    Operation::Load(LoadKind::Byte),
    Operation::Load(LoadKind::Half),
    Operation::Load(LoadKind::Word),
    Operation::Load(LoadKind::ByteUnsigned),
    Operation::Load(LoadKind::HalfUnsigned),
    Operation::Store(Size::Byte),
    Operation::Store(Size::Half),
    Operation::Store(Size::Word),
    Operation::AluImm(ImmOp::Addi),
    Operation::AluImm(ImmOp::Slti),
    Operation::AluImm(ImmOp::Sltiu),
    Operation::AluImm(ImmOp::Xori),
    Operation::AluImm(ImmOp::Ori),
    Operation::AluImm(ImmOp::Andi),
    Operation::Shift(ShiftOp::Slli),
    Operation::Shift(ShiftOp::Srli),
    Operation::Shift(ShiftOp::Srai),
    Operation::Alu(AluOp::Add),
    Operation::Alu(AluOp::Sub),
    Operation::Alu(AluOp::Sll),
    Operation::Alu(AluOp::Slt),
    Operation::Alu(AluOp::Sltu),
    Operation::Alu(AluOp::Xor),
    Operation::Alu(AluOp::Srl),
    Operation::Alu(AluOp::Sra),
    Operation::Alu(AluOp::Or),
    Operation::Alu(AluOp::And),
    Operation::Fence,
    Operation::Ecall,
    Operation::Ebreak,
];

/// No number of a text is greater, its sign left off; greater ones are read as this one.
const NUMBER_LIMIT: u32 = 1 << 20;

/// The numbers of a text, in order; 0 where it has fewer than three.
#[derive(Clone, Copy)]
struct Numbers {
    first: i32,
    second: i32,
    third: i32,
}

/// A register or the amount of a shift.
fn low_bits(number: i32) -> u8
    ensures { result ≡ low_bits number }
{
    (number.unsigned_abs() % 32) as u8
}

impl Operation {
    /// The instruction whose text has these numbers.
    fn with_numbers(self, numbers: Numbers) -> Instr
        ensures { result ≡ with_numbers self numbers }
    {
        let Numbers {
            first,
            second,
            third,
        } = numbers;
        match self {
            Operation::Lui => Instr::Lui {
                rd: low_bits(first),
                imm: second.unsigned_abs(),
            },
            Operation::Auipc => Instr::Auipc {
                rd: low_bits(first),
                imm: second.unsigned_abs(),
            },
            Operation::Jal => Instr::Jal {
                rd: low_bits(first),
                offset: second,
            },
            Operation::Jalr => Instr::Jalr {
                rd: low_bits(first),
                rs1: low_bits(third),
                offset: second,
            },
            Operation::Branch(condition) => Instr::Branch {
                condition,
                rs1: low_bits(first),
                rs2: low_bits(second),
                offset: third,
            },
            Operation::Load(kind) => Instr::Load {
                kind,
                rd: low_bits(first),
                rs1: low_bits(third),
                offset: second,
            },
            Operation::Store(size) => Instr::Store {
                size,
                rs1: low_bits(third),
                rs2: low_bits(first),
                offset: second,
            },
            Operation::AluImm(op) => Instr::AluImm {
                op,
                rd: low_bits(first),
                rs1: low_bits(second),
                imm: third,
            },
            Operation::Shift(op) => Instr::Shift {
                op,
                rd: low_bits(first),
                rs1: low_bits(second),
                shamt: low_bits(third),
            },
            Operation::Alu(op) => Instr::Alu {
                op,
                rd: low_bits(first),
                rs1: low_bits(second),
                rs2: low_bits(third),
            },
            Operation::Fence => Instr::Fence {
                rd: low_bits(first),
                rs1: low_bits(second),
                imm: third.unsigned_abs(),
            },
            Operation::Ecall => Instr::Ecall,
            Operation::Ebreak => Instr::Ebreak,
        }
    }
}

/// The instruction of a name and of the numbers in its text, where one of the operations has this name.
#[tactic(auto, unfolding(crate::specs::Reading::named))]
fn named(operations: &[Operation], name: &[u8], numbers: Numbers) -> Option<Instr>
    ensures { result ≡ named operations.now name.now numbers }
{
    operations
        .iter()
        .map(|operation| operation.with_numbers(numbers))
        .find(|instr| instr_name(instr).as_bytes() == name)
}

/// How many bytes stand in front of the first space.
fn word_len(text: &[u8]) -> usize
    ensures within { result ≤ length text.now }
    ensures plain { (k : ℕ) → k < result → (slice_index text.now k == 32) ≡ false }
    ensures end { ends_word (drop result text.now) ≡ true }
{
    text.iter().position(|b| *b == b' ').unwrap_or(text.len())
}

/// The bytes in front of the first space, and the others.
fn split_word(text: &[u8]) -> (&[u8], &[u8])
    ensures { (result.0.now ≡ word_of text.now) × (result.1.now ≡ behind_word text.now) }
{
    text.split_at(word_len(text))
}

fn begins_number(b: u8) -> bool
    ensures { result ≡ begins_number b }
{
    b.is_ascii_digit() || b == b'-'
}

/// The text from its first number on.
fn from_number(text: &[u8]) -> &[u8]
    ensures { result.now ≡ from_number text.now }
{
    let mut rest = text;
    while let [b, tail @ ..] = rest {
        if begins_number(*b) {
            return rest;
        }
        rest = tail;
    }
    rest
}

/// The number that the digits in front of a text write, and what follows them.
fn digits(text: &[u8]) -> (u32, &[u8])
    ensures value { (result.0 ≡ (digits_from 0 text.now).0)
        × (result.1.now ≡ (digits_from 0 text.now).1) }
    ensures small { result.0 ≤ NUMBER_LIMIT }
{
    let mut value = 0u32;
    let mut rest = text;
    while let [b, tail @ ..] = rest {
        if !b.is_ascii_digit() {
            return (value, rest);
        }
        value = (10 * value + u32::from(*b - b'0')).min(NUMBER_LIMIT);
        rest = tail;
    }
    (value, rest)
}

/// The next number of a text, and what follows it.
fn next_number(text: &[u8]) -> (i32, &[u8])
    ensures { (result.0 ≡ (next_number text.now).0) × (result.1.now ≡ (next_number text.now).1) }
{
    let text = from_number(text);
    if let [b'-', tail @ ..] = text {
        let (value, rest) = digits(tail);
        return (-(value as i32), rest);
    }
    let (value, rest) = digits(text);
    (value as i32, rest)
}

fn numbers_of(text: &[u8]) -> Numbers
    ensures { result ≡ numbers_of text.now }
{
    let (first, rest) = next_number(text);
    let (second, rest) = next_number(rest);
    let (third, _) = next_number(rest);
    Numbers {
        first,
        second,
        third,
    }
}

/// The instruction whose text this is, where it is one's: its name and its numbers are read, and what stands between them isn't.
fn read(text: &[u8]) -> Option<Instr>
    ensures { result ≡ read text.now }
{
    let (name, rest) = split_word(text);
    named(&OPERATIONS, name, numbers_of(rest))
}

/// Whether the instruction is in range and this is its text.
fn is_text_of(text: &[u8], instr: &Instr) -> bool
    ensures { IsTrue result ↔ (IsInRange instr.now × (text.now ≡ text_of instr.now)) }
{
    instr.in_range() && instr_text(instr).as_bytes() == text
}

/// The instruction whose text this is, byte by byte as `instr_text` gives it; `None` for every other text. Its fields are in range.
pub fn parse_instr(text: &[u8]) -> Option<Instr>
    ensures exact { (instr : Instr) → (result ≡ Some instr)
        ↔ (IsInRange instr × (text.now ≡ text_of instr)) }
    ensures in_range { IfSome result IsInRange }
{
    let instr = read(text)?;
    if is_text_of(text, &instr) {
        Some(instr)
    } else {
        None
    }
}
