//! Which bits of a result hang on bits that nothing has stored.
ghost use Rattle.std.specs.Prelude.{◌≡◌};
ghost use Rattle.ckrt_rv32i.specs.Words.{one_if};
ghost use Rattle.ckrt_look_values.specs.Bits.{alu_unknown, complement, flipped, high, is_equality_open, is_less_open, is_open, loaded_unknown, low, ones, op_of, shift_of, shifted_unknown, some, spread, stored_unknown};

use ckrt_rv32i::{AluOp, Condition, ImmOp, LoadKind, ShiftOp, Size};

/// All bits of a word.
const ALL: u32 = 0xffff_ffff;

/// What an instruction takes: a word, and which of its bits hang on what nothing has stored.
#[derive(Clone, Copy, Debug)]
pub struct Operand {
    pub value: u32,
    pub unknown: u32,
}

/// The bits that aren't in a word.
fn complement(word: u32) -> u32
    ensures { result ≡ complement word }
{
    word ^ ALL
}

/// The bits that are unknown in one operand at least.
pub(crate) fn some(a: Operand, b: Operand) -> u32
    ensures { result ≡ some a b }
{
    a.unknown | b.unknown
}

/// The word with 0 for each unknown bit.
fn low(a: Operand) -> u32
    ensures { result ≡ low a }
{
    a.value & complement(a.unknown)
}

/// The word with 1 for each unknown bit.
fn high(a: Operand) -> u32
    ensures { result ≡ high a }
{
    a.value | a.unknown
}

/// The operand whose order as unsigned is that of this one as signed.
fn flipped(a: Operand) -> Operand
    ensures { result ≡ flipped a }
{
    Operand {
        value: a.value ^ 0x8000_0000,
        unknown: a.unknown,
    }
}

/// Whether the unknown bits decide which operand is less, as unsigned words.
fn is_less_open(a: Operand, b: Operand) -> bool
    ensures { result ≡ is_less_open a b }
{
    low(a) < high(b) && high(a) >= low(b)
}

/// Whether the unknown bits decide if operands are equal: no known bit differs.
fn is_equality_open(a: Operand, b: Operand) -> bool
    ensures { result ≡ is_equality_open a b }
{
    some(a, b) != 0 && (a.value ^ b.value) & complement(some(a, b)) == 0
}

/// Whether unknown bits decide if a branch is taken.
pub(crate) fn is_open(condition: Condition, a: Operand, b: Operand) -> bool
    ensures { result ≡ is_open condition a b }
{
    match condition {
        Condition::Eq | Condition::Ne => is_equality_open(a, b),
        Condition::Lt | Condition::Ge => is_less_open(flipped(a), flipped(b)),
        Condition::Ltu | Condition::Geu => is_less_open(a, b),
    }
}

/// A bit that is unknown, or not.
fn bit_if(is_open: bool) -> u32
    ensures { result ≡ one_if is_open }
{
    if is_open { 1 } else { 0 }
}

/// The unknown bits of what is shifted: they are shifted, too, unless the amount is unknown.
fn shifted_unknown(op: AluOp, a: Operand, b: Operand) -> u32
    ensures { result ≡ shifted_unknown op a b }
{
    if b.unknown % 32 == 0 {
        op.apply(a.unknown, b.value)
    } else {
        ALL
    }
}

/// The unknown bits of a sum or a difference: where an operand is unknown, or the least outcome and the greatest one differ by a carry.
fn spread(a: Operand, b: Operand, least: u32, greatest: u32) -> u32
    ensures { result ≡ spread a b least greatest }
{
    some(a, b) | (least ^ greatest)
}

/// The unknown bits of a result.
pub(crate) fn alu_unknown(op: AluOp, a: Operand, b: Operand) -> u32
    ensures { result ≡ alu_unknown op a b }
{
    match op {
        AluOp::Add => spread(a, b, op.apply(low(a), low(b)), op.apply(high(a), high(b))),
        AluOp::Sub => spread(a, b, op.apply(low(a), high(b)), op.apply(high(a), low(b))),
        AluOp::Xor => some(a, b),
        AluOp::And => some(a, b) & high(a) & high(b),
        AluOp::Or => some(a, b) & complement(low(a)) & complement(low(b)),
        AluOp::Slt => bit_if(is_less_open(flipped(a), flipped(b))),
        AluOp::Sltu => bit_if(is_less_open(a, b)),
        AluOp::Sll | AluOp::Srl | AluOp::Sra => shifted_unknown(op, a, b),
    }
}

/// The operation on two registers that does the same.
pub(crate) fn op_of(op: ImmOp) -> AluOp
    ensures { result ≡ op_of op }
{
    match op {
        ImmOp::Addi => AluOp::Add,
        ImmOp::Slti => AluOp::Slt,
        ImmOp::Sltiu => AluOp::Sltu,
        ImmOp::Xori => AluOp::Xor,
        ImmOp::Ori => AluOp::Or,
        ImmOp::Andi => AluOp::And,
    }
}

/// The operation on two registers that shifts so.
pub(crate) fn shift_of(op: ShiftOp) -> AluOp
    ensures { result ≡ shift_of op }
{
    match op {
        ShiftOp::Slli => AluOp::Sll,
        ShiftOp::Srli => AluOp::Srl,
        ShiftOp::Srai => AluOp::Sra,
    }
}

/// The unknown bits of what is loaded from an address, out of those of the word there.
pub(crate) fn loaded_unknown(kind: LoadKind, address: u32, unknown: u32) -> u32
    ensures { result ≡ loaded_unknown kind address unknown }
{
    let here = AluOp::Srl.apply(unknown, 8 * (address % 4));
    match kind {
        LoadKind::Byte => LoadKind::Byte.extend(here % 256),
        LoadKind::Half => LoadKind::Half.extend(here % 65_536),
        LoadKind::ByteUnsigned => here % 256,
        LoadKind::HalfUnsigned => here % 65_536,
        LoadKind::Word => unknown,
    }
}

/// As many low bits as a store has.
pub(crate) fn ones(size: Size) -> u32
    ensures { result ≡ ones size }
{
    match size {
        Size::Byte => 0xff,
        Size::Half => 0xffff,
        Size::Word => ALL,
    }
}

/// The unknown bits of a word after a store to an address, out of those before and those of what is stored.
pub(crate) fn stored_unknown(size: Size, address: u32, stored: u32, unknown: u32) -> u32
    ensures { result ≡ stored_unknown size address stored unknown }
{
    let here = AluOp::Sll.apply(ones(size), 8 * (address % 4));
    let put = AluOp::Sll.apply(stored, 8 * (address % 4));
    (unknown & complement(here)) | (put & here)
}
