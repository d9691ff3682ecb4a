//! What the operations of the instructions compute.
ghost use Rattle.std.specs.Prelude.{◌≡◌, ◌<◌};
ghost use Rattle.std.specs.Int.{w32, cast_unsigned};
ghost use Rattle.ckrt_rv32i.specs.Words.{is_less, is_less_signed, one_if, shifted_right_signed};
ghost use Rattle.ckrt_rv32i.specs.Memory.{value_end, is_aligned};
ghost use Rattle.ckrt_rv32i.specs.Effect.{holds, imm_result, shift_result, alu_result, load_size, extended};

use crate::instruction::{AluOp, Condition, ImmOp, LoadKind, ShiftOp};
use crate::memory_bus::Size;

/// The sign bit comes in from the left.
#[inline(always)]
fn shifted_right_signed(a: u32, n: u32) -> u32
    requires { n < 32 }
    ensures { result ≡ shifted_right_signed a n }
{
    (a.cast_signed() >> n).cast_unsigned()
}

#[inline(always)]
fn less(a: u32, b: u32) -> u32
    ensures { result ≡ one_if (is_less a b) }
{
    if a < b { 1 } else { 0 }
}

#[inline(always)]
fn less_signed(a: u32, b: u32) -> u32
    ensures { result ≡ one_if (is_less_signed a b) }
{
    if a.cast_signed() < b.cast_signed() {
        1
    } else {
        0
    }
}

impl Condition {
    /// Whether the condition holds of two registers' values.
    #[inline(always)]
    pub fn holds(self, a: u32, b: u32) -> bool
        ensures { result ≡ holds self a b }
    {
        match self {
            Condition::Eq => a == b,
            Condition::Ne => a != b,
            Condition::Lt => a.cast_signed() < b.cast_signed(),
            Condition::Ge => a.cast_signed() >= b.cast_signed(),
            Condition::Ltu => a < b,
            Condition::Geu => a >= b,
        }
    }
}

impl ImmOp {
    /// The result for a register's value and an immediate.
    #[inline(always)]
    pub fn apply(self, a: u32, imm: i32) -> u32
        ensures { result ≡ imm_result self a (cast_unsigned w32 imm) }
    {
        let b = imm.cast_unsigned();
        match self {
            ImmOp::Addi => a.wrapping_add(b),
            ImmOp::Slti => less_signed(a, b),
            ImmOp::Sltiu => less(a, b),
            ImmOp::Xori => a ^ b,
            ImmOp::Ori => a | b,
            ImmOp::Andi => a & b,
        }
    }
}

impl ShiftOp {
    /// The result for a register's value and an amount from 0 to 31.
    #[inline(always)]
    pub fn apply(self, a: u32, shamt: u8) -> u32
        requires { shamt < 32 }
        ensures { result ≡ shift_result self a shamt }
    {
        let n = shamt as u32;
        match self {
            ShiftOp::Slli => a << n,
            ShiftOp::Srli => a >> n,
            ShiftOp::Srai => shifted_right_signed(a, n),
        }
    }
}

impl AluOp {
    /// The result for two registers' values.
    #[inline(always)]
    pub fn apply(self, a: u32, b: u32) -> u32
        ensures { result ≡ alu_result self a b }
    {
        match self {
            AluOp::Add => a.wrapping_add(b),
            AluOp::Sub => a.wrapping_sub(b),
            AluOp::Sll => a << (b % 32),
            AluOp::Slt => less_signed(a, b),
            AluOp::Sltu => less(a, b),
            AluOp::Xor => a ^ b,
            AluOp::Srl => a >> (b % 32),
            AluOp::Sra => shifted_right_signed(a, b % 32),
            AluOp::Or => a | b,
            AluOp::And => a & b,
        }
    }
}

impl LoadKind {
    /// How many bytes are loaded.
    #[inline(always)]
    pub fn size(self) -> Size
        ensures { result ≡ load_size self }
    {
        match self {
            LoadKind::Byte | LoadKind::ByteUnsigned => Size::Byte,
            LoadKind::Half | LoadKind::HalfUnsigned => Size::Half,
            LoadKind::Word => Size::Word,
        }
    }

    /// The word that a loaded value is extended to.
    #[inline(always)]
    pub fn extend(self, value: u32) -> u32
        requires { value < value_end (load_size self) }
        ensures { result ≡ extended self value }
    {
        match self {
            LoadKind::Byte if value >= 0x80 => value.wrapping_add(0xffff_ff00),
            LoadKind::Half if value >= 0x8000 => value.wrapping_add(0xffff_0000),
            _ => value,
        }
    }
}

impl Size {
    /// Whether the address is a multiple of the size.
    #[inline(always)]
    pub fn is_aligned(self, address: u32) -> bool
        ensures { result ≡ is_aligned address self }
    {
        match self {
            Size::Byte => true,
            Size::Half => address % 2 == 0,
            Size::Word => address % 4 == 0,
        }
    }
}
