//! One step of a hart: fetch, decode, effect.
ghost use Rattle.std.specs.Prelude.{◌≡◌, ◌*◌, ◌/◌, ◌%◌, ◌<◌, ℕ, []};
ghost use Rattle.ckrt_registers.specs.Registers.{get, put};
ghost use Rattle.ckrt_rv32i.specs.Words.{word_add_signed};
ghost use Rattle.ckrt_rv32i.specs.Table.{IsInRange};
ghost use Rattle.ckrt_rv32i.specs.Decoding.{instruction_of};
ghost use Rattle.ckrt_rv32i.specs.Effect.{jump, load_effect, store_effect, effect, instruction_step, following};
ghost use Rattle.ckrt_rv32i.specs.Stores.{stored_to, stored_by, stored_in_step};

use crate::decoding::decode;
use crate::instruction::{Instr, LoadKind};
use crate::memory_bus::{Bus, Size};
use ckrt_registers::Regs;
use std::fmt;

/// Why a step faults. A fault changes no register, no byte and not the pc.
#[derive(Clone, Copy, Debug, PartialEq, Eq)]
pub enum Cause {
    /// The pc is no valid address.
    FetchRange,
    /// The word encodes no instruction.
    Illegal,
    /// The target of a jump or of a branch that is taken is no multiple of 4.
    JumpMisaligned,
    /// The address of a load is no multiple of its size.
    LoadMisaligned,
    /// A byte of a load isn't in the memory, also where `rd` is x0.
    LoadRange,
    /// The address of a store is no multiple of its size.
    StoreMisaligned,
    /// A byte of a store isn't in the memory.
    StoreRange,
    /// EBREAK.
    Breakpoint,
    /// A thread that isn't unwinding runs the address to which handlers return. `execute` doesn't answer it: the machine above does.
    Gate,
}

impl Cause {
    ghost use Rattle.ckrt_rv32i.specs.Names.{cause_name};

    /// The name of the cause, as listings and messages print it.
    pub fn name(self) -> &'static str
        ensures { result.now ≡ cause_name self }
    {
        match self {
            Cause::FetchRange => "FetchRange",
            Cause::Illegal => "Illegal",
            Cause::JumpMisaligned => "JumpMisaligned",
            Cause::LoadMisaligned => "LoadMisaligned",
            Cause::LoadRange => "LoadRange",
            Cause::StoreMisaligned => "StoreMisaligned",
            Cause::StoreRange => "StoreRange",
            Cause::Breakpoint => "Breakpoint",
            Cause::Gate => "Gate",
        }
    }
}

impl fmt::Display for Cause {
    ghost use Rattle.std.specs.Prelude.{Some};
    ghost use Rattle.ckrt_rv32i.specs.Names.{cause_name};

    ghost output = { λ c. Some (cause_name c) };

    fn fmt<W: fmt::Write>(&self, f: &mut fmt::Formatter<W>) -> fmt::Result {
        f.write_str(self.name())
    }
}

/// How a step ends.
#[derive(Clone, Copy, Debug, PartialEq, Eq)]
pub enum Outcome {
    /// The next step may follow.
    Next,
    /// ECALL: the pc is after it, and the caller makes the call.
    Call,
    /// Nothing changed, for this cause.
    Fault(Cause),
}

/// The sum of a register and a signed offset.
#[inline(always)]
fn address(regs: &Regs, base: u8, offset: i32) -> u32
    requires { base < 32 }
    ensures { result ≡ word_add_signed (get regs.now base) offset }
{
    regs.get(base).wrapping_add_signed(offset)
}

/// The target of a jump to the sum of a register and a signed offset: bit 0 is cleared.
#[inline(always)]
fn even_address(regs: &Regs, base: u8, offset: i32) -> u32
    requires { base < 32 }
    ensures { result ≡ word_add_signed (get regs.now base) offset / 2 * 2 }
{
    address(regs, base, offset) / 2 * 2
}

/// On to the next instruction.
#[inline(always)]
fn advance(regs: &mut Regs) -> Outcome
    ensures outcome { result ≡ Outcome.Next }
    ensures registers { regs.new ≡ record regs.old { pc = following regs.old } }
{
    regs.set_pc(regs.pc().wrapping_add(4));
    Outcome::Next
}

/// Puts the result into a register, and goes on to the next instruction.
#[inline(always)]
fn finish(regs: &mut Regs, rd: u8, value: u32) -> Outcome
    requires { rd < 32 }
    ensures outcome { result ≡ Outcome.Next }
    ensures registers { regs.new ≡ record { pc = following regs.old; x = put regs.old rd value } }
{
    regs.put(rd, value);
    advance(regs)
}

/// On to the target, if it is a multiple of 4.
#[inline(always)]
fn jump(regs: &mut Regs, target: u32) -> Outcome
    ensures outcome { result ≡ (jump target regs.old.x regs.old []).outcome }
    ensures registers { regs.new ≡ (jump target regs.old.x regs.old []).registers }
{
    if target % 4 != 0 {
        return Outcome::Fault(Cause::JumpMisaligned);
    }
    regs.set_pc(target);
    Outcome::Next
}

/// The same, with the address of the next instruction in a register.
#[inline(always)]
fn link(regs: &mut Regs, rd: u8, target: u32) -> Outcome
    requires { rd < 32 }
    ensures outcome { result
        ≡ (jump target (put regs.old rd (following regs.old)) regs.old []).outcome }
    ensures registers { regs.new
        ≡ (jump target (put regs.old rd (following regs.old)) regs.old []).registers }
{
    if target % 4 != 0 {
        return Outcome::Fault(Cause::JumpMisaligned);
    }
    regs.put(rd, regs.pc().wrapping_add(4));
    regs.set_pc(target);
    Outcome::Next
}

/// Loads into `rd`, aligned and in the memory, or faults.
#[inline(always)]
fn load<B: Bus>(regs: &mut Regs, bus: &B, kind: LoadKind, rd: u8, address: u32) -> Outcome
    requires { rd < 32 }
    ensures outcome { result ≡ (load_effect kind rd address regs.old (B.bytes bus.now)).outcome }
    ensures registers { regs.new
        ≡ (load_effect kind rd address regs.old (B.bytes bus.now)).registers }
{
    let size = kind.size();
    if !size.is_aligned(address) {
        return Outcome::Fault(Cause::LoadMisaligned);
    }
    match bus.load(address, size) {
        Some(value) => finish(regs, rd, kind.extend(value)),
        None => Outcome::Fault(Cause::LoadRange),
    }
}

/// Stores, aligned and in the memory, or faults.
#[inline(always)]
fn store<B: Bus>(regs: &mut Regs, bus: &mut B, size: Size, address: u32, value: u32) -> Outcome
    ensures outcome { result
        ≡ (store_effect size address value regs.old (B.bytes bus.old)).outcome }
    ensures registers { regs.new
        ≡ (store_effect size address value regs.old (B.bytes bus.old)).registers }
    ensures bytes { B.bytes bus.new
        ≡ (store_effect size address value regs.old (B.bytes bus.old)).bytes }
    ensures follows { B.Follows (stored_to size address (B.bytes bus.old)) bus.old bus.new }
{
    if !size.is_aligned(address) {
        return Outcome::Fault(Cause::StoreMisaligned);
    }
    if !bus.store(address, size, value) {
        return Outcome::Fault(Cause::StoreRange);
    }
    advance(regs)
}

/// The effect of an instruction.
#[inline(always)]
fn perform<B: Bus>(instr: Instr, regs: &mut Regs, bus: &mut B) -> Outcome
    requires in_range { IsInRange instr }
    ensures outcome { result ≡ (effect instr regs.old (B.bytes bus.old)).outcome }
    ensures registers { regs.new ≡ (effect instr regs.old (B.bytes bus.old)).registers }
    ensures bytes { B.bytes bus.new ≡ (effect instr regs.old (B.bytes bus.old)).bytes }
    ensures follows { B.Follows (stored_by instr regs.old (B.bytes bus.old)) bus.old bus.new }
{
    match instr {
        Instr::Lui { rd, imm } => finish(regs, rd, imm << 12),
        Instr::Auipc { rd, imm } => finish(regs, rd, regs.pc().wrapping_add(imm << 12)),
        Instr::Jal { rd, offset } => link(regs, rd, regs.pc().wrapping_add_signed(offset)),
        Instr::Jalr { rd, rs1, offset } => link(regs, rd, even_address(regs, rs1, offset)),
        Instr::Branch {
            condition,
            rs1,
            rs2,
            offset,
        } => {
            if condition.holds(regs.get(rs1), regs.get(rs2)) {
                jump(regs, regs.pc().wrapping_add_signed(offset))
            } else {
                advance(regs)
            }
        }
        Instr::Load {
            kind,
            rd,
            rs1,
            offset,
        } => load(regs, bus, kind, rd, address(regs, rs1, offset)),
        Instr::Store {
            size,
            rs1,
            rs2,
            offset,
        } => store(regs, bus, size, address(regs, rs1, offset), regs.get(rs2)),
        Instr::AluImm { op, rd, rs1, imm } => finish(regs, rd, op.apply(regs.get(rs1), imm)),
        Instr::Shift { op, rd, rs1, shamt } => finish(regs, rd, op.apply(regs.get(rs1), shamt)),
        Instr::Alu { op, rd, rs1, rs2 } => finish(regs, rd, op.apply(regs.get(rs1), regs.get(rs2))),
        Instr::Fence { .. } => advance(regs),
        Instr::Ecall => {
            regs.set_pc(regs.pc().wrapping_add(4));
            Outcome::Call
        }
        Instr::Ebreak => Outcome::Fault(Cause::Breakpoint),
    }
}

/// One step: fetches the word at the pc, decodes it and does what it says. The pc is a multiple of 4, and stays so.
#[inline]
pub fn execute<B: Bus>(regs: &mut Regs, bus: &mut B) -> Outcome
    requires { regs.old.pc % 4 ≡ 0 }
    ensures outcome { result ≡ (instruction_step regs.old (B.bytes bus.old)).outcome }
    ensures registers { regs.new ≡ (instruction_step regs.old (B.bytes bus.old)).registers }
    ensures bytes { B.bytes bus.new ≡ (instruction_step regs.old (B.bytes bus.old)).bytes }
    ensures aligned { regs.new.pc % 4 ≡ 0 }
    ensures follows { B.Follows (stored_in_step regs.old (B.bytes bus.old)) bus.old bus.new }
{
    let Some(word) = bus.load(regs.pc(), Size::Word) else {
        return Outcome::Fault(Cause::FetchRange);
    };
    let Some(instr) = decode(word) else {
        return Outcome::Fault(Cause::Illegal);
    };
    perform(instr, regs, bus)
}
