//! The address that a fault of the guest is about.
ghost use Rattle.std.specs.Prelude.{◌≡◌, ◌<◌, ◌%◌, IfSome};
ghost use Rattle.ckrt_registers.specs.Registers.{get};
ghost use Rattle.ckrt_rv32i.specs.Table.{IsInRange};
ghost use Rattle.ckrt_rv32i.specs.Words.{word_add_signed};
ghost use Rattle.ckrt_cli_disk.specs.Addresses.{address_of, address_with, fault_address, instruction_at};

use ckrt_calls::Status;
use ckrt_machine::Machine;
use ckrt_memory::Memory;
use ckrt_registers::Regs;
use ckrt_rv32i::{Bus, Instr, Size, decode};

/// The sum of a register and a signed offset.
fn sum(regs: &Regs, base: u8, offset: i32) -> u32
    requires { base < 32 }
    ensures { result ≡ word_add_signed (get regs.now base) offset }
{
    regs.get(base).wrapping_add_signed(offset)
}

/// What an instruction loads from, stores to or jumps to.
fn address_of(regs: &Regs, instr: Instr) -> Option<u32>
    requires { IsInRange instr }
    ensures { result ≡ address_of regs.now instr }
{
    match instr {
        Instr::Load { rs1, offset, .. } => Some(sum(regs, rs1, offset)),
        Instr::Store { rs1, offset, .. } => Some(sum(regs, rs1, offset)),
        Instr::Jal { offset, .. } => Some(regs.pc().wrapping_add_signed(offset)),
        Instr::Branch { offset, .. } => Some(regs.pc().wrapping_add_signed(offset)),
        Instr::Jalr { rs1, offset, .. } => Some(sum(regs, rs1, offset) / 2 * 2),
        _ => None,
    }
}

/// The instruction at a pc, where there is one.
fn instruction_at(memory: &Memory, pc: u32) -> Option<Instr>
    requires { pc % 4 ≡ 0 }
    ensures found { result ≡ instruction_at memory.now.bytes pc }
    ensures in_range { IfSome result IsInRange }
{
    decode(memory.load(pc, Size::Word)?)
}

/// The address of the instruction that a thread with these registers didn't get beyond.
fn address_with(memory: &Memory, regs: &Regs) -> Option<u32>
    requires { regs.now.pc % 4 ≡ 0 }
    ensures { result ≡ address_with memory.now.bytes (Some regs.now) }
{
    address_of(regs, instruction_at(memory, regs.pc())?)
}

/// The address that the fault is about which ended a program, where one did and there is one.
pub(crate) fn fault_address(machine: &Machine) -> Option<u32>
    ensures { result ≡ fault_address machine.now.state }
{
    match machine.status() {
        Status::Faulted(thread, _, _) => {
            let regs = machine.tables().threads.regs(thread)?;
            address_with(machine.memory(), &regs)
        }
        _ => None,
    }
}
