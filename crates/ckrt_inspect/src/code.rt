//! The code that a thread is about to run.
ghost use Rattle.std.specs.Prelude.{◌≡◌, ◌++◌, ◌%◌, ◌+◌, OnOk, IsTrue, true};
ghost use Rattle.ckrt_rv32i.specs.Memory.{is_aligned};
ghost use Rattle.ckrt_rv32i.specs.Decoding.{instruction_of};
ghost use Rattle.ckrt_rv32i.specs.declared.memory_bus.Size.TheVariants as size;
ghost use Rattle.ckrt_inspect.specs.Code.{address_behind, code_line, code_lines, instruction_text, word_line};

use crate::texts::{push, push_hex};
use ckrt_memory::Memory;
use ckrt_rv32i::{Bus, Size, decode, instr_text};
use std::alloc::AllocError;

/// The text of the instruction that a word encodes.
fn push_instruction(out: &mut Vec<u8>, word: u32) -> Result<(), AllocError>
    ensures { OnOk result
        (out.new.items ≡ out.old.items ++ instruction_text (instruction_of word)) }
{
    match decode(word) {
        Some(instr) => push(out, instr_text(&instr).as_bytes()),
        None => push(out, b"illegal"),
    }
}

fn push_word_line(out: &mut Vec<u8>, address: u32, word: u32) -> Result<(), AllocError>
    ensures { OnOk result (out.new.items ≡ out.old.items ++ word_line address word) }
{
    push(out, b"  ")?;
    push_hex(out, address)?;
    push(out, b" ")?;
    push_hex(out, word)?;
    push(out, b" ")?;
    push_instruction(out, word)?;
    push(out, b"\n")
}

/// The line of the word at an address, where that is in the memory.
fn push_code_line(out: &mut Vec<u8>, memory: &Memory, address: u32) -> Result<(), AllocError>
    requires { IsTrue (is_aligned address size.Word) }
    ensures { OnOk result (out.new.items ≡ out.old.items ++ code_line memory.now.bytes address) }
{
    match memory.load(address, Size::Word) {
        Some(word) => push_word_line(out, address, word),
        None => Ok(()),
    }
}

/// The line of the word that many bytes after a pc. Addresses wrap.
#[tactic(auto, using(crate::proofs::CodeLemmas::aligned_behind))]
fn push_line_behind(
    out: &mut Vec<u8>,
    memory: &Memory,
    pc: u32,
    bytes: u32,
) -> Result<(), AllocError>
    requires pc { pc % 4 ≡ 0 }
    requires bytes { bytes % 4 ≡ 0 }
    ensures { OnOk result (out.new.items
        ≡ out.old.items ++ code_line memory.now.bytes (address_behind pc bytes)) }
{
    push_code_line(out, memory, pc.wrapping_add(bytes))
}

/// The lines of the four words from a pc on.
pub fn push_code(out: &mut Vec<u8>, memory: &Memory, pc: u32) -> Result<(), AllocError>
    requires { pc % 4 ≡ 0 }
    ensures { OnOk result (out.new.items ≡ out.old.items ++ code_lines memory.now.bytes pc) }
{
    push_line_behind(out, memory, pc, 0)?;
    push_line_behind(out, memory, pc, 4)?;
    push_line_behind(out, memory, pc, 8)?;
    push_line_behind(out, memory, pc, 12)
}
