//! A core, part by part.
ghost use Rattle.std.specs.Prelude.{◌≡◌, ◌≤◌, OnOk, length};
ghost use Rattle.std.specs.Io.KnownBytes.{Appends};
ghost use Rattle.ckrt_gdb_forms.specs.Core.{core_of, headers, memory_segment, note_segment};

use crate::elf::{PT_LOAD, PT_NOTE, Segment, write_elf_header, write_program_header};
use crate::notes::{notes_size, write_notes};
use ckrt_machine::Machine;
use ckrt_memory::{Memory, PAGE_SIZE};
use std::io::{Result, Write};

/// Where the notes begin: after the ELF header and two program headers.
const NOTES_START: u32 = 116;

/// The address of the memory's first byte.
const MEMORY_START: u32 = 0x1000;

/// A program may read, write and execute.
const ALL_FLAGS: u32 = 7;

/// That many bytes of notes, which are nowhere in memory.
fn note_segment(size: u32) -> Segment
    ensures { result ≡ note_segment size }
{
    Segment {
        kind: PT_NOTE,
        offset: NOTES_START,
        address: 0,
        file_size: size,
        memory_size: 0,
        flags: 0,
    }
}

/// That many bytes of memory, after that many of notes.
fn memory_segment(notes: u32, size: u32) -> Segment
    requires { notes ≤ 14784 }
    ensures { result ≡ memory_segment notes size }
{
    Segment {
        kind: PT_LOAD,
        offset: NOTES_START + notes,
        address: MEMORY_START,
        file_size: size,
        memory_size: size,
        flags: ALL_FLAGS,
    }
}

/// What stands before that many bytes of notes and that many of memory.
fn write_headers<W: Write>(out: &mut W, notes: u32, memory: u32) -> Result<()>
    requires { notes ≤ 14784 }
    ensures { OnOk result
        (Appends (W.contents out.old) (W.contents out.new) (headers notes memory)) }
{
    write_elf_header(out)?;
    write_program_header(out, &note_segment(notes))?;
    write_program_header(out, &memory_segment(notes, memory))
}

/// How many bytes a memory has.
fn memory_size(memory: &Memory) -> u32
    ensures { result ≡ length memory.now.bytes }
{
    PAGE_SIZE as u32 * (memory.pages() - 1)
}

/// The bytes of a memory, page by page.
#[tactic(auto, using(crate::proofs::AppendLemmas::appends_none, crate::proofs::MemoryLemmas::appends_page, crate::proofs::MemoryLemmas::appends_pages))]
fn write_memory<W: Write>(out: &mut W, memory: &Memory) -> Result<()>
    ensures { OnOk result (Appends (W.contents out.old) (W.contents out.new) memory.now.bytes) }
{
    for page in 1..memory.pages() {
        out.write_all(memory.page(page))?;
    }
    Ok(())
}

/// How many bytes the ELF core of a machine's state has.
pub fn core_size(machine: &Machine) -> usize
    ensures { result ≡ length (core_of machine.now.state) }
{
    let notes = notes_size(machine.tables());
    let memory = memory_size(machine.memory());
    NOTES_START as usize + notes as usize + memory as usize
}

/// Writes the ELF core of a machine's state, and flushes the writer.
///
/// It has a note of each thread that hasn't ended, with the thread's id and registers, and the memory from address 4,096
/// on. A thread that faulted comes first, and each note has the signal that the fault would be to a thread of Linux.
///
/// Most pieces have four bytes, so a file wants a `BufWriter` before it.
///
/// # Errors
///
/// The writer's own. What it took then is no whole core.
pub fn write_core<W: Write>(machine: &Machine, out: &mut W) -> Result<()>
    ensures { OnOk result
        (Appends (W.contents out.old) (W.contents out.new) (core_of machine.now.state)) }
{
    let tables = machine.tables();
    let memory = machine.memory();
    write_headers(out, notes_size(tables), memory_size(memory))?;
    write_notes(out, tables)?;
    write_memory(out, memory)?;
    out.flush()
}
