//! The notes of threads.
ghost use Rattle.std.specs.Prelude.{◌≡◌, ◌≤◌, ◌+◌, ℕ, OnOk, length};
ghost use Rattle.std.specs.List.{flat_map};
ghost use Rattle.std.specs.Io.KnownBytes.{Appends};
ghost use Rattle.ckrt_thread.specs.Contents.{rows_of};
ghost use Rattle.ckrt_thread.specs.State.{regs_of};
ghost use Rattle.ckrt_gdb_forms.specs.Notes.{all_notes, cause_signal, faulted_notes, general, has_faulted, note_head, notes_at, other_notes, other_notes_of, prstatus, signal_of, thread_note};

use crate::elf::write_words;
use ckrt_calls::{Status, Tables};
use ckrt_registers::Regs;
use ckrt_rv32i::Cause;
use ckrt_thread::{Thread, ThreadId};
use std::io::{Result, Write};

const NT_PRSTATUS: u32 = 1;

/// How many bytes Linux's `struct elf_prstatus` of 32-bit RISC-V has.
const PRSTATUS_SIZE: u32 = 204;

/// How many bytes a thread's note has.
const NOTE_SIZE: u32 = 224;

const SIGILL: u32 = 4;

const SIGTRAP: u32 = 5;

const SIGBUS: u32 = 7;

const SIGSEGV: u32 = 11;

/// The signal that a fault would be to a thread of Linux.
fn cause_signal(cause: Cause) -> u32
    ensures { result ≡ cause_signal cause }
{
    match cause {
        Cause::Illegal => SIGILL,
        Cause::Breakpoint => SIGTRAP,
        Cause::JumpMisaligned | Cause::LoadMisaligned | Cause::StoreMisaligned => SIGBUS,
        Cause::FetchRange | Cause::LoadRange | Cause::StoreRange | Cause::Gate => SIGSEGV,
    }
}

/// The signal that ended a program, 0 where none did.
fn signal_of(status: Status) -> u32
    ensures { result ≡ signal_of status }
{
    match status {
        Status::Faulted(_, _, cause) => cause_signal(cause),
        Status::Running | Status::Exited(_) => 0,
    }
}

/// The sizes and the type of a thread's note, and its name.
#[tactic(auto, using(crate::proofs::AppendLemmas::appends_both))]
fn write_note_head<W: Write>(out: &mut W) -> Result<()>
    ensures { OnOk result
        (Appends (W.contents out.old) (W.contents out.new) (note_head 1 204)) }
{
    write_words(out, &[5, PRSTATUS_SIZE, NT_PRSTATUS])?;
    out.write_all(b"CORE\0\0\0\0")
}

/// The pc, and x1 to x31.
#[tactic(auto, using(crate::proofs::NoteLemmas::appends_registers))]
fn write_registers<W: Write>(out: &mut W, regs: &Regs) -> Result<()>
    ensures { OnOk result (Appends (W.contents out.old) (W.contents out.new) (general regs.now)) }
{
    let file = regs.file();
    write_words(out, &[regs.pc()])?;
    write_words(out, &file[1..32])
}

/// What a note says of a thread.
fn write_status<W: Write>(out: &mut W, signal: u32, id: ThreadId, regs: &Regs) -> Result<()>
    ensures { OnOk result
        (Appends (W.contents out.old) (W.contents out.new) (prstatus signal id regs.now)) }
{
    let number = u32::from(id);
    write_words(
        out,
        &[
            signal, 0, 0, signal, 0, 0, number, 0, 0, 0, 0, 0, 0, 0, 0, 0, 0, 0,
        ],
    )?;
    write_registers(out, regs)?;
    write_words(out, &[0])
}

/// A thread's note.
fn write_note<W: Write>(out: &mut W, signal: u32, id: ThreadId, regs: &Regs) -> Result<()>
    ensures { OnOk result
        (Appends (W.contents out.old) (W.contents out.new) (thread_note signal id regs.now)) }
{
    regs.known();
    write_note_head(out)?;
    write_status(out, signal, id, regs)
}

/// The note of a thread that has registers: it hasn't ended.
#[tactic(auto, using(crate::proofs::AppendLemmas::appends_none))]
fn write_note_of<W: Write>(out: &mut W, signal: u32, id: ThreadId, regs: Option<Regs>) -> Result<()>
    ensures { OnOk result
        (Appends (W.contents out.old) (W.contents out.new) (notes_at signal id regs)) }
{
    match regs {
        Some(regs) => write_note(out, signal, id, &regs),
        None => Ok(()),
    }
}

/// How many bytes that is.
fn note_size_of(regs: Option<Regs>) -> u32
    ensures size { (signal id : ℕ) → result ≡ length (notes_at signal id regs) }
    ensures within { result ≤ 224 }
{
    match regs {
        Some(regs) => note_size(&regs),
        None => 0,
    }
}

fn note_size(regs: &Regs) -> u32
    ensures size { (signal id : ℕ) → result ≡ length (thread_note signal id regs.now) }
    ensures within { result ≤ 224 }
{
    regs.known();
    NOTE_SIZE
}

/// The registers of what stands for an id, if that is a thread that hasn't ended.
fn regs_of(slot: &Option<Thread>) -> Option<Regs>
    ensures { result ≡ regs_of slot.now }
{
    match slot {
        Some(Thread::Live(live)) => Some(live.regs),
        Some(Thread::Ended(_)) | None => None,
    }
}

/// Whether the thread faulted.
fn has_faulted(status: Status, id: ThreadId) -> bool
    ensures { result ≡ has_faulted status id }
{
    match status {
        Status::Faulted(thread, _, _) => thread == id,
        Status::Running | Status::Exited(_) => false,
    }
}

/// The note of the thread that faulted, if one did.
#[tactic(auto, using(crate::proofs::AppendLemmas::appends_none))]
fn write_faulted<W: Write>(out: &mut W, tables: &Tables) -> Result<()>
    ensures { OnOk result
        (Appends (W.contents out.old) (W.contents out.new)
        (faulted_notes tables.now.status tables.now.threads)) }
{
    match tables.status {
        Status::Faulted(thread, _, cause) => {
            write_note_of(
                out,
                cause_signal(cause),
                thread,
                tables.threads.regs(thread),
            )
        }
        Status::Running | Status::Exited(_) => Ok(()),
    }
}

/// How many bytes that is.
fn faulted_size(tables: &Tables) -> u32
    ensures size { result ≡ length (faulted_notes tables.now.status tables.now.threads) }
    ensures within { result ≤ 224 }
{
    match tables.status {
        Status::Faulted(thread, _, _) => note_size_of(tables.threads.regs(thread)),
        Status::Running | Status::Exited(_) => 0,
    }
}

/// The note of another thread than the one that faulted, where one stands for the id.
#[tactic(auto, using(crate::proofs::NoteLemmas::appends_faulted, crate::proofs::NoteLemmas::appends_other))]
fn write_other<W: Write>(
    out: &mut W,
    status: Status,
    id: ThreadId,
    slot: &Option<Thread>,
) -> Result<()>
    ensures { OnOk result
        (Appends (W.contents out.old) (W.contents out.new)
        (flat_map (other_notes_of status) (rows_of id slot.now))) }
{
    if has_faulted(status, id) {
        return Ok(());
    }
    write_note_of(out, signal_of(status), id, regs_of(slot))
}

/// How many bytes that is.
#[tactic(auto, using(crate::proofs::NoteLemmas::size_of_faulted, crate::proofs::NoteLemmas::size_of_other))]
fn other_size(status: Status, id: ThreadId, slot: &Option<Thread>) -> u32
    ensures size { result ≡ length (flat_map (other_notes_of status) (rows_of id slot.now)) }
    ensures within { result ≤ 224 }
{
    if has_faulted(status, id) {
        return 0;
    }
    note_size_of(regs_of(slot))
}

/// The notes of all threads but the one that faulted.
#[tactic(auto, using(crate::proofs::NoteLemmas::others_more, crate::proofs::AppendLemmas::completes_all))]
fn write_others<W: Write>(out: &mut W, tables: &Tables) -> Result<()>
    ensures { OnOk result
        (Appends (W.contents out.old) (W.contents out.new)
        (other_notes tables.now.status tables.now.threads)) }
{
    let mut id = 0;
    let mut rest = tables.threads.slots();
    while let [slot, tail @ ..] = rest {
        write_other(out, tables.status, id, slot)?;
        id += 1;
        rest = tail;
    }
    Ok(())
}

/// How many bytes that is.
#[tactic(auto, using(crate::proofs::NoteLemmas::sizes_more))]
fn others_size(tables: &Tables) -> u32
    ensures size { result ≡ length (other_notes tables.now.status tables.now.threads) }
    ensures within { result ≤ 14560 }
{
    let mut size = 0;
    let mut id = 0;
    let mut rest = tables.threads.slots();
    while let [slot, tail @ ..] = rest {
        size += other_size(tables.status, id, slot);
        id += 1;
        rest = tail;
    }
    size
}

/// The notes of all threads that haven't ended.
#[tactic(auto, using(crate::proofs::AppendLemmas::appends_both))]
pub fn write_notes<W: Write>(out: &mut W, tables: &Tables) -> Result<()>
    ensures { OnOk result
        (Appends (W.contents out.old) (W.contents out.new) (all_notes tables.now)) }
{
    write_faulted(out, tables)?;
    write_others(out, tables)
}

/// How many bytes these are.
pub fn notes_size(tables: &Tables) -> u32
    ensures size { result ≡ length (all_notes tables.now) }
    ensures within { result ≤ 14784 }
{
    faulted_size(tables) + others_size(tables)
}
