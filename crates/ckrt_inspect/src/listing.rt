//! The listing of a program.
ghost use Rattle.std.specs.Prelude.{◌≡◌, ◌≢◌, ◌⊎◌, ◌++◌, false, true, Some, IfOk, IfErr, OnOk};
ghost use Rattle.std.specs.Io.KnownBytes.{Appends};
ghost use Rattle.hex.specs.Hex.{encode_lower};
ghost use Rattle.ckrt_inspect.specs.declared.fault.InspectFault.TheVariants.{OutOfMemory, Write as Writing};
ghost use Rattle.ckrt_inspect.specs.Listing.{clock_line, disk_listing, events_line, head_lines, listing_by, program_line, schedule_line, seed_text, status_line};

use crate::fault::InspectFault;
use crate::keys::push_all_keys;
use crate::objects::push_objects;
use crate::texts::{push, push_number, push_status};
use crate::threads::push_all_threads;
use ckrt_calls::{Status, Tables};
use ckrt_machine::Machine;
use ckrt_stored::{ProgramNote, Progress, ScheduleNote};
use std::alloc::{AllocError, Global};
use std::io::Write;

fn push_events(out: &mut Vec<u8>, count: u64) -> Result<(), AllocError>
    ensures { OnOk result (out.new.items ≡ out.old.items ++ events_line count) }
{
    push(out, b"events ")?;
    push_number(out, count)?;
    push(out, b"\n")
}

fn push_clock(out: &mut Vec<u8>, clock: u64) -> Result<(), AllocError>
    ensures { OnOk result (out.new.items ≡ out.old.items ++ clock_line clock) }
{
    push(out, b"clock ")?;
    push_number(out, clock)?;
    push(out, b"\n")
}

fn push_status_line(out: &mut Vec<u8>, status: Status) -> Result<(), AllocError>
    ensures { OnOk result (out.new.items ≡ out.old.items ++ status_line status) }
{
    push(out, b"status ")?;
    push_status(out, status)?;
    push(out, b"\n")
}

/// The first three lines.
fn push_head(out: &mut Vec<u8>, count: u64, tables: &Tables) -> Result<(), AllocError>
    ensures { OnOk result (out.new.items ≡ out.old.items ++ head_lines count tables.now) }
{
    push_events(out, count)?;
    push_clock(out, tables.clock)?;
    push_status_line(out, tables.status)
}

/// A digest: 64 hexadecimal digits.
fn push_digest(out: &mut Vec<u8>, digest: &[u8; 32]) -> Result<(), AllocError>
    ensures { OnOk result (out.new.items ≡ out.old.items ++ encode_lower digest.now) }
{
    let mut digits = [0u8; 64];
    match hex::encode_to_slice(digest, &mut digits) {
        Ok(()) => out.extend_from_slice(&digits),
        Err(_) => unreachable!(),
    }
}

fn push_note(out: &mut Vec<u8>, note: &ProgramNote) -> Result<(), AllocError>
    ensures { OnOk result (out.new.items ≡ out.old.items ++ program_line (Some note.now)) }
{
    push(out, b"program ")?;
    push_digest(out, &note.digest)?;
    push(out, b" ")?;
    push_number(out, note.bytes)?;
    push(out, b"\n")
}

/// What a disk notes of its program, if it does.
fn push_program(out: &mut Vec<u8>, note: &Option<ProgramNote>) -> Result<(), AllocError>
    ensures { OnOk result (out.new.items ≡ out.old.items ++ program_line note.now) }
{
    match note {
        Some(note) => push_note(out, note),
        None => Ok(()),
    }
}

/// The seed of a schedule, behind its turn, if it has one.
fn push_seed(out: &mut Vec<u8>, seed: Option<u64>) -> Result<(), AllocError>
    ensures { OnOk result (out.new.items ≡ out.old.items ++ seed_text seed) }
{
    match seed {
        Some(seed) => {
            push(out, b" ")?;
            push_number(out, seed)
        }
        None => Ok(()),
    }
}

fn push_schedule_note(out: &mut Vec<u8>, schedule: &ScheduleNote) -> Result<(), AllocError>
    ensures { OnOk result (out.new.items ≡ out.old.items ++ schedule_line (Some schedule.now)) }
{
    push(out, b"schedule ")?;
    push_number(out, schedule.turn)?;
    push_seed(out, schedule.seed)?;
    push(out, b"\n")
}

/// What a disk notes of its schedule, if it does.
fn push_schedule(out: &mut Vec<u8>, schedule: &Option<ScheduleNote>) -> Result<(), AllocError>
    ensures { OnOk result (out.new.items ≡ out.old.items ++ schedule_line schedule.now) }
{
    match schedule {
        Some(schedule) => push_schedule_note(out, schedule),
        None => Ok(()),
    }
}

/// The listing of a program after that many events.
fn listing(
    alloc: Global,
    with_code: bool,
    count: u64,
    machine: &Machine,
) -> Result<Vec<u8>, AllocError>
    ensures { IfOk result (λ out. out.items ≡ listing_by with_code count machine.now.state) }
{
    let tables = machine.tables();
    let mut out = Vec::new(alloc);
    push_head(&mut out, count, tables)?;
    push_all_threads(&mut out, with_code, machine.memory(), &tables.threads)?;
    push_objects(&mut out, tables)?;
    push_all_keys(&mut out, &tables.threads)?;
    Ok(out)
}

/// Writes a text whole, and flushes it.
#[tactic(auto, using(crate::proofs::WritingLemmas::appends_kept))]
fn write_text<W: Write>(writer: &mut W, text: &[u8]) -> Result<(), InspectFault>
    ensures ok { OnOk result (Appends (W.contents writer.old) (W.contents writer.new) text.now) }
    ensures err { IfErr result (λ e. e ≡ Writing) }
{
    if writer.write_all(text).is_err() || writer.flush().is_err() {
        return Err(InspectFault::Write);
    }
    Ok(())
}

/// Writes the listing of a program after that many events, with the code that each thread is about to run or without it.
pub(crate) fn write_listing_by<W: Write>(
    alloc: Global,
    with_code: bool,
    count: u64,
    machine: &Machine,
    writer: &mut W,
) -> Result<(), InspectFault>
    ensures ok { OnOk result (Appends (W.contents writer.old) (W.contents writer.new)
        (listing_by with_code count machine.now.state)) }
    ensures fault { IfErr result (λ e. (e ≡ OutOfMemory) ⊎ (e ≡ Writing)) }
    ensures unwritten { IfErr result (λ e. e ≢ Writing → writer.new ≡ writer.old) }
{
    let text = listing(alloc, with_code, count, machine)?;
    write_text(writer, &text)
}

/// The same of the program of a disk, with what that notes of it and of its schedule.
pub(crate) fn write_disk_listing<W: Write>(
    alloc: Global,
    with_code: bool,
    progress: &Progress,
    note: &Option<ProgramNote>,
    schedule: &Option<ScheduleNote>,
    writer: &mut W,
) -> Result<(), InspectFault>
    ensures ok { OnOk result (Appends (W.contents writer.old) (W.contents writer.new)
        (disk_listing with_code progress.now.count progress.now.machine.state note.now
        schedule.now)) }
    ensures fault { IfErr result (λ e. (e ≡ OutOfMemory) ⊎ (e ≡ Writing)) }
    ensures unwritten { IfErr result (λ e. e ≢ Writing → writer.new ≡ writer.old) }
{
    let mut text = listing(alloc, with_code, progress.count, &progress.machine)?;
    push_program(&mut text, note)?;
    push_schedule(&mut text, schedule)?;
    write_text(writer, &text)
}

/// Writes the listing of a program after that many events: status and clock, harts, threads, waits, mutexes, barriers,
/// read-write locks, keys and values, a line each.
///
/// # Errors
///
/// `OutOfMemory`, before anything is written; `Write` where the writer failed.
pub fn write_listing<W: Write>(
    alloc: Global,
    count: u64,
    machine: &Machine,
    writer: &mut W,
) -> Result<(), InspectFault>
    ensures ok { OnOk result (Appends (W.contents writer.old) (W.contents writer.new)
        (listing_by false count machine.now.state)) }
    ensures fault { IfErr result (λ e. (e ≡ OutOfMemory) ⊎ (e ≡ Writing)) }
    ensures unwritten { IfErr result (λ e. e ≢ Writing → writer.new ≡ writer.old) }
{
    write_listing_by(alloc, false, count, machine, writer)
}

/// The same, with the four instructions that each thread is about to run after its line.
///
/// # Errors
///
/// As [`write_listing`].
pub fn write_listing_with_code<W: Write>(
    alloc: Global,
    count: u64,
    machine: &Machine,
    writer: &mut W,
) -> Result<(), InspectFault>
    ensures ok { OnOk result (Appends (W.contents writer.old) (W.contents writer.new)
        (listing_by true count machine.now.state)) }
    ensures fault { IfErr result (λ e. (e ≡ OutOfMemory) ⊎ (e ≡ Writing)) }
    ensures unwritten { IfErr result (λ e. e ≢ Writing → writer.new ≡ writer.old) }
{
    write_listing_by(alloc, true, count, machine, writer)
}
