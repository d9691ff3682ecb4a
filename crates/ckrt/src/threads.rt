//! What is told of the threads of a disk: in a listing, a timeline and by calls read from the disk before that is made, and of a drive's end
//! behind it.
use ckrt_calls::{Call, ProcessCall, Status};
use ckrt_cli_files::{Closes, OutputReason, RealDisk, Sources, SystemSources};
use ckrt_cli_names::Names;
use ckrt_cli_words::Job;
use ckrt_disk::{Calls, Disk};
use ckrt_history::read_history;
use ckrt_inspect::read_program;
use ckrt_look_recording::{Frame, read_unreplayed};
use ckrt_machine::Machine;
use ckrt_memory::Memory;
use ckrt_registers::Regs;
use ckrt_rv32i::{Bus, Size};
use ckrt_thread::{MAX_HARTS, Thread};
use std::alloc::{AllocError, Global};
use std::cell::Cell;
use std::marker::Brand;

/// The word of ECALL.
const ECALL: u32 = 0x73;

/// What is told of the threads of a disk.
#[derive(Clone, Copy)]
enum Look {
    /// Where each stands after so many events, or after all.
    Threads(Option<u64>),
    /// Where each stands after all events, and which one ended the program.
    End,
    /// Where each stood at each of its steps.
    Steps,
    /// The same of a history.
    StepsInHistory,
}

/// Tells each thread of a machine that hasn't ended.
fn tell_threads(alloc: Global, machine: &Machine, names: &mut Names) -> Result<(), AllocError> {
    let threads = &machine.tables().threads;
    for place in 0..threads.thread_count() {
        if let Some((thread, Thread::Live(live))) = threads.thread_at(place) {
            let frame = Frame::of(&live.regs, threads.wait_of(thread).is_some());
            names.tell_thread(alloc, machine.memory(), thread, &frame)?;
        }
    }
    Ok(())
}

/// Whether a thread with these registers has just made the call by which a program ends.
fn has_exited(memory: &Memory, regs: &Regs) -> bool {
    matches!(
        Call::from_number(regs.get(17)),
        Some(Call::Process(ProcessCall::Exit))
    ) && regs.pc() % 4 == 0
        && memory.load(regs.pc().wrapping_sub(4), Size::Word) == Some(ECALL)
}

/// The thread of a machine that ended its program by a call.
fn ended_by(machine: &Machine) -> Option<u8> {
    let threads = &machine.tables().threads;
    for hart in 0..MAX_HARTS {
        if let Some(thread) = threads.on_hart(hart) {
            match threads.thread(u32::from(thread)) {
                Some(Thread::Live(live)) if has_exited(machine.memory(), &live.regs) => {
                    return Some(thread);
                }
                _ => {}
            }
        }
    }
    None
}

/// Tells how a program ended.
fn tell_end(alloc: Global, machine: &Machine, names: &mut Names) -> Result<(), AllocError> {
    if let Some(thread) = ended_by(machine) {
        names.tell_ended_by(thread);
    }
    tell_threads(alloc, machine, names)
}

/// The line of a drive's end by this status, as far as its note hangs on it.
fn end_line(alloc: Global, status: Status) -> Result<String, AllocError> {
    match status {
        Status::Running => format!(in alloc; "deadlock"),
        Status::Exited(code) => format!(in alloc; "ended: exit {code}"),
        Status::Faulted(thread, _, _) => format!(in alloc; "ended: fault {thread} "),
    }
}

/// The note of how a program ended.
fn note_of(alloc: Global, machine: &Machine, names: &mut Names) -> Result<Vec<u8>, AllocError> {
    names.forget_threads();
    tell_end(alloc, machine, names)?;
    let line = end_line(alloc, machine.tables().status)?;
    Ok(names.note_of(alloc, line.as_bytes()))
}

/// Tells what is looked for of a disk. Where that can't be read nothing is told.
fn tell_of<D: Disk>(
    alloc: Global,
    disk: &mut D,
    look: Look,
    names: &mut Names,
) -> Result<(), AllocError> {
    match look {
        Look::Threads(at) => match read_program(alloc, disk, at) {
            Ok(found) => tell_threads(alloc, &found.machine, names),
            Err(_) => Ok(()),
        },
        Look::End => match read_program(alloc, disk, None) {
            Ok(found) => tell_end(alloc, &found.machine, names),
            Err(_) => Ok(()),
        },
        Look::Steps => {
            if let Ok(found) = read_unreplayed(alloc, disk) {
                names.follow(alloc, found.machine, found.first, found.events);
            }
            Ok(())
        }
        Look::StepsInHistory => {
            if let Ok(found) = read_history(alloc, disk) {
                names.follow(alloc, found.machine, found.first, found.events);
            }
            Ok(())
        }
    }
}

/// What is told of which disk before a job is done: in a listing where threads stand there, in a timeline where they stand in the end, and
/// by calls where they stood at each.
fn looked_at<'a>(job: &Job<'a>) -> Option<(&'a str, Look)> {
    match job {
        Job::Inspect(job) if !job.history => Some((job.disk, Look::Threads(job.at))),
        Job::Timeline(job) if !job.stretch.history => {
            Some((job.stretch.disk, Look::Threads(None)))
        }
        Job::Calls(job) if job.history => Some((job.disk, Look::StepsInHistory)),
        Job::Calls(job) => Some((job.disk, Look::Steps)),
        _ => None,
    }
}

/// Tells what is looked for of the disk of a path, where the names have rules for that. Where it can't be read nothing is told: the job
/// itself will say why, or has said it.
fn tell<'a>(
    rt: &'a HostRuntime,
    why: &'a Cell<OutputReason>,
    path: &'a str,
    look: Look,
    names: &mut Names,
) -> Result<(), AllocError> {
    if !names.have_rules() {
        return Ok(());
    }
    let mut sources: SystemSources<'a, HostRuntime, RealDisk<'a, Brand>> = SystemSources::new(
        rt,
        why,
        Calls::new(),
    );
    let Ok(mut disk) = sources.look_at_disk(path) else {
        return Ok(());
    };
    let told = tell_of(rt.alloc(), &mut disk, look, names);
    sources.close(disk);
    told
}

/// The note of how the program of a disk ended: where each thread stands, where it didn't end. Where the disk can't be read there is none.
pub fn note_of_end(
    rt: &HostRuntime,
    why: &Cell<OutputReason>,
    path: &str,
    names: &mut Names,
) -> Vec<u8> {
    let alloc = rt.alloc();
    let mut sources: SystemSources<'_, HostRuntime, RealDisk<'_, Brand>> = SystemSources::new(
        rt,
        why,
        Calls::new(),
    );
    let Ok(mut disk) = sources.look_at_disk(path) else {
        return Vec::new(alloc);
    };
    let note = match read_program(alloc, &mut disk, None) {
        Ok(found) => note_of(alloc, &found.machine, names).unwrap_or(Vec::new(alloc)),
        Err(_) => Vec::new(alloc),
    };
    sources.close(disk);
    note
}

/// Tells the threads of the disk that a job looks at, before it does.
pub fn tell_looked_at<'a>(
    rt: &'a HostRuntime,
    why: &'a Cell<OutputReason>,
    job: &Job<'a>,
    names: &mut Names,
) -> Result<(), AllocError> {
    match looked_at(job) {
        Some((path, look)) => tell(rt, why, path, look, names),
        None => Ok(()),
    }
}

/// Tells how the program of a drive ended, by the status of that: at a deadlock, by a fault, or by another status than 0.
pub fn tell_driven<'a>(
    rt: &'a HostRuntime,
    why: &'a Cell<OutputReason>,
    job: &Job<'a>,
    status: u8,
    names: &mut Names,
) -> Result<(), AllocError> {
    match job {
        Job::Drive(job) if matches!(status, 4 | 6 | 7) => {
            tell(rt, why, job.disk, Look::End, names)
        }
        _ => Ok(()),
    }
}
