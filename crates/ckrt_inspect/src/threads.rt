//! The lines of harts, threads and waits.
ghost use Rattle.std.specs.Prelude.{◌≡◌, ◌++◌, ◌<◌, ◌≤◌, ◌%◌, true, Some, OnOk, length, decimal, codes};
ghost use Rattle.std.specs.List.{flat_map};
ghost use Rattle.ckrt_thread.specs.Contents.{rows_of, thread_rows};
ghost use Rattle.ckrt_thread.specs.State.{is_proper_live, is_proper_slot, is_waiting, thread_of};
ghost use Rattle.ckrt_inspect.specs.Listing.{all_thread_lines, cancellation_text, ending_text, hart_line, hart_lines, live_text, on_hart_text, standing_text, thread_code, thread_lines, thread_text, until_text, unwinding_text, wait_line};

use crate::code::push_code;
use crate::rows::{Row, push_rows};
use crate::texts::{push, push_flag, push_hex, push_number, push_reason};
use ckrt_memory::Memory;
use ckrt_thread::{Cancellation, Live, Thread, ThreadId, Threads, Wait};
use std::alloc::AllocError;

/// The thread on a hart.
fn push_on_hart(out: &mut Vec<u8>, on: Option<ThreadId>) -> Result<(), AllocError>
    ensures { OnOk result (out.new.items ≡ out.old.items ++ on_hart_text on) }
{
    match on {
        Some(thread) => push_number(out, u64::from(thread)),
        None => push(out, b"idle"),
    }
}

fn push_hart(out: &mut Vec<u8>, hart: usize, on: Option<ThreadId>) -> Result<(), AllocError>
    ensures { OnOk result (out.new.items ≡ out.old.items ++ hart_line hart on) }
{
    push(out, b"hart ")?;
    push_number(out, hart as u64)?;
    push(out, b" ")?;
    push_on_hart(out, on)?;
    push(out, b"\n")
}

/// Each hart that there is.
fn push_harts(out: &mut Vec<u8>, threads: &Threads) -> Result<(), AllocError>
    ensures { OnOk result (out.new.items ≡ out.old.items ++ hart_lines threads.now) }
{
    threads.known();
    for hart in 0..threads.hart_count() {
        push_hart(out, hart, threads.on_hart(hart))?;
    }
    Ok(())
}

/// What a thread is to end with, where it unwinds.
fn push_unwinding(out: &mut Vec<u8>, unwinding: Option<u32>) -> Result<(), AllocError>
    ensures { OnOk result (out.new.items ≡ out.old.items ++ unwinding_text unwinding) }
{
    match unwinding {
        Some(value) => push_unwinding_value(out, value),
        None => Ok(()),
    }
}

fn push_unwinding_value(out: &mut Vec<u8>, value: u32) -> Result<(), AllocError>
    ensures { OnOk result (out.new.items ≡ out.old.items ++ unwinding_text (Some value)) }
{
    push(out, b" unwinding ")?;
    push_number(out, u64::from(value))
}

/// Whether a thread is detached, whether it waits, and its pc.
fn push_standing(out: &mut Vec<u8>, is_blocked: bool, live: &Live) -> Result<(), AllocError>
    ensures { OnOk result (out.new.items ≡ out.old.items ++ standing_text is_blocked live.now) }
{
    push_flag(out, b"detached", b"joinable", live.detached)?;
    push_flag(out, b"blocked", b"ready", is_blocked)?;
    push(out, b" pc ")?;
    push_hex(out, live.regs.pc())
}

/// How far a thread can be cancelled, and whether it is.
fn push_cancellation(out: &mut Vec<u8>, cancellation: &Cancellation) -> Result<(), AllocError>
    ensures { OnOk result (out.new.items ≡ out.old.items ++ cancellation_text cancellation.now) }
{
    push_flag(out, b"enabled", b"disabled", cancellation.is_enabled)?;
    push_flag(
        out,
        b"asynchronous",
        b"deferred",
        cancellation.is_asynchronous,
    )?;
    push_flag(out, b"pending", b"none", cancellation.is_requested)
}

/// How many handlers a thread has, and its value where it unwinds.
fn push_ending(out: &mut Vec<u8>, live: &Live) -> Result<(), AllocError>
    ensures { OnOk result (out.new.items ≡ out.old.items ++ ending_text live.now) }
{
    push(out, b" handlers ")?;
    push_number(out, live.handlers.len() as u64)?;
    push_unwinding(out, live.cancellation.unwinding)
}

/// A thread that hasn't ended.
fn push_live(out: &mut Vec<u8>, is_blocked: bool, live: &Live) -> Result<(), AllocError>
    ensures { OnOk result (out.new.items ≡ out.old.items ++ live_text is_blocked live.now) }
{
    push_standing(out, is_blocked, live)?;
    push_cancellation(out, &live.cancellation)?;
    push_ending(out, live)
}

fn push_ended(out: &mut Vec<u8>, value: u32) -> Result<(), AllocError>
    ensures { OnOk result (out.new.items ≡ out.old.items ++ (codes " ended " ++ decimal value)) }
{
    push(out, b" ended ")?;
    push_number(out, u64::from(value))
}

/// What stands after a thread's number.
fn push_thread(out: &mut Vec<u8>, is_blocked: bool, thread: &Thread) -> Result<(), AllocError>
    ensures { OnOk result (out.new.items ≡ out.old.items ++ thread_text is_blocked thread.now) }
{
    match thread {
        Thread::Ended(value) => push_ended(out, *value),
        Thread::Live(live) => push_live(out, is_blocked, live),
    }
}

/// The code of a thread that hasn't ended, where it is shown.
fn push_thread_code(
    out: &mut Vec<u8>,
    with_code: bool,
    memory: &Memory,
    thread: &Thread,
) -> Result<(), AllocError>
    requires { is_proper_slot (Some thread.now) ≡ true }
    ensures { OnOk result
        (out.new.items ≡ out.old.items ++ thread_code with_code memory.now.bytes thread.now) }
{
    match thread {
        Thread::Live(live) if with_code => push_code(out, memory, live.regs.pc()),
        _ => Ok(()),
    }
}

/// Whether the thread waits.
fn is_waiting(threads: &Threads, thread: ThreadId) -> bool
    ensures { result ≡ is_waiting threads.now thread }
{
    threads
        .waits()
        .as_slice()
        .iter()
        .any(|wait| thread == wait.thread)
}

/// A thread's line, and its code where that is shown.
fn push_thread_lines(
    out: &mut Vec<u8>,
    with_code: bool,
    memory: &Memory,
    threads: &Threads,
    id: ThreadId,
    thread: &Thread,
) -> Result<(), AllocError>
    requires { is_proper_slot (Some thread.now) ≡ true }
    ensures { OnOk result (out.new.items
        ≡ out.old.items
        ++ thread_lines with_code memory.now.bytes threads.now
        (record { id = id; thread = thread.now })) }
{
    push(out, b"thread ")?;
    push_number(out, u64::from(id))?;
    push_thread(out, is_waiting(threads, id), thread)?;
    push(out, b"\n")?;
    push_thread_code(out, with_code, memory, thread)
}

/// What stands for an id: a thread, or nothing.
fn push_slot(
    out: &mut Vec<u8>,
    with_code: bool,
    memory: &Memory,
    threads: &Threads,
    id: ThreadId,
) -> Result<(), AllocError>
    ensures { OnOk result (out.new.items
        ≡ out.old.items
        ++ flat_map (thread_lines with_code memory.now.bytes threads.now)
        (rows_of id (thread_of threads.now id))) }
{
    threads.known();
    match threads.thread(u32::from(id)) {
        Some(thread) => push_thread_lines(out, with_code, memory, threads, id, thread),
        None => Ok(()),
    }
}

/// The threads by rising id.
fn push_threads(
    out: &mut Vec<u8>,
    with_code: bool,
    memory: &Memory,
    threads: &Threads,
) -> Result<(), AllocError>
    ensures { OnOk result (out.new.items
        ≡ out.old.items
        ++ flat_map (thread_lines with_code memory.now.bytes threads.now)
        (thread_rows threads.now)) }
{
    threads.known();
    for id in 0..65u8 {
        push_slot(out, with_code, memory, threads, id)?;
    }
    Ok(())
}

/// Until when a thread waits, where it has a deadline.
fn push_until(out: &mut Vec<u8>, deadline: Option<u64>) -> Result<(), AllocError>
    ensures { OnOk result (out.new.items ≡ out.old.items ++ until_text deadline) }
{
    match deadline {
        Some(moment) => push_moment(out, moment),
        None => Ok(()),
    }
}

fn push_moment(out: &mut Vec<u8>, moment: u64) -> Result<(), AllocError>
    ensures { OnOk result (out.new.items ≡ out.old.items ++ until_text (Some moment)) }
{
    push(out, b" until ")?;
    push_number(out, moment)
}

impl Row for Wait {
    ghost use Rattle.ckrt_inspect.specs.Listing.{wait_line};

    ghost text = { wait_line };

    fn push_to(&self, out: &mut Vec<u8>) -> Result<(), AllocError> {
        push(out, b"wait ")?;
        push_number(out, u64::from(self.thread))?;
        push(out, b" ")?;
        push_reason(out, self.reason)?;
        push_until(out, self.deadline)?;
        push(out, b"\n")
    }
}

/// The lines of harts, threads and waits.
pub fn push_all_threads(
    out: &mut Vec<u8>,
    with_code: bool,
    memory: &Memory,
    threads: &Threads,
) -> Result<(), AllocError>
    ensures { OnOk result (out.new.items
        ≡ out.old.items ++ all_thread_lines with_code memory.now.bytes threads.now) }
{
    push_harts(out, threads)?;
    push_threads(out, with_code, memory, threads)?;
    push_rows(out, threads.waits().as_slice())
}
