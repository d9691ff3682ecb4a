//! How a drive and its program stand, in the text format of Prometheus.
ghost use Rattle.std.specs.Prelude.{◌≡◌, ◌++◌, Bool, List, ℕ, Option, OnOk, codes};
ghost use Rattle.std.specs.List.{find, flat_map};
ghost use Rattle.ckrt_thread.specs.Contents.{rows_of, thread_rows};
ghost use Rattle.ckrt_thread.specs.State.{thread_of};
ghost use Rattle.ckrt_inspect.specs.Metrics.{all_metrics, disk_lines, does_text, doing_of, doing_text, drive_line, drive_lines, event_lines, head_lines, help_line, help_of, kind_of, metric_lines, name_of, optional_lines, program_lines, stands_text, thread_label, thread_line, threads_lines, type_line};

use crate::texts::{push, push_number, push_reason, push_status};
use ckrt_calls::{Status, Tables};
use ckrt_thread::{Thread, ThreadId, Threads, Wait};
use std::alloc::AllocError;

/// What is told of a drive and its program.
#[derive(Clone, Copy, Debug, PartialEq, Eq)]
pub enum Metric {
    /// Events that were accepted since the disk was formatted.
    Events,
    /// Of these the acknowledged ones.
    Acknowledged,
    /// Guest steps since the drive began.
    Steps,
    /// The guest's clock, in ticks.
    Ticks,
    /// Bytes of output of acknowledged events.
    Output,
    /// Bytes of its input that the program was given.
    Input,
    /// The generation of the disk's area in use.
    Generation,
    /// The room that the journal has left, in bytes.
    Room,
    /// How the drive stands.
    Drive,
    /// What each thread does.
    Threads,
}

/// How a drive stands.
#[derive(Clone, Copy, Debug, PartialEq, Eq)]
pub enum Standing {
    /// It isn't at an end.
    Running,
    /// Its program ended.
    Ended,
    /// A thread waits for input, and nothing else goes on.
    WaitsForInput,
    /// No thread can ever go on.
    Deadlock,
    /// The events that were left to it are used up.
    Enough,
}

/// What is told of a drive besides its program.
#[derive(Clone, Copy, Debug, PartialEq, Eq)]
pub struct Readings {
    /// Events that were accepted since the disk was formatted.
    pub events: u64,
    /// Of these the acknowledged ones.
    pub acknowledged: u64,
    /// Guest steps since the drive began.
    pub steps: u64,
    /// Bytes of output of acknowledged events.
    pub output: u64,
    /// Bytes of its input that the program was given; nothing where the drive has no input.
    pub input: Option<u64>,
    /// The generation of the disk's area in use.
    pub generation: u64,
    /// The room that the journal has left, in bytes.
    pub room: u64,
    /// How the drive stands.
    pub standing: Standing,
}

/// The name of a metric.
fn name_of(metric: Metric) -> &'static [u8]
    ensures { result.now ≡ name_of metric }
{
    match metric {
        Metric::Events => b"ckrt_events_total".as_slice(),
        Metric::Acknowledged => b"ckrt_acknowledged_events_total".as_slice(),
        Metric::Steps => b"ckrt_steps_total".as_slice(),
        Metric::Ticks => b"ckrt_ticks_total".as_slice(),
        Metric::Output => b"ckrt_output_bytes_total".as_slice(),
        Metric::Input => b"ckrt_input_bytes_total".as_slice(),
        Metric::Generation => b"ckrt_generation".as_slice(),
        Metric::Room => b"ckrt_journal_room_bytes".as_slice(),
        Metric::Drive => b"ckrt_drive".as_slice(),
        Metric::Threads => b"ckrt_thread".as_slice(),
    }
}

/// What a metric is.
fn help_of(metric: Metric) -> &'static [u8]
    ensures { result.now ≡ help_of metric }
{
    match metric {
        Metric::Events => b"Events accepted since the disk was formatted.".as_slice(),
        Metric::Acknowledged => b"Events that no power cut takes back.".as_slice(),
        Metric::Steps => b"Guest steps since this drive began.".as_slice(),
        Metric::Ticks => b"The guest's clock, in ticks.".as_slice(),
        Metric::Output => b"Bytes of output of acknowledged events.".as_slice(),
        Metric::Input => b"Bytes of its input that the program was given.".as_slice(),
        Metric::Generation => b"The generation of the disk's area in use.".as_slice(),
        Metric::Room => b"Bytes that the journal has left.".as_slice(),
        Metric::Drive => b"How the drive stands: running, or the end that it came to.".as_slice(),
        Metric::Threads => b"What each thread does now; addresses are hexadecimal.".as_slice(),
    }
}

/// How a metric's value goes.
fn kind_of(metric: Metric) -> &'static [u8]
    ensures { result.now ≡ kind_of metric }
{
    match metric {
        Metric::Events => b"counter".as_slice(),
        Metric::Acknowledged => b"counter".as_slice(),
        Metric::Steps => b"counter".as_slice(),
        Metric::Ticks => b"counter".as_slice(),
        Metric::Output => b"counter".as_slice(),
        Metric::Input => b"counter".as_slice(),
        Metric::Generation => b"counter".as_slice(),
        Metric::Room => b"gauge".as_slice(),
        Metric::Drive => b"gauge".as_slice(),
        Metric::Threads => b"gauge".as_slice(),
    }
}

fn push_help(out: &mut Vec<u8>, metric: Metric) -> Result<(), AllocError>
    ensures { OnOk result (out.new.items ≡ out.old.items ++ help_line metric) }
{
    push(out, b"# HELP ")?;
    push(out, name_of(metric))?;
    push(out, b" ")?;
    push(out, help_of(metric))?;
    push(out, b"\n")
}

fn push_type(out: &mut Vec<u8>, metric: Metric) -> Result<(), AllocError>
    ensures { OnOk result (out.new.items ≡ out.old.items ++ type_line metric) }
{
    push(out, b"# TYPE ")?;
    push(out, name_of(metric))?;
    push(out, b" ")?;
    push(out, kind_of(metric))?;
    push(out, b"\n")
}

/// What stands before the values of a metric.
fn push_head(out: &mut Vec<u8>, metric: Metric) -> Result<(), AllocError>
    ensures { OnOk result (out.new.items ≡ out.old.items ++ head_lines metric) }
{
    push_help(out, metric)?;
    push_type(out, metric)
}

/// A metric with its value.
fn push_metric(out: &mut Vec<u8>, metric: Metric, value: u64) -> Result<(), AllocError>
    ensures { OnOk result (out.new.items ≡ out.old.items ++ metric_lines metric value) }
{
    push_head(out, metric)?;
    push(out, name_of(metric))?;
    push(out, b" ")?;
    push_number(out, value)?;
    push(out, b"\n")
}

/// A metric with its value, where it has one.
fn push_optional(out: &mut Vec<u8>, metric: Metric, value: Option<u64>) -> Result<(), AllocError>
    ensures { OnOk result (out.new.items ≡ out.old.items ++ optional_lines metric value) }
{
    match value {
        Some(value) => push_metric(out, metric, value),
        None => Ok(()),
    }
}

/// How a drive stands whose program has this status.
fn push_stands(out: &mut Vec<u8>, standing: Standing, status: Status) -> Result<(), AllocError>
    ensures { OnOk result (out.new.items ≡ out.old.items ++ stands_text standing status) }
{
    match standing {
        Standing::Running => push(out, b"running"),
        Standing::Ended => push_ended(out, status),
        Standing::WaitsForInput => push(out, b"waits for input"),
        Standing::Deadlock => push(out, b"deadlock"),
        Standing::Enough => push(out, b"enough"),
    }
}

fn push_ended(out: &mut Vec<u8>, status: Status) -> Result<(), AllocError>
    ensures { OnOk result (out.new.items ≡ out.old.items ++ stands_text Standing.Ended status) }
{
    push(out, b"ended: ")?;
    push_status(out, status)
}

fn push_drive_line(out: &mut Vec<u8>, standing: Standing, status: Status) -> Result<(), AllocError>
    ensures { OnOk result (out.new.items ≡ out.old.items ++ drive_line standing status) }
{
    push(out, name_of(Metric::Drive))?;
    push(out, b"{stands=\"")?;
    push_stands(out, standing, status)?;
    push(out, b"\"} 1\n")
}

fn push_drive(out: &mut Vec<u8>, standing: Standing, status: Status) -> Result<(), AllocError>
    ensures { OnOk result (out.new.items ≡ out.old.items ++ drive_lines standing status) }
{
    push_head(out, Metric::Drive)?;
    push_drive_line(out, standing, status)
}

/// What a thread that hasn't ended does.
fn push_does(out: &mut Vec<u8>, is_ready: bool, wait: Option<Wait>) -> Result<(), AllocError>
    ensures { OnOk result (out.new.items ≡ out.old.items ++ does_text is_ready wait) }
{
    match wait {
        Some(wait) => push_waits(out, is_ready, wait),
        None if is_ready => push(out, b"ready"),
        None => push(out, b"running"),
    }
}

fn push_waits(out: &mut Vec<u8>, is_ready: bool, wait: Wait) -> Result<(), AllocError>
    ensures { OnOk result (out.new.items ≡ out.old.items ++ does_text is_ready (Some wait)) }
{
    push(out, b"waits for ")?;
    push_reason(out, wait.reason)
}

/// What a thread does.
fn push_doing(
    out: &mut Vec<u8>,
    is_ready: bool,
    wait: Option<Wait>,
    thread: &Thread,
) -> Result<(), AllocError>
    ensures { OnOk result (out.new.items ≡ out.old.items ++ doing_text is_ready wait thread.now) }
{
    match thread {
        Thread::Ended(_) => push(out, b"ended"),
        Thread::Live(_) => push_does(out, is_ready, wait),
    }
}

/// What stands before what a thread does.
fn push_label(out: &mut Vec<u8>, id: ThreadId) -> Result<(), AllocError>
    ensures { OnOk result (out.new.items ≡ out.old.items ++ thread_label id) }
{
    push(out, name_of(Metric::Threads))?;
    push(out, b"{thread=\"")?;
    push_number(out, u64::from(id))?;
    push(out, b"\",does=\"")
}

/// What the thread of a number does, of a program with this status.
fn push_doing_of(
    out: &mut Vec<u8>,
    status: Status,
    threads: &Threads,
    id: ThreadId,
    thread: &Thread,
) -> Result<(), AllocError>
    ensures { OnOk result (out.new.items
        ≡ out.old.items ++ doing_of status threads.now (record { id = id; thread = thread.now })) }
{
    match status {
        Status::Running => push_doing(out, threads.is_ready(id), threads.wait_of(id), thread),
        Status::Exited(_) => push(out, b"ended"),
        Status::Faulted(..) => push(out, b"ended"),
    }
}

fn push_thread(
    out: &mut Vec<u8>,
    status: Status,
    threads: &Threads,
    id: ThreadId,
    thread: &Thread,
) -> Result<(), AllocError>
    ensures { OnOk result (out.new.items
        ≡ out.old.items
        ++ thread_line status threads.now (record { id = id; thread = thread.now })) }
{
    push_label(out, id)?;
    push_doing_of(out, status, threads, id, thread)?;
    push(out, b"\"} 1\n")
}

/// What stands for a number: a thread, or nothing.
fn push_slot(
    out: &mut Vec<u8>,
    status: Status,
    threads: &Threads,
    id: ThreadId,
) -> Result<(), AllocError>
    ensures { OnOk result (out.new.items
        ≡ out.old.items
        ++ flat_map (thread_line status threads.now) (rows_of id (thread_of threads.now id))) }
{
    match threads.thread(u32::from(id)) {
        Some(thread) => push_thread(out, status, threads, id, thread),
        None => Ok(()),
    }
}

/// The threads by rising number.
fn push_threads(out: &mut Vec<u8>, status: Status, threads: &Threads) -> Result<(), AllocError>
    ensures { OnOk result (out.new.items
        ≡ out.old.items ++ flat_map (thread_line status threads.now) (thread_rows threads.now)) }
{
    threads.known();
    for id in 0..65u8 {
        push_slot(out, status, threads, id)?;
    }
    Ok(())
}

fn push_all_threads(out: &mut Vec<u8>, tables: &Tables) -> Result<(), AllocError>
    ensures { OnOk result (out.new.items ≡ out.old.items ++ threads_lines tables.now) }
{
    push_head(out, Metric::Threads)?;
    push_threads(out, tables.status, &tables.threads)
}

fn push_events(out: &mut Vec<u8>, readings: &Readings) -> Result<(), AllocError>
    ensures { OnOk result (out.new.items ≡ out.old.items ++ event_lines readings.now) }
{
    push_metric(out, Metric::Events, readings.events)?;
    push_metric(out, Metric::Acknowledged, readings.acknowledged)?;
    push_metric(out, Metric::Steps, readings.steps)
}

fn push_disk(out: &mut Vec<u8>, readings: &Readings) -> Result<(), AllocError>
    ensures { OnOk result (out.new.items ≡ out.old.items ++ disk_lines readings.now) }
{
    push_metric(out, Metric::Output, readings.output)?;
    push_optional(out, Metric::Input, readings.input)?;
    push_metric(out, Metric::Generation, readings.generation)?;
    push_metric(out, Metric::Room, readings.room)
}

fn push_program(out: &mut Vec<u8>, standing: Standing, tables: &Tables) -> Result<(), AllocError>
    ensures { OnOk result (out.new.items ≡ out.old.items ++ program_lines standing tables.now) }
{
    push_metric(out, Metric::Ticks, tables.clock)?;
    push_drive(out, standing, tables.status)?;
    push_all_threads(out, tables)
}

/// Puts after a text how a drive stands whose program has these tables. Where the text has the room it takes no memory.
pub fn push_metrics(
    out: &mut Vec<u8>,
    readings: &Readings,
    tables: &Tables,
) -> Result<(), AllocError>
    ensures { OnOk result (out.new.items ≡ out.old.items ++ all_metrics readings.now tables.now) }
{
    push_events(out, readings)?;
    push_disk(out, readings)?;
    push_program(out, readings.standing, tables)
}
