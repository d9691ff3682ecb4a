//! The lines of an event.
ghost use Rattle.std.specs.Prelude.{◌≡◌, ◌≤◌, ◌<◌, ◌-◌, [], None, IfOk, OnOk, is_some};
ghost use Rattle.std.specs.List.{flat_map};
ghost use Rattle.std.specs.Io.KnownBytes.{Appends};
ghost use Rattle.ckrt_events.specs.Bytes.{IsInRange};
ghost use Rattle.ckrt_events.specs.declared.event.Event.TheVariants.{Place as Placing, Run};
ghost use Rattle.ckrt_memory.specs.Marks.{Follows};
ghost use Rattle.ckrt_machine.specs.Events.{memory_in, step, refusal_of};
ghost use Rattle.ckrt_machine.specs.Runs.{run_on, stop_of, with_byte};
ghost use Rattle.ckrt_machine.specs.Steps.{hart_step};
ghost use Rattle.ckrt_look_calls.specs.Events.{GoesOnTold, byte_text, event_lines, event_text, input_text, lines_after, other_lines, run_lines, state_behind};
ghost use Rattle.ckrt_look_calls.specs.Lines.{MayStep, lines_of_step, put_before, step_lines};

use crate::lines::{Place, look, waits_now, write_between, write_fault, write_overs, write_place};
use crate::texts::{write_byte, write_counted};
use arrayvec::ArrayVec;
use ckrt_calls::Status;
use ckrt_events::Event;
use ckrt_look_recording::{go_quietly, is_quiet};
use ckrt_machine::{Machine, RUN_OUTPUT};
use std::io::{Result, Write};

/// A step of a run of the thread on a hart: the first, or a further one.
pub fn advance(machine: &mut Machine, hart: u8, is_first: bool)
    requires { MayStep is_first hart machine.old }
    ensures state { machine.new.state ≡ (hart_step hart machine.old.state).state }
    ensures output { machine.new.output
        ≡ with_byte (hart_step hart machine.old.state).put (put_before is_first machine.old) }
    ensures follows { Follows (memory_in machine.old) (memory_in machine.new) }
{
    if is_first {
        machine.step(&Event::Run(hart, 1));
    } else {
        machine.go_on(hart, 1);
    }
}

/// A step of a run, and what it did to calls and waits.
fn trace_calls<W: Write>(
    machine: &mut Machine,
    place: Place,
    hart: u8,
    is_first: bool,
    out: &mut W,
) -> Result<()>
    requires { MayStep is_first hart machine.old }
    ensures state { machine.new.state ≡ (hart_step hart machine.old.state).state }
    ensures output { machine.new.output
        ≡ with_byte (hart_step hart machine.old.state).put (put_before is_first machine.old) }
    ensures lines { OnOk result
        (Appends (W.contents out.old) (W.contents out.new)
        (lines_of_step place hart machine.old.state)) }
{
    if is_quiet(machine, hart) {
        advance(machine, hart, is_first);
        return Ok(());
    }
    let before = look(machine, hart);
    advance(machine, hart, is_first);
    write_between(out, place, &before, machine.tables())
}

/// A step of a run, and its lines.
#[tactic(auto, using(crate::proofs::AppendLemmas::appends_both))]
fn trace_step<W: Write>(
    machine: &mut Machine,
    place: Place,
    hart: u8,
    is_first: bool,
    out: &mut W,
) -> Result<()>
    requires { MayStep is_first hart machine.old }
    ensures state { OnOk result (machine.new.state ≡ (hart_step hart machine.old.state).state) }
    ensures output { OnOk result (machine.new.output
        ≡ with_byte (hart_step hart machine.old.state).put (put_before is_first machine.old)) }
    ensures lines { OnOk result
        (Appends (W.contents out.old) (W.contents out.new)
        (step_lines place hart machine.old.state)) }
{
    trace_calls(machine, place, hart, is_first, out)?;
    write_fault(out, place, machine.status())
}

/// Whether a run ends behind a step.
pub fn is_stopped(machine: &Machine, hart: u8) -> bool
    ensures { result ≡ is_some (stop_of hart machine.now.state.tables machine.now.output) }
{
    let tables = machine.tables();
    !matches!(tables.status, Status::Running)
        || tables.threads.on_hart(usize::from(hart)).is_none()
        || machine.last_output().len() >= RUN_OUTPUT
}

/// Steps of a run that goes on, behind its first `made`, of `limit` in all, and their lines: quiet ones, or one that isn't. The answer is
/// how many.
fn trace_some<W: Write>(
    machine: &mut Machine,
    made: Place,
    hart: u8,
    limit: u32,
    out: &mut W,
) -> Result<u32>
    requires some { made.step < limit }
    requires going { stop_of hart machine.old.state.tables machine.old.output ≡ None }
    ensures { IfOk result (λ more. GoesOnTold made more limit hart
        (record { machine = machine.old; text = W.contents out.old })
        (record { machine = machine.new; text = W.contents out.new })) }
{
    let quiet = go_quietly(machine, hart, limit - made.step);
    if quiet == 0 {
        trace_step(machine, made, hart, false, out)?;
        return Ok(1);
    }
    let last = Place {
        event: made.event,
        step: made.step + quiet - 1,
    };
    write_fault(out, last, machine.status())?;
    Ok(quiet)
}

/// The steps of a run of the thread on a hart behind its first `made`, of `limit` in all, and the lines of each of them.
fn trace_steps<W: Write>(
    machine: &mut Machine,
    made: Place,
    hart: u8,
    limit: u32,
    out: &mut W,
) -> Result<()>
    requires { made.step ≤ limit }
    ensures state { OnOk result (machine.new.state
        ≡ state_behind (limit - made.step) hart machine.old.state machine.old.output) }
    ensures lines { OnOk result
        (Appends (W.contents out.old) (W.contents out.new)
        (lines_after made.event (limit - made.step) made.step hart machine.old.state
        machine.old.output)) }
{
    let mut step = made.step;
    while step < limit {
        if is_stopped(machine, hart) {
            return Ok(());
        }
        let place = Place {
            event: made.event,
            step,
        };
        step += trace_some(machine, place, hart, limit, out)?;
    }
    Ok(())
}

/// A run of the thread on a hart, of `limit` steps at most, and the lines of each of them.
fn trace_run<W: Write>(
    machine: &mut Machine,
    event: u64,
    hart: u8,
    limit: u32,
    out: &mut W,
) -> Result<()>
    requires hart { hart ≤ 7 }
    requires some { 1 ≤ limit }
    requires accepted { refusal_of 0 (Run hart 1) machine.old.state ≡ None }
    ensures state { OnOk result
        (machine.new.state ≡ (run_on limit hart machine.old.state []).state) }
    ensures lines { OnOk result
        (Appends (W.contents out.old) (W.contents out.new)
        (run_lines event limit 0 hart machine.old.state [])) }
{
    trace_step(machine, Place { event, step: 0 }, hart, true, out)?;
    trace_steps(machine, Place { event, step: 1 }, hart, limit, out)
}

/// Bytes in two hexadecimal digits each.
#[tactic(auto, using(crate::proofs::AppendLemmas::appends_none, crate::proofs::AppendLemmas::appends_more, crate::proofs::AppendLemmas::appends_all))]
fn write_bytes<W: Write>(out: &mut W, bytes: &[u8]) -> Result<()>
    ensures { OnOk result
        (Appends (W.contents out.old) (W.contents out.new) (flat_map byte_text bytes.now)) }
{
    for byte in bytes {
        write_byte(out, *byte)?;
    }
    Ok(())
}

/// Bytes of input, with the word for them.
#[tactic(auto, using(crate::proofs::AppendLemmas::appends_both))]
fn write_input<W: Write>(out: &mut W, bytes: &ArrayVec<u8, 64>) -> Result<()>
    ensures { OnOk result
        (Appends (W.contents out.old) (W.contents out.new) (input_text bytes.now.items)) }
{
    out.write_all(b"input ")?;
    write_bytes(out, bytes.as_slice())
}

/// The text of a hart and a thread that goes onto it.
#[tactic(auto, using(crate::proofs::AppendLemmas::appends_both))]
fn write_placing<W: Write>(out: &mut W, hart: u8, thread: u8) -> Result<()>
    ensures { OnOk result
        (Appends (W.contents out.old) (W.contents out.new) (event_text (Placing hart thread))) }
{
    write_counted(out, b"place ", u64::from(hart))?;
    write_counted(out, b" ", u64::from(thread))
}

/// The text of an event that is no run.
#[tactic(auto, using(crate::proofs::AppendLemmas::appends_none))]
fn write_event<W: Write>(out: &mut W, event: &Event) -> Result<()>
    ensures { OnOk result
        (Appends (W.contents out.old) (W.contents out.new) (event_text event.now)) }
{
    match event {
        Event::Place(hart, thread) => write_placing(out, *hart, *thread),
        Event::Input(bytes) => write_input(out, bytes),
        Event::Eof => out.write_all(b"eof"),
        Event::Tick(ticks) => write_counted(out, b"tick ", u64::from(*ticks)),
        Event::Run(_, _) | Event::RunLong(_, _) => Ok(()),
    }
}

/// An event that is no run, its line, and those of the waits that it ends.
#[tactic(auto, using(crate::proofs::AppendLemmas::appends_both))]
fn trace_other<W: Write>(
    machine: &mut Machine,
    count: u64,
    event: &Event,
    out: &mut W,
) -> Result<()>
    requires in_range { IsInRange event.now }
    requires accepted { refusal_of 0 event.now machine.old.state ≡ None }
    ensures state { OnOk result
        (machine.new.state ≡ (step event.now machine.old.state).state) }
    ensures lines { OnOk result
        (Appends (W.contents out.old) (W.contents out.new)
        (other_lines count event.now machine.old.state)) }
{
    let place = Place {
        event: count,
        step: 0,
    };
    let before = waits_now(&machine.tables().threads);
    machine.step(event);
    write_place(out, place)?;
    write_event(out, event)?;
    out.write_all(b"\n")?;
    write_overs(out, place, before.as_slice(), machine.tables())
}

/// Applies an event that would be accepted if no output were held, as `Machine::step` does, and writes its lines, where so
/// many events are done. Steps of a run that write no line are made in a row.
///
/// # Errors
///
/// The writer's own. The machine is amid the event then.
pub fn trace_event<W: Write>(
    machine: &mut Machine,
    count: u64,
    event: &Event,
    out: &mut W,
) -> Result<()>
    requires in_range { IsInRange event.now }
    requires accepted { refusal_of 0 event.now machine.old.state ≡ None }
    ensures state { OnOk result
        (machine.new.state ≡ (step event.now machine.old.state).state) }
    ensures lines { OnOk result
        (Appends (W.contents out.old) (W.contents out.new)
        (event_lines count event.now machine.old.state)) }
{
    match event {
        Event::Run(hart, limit) => trace_run(machine, count, *hart, u32::from(*limit), out),
        Event::RunLong(hart, limit) => trace_run(machine, count, *hart, *limit, out),
        _ => trace_other(machine, count, event, out),
    }
}
