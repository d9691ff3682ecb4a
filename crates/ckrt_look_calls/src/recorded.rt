//! The calls of events.
ghost use Rattle.std.specs.Prelude.{◌≡◌, ◌⊎◌, ◌<◌, ◌+◌, ◌^◌, None, IfErr, OnOk, length};
ghost use Rattle.std.specs.Io.KnownBytes.{Appends};
ghost use Rattle.ckrt_events.specs.Bytes.{IsInRange};
ghost use Rattle.ckrt_machine.specs.Events.{AllAccepted, refusal_of, step};
ghost use Rattle.ckrt_inspect.specs.declared.fault.InspectFault.TheVariants.{OutOfMemory, Write as Writing};
ghost use Rattle.ckrt_look_calls.specs.Events.{event_lines};
ghost use Rattle.ckrt_look_calls.specs.Recorded.{AreLines, lines_from};
ghost use Rattle.ckrt_look_calls.specs.Stretches.{IsEventsFault, account};

use crate::events::trace_event;
use crate::stretch::Telling;
use ckrt_events::Event;
use ckrt_inspect::InspectFault;
use ckrt_machine::Machine;
use std::alloc::Global;
use std::io::Write;

/// Makes an event that is accepted, and writes its lines, which are put together in `text`.
fn write_event<W: Write>(
    machine: &mut Machine,
    count: u64,
    event: &Event,
    text: &mut Vec<u8>,
    out: &mut W,
) -> Result<(), InspectFault>
    requires in_range { IsInRange event.now }
    requires accepted { refusal_of 0 event.now machine.old.state ≡ None }
    ensures state { OnOk result
        (machine.new.state ≡ (step event.now machine.old.state).state) }
    ensures lines { OnOk result
        (Appends (W.contents out.old) (W.contents out.new)
        (event_lines count event.now machine.old.state)) }
    ensures fault { IfErr result (λ e. (e ≡ OutOfMemory) ⊎ (e ≡ Writing)) }
{
    text.clear();
    if trace_event(machine, count, event, text).is_err() {
        return Err(InspectFault::OutOfMemory);
    }
    match out.write_all(text) {
        Ok(()) => Ok(()),
        Err(_) => Err(InspectFault::Write),
    }
}

/// Makes events, each of which is to be accepted at its turn, and writes their lines. The first is behind `count` others.
fn write_events<W: Write>(
    alloc: Global,
    machine: &mut Machine,
    count: u64,
    events: &[Event],
    out: &mut W,
) -> Result<(), InspectFault>
    requires few { count + length events.now < 2 ^ 64 }
    ensures lines { OnOk result
        (Appends (W.contents out.old) (W.contents out.new)
        (lines_from count events.now machine.old.state)) }
    ensures accepted { OnOk result (AllAccepted events.now machine.old.state) }
    ensures fault { IfErr result (IsEventsFault ⊥ events.now machine.old.state) }
{
    let mut text = Vec::new(alloc);
    let mut done = count;
    for event in events {
        if !event.in_range() || machine.accept(0, event).is_err() {
            return Err(InspectFault::Damaged);
        }
        write_event(machine, done, event, &mut text, out)?;
        done += 1;
    }
    Ok(())
}

/// The calls of a disk's program, a line for each, with what came of it, and lines between for waits that are over and for events that
/// are no run.
#[derive(Clone, Copy, Debug)]
pub struct Calls;

impl Telling for Calls {
    ghost Tells = { λ _. account AreLines };

    fn tell<W: Write>(
        &self,
        alloc: Global,
        machine: &mut Machine,
        count: u64,
        events: &[Event],
        out: &mut W,
    ) -> Result<(), InspectFault> {
        write_events(alloc, machine, count, events, out)
    }
}
