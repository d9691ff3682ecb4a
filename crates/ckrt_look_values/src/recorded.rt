//! The errors of memory of events, and after these the uses of values that were never stored.
ghost use Rattle.std.specs.Prelude.{◌≡◌, ◌⊎◌, ◌<◌, ◌+◌, ◌^◌, IfErr, IfOk, OnOk, length};
ghost use Rattle.std.specs.Io.KnownBytes.{Appends};
ghost use Rattle.ckrt_machine.specs.Events.{AllAccepted};
ghost use Rattle.ckrt_inspect.specs.declared.fault.InspectFault.TheVariants.{OutOfMemory, Write as Writing};
ghost use Rattle.ckrt_look_calls.specs.Stretches.{IsEventsFault};
ghost use Rattle.ckrt_look_calls.specs.Replays.{IsSound, replay_of};
ghost use Rattle.ckrt_look_heap.specs.Recorded.{FillsRoom};
ghost use Rattle.ckrt_look_values.specs.Checks.{fresh_checks};
ghost use Rattle.ckrt_look_values.specs.Recorded.{both_text, checks_text, found_text};

use crate::again::write_findings;
use crate::checking::Checking;
use crate::values::Values;
use ckrt_events::Event;
use ckrt_inspect::InspectFault;
use ckrt_look_calls::{Source, copy_of, watch_events, words_of, write_others_line};
use ckrt_look_heap::{shadow_for, watch_end, write_errors};
use ckrt_look_recording::Rule;
use ckrt_machine::Machine;
use std::alloc::{AllocError, Global};
use std::io::Write;

/// Nothing was told yet, and all is known, of what a machine does after so many events.
fn nothing_checked(
    alloc: Global,
    machine: &Machine,
    count: u64,
    room: u64,
) -> Result<Checking, AllocError>
    ensures { IfOk result (λ checks. checks ≡ fresh_checks room count machine.now.state) }
{
    let heap = shadow_for(alloc, machine, count, room)?;
    let values = Values::new(alloc, words_of(machine))?;
    Ok(Checking { heap, values })
}

/// Writes the uses that were found.
#[tactic(auto, using(ckrt_look_calls::proofs::AppendLemmas::appends_both))]
fn write_found<W: Write>(
    alloc: Global,
    source: &Source<'_>,
    values: &Values,
    out: &mut W,
) -> Result<(), InspectFault>
    requires sound { IsSound (replay_of source.now) }
    ensures written { OnOk result (Appends (W.contents out.old) (W.contents out.new)
        (found_text (replay_of source.now) values.now)) }
    ensures fault { IfErr result (λ e. (e ≡ OutOfMemory) ⊎ (e ≡ Writing)) }
{
    write_findings(alloc, source, values.findings(), out)?;
    match write_others_line(out, values.others()) {
        Ok(()) => Ok(()),
        Err(_) => Err(InspectFault::Write),
    }
}

/// Writes all that was found.
#[tactic(auto, using(ckrt_look_calls::proofs::AppendLemmas::appends_both))]
fn write_both<W: Write>(
    alloc: Global,
    source: &Source<'_>,
    checking: &Checking,
    out: &mut W,
) -> Result<(), InspectFault>
    requires few { source.now.count + length source.now.events.now < 2 ^ 64 }
    requires sound { IsSound (replay_of source.now) }
    ensures written { OnOk result (Appends (W.contents out.old) (W.contents out.new)
        (both_text (replay_of source.now) checking.now)) }
    ensures fault { IfErr result (λ e. (e ≡ OutOfMemory) ⊎ (e ≡ Writing)) }
{
    write_errors(alloc, source, &checking.heap, out)?;
    write_found(alloc, source, &checking.values, out)
}

/// Makes events, each of which is to be accepted at its turn, and writes their errors of memory, as [`write_errors`] does. After these it writes
/// where a branch, an address or a call hangs on memory that was given and never stored: each place in the program once, with the first one there,
/// and how often. Beneath each stand the callers of its thread, and who was given the memory.
///
/// The first event is after `count` others, and nothing is known of what was told or stored before it. It takes 64 bytes for each page of the
/// guest's memory and 6 for each byte, and a room of so many bytes for the shadow of the heap, or of 14 for each of the guest's memory where these
/// are fewer. Where it looks at an error again it takes six more for each.
///
/// # Errors
///
/// `Damaged` where an event isn't accepted at its turn, `ShadowFull` where the events fill the room, `OutOfMemory` where a growth was refused,
/// `Write` where the writer failed.
pub fn write_checks<W: Write>(
    alloc: Global,
    machine: &mut Machine,
    count: u64,
    events: &[Event],
    rules: &[Rule],
    room: u64,
    out: &mut W,
) -> Result<(), InspectFault>
    requires few { count + length events.now < 2 ^ 64 }
    ensures checks { OnOk result
        (Appends (W.contents out.old) (W.contents out.new)
        (checks_text rules.now count events.now machine.old.state)) }
    ensures accepted { OnOk result (AllAccepted events.now machine.old.state) }
    ensures left { OnOk result (FillsRoom room count events.now machine.old.state → ⊥) }
    ensures fault { IfErr result
        (IsEventsFault (FillsRoom room count events.now machine.old.state) events.now
        machine.old.state) }
{
    let Ok(mut checking) = nothing_checked(alloc, machine, count, room) else {
        return Err(InspectFault::OutOfMemory);
    };
    let Ok(start) = copy_of(alloc, machine) else {
        return Err(InspectFault::OutOfMemory);
    };
    watch_events(machine, count, events, &mut checking)?;
    watch_end(machine, &mut checking.heap);
    let source = Source {
        rules,
        count,
        events,
        start: &start,
    };
    write_both(alloc, &source, &checking, out)
}
