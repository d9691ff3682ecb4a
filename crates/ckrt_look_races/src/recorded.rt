//! The races of events.
ghost use Rattle.std.specs.Prelude.{◌≡◌, ◌⊎◌, ◌<◌, ◌+◌, ◌++◌, ◌^◌, false, true, IfErr, IfOk, OnOk, length};
ghost use Rattle.std.specs.Io.KnownBytes.{Appends};
ghost use Rattle.ckrt_machine.specs.Events.{AllAccepted};
ghost use Rattle.ckrt_inspect.specs.declared.fault.InspectFault.TheVariants.{OutOfMemory, Write as Writing};
ghost use Rattle.ckrt_look_calls.specs.Stretches.{IsEventsFault};
ghost use Rattle.ckrt_look_clocks.specs.Within.{noted_all, is_full};
ghost use Rattle.ckrt_look_calls.specs.Replays.{IsSound, replay_of};
ghost use Rattle.ckrt_look_races.specs.Again.{race_text};
ghost use Rattle.ckrt_look_races.specs.Inversions.{inversion_text, orders_text};
ghost use Rattle.ckrt_look_races.specs.Recorded.{FillsRoom, fresh_for, races_text};
ghost use Rattle.ckrt_look_races.specs.Steps.{of_events};
ghost use Rattle.ckrt_look_races.specs.Texts.{found_text};

use crate::again::write_races_again;
use crate::cycles_again::write_orders;
use crate::holders::HOLDERS;
use crate::texts::write_none;
use crate::walk::watch_event;
use ckrt_events::Event;
use ckrt_inspect::InspectFault;
use ckrt_look_calls::{Source, copy_of, slots_in, words_of, write_others_line};
use ckrt_look_clocks::{Detector, PART_BYTES};
use ckrt_look_recording::Rule;
use ckrt_machine::Machine;
use std::alloc::{AllocError, Global};
use std::io::Write;

/// Makes events, and gives a detector their operations, as long as its room isn't used up. The first is behind `count` others.
///
/// # Errors
///
/// `Damaged` where an event isn't accepted at its turn, `ShadowFull` where the room is used up.
fn watch_events(
    machine: &mut Machine,
    count: u64,
    events: &[Event],
    detector: &mut Detector,
) -> Result<(), InspectFault>
    requires few { count + length events.now < 2 ^ 64 }
    requires left { is_full detector.old ≡ false }
    ensures watched { OnOk result
        (detector.new
        ≡ noted_all (of_events count events.now machine.old.state) detector.old) }
    ensures left { OnOk result (is_full detector.new ≡ false) }
    ensures accepted { OnOk result (AllAccepted events.now machine.old.state) }
    ensures fault { IfErr result (IsEventsFault
        (is_full (noted_all (of_events count events.now machine.old.state) detector.old) ≡ true)
        events.now machine.old.state) }
{
    let mut done = count;
    for event in events {
        if !event.in_range() || machine.accept(0, event).is_err() {
            return Err(InspectFault::Damaged);
        }
        watch_event(machine, done, event, detector);
        if detector.is_full() {
            return Err(InspectFault::ShadowFull);
        }
        done += 1;
    }
    Ok(())
}

/// How many bytes the room of a look at races has, unless it's asked for another one: it takes the shadow of 8,193 parts of memory, of 4,096
/// bytes each.
pub const ROOM: u64 = 2_349_096_960;

/// A detector for what a machine does from here on: what was done before is taken as ordered. It takes 16 MB, and a room of so many
/// bytes, or of as many as a shadow of all the guest's memory takes where these are fewer.
pub fn detector_for(alloc: Global, machine: &Machine, room: u64) -> Result<Detector, AllocError>
    ensures { IfOk result (λ detector. detector
        ≡ fresh_for room machine.now.state) }
{
    let words = words_of(machine);
    Detector::new(alloc, HOLDERS, words, slots_in(room, PART_BYTES, words))
}

/// Writes what was found by events.
#[tactic(auto, using(ckrt_look_calls::proofs::AppendLemmas::appends_both))]
fn write_found<W: Write>(
    alloc: Global,
    source: &Source<'_>,
    detector: &Detector,
    out: &mut W,
) -> Result<(), InspectFault>
    requires few { source.now.count + length source.now.events.now < 2 ^ 64 }
    requires sound { IsSound (replay_of source.now) }
    ensures found { OnOk result (Appends (W.contents out.old) (W.contents out.new)
        (found_text (race_text (replay_of source.now)) source.now.count
        (source.now.count + length source.now.events.now) detector.now.watched.found)) }
    ensures fault { IfErr result (λ e. (e ≡ OutOfMemory) ⊎ (e ≡ Writing)) }
{
    let pairs = detector.pairs();
    if pairs.is_empty() {
        let end = source.count + source.events.len() as u64;
        return match write_none(out, source.count, end) {
            Ok(()) => Ok(()),
            Err(_) => Err(InspectFault::Write),
        };
    }
    write_races_again(alloc, source, pairs, out)?;
    match write_others_line(out, detector.others()) {
        Ok(()) => Ok(()),
        Err(_) => Err(InspectFault::Write),
    }
}

/// Writes what was found by events, races first.
#[tactic(auto, using(ckrt_look_calls::proofs::AppendLemmas::appends_both))]
fn write_all_found<W: Write>(
    alloc: Global,
    source: &Source<'_>,
    detector: &Detector,
    out: &mut W,
) -> Result<(), InspectFault>
    requires few { source.now.count + length source.now.events.now < 2 ^ 64 }
    requires sound { IsSound (replay_of source.now) }
    ensures found { OnOk result (Appends (W.contents out.old) (W.contents out.new)
        (found_text (race_text (replay_of source.now)) source.now.count
        (source.now.count + length source.now.events.now) detector.now.watched.found
        ++ orders_text (inversion_text (replay_of source.now)) source.now.count
        (source.now.count + length source.now.events.now) detector.now.watched.orders)) }
    ensures fault { IfErr result (λ e. (e ≡ OutOfMemory) ⊎ (e ≡ Writing)) }
{
    write_found(alloc, source, detector, out)?;
    write_orders(alloc, source, detector, out)
}

/// Makes events, each of which is to be accepted at its turn, and writes their races: each pair of places in them once, with the first two
/// accesses there that race, and how often, or where there were none. Beneath each stand the locks and the callers of both threads at
/// accesses, found by the rules, and the memory that was given anew last which has the word of both. After them stand the cycles
/// of orders in which threads took locks, each with what they held and their callers, or where there were none. The first event is after
/// `count` others, and what was done before it is taken as ordered. It takes 16 MB, three bytes for each of the guest's memory, and a
/// room of so many bytes for its shadow, or of 70 for each of the guest's memory where these are fewer. Where it looks at a race again it
/// takes twelve more for each.
///
/// # Errors
///
/// `Damaged` where an event isn't accepted at its turn, `ShadowFull` where the events fill the room, `OutOfMemory` where a growth was refused,
/// `Write` where the writer failed.
pub fn write_races<W: Write>(
    alloc: Global,
    machine: &mut Machine,
    count: u64,
    events: &[Event],
    rules: &[Rule],
    room: u64,
    out: &mut W,
) -> Result<(), InspectFault>
    requires few { count + length events.now < 2 ^ 64 }
    ensures races { OnOk result
        (Appends (W.contents out.old) (W.contents out.new)
        (races_text rules.now count events.now machine.old.state)) }
    ensures accepted { OnOk result (AllAccepted events.now machine.old.state) }
    ensures left { OnOk result (FillsRoom room count events.now machine.old.state → ⊥) }
    ensures fault { IfErr result
        (IsEventsFault (FillsRoom room count events.now machine.old.state) events.now
        machine.old.state) }
{
    let Ok(mut detector) = detector_for(alloc, machine, room) else {
        return Err(InspectFault::OutOfMemory);
    };
    let Ok(start) = copy_of(alloc, machine) else {
        return Err(InspectFault::OutOfMemory);
    };
    watch_events(machine, count, events, &mut detector)?;
    let source = Source {
        rules,
        count,
        events,
        start: &start,
    };
    write_all_found(alloc, &source, &detector, out)
}
