//! The operations of events, step by step.
ghost use Rattle.std.specs.Prelude.{◌≡◌, ◌≤◌, ◌<◌, ◌-◌, [], None};
ghost use Rattle.ckrt_events.specs.Bytes.{IsInRange};
ghost use Rattle.ckrt_events.specs.declared.event.Event.TheVariants.{Run};
ghost use Rattle.ckrt_memory.specs.Marks.{Follows};
ghost use Rattle.ckrt_machine.specs.Events.{memory_in, step, refusal_of};
ghost use Rattle.ckrt_machine.specs.Runs.{run_on, with_byte};
ghost use Rattle.ckrt_machine.specs.Steps.{hart_step};
ghost use Rattle.ckrt_look_calls.specs.Events.{state_behind};
ghost use Rattle.ckrt_look_calls.specs.Lines.{MayStep, put_before};
ghost use Rattle.ckrt_look_clocks.specs.Within.{noted_all};
ghost use Rattle.ckrt_look_races.specs.Orders.{between};
ghost use Rattle.ckrt_look_races.specs.Steps.{at, of_event, of_other, of_rest, of_run, of_step};

use crate::accesses::watch_accesses;
use crate::calls::watch_caller;
use crate::looking::{Before, look};
use crate::orders::{watch_acting, watch_waits};
use ckrt_calls::Tables;
use ckrt_events::Event;
use ckrt_look_calls::{advance, is_stopped};
use ckrt_look_clocks::{Detector, Place};
use ckrt_look_recording::is_quiet;
use ckrt_machine::Machine;

/// A step that was made, and is no plain instruction.
#[tactic(auto, using(crate::proofs::BehindLemmas::behind_both))]
fn watch_between(place: Place, before: &Before, after: &Tables, detector: &mut Detector)
    ensures { detector.new
        ≡ noted_all (between place before.now after.now) detector.old }
{
    let waits = before.waits.as_slice();
    watch_caller(
        place,
        &before.caller,
        before.is_writer,
        waits,
        after,
        detector,
    );
    watch_acting(place, before.acting, detector);
    watch_waits(place, waits, after, detector);
}

/// A step of a run of the thread on a hart: the first, or a further one.
fn watch_step(
    machine: &mut Machine,
    place: Place,
    hart: u8,
    is_first: bool,
    detector: &mut Detector,
)
    requires may { MayStep is_first hart machine.old }
    requires room { place.step < 4294967295 }
    ensures state { machine.new.state ≡ (hart_step hart machine.old.state).state }
    ensures follows { Follows (memory_in machine.old) (memory_in machine.new) }
    ensures output { machine.new.output
        ≡ with_byte (hart_step hart machine.old.state).put (put_before is_first machine.old) }
    ensures watched { detector.new
        ≡ noted_all (of_step place hart machine.old.state) detector.old }
{
    if is_quiet(machine, hart) {
        watch_accesses(machine, place, hart, detector);
        advance(machine, hart, is_first);
        return;
    }
    let before = look(machine, hart);
    advance(machine, hart, is_first);
    watch_between(place, &before, machine.tables(), detector);
}

/// The steps of a run of the thread on a hart behind its first `made`, of `limit` in all.
fn watch_steps(machine: &mut Machine, made: Place, hart: u8, limit: u32, detector: &mut Detector)
    requires { made.step ≤ limit }
    ensures state { machine.new.state
        ≡ state_behind (limit - made.step) hart machine.old.state machine.old.output }
    ensures follows { Follows (memory_in machine.old) (memory_in machine.new) }
    ensures watched { detector.new
        ≡ noted_all (of_rest made.event (limit - made.step) made.step hart machine.old.state
        machine.old.output) detector.old }
{
    for step in made.step..limit {
        if is_stopped(machine, hart) {
            return;
        }
        let place = Place {
            event: made.event,
            step,
        };
        watch_step(machine, place, hart, false, detector);
    }
}

/// A run of the thread on a hart, of `limit` steps at most.
fn watch_run(machine: &mut Machine, event: u64, hart: u8, limit: u32, detector: &mut Detector)
    requires hart { hart ≤ 7 }
    requires some { 1 ≤ limit }
    requires accepted { refusal_of 0 (Run hart 1) machine.old.state ≡ None }
    ensures state { machine.new.state ≡ (run_on limit hart machine.old.state []).state }
    ensures follows { Follows (memory_in machine.old) (memory_in machine.new) }
    ensures watched { detector.new
        ≡ noted_all (of_run event limit 0 hart machine.old.state []) detector.old }
{
    watch_step(machine, Place { event, step: 0 }, hart, true, detector);
    watch_steps(machine, Place { event, step: 1 }, hart, limit, detector);
}

/// An event that is no run.
fn watch_other(machine: &mut Machine, count: u64, event: &Event, detector: &mut Detector)
    requires in_range { IsInRange event.now }
    requires accepted { refusal_of 0 event.now machine.old.state ≡ None }
    ensures state { machine.new.state ≡ (step event.now machine.old.state).state }
    ensures follows { Follows (memory_in machine.old) (memory_in machine.new) }
    ensures watched { detector.new
        ≡ noted_all (of_other count event.now machine.old.state) detector.old }
{
    let place = Place {
        event: count,
        step: 0,
    };
    let before = machine.tables().threads.waits();
    machine.step(event);
    watch_waits(place, before.as_slice(), machine.tables(), detector);
}

/// Applies an event that would be accepted if no output were held, as `Machine::step` does, and gives a detector its operations, where
/// so many events are done. The steps of a run are made one by one. It takes no memory.
pub fn watch_event(machine: &mut Machine, count: u64, event: &Event, detector: &mut Detector)
    requires in_range { IsInRange event.now }
    requires accepted { refusal_of 0 event.now machine.old.state ≡ None }
    ensures state { machine.new.state ≡ (step event.now machine.old.state).state }
    ensures follows { Follows (memory_in machine.old) (memory_in machine.new) }
    ensures watched { detector.new
        ≡ noted_all (of_event count event.now machine.old.state) detector.old }
{
    match event {
        Event::Run(hart, limit) => watch_run(machine, count, *hart, u32::from(*limit), detector),
        Event::RunLong(hart, limit) => watch_run(machine, count, *hart, *limit, detector),
        _ => watch_other(machine, count, event, detector),
    }
}
