//! What threads did in events.
ghost use Rattle.std.specs.Prelude.{◌≡◌, ◌≤◌, ◌<◌, ◌+◌, ◌-◌, ◌^◌, [], None, IfOk, OnOk, replicate};
ghost use Rattle.ckrt_events.specs.Bytes.{IsInRange};
ghost use Rattle.ckrt_events.specs.declared.event.Event.TheVariants.{Run};
ghost use Rattle.ckrt_machine.specs.Events.{refusal_of, step};
ghost use Rattle.ckrt_machine.specs.Runs.{run_on, stop_of};
ghost use Rattle.ckrt_look_calls.specs.Events.{state_behind};
ghost use Rattle.ckrt_look_timeline.specs.Activities.{activity_of};
ghost use Rattle.ckrt_look_timeline.specs.Tracks.{GoesAlike, GoesOn, IsWhole, in_event, in_rest, in_run};

use crate::activity::activities;
use crate::timeline::{Timeline, note};
use ckrt_events::Event;
use ckrt_look_calls::{advance, is_stopped};
use ckrt_look_recording::go_quietly;
use ckrt_machine::Machine;
use ckrt_thread::Hart;
use std::alloc::AllocError;

/// Steps at which each thread does the same: quiet ones, or one that isn't. The answer is how many.
fn go_alike(machine: &mut Machine, hart: Hart, limit: u32) -> u32
    requires some { 1 ≤ limit }
    requires going { stop_of hart machine.old.state.tables machine.old.output ≡ None }
    ensures { GoesAlike limit result hart machine.old machine.new }
{
    let made = go_quietly(machine, hart, limit);
    if made > 0 {
        return made;
    }
    advance(machine, hart, false);
    1
}

/// Steps of a run behind its first at which each thread does the same, at most so many. The answer is how many.
fn watch_piece(
    machine: &mut Machine,
    hart: Hart,
    limit: u32,
    timeline: &mut Timeline,
) -> Result<u32, AllocError>
    requires some { 1 ≤ limit }
    requires going { stop_of hart machine.old.state.tables machine.old.output ≡ None }
    requires whole { IsWhole timeline.old }
    requires few { timeline.old.steps + limit < 2 ^ 64 }
    ensures alike { IfOk result
        (λ made. GoesAlike limit made hart machine.old machine.new) }
    ensures goes_on { IfOk result (λ made. GoesOn
        (λ i. replicate made (activity_of hart (i + 1) machine.old.state.tables.threads))
        timeline.old timeline.new) }
    ensures steps { IfOk result
        (λ made. timeline.new.steps ≡ timeline.old.steps + made) }
{
    let now = activities(&machine.tables().threads, hart);
    let made = go_alike(machine, hart, limit);
    note(timeline, &now, u64::from(made))?;
    Ok(made)
}

/// The steps of a run behind its first, at most so many.
fn watch_rest(
    machine: &mut Machine,
    hart: Hart,
    limit: u32,
    timeline: &mut Timeline,
) -> Result<(), AllocError>
    requires whole { IsWhole timeline.old }
    requires few { timeline.old.steps + limit < 2 ^ 64 }
    ensures state { OnOk result
        (machine.new.state ≡ state_behind limit hart machine.old.state machine.old.output) }
    ensures goes_on { OnOk result
        (GoesOn (λ i. in_rest (i + 1) limit hart machine.old.state machine.old.output) timeline.old
        timeline.new) }
    ensures steps { OnOk result (timeline.new.steps ≤ timeline.old.steps + limit) }
{
    let mut left = limit;
    while left > 0 {
        if is_stopped(machine, hart) {
            return Ok(());
        }
        let made = watch_piece(machine, hart, left, timeline)?;
        left -= made;
    }
    Ok(())
}

/// A run of the thread on a hart, of so many steps at most.
fn watch_run(
    machine: &mut Machine,
    hart: Hart,
    limit: u32,
    timeline: &mut Timeline,
) -> Result<(), AllocError>
    requires hart { hart ≤ 7 }
    requires some { 1 ≤ limit }
    requires accepted { refusal_of 0 (Run hart 1) machine.old.state ≡ None }
    requires whole { IsWhole timeline.old }
    requires few { timeline.old.steps + limit < 2 ^ 64 }
    ensures state { OnOk result
        (machine.new.state ≡ (run_on limit hart machine.old.state []).state) }
    ensures goes_on { OnOk result
        (GoesOn (λ i. in_run (i + 1) limit hart machine.old.state []) timeline.old timeline.new) }
    ensures steps { OnOk result (timeline.new.steps ≤ timeline.old.steps + limit) }
{
    let now = activities(&machine.tables().threads, hart);
    advance(machine, hart, true);
    note(timeline, &now, 1)?;
    watch_rest(machine, hart, limit - 1, timeline)
}

/// Applies an event that would be accepted if no output were held, as `Machine::step` does, and notes what each thread did at its
/// steps.
pub(crate) fn watch_event(
    machine: &mut Machine,
    event: &Event,
    timeline: &mut Timeline,
) -> Result<(), AllocError>
    requires in_range { IsInRange event.now }
    requires accepted { refusal_of 0 event.now machine.old.state ≡ None }
    requires whole { IsWhole timeline.old }
    requires few { timeline.old.steps + 4294967295 < 2 ^ 64 }
    ensures state { OnOk result (machine.new.state ≡ (step event.now machine.old.state).state) }
    ensures goes_on { OnOk result
        (GoesOn (λ i. in_event (i + 1) event.now machine.old.state) timeline.old timeline.new) }
    ensures steps { OnOk result (timeline.new.steps ≤ timeline.old.steps + 4294967295) }
{
    match event {
        Event::Run(hart, limit) => watch_run(machine, *hart, u32::from(*limit), timeline),
        Event::RunLong(hart, limit) => watch_run(machine, *hart, *limit, timeline),
        _ => {
            machine.step(event);
            Ok(())
        }
    }
}
