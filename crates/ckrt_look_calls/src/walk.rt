//! The steps of an event.
ghost use Rattle.std.specs.Prelude.{◌≡◌, ◌≤◌, ◌-◌, [], None};
ghost use Rattle.ckrt_events.specs.Bytes.{IsInRange};
ghost use Rattle.ckrt_events.specs.declared.event.Event.TheVariants.{Run};
ghost use Rattle.ckrt_memory.specs.Marks.{Follows};
ghost use Rattle.ckrt_machine.specs.Events.{memory_in, step, refusal_of};
ghost use Rattle.ckrt_machine.specs.Runs.{run_on};
ghost use Rattle.ckrt_look_calls.specs.Events.{at, state_behind};
ghost use Rattle.ckrt_look_calls.specs.Walks.{after_event, after_rest, after_run, begun, run_of};

use crate::events::is_stopped;
use crate::lines::Place;
use crate::watcher::StepWatcher;
use ckrt_events::Event;
use ckrt_machine::Machine;

/// The steps of a run of the thread on a hart after its first `made`, of `limit` in all.
fn watch_steps<W: StepWatcher>(
    machine: &mut Machine,
    made: Place,
    hart: u8,
    limit: u32,
    watcher: &mut W,
)
    requires { made.step ≤ limit }
    ensures state { machine.new.state
        ≡ state_behind (limit - made.step) hart machine.old.state machine.old.output }
    ensures follows { Follows (memory_in machine.old) (memory_in machine.new) }
    ensures watched { watcher.new
        ≡ after_rest W.after (limit - made.step) hart made (run_of machine.old) watcher.old }
{
    for step in made.step..limit {
        if is_stopped(machine, hart) {
            return;
        }
        let place = Place {
            event: made.event,
            step,
        };
        watcher.watch_step(machine, place, hart, false);
    }
}

/// A run of the thread on a hart, of `limit` steps at most.
fn watch_run<W: StepWatcher>(
    machine: &mut Machine,
    event: u64,
    hart: u8,
    limit: u32,
    watcher: &mut W,
)
    requires hart { hart ≤ 7 }
    requires some { 1 ≤ limit }
    requires accepted { refusal_of 0 (Run hart 1) machine.old.state ≡ None }
    ensures state { machine.new.state ≡ (run_on limit hart machine.old.state []).state }
    ensures follows { Follows (memory_in machine.old) (memory_in machine.new) }
    ensures watched { watcher.new
        ≡ after_run W.after limit hart (at event 0) (begun machine.old.state) watcher.old }
{
    watcher.watch_step(machine, Place { event, step: 0 }, hart, true);
    watch_steps(machine, Place { event, step: 1 }, hart, limit, watcher);
}

/// An event that is no run.
fn watch_other(machine: &mut Machine, event: &Event)
    requires in_range { IsInRange event.now }
    requires accepted { refusal_of 0 event.now machine.old.state ≡ None }
    ensures state { machine.new.state ≡ (step event.now machine.old.state).state }
    ensures follows { Follows (memory_in machine.old) (memory_in machine.new) }
{
    machine.step(event);
}

/// Applies an event that would be accepted if no output were held, as `Machine::step` does, where so many events are done. The steps of a run
/// are made one by one, by what looks at them. It takes no memory.
pub fn watch_event<W: StepWatcher>(
    machine: &mut Machine,
    count: u64,
    event: &Event,
    watcher: &mut W,
)
    requires in_range { IsInRange event.now }
    requires accepted { refusal_of 0 event.now machine.old.state ≡ None }
    ensures state { machine.new.state ≡ (step event.now machine.old.state).state }
    ensures follows { Follows (memory_in machine.old) (memory_in machine.new) }
    ensures watched { watcher.new
        ≡ after_event W.after count event.now machine.old.state watcher.old }
{
    match event {
        Event::Run(hart, limit) => watch_run(machine, count, *hart, u32::from(*limit), watcher),
        Event::RunLong(hart, limit) => watch_run(machine, count, *hart, *limit, watcher),
        _ => watch_other(machine, event),
    }
}
