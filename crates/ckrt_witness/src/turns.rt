//! Events that a schedule makes of a machine, as the promise of turns speaks of them.
ghost use Rattle.std.specs.Prelude.{◌≡◌, ◌≤◌, true};
ghost use Rattle.ckrt_events.specs.declared.event.TheConstants.{LONG_RUN_LIMIT};
ghost use Rattle.ckrt_schedule.specs.Turns.{is_given};
ghost use Rattle.ckrt_witness.specs.Turns.{Makes, MakesAll, TurnWitness};

use ckrt_events::Event;
use ckrt_machine::Machine;
use ckrt_schedule::{Next, Schedule, next_event};

/// Whether an event is of an input.
fn is_given(event: &Event) -> bool
    ensures { result ≡ is_given event.now }
{
    matches!(event, Event::Input(_) | Event::Eof)
}

/// Makes the event that a schedule has next after that many others. False where it has none, or the machine refuses it.
fn make_one(machine: &mut Machine, schedule: Schedule, behind: u64) -> bool
    requires some { 1 ≤ schedule.turn }
    requires few { schedule.turn ≤ LONG_RUN_LIMIT }
    ensures { result ≡ true → Makes schedule behind machine.old.state machine.new.state }
{
    let Next::Submit(event) = next_event(machine, schedule, None, behind) else {
        return false;
    };
    if is_given(&event) || machine.accept(0, &event).is_err() {
        return false;
    }
    let _answer = machine.step(&event);
    true
}

/// Makes so many events of a schedule, from its first one on. False where it has no further one, or the machine refuses one.
pub fn make_events(machine: &mut Machine, schedule: Schedule, count: u64) -> bool
    requires some { 1 ≤ schedule.turn }
    requires few { schedule.turn ≤ LONG_RUN_LIMIT }
    ensures { result ≡ true → MakesAll schedule count machine.old.state machine.new.state }
{
    for behind in 0..count {
        if !make_one(machine, schedule, behind) {
            return false;
        }
    }
    true
}

/// Makes as many events of a machine as the promise of turns speaks of, in turns of so many steps. Where thread 1 was ready before,
/// that meets all premises of its laws. False where it wasn't, or the program came to an end.
pub fn make_turns(machine: &mut Machine, turn: u32) -> bool
    requires some { 1 ≤ turn }
    requires few { turn ≤ LONG_RUN_LIMIT }
    ensures { result ≡ true → TurnWitness turn machine.old.state }
{
    machine.known();
    let harts = machine.tables().threads.hart_count() as u64;
    let is_ready = machine.tables().threads.is_ready(1);
    if harts == 0 || !is_ready {
        return false;
    }
    make_events(
        machine,
        Schedule { turn, seed: None },
        65 * (2 * harts + 1) + 1,
    )
}
