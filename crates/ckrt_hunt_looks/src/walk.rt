//! A run of a seed, made by one machine, and step by step by another one.
ghost use Rattle.std.specs.Prelude.{◌≡◌, ◌+◌};
ghost use Rattle.ckrt_machine.specs.Steps.{State};
ghost use Rattle.ckrt_schedule.specs.declared.next.Next.TheVariants.{Submit};
ghost use Rattle.ckrt_hunt_schedules.specs.Turns.{IsFit, next};
ghost use Rattle.ckrt_hunt_looks.specs.Walks.{AreAlike, HasBegun, HasGoneOn, HasSeen, Sees, at_point};

use crate::look::RunLook;
use ckrt_events::Event;
use ckrt_hunt_schedules::{Made, Plan, next, runner_of};
use ckrt_machine::Machine;
use ckrt_schedule::Next;

/// One event on, by both machines.
fn watch_next<L: RunLook>(
    whole: &mut Machine,
    stepped: &mut Machine,
    plan: &Plan<'_>,
    made: &mut Made,
    event: &Event,
    look: &mut L,
)
    requires scheduled { next plan.now made.old whole.old.state.tables ≡ Submit event.now }
    requires fit { IsFit plan.now made.old whole.old.state.tables event.now }
    requires alike { AreAlike made.old whole.old.state stepped.old.state }
    ensures seen { (start : State) (f : L)
        → HasSeen L.looks plan.now start f (at_point made.old whole.old.state) look.old
        → HasSeen L.looks plan.now start f (at_point made.new whole.new.state) look.new }
    ensures alike { AreAlike made.new whole.new.state stepped.new.state }
    ensures events { made.new.events ≡ made.old.events + 1 }
    ensures whole { HasGoneOn whole.old whole.new }
    ensures stepped { HasGoneOn stepped.old stepped.new }
{
    look.watch(stepped, u64::from(made.events), event);
    let who = runner_of(whole.tables(), event);
    let answer = whole.step(event);
    *made = made.with(plan, who, answer);
}

/// Runs a program by a plan, from the state that two machines are in, and has a look at each event of the run. What the next event is
/// goes by the machine that makes whole events. It takes no memory.
pub(crate) fn watch_run<L: RunLook>(
    whole: &mut Machine,
    stepped: &mut Machine,
    plan: &Plan<'_>,
    look: &mut L,
)
    requires { HasBegun whole.old.state stepped.old.state }
    ensures seen { Sees L.looks plan.now whole.old.state look.old look.new }
    ensures whole { HasGoneOn whole.old whole.new }
    ensures stepped { HasGoneOn stepped.old stepped.new }
{
    let mut made = Made::nothing();
    'events: loop {
        match next(whole, plan, &made) {
            Next::Submit(event) => {
                watch_next(whole, stepped, plan, &mut made, &event, look);
            }
            Next::End(_) => return,
        }
    }
}
