//! Which turns a run has.
ghost use Rattle.std.specs.Prelude.{◌≡◌, ◌≤◌, ◌<◌, ◌+◌};
ghost use Rattle.ckrt_memory.specs.Marks.{Follows};
ghost use Rattle.ckrt_machine.specs.Events.{memory_in};
ghost use Rattle.ckrt_schedule.specs.declared.next.Next.TheVariants.{Submit};
ghost use Rattle.ckrt_hunt_schedules.specs.Given.{run_made, turn_made};
ghost use Rattle.ckrt_hunt_schedules.specs.Turns.{IsFit, next};

use crate::given::{MOST_STEPS, Turn};
use crate::made::{Made, has_left};
use crate::plan::Plan;
use crate::turn::{next, runner_of};
use crate::turns::Turns;
use ckrt_events::Event;
use ckrt_machine::{Answer, Machine};
use ckrt_schedule::Next;
use ckrt_thread::{Hart, ThreadId};

/// The turn of a run: as many steps as it made, or until its thread leaves its hart where it did.
fn run_made(who: Option<ThreadId>, hart: Hart, answer: Answer) -> Option<Turn>
    ensures { result ≡ run_made who hart answer }
{
    match (who, answer) {
        (Some(thread), Answer::Ran(steps, end)) => {
            let steps = if has_left(end) { MOST_STEPS } else { steps };
            Some(Turn::Run(thread, hart, steps))
        }
        _ => None,
    }
}

/// The turn of an event, if it had one.
fn turn_made(who: Option<ThreadId>, event: &Event, answer: Answer) -> Option<Turn>
    ensures { result ≡ turn_made who event.now answer }
{
    match event {
        Event::Run(hart, _) | Event::RunLong(hart, _) => run_made(who, *hart, answer),
        Event::Tick(ticks) => Some(Turn::Tick(*ticks)),
        Event::Place(_, _) | Event::Input(_) | Event::Eof => None,
    }
}

/// One event on; false where there is no room for its turn.
fn note_event(
    machine: &mut Machine,
    plan: &Plan<'_>,
    made: &mut Made,
    event: &Event,
    turns: &mut Turns,
) -> bool
    requires fit { IsFit plan.now made.old machine.old.state.tables event.now }
    requires turns { made.old.turns ≤ made.old.events }
    ensures events { made.new.events ≡ made.old.events + 1 }
    ensures turns { made.new.turns ≤ made.new.events }
    ensures harts { machine.new.state.tables.threads.hart_count
        ≡ machine.old.state.tables.threads.hart_count }
    ensures follows { Follows (memory_in machine.old) (memory_in machine.new) }
{
    let who = runner_of(machine.tables(), event);
    let answer = machine.step(event);
    *made = made.with(plan, who, answer);
    match turn_made(who, event, answer) {
        Some(turn) => turns.note(turn),
        None => true,
    }
}

/// Runs a program by a plan, from the state that the machine is in, and notes its turns: a proposal of turns to be given. False where
/// there is no room for all of them.
#[tactic(auto, using(ckrt_memory::proofs::FollowLemmas::follows_on))]
pub(crate) fn note_turns(machine: &mut Machine, plan: &Plan<'_>, turns: &mut Turns) -> bool
    requires { 1 ≤ machine.old.state.tables.threads.hart_count }
    ensures harts { machine.new.state.tables.threads.hart_count
        ≡ machine.old.state.tables.threads.hart_count }
    ensures follows { Follows (memory_in machine.old) (memory_in machine.new) }
{
    let mut made = Made::nothing();
    turns.clear();
    'events: loop {
        match next(machine, plan, &made) {
            Next::Submit(event) => {
                if !note_event(machine, plan, &mut made, &event, turns) {
                    return false;
                }
            }
            Next::End(_) => return true,
        }
    }
}
