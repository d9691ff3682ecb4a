//! A run of a seed.
ghost use Rattle.std.specs.Prelude.{◌≡◌, ◌≤◌, ◌<◌, ◌+◌, ℕ, List};
ghost use Rattle.sha2.specs.Hashers.{Holds256};
ghost use Rattle.ckrt_memory.specs.Marks.{Follows};
ghost use Rattle.ckrt_machine.specs.Events.{memory_in};
ghost use Rattle.ckrt_machine.specs.Steps.{State};
ghost use Rattle.ckrt_schedule.specs.declared.next.Next.TheVariants.{Submit};
ghost use Rattle.ckrt_hunt_schedules.specs.LastLines.{last_line};
ghost use Rattle.ckrt_hunt_schedules.specs.Outcomes.{digest_of, outcome_of};
ghost use Rattle.ckrt_hunt_schedules.specs.Turns.{IsFit, next};
ghost use Rattle.ckrt_hunt_schedules.specs.Runs.{EndsWith, HasComeTo, Hears};

use crate::heard::Heard;
use crate::last_line::LastLine;
use crate::made::Made;
use crate::outcome::{Outcome, outcome_of};
use crate::plan::Plan;
use crate::turn::{next, runner_of};
use ckrt_events::Event;
use ckrt_machine::Machine;
use ckrt_schedule::{Next, ScheduleEnd};
use sha2::{Digest, Sha256};

/// What is told of a run.
#[derive(Debug, Drop, PartialEq, Eq)]
pub struct Told {
    pub outcome: Outcome,
    /// The SHA-256 digest of its output, where the program exited and outputs tell runs apart. How much a run that was broken off had
    /// put by then, one of the same outcome may not have.
    pub digest: Option<[u8; 32]>,
}

/// A run that has come to its end.
#[derive(Debug, Drop)]
pub struct Finished {
    pub told: Told,
    /// What it has made.
    pub made: Made,
    /// The last line that it has put.
    pub said: LastLine,
}

/// One event on.
fn go_on(machine: &mut Machine, plan: &Plan<'_>, made: &mut Made, heard: &mut Heard, event: &Event)
    requires scheduled { next plan.now made.old machine.old.state.tables ≡ Submit event.now }
    requires fit { IsFit plan.now made.old machine.old.state.tables event.now }
    requires turns { made.old.turns ≤ made.old.events }
    ensures come { (start : State)
        → HasComeTo plan.now start made.old machine.old.state heard.old
        → HasComeTo plan.now start made.new machine.new.state heard.new }
    ensures events { made.new.events ≡ made.old.events + 1 }
    ensures turns { made.new.turns ≤ made.new.events }
    ensures harts { machine.new.state.tables.threads.hart_count
        ≡ machine.old.state.tables.threads.hart_count }
    ensures follows { Follows (memory_in machine.old) (memory_in machine.new) }
{
    let who = runner_of(machine.tables(), event);
    let answer = machine.step(event);
    heard.hear(machine.last_output());
    *made = made.with(plan, who, answer);
}

/// The digest of the output, where the program exited and outputs aren't ignored.
fn digest_of(ignores_output: bool, outcome: &Outcome, hasher: Sha256) -> Option<[u8; 32]>
    ensures { (output : List ℕ) → Holds256 hasher output
        → result ≡ digest_of ignores_output outcome.now output }
{
    if ignores_output {
        return None;
    }
    match outcome {
        Outcome::Exited(_) => Some(hasher.finalize()),
        Outcome::Faulted(_, _, _)
        | Outcome::Deadlock(_)
        | Outcome::WaitsForInput
        | Outcome::NoEnd(_) => None,
    }
}

/// A run that has come to its end.
fn finish(
    machine: &Machine,
    plan: &Plan<'_>,
    ending: ScheduleEnd,
    made: Made,
    heard: Heard,
) -> Finished
    ensures outcome { result.told.outcome ≡ outcome_of ending machine.now.state.tables }
    ensures digest { (output : List ℕ) → Hears heard output
        → result.told.digest
        ≡ digest_of plan.now.ignores_output result.told.outcome output }
    ensures made { result.made ≡ made }
    ensures said { (output : List ℕ) → Hears heard output → result.said ≡ last_line output }
{
    let outcome = outcome_of(machine.tables(), ending);
    let digest = digest_of(plan.ignores_output, &outcome, heard.hasher);
    Finished {
        told: Told { outcome, digest },
        made,
        said: heard.last_line,
    }
}

/// Runs a program by a plan, from the state that the machine is in, and tells what it comes to. It takes no memory.
pub fn run(machine: &mut Machine, plan: &Plan<'_>) -> Finished
    requires { 1 ≤ machine.old.state.tables.threads.hart_count }
    ensures ends { EndsWith plan.now machine.old.state result }
    ensures harts { machine.new.state.tables.threads.hart_count
        ≡ machine.old.state.tables.threads.hart_count }
    ensures follows { Follows (memory_in machine.old) (memory_in machine.new) }
{
    let mut made = Made::nothing();
    let mut heard = Heard::nothing();
    'events: loop {
        match next(machine, plan, &made) {
            Next::Submit(event) => go_on(machine, plan, &mut made, &mut heard, &event),
            Next::End(ending) => return finish(machine, plan, ending, made, heard),
        }
    }
}
