//! What a run has made so far.
ghost use Rattle.std.specs.Prelude.{◌≡◌, ◌<◌, ◌+◌};
ghost use Rattle.ckrt_hunt_schedules.specs.Plans.{has_left, lowered_at, lowered_by, made_with, nothing_made, steps_made, switch_to};
ghost use Rattle.ckrt_hunt_schedules.specs.Turns.{priority_of, is_at};

use crate::lots::lot_at;
use crate::plan::Plan;
use ckrt_machine::{Answer, RunEnd};
use ckrt_thread::ThreadId;

/// Who was lowered, by change point.
#[derive(Clone, Copy, Debug, PartialEq, Eq)]
pub struct Lowered {
    pub first: Option<ThreadId>,
    pub second: Option<ThreadId>,
    pub third: Option<ThreadId>,
}

/// What a run has made so far: all of it that its schedule goes by.
#[derive(Clone, Copy, Debug, PartialEq, Eq)]
pub struct Made {
    pub events: u32,
    /// Its runs and ticks.
    pub turns: u32,
    pub steps: u32,
    /// Whether the last run ended as its thread left the hart, which it mostly does in a call.
    pub is_near_call: bool,
    /// Who made the last steps.
    pub runner: Option<ThreadId>,
    /// How often a run was of another thread than the run before.
    pub switches: u32,
    /// How many bytes of its input the program has taken.
    pub taken: u32,
    pub lowered: Lowered,
}

/// Who is lowered at a change point, where that many steps are made, the last ones by this thread.
fn lowered_at(
    point: u32,
    steps: u32,
    who: Option<ThreadId>,
    lowered: Option<ThreadId>,
) -> Option<ThreadId>
    ensures { result ≡ lowered_at point steps who lowered }
{
    match lowered {
        Some(thread) => Some(thread),
        None if point <= steps => who,
        None => None,
    }
}

/// Whether it is this thread.
fn is_at(lowered: Option<ThreadId>, thread: ThreadId) -> bool
    ensures { result ≡ is_at lowered thread }
{
    match lowered {
        Some(other) => other == thread,
        None => false,
    }
}

/// Whether the run ended as its thread left the hart.
pub(crate) fn has_left(end: RunEnd) -> bool
    ensures { result ≡ has_left end }
{
    matches!(end, RunEnd::Off)
}

/// How many times another thread has gone on: once, where the one who makes the next steps isn't the one who made the last.
fn switch_to(runner: Option<ThreadId>, who: Option<ThreadId>) -> u32
    ensures { result ≡ switch_to runner who }
{
    match (runner, who) {
        (None, _) => 0,
        (Some(_), None) => 1,
        (Some(last), Some(next)) => u32::from(last != next),
    }
}

impl Lowered {
    /// The same where that many steps are made, the last ones by this thread.
    fn with(self, plan: &Plan<'_>, steps: u32, who: Option<ThreadId>) -> Lowered
        ensures { result ≡ lowered_by plan.now steps who self }
    {
        Lowered {
            first: lowered_at(plan.first, steps, who, self.first),
            second: lowered_at(plan.second, steps, who, self.second),
            third: lowered_at(plan.third, steps, who, self.third),
        }
    }

    /// The priority of a thread.
    pub(crate) fn priority_of(self, seed: u64, thread: ThreadId) -> u64
        ensures { result ≡ priority_of seed self thread }
    {
        if is_at(self.first, thread) {
            0
        } else if is_at(self.second, thread) {
            1
        } else if is_at(self.third, thread) {
            2
        } else {
            u64::from(lot_at(seed, 0, thread)) + 3
        }
    }
}

impl Made {
    /// Nothing yet.
    pub fn nothing() -> Made
        ensures { result ≡ nothing_made }
    {
        Made {
            events: 0,
            turns: 0,
            steps: 0,
            is_near_call: false,
            runner: None,
            switches: 0,
            taken: 0,
            lowered: Lowered {
                first: None,
                second: None,
                third: None,
            },
        }
    }

    /// One more event, which came to this answer; who was on the hart of a run made its steps.
    pub fn with(self, plan: &Plan<'_>, who: Option<ThreadId>, answer: Answer) -> Made
        requires turns { self.turns < 4294967295 }
        requires events { self.events < 4294967295 }
        requires steps { self.steps + steps_made answer < 4294967296 }
        ensures { result ≡ made_with plan.now who answer self }
    {
        match answer {
            Answer::Ran(steps, end) => Made {
                events: self.events + 1,
                turns: self.turns + 1,
                steps: self.steps + steps,
                is_near_call: has_left(end),
                runner: who,
                switches: self.switches.saturating_add(switch_to(self.runner, who)),
                lowered: self.lowered.with(plan, self.steps + steps, who),
                ..self
            },
            Answer::Ticked(_) => Made {
                events: self.events + 1,
                turns: self.turns + 1,
                ..self
            },
            Answer::Taken(count) => Made {
                events: self.events + 1,
                taken: self.taken.saturating_add(count),
                ..self
            },
            Answer::Placed | Answer::Closed => Made {
                events: self.events + 1,
                ..self
            },
        }
    }
}
