//! Turns that are given, and not drawn.
ghost use Rattle.std.specs.Prelude.{◌≡◌, ◌≤◌};
ghost use Rattle.ckrt_hunt_schedules.specs.Given.{given_turn, hart_of, is_clocks, is_for, joined, length_of, rank_of, ticks_of};

use crate::made::Made;
use crate::plan::Plan;
use ckrt_thread::{Hart, ThreadId};

/// The most steps that a turn has.
pub const MOST_STEPS: u32 = 1_000_000;

/// A turn that is given, and not drawn.
#[derive(Clone, Copy, Debug, Default, PartialEq, Eq)]
pub enum Turn {
    /// The thread runs so many steps, at least one and at most [`MOST_STEPS`], or until it leaves its hart. It goes onto this hart
    /// where it is on none. Where it can't run, the turn is that of [`Turn::Lowest`].
    Run(ThreadId, Hart, u32),
    /// The clock goes on by so many ticks, at least one.
    Tick(u32),
    /// Of the threads that can run the one with the lowest number does so, until it leaves its hart.
    #[default]
    Lowest,
}

/// The turn that is given for the next one of a run: behind the last one that is given it is [`Turn::Lowest`]. None where turns are
/// drawn.
pub fn given_turn(plan: &Plan<'_>, made: &Made) -> Option<Turn>
    ensures { result ≡ given_turn plan.now made.now }
{
    let Some(turns) = plan.turns else {
        return None;
    };
    let place = made.turns as usize;
    if place < turns.len() {
        Some(turns[place])
    } else {
        Some(Turn::Lowest)
    }
}

impl Turn {
    /// Whether the turn is given to the thread.
    fn is_for(self, thread: ThreadId) -> bool
        ensures { result ≡ is_for self thread }
    {
        match self {
            Turn::Run(other, _, _) => other == thread,
            Turn::Tick(_) | Turn::Lowest => false,
        }
    }

    /// The rank of a thread at the turn.
    pub(crate) fn rank_of(self, thread: ThreadId) -> u64
        ensures { result ≡ rank_of self thread }
    {
        if self.is_for(thread) { 1 } else { 0 }
    }

    /// How many steps a thread has whose turn it becomes.
    pub(crate) fn length_of(self, thread: ThreadId) -> u32
        ensures length { result ≡ length_of self thread }
        ensures some { 1 ≤ result }
        ensures few { result ≤ 1000000 }
    {
        match self {
            Turn::Run(other, _, steps) if other == thread => steps.min(MOST_STEPS).max(1),
            Turn::Run(_, _, _) | Turn::Tick(_) | Turn::Lowest => MOST_STEPS,
        }
    }

    /// The hart of the turn.
    pub(crate) fn hart(self) -> u32
        ensures { result ≡ hart_of self }
    {
        match self {
            Turn::Run(_, hart, _) => u32::from(hart),
            Turn::Tick(_) | Turn::Lowest => 0,
        }
    }

    /// Whether the turn is the clock's.
    pub(crate) fn is_clocks(self) -> bool
        ensures { result ≡ is_clocks self }
    {
        matches!(self, Turn::Tick(_))
    }

    /// By how many ticks the clock goes on.
    pub(crate) fn ticks(self) -> u32
        ensures ticks { result ≡ ticks_of self }
        ensures some { 1 ≤ result }
    {
        match self {
            Turn::Tick(ticks) => ticks.max(1),
            Turn::Run(_, _, _) | Turn::Lowest => 1,
        }
    }

    /// The one turn that this one and the next one are, where they are one thread's on one hart, and the first ended before the thread
    /// left it.
    pub(crate) fn joined(self, next: Turn) -> Option<Turn>
        ensures { result ≡ joined self next }
    {
        match (self, next) {
            (Turn::Run(thread, hart, steps), Turn::Run(other, on, more))
                if thread == other && hart == on && steps < MOST_STEPS => {
                let steps = steps.saturating_add(more).min(MOST_STEPS);
                Some(Turn::Run(thread, hart, steps))
            }
            _ => None,
        }
    }
}
