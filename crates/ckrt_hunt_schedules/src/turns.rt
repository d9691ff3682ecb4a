//! The turns of a run, in a room that is taken once.
ghost use Rattle.std.specs.Prelude.{◌≡◌, ◌≤◌, ◌+◌, ◌++◌, [], length, take, drop, vec_capacity, IfOk};
ghost use Rattle.ckrt_hunt_schedules.specs.declared.turns.TheConstants.{MOST_TURNS};

use crate::given::Turn;
use std::alloc::{AllocError, Global};

/// How many turns there is room for. A run that has more of them isn't shortened.
pub const MOST_TURNS: usize = 65_536;

/// Turns, at most [`MOST_TURNS`].
#[derive(Drop)]
pub struct Turns {
    turns: Vec<Turn>,
    ghost room: { MOST_TURNS ≤ vec_capacity turns },
    ghost few: { length turns.items ≤ MOST_TURNS },
}

impl Turns {
    /// No turn yet, and room for [`MOST_TURNS`] of them.
    pub fn new(alloc: Global) -> Result<Turns, AllocError>
        ensures { IfOk result (λ turns. turns.turns.items ≡ []) }
    {
        Ok(Turns {
            turns: Vec::with_capacity(alloc, MOST_TURNS)?,
        })
    }

    /// The turns, in their order.
    pub fn as_slice(&self) -> &[Turn]
        ensures turns { result.now ≡ self.now.turns.items }
        ensures few { length result.now ≤ MOST_TURNS }
    {
        self.turns.as_slice()
    }

    /// No turn any more.
    pub(crate) fn clear(&mut self)
        ensures { self.new.turns.items ≡ [] }
    {
        self.turns.clear();
    }

    /// One turn more, joined with the last one where they are one thread's. False where there is no room for it, and then there is no
    /// turn more.
    pub(crate) fn note(&mut self, turn: Turn) -> bool {
        let last = self.turns.pop();
        if let Some(joined) = last.and_then(|last| last.joined(turn)) {
            let _ = self.turns.push(joined);
            return true;
        }
        if let Some(last) = last {
            let _ = self.turns.push(last);
        }
        if self.turns.len() == MOST_TURNS {
            return false;
        }
        let _ = self.turns.push(turn);
        true
    }

    /// Turns without those from a place on up to another one, which isn't left out.
    pub(crate) fn set_without(&mut self, turns: &[Turn], from: usize, to: usize)
        requires few { length turns.now ≤ MOST_TURNS }
        requires from { from ≤ to }
        requires to { to ≤ length turns.now }
        ensures { self.new.turns.items ≡ take from turns.now ++ drop to turns.now }
    {
        self.turns.clear();
        let _ = self.turns.extend_from_slice(&turns[..from]);
        let _ = self.turns.extend_from_slice(&turns[to..]);
    }
}
