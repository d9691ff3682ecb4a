//! Outcomes of one kind, counted.
ghost use Rattle.std.specs.Prelude.{◌≡◌, ◌≤◌, vec_capacity, vec_len, IfOk};
ghost use Rattle.ckrt_hunt_schedules.specs.declared.group.TheConstants.{GROUP_ROWS};

use crate::row::{LATER_SEEDS, Row, count_again, place_of};
use crate::runs::Finished;
use std::alloc::{AllocError, Global};

/// How many outcomes of a kind are told apart.
pub const GROUP_ROWS: usize = 64;

/// The outcomes of one kind: each once, with how often it came, and how many runs had one for which there was no row left.
#[derive(Drop)]
pub struct Group {
    pub(crate) rows: Vec<Row>,
    pub(crate) others: u64,
    ghost room: { GROUP_ROWS ≤ vec_capacity rows },
    ghost few: { vec_len rows ≤ GROUP_ROWS },
}

impl Group {
    ghost use Rattle.ckrt_hunt_schedules.specs.Tallies.{IsEmpty, IsNotedIn};

    /// No outcome yet, and room for [`GROUP_ROWS`] of them.
    pub(crate) fn new(alloc: Global) -> Result<Group, AllocError>
        ensures { IfOk result IsEmpty }
    {
        Ok(Group {
            rows: Vec::with_capacity(alloc, GROUP_ROWS)?,
            others: 0,
        })
    }

    /// The run of one more seed. It takes no memory.
    pub(crate) fn note(&mut self, seed: u64, run: Finished)
        ensures { IsNotedIn seed run self.old self.new }
    {
        match place_of(self.rows.as_slice(), &run.told) {
            Some(place) => count_again(self.rows.as_mut_slice(), place, seed),
            None if self.rows.len() < GROUP_ROWS => {
                let row = Row {
                    told: run.told,
                    said: run.said,
                    count: 1,
                    first: seed,
                    later: [0; LATER_SEEDS],
                };
                let _ = self.rows.push(row);
            }
            None => self.others = self.others.saturating_add(1),
        }
    }
}
