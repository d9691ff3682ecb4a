//! Outcomes of all kinds behind each other, those that harm first.
ghost use Rattle.std.specs.Prelude.{◌≡◌, ◌≤◌, vec_capacity, IfOk};
ghost use Rattle.ckrt_hunt_schedules.specs.declared.outcomes.TheConstants.{MOST_OUTCOMES};

use crate::copies::copy_all;
use crate::group::GROUP_ROWS;
use crate::joining::append_all;
use crate::kind::kind_of;
use crate::row::Row;
use crate::tally::Tally;
use crate::verdict::{Verdict, verdict_by};
use std::alloc::{AllocError, Global};

/// How many outcomes of all six kinds are told apart.
pub const MOST_OUTCOMES: usize = 6 * GROUP_ROWS;

/// What a hunt came to: each outcome once, by its kind, and within a kind in the order in which they came first.
#[derive(Drop)]
pub struct Outcomes {
    pub(crate) rows: Vec<Row>,
    pub(crate) others: u64,
    ghost room: { MOST_OUTCOMES ≤ vec_capacity rows },
}

impl Outcomes {
    ghost use Rattle.ckrt_hunt_schedules.specs.Kinds.{verdict_of};
    ghost use Rattle.ckrt_hunt_schedules.specs.Tallies.{AreOutcomesOf, IsRoom};

    /// None yet, and the room for those of a tally.
    pub fn new(alloc: Global) -> Result<Outcomes, AllocError>
        ensures { IfOk result IsRoom }
    {
        Ok(Outcomes {
            rows: Vec::with_capacity(alloc, MOST_OUTCOMES)?,
            others: 0,
        })
    }

    /// Takes those of a tally. It takes no memory.
    pub fn take(&mut self, tally: &mut Tally)
        requires { IsRoom self.old }
        ensures { AreOutcomesOf tally.old self.new }
    {
        self.others = tally.others();
        append_all(&mut self.rows, tally);
    }

    /// Takes copies of those of a tally, in place of what it has. It takes no memory.
    pub fn copy(&mut self, tally: &Tally)
        ensures { AreOutcomesOf tally.now self.new }
    {
        self.rows.clear();
        self.others = tally.others();
        copy_all(&mut self.rows, tally);
    }

    /// The outcomes.
    pub fn rows(&self) -> &[Row]
        ensures { result.now ≡ self.now.rows.items }
    {
        self.rows.as_slice()
    }

    /// How many runs had an outcome for which there was no row left.
    pub fn others(&self) -> u64
        ensures { result ≡ self.now.others }
    {
        self.others
    }

    /// What they come to together.
    pub fn verdict(&self) -> Verdict
        ensures { result ≡ verdict_of self.now.rows.items self.now.others }
    {
        if self.rows.len() == 1 && self.others == 0 {
            verdict_by(kind_of(&self.rows[0].told.outcome))
        } else {
            Verdict::Several
        }
    }
}
