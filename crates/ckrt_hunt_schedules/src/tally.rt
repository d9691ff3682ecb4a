//! Outcomes, counted by their kinds.
ghost use Rattle.std.specs.Prelude.{◌≡◌, length, IfOk};

use crate::group::Group;
use crate::kind::{Kind, kind_of};
use crate::runs::Finished;
use std::alloc::{AllocError, Global};

/// What seeds came to. Each kind of outcomes has rows of its own, so none takes the row of another kind's.
#[derive(Drop)]
pub struct Tally {
    pub(crate) faults: Group,
    pub(crate) deadlocks: Group,
    pub(crate) other_statuses: Group,
    pub(crate) no_ends: Group,
    pub(crate) input_waits: Group,
    pub(crate) exits: Group,
}

impl Tally {
    ghost use Rattle.ckrt_hunt_schedules.specs.Tallies.{AreEmpty, IsNoted, others_of, rows_of};

    /// No outcome yet, and room for [`GROUP_ROWS`](crate::GROUP_ROWS) of each kind.
    pub fn new(alloc: Global) -> Result<Tally, AllocError>
        ensures { IfOk result AreEmpty }
    {
        let faults = Group::new(alloc)?;
        let deadlocks = Group::new(alloc)?;
        let other_statuses = Group::new(alloc)?;
        let no_ends = Group::new(alloc)?;
        let input_waits = Group::new(alloc)?;
        let exits = Group::new(alloc)?;
        Ok(Tally {
            faults,
            deadlocks,
            other_statuses,
            no_ends,
            input_waits,
            exits,
        })
    }

    /// How many outcomes have a row.
    pub fn count(&self) -> usize
        ensures { result ≡ length (rows_of self.now) }
    {
        self.faults.rows.len()
            + self.deadlocks.rows.len()
            + self.other_statuses.rows.len()
            + self.no_ends.rows.len()
            + self.input_waits.rows.len()
            + self.exits.rows.len()
    }

    /// How many runs had an outcome for which there was no row left.
    pub fn others(&self) -> u64
        ensures { result ≡ others_of self.now }
    {
        self.faults
            .others
            .saturating_add(self.deadlocks.others)
            .saturating_add(self.other_statuses.others)
            .saturating_add(self.no_ends.others)
            .saturating_add(self.input_waits.others)
            .saturating_add(self.exits.others)
    }

    /// The run of one more seed. It takes no memory.
    pub fn note(&mut self, seed: u64, run: Finished)
        ensures { IsNoted seed run self.old self.new }
    {
        match kind_of(&run.told.outcome) {
            Kind::Fault => self.faults.note(seed, run),
            Kind::Deadlock => self.deadlocks.note(seed, run),
            Kind::OtherStatus => self.other_statuses.note(seed, run),
            Kind::NoEnd => self.no_ends.note(seed, run),
            Kind::WaitsForInput => self.input_waits.note(seed, run),
            Kind::ExitZero => self.exits.note(seed, run),
        }
    }
}
