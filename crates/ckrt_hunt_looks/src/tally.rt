//! Races, counted.
ghost use Rattle.std.specs.Prelude.{◌≡◌, ◌||◌, nat_lt, length, IfOk};

use crate::rows::FoundRows;
use ckrt_look_clocks::{Detector, Inversion, Pair};
use std::alloc::{AllocError, Global};

/// Which pairs of places raced in the runs of seeds, and which cycles of locks there were.
#[derive(Drop)]
pub struct RaceTally {
    pub pairs: FoundRows<Pair>,
    pub cycles: FoundRows<Inversion>,
}

impl RaceTally {
    ghost use Rattle.ckrt_hunt_looks.specs.Races.{has_race, no_races, races_in, with_races};

    /// No race yet, and no cycle.
    pub fn new(alloc: Global) -> Result<RaceTally, AllocError>
        ensures { IfOk result (λ races. races_in races ≡ no_races) }
    {
        Ok(RaceTally {
            pairs: FoundRows::new(alloc)?,
            cycles: FoundRows::new(alloc)?,
        })
    }

    /// Whether some run had a race, or a cycle of locks.
    pub fn has_some(&self) -> bool
        ensures { result ≡ has_race self.now }
    {
        self.pairs.has_some() || self.cycles.has_some()
    }

    /// One more run: that of a seed had what the detector found. It takes no memory.
    pub fn note(&mut self, seed: u64, detector: &Detector)
        ensures { races_in self.new
            ≡ with_races seed detector.now.watched.found detector.now.watched.orders
            (races_in self.old) }
    {
        self.pairs.note(seed, detector.pairs(), detector.others());
        self.cycles
            .note(seed, detector.inversions(), detector.other_inversions());
    }
}
