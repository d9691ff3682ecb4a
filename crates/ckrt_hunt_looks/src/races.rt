//! The look at races.
ghost use Rattle.ckrt_hunt_looks.specs.Races.{race_look};

use crate::look::RunLook;
use crate::tally::RaceTally;
use ckrt_events::Event;
use ckrt_look_clocks::Detector;
use ckrt_look_races::{detector_for, watch_event};
use ckrt_machine::Machine;
use std::alloc::{AllocError, Global};

impl RunLook for Detector {
    type Counted = RaceTally;

    ghost looks = { race_look };

    fn begin(alloc: Global, machine: &Machine, room: u64) -> Result<Detector, AllocError> {
        detector_for(alloc, machine, room)
    }

    fn nothing(alloc: Global) -> Result<RaceTally, AllocError> {
        RaceTally::new(alloc)
    }

    fn watch(&mut self, machine: &mut Machine, count: u64, event: &Event) {
        watch_event(machine, count, event, self);
    }

    fn count(&self, seed: u64, counted: &mut RaceTally) -> bool {
        if self.is_full() {
            return false;
        }
        counted.note(seed, self);
        true
    }

    fn forget(&mut self) {
        self.clear();
    }
}
