//! The look at errors of memory.
ghost use Rattle.ckrt_hunt_looks.specs.Errors.{error_look};

use crate::look::RunLook;
use crate::rows::FoundRows;
use ckrt_events::Event;
use ckrt_look_heap::{Finding, Shadow, shadow_for, watch_event};
use ckrt_machine::Machine;
use std::alloc::{AllocError, Global};

impl RunLook for Shadow {
    type Counted = FoundRows<Finding>;

    ghost looks = { error_look };

    fn begin(alloc: Global, machine: &Machine, room: u64) -> Result<Shadow, AllocError> {
        shadow_for(alloc, machine, 0, room)
    }

    fn nothing(alloc: Global) -> Result<FoundRows<Finding>, AllocError> {
        FoundRows::new(alloc)
    }

    fn watch(&mut self, machine: &mut Machine, count: u64, event: &Event) {
        watch_event(machine, count, event, self);
    }

    fn count(&self, seed: u64, counted: &mut FoundRows<Finding>) -> bool {
        if self.is_full() {
            return false;
        }
        counted.note(seed, self.findings(), self.others());
        true
    }

    fn forget(&mut self) {
        self.clear();
    }
}
