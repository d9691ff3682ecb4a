//! Errors of memory and values, looked at in the same steps.
ghost use Rattle.std.specs.Prelude.{◌≡◌};

use crate::values::Values;
use crate::walk::{watch_plainly, watch_specially};
use ckrt_look_calls::{Place, StepWatcher, advance, stepping_of};
use ckrt_look_heap::{Shadow, watch_notes};
use ckrt_look_recording::is_quiet;
use ckrt_machine::Machine;

/// The shadow of the heap, and what is known of values.
#[derive(Drop)]
pub(crate) struct Checking {
    pub(crate) heap: Shadow,
    pub(crate) values: Values,
}

impl StepWatcher for Checking {
    ghost use Rattle.ckrt_look_heap.specs.Steps.{of_step};
    ghost use Rattle.ckrt_look_heap.specs.Within.{full_stays};
    ghost use Rattle.ckrt_look_values.specs.Checks.{after_step, is_used_up};

    ghost after = { after_step };

    ghost used_up = { is_used_up };

    ghost stays = { λ place hart s was. full_stays (of_step place hart s) was.heap };

    fn watch_step(&mut self, machine: &mut Machine, place: Place, hart: u8, is_first: bool) {
        let step = stepping_of(machine, place, hart);
        if is_quiet(machine, hart) {
            watch_notes(machine, &step, &mut self.heap);
            watch_plainly(machine, &step, &mut self.values);
            advance(machine, hart, is_first);
        } else {
            watch_specially(machine, &step, hart, is_first, &mut self.values);
        }
    }

    fn is_used_up(&self) -> bool {
        self.heap.is_full()
    }
}
