//! What events note, step by step.
ghost use Rattle.std.specs.Prelude.{◌≡◌, None};
ghost use Rattle.ckrt_events.specs.Bytes.{IsInRange};
ghost use Rattle.ckrt_memory.specs.Marks.{Follows};
ghost use Rattle.ckrt_machine.specs.Events.{memory_in, step, refusal_of};
ghost use Rattle.ckrt_look_heap.specs.Within.{noted_all};
ghost use Rattle.ckrt_look_heap.specs.Steps.{has_ended, of_end, of_event};

use crate::notes::watch_notes;
use crate::shadow::Shadow;
use ckrt_calls::Status;
use ckrt_events::Event;
use ckrt_look_calls::{Place, StepWatcher, advance, stepping_of};
use ckrt_look_recording::is_quiet;
use ckrt_machine::Machine;

impl StepWatcher for Shadow {
    ghost use Rattle.ckrt_look_heap.specs.Within.{full_stays, is_full};
    ghost use Rattle.ckrt_look_heap.specs.Steps.{after_step, of_step};

    ghost after = { after_step };

    ghost used_up = { is_full };

    ghost stays = { λ place hart s was. full_stays (of_step place hart s) was };

    fn watch_step(&mut self, machine: &mut Machine, place: Place, hart: u8, is_first: bool) {
        if is_quiet(machine, hart) {
            watch_notes(machine, &stepping_of(machine, place, hart), self);
        }
        advance(machine, hart, is_first);
    }

    fn is_used_up(&self) -> bool {
        self.is_full()
    }
}

/// Applies an event that would be accepted if no output were held, as `Machine::step` does, and gives a shadow what it notes, where
/// so many events are done. The steps of a run are made one by one. It takes no memory.
pub fn watch_event(machine: &mut Machine, count: u64, event: &Event, shadow: &mut Shadow)
    requires in_range { IsInRange event.now }
    requires accepted { refusal_of 0 event.now machine.old.state ≡ None }
    ensures state { machine.new.state ≡ (step event.now machine.old.state).state }
    ensures follows { Follows (memory_in machine.old) (memory_in machine.new) }
    ensures watched { shadow.new
        ≡ noted_all (of_event count event.now machine.old.state) shadow.old }
{
    ckrt_look_calls::watch_event(machine, count, event, shadow);
}

/// Whether the program has ended.
fn has_ended(status: Status) -> bool
    ensures { result ≡ has_ended status }
{
    match status {
        Status::Running => false,
        Status::Exited(_) | Status::Faulted(_, _, _) => true,
    }
}

/// The end of all events, of which a shadow has what they note.
pub fn watch_end(machine: &Machine, shadow: &mut Shadow)
    ensures { shadow.new ≡ noted_all (of_end machine.now.state) shadow.old }
{
    shadow.end(has_ended(machine.tables().status));
}
