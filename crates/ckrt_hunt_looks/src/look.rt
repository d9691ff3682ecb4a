//! What looks at the runs of a hunt.
ghost use Rattle.std.specs.Prelude.{◌≡◌, ℕ, None, IfOk, List};
ghost use Rattle.std.specs.Bool.{OnFalse, OnTrue};
ghost use Rattle.ckrt_events.specs.Bytes.{IsInRange};
ghost use Rattle.ckrt_events.specs.declared.event.Event.{Event};
ghost use Rattle.ckrt_memory.specs.Marks.{Follows};
ghost use Rattle.ckrt_machine.specs.Events.{memory_in, refusal_of, step};
ghost use Rattle.ckrt_machine.specs.Steps.{State};

use ckrt_events::Event;
use ckrt_machine::Machine;
use std::alloc::{AllocError, Global};

/// A look at runs, step by step, and what is counted of them. All room is taken before the first run.
pub trait RunLook: Drop {
    ghost use Rattle.ckrt_hunt_looks.specs.Looks.{IsBehind, Looking};

    /// What is counted of runs.
    type Counted: Drop;

    /// What it notes of a run's events, what is counted of a run, and which runs fill its room.
    ghost looks: { Looking Self Self.Counted };

    /// A look at what a machine does from its program's beginning on, in a room of so many bytes.
    fn begin(alloc: Global, machine: &Machine, room: u64) -> Result<Self, AllocError>
        ensures { IfOk result (λ look. look ≡ looks.fresh room machine.now.state) };

    /// Nothing was counted yet.
    fn nothing(alloc: Global) -> Result<Self::Counted, AllocError>
        ensures { IfOk result looks.IsNothing };

    /// Applies an event that would be accepted if no output were held, as `Machine::step` does, step by step, and notes it, where so many
    /// events are done. It takes no memory.
    fn watch(&mut self, machine: &mut Machine, count: u64, event: &Event)
        requires in_range { IsInRange event.now }
        requires accepted { refusal_of 0 event.now machine.old.state ≡ None }
        ensures state { machine.new.state ≡ (step event.now machine.old.state).state }
        ensures follows { Follows (memory_in machine.old) (memory_in machine.new) }
        ensures watched { self.new ≡ looks.noted count event.now machine.old.state self.old };

    /// One run more, that of a seed, is counted by what was noted of it, unless it fills the room. It takes no memory.
    fn count(&self, seed: u64, counted: &mut Self::Counted) -> bool
        ensures counted { OnTrue result ((room : ℕ) (events : List Event) (start : State)
            → IsBehind looks room events start self.now
            → looks.Counts seed events start counted.old counted.new) }
        ensures full { OnFalse result ((room : ℕ) (events : List Event) (start : State)
            → IsBehind looks room events start self.now → looks.Fills room events start) };

    /// Forgets the run that it noted, so that it has noted nothing. It takes no memory.
    fn forget(&mut self)
        ensures { (room : ℕ) (events : List Event) (start : State)
            → IsBehind looks room events start self.old → self.new ≡ looks.fresh room start };
}
