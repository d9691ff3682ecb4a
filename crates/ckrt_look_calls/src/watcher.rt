//! What looks at each step.
ghost use Rattle.std.specs.Prelude.{◌≡◌, ℕ, Bool, true};
ghost use Rattle.ckrt_memory.specs.Marks.{Follows};
ghost use Rattle.ckrt_machine.specs.Events.{memory_in};
ghost use Rattle.ckrt_machine.specs.Runs.{with_byte};
ghost use Rattle.ckrt_machine.specs.Steps.{State, hart_step};
ghost use Rattle.ckrt_look_calls.specs.Lines.{MayStep, put_before};
ghost use Rattle.ckrt_look_calls.specs.declared.lines.Place.{Place};

use crate::lines::Place;
use ckrt_machine::Machine;

/// What looks at each step of a run.
pub trait StepWatcher {
    /// What it is after a step of the thread on a hart, at a place, from a state on.
    ghost after: { Place → (hart : ℕ) → State → Self → Self };

    /// Whether its room is used up.
    ghost used_up: { Self → Bool };

    /// A room that is used up stays so.
    ghost stays: { (place : Place) (hart : ℕ) (s : State) (was : Self) → used_up was ≡ true
        → used_up (after place hart s was) ≡ true };

    /// Makes a step of a run of the thread on a hart, the first or a further one, and looks at it. It takes no memory.
    fn watch_step(&mut self, machine: &mut Machine, place: Place, hart: u8, is_first: bool)
        requires may { MayStep is_first hart machine.old }
        ensures state { machine.new.state ≡ (hart_step hart machine.old.state).state }
        ensures follows { Follows (memory_in machine.old) (memory_in machine.new) }
        ensures output { machine.new.output
            ≡ with_byte (hart_step hart machine.old.state).put (put_before is_first machine.old) }
        ensures watched { self.new ≡ after place hart machine.old.state self.old };

    /// Whether its room is used up.
    fn is_used_up(&self) -> bool
        ensures { result ≡ used_up self.now };
}
