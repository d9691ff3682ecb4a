//! Steps, if somebody makes them.
ghost use Rattle.std.specs.Prelude.{◌≡◌};
ghost use Rattle.ckrt_memory.specs.Marks.{Follows};
ghost use Rattle.ckrt_machine.specs.Events.{memory_in};
ghost use Rattle.ckrt_machine.specs.Runs.{with_byte};
ghost use Rattle.ckrt_machine.specs.Steps.{hart_step};
ghost use Rattle.ckrt_look_calls.specs.Lines.{MayStep, put_before};
ghost use Rattle.ckrt_look_values.specs.Instructions.{plainly, specially};

use crate::calls::{watch_call, watch_end};
use crate::instruction::watch_quiet;
use crate::values::Values;
use ckrt_look_calls::{Stepping, advance};
use ckrt_machine::Machine;

/// A step that is an instruction, and no call, before it is made.
pub(crate) fn watch_plainly(machine: &Machine, step: &Option<Stepping>, values: &mut Values)
    ensures { values.new ≡ plainly step.now machine.now.state values.old }
{
    if let Some(step) = step {
        watch_quiet(machine, step, values);
    }
}

/// Any other step, which is made.
pub(crate) fn watch_specially(
    machine: &mut Machine,
    step: &Option<Stepping>,
    hart: u8,
    is_first: bool,
    values: &mut Values,
)
    requires may { MayStep is_first hart machine.old }
    ensures state { machine.new.state ≡ (hart_step hart machine.old.state).state }
    ensures follows { Follows (memory_in machine.old) (memory_in machine.new) }
    ensures output { machine.new.output
        ≡ with_byte (hart_step hart machine.old.state).put (put_before is_first machine.old) }
    ensures watched { values.new ≡ specially step.now
        machine.old.state (hart_step hart machine.old.state).state values.old }
{
    match step {
        Some(step) => {
            watch_call(machine, step, values);
            advance(machine, hart, is_first);
            watch_end(machine, step.thread, values);
        }
        None => advance(machine, hart, is_first),
    }
}
