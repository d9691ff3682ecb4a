//! Who makes a step.
ghost use Rattle.std.specs.Prelude.{◌≡◌};
ghost use Rattle.ckrt_machine.specs.Steps.{hart_of};
ghost use Rattle.ckrt_look_calls.specs.Steppings.{stepping_of};

use crate::lines::Place;
use ckrt_machine::Machine;
use ckrt_registers::Regs;

/// Who makes a step, where, and with which registers.
#[derive(Clone, Copy)]
pub struct Stepping {
    /// The thread's number.
    pub thread: u8,
    /// After how many events, and how many steps of the next one.
    pub place: Place,
    /// The thread's registers before the step.
    pub regs: Regs,
}

/// Who makes the next step of a hart, if somebody does.
pub fn stepping_of(machine: &Machine, place: Place, hart: u8) -> Option<Stepping>
    ensures { result
        ≡ stepping_of place (hart_of machine.now.state.tables hart) machine.now.state }
{
    let threads = &machine.tables().threads;
    threads.known();
    let thread = threads.on_hart(usize::from(hart))?;
    let regs = threads.regs(thread)?;
    Some(Stepping {
        thread,
        place,
        regs,
    })
}
