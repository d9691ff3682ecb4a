//! A machine that begins its program again.
ghost use Rattle.std.specs.Prelude.{◌≡◌, ◌*◌, ◌-◌, ◌<◌, ◌↔◌, length, IfOk, IsErrOf};
ghost use Rattle.ckrt_machine.specs.Events.{Machine as MachineValue, fresh};
ghost use Rattle.ckrt_memory.specs.declared.MemoryError.TheVariants.{ImageTooLong};
ghost use Rattle.ckrt_calls.specs.WellFormed.{IsWellFormed};
ghost use Rattle.ckrt_hunt_schedules.specs.Tallies.{IsRoomFor};
ghost use Rattle.ckrt_hunt_looks.specs.Walks.{HasGoneOn, IsBegun, IsPutAside};

use ckrt_calls::Tables;
use ckrt_hunt_schedules::Shape;
use ckrt_machine::Machine;
use ckrt_memory::{Memory, MemoryError};
use ckrt_stored::{restore_memory, restore_tables};
use std::alloc::Global;

/// A machine at the beginning of a program between two runs, and the room for that beginning.
#[derive(Drop)]
pub(crate) struct Beginning {
    pub(crate) machine: Machine,
    memory: Memory,
    tables: Tables,
}

impl Beginning {
    /// The beginning of a program with this image.
    #[tactic(auto, using(ckrt_hunt_schedules::proofs::CopyLemmas::first_copy))]
    pub(crate) fn new(alloc: Global, image: &[u8], shape: Shape) -> Result<Beginning, MemoryError>
        ensures begun { IfOk result (IsBegun (fresh shape.pages shape.harts image.now)) }
        ensures too_long { IsErrOf result ImageTooLong
            ↔ (4096 * (shape.pages - 1) < length image.now) }
    {
        let machine = Machine::new(alloc, shape.pages, shape.harts, image)?;
        let memory = Memory::new(alloc, shape.pages, image)?;
        memory.known();
        let tables = Tables::new(alloc, shape.pages, shape.harts)?;
        Ok(Beginning {
            machine,
            memory,
            tables,
        })
    }

    /// Puts the beginning aside, so that the machine may run.
    pub(crate) fn put_aside(&mut self)
        requires { IsRoomFor self.old.machine.state self.old.memory self.old.tables }
        ensures aside { IsPutAside self.old.machine.state self.new }
        ensures machine { self.new.machine ≡ self.old.machine }
    {
        restore_memory(&mut self.memory, self.machine.memory());
        restore_tables(&mut self.tables, self.machine.tables());
    }

    /// Gives the machine the beginning again that was put aside.
    pub(crate) fn begin_again(&mut self)
        requires { IsWellFormed self.old.tables }
        ensures { (was : MachineValue) → IsPutAside was.state self.old
            → HasGoneOn was self.old.machine → IsBegun was.state self.new }
    {
        self.machine.exchange(&mut self.memory, &mut self.tables);
    }
}
