//! One seed after another.
ghost use Rattle.std.specs.Prelude.{◌≡◌, ◌≤◌, ◌*◌, ◌+◌, ◌-◌, ◌<◌, ◌↔◌, length, IfOk, IsErrOf};
ghost use Rattle.ckrt_memory.specs.declared.MemoryError.TheVariants.{ImageTooLong};

use crate::noting::note_turns;
use crate::onlooker::{HuntOnlooker, is_over};
use crate::plan::{Input, Plan};
use crate::runs::{Finished, run};
use crate::seeds::Seeds;
use crate::shape::Shape;
use crate::tally::Tally;
use crate::turns::Turns;
use ckrt_calls::Tables;
use ckrt_machine::Machine;
use ckrt_memory::{Memory, MemoryError};
use ckrt_stored::{restore_memory, restore_tables};
use std::alloc::Global;
use std::marker::Model;

/// A program that is hunted. Each seed has a run of its own, from the beginning of the program. All room is taken by
/// [`Hunt::new`].
#[derive(Drop)]
pub struct Hunt<'i> {
    limit: u32,
    /// What each run is given to read.
    input: Input<'i>,
    /// Whether outcomes that differ in their output alone are one.
    ignores_output: bool,
    /// At the beginning of the program, between two runs.
    machine: Machine,
    /// The room for the beginning of the run after the next one.
    memory: Memory,
    tables: Tables,
}

impl<'i> Model for Hunt<'i> {
    ghost use Rattle.ckrt_hunt_schedules.specs.Tallies.{Hunted, IsRoomFor};

    ghost Value = { Hunted };

    ghost view = { λ h. record {
      limit = h.limit;
      start = h.machine.state;
      input = h.input;
      ignores_output = h.ignores_output;
    } };

    ghost invariant = { λ h. IsRoomFor h.machine.state h.memory h.tables };
}

impl<'i> Hunt<'i> {
    ghost use Rattle.ckrt_hunt_schedules.specs.Runs.{EndsWith};
    ghost use Rattle.ckrt_hunt_schedules.specs.Seeds.{IsBeginning, IsEndedBy};
    ghost use Rattle.ckrt_hunt_schedules.specs.Tallies.{AreNoted, SeedEndsWith, hunted_of, plan_in};

    /// The hunt of a program that begins with this image, and is given this to read.
    ///
    /// `ImageTooLong` where the image has more bytes than the pages from page 1 on, and else `OutOfMemory` where the allocator
    /// refuses the room.
    #[tactic(auto, using(crate::proofs::CopyLemmas::first_copy))]
    pub fn new(
        alloc: Global,
        image: &[u8],
        shape: Shape,
        input: Input<'i>,
    ) -> Result<Hunt<'i>, MemoryError>
        ensures hunted { IfOk result (λ hunt. hunt ≡ hunted_of image.now shape input.entry) }
        ensures too_long { IsErrOf result ImageTooLong
            ↔ (4096 * (shape.pages - 1) < length image.now) }
    {
        let machine = Machine::new(alloc, shape.pages, shape.harts, image)?;
        let memory = Memory::new(alloc, shape.pages, image)?;
        memory.known();
        let tables = Tables::new(alloc, shape.pages, shape.harts)?;
        Ok(Hunt {
            limit: shape.limit,
            input,
            ignores_output: shape.ignores_output,
            machine,
            memory,
            tables,
        })
    }

    /// The plan of a seed.
    pub fn plan_of(&self, seed: u64) -> Plan<'i>
        ensures { result ≡ plan_in self.now seed }
    {
        Plan::new(self.limit, seed)
            .with_input(self.input)
            .ignoring_output(self.ignores_output)
    }

    /// What a run by a plan comes to. It takes no memory, and the hunt is as it was.
    pub fn run_by(&mut self, plan: &Plan<'_>) -> Finished
        ensures ends { EndsWith plan.now self.old.start result }
        ensures same { self.new ≡ self.old }
    {
        restore_memory(&mut self.memory, self.machine.memory());
        restore_tables(&mut self.tables, self.machine.tables());
        let finished = run(&mut self.machine, plan);
        self.machine.exchange(&mut self.memory, &mut self.tables);
        finished
    }

    /// Notes the turns of a run by a plan, and says whether there was room for all. It takes no memory, and the hunt is as it was.
    pub(crate) fn note_turns(&mut self, plan: &Plan<'_>, turns: &mut Turns) -> bool
        ensures { self.new ≡ self.old }
    {
        restore_memory(&mut self.memory, self.machine.memory());
        restore_tables(&mut self.tables, self.machine.tables());
        let has_all = note_turns(&mut self.machine, plan, turns);
        self.machine.exchange(&mut self.memory, &mut self.tables);
        has_all
    }

    /// The run of a seed. It takes no memory, and the hunt is as it was.
    pub fn run_seed(&mut self, seed: u64) -> Finished
        ensures ends { SeedEndsWith self.old seed result }
        ensures same { self.new ≡ self.old }
    {
        let plan = self.plan_of(seed);
        self.run_by(&plan)
    }

    /// Notes what the seeds of a range come to, in turn. An onlooker is told of each but the last one. Where the hunt may end early, it
    /// ends behind the first seed after which the onlooker has no time. The answer is the range that was noted. It takes no
    /// memory, and the hunt is as it was.
    pub fn note_seeds<O: HuntOnlooker>(
        &mut self,
        tally: &mut Tally,
        seeds: Seeds,
        may_end: bool,
        onlooker: &mut O,
    ) -> Seeds
        ensures begins { IsBeginning seeds may_end result }
        ensures ended { IsEndedBy O.Answers seeds may_end result }
        ensures noted { AreNoted self.old seeds.first (result.last - seeds.first + 1)
            tally.old tally.new }
        ensures same { self.new ≡ self.old }
    {
        for seed in seeds.first..seeds.last {
            tally.note(seed, self.run_seed(seed));
            if is_over(onlooker, seed, tally, may_end) {
                return Seeds {
                    first: seeds.first,
                    last: seed,
                };
            }
        }
        tally.note(seeds.last, self.run_seed(seeds.last));
        seeds
    }
}
