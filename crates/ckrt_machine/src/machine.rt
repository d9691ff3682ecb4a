//! The machine.
ghost use Rattle.std.specs.Prelude.{◌≡◌, ◌<◌, ◌≤◌, ◌*◌, ◌-◌, ◌↔◌, [], length, None, Some, IfOk, IsErrOf, MatchResult};
ghost use Rattle.ckrt_memory.specs.Marks.{Follows, IsAllDirty, IsCleaned, MarksOnly};
ghost use Rattle.ckrt_memory.specs.declared.MemoryError.TheVariants.{ImageTooLong};
ghost use Rattle.ckrt_calls.specs.WellFormed.{IsWellFormed};
ghost use Rattle.ckrt_events.specs.Bytes.{IsInRange};
ghost use Rattle.ckrt_machine.specs.Events.{fresh, memory_in, step, refusal_of, planned};
ghost use Rattle.ckrt_machine.specs.Runs.{run_on, stop_of};
ghost use Rattle.ckrt_machine.specs.RunsTo.{HasMadeTo};
ghost use Rattle.ckrt_machine.specs.Stores.{stored_in_event, stored_in_run};

use crate::accept::refusal;
use crate::event::{Answer, Refusal, RunEnd};
use crate::hart::{answer_run, place, run};
use crate::plan::plan;
use crate::run_to::run_to;
use arrayvec::ArrayVec;
use ckrt_calls::{Status, Tables, close_input, take_input, tick};
use ckrt_events::Event;
use ckrt_memory::{Memory, MemoryError, StopReason};
use ckrt_rv32i::Bus;
use ckrt_thread::{Hart, ThreadId};
use std::alloc::Global;
use std::marker::Model;
use std::mem;

/// A program that runs: its memory, its threads on the harts, and what else its calls work on. It
/// changes by events alone. All room is taken by [`Machine::new`].
pub struct Machine {
    memory: Memory,
    tables: Tables,
    output: ArrayVec<u8, 1024>,
}

/// Written out, so that whoever lets a machine go needs no proof about each of its parts.
impl Drop for Machine {
    fn drop(self) {
        let Machine {
            memory: _,
            tables: _,
            output: _,
        } = self;
    }
}

impl Model for Machine {
    ghost use Rattle.ckrt_calls.specs.WellFormed.{IsWellFormed};
    ghost use Rattle.ckrt_machine.specs.Events.{Machine};

    ghost Value = { Machine };

    ghost view = { λ m.
        record {
          state = record { bytes = m.memory.bytes; tables = m.tables };
          marks = m.memory.marks;
          room = m.memory.room;
          output = m.output.items;
        } };

    ghost invariant = { λ m. IsWellFormed m.tables };
}

impl Machine {
    /// A program that begins: thread 1, ready, with the image at the start of page 1, and idle
    /// harts. Each page is dirty for all areas. `pages` counts page 0 too, which is never valid: 16 to 65,536; `harts` is 1
    /// to 8.
    pub fn new(alloc: Global, pages: u32, harts: usize, image: &[u8]) -> Result<Self, MemoryError>
        requires pages { (16 ≤ pages) × (pages ≤ 65536) }
        requires harts { (1 ≤ harts) × (harts ≤ 8) }
        ensures fresh { IfOk result (λ m. m.state ≡ fresh pages harts image.now) }
        ensures output { IfOk result (λ m. m.output ≡ []) }
        ensures dirty { IfOk result (λ m. IsAllDirty (memory_in m)) }
        ensures well_formed { IfOk result (λ m. IsWellFormed m.state.tables) }
        ensures too_long { IsErrOf result ImageTooLong ↔ (4096 * (pages - 1) < length image.now) }
    {
        let memory = Memory::new(alloc, pages, image)?;
        let tables = Tables::new(alloc, pages, harts)?;
        Ok(Machine {
            memory,
            tables,
            output: ArrayVec::new(),
        })
    }

    /// The program that has this memory and these tables. It takes no memory of its own.
    pub fn from_parts(memory: Memory, tables: Tables) -> Machine
        requires { IsWellFormed tables }
        ensures state { result.state ≡ record { bytes = memory.bytes; tables = tables } }
        ensures memory { memory_in result ≡ memory }
        ensures output { result.output ≡ [] }
    {
        let output = ArrayVec::new();
        Machine {
            memory,
            tables,
            output,
        }
    }

    /// What holds of every machine: its tables are well-formed, and its memory is below 256 MiB.
    pub fn known(&self)
        ensures well_formed { IsWellFormed self.now.state.tables }
        ensures memory { length self.now.state.bytes < 268435456 }
    {
        self.memory.known();
    }

    /// Whether the program runs, and else how it ended.
    pub fn status(&self) -> Status
        ensures { result ≡ self.now.state.tables.status }
    {
        self.tables.status
    }

    /// The tables.
    pub fn tables(&self) -> &Tables
        ensures tables { result.now ≡ self.now.state.tables }
        ensures well_formed { IsWellFormed result.now }
    {
        &self.tables
    }

    /// The memory.
    pub fn memory(&self) -> &Memory
        ensures { result.now ≡ memory_in self.now }
    {
        &self.memory
    }

    /// All pages are clean for an area, 0 or 1, in which the memory now stands as it is. Nothing else changes.
    pub fn clean(&mut self, area: usize)
        requires { area ≤ 1 }
        ensures state { self.new.state ≡ self.old.state }
        ensures output { self.new.output ≡ self.old.output }
        ensures cleaned { IsCleaned area (memory_in self.old) (memory_in self.new) }
    {
        self.memory.clean(area);
    }

    /// The bytes that the last step put, at most 1,024.
    pub fn last_output(&self) -> &[u8]
        ensures output { result.now ≡ self.now.output }
        ensures within { length result.now ≤ 1024 }
    {
        self.output.as_slice()
    }

    /// Whether the event is accepted where `held` bytes of output aren't confirmed yet, and else
    /// the first reason to refuse it.
    pub fn accept(&self, held: usize, event: &Event) -> Result<(), Refusal>
        ensures refusal { MatchResult result (λ _. refusal_of held event.now self.now.state ≡ None)
            (λ refusal. refusal_of held event.now self.now.state ≡ Some refusal) }
        ensures accepted { IfOk result (λ _. refusal_of 0 event.now self.now.state ≡ None) }
    {
        match refusal(&self.tables, held, event) {
            Some(refusal) => Err(refusal),
            None => Ok(()),
        }
    }

    /// Applies an event that would be accepted if no output were held. A page whose mark for an area is changed was stored to
    /// by a step.
    pub fn step(&mut self, event: &Event) -> Answer
        requires in_range { IsInRange event.now }
        requires accepted { refusal_of 0 event.now self.old.state ≡ None }
        ensures step { record { state = self.new.state; answer = result; output = self.new.output }
            ≡ step event.now self.old.state }
        ensures well_formed { IsWellFormed self.new.state.tables }
        ensures follows { Follows (memory_in self.old) (memory_in self.new) }
        ensures only { MarksOnly (stored_in_event event.now self.old.state)
            self.old.marks self.new.marks }
    {
        self.output.clear();
        match event {
            Event::Place(hart, thread) => {
                place(&mut self.tables, *hart, *thread);
                Answer::Placed
            }
            Event::Run(hart, limit) => answer_run(
                &mut self.memory,
                &mut self.tables,
                &mut self.output,
                *hart,
                u32::from(*limit),
            ),
            Event::RunLong(hart, limit) => answer_run(
                &mut self.memory,
                &mut self.tables,
                &mut self.output,
                *hart,
                *limit,
            ),
            Event::Input(bytes) => {
                take_input(&mut self.tables, bytes.as_slice());
                Answer::Taken(bytes.len() as u32)
            }
            Event::Eof => {
                close_input(&mut self.tables);
                Answer::Closed
            }
            Event::Tick(ticks) => Answer::Ticked(tick(&mut self.tables, *ticks)),
        }
    }

    /// Goes on with a run that was cut: that many steps more at most of the thread on the hart, after the bytes that the run has
    /// put. The result is how many of them are left, and how the run ended. A page whose mark for an area is changed was stored to.
    pub fn go_on(&mut self, hart: Hart, limit: u32) -> (u32, RunEnd)
        requires { stop_of hart self.old.state.tables self.old.output ≡ None }
        ensures within { result.0 ≤ limit }
        ensures run { record {
          left = result.0;
          how = result.1;
          state = self.new.state;
          output = self.new.output;
        } ≡ run_on limit hart self.old.state self.old.output }
        ensures follows { Follows (memory_in self.old) (memory_in self.new) }
        ensures only { MarksOnly (stored_in_run limit hart self.old.state self.old.output)
            self.old.marks self.new.marks }
    {
        let hart = usize::from(hart);
        run(
            &mut self.memory,
            &mut self.tables,
            &mut self.output,
            hart,
            limit,
        )
    }

    /// Goes on as [`Machine::go_on`] does, and ends before a step, too, before which the reason to stop is met with the registers
    /// of the thread on the hart and the bytes: before the first, where the machine stands, too, and not behind the last. The
    /// result is how many steps are left, and how the run ended, or none where the reason is met. A page whose mark for an area is
    /// changed is one to which a run of `limit` would store.
    pub fn go_on_to<R: StopReason>(
        &mut self,
        hart: Hart,
        limit: u32,
        reason: &R,
    ) -> (u32, Option<RunEnd>)
        requires { stop_of hart self.old.state.tables self.old.output ≡ None }
        ensures within { result.0 ≤ limit }
        ensures made { HasMadeTo (R.meets reason.now) limit (limit - result.0) hart
            (record { state = self.old.state; output = self.old.output })
            (record {
              left = result.0;
              how = result.1;
              state = self.new.state;
              output = self.new.output;
            }) }
        ensures follows { Follows (memory_in self.old) (memory_in self.new) }
        ensures only { MarksOnly (stored_in_run limit hart self.old.state self.old.output)
            self.old.marks self.new.marks }
    {
        run_to(
            &mut self.memory,
            &mut self.tables,
            &mut self.output,
            usize::from(hart),
            limit,
            reason,
        )
    }

    /// The machine gets this memory and these tables, and gives its own for them. No event has put a byte then.
    pub fn exchange(&mut self, memory: &mut Memory, tables: &mut Tables)
        requires { IsWellFormed tables.old }
        ensures memory { memory_in self.new ≡ memory.old }
        ensures tables { self.new.state.tables ≡ tables.old }
        ensures output { self.new.output ≡ [] }
        ensures given { memory.new ≡ memory_in self.old }
        ensures given_tables { tables.new ≡ self.old.state.tables }
    {
        mem::swap(&mut self.memory, memory);
        mem::swap(&mut self.tables, tables);
        self.output.clear();
    }

    /// The thread to put onto the hart next, if there is one: the least ready id on no hart that is
    /// above the id of the thread on the hart (0 if it is idle), else the least such id at all. None
    /// where the program has ended or the machine has no such hart.
    pub fn planned(&self, hart: Hart) -> Option<ThreadId>
        ensures { result ≡ planned hart self.now.state.tables }
    {
        plan(&self.tables, hart)
    }
}
