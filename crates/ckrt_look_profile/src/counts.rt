//! All that is counted.
ghost use Rattle.std.specs.Prelude.{◌≡◌, ◌∷◌, ℕ, suc, List, length, IfOk};
ghost use Rattle.ckrt_look_profile.specs.Counts.{number_of};
ghost use Rattle.ckrt_look_profile.specs.declared.counts.Note.TheVariants as note;

use crate::row::Row;
use crate::stacks::{Frame, Stacks, THREADS};
use crate::turn::Turn;
use crate::waits::{Awaited, Waited, Waits};
use std::alloc::{AllocError, Global};
use std::marker::Model;

/// A step of a thread.
#[derive(Clone, Copy, Debug, Drop)]
pub struct Step {
    pub thread: u8,
    /// The address of the instruction.
    pub pc: u32,
    /// How the thread goes on from it.
    pub turn: Turn,
}

/// What is counted.
#[derive(Clone, Copy, Debug, Drop)]
pub enum Note {
    /// A thread is under way, and its next step is at this address.
    Met(u8, u32),
    /// A step was made.
    Step(Step),
    /// A thread waits for something, and has since waits were looked at.
    Wait(u8, Awaited),
    /// All who wait were told.
    Looked,
}

/// Where the steps of a run went, and how long threads waited.
#[derive(Drop)]
pub struct Counts {
    stacks: Stacks,
    waits: Waits,
}

impl Model for Counts {
    ghost use Rattle.ckrt_look_profile.specs.Counts.{Counts, stacks_in, waits_in};

    ghost Value = { Counts };

    ghost view = { λ c. record {
      stacks = stacks_in c.stacks;
      waits = waits_in c.waits;
    } };
}

/// Threads are 1 to 64; any other number counts as 0.
fn number_of(thread: u8) -> u8
    ensures { result ≡ number_of thread }
{
    if usize::from(thread) < THREADS {
        thread
    } else {
        0
    }
}

impl Counts {
    ghost use Rattle.ckrt_look_profile.specs.Counts.{behind, behind_all, behind_step, nothing, onward};

    /// Nothing was done yet. It takes 60 KB.
    ///
    /// # Errors
    ///
    /// `AllocError` where memory was refused.
    pub fn new(alloc: Global) -> Result<Counts, AllocError>
        ensures { IfOk result (λ counts. counts ≡ nothing) }
    {
        Ok(Counts {
            stacks: Stacks::new(alloc)?,
            waits: Waits::new(alloc)?,
        })
    }

    /// A thread is under way, and its next step is at this address.
    fn meet(&mut self, thread: u8, pc: u32)
        ensures { self.new ≡ behind (note.Met thread pc) self.old }
    {
        self.stacks.meet(number_of(thread), pc);
    }

    /// A step was made.
    pub fn step(&mut self, step: &Step)
        ensures { self.new ≡ behind_step (number_of step.now.thread) step.now self.old }
    {
        self.stacks
            .step(number_of(step.thread), step.pc, step.turn, 1);
        self.waits.pass(1);
    }

    /// So many steps of a thread were made, the first of them at `pc`, from each of which it goes on in the same function: wherever
    /// the further ones are.
    pub fn onward(&mut self, thread: u8, pc: u32, count: u32)
        ensures none { count ≡ 0 → self.new ≡ self.old }
        ensures some { (further : List ℕ) → suc (length further) ≡ count
            → self.new ≡ behind_all (onward thread (pc ∷ further)) self.old }
    {
        if count == 0 {
            return;
        }
        let count = u64::from(count);
        self.stacks.step(number_of(thread), pc, Turn::Onward, count);
        self.waits.pass(count);
    }

    /// So many steps of a thread were made, the first of them at `pc`, from each of which it goes on in the same function, wherever the
    /// further ones are; and one more behind them, from which it goes on as the turn says, wherever that one is.
    pub fn leaving(&mut self, thread: u8, pc: u32, count: u32, turn: Turn)
        ensures none { count ≡ 0 → self.new
            ≡ behind (note.Step (record { thread = thread; pc = pc; turn = turn })) self.old }
        ensures some { (further : List ℕ) (last : ℕ) → suc (length further) ≡ count
            → self.new ≡ behind (note.Step (record { thread = thread; pc = last; turn = turn }))
            (behind_all (onward thread (pc ∷ further)) self.old) }
    {
        let count = u64::from(count) + 1;
        self.stacks.step(number_of(thread), pc, turn, count);
        self.waits.pass(count);
    }

    /// The next note.
    pub fn note(&mut self, note: &Note)
        ensures { self.new ≡ behind note.now self.old }
    {
        match note {
            Note::Met(thread, pc) => self.meet(*thread, *pc),
            Note::Step(step) => self.step(step),
            Note::Wait(thread, awaited) => self.waits.wait(*thread, *awaited),
            Note::Looked => self.waits.look(),
        }
    }

    /// The stacks on which steps were made, each behind those that it stands on.
    pub fn rows(&self) -> &[Row]
        ensures { result.now ≡ self.now.stacks.rows }
    {
        self.stacks.rows.as_slice()
    }

    /// How many steps were made on stacks for which no row was left.
    pub fn unkept(&self) -> u64
        ensures { result ≡ self.now.stacks.unkept }
    {
        self.stacks.unkept
    }

    /// The threads, by number.
    pub fn frames(&self) -> &[Frame]
        ensures { result.now ≡ self.now.stacks.frames }
    {
        &self.stacks.frames
    }

    /// How long threads waited.
    pub fn waited(&self) -> &[Waited]
        ensures { result.now ≡ self.now.waits.rows }
    {
        self.waits.rows.as_slice()
    }

    /// How long threads waited for which no row was left.
    pub fn unkept_waits(&self) -> u64
        ensures { result ≡ self.now.waits.unkept }
    {
        self.waits.unkept
    }
}
