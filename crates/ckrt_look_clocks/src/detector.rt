//! Operation by operation.
ghost use Rattle.std.specs.Prelude.{◌≡◌, length, replicate, IfOk};
ghost use Rattle.ckrt_look_clocks.specs.declared.operation.Operation.TheVariants as operation;
ghost use Rattle.ckrt_look_clocks.specs.Detection.{no_clock};

use crate::clock::{Clock, no_clock, pass};
use crate::found::Findings;
use crate::inversion::Inversion;
use crate::lock::Locking;
use crate::locks::Locks;
use crate::operation::{Access, Block, Operation, Place};
use crate::pair::Pair;
use crate::parts::Shadow;
use std::alloc::{AllocError, Global};
use std::marker::Model;

/// What each holder has seen, the last accesses to each word of memory, which of all accesses raced, and in which orders locks were taken.
#[derive(Drop)]
pub struct Detector {
    clocks: Vec<Clock>,
    shadow: Shadow,
    found: Findings,
    locks: Locks,
}

impl Model for Detector {
    ghost use Rattle.ckrt_look_clocks.specs.Detection.{found_in};
    ghost use Rattle.ckrt_look_clocks.specs.LockHistories.{ordered_in};
    ghost use Rattle.ckrt_look_clocks.specs.Within.{Detected, detected_by};

    ghost Value = { Detected };

    ghost view = { λ d. detected_by d.clocks.items d.shadow (found_in d.found)
        (ordered_in d.locks) };
}

/// Holders that have seen nothing.
fn fresh_clocks(alloc: Global, holders: usize) -> Result<Vec<Clock>, AllocError>
    ensures { IfOk result (λ clocks. clocks.items ≡ replicate holders no_clock) }
{
    let mut clocks = Vec::with_capacity(alloc, holders)?;
    for _ in 0..holders {
        if clocks.push(no_clock()).is_err() {
            return Err(AllocError);
        }
    }
    Ok(clocks)
}

/// Holders have seen nothing any more.
fn clear_clocks(clocks: &mut Vec<Clock>)
    ensures { clocks.new.items ≡ replicate (length clocks.old.items) no_clock }
{
    clocks.as_mut_slice().fill(no_clock());
}

impl Detector {
    ghost use Rattle.ckrt_look_clocks.specs.Within.{noted_one, fresh_within, is_full};

    /// Nothing was done yet, by so many holders, of which the first 65 are threads, to a memory of so many words. It takes 1,040
    /// bytes a holder, 16 bytes for each part of 1,024 words, and a room of so many slots, of [`PART_BYTES`](crate::PART_BYTES) each.
    pub fn new(
        alloc: Global,
        holders: usize,
        words: usize,
        slots: usize,
    ) -> Result<Detector, AllocError>
        ensures { IfOk result (λ detector. detector ≡ fresh_within holders words slots) }
    {
        Ok(Detector {
            clocks: fresh_clocks(alloc, holders)?,
            shadow: Shadow::new(alloc, words, slots)?,
            found: Findings::new(alloc)?,
            locks: Locks::new(alloc)?,
        })
    }

    /// Nothing was done any more, as when it was new. It takes no memory, gives all slots back, and looks at no word.
    pub fn clear(&mut self)
        ensures { self.new
            ≡ fresh_within (length self.old.watched.clocks) (length self.old.watched.shadow)
            self.old.slots.count }
    {
        clear_clocks(&mut self.clocks);
        self.shadow.clear();
        self.found.clear();
        self.locks.clear();
    }

    /// Whether the room is used up: a part more was touched than there are slots. Then nothing is noted any more.
    pub fn is_full(&self) -> bool
        ensures { result ≡ is_full self.now }
    {
        self.shadow.is_full()
    }

    /// A thread loads or stores.
    pub fn access(&mut self, access: &Access)
        ensures { self.new ≡ noted_one (operation.Access access.now) self.old }
    {
        let clocks = self.clocks.as_slice();
        self.shadow.access(clocks, access, &mut self.found);
    }

    /// What one holder has seen at a place another has seen from there on.
    fn pass(&mut self, from: u16, to: u16, place: Place)
        ensures { self.new ≡ noted_one (operation.Pass from to place) self.old }
    {
        if !self.shadow.is_full() {
            pass(&mut self.clocks, usize::from(from), usize::from(to), place);
        }
    }

    /// Memory is given anew: what was done to it before is compared with nothing. Words that the memory doesn't have are passed over.
    pub fn renew(&mut self, block: &Block)
        ensures { self.new ≡ noted_one (operation.Renew block.now) self.old }
    {
        self.shadow.renew(block);
    }

    /// A thread takes or gives up a lock, or one is made.
    fn lock(&mut self, locking: &Locking, place: Place)
        ensures { self.new ≡ noted_one (operation.Lock locking.now place) self.old }
    {
        if !self.shadow.is_full() {
            self.locks.note(locking);
        }
    }

    /// The next operation.
    pub fn note(&mut self, operation: &Operation)
        ensures { self.new ≡ noted_one operation.now self.old }
    {
        match operation {
            Operation::Access(access) => self.access(access),
            Operation::Pass(from, to, place) => self.pass(*from, *to, *place),
            Operation::Renew(block) => self.renew(block),
            Operation::Lock(locking, place) => self.lock(locking, *place),
        }
    }

    /// The pairs of places whose accesses raced, in the order in which they were found.
    pub fn pairs(&self) -> &[Pair]
        ensures { result.now ≡ self.now.watched.found.pairs }
    {
        self.found.pairs.as_slice()
    }

    /// How often accesses raced for whose places no row was left.
    pub fn others(&self) -> u64
        ensures { result ≡ self.now.watched.found.others }
    {
        self.found.others
    }

    /// The cycles of orders in which threads took locks, in the order in which they were found.
    pub fn inversions(&self) -> &[Inversion]
        ensures { result.now ≡ self.now.watched.orders.found.rows }
    {
        self.locks.rows()
    }

    /// How often there was a cycle for whose places no row was left.
    pub fn other_inversions(&self) -> u64
        ensures { result ≡ self.now.watched.orders.found.others }
    {
        self.locks.others()
    }

    /// Whether the room of orders was used up: from then on none was noted.
    pub fn are_orders_full(&self) -> bool
        ensures { result ≡ self.now.watched.orders.is_full }
    {
        self.locks.is_full()
    }
}
