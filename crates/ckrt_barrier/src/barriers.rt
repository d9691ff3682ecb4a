//! The calls on barriers.
ghost use Rattle.std.specs.Prelude.{◌≡◌, ◌<◌, ◌↔◌, true, false, [], length, slice_get, Some};
ghost use Rattle.std.specs.List.{list_all};
ghost use Rattle.ckrt_thread.specs.State.{is_live, is_waiting};
ghost use Rattle.ckrt_thread.specs.declared.records.CallResult.TheVariants.{Done};
ghost use Rattle.ckrt_objects.specs.AddressMap.{has_entry, lookup};
ghost use Rattle.ckrt_objects.specs.Appended.{Appends};
ghost use Rattle.ckrt_barrier.specs.Rows.{SERIAL_THREAD, waiters, has_waiters, is_full, init_row, destroy_row, wait_row};
ghost use Rattle.ckrt_barrier.specs.WellFormed.{IsTable, IsWellFormedWith, awaits_more, waits_where_a_barrier_is};

use crate::barrier::{Barrier, MAX_BARRIERS, SERIAL_THREAD};
use arrayvec::ArrayVec;
use ckrt_objects::{Entry, append, get, remove, store};
use ckrt_thread::{CallResult, EAGAIN, EBUSY, EINVAL, Object, Reason, ThreadId, Threads, Wait};
use std::marker::Model;

/// The barriers of a program, by their addresses: at most [`MAX_BARRIERS`].
#[derive(Drop)]
pub struct Barriers {
    table: ArrayVec<Entry<Barrier>, MAX_BARRIERS>,
}

impl Model for Barriers {
    ghost use Rattle.std.specs.Prelude.{List};
    ghost use Rattle.ckrt_objects.specs.declared.address_map.Entry.{Entry};
    ghost use Rattle.ckrt_barrier.specs.declared.barrier.Barrier.{Barrier};
    ghost use Rattle.ckrt_barrier.specs.WellFormed.{IsTable};

    ghost Value = { List (Entry Barrier) };

    ghost view = { λ a. a.table.items };

    ghost invariant = { λ a. IsTable a.table.items };
}

/// Whether a thread waits at the barrier.
fn has_waiters(threads: &Threads, address: u32) -> bool
    ensures { result ≡ has_waiters address threads.now }
{
    threads.first_waiter(Object::Barrier(address)).is_some()
}

/// Whether fewer threads wait at each of the barriers than its count.
fn each_awaits_more(threads: &Threads, entries: &[Entry<Barrier>]) -> bool
    ensures { result ≡ list_all (awaits_more threads.now) entries.now }
{
    entries.iter().all(|entry| {
        threads.waiter_count(Object::Barrier(entry.address)) < entry.value.count as usize
    })
}

/// Whether each wait at a barrier is where one is.
fn each_waits_where_a_barrier_is(barriers: &Barriers, waits: &[Wait]) -> bool
    ensures { result ≡ list_all (waits_where_a_barrier_is barriers.now) waits.now }
{
    waits.iter().all(|wait| match wait.reason {
        Reason::Barrier(address) => barriers.exists(address),
        _ => true,
    })
}

impl Barriers {
    /// There is no barrier.
    pub fn new() -> Self
        ensures { result ≡ [] }
    {
        Barriers {
            table: ArrayVec::new(),
        }
    }

    /// What always holds of the table, for a proof.
    pub fn known(&self)
        ensures { IsTable self.now }
    {
        let _ = self.table.as_slice();
    }

    /// The barriers by rising address.
    pub fn rows(&self) -> &[Entry<Barrier>]
        ensures { result.now ≡ self.now }
    {
        self.table.as_slice()
    }

    /// How many barriers there are, at most [`MAX_BARRIERS`].
    pub fn count(&self) -> usize
        ensures { result ≡ length self.now }
    {
        self.table.len()
    }

    /// The barrier at a place of the table, from 0 by rising address.
    pub fn row(&self, place: usize) -> Entry<Barrier>
        requires { place < length self.now }
        ensures { slice_get self.now place ≡ Some result }
    {
        self.rows()[place]
    }

    /// A barrier goes after the others, where a table may have it: its address is above theirs, its count is at least 1,
    /// and there are fewer than [`MAX_BARRIERS`]. Says whether it did; else nothing changes.
    pub fn append(&mut self, entry: Entry<Barrier>) -> bool
        ensures { Appends IsTable entry self.old self.new result }
    {
        entry.value.count > 0 && append(&mut self.table, entry)
    }

    /// Whether threads and barriers are well-formed together: fewer wait at each barrier than its count, and nobody waits
    /// where there is none.
    pub fn is_well_formed_with(&self, threads: &Threads) -> bool
        ensures { (result ≡ true) ↔ IsWellFormedWith threads.now self.now }
    {
        self.known();
        each_awaits_more(threads, self.rows())
            && each_waits_where_a_barrier_is(self, threads.waits().as_slice())
    }

    /// The barrier at an address, if there is one.
    pub fn barrier(&self, address: u32) -> Option<Barrier>
        ensures { result ≡ lookup address self.now }
    {
        get(self.table.as_slice(), address)
    }

    /// Whether there is a barrier at an address.
    #[tactic(auto, using(ckrt_objects::proofs::InUse::lookup_is_some))]
    fn exists(&self, address: u32) -> bool
        ensures { result ≡ has_entry address self.now }
    {
        self.barrier(address).is_some()
    }

    /// Whether there is no barrier at the address, and there are 64 others.
    fn is_full(&self, address: u32) -> bool
        ensures { result ≡ is_full address self.now }
    {
        self.table.is_full() && !self.exists(address)
    }

    /// Initialises a barrier at which that many threads meet (POSIX.1-2017, pthread_barrier_init). EBUSY where threads wait
    /// at it; EINVAL where the count is 0; EAGAIN where there is none and there are 64 others; else 0.
    pub fn init(&mut self, threads: &Threads, address: u32, count: u32) -> CallResult
        requires well_formed { IsWellFormedWith threads.now self.old }
        ensures well_formed { IsWellFormedWith threads.now self.new }
        ensures result { result ≡ (init_row address count threads.now self.old).result }
        ensures threads { threads.now ≡ (init_row address count threads.now self.old).threads }
        ensures barriers { self.new ≡ (init_row address count threads.now self.old).barriers }
    {
        self.set_count(threads, address, count)
    }

    /// The row of `init`.
    fn set_count(&mut self, threads: &Threads, address: u32, count: u32) -> CallResult
        ensures result { result ≡ (init_row address count threads.now self.old).result }
        ensures threads { threads.now ≡ (init_row address count threads.now self.old).threads }
        ensures barriers { self.new ≡ (init_row address count threads.now self.old).barriers }
    {
        if has_waiters(threads, address) {
            return CallResult::Done(EBUSY);
        }
        if count == 0 {
            return CallResult::Done(EINVAL);
        }
        if self.is_full(address) {
            return CallResult::Done(EAGAIN);
        }
        store(&mut self.table, address, Barrier { count });
        CallResult::Done(0)
    }

    /// Destroys a barrier (POSIX.1-2017, pthread_barrier_destroy). EBUSY where threads wait at it; EINVAL where there is
    /// none; else 0.
    pub fn destroy(&mut self, threads: &Threads, address: u32) -> CallResult
        requires well_formed { IsWellFormedWith threads.now self.old }
        ensures well_formed { IsWellFormedWith threads.now self.new }
        ensures result { result ≡ (destroy_row address threads.now self.old).result }
        ensures threads { threads.now ≡ (destroy_row address threads.now self.old).threads }
        ensures barriers { self.new ≡ (destroy_row address threads.now self.old).barriers }
    {
        self.forget_idle(threads, address)
    }

    /// The row of `destroy`.
    fn forget_idle(&mut self, threads: &Threads, address: u32) -> CallResult
        ensures result { result ≡ (destroy_row address threads.now self.old).result }
        ensures threads { threads.now ≡ (destroy_row address threads.now self.old).threads }
        ensures barriers { self.new ≡ (destroy_row address threads.now self.old).barriers }
    {
        if has_waiters(threads, address) {
            return CallResult::Done(EBUSY);
        }
        if !self.exists(address) {
            return CallResult::Done(EINVAL);
        }
        remove(&mut self.table, address);
        CallResult::Done(0)
    }

    /// Waits at a barrier until as many threads as its count have come (POSIX.1-2017, pthread_barrier_wait). EINVAL where
    /// there is none. The last to come gets [`SERIAL_THREAD`] at once, and each of the others 0 as its wait ends; the
    /// barrier is then as after `init`.
    pub fn wait(&self, threads: &mut Threads, thread: ThreadId, address: u32) -> CallResult
        requires live { is_live threads.old thread ≡ true }
        requires free { is_waiting threads.old thread ≡ false }
        requires well_formed { IsWellFormedWith threads.old self.now }
        ensures well_formed { IsWellFormedWith threads.new self.now }
        ensures as_after_init { result ≡ Done SERIAL_THREAD → waiters address threads.new ≡ [] }
        ensures result { result ≡ (wait_row thread address threads.old self.now).result }
        ensures threads { threads.new ≡ (wait_row thread address threads.old self.now).threads }
        ensures barriers { self.now ≡ (wait_row thread address threads.old self.now).barriers }
    {
        threads.known();
        self.meet(threads, thread, address)
    }

    /// The row of `wait`.
    fn meet(&self, threads: &mut Threads, thread: ThreadId, address: u32) -> CallResult
        requires live { is_live threads.old thread ≡ true }
        requires free { is_waiting threads.old thread ≡ false }
        ensures as_after_init { result ≡ Done SERIAL_THREAD → waiters address threads.new ≡ [] }
        ensures result { result ≡ (wait_row thread address threads.old self.now).result }
        ensures threads { threads.new ≡ (wait_row thread address threads.old self.now).threads }
        ensures barriers { self.now ≡ (wait_row thread address threads.old self.now).barriers }
    {
        let Some(barrier) = self.barrier(address) else {
            return CallResult::Done(EINVAL);
        };
        let waiting = threads.waiter_count(Object::Barrier(address)) as u32;
        if waiting + 1 == barrier.count {
            threads.wake_all(Object::Barrier(address), 0);
            return CallResult::Done(SERIAL_THREAD);
        }
        threads.block(thread, Reason::Barrier(address), None);
        CallResult::Blocked
    }
}
