//! The calls on read-write locks.
ghost use Rattle.std.specs.Prelude.{◌≡◌, ◌<◌, ◌≤◌, ◌+◌, ◌↔◌, length, slice_get, nat_le, true, false, [], Some};
ghost use Rattle.std.specs.List.{list_all};
ghost use Rattle.ckrt_thread.specs.State.{is_live, is_waiting};
ghost use Rattle.ckrt_objects.specs.AddressMap.{has_room};
ghost use Rattle.ckrt_objects.specs.Appended.{Appends, IsTableUpTo};
ghost use Rattle.ckrt_rwlock.specs.RwLock.{lock_at, put, is_proper, is_exclusive, is_reader, is_written, read_count, with_read_count, IsTable};
ghost use Rattle.ckrt_rwlock.specs.Rows.{if_unused, init_row, destroy_row, rdlock_row, reading_again, tryrdlock_row, wrlock_row, trywrlock_row, unlock_row, released, used_count, is_used, is_full};
ghost use Rattle.ckrt_rwlock.specs.WellFormed.{IsWellFormedWith, may_wait};

use crate::records::RwLock;
use crate::waiters::{has_admissible_waiter, has_to_wait};
use arrayvec::ArrayVec;
use ckrt_objects::{
    Entry, Named, append, are_limit_in_use, get, grant_waiters, is_full, is_in_use, remove, store,
};
use ckrt_thread::{
    CallResult, EAGAIN, EBUSY, EDEADLK, EPERM, Object, Reason, ThreadId, Threads, Wait,
};
use std::marker::Model;

/// How many read locks of one lock a thread can have.
const MAX_READ_COUNT: u16 = 65535;

/// How many locks can be in use.
const MAX_IN_USE: usize = 64;

/// The read-write locks of a program, by their addresses. A lock that nobody holds has no entry. At most 64 are in use:
/// held by a thread, or named by a wait.
#[derive(Drop)]
pub struct RwLocks {
    table: ArrayVec<Entry<RwLock>, MAX_IN_USE>,
}

impl Model for RwLocks {
    ghost use Rattle.std.specs.Prelude.{List};
    ghost use Rattle.ckrt_objects.specs.declared.address_map.Entry.{Entry};
    ghost use Rattle.ckrt_rwlock.specs.declared.records.RwLock.{RwLock};
    ghost use Rattle.ckrt_rwlock.specs.RwLock.{IsTable};

    ghost Value = { List (Entry RwLock) };

    ghost view = { λ a. a.table.items };

    ghost invariant = { λ a. IsTable a.table.items };
}

/// Whether a wait may be at the lock that it names, if it names one.
fn may_wait(locks: &RwLocks, threads: &Threads, wait: &Wait) -> bool
    ensures { result ≡ may_wait threads.now locks.now wait.now }
{
    match RwLock::named_by(wait) {
        Some(address) => {
            let lock = locks.lock(address);
            !lock.is_holder(wait.thread) && !has_admissible_waiter(threads, &lock, address)
        }
        None => true,
    }
}

/// Whether each wait may be at the lock that it names.
fn may_all_wait(locks: &RwLocks, threads: &Threads, waits: &[Wait]) -> bool
    ensures { result ≡ list_all (may_wait threads.now locks.now) waits.now }
{
    waits.iter().all(|wait| may_wait(locks, threads, wait))
}

impl RwLocks {
    /// Nobody holds a lock.
    pub fn new() -> Self
        ensures { result ≡ [] }
    {
        RwLocks {
            table: ArrayVec::new(),
        }
    }

    /// What always holds of the table, for a proof.
    pub fn known(&self)
        ensures table { IsTable self.now }
        ensures size { length self.now ≤ 64 }
    {
        let _ = self.table.as_slice();
    }

    /// The locks that threads hold, by rising address.
    pub fn rows(&self) -> &[Entry<RwLock>]
        ensures { result.now ≡ self.now }
    {
        self.table.as_slice()
    }

    /// How many locks threads hold, at most 64.
    pub fn count(&self) -> usize
        ensures { result ≡ length self.now }
    {
        self.table.len()
    }

    /// The lock at a place among those that threads hold, from 0 by rising address.
    pub fn row(&self, place: usize) -> &Entry<RwLock>
        requires { place < length self.now }
        ensures { slice_get self.now place ≡ Some result.now }
    {
        &self.rows()[place]
    }

    /// A lock goes after the others, where a table may have it: its address is above theirs, a thread holds it, writer
    /// and readers are threads, no thread reads beside one that writes, and there are fewer than 64. Says whether it did;
    /// else nothing changes.
    pub fn append(&mut self, entry: Entry<RwLock>) -> bool
        ensures { Appends (IsTableUpTo 64 IsTable) entry self.old self.new result }
    {
        entry.value.is_held()
            && entry.value.is_proper()
            && entry.value.is_exclusive()
            && append(&mut self.table, entry)
    }

    /// Whether threads and locks are well-formed together: at most 64 locks are in use, no thread waits for a lock that it
    /// holds, and no first waiter is admissible.
    pub fn is_well_formed_with(&self, threads: &Threads) -> bool
        ensures { (result ≡ true) ↔ IsWellFormedWith threads.now self.now }
    {
        self.known();
        self.are_few_in_use(threads) && may_all_wait(self, threads, threads.waits().as_slice())
    }

    /// Whether at most 64 locks are in use.
    fn are_few_in_use(&self, threads: &Threads) -> bool
        ensures { result ≡ nat_le (used_count threads.now self.now) 64 }
    {
        self.known();
        !are_limit_in_use(threads, self.rows(), MAX_IN_USE + 1)
    }

    /// The lock at an address.
    pub fn lock(&self, address: u32) -> RwLock
        ensures lock { result ≡ lock_at address self.now }
        ensures proper { is_proper result ≡ true }
        ensures exclusive { is_exclusive result ≡ true }
    {
        get(self.table.as_slice(), address).unwrap_or(RwLock::unheld())
    }

    /// Whether the lock is held, or named by a wait.
    fn is_used(&self, threads: &Threads, address: u32) -> bool
        ensures { result ≡ is_used address threads.now self.now }
    {
        is_in_use(threads, self.table.as_slice(), address)
    }

    /// EBUSY where the lock is held, or named by a wait; else 0.
    fn if_unused(&self, threads: &Threads, address: u32) -> CallResult
        ensures { result ≡ if_unused address threads.now self.now }
    {
        if self.is_used(threads, address) {
            return CallResult::Done(EBUSY);
        }
        CallResult::Done(0)
    }

    /// Whether the lock is not in use, and 64 others are.
    fn is_full(&self, threads: &Threads, address: u32) -> bool
        ensures { result ≡ is_full address threads.now self.now }
    {
        is_full(threads, self.table.as_slice(), address, MAX_IN_USE)
    }

    /// The lock at an address becomes this one.
    fn put(&mut self, address: u32, lock: RwLock)
        requires room { has_room 64 address self.old ≡ true }
        requires proper { is_proper lock ≡ true }
        requires exclusive { is_exclusive lock ≡ true }
        ensures { self.new ≡ put address lock self.old }
    {
        if lock.is_held() {
            store(&mut self.table, address, lock);
        } else {
            remove(&mut self.table, address);
        }
    }

    /// Initialises a lock (POSIX.1-2017, pthread_rwlock_init). EBUSY where it is held or named by a wait; else 0.
    pub fn init(&mut self, threads: &Threads, address: u32) -> CallResult
        requires well_formed { IsWellFormedWith threads.now self.old }
        ensures well_formed { IsWellFormedWith threads.now self.new }
        ensures result { result ≡ (init_row address threads.now self.old).result }
        ensures threads { threads.now ≡ (init_row address threads.now self.old).threads }
        ensures locks { self.new ≡ (init_row address threads.now self.old).locks }
    {
        self.if_unused(threads, address)
    }

    /// Destroys a lock (POSIX.1-2017, pthread_rwlock_destroy). EBUSY where it is held or named by a wait; else 0.
    pub fn destroy(&mut self, threads: &Threads, address: u32) -> CallResult
        requires well_formed { IsWellFormedWith threads.now self.old }
        ensures well_formed { IsWellFormedWith threads.now self.new }
        ensures result { result ≡ (destroy_row address threads.now self.old).result }
        ensures threads { threads.now ≡ (destroy_row address threads.now self.old).threads }
        ensures locks { self.new ≡ (destroy_row address threads.now self.old).locks }
    {
        self.if_unused(threads, address)
    }

    /// Locks a lock to read, or waits for it (POSIX.1-2017, pthread_rwlock_rdlock). EDEADLK where the thread writes
    /// under it; EAGAIN where the thread has 65,535 read locks of it, or where it is not in use and 64 others are;
    /// else 0, now or when the wait ends. A thread that has no read lock waits after every thread that waits already.
    pub fn rdlock(&mut self, threads: &mut Threads, thread: ThreadId, address: u32) -> CallResult
        requires live { is_live threads.old thread ≡ true }
        requires free { is_waiting threads.old thread ≡ false }
        requires well_formed { IsWellFormedWith threads.old self.old }
        ensures well_formed { IsWellFormedWith threads.new self.new }
        ensures result { result ≡ (rdlock_row thread address threads.old self.old).result }
        ensures threads { threads.new ≡ (rdlock_row thread address threads.old self.old).threads }
        ensures locks { self.new ≡ (rdlock_row thread address threads.old self.old).locks }
    {
        threads.known_live(thread);
        self.read_or_wait(threads, thread, address)
    }

    /// The row of `rdlock`.
    fn read_or_wait(&mut self, threads: &mut Threads, thread: ThreadId, address: u32) -> CallResult
        requires live { is_live threads.old thread ≡ true }
        requires free { is_waiting threads.old thread ≡ false }
        requires few { used_count threads.old self.old ≤ 64 }
        ensures result { result ≡ (rdlock_row thread address threads.old self.old).result }
        ensures threads { threads.new ≡ (rdlock_row thread address threads.old self.old).threads }
        ensures locks { self.new ≡ (rdlock_row thread address threads.old self.old).locks }
    {
        threads.known_live(thread);
        let lock = self.lock(address);
        if lock.is_writer(thread) {
            return CallResult::Done(EDEADLK);
        }
        if lock.is_reader(thread) {
            return self.read_again(threads, lock, thread, address);
        }
        if self.is_full(threads, address) {
            return CallResult::Done(EAGAIN);
        }
        if has_to_wait(threads, &lock, address) {
            threads.block(thread, Reason::Read(address), None);
            return CallResult::Blocked;
        }
        self.known();
        self.read(lock, thread, address);
        CallResult::Done(0)
    }

    /// The thread has one read lock more.
    fn read(&mut self, lock: RwLock, thread: ThreadId, address: u32)
        requires id { (0 < thread) × (thread ≤ 64) }
        requires room { has_room 64 address self.old ≡ true }
        requires proper { is_proper lock ≡ true }
        requires unwritten { is_written lock ≡ false }
        requires count { read_count thread lock < MAX_READ_COUNT }
        ensures { self.new
            ≡ put address (with_read_count thread (read_count thread lock + 1) lock) self.old }
    {
        self.put(
            address,
            lock.with_read_count(thread, lock.read_count(thread) + 1),
        );
    }

    /// A thread that has a read lock gets one more, up to [`MAX_READ_COUNT`].
    fn read_again(
        &mut self,
        threads: &Threads,
        lock: RwLock,
        thread: ThreadId,
        address: u32,
    ) -> CallResult
        requires id { (0 < thread) × (thread ≤ 64) }
        requires lock { lock ≡ lock_at address self.old }
        requires proper { is_proper lock ≡ true }
        requires exclusive { is_exclusive lock ≡ true }
        requires reader { is_reader thread lock ≡ true }
        ensures result { result ≡ (reading_again lock thread address threads.now self.old).result }
        ensures locks { self.new ≡ (reading_again lock thread address threads.now self.old).locks }
    {
        if lock.read_count(thread) == MAX_READ_COUNT {
            return CallResult::Done(EAGAIN);
        }
        self.read(lock, thread, address);
        CallResult::Done(0)
    }

    /// Locks a lock to read where that needs no wait (POSIX.1-2017, pthread_rwlock_tryrdlock). EAGAIN as `rdlock`;
    /// EBUSY where a thread writes under it, the caller too, or where threads wait for it and the thread has no read
    /// lock of it; else 0.
    pub fn tryrdlock(&mut self, threads: &Threads, thread: ThreadId, address: u32) -> CallResult
        requires live { is_live threads.now thread ≡ true }
        requires free { is_waiting threads.now thread ≡ false }
        requires well_formed { IsWellFormedWith threads.now self.old }
        ensures well_formed { IsWellFormedWith threads.now self.new }
        ensures result { result ≡ (tryrdlock_row thread address threads.now self.old).result }
        ensures threads { threads.now
            ≡ (tryrdlock_row thread address threads.now self.old).threads }
        ensures locks { self.new ≡ (tryrdlock_row thread address threads.now self.old).locks }
    {
        threads.known_live(thread);
        self.read_or_refuse(threads, thread, address)
    }

    /// The row of `tryrdlock`.
    fn read_or_refuse(&mut self, threads: &Threads, thread: ThreadId, address: u32) -> CallResult
        requires live { is_live threads.now thread ≡ true }
        requires few { used_count threads.now self.old ≤ 64 }
        ensures result { result ≡ (tryrdlock_row thread address threads.now self.old).result }
        ensures threads { threads.now
            ≡ (tryrdlock_row thread address threads.now self.old).threads }
        ensures locks { self.new ≡ (tryrdlock_row thread address threads.now self.old).locks }
    {
        threads.known_live(thread);
        let lock = self.lock(address);
        if lock.is_writer(thread) {
            return CallResult::Done(EBUSY);
        }
        if lock.is_reader(thread) {
            return self.read_again(threads, lock, thread, address);
        }
        if self.is_full(threads, address) {
            return CallResult::Done(EAGAIN);
        }
        if has_to_wait(threads, &lock, address) {
            return CallResult::Done(EBUSY);
        }
        self.known();
        self.read(lock, thread, address);
        CallResult::Done(0)
    }

    /// Locks a lock to write, or waits for it (POSIX.1-2017, pthread_rwlock_wrlock). EDEADLK where the thread holds it,
    /// to read or to write; EAGAIN where it is not in use and 64 others are; else 0, now or when the wait ends.
    pub fn wrlock(&mut self, threads: &mut Threads, thread: ThreadId, address: u32) -> CallResult
        requires live { is_live threads.old thread ≡ true }
        requires free { is_waiting threads.old thread ≡ false }
        requires well_formed { IsWellFormedWith threads.old self.old }
        ensures well_formed { IsWellFormedWith threads.new self.new }
        ensures result { result ≡ (wrlock_row thread address threads.old self.old).result }
        ensures threads { threads.new ≡ (wrlock_row thread address threads.old self.old).threads }
        ensures locks { self.new ≡ (wrlock_row thread address threads.old self.old).locks }
    {
        threads.known_live(thread);
        self.write_or_wait(threads, thread, address)
    }

    /// The row of `wrlock`.
    fn write_or_wait(&mut self, threads: &mut Threads, thread: ThreadId, address: u32) -> CallResult
        requires live { is_live threads.old thread ≡ true }
        requires free { is_waiting threads.old thread ≡ false }
        requires few { used_count threads.old self.old ≤ 64 }
        ensures result { result ≡ (wrlock_row thread address threads.old self.old).result }
        ensures threads { threads.new ≡ (wrlock_row thread address threads.old self.old).threads }
        ensures locks { self.new ≡ (wrlock_row thread address threads.old self.old).locks }
    {
        threads.known_live(thread);
        let lock = self.lock(address);
        if lock.is_holder(thread) {
            return CallResult::Done(EDEADLK);
        }
        if self.is_full(threads, address) {
            return CallResult::Done(EAGAIN);
        }
        if lock.is_held() {
            threads.block(thread, Reason::Write(address), None);
            return CallResult::Blocked;
        }
        self.known();
        self.put(address, lock.with_writer(Some(thread)));
        CallResult::Done(0)
    }

    /// Locks a lock to write where that needs no wait (POSIX.1-2017, pthread_rwlock_trywrlock). EBUSY where a thread
    /// holds it, the caller too; EAGAIN as `wrlock`; else 0.
    pub fn trywrlock(&mut self, threads: &Threads, thread: ThreadId, address: u32) -> CallResult
        requires live { is_live threads.now thread ≡ true }
        requires free { is_waiting threads.now thread ≡ false }
        requires well_formed { IsWellFormedWith threads.now self.old }
        ensures well_formed { IsWellFormedWith threads.now self.new }
        ensures result { result ≡ (trywrlock_row thread address threads.now self.old).result }
        ensures threads { threads.now
            ≡ (trywrlock_row thread address threads.now self.old).threads }
        ensures locks { self.new ≡ (trywrlock_row thread address threads.now self.old).locks }
    {
        threads.known_live(thread);
        self.write_or_refuse(threads, thread, address)
    }

    /// The row of `trywrlock`.
    fn write_or_refuse(&mut self, threads: &Threads, thread: ThreadId, address: u32) -> CallResult
        requires live { is_live threads.now thread ≡ true }
        requires few { used_count threads.now self.old ≤ 64 }
        ensures result { result ≡ (trywrlock_row thread address threads.now self.old).result }
        ensures threads { threads.now
            ≡ (trywrlock_row thread address threads.now self.old).threads }
        ensures locks { self.new ≡ (trywrlock_row thread address threads.now self.old).locks }
    {
        threads.known_live(thread);
        let lock = self.lock(address);
        if lock.is_holder(thread) {
            return CallResult::Done(EBUSY);
        }
        if self.is_full(threads, address) {
            return CallResult::Done(EAGAIN);
        }
        if lock.is_held() {
            return CallResult::Done(EBUSY);
        }
        self.known();
        self.put(address, lock.with_writer(Some(thread)));
        CallResult::Done(0)
    }

    /// Gives up the write lock, or one read lock (POSIX.1-2017, pthread_rwlock_unlock). EPERM where the thread holds
    /// neither; else 0. The first waiters get the lock at once, as far as they are admissible: a reader where no thread
    /// writes, a writer where no thread holds the lock.
    pub fn unlock(&mut self, threads: &mut Threads, thread: ThreadId, address: u32) -> CallResult
        requires live { is_live threads.old thread ≡ true }
        requires well_formed { IsWellFormedWith threads.old self.old }
        ensures well_formed { IsWellFormedWith threads.new self.new }
        ensures result { result ≡ (unlock_row thread address threads.old self.old).result }
        ensures threads { threads.new ≡ (unlock_row thread address threads.old self.old).threads }
        ensures locks { self.new ≡ (unlock_row thread address threads.old self.old).locks }
    {
        threads.known();
        threads.known_live(thread);
        self.give_up(threads, thread, address)
    }

    /// The row of `unlock`.
    fn give_up(&mut self, threads: &mut Threads, thread: ThreadId, address: u32) -> CallResult
        requires live { is_live threads.old thread ≡ true }
        ensures result { result ≡ (unlock_row thread address threads.old self.old).result }
        ensures threads { threads.new ≡ (unlock_row thread address threads.old self.old).threads }
        ensures locks { self.new ≡ (unlock_row thread address threads.old self.old).locks }
    {
        threads.known_live(thread);
        let lock = self.lock(address);
        if !lock.is_holder(thread) {
            return CallResult::Done(EPERM);
        }
        self.release(threads, lock.given_up_by(thread), address);
        CallResult::Done(0)
    }

    /// The lock's first waiters are granted it.
    fn release(&mut self, threads: &mut Threads, lock: RwLock, address: u32)
        requires room { has_room 64 address self.old ≡ true }
        requires proper { is_proper lock ≡ true }
        requires exclusive { is_exclusive lock ≡ true }
        ensures threads { threads.new ≡ (released lock address threads.old self.old).threads }
        ensures locks { self.new ≡ (released lock address threads.old self.old).locks }
    {
        let mut lock = lock;
        grant_waiters(threads, Object::RwLock(address), &mut lock);
        self.put(address, lock);
    }
}
