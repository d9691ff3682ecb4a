//! The calls on mutexes.
ghost use Rattle.std.specs.Prelude.{◌≡◌, ◌<◌, ◌≤◌, ◌↔◌, length, slice_get, nat_le, true, false, [], Some};
ghost use Rattle.std.specs.List.{list_all};
ghost use Rattle.ckrt_thread.specs.State.{is_live, is_waiting, may_unwind};
ghost use Rattle.ckrt_thread.specs.Waits.{retake_code};
ghost use Rattle.ckrt_thread.specs.declared.records.Reason.TheVariants.{Retake};
ghost use Rattle.ckrt_objects.specs.AddressMap.{has_room};
ghost use Rattle.ckrt_objects.specs.Appended.{Appends, IsTableUpTo};
ghost use Rattle.ckrt_mutex.specs.Mutex.{mutex_at, put, free, is_proper, is_available, is_owned, IsTable};
ghost use Rattle.ckrt_mutex.specs.Rows.{init_row, destroy_row, lock_row, timedlock_row, trylock_row, taken, unlock_row, released, answer_of, retake_row, used_count, is_full, is_busy};
ghost use Rattle.ckrt_mutex.specs.WellFormed.{IsWellFormedWith, can_retake, may_wait_at, meets};
ghost use Rattle.ckrt_mutex.specs.declared.records.Kind.TheVariants.{Normal};

use crate::entries::{append_entry, kept_count, kept_of, mutex_of, put_entry};
use crate::records::{Kind, MAX_RECURSIVE_COUNT, Mutex};
use arrayvec::ArrayVec;
use ckrt_objects::{
    Entry, Named, Places, are_limit_in_use, are_too_few, is_full, is_named_by_wait, remove,
};
use ckrt_thread::{
    CallResult, EAGAIN, EBUSY, EDEADLK, EINVAL, EPERM, ETIMEDOUT, MOMENT_END, Object, Reason,
    RetakeResult, ThreadId, Threads, Wait,
};
use std::marker::Model;

/// How many mutexes may be in use.
const LIMIT: usize = 256;

/// The mutexes of a program, by their addresses. An address at which no mutex was initialised has a free normal one.
/// At most 256 are in use: owned, or not normal, or named by a wait. A mutex that becomes free and normal keeps its entry
/// until the room is needed, so that no other entry moves while it is locked and unlocked; and where the entry was put is
/// remembered.
#[derive(Drop)]
pub struct Mutexes {
    table: ArrayVec<Entry<Mutex>, 256>,
    places: Places,
}

impl Model for Mutexes {
    ghost use Rattle.std.specs.Prelude.{List};
    ghost use Rattle.ckrt_objects.specs.declared.address_map.Entry.{Entry};
    ghost use Rattle.ckrt_mutex.specs.declared.records.Mutex.{Mutex};
    ghost use Rattle.ckrt_mutex.specs.Mutex.{AreEntries, kept};

    ghost Value = { List (Entry Mutex) };

    ghost view = { λ a. kept a.table.items };

    ghost invariant = { λ a. AreEntries a.table.items };
}

/// What a thread is answered that has its mutex again.
fn answer_of(outcome: RetakeResult) -> CallResult
    ensures { result ≡ answer_of (retake_code outcome) }
{
    match outcome.code() {
        Some(value) => CallResult::Done(value),
        None => CallResult::Moved,
    }
}

/// Whether a wait may name the mutex that it names, if it names one.
fn may_wait(mutexes: &Mutexes, wait: &Wait) -> bool
    ensures { result ≡ meets may_wait_at mutexes.now wait.now }
{
    match Mutex::named_by(wait) {
        Some(address) => mutexes.mutex(address).may_be_named_by(wait),
        None => true,
    }
}

/// Whether each wait may name the mutex that it names.
fn may_all_wait(mutexes: &Mutexes, waits: &[Wait]) -> bool
    ensures { result ≡ list_all (meets may_wait_at mutexes.now) waits.now }
{
    waits.iter().all(|wait| may_wait(mutexes, wait))
}

impl Mutexes {
    /// Each mutex is free and normal.
    pub fn new() -> Self
        ensures { result ≡ [] }
    {
        Mutexes {
            table: ArrayVec::new(),
            places: Places::new(),
        }
    }

    /// What always holds of the table.
    pub fn known(&self)
        ensures table { IsTable self.now }
        ensures size { length self.now ≤ 256 }
    {
        let _ = self.table.as_slice();
    }

    /// The mutexes that aren't free and normal, by rising address.
    pub fn rows(&self) -> ArrayVec<Entry<Mutex>, LIMIT>
        ensures { result.items ≡ self.now }
    {
        kept_of(self.table.as_slice())
    }

    /// How many mutexes aren't free and normal.
    pub fn count(&self) -> usize
        ensures { result ≡ length self.now }
    {
        kept_count(self.table.as_slice())
    }

    /// The mutex at a place among those that aren't free and normal, from 0 by rising address. It looks at all of them:
    /// [`Mutexes::rows`] has them at once.
    pub fn row(&self, place: usize) -> Entry<Mutex>
        requires { place < length self.now }
        ensures { slice_get self.now place ≡ Some result }
    {
        self.rows()[place]
    }

    /// A mutex goes after the others, where a table may have it: its address is above theirs, it isn't free and normal,
    /// its count is one that its kind and its owner allow, and there are fewer than 256. Says whether it did; else nothing
    /// changes.
    pub fn append(&mut self, entry: Entry<Mutex>) -> bool
        ensures { Appends (IsTableUpTo 256 IsTable) entry self.old self.new result }
    {
        append_entry(&mut self.table, entry)
    }

    /// Whether threads and mutexes are well-formed together: at most 256 mutexes are in use, and each wait may name the
    /// mutex that it names.
    pub fn is_well_formed_with(&self, threads: &Threads) -> bool
        ensures { (result ≡ true) ↔ IsWellFormedWith threads.now self.now }
    {
        self.known();
        self.are_few_in_use(threads) && may_all_wait(self, threads.waits().as_slice())
    }

    /// Whether at most 256 mutexes are in use.
    fn are_few_in_use(&self, threads: &Threads) -> bool
        ensures { result ≡ nat_le (used_count threads.now self.now) 256 }
    {
        self.known();
        !are_limit_in_use(threads, self.rows().as_slice(), LIMIT + 1)
    }

    /// The mutex at an address.
    pub fn mutex(&self, address: u32) -> Mutex
        ensures mutex { result ≡ mutex_at address self.now }
        ensures proper { is_proper result ≡ true }
    {
        mutex_of(self.table.as_slice(), self.places.near(address), address)
    }

    /// Whether the mutex is not in use, and 256 others are.
    pub fn is_full(&self, threads: &Threads, address: u32) -> bool
        ensures { result ≡ is_full address threads.now self.now }
    {
        let entries = self.table.as_slice();
        if are_too_few(threads, entries, LIMIT) {
            return false;
        }
        is_full(threads, kept_of(entries).as_slice(), address, LIMIT)
    }

    /// The same of a mutex that has just been looked up: one that isn't free and normal is in use.
    #[tactic(auto, using(crate::proofs::WellFormed::other_not_full))]
    fn has_no_room(&self, threads: &Threads, mutex: Mutex, address: u32) -> bool
        requires { mutex ≡ mutex_at address self.now }
        ensures { result ≡ is_full address threads.now self.now }
    {
        mutex.is_plain() && self.is_full(threads, address)
    }

    /// Whether the mutex is owned, or named by a wait.
    fn is_busy(&self, threads: &Threads, address: u32) -> bool
        ensures { result ≡ is_busy address threads.now self.now }
    {
        self.mutex(address).is_owned() || is_named_by_wait::<Mutex>(threads, address)
    }

    /// The mutex at an address becomes this one.
    fn put(&mut self, address: u32, mutex: Mutex)
        requires room { has_room 256 address self.old ≡ true }
        requires proper { is_proper mutex ≡ true }
        ensures { self.new ≡ put address mutex self.old }
    {
        let near = self.places.near(address);
        let place = put_entry(&mut self.table, near, address, mutex);
        self.places.remember(address, place);
    }

    /// The mutex at an address is free and normal from now on.
    fn forget(&mut self, address: u32)
        ensures { self.new ≡ put address (free Normal) self.old }
    {
        remove(&mut self.table, address);
    }

    /// Initialises a mutex of a kind, 0 normal, 1 recursive or 2 error-checking (POSIX.1-2017, pthread_mutex_init).
    /// Another kind is EINVAL; a mutex that is owned or named by a wait is EBUSY; a kind other than normal is EAGAIN
    /// where 256 other mutexes are in use; else 0.
    pub fn init(&mut self, threads: &Threads, address: u32, kind: u32) -> CallResult
        requires well_formed { IsWellFormedWith threads.now self.old }
        ensures well_formed { IsWellFormedWith threads.now self.new }
        ensures result { result ≡ (init_row address kind threads.now self.old).result }
        ensures threads { threads.now ≡ (init_row address kind threads.now self.old).threads }
        ensures mutexes { self.new ≡ (init_row address kind threads.now self.old).mutexes }
    {
        self.set_kind(threads, address, kind)
    }

    /// The row of `init`.
    fn set_kind(&mut self, threads: &Threads, address: u32, kind: u32) -> CallResult
        requires few { used_count threads.now self.old ≤ 256 }
        ensures result { result ≡ (init_row address kind threads.now self.old).result }
        ensures threads { threads.now ≡ (init_row address kind threads.now self.old).threads }
        ensures mutexes { self.new ≡ (init_row address kind threads.now self.old).mutexes }
    {
        let Some(kind) = Kind::from_number(kind) else {
            return CallResult::Done(EINVAL);
        };
        if self.is_busy(threads, address) {
            return CallResult::Done(EBUSY);
        }
        if matches!(kind, Kind::Normal) {
            self.forget(address);
            return CallResult::Done(0);
        }
        if self.is_full(threads, address) {
            return CallResult::Done(EAGAIN);
        }
        self.known();
        self.put(address, Mutex::free(kind));
        CallResult::Done(0)
    }

    /// Destroys a mutex, which is free and normal again (POSIX.1-2017, pthread_mutex_destroy). One that is owned or
    /// named by a wait is EBUSY; else 0.
    pub fn destroy(&mut self, threads: &Threads, address: u32) -> CallResult
        requires well_formed { IsWellFormedWith threads.now self.old }
        ensures well_formed { IsWellFormedWith threads.now self.new }
        ensures result { result ≡ (destroy_row address threads.now self.old).result }
        ensures threads { threads.now ≡ (destroy_row address threads.now self.old).threads }
        ensures mutexes { self.new ≡ (destroy_row address threads.now self.old).mutexes }
    {
        self.forget_idle(threads, address)
    }

    /// The row of `destroy`.
    fn forget_idle(&mut self, threads: &Threads, address: u32) -> CallResult
        ensures result { result ≡ (destroy_row address threads.now self.old).result }
        ensures threads { threads.now ≡ (destroy_row address threads.now self.old).threads }
        ensures mutexes { self.new ≡ (destroy_row address threads.now self.old).mutexes }
    {
        if self.is_busy(threads, address) {
            return CallResult::Done(EBUSY);
        }
        self.forget(address);
        CallResult::Done(0)
    }

    /// A mutex that is available to the thread is locked once more.
    fn take(
        &mut self,
        threads: &Threads,
        mutex: Mutex,
        thread: ThreadId,
        address: u32,
    ) -> CallResult
        requires id { (0 < thread) × (thread ≤ 64) }
        requires few { used_count threads.now self.old ≤ 256 }
        requires mutex { mutex ≡ mutex_at address self.old }
        requires proper { is_proper mutex ≡ true }
        requires available { is_available thread mutex ≡ true }
        ensures result { result ≡ (taken mutex thread address threads.now self.old).result }
        ensures mutexes { self.new ≡ (taken mutex thread address threads.now self.old).mutexes }
    {
        if mutex.count >= MAX_RECURSIVE_COUNT || self.has_no_room(threads, mutex, address) {
            return CallResult::Done(EAGAIN);
        }
        self.known();
        self.put(address, Mutex::owned(mutex.kind, thread, mutex.count + 1));
        CallResult::Done(0)
    }

    /// Locks a mutex, or waits for it (POSIX.1-2017, pthread_mutex_lock). EAGAIN where it is free and 256 others are
    /// in use, or where it is recursive and the thread has locked it 65,535 times; EDEADLK where it is error-checking
    /// and the thread's own; else 0, now or when the wait ends.
    pub fn lock(&mut self, threads: &mut Threads, thread: ThreadId, address: u32) -> CallResult
        requires live { is_live threads.old thread ≡ true }
        requires free { is_waiting threads.old thread ≡ false }
        requires well_formed { IsWellFormedWith threads.old self.old }
        ensures well_formed { IsWellFormedWith threads.new self.new }
        ensures result { result ≡ (lock_row thread address threads.old self.old).result }
        ensures threads { threads.new ≡ (lock_row thread address threads.old self.old).threads }
        ensures mutexes { self.new ≡ (lock_row thread address threads.old self.old).mutexes }
    {
        threads.known_live(thread);
        self.take_or_wait(threads, thread, address)
    }

    /// The row of `lock`.
    fn take_or_wait(&mut self, threads: &mut Threads, thread: ThreadId, address: u32) -> CallResult
        requires live { is_live threads.old thread ≡ true }
        requires free { is_waiting threads.old thread ≡ false }
        requires few { used_count threads.old self.old ≤ 256 }
        ensures result { result ≡ (lock_row thread address threads.old self.old).result }
        ensures threads { threads.new ≡ (lock_row thread address threads.old self.old).threads }
        ensures mutexes { self.new ≡ (lock_row thread address threads.old self.old).mutexes }
    {
        threads.known_live(thread);
        let mutex = self.mutex(address);
        if mutex.is_available_to(thread) {
            return self.take(threads, mutex, thread, address);
        }
        if mutex.finds_deadlock_of(thread) {
            return CallResult::Done(EDEADLK);
        }
        threads.block(thread, Reason::Lock(address), None);
        CallResult::Blocked
    }

    /// Locks a mutex, or waits for it until a moment at the latest (POSIX.1-2017, pthread_mutex_timedlock). As `lock`;
    /// where that would wait, EINVAL where the moment is 2^63 or above, then ETIMEDOUT where the clock has reached it.
    /// Moment and clock are in ticks.
    pub fn timedlock(
        &mut self,
        threads: &mut Threads,
        thread: ThreadId,
        address: u32,
        moment: u64,
        clock: u64,
    ) -> CallResult
        requires live { is_live threads.old thread ≡ true }
        requires free { is_waiting threads.old thread ≡ false }
        requires well_formed { IsWellFormedWith threads.old self.old }
        ensures well_formed { IsWellFormedWith threads.new self.new }
        ensures result { result
            ≡ (timedlock_row thread address moment clock threads.old self.old).result }
        ensures threads { threads.new
            ≡ (timedlock_row thread address moment clock threads.old self.old).threads }
        ensures mutexes { self.new
            ≡ (timedlock_row thread address moment clock threads.old self.old).mutexes }
    {
        threads.known_live(thread);
        self.take_or_wait_until(threads, thread, address, moment, clock)
    }

    /// The row of `timedlock`.
    fn take_or_wait_until(
        &mut self,
        threads: &mut Threads,
        thread: ThreadId,
        address: u32,
        moment: u64,
        clock: u64,
    ) -> CallResult
        requires live { is_live threads.old thread ≡ true }
        requires free { is_waiting threads.old thread ≡ false }
        requires few { used_count threads.old self.old ≤ 256 }
        ensures result { result
            ≡ (timedlock_row thread address moment clock threads.old self.old).result }
        ensures threads { threads.new
            ≡ (timedlock_row thread address moment clock threads.old self.old).threads }
        ensures mutexes { self.new
            ≡ (timedlock_row thread address moment clock threads.old self.old).mutexes }
    {
        threads.known_live(thread);
        let mutex = self.mutex(address);
        if mutex.is_available_to(thread) {
            return self.take(threads, mutex, thread, address);
        }
        if mutex.finds_deadlock_of(thread) {
            return CallResult::Done(EDEADLK);
        }
        if moment >= MOMENT_END {
            return CallResult::Done(EINVAL);
        }
        if moment <= clock {
            return CallResult::Done(ETIMEDOUT);
        }
        threads.block(thread, Reason::Lock(address), Some(moment));
        CallResult::Blocked
    }

    /// Locks a mutex where that needs no wait (POSIX.1-2017, pthread_mutex_trylock). EAGAIN as `lock`; EBUSY where it
    /// is owned, unless it is recursive and the thread's own; else 0.
    pub fn trylock(&mut self, threads: &Threads, thread: ThreadId, address: u32) -> CallResult
        requires live { is_live threads.now thread ≡ true }
        requires free { is_waiting threads.now thread ≡ false }
        requires well_formed { IsWellFormedWith threads.now self.old }
        ensures well_formed { IsWellFormedWith threads.now self.new }
        ensures result { result ≡ (trylock_row thread address threads.now self.old).result }
        ensures threads { threads.now ≡ (trylock_row thread address threads.now self.old).threads }
        ensures mutexes { self.new ≡ (trylock_row thread address threads.now self.old).mutexes }
    {
        threads.known_live(thread);
        self.take_or_refuse(threads, thread, address)
    }

    /// The row of `trylock`.
    fn take_or_refuse(&mut self, threads: &Threads, thread: ThreadId, address: u32) -> CallResult
        requires live { is_live threads.now thread ≡ true }
        requires few { used_count threads.now self.old ≤ 256 }
        ensures result { result ≡ (trylock_row thread address threads.now self.old).result }
        ensures threads { threads.now ≡ (trylock_row thread address threads.now self.old).threads }
        ensures mutexes { self.new ≡ (trylock_row thread address threads.now self.old).mutexes }
    {
        threads.known_live(thread);
        let mutex = self.mutex(address);
        if !mutex.is_available_to(thread) {
            return CallResult::Done(EBUSY);
        }
        self.take(threads, mutex, thread, address)
    }

    /// Unlocks a mutex once (POSIX.1-2017, pthread_mutex_unlock). EPERM where it is not the thread's own; else 0. One
    /// that the thread has locked no more often goes at once to the thread that waits longest for it, whose wait ends; if
    /// that thread was cancelled it goes to its next handler.
    pub fn unlock(&mut self, threads: &mut Threads, thread: ThreadId, address: u32) -> CallResult
        requires live { is_live threads.old thread ≡ true }
        requires well_formed { IsWellFormedWith threads.old self.old }
        ensures well_formed { IsWellFormedWith threads.new self.new }
        ensures result { result ≡ (unlock_row thread address threads.old self.old).result }
        ensures threads { threads.new ≡ (unlock_row thread address threads.old self.old).threads }
        ensures mutexes { self.new ≡ (unlock_row thread address threads.old self.old).mutexes }
    {
        threads.known();
        self.give_up(threads, thread, address)
    }

    /// The row of `unlock`.
    fn give_up(&mut self, threads: &mut Threads, thread: ThreadId, address: u32) -> CallResult
        requires live { is_live threads.old thread ≡ true }
        ensures result { result ≡ (unlock_row thread address threads.old self.old).result }
        ensures threads { threads.new ≡ (unlock_row thread address threads.old self.old).threads }
        ensures mutexes { self.new ≡ (unlock_row thread address threads.old self.old).mutexes }
    {
        threads.known_live(thread);
        self.known();
        let mutex = self.mutex(address);
        if !mutex.is_owned_by(thread) {
            return CallResult::Done(EPERM);
        }
        if mutex.count > 1 {
            self.put(address, Mutex::owned(mutex.kind, thread, mutex.count - 1));
        } else {
            self.hand_over(threads, mutex.kind, address);
        }
        CallResult::Done(0)
    }

    /// The mutex is given up, and the thread that waits longest for it has it at once.
    fn hand_over(&mut self, threads: &mut Threads, kind: Kind, address: u32)
        requires { has_room 256 address self.old ≡ true }
        ensures threads { threads.new ≡ (released kind address threads.old self.old).threads }
        ensures mutexes { self.new ≡ (released kind address threads.old self.old).mutexes }
    {
        let Some(waiter) = threads.wake_first(Object::Mutex(address)) else {
            self.put(address, Mutex::free(kind));
            return;
        };
        self.put(address, Mutex::owned(kind, waiter.thread, 1));
        threads.answer(waiter.thread, waiter.result());
    }

    /// Locks a mutex again for a thread whose wait at a condition has just been taken away, with the result that the
    /// wait is to end with (POSIX.1-2017, pthread_cond_wait). Where the mutex is available the thread has it, and the
    /// result in x10; else it waits at the end of the mutex's queue. A cancelled thread, which unwinds, goes to its next
    /// handler in place of the result.
    pub fn retake(
        &mut self,
        threads: &mut Threads,
        thread: ThreadId,
        address: u32,
        outcome: RetakeResult,
    ) -> CallResult
        requires live { is_live threads.old thread ≡ true }
        requires free { is_waiting threads.old thread ≡ false }
        requires unwinding { may_unwind thread (Retake address outcome) threads.old ≡ true }
        requires well_formed { IsWellFormedWith threads.old self.old }
        requires room { is_full address threads.old self.old ≡ false }
        requires count { can_retake thread (mutex_at address self.old) ≡ true }
        ensures well_formed { IsWellFormedWith threads.new self.new }
        ensures result { result ≡ (retake_row thread address outcome threads.old self.old).result }
        ensures threads { threads.new
            ≡ (retake_row thread address outcome threads.old self.old).threads }
        ensures mutexes { self.new
            ≡ (retake_row thread address outcome threads.old self.old).mutexes }
    {
        threads.known_live(thread);
        self.take_again(threads, thread, address, outcome)
    }

    /// The row of `retake`.
    fn take_again(
        &mut self,
        threads: &mut Threads,
        thread: ThreadId,
        address: u32,
        outcome: RetakeResult,
    ) -> CallResult
        requires live { is_live threads.old thread ≡ true }
        requires free { is_waiting threads.old thread ≡ false }
        requires unwinding { may_unwind thread (Retake address outcome) threads.old ≡ true }
        requires few { used_count threads.old self.old ≤ 256 }
        requires room { is_full address threads.old self.old ≡ false }
        requires count { can_retake thread (mutex_at address self.old) ≡ true }
        ensures result { result ≡ (retake_row thread address outcome threads.old self.old).result }
        ensures threads { threads.new
            ≡ (retake_row thread address outcome threads.old self.old).threads }
        ensures mutexes { self.new
            ≡ (retake_row thread address outcome threads.old self.old).mutexes }
    {
        threads.known_live(thread);
        self.known();
        let left = self.mutex(address);
        if left.is_available_to(thread) {
            self.put(address, Mutex::owned(left.kind, thread, left.count + 1));
            threads.answer(thread, outcome.code());
            return answer_of(outcome);
        }
        threads.block(thread, Reason::Retake(address, outcome), None);
        CallResult::Blocked
    }
}
