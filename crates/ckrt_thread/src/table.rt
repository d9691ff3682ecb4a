//! The table of threads.
ghost use Rattle.std.specs.Prelude.{◌≡◌, ℕ, ◌+◌, ◌≤◌, ◌<◌, ◌%◌, length, slice_get, IfSome, IfOk, option_map, true, false, Some, None, is_some, []};
ghost use Rattle.std.specs.List.{find};
ghost use Rattle.std.specs.Option.{option_flatten, option_copied};
ghost use Rattle.ckrt_thread.specs.Abi.{A0, A1};
ghost use Rattle.ckrt_thread.specs.State.{IsWellFormed, thread_of, is_live, is_live_thread, is_any_live, is_initial, is_detached, is_joinable, regs_of, is_waiting, is_ready, first_waiter, first_unwaited, of_wait, of_waiter, is_joined, free_place, places, joiners, unwind_waits, is_aligned, is_proper_live, is_proper_slot, fresh, with_thread_regs, set_word, change_thread, with_slot, off_hart, placed_on, may_wait, blocked, unwaited, woken, all_woken};
ghost use Rattle.ckrt_thread.specs.Cancellation.{cancellation_of, handlers_of, is_unwinding, is_consistent, is_aligned_handler, popping};
ghost use Rattle.ckrt_thread.specs.Unwinding.{newest_handler, pushed, popped, entered, next_handler, with_cancellation_of};
ghost use Rattle.ckrt_thread.specs.Deadlines.{earliest_due};
ghost use Rattle.ckrt_thread.specs.Granting.{queue_of, answered};
ghost use Rattle.ckrt_thread.specs.Waits.{is_of};
ghost use Rattle.ckrt_thread.specs.Queues.{named_at_most};
ghost use Rattle.ckrt_thread.specs.Contents.{empty};
ghost use Rattle.ckrt_thread.specs.Keys.{HasValuesOf};
ghost use Rattle.ckrt_thread.specs.declared.records.Thread.TheVariants as slots;
ghost use Rattle.ckrt_thread.specs.Rows.{create_row, join_row, detach_row, detached, finished};

use crate::abi::{A0, A1, UNWIND_GATE};
use crate::deadlines::earliest_due;
use crate::errors::{EAGAIN, EDEADLK, EINVAL, ESRCH};
use crate::harts::{harts_any, take_off};
use crate::keys::Keys;
use crate::records::{
    CallResult, Cancellation, Handler, Live, MAX_HANDLERS, MAX_HARTS, MAX_THREADS, Object, Reason,
    Thread, ThreadId, Wait, Waiter,
};
use crate::slots::{Slots, any_live, first_thread, free_slot, new_thread};
use crate::wait_list::WaitList;
use arrayvec::ArrayVec;
use ckrt_registers::Regs;
use std::alloc::{AllocError, Global};
use std::marker::Model;

/// The threads of a program by number, the list of waits in order of the start of waiting, and which thread is on which hart.
/// Only `new` takes memory.
#[derive(Drop)]
pub struct Threads {
    pub(crate) slots: Slots,
    waits: WaitList,
    harts: [Option<ThreadId>; MAX_HARTS],
    hart_count: usize,
    pub(crate) keys: Keys,
}

impl Model for Threads {
    ghost use Rattle.ckrt_thread.specs.State.{State, IsWellFormed};

    ghost Value = { State };

    ghost view = { λ a.
        record {
          threads = a.slots;
          waits = a.waits;
          harts = a.harts;
          hart_count = a.hart_count;
          keys = a.keys;
        } };

    ghost invariant = { λ a.
        IsWellFormed (record {
          threads = a.slots;
          waits = a.waits;
          harts = a.harts;
          hart_count = a.hart_count;
          keys = a.keys;
        }) };
}

impl Threads {
    /// The threads of a program that begins: thread 1 alone, ready, with its stack pointer at `stack`, on `harts` idle
    /// harts, at most 8. It may have keys, and has none yet.
    pub fn new(alloc: Global, stack: u32, harts: usize) -> Result<Self, AllocError>
        requires { harts ≤ 8 }
        ensures { IfOk result (λ threads. threads ≡ fresh stack harts) }
    {
        let mut threads = Threads::empty(alloc, harts, Keys::new())?;
        threads.set_slot(1, Some(first_thread(stack)));
        Ok(threads)
    }

    /// These keys, no thread, no wait, and `harts` idle harts, at most 8: what `append_thread`, `append_wait` and
    /// `append_on_hart` build on.
    pub fn empty(alloc: Global, harts: usize, keys: Keys) -> Result<Self, AllocError>
        requires { harts ≤ 8 }
        ensures { IfOk result (λ threads. threads ≡ empty keys harts) }
    {
        keys.known();
        Ok(Threads {
            slots: Slots::new(alloc)?,
            waits: WaitList::new(),
            harts: [None; MAX_HARTS],
            hart_count: harts,
            keys,
        })
    }

    /// What always holds of the threads, for a proof.
    pub fn known(&self)
        ensures { IsWellFormed self.now }
    {
        let _ = &self.slots;
    }

    /// That the number of a thread that has not ended is 1 to 64, for a proof.
    pub fn known_live(&self, thread: ThreadId)
        requires { is_live self.now thread ≡ true }
        ensures { (0 < thread) × (thread ≤ 64) }
    {
        let _ = &self.slots;
    }

    // Questions.

    /// How many harts there are.
    pub fn hart_count(&self) -> usize
        ensures { result ≡ self.now.hart_count }
    {
        self.hart_count
    }

    /// What stands for each number from 0 to 64: a thread, or nothing. Nothing stands for 0.
    pub fn slots(&self) -> &[Option<Thread>]
        ensures slots { result.now ≡ self.now.threads }
        ensures size { length result.now ≡ 65 }
    {
        self.slots.as_slice()
    }

    /// What stands for the number: a thread, or nothing.
    pub fn thread(&self, id: u32) -> Option<&Thread>
        ensures thread { option_copied result ≡ thread_of self.now id }
        ensures number { IfSome result (λ _. (0 < id) × (id ≤ 64)) }
    {
        self.slots.get(id as usize)
    }

    /// A thread that has not ended.
    pub fn live(&self, thread: ThreadId) -> &Live
        requires { is_live self.now thread ≡ true }
        ensures thread { thread_of self.now thread ≡ Some (slots.Live result.now) }
        ensures aligned { is_aligned result.now.regs ≡ true }
        ensures proper { is_proper_live result.now ≡ true }
    {
        let Some(Thread::Live(live)) = self.slots.get(thread as usize) else {
            unreachable!()
        };
        live
    }

    /// The registers of a thread that has not ended.
    pub fn regs(&self, thread: ThreadId) -> Option<Regs>
        ensures regs { result ≡ regs_of (thread_of self.now thread) }
        ensures aligned { IfSome result (λ regs. is_aligned regs ≡ true) }
    {
        match self.slots.get(thread as usize) {
            Some(Thread::Live(live)) => Some(live.regs),
            _ => None,
        }
    }

    /// Whether there is such a thread, and it has not ended.
    fn is_live(&self, thread: ThreadId) -> bool
        ensures { result ≡ is_live self.now thread }
    {
        matches!(self.slots.get(thread as usize), Some(Thread::Live(_)))
    }

    /// Whether the thread has not ended and is not detached.
    pub(crate) fn is_joinable(&self, thread: ThreadId) -> bool
        ensures { result ≡ is_joinable (thread_of self.now thread) }
    {
        self.is_live(thread) && !self.is_detached(thread)
    }

    /// Whether the thread unwinds.
    pub(crate) fn is_unwinding(&self, thread: ThreadId) -> bool
        ensures { result ≡ is_unwinding (thread_of self.now thread) }
    {
        match self.slots.get(thread as usize) {
            Some(Thread::Live(live)) => live.cancellation.unwinding.is_some(),
            _ => false,
        }
    }

    /// Whether the thread is detached.
    fn is_detached(&self, thread: ThreadId) -> bool
        ensures { result ≡ is_detached (thread_of self.now thread) }
    {
        match self.slots.get(thread as usize) {
            Some(Thread::Live(live)) => live.detached,
            _ => false,
        }
    }

    /// How far a thread that has not ended can be cancelled, and whether it is.
    pub fn cancellation(&self, thread: ThreadId) -> Cancellation
        requires { is_live self.now thread ≡ true }
        ensures cancellation { result ≡ cancellation_of (thread_of self.now thread) }
        ensures consistent { is_consistent result ≡ true }
    {
        self.live(thread).cancellation
    }

    /// How many clean-up handlers a thread that has not ended has.
    pub fn handler_count(&self, thread: ThreadId) -> usize
        requires { is_live self.now thread ≡ true }
        ensures count { result ≡ length (handlers_of (thread_of self.now thread)) }
        ensures few { result ≤ MAX_HANDLERS }
    {
        self.live(thread).handlers.len()
    }

    /// The newest clean-up handler of a thread that has not ended.
    #[tactic(auto, using(crate::proofs::Changes::aligned_newest))]
    fn newest_handler(&self, thread: ThreadId) -> Option<Handler>
        requires { is_live self.now thread ≡ true }
        ensures newest { result ≡ newest_handler thread self.now }
        ensures aligned { IfSome result (λ h. is_aligned_handler h ≡ true) }
    {
        self.live(thread).handlers.as_slice().last().copied()
    }

    /// Whether some thread has not ended.
    pub fn is_any_live(&self) -> bool
        ensures { result ≡ is_any_live self.now }
    {
        any_live(self.slots.as_slice())
    }

    /// Whether the thread has not ended, does not wait, and is on no hart.
    pub fn is_ready(&self, thread: ThreadId) -> bool
        ensures { result ≡ is_ready self.now thread }
    {
        !self.waits.is_waiting(thread)
            && self.is_live(thread)
            && !harts_any(self.harts.as_slice(), thread)
    }

    /// The thread on the hart. That thread has not ended and does not wait.
    pub fn on_hart(&self, hart: usize) -> Option<ThreadId>
        ensures on { result ≡ option_flatten (slice_get self.now.harts hart) }
        ensures ready { IfSome result
            (λ t. (is_live self.now t ≡ true) × (is_waiting self.now t ≡ false)) }
    {
        self.known();
        self.who_on(hart)
    }

    /// The thread on the hart.
    fn who_on(&self, hart: usize) -> Option<ThreadId>
        ensures { result ≡ option_flatten (slice_get self.now.harts hart) }
    {
        self.harts.get(hart).copied().flatten()
    }

    /// How many waits there are.
    pub fn wait_count(&self) -> usize
        ensures count { result ≡ length self.now.waits }
        ensures few { result ≤ 64 }
    {
        self.waits.len()
    }

    /// The waits in order of the start of waiting, put together from the table.
    pub fn waits(&self) -> ArrayVec<Wait, MAX_THREADS>
        ensures { result.items ≡ self.now.waits }
    {
        self.waits.in_order()
    }

    /// The wait of a thread, if it waits.
    pub fn wait_of(&self, thread: ThreadId) -> Option<Wait>
        ensures { result ≡ find (is_of thread) self.now.waits }
    {
        self.waits.wait_of(thread)
    }

    /// The wait that has waited longest for the object.
    #[tactic(auto, using(crate::proofs::WaitLemmas::found_waits))]
    pub fn first_waiter(&self, object: Object) -> Option<Wait>
        ensures first { result ≡ first_waiter object self.now }
        ensures waiting { IfSome result (λ w. is_waiting self.now w.thread ≡ true) }
        ensures thread { IfSome result (λ w. (0 < w.thread) × (w.thread ≤ 64)) }
    {
        self.waits.first_for(object)
    }

    /// How many wait for the object.
    pub fn waiter_count(&self, object: Object) -> usize
        ensures count { result ≡ length (queue_of object self.now) }
        ensures few { result ≤ 64 }
    {
        self.waits.count_for(object)
    }

    /// At most that many objects of one kind are named by the waits: how many wait at conditions, and how many other
    /// objects are waited for. It goes over the queues alone.
    pub fn named_at_most(&self) -> usize
        ensures count { result ≡ named_at_most self.now.waits }
        ensures few { result ≤ 64 }
    {
        self.waits.named_at_most()
    }

    /// The due wait that ends first at this moment: by deadline, then by thread.
    pub fn earliest_due(&self, now: u64) -> Option<Wait>
        ensures first { result ≡ earliest_due now self.now.waits }
        ensures found { IfSome result (λ w.
            (find (is_of w.thread) self.now.waits ≡ Some w)
            × (is_live self.now w.thread ≡ true)) }
    {
        earliest_due(self.waits.in_order().as_slice(), now)
    }

    /// Whether a thread joins this one.
    pub(crate) fn is_joined(&self, thread: ThreadId) -> bool
        ensures { result ≡ is_joined thread self.now }
    {
        self.first_waiter(Object::End(thread)).is_some()
    }

    // Changes that the calls and the objects are made of.

    /// The registers of a thread that has not ended become these.
    pub fn set_regs(&mut self, thread: ThreadId, regs: &Regs)
        requires live { is_live self.old thread ≡ true }
        requires aligned { is_aligned regs.now ≡ true }
        ensures { self.new ≡ with_thread_regs thread regs.now self.old }
    {
        self.slots.set_regs(thread, regs);
    }

    /// A value goes to a register of a thread. One that has ended keeps what it is.
    fn set_word(&mut self, thread: ThreadId, register: u8, value: u32)
        requires thread { thread ≤ 64 }
        requires register { register < 32 }
        ensures { self.new ≡ set_word thread register value self.old }
    {
        self.slots.set_word(thread, register, value);
    }

    /// A result goes to x10 of a thread. One that has ended keeps what it is.
    pub fn set_result(&mut self, thread: ThreadId, value: u32)
        requires { thread ≤ 64 }
        ensures { self.new ≡ set_word thread A0 value self.old }
    {
        self.set_word(thread, A0, value);
    }

    /// The second value of a call goes to x11 of a thread. One that has ended keeps what it is.
    pub fn set_second_result(&mut self, thread: ThreadId, value: u32)
        requires { thread ≤ 64 }
        ensures { self.new ≡ set_word thread A1 value self.old }
    {
        self.set_word(thread, A1, value);
    }

    /// A thread that is ready goes onto a hart. The thread that was there goes off, and stays ready.
    pub fn place(&mut self, hart: usize, thread: ThreadId)
        requires hart { hart < self.old.hart_count }
        requires ready { is_ready self.old thread ≡ true }
        ensures { self.new ≡ placed_on hart thread self.old }
    {
        let _ = &self.slots;
        self.harts[hart] = Some(thread);
    }

    /// The thread is on no hart.
    fn leave(&mut self, thread: ThreadId)
        ensures { self.new ≡ off_hart thread self.old }
    {
        take_off(&mut self.harts, thread);
    }

    /// The thread waits from now on, after all others, and is off its hart.
    pub fn block(&mut self, thread: ThreadId, reason: Reason, deadline: Option<u64>)
        requires live { is_live self.old thread ≡ true }
        requires free { is_waiting self.old thread ≡ false }
        requires allowed { may_wait thread reason deadline self.old ≡ true }
        ensures { self.new ≡ blocked thread reason deadline self.old }
    {
        let wait = Wait {
            thread,
            reason,
            deadline,
        };
        self.waits.push(wait);
        take_off(&mut self.harts, wait.thread);
    }

    /// The thread's wait ends, and it gets this result in x10.
    pub fn wake(&mut self, thread: ThreadId, value: u32)
        requires { is_waiting self.old thread ≡ true }
        ensures { self.new ≡ woken thread value self.old }
    {
        self.known();
        self.take_wait(thread);
        self.set_result(thread, value);
    }

    /// All who wait for the object get this result in x10, in order of the start of waiting, and their waits end.
    #[tactic(auto, using(crate::proofs::Waking::none_woken, crate::proofs::Waking::no_first, crate::proofs::Grants::empty_queue))]
    pub fn wake_all(&mut self, object: Object, value: u32)
        ensures woken { self.new ≡ all_woken value (queue_of object self.old) self.old }
        ensures queue { queue_of object self.new ≡ [] }
    {
        self.known();
        while let Some(waiter) = self.wake_first(object) {
            self.set_result(waiter.thread, value);
            self.known();
        }
    }

    /// The wait that has waited longest for the object ends, and x10 stays. None where nobody waits for it, and then
    /// nothing changes.
    #[tactic(auto, using(crate::proofs::WaitLemmas::found_waits))]
    pub fn wake_first(&mut self, object: Object) -> Option<Waiter>
        ensures first { option_map of_waiter result
            ≡ option_map of_wait (first_waiter object self.old) }
        ensures waiting { IfSome result (λ w. is_waiting self.old w.thread ≡ true) }
        ensures thread { IfSome result (λ w. (0 < w.thread) × (w.thread ≤ 64)) }
        ensures ready { IfSome result
            (λ w. (is_live self.new w.thread ≡ true) × (is_waiting self.new w.thread ≡ false)) }
        ensures threads { self.new ≡ first_unwaited object self.old }
    {
        self.known();
        let (wait, reached) = self.waits.take_first(object)?;
        Some(Waiter {
            thread: wait.thread,
            reason: wait.reason,
            reached,
        })
    }

    /// The thread's wait ends, if it waits, and x10 stays.
    pub fn take_wait(&mut self, thread: ThreadId)
        ensures { self.new ≡ unwaited thread self.old }
    {
        self.waits.take_out(thread);
    }

    /// The number, at which nobody waits or is on a hart and which nobody joins, stands for this from now on.
    pub(crate) fn set_slot(&mut self, id: ThreadId, slot: Option<Thread>)
        requires number { (0 < id) × (id ≤ 64) }
        requires free { places self.old id ≡ 0 }
        requires unjoined { joiners self.old id ≡ 0 }
        requires initial { (t : ℕ) → is_initial slot ≡ true
            → is_initial (thread_of self.old t) ≡ true → id ≡ t }
        requires proper { is_proper_slot slot ≡ true }
        requires values { HasValuesOf self.old.keys slot }
        ensures { self.new ≡ with_slot id slot self.old }
    {
        self.slots.set(id, slot);
    }

    /// A thread that has not ended, and that nobody joins, is detached from now on.
    fn set_detached(&mut self, thread: ThreadId)
        requires live { is_live self.old thread ≡ true }
        requires unjoined { joiners self.old thread ≡ 0 }
        ensures { self.new
            ≡ record self.old { threads = change_thread detached thread self.old.threads } }
    {
        self.slots.detach(thread);
    }

    // Cancellation and clean-up handlers.

    /// How far a thread that has not ended can be cancelled, and whether it is, from now on. A thread that unwinds goes on
    /// unwinding.
    pub fn set_cancellation(&mut self, thread: ThreadId, cancellation: &Cancellation)
        requires live { is_live self.old thread ≡ true }
        requires consistent { is_consistent cancellation.now ≡ true }
        requires unwinding { is_unwinding (thread_of self.old thread) ≡ true
            → is_some cancellation.now.unwinding ≡ true }
        ensures { self.new ≡ with_cancellation_of thread cancellation.now self.old }
    {
        self.slots.set_cancellation(thread, cancellation);
    }

    /// A thread that has not ended has one clean-up handler more, the newest. It must have room for it: fewer than
    /// [`MAX_HANDLERS`].
    pub fn push_handler(&mut self, thread: ThreadId, handler: Handler)
        requires live { is_live self.old thread ≡ true }
        requires aligned { is_aligned_handler handler ≡ true }
        requires room { length (handlers_of (thread_of self.old thread)) < MAX_HANDLERS }
        ensures { self.new ≡ pushed handler thread self.old }
    {
        self.slots.push_handler(thread, handler);
    }

    /// The newest clean-up handler of a thread that has not ended, which it has no more, if it has one.
    pub fn pop_handler(&mut self, thread: ThreadId) -> Option<Handler>
        requires { is_live self.old thread ≡ true }
        ensures handler { result ≡ newest_handler thread self.old }
        ensures aligned { IfSome result (λ h. is_aligned_handler h ≡ true) }
        ensures threads { self.new ≡ popped result thread self.old }
    {
        let newest = self.newest_handler(thread);
        if newest.is_some() {
            self.drop_newest(thread);
        }
        newest
    }

    /// A thread that has not ended has its newest clean-up handler no more.
    fn drop_newest(&mut self, thread: ThreadId)
        requires { is_live self.old thread ≡ true }
        ensures { self.new
            ≡ record self.old { threads = change_thread popping thread self.old.threads } }
    {
        self.slots.pop_handler(thread);
    }

    /// A thread that has not ended goes to the routine of a handler, with the handler's argument in x10. The routine
    /// returns to the address `back`.
    pub fn enter(&mut self, thread: ThreadId, handler: Handler, back: u32)
        requires live { is_live self.old thread ≡ true }
        requires aligned { is_aligned_handler handler ≡ true }
        ensures { self.new ≡ entered back handler thread self.old }
    {
        self.slots.enter(thread, handler, back);
    }

    /// A thread that unwinds, and does not wait, goes to its newest clean-up handler, which it has no more. With none
    /// left it goes to the destructors of its values, and then it ends with the value that it unwinds with.
    pub fn next_handler(&mut self, thread: ThreadId)
        requires live { is_live self.old thread ≡ true }
        requires free { is_waiting self.old thread ≡ false }
        ensures { self.new ≡ next_handler thread self.old }
    {
        match self.pop_handler(thread) {
            Some(handler) => self.enter(thread, handler, UNWIND_GATE),
            None => self.next_destructor(thread),
        }
    }

    /// A thread, which does not wait, gets this result in x10; where there is none it goes to its next handler, as
    /// [`next_handler`](Threads::next_handler).
    pub fn answer(&mut self, thread: ThreadId, value: Option<u32>)
        requires live { is_live self.old thread ≡ true }
        requires free { is_waiting self.old thread ≡ false }
        ensures { self.new ≡ answered value thread self.old }
    {
        self.known_live(thread);
        match value {
            Some(value) => self.set_result(thread, value),
            None => self.next_handler(thread),
        }
    }

    // Calls.

    /// The least free number, less 1.
    fn free_place(&self) -> Option<usize>
        ensures place { result ≡ free_place self.now }
        ensures number { IfSome result (λ i. i < 64) }
        ensures free { IfSome result (λ i. places self.now (i + 1) ≡ 0) }
        ensures unjoined { IfSome result (λ i. joiners self.now (i + 1) ≡ 0) }
    {
        free_slot(self.slots.as_slice())
    }

    /// `pthread_create`: a thread with the least free number, which goes to x11 of the caller. It begins at `start`
    /// with `arg` in x10 and its stack pointer at `stack`. `EINVAL` where `start` is no multiple of 4 or `detached`
    /// neither 0 nor 1, then `EAGAIN` where no number is free.
    pub fn create(
        &mut self,
        by: ThreadId,
        start: u32,
        arg: u32,
        stack: u32,
        detached: u32,
    ) -> CallResult
        requires { is_live self.old by ≡ true }
        ensures result { result ≡ (create_row by start arg stack detached self.old).result }
        ensures threads { self.new ≡ (create_row by start arg stack detached self.old).threads }
    {
        if start % 4 != 0 || detached > 1 {
            return CallResult::Done(EINVAL);
        }
        let Some(place) = self.free_place() else {
            return CallResult::Done(EAGAIN);
        };
        self.known_live(by);
        let id = place as ThreadId + 1;
        self.set_slot(id, Some(new_thread(start, arg, stack, detached == 1)));
        self.set_second_result(by, id as u32);
        CallResult::Done(0)
    }

    /// `pthread_join`: the thread's value in x11, once it has ended; its number is free then. `EDEADLK` for oneself,
    /// then `ESRCH` where there is no such thread, then `EINVAL` where it is detached or joined already.
    pub fn join(&mut self, by: ThreadId, id: u32) -> CallResult
        requires live { is_live self.old by ≡ true }
        requires free { is_waiting self.old by ≡ false }
        ensures result { result ≡ (join_row by id self.old).result }
        ensures threads { self.new ≡ (join_row by id self.old).threads }
    {
        if id == by as u32 {
            return CallResult::Done(EDEADLK);
        }
        self.known();
        self.known_live(by);
        let Some(thread) = self.thread(id) else {
            return CallResult::Done(ESRCH);
        };
        let number = id as ThreadId;
        match thread {
            Thread::Ended(value) => {
                let value = *value;
                self.set_slot(number, None);
                self.set_second_result(by, value);
                CallResult::Done(0)
            }
            Thread::Live(live) => {
                if live.detached || self.is_joined(number) {
                    return CallResult::Done(EINVAL);
                }
                self.block(by, Reason::Join(number), None);
                CallResult::Blocked
            }
        }
    }

    /// `pthread_detach`: the thread's number is free as soon as it has ended. `ESRCH` where there is no such thread,
    /// then `EINVAL` where it is detached or joined already.
    pub fn detach(&mut self, id: u32) -> CallResult
        ensures result { result ≡ (detach_row id self.old).result }
        ensures threads { self.new ≡ (detach_row id self.old).threads }
    {
        self.known();
        let Some(thread) = self.thread(id) else {
            return CallResult::Done(ESRCH);
        };
        let number = id as ThreadId;
        match thread {
            Thread::Ended(_value) => {
                self.set_slot(number, None);
                CallResult::Done(0)
            }
            Thread::Live(live) => {
                if live.detached || self.is_joined(number) {
                    return CallResult::Done(EINVAL);
                }
                self.set_detached(number);
                CallResult::Done(0)
            }
        }
    }

    /// `pthread_exit`: the thread, which does not wait, ends with a value and is off its hart. A thread that joins it gets 0 and
    /// the value in x11; its number is free then, and where it is detached.
    pub fn finish(&mut self, thread: ThreadId, value: u32)
        requires live { is_live self.old thread ≡ true }
        requires free { is_waiting self.old thread ≡ false }
        ensures { self.new ≡ finished thread value self.old }
    {
        self.known_live(thread);
        self.leave(thread);
        self.known();
        match self.first_waiter(Object::End(thread)) {
            Some(wait) => {
                self.wake(wait.thread, 0);
                self.set_second_result(wait.thread, value);
                self.set_slot(thread, None);
            }
            None => {
                let left = if self.is_detached(thread) {
                    None
                } else {
                    Some(Thread::Ended(value))
                };
                self.set_slot(thread, left);
            }
        }
    }
}
