//! The table row by row, as it is saved, and a new table that is built so.
ghost use Rattle.std.specs.Prelude.{◌≡◌, ◌<◌, ◌≤◌, ◌↔◌, true, false, length, is_some, is_none, slice_get, option_map, MatchOption, IfSome, Some, None};
ghost use Rattle.std.specs.List.{filter, list_all, list_any};
ghost use Rattle.ckrt_thread.specs.Cancellation.{is_aligned_handler};
ghost use Rattle.ckrt_thread.specs.State.{IsWellFormed, is_initial, is_proper_live, is_proper_slot, may_join, may_unwind, may_wait};
ghost use Rattle.ckrt_thread.specs.Waits.{is_deadline_of, is_moment_or_none};
ghost use Rattle.ckrt_thread.specs.Contents.{thread_rows, row_at, row, rows_from, thread_appended, wait_appended, hart_appended, GoesOnWithThread, GoesOnWithWait, GoesOnWithHart, is_next_id, is_sole_initial, takes_thread, takes_wait, takes_on_hart};

use crate::records::{
    Handler, Live, MAX_THREADS, MOMENT_END, Reason, RetakeResult, Thread, ThreadId, Wait,
};
use crate::table::Threads;
use crate::values::are_of_keys;

// Rows.

/// How many slots have a thread.
fn count_of(slots: &[Option<Thread>]) -> usize
    ensures { result ≡ length (filter is_some slots.now) }
{
    slots.iter().filter(|slot| slot.is_some()).count()
}

/// The number of the thread at a place among those that there are, from 0.
#[tactic(auto, using(crate::proofs::ThreadRows::rows_at))]
fn id_at(slots: &[Option<Thread>], place: usize) -> Option<usize>
    ensures id { result ≡ option_map (λ r. r.id) (slice_get (rows_from 0 slots.now) place) }
    ensures within { IfSome result (λ id. id < length slots.now) }
{
    let mut left = place;
    for (id, slot) in slots.iter().enumerate() {
        if slot.is_some() {
            if left == 0 {
                return Some(id);
            }
            left -= 1;
        }
    }
    None
}

impl Threads {
    /// How many threads there are, with those that have ended and that nobody has joined.
    #[tactic(auto, using(crate::proofs::ThreadRows::length_rows, crate::proofs::ThreadRows::few_threads))]
    pub fn thread_count(&self) -> usize
        ensures count { result ≡ length (thread_rows self.now) }
        ensures few { result ≤ 64 }
    {
        self.known();
        count_of(self.slots())
    }

    /// The thread at a place, from 0 by rising number, with its number.
    #[tactic(auto, using(crate::proofs::ThreadRows::row_there, crate::proofs::ThreadRows::none_there))]
    pub fn thread_at(&self, place: usize) -> Option<(ThreadId, &Thread)>
        ensures { option_map (λ r. row r.0 r.1.now) result ≡ row_at place self.now }
    {
        let id = id_at(self.slots(), place)?;
        let thread = self.thread(id as u32)?;
        Some((id as ThreadId, thread))
    }

    /// The wait at a place, from 0 in order of the start of waiting.
    pub fn wait_at(&self, place: usize) -> Option<Wait>
        ensures { result ≡ slice_get self.now.waits place }
    {
        self.waits().get(place).copied()
    }

    /// A thread goes after those that there are. False, and nothing changes, where no well-formed table goes on so: its
    /// number is to be 1 to 64 and above theirs, its pc and its handlers' routines multiples of 4, it is disabled and
    /// deferred where it unwinds, in a round of destructors only there (of at most 4, which goes on with a key or is over),
    /// with values only under keys that there are, and at most one thread is the initial one.
    pub fn append_thread(&mut self, id: ThreadId, thread: Thread) -> bool
        ensures exact { (result ≡ true) ↔ GoesOnWithThread (row id thread) self.old }
        ensures appended { result ≡ true → self.new ≡ thread_appended (row id thread) self.old }
        ensures refused { result ≡ false → self.new ≡ self.old }
    {
        self.known();
        if !self.takes_thread(id, &thread) {
            return false;
        }
        self.set_slot(id, Some(thread));
        true
    }

    /// A wait goes after those that there are. False, and nothing changes, where no well-formed table goes on so: who
    /// waits is to have not ended, to wait nowhere else and to be on no hart; a deadline is to be there where the wait
    /// has one, below 2^63; who is joined is to be another that has not ended, is not detached and is not joined yet;
    /// and who is to unwind is to unwind.
    #[tactic(auto, using(crate::proofs::Taking::blocked_taken))]
    pub fn append_wait(&mut self, wait: Wait) -> bool
        ensures exact { (result ≡ true) ↔ GoesOnWithWait wait self.old }
        ensures appended { result ≡ true → self.new ≡ wait_appended wait self.old }
        ensures refused { result ≡ false → self.new ≡ self.old }
    {
        self.known();
        if !self.takes_wait(&wait) {
            return false;
        }
        self.block(wait.thread, wait.reason, wait.deadline);
        true
    }

    /// A thread goes onto an idle hart. False, and nothing changes, where no well-formed table has it there: there is to
    /// be such a hart, idle yet, and the thread is to have not ended, not to wait and to be on no hart.
    pub fn append_on_hart(&mut self, hart: usize, thread: ThreadId) -> bool
        ensures exact { (result ≡ true) ↔ GoesOnWithHart hart thread self.old }
        ensures appended { result ≡ true → self.new ≡ hart_appended hart thread self.old }
        ensures refused { result ≡ false → self.new ≡ self.old }
    {
        self.known();
        if !self.takes_on_hart(hart, thread) {
            return false;
        }
        self.place(hart, thread);
        true
    }

    // The tests of a row.

    /// Whether a well-formed table goes on with this thread.
    fn takes_thread(&self, id: ThreadId, thread: &Thread) -> bool
        ensures { result ≡ takes_thread (row id thread.now) self.now }
    {
        let slots = self.slots();
        is_next_id(slots, id)
            && is_proper(thread)
            && is_sole_initial(thread, slots)
            && are_of_keys(self.keys(), thread)
    }

    /// Whether a well-formed table goes on with this wait.
    fn takes_wait(&self, wait: &Wait) -> bool
        ensures { result ≡ takes_wait wait.now self.now }
    {
        self.is_ready(wait.thread) && self.may_wait(wait)
    }

    /// Whether a well-formed table has this thread on a hart that is idle yet.
    fn takes_on_hart(&self, hart: usize, thread: ThreadId) -> bool
        ensures { result ≡ takes_on_hart hart thread self.now }
    {
        hart < self.hart_count() && self.on_hart(hart).is_none() && self.is_ready(thread)
    }

    /// Whether a thread may wait so.
    fn may_wait(&self, wait: &Wait) -> bool
        ensures { result ≡ may_wait wait.now.thread wait.now.reason wait.now.deadline self.now }
    {
        is_deadline_of(wait.reason, wait.deadline)
            && self.may_join(wait.thread, wait.reason)
            && self.may_unwind(wait.thread, wait.reason)
    }

    /// Whether the thread may wait for this, as far as it is another's end.
    fn may_join(&self, thread: ThreadId, reason: Reason) -> bool
        ensures { result ≡ may_join thread reason self.now }
    {
        match reason {
            Reason::Join(target) => {
                thread != target && self.is_joinable(target) && !self.is_joined(target)
            }
            _ => true,
        }
    }

    /// Whether the thread may wait for this, as far as it is to unwind then.
    fn may_unwind(&self, thread: ThreadId, reason: Reason) -> bool
        ensures { result ≡ may_unwind thread reason self.now }
    {
        match reason {
            Reason::Retake(_, RetakeResult::Unwind) => self.is_unwinding(thread),
            _ => true,
        }
    }
}

/// Whether no slot has a thread.
fn are_free(slots: &[Option<Thread>]) -> bool
    ensures { result ≡ list_all is_none slots.now }
{
    slots.iter().all(|slot| slot.is_none())
}

/// Whether the number is one that a thread may have, above those of the slots.
fn is_next_id(slots: &[Option<Thread>], id: ThreadId) -> bool
    requires { length slots.now ≡ 65 }
    ensures { result ≡ is_next_id id slots.now }
{
    if id == 0 || id as usize > MAX_THREADS {
        return false;
    }
    let (_, above) = slots.split_at(id as usize);
    are_free(above)
}

/// Whether the handlers' routines are multiples of 4.
fn are_aligned(handlers: &[Handler]) -> bool
    ensures { result ≡ list_all is_aligned_handler handlers.now }
{
    handlers.iter().all(|handler| handler.routine % 4 == 0)
}

/// Whether a thread that has not ended is as each is.
fn is_proper_live(live: &Live) -> bool
    ensures { result ≡ is_proper_live live.now }
{
    live.regs.pc() % 4 == 0
        && are_aligned(live.handlers.as_slice())
        && live.cancellation.is_consistent()
        && live
            .specific
            .is_proper(live.cancellation.unwinding.is_some())
}

/// Whether a thread is as each is.
fn is_proper(thread: &Thread) -> bool
    ensures { result ≡ is_proper_slot (Some thread.now) }
{
    match thread {
        Thread::Ended(_) => true,
        Thread::Live(live) => is_proper_live(live),
    }
}

/// Whether the program began with the thread.
fn is_initial(thread: &Thread) -> bool
    ensures { result ≡ is_initial (Some thread.now) }
{
    match thread {
        Thread::Ended(_) => false,
        Thread::Live(live) => live.initial,
    }
}

/// Whether the slot has the thread with which the program began.
fn is_initial_slot(slot: &Option<Thread>) -> bool
    ensures { result ≡ is_initial slot.now }
{
    match slot {
        Some(thread) => is_initial(thread),
        None => false,
    }
}

/// Whether a slot has the thread with which the program began.
fn is_any_initial(slots: &[Option<Thread>]) -> bool
    ensures { result ≡ list_any is_initial slots.now }
{
    slots.iter().any(|slot| is_initial_slot(slot))
}

/// Whether the thread isn't a second one with which the program began.
fn is_sole_initial(thread: &Thread, slots: &[Option<Thread>]) -> bool
    ensures { result ≡ is_sole_initial (Some thread.now) slots.now }
{
    !(is_initial(thread) && is_any_initial(slots))
}

/// Whether the deadline is a moment, where there is one.
fn is_moment_or_none(deadline: Option<u64>) -> bool
    ensures { result ≡ is_moment_or_none deadline }
{
    match deadline {
        Some(moment) => moment < MOMENT_END,
        None => true,
    }
}

/// Whether a wait for this reason has such a deadline.
fn is_deadline_of(reason: Reason, deadline: Option<u64>) -> bool
    ensures { result ≡ is_deadline_of reason deadline }
{
    match reason {
        Reason::Sleep => deadline.is_some() && is_moment_or_none(deadline),
        Reason::Lock(_) => is_moment_or_none(deadline),
        Reason::Condition(_, _) => is_moment_or_none(deadline),
        _ => deadline.is_none(),
    }
}
