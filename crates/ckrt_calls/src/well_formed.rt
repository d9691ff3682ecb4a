//! The test whether tables are well-formed.
ghost use Rattle.std.specs.Prelude.{◌≡◌, ◌↔◌, true};
ghost use Rattle.std.specs.List.{list_all};
ghost use Rattle.ckrt_thread.specs.State.{is_live};
ghost use Rattle.ckrt_calls.specs.WellFormed.{IsWellFormed, lies_ahead, lacks_input, may_be_read, may_be_its_status};

use crate::input::InputQueue;
use crate::table::{Status, Tables};
use ckrt_cond::are_conditions_well_formed;
use ckrt_thread::{MOMENT_END, Object, Thread, ThreadId, Threads, Wait};

/// Whether the clock has not reached the deadline of a wait, if it has one.
fn lies_ahead(clock: u64, wait: &Wait) -> bool
    ensures { result ≡ lies_ahead clock wait.now }
{
    match wait.deadline {
        Some(deadline) => clock < deadline,
        None => true,
    }
}

/// Whether the clock has reached the deadline of no wait.
fn all_lie_ahead(clock: u64, waits: &[Wait]) -> bool
    ensures { result ≡ list_all (lies_ahead clock) waits.now }
{
    waits.iter().all(|wait| lies_ahead(clock, wait))
}

/// Whether a byte, or the end of the input, is there to be read.
fn may_be_read(input: &InputQueue, closed: bool) -> bool
    ensures { result ≡ may_be_read input.now closed }
{
    closed || input.len() > 0
}

/// Whether who waits for input has nothing to read.
fn all_lack_input(threads: &Threads, input: &InputQueue, closed: bool) -> bool
    ensures { result ≡ list_all (lacks_input input.now closed) threads.now.waits }
{
    !may_be_read(input, closed) || threads.first_waiter(Object::Input).is_none()
}

/// Whether there is such a thread, and it has not ended.
fn is_live(threads: &Threads, thread: ThreadId) -> bool
    ensures { result ≡ is_live threads.now thread }
{
    matches!(threads.thread(u32::from(thread)), Some(Thread::Live(_)))
}

/// Whether a program with these threads, at this moment of its clock, may have this status.
fn may_be_its_status(threads: &Threads, clock: u64, status: Status) -> bool
    ensures { result ≡ may_be_its_status status clock threads.now }
{
    match status {
        Status::Running => threads.is_any_live()
            && all_lie_ahead(clock, threads.waits().as_slice()),
        Status::Exited(_) => true,
        Status::Faulted(thread, pc, _) => pc % 4 == 0 && is_live(threads, thread),
    }
}

impl Tables {
    /// Whether a program may have these tables: each part is well-formed with the threads, the clock is below 2^63, who
    /// waits for input has nothing to read, and the status is one that the threads and the clock allow.
    pub fn is_well_formed(&self) -> bool
        ensures { (result ≡ true) ↔ IsWellFormed self.now }
    {
        self.threads.known();
        self.input.known();
        if !self.mutexes.is_well_formed_with(&self.threads) {
            return false;
        }
        if !are_conditions_well_formed(&self.threads) {
            return false;
        }
        if !self.barriers.is_well_formed_with(&self.threads) {
            return false;
        }
        if !self.rwlocks.is_well_formed_with(&self.threads) {
            return false;
        }
        if self.clock >= MOMENT_END || !all_lack_input(&self.threads, &self.input, self.closed) {
            return false;
        }
        may_be_its_status(&self.threads, self.clock, self.status)
    }
}
