//! Who waits at a condition, and how a wait there ends.
ghost use Rattle.std.specs.Prelude.{◌≡◌, true, drop};
ghost use Rattle.ckrt_thread.specs.declared.records.Reason.TheVariants.{Retake};
ghost use Rattle.ckrt_thread.specs.State.{may_unwind};
ghost use Rattle.ckrt_mutex.specs.WellFormed.{IsWellFormedWith};
ghost use Rattle.ckrt_cond.specs.Rows.{waiters, has_waiters, is_with_other, has_other_mutex, resume_row, signal_row};
ghost use Rattle.ckrt_cond.specs.WellFormed.{IsWellFormed, may_resume};

use ckrt_mutex::Mutexes;
use ckrt_thread::{CallResult, Object, Reason, RetakeResult, ThreadId, Threads};

/// Whether a thread waits at the condition.
pub fn has_waiters(threads: &Threads, condition: u32) -> bool
    ensures { result ≡ has_waiters condition threads.now }
{
    threads.first_waiter(Object::Condition(condition)).is_some()
}

/// Whether who waits for this reason waits at the condition with another mutex.
pub fn is_with_other(reason: Reason, condition: u32, mutex: u32) -> bool
    ensures { result ≡ is_with_other condition mutex reason }
{
    match reason {
        Reason::Condition(at, with) => condition == at && mutex != with,
        _ => false,
    }
}

/// Whether a thread waits at the condition with another mutex. As all who wait there name one, the first shows it.
#[tactic(auto, using(crate::proofs::Waits::other_none, crate::proofs::Waits::other_first))]
pub fn has_other_mutex(threads: &Threads, condition: u32, mutex: u32) -> bool
    requires { IsWellFormed threads.now }
    ensures { result ≡ has_other_mutex condition mutex threads.now }
{
    match threads.first_waiter(Object::Condition(condition)) {
        Some(first) => is_with_other(first.reason, condition, mutex),
        None => false,
    }
}

/// A thread's wait at a condition ends, and it retakes its mutex with the result that the wait is to end with
/// (POSIX.1-2017, pthread_cond_wait). Where the mutex is available the thread has it, and the result in x10; else it
/// waits at the end of the mutex's queue. A cancelled thread, which unwinds, goes to its next handler in place of the
/// result.
pub fn resume(
    threads: &mut Threads,
    mutexes: &mut Mutexes,
    thread: ThreadId,
    mutex: u32,
    outcome: RetakeResult,
) -> CallResult
    requires waiting { may_resume thread mutex threads.old ≡ true }
    requires unwinding { may_unwind thread (Retake mutex outcome) threads.old ≡ true }
    requires well_formed { IsWellFormedWith threads.old mutexes.old }
    requires conditions { IsWellFormed threads.old }
    ensures well_formed { IsWellFormedWith threads.new mutexes.new }
    ensures conditions { IsWellFormed threads.new }
    ensures result { result ≡ (resume_row thread mutex outcome threads.old mutexes.old).result }
    ensures threads { threads.new
        ≡ (resume_row thread mutex outcome threads.old mutexes.old).threads }
    ensures mutexes { mutexes.new
        ≡ (resume_row thread mutex outcome threads.old mutexes.old).mutexes }
{
    threads.known();
    threads.take_wait(thread);
    mutexes.retake(threads, thread, mutex, outcome)
}

/// The thread that has waited longest at the condition is woken, if there is one: its wait ends, and it retakes its
/// mutex, to get 0 with it. Says whether there was one.
pub fn wake_first(threads: &mut Threads, mutexes: &mut Mutexes, condition: u32) -> bool
    requires well_formed { IsWellFormedWith threads.old mutexes.old }
    requires conditions { IsWellFormed threads.old }
    ensures well_formed { IsWellFormedWith threads.new mutexes.new }
    ensures conditions { IsWellFormed threads.new }
    ensures waiting { result ≡ has_waiters condition threads.old }
    ensures queue { waiters condition threads.new ≡ drop 1 (waiters condition threads.old) }
    ensures threads { threads.new ≡ (signal_row condition threads.old mutexes.old).threads }
    ensures mutexes { mutexes.new ≡ (signal_row condition threads.old mutexes.old).mutexes }
{
    threads.known();
    let Some(first) = threads.wake_first(Object::Condition(condition)) else {
        return false;
    };
    if let Reason::Condition(_, mutex) = first.reason {
        mutexes.retake(threads, first.thread, mutex, RetakeResult::Done);
    }
    true
}
