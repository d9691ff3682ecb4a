//! Requests for cancellation, and the points at which threads act on them.
ghost use Rattle.std.specs.Prelude.{◌≡◌, true, false};
ghost use Rattle.std.specs.List.{find};
ghost use Rattle.ckrt_thread.specs.Waits.{is_of};
ghost use Rattle.ckrt_thread.specs.State.{is_live, is_waiting, unwaited};
ghost use Rattle.ckrt_mutex.specs.WellFormed.{IsWellFormedWith};
ghost use Rattle.ckrt_cond.specs.WellFormed.{IsWellFormed, may_resume};
ghost use Rattle.ckrt_cancel.specs.Rows.{acts_at_point, at_point, act_on_request, requested, interrupted_at_condition, request_in, request_row};

use crate::unwinding::{act_on_request, cancel};
use ckrt_cond::resume;
use ckrt_mutex::Mutexes;
use ckrt_thread::{CallResult, ESRCH, Reason, RetakeResult, Thread, ThreadId, Threads};

/// A thread that does not wait comes to a cancellation point (POSIX.1-2017, pthread_testcancel): where it is enabled
/// and has a request, it acts on it. Answers whether it did; else nothing changes.
pub fn point(threads: &mut Threads, thread: ThreadId) -> bool
    requires live { is_live threads.old thread ≡ true }
    requires free { is_waiting threads.old thread ≡ false }
    ensures acts { result ≡ acts_at_point thread threads.old }
    ensures threads { threads.new ≡ at_point thread threads.old }
{
    let acts = threads.cancellation(thread).is_pending();
    if acts {
        act_on_request(threads, thread);
    }
    acts
}

/// The request is left for the thread to act on.
fn leave_pending(threads: &mut Threads, thread: ThreadId)
    requires { is_live threads.old thread ≡ true }
    ensures { threads.new ≡ requested thread threads.old }
{
    let mut cancellation = threads.cancellation(thread);
    cancellation.is_requested = true;
    threads.set_cancellation(thread, &cancellation);
}

/// The thread's wait is taken away, and it acts on the request. Nothing becomes of what it waited for.
fn interrupt(threads: &mut Threads, thread: ThreadId)
    requires { is_live threads.old thread ≡ true }
    ensures { threads.new ≡ act_on_request thread (unwaited thread threads.old) }
{
    threads.known();
    threads.take_wait(thread);
    act_on_request(threads, thread);
}

/// The thread waits at a condition with the mutex. It unwinds from now on and leaves the condition, so that it consumes
/// no signal; and it has the mutex again before its next handler runs (POSIX.1-2017, pthread_cond_wait).
fn interrupt_at_condition(
    threads: &mut Threads,
    mutexes: &mut Mutexes,
    thread: ThreadId,
    mutex: u32,
)
    requires live { is_live threads.old thread ≡ true }
    requires waiting { may_resume thread mutex threads.old ≡ true }
    requires well_formed { IsWellFormedWith threads.old mutexes.old }
    requires conditions { IsWellFormed threads.old }
    ensures well_formed { IsWellFormedWith threads.new mutexes.new }
    ensures conditions { IsWellFormed threads.new }
    ensures threads { threads.new
        ≡ (interrupted_at_condition mutex thread threads.old mutexes.old).threads }
    ensures mutexes { mutexes.new
        ≡ (interrupted_at_condition mutex thread threads.old mutexes.old).mutexes }
{
    cancel(threads, thread);
    resume(threads, mutexes, thread, mutex, RetakeResult::Unwind);
}

/// A request for a thread that is enabled: a wait that is a cancellation point ends, and the thread acts at once.
fn request_enabled(threads: &mut Threads, mutexes: &mut Mutexes, thread: ThreadId)
    requires live { is_live threads.old thread ≡ true }
    requires well_formed { IsWellFormedWith threads.old mutexes.old }
    requires conditions { IsWellFormed threads.old }
    ensures well_formed { IsWellFormedWith threads.new mutexes.new }
    ensures conditions { IsWellFormed threads.new }
    ensures threads { threads.new
        ≡ (request_in (find (is_of thread) threads.old.waits) thread threads.old
        mutexes.old).threads }
    ensures mutexes { mutexes.new
        ≡ (request_in (find (is_of thread) threads.old.waits) thread threads.old
        mutexes.old).mutexes }
{
    let Some(wait) = threads.wait_of(thread) else {
        leave_pending(threads, thread);
        return;
    };
    match wait.reason {
        Reason::Input | Reason::Sleep | Reason::Join(_) => interrupt(threads, thread),
        Reason::Condition(_, mutex) => interrupt_at_condition(threads, mutexes, thread, mutex),
        _ => leave_pending(threads, thread),
    }
}

/// Requests that a thread be cancelled (POSIX.1-2017, pthread_cancel). ESRCH where there is no such thread; else 0. A
/// thread that is enabled and waits to join, to read, for a moment or at a condition acts at once, and any other thread
/// that has not ended acts later.
pub fn request(threads: &mut Threads, mutexes: &mut Mutexes, id: u32) -> CallResult
    requires well_formed { IsWellFormedWith threads.old mutexes.old }
    requires conditions { IsWellFormed threads.old }
    ensures well_formed { IsWellFormedWith threads.new mutexes.new }
    ensures conditions { IsWellFormed threads.new }
    ensures result { result ≡ (request_row id threads.old mutexes.old).result }
    ensures threads { threads.new ≡ (request_row id threads.old mutexes.old).threads }
    ensures mutexes { mutexes.new ≡ (request_row id threads.old mutexes.old).mutexes }
{
    let Some(thread) = threads.thread(id) else {
        return CallResult::Done(ESRCH);
    };
    let Thread::Live(live) = thread else {
        return CallResult::Done(0);
    };
    let is_enabled = live.cancellation.is_enabled;
    let target = id as ThreadId;
    if is_enabled {
        request_enabled(threads, mutexes, target);
    } else {
        leave_pending(threads, target);
    }
    CallResult::Done(0)
}
