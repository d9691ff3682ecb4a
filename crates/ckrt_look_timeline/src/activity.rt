//! What threads do at a step.
ghost use Rattle.std.specs.Prelude.{◌≡◌, ◌≤◌, ◌<◌, ◌+◌, ℕ, get_or};
ghost use Rattle.ckrt_look_timeline.specs.declared.piece.Activity.TheVariants as activity;
ghost use Rattle.ckrt_look_timeline.specs.Activities.{activity_of, aside, by_wait, for_reason};

use crate::piece::Activity;
use ckrt_thread::{Hart, MAX_THREADS, Reason, Thread, ThreadId, Threads, Wait};

/// What a thread does that waits for this.
fn for_reason(reason: Reason) -> Activity
    ensures { result ≡ for_reason reason }
{
    match reason {
        Reason::Input => Activity::Input,
        Reason::Sleep => Activity::Sleep,
        Reason::Join(thread) => Activity::Join(thread),
        Reason::Lock(mutex) => Activity::Mutex(mutex),
        Reason::Retake(mutex, _) => Activity::Mutex(mutex),
        Reason::Condition(condition, _) => Activity::Condition(condition),
        Reason::Barrier(barrier) => Activity::Barrier(barrier),
        Reason::Read(lock) => Activity::RwLock(lock),
        Reason::Write(lock) => Activity::RwLock(lock),
    }
}

/// What a thread does that has this wait, and hasn't ended.
fn by_wait(wait: Option<Wait>) -> Activity
    ensures { result ≡ by_wait wait }
{
    match wait {
        None => Activity::Ready,
        Some(wait) => for_reason(wait.reason),
    }
}

/// What a thread does that doesn't make the step.
fn aside(threads: &Threads, thread: ThreadId) -> Activity
    ensures { result ≡ aside thread threads.now }
{
    match threads.thread(u32::from(thread)) {
        None => Activity::Absent,
        Some(Thread::Ended(_)) => Activity::Ended,
        Some(Thread::Live(_)) => by_wait(threads.wait_of(thread)),
    }
}

/// What a thread does at a step of the thread on a hart.
fn activity_of(threads: &Threads, hart: Hart, thread: ThreadId) -> Activity
    ensures { result ≡ activity_of hart thread threads.now }
{
    match threads.on_hart(usize::from(hart)) {
        Some(on) if thread == on => Activity::Running(hart),
        _ => aside(threads, thread),
    }
}

/// What each thread does at a step of the thread on a hart, thread 1 first.
pub(crate) fn activities(threads: &Threads, hart: Hart) -> [Activity; MAX_THREADS]
    ensures { (i : ℕ) → i < 64
        → get_or result i activity.Absent ≡ activity_of hart (i + 1) threads.now }
{
    let mut now = [Activity::Absent; MAX_THREADS];
    for index in 0..MAX_THREADS {
        now[index] = activity_of(threads, hart, index as u8 + 1);
    }
    now
}
