//! The calls on condition variables.
ghost use Rattle.std.specs.Prelude.{◌≡◌, ◌<◌, ◌≤◌, true, false, Some, None, [], ◌∷◌, ◌++◌, drop};
ghost use Rattle.ckrt_thread.specs.State.{is_live, is_waiting};
ghost use Rattle.ckrt_thread.specs.Waits.{is_moment_or_none};
ghost use Rattle.ckrt_thread.specs.declared.records.CallResult.TheVariants.{Blocked};
ghost use Rattle.ckrt_thread.specs.declared.records.Reason.TheVariants.{Condition};
ghost use Rattle.ckrt_thread.specs.declared.records.RetakeResult.TheVariants.{TimedOut};
ghost use Rattle.ckrt_mutex.specs.Rows.{unlock_row, retake_row};
ghost use Rattle.ckrt_mutex.specs.WellFormed.{IsWellFormedWith};
ghost use Rattle.ckrt_cond.specs.Rows.{waiters, init_row, destroy_row, wait_refusal, released_then, waiting_at, wait_row, timedwait_row, signal_row, broadcast_row};
ghost use Rattle.ckrt_cond.specs.WellFormed.{IsWellFormed, HasReleased};

use crate::waiters::{has_other_mutex, has_waiters, wake_first};
use ckrt_mutex::Mutexes;
use ckrt_thread::{
    CallResult, EBUSY, EINVAL, EPERM, MOMENT_END, Reason, RetakeResult, ThreadId, Threads,
};

/// Initialises a condition (POSIX.1-2017, pthread_cond_init). EBUSY where threads wait at it; else 0.
pub fn init(threads: &Threads, mutexes: &Mutexes, condition: u32) -> CallResult
    requires well_formed { IsWellFormedWith threads.now mutexes.now }
    requires conditions { IsWellFormed threads.now }
    ensures well_formed { IsWellFormedWith threads.now mutexes.now }
    ensures conditions { IsWellFormed threads.now }
    ensures result { result ≡ (init_row condition threads.now mutexes.now).result }
    ensures threads { threads.now ≡ (init_row condition threads.now mutexes.now).threads }
    ensures mutexes { mutexes.now ≡ (init_row condition threads.now mutexes.now).mutexes }
{
    if has_waiters(threads, condition) {
        return CallResult::Done(EBUSY);
    }
    CallResult::Done(0)
}

/// Destroys a condition (POSIX.1-2017, pthread_cond_destroy). EBUSY where threads wait at it; else 0.
pub fn destroy(threads: &Threads, mutexes: &Mutexes, condition: u32) -> CallResult
    requires well_formed { IsWellFormedWith threads.now mutexes.now }
    requires conditions { IsWellFormed threads.now }
    ensures well_formed { IsWellFormedWith threads.now mutexes.now }
    ensures conditions { IsWellFormed threads.now }
    ensures result { result ≡ (destroy_row condition threads.now mutexes.now).result }
    ensures threads { threads.now ≡ (destroy_row condition threads.now mutexes.now).threads }
    ensures mutexes { mutexes.now ≡ (destroy_row condition threads.now mutexes.now).mutexes }
{
    if has_waiters(threads, condition) {
        return CallResult::Done(EBUSY);
    }
    CallResult::Done(0)
}

/// Why a wait may not begin.
fn wait_refusal(
    threads: &Threads,
    mutexes: &Mutexes,
    thread: ThreadId,
    condition: u32,
    mutex: u32,
) -> Option<u32>
    requires { IsWellFormed threads.now }
    ensures { result ≡ wait_refusal thread condition mutex threads.now mutexes.now }
{
    if !mutexes.mutex(mutex).is_owned_by(thread) {
        Some(EPERM)
    } else if has_other_mutex(threads, condition, mutex) {
        Some(EINVAL)
    } else {
        None
    }
}

/// One level of the mutex is released for a wait that may begin.
fn release(
    threads: &mut Threads,
    mutexes: &mut Mutexes,
    thread: ThreadId,
    condition: u32,
    mutex: u32,
)
    requires live { is_live threads.old thread ≡ true }
    requires free { is_waiting threads.old thread ≡ false }
    requires allowed { wait_refusal thread condition mutex threads.old mutexes.old ≡ None }
    requires well_formed { IsWellFormedWith threads.old mutexes.old }
    requires conditions { IsWellFormed threads.old }
    ensures released { HasReleased thread condition mutex threads.new mutexes.new }
    ensures queue { waiters condition threads.new ≡ waiters condition threads.old }
    ensures threads { threads.new ≡ (unlock_row thread mutex threads.old mutexes.old).threads }
    ensures mutexes { mutexes.new ≡ (unlock_row thread mutex threads.old mutexes.old).mutexes }
{
    threads.known();
    mutexes.unlock(threads, thread, mutex);
}

/// Releases the mutex and waits at the condition, until a moment below 2^63 if one is given.
fn release_and_wait(
    threads: &mut Threads,
    mutexes: &mut Mutexes,
    thread: ThreadId,
    condition: u32,
    mutex: u32,
    deadline: Option<u64>,
) -> CallResult
    requires live { is_live threads.old thread ≡ true }
    requires free { is_waiting threads.old thread ≡ false }
    requires moment { is_moment_or_none deadline ≡ true }
    requires well_formed { IsWellFormedWith threads.old mutexes.old }
    requires conditions { IsWellFormed threads.old }
    ensures well_formed { IsWellFormedWith threads.new mutexes.new }
    ensures conditions { IsWellFormed threads.new }
    ensures queue { result ≡ Blocked
        → waiters condition threads.new
        ≡ waiters condition threads.old
        ++ (record {
          thread = thread;
          reason = Condition condition mutex;
          deadline = deadline;
        }) ∷ [] }
    ensures result { result
        ≡ (released_then (waiting_at thread condition mutex deadline)
        (wait_refusal thread condition mutex threads.old mutexes.old) thread mutex
        threads.old mutexes.old).result }
    ensures threads { threads.new
        ≡ (released_then (waiting_at thread condition mutex deadline)
        (wait_refusal thread condition mutex threads.old mutexes.old) thread mutex
        threads.old mutexes.old).threads }
    ensures mutexes { mutexes.new
        ≡ (released_then (waiting_at thread condition mutex deadline)
        (wait_refusal thread condition mutex threads.old mutexes.old) thread mutex
        threads.old mutexes.old).mutexes }
{
    if let Some(error) = wait_refusal(threads, mutexes, thread, condition, mutex) {
        return CallResult::Done(error);
    }
    release(threads, mutexes, thread, condition, mutex);
    threads.block(thread, Reason::Condition(condition, mutex), deadline);
    CallResult::Blocked
}

/// Releases the mutex and retakes it, as a wait whose moment is due.
fn release_and_retake(
    threads: &mut Threads,
    mutexes: &mut Mutexes,
    thread: ThreadId,
    condition: u32,
    mutex: u32,
) -> CallResult
    requires live { is_live threads.old thread ≡ true }
    requires free { is_waiting threads.old thread ≡ false }
    requires well_formed { IsWellFormedWith threads.old mutexes.old }
    requires conditions { IsWellFormed threads.old }
    ensures well_formed { IsWellFormedWith threads.new mutexes.new }
    ensures conditions { IsWellFormed threads.new }
    ensures queue { waiters condition threads.new ≡ waiters condition threads.old }
    ensures result { result
        ≡ (released_then (retake_row thread mutex TimedOut)
        (wait_refusal thread condition mutex threads.old mutexes.old) thread mutex
        threads.old mutexes.old).result }
    ensures threads { threads.new
        ≡ (released_then (retake_row thread mutex TimedOut)
        (wait_refusal thread condition mutex threads.old mutexes.old) thread mutex
        threads.old mutexes.old).threads }
    ensures mutexes { mutexes.new
        ≡ (released_then (retake_row thread mutex TimedOut)
        (wait_refusal thread condition mutex threads.old mutexes.old) thread mutex
        threads.old mutexes.old).mutexes }
{
    if let Some(error) = wait_refusal(threads, mutexes, thread, condition, mutex) {
        return CallResult::Done(error);
    }
    release(threads, mutexes, thread, condition, mutex);
    threads.known();
    mutexes.retake(threads, thread, mutex, RetakeResult::TimedOut)
}

/// Releases one level of the thread's mutex and waits at a condition, in one step (POSIX.1-2017, pthread_cond_wait).
/// EPERM where the mutex is not the thread's; EINVAL where others wait at the condition with another mutex; else the
/// thread waits until it is signalled, and gets 0 once it has the mutex again.
pub fn wait(
    threads: &mut Threads,
    mutexes: &mut Mutexes,
    thread: ThreadId,
    condition: u32,
    mutex: u32,
) -> CallResult
    requires live { is_live threads.old thread ≡ true }
    requires free { is_waiting threads.old thread ≡ false }
    requires well_formed { IsWellFormedWith threads.old mutexes.old }
    requires conditions { IsWellFormed threads.old }
    ensures well_formed { IsWellFormedWith threads.new mutexes.new }
    ensures conditions { IsWellFormed threads.new }
    ensures queue { result ≡ Blocked
        → waiters condition threads.new
        ≡ waiters condition threads.old
        ++ (record { thread = thread; reason = Condition condition mutex; deadline = None })
        ∷ [] }
    ensures result { result ≡ (wait_row thread condition mutex threads.old mutexes.old).result }
    ensures threads { threads.new
        ≡ (wait_row thread condition mutex threads.old mutexes.old).threads }
    ensures mutexes { mutexes.new
        ≡ (wait_row thread condition mutex threads.old mutexes.old).mutexes }
{
    release_and_wait(threads, mutexes, thread, condition, mutex, None)
}

/// As `wait`, until a moment at the latest, in ticks of the clock (POSIX.1-2017, pthread_cond_timedwait). EINVAL comes
/// first where the moment is not below 2^63. Where it comes before a signal does, the thread gets ETIMEDOUT once it has
/// the mutex again; where it is not after the clock's present moment, the mutex is released and retaken at once, with
/// ETIMEDOUT.
pub fn timedwait(
    threads: &mut Threads,
    mutexes: &mut Mutexes,
    thread: ThreadId,
    condition: u32,
    mutex: u32,
    moment: u64,
    clock: u64,
) -> CallResult
    requires live { is_live threads.old thread ≡ true }
    requires free { is_waiting threads.old thread ≡ false }
    requires well_formed { IsWellFormedWith threads.old mutexes.old }
    requires conditions { IsWellFormed threads.old }
    ensures well_formed { IsWellFormedWith threads.new mutexes.new }
    ensures conditions { IsWellFormed threads.new }
    ensures queue { clock < moment → result ≡ Blocked
        → waiters condition threads.new
        ≡ waiters condition threads.old
        ++ (record {
          thread = thread;
          reason = Condition condition mutex;
          deadline = Some moment;
        }) ∷ [] }
    ensures due { moment ≤ clock → waiters condition threads.new ≡ waiters condition threads.old }
    ensures result { result
        ≡ (timedwait_row thread condition mutex moment clock threads.old mutexes.old).result }
    ensures threads { threads.new
        ≡ (timedwait_row thread condition mutex moment clock threads.old mutexes.old).threads }
    ensures mutexes { mutexes.new
        ≡ (timedwait_row thread condition mutex moment clock threads.old mutexes.old).mutexes }
{
    if moment >= MOMENT_END {
        return CallResult::Done(EINVAL);
    }
    if moment <= clock {
        return release_and_retake(threads, mutexes, thread, condition, mutex);
    }
    release_and_wait(threads, mutexes, thread, condition, mutex, Some(moment))
}

/// Wakes the thread that has waited longest at the condition, if there is one: its wait ends, and it retakes its mutex,
/// to get 0 with it (POSIX.1-2017, pthread_cond_signal). Answers 0.
#[tactic(auto, using(crate::proofs::Woken::signal_result))]
pub fn signal(threads: &mut Threads, mutexes: &mut Mutexes, condition: u32) -> CallResult
    requires well_formed { IsWellFormedWith threads.old mutexes.old }
    requires conditions { IsWellFormed threads.old }
    ensures well_formed { IsWellFormedWith threads.new mutexes.new }
    ensures conditions { IsWellFormed threads.new }
    ensures one { waiters condition threads.new ≡ drop 1 (waiters condition threads.old) }
    ensures result { result ≡ (signal_row condition threads.old mutexes.old).result }
    ensures threads { threads.new ≡ (signal_row condition threads.old mutexes.old).threads }
    ensures mutexes { mutexes.new ≡ (signal_row condition threads.old mutexes.old).mutexes }
{
    wake_first(threads, mutexes, condition);
    CallResult::Done(0)
}

/// Wakes all threads that wait at the condition, in order of the start of waiting, each as `signal` does (POSIX.1-2017,
/// pthread_cond_broadcast). Answers 0.
pub fn broadcast(threads: &mut Threads, mutexes: &mut Mutexes, condition: u32) -> CallResult
    requires well_formed { IsWellFormedWith threads.old mutexes.old }
    requires conditions { IsWellFormed threads.old }
    ensures well_formed { IsWellFormedWith threads.new mutexes.new }
    ensures conditions { IsWellFormed threads.new }
    ensures all { waiters condition threads.new ≡ [] }
    ensures result { result ≡ (broadcast_row condition threads.old mutexes.old).result }
    ensures threads { threads.new ≡ (broadcast_row condition threads.old mutexes.old).threads }
    ensures mutexes { mutexes.new ≡ (broadcast_row condition threads.old mutexes.old).mutexes }
{
    while wake_first(threads, mutexes, condition) {}
    CallResult::Done(0)
}
