//! What puts accesses in an order: locks that threads have taken.
ghost use Rattle.std.specs.Prelude.{◌≡◌, is_some};
ghost use Rattle.std.specs.List.{find, flat_map};
ghost use Rattle.ckrt_thread.specs.State.{is_live, thread_of};
ghost use Rattle.ckrt_thread.specs.Waits.{is_of};
ghost use Rattle.ckrt_look_clocks.specs.Within.{noted_all};
ghost use Rattle.ckrt_look_races.specs.Orders.{is_cancelled, is_retake, of_acting, of_reason, of_request, of_wait, of_waits, taken_mutex, taken_request, taken_to_read, taken_to_write, waits_now};

use crate::holders::{Lock, acquired, ordered};
use crate::kit::is_of_kit;
use crate::locking::{takes, taking_of};
use ckrt_calls::Tables;
use ckrt_look_clocks::{Detector, LockName, Place};
use ckrt_thread::{CANCELED, Reason, Thread, ThreadId, Threads, Wait};

/// Whether a thread waits.
pub(crate) fn waits_now(thread: ThreadId, after: &Tables) -> bool
    ensures { result ≡ waits_now thread after.now }
{
    after.threads.wait_of(thread).is_some()
}

/// A thread that owns a mutex has taken it, unless it is one of a kit. Its call waits as long as need be, or not.
pub(crate) fn take_mutex(
    place: Place,
    thread: ThreadId,
    waits: bool,
    address: u32,
    after: &Tables,
    detector: &mut Detector,
)
    ensures { detector.new
        ≡ noted_all (taken_mutex place thread waits address after.now) detector.old }
{
    if after.mutexes.mutex(address).is_owned_by(thread) && !is_of_kit(address) {
        let taking = taking_of(thread, LockName::Mutex(address), false, place, after);
        detector.note(&acquired(thread, Lock::Mutex(address), place));
        detector.note(&takes(thread, waits, taking));
    }
}

/// The same of one that reads under a read-write lock: it has taken what writers gave up.
pub(crate) fn take_to_read(
    place: Place,
    thread: ThreadId,
    waits: bool,
    address: u32,
    after: &Tables,
    detector: &mut Detector,
)
    ensures { detector.new
        ≡ noted_all (taken_to_read place thread waits address after.now) detector.old }
{
    if after.rwlocks.lock(address).is_reader(thread) && !is_of_kit(address) {
        let taking = taking_of(thread, LockName::RwLock(address), true, place, after);
        detector.note(&acquired(thread, Lock::Writers(address), place));
        detector.note(&takes(thread, waits, taking));
    }
}

/// The same of one that writes under a read-write lock: it has taken what writers and readers gave up.
pub(crate) fn take_to_write(
    place: Place,
    thread: ThreadId,
    waits: bool,
    address: u32,
    after: &Tables,
    detector: &mut Detector,
)
    ensures { detector.new
        ≡ noted_all (taken_to_write place thread waits address after.now) detector.old }
{
    if after.rwlocks.lock(address).is_writer(thread) && !is_of_kit(address) {
        let taking = taking_of(thread, LockName::RwLock(address), false, place, after);
        detector.note(&acquired(thread, Lock::Writers(address), place));
        detector.note(&acquired(thread, Lock::Readers(address), place));
        detector.note(&takes(thread, waits, taking));
    }
}

/// Whether a thread that waited unwinds as a cancelled one, and acted on each request; or it has ended as such, or is gone: somebody
/// joined it, or it was detached, and whoever waits ends by a request alone.
fn is_cancelled(threads: &Threads, thread: ThreadId) -> bool
    ensures { result ≡ is_cancelled (thread_of threads.now thread) }
{
    match threads.thread(u32::from(thread)) {
        Some(Thread::Live(live)) => {
            let cancellation = live.cancellation;
            !cancellation.is_requested && cancellation.unwinding.unwrap_or(0) == CANCELED
        }
        Some(Thread::Ended(value)) => *value == CANCELED,
        None => true,
    }
}

/// Such a thread has seen what those did who cancelled it.
fn take_request(place: Place, thread: ThreadId, after: &Tables, detector: &mut Detector)
    ensures { detector.new
        ≡ noted_all (taken_request place thread after.now) detector.old }
{
    if is_cancelled(&after.threads, thread) {
        detector.note(&acquired(thread, Lock::Request(u32::from(thread)), place));
    }
}

/// Whether there is such a thread, and it has not ended.
fn is_live(threads: &Threads, thread: ThreadId) -> bool
    ensures { result ≡ is_live threads.now thread }
{
    matches!(threads.thread(u32::from(thread)), Some(Thread::Live(_)))
}

/// What a thread has by now that waited for it, without a deadline or with one.
fn watch_reason(
    place: Place,
    thread: ThreadId,
    waits: bool,
    reason: Reason,
    after: &Tables,
    detector: &mut Detector,
)
    ensures { detector.new
        ≡ noted_all (of_reason place thread waits reason after.now) detector.old }
{
    match reason {
        Reason::Lock(mutex) => take_mutex(place, thread, waits, mutex, after, detector),
        Reason::Retake(mutex, _) => take_mutex(place, thread, true, mutex, after, detector),
        Reason::Condition(_, mutex) => take_mutex(place, thread, true, mutex, after, detector),
        Reason::Join(other) => {
            if !is_live(&after.threads, other) {
                detector.note(&ordered(u32::from(other), u32::from(thread), place));
            }
        }
        Reason::Read(lock) => take_to_read(place, thread, true, lock, after, detector),
        Reason::Write(lock) => take_to_write(place, thread, true, lock, after, detector),
        Reason::Barrier(_) | Reason::Input | Reason::Sleep => {}
    }
}

/// A wait, if it is over.
fn watch_wait(place: Place, after: &Tables, wait: &Wait, detector: &mut Detector)
    ensures { detector.new ≡ noted_all (of_wait place after.now wait.now) detector.old }
{
    if waits_now(wait.thread, after) {
        return;
    }
    let waits = wait.deadline.is_none();
    watch_reason(place, wait.thread, waits, wait.reason, after, detector);
}

/// Whether a thread waits for its mutex behind a condition.
fn is_retake(reason: Reason) -> bool
    ensures { result ≡ is_retake reason }
{
    matches!(reason, Reason::Retake(_, _))
}

/// The request on which a thread acts that waited; behind a condition it acted before.
fn watch_request(place: Place, after: &Tables, wait: &Wait, detector: &mut Detector)
    ensures { detector.new ≡ noted_all (of_request place after.now wait.now) detector.old }
{
    if is_retake(wait.reason) {
        return;
    }
    take_request(place, wait.thread, after, detector);
}

/// The requests on which those act who waited.
fn watch_requests(place: Place, before: &[Wait], after: &Tables, detector: &mut Detector)
    ensures { detector.new
        ≡ noted_all (flat_map (of_request place after.now) before.now) detector.old }
{
    for wait in before {
        watch_request(place, after, wait, detector);
    }
}

/// What those have by now whose waits are over.
fn watch_reasons(place: Place, before: &[Wait], after: &Tables, detector: &mut Detector)
    ensures { detector.new
        ≡ noted_all (flat_map (of_wait place after.now) before.now) detector.old }
{
    for wait in before {
        watch_wait(place, after, wait, detector);
    }
}

/// Those waits that are over: first the requests on which threads act.
#[tactic(auto, using(crate::proofs::BehindLemmas::behind_both))]
pub(crate) fn watch_waits(place: Place, before: &[Wait], after: &Tables, detector: &mut Detector)
    ensures { detector.new ≡ noted_all (of_waits place before.now after.now) detector.old }
{
    watch_requests(place, before, after, detector);
    watch_reasons(place, before, after, detector);
}

/// The thread that acted on a request by a step.
pub(crate) fn watch_acting(place: Place, acting: Option<ThreadId>, detector: &mut Detector)
    ensures { detector.new ≡ noted_all (of_acting place acting) detector.old }
{
    if let Some(thread) = acting {
        detector.note(&acquired(thread, Lock::Request(u32::from(thread)), place));
    }
}
