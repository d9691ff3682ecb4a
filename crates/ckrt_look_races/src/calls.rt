//! What puts accesses in an order: calls that were made.
ghost use Rattle.std.specs.Prelude.{◌≡◌};
ghost use Rattle.std.specs.List.{flat_map};
ghost use Rattle.ckrt_registers.specs.Registers.{get};
ghost use Rattle.ckrt_calls.specs.Table.{call_of};
ghost use Rattle.ckrt_look_clocks.specs.Within.{noted_all};
ghost use Rattle.ckrt_look_races.specs.Orders.{arrived, at_barrier, begun_wait, created, given_up, given_up_lock, given_up_mutex, if_answered, is_answered, is_at_barrier, leaves, mutex_anew, of_barrier_call, of_call, of_caller, of_cancellation_call, of_condition_call, of_mutex_call, of_rwlock_call, of_thread_call, rwlock_anew};

use crate::holders::{Lock, ordered, released};
use crate::kit::is_of_kit;
use crate::locking::{begins, give_up_unless, make_anew};
use crate::orders::{take_mutex, take_to_read, take_to_write, waits_now};
use ckrt_barrier::SERIAL_THREAD;
use ckrt_calls::{
    BarrierCall, Call, CancellationCall, ConditionCall, MutexCall, RwLockCall, Tables, ThreadCall,
};
use ckrt_look_calls::Caller;
use ckrt_look_clocks::{Detector, LockName, Place};
use ckrt_thread::{Reason, ThreadId, Wait};

/// Whether a call was answered so.
fn is_answered(value: u32, caller: &Caller, after: &Tables) -> bool
    ensures { result ≡ is_answered value caller.now after.now }
{
    match after.threads.regs(caller.thread) {
        Some(regs) => regs.pc() == caller.regs.pc().wrapping_add(4) && regs.get(10) == value,
        None => false,
    }
}

/// The id of a thread that was created.
fn created(caller: &Caller, after: &Tables) -> u32
    ensures { result ≡ created caller.now after.now }
{
    match after.threads.regs(caller.thread) {
        Some(regs) => regs.get(11),
        None => 0,
    }
}

/// A thread gives up a mutex, which passes nothing on if it is one of a kit. It may hold a recursive one still.
fn give_up_mutex(
    place: Place,
    thread: ThreadId,
    address: u32,
    after: &Tables,
    detector: &mut Detector,
)
    ensures { detector.new
        ≡ noted_all (given_up_mutex place thread address after.now) detector.old }
{
    if !is_of_kit(address) {
        let still = after.mutexes.mutex(address).is_owned_by(thread);
        detector.note(&released(thread, Lock::Mutex(address), place));
        give_up_unless(still, place, thread, LockName::Mutex(address), detector);
    }
}

/// A call that makes or destroys a mutex.
fn make_mutex_anew(place: Place, caller: &Caller, after: &Tables, detector: &mut Detector)
    ensures { detector.new
        ≡ noted_all (if_answered 0 caller.now after.now
        (mutex_anew place (get caller.now.regs 10))) detector.old }
{
    if is_answered(0, caller, after) {
        let mutex = caller.regs.get(10);
        make_anew(place, mutex, LockName::Mutex(mutex), detector);
    }
}

/// A call that makes or destroys a read-write lock.
fn make_rwlock_anew(place: Place, caller: &Caller, after: &Tables, detector: &mut Detector)
    ensures { detector.new
        ≡ noted_all (if_answered 0 caller.now after.now
        (rwlock_anew place (get caller.now.regs 10))) detector.old }
{
    if is_answered(0, caller, after) {
        let lock = caller.regs.get(10);
        make_anew(place, lock, LockName::RwLock(lock), detector);
    }
}

/// A call on a mutex.
fn watch_mutex_call(
    place: Place,
    call: MutexCall,
    caller: &Caller,
    after: &Tables,
    detector: &mut Detector,
)
    ensures { detector.new
        ≡ noted_all (of_mutex_call place call caller.now after.now) detector.old }
{
    let mutex = caller.regs.get(10);
    match call {
        MutexCall::Lock => take_mutex(place, caller.thread, true, mutex, after, detector),
        MutexCall::TryLock | MutexCall::TimedLock => {
            take_mutex(place, caller.thread, false, mutex, after, detector);
        }
        MutexCall::Unlock => {
            if is_answered(0, caller, after) {
                give_up_mutex(place, caller.thread, mutex, after, detector);
            }
        }
        MutexCall::Init | MutexCall::Destroy => make_mutex_anew(place, caller, after, detector),
    }
}

/// Who waits at a condition has given up its mutex.
fn begin_wait(place: Place, caller: &Caller, after: &Tables, detector: &mut Detector)
    ensures { detector.new ≡ noted_all (begun_wait place caller.now after.now) detector.old }
{
    if waits_now(caller.thread, after) {
        give_up_mutex(place, caller.thread, caller.regs.get(11), after, detector);
    }
}

/// A call on a condition.
fn watch_condition_call(
    place: Place,
    call: ConditionCall,
    caller: &Caller,
    after: &Tables,
    detector: &mut Detector,
)
    ensures { detector.new
        ≡ noted_all (of_condition_call place call caller.now after.now) detector.old }
{
    match call {
        ConditionCall::Wait | ConditionCall::TimedWait => {
            begin_wait(place, caller, after, detector);
        }
        ConditionCall::Init
        | ConditionCall::Destroy
        | ConditionCall::Signal
        | ConditionCall::Broadcast => {}
    }
}

/// Whether a thread waits at a barrier.
fn is_at_barrier(barrier: u32, wait: &Wait) -> bool
    ensures { result ≡ is_at_barrier barrier wait.now }
{
    match wait.reason {
        Reason::Barrier(address) => barrier == address,
        _ => false,
    }
}

/// What a thread has done that waits at a barrier is before what the last to come does from here on.
fn watch_arrival(place: Place, thread: ThreadId, barrier: u32, wait: &Wait, detector: &mut Detector)
    ensures { detector.new
        ≡ noted_all (arrived place thread barrier wait.now) detector.old }
{
    if is_at_barrier(barrier, wait) {
        detector.note(&ordered(u32::from(wait.thread), u32::from(thread), place));
    }
}

/// The same of all threads that wait there.
fn watch_arrivals(
    place: Place,
    thread: ThreadId,
    barrier: u32,
    waits: &[Wait],
    detector: &mut Detector,
)
    ensures { detector.new
        ≡ noted_all (flat_map (arrived place thread barrier) waits.now) detector.old }
{
    for wait in waits {
        watch_arrival(place, thread, barrier, wait, detector);
    }
}

/// What the last to come has done is before what a thread does that waited there.
fn watch_leave(place: Place, thread: ThreadId, barrier: u32, wait: &Wait, detector: &mut Detector)
    ensures { detector.new
        ≡ noted_all (leaves place thread barrier wait.now) detector.old }
{
    if is_at_barrier(barrier, wait) {
        detector.note(&ordered(u32::from(thread), u32::from(wait.thread), place));
    }
}

/// The same of all threads that waited there.
fn watch_leaves(
    place: Place,
    thread: ThreadId,
    barrier: u32,
    waits: &[Wait],
    detector: &mut Detector,
)
    ensures { detector.new
        ≡ noted_all (flat_map (leaves place thread barrier) waits.now) detector.old }
{
    for wait in waits {
        watch_leave(place, thread, barrier, wait, detector);
    }
}

/// The last thread comes to a barrier.
#[tactic(auto, using(crate::proofs::BehindLemmas::behind_both))]
fn watch_barrier(
    place: Place,
    thread: ThreadId,
    barrier: u32,
    waits: &[Wait],
    detector: &mut Detector,
)
    ensures { detector.new
        ≡ noted_all (at_barrier place thread barrier waits.now) detector.old }
{
    watch_arrivals(place, thread, barrier, waits, detector);
    watch_leaves(place, thread, barrier, waits, detector);
}

/// A call on a barrier, where these waited before.
fn watch_barrier_call(
    place: Place,
    call: BarrierCall,
    caller: &Caller,
    waits: &[Wait],
    after: &Tables,
    detector: &mut Detector,
)
    ensures { detector.new
        ≡ noted_all (of_barrier_call place call caller.now waits.now after.now) detector.old }
{
    match call {
        BarrierCall::Wait => {
            if is_answered(SERIAL_THREAD, caller, after) {
                watch_barrier(place, caller.thread, caller.regs.get(10), waits, detector);
            }
        }
        BarrierCall::Init | BarrierCall::Destroy => {}
    }
}

/// What a thread gives up that held a lock to write, or else to read.
fn given_up(is_writer: bool, address: u32) -> Lock
    ensures { result ≡ given_up is_writer address }
{
    if is_writer {
        Lock::Writers(address)
    } else {
        Lock::Readers(address)
    }
}

/// A thread gives up a read-write lock, which passes nothing on if it is one of a kit.
fn give_up_lock(
    place: Place,
    thread: ThreadId,
    address: u32,
    is_writer: bool,
    after: &Tables,
    detector: &mut Detector,
)
    ensures { detector.new
        ≡ noted_all (given_up_lock place thread address is_writer after.now) detector.old }
{
    if !is_of_kit(address) {
        let still = after.rwlocks.lock(address).is_holder(thread);
        detector.note(&released(thread, given_up(is_writer, address), place));
        give_up_unless(still, place, thread, LockName::RwLock(address), detector);
    }
}

/// A call on a read-write lock, of which the thread was the writer before or not.
fn watch_rwlock_call(
    place: Place,
    call: RwLockCall,
    caller: &Caller,
    is_writer: bool,
    after: &Tables,
    detector: &mut Detector,
)
    ensures { detector.new
        ≡ noted_all (of_rwlock_call place call caller.now is_writer after.now) detector.old }
{
    let lock = caller.regs.get(10);
    match call {
        RwLockCall::RdLock => take_to_read(place, caller.thread, true, lock, after, detector),
        RwLockCall::TryRdLock => take_to_read(place, caller.thread, false, lock, after, detector),
        RwLockCall::WrLock => take_to_write(place, caller.thread, true, lock, after, detector),
        RwLockCall::TryWrLock => take_to_write(place, caller.thread, false, lock, after, detector),
        RwLockCall::Unlock => {
            if is_answered(0, caller, after) {
                give_up_lock(place, caller.thread, lock, is_writer, after, detector);
            }
        }
        RwLockCall::Init | RwLockCall::Destroy => make_rwlock_anew(place, caller, after, detector),
    }
}

/// A call on a thread.
fn watch_thread_call(
    place: Place,
    call: ThreadCall,
    caller: &Caller,
    after: &Tables,
    detector: &mut Detector,
)
    ensures { detector.new
        ≡ noted_all (of_thread_call place call caller.now after.now) detector.old }
{
    if !is_answered(0, caller, after) {
        return;
    }
    let thread = u32::from(caller.thread);
    match call {
        ThreadCall::Create => {
            let other = created(caller, after);
            detector.note(&ordered(thread, other, place));
            detector.note(&begins(place, other));
        }
        ThreadCall::Join => detector.note(&ordered(caller.regs.get(10), thread, place)),
        ThreadCall::Detach | ThreadCall::Exit | ThreadCall::SelfId => {}
    }
}

/// A call of cancellation.
fn watch_cancellation_call(
    place: Place,
    call: CancellationCall,
    caller: &Caller,
    after: &Tables,
    detector: &mut Detector,
)
    ensures { detector.new
        ≡ noted_all (of_cancellation_call place call caller.now after.now) detector.old }
{
    if matches!(call, CancellationCall::Cancel) && is_answered(0, caller, after) {
        let request = Lock::Request(caller.regs.get(10));
        detector.note(&released(caller.thread, request, place));
    }
}

/// A call that a thread made, which was the writer of its read-write lock before or not, where these waited.
fn watch_call(
    place: Place,
    caller: &Caller,
    is_writer: bool,
    waits: &[Wait],
    after: &Tables,
    detector: &mut Detector,
)
    ensures { detector.new
        ≡ noted_all (of_call place (call_of (get caller.now.regs 17)) caller.now is_writer
        waits.now after.now) detector.old }
{
    match Call::from_number(caller.regs.get(17)) {
        Some(Call::Mutex(call)) => watch_mutex_call(place, call, caller, after, detector),
        Some(Call::Condition(call)) => {
            watch_condition_call(place, call, caller, after, detector);
        }
        Some(Call::Barrier(call)) => {
            watch_barrier_call(place, call, caller, waits, after, detector);
        }
        Some(Call::RwLock(call)) => {
            watch_rwlock_call(place, call, caller, is_writer, after, detector);
        }
        Some(Call::Thread(call)) => watch_thread_call(place, call, caller, after, detector),
        Some(Call::Cancellation(call)) => {
            watch_cancellation_call(place, call, caller, after, detector);
        }
        Some(Call::Process(_)) | Some(Call::Key(_)) | None => {}
    }
}

/// A call, if one was made.
pub(crate) fn watch_caller(
    place: Place,
    caller: &Option<Caller>,
    is_writer: bool,
    waits: &[Wait],
    after: &Tables,
    detector: &mut Detector,
)
    ensures { detector.new
        ≡ noted_all (of_caller place caller.now is_writer waits.now after.now) detector.old }
{
    if let Some(caller) = caller {
        watch_call(place, caller, is_writer, waits, after, detector);
    }
}
