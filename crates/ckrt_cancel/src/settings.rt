//! How far a thread can be cancelled: its state and its type.
ghost use Rattle.std.specs.Prelude.{◌≡◌, true};
ghost use Rattle.ckrt_thread.specs.State.{is_live};
ghost use Rattle.ckrt_cancel.specs.Rows.{cancellation, state_of, type_of, with_state, with_type, set_to, set_state_row, set_type_row};

use ckrt_thread::{CallResult, Cancellation, EINVAL, ThreadId, Threads};

/// The number of a state: 0 enabled, 1 disabled.
fn state_of(cancellation: &Cancellation) -> u32
    ensures { result ≡ state_of cancellation.now }
{
    if cancellation.is_enabled { 0 } else { 1 }
}

/// The number of a type: 0 deferred, 1 asynchronous.
fn type_of(cancellation: &Cancellation) -> u32
    ensures { result ≡ type_of cancellation.now }
{
    if cancellation.is_asynchronous { 1 } else { 0 }
}

/// With another state, where the thread does not unwind.
fn with_state(mut cancellation: Cancellation, state: u32) -> Cancellation
    ensures { result ≡ with_state state cancellation }
{
    if cancellation.unwinding.is_none() {
        cancellation.is_enabled = state == 0;
    }
    cancellation
}

/// With another type, where the thread does not unwind.
fn with_type(mut cancellation: Cancellation, kind: u32) -> Cancellation
    ensures { result ≡ with_type kind cancellation }
{
    if cancellation.unwinding.is_none() {
        cancellation.is_asynchronous = kind == 1;
    }
    cancellation
}

/// Sets the thread's cancelability state, and puts the old one into x11 (POSIX.1-2017, pthread_setcancelstate): 0 is
/// enabled, 1 disabled, and any other number EINVAL. A thread that unwinds stays disabled.
pub fn set_state(threads: &mut Threads, thread: ThreadId, state: u32) -> CallResult
    requires { is_live threads.old thread ≡ true }
    ensures result { result ≡ (set_state_row thread state threads.old).result }
    ensures threads { threads.new ≡ (set_state_row thread state threads.old).threads }
{
    if state > 1 {
        return CallResult::Done(EINVAL);
    }
    threads.known_live(thread);
    let cancellation = threads.cancellation(thread);
    threads.set_cancellation(thread, &with_state(cancellation, state));
    threads.set_second_result(thread, state_of(&cancellation));
    CallResult::Done(0)
}

/// Sets the thread's cancelability type, and puts the old one into x11 (POSIX.1-2017, pthread_setcanceltype): 0 is
/// deferred, 1 asynchronous, and any other number EINVAL. A thread that unwinds stays deferred.
pub fn set_type(threads: &mut Threads, thread: ThreadId, kind: u32) -> CallResult
    requires { is_live threads.old thread ≡ true }
    ensures result { result ≡ (set_type_row thread kind threads.old).result }
    ensures threads { threads.new ≡ (set_type_row thread kind threads.old).threads }
{
    if kind > 1 {
        return CallResult::Done(EINVAL);
    }
    threads.known_live(thread);
    let cancellation = threads.cancellation(thread);
    threads.set_cancellation(thread, &with_type(cancellation, kind));
    threads.set_second_result(thread, type_of(&cancellation));
    CallResult::Done(0)
}
