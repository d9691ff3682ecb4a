//! Unwinding: the way of a thread through its clean-up handlers and the destructors of its values to its end.
ghost use Rattle.std.specs.Prelude.{◌≡◌, true, false};
ghost use Rattle.ckrt_thread.specs.State.{is_live, is_waiting};
ghost use Rattle.ckrt_thread.specs.Unwinding.{next_handler};
ghost use Rattle.ckrt_cancel.specs.Rows.{unwinding_from, begin_unwind, cancelled, act_on_request};

use ckrt_thread::{ThreadId, Threads};

/// The thread unwinds from now on, to end with the value.
fn unwind_with(threads: &mut Threads, thread: ThreadId, value: u32)
    requires { is_live threads.old thread ≡ true }
    ensures threads { threads.new ≡ unwinding_from thread value threads.old }
    ensures live { is_live threads.new thread ≡ true }
{
    let cancellation = threads.cancellation(thread).unwinding_with(value);
    threads.set_cancellation(thread, &cancellation);
}

/// The thread's request is gone, and it unwinds from now on, to end as a cancelled thread.
pub fn cancel(threads: &mut Threads, thread: ThreadId)
    requires { is_live threads.old thread ≡ true }
    ensures threads { threads.new ≡ cancelled thread threads.old }
    ensures live { is_live threads.new thread ≡ true }
{
    let cancellation = threads.cancellation(thread).acted_on();
    threads.set_cancellation(thread, &cancellation);
}

/// A thread, which does not wait, begins to unwind: it goes to its newest clean-up handler, and so on over the destructors
/// of its values to its end with the value (POSIX.1-2017, pthread_exit). Where it unwinds already, this value replaces the one that it had.
pub fn begin_unwind(threads: &mut Threads, thread: ThreadId, value: u32)
    requires live { is_live threads.old thread ≡ true }
    requires free { is_waiting threads.old thread ≡ false }
    ensures { threads.new ≡ begin_unwind thread value threads.old }
{
    unwind_with(threads, thread, value);
    next_handler(threads, thread);
}

/// A thread, which does not wait, acts on the request that was made: it unwinds, to end as a cancelled thread.
pub fn act_on_request(threads: &mut Threads, thread: ThreadId)
    requires live { is_live threads.old thread ≡ true }
    requires free { is_waiting threads.old thread ≡ false }
    ensures { threads.new ≡ act_on_request thread threads.old }
{
    cancel(threads, thread);
    next_handler(threads, thread);
}

/// A thread that unwinds, and does not wait, has come to the end of a clean-up handler or a destructor: it goes to its
/// newest handler, else to its next destructor, or ends where none is left.
pub fn next_handler(threads: &mut Threads, thread: ThreadId)
    requires live { is_live threads.old thread ≡ true }
    requires free { is_waiting threads.old thread ≡ false }
    ensures { threads.new ≡ next_handler thread threads.old }
{
    threads.next_handler(thread);
}
