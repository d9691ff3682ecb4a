//! Clean-up handlers.
ghost use Rattle.std.specs.Prelude.{◌≡◌, ◌%◌, true};
ghost use Rattle.ckrt_thread.specs.State.{is_live};
ghost use Rattle.ckrt_cancel.specs.Rows.{push_row, pop_row};

use ckrt_thread::{CallResult, EAGAIN, EINVAL, Handler, MAX_HANDLERS, ThreadId, Threads};

/// Gives the thread a clean-up handler more, the newest: a routine by its address, and what it gets in x10
/// (POSIX.1-2017, pthread_cleanup_push). EINVAL where the address is no multiple of 4, then EAGAIN where the thread has
/// 16 handlers; else 0.
pub fn push(threads: &mut Threads, thread: ThreadId, routine: u32, argument: u32) -> CallResult
    requires { is_live threads.old thread ≡ true }
    ensures result { result ≡ (push_row thread routine argument threads.old).result }
    ensures threads { threads.new ≡ (push_row thread routine argument threads.old).threads }
{
    if routine % 4 != 0 {
        return CallResult::Done(EINVAL);
    }
    if threads.handler_count(thread) >= MAX_HANDLERS {
        return CallResult::Done(EAGAIN);
    }
    threads.push_handler(thread, Handler { routine, argument });
    CallResult::Done(0)
}

/// Removes the thread's newest clean-up handler (POSIX.1-2017, pthread_cleanup_pop). EINVAL where it has none. Where
/// `execute` is not 0 the thread goes to the handler's routine, which returns to the address `back`; else 0.
pub fn pop(threads: &mut Threads, thread: ThreadId, execute: u32, back: u32) -> CallResult
    requires { is_live threads.old thread ≡ true }
    ensures result { result ≡ (pop_row thread execute back threads.old).result }
    ensures threads { threads.new ≡ (pop_row thread execute back threads.old).threads }
{
    let Some(handler) = threads.pop_handler(thread) else {
        return CallResult::Done(EINVAL);
    };
    if execute == 0 {
        return CallResult::Done(0);
    }
    threads.enter(thread, handler, back);
    CallResult::Moved
}
