//! Thread-specific data: the calls on keys, and on the values that a thread has under them.
ghost use Rattle.std.specs.Prelude.{◌≡◌, ◌%◌, true};
ghost use Rattle.ckrt_thread.specs.State.{is_live};
ghost use Rattle.ckrt_cancel.specs.KeyRows.{key_create_row, key_delete_row, setspecific_row, getspecific_row};

use ckrt_thread::{CallResult, EAGAIN, EINVAL, ENOSYS, Key, ThreadId, Threads};

/// Makes a key, whose number goes to x11 of the thread: the least free one (POSIX.1-2017, pthread_key_create). Its
/// destructor, by its address, gets the value of a thread that ends; 0 stands for none. ENOSYS where keys are off,
/// then EINVAL where the address is no multiple of 4, then EAGAIN where there are 32 keys; else 0.
pub fn key_create(threads: &mut Threads, thread: ThreadId, destructor: u32) -> CallResult
    requires { is_live threads.old thread ≡ true }
    ensures result { result ≡ (key_create_row thread destructor threads.old).result }
    ensures threads { threads.new ≡ (key_create_row thread destructor threads.old).threads }
{
    if !threads.keys().is_on() {
        return CallResult::Done(ENOSYS);
    }
    if destructor % 4 != 0 {
        return CallResult::Done(EINVAL);
    }
    let Some(key) = threads.keys().free_key() else {
        return CallResult::Done(EAGAIN);
    };
    threads.known_live(thread);
    threads.add_key(key, destructor);
    threads.set_second_result(thread, u32::from(key));
    CallResult::Done(0)
}

/// Removes a key, and each thread's value under it, for which no destructor runs (POSIX.1-2017, pthread_key_delete).
/// ENOSYS where keys are off, then EINVAL where there is no such key; else 0.
pub fn key_delete(threads: &mut Threads, key: u32) -> CallResult
    ensures result { result ≡ (key_delete_row key threads.old).result }
    ensures threads { threads.new ≡ (key_delete_row key threads.old).threads }
{
    if !threads.keys().is_on() {
        return CallResult::Done(ENOSYS);
    }
    if threads.keys().destructor(key).is_none() {
        return CallResult::Done(EINVAL);
    }
    threads.remove_key(key as Key);
    CallResult::Done(0)
}

/// Gives the thread a value under a key; 0 stands for none (POSIX.1-2017, pthread_setspecific). ENOSYS where keys
/// are off, then EINVAL where there is no such key; else 0.
pub fn setspecific(threads: &mut Threads, thread: ThreadId, key: u32, value: u32) -> CallResult
    requires { is_live threads.old thread ≡ true }
    ensures result { result ≡ (setspecific_row thread key value threads.old).result }
    ensures threads { threads.new ≡ (setspecific_row thread key value threads.old).threads }
{
    if !threads.keys().is_on() {
        return CallResult::Done(ENOSYS);
    }
    if threads.keys().destructor(key).is_none() {
        return CallResult::Done(EINVAL);
    }
    threads.set_value(thread, key as Key, value);
    CallResult::Done(0)
}

/// Puts the thread's value under a key into x11, 0 where it set none (POSIX.1-2017, pthread_getspecific). ENOSYS where
/// keys are off, then EINVAL where there is no such key; else 0.
pub fn getspecific(threads: &mut Threads, thread: ThreadId, key: u32) -> CallResult
    requires { is_live threads.old thread ≡ true }
    ensures result { result ≡ (getspecific_row thread key threads.old).result }
    ensures threads { threads.new ≡ (getspecific_row thread key threads.old).threads }
{
    if !threads.keys().is_on() {
        return CallResult::Done(ENOSYS);
    }
    if threads.keys().destructor(key).is_none() {
        return CallResult::Done(EINVAL);
    }
    threads.known_live(thread);
    let value = threads.value(thread, key as Key);
    threads.set_second_result(thread, value);
    CallResult::Done(0)
}
