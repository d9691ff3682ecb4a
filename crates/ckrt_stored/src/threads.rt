//! A table of threads becomes another, row by row.
ghost use Rattle.std.specs.Prelude.{◌≡◌, ◌+◌, ◌<◌, [], ℕ};
ghost use Rattle.ckrt_thread.specs.Keys.{KeyTable};
ghost use Rattle.ckrt_thread.specs.State.{State};
ghost use Rattle.ckrt_thread.specs.Contents.{empty, row, thread_rows, who_is_on};
ghost use Rattle.ckrt_tables.specs.Decoding.{GoesOn};
ghost use Rattle.ckrt_tables.specs.DecodingThreads.{HartsLeadTo, ThreadsLeadTo, WaitsLeadTo};

use crate::emptying::empty;
use arrayvec::ArrayVec;
use ckrt_thread::{
    Handler, Keys, Live, MAX_HANDLERS, MAX_HARTS, MAX_KEYS, Thread, ThreadId, Threads, Wait,
};

/// The same handlers.
fn copied_handlers(handlers: &ArrayVec<Handler, MAX_HANDLERS>) -> ArrayVec<Handler, MAX_HANDLERS>
    ensures { result ≡ handlers.now }
{
    let mut copy = ArrayVec::new();
    for handler in handlers.iter() {
        copy.push(*handler);
    }
    copy
}

/// The same thread.
fn copied(thread: &Thread) -> Thread
    ensures { result ≡ thread.now }
{
    match thread {
        Thread::Ended(value) => Thread::Ended(*value),
        Thread::Live(live) => Thread::Live(Live {
            regs: live.regs,
            initial: live.initial,
            detached: live.detached,
            cancellation: live.cancellation,
            handlers: copied_handlers(&live.handlers),
            specific: live.specific,
        }),
    }
}

/// The same keys.
fn copied_keys(keys: &Keys) -> Keys
    ensures { result ≡ keys.now }
{
    keys.known();
    let mut destructors = [None; MAX_KEYS];
    for key in 0..MAX_KEYS {
        destructors[key] = keys.destructor(key as u32);
    }
    match Keys::with(keys.is_on(), destructors) {
        Some(keys) => keys,
        None => unreachable!(),
    }
}

/// The thread goes after those that there are.
fn append_thread(threads: &mut Threads, id: ThreadId, thread: &Thread)
    ensures { GoesOn ThreadsLeadTo threads.old (row id thread.now) threads.new }
{
    threads.known();
    threads.append_thread(id, copied(thread));
}

/// All threads of the other table go into this one, which has none.
fn append_threads(threads: &mut Threads, kept: &Threads)
    requires { ThreadsLeadTo threads.old (thread_rows kept.now) kept.now }
    ensures { ThreadsLeadTo threads.new [] kept.now }
{
    for place in 0..kept.thread_count() {
        let Some((id, thread)) = kept.thread_at(place) else {
            unreachable!()
        };
        append_thread(threads, id, thread);
    }
}

/// The wait goes after those that there are.
fn append_wait(threads: &mut Threads, wait: Wait)
    ensures { GoesOn WaitsLeadTo threads.old wait threads.new }
{
    threads.known();
    threads.append_wait(wait);
}

/// All waits of the other table go into this one, which has its threads and no wait.
fn append_waits(threads: &mut Threads, kept: &Threads)
    requires { WaitsLeadTo threads.old kept.now.waits kept.now }
    ensures { WaitsLeadTo threads.new [] kept.now }
{
    for place in 0..kept.wait_count() {
        let Some(wait) = kept.wait_at(place) else {
            unreachable!()
        };
        append_wait(threads, wait);
    }
}

/// Puts a thread onto a hart, if one is to be there.
fn place_on(threads: &mut Threads, hart: usize, thread: Option<ThreadId>)
    ensures { (kept : State) → hart < 8 → who_is_on kept hart ≡ thread
        → HartsLeadTo hart threads.old kept
        → HartsLeadTo (hart + 1) threads.new kept }
{
    threads.known();
    if let Some(thread) = thread {
        threads.append_on_hart(hart, thread);
    }
}

/// Puts all threads onto the harts on which the other table has them, where all are idle.
fn place_all(threads: &mut Threads, kept: &Threads)
    requires { HartsLeadTo 0 threads.old kept.now }
    ensures { threads.new ≡ kept.now }
{
    for hart in 0..MAX_HARTS {
        place_on(threads, hart, kept.on_hart(hart));
    }
    threads.known();
}

/// The keys of the other table become those of this one, which has no thread.
fn set_keys(threads: &mut Threads, kept: &Threads)
    requires { (keys : KeyTable) × (threads.old ≡ empty keys kept.now.hart_count) }
    ensures { threads.new ≡ empty kept.now.keys kept.now.hart_count }
{
    threads.set_keys(copied_keys(kept.keys()));
}

/// The table becomes the other, which has as many harts.
pub fn restore_threads(threads: &mut Threads, kept: &Threads)
    requires { threads.old.hart_count ≡ kept.now.hart_count }
    ensures { threads.new ≡ kept.now }
{
    kept.known();
    empty(threads);
    set_keys(threads, kept);
    append_threads(threads, kept);
    append_waits(threads, kept);
    place_all(threads, kept);
}
