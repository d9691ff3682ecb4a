//! The threads that a debugger is shown.
ghost use Rattle.std.specs.Prelude.{◌≡◌, ◌<◌, ◌≤◌, ◌++◌, true, length};
ghost use Rattle.ckrt_thread.specs.State.{is_live, is_live_thread};
ghost use Rattle.ckrt_gdb_playback.specs.Look.{ids_from, ids_of, is_known, is_listed, is_shown, listed_from, listed_of, shown_ids};

use arrayvec::ArrayVec;
use ckrt_thread::{Thread, Threads};

/// Ids of threads, rising.
pub type Ids = ArrayVec<u8, 65>;

/// Whether a thread that hasn't ended stands there.
fn is_live_slot(slot: &Option<Thread>) -> bool
    ensures { result ≡ is_live_thread slot.now }
{
    matches!(slot, Some(Thread::Live(_)))
}

/// The id goes behind those that there are, if its thread hasn't ended.
fn append_id(slot: &Option<Thread>, id: u8, ids: &mut Ids)
    requires { length ids.old.items < 65 }
    ensures { ids.new.items ≡ ids.old.items ++ ids_of id slot.now }
{
    if is_live_slot(slot) {
        ids.push(id);
    }
}

/// The threads that haven't ended.
fn live_ids(threads: &Threads) -> Ids
    ensures { result.items ≡ ids_from 0 threads.now.threads }
{
    let mut ids = ArrayVec::new();
    let mut id = 0;
    let mut rest = threads.slots();
    while let [slot, tail @ ..] = rest {
        append_id(slot, id, &mut ids);
        id += 1;
        rest = tail;
    }
    ids
}

/// The threads that haven't ended; thread 1 where none is left.
pub fn shown_ids(threads: &Threads) -> Ids
    ensures { result.items ≡ shown_ids threads.now }
{
    if threads.is_any_live() {
        return live_ids(threads);
    }
    let mut ids = ArrayVec::new();
    ids.push(1);
    ids
}

/// Whether gdb knows a thread from the first stop on, where that is so of those up to a number.
pub fn is_known(known: u8, id: u32) -> bool
    ensures { result ≡ is_known known id }
{
    0 < id && id <= u32::from(known)
}

/// The id goes behind those that there are, if gdb knows its thread, or that hasn't ended.
fn append_listed(slot: &Option<Thread>, known: u8, id: u8, ids: &mut Ids)
    requires { length ids.old.items < 65 }
    ensures { ids.new.items ≡ ids.old.items ++ listed_of known id slot.now }
{
    if is_known(known, u32::from(id)) || is_live_slot(slot) {
        ids.push(id);
    }
}

/// The threads that gdb knows, and those that haven't ended.
pub fn listed_ids(threads: &Threads, known: u8) -> Ids
    ensures { result.items ≡ listed_from known 0 threads.now.threads }
{
    let mut ids = ArrayVec::new();
    let mut id = 0;
    let mut rest = threads.slots();
    while let [slot, tail @ ..] = rest {
        append_listed(slot, known, id, &mut ids);
        id += 1;
        rest = tail;
    }
    ids
}

/// Whether a thread hasn't ended.
fn is_live(threads: &Threads, id: u32) -> bool
    ensures live { result ≡ is_live threads.now id }
    ensures within { result ≡ true → id ≤ 64 }
{
    matches!(threads.thread(id), Some(Thread::Live(_)))
}

/// Whether the thread is among those that are shown.
pub fn is_shown(threads: &Threads, id: u32) -> bool
    ensures shown { result ≡ is_shown id threads.now }
    ensures within { result ≡ true → id ≤ 64 }
{
    is_live(threads, id) || !threads.is_any_live() && id == 1
}

/// Whether the thread is among those that are listed.
pub fn is_listed(threads: &Threads, known: u8, id: u32) -> bool
    ensures listed { result ≡ is_listed known id threads.now }
    ensures within { result ≡ true → id ≤ 255 }
{
    is_known(known, id) || is_shown(threads, id)
}
