//! What is told of a thread.
ghost use Rattle.std.specs.Prelude.{◌≡◌, ◌+◌, ◌≤◌, ◌++◌, IsOk, OnOk, IfSome, length, codes};
ghost use Rattle.arrayvec.specs.ArrayVec.{array_vec_len};
ghost use Rattle.ckrt_objects.specs.declared.address_map.Entry.{Entry};
ghost use Rattle.ckrt_thread.specs.State.{holds};
ghost use Rattle.ckrt_gdb_playback.specs.Standing.{hart_from, hart_text, mutex_text, owner_of, owner_text, reason_text, standing_text, until_text, wait_text};

use crate::bytes::{Bytes, push, push_at, push_counted};
use ckrt_calls::Tables;
use ckrt_gdb_forms::Full;
use ckrt_mutex::Mutexes;
use ckrt_objects::get;
use ckrt_thread::{Reason, ThreadId, Threads, Wait};

/// Who owns the mutex at an address.
fn owner_of(mutexes: &Mutexes, address: u32) -> Option<ThreadId>
    ensures { result ≡ owner_of address mutexes.now }
{
    mutexes.known();
    let rows = mutexes.rows();
    let mutex = get(rows.as_slice(), address)?;
    mutex.owner
}

/// Who owns it, if somebody does.
fn push_owner(out: &mut Bytes, owner: Option<ThreadId>) -> Result<(), Full>
    ensures done { OnOk result (out.new.items ≡ out.old.items ++ owner_text owner) }
    ensures fits { array_vec_len out.old + length (owner_text owner) ≤ 2048 → IsOk result }
{
    match owner {
        Some(thread) => push_counted(out, b" of thread ", u64::from(thread)),
        None => Ok(()),
    }
}

/// A text, a mutex, and who has it.
fn push_mutex(out: &mut Bytes, text: &[u8], address: u32, mutexes: &Mutexes) -> Result<(), Full>
    ensures done { OnOk result
        (out.new.items ≡ out.old.items ++ (text.now ++ mutex_text address mutexes.now)) }
    ensures fits { array_vec_len out.old + length (text.now ++ mutex_text address mutexes.now)
        ≤ 2048 → IsOk result }
{
    push_at(out, text, address)?;
    push_owner(out, owner_of(mutexes, address))
}

/// What a thread waits for.
fn push_reason(out: &mut Bytes, reason: Reason, mutexes: &Mutexes) -> Result<(), Full>
    ensures done { OnOk result
        (out.new.items ≡ out.old.items ++ reason_text reason mutexes.now) }
    ensures fits { array_vec_len out.old + length (reason_text reason mutexes.now) ≤ 2048
        → IsOk result }
{
    match reason {
        Reason::Input => push(out, b"waits for input"),
        Reason::Sleep => push(out, b"sleeps"),
        Reason::Join(thread) => push_counted(out, b"joins thread ", u64::from(thread)),
        Reason::Lock(mutex) => push_mutex(out, b"waits for mutex ", mutex, mutexes),
        Reason::Retake(mutex, _) => push_mutex(out, b"waits again for mutex ", mutex, mutexes),
        Reason::Condition(condition, _) => push_at(out, b"waits at condition ", condition),
        Reason::Barrier(barrier) => push_at(out, b"waits at barrier ", barrier),
        Reason::Read(lock) => push_at(out, b"waits to read ", lock),
        Reason::Write(lock) => push_at(out, b"waits to write ", lock),
    }
}

/// Until when it waits, where it has a deadline.
fn push_until(out: &mut Bytes, deadline: Option<u64>) -> Result<(), Full>
    ensures done { OnOk result (out.new.items ≡ out.old.items ++ until_text deadline) }
    ensures fits { array_vec_len out.old + length (until_text deadline) ≤ 2048 → IsOk result }
{
    match deadline {
        Some(moment) => push_counted(out, b", until ", moment),
        None => Ok(()),
    }
}

fn push_wait(out: &mut Bytes, wait: &Wait, mutexes: &Mutexes) -> Result<(), Full>
    ensures done { OnOk result
        (out.new.items ≡ out.old.items ++ wait_text wait.now mutexes.now) }
    ensures fits { array_vec_len out.old + length (wait_text wait.now mutexes.now) ≤ 2048
        → IsOk result }
{
    push_reason(out, wait.reason, mutexes)?;
    push_until(out, wait.deadline)
}

/// Whether a hart has the thread.
fn is_held(on: Option<ThreadId>, thread: ThreadId) -> bool
    ensures { result ≡ holds thread on }
{
    match on {
        Some(held) => thread == held,
        None => false,
    }
}

/// The hart that the thread is on.
fn hart_of(threads: &Threads, thread: ThreadId) -> Option<usize>
    ensures { result ≡ hart_from 0 thread threads.now.harts }
{
    threads.known();
    for hart in 0..8usize {
        if is_held(threads.on_hart(hart), thread) {
            return Some(hart);
        }
    }
    None
}

fn push_hart(out: &mut Bytes, hart: Option<usize>) -> Result<(), Full>
    ensures done { OnOk result (out.new.items ≡ out.old.items ++ hart_text hart) }
    ensures fits { array_vec_len out.old + length (hart_text hart) ≤ 2048 → IsOk result }
{
    match hart {
        Some(hart) => push_counted(out, b"on hart ", hart as u64),
        None => push(out, b"ready"),
    }
}

/// For what a thread waits, or on which hart it is.
pub fn push_standing(out: &mut Bytes, tables: &Tables, thread: ThreadId) -> Result<(), Full>
    ensures done { OnOk result
        (out.new.items ≡ out.old.items ++ standing_text thread tables.now) }
    ensures fits { array_vec_len out.old + length (standing_text thread tables.now) ≤ 2048
        → IsOk result }
{
    match tables.threads.wait_of(thread) {
        Some(wait) => push_wait(out, &wait, &tables.mutexes),
        None => push_hart(out, hart_of(&tables.threads, thread)),
    }
}
