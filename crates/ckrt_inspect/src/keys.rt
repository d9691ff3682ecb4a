//! The lines of keys, and of the values that threads have under them.
ghost use Rattle.std.specs.Prelude.{◌≡◌, ◌++◌, OnOk, length, map};
ghost use Rattle.std.specs.List.{flat_map};
ghost use Rattle.ckrt_thread.specs.Contents.{rows_of, thread_rows};
ghost use Rattle.ckrt_thread.specs.State.{thread_of};
ghost use Rattle.ckrt_tables.specs.Records.{if_not_0, word_at, words_from};
ghost use Rattle.ckrt_inspect.specs.Listing.{all_key_lines, key_line, keys_lines, mark_line, value_line, value_lines};

use crate::texts::{push, push_hex, push_number};
use ckrt_thread::{Keys, MAX_KEYS, Thread, ThreadId, Threads};
use std::alloc::AllocError;

/// A line that the program may have no keys, where that is so.
fn push_mark(out: &mut Vec<u8>, is_on: bool) -> Result<(), AllocError>
    ensures { OnOk result (out.new.items ≡ out.old.items ++ mark_line is_on) }
{
    if is_on {
        return Ok(());
    }
    push(out, b"keys off\n")
}

/// A key with its destructor, if there is such a key.
fn push_key(out: &mut Vec<u8>, key: u32, destructor: Option<u32>) -> Result<(), AllocError>
    ensures { OnOk result
        (out.new.items ≡ out.old.items ++ flat_map key_line (word_at key destructor)) }
{
    let Some(address) = destructor else {
        return Ok(());
    };
    push(out, b"key ")?;
    push_number(out, u64::from(key))?;
    push(out, b" ")?;
    push_hex(out, address)?;
    push(out, b"\n")
}

/// The keys by rising number.
fn push_destructors(out: &mut Vec<u8>, destructors: &[Option<u32>]) -> Result<(), AllocError>
    requires { length destructors.now ≡ 32 }
    ensures { OnOk result
        (out.new.items ≡ out.old.items ++ flat_map key_line (words_from 0 destructors.now)) }
{
    for key in 0..MAX_KEYS {
        push_key(out, key as u32, destructors[key])?;
    }
    Ok(())
}

/// The keys of the program.
fn push_keys(out: &mut Vec<u8>, keys: &Keys) -> Result<(), AllocError>
    ensures { OnOk result (out.new.items ≡ out.old.items ++ keys_lines keys.now) }
{
    push_mark(out, keys.is_on())?;
    push_destructors(out, keys.destructors())
}

/// A thread's value under a key, where it isn't 0.
fn push_value(out: &mut Vec<u8>, thread: ThreadId, key: u32, value: u32) -> Result<(), AllocError>
    ensures { OnOk result (out.new.items
        ≡ out.old.items ++ flat_map (value_line thread) (word_at key (if_not_0 value))) }
{
    if value == 0 {
        return Ok(());
    }
    push(out, b"value ")?;
    push_number(out, u64::from(thread))?;
    push(out, b" ")?;
    push_number(out, u64::from(key))?;
    push(out, b" ")?;
    push_number(out, u64::from(value))?;
    push(out, b"\n")
}

/// A thread's values by rising key.
fn push_values(
    out: &mut Vec<u8>,
    thread: ThreadId,
    values: &[u32; MAX_KEYS],
) -> Result<(), AllocError>
    ensures { OnOk result (out.new.items
        ≡ out.old.items
        ++ flat_map (value_line thread) (words_from 0 (map if_not_0 values.now))) }
{
    for key in 0..MAX_KEYS {
        push_value(out, thread, key as u32, values[key])?;
    }
    Ok(())
}

/// The values of what stands for an id.
fn push_slot_values(out: &mut Vec<u8>, threads: &Threads, id: ThreadId) -> Result<(), AllocError>
    ensures { OnOk result (out.new.items
        ≡ out.old.items ++ flat_map value_lines (rows_of id (thread_of threads.now id))) }
{
    match threads.thread(u32::from(id)) {
        Some(Thread::Live(live)) => push_values(out, id, &live.specific.values),
        Some(Thread::Ended(_value)) => Ok(()),
        None => Ok(()),
    }
}

/// The values of all threads, by rising id.
fn push_all_values(out: &mut Vec<u8>, threads: &Threads) -> Result<(), AllocError>
    ensures { OnOk result
        (out.new.items ≡ out.old.items ++ flat_map value_lines (thread_rows threads.now)) }
{
    threads.known();
    for id in 0..65u8 {
        push_slot_values(out, threads, id)?;
    }
    Ok(())
}

/// The keys of the program, and the values under them.
pub fn push_all_keys(out: &mut Vec<u8>, threads: &Threads) -> Result<(), AllocError>
    ensures { OnOk result (out.new.items ≡ out.old.items ++ all_key_lines threads.now) }
{
    push_keys(out, threads.keys())?;
    push_all_values(out, threads)
}
