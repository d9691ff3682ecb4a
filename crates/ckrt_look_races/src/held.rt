//! The locks that a thread holds, as lines.
ghost use Rattle.std.specs.Prelude.{◌≡◌, OnOk};
ghost use Rattle.std.specs.List.{flat_map, list_any};
ghost use Rattle.std.specs.Io.KnownBytes.{Appends};
ghost use Rattle.ckrt_look_races.specs.Moments.{access_lines, held_lines, holds_any, holds_mutex, holds_rwlock, mutex_line, none_held, rwlock_line, way_text};

use crate::kit::is_of_kit;
use ckrt_calls::Tables;
use ckrt_look_calls::{Moment, write_callers, write_moment, write_moment_line};
use ckrt_look_recording::Rule;
use ckrt_machine::Machine;
use ckrt_mutex::Mutex;
use ckrt_objects::Entry;
use ckrt_rwlock::RwLock;
use ckrt_thread::ThreadId;
use std::io::{Result, Write};

/// Whether a thread holds a mutex of its program.
fn holds_mutex(thread: ThreadId, entry: &Entry<Mutex>) -> bool
    ensures { result ≡ holds_mutex thread entry.now }
{
    !is_of_kit(entry.address) && entry.value.is_owned_by(thread)
}

/// Whether a thread holds a read-write lock of its program.
fn holds_rwlock(thread: ThreadId, entry: &Entry<RwLock>) -> bool
    ensures { result ≡ holds_rwlock thread entry.now }
{
    !is_of_kit(entry.address) && entry.value.is_holder(thread)
}

/// Whether a thread holds one of these mutexes.
fn any_mutex(thread: ThreadId, entries: &[Entry<Mutex>]) -> bool
    ensures { result ≡ list_any (holds_mutex thread) entries.now }
{
    entries.iter().any(|entry| holds_mutex(thread, entry))
}

/// Whether a thread holds one of these read-write locks.
fn any_rwlock(thread: ThreadId, entries: &[Entry<RwLock>]) -> bool
    ensures { result ≡ list_any (holds_rwlock thread) entries.now }
{
    entries.iter().any(|entry| holds_rwlock(thread, entry))
}

/// Whether a thread holds any lock of its program.
fn holds_any(thread: ThreadId, tables: &Tables) -> bool
    ensures { result ≡ holds_any thread tables.now }
{
    any_mutex(thread, tables.mutexes.rows().as_slice()) || any_rwlock(thread, tables.rwlocks.rows())
}

/// A mutex, if it is held.
#[tactic(auto, using(ckrt_look_calls::proofs::AppendLemmas::appends_none))]
fn write_mutex<W: Write>(out: &mut W, moment: &Moment, entry: &Entry<Mutex>) -> Result<()>
    ensures { OnOk result
        (Appends (W.contents out.old) (W.contents out.new) (mutex_line moment.now entry.now)) }
{
    if holds_mutex(moment.thread, entry) {
        return write_moment_line(out, moment, b" holds mutex ", entry.address, b"\n");
    }
    Ok(())
}

/// The mutexes that are held.
#[tactic(auto, using(ckrt_look_calls::proofs::AppendLemmas::appends_none, ckrt_look_calls::proofs::AppendLemmas::appends_more, ckrt_look_calls::proofs::AppendLemmas::appends_all))]
fn write_mutexes<W: Write>(out: &mut W, moment: &Moment, entries: &[Entry<Mutex>]) -> Result<()>
    ensures { OnOk result
        (Appends (W.contents out.old) (W.contents out.new)
        (flat_map (mutex_line moment.now) entries.now)) }
{
    for entry in entries {
        write_mutex(out, moment, entry)?;
    }
    Ok(())
}

/// Whether it is held to write, or to read.
fn way_text(writes: bool) -> &'static [u8]
    ensures { result.now ≡ way_text writes }
{
    if writes {
        b" to write\n".as_slice()
    } else {
        b" to read\n".as_slice()
    }
}

/// A read-write lock, if it is held.
#[tactic(auto, using(ckrt_look_calls::proofs::AppendLemmas::appends_none))]
fn write_rwlock<W: Write>(out: &mut W, moment: &Moment, entry: &Entry<RwLock>) -> Result<()>
    ensures { OnOk result
        (Appends (W.contents out.old) (W.contents out.new) (rwlock_line moment.now entry.now)) }
{
    if holds_rwlock(moment.thread, entry) {
        let way = way_text(entry.value.is_writer(moment.thread));
        return write_moment_line(out, moment, b" holds rwlock ", entry.address, way);
    }
    Ok(())
}

/// The read-write locks that are held.
#[tactic(auto, using(ckrt_look_calls::proofs::AppendLemmas::appends_none, ckrt_look_calls::proofs::AppendLemmas::appends_more, ckrt_look_calls::proofs::AppendLemmas::appends_all))]
fn write_rwlocks<W: Write>(out: &mut W, moment: &Moment, entries: &[Entry<RwLock>]) -> Result<()>
    ensures { OnOk result
        (Appends (W.contents out.old) (W.contents out.new)
        (flat_map (rwlock_line moment.now) entries.now)) }
{
    for entry in entries {
        write_rwlock(out, moment, entry)?;
    }
    Ok(())
}

/// That none is held.
#[tactic(auto, using(ckrt_look_calls::proofs::AppendLemmas::appends_none, ckrt_look_calls::proofs::AppendLemmas::appends_both))]
fn write_none_held<W: Write>(out: &mut W, moment: &Moment, holds: bool) -> Result<()>
    ensures { OnOk result
        (Appends (W.contents out.old) (W.contents out.new) (none_held moment.now holds)) }
{
    if holds {
        return Ok(());
    }
    write_moment(out, moment)?;
    out.write_all(b" holds no lock\n")
}

/// The locks that the thread of a moment holds.
#[tactic(auto, using(ckrt_look_calls::proofs::AppendLemmas::appends_both))]
fn write_held<W: Write>(out: &mut W, moment: &Moment, tables: &Tables) -> Result<()>
    ensures { OnOk result
        (Appends (W.contents out.old) (W.contents out.new) (held_lines moment.now tables.now)) }
{
    write_mutexes(out, moment, tables.mutexes.rows().as_slice())?;
    write_rwlocks(out, moment, tables.rwlocks.rows())?;
    write_none_held(out, moment, holds_any(moment.thread, tables))
}

/// The locks and the callers of the thread of a moment.
#[tactic(auto, using(ckrt_look_calls::proofs::AppendLemmas::appends_both))]
pub(crate) fn write_access_lines<W: Write>(
    out: &mut W,
    moment: &Moment,
    rules: &[Rule],
    machine: &Machine,
) -> Result<()>
    ensures { OnOk result
        (Appends (W.contents out.old) (W.contents out.new)
        (access_lines moment.now rules.now machine.now.state)) }
{
    write_held(out, moment, machine.tables())?;
    write_callers(out, moment, rules, machine)
}
