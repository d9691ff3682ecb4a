//! The lines of mutexes, barriers and read-write locks.
ghost use Rattle.std.specs.Prelude.{◌≡◌, ◌++◌, length, decimal, codes, OnOk};
ghost use Rattle.std.specs.List.{flat_map};
ghost use Rattle.ckrt_tables.specs.Records.{id_or_0, reader_at, readers_from};
ghost use Rattle.ckrt_inspect.specs.Listing.{barrier_line, holders_text, mutex_line, object_lines, reader_text, rwlock_line};

use crate::rows::{Row, push_rows};
use crate::texts::{kind_text, push, push_hex, push_number};
use ckrt_barrier::Barrier;
use ckrt_calls::Tables;
use ckrt_mutex::Mutex;
use ckrt_objects::Entry;
use ckrt_rwlock::RwLock;
use ckrt_thread::{MAX_THREADS, ThreadId};
use std::alloc::AllocError;

/// Who owns a mutex, 0 where nobody does.
fn owner_or_0(owner: Option<ThreadId>) -> u64
    ensures { result ≡ id_or_0 owner }
{
    u64::from(owner.unwrap_or(0))
}

impl Row for Entry<Mutex> {
    ghost use Rattle.ckrt_inspect.specs.Listing.{mutex_line};

    ghost text = { mutex_line };

    fn push_to(&self, out: &mut Vec<u8>) -> Result<(), AllocError> {
        let mutex = self.value;
        push(out, b"mutex ")?;
        push_hex(out, self.address)?;
        push(out, b" ")?;
        push(out, kind_text(mutex.kind))?;
        push(out, b" ")?;
        push_number(out, owner_or_0(mutex.owner))?;
        push(out, b" ")?;
        push_number(out, u64::from(mutex.count))?;
        push(out, b"\n")
    }
}

impl Row for Entry<Barrier> {
    ghost use Rattle.ckrt_inspect.specs.Listing.{barrier_line};

    ghost text = { barrier_line };

    fn push_to(&self, out: &mut Vec<u8>) -> Result<(), AllocError> {
        push(out, b"barrier ")?;
        push_hex(out, self.address)?;
        push(out, b" ")?;
        push_number(out, u64::from(self.value.count))?;
        push(out, b"\n")
    }
}

/// The places for the counts of read locks: one for each thread's id, and place 0, which stays empty.
const PLACES: usize = MAX_THREADS + 1;

/// A reader, where it has read locks.
fn push_reader(out: &mut Vec<u8>, id: usize, count: u16) -> Result<(), AllocError>
    ensures { OnOk result
        (out.new.items ≡ out.old.items ++ flat_map reader_text (reader_at id count)) }
{
    if count == 0 {
        return Ok(());
    }
    push(out, b" ")?;
    push_number(out, id as u64)?;
    push(out, b":")?;
    push_number(out, u64::from(count))
}

/// The readers by rising id.
fn push_readers(out: &mut Vec<u8>, counts: &[u16; PLACES]) -> Result<(), AllocError>
    ensures { OnOk result
        (out.new.items ≡ out.old.items ++ flat_map reader_text (readers_from 0 counts.now)) }
{
    for id in 0..PLACES {
        push_reader(out, id, counts[id])?;
    }
    Ok(())
}

fn push_writer(out: &mut Vec<u8>, thread: ThreadId) -> Result<(), AllocError>
    ensures { OnOk result (out.new.items ≡ out.old.items ++ (codes " writer " ++ decimal thread)) }
{
    push(out, b" writer ")?;
    push_number(out, u64::from(thread))
}

fn push_all_readers(out: &mut Vec<u8>, counts: &[u16; PLACES]) -> Result<(), AllocError>
    ensures { OnOk result (out.new.items
        ≡ out.old.items
        ++ (codes " readers" ++ flat_map reader_text (readers_from 0 counts.now))) }
{
    push(out, b" readers")?;
    push_readers(out, counts)
}

/// Who holds a read-write lock.
fn push_holders(
    out: &mut Vec<u8>,
    writer: Option<ThreadId>,
    counts: &[u16; PLACES],
) -> Result<(), AllocError>
    ensures { OnOk result
        (out.new.items ≡ out.old.items ++ holders_text writer (readers_from 0 counts.now)) }
{
    match writer {
        Some(thread) => push_writer(out, thread),
        None => push_all_readers(out, counts),
    }
}

impl Row for Entry<RwLock> {
    ghost use Rattle.ckrt_inspect.specs.Listing.{rwlock_line};

    ghost text = { rwlock_line };

    fn push_to(&self, out: &mut Vec<u8>) -> Result<(), AllocError> {
        push(out, b"rwlock ")?;
        push_hex(out, self.address)?;
        push_holders(out, self.value.writer, &self.value.readers)?;
        push(out, b"\n")
    }
}

/// The lines of a program's objects.
pub fn push_objects(out: &mut Vec<u8>, tables: &Tables) -> Result<(), AllocError>
    ensures { OnOk result (out.new.items ≡ out.old.items ++ object_lines tables.now) }
{
    let mutexes = tables.mutexes.rows();
    push_rows(out, mutexes.as_slice())?;
    push_rows(out, tables.barriers.rows())?;
    push_rows(out, tables.rwlocks.rows())
}
