//! Writing mutexes, barriers and read-write locks.
ghost use Rattle.std.specs.Prelude.{◌≡◌, ◌≤◌, ◌+◌, ◌==◌, if◌then◌else◌, ◌∷◌, ◌++◌, [], length};
ghost use Rattle.std.specs.List.{flat_map};
ghost use Rattle.byteorder.specs.Endian.{little_bytes};
ghost use Rattle.ckrt_tables.specs.Records.{counted, one_byte, two_bytes, id_or_0, mutex_bytes, barrier_bytes, rwlock_bytes, reader_bytes, reader_at, readers_from};
ghost use Rattle.ckrt_tables.specs.Writing.{HasRoom, IsPut};

use crate::numbers::{id_or_0, mutex_kind_number};
use crate::writing::{Record, put, put_all};
use byteorder::{ByteOrder, LittleEndian};
use ckrt_barrier::{Barrier, Barriers};
use ckrt_mutex::{Mutex, Mutexes};
use ckrt_objects::Entry;
use ckrt_rwlock::{RwLock, RwLocks};
use ckrt_thread::{MAX_THREADS, ThreadId};

/// A mutex. Its count is below 65,536, so two bytes have it whole.
fn mutex_bytes(entry: &Entry<Mutex>) -> [u8; 8]
    ensures { result ≡ mutex_bytes entry.now }
{
    let mutex = entry.value;
    let [low, high, _, _] = mutex.count.to_le_bytes();
    let kind = mutex_kind_number(mutex.kind);
    let mut bytes = [0, 0, 0, 0, kind, id_or_0(mutex.owner), low, high];
    LittleEndian::write_u32(&mut bytes, entry.address);
    bytes
}

impl Record for Entry<Mutex> {
    ghost use Rattle.ckrt_tables.specs.Records.{mutex_bytes};

    ghost encoding = { mutex_bytes };

    fn put(&self, out: &mut [u8], at: usize) -> usize {
        put(out, at, &mutex_bytes(self))
    }
}

/// A barrier.
fn barrier_bytes(entry: &Entry<Barrier>) -> [u8; 8]
    ensures { result ≡ barrier_bytes entry.now }
{
    let mut bytes = [0; 8];
    LittleEndian::write_u32(&mut bytes, entry.address);
    LittleEndian::write_u32(&mut bytes[4..], entry.value.count);
    bytes
}

impl Record for Entry<Barrier> {
    ghost use Rattle.ckrt_tables.specs.Records.{barrier_bytes};

    ghost encoding = { barrier_bytes };

    fn put(&self, out: &mut [u8], at: usize) -> usize {
        put(out, at, &barrier_bytes(self))
    }
}

/// The places for the counts of read locks: one for each thread's id, and place 0, which stays empty.
const PLACES: usize = MAX_THREADS + 1;

/// How many of the counts are above 0.
fn reader_count(counts: &[u16; PLACES]) -> u8
    ensures { result ≡ length (readers_from 0 counts.now) }
{
    let mut readers = 0;
    for id in 0..PLACES {
        readers += one_if_any(counts[id]);
    }
    readers
}

/// One where there is a read lock.
fn one_if_any(count: u16) -> u8
    ensures one { result ≡ (if count == 0 then 0 else 1) }
    ensures most { result ≤ 1 }
{
    if count == 0 { 0 } else { 1 }
}

/// A reader, where it has read locks.
fn put_reader(out: &mut [u8], at: usize, id: ThreadId, count: u16) -> usize
    requires { HasRoom out.old at (flat_map reader_bytes (reader_at id count)) }
    ensures { IsPut out.old at (flat_map reader_bytes (reader_at id count)) out.new result }
{
    if count == 0 {
        return at;
    }
    let [low, high] = count.to_le_bytes();
    put(out, at, &[id, low, high])
}

/// The readers by rising id.
fn put_readers(out: &mut [u8], at: usize, counts: &[u16; PLACES]) -> usize
    requires { HasRoom out.old at (flat_map reader_bytes (readers_from 0 counts.now)) }
    ensures { IsPut out.old at (flat_map reader_bytes (readers_from 0 counts.now)) out.new result }
{
    let mut end = at;
    for id in 0..PLACES {
        end = put_reader(out, end, id as u8, counts[id]);
    }
    end
}

/// What a read-write lock's record begins with.
fn rwlock_head(address: u32, writer: u8, readers: u8) -> [u8; 6]
    ensures { result ≡ little_bytes 4 address ++ (writer ∷ readers ∷ []) }
{
    let mut head = [0, 0, 0, 0, writer, readers];
    LittleEndian::write_u32(&mut head, address);
    head
}

impl Record for Entry<RwLock> {
    ghost use Rattle.ckrt_tables.specs.Records.{rwlock_bytes};

    ghost encoding = { rwlock_bytes };

    fn put(&self, out: &mut [u8], at: usize) -> usize {
        let counts = &self.value.readers;
        let writer = id_or_0(self.value.writer);
        let head = rwlock_head(self.address, writer, reader_count(counts));
        let end = put(out, at, &head);
        put_readers(out, end, counts)
    }
}

/// Mutexes by rising address, at most 256.
pub fn put_mutexes(out: &mut [u8], at: usize, mutexes: &Mutexes) -> usize
    requires few { length mutexes.now ≤ 256 }
    requires room { HasRoom out.old at (counted two_bytes mutex_bytes mutexes.now) }
    ensures { IsPut out.old at (counted two_bytes mutex_bytes mutexes.now) out.new result }
{
    let rows = mutexes.rows();
    let count = rows.len() as u16;
    let end = put(out, at, &count.to_le_bytes());
    put_all(out, end, rows.as_slice())
}

/// Barriers by rising address, at most 64.
pub fn put_barriers(out: &mut [u8], at: usize, barriers: &Barriers) -> usize
    requires few { length barriers.now ≤ 64 }
    requires room { HasRoom out.old at (counted one_byte barrier_bytes barriers.now) }
    ensures { IsPut out.old at (counted one_byte barrier_bytes barriers.now) out.new result }
{
    let rows = barriers.rows();
    let end = put(out, at, &[rows.len() as u8]);
    put_all(out, end, rows)
}

/// Read-write locks by rising address, at most 64.
pub fn put_rwlocks(out: &mut [u8], at: usize, rwlocks: &RwLocks) -> usize
    requires few { length rwlocks.now ≤ 64 }
    requires room { HasRoom out.old at (counted one_byte rwlock_bytes rwlocks.now) }
    ensures { IsPut out.old at (counted one_byte rwlock_bytes rwlocks.now) out.new result }
{
    let rows = rwlocks.rows();
    let end = put(out, at, &[rows.len() as u8]);
    put_all(out, end, rows)
}
