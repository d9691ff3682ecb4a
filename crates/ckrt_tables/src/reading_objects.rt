//! Reading mutexes, barriers and read-write locks.
ghost use Rattle.std.specs.Prelude.{◌≡◌, ◌∷◌, [], true};
ghost use Rattle.ckrt_tables.specs.Records.{counted, one_byte, two_bytes, hart_bytes, mutex_kind_number, mutex_bytes, barrier_bytes, rwlock_bytes, counts_bytes};
ghost use Rattle.ckrt_tables.specs.Savable.{if_there, is_id};
ghost use Rattle.ckrt_tables.specs.Decoding.{Finds};
ghost use Rattle.ckrt_tables.specs.Objects.{FindsAll, AreMutexes, AreBarriers, AreRwLocks, AreCounts};

use crate::cursor::Cursor;
use crate::reading::{Row, read_few, read_many};
use ckrt_barrier::{Barrier, Barriers};
use ckrt_mutex::{Kind, Mutex, Mutexes};
use ckrt_objects::Entry;
use ckrt_rwlock::{RwLock, RwLocks};
use ckrt_thread::{MAX_THREADS, ThreadId};

/// The id of a thread, which 0 stands for none.
pub fn read_id(cursor: &mut Cursor<'_>) -> Option<ThreadId>
    ensures { Finds (if_there is_id) hart_bytes cursor.old result cursor.new }
{
    let id = cursor.byte();
    if id == 0 { None } else { Some(id) }
}

/// The kind of a mutex.
fn read_kind(cursor: &mut Cursor<'_>) -> Kind
    ensures { Finds (λ k. true) (λ k. mutex_kind_number k ∷ []) cursor.old result cursor.new }
{
    let number = cursor.byte();
    Kind::from_number(u32::from(number)).unwrap_or(Kind::Normal)
}

impl Row for Entry<Mutex> {
    type Table = Mutexes;

    ghost use Rattle.ckrt_objects.specs.Appended.{IsTableUpTo};
    ghost use Rattle.ckrt_mutex.specs.Mutex.{IsTable};
    ghost use Rattle.ckrt_tables.specs.Records.{mutex_bytes};
    ghost use Rattle.ckrt_tables.specs.Savable.{fits_mutex};
    ghost use Rattle.ckrt_tables.specs.Objects.{LeadsToTable};

    ghost encoding = { mutex_bytes };

    ghost fits = { fits_mutex };

    ghost LeadsTo = { LeadsToTable (IsTableUpTo 256 IsTable) };

    fn read(cursor: &mut Cursor<'_>) -> Self {
        let address = cursor.word();
        let kind = read_kind(cursor);
        let owner = read_id(cursor);
        let count = u32::from(cursor.half());
        Entry {
            address,
            value: Mutex { kind, owner, count },
        }
    }

    fn append(self, table: &mut Mutexes) {
        table.append(self);
    }
}

impl Row for Entry<Barrier> {
    type Table = Barriers;

    ghost use Rattle.ckrt_barrier.specs.WellFormed.{IsTable};
    ghost use Rattle.ckrt_tables.specs.Records.{barrier_bytes};
    ghost use Rattle.ckrt_tables.specs.Savable.{fits_barrier};
    ghost use Rattle.ckrt_tables.specs.Objects.{LeadsToTable};

    ghost encoding = { barrier_bytes };

    ghost fits = { fits_barrier };

    ghost LeadsTo = { LeadsToTable IsTable };

    fn read(cursor: &mut Cursor<'_>) -> Self {
        let address = cursor.word();
        let count = cursor.word();
        Entry {
            address,
            value: Barrier { count },
        }
    }

    fn append(self, table: &mut Barriers) {
        table.append(self);
    }
}

/// How many read locks each thread has, by its id; none at 0.
#[derive(Drop)]
pub struct ReadCounts {
    by_id: [u16; MAX_THREADS + 1],
}

/// A thread that has read locks.
#[derive(Clone, Copy, Drop)]
pub struct Reader {
    /// The thread, 1 to 64.
    pub id: ThreadId,
    /// How many read locks it has, at least 1.
    pub count: u16,
}

impl Row for Reader {
    type Table = ReadCounts;

    ghost use Rattle.std.specs.Prelude.{◌≡◌};
    ghost use Rattle.ckrt_tables.specs.Records.{reader_bytes};
    ghost use Rattle.ckrt_tables.specs.Objects.{fits_reader, with_readers};

    ghost encoding = { reader_bytes };

    ghost fits = { fits_reader };

    ghost LeadsTo = { λ begun readers goal. goal.by_id ≡ with_readers readers begun.by_id };

    fn read(cursor: &mut Cursor<'_>) -> Self {
        let id = cursor.byte();
        let count = cursor.half();
        Reader { id, count }
    }

    fn append(self, table: &mut ReadCounts) {
        let place = usize::from(self.id);
        if place <= MAX_THREADS {
            table.by_id[place] = self.count;
        }
    }
}

/// How many readers a lock has, and each reader, into the counts by the ids.
fn read_counts(cursor: &mut Cursor<'_>) -> [u16; MAX_THREADS + 1]
    ensures { FindsAll AreCounts counts_bytes cursor.old result cursor.new }
{
    let mut counts = ReadCounts {
        by_id: [0; MAX_THREADS + 1],
    };
    read_few::<Reader>(cursor, &mut counts);
    counts.by_id
}

impl Row for Entry<RwLock> {
    type Table = RwLocks;

    ghost use Rattle.ckrt_objects.specs.Appended.{IsTableUpTo};
    ghost use Rattle.ckrt_rwlock.specs.RwLock.{IsTable};
    ghost use Rattle.ckrt_tables.specs.Records.{rwlock_bytes};
    ghost use Rattle.ckrt_tables.specs.Savable.{fits_rwlock};
    ghost use Rattle.ckrt_tables.specs.Objects.{LeadsToTable};

    ghost encoding = { rwlock_bytes };

    ghost fits = { fits_rwlock };

    ghost LeadsTo = { LeadsToTable (IsTableUpTo 64 IsTable) };

    fn read(cursor: &mut Cursor<'_>) -> Self {
        let address = cursor.word();
        let writer = read_id(cursor);
        let readers = read_counts(cursor);
        Entry {
            address,
            value: RwLock { writer, readers },
        }
    }

    fn append(self, table: &mut RwLocks) {
        table.append(self);
    }
}

/// Mutexes by rising address, onto a table that has none.
pub fn read_mutexes(cursor: &mut Cursor<'_>, mutexes: &mut Mutexes)
    requires { mutexes.old ≡ [] }
    ensures { FindsAll AreMutexes (counted two_bytes mutex_bytes) cursor.old mutexes.new
        cursor.new }
{
    read_many::<Entry<Mutex>>(cursor, mutexes);
}

/// Barriers by rising address, onto a table that has none.
pub fn read_barriers(cursor: &mut Cursor<'_>, barriers: &mut Barriers)
    requires { barriers.old ≡ [] }
    ensures { FindsAll AreBarriers (counted one_byte barrier_bytes) cursor.old barriers.new
        cursor.new }
{
    read_few::<Entry<Barrier>>(cursor, barriers);
}

/// Read-write locks by rising address, onto a table that has none.
pub fn read_rwlocks(cursor: &mut Cursor<'_>, rwlocks: &mut RwLocks)
    requires { rwlocks.old ≡ [] }
    ensures { FindsAll AreRwLocks (counted one_byte rwlock_bytes) cursor.old rwlocks.new
        cursor.new }
{
    read_few::<Entry<RwLock>>(cursor, rwlocks);
}
