//! A read-write lock.
ghost use Rattle.std.specs.Prelude.{◌≡◌, nat_lt, ◌<◌, ◌≤◌, ◌+◌, ◌-◌, length, true, Some, None};
ghost use Rattle.std.specs.List.{list_any};
ghost use Rattle.ckrt_rwlock.specs.RwLock.{unheld, read_count, is_writer, is_reader, is_holder, is_written, is_read, is_held, is_thread_or_none, are_proper_counts, is_exclusive, is_proper, with_writer, with_read_count, given_up};

use ckrt_objects::{Grant, Named};
use ckrt_thread::{MAX_THREADS, Reason, ThreadId, Wait};

/// The places for read counts: one for each thread's number, and place 0, which stays empty.
const PLACES: usize = MAX_THREADS + 1;

/// A read-write lock.
#[derive(Clone, Copy, Debug, Drop)]
pub struct RwLock {
    /// The thread that writes, 1 to 64.
    pub writer: Option<ThreadId>,
    /// How many read locks each thread has, by its number: at most 65,535, and none at 0.
    pub readers: [u16; PLACES],
}

impl Default for RwLock {
    fn default() -> Self {
        RwLock::unheld()
    }
}

impl Named for RwLock {
    ghost use Rattle.ckrt_rwlock.specs.Rows.{named};
    ghost use Rattle.ckrt_rwlock.specs.Named.{named_by_object};

    ghost named = { named };

    ghost by_object = { named_by_object };

    fn named_by(wait: &Wait) -> Option<u32> {
        match wait.reason {
            Reason::Read(address) => Some(address),
            Reason::Write(address) => Some(address),
            _ => None,
        }
    }
}

impl Grant for RwLock {
    ghost use Rattle.std.specs.Prelude.{◌≡◌, true};
    ghost use Rattle.ckrt_rwlock.specs.RwLock.{is_proper, is_exclusive};
    ghost use Rattle.ckrt_rwlock.specs.Rows.{is_admissible_for, granted_for};

    ghost IsProper = { λ l. (is_proper l ≡ true) × (is_exclusive l ≡ true) };

    ghost is_admissible = { λ l w. is_admissible_for w.reason l };

    ghost granted = { λ l w. granted_for w.reason w.thread l };

    fn admits(&self, wait: &Wait) -> bool {
        match wait.reason {
            Reason::Read(_) => !self.is_written(),
            Reason::Write(_) => !self.is_held(),
            _ => false,
        }
    }

    fn grant(&mut self, wait: &Wait) {
        match wait.reason {
            Reason::Read(_) => *self = self.with_read_count(wait.thread, 1),
            Reason::Write(_) => *self = self.with_writer(Some(wait.thread)),
            _ => {}
        }
    }
}

impl RwLock {
    /// A lock that nobody holds.
    pub fn unheld() -> Self
        ensures { result ≡ unheld }
    {
        RwLock {
            writer: None,
            readers: [0; PLACES],
        }
    }

    /// How many read locks the thread has: none where there is no such thread.
    pub fn read_count(&self, thread: ThreadId) -> u16
        ensures { result ≡ read_count thread self.now }
    {
        self.readers.get(thread as usize).copied().unwrap_or(0)
    }

    /// Whether the thread writes under the lock.
    pub fn is_writer(&self, thread: ThreadId) -> bool
        ensures { result ≡ is_writer thread self.now }
    {
        match self.writer {
            Some(writer) => thread == writer,
            None => false,
        }
    }

    /// Whether the thread reads under the lock.
    pub fn is_reader(&self, thread: ThreadId) -> bool
        ensures { result ≡ is_reader thread self.now }
    {
        self.read_count(thread) > 0
    }

    /// Whether the thread holds the lock, to write or to read.
    pub fn is_holder(&self, thread: ThreadId) -> bool
        ensures { result ≡ is_holder thread self.now }
    {
        self.is_writer(thread) || self.is_reader(thread)
    }

    /// Whether a thread writes under the lock.
    pub fn is_written(&self) -> bool
        ensures { result ≡ is_written self.now }
    {
        self.writer.is_some()
    }

    /// Whether a thread holds the lock.
    pub fn is_held(&self) -> bool
        ensures { result ≡ is_held self.now }
    {
        self.is_written() || self.is_read()
    }

    /// Whether a thread reads under the lock.
    pub fn is_read(&self) -> bool
        ensures { result ≡ is_read self.now }
    {
        is_any_above_0(self.readers.as_slice())
    }

    /// Whether no thread reads beside one that writes.
    pub fn is_exclusive(&self) -> bool
        ensures { result ≡ is_exclusive self.now }
    {
        !(self.is_written() && self.is_read())
    }

    /// Whether writer and readers are threads, 1 to 64.
    pub fn is_proper(&self) -> bool
        ensures { result ≡ is_proper self.now }
    {
        is_thread_or_none(self.writer) && are_proper_counts(self.readers.as_slice())
    }

    /// The lock with this writer, or with none.
    pub fn with_writer(self, writer: Option<ThreadId>) -> Self
        ensures { result ≡ with_writer writer self }
    {
        let readers = self.readers;
        RwLock { writer, readers }
    }

    /// The lock with that many read locks of the thread.
    pub fn with_read_count(self, thread: ThreadId, count: u16) -> Self
        requires { thread ≤ 64 }
        ensures { result ≡ with_read_count thread count self }
    {
        let mut readers = self.readers;
        readers[thread as usize] = count;
        RwLock {
            writer: self.writer,
            readers,
        }
    }

    /// The lock after a thread that holds it has given it up once.
    pub fn given_up_by(self, thread: ThreadId) -> Self
        requires thread { thread ≤ 64 }
        requires holder { is_holder thread self ≡ true }
        ensures { result ≡ given_up thread self }
    {
        if self.is_writer(thread) {
            self.with_writer(None)
        } else {
            self.with_read_count(thread, self.read_count(thread) - 1)
        }
    }
}

/// Whether this is none, or the number of a thread.
fn is_thread_or_none(writer: Option<ThreadId>) -> bool
    ensures { result ≡ is_thread_or_none writer }
{
    match writer {
        Some(thread) => thread > 0 && thread <= 64,
        None => true,
    }
}

/// Whether the counts, one for each thread by its number, have nothing at 0.
fn are_proper_counts(counts: &[u16]) -> bool
    requires { length counts.now ≡ 65 }
    ensures { result ≡ are_proper_counts counts.now }
{
    counts[0] == 0
}

/// Whether one of the counts is above 0.
fn is_any_above_0(counts: &[u16]) -> bool
    ensures { result ≡ list_any (nat_lt 0) counts.now }
{
    counts.iter().any(|count| *count > 0)
}
