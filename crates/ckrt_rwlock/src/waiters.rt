//! Who waits for a lock.
ghost use Rattle.std.specs.Prelude.{◌≡◌, ◌||◌};
ghost use Rattle.ckrt_thread.specs.Granting.{has_admissible_waiter};
ghost use Rattle.ckrt_rwlock.specs.RwLock.{is_written};
ghost use Rattle.ckrt_rwlock.specs.Rows.{is_awaited, rwlock_rule};

use crate::records::RwLock;
use ckrt_objects::Grant;
use ckrt_thread::{Object, Threads};

/// Whether a thread waits for the lock.
fn is_awaited(threads: &Threads, address: u32) -> bool
    ensures { result ≡ is_awaited address threads.now }
{
    threads.first_waiter(Object::RwLock(address)).is_some()
}

/// Whether a thread that has no read lock has to wait for one: a thread writes, or threads wait for the lock already.
pub fn has_to_wait(threads: &Threads, lock: &RwLock, address: u32) -> bool
    ensures { result ≡ (is_written lock.now || is_awaited address threads.now) }
{
    lock.is_written() || is_awaited(threads, address)
}

/// Whether the first thread that waits for the lock could be granted it.
pub fn has_admissible_waiter(threads: &Threads, lock: &RwLock, address: u32) -> bool
    ensures { result ≡ has_admissible_waiter (rwlock_rule address) (lock.now, threads.now) }
{
    match threads.first_waiter(Object::RwLock(address)) {
        Some(wait) => lock.admits(&wait),
        None => false,
    }
}
