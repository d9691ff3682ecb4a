//! Locks that threads take and give up.
ghost use Rattle.std.specs.Prelude.{◌≡◌};
ghost use Rattle.std.specs.List.{list_any};
ghost use Rattle.ckrt_look_clocks.specs.LockOrders.{clashes, clashes_with, is_alike, is_lock, is_of, is_same_taking, no_lock, unless_of};

use crate::operation::Place;

/// A lock, by what it is and where it lies.
#[derive(Clone, Copy, Debug, Drop)]
pub enum LockName {
    Mutex(u32),
    RwLock(u32),
}

/// How a thread took a lock, and where.
#[derive(Clone, Copy, Debug, Drop)]
pub struct Taking {
    pub lock: LockName,
    /// Whether to read alone.
    pub reads: bool,
    /// The address of the call.
    pub pc: u32,
    /// The address to which its function returns.
    pub caller: u32,
    pub place: Place,
}

/// What threads do with locks.
#[derive(Clone, Copy, Debug, Drop)]
pub enum Locking {
    /// A thread takes a lock, for which it would have waited without a deadline, or not.
    Take(u8, bool, Taking),
    /// A thread gives a lock up.
    GiveUp(u8, LockName),
    /// A lock is made or destroyed: from here on its name is that of another one.
    Renew(LockName),
    /// A thread begins, and holds no lock.
    Begin(u8),
}

/// Whether two names are those of one lock.
pub(crate) fn is_lock(a: LockName, b: LockName) -> bool
    ensures { result ≡ is_lock a b }
{
    match (a, b) {
        (LockName::Mutex(a), LockName::Mutex(b)) => a == b,
        (LockName::RwLock(a), LockName::RwLock(b)) => a == b,
        _ => false,
    }
}

/// The taking of no lock.
pub(crate) fn no_lock() -> Taking
    ensures { result ≡ no_lock }
{
    Taking {
        lock: LockName::Mutex(0),
        reads: false,
        pc: 0,
        caller: 0,
        place: Place { event: 0, step: 0 },
    }
}

/// Whether two takings keep each other out.
fn clashes(a: &Taking, b: &Taking) -> bool
    ensures { result ≡ clashes a.now b.now }
{
    is_lock(a.lock, b.lock) && !(a.reads && b.reads)
}

/// Whether a lock that is held keeps this taking out.
pub(crate) fn clashes_with(a: &Taking, held: &Option<Taking>) -> bool
    ensures { result ≡ clashes_with a.now held.now }
{
    match held {
        Some(b) => clashes(a, b),
        None => false,
    }
}

/// Whether a lock is held here.
pub(crate) fn is_of(lock: LockName, held: &Option<Taking>) -> bool
    ensures { result ≡ is_of lock held.now }
{
    match held {
        Some(taking) => is_lock(lock, taking.lock),
        None => false,
    }
}

/// What is held here, unless it is this lock.
pub(crate) fn unless_of(lock: LockName, held: Option<Taking>) -> Option<Taking>
    ensures { result ≡ unless_of lock held }
{
    if is_of(lock, &held) { None } else { held }
}

/// Whether two takings are of one lock in the same way.
pub(crate) fn is_same_taking(a: &Taking, b: &Taking) -> bool
    ensures { result ≡ is_same_taking a.now b.now }
{
    is_lock(a.lock, b.lock) && if a.reads { b.reads } else { !b.reads }
}

/// Whether the same lock is held in the same way, or none.
pub(crate) fn is_alike(a: &Option<Taking>, b: &Option<Taking>) -> bool
    ensures { result ≡ is_alike a.now b.now }
{
    match a {
        Some(a) => match b {
            Some(b) => is_same_taking(a, b),
            None => false,
        },
        None => b.is_none(),
    }
}
