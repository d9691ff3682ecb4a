//! A mutex.
ghost use Rattle.std.specs.Prelude.{◌≡◌, ◌&&◌, Some, None};
ghost use Rattle.ckrt_mutex.specs.Mutex.{free, owned, max_count, is_owned, is_owner, is_available, is_normal, is_recursive, is_errorcheck, is_plain, is_proper};
ghost use Rattle.ckrt_mutex.specs.Rows.{kind_of};
ghost use Rattle.ckrt_mutex.specs.WellFormed.{can_retake, may_wait_at};

use ckrt_objects::Named;
use ckrt_thread::{Reason, ThreadId, Wait};

/// How often the owner of a recursive mutex can lock it.
pub const MAX_RECURSIVE_COUNT: u32 = 65535;

/// What becomes of a thread that locks a mutex that it owns (POSIX.1-2017, pthread_mutexattr_settype).
#[derive(Clone, Copy, Debug, Default, Drop, PartialEq, Eq)]
pub enum Kind {
    /// It waits for itself.
    #[default]
    Normal,
    /// It locks the mutex once more.
    Recursive,
    /// It gets an error.
    ErrorCheck,
}

/// A mutex.
#[derive(Clone, Copy, Debug, Default, Drop)]
pub struct Mutex {
    pub kind: Kind,
    /// The thread that owns it, 1 to 64.
    pub owner: Option<ThreadId>,
    /// How often its owner has locked it: 0 if it is free, at most 65,535 if it is recursive, else 1.
    pub count: u32,
}

impl Kind {
    /// The kind that a number names: 0 normal, 1 recursive, 2 error-checking.
    pub fn from_number(number: u32) -> Option<Self>
        ensures { result ≡ kind_of number }
    {
        match number {
            0 => Some(Kind::Normal),
            1 => Some(Kind::Recursive),
            2 => Some(Kind::ErrorCheck),
            _ => None,
        }
    }

    /// How often its owner can lock a mutex of the kind.
    pub fn max_count(self) -> u32
        ensures { result ≡ max_count self }
    {
        match self {
            Kind::Recursive => MAX_RECURSIVE_COUNT,
            _ => 1,
        }
    }
}

impl Mutex {
    /// A mutex that nobody owns.
    pub fn free(kind: Kind) -> Self
        ensures { result ≡ free kind }
    {
        Mutex {
            kind,
            owner: None,
            count: 0,
        }
    }

    /// A mutex that a thread has locked so often.
    pub fn owned(kind: Kind, thread: ThreadId, count: u32) -> Self
        ensures { result ≡ owned kind thread count }
    {
        Mutex {
            kind,
            owner: Some(thread),
            count,
        }
    }

    /// Whether a thread owns the mutex.
    pub fn is_owned(&self) -> bool
        ensures { result ≡ is_owned self.now }
    {
        self.owner.is_some()
    }

    /// Whether this thread owns the mutex.
    pub fn is_owned_by(&self, thread: ThreadId) -> bool
        ensures { result ≡ is_owner thread self.now }
    {
        match self.owner {
            Some(owner) => thread == owner,
            None => false,
        }
    }

    /// Whether this thread can have the mutex at once: it is free, or recursive and the thread's own.
    pub fn is_available_to(&self, thread: ThreadId) -> bool
        ensures { result ≡ is_available thread self.now }
    {
        self.owner.is_none() || (self.is_owned_by(thread) && matches!(self.kind, Kind::Recursive))
    }

    /// Whether this thread owns the mutex, and is told so where it locks it again.
    pub fn finds_deadlock_of(&self, thread: ThreadId) -> bool
        ensures { result ≡ (is_owner thread self.now && is_errorcheck self.now.kind) }
    {
        self.is_owned_by(thread) && matches!(self.kind, Kind::ErrorCheck)
    }

    /// Whether the mutex is free and normal, as each that has no entry in the table.
    pub fn is_plain(&self) -> bool
        ensures { result ≡ is_plain self.now }
    {
        matches!(self.kind, Kind::Normal) && self.owner.is_none()
    }

    /// Whether the mutex is locked as often as it can be: not at all if it is free, else by a thread, 1 to 64, and from
    /// once to as often as its kind allows.
    pub fn is_proper(&self) -> bool
        ensures { result ≡ is_proper self.now }
    {
        match self.owner {
            None => self.count == 0,
            Some(owner) => {
                owner > 0 && owner <= 64 && self.count > 0 && self.count <= self.kind.max_count()
            }
        }
    }

    /// Whether this thread, where it owns the mutex, can lock it once more.
    fn can_be_retaken_by(&self, thread: ThreadId) -> bool
        ensures { result ≡ can_retake thread self.now }
    {
        !self.is_owned_by(thread)
            || (matches!(self.kind, Kind::Recursive) && self.count < MAX_RECURSIVE_COUNT)
    }

    /// Whether a wait may name the mutex: who waits for it finds it owned, and by another if it waits to retake it; who
    /// waits to lock its own mutex waits for a normal one; and who waits at a condition can retake it.
    pub fn may_be_named_by(&self, wait: &Wait) -> bool
        ensures { result ≡ may_wait_at self.now wait.now }
    {
        let is_own = self.is_owned_by(wait.thread);
        match wait.reason {
            Reason::Lock(_) => self.is_owned() && (!is_own || matches!(self.kind, Kind::Normal)),
            Reason::Retake(_, _) => self.is_owned() && !is_own,
            Reason::Condition(_, _) => self.can_be_retaken_by(wait.thread),
            _ => true,
        }
    }
}

impl Named for Mutex {
    ghost use Rattle.ckrt_mutex.specs.Rows.{named};
    ghost use Rattle.ckrt_mutex.specs.Named.{named_by_object};

    ghost named = { named };

    ghost by_object = { named_by_object };

    fn named_by(wait: &Wait) -> Option<u32> {
        match wait.reason {
            Reason::Lock(address) => Some(address),
            Reason::Retake(address, _) => Some(address),
            Reason::Condition(_, address) => Some(address),
            _ => None,
        }
    }
}
