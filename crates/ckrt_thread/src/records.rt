//! What the tables hold.

use crate::errors::ETIMEDOUT;
use crate::keys::SpecificData;
use arrayvec::ArrayVec;
use ckrt_registers::Regs;

/// The number of a thread, 1 to 64.
pub type ThreadId = u8;

/// The number of a hart, from 0 to [`MAX_HARTS`] - 1.
pub type Hart = u8;

/// How many threads there may be at a time.
pub const MAX_THREADS: usize = 64;

/// How many harts there may be.
pub const MAX_HARTS: usize = 8;

/// Every moment of the clock is below this: 2^63 ticks.
pub const MOMENT_END: u64 = 0x8000_0000_0000_0000;

/// How many clean-up handlers a thread may have at a time.
pub const MAX_HANDLERS: usize = 16;

/// A clean-up handler (POSIX.1-2017, `pthread_cleanup_push`).
#[derive(Clone, Copy, Debug, Default, Drop, PartialEq, Eq)]
pub struct Handler {
    /// The address of its routine, a multiple of 4.
    pub routine: u32,
    /// What the routine gets in x10.
    pub argument: u32,
}

/// How far a thread can be cancelled, and whether it is (POSIX.1-2017, 2.9.5 Thread Cancellation).
#[derive(Clone, Copy, Debug, Drop, PartialEq, Eq)]
pub struct Cancellation {
    /// Whether the thread acts on requests at all.
    pub is_enabled: bool,
    /// Whether it acts on one before its next instruction, and not only at a cancellation point.
    pub is_asynchronous: bool,
    /// Whether a request was made on which it has not acted.
    pub is_requested: bool,
    /// The value that it is to end with, once its handlers have run. A thread that unwinds is disabled and deferred.
    pub unwinding: Option<u32>,
}

impl Cancellation {
    ghost use Rattle.std.specs.Prelude.{◌≡◌};
    ghost use Rattle.ckrt_thread.specs.Cancellation.{at_the_start, is_consistent, is_pending, is_immediate, unwinding_with, acted_on};

    /// A new thread's: enabled, deferred, with no request.
    pub fn new() -> Self
        ensures { result ≡ at_the_start }
    {
        Cancellation {
            is_enabled: true,
            is_asynchronous: false,
            is_requested: false,
            unwinding: None,
        }
    }

    /// Whether a thread can be cancelled so: a thread that unwinds is disabled and deferred.
    pub fn is_consistent(&self) -> bool
        ensures { result ≡ is_consistent self.now }
    {
        self.unwinding.is_none() || !self.is_enabled && !self.is_asynchronous
    }

    /// Whether the thread acts on a request at its next cancellation point.
    pub fn is_pending(&self) -> bool
        ensures { result ≡ is_pending self.now }
    {
        self.is_enabled && self.is_requested
    }

    /// Whether the thread acts on a request before its next instruction.
    pub fn is_immediate(&self) -> bool
        ensures { result ≡ is_immediate self.now }
    {
        self.is_pending() && self.is_asynchronous
    }

    /// The same thread's, once it unwinds to end with a value.
    pub fn unwinding_with(self, value: u32) -> Self
        ensures { result ≡ unwinding_with value self }
    {
        Cancellation {
            is_enabled: false,
            is_asynchronous: false,
            is_requested: self.is_requested,
            unwinding: Some(value),
        }
    }

    /// The same thread's, once it has acted on a request: the request is gone, and the thread unwinds to end with
    /// [`CANCELED`].
    pub fn acted_on(self) -> Self
        ensures { result ≡ acted_on self }
    {
        let mut cancellation = self.unwinding_with(CANCELED);
        cancellation.is_requested = false;
        cancellation
    }
}

/// What a cancelled thread ends with (`PTHREAD_CANCELED`; the number is this project's choice).
pub const CANCELED: u32 = 0xFFFF_FFFF;

/// A thread that has not ended.
#[derive(Drop)]
pub struct Live {
    /// Its registers. The pc is a multiple of 4.
    pub regs: Regs,
    /// Whether the program began with it.
    pub initial: bool,
    /// Whether its number is free again as soon as it ends.
    pub detached: bool,
    /// Whether it can be cancelled, and whether it unwinds.
    pub cancellation: Cancellation,
    /// Its clean-up handlers, oldest first.
    pub handlers: ArrayVec<Handler, MAX_HANDLERS>,
    /// What it has under the keys of the program.
    pub specific: SpecificData,
}

/// What a number of the table stands for.
#[derive(Drop)]
pub enum Thread {
    /// It ended with a value, and nobody has joined it.
    Ended(u32),
    /// It has not ended.
    Live(Live),
}

/// What a thread gets whose condition wait is over, once it has its mutex again.
#[derive(Clone, Copy, Debug, Drop, PartialEq, Eq)]
pub enum RetakeResult {
    /// It was signalled, and gets 0.
    Done,
    /// Its deadline came, and it gets `ETIMEDOUT`.
    TimedOut,
    /// It was cancelled, and goes to its next handler.
    Unwind,
}

impl RetakeResult {
    ghost use Rattle.std.specs.Prelude.{◌≡◌};
    ghost use Rattle.ckrt_thread.specs.Waits.{retake_code};

    /// The number that goes to x10: 0 or `ETIMEDOUT`. A cancelled thread gets none.
    pub fn code(self) -> Option<u32>
        ensures { result ≡ retake_code self }
    {
        match self {
            RetakeResult::Done => Some(0),
            RetakeResult::TimedOut => Some(ETIMEDOUT),
            RetakeResult::Unwind => None,
        }
    }
}

/// Why a thread waits.
#[derive(Clone, Copy, Debug, Default, Drop)]
pub enum Reason {
    /// For a byte of the console's input.
    #[default]
    Input,
    /// For its deadline.
    Sleep,
    /// For the end of a thread.
    Join(ThreadId),
    /// For a mutex, by its address.
    Lock(u32),
    /// For a mutex, by its address, after a condition wait; and what it gets with the mutex.
    Retake(u32, RetakeResult),
    /// For a signal: the addresses of a condition and of its mutex.
    Condition(u32, u32),
    /// For the others at a barrier, by its address.
    Barrier(u32),
    /// To read under a read-write lock, by its address.
    Read(u32),
    /// To write under a read-write lock, by its address.
    Write(u32),
}

ghost use Rattle.std.specs.Prelude.{◌≡◌};
ghost use Rattle.ckrt_thread.specs.Granting.{wait_result};

/// What goes to x10 when who waits for this reason gets what it waited for.
fn result_of(reason: Reason) -> Option<u32>
    ensures { result ≡ wait_result reason }
{
    match reason {
        Reason::Retake(_, result) => result.code(),
        _ => Some(0),
    }
}

/// One entry of the list of waits.
#[derive(Clone, Copy, Debug, Default, Drop)]
pub struct Wait {
    /// Who waits.
    pub thread: ThreadId,
    /// Why.
    pub reason: Reason,
    /// The moment at which the wait ends at the latest, in ticks of the clock and below 2^63. Timed waits for a mutex
    /// or a condition have one, sleeps have one, and no other wait has.
    pub deadline: Option<u64>,
}

/// Who was taken out of the list of waits.
#[derive(Clone, Copy, Debug, Drop)]
pub struct Waiter {
    /// Who waited.
    pub thread: ThreadId,
    /// Why.
    pub reason: Reason,
    /// How often that reached an entry of the table of waits: at most 8, however many wait.
    pub reached: u8,
}

impl Waiter {
    ghost use Rattle.std.specs.Prelude.{◌≡◌};
    ghost use Rattle.ckrt_thread.specs.Granting.{wait_result};

    /// What goes to x10 when the thread gets what it waited for. A cancelled thread gets nothing.
    pub fn result(&self) -> Option<u32>
        ensures { result ≡ wait_result self.now.reason }
    {
        result_of(self.reason)
    }
}

/// What a thread may wait for.
#[derive(Clone, Copy, Debug, Default, Drop)]
pub enum Object {
    /// The console's input.
    #[default]
    Input,
    /// The end of a thread.
    End(ThreadId),
    /// A mutex, by its address.
    Mutex(u32),
    /// A condition, by its address.
    Condition(u32),
    /// A barrier, by its address.
    Barrier(u32),
    /// A read-write lock, by its address.
    RwLock(u32),
}

/// What a call of the guest does to its thread.
#[derive(Clone, Copy, Debug, Drop, PartialEq, Eq)]
pub enum CallResult {
    /// The value that goes to x10. A second value is in x11 already.
    Done(u32),
    /// The thread waits, and is off its hart. x10 stays until the wait ends.
    Blocked,
    /// The thread went to a routine, or ended.
    Moved,
}
