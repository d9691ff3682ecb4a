//! The tables of a program.
ghost use Rattle.std.specs.Prelude.{◌≡◌, ◌≤◌, ◌*◌, IfOk};
ghost use Rattle.ckrt_calls.specs.Beginnings.{fresh};
ghost use Rattle.ckrt_calls.specs.WellFormed.{IsWellFormed};

use crate::input::InputQueue;
use ckrt_barrier::Barriers;
use ckrt_mutex::Mutexes;
use ckrt_rv32i::Cause;
use ckrt_rwlock::RwLocks;
use ckrt_thread::{ThreadId, Threads};
use std::alloc::{AllocError, Global};

/// Whether the program goes on, and how it ended.
#[derive(Clone, Copy, Debug, PartialEq, Eq)]
pub enum Status {
    Running,
    /// The program's exit status.
    Exited(u32),
    /// The thread, its pc, and why it faulted.
    Faulted(ThreadId, u32, Cause),
}

/// All that a program has, but for its memory. Its room is made by [`Tables::new`] alone.
#[derive(Drop)]
pub struct Tables {
    /// The threads, and the harts with them.
    pub threads: Threads,
    pub mutexes: Mutexes,
    pub barriers: Barriers,
    pub rwlocks: RwLocks,
    /// The time in ticks, below 2^63.
    pub clock: u64,
    /// The input that no thread has read yet.
    pub input: InputQueue,
    /// Whether no more input comes.
    pub closed: bool,
    pub status: Status,
}

impl Tables {
    /// The tables of a program that begins, with that many pages of memory (16 to 65,536) and that many harts (1 to 8).
    /// The only error is that the memory for them is refused.
    pub fn new(alloc: Global, pages: u32, harts: usize) -> Result<Self, AllocError>
        requires pages { pages ≤ 65536 }
        requires harts { harts ≤ 8 }
        ensures fresh { IfOk result (λ tables. tables ≡ fresh pages harts) }
        ensures well_formed { IfOk result IsWellFormed }
    {
        let threads = Threads::new(alloc, 4096 * pages, harts)?;
        threads.known();
        let mutexes = Mutexes::new();
        let barriers = Barriers::new();
        let rwlocks = RwLocks::new();
        let input = InputQueue::new(alloc)?;
        Ok(Tables {
            threads,
            mutexes,
            barriers,
            rwlocks,
            clock: 0,
            input,
            closed: false,
            status: Status::Running,
        })
    }
}
