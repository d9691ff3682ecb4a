//! Why a session with a debugger ends, or there is none.
ghost use Rattle.std.specs.Prelude.{◌≡◌};

use ckrt_gdb_forms::Full;
use ckrt_gdb_history::HistoryFault;
use std::alloc::AllocError;
use thiserror::Error;

/// Why a session with a debugger ends before the debugger leaves, or why there is none.
#[derive(Clone, Copy, Debug, Drop, PartialEq, Eq, Error)]
pub enum DebugFault {
    /// The reader failed, or was read 2^64 - 1 times.
    #[error("Read")]
    Read,
    /// The writer failed.
    #[error("Write")]
    Write,
    /// An event isn't accepted at its turn, or they don't come through the run's stage.
    #[error("Refused: an event of the run isn't accepted at its turn, or they lead elsewhere")]
    Refused,
    /// There is no position with so many events done.
    #[error("Range: the run has no position with so many events done")]
    Range,
    /// A growth of memory was refused.
    #[error("OutOfMemory")]
    OutOfMemory,
}

impl From<HistoryFault> for DebugFault {
    ghost use Rattle.ckrt_gdb_stub.specs.declared.fault.DebugFault.TheVariants.{Refused};

    ghost from_gives = { λ _ e. e ≡ Refused };

    fn from(fault: HistoryFault) -> Self {
        match fault {
            HistoryFault::Refused => DebugFault::Refused,
        }
    }
}

impl From<AllocError> for DebugFault {
    ghost use Rattle.ckrt_gdb_stub.specs.declared.fault.DebugFault.TheVariants.{OutOfMemory};

    ghost from_gives = { λ _ e. e ≡ OutOfMemory };

    fn from(_error: AllocError) -> Self {
        DebugFault::OutOfMemory
    }
}
