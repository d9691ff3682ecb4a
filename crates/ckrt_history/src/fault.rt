//! The faults of histories.
ghost use Rattle.std.specs.Prelude.{◌≡◌};

use ckrt_disk::DeviceFault;
use ckrt_journal::JournalFault;
use ckrt_stored::{AreaFault, RecoverFault};
use std::alloc::AllocError;
use thiserror::Error;

/// Why a history wasn't read, or didn't grow. Its text is its name.
#[derive(Clone, Copy, Debug, PartialEq, Eq, Error)]
pub enum HistoryFault {
    /// The gate of its front isn't open, or its name is another.
    #[error("NotAHistory")]
    NotAHistory,
    /// It, or its area in use, is of a version that this program doesn't know.
    #[error("Version")]
    Version,
    /// It has an open front, and what is behind that is no state or no chain of batches.
    #[error("Damaged")]
    Damaged,
    /// The file failed a call.
    #[error("Device")]
    Device,
    /// A growth of memory was refused.
    #[error("OutOfMemory")]
    OutOfMemory,
}

impl From<DeviceFault> for HistoryFault {
    ghost use Rattle.ckrt_history.specs.declared.fault.HistoryFault.TheVariants.{Device};

    ghost from_gives = { λ _ e. e ≡ Device };

    fn from(_: DeviceFault) -> HistoryFault {
        HistoryFault::Device
    }
}

impl From<AllocError> for HistoryFault {
    ghost use Rattle.ckrt_history.specs.declared.fault.HistoryFault.TheVariants.{OutOfMemory};

    ghost from_gives = { λ _ e. e ≡ OutOfMemory };

    fn from(_: AllocError) -> HistoryFault {
        HistoryFault::OutOfMemory
    }
}

impl From<JournalFault> for HistoryFault {
    ghost use Rattle.ckrt_history.specs.Reads.{of_journal};

    ghost from_gives = { λ fault e. e ≡ of_journal fault };

    fn from(fault: JournalFault) -> HistoryFault {
        match fault {
            JournalFault::Device => HistoryFault::Device,
            JournalFault::Damaged => HistoryFault::Damaged,
            JournalFault::OutOfMemory => HistoryFault::OutOfMemory,
        }
    }
}

impl From<AreaFault> for HistoryFault {
    ghost use Rattle.ckrt_history.specs.Reads.{of_area};

    ghost from_gives = { λ fault e. e ≡ of_area fault };

    fn from(fault: AreaFault) -> HistoryFault {
        match fault {
            AreaFault::Device => HistoryFault::Device,
            AreaFault::Damaged | AreaFault::GenerationsUsed => HistoryFault::Damaged,
            AreaFault::OutOfMemory => HistoryFault::OutOfMemory,
            AreaFault::Version => HistoryFault::Version,
        }
    }
}

impl From<RecoverFault> for HistoryFault {
    ghost use Rattle.ckrt_history.specs.Reads.{of_recovery};

    ghost from_gives = { λ fault e. e ≡ of_recovery fault };

    fn from(fault: RecoverFault) -> HistoryFault {
        match fault {
            RecoverFault::NotFormatted | RecoverFault::Version | RecoverFault::Damaged => {
                HistoryFault::Damaged
            }
            RecoverFault::Device => HistoryFault::Device,
            RecoverFault::OutOfMemory => HistoryFault::OutOfMemory,
        }
    }
}
