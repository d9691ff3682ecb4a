//! The faults of formatting and of recovery.
ghost use Rattle.std.specs.Prelude.{◌≡◌};

use crate::area_fault::AreaFault;
use ckrt_disk::DeviceFault;
use ckrt_journal::JournalFault;
use std::alloc::AllocError;
use thiserror::Error;

/// Why a disk wasn't formatted. The text of a fault is its name.
#[derive(Clone, Copy, Debug, PartialEq, Eq, Error)]
pub enum FormatFault {
    /// The disk's first byte is an open gate.
    #[error("AlreadyFormatted")]
    AlreadyFormatted,
    /// The disk has fewer bytes than the configuration needs.
    #[error("TooSmall")]
    TooSmall,
    /// A field of the configuration is out of its range.
    #[error("BadConfig")]
    BadConfig,
    /// The image has more bytes than the guest's memory.
    #[error("ImageTooLong")]
    ImageTooLong,
    /// The disk failed a call.
    #[error("Device")]
    Device,
    /// A growth of memory was refused.
    #[error("OutOfMemory")]
    OutOfMemory,
}

/// Why nothing was recovered from a disk.
#[derive(Clone, Copy, Debug, PartialEq, Eq, Error)]
pub enum RecoverFault {
    /// The disk has no superblock, or it isn't open.
    #[error("NotFormatted")]
    NotFormatted,
    /// The superblock or the area is of a version that this program doesn't know.
    #[error("Version")]
    Version,
    /// The disk has an open superblock, and what stands after it is no state of a program.
    #[error("Damaged")]
    Damaged,
    /// The disk failed a call.
    #[error("Device")]
    Device,
    /// A growth of memory was refused.
    #[error("OutOfMemory")]
    OutOfMemory,
}

impl From<DeviceFault> for RecoverFault {
    ghost use Rattle.ckrt_stored.specs.declared.fault.RecoverFault.TheVariants.{Device};

    ghost from_gives = { λ _ e. e ≡ Device };

    fn from(_: DeviceFault) -> RecoverFault {
        RecoverFault::Device
    }
}

impl From<AllocError> for RecoverFault {
    ghost use Rattle.ckrt_stored.specs.declared.fault.RecoverFault.TheVariants.{OutOfMemory};

    ghost from_gives = { λ _ e. e ≡ OutOfMemory };

    fn from(_: AllocError) -> RecoverFault {
        RecoverFault::OutOfMemory
    }
}

impl From<JournalFault> for RecoverFault {
    ghost use Rattle.ckrt_stored.specs.Progress.{of_journal};

    ghost from_gives = { λ fault e. e ≡ of_journal fault };

    fn from(fault: JournalFault) -> RecoverFault {
        match fault {
            JournalFault::Device => RecoverFault::Device,
            JournalFault::Damaged => RecoverFault::Damaged,
            JournalFault::OutOfMemory => RecoverFault::OutOfMemory,
        }
    }
}

impl From<AreaFault> for RecoverFault {
    ghost use Rattle.ckrt_stored.specs.Recovery.{of_area};

    ghost from_gives = { λ fault e. e ≡ of_area fault };

    fn from(fault: AreaFault) -> RecoverFault {
        match fault {
            AreaFault::Device => RecoverFault::Device,
            AreaFault::Damaged | AreaFault::GenerationsUsed => RecoverFault::Damaged,
            AreaFault::OutOfMemory => RecoverFault::OutOfMemory,
            AreaFault::Version => RecoverFault::Version,
        }
    }
}
