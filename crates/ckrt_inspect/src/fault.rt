//! The faults of a listing.
use ckrt_stored::RecoverFault;
use std::alloc::AllocError;
use thiserror::Error;

/// Why a disk wasn't listed. The text of a fault is its name.
#[derive(Clone, Copy, Debug, PartialEq, Eq, Error)]
pub enum InspectFault {
    /// The disk has no superblock, or it isn't open.
    #[error("NotFormatted")]
    NotFormatted,
    /// The superblock or the area is of a version that this program doesn't know.
    #[error("Version")]
    Version,
    /// The disk has an open superblock, and what stands after it is no state of a program.
    #[error("Damaged")]
    Damaged,
    /// The disk failed a call.
    #[error("Device")]
    Device,
    /// A growth of memory was refused.
    #[error("OutOfMemory")]
    OutOfMemory,
    /// The writer failed.
    #[error("Write")]
    Write,
    /// The shadow of a look at its events has no room left.
    #[error("ShadowFull")]
    ShadowFull,
    /// The disk recovers, but it has no state any more after that many events, or not yet.
    #[error("Range")]
    Range,
}

impl From<RecoverFault> for InspectFault {
    ghost use Rattle.std.specs.Prelude.{◌≡◌};
    ghost use Rattle.ckrt_inspect.specs.Inspect.{of_recovery};

    ghost from_gives = { λ fault e. e ≡ of_recovery fault };

    fn from(fault: RecoverFault) -> InspectFault {
        match fault {
            RecoverFault::NotFormatted => InspectFault::NotFormatted,
            RecoverFault::Version => InspectFault::Version,
            RecoverFault::Damaged => InspectFault::Damaged,
            RecoverFault::Device => InspectFault::Device,
            RecoverFault::OutOfMemory => InspectFault::OutOfMemory,
        }
    }
}

impl From<AllocError> for InspectFault {
    ghost use Rattle.std.specs.Prelude.{◌≡◌};
    ghost use Rattle.ckrt_inspect.specs.declared.fault.InspectFault.TheVariants.{OutOfMemory};

    ghost from_gives = { λ _ e. e ≡ OutOfMemory };

    fn from(_: AllocError) -> InspectFault {
        InspectFault::OutOfMemory
    }
}
