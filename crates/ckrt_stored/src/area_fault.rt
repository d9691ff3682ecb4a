//! The faults of areas.
ghost use Rattle.std.specs.Prelude.{◌≡◌};
ghost use Rattle.ckrt_stored.specs.declared.area_fault.AreaFault.TheVariants.{Device, OutOfMemory};

use ckrt_disk::DeviceFault;
use std::alloc::AllocError;
use thiserror::Error;

/// Why an area wasn't picked, read or written. Its text is its name.
#[derive(Clone, Copy, Debug, PartialEq, Eq, Error)]
pub enum AreaFault {
    /// The disk failed a call.
    #[error("Device")]
    Device,
    /// No area is open, or what the open one has is no state of a program.
    #[error("Damaged")]
    Damaged,
    /// The area in use has the last generation, 2^64 - 1.
    #[error("GenerationsUsed")]
    GenerationsUsed,
    /// A growth of memory was refused.
    #[error("OutOfMemory")]
    OutOfMemory,
    /// The area is of a version that this program doesn't know.
    #[error("Version")]
    Version,
}

impl From<DeviceFault> for AreaFault {
    ghost from_gives = { λ _ e. e ≡ Device };

    fn from(_: DeviceFault) -> AreaFault {
        AreaFault::Device
    }
}

impl From<AllocError> for AreaFault {
    ghost from_gives = { λ _ e. e ≡ OutOfMemory };

    fn from(_: AllocError) -> AreaFault {
        AreaFault::OutOfMemory
    }
}
