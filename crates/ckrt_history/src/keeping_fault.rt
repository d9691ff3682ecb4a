//! The faults of a drive that keeps a history.
ghost use Rattle.std.specs.Prelude.{◌≡◌};

use ckrt_drive::DriveFault;
use thiserror::Error;

/// Why a drive that keeps a history doesn't go on. Its text is its name.
#[derive(Clone, Copy, Debug, PartialEq, Eq, Error)]
pub enum KeepingFault {
    /// The drive itself doesn't, for this reason.
    #[error("{0}")]
    Drive(DriveFault),
    /// The file of the history failed a call.
    #[error("Device")]
    Device,
    /// The file of the history has no room for the next batch.
    #[error("Full")]
    Full,
}

impl From<DriveFault> for KeepingFault {
    ghost use Rattle.ckrt_history.specs.declared.keeping_fault.KeepingFault.TheVariants.{Drive};

    ghost from_gives = { λ fault e. e ≡ Drive fault };

    fn from(fault: DriveFault) -> KeepingFault {
        KeepingFault::Drive(fault)
    }
}
