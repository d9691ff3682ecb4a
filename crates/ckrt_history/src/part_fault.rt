//! The faults of parts.
ghost use Rattle.std.specs.Prelude.{◌≡◌};

use crate::fault::HistoryFault;
use ckrt_disk::DeviceFault;
use thiserror::Error;

/// Why no part of a history was made. Its text is its name.
#[derive(Clone, Copy, Debug, PartialEq, Eq, Error)]
pub enum PartFault {
    /// The history isn't read, for this reason.
    #[error("{0}")]
    Whole(HistoryFault),
    /// The history doesn't have all of these events.
    #[error("Unrecorded")]
    Unrecorded,
    /// The part's file isn't read or written, for this reason.
    #[error("{0}")]
    Part(HistoryFault),
    /// The part's file may not grow so far.
    #[error("TooSmall")]
    TooSmall,
}

impl From<HistoryFault> for PartFault {
    ghost use Rattle.ckrt_history.specs.declared.part_fault.PartFault.TheVariants.{Whole};

    ghost from_gives = { λ fault e. e ≡ Whole fault };

    fn from(fault: HistoryFault) -> PartFault {
        PartFault::Whole(fault)
    }
}

impl From<DeviceFault> for PartFault {
    ghost use Rattle.ckrt_history.specs.declared.fault.HistoryFault.TheVariants.{Device};
    ghost use Rattle.ckrt_history.specs.declared.part_fault.PartFault.TheVariants.{Part};

    ghost from_gives = { λ _ e. e ≡ Part Device };

    fn from(_: DeviceFault) -> PartFault {
        PartFault::Part(HistoryFault::Device)
    }
}
