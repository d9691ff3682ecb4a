//! The faults of a history and a disk together.
ghost use Rattle.std.specs.Prelude.{◌≡◌};

use crate::copying::CopyFault;
use crate::fault::HistoryFault;
use ckrt_disk::DeviceFault;
use ckrt_stored::RecoverFault;
use thiserror::Error;

/// Why a history wasn't begun from a disk, or brought up to it. Its text is its name.
#[derive(Clone, Copy, Debug, PartialEq, Eq, Error)]
pub enum JoinFault {
    /// The disk isn't read, for this reason.
    #[error("{0}")]
    Disk(RecoverFault),
    /// The file isn't read or written, for this reason.
    #[error("{0}")]
    File(HistoryFault),
    /// The file may not grow so far.
    #[error("TooSmall")]
    TooSmall,
    /// What the disk has recorded begins behind the history's end.
    #[error("HistoryBehind")]
    HistoryBehind,
    /// The history has other events than the disk, or more of them, or it's of another program.
    #[error("HistoryDiffers")]
    HistoryDiffers,
}

impl From<DeviceFault> for JoinFault {
    ghost use Rattle.ckrt_history.specs.declared.fault.HistoryFault.TheVariants.{Device};
    ghost use Rattle.ckrt_history.specs.declared.join_fault.JoinFault.TheVariants.{File};

    ghost from_gives = { λ _ e. e ≡ File Device };

    fn from(_: DeviceFault) -> JoinFault {
        JoinFault::File(HistoryFault::Device)
    }
}

impl From<RecoverFault> for JoinFault {
    ghost use Rattle.ckrt_history.specs.declared.join_fault.JoinFault.TheVariants.{Disk};

    ghost from_gives = { λ fault e. e ≡ Disk fault };

    fn from(fault: RecoverFault) -> JoinFault {
        JoinFault::Disk(fault)
    }
}

impl From<HistoryFault> for JoinFault {
    ghost use Rattle.ckrt_history.specs.declared.join_fault.JoinFault.TheVariants.{File};

    ghost from_gives = { λ fault e. e ≡ File fault };

    fn from(fault: HistoryFault) -> JoinFault {
        JoinFault::File(fault)
    }
}

impl From<CopyFault> for JoinFault {
    ghost use Rattle.ckrt_history.specs.Joining.{of_copy};

    ghost from_gives = { λ fault e. e ≡ of_copy fault };

    fn from(fault: CopyFault) -> JoinFault {
        match fault {
            CopyFault::Disk => JoinFault::Disk(RecoverFault::Device),
            CopyFault::File => JoinFault::File(HistoryFault::Device),
        }
    }
}
