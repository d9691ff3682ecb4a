//! The faults of a service.
ghost use Rattle.std.specs.Prelude.{◌≡◌};

use ckrt_disk::WriteFault;
use thiserror::Error;

/// Why a service ended early.
#[derive(Clone, Copy, Debug, PartialEq, Eq, Error)]
pub enum ServeFault {
    /// The reader failed, or was read 2^64 - 1 times.
    #[error("Read")]
    Read,
    /// The writer failed.
    #[error("Write")]
    Write,
    /// There was no memory for the session; nothing was read or written.
    #[error("OutOfMemory")]
    OutOfMemory,
    /// The configuration is out of its ranges, or the image longer than the memory; nothing was read or written.
    #[error("Format")]
    Format,
}

impl From<WriteFault> for ServeFault {
    ghost use Rattle.ckrt_main.specs.declared.fault.ServeFault.TheVariants.{Write};

    ghost from_gives = { λ _ e. e ≡ Write };

    fn from(_: WriteFault) -> ServeFault {
        ServeFault::Write
    }
}
