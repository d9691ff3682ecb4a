//! The faults of lives.
ghost use Rattle.std.specs.Prelude.{◌≡◌};

use std::alloc::AllocError;
use thiserror::Error;

/// Why no life was reported.
#[derive(Clone, Copy, Debug, PartialEq, Eq, Error)]
pub enum LivesFault {
    /// The configuration is out of its ranges, or the image longer than the memory.
    #[error("Format")]
    Format,
    /// A growth was refused.
    #[error("OutOfMemory")]
    OutOfMemory,
}

impl From<AllocError> for LivesFault {
    ghost use Rattle.ckrt_main.specs.declared.lives_fault.LivesFault.TheVariants.{OutOfMemory};

    ghost from_gives = { λ _ e. e ≡ OutOfMemory };

    fn from(_: AllocError) -> LivesFault {
        LivesFault::OutOfMemory
    }
}
