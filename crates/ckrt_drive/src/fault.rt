//! The faults of a drive.
use ckrt_recovery::SubmitFault;
use thiserror::Error;

/// Why a drive doesn't go on.
#[derive(Clone, Copy, Debug, PartialEq, Eq, Error)]
pub enum DriveFault {
    /// The disk failed a commit or a checkpoint: the session has to be recovered.
    #[error("Device")]
    Device,
    /// The input's file failed a read.
    #[error("Input")]
    Input,
    /// The disk has no room for the record of the input, or more input was taken than the record can tell.
    #[error("NoRecord")]
    NoRecord,
    /// The output failed a call.
    #[error("Output")]
    Output,
    /// The output has no room for the bytes that are released.
    #[error("OutputFull")]
    OutputFull,
    /// The area in use has the last generation, 2^64 - 1.
    #[error("GenerationsUsed")]
    GenerationsUsed,
    /// The session refuses the next event, and no commit or checkpoint helps.
    #[error("Refused")]
    Refused(SubmitFault),
}
