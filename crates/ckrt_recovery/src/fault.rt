//! The faults of a session.
use ckrt_machine::Refusal;
use thiserror::Error;

/// Why a session refuses an event.
#[derive(Clone, Copy, Debug, PartialEq, Eq, Error)]
pub enum SubmitFault {
    /// The disk failed a commit or a checkpoint before: the session has to be recovered.
    #[error("Failed")]
    Failed,
    /// It is a long run, and the area in use is of version 1: the first checkpoint writes one of version 2.
    #[error("NeedsCheckpoint")]
    NeedsCheckpoint,
    /// The machine refuses it.
    #[error("Refused")]
    Refused(Refusal),
    /// The batch of events that aren't committed has no place for it.
    #[error("BatchFull")]
    BatchFull,
    /// The journal has no place for the batch with it.
    #[error("JournalFull")]
    JournalFull,
    /// The counts of events and of output bytes are at their end.
    #[error("CountersUsed")]
    CountersUsed,
}

/// Why a commit or a checkpoint acknowledged nothing.
#[derive(Clone, Copy, Debug, PartialEq, Eq, Error)]
pub enum CommitFault {
    /// The disk failed a commit or a checkpoint before: the session has to be recovered.
    #[error("Failed")]
    Failed,
    /// The disk failed a call.
    #[error("Device")]
    Device,
    /// The area in use has the last generation, 2^64 - 1. Only a checkpoint answers it, and changes nothing.
    #[error("GenerationsUsed")]
    GenerationsUsed,
}
