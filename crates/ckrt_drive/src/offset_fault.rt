//! The faults of the record.
use ckrt_stored::RecoverFault;
use thiserror::Error;

/// Why it isn't known how much of its input the program of a disk has taken.
#[derive(Clone, Copy, Debug, PartialEq, Eq, Error)]
pub enum OffsetFault {
    /// Nothing is recovered from the disk.
    #[error("{0}")]
    Unrecovered(RecoverFault),
    /// The slot isn't of the area in use: the area was written without a record, as a session by lines writes it. Where the
    /// input goes on has to be said.
    #[error("NotRecorded")]
    NotRecorded,
}
