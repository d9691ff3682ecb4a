//! Why a file isn't one of names.
use std::alloc::AllocError;
use thiserror::Error;

/// Why bytes are no names. A row is told by where it begins in the file.
#[derive(Clone, Copy, Debug, PartialEq, Eq, Error)]
pub enum NamesFault {
    #[error("OutOfMemory")]
    OutOfMemory,
    /// It has more bytes than are taken.
    #[error("TooLarge")]
    TooLarge,
    /// The first line isn't that of a file of names.
    #[error("NoNames")]
    NoNames,
    /// That row isn't one.
    #[error("Row")]
    Row(u64),
    /// That one begins before the row before it ends.
    #[error("Order")]
    Order(u64),
}

impl From<AllocError> for NamesFault {
    fn from(_: AllocError) -> NamesFault {
        NamesFault::OutOfMemory
    }
}
