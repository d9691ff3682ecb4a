//! A call on a file, with its answer.
use crate::transfer::Transfer;

/// A call of the system on a file, and what the system answered.
#[derive(Clone, Copy, Debug, PartialEq, Eq)]
pub enum FileCall {
    /// A read from this offset on.
    Read { at: usize, answer: Transfer },
    /// A write from this offset on.
    Write { at: usize, answer: Transfer },
    /// A sync, and whether it answered Ok.
    Sync { is_done: bool },
}
