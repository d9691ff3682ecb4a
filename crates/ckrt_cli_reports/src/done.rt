//! What a job that was done came to.
use crate::driven::Driven;

/// What a job that was done came to.
#[derive(Clone, Copy, Debug, PartialEq, Eq)]
pub enum Done {
    /// All of it was done.
    Whole,
    /// A drive came to this.
    Driven(Driven),
    /// The runs of a hunt came to several outcomes, or one had a race.
    Several,
    /// All runs of a hunt came to one outcome, which isn't `exit 0`.
    Bad,
}
