//! What became of a file that is to have the history of a disk.

/// What became of a file that is to have the history of a disk.
#[derive(Clone, Copy, Debug, PartialEq, Eq)]
pub enum Joined {
    /// A history was begun there.
    Begun,
    /// The history that was there got so many events, which may be none.
    Appended(u64),
}
