//! What the system answers to a read or write by offset.

/// What a read or write by offset did (POSIX.1-2017, read and write).
#[derive(Clone, Copy, Debug, PartialEq, Eq)]
pub enum Transfer {
    /// That many bytes were transferred, perhaps fewer than asked.
    Done(usize),
    /// A signal came before any byte was transferred (EINTR).
    Interrupted,
    /// An error.
    Failed,
}
