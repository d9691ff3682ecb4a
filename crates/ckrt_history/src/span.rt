//! How far a history goes.

/// Which events a history has, and how many bytes.
#[derive(Clone, Copy, Debug, PartialEq, Eq)]
pub struct Span {
    /// How many events were done before its first one: below 2^62.
    pub first: u64,
    /// How many events it has. At 2^64 - 1 the count stays.
    pub count: u64,
    /// How many bytes of the file the history takes: all up to the gate that ends its last batch, that gate counted. They are no more than
    /// the file may have.
    pub bytes: u64,
}
