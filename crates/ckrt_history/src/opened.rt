//! Where a history ends.
use ckrt_journal::Journal;

/// Where a history ends: what an append needs of it. It takes no memory.
#[derive(Clone, Copy, Debug, PartialEq, Eq)]
pub struct OpenHistory {
    /// The long journal, at the gate that ends its chain.
    pub journal: Journal,
}
