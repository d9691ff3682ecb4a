//! Which events of a history a part of it has.

/// Which events of a history a part of it has: those behind the first `from` of its program, up to the first `to`.
#[derive(Clone, Copy, Debug, PartialEq, Eq)]
pub struct PartStretch {
    /// How many events are done before the part's first one.
    pub from: u64,
    /// How many events are done behind its last one; the history's end where it isn't said.
    pub to: Option<u64>,
}
