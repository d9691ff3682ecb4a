//! The numbers that are saved with a program.

/// Where a program stands when it is saved.
#[derive(Clone, Copy)]
pub struct SavePoint {
    /// The area in use, 0 or 1: the other one is written.
    pub area: usize,
    /// The generation in use; what is written has one more.
    pub generation: u64,
    /// The number of events that led to the state.
    pub count: u64,
    /// The offset of the first held byte of output.
    pub offset: u64,
}
