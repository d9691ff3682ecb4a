//! The header of an area.

/// The fields of an area's header.
#[derive(Clone, Copy)]
pub struct Header {
    /// Whether the area's gate is open.
    pub is_open: bool,
    /// How many states have been written before, this one counted: 1 or more where the area holds one.
    pub generation: u64,
    /// The number of events that led to the area's state.
    pub count: u64,
    /// The offset of the first held byte of output.
    pub offset: u64,
    /// The length of the tables in bytes.
    pub tables: u32,
    /// The version of tables and journal.
    pub version: u32,
}
