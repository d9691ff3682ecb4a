//! An output that was opened.

/// An output that was opened, and how many bytes its file has.
#[derive(Drop)]
pub struct OpenedOutput<D> {
    /// The output, as a disk without an end.
    pub output: D,
    /// The bytes of its file.
    pub length: u64,
}
