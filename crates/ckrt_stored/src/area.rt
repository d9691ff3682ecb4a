//! One of the two areas of a disk.
use crate::header::Header;

/// One of the two areas, with its header.
#[derive(Clone, Copy)]
pub struct Area {
    /// 0 or 1.
    pub index: usize,
    /// What its header says.
    pub header: Header,
}
