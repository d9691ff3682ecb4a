//! The small disk of these tests.

use crate::SIZE;
use crate::expect::{expect_eq, filled, memory_disk};
use ckrt_disk::Disk;
use ckrt_stored::{Config, FormatFault, format};
use std::process::Abort;

/// 16 pages, 1 hart, and a journal of 4,096 bytes.
pub const SMALL: Config = Config {
    pages: 16,
    harts: 1,
    journal: 4_096,
};

/// Formats a disk. It ensures nothing, so tests that call it are cheap to prove.
pub fn format_outcome<R: AllocGlobal, D: Disk>(
    rt: &R,
    disk: &mut D,
    config: Config,
    image: &[u8],
) -> Result<(), FormatFault> {
    format(rt.alloc(), disk, config, image)
}

/// An image is formatted onto a disk.
pub fn expect_format<R: Abort + AllocGlobal, D: Disk>(
    rt: &R,
    disk: &mut D,
    image: &[u8],
    want: Result<(), FormatFault>,
) {
    expect_eq(rt, format_outcome(rt, disk, SMALL, image), want);
}

/// A disk of zeros with an image formatted onto it.
pub fn formatted<R: Abort + AllocGlobal>(rt: &R, image: &[u8]) -> Vec<u8> {
    let mut disk = memory_disk(rt, filled(rt, 0, SIZE));
    expect_format(rt, &mut disk, image, Ok(()));
    disk.into_image()
}
