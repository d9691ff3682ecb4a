//! The small disk of the other tests, and what recovers from it.

use crate::expect::{expect_eq, filled, memory_disk};
use ckrt_disk::{Disk, MemoryDisk};
use ckrt_recovery::{Config, FormatFault, Session, Unrecovered, format, recover};
use ckrt_test_storage::SIZE;
use std::process::Abort;

/// 16 pages, 1 hart, and a journal of 4,096 bytes.
pub const SMALL: Config = Config {
    pages: 16,
    harts: 1,
    journal: 4_096,
};

/// Formats a disk. It ensures nothing, so tests that call it are cheap to prove.
pub fn format_outcome<R: AllocGlobal, D: Disk>(
    rt: &R,
    disk: &mut D,
    config: Config,
    image: &[u8],
) -> Result<(), FormatFault> {
    format(rt.alloc(), disk, config, image)
}

/// A disk of zeros with an image formatted onto it.
pub fn formatted<R: Abort + AllocGlobal>(rt: &R, image: &[u8]) -> Vec<u8> {
    let mut disk = memory_disk(rt, filled(rt, 0, SIZE));
    expect_eq(rt, format_outcome(rt, &mut disk, SMALL, image), Ok(()));
    disk.into_image()
}

/// Recovers a disk. It ensures nothing, so tests that call it are cheap to prove.
pub fn recovery_outcome<R: AllocGlobal, D: Disk>(
    rt: &R,
    disk: D,
) -> Result<Session<D>, Unrecovered<D>> {
    recover(rt.alloc(), disk)
}

/// The session that is recovered from a disk.
pub fn recovered<R: Abort + AllocGlobal, D: Disk>(rt: &R, disk: D) -> Session<D> {
    match recovery_outcome(rt, disk) {
        Ok(session) => session,
        Err(unrecovered) => panic!(rt; "{}", unrecovered.fault),
    }
}

/// The session that is recovered from these bytes in memory.
pub fn recovered_in_memory<R: Abort + AllocGlobal>(rt: &R, bytes: Vec<u8>) -> Session<MemoryDisk> {
    recovered(rt, memory_disk(rt, bytes))
}
