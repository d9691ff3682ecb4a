//! Formats a disk in memory and recovers a session from it, decodes saved tables, and says what it met.
//!
//! It is run with each growth of memory refused in turn (`tests/growths`): whatever growth that is, the answer is
//! `OutOfMemory`, or there was no disk to begin with, and the bytes of the disk are as they were.

use ckrt_disk::{Disk, MemoryDisk};
use ckrt_recovery::{Config, FormatFault, RecoverFault, format, recover};
use ckrt_tables::{AREA_VERSION, decode_tables};
use std::alloc::{AllocError, Global};

/// A guest of one word that is no instruction.
pub const IMAGE: [u8; 4] = [0, 0, 0, 0];

pub const CONFIG: Config = Config {
    pages: 16,
    harts: 1,
    journal: 4_096,
};

/// The size that the configuration needs, in bytes.
const DISK_BYTES: usize = 348_160;

/// A disk of zeros.
fn empty_disk(alloc: Global) -> Result<MemoryDisk, AllocError> {
    let bytes = vec![in alloc; 0u8; DISK_BYTES]?;
    MemoryDisk::new(alloc, bytes)
}

/// What refused to format the disk, if anything did.
fn format_refusal(alloc: Global, disk: &mut MemoryDisk) -> Option<FormatFault> {
    format(alloc, disk, CONFIG, &IMAGE).err()
}

/// What refused to recover the disk, if anything did, with the disk.
fn recovery_refusal(alloc: Global, disk: MemoryDisk) -> Option<(RecoverFault, MemoryDisk)> {
    match recover(alloc, disk) {
        Ok(_) => None,
        Err(unrecovered) => Some((unrecovered.fault, unrecovered.disk)),
    }
}

/// What to say of a disk whose formatting was refused: nothing was written.
fn report_unformatted(disk: MemoryDisk, fault: FormatFault) -> &'static str {
    if fault != FormatFault::OutOfMemory {
        return "formatting met something else";
    }
    if disk.into_image().iter().all(|byte| *byte == 0) {
        "formatting: OutOfMemory"
    } else {
        "formatting wrote before it had its memory"
    }
}

/// What to say of a recovery after one that was refused memory: there may be none for it either.
fn report_second_recovery(alloc: Global, disk: MemoryDisk) -> &'static str {
    match recovery_refusal(alloc, disk) {
        None => "recovery: OutOfMemory",
        Some((RecoverFault::OutOfMemory, _)) => "recovery: OutOfMemory twice",
        Some(_) => "recovery changed the disk",
    }
}

/// What to say of a recovery: where it was refused, a second try recovers the disk.
fn report_recovery(alloc: Global, disk: MemoryDisk) -> &'static str {
    match recovery_refusal(alloc, disk) {
        None => "recovered",
        Some((RecoverFault::OutOfMemory, disk)) => report_second_recovery(alloc, disk),
        Some(_) => "recovery met something else",
    }
}

/// What formatting a disk and recovering it met.
pub fn report(alloc: Global) -> &'static str {
    let Ok(mut disk) = empty_disk(alloc) else {
        return "no disk";
    };
    match format_refusal(alloc, &mut disk) {
        Some(fault) => report_unformatted(disk, fault),
        None => report_recovery(alloc, disk),
    }
}

/// The saved tables, in version 2, of a program with 16 pages that hasn't begun: thread 1, the initial one, with its pc 4096,
/// its return address and its stack pointer; and that there may be keys.
fn fresh_tables() -> [u8; 176] {
    let mut bytes = [0; 176];
    bytes[24] = 1;
    bytes[25] = 1;
    bytes[26] = 1;
    bytes[34] = 0x10;
    bytes[37] = 0xF0;
    bytes[38] = 0xFF;
    bytes[39] = 0xFF;
    bytes[40] = 0xFF;
    bytes[43] = 1;
    bytes[170] = 1;
    bytes
}

/// What decoding saved tables met.
pub fn report_tables(alloc: Global) -> &'static str {
    match decode_tables(alloc, AREA_VERSION, &fresh_tables(), 1) {
        Ok(Some(_)) => "decoded",
        Ok(None) => "decoding met something else",
        Err(_) => "decoding: OutOfMemory",
    }
}
