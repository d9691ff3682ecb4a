//! Disks of 16 pages, 1 hart and journals of 4,096 bytes.

use crate::saved_bytes::{INITIAL_THREAD, Piece};

/// How many bytes such a disk has.
pub const SIZE: usize = 348_160;

/// Where its areas 0 and 1 begin. Tables stand 4,096 bytes after, and page 1 of the memory 106,496.
pub const AREAS: [usize; 2] = [4_096, 172_032];

/// What a stop may lay over the bytes that aren't synced.
pub const FILLS: [&[u8]; 5] = [&[0xa5], &[0], &[0xff], &[0xa5, 0], &[]];

/// A disk of version 1 up to page 1 of its memory, built from the format. What stands after are the guest, and zeros.
pub const OLD_DISK: &[Piece] = &[
    // The superblock: an open gate; the name, version 1, 16 pages, 1 hart, journals of 4,096 bytes.
    (&[0xa5], 7),
    (
        &[
            0x43, 0x4b, 0x52, 0x54, 0x44, 0x49, 0x53, 0x4b, 1, 0, 0, 0, 0x10, 0, 0, 0, 1, 0, 0, 0,
            0, 0x10, 0, 0,
        ],
        4_096 - 32,
    ),
    // The header of area 0: an open gate; generation 1, no event, output from offset 0, 170 bytes of tables, version 1.
    (&[0xa5], 7),
    (
        &[
            1, 0, 0, 0, 0, 0, 0, 0, 0, 0, 0, 0, 0, 0, 0, 0, 0, 0, 0, 0, 0, 0, 0, 0, 170, 0, 0, 0,
            1, 0, 0, 0,
        ],
        4_096 - 40,
    ),
    // The tables of a program that hasn't begun.
    (&[], 8 + 1 + 7 + 8),
    (INITIAL_THREAD, 29 * 4 + 1 + 2 + 1 + 1 + 2 + 2),
    (&[], 98_304 - 170),
    // Page 0, which isn't saved.
    (&[], 4_096),
];
