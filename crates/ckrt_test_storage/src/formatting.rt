//! Worked values of a freshly formatted disk, and what is refused.

use crate::expect::{expect_eq, expect_eq_at, expect_part, filled, memory_disk, stopping_disk};
use crate::small_disk::{SMALL, expect_format, format_outcome};
use crate::{IMAGE, SIZE};
use ckrt_disk::{Disk, FailingDisk};
use ckrt_stored::{Config, FormatFault};
use std::process::Abort;

/// Offsets, and the bytes from there on.
const FRESH: &[(usize, &[u8])] = &[
    (0, &[0xa5, 0xee, 0xee, 0xee, 0xee, 0xee, 0xee, 0xee]),
    (8, b"CKRTDISK"),
    (16, &[3, 0, 0, 0, 0x10, 0, 0, 0, 1, 0, 0, 0, 0, 0x10, 0, 0]),
    // the digest of its image, by `sha256sum`, and its length
    (
        32,
        &[
            0x0e, 0x63, 0x76, 0x30, 0x4a, 0x43, 0x16, 0xbf, 0xfe, 0xd9, 0x62, 0x35, 0x10, 0xf2,
            0x20, 0xe7, 0x28, 0xef, 0x44, 0x85, 0xff, 0x15, 0xaf, 0x18, 0xd5, 0x91, 0xaf, 0xf9,
            0xd1, 0x91, 0xd3, 0xe4,
        ],
    ),
    (64, &[24, 0, 0, 0, 0, 0, 0, 0, 0xee]),
    // area 0: gate, generation 1, count 0, offset 0, tables of 176 bytes, version 2
    (4_096, &[0xa5, 0xee, 0xee, 0xee, 0xee, 0xee, 0xee, 0xee]),
    (4_104, &[1, 0, 0, 0, 0, 0, 0, 0, 0, 0, 0, 0, 0, 0, 0, 0]),
    (
        4_120,
        &[0, 0, 0, 0, 0, 0, 0, 0, 0xb0, 0, 0, 0, 2, 0, 0, 0, 0xee],
    ),
    // its tables: thread 1, with pc 1000, x1 FFFFFFF0 and x2 10000
    (8_192, &[0; 24]),
    (8_216, &[1, 1, 1, 0, 0, 0, 0, 0, 0]),
    (
        8_225,
        &[0, 0x10, 0, 0, 0xf0, 0xff, 0xff, 0xff, 0, 0, 1, 0, 0],
    ),
    // its keys: there may be some, and there is none; then neither input nor output
    (8_361, &[0, 1, 0, 0, 0, 0, 0, 0xee]),
    // its memory
    (110_592, &IMAGE),
    (110_616, &[0, 0]),
    // area 1 and journal 0 are closed
    (172_032, &[0, 0xee]),
    (339_968, &[0, 0xee]),
];

#[test]
fn a_fresh_disk_has_these_bytes(rt: HostRuntime) {
    let mut disk = memory_disk(&rt, filled(&rt, 0xee, SIZE));
    expect_format(&rt, &mut disk, &IMAGE, Ok(()));
    let image = disk.into_image();
    for (at, part) in FRESH {
        expect_part(&rt, image.as_slice(), *at, *part);
    }
}

/// A disk of that many bytes, formatted with an image of that many zeros.
fn expect_answer<R: Abort + AllocGlobal>(
    rt: &R,
    size: usize,
    config: Config,
    image_size: usize,
    want: Result<(), FormatFault>,
) {
    let image = filled(rt, 0, image_size);
    let mut disk = memory_disk(rt, filled(rt, 0xee, size));
    let answer = format_outcome(rt, &mut disk, config, image.as_slice());
    expect_eq_at(rt, (size, image_size), answer, want);
}

/// A configuration that is refused, whatever else is right.
fn expect_bad<R: Abort + AllocGlobal>(rt: &R, pages: u32, harts: u32, journal: u32) {
    let config = Config {
        pages,
        harts,
        journal,
    };
    expect_answer(rt, SIZE, config, 0, Err(FormatFault::BadConfig));
}

#[test]
fn sizes_are_tested_in_order(rt: HostRuntime) {
    expect_answer(&rt, SIZE, SMALL, 24, Ok(()));
    expect_answer(&rt, SIZE - 1, SMALL, 24, Err(FormatFault::TooSmall));
    expect_answer(&rt, SIZE, SMALL, 61_440, Ok(()));
    expect_answer(&rt, SIZE, SMALL, 61_441, Err(FormatFault::ImageTooLong));
    expect_answer(&rt, SIZE - 1, SMALL, 61_441, Err(FormatFault::ImageTooLong));
    let bad = Config { pages: 15, ..SMALL };
    expect_answer(&rt, SIZE - 1, bad, 61_441, Err(FormatFault::BadConfig));
    expect_answer(&rt, 0, SMALL, 0, Err(FormatFault::TooSmall));
    expect_bad(&rt, 16, 0, 4_096);
    expect_bad(&rt, 16, 9, 4_096);
    expect_bad(&rt, 16, 1, 4_097);
    expect_bad(&rt, 16, 1, 0);
    expect_bad(&rt, 16, 1, 1_052_672);
    expect_bad(&rt, 65_537, 1, 4_096);
}

/// The bytes of a disk with an open first gate, and EE after it.
fn used_but_open<R: Abort + AllocGlobal>(rt: &R) -> Vec<u8> {
    let mut bytes = filled(rt, 0xa5, 1);
    bytes.resize(SIZE, 0xee).expect(rt, "memory for a disk");
    bytes
}

#[test]
fn a_formatted_disk_is_left_as_it_is(rt: HostRuntime) {
    let before = used_but_open(&rt);
    let mut disk = stopping_disk(&rt, used_but_open(&rt), 0, &[]);
    expect_format(&rt, &mut disk, &IMAGE, Err(FormatFault::AlreadyFormatted));
    expect_eq(&rt, disk.calls(), 1);
    assert!(rt; disk.into_image().as_slice() == before.as_slice());
}

/// A format of zeros that stops at a call, and whether the first gate is open then.
fn expect_gate<R: Abort + AllocGlobal>(rt: &R, at_call: u64, fill: &[u8], is_open: bool) {
    let mut disk = stopping_disk(rt, filled(rt, 0, SIZE), at_call, fill);
    expect_format(rt, &mut disk, &IMAGE, Err(FormatFault::Device));
    let left = disk.into_image();
    expect_eq_at(rt, at_call, left.starts_with(&[0xa5]), is_open);
}

/// A stop before the last write leaves the first gate closed; one in it or its sync leaves it as it was filled.
#[test]
fn the_first_gate_is_opened_last(rt: HostRuntime) {
    for at_call in 1..12u64 {
        let is_last = at_call > 9;
        expect_gate(&rt, at_call, &[0xa5], is_last);
        expect_gate(&rt, at_call, &[0], false);
        expect_gate(&rt, at_call, &[], is_last);
    }
}

/// What the formats of a disk answer, one after the other.
fn format_twice<R: AllocGlobal, D: Disk>(
    rt: &R,
    disk: &mut D,
) -> (Result<(), FormatFault>, Result<(), FormatFault>) {
    let first = format_outcome(rt, disk, SMALL, &IMAGE);
    (first, format_outcome(rt, disk, SMALL, &IMAGE))
}

/// A format that fails at a call, and what the next one answers.
fn expect_again<R: Abort + AllocGlobal>(rt: &R, at_call: u64, again: Result<(), FormatFault>) {
    let mut disk = FailingDisk::new(memory_disk(rt, filled(rt, 0xee, SIZE)), at_call);
    let answers = format_twice(rt, &mut disk);
    expect_eq_at(rt, at_call, answers, (Err(FormatFault::Device), again));
}

/// A failed call is answered Device, and the disk can be formatted afterwards, unless its gate is open already.
#[test]
fn a_disk_that_failed_can_be_formatted(rt: HostRuntime) {
    for at_call in 1..12u64 {
        expect_again(&rt, at_call, Ok(()));
    }
    expect_again(&rt, 12, Err(FormatFault::AlreadyFormatted));
}
