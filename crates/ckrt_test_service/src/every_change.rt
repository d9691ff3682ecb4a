//! Every bit of the superblock, of the header in use and of what stands at the beginning of the others, turned by itself:
//! what the disk recovers to, field by field as the format lists them.

use crate::expect::{copied, expect_eq_at, memory_disk};
use crate::small_disk::{formatted, recovery_outcome};
use ckrt_recovery::RecoverFault;
use ckrt_test_storage::IMAGE;
use std::process::Abort;

/// The header of area 0, that of area 1, and the first batches of the two journals.
const HEADER: usize = 4_096;

const OTHER_HEADER: usize = 172_032;

const JOURNALS: [usize; 2] = [339_968, 344_064];

/// What a disk recovers to: how many events, of which generation, after how many bytes of confirmed output.
type Outcome = Result<(u64, u64, u64), RecoverFault>;

/// That of a disk that has just been formatted.
const FRESH: Outcome = Ok((0, 1, 0));

/// What a disk of these bytes recovers to.
fn outcome<R: Abort + AllocGlobal>(rt: &R, bytes: Vec<u8>) -> Outcome {
    match recovery_outcome(rt, memory_disk(rt, bytes)) {
        Ok(session) => Ok((
            session.acknowledged(),
            session.generation(),
            session.confirmed(),
        )),
        Err(unrecovered) => Err(unrecovered.fault),
    }
}

/// A copy of the bytes in which one bit, 0 to 7, of one byte is turned.
fn turned<R: Abort + AllocGlobal>(rt: &R, bytes: &[u8], place: usize, bit: u8) -> Vec<u8> {
    let mut turned = copied(rt, bytes);
    assert!(rt; place < turned.len() && bit < 8);
    turned[place] ^= 1 << bit;
    turned
}

/// The number of eight bytes that is 0 but for one bit of one byte.
fn one_bit<R: Abort>(rt: &R, byte: usize, bit: u8) -> u64 {
    assert!(rt; byte < 8 && bit < 8);
    1 << (8 * byte as u32 + u32::from(bit))
}

/// The same where this is the number of events, or the offset of output, of a disk: both are below 2^62.
fn below_the_limit(number: u64, outcome: Outcome) -> Outcome {
    if number < 1 << 62 {
        outcome
    } else {
        Err(RecoverFault::Damaged)
    }
}

/// What comes of a turned bit in the superblock: gate, 7 bytes that aren't read, the magic number, the version, and then
/// 16 pages, 1 hart and the journal's 4,096 bytes. There it gives a number out of its range or a disk that is too small,
/// but for 3 or 5 harts, which are idle. Version 3 becomes version 1, which recovers too, by one bit; and what the disk notes of its
/// program recovery doesn't read.
fn in_superblock(byte: usize, bit: u8) -> Outcome {
    match (byte, bit) {
        (1..=7 | 32.., _) | (16, 1) | (24, 1 | 2) => FRESH,
        (0 | 8..=15, _) => Err(RecoverFault::NotFormatted),
        (16..=19, _) => Err(RecoverFault::Version),
        _ => Err(RecoverFault::Damaged),
    }
}

/// The outcome of a generation, which was 1, in which a bit was turned.
fn with_generation(turned: u64) -> Outcome {
    match turned ^ 1 {
        0 => Err(RecoverFault::Damaged),
        generation => Ok((0, generation, 0)),
    }
}

/// What comes of a turned bit in the header of the area in use: gate, 7 bytes that aren't read, generation, number of
/// events, offset of output, length of the tables, version.
fn in_header<R: Abort>(rt: &R, byte: usize, bit: u8) -> Outcome {
    let turned = one_bit(rt, byte % 8, bit);
    match byte {
        1..=7 => FRESH,
        8..=15 => with_generation(turned),
        16..=23 => below_the_limit(turned, Ok((turned, 1, 0))),
        24..=31 => below_the_limit(turned, Ok((0, 1, turned))),
        36..=39 => Err(RecoverFault::Version),
        _ => Err(RecoverFault::Damaged),
    }
}

/// A bit is turned in the disk.
fn expect_turned<R: Abort + AllocGlobal>(
    rt: &R,
    disk: &[u8],
    place: usize,
    bit: u8,
    want: Outcome,
) {
    let got = outcome(rt, turned(rt, disk, place, bit));
    expect_eq_at(rt, (place, bit), got, want);
}

/// Each bit of a byte of the superblock.
fn expect_superblock<R: Abort + AllocGlobal>(rt: &R, disk: &[u8], byte: usize) {
    for bit in 0..8u8 {
        expect_turned(rt, disk, byte, bit, in_superblock(byte, bit));
    }
}

/// Each bit of a byte of the header in use.
fn expect_header<R: Abort + AllocGlobal>(rt: &R, disk: &[u8], byte: usize) {
    assert!(rt; byte < 40);
    for bit in 0..8u8 {
        expect_turned(rt, disk, HEADER + byte, bit, in_header(rt, byte, bit));
    }
}

/// Each bit of a byte that isn't read, or is a gate that no one bit opens.
fn expect_unread<R: Abort + AllocGlobal>(rt: &R, disk: &[u8], place: usize) {
    for bit in 0..8u8 {
        expect_turned(rt, disk, place, bit, FRESH);
    }
}

#[test]
fn every_bit_of_the_superblock(rt: HostRuntime) {
    let disk = formatted(&rt, &IMAGE);
    for byte in 0..72usize {
        expect_superblock(&rt, disk.as_slice(), byte);
    }
    expect_unread(&rt, disk.as_slice(), 72);
}

#[test]
fn every_bit_of_the_header_in_use(rt: HostRuntime) {
    let disk = formatted(&rt, &IMAGE);
    for byte in 0..40usize {
        expect_header(&rt, disk.as_slice(), byte);
    }
    expect_unread(&rt, disk.as_slice(), HEADER + 40);
}

#[test]
fn what_stands_behind_a_closed_gate_isnt_read(rt: HostRuntime) {
    let disk = formatted(&rt, &IMAGE);
    for byte in 0..40usize {
        expect_unread(&rt, disk.as_slice(), OTHER_HEADER + byte);
    }
    for journal in JOURNALS {
        expect_unread(&rt, disk.as_slice(), journal);
        expect_unread(&rt, disk.as_slice(), journal.saturating_add(1));
    }
}
