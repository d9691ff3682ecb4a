//! Every stop of the making of a disk of a file that is missing. After the file's end lie the bytes of another disk, or of none,
//! and the file may end anywhere that its writes have come to: from each such file the same command makes the disk.

use crate::expect::{expect_eq_at, filled, memory_disk, stopping_disk};
use crate::small_disk::{SMALL, format_outcome, recovered};
use ckrt_disk::{Disk, MemoryDisk};
use ckrt_recovery::FormatFault;
use ckrt_stored::fill_up;
use ckrt_test_storage::{IMAGE, SIZE};
use std::process::Abort;

/// The writes and syncs of the whole making: the first block and a sync, 84 more blocks, and the eleven calls of formatting.
const CALLS: u64 = 97;

/// The sync with which formatting begins. Before it no more is durable than the first block.
const FILLED_AT: u64 = 87;

/// The write that opens the gate.
const OPENED_AT: u64 = 96;

/// Whether a disk of a file with that many bytes is filled up, over those that the disk has after the file's end.
fn is_filled_up<R: Abort, D: Disk>(rt: &R, disk: &mut D, length: usize) -> bool {
    assert!(rt; length <= disk.size());
    fill_up(disk, length).is_ok()
}

/// A disk of a file with that many bytes, and after its end those that the disk has there: it is filled and formatted.
fn made<R: Abort + AllocGlobal, D: Disk>(
    rt: &R,
    disk: &mut D,
    length: usize,
) -> Result<(), FormatFault> {
    if is_filled_up(rt, disk, length) {
        format_outcome(rt, disk, SMALL, &IMAGE)
    } else {
        Err(FormatFault::Device)
    }
}

/// How long the file may be that a stop at a call leaves.
fn lengths(at_call: u64) -> &'static [usize] {
    if at_call <= 2 {
        &[0, 1, 4_096]
    } else if at_call <= FILLED_AT {
        &[4_096, 8_192, 348_159, SIZE]
    } else {
        &[SIZE]
    }
}

/// What a stop at a call left is made again, of a file with that many bytes. It holds the program then; only where the gate may
/// have been opened it may have held it before.
fn expect_made_again<R: Abort + AllocGlobal>(rt: &R, left: &[u8], at_call: u64, length: usize) {
    let bytes = left.to_vec(rt.alloc()).expect(rt, "memory for bytes");
    let mut disk = memory_disk(rt, bytes);
    let answer = made(rt, &mut disk, length);
    if at_call < OPENED_AT {
        expect_eq_at(rt, (at_call, length), answer, Ok(()));
    } else if answer.is_err() {
        expect_eq_at(
            rt,
            (at_call, length),
            answer,
            Err(FormatFault::AlreadyFormatted),
        );
    }
    let session = recovered(rt, disk);
    expect_eq_at(rt, (at_call, length), session.acknowledged(), 0);
}

/// A stop at a call, which lays a fill over what is pending; and from each file that it may leave the disk is made.
fn expect_goes_on<R: Abort + AllocGlobal>(rt: &R, behind: &[u8], at_call: u64, fill: &[u8]) {
    let bytes = behind.to_vec(rt.alloc()).expect(rt, "memory for bytes");
    let mut disk = stopping_disk(rt, bytes, at_call, fill);
    let answer = made(rt, &mut disk, 0);
    expect_eq_at(rt, at_call, answer, Err(FormatFault::Device));
    let left = disk.into_image();
    for length in lengths(at_call) {
        expect_made_again(rt, left.as_slice(), at_call, *length);
    }
}

/// The bytes of another disk, of a guest that is 8 zero bytes.
fn another_disk<R: Abort + AllocGlobal>(rt: &R) -> Vec<u8> {
    let mut disk: MemoryDisk = memory_disk(rt, filled(rt, 0x77, SIZE));
    expect_eq_at(
        rt,
        "another disk",
        format_outcome(rt, &mut disk, SMALL, &[0; 8]),
        Ok(()),
    );
    disk.into_image()
}

#[test]
fn each_stop_over_the_bytes_of_another_disk(rt: HostRuntime) {
    let other = another_disk(&rt);
    for at_call in 1..=CALLS {
        expect_goes_on(&rt, other.as_slice(), at_call, other.as_slice());
    }
}

#[test]
fn each_stop_over_open_gates(rt: HostRuntime) {
    let open = filled(&rt, 0xa5, SIZE);
    for at_call in 1..=CALLS {
        expect_goes_on(&rt, open.as_slice(), at_call, &[0xa5]);
    }
}

/// A stop after the last call is none.
#[test]
fn the_making_has_so_many_calls(rt: HostRuntime) {
    let mut disk = stopping_disk(&rt, another_disk(&rt), CALLS + 1, &[0xa5]);
    expect_eq_at(&rt, CALLS + 1, made(&rt, &mut disk, 0), Ok(()));
    expect_eq_at(&rt, "calls", disk.calls(), CALLS);
}

/// How a file begins that is in the making: its gate, 7 zeros, and its mark.
const FRONT: &[u8] = b"\0\0\0\0\0\0\0\0CKRTMAKE";

/// Whether these are zeros, but for the mark of a file that is in the making.
fn is_filled(bytes: &[u8]) -> bool {
    bytes.starts_with(FRONT) && bytes.iter().skip(FRONT.len()).all(|byte| *byte == 0)
}

/// A disk stays as it is where a longer one is asked for, and gets zeros after its end; one byte less is no disk.
#[test]
fn a_disk_is_filled_behind_its_end(rt: HostRuntime) {
    let mut bytes = another_disk(&rt);
    bytes
        .resize(SIZE + 9_000, 0x77)
        .expect(&rt, "memory for bytes");
    let mut disk = memory_disk(&rt, bytes);
    expect_eq_at(&rt, "kept", is_filled_up(&rt, &mut disk, SIZE), true);
    let kept = disk.into_image();
    let wanted = another_disk(&rt);
    expect_eq_at(&rt, "kept", kept.starts_with(wanted.as_slice()), true);
    expect_eq_at(
        &rt,
        "behind",
        kept.iter().skip(SIZE).all(|byte| *byte == 0),
        true,
    );
    let mut short = memory_disk(&rt, kept);
    expect_eq_at(&rt, "short", is_filled_up(&rt, &mut short, SIZE - 1), true);
    expect_eq_at(&rt, "short", is_filled(short.into_image().as_slice()), true);
}
