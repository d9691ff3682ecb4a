//! Drives with an input, stopped and given again.

use crate::expect::{
    copied, expect_bytes, expect_eq, expect_eq_at, filled, image_of, memory_disk, stopping_disk,
};
use crate::small_disk::{SMALL, format_outcome, recovered};
use ckrt_disk::{Disk, MemoryDisk};
use ckrt_drive::{Drive, DriveFault, FromDisk, Nobody, Options, RECORD_BYTES, read_offset};
use ckrt_schedule::ScheduleEnd;
use ckrt_test_storage::{FILLS, SIZE};
use std::process::Abort;

/// Puts each byte that it reads, and exits at the end of the input.
const ECHO: [u32; 10] = [
    0x00300893, // addi x17, x0, 3
    0x00000073, // ecall
    0xfff00313, // addi x6, x0, -1
    0x00650863, // beq x10, x6, done
    0x00200893, // addi x17, x0, 2
    0x00000073, // ecall
    0xfe9ff06f, // jal x0, -24
    // done:
    0x00000513, // addi x10, x0, 0
    0x00100893, // addi x17, x0, 1
    0x00000073, // ecall
];

/// The bytes of the input.
const TEXT: &[u8] =
    b"The input of a program is given in pieces of 64 bytes, each once and in order, whatever is stopped when. \
Behind the last byte comes its end, and not before.";

/// More calls than a drive of this guest makes before its end.
const CALLS: u64 = 200;

/// A disk with room for a record, formatted with the guest.
fn formatted<R: Abort + AllocGlobal>(rt: &R) -> Vec<u8> {
    let image = image_of(rt, &ECHO);
    let mut disk = memory_disk(rt, filled(rt, 0, SIZE.saturating_add(RECORD_BYTES)));
    let outcome = format_outcome(rt, &mut disk, SMALL, image.as_slice());
    expect_eq(rt, outcome, Ok(()));
    disk.into_image()
}

/// How much of its input the program of a disk has taken.
fn offset<R: Abort, D: Disk>(rt: &R, disk: &mut D) -> u64 {
    match read_offset(disk, None) {
        Ok(offset) => offset,
        Err(fault) => panic!(rt; "{fault}"),
    }
}

/// What a drive answers, and what it leaves of its disk and of its output. It commits after each round.
fn driven<R: Abort + AllocGlobal, D: Disk>(
    rt: &R,
    disk: D,
    output: MemoryDisk,
) -> (Result<Option<ScheduleEnd>, DriveFault>, D, MemoryDisk) {
    let mut disk = disk;
    let taken = offset(rt, &mut disk);
    let session = recovered(rt, disk);
    let feed = FromDisk::new(memory_disk(rt, copied(rt, TEXT)));
    let mut drive = Drive::with_feed(session, output, Options::new(300, 1, u64::MAX), feed, taken);
    let answer = drive.run(1_000_000, &mut Nobody);
    let (session, output, _) = drive.into_parts();
    (answer, session.into_disk(), output)
}

/// The program has ended, and has put all of its input, once.
fn expect_echoed<R: Abort + AllocGlobal>(rt: &R, at_call: u64, image: Vec<u8>, output: MemoryDisk) {
    let (answer, mut disk, output) = driven(rt, memory_disk(rt, image), output);
    expect_eq_at(rt, at_call, answer, Ok(Some(ScheduleEnd::Ended)));
    expect_eq_at(rt, at_call, offset(rt, &mut disk), TEXT.len() as u64);
    let image = output.into_image();
    assert!(rt; TEXT.len() <= image.len());
    let (front, back) = image.as_slice().split_at(TEXT.len());
    expect_bytes(rt, front, TEXT);
    expect_eq(rt, back.iter().all(|byte| *byte == 0), true);
}

/// A drive that stops at a call, and the next one, which goes on. Whether the first one came to its end.
fn stopped_and_given_again<R: Abort + AllocGlobal>(
    rt: &R,
    image: &[u8],
    at_call: u64,
    fill: &[u8],
) -> bool {
    let disk = stopping_disk(rt, copied(rt, image), at_call, fill);
    let (answer, disk, output) = driven(rt, disk, memory_disk(rt, filled(rt, 0, 256)));
    expect_echoed(rt, at_call, disk.into_image(), output);
    answer.is_ok()
}

#[test]
fn an_input_is_given_once_whatever_is_stopped_when(rt: HostRuntime) {
    let image = formatted(&rt);
    for fill in [FILLS[0], FILLS[1]] {
        for at_call in 2..CALLS {
            let _ = stopped_and_given_again(&rt, &image, at_call, fill);
        }
        expect_eq(&rt, stopped_and_given_again(&rt, &image, CALLS, fill), true);
    }
}
