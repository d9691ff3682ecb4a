//! Short drives of which each write and sync of the disk and of the output is stopped, with several fills each, and what the
//! next drive makes of what is left of both.

use crate::drives::{RACERS, ended, formatted_for, usual};
use crate::expect::{expect_bytes, expect_eq, expect_eq_at, filled, memory_disk, stopping_disk};
use crate::small_disk::{recovered_in_memory, recovery_outcome};
use ckrt_disk::{MemoryDisk, StoppingDisk};
use ckrt_drive::{Drive, DriveFault, Nobody, Nothing, Options};
use ckrt_schedule::ScheduleEnd;
use ckrt_test_storage::{COUNTERS, SLEEPERS};
use std::process::Abort;

/// What a stop lays over the bytes that are pending then, over and over: with an empty one they stay.
const FILLS: [&[u8]; 5] = [&[], &[0x00], &[0xff], &[0xa5], &[0x01, 0x00, 0x00]];

/// How many bytes an output has.
const OUTPUT_BYTES: usize = 64;

/// Which of the two devices is stopped.
#[derive(Clone, Copy, Debug, PartialEq, Eq)]
enum Device {
    Disk,
    Output,
}

/// A stop: at which write or sync of which device, and what it lays over the pending bytes.
#[derive(Clone, Copy)]
struct Stop<'a> {
    device: Device,
    at_call: u64,
    fill: &'a [u8],
}

/// What a stop has left of a disk and of an output.
#[derive(Drop)]
struct Left {
    disk: Vec<u8>,
    output: Vec<u8>,
    /// Whether the drive came to the call at all.
    is_stopped: bool,
}

/// A drive that is stopped, from a formatted disk and an output of zeros, and one after it, to the end.
#[derive(Clone, Copy)]
struct TwoDrives<'a> {
    formatted: &'a [u8],
    stopped: Options,
    behind: Options,
}

/// A copy of bytes.
fn copied<R: Abort + AllocGlobal>(rt: &R, bytes: &[u8]) -> Vec<u8> {
    bytes.to_vec(rt.alloc()).expect(rt, "memory for bytes")
}

/// The drive has answered this fault, where its device was stopped, or came to its end.
fn expect_stopped_or_ended<R: Abort>(
    rt: &R,
    answer: Result<Option<ScheduleEnd>, DriveFault>,
    fault: DriveFault,
) -> bool {
    if answer == Err(fault) {
        return true;
    }
    expect_eq(rt, answer, Ok(Some(ScheduleEnd::Ended)));
    false
}

/// What is left of a drive whose disk stops.
fn left_by_disk<R: Abort>(rt: &R, drive: Drive<StoppingDisk, MemoryDisk, Nothing>) -> Left {
    let mut drive = drive;
    let answer = drive.run(1_000_000, &mut Nobody);
    let is_stopped = expect_stopped_or_ended(rt, answer, DriveFault::Device);
    let again = drive.run(1_000_000, &mut Nobody);
    expect_eq(rt, again.is_err(), is_stopped);
    let (session, output, Nothing) = drive.into_parts();
    Left {
        disk: session.into_disk().into_image(),
        output: output.into_image(),
        is_stopped,
    }
}

/// What is left of a drive whose output stops.
fn left_by_output<R: Abort>(rt: &R, drive: Drive<MemoryDisk, StoppingDisk, Nothing>) -> Left {
    let mut drive = drive;
    let answer = drive.run(1_000_000, &mut Nobody);
    let is_stopped = expect_stopped_or_ended(rt, answer, DriveFault::Output);
    let (session, output, Nothing) = drive.into_parts();
    Left {
        disk: session.into_disk().into_image(),
        output: output.into_image(),
        is_stopped,
    }
}

impl TwoDrives<'_> {
    /// What a stop of the disk leaves, perhaps already of its recovery.
    fn left_by_disk<R: Abort + AllocGlobal>(&self, rt: &R, stop: Stop<'_>) -> Left {
        let disk = stopping_disk(rt, copied(rt, self.formatted), stop.at_call, stop.fill);
        let output = memory_disk(rt, filled(rt, 0, OUTPUT_BYTES));
        match recovery_outcome(rt, disk) {
            Ok(session) => left_by_disk(rt, Drive::new(session, output, self.stopped)),
            Err(unrecovered) => Left {
                disk: unrecovered.disk.into_image(),
                output: output.into_image(),
                is_stopped: true,
            },
        }
    }

    /// What a stop of the output leaves.
    fn left_by_output<R: Abort + AllocGlobal>(&self, rt: &R, stop: Stop<'_>) -> Left {
        let session = recovered_in_memory(rt, copied(rt, self.formatted));
        let zeros = filled(rt, 0, OUTPUT_BYTES);
        let output = stopping_disk(rt, zeros, stop.at_call, stop.fill);
        left_by_output(rt, Drive::new(session, output, self.stopped))
    }

    /// The output once the following drive has come to its end, over what is left.
    fn finished<R: Abort + AllocGlobal>(&self, rt: &R, disk: Vec<u8>, output: Vec<u8>) -> Vec<u8> {
        let session = recovered_in_memory(rt, disk);
        let output = memory_disk(rt, output);
        let (_, output) = ended(rt, session, output, self.behind, ScheduleEnd::Ended);
        output.into_image()
    }

    /// The output of the following drive alone, which nothing stopped before.
    fn unbroken<R: Abort + AllocGlobal>(&self, rt: &R) -> Vec<u8> {
        self.finished(rt, copied(rt, self.formatted), filled(rt, 0, OUTPUT_BYTES))
    }

    /// The output is as it is to be after this stop. Whether the drive came to the stop at all.
    fn expect_whole<R: Abort + AllocGlobal>(&self, rt: &R, stop: Stop<'_>, wanted: &[u8]) -> bool {
        let left = match stop.device {
            Device::Disk => self.left_by_disk(rt, stop),
            Device::Output => self.left_by_output(rt, stop),
        };
        let got = self.finished(rt, left.disk, left.output);
        expect_bytes(rt, got.as_slice(), wanted);
        left.is_stopped
    }

    /// So it is with each fill. Whether the drive came to the call.
    fn expect_whole_with_fills<R: Abort + AllocGlobal>(
        &self,
        rt: &R,
        device: Device,
        at_call: u64,
        wanted: &[u8],
    ) -> bool {
        let mut is_stopped = false;
        for fill in FILLS {
            let stop = Stop {
                device,
                at_call,
                fill,
            };
            is_stopped = self.expect_whole(rt, stop, wanted);
        }
        is_stopped
    }

    /// It is so after each call of a device. How many calls the drive makes of it.
    fn calls_behind_which_it_is_whole<R: Abort + AllocGlobal>(
        &self,
        rt: &R,
        device: Device,
        wanted: &[u8],
    ) -> u64 {
        let mut calls = 0;
        for at_call in 1..1_000 {
            if !self.expect_whole_with_fills(rt, device, at_call, wanted) {
                break;
            }
            calls = at_call;
        }
        calls
    }

    /// It is so after each call of the disk, of which there are that many or more, and of the output, in pairs of a write and a
    /// sync.
    fn expect_whole_behind_each_call<R: Abort + AllocGlobal>(
        &self,
        rt: &R,
        least: u64,
        wanted: &[u8],
    ) {
        let of_disk = self.calls_behind_which_it_is_whole(rt, Device::Disk, wanted);
        expect_eq_at(rt, of_disk, least <= of_disk && of_disk < 999, true);
        let of_output = self.calls_behind_which_it_is_whole(rt, Device::Output, wanted);
        expect_eq_at(rt, of_output, of_output > 0 && of_output % 2 == 0, true);
    }
}

/// These bytes, and zeros after them.
fn padded<R: Abort + AllocGlobal>(rt: &R, bytes: &[u8]) -> Vec<u8> {
    let mut padded = copied(rt, bytes);
    padded
        .resize(OUTPUT_BYTES, 0)
        .expect(rt, "memory for bytes");
    padded
}

/// Turns of 40 steps, and a commit after each round.
fn small_turns() -> Options {
    Options::new(40, 1, u64::MAX)
}

/// Recovery's sync, four commits by 4 calls each, a checkpoint of all 15 pages by 21, and three of none by 8 each, as the guest
/// stores nothing: 62 calls of the disk.
#[test]
fn sleepers_put_each_byte_once_after_each_stop(rt: HostRuntime) {
    let formatted = formatted_for(&rt, &SLEEPERS, 3);
    let drives = TwoDrives {
        formatted: formatted.as_slice(),
        stopped: small_turns(),
        behind: usual(u64::MAX),
    };
    let wanted = padded(&rt, &[0x14, 0x28, 0x3c]);
    drives.expect_whole_behind_each_call(&rt, 62, wanted.as_slice());
}

#[test]
fn counters_put_their_byte_once_after_each_stop(rt: HostRuntime) {
    let formatted = formatted_for(&rt, &COUNTERS, 3);
    let drives = TwoDrives {
        formatted: formatted.as_slice(),
        stopped: small_turns(),
        behind: usual(u64::MAX),
    };
    let wanted = padded(&rt, &[0x50]);
    drives.expect_whole_behind_each_call(&rt, 22, wanted.as_slice());
}

#[test]
fn racers_end_as_unbroken_after_each_stop(rt: HostRuntime) {
    let formatted = formatted_for(&rt, &RACERS, 3);
    let drives = TwoDrives {
        formatted: formatted.as_slice(),
        stopped: small_turns().with_seed(5),
        behind: Options::new(40, 16, u64::MAX).with_seed(5),
    };
    let by_another_seed = TwoDrives {
        behind: Options::new(40, 16, u64::MAX).with_seed(6),
        ..drives
    };
    let wanted = drives.unbroken(&rt);
    let other = by_another_seed.unbroken(&rt);
    expect_eq(&rt, wanted.as_slice() == other.as_slice(), false);
    drives.expect_whole_behind_each_call(&rt, 22, wanted.as_slice());
}
