//! The lines of the calls of a disk, or of a stretch of its events.
//!
//! The program puts an `A` by its third step and ends with its sixth. It makes two steps by its second event, and four by its third.

use crate::expect::expect_eq;
use crate::recordings::{Row, empty, played};
use ckrt_disk::Disk;
use ckrt_inspect::InspectFault;
use ckrt_look_calls::{Calls, Stretch, tell_stretch};
use std::process::Abort;

const PLACED: &[u8] = b"0+0 place 0 1\n";

const CALLED: &[u8] = b"2+0 thread 1 putc(65) = 0\n2+3 thread 1 exit(0) = ?\n";

const ALL: &[u8] = b"0+0 place 0 1\n2+0 thread 1 putc(65) = 0\n2+3 thread 1 exit(0) = ?\n";

const RANGE: Result<(), InspectFault> = Err(InspectFault::Range);

/// Without a checkpoint, and with one behind the first event and one behind the second.
const WHOLE: Row = (&[], &[2, 4]);

const SAVED: Row = (&[1, 2], &[2, 4]);

/// Where a stretch begins and ends, how many of its last events are told, the answer, and what is written.
type Told = (
    Option<u64>,
    Option<u64>,
    Option<u64>,
    Result<(), InspectFault>,
    &'static [u8],
);

const OF_THE_WHOLE: [Told; 18] = [
    (None, None, None, Ok(()), ALL),
    (Some(0), Some(3), None, Ok(()), ALL),
    (Some(1), None, None, Ok(()), CALLED),
    (None, Some(2), None, Ok(()), PLACED),
    (Some(1), Some(2), None, Ok(()), b""),
    (Some(3), Some(3), None, Ok(()), b""),
    (Some(2), Some(1), None, RANGE, b""),
    (Some(4), None, None, RANGE, b""),
    (None, Some(4), None, RANGE, b""),
    (None, None, Some(0), Ok(()), b""),
    (None, None, Some(1), Ok(()), CALLED),
    (None, None, Some(3), Ok(()), ALL),
    (None, None, Some(u64::MAX), Ok(()), ALL),
    (None, Some(2), Some(1), Ok(()), b""),
    (None, Some(2), Some(2), Ok(()), PLACED),
    (Some(1), None, Some(3), Ok(()), CALLED),
    (Some(2), Some(1), Some(1), RANGE, b""),
    (Some(4), None, Some(1), RANGE, b""),
];

const OF_THE_SAVED: [Told; 7] = [
    (None, None, None, Ok(()), CALLED),
    (Some(2), None, None, Ok(()), CALLED),
    (Some(1), Some(3), None, Ok(()), CALLED),
    (Some(0), None, None, RANGE, b""),
    (None, Some(0), None, RANGE, b""),
    (None, None, Some(9), Ok(()), CALLED),
    (Some(0), None, Some(1), RANGE, b""),
];

/// It ensures nothing, so tests that call it are cheap to prove.
fn outcome<R: AllocGlobal, D: Disk>(
    rt: &R,
    disk: &mut D,
    stretch: Stretch,
    out: &mut Vec<u8>,
) -> Result<(), InspectFault> {
    tell_stretch(rt.alloc(), disk, stretch, &Calls, out)
}

fn expect_told<R: Abort + AllocGlobal, D: Disk>(rt: &R, disk: &mut D, told: &Told) {
    let mut out = Vec::new(rt.alloc());
    let stretch = Stretch {
        from: told.0,
        to: told.1,
        last: told.2,
    };
    expect_eq(rt, outcome(rt, disk, stretch, &mut out), told.3);
    expect_eq(rt, out.as_slice(), told.4);
}

fn expect_all<R: Abort + AllocGlobal>(rt: &R, row: &Row, all: &[Told]) {
    let mut disk = played(rt, row);
    for told in all {
        expect_told(rt, &mut disk, told);
    }
}

#[test]
fn calls_of_a_stretch_are_told(rt: HostRuntime) {
    expect_all(&rt, &WHOLE, &OF_THE_WHOLE);
    expect_all(&rt, &SAVED, &OF_THE_SAVED);
    let fault = Err(InspectFault::NotFormatted);
    expect_told(&rt, &mut empty(&rt), &(None, None, None, fault, b""));
}
