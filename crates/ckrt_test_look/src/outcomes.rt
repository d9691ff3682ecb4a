//! What programs come to under each schedule. The digests are those of `sha256sum`.

use crate::expect::expect_eq;
use crate::hunts::{Wanted, expect_outcome, outcomes_of};
use ckrt_hunt_schedules::{Awaited, Outcomes, Waiting};
use ckrt_rv32i::Cause;
use std::process::Abort;

/// The digest of the byte `A`.
const OF_A: [u8; 32] = [
    0x55, 0x9a, 0xea, 0xd0, 0x82, 0x64, 0xd5, 0x79, 0x5d, 0x39, 0x09, 0x71, 0x8c, 0xdd, 0x05, 0xab,
    0xd4, 0x95, 0x72, 0xe8, 0x4f, 0xe5, 0x55, 0x90, 0xee, 0xf3, 0x1a, 0x88, 0xa0, 0x8f, 0xdf, 0xfd,
];

/// The digest of no byte.
const OF_NOTHING: [u8; 32] = [
    0xe3, 0xb0, 0xc4, 0x42, 0x98, 0xfc, 0x1c, 0x14, 0x9a, 0xfb, 0xf4, 0xc8, 0x99, 0x6f, 0xb9, 0x24,
    0x27, 0xae, 0x41, 0xe4, 0x64, 0x9b, 0x93, 0x4c, 0xa4, 0x95, 0x99, 0x1b, 0x78, 0x52, 0xb8, 0x55,
];

/// A program with one outcome.
#[derive(Drop)]
struct Case {
    words: &'static [u32],
    outcome: Wanted,
    digest: Option<[u8; 32]>,
}

/// A thread that is joined waits at a condition.
const WAITS: [u32; 15] = [
    0x00001537, // lui x10, 1
    0x02050513, // addi x10, x10, 32
    0x00008637, // lui x12, 8
    0x00a00893, // addi x17, x0, 10
    0x00000073, // ecall: create
    0x00058513, // addi x10, x11, 0
    0x00b00893, // addi x17, x0, 11
    0x00000073, // ecall: join
    0x04000513, // addi x10, x0, 64
    0x01600893, // addi x17, x0, 22
    0x00000073, // ecall: lock
    0x04400513, // addi x10, x0, 68
    0x04000593, // addi x11, x0, 64
    0x02000893, // addi x17, x0, 32
    0x00000073, // ecall: wait
];

/// Two threads, each of which ends the program with its own number.
pub const RACES: [u32; 11] = [
    0x00001537, // lui x10, 1
    0x02050513, // addi x10, x10, 32
    0x00008637, // lui x12, 8
    0x00a00893, // addi x17, x0, 10
    0x00000073, // ecall: create
    0x00100513, // addi x10, x0, 1
    0x00100893, // addi x17, x0, 1
    0x00000073, // ecall: exit
    0x00200513, // addi x10, x0, 2
    0x00100893, // addi x17, x0, 1
    0x00000073, // ecall: exit
];

/// Thread 1 sleeps again and again, and thread 2 locks a mutex that it has.
const LOCKS_TWICE: [u32; 17] = [
    0x00001537, // lui x10, 1
    0x02c50513, // addi x10, x10, 44
    0x00008637, // lui x12, 8
    0x00a00893, // addi x17, x0, 10
    0x00000073, // ecall: create
    0x3e840413, // addi x8, x8, 1000
    0x00040513, // addi x10, x8, 0
    0x00000593, // addi x11, x0, 0
    0x00500893, // addi x17, x0, 5
    0x00000073, // ecall: sleep_until
    0xfedff06f, // jal x0, -20
    0x00002537, // lui x10, 2
    0x01600893, // addi x17, x0, 22
    0x00000073, // ecall: lock
    0x00002537, // lui x10, 2
    0x01600893, // addi x17, x0, 22
    0x00000073, // ecall: lock
];

const CASES: [Case; 7] = [
    Case {
        words: &[
            0x04100513, // addi x10, x0, 65
            0x00200893, // addi x17, x0, 2
            0x00000073, // ecall: putc
            0x00700513, // addi x10, x0, 7
            0x00100893, // addi x17, x0, 1
            0x00000073, // ecall: exit
        ],
        outcome: Wanted::Exited(7),
        digest: Some(OF_A),
    },
    Case {
        words: &[
            0x00300293, // addi x5, x0, 3
            0x0012a303, // lw x6, 1(x5)
        ],
        outcome: Wanted::Faulted(1, 0x1004, Cause::LoadRange),
        digest: None,
    },
    Case {
        words: &WAITS,
        outcome: Wanted::Deadlock(&[
            Waiting {
                thread: 1,
                awaited: Awaited::End(2),
            },
            Waiting {
                thread: 2,
                awaited: Awaited::Condition(68),
            },
        ]),
        digest: None,
    },
    Case {
        words: &[
            0x00300893, // addi x17, x0, 3
            0x00000073, // ecall: getc
        ],
        outcome: Wanted::WaitsForInput,
        digest: None,
    },
    Case {
        words: &[
            0x0000006f, // jal x0, 0
        ],
        outcome: Wanted::NoEnd(&[]),
        digest: None,
    },
    Case {
        words: &LOCKS_TWICE,
        outcome: Wanted::NoEnd(&[Waiting {
            thread: 2,
            awaited: Awaited::Mutex(0x2000, Some(2)),
        }]),
        digest: None,
    },
    Case {
        words: &[
            0x3e800513, // addi x10, x0, 1000
            0x00500893, // addi x17, x0, 5
            0x00000073, // ecall: sleep_until
            0x00100893, // addi x17, x0, 1
            0x00000073, // ecall: exit
        ],
        outcome: Wanted::Exited(0),
        digest: Some(OF_NOTHING),
    },
];

/// All of ten seeds come to the outcome.
fn expect_case<R: Abort + AllocGlobal>(rt: &R, case: &Case) {
    let outcomes = outcomes_of(rt, case.words, 10);
    expect_eq(rt, outcomes.rows().len(), 1);
    expect_eq(rt, outcomes.others(), 0);
    for row in outcomes.rows() {
        expect_eq(rt, row.count, 10);
        expect_eq(rt, row.first, 0);
        expect_eq(rt, row.told.digest, case.digest);
        expect_outcome(rt, row, &case.outcome);
    }
}

#[test]
fn programs_with_one_outcome(rt: HostRuntime) {
    for case in &CASES {
        expect_case(&rt, case);
    }
}

/// How many runs came to the outcomes that have a row.
fn count_of(outcomes: &Outcomes) -> u64 {
    let mut count: u64 = 0;
    for row in outcomes.rows() {
        count = count.saturating_add(row.count);
    }
    count
}

#[test]
fn race_has_two_outcomes(rt: HostRuntime) {
    let outcomes = outcomes_of(&rt, &RACES, 100);
    expect_eq(&rt, outcomes.rows().len(), 2);
    expect_eq(&rt, count_of(&outcomes), 100);
}
