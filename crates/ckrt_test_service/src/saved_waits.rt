//! A guest with threads in every kind of wait: saved, recovered and run on, it gets the same replies and puts the same bytes
//! as one that is never saved.

use crate::expect::{expect_bytes, expect_eq, image_of, put_by};
use crate::small_disk::{formatted, recovered, recovered_in_memory};
use ckrt_disk::MemoryDisk;
use ckrt_main::serve;
use ckrt_recovery::Session;
use ckrt_thread::{Reason, ThreadId, Wait};
use std::process::Abort;

/// The first thread takes a mutex and the write lock of a read-write lock, prepares a barrier for two, and begins threads 2
/// to 13, each of which waits: for the end of thread 3 (J), for a byte (G), for the mutex (L), for the mutex until 60 (T),
/// at a condition (C), at one until 60 (D), at the barrier (B), to read (R), to write (W), until 70 (S), at the condition
/// with a handler (X), and at a condition of its own (Y). C, X and Y have a second mutex there, and D a third.
///
/// At 10 the first thread takes these two as well, cancels X and signals Y, which now wait for their mutex; at 100 it
/// signals C, comes to the barrier and gives up all that it has, and then joins the others. Each of them puts its letter
/// and what it got, and gives up what it has.
const WAITS: [u32; 233] = [
    0x00005537, // lui x10, 5
    0x01600893, // addi x17, x0, 22
    0x00000073, // ecall
    0x00008537, // lui x10, 8
    0x03600893, // addi x17, x0, 54
    0x00000073, // ecall
    0x00007537, // lui x10, 7
    0x00200593, // addi x11, x0, 2
    0x02800893, // addi x17, x0, 40
    0x00000073, // ecall
    0x00001537, // lui x10, 1
    0x1e850513, // addi x10, x10, join_case
    0x144002ef, // jal x5, create
    0x00001537, // lui x10, 1
    0x20050513, // addi x10, x10, getc_case
    0x138002ef, // jal x5, create
    0x00001537, // lui x10, 1
    0x21450513, // addi x10, x10, lock_case
    0x12c002ef, // jal x5, create
    0x00001537, // lui x10, 1
    0x23850513, // addi x10, x10, timed_lock_case
    0x120002ef, // jal x5, create
    0x00001537, // lui x10, 1
    0x25850513, // addi x10, x10, wait_case
    0x114002ef, // jal x5, create
    0x00001537, // lui x10, 1
    0x28050513, // addi x10, x10, timed_wait_case
    0x108002ef, // jal x5, create
    0x00001537, // lui x10, 1
    0x2c050513, // addi x10, x10, barrier_case
    0x0fc002ef, // jal x5, create
    0x00001537, // lui x10, 1
    0x2d850513, // addi x10, x10, read_case
    0x0f0002ef, // jal x5, create
    0x00001537, // lui x10, 1
    0x2fc50513, // addi x10, x10, write_case
    0x0e4002ef, // jal x5, create
    0x00001537, // lui x10, 1
    0x32050513, // addi x10, x10, sleep_case
    0x0d8002ef, // jal x5, create
    0x00001537, // lui x10, 1
    0x33c50513, // addi x10, x10, cancelled_case
    0x0cc002ef, // jal x5, create
    0x00001537, // lui x10, 1
    0x37850513, // addi x10, x10, signalled_case
    0x0c0002ef, // jal x5, create
    0x00a00513, // addi x10, x0, 10
    0x00000593, // addi x11, x0, 0
    0x00500893, // addi x17, x0, 5
    0x00000073, // ecall
    0x00005537, // lui x10, 5
    0x00450513, // addi x10, x10, 4
    0x01600893, // addi x17, x0, 22
    0x00000073, // ecall
    0x00005537, // lui x10, 5
    0x00850513, // addi x10, x10, 8
    0x01600893, // addi x17, x0, 22
    0x00000073, // ecall
    0x00c00513, // addi x10, x0, 12
    0x03c00893, // addi x17, x0, 60
    0x00000073, // ecall
    0x00006537, // lui x10, 6
    0x00850513, // addi x10, x10, 8
    0x02200893, // addi x17, x0, 34
    0x00000073, // ecall
    0x06400513, // addi x10, x0, 100
    0x00000593, // addi x11, x0, 0
    0x00500893, // addi x17, x0, 5
    0x00000073, // ecall
    0x00006537, // lui x10, 6
    0x02200893, // addi x17, x0, 34
    0x00000073, // ecall
    0x00007537, // lui x10, 7
    0x02a00893, // addi x17, x0, 42
    0x00000073, // ecall
    0x00008537, // lui x10, 8
    0x03800893, // addi x17, x0, 56
    0x00000073, // ecall
    0x00005537, // lui x10, 5
    0x01900893, // addi x17, x0, 25
    0x00000073, // ecall
    0x07c002ef, // jal x5, release_first
    0x08c002ef, // jal x5, release_second
    0x00200413, // addi x8, x0, 2
    0x00e00493, // addi x9, x0, 14
    // join:
    0x00040513, // addi x10, x8, 0
    0x00b00893, // addi x17, x0, 11
    0x00000073, // ecall
    0x00140413, // addi x8, x8, 1
    0xfe9418e3, // bne x8, x9, join
    0x00000513, // addi x10, x0, 0
    0x00100893, // addi x17, x0, 1
    0x00000073, // ecall
    // create:
    0x00000593, // addi x11, x0, 0
    0x00000613, // addi x12, x0, 0
    0x00000693, // addi x13, x0, 0
    0x00a00893, // addi x17, x0, 10
    0x00000073, // ecall
    0x00028067, // jalr x0, 0(x5)
    // say:
    0x00050313, // addi x6, x10, 0
    0x00048513, // addi x10, x9, 0
    0x00200893, // addi x17, x0, 2
    0x00000073, // ecall
    0x00030513, // addi x10, x6, 0
    0x00200893, // addi x17, x0, 2
    0x00000073, // ecall
    0x00028067, // jalr x0, 0(x5)
    // take_first:
    0x00005537, // lui x10, 5
    0x00450513, // addi x10, x10, 4
    0x01600893, // addi x17, x0, 22
    0x00000073, // ecall
    0x00028067, // jalr x0, 0(x5)
    // release_first:
    0x00005537, // lui x10, 5
    0x00450513, // addi x10, x10, 4
    0x01900893, // addi x17, x0, 25
    0x00000073, // ecall
    0x00028067, // jalr x0, 0(x5)
    // release_second:
    0x00005537, // lui x10, 5
    0x00850513, // addi x10, x10, 8
    0x01900893, // addi x17, x0, 25
    0x00000073, // ecall
    0x00028067, // jalr x0, 0(x5)
    // join_case:
    0x00300513, // addi x10, x0, 3
    0x00b00893, // addi x17, x0, 11
    0x00000073, // ecall
    0x04a00493, // addi x9, x0, 74
    0xf95ff2ef, // jal x5, say
    0x00008067, // jalr x0, 0(x1)
    // getc_case:
    0x00300893, // addi x17, x0, 3
    0x00000073, // ecall
    0x04700493, // addi x9, x0, 71
    0xf81ff2ef, // jal x5, say
    0x00008067, // jalr x0, 0(x1)
    // lock_case:
    0x00005537, // lui x10, 5
    0x01600893, // addi x17, x0, 22
    0x00000073, // ecall
    0x04c00493, // addi x9, x0, 76
    0xf69ff2ef, // jal x5, say
    0x00005537, // lui x10, 5
    0x01900893, // addi x17, x0, 25
    0x00000073, // ecall
    0x00008067, // jalr x0, 0(x1)
    // timed_lock_case:
    0x00005537, // lui x10, 5
    0x03c00593, // addi x11, x0, 60
    0x00000613, // addi x12, x0, 0
    0x01800893, // addi x17, x0, 24
    0x00000073, // ecall
    0x05400493, // addi x9, x0, 84
    0xf3dff2ef, // jal x5, say
    0x00008067, // jalr x0, 0(x1)
    // wait_case:
    0xf55ff2ef, // jal x5, take_first
    0x00006537, // lui x10, 6
    0x000055b7, // lui x11, 5
    0x00458593, // addi x11, x11, 4
    0x02000893, // addi x17, x0, 32
    0x00000073, // ecall
    0x04300493, // addi x9, x0, 67
    0xf19ff2ef, // jal x5, say
    0xf49ff2ef, // jal x5, release_first
    0x00008067, // jalr x0, 0(x1)
    // timed_wait_case:
    0x00005537, // lui x10, 5
    0x00850513, // addi x10, x10, 8
    0x01600893, // addi x17, x0, 22
    0x00000073, // ecall
    0x00006537, // lui x10, 6
    0x00450513, // addi x10, x10, 4
    0x000055b7, // lui x11, 5
    0x00858593, // addi x11, x11, 8
    0x03c00613, // addi x12, x0, 60
    0x00000693, // addi x13, x0, 0
    0x02100893, // addi x17, x0, 33
    0x00000073, // ecall
    0x04400493, // addi x9, x0, 68
    0xed9ff2ef, // jal x5, say
    0xf1dff2ef, // jal x5, release_second
    0x00008067, // jalr x0, 0(x1)
    // barrier_case:
    0x00007537, // lui x10, 7
    0x02a00893, // addi x17, x0, 42
    0x00000073, // ecall
    0x04200493, // addi x9, x0, 66
    0xebdff2ef, // jal x5, say
    0x00008067, // jalr x0, 0(x1)
    // read_case:
    0x00008537, // lui x10, 8
    0x03400893, // addi x17, x0, 52
    0x00000073, // ecall
    0x05200493, // addi x9, x0, 82
    0xea5ff2ef, // jal x5, say
    0x00008537, // lui x10, 8
    0x03800893, // addi x17, x0, 56
    0x00000073, // ecall
    0x00008067, // jalr x0, 0(x1)
    // write_case:
    0x00008537, // lui x10, 8
    0x03600893, // addi x17, x0, 54
    0x00000073, // ecall
    0x05700493, // addi x9, x0, 87
    0xe81ff2ef, // jal x5, say
    0x00008537, // lui x10, 8
    0x03800893, // addi x17, x0, 56
    0x00000073, // ecall
    0x00008067, // jalr x0, 0(x1)
    // sleep_case:
    0x04600513, // addi x10, x0, 70
    0x00000593, // addi x11, x0, 0
    0x00500893, // addi x17, x0, 5
    0x00000073, // ecall
    0x05300493, // addi x9, x0, 83
    0xe59ff2ef, // jal x5, say
    0x00008067, // jalr x0, 0(x1)
    // cancelled_case:
    0xe71ff2ef, // jal x5, take_first
    0x00001537, // lui x10, 1
    0x36850513, // addi x10, x10, handler
    0x07800593, // addi x11, x0, 120
    0x04000893, // addi x17, x0, 64
    0x00000073, // ecall
    0x00006537, // lui x10, 6
    0x000055b7, // lui x11, 5
    0x00458593, // addi x11, x11, 4
    0x02000893, // addi x17, x0, 32
    0x00000073, // ecall
    // handler:
    0x05800493, // addi x9, x0, 88
    0xe21ff2ef, // jal x5, say
    0xe51ff2ef, // jal x5, release_first
    0x00008067, // jalr x0, 0(x1)
    // signalled_case:
    0xe35ff2ef, // jal x5, take_first
    0x00006537, // lui x10, 6
    0x00850513, // addi x10, x10, 8
    0x000055b7, // lui x11, 5
    0x00458593, // addi x11, x11, 4
    0x02000893, // addi x17, x0, 32
    0x00000073, // ecall
    0x05900493, // addi x9, x0, 89
    0xdf5ff2ef, // jal x5, say
    0xe25ff2ef, // jal x5, release_first
    0x00008067, // jalr x0, 0(x1)
];

/// A run of the next thread, as long as it doesn't wait.
const RUN: &[u8] = b"auto 0 300\ncommit\n";

/// Lines, and how often they come.
type Round = (usize, &'static [u8]);

/// Each thread runs to its wait; a run more finds none.
const TO_THEIR_WAITS: &[Round] = &[(14, RUN)];

/// The first thread wakes, and what comes of it is still to wait for.
const TO_RETAKES: &[Round] = &[(1, b"tick 10\ncommit\n"), (1, RUN)];

/// Two deadlines come.
const TO_DEADLINES: &[Round] = &[(1, b"tick 50\ncommit\n")];

/// The rest, to the end and a run after it.
const TO_THE_END: &[Round] = &[
    (1, RUN),
    (1, b"tick 10\ncommit\n"),
    (1, RUN),
    (1, b"in 5a\ncommit\n"),
    (2, RUN),
    (1, b"tick 30\ncommit\n"),
    (12, RUN),
];

/// The bytes that it puts, in hexadecimal digits: T and 110, S and 0, G and Z, J, L, D and 110, B, R, W, X and its handler's
/// argument, Y, C.
const PUT: &[u8] = b"546e5300475a4a004c00446e420052005700587859004300";

/// A thread, the number of its kind of wait in saved tables, and its deadline.
type Waiting = (ThreadId, u8, Option<u64>);

/// All kinds but the wait for the mutex of a condition, which has number 3.
const FIRST_WAITS: &[Waiting] = &[
    (1, 9, Some(10)),
    (2, 1, None),
    (3, 8, None),
    (4, 2, None),
    (5, 2, Some(60)),
    (6, 4, None),
    (7, 4, Some(60)),
    (8, 5, None),
    (9, 6, None),
    (10, 7, None),
    (11, 9, Some(70)),
    (12, 4, None),
    (13, 4, None),
];

/// A cancelled thread and a signalled one wait for their mutex, and the first thread sleeps again.
const SECOND_WAITS: &[Waiting] = &[
    (2, 1, None),
    (3, 8, None),
    (4, 2, None),
    (5, 2, Some(60)),
    (6, 4, None),
    (7, 4, Some(60)),
    (8, 5, None),
    (9, 6, None),
    (10, 7, None),
    (11, 9, Some(70)),
    (12, 3, None),
    (13, 3, None),
    (1, 9, Some(100)),
];

/// One wait for a mutex is over, and that at a condition goes on as one for its mutex.
const THIRD_WAITS: &[Waiting] = &[
    (2, 1, None),
    (3, 8, None),
    (4, 2, None),
    (6, 4, None),
    (8, 5, None),
    (9, 6, None),
    (10, 7, None),
    (11, 9, Some(70)),
    (12, 3, None),
    (13, 3, None),
    (1, 9, Some(100)),
    (7, 3, None),
];

/// The number of a kind of wait in saved tables.
fn kind_of(reason: Reason) -> u8 {
    match reason {
        Reason::Join(_) => 1,
        Reason::Lock(_) => 2,
        Reason::Retake(_, _) => 3,
        Reason::Condition(_, _) => 4,
        Reason::Barrier(_) => 5,
        Reason::Read(_) => 6,
        Reason::Write(_) => 7,
        Reason::Input => 8,
        Reason::Sleep => 9,
    }
}

/// A wait is this one.
fn expect_wait<R: Abort>(rt: &R, wait: &Wait, want: Waiting) {
    let got = (wait.thread, kind_of(wait.reason), wait.deadline);
    expect_eq(rt, got, want);
}

/// The waits of the program, in their order.
fn expect_waits<R: Abort>(rt: &R, session: &Session<MemoryDisk>, want: &[Waiting]) {
    let waits = session.machine().tables().threads.waits();
    expect_eq(rt, waits.len(), want.len());
    for (wait, want) in waits.iter().zip(want) {
        expect_wait(rt, wait, *want);
    }
}

/// What a service of the session writes for these lines, after other replies.
fn push_replies<R: Abort>(
    rt: &R,
    session: &mut Session<MemoryDisk>,
    mut lines: &[u8],
    replies: &mut Vec<u8>,
) {
    expect_eq(rt, serve(&mut lines, replies, session), Ok(()));
}

/// The session of the next life, after a checkpoint.
fn saved<R: Abort + AllocGlobal>(rt: &R, mut session: Session<MemoryDisk>) -> Session<MemoryDisk> {
    assert!(rt; session.checkpoint().is_ok());
    recovered(rt, session.into_disk())
}

/// The same lines so often, each time in the next life where the program is saved.
fn repeat<R: Abort + AllocGlobal>(
    rt: &R,
    mut session: Session<MemoryDisk>,
    count: usize,
    lines: &[u8],
    is_saved: bool,
    replies: &mut Vec<u8>,
) -> Session<MemoryDisk> {
    for _ in 0..count {
        push_replies(rt, &mut session, lines, replies);
        if is_saved {
            session = saved(rt, session);
        }
    }
    session
}

/// Rounds of lines.
fn play<R: Abort + AllocGlobal>(
    rt: &R,
    mut session: Session<MemoryDisk>,
    rounds: &[Round],
    is_saved: bool,
    replies: &mut Vec<u8>,
) -> Session<MemoryDisk> {
    for (count, lines) in rounds {
        session = repeat(rt, session, *count, lines, is_saved, replies);
    }
    session
}

/// The replies to all rounds, of a program that is saved after each round or never.
fn all_replies<R: Abort + AllocGlobal>(rt: &R, is_saved: bool) -> Vec<u8> {
    let image = image_of(rt, &WAITS);
    let mut replies = Vec::new(rt.alloc());
    let session = recovered_in_memory(rt, formatted(rt, image.as_slice()));
    let session = play(rt, session, TO_THEIR_WAITS, is_saved, &mut replies);
    expect_waits(rt, &session, FIRST_WAITS);
    let session = play(rt, session, TO_RETAKES, is_saved, &mut replies);
    expect_waits(rt, &session, SECOND_WAITS);
    let session = play(rt, session, TO_DEADLINES, is_saved, &mut replies);
    expect_waits(rt, &session, THIRD_WAITS);
    let session = play(rt, session, TO_THE_END, is_saved, &mut replies);
    expect_waits(rt, &session, &[]);
    replies
}

#[test]
fn a_saved_guest_goes_on_as_one_that_is_never_saved(rt: HostRuntime) {
    let unsaved = all_replies(&rt, false);
    expect_bytes(&rt, put_by(&rt, unsaved.as_slice()).as_slice(), PUT);
    assert!(&rt;
        unsaved
            .as_slice()
            .ends_with(b"ok 63 ran 40 end\nack 63\nno 1 Ended\nack 63\n")
    );
    expect_bytes(&rt, all_replies(&rt, true).as_slice(), unsaved.as_slice());
}
