//! Worked examples: what programs come to that are run by lines, as it was written down before there was code.

use crate::expect::{expect_bytes, expect_eq, expect_part, image_of, memory_disk, stopping_disk};
use crate::service::{expect_replies, lived};
use crate::sessions::{expect_answer, expect_commit};
use crate::small_disk::{formatted, recovered, recovered_in_memory};
use ckrt_calls::Status;
use ckrt_disk::Disk;
use ckrt_events::Event;
use ckrt_inspect::inspect;
use ckrt_machine::{Answer, RunEnd};
use ckrt_recovery::{CommitFault, Session};
use ckrt_rv32i::Cause;
use ckrt_test_storage::IMAGE;
use std::process::Abort;

/// How a session's program stands.
fn expect_status<R: Abort, D: Disk>(rt: &R, session: &Session<D>, want: Status) {
    expect_eq(rt, session.machine().status(), want);
}

#[test]
fn a_program_puts_a_byte_and_exits(rt: HostRuntime) {
    let mut session = recovered_in_memory(&rt, formatted(&rt, &IMAGE));
    expect_status(&rt, &session, Status::Running);
    let replies = b"ok 1 placed\nok 2 ran 6 end\nack 2\nout 0 41\n";
    let lines = b"place 0 1\nrun 0 6\ncommit\nquit\n";
    expect_replies(&rt, &mut session, lines, replies);
    expect_status(&rt, &session, Status::Exited(0));
}

#[test]
fn the_empty_image_faults(rt: HostRuntime) {
    let mut session = recovered_in_memory(&rt, formatted(&rt, &[]));
    let replies = b"ok 1 placed\nok 2 ran 1 end\nno 1 Ended\n";
    expect_replies(&rt, &mut session, b"place 0 1\nrun 0 1\nrun 0 1\n", replies);
    let status = Status::Faulted(1, 0x1000, Cause::Illegal);
    expect_status(&rt, &session, status);
}

/// Where journal 0 begins.
const JOURNAL: usize = 339_968;

/// Ten bytes after the gate of the first batch: its length, its two events, and the gate after it.
const BATCH: [u8; 10] = [7, 0, 1, 0, 1, 2, 0, 2, 0, 0];

/// A session's commit of two events, stopped at its gate, and what the stop leaves of the disk.
fn stopped_at_the_gate<R: Abort + AllocGlobal>(rt: &R, fill: &[u8]) -> Vec<u8> {
    let disk = stopping_disk(rt, formatted(rt, &IMAGE), 4, fill);
    let mut session = recovered(rt, disk);
    expect_answer(rt, &mut session, &Event::Place(0, 1), 1, Answer::Placed);
    let ran = Answer::Ran(2, RunEnd::On);
    expect_answer(rt, &mut session, &Event::Run(0, 2), 2, ran);
    expect_commit(rt, &mut session, Err(CommitFault::Device));
    session.into_disk().into_image()
}

/// What was synced before the gate is there, the gate is this byte, and that many events are recovered.
fn expect_stop_at_the_gate<R: Abort + AllocGlobal>(rt: &R, fill: &[u8], gate: u8, count: u64) {
    let left = stopped_at_the_gate(rt, fill);
    expect_part(rt, left.as_slice(), JOURNAL, &[gate]);
    expect_part(rt, left.as_slice(), JOURNAL + 1, &BATCH);
    expect_eq(rt, recovered_in_memory(rt, left).acknowledged(), count);
}

#[test]
fn a_commit_stops_at_its_gate(rt: HostRuntime) {
    expect_stop_at_the_gate(&rt, &[0xa5], 0xa5, 2);
    expect_stop_at_the_gate(&rt, &[0], 0, 0);
}

/// The listing of what lines have made of a guest.
fn expect_listing<R: Abort + AllocGlobal>(
    rt: &R,
    words: &[u32],
    lines: &[u8],
    replies: &[u8],
    want: &[u8],
) {
    let image = image_of(rt, words);
    let left = lived(rt, formatted(rt, image.as_slice()), lines, replies);
    let mut listing = Vec::new(rt.alloc());
    let answer = inspect(rt.alloc(), memory_disk(rt, left), &mut listing);
    expect_eq(rt, answer, Ok(()));
    expect_bytes(rt, listing.as_slice(), want);
}

/// Reads a byte and puts it.
const READER: [u32; 4] = [
    0x00300893, // addi x17, x0, 3
    0x00000073, // ecall
    0x00200893, // addi x17, x0, 2
    0x00000073, // ecall
];

#[test]
fn a_guest_that_waits_for_input_is_served_and_listed(rt: HostRuntime) {
    expect_listing(
        &rt,
        &READER,
        b"place 0 1\nrun 0 9\ncommit\nquit\n",
        b"ok 1 placed\nok 2 ran 2 off\nack 2\n",
        b"events 2\nclock 0\nstatus running\nhart 0 idle\n\
thread 1 joinable blocked pc 00001008 enabled deferred none handlers 0\nwait 1 input\n\
program 3753ecff6994dd6becfc7c7ffbb5951f88d3166aca2625ee5d18d9d9aedac204 16\n",
    );
}

/// Joins a thread that puts a byte.
const JOINER: [u32; 13] = [
    0x00001537, // lui x10, 1
    0x02850513, // addi x10, x10, 40
    0x04200593, // addi x11, x0, 66
    0x00a00893, // addi x17, x0, 10
    0x00000073, // ecall
    0x00058513, // addi x10, x11, 0
    0x00b00893, // addi x17, x0, 11
    0x00000073, // ecall
    0x00100893, // addi x17, x0, 1
    0x00000073, // ecall
    0x00200893, // addi x17, x0, 2
    0x00000073, // ecall
    0x00008067, // jalr x0, 0(x1)
];

#[test]
fn a_guest_that_joins_is_served_and_listed(rt: HostRuntime) {
    expect_listing(
        &rt,
        &JOINER,
        b"place 0 1\nrun 0 99\ncommit\nquit\n",
        b"ok 1 placed\nok 2 ran 8 off\nack 2\n",
        b"events 2\nclock 0\nstatus running\nhart 0 idle\n\
thread 1 joinable blocked pc 00001020 enabled deferred none handlers 0\n\
thread 2 joinable ready pc 00001028 enabled deferred none handlers 0\nwait 1 join 2\n\
program ec0875cb8d67df690fb828e738d951cb8e4a3af88aa0e36633997be5311dc530 52\n",
    );
}
