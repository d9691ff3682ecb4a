//! Services over readers, writers and disks that fail, and over the next life.

use crate::expect::{copied, expect_bytes, expect_eq, memory_disk, stopping_disk};
use crate::service::{expect_replies, replies};
use crate::small_disk::{SMALL, formatted, recovered, recovered_in_memory, recovery_outcome};
use ckrt_disk::{Disk, FailingDisk, MemoryDisk};
use ckrt_main::{ServeFault, serve, serve_image};
use ckrt_recovery::Session;
use ckrt_test_storage::{FILLS, IMAGE};
use std::io::{self, ErrorKind, Read, Write};
use std::ops::RangeInclusive;
use std::process::Abort;

/// Gives its bytes one at a time, with an interruption before each, and fails where that many are left.
#[derive(Drop)]
struct Trickle<'a> {
    bytes: &'a [u8],
    interrupts: bool,
    fails_at: Option<usize>,
}

impl Read for Trickle<'_> {
    fn read(&mut self, buf: &mut [u8]) -> io::Result<usize> {
        self.interrupts = !self.interrupts;
        if self.interrupts {
            return Err(io::Error::from(ErrorKind::Interrupted));
        }
        if self.fails_at == Some(self.bytes.len()) {
            return Err(io::Error::from(ErrorKind::BrokenPipe));
        }
        match self.bytes {
            [first, rest @ ..] if !buf.is_empty() => {
                buf[0] = *first;
                self.bytes = rest;
                Ok(1)
            }
            _ => Ok(0),
        }
    }
}

/// Takes one byte a write, and fails where it has that many.
#[derive(Drop)]
struct Narrow {
    bytes: Vec<u8>,
    fails_at: usize,
}

impl Write for Narrow {
    fn write(&mut self, buf: &[u8]) -> io::Result<usize> {
        if self.bytes.len() == self.fails_at {
            return Err(io::Error::from(ErrorKind::BrokenPipe));
        }
        match buf {
            [first, ..] => {
                self.bytes.write_all(&[*first])?;
                Ok(1)
            }
            [] => Ok(0),
        }
    }

    fn flush(&mut self) -> io::Result<()> {
        Ok(())
    }
}

const ROW: &[u8] = b"place 0 1\nrun 0 6\r\ncommit\nquit\nrun 0 1\n";

const REPLY: &[u8] = b"ok 1 placed\nok 2 ran 6 end\nack 2\nout 0 41\n";

/// A service whose reader and writer fail there answers this, and has written this.
fn expect_served<R: Abort + AllocGlobal>(
    rt: &R,
    read_fails_at: Option<usize>,
    write_fails_at: usize,
    want: Result<(), ServeFault>,
    reply: &[u8],
) {
    let mut reader = Trickle {
        bytes: ROW,
        interrupts: false,
        fails_at: read_fails_at,
    };
    let mut writer = Narrow {
        bytes: Vec::new(rt.alloc()),
        fails_at: write_fails_at,
    };
    let done = serve_image(rt.alloc(), &IMAGE, SMALL, &mut reader, &mut writer);
    expect_eq(rt, done, want);
    expect_bytes(rt, writer.bytes.as_slice(), reply);
}

#[test]
fn answers_byte_by_byte(rt: HostRuntime) {
    expect_served(&rt, None, 1_000, Ok(()), REPLY);
}

#[test]
fn a_fault_of_the_reader_is_answered(rt: HostRuntime) {
    // in the middle of `commit`
    let reply = b"ok 1 placed\nok 2 ran 6 end\n";
    expect_served(&rt, Some(16), 1_000, Err(ServeFault::Read), reply);
}

#[test]
fn a_fault_of_the_writer_is_answered(rt: HostRuntime) {
    // in the middle of the line of output
    let reply = b"ok 1 placed\nok 2 ran 6 end\nack 2\nout";
    expect_served(&rt, None, 36, Err(ServeFault::Write), reply);
}

/// A session of a new disk.
fn first_session<R: Abort + AllocGlobal>(rt: &R) -> Session<MemoryDisk> {
    recovered_in_memory(rt, formatted(rt, &IMAGE))
}

/// The writer fails in the middle of the line of output.
fn expect_failed_write<R: Abort + AllocGlobal>(rt: &R, session: &mut Session<MemoryDisk>) {
    let mut reader = ROW;
    let mut writer = Narrow {
        bytes: Vec::new(rt.alloc()),
        fails_at: 36,
    };
    let done = serve(&mut reader, &mut writer, session);
    expect_eq(rt, done, Err(ServeFault::Write));
}

/// That many bytes of output are confirmed, and that many released.
fn expect_output<R: Abort>(rt: &R, session: &Session<MemoryDisk>, confirmed: u64, released: u64) {
    expect_eq(rt, session.confirmed(), confirmed);
    expect_eq(rt, session.released(), released);
}

#[test]
fn a_failed_write_confirms_nothing(rt: HostRuntime) {
    let mut session = first_session(&rt);
    expect_failed_write(&rt, &mut session);
    expect_output(&rt, &session, 0, 1);
    expect_replies(&rt, &mut session, b"", b"out 0 41\n");
    expect_output(&rt, &session, 1, 1);
}

/// The reader fails in the middle of `commit`.
fn expect_failed_read<R: Abort + AllocGlobal>(
    rt: &R,
    session: &mut Session<MemoryDisk>,
    want: &[u8],
) {
    let mut reader = Trickle {
        bytes: ROW,
        interrupts: false,
        fails_at: Some(16),
    };
    let mut writer = Vec::new(rt.alloc());
    let done = serve(&mut reader, &mut writer, session);
    expect_eq(rt, done, Err(ServeFault::Read));
    expect_bytes(rt, writer.as_slice(), want);
}

#[test]
fn a_failed_read_is_answered(rt: HostRuntime) {
    let mut session = first_session(&rt);
    expect_failed_read(&rt, &mut session, b"ok 1 placed\nok 2 ran 6 end\n");
}

/// The session of the next life.
fn next_session<R: Abort + AllocGlobal>(
    rt: &R,
    session: Session<MemoryDisk>,
) -> Session<MemoryDisk> {
    recovered(rt, session.into_disk())
}

#[test]
fn output_of_an_earlier_life_comes_first(rt: HostRuntime) {
    let mut session = first_session(&rt);
    expect_replies(&rt, &mut session, ROW, REPLY);
    let mut session = next_session(&rt, session);
    expect_replies(&rt, &mut session, b"run 0 1\n", b"out 0 41\nno 1 Ended\n");
}

/// That many events are acknowledged.
fn expect_acknowledged<R: Abort>(rt: &R, session: &Session<MemoryDisk>, count: u64) {
    expect_eq(rt, session.acknowledged(), count);
}

#[test]
fn nothing_is_committed_but_by_commit(rt: HostRuntime) {
    let mut session = first_session(&rt);
    expect_replies(
        &rt,
        &mut session,
        b"place 0 1\ncommit\nrun 0 2\nquit\n",
        b"ok 1 placed\nack 1\nok 2 ran 2 on\n",
    );
    expect_acknowledged(&rt, &session, 1);
}

/// Two commits and a line after them.
const LINES: &[u8] = b"place 0 1\ncommit\nrun 0 6\ncommit\njump\n";

const NONE_FAILED: &[u8] = b"ok 1 placed\nack 1\nok 2 ran 6 end\nack 2\nout 0 41\nno 31 Unknown\n";

const FIRST_FAILED: &[u8] =
    b"ok 1 placed\nno 25 Device\nno 21 Failed\nno 21 Failed\nno 31 Unknown\n";

const SECOND_FAILED: &[u8] = b"ok 1 placed\nack 1\nok 2 ran 6 end\nno 25 Device\nno 31 Unknown\n";

/// Whether the two are equal.
fn is_same(replies: &[u8], text: &[u8]) -> bool {
    replies == text
}

/// How often the first commit failed by these replies, and how often the second.
fn failures_in<R: Abort>(rt: &R, replies: &[u8]) -> (u8, u8) {
    if is_same(replies, FIRST_FAILED) {
        return (1, 0);
    }
    if is_same(replies, SECOND_FAILED) {
        return (0, 1);
    }
    expect_bytes(rt, replies, NONE_FAILED);
    (0, 0)
}

/// The same on a disk that may fail; none where there is no session.
fn failures_on<R: Abort + AllocGlobal, D: Disk + Drop>(rt: &R, disk: D) -> (u8, u8) {
    match recovery_outcome(rt, disk) {
        Ok(mut session) => failures_in(rt, replies(rt, &mut session, LINES).as_slice()),
        Err(_) => (0, 0),
    }
}

/// The same on a disk that fails at this call.
fn failures_at<R: Abort + AllocGlobal>(rt: &R, image: &[u8], at_call: u64) -> (u8, u8) {
    let disk = memory_disk(rt, copied(rt, image));
    failures_on(rt, FailingDisk::new(disk, at_call))
}

#[test]
fn the_lines_go_on_after_a_failed_commit(rt: HostRuntime) {
    let image = formatted(&rt, &IMAGE);
    let mut failed = (0u8, 0u8);
    for at_call in 1..60 {
        let (first, second) = failures_at(&rt, image.as_slice(), at_call);
        failed = (
            failed.0.saturating_add(first),
            failed.1.saturating_add(second),
        );
    }
    // a commit makes two writes and two syncs
    expect_eq(&rt, failed, (4, 4));
}

/// Two commits; the byte is put by the second run.
const TWO_COMMITS: &[u8] = b"place 0 1\nrun 0 2\ncommit\nrun 0 4\ncommit\n";

const BOTH_COMMITTED: &[u8] =
    b"ok 1 placed\nok 2 ran 2 on\nack 2\nok 3 ran 4 end\nack 3\nout 0 41\n";

/// The second of them.
const SECOND_COMMIT: &[u8] = b"run 0 4\ncommit\n";

const SECOND_COMMITTED: &[u8] = b"ok 3 ran 4 end\nack 3\nout 0 41\n";

const NO_LINES: &[u8] = b"";

const OUTPUT: &[u8] = b"out 0 41\n";

const STOPPED_IN_FIRST: &[u8] =
    b"ok 1 placed\nok 2 ran 2 on\nno 25 Device\nno 21 Failed\nno 21 Failed\n";

const STOPPED_IN_SECOND: &[u8] =
    b"ok 1 placed\nok 2 ran 2 on\nack 2\nok 3 ran 4 end\nno 25 Device\n";

/// The rest of these lines after that many events, and what they get.
fn rest_of_two_commits(events: u64) -> (&'static [u8], &'static [u8]) {
    match events {
        0 => (TWO_COMMITS, BOTH_COMMITTED),
        2 => (SECOND_COMMIT, SECOND_COMMITTED),
        _ => (NO_LINES, OUTPUT),
    }
}

/// What a service that is stopped at a call leaves of the image.
fn stopped<R: Abort + AllocGlobal>(
    rt: &R,
    image: &[u8],
    at_call: u64,
    fill: &[u8],
    reply: &[u8],
) -> Vec<u8> {
    let mut session = recovered(rt, stopping_disk(rt, copied(rt, image), at_call, fill));
    expect_replies(rt, &mut session, TWO_COMMITS, reply);
    session.into_disk().into_image()
}

/// The service is stopped at a call, and goes on in the next life from at least the last `ack` that was written.
fn expect_goes_on<R: Abort + AllocGlobal>(
    rt: &R,
    image: &[u8],
    at_call: u64,
    fill: &[u8],
    reply: &[u8],
    recovers_to: &[u64],
) {
    let mut next = recovered_in_memory(rt, stopped(rt, image, at_call, fill, reply));
    let events = next.acknowledged();
    assert!(rt; recovers_to.contains(&events));
    let (lines, want) = rest_of_two_commits(events);
    expect_replies(rt, &mut next, lines, want);
}

/// The same at each of these calls.
fn expect_goes_on_at_each<R: Abort + AllocGlobal>(
    rt: &R,
    image: &[u8],
    calls: RangeInclusive<u64>,
    fill: &[u8],
    reply: &[u8],
    recovers_to: &[u64],
) {
    for at_call in calls {
        expect_goes_on(rt, image, at_call, fill, reply, recovers_to);
    }
}

/// The same at each call of a service; call 1 is the recovery's sync, and a commit makes four.
fn expect_goes_on_with<R: Abort + AllocGlobal>(rt: &R, image: &[u8], fill: &[u8]) {
    expect_goes_on_at_each(rt, image, 2..=5, fill, STOPPED_IN_FIRST, &[0, 2]);
    expect_goes_on_at_each(rt, image, 6..=9, fill, STOPPED_IN_SECOND, &[2, 3]);
    expect_goes_on(rt, image, 10, fill, BOTH_COMMITTED, &[3]);
}

#[test]
fn the_next_life_goes_on_after_a_stop(rt: HostRuntime) {
    let image = formatted(&rt, &IMAGE);
    for fill in FILLS {
        expect_goes_on_with(&rt, image.as_slice(), fill);
    }
}
