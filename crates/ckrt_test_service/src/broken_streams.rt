//! Streams that break: each read, write and flush of a service failing in turn, and replies that have to be flushed before
//! the next line is read.

use crate::expect::{expect_bytes, expect_eq, expect_eq_at, push};
use crate::service::expect_replies;
use crate::small_disk::{formatted, recovered, recovered_in_memory};
use ckrt_disk::MemoryDisk;
use ckrt_main::{ServeFault, serve};
use ckrt_recovery::Session;
use ckrt_test_storage::IMAGE;
use std::cell::Cell;
use std::io::{self, ErrorKind, Read, Write};
use std::process::Abort;

/// Lines, and the replies to each. The program puts an `A` by its first three steps.
const LINES: [(&[u8], &[u8]); 6] = [
    (b"place 0 1\n", b"ok 1 placed\n"),
    (b"run 0 3\n", b"ok 2 ran 3 on\n"),
    (b"commit\n", b"ack 2\nout 0 41\n"),
    (b"jump\n", b"no 31 Unknown\n"),
    (b"run 0 9\n", b"ok 3 ran 3 end\n"),
    (b"checkpoint\n", b"ack 3\n"),
];

/// How many bytes of replies stand up to and with the line of output.
const OUTPUT_END: usize = 12 + 14 + 6 + 9;

/// What a reader and a writer of one service have given and taken.
#[derive(Drop)]
struct Counts {
    /// How many bytes were written.
    written: Cell<usize>,
    /// How many of them were flushed.
    flushed: Cell<usize>,
    /// How often.
    flushes: Cell<usize>,
}

impl Counts {
    fn new() -> Counts {
        Counts {
            written: Cell::new(0),
            flushed: Cell::new(0),
            flushes: Cell::new(0),
        }
    }
}

/// Gives one line a read. It fails at the read of a number, from 0, and where not all replies to the lines before are
/// flushed.
#[derive(Drop)]
struct Patient<'a> {
    counts: &'a Counts,
    lines: &'a [(&'static [u8], &'static [u8])],
    /// How many bytes of replies the lines so far have.
    replies: usize,
    reads: usize,
    fails_at: usize,
}

impl Patient<'_> {
    /// Whether the replies so far, and no more, are written and flushed.
    fn is_answered(&self) -> bool {
        self.counts.written.get() == self.replies && self.counts.flushed.get() == self.replies
    }
}

impl Read for Patient<'_> {
    fn read(&mut self, buf: &mut [u8]) -> io::Result<usize> {
        let number = self.reads;
        self.reads = number.saturating_add(1);
        if number == self.fails_at || !self.is_answered() {
            return Err(io::Error::from(ErrorKind::BrokenPipe));
        }
        match self.lines {
            [(line, reply), rest @ ..] => {
                self.lines = rest;
                self.replies = self.replies.saturating_add(reply.len());
                let size = buf.len().min(line.len());
                buf[..size].copy_from_slice(&line[..size]);
                Ok(size)
            }
            [] => Ok(0),
        }
    }
}

/// Takes all bytes, up to a limit, and fails at the flush of a number, from 0.
#[derive(Drop)]
struct Counting<'a> {
    counts: &'a Counts,
    bytes: Vec<u8>,
    takes: usize,
    fails_at: usize,
}

impl Write for Counting<'_> {
    fn write(&mut self, buf: &[u8]) -> io::Result<usize> {
        let left = self.takes.saturating_sub(self.bytes.len());
        let size = buf.len().min(left);
        if size == 0 && !buf.is_empty() {
            return Err(io::Error::from(ErrorKind::BrokenPipe));
        }
        self.bytes.write_all(&buf[..size])?;
        self.counts.written.set(self.bytes.len());
        Ok(size)
    }

    fn flush(&mut self) -> io::Result<()> {
        let number = self.counts.flushes.get();
        self.counts.flushes.set(number.saturating_add(1));
        if number == self.fails_at {
            return Err(io::Error::from(ErrorKind::BrokenPipe));
        }
        self.counts.flushed.set(self.bytes.len());
        Ok(())
    }
}

/// Which read and which flush fails, and after how many bytes a write does.
#[derive(Clone, Copy)]
struct Breaks {
    read: usize,
    bytes: usize,
    flush: usize,
}

/// None of them.
const NEVER: Breaks = Breaks {
    read: usize::MAX,
    bytes: usize::MAX,
    flush: usize::MAX,
};

/// What a service of the lines answers over streams that break, and what it has written.
fn served<R: Abort + AllocGlobal>(
    rt: &R,
    session: &mut Session<MemoryDisk>,
    breaks: Breaks,
) -> (Result<(), ServeFault>, Vec<u8>) {
    let counts = Counts::new();
    let mut reader = Patient {
        counts: &counts,
        lines: &LINES,
        replies: 0,
        reads: 0,
        fails_at: breaks.read,
    };
    let mut writer = Counting {
        counts: &counts,
        bytes: Vec::new(rt.alloc()),
        takes: breaks.bytes,
        fails_at: breaks.flush,
    };
    let done = serve(&mut reader, &mut writer, session);
    (done, writer.bytes)
}

/// The first bytes of all replies.
fn front_of_replies<R: Abort + AllocGlobal>(rt: &R, size: usize) -> Vec<u8> {
    let mut replies = Vec::new(rt.alloc());
    for (_, reply) in LINES {
        push(rt, &mut replies, reply);
    }
    replies.truncate(size);
    replies
}

/// The replies to the first lines.
fn replies_to<R: Abort + AllocGlobal>(rt: &R, lines: usize) -> Vec<u8> {
    let mut replies = Vec::new(rt.alloc());
    for (_, reply) in LINES.iter().take(lines) {
        push(rt, &mut replies, reply);
    }
    replies
}

/// A service over these streams answers this and has written these replies. The output is confirmed where its line was
/// written and flushed, and not else.
fn expect_served<R: Abort + AllocGlobal>(
    rt: &R,
    breaks: Breaks,
    want: Result<(), ServeFault>,
    replies: &[u8],
    confirmed: u64,
) {
    let mut session = recovered_in_memory(rt, formatted(rt, &IMAGE));
    let (done, written) = served(rt, &mut session, breaks);
    expect_eq_at(rt, (breaks.read, breaks.bytes, breaks.flush), done, want);
    expect_bytes(rt, written.as_slice(), replies);
    expect_eq_at(rt, replies.len(), session.confirmed(), confirmed);
}

#[test]
fn each_reply_is_flushed_before_the_next_line_is_read(rt: HostRuntime) {
    expect_served(&rt, NEVER, Ok(()), replies_to(&rt, 6).as_slice(), 1);
}

/// The read after that many lines fails.
fn expect_failed_read<R: Abort + AllocGlobal>(rt: &R, lines: usize) {
    let breaks = Breaks {
        read: lines,
        ..NEVER
    };
    let confirmed = if lines < 3 { 0 } else { 1 };
    let replies = replies_to(rt, lines);
    expect_served(
        rt,
        breaks,
        Err(ServeFault::Read),
        replies.as_slice(),
        confirmed,
    );
}

/// The seventh is that of the end.
#[test]
fn each_read_fails_in_turn(rt: HostRuntime) {
    for lines in 0..7usize {
        expect_failed_read(&rt, lines);
    }
}

/// The write after that many bytes fails.
fn expect_failed_write<R: Abort + AllocGlobal>(rt: &R, bytes: usize) {
    let breaks = Breaks { bytes, ..NEVER };
    let confirmed = if bytes < OUTPUT_END { 0 } else { 1 };
    let replies = front_of_replies(rt, bytes);
    expect_eq(rt, replies.len(), bytes);
    expect_served(
        rt,
        breaks,
        Err(ServeFault::Write),
        replies.as_slice(),
        confirmed,
    );
}

#[test]
fn each_write_fails_in_turn(rt: HostRuntime) {
    let all = replies_to(&rt, 6).len();
    for bytes in 0..all {
        expect_failed_write(&rt, bytes);
    }
}

/// How many bytes of replies there are when they are flushed for the first time, for the second, and so on.
const FLUSHES: [usize; 7] = [12, 26, 32, OUTPUT_END, 55, 70, 76];

/// The flush after that many bytes fails.
fn expect_failed_flush<R: Abort + AllocGlobal>(rt: &R, number: usize, bytes: usize) {
    let breaks = Breaks {
        flush: number,
        ..NEVER
    };
    let confirmed = if bytes <= OUTPUT_END { 0 } else { 1 };
    let replies = front_of_replies(rt, bytes);
    expect_served(
        rt,
        breaks,
        Err(ServeFault::Write),
        replies.as_slice(),
        confirmed,
    );
}

#[test]
fn each_flush_fails_in_turn(rt: HostRuntime) {
    for (number, bytes) in FLUSHES.iter().enumerate() {
        expect_failed_flush(&rt, number, *bytes);
    }
}

/// After a service whose writer broke, the next one begins with the output that wasn't confirmed, and goes on.
fn expect_again<R: Abort + AllocGlobal>(rt: &R, bytes: usize, want: &[u8]) {
    let mut session = recovered_in_memory(rt, formatted(rt, &IMAGE));
    let (done, _) = served(rt, &mut session, Breaks { bytes, ..NEVER });
    expect_eq_at(rt, bytes, done, Err(ServeFault::Write));
    expect_replies(rt, &mut session, b"run 0 1\n", want);
}

#[test]
fn what_wasnt_confirmed_is_written_again(rt: HostRuntime) {
    // in the reply to the run, in the `ack`, in the line of output, and after it
    expect_again(&rt, 20, b"ok 3 ran 1 on\n");
    expect_again(&rt, 30, b"out 0 41\nok 3 ran 1 on\n");
    expect_again(&rt, 40, b"out 0 41\nok 3 ran 1 on\n");
    expect_again(&rt, 41, b"ok 3 ran 1 on\n");
}

/// The session of the next life, to which output of this one is left.
fn next_session<R: Abort + AllocGlobal>(rt: &R) -> Session<MemoryDisk> {
    let mut session = recovered_in_memory(rt, formatted(rt, &IMAGE));
    let (done, _) = served(rt, &mut session, Breaks { read: 3, ..NEVER });
    expect_eq(rt, done, Err(ServeFault::Read));
    recovered(rt, session.into_disk())
}

const LEFT_OUTPUT: &[u8] = b"out 0 41\n";

/// The write after that many bytes of the output of the life before fails.
fn expect_failed_start<R: Abort + AllocGlobal>(rt: &R, bytes: usize) {
    let mut session = next_session(rt);
    let (done, written) = served(rt, &mut session, Breaks { bytes, ..NEVER });
    expect_eq_at(rt, bytes, done, Err(ServeFault::Write));
    expect_eq(rt, written.len(), bytes);
    assert!(rt; LEFT_OUTPUT.starts_with(written.as_slice()));
    expect_eq_at(rt, bytes, session.confirmed(), 0);
}

#[test]
fn each_write_of_earlier_output_fails_in_turn(rt: HostRuntime) {
    for bytes in 0..LEFT_OUTPUT.len() {
        expect_failed_start(&rt, bytes);
    }
}
