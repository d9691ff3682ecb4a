//! A writer with names: what comes of what it takes, over a writer that takes little at once and fails.

use crate::expect::{expect_bytes, expect_eq};
use ckrt_cli_names::{NamedWriter, Names};
use std::io::{self, ErrorKind, Write};
use std::process::Abort;

/// Takes three bytes at most, is interrupted now and then, and fails once, at the call of this number.
#[derive(Drop)]
struct Rough {
    taken: Vec<u8>,
    calls: u32,
    fails_at: u32,
}

impl Rough {
    fn new<R: AllocGlobal>(rt: &R, fails_at: u32) -> Rough {
        Rough {
            taken: Vec::new(rt.alloc()),
            calls: 0,
            fails_at,
        }
    }
}

impl Write for Rough {
    fn write(&mut self, buf: &[u8]) -> io::Result<usize> {
        self.calls = self.calls.saturating_add(1);
        if self.calls == self.fails_at {
            return Err(io::Error::from(ErrorKind::BrokenPipe));
        }
        if self.calls % 4 == 1 {
            return Err(io::Error::from(ErrorKind::Interrupted));
        }
        let count = buf.len().min(3);
        self.taken.write(&buf[..count])
    }

    fn flush(&mut self) -> io::Result<()> {
        Ok(())
    }
}

/// A file of names, of an image of seven bytes.
const FILE: &[u8] =
    b"ckrt-names 1 000102030405060708090a0b0c0d0e0f101112131415161718191a1b1c1d1e1f 00000007
at 00001000 00000008 main at a.c:3
in 00001008 00000008 pair.lock
";

/// What is given, and what comes of it.
const LINES: [(&[u8], &[u8]); 13] = [
    (
        b"pc 00001004, mutex 0000100c\n",
        b"pc 00001004, mutex 0000100c    # main at a.c:3; pair.lock + 4\n",
    ),
    (b"mutex 00001008\n", b"mutex 00001008    # pair.lock\n"),
    (b"pc 00000ffc 00001010\n", b"pc 00000ffc 00001010\n"),
    (
        b"wait 00001000 00001000\n",
        b"wait 00001000 00001000    # main at a.c:3\n",
    ),
    (
        b"blocked pc 00001008\n",
        b"blocked pc 00001008    # main at a.c:3\n",
    ),
    (b"\n\npc 00001000", b"\n\npc 00001000"),
    (b"output 00001000\n", b"output 00001000\n"),
    (b"`where 00001000`\n", b"`where 00001000`\n"),
    (b"    said: pc 00001000\n", b"    said: pc 00001000\n"),
    (
        b"  00001000 00001008 x\n",
        b"  00001000 00001008 x    # main at a.c:3\n",
    ),
    (
        b"x00001000 00001000x 000010000\n",
        b"x00001000 00001000x 000010000\n",
    ),
    (b"0000100C\n", b"0000100C\n"),
    (b"", b""),
];

/// The names of the file.
fn names<R: Abort + AllocGlobal>(rt: &R) -> Names {
    let mut bytes = Vec::new(rt.alloc());
    expect_eq(rt, bytes.extend_from_slice(FILE).is_ok(), true);
    match Names::parse(rt.alloc(), bytes) {
        Ok(names) => names,
        Err(_) => panic!(rt; "these are names"),
    }
}

/// Gives bytes to a writer, and once more what it didn't take where it failed. How often it did.
fn give<W: Write>(writer: &mut W, bytes: &[u8]) -> u32 {
    let mut at = 0;
    let mut failures = 0u32;
    for _ in 0..100_000 {
        if at >= bytes.len() {
            return failures;
        }
        match writer.write(&bytes[at..]) {
            Ok(count) => at = count.saturating_add(at),
            Err(_) => failures = failures.saturating_add(1),
        }
    }
    failures
}

/// Flushes a writer, and once more where it failed.
fn flush<W: Write>(writer: &mut W) -> u32 {
    if writer.flush().is_ok() {
        return 0;
    }
    let _ = writer.flush();
    1
}

/// What a rough writer has of these bytes, and how often it failed.
fn play<R: Abort + AllocGlobal>(rt: &R, given: &[u8], fails_at: u32) -> (Vec<u8>, u32) {
    let mut writer = NamedWriter::new(rt.alloc(), names(rt), Rough::new(rt, fails_at));
    let first = give(&mut writer, given);
    let failures = first.saturating_add(flush(&mut writer));
    (writer.into_inner().taken, failures)
}

#[test]
fn lines_have_names(rt: HostRuntime) {
    for (given, want) in &LINES {
        let (taken, failures) = play(&rt, given, 0);
        expect_bytes(&rt, &taken, want);
        expect_eq(&rt, failures, 0);
    }
}

#[test]
fn failure_is_handed_on_and_nothing_lost(rt: HostRuntime) {
    for fails_at in 1..24 {
        let (taken, failures) = play(&rt, LINES[0].0, fails_at);
        expect_bytes(&rt, &taken, LINES[0].1);
        expect_eq(&rt, failures, 1);
    }
}

/// A line in two parts, each of them flushed, and one behind it.
fn play_parts<R: Abort + AllocGlobal>(rt: &R) -> Vec<u8> {
    let mut writer = NamedWriter::new(rt.alloc(), names(rt), Rough::new(rt, 0));
    expect_eq(rt, give(&mut writer, b"pc 0000"), 0);
    expect_eq(rt, flush(&mut writer), 0);
    expect_eq(rt, give(&mut writer, b"1000 00001008\n00001008\n"), 0);
    expect_eq(rt, flush(&mut writer), 0);
    writer.into_inner().taken
}

#[test]
fn flushed_part_has_no_name(rt: HostRuntime) {
    let taken = play_parts(&rt);
    expect_bytes(
        &rt,
        &taken,
        b"pc 00001000 00001008\n00001008    # pair.lock\n",
    );
}

/// A long line, and one behind it.
fn play_long<R: Abort + AllocGlobal>(rt: &R) -> Vec<u8> {
    let mut writer = NamedWriter::new(rt.alloc(), names(rt), Rough::new(rt, 0));
    expect_eq(rt, give(&mut writer, b"00001000 "), 0);
    expect_eq(rt, give(&mut writer, &[b'x'; 5_000]), 0);
    expect_eq(rt, give(&mut writer, b" 00001000\n00001000\n"), 0);
    expect_eq(rt, flush(&mut writer), 0);
    writer.into_inner().taken
}

#[test]
fn long_line_goes_through(rt: HostRuntime) {
    let taken = play_long(&rt);
    expect_eq(&rt, taken.len(), 9 + 5_000 + 10 + 8 + 6 + 13 + 1);
    expect_eq(
        &rt,
        taken.ends_with(b"x 00001000\n00001000    # main at a.c:3\n"),
        true,
    );
}

/// What a writer without names hands on before it is flushed.
fn play_plain<R: Abort + AllocGlobal>(rt: &R) -> Vec<u8> {
    let mut writer = NamedWriter::new(rt.alloc(), Names::none(rt.alloc()), Rough::new(rt, 0));
    let _ = give(&mut writer, b"pc 00001000\nmore");
    writer.into_inner().taken
}

#[test]
fn without_names_all_goes_through_at_once(rt: HostRuntime) {
    let taken = play_plain(&rt);
    expect_bytes(&rt, &taken, b"pc 00001000\nmore");
}

#[test]
fn names_know_their_image(rt: HostRuntime) {
    let names = names(&rt);
    expect_eq(&rt, names.length(), 7);
    expect_eq(&rt, names.digest()[31], 31);
    let none = Names::parse(rt.alloc(), Vec::new(rt.alloc()));
    expect_eq(&rt, none.is_err(), true);
}
