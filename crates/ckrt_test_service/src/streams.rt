//! Long streams: a service answers every line, however many reads they take, and writes all output.

use crate::expect::{expect_bytes, expect_eq, push};
use crate::image_service::{expect_replies, push_reply};
use crate::small_disk::SMALL;
use ckrt_main::serve_image;
use ckrt_test_storage::IMAGE;
use std::io::{self, Read};
use std::process::Abort;

/// Gives that many bytes at once.
#[derive(Drop)]
struct Pieces<'a> {
    bytes: &'a [u8],
    size: usize,
}

impl Read for Pieces<'_> {
    fn read(&mut self, buf: &mut [u8]) -> io::Result<usize> {
        let size = buf.len().min(self.bytes.len()).min(self.size);
        let (piece, rest) = self.bytes.split_at(size);
        buf[..size].copy_from_slice(piece);
        self.bytes = rest;
        Ok(size)
    }
}

/// How many lines there are of each kind.
const LINES: u32 = 3_000;

/// That many lines that aren't known, and some that are blank.
fn many_lines<R: Abort + AllocGlobal>(rt: &R) -> Vec<u8> {
    let mut lines = Vec::new(rt.alloc());
    for _ in 0..LINES {
        push(rt, &mut lines, b"jump\n\n");
    }
    push(rt, &mut lines, b"place 0 1\n");
    lines
}

/// The replies to them.
fn many_replies<R: Abort + AllocGlobal>(rt: &R) -> Vec<u8> {
    let mut replies = Vec::new(rt.alloc());
    for _ in 0..LINES {
        push(rt, &mut replies, b"no 31 Unknown\n");
    }
    push(rt, &mut replies, b"ok 1 placed\n");
    replies
}

/// All lines are answered where that many bytes come at once.
fn expect_answered<R: Abort + AllocGlobal>(rt: &R, lines: &[u8], size: usize, want: &[u8]) {
    let mut reader = Pieces { bytes: lines, size };
    let mut replies = Vec::new(rt.alloc());
    let done = serve_image(rt.alloc(), &IMAGE, SMALL, &mut reader, &mut replies);
    expect_eq(rt, done, Ok(()));
    expect_bytes(rt, replies.as_slice(), want);
}

/// 18,010 bytes: in 18,010 reads, in 2,573, in 36, and in 3,002.
#[test]
fn every_line_is_answered(rt: HostRuntime) {
    let lines = many_lines(&rt);
    let want = many_replies(&rt);
    for size in [1, 7, 512, 6] {
        expect_answered(&rt, lines.as_slice(), size, want.as_slice());
    }
}

/// Puts 1, 2, 3 and so on, each by five steps.
const COUNTS: [u32; 5] = [
    0x00128293, // addi x5, x5, 1
    0x00028513, // addi x10, x5, 0
    0x00200893, // addi x17, x0, 2
    0x00000073, // ecall
    0xff1ff06f, // jal x0, -16
];

/// The bytes from 1 to 64, in hexadecimal digits.
const FIRST_64: &[u8] =
    b"0102030405060708090a0b0c0d0e0f101112131415161718191a1b1c1d1e1f202122232425262728292a2b2c2d2e2f303132333435363738393a3b3c3d3e3f40";

/// The bytes from 65 to 128.
const SECOND_64: &[u8] =
    b"4142434445464748494a4b4c4d4e4f505152535455565758595a5b5c5d5e5f606162636465666768696a6b6c6d6e6f707172737475767778797a7b7c7d7e7f80";

/// A line of output, and the reply to the line after it.
fn push_output<R: Abort>(rt: &R, want: &mut Vec<u8>, offset: &[u8], digits: &[u8]) {
    push(rt, want, b"out ");
    push(rt, want, offset);
    push(rt, want, b" ");
    push(rt, want, digits);
    push(rt, want, b"\n");
}

/// A line of output has 64 bytes at most; the lines after a full one are answered.
#[test]
fn full_lines_of_output(rt: HostRuntime) {
    let mut want = Vec::new(rt.alloc());
    push(&rt, &mut want, b"ok 1 placed\n");
    push_reply(&rt, &mut want, 2, "ran 320 on");
    push(&rt, &mut want, b"ack 2\n");
    push_output(&rt, &mut want, b"0", FIRST_64);
    push(&rt, &mut want, b"no 31 Unknown\n");
    push_reply(&rt, &mut want, 3, "ran 325 on");
    push(&rt, &mut want, b"ack 3\n");
    push_output(&rt, &mut want, b"64", SECOND_64);
    push_output(&rt, &mut want, b"128", b"81");
    push(&rt, &mut want, b"no 31 Unknown\n");
    let lines = b"place 0 1\nrun 0 320\ncommit\njump\nrun 0 325\ncommit\njump\n";
    expect_replies(&rt, &COUNTS, lines, want.as_slice());
}
