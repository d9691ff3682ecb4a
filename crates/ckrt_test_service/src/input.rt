//! Lines with faults, and console input.

use crate::expect::push;
use crate::image_service::{expect_replies, push_reply};
use std::process::Abort;

#[test]
fn faults_of_lines(rt: HostRuntime) {
    let mut lines = Vec::new(rt.alloc());
    push(
        &rt,
        &mut lines,
        b"\njump\nplace 0\nrun 0 x\nin 4\nrun 0 0\ntick 4294967296\n",
    );
    push(&rt, &mut lines, &[b'a'; 161]);
    push(&rt, &mut lines, b"\n");
    expect_replies(
        &rt,
        &[],
        lines.as_slice(),
        b"no 31 Unknown\nno 31 Unknown\nno 32 Number\nno 33 Hex\nno 34 Range\nno 34 Range\nno 35 TooLong\n",
    );
}

/// A line of 64 bytes of input, and its reply as event `count`.
fn push_full_input<R: Abort + AllocGlobal>(
    rt: &R,
    lines: &mut Vec<u8>,
    want: &mut Vec<u8>,
    count: u32,
) {
    push(rt, lines, b"in ");
    push(rt, lines, &[b'5'; 128]);
    push(rt, lines, b"\n");
    push_reply(rt, want, count, "taken 64");
}

/// As many of them as a journal of 4,096 bytes holds.
fn push_full_inputs<R: Abort + AllocGlobal>(rt: &R, lines: &mut Vec<u8>, want: &mut Vec<u8>) {
    for count in 1..63 {
        push_full_input(rt, lines, want, count);
    }
}

#[test]
fn journal_fills(rt: HostRuntime) {
    let mut lines = Vec::new(rt.alloc());
    let mut want = Vec::new(rt.alloc());
    push_full_inputs(&rt, &mut lines, &mut want);
    push(&rt, &mut lines, b"tick 1\neof\ncommit\ntick 1\n");
    push(
        &rt,
        &mut want,
        b"no 22 BatchFull\nno 23 JournalFull\nack 62\nno 23 JournalFull\n",
    );
    expect_replies(&rt, &[], lines.as_slice(), want.as_slice());
}

#[test]
fn input_ends(rt: HostRuntime) {
    expect_replies(
        &rt,
        &[],
        b"in 5a5B\neof\nin 00\neof\ntick 7\ncommit\ncommit\n",
        b"ok 1 taken 2\nok 2 closed\nno 6 InputClosed\nno 6 InputClosed\nok 3 ticked 0\nack 3\nack 3\n",
    );
}

#[test]
fn reads_and_puts(rt: HostRuntime) {
    expect_replies(
        &rt,
        &[0x00300893, 0x00000073, 0x00200893, 0x00000073],
        b"place 0 1\nrun 0 9\nin 5a\nrun 0 1\nauto 0 2\ncommit\n",
        b"ok 1 placed\nok 2 ran 2 off\nok 3 taken 1\nno 5 HartIdle\nok 4 placed\nok 5 ran 2 on\nack 5\nout 0 5a\n",
    );
}
