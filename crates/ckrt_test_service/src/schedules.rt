//! A guest under several schedules, from lines to what it puts to the console.

use crate::expect::{expect_eq_at, push, put_by};
use crate::image_service::replies;
use ckrt_main::Config;
use std::process::Abort;

/// Harts, steps in a row, and rounds.
pub type Schedule = (u32, u32, u32);

pub const SCHEDULES: [Schedule; 5] = [
    (1, 3, 1200),
    (1, 50, 150),
    (2, 7, 400),
    (8, 4, 200),
    (8, 1, 900),
];

/// The lines around the rounds of a schedule.
#[derive(Clone, Copy)]
pub struct Around {
    /// How many rounds come before those of the schedule.
    pub rounds_before: u32,
    /// What stands in each of these.
    pub each_before: &'static [u8],
    /// What stands between these and those of the schedule.
    pub between: &'static [u8],
    /// What stands in each of the schedule.
    pub each: &'static [u8],
}

/// The rounds of the schedule alone.
pub const NOTHING_ELSE: Around = Around {
    rounds_before: 0,
    each_before: b"",
    between: b"",
    each: b"",
};

/// A line `auto`.
fn push_auto<R: Abort + AllocGlobal>(rt: &R, lines: &mut Vec<u8>, hart: u32, steps: u32) {
    let line = format!(in rt.alloc(); "auto {hart} {steps}\n").expect(rt, "memory for a text");
    push(rt, lines, line.as_bytes());
}

/// A round: `auto` on each hart with this many steps, then these lines and a commit.
fn push_round<R: Abort + AllocGlobal>(
    rt: &R,
    lines: &mut Vec<u8>,
    harts: u32,
    steps: u32,
    each: &[u8],
) {
    for hart in 0..harts {
        push_auto(rt, lines, hart, steps);
    }
    push(rt, lines, each);
    push(rt, lines, b"commit\n");
}

/// That many rounds.
fn push_rounds<R: Abort + AllocGlobal>(
    rt: &R,
    lines: &mut Vec<u8>,
    harts: u32,
    steps: u32,
    count: u32,
    each: &[u8],
) {
    for _ in 0..count {
        push_round(rt, lines, harts, steps, each);
    }
}

/// The lines of the schedule.
fn lines_of<R: Abort + AllocGlobal>(rt: &R, schedule: Schedule, around: Around) -> Vec<u8> {
    let (harts, steps, count) = schedule;
    let mut lines = Vec::new(rt.alloc());
    push_rounds(
        rt,
        &mut lines,
        harts,
        steps,
        around.rounds_before,
        around.each_before,
    );
    push(rt, &mut lines, around.between);
    push_rounds(rt, &mut lines, harts, steps, count, around.each);
    lines
}

/// What the guest puts to the console under the schedule, in hexadecimal digits.
fn console<R: Abort + AllocGlobal>(
    rt: &R,
    words: &[u32],
    schedule: Schedule,
    around: Around,
) -> Vec<u8> {
    let (harts, _, _) = schedule;
    let config = Config {
        pages: 16,
        harts,
        journal: 1_048_576,
    };
    let lines = lines_of(rt, schedule, around);
    let text = replies(rt, words, config, lines.as_slice());
    put_by(rt, text.as_slice())
}

/// The guest puts this to the console under the schedule.
fn expect_under<R: Abort + AllocGlobal>(
    rt: &R,
    words: &[u32],
    schedule: Schedule,
    around: Around,
    want: &[u8],
) {
    let put = console(rt, words, schedule, around);
    expect_eq_at(rt, schedule, put.as_slice(), want);
}

/// The guest puts this to the console, in hexadecimal digits, under each of the schedules.
pub fn expect_console<R: Abort + AllocGlobal>(
    rt: &R,
    words: &[u32],
    schedules: &[Schedule],
    around: Around,
    want: &[u8],
) {
    for schedule in schedules {
        expect_under(rt, words, *schedule, around, want);
    }
}
