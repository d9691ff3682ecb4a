//! Guests whose threads wait: at conditions and barriers, for locks, for moments, and for input. Each puts the same bytes under every schedule.

use crate::schedules::{Around, NOTHING_ELSE, SCHEDULES, expect_console};
use ckrt_test_storage::{BOUNDED, PAIR, READERS, ROUNDS, SLEEPERS};

#[test]
fn bounded_buffer(rt: HostRuntime) {
    expect_console(&rt, &BOUNDED, &SCHEDULES, NOTHING_ELSE, b"6e");
}

/// The threads are asleep before the clock begins to tick.
const TICKS: Around = Around {
    rounds_before: 60,
    each_before: b"",
    between: b"",
    each: b"tick 1\n",
};

#[test]
fn sleepers_wake_in_order(rt: HostRuntime) {
    expect_console(&rt, &SLEEPERS, &SCHEDULES, TICKS, b"14283c");
}

const INPUT: Around = Around {
    rounds_before: 20,
    each_before: b"in 0103\n",
    between: b"eof\n",
    each: b"",
};

#[test]
fn readers_share_the_input(rt: HostRuntime) {
    expect_console(&rt, &READERS, &SCHEDULES, INPUT, b"50");
}

#[test]
fn meet_in_rounds(rt: HostRuntime) {
    expect_console(&rt, &ROUNDS, &SCHEDULES, NOTHING_ELSE, b"060c121800");
}

#[test]
fn readers_see_equal_words(rt: HostRuntime) {
    expect_console(&rt, &PAIR, &SCHEDULES, NOTHING_ELSE, b"14");
}
