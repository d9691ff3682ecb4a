//! Four threads that fight for one mutex: each counts up a shared counter twenty times, in three steps.

use crate::schedules::{NOTHING_ELSE, Schedule, expect_console};
use ckrt_test_storage::COUNTERS;

/// Harts, steps in a row, and rounds.
const SCHEDULES: [Schedule; 5] = [
    (1, 3, 900),
    (1, 7, 400),
    (2, 5, 300),
    (8, 4, 200),
    (8, 1, 900),
];

#[test]
fn same_total_under_each_schedule(rt: HostRuntime) {
    // the counter, 80
    expect_console(&rt, &COUNTERS, &SCHEDULES, NOTHING_ELSE, b"50");
}
