//! Moments, sleeps, timed locks and reads, on the tables of a program by hand.

use crate::mutexes::{INIT, LOCK, UNLOCK};
use crate::steps::Step::{self, Call, EndOfInput, Input, Owner, Ready, Second, Tick, Waits};
use crate::steps::play;
use ckrt_thread::CallResult::{Blocked, Done};

const GETC: u32 = 3;

const CLOCK: u32 = 4;

const SLEEP: u32 = 5;

const TIMEDLOCK: u32 = 24;

/// The high word of 2^63.
const HIGH: u32 = 0x8000_0000;

const CLOCKED: [Step; 4] = [
    Tick(4_294_967_295, 0),
    Tick(4_294_967_295, 0),
    Call(1, CLOCK, [0, 9, 0], Done(0xFFFF_FFFE)),
    Second(1, 1),
];

#[test]
fn clock_in_two_words(rt: HostRuntime) {
    play(&rt, 1, &CLOCKED);
}

const SLEPT: [Step; 13] = [
    Call(1, SLEEP, [0, HIGH, 0], Done(22)),
    Call(1, SLEEP, [0, 0, 0], Done(0)),
    Call(2, SLEEP, [5, 1, 0], Blocked),
    Call(3, SLEEP, [5, 0, 0], Blocked),
    Call(4, SLEEP, [5, 0, 0], Blocked),
    Tick(4, 0),
    Tick(1, 2),
    Ready(3, 0),
    Ready(4, 0),
    Waits(2),
    Tick(4_294_967_295, 0),
    Tick(1, 1),
    Ready(2, 0),
];

#[test]
fn sleeps_end_at_their_moments(rt: HostRuntime) {
    play(&rt, 4, &SLEPT);
}

const LOCKED_IN_TIME: [Step; 15] = [
    Call(1, TIMEDLOCK, [0x2000, 0, HIGH], Done(0)),
    Call(2, TIMEDLOCK, [0x2000, 0, HIGH], Done(22)),
    Call(2, TIMEDLOCK, [0x2000, 0, 0], Done(110)),
    Call(2, TIMEDLOCK, [0x2000, 3, 0], Blocked),
    Tick(2, 0),
    Tick(9, 1),
    Ready(2, 110),
    Owner(0x2000, 1),
    Call(2, TIMEDLOCK, [0x2000, 12, 0], Blocked),
    Call(1, UNLOCK, [0x2000, 0, 0], Done(0)),
    Ready(2, 0),
    Tick(9, 0),
    // a mutex that checks for errors
    Call(1, INIT, [0x2010, 2, 0], Done(0)),
    Call(1, LOCK, [0x2010, 0, 0], Done(0)),
    Call(1, TIMEDLOCK, [0x2010, 0, HIGH], Done(35)),
];

#[test]
fn timed_locks(rt: HostRuntime) {
    play(&rt, 2, &LOCKED_IN_TIME);
}

const READ: [Step; 15] = [
    Call(2, GETC, [0, 0, 0], Blocked),
    Call(1, GETC, [0, 0, 0], Blocked),
    Input(b"a"),
    Ready(2, 97),
    Waits(1),
    Input(b"bcd"),
    Ready(1, 98),
    Call(3, GETC, [0, 0, 0], Done(99)),
    Call(3, GETC, [0, 0, 0], Done(100)),
    Call(3, GETC, [0, 0, 0], Blocked),
    Call(4, GETC, [0, 0, 0], Blocked),
    EndOfInput,
    Ready(3, 0xFFFF_FFFF),
    Ready(4, 0xFFFF_FFFF),
    Call(1, GETC, [0, 0, 0], Done(0xFFFF_FFFF)),
];

#[test]
fn readers_are_served_in_order(rt: HostRuntime) {
    play(&rt, 4, &READ);
}
