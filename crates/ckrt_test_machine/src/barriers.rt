//! Barriers: worked examples of their calls.

use crate::steps::Step::{self, Call, CallEach, Ready};
use crate::steps::play;
use ckrt_barrier::SERIAL_THREAD;
use ckrt_thread::CallResult::{Blocked, Done};

const INIT: u32 = 40;

const DESTROY: u32 = 41;

const WAIT: u32 = 42;

const BARRIER: u32 = 0x2000;

const ALONE: [Step; 4] = [
    Call(1, INIT, [BARRIER, 1, 0], Done(0)),
    Call(1, WAIT, [BARRIER, 0, 0], Done(0xFFFF_FFFF)),
    Call(1, DESTROY, [BARRIER, 0, 0], Done(0)),
    Call(1, WAIT, [BARRIER, 0, 0], Done(22)),
];

#[test]
fn alone(rt: HostRuntime) {
    play(&rt, 3, &ALONE);
}

const IN_ROUNDS: [Step; 14] = [
    Call(1, INIT, [BARRIER, 3, 0], Done(0)),
    Call(1, WAIT, [BARRIER, 0, 0], Blocked),
    Call(2, WAIT, [BARRIER, 0, 0], Blocked),
    Call(3, WAIT, [BARRIER, 0, 0], Done(SERIAL_THREAD)),
    Ready(1, 0),
    Ready(2, 0),
    Call(3, WAIT, [BARRIER, 0, 0], Blocked),
    Call(1, INIT, [BARRIER, 2, 0], Done(16)),
    Call(1, DESTROY, [BARRIER, 0, 0], Done(16)),
    Call(1, WAIT, [BARRIER, 0, 0], Blocked),
    Call(2, WAIT, [BARRIER, 0, 0], Done(SERIAL_THREAD)),
    Ready(3, 0),
    Call(1, INIT, [BARRIER, 1, 0], Done(0)),
    Call(1, WAIT, [BARRIER, 0, 0], Done(SERIAL_THREAD)),
];

#[test]
fn in_rounds(rt: HostRuntime) {
    play(&rt, 3, &IN_ROUNDS);
}

const FULL: [Step; 5] = [
    Call(1, INIT, [BARRIER, 0, 0], Done(22)),
    Call(1, DESTROY, [BARRIER, 0, 0], Done(22)),
    CallEach(64, 1, INIT, [BARRIER, 2, 0]),
    Call(1, INIT, [0, 2, 0], Done(11)),
    Call(1, INIT, [BARRIER, 4, 0], Done(0)),
];

#[test]
fn at_most_64(rt: HostRuntime) {
    play(&rt, 3, &FULL);
}
