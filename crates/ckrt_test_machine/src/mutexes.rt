//! Mutexes of the three kinds.

use crate::steps::Step::{self, Call, CallEach, Owner, Ready};
use crate::steps::play;
use ckrt_thread::CallResult::{Blocked, Done};

pub const INIT: u32 = 20;

const DESTROY: u32 = 21;

pub const LOCK: u32 = 22;

const TRYLOCK: u32 = 23;

pub const UNLOCK: u32 = 25;

const KINDS: [Step; 13] = [
    // the kind that checks for errors
    Call(1, INIT, [0x2000, 2, 0], Done(0)),
    Call(1, LOCK, [0x2000, 0, 0], Done(0)),
    Call(1, LOCK, [0x2000, 0, 0], Done(35)),
    // the recursive kind
    Call(1, INIT, [0x2010, 1, 0], Done(0)),
    Call(1, LOCK, [0x2010, 0, 0], Done(0)),
    Call(1, LOCK, [0x2010, 0, 0], Done(0)),
    Call(1, UNLOCK, [0x2010, 0, 0], Done(0)),
    Call(2, TRYLOCK, [0x2010, 0, 0], Done(16)),
    Call(2, UNLOCK, [0x2010, 0, 0], Done(1)),
    // the normal kind
    Call(1, LOCK, [0x2020, 0, 0], Done(0)),
    Call(1, LOCK, [0x2020, 0, 0], Blocked),
    Call(2, UNLOCK, [0x2020, 0, 0], Done(1)),
    // no kind
    Call(2, INIT, [0x2030, 3, 0], Done(22)),
];

#[test]
fn kinds(rt: HostRuntime) {
    play(&rt, 2, &KINDS);
}

const FULL: [Step; 4] = [
    CallEach(256, 1, LOCK, [0x2000, 0, 0]),
    Call(1, LOCK, [0x2400, 0, 0], Done(11)),
    Call(1, UNLOCK, [0x2000, 0, 0], Done(0)),
    Call(1, LOCK, [0x2400, 0, 0], Done(0)),
];

#[test]
fn at_most_256_in_use(rt: HostRuntime) {
    play(&rt, 1, &FULL);
}

const HANDED_OVER: [Step; 12] = [
    Call(1, LOCK, [0x2000, 0, 0], Done(0)),
    Call(2, LOCK, [0x2000, 0, 0], Blocked),
    Call(3, LOCK, [0x2000, 0, 0], Blocked),
    Call(1, DESTROY, [0x2000, 0, 0], Done(16)),
    Call(1, UNLOCK, [0x2000, 0, 0], Done(0)),
    Ready(2, 0),
    Owner(0x2000, 2),
    Call(1, TRYLOCK, [0x2000, 0, 0], Done(16)),
    Call(2, UNLOCK, [0x2000, 0, 0], Done(0)),
    Owner(0x2000, 3),
    Call(3, UNLOCK, [0x2000, 0, 0], Done(0)),
    Call(3, UNLOCK, [0x2000, 0, 0], Done(1)),
];

#[test]
fn handed_over_in_order(rt: HostRuntime) {
    play(&rt, 3, &HANDED_OVER);
}
