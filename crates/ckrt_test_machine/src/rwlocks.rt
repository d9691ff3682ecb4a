//! Read-write locks: worked examples of their calls.

use crate::steps::Step::{self, Call, Reads, Ready, Waits, Writer};
use crate::steps::play;
use ckrt_thread::CallResult::{Blocked, Done};

const INIT: u32 = 50;

const DESTROY: u32 = 51;

const RDLOCK: u32 = 52;

const TRYRDLOCK: u32 = 53;

const WRLOCK: u32 = 54;

const TRYWRLOCK: u32 = 55;

const UNLOCK: u32 = 56;

const LOCK: u32 = 0x2000;

const WRITER_WAITS: [Step; 13] = [
    Call(1, RDLOCK, [LOCK, 0, 0], Done(0)),
    Call(2, WRLOCK, [LOCK, 0, 0], Blocked),
    Call(1, RDLOCK, [LOCK, 0, 0], Done(0)),
    Call(3, RDLOCK, [LOCK, 0, 0], Blocked),
    Call(1, UNLOCK, [LOCK, 0, 0], Done(0)),
    Call(1, UNLOCK, [LOCK, 0, 0], Done(0)),
    Writer(LOCK, Some(2)),
    Ready(2, 0),
    Waits(3),
    Call(2, UNLOCK, [LOCK, 0, 0], Done(0)),
    Writer(LOCK, None),
    Reads(LOCK, 3, 1),
    Ready(3, 0),
];

#[test]
fn nobody_passes_a_waiting_writer(rt: HostRuntime) {
    play(&rt, 3, &WRITER_WAITS);
}

const ERRORS: [Step; 10] = [
    Call(1, INIT, [LOCK, 0, 0], Done(0)),
    Call(1, RDLOCK, [LOCK, 0, 0], Done(0)),
    Call(2, WRLOCK, [LOCK, 0, 0], Blocked),
    Call(3, TRYRDLOCK, [LOCK, 0, 0], Done(16)),
    Call(1, TRYRDLOCK, [LOCK, 0, 0], Done(0)),
    Call(1, WRLOCK, [LOCK, 0, 0], Done(35)),
    Call(3, UNLOCK, [LOCK, 0, 0], Done(1)),
    Call(3, INIT, [LOCK, 0, 0], Done(16)),
    Call(3, DESTROY, [LOCK, 0, 0], Done(16)),
    Call(3, TRYWRLOCK, [LOCK, 0, 0], Done(16)),
];

#[test]
fn each_error(rt: HostRuntime) {
    play(&rt, 3, &ERRORS);
}
