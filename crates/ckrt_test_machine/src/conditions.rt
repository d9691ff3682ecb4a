//! Condition variables, on the tables of a program by hand.

use crate::mutexes::{LOCK, UNLOCK};
use crate::steps::Step::{self, Call, CallEach, Owner, Ready, Tick, Waits};
use crate::steps::play;
use ckrt_thread::CallResult::{Blocked, Done};

const DESTROY: u32 = 31;

pub const WAIT: u32 = 32;

const TIMEDWAIT: u32 = 33;

pub const SIGNAL: u32 = 34;

const BROADCAST: u32 = 35;

pub const MUTEX: u32 = 0x2000;

pub const CONDITION: u32 = 0x5000;

const DUE_TOGETHER: [Step; 17] = [
    Call(2, LOCK, [MUTEX, 0, 0], Done(0)),
    Call(2, TIMEDWAIT, [CONDITION, MUTEX, 7], Blocked),
    Call(1, LOCK, [MUTEX, 0, 0], Done(0)),
    Call(1, TIMEDWAIT, [CONDITION, MUTEX, 7], Blocked),
    Call(4, LOCK, [MUTEX, 0, 0], Done(0)),
    Call(4, TIMEDWAIT, [CONDITION, MUTEX, 6], Blocked),
    Call(3, LOCK, [MUTEX, 0, 0], Done(0)),
    Tick(7, 3),
    Call(3, UNLOCK, [MUTEX, 0, 0], Done(0)),
    Owner(MUTEX, 4),
    Ready(4, 110),
    Call(4, UNLOCK, [MUTEX, 0, 0], Done(0)),
    Owner(MUTEX, 1),
    Ready(1, 110),
    Call(1, UNLOCK, [MUTEX, 0, 0], Done(0)),
    Owner(MUTEX, 2),
    Ready(2, 110),
];

#[test]
fn due_waits_end_by_deadline_and_thread(rt: HostRuntime) {
    play(&rt, 4, &DUE_TOGETHER);
}

const WAITED_WITH: [Step; 7] = [
    CallEach(256, 1, LOCK, [0x2000, 0, 0]),
    Call(1, LOCK, [0x2400, 0, 0], Done(11)),
    Call(1, UNLOCK, [0x2000, 0, 0], Done(0)),
    Call(1, LOCK, [0x2400, 0, 0], Done(0)),
    Call(1, WAIT, [CONDITION, 0x2004, 0], Blocked),
    Call(2, LOCK, [0x2000, 0, 0], Done(11)),
    Call(2, LOCK, [0x2004, 0, 0], Done(0)),
];

#[test]
fn a_waiter_keeps_its_mutex_in_use(rt: HostRuntime) {
    play(&rt, 2, &WAITED_WITH);
}

const SIGNALLED: [Step; 22] = [
    Call(3, LOCK, [MUTEX, 0, 0], Done(0)),
    Call(3, WAIT, [CONDITION, MUTEX, 0], Blocked),
    Call(1, LOCK, [MUTEX, 0, 0], Done(0)),
    Call(1, WAIT, [CONDITION, MUTEX, 0], Blocked),
    Call(4, LOCK, [MUTEX, 0, 0], Done(0)),
    Call(4, WAIT, [CONDITION, MUTEX, 0], Blocked),
    Call(2, DESTROY, [CONDITION, 0, 0], Done(16)),
    Call(2, WAIT, [CONDITION, MUTEX, 0], Done(1)),
    Call(2, LOCK, [0x2010, 0, 0], Done(0)),
    Call(2, WAIT, [CONDITION, 0x2010, 0], Done(22)),
    Call(2, SIGNAL, [CONDITION, 0, 0], Done(0)),
    Owner(MUTEX, 3),
    Ready(3, 0),
    Call(2, BROADCAST, [CONDITION, 0, 0], Done(0)),
    Call(3, UNLOCK, [MUTEX, 0, 0], Done(0)),
    Owner(MUTEX, 1),
    Ready(1, 0),
    Call(1, UNLOCK, [MUTEX, 0, 0], Done(0)),
    Owner(MUTEX, 4),
    Ready(4, 0),
    Call(4, UNLOCK, [MUTEX, 0, 0], Done(0)),
    Call(2, DESTROY, [CONDITION, 0, 0], Done(0)),
];

#[test]
fn signalled_in_order(rt: HostRuntime) {
    play(&rt, 4, &SIGNALLED);
}

const SIGNALLED_BY_OWNER: [Step; 9] = [
    Call(1, LOCK, [MUTEX, 0, 0], Done(0)),
    Call(1, WAIT, [CONDITION, MUTEX, 0], Blocked),
    Call(2, LOCK, [MUTEX, 0, 0], Done(0)),
    Call(2, SIGNAL, [CONDITION, 0, 0], Done(0)),
    Waits(1),
    Call(2, DESTROY, [CONDITION, 0, 0], Done(0)),
    Call(2, UNLOCK, [MUTEX, 0, 0], Done(0)),
    Owner(MUTEX, 1),
    Ready(1, 0),
];

#[test]
fn a_signalled_thread_waits_for_its_mutex(rt: HostRuntime) {
    play(&rt, 2, &SIGNALLED_BY_OWNER);
}

/// Waits until moment 0, which is due.
const DUE_AT_ONCE: [Step; 9] = [
    Call(1, LOCK, [MUTEX, 0, 0], Done(0)),
    Call(1, TIMEDWAIT, [CONDITION, MUTEX, 0], Done(110)),
    Call(2, LOCK, [MUTEX, 0, 0], Blocked),
    Call(1, TIMEDWAIT, [CONDITION, MUTEX, 0], Blocked),
    Ready(2, 0),
    Call(2, SIGNAL, [CONDITION, 0, 0], Done(0)),
    Call(2, UNLOCK, [MUTEX, 0, 0], Done(0)),
    Owner(MUTEX, 1),
    Ready(1, 110),
];

#[test]
fn a_due_wait_retakes_its_mutex(rt: HostRuntime) {
    play(&rt, 2, &DUE_AT_ONCE);
}
