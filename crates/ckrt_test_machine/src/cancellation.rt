//! Cancellation, on the tables of a program by hand.

use crate::conditions::{CONDITION, MUTEX, SIGNAL, WAIT};
use crate::mutexes::{LOCK, UNLOCK};
use crate::steps::Step::{
    self, Call, Gate, Instruction, Owner, Ready, Requested, Routine, Second, Waiters,
};
use crate::steps::play;
use ckrt_thread::CallResult::{Blocked, Done, Moved};
use ckrt_thread::{Object, UNWIND_GATE};

const JOIN: u32 = 11;

const THREAD_EXIT: u32 = 13;

const CANCEL: u32 = 60;

const TEST_CANCEL: u32 = 61;

const SET_STATE: u32 = 62;

const SET_TYPE: u32 = 63;

const PUSH: u32 = 64;

const POP: u32 = 65;

const SIGNALLED_FIRST: [Step; 11] = [
    Call(1, LOCK, [MUTEX, 0, 0], Done(0)),
    Call(1, WAIT, [CONDITION, MUTEX, 0], Blocked),
    Call(2, LOCK, [MUTEX, 0, 0], Done(0)),
    Call(2, SIGNAL, [CONDITION, 0, 0], Done(0)),
    Call(2, CANCEL, [1, 0, 0], Done(0)),
    Waiters(Object::Mutex(MUTEX), 1),
    Requested(1),
    Call(2, UNLOCK, [MUTEX, 0, 0], Done(0)),
    Owner(MUTEX, 1),
    Ready(1, 0),
    Requested(1),
];

#[test]
fn signalled_before_it_is_cancelled(rt: HostRuntime) {
    play(&rt, 2, &SIGNALLED_FIRST);
}

const UNWINDS: [Step; 15] = [
    Call(2, SET_STATE, [1, 0, 0], Done(0)),
    Second(2, 0),
    Call(2, PUSH, [0x1100, 7, 0], Done(0)),
    Call(2, PUSH, [0x1200, 9, 0], Done(0)),
    Call(1, CANCEL, [2, 0, 0], Done(0)),
    Call(2, TEST_CANCEL, [0, 0, 0], Done(0)),
    Call(2, SET_STATE, [0, 0, 0], Done(0)),
    Second(2, 1),
    Call(2, TEST_CANCEL, [0, 0, 0], Moved),
    Routine(2, 0x1200, 9, UNWIND_GATE),
    Gate(2),
    Routine(2, 0x1100, 7, UNWIND_GATE),
    Gate(2),
    Call(1, JOIN, [2, 0, 0], Done(0)),
    Second(1, 0xFFFF_FFFF),
];

#[test]
fn unwinds_through_its_handlers(rt: HostRuntime) {
    play(&rt, 2, &UNWINDS);
}

const RETAKES: [Step; 14] = [
    Call(1, PUSH, [0x1200, 9, 0], Done(0)),
    Call(1, LOCK, [MUTEX, 0, 0], Done(0)),
    Call(1, WAIT, [CONDITION, MUTEX, 0], Blocked),
    Call(3, LOCK, [MUTEX, 0, 0], Done(0)),
    Call(3, WAIT, [CONDITION, MUTEX, 0], Blocked),
    Call(2, LOCK, [MUTEX, 0, 0], Done(0)),
    Call(2, CANCEL, [1, 0, 0], Done(0)),
    Waiters(Object::Condition(CONDITION), 1),
    Call(2, SIGNAL, [CONDITION, 0, 0], Done(0)),
    Call(2, UNLOCK, [MUTEX, 0, 0], Done(0)),
    Owner(MUTEX, 1),
    Routine(1, 0x1200, 9, UNWIND_GATE),
    Call(1, UNLOCK, [MUTEX, 0, 0], Done(0)),
    Ready(3, 0),
];

#[test]
fn cancelled_waiter_retakes_its_mutex(rt: HostRuntime) {
    play(&rt, 3, &RETAKES);
}

/// The first thread stands at its start, 0x1000, where the routine returns to.
const POPPED: [Step; 6] = [
    Call(1, POP, [0, 0, 0], Done(22)),
    Call(1, PUSH, [0x1100, 7, 0], Done(0)),
    Call(1, PUSH, [0x1200, 9, 0], Done(0)),
    Call(1, POP, [0, 0, 0], Done(0)),
    Call(1, POP, [1, 0, 0], Moved),
    Routine(1, 0x1100, 7, 0x1000),
];

#[test]
fn handlers_without_unwinding(rt: HostRuntime) {
    play(&rt, 1, &POPPED);
}

const ASYNCHRONOUS: [Step; 12] = [
    Call(2, SET_TYPE, [1, 0, 0], Done(0)),
    Second(2, 0),
    Call(2, PUSH, [0x1100, 7, 0], Done(0)),
    Call(2, CANCEL, [2, 0, 0], Done(0)),
    Instruction(2),
    Routine(2, 0x1100, 7, UNWIND_GATE),
    Call(2, SET_TYPE, [1, 0, 0], Done(0)),
    Second(2, 0),
    Call(2, THREAD_EXIT, [5, 0, 0], Moved),
    Call(1, JOIN, [2, 0, 0], Done(0)),
    Second(1, 5),
    Call(1, CANCEL, [2, 0, 0], Done(3)),
];

#[test]
fn asynchronous_and_replaced_values(rt: HostRuntime) {
    play(&rt, 2, &ASYNCHRONOUS);
}
