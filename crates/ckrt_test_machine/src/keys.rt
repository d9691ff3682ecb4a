//! Thread-specific data, on the tables of a program by hand.

use crate::conditions::{CONDITION, MUTEX, WAIT};
use crate::mutexes::{LOCK, UNLOCK};
use crate::steps::Step::{self, Call, Gate, Owner, Routine, Second, Waiters};
use crate::steps::play;
use ckrt_thread::CallResult::{Blocked, Done, Moved};
use ckrt_thread::{Object, UNWIND_GATE};

const JOIN: u32 = 11;

const THREAD_EXIT: u32 = 13;

const CANCEL: u32 = 60;

const PUSH: u32 = 64;

const CREATE_KEY: u32 = 70;

const DELETE_KEY: u32 = 71;

const SET: u32 = 72;

const GET: u32 = 73;

const CALLS: [Step; 27] = [
    Call(1, CREATE_KEY, [0x1102, 0, 0], Done(22)),
    Call(1, CREATE_KEY, [0x1100, 9, 0], Done(0)),
    Second(1, 0),
    Call(2, CREATE_KEY, [0, 9, 0], Done(0)),
    Second(2, 1),
    // No value was set.
    Call(1, GET, [1, 9, 0], Done(0)),
    Second(1, 0),
    // Each thread has its own.
    Call(1, SET, [1, 0xFFFF_FFFF, 0], Done(0)),
    Call(2, SET, [1, 5, 0], Done(0)),
    Call(1, GET, [1, 0, 0], Done(0)),
    Second(1, 0xFFFF_FFFF),
    Call(2, GET, [1, 0, 0], Done(0)),
    Second(2, 5),
    Call(2, GET, [0, 9, 0], Done(0)),
    Second(2, 0),
    // Unknown keys.
    Call(1, GET, [2, 0, 0], Done(22)),
    Call(1, SET, [32, 7, 0], Done(22)),
    Call(1, GET, [0x101, 0, 0], Done(22)),
    Call(1, DELETE_KEY, [0xFFFF_FFFF, 0, 0], Done(22)),
    // What is deleted is gone, and its number is the least free one again.
    Call(2, DELETE_KEY, [1, 0, 0], Done(0)),
    Call(1, GET, [1, 0, 0], Done(22)),
    Call(1, DELETE_KEY, [1, 0, 0], Done(22)),
    Call(1, CREATE_KEY, [0x1104, 9, 0], Done(0)),
    Second(1, 1),
    Call(1, GET, [1, 9, 0], Done(0)),
    Second(1, 0),
    Call(2, GET, [1, 9, 0], Done(0)),
];

#[test]
fn keys_are_made_and_deleted(rt: HostRuntime) {
    play(&rt, 2, &CALLS);
}

/// 32 keys, made by calls whose destructors are 0, 4, 8 and so on.
const FULL: [Step; 6] = [
    Step::CallEach(32, 1, CREATE_KEY, [0, 9, 0]),
    Second(1, 31),
    Call(1, CREATE_KEY, [0, 9, 0], Done(11)),
    Call(1, CREATE_KEY, [2, 9, 0], Done(22)),
    Call(1, DELETE_KEY, [7, 0, 0], Done(0)),
    Call(1, CREATE_KEY, [0, 9, 0], Done(0)),
];

#[test]
fn there_are_32_keys(rt: HostRuntime) {
    play(&rt, 1, &FULL);
}

/// Key 0 has no destructor, keys 1, 2 and 3 have one. The handler goes first, then the destructors by rising key; what one of
/// them sets under a key after it is met in its round, and what it sets under one before it in the next.
const ROUNDS: [Step; 27] = [
    Call(2, CREATE_KEY, [0, 0, 0], Done(0)),
    Call(2, CREATE_KEY, [0x1100, 0, 0], Done(0)),
    Call(2, CREATE_KEY, [0x1200, 0, 0], Done(0)),
    Call(2, CREATE_KEY, [0x1300, 0, 0], Done(0)),
    Call(2, SET, [0, 5, 0], Done(0)),
    Call(2, SET, [1, 6, 0], Done(0)),
    Call(2, SET, [2, 7, 0], Done(0)),
    Call(2, PUSH, [0x1400, 8, 0], Done(0)),
    Call(2, THREAD_EXIT, [9, 0, 0], Moved),
    Routine(2, 0x1400, 8, UNWIND_GATE),
    Gate(2),
    Routine(2, 0x1100, 6, UNWIND_GATE),
    // The value was taken away before.
    Call(2, GET, [1, 0, 0], Done(0)),
    Second(2, 0),
    Gate(2),
    Routine(2, 0x1200, 7, UNWIND_GATE),
    Call(2, SET, [1, 10, 0], Done(0)),
    Call(2, SET, [3, 11, 0], Done(0)),
    // A handler that it pushes runs before the next destructor.
    Call(2, PUSH, [0x1500, 12, 0], Done(0)),
    Gate(2),
    Routine(2, 0x1500, 12, UNWIND_GATE),
    Gate(2),
    Routine(2, 0x1300, 11, UNWIND_GATE),
    Gate(2),
    Routine(2, 0x1100, 10, UNWIND_GATE),
    Gate(2),
    Call(1, JOIN, [2, 0, 0], Done(0)),
];

#[test]
fn destructors_run_in_rounds(rt: HostRuntime) {
    play(&rt, 2, &ROUNDS);
}

/// One that exits replaces the thread's value, and the round goes on; values under keys without a destructor are gone.
const EXITS_AGAIN: [Step; 13] = [
    Call(2, CREATE_KEY, [0x1100, 0, 0], Done(0)),
    Call(2, CREATE_KEY, [0x1200, 0, 0], Done(0)),
    Call(2, SET, [0, 6, 0], Done(0)),
    Call(2, SET, [1, 7, 0], Done(0)),
    Call(2, THREAD_EXIT, [9, 0, 0], Moved),
    Routine(2, 0x1100, 6, UNWIND_GATE),
    Call(2, THREAD_EXIT, [10, 0, 0], Moved),
    Routine(2, 0x1200, 7, UNWIND_GATE),
    // No destructor runs for what is deleted.
    Call(2, SET, [0, 6, 0], Done(0)),
    Call(1, DELETE_KEY, [0, 0, 0], Done(0)),
    Gate(2),
    Call(1, JOIN, [2, 0, 0], Done(0)),
    Second(1, 10),
];

#[test]
fn a_destructor_may_exit(rt: HostRuntime) {
    play(&rt, 2, &EXITS_AGAIN);
}

/// A thread is cancelled while it waits at a condition: it retakes the mutex, which another hands over, and goes to its
/// destructor at once.
const RETAKES: [Step; 13] = [
    Call(2, CREATE_KEY, [0x1100, 0, 0], Done(0)),
    Call(2, SET, [0, 6, 0], Done(0)),
    Call(2, LOCK, [MUTEX, 0, 0], Done(0)),
    Call(2, WAIT, [CONDITION, MUTEX, 0], Blocked),
    Call(1, LOCK, [MUTEX, 0, 0], Done(0)),
    Call(1, CANCEL, [2, 0, 0], Done(0)),
    Waiters(Object::Mutex(MUTEX), 1),
    Call(1, UNLOCK, [MUTEX, 0, 0], Done(0)),
    Owner(MUTEX, 2),
    Routine(2, 0x1100, 6, UNWIND_GATE),
    Gate(2),
    Call(1, JOIN, [2, 0, 0], Done(0)),
    Second(1, 0xFFFF_FFFF),
];

#[test]
fn a_cancelled_waiter_runs_its_destructors(rt: HostRuntime) {
    play(&rt, 2, &RETAKES);
}
