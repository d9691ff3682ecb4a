//! Bytes that are decoded as saved tables. All were written down from the format, and none comes from the program.

use crate::expect::{bytes_of, expect_eq, expect_eq_at, push, push_zeros};
use crate::saved_tables::{bytes_of_everything, expect_encoding};
use crate::{BEHIND_THREAD, FRESH, INITIAL_THREAD, OLD_FRESH};
use ckrt_calls::{Status, Tables};
use ckrt_rv32i::Cause;
use ckrt_tables::{Held, LONGEST_TABLES, decode_tables};
use std::process::Abort;

/// What bytes of a version decode to.
fn decoded_as<R: Abort + AllocGlobal>(
    rt: &R,
    version: u32,
    bytes: &[u8],
    harts: usize,
) -> Option<(Tables, Held)> {
    assert!(rt; version == 1 || version == 2);
    assert!(rt; harts <= 8);
    decode_tables(rt.alloc(), version, bytes, harts).expect(rt, "memory for tables")
}

/// What bytes decode to.
fn decoded<R: Abort + AllocGlobal>(rt: &R, bytes: &[u8], harts: usize) -> Option<(Tables, Held)> {
    decoded_as(rt, 2, bytes, harts)
}

/// The bytes decode to nothing.
fn expect_nothing<R: Abort + AllocGlobal>(rt: &R, bytes: &[u8], harts: usize) {
    let found = decoded(rt, bytes, harts).is_some();
    expect_eq_at(rt, bytes.len(), found, false);
}

/// What the bytes decode to, if they decode to anything, is saved as these bytes. Answers whether they do.
fn is_exact<R: Abort + AllocGlobal>(rt: &R, bytes: &[u8], harts: usize) -> bool {
    match decoded(rt, bytes, harts) {
        Some((tables, held)) => {
            expect_encoding(rt, &tables, &held, bytes);
            true
        }
        None => false,
    }
}

/// The bytes decode to what is saved as these bytes.
fn expect_decoded<R: Abort + AllocGlobal>(rt: &R, bytes: &[u8], harts: usize) {
    let found = is_exact(rt, bytes, harts);
    expect_eq_at(rt, bytes.len(), found, true);
}

/// The status of what the bytes decode to.
fn expect_status<R: Abort + AllocGlobal>(rt: &R, bytes: &[u8], want: Status) {
    let status = decoded(rt, bytes, 1).map(|(tables, _)| tables.status);
    expect_eq(rt, status, Some(want));
}

/// One byte becomes another.
fn change<R: Abort>(rt: &R, bytes: &mut Vec<u8>, place: usize, byte: u8) {
    assert!(rt; place < bytes.len());
    bytes[place] = byte;
}

/// The bytes of a program that hasn't begun decode, and those of one with everything that tables can hold.
#[test]
fn what_was_saved_is_decoded(rt: HostRuntime) {
    expect_decoded(&rt, bytes_of(&rt, FRESH).as_slice(), 1);
    expect_decoded(&rt, bytes_of(&rt, FRESH).as_slice(), 8);
    expect_decoded(&rt, bytes_of_everything(&rt).as_slice(), 2);
}

/// The first bytes alone decode to nothing.
fn expect_nothing_of_front<R: Abort + AllocGlobal>(rt: &R, bytes: &[u8], size: usize) {
    assert!(rt; size <= bytes.len());
    let (front, _) = bytes.split_at(size);
    expect_nothing(rt, front, 2);
}

/// No byte may be missing, and none may stand after.
#[test]
fn a_byte_more_or_fewer_is_nothing(rt: HostRuntime) {
    let mut bytes = bytes_of_everything(&rt);
    expect_eq(&rt, bytes.len(), 2_015);
    for part in 0..21usize {
        expect_nothing_of_front(&rt, bytes.as_slice(), 100 * part);
    }
    expect_nothing_of_front(&rt, bytes.as_slice(), 2_014);
    push(&rt, &mut bytes, &[0]);
    expect_nothing(&rt, bytes.as_slice(), 2);
}

/// Harts that the program doesn't have are idle.
#[test]
fn thread_on_a_missing_hart_is_nothing(rt: HostRuntime) {
    expect_nothing(&rt, bytes_of_everything(&rt).as_slice(), 1);
    expect_decoded(&rt, bytes_of_everything(&rt).as_slice(), 3);
}

/// 200 bytes of everything that tables can hold, one at a time with one bit turned: each time there is nothing, or what is
/// saved as just these bytes.
#[test]
fn changed_bytes_are_nothing_or_exact(rt: HostRuntime) {
    let mut bytes = bytes_of_everything(&rt);
    for number in 0..200usize {
        let place = number * 41 % 2_015;
        turn_a_bit(&rt, &mut bytes, place, number % 8);
        is_exact(&rt, bytes.as_slice(), 2);
        turn_a_bit(&rt, &mut bytes, place, number % 8);
    }
    expect_decoded(&rt, bytes.as_slice(), 2);
}

/// One bit of one byte, 0 to 7, is turned.
fn turn_a_bit<R: Abort>(rt: &R, bytes: &mut Vec<u8>, place: usize, bit: usize) {
    assert!(rt; place < bytes.len() && bit < 8);
    bytes[place] ^= 1 << bit;
}

/// A byte of the tables of a program that hasn't begun, what it becomes, and whether the bytes decode then. The clock is
/// at 0 to 7, whether the input ended at 8, the status at 9 to 15, the harts at 16 to 23; the record of the thread begins
/// at 25, its flags are at 26, its value at 29, its pc at 33, x1 at 37, its round at 161, its next key at 162, and its values
/// are counted at 163; waits, mutexes, barriers and locks are counted at 165 to 169, whether there may be keys stands at 170,
/// and they are counted at 171, input and output at 172 to 175.
const CHANGES: [(usize, u8, bool); 43] = [
    (0, 1, true),
    (7, 0x7F, true),
    (7, 0x80, false),
    (8, 1, true),
    (8, 2, false),
    (9, 1, true),
    (9, 2, false),
    (9, 3, false),
    (10, 1, false),
    (11, 1, false),
    (12, 1, false),
    (16, 1, true),
    (16, 2, false),
    (17, 1, false),
    (24, 0, false),
    (24, 2, false),
    (25, 0, false),
    (25, 64, true),
    (25, 65, false),
    (26, 0, true),
    (26, 31, true),
    (26, 32, false),
    (26, 36, true),
    (26, 44, false),
    (26, 64, false),
    (26, 128, false),
    (27, 1, false),
    (28, 1, false),
    (29, 1, false),
    (33, 2, false),
    (33, 4, true),
    (37, 0, true),
    (161, 1, false),
    (162, 1, false),
    (163, 1, false),
    (164, 1, false),
    (165, 1, false),
    (166, 1, false),
    (170, 0, true),
    (170, 2, false),
    (171, 1, false),
    (172, 1, false),
    (174, 1, false),
];

/// The bytes of a program that hasn't begun with one of them changed.
fn expect_changed<R: Abort + AllocGlobal>(rt: &R, place: usize, byte: u8, is_there: bool) {
    let mut bytes = bytes_of(rt, FRESH);
    change(rt, &mut bytes, place, byte);
    let found = is_exact(rt, bytes.as_slice(), 1);
    expect_eq_at(rt, (place, byte), found, is_there);
}

/// Each field takes what it may hold, and no more.
#[test]
fn fields_take_what_they_may_hold(rt: HostRuntime) {
    for (place, byte, is_there) in CHANGES.iter() {
        expect_changed(&rt, *place, *byte, *is_there);
    }
}

/// A program with this status that hasn't begun.
fn bytes_with_status<R: Abort + AllocGlobal>(rt: &R, status: &[u8; 7]) -> Vec<u8> {
    let mut bytes = Vec::new(rt.alloc());
    push_zeros(rt, &mut bytes, 8 + 1);
    push(rt, &mut bytes, status);
    push_zeros(rt, &mut bytes, 8);
    push(rt, &mut bytes, INITIAL_THREAD);
    push_zeros(rt, &mut bytes, BEHIND_THREAD);
    push_zeros(rt, &mut bytes, 1 + 2 + 1 + 1 + 2 + 2 + 2);
    bytes
}

/// A program that has exited, and one that has faulted.
#[test]
fn statuses_are_decoded(rt: HostRuntime) {
    let exited = bytes_with_status(&rt, &[1, 0, 0, 4, 3, 2, 1]);
    expect_status(&rt, exited.as_slice(), Status::Exited(0x0102_0304));
    let faulted = bytes_with_status(&rt, &[2, 1, 2, 0x04, 0x10, 0, 0]);
    let illegal = Status::Faulted(1, 0x1004, Cause::Illegal);
    expect_status(&rt, faulted.as_slice(), illegal);
    let at_gate = bytes_with_status(&rt, &[2, 1, 9, 0xF4, 0xFF, 0xFF, 0xFF]);
    let gate = Status::Faulted(1, 0xFFFF_FFF4, Cause::Gate);
    expect_status(&rt, at_gate.as_slice(), gate);
}

/// Statuses that no program has: of a thread that isn't there, a cause above 9, and a pc that is no multiple of 4.
#[test]
fn statuses_of_no_program_are_nothing(rt: HostRuntime) {
    let no_thread = bytes_with_status(&rt, &[2, 2, 2, 0x04, 0x10, 0, 0]);
    expect_nothing(&rt, no_thread.as_slice(), 1);
    let no_cause = bytes_with_status(&rt, &[2, 1, 10, 0x04, 0x10, 0, 0]);
    expect_nothing(&rt, no_cause.as_slice(), 1);
    let no_pc = bytes_with_status(&rt, &[2, 1, 2, 0x06, 0x10, 0, 0]);
    expect_nothing(&rt, no_pc.as_slice(), 1);
}

/// A program whose one thread has ended.
fn bytes_of_ended<R: Abort + AllocGlobal>(rt: &R, status: u8) -> Vec<u8> {
    let mut bytes = Vec::new(rt.alloc());
    push_zeros(rt, &mut bytes, 8 + 1);
    push(rt, &mut bytes, &[status]);
    push_zeros(rt, &mut bytes, 6 + 8);
    push(rt, &mut bytes, &[1, 1, 64, 0, 0, 4, 3, 2, 1]);
    push_zeros(rt, &mut bytes, 32 * 4 + 4 + 1 + 2 + 1 + 1 + 2 + 2 + 2);
    bytes
}

/// All threads have ended only in a program that has exited.
#[test]
fn threads_have_ended_in_an_exited_program(rt: HostRuntime) {
    expect_decoded(&rt, bytes_of_ended(&rt, 1).as_slice(), 1);
    expect_nothing(&rt, bytes_of_ended(&rt, 0).as_slice(), 1);
}

/// No wait.
const NO_WAIT: &[u8] = &[0];

/// No mutex, barrier or read-write lock.
const NO_OBJECT: &[u8] = &[0, 0, 0, 0];

/// There may be keys, and there is none.
const NO_KEY: &[u8] = &[1, 0];

/// Thread 1 waits for input.
const FOR_INPUT: &[u8] = &[
    1, 1, 8, 0, 0, 0, 0, 0, 0, 0, 0, 0, 0, 0, 0, 0, 0, 0, 0, 0, 0,
];

/// Thread 1 waits to lock the mutex at 0x3000.
const FOR_A_MUTEX: &[u8] = &[
    1, 1, 2, 0, 0, 0, 0x30, 0, 0, 0, 0, 0, 0, 0, 0, 0, 0, 0, 0, 0, 0,
];

/// A program whose only thread runs or waits, with these objects and this input.
fn bytes_with<R: Abort + AllocGlobal>(
    rt: &R,
    waits: &[u8],
    objects: &[u8],
    input: &[u8],
) -> Vec<u8> {
    let mut bytes = Vec::new(rt.alloc());
    push_zeros(rt, &mut bytes, 8 + 1 + 7 + 8);
    push(rt, &mut bytes, INITIAL_THREAD);
    push_zeros(rt, &mut bytes, BEHIND_THREAD);
    push(rt, &mut bytes, waits);
    push(rt, &mut bytes, objects);
    push(rt, &mut bytes, NO_KEY);
    push(rt, &mut bytes, input);
    push_zeros(rt, &mut bytes, 2);
    bytes
}

/// Waits, objects and input, and whether they are decoded: who waits for input, and who waits for a mutex, with its kind,
/// its owner and its count.
const WAITING: [(&[u8], &[u8], &[u8], bool); 11] = [
    (FOR_INPUT, NO_OBJECT, &[0, 0], true),
    (FOR_INPUT, NO_OBJECT, &[1, 0, 65], false),
    (NO_WAIT, NO_OBJECT, &[1, 0, 65], true),
    (FOR_A_MUTEX, NO_OBJECT, &[0, 0], false),
    (
        FOR_A_MUTEX,
        &[1, 0, 0, 0x30, 0, 0, 0, 1, 1, 0, 0, 0],
        &[0, 0],
        true,
    ),
    (
        FOR_A_MUTEX,
        &[1, 0, 0, 0x30, 0, 0, 0, 2, 1, 0, 0, 0],
        &[0, 0],
        true,
    ),
    (
        FOR_A_MUTEX,
        &[1, 0, 0, 0x30, 0, 0, 1, 1, 1, 0, 0, 0],
        &[0, 0],
        false,
    ),
    (
        FOR_A_MUTEX,
        &[1, 0, 0, 0x30, 0, 0, 1, 2, 7, 0, 0, 0],
        &[0, 0],
        true,
    ),
    (
        FOR_A_MUTEX,
        &[1, 0, 0, 0x30, 0, 0, 2, 0, 0, 0, 0, 0],
        &[0, 0],
        false,
    ),
    (
        FOR_A_MUTEX,
        &[1, 0, 4, 0x30, 0, 0, 0, 2, 1, 0, 0, 0],
        &[0, 0],
        false,
    ),
    (
        FOR_A_MUTEX,
        &[1, 0, 0, 0x30, 0, 0, 2, 2, 1, 0, 0, 0],
        &[0, 0],
        true,
    ),
];

/// Mutexes, barriers and locks, and whether they are decoded.
const HOLDING: [(&[u8], bool); 26] = [
    // A mutex: normal and free, of kind 3, of owner 64 and 65, counted wrongly.
    (&[1, 0, 0, 0x30, 0, 0, 0, 0, 0, 0, 0, 0], false),
    (&[1, 0, 0, 0x30, 0, 0, 1, 0, 0, 0, 0, 0], true),
    (&[1, 0, 0, 0x30, 0, 0, 3, 0, 0, 0, 0, 0], false),
    (&[1, 0, 0, 0x30, 0, 0, 0, 64, 1, 0, 0, 0], true),
    (&[1, 0, 0, 0x30, 0, 0, 0, 65, 1, 0, 0, 0], false),
    (&[1, 0, 0, 0x30, 0, 0, 0, 1, 2, 0, 0, 0], false),
    (&[1, 0, 0, 0x30, 0, 0, 1, 1, 0xFF, 0xFF, 0, 0], true),
    (&[1, 0, 0, 0x30, 0, 0, 1, 1, 0, 0, 0, 0], false),
    (&[1, 0, 0, 0x30, 0, 0, 1, 0, 1, 0, 0, 0], false),
    // Two mutexes by rising, equal and falling addresses.
    (
        &[2, 0, 0, 1, 0, 0, 2, 0, 0, 0, 1, 1, 0, 0, 2, 0, 0, 0, 0, 0],
        true,
    ),
    (
        &[2, 0, 1, 1, 0, 0, 2, 0, 0, 0, 1, 1, 0, 0, 2, 0, 0, 0, 0, 0],
        false,
    ),
    (
        &[2, 0, 2, 1, 0, 0, 2, 0, 0, 0, 1, 1, 0, 0, 2, 0, 0, 0, 0, 0],
        false,
    ),
    // A barrier for one thread, for 2^32 - 1, and for none.
    (&[0, 0, 1, 0, 0x30, 0, 0, 1, 0, 0, 0, 0], true),
    (&[0, 0, 1, 0, 0x30, 0, 0, 0xFF, 0xFF, 0xFF, 0xFF, 0], true),
    (&[0, 0, 1, 0, 0x30, 0, 0, 0, 0, 0, 0, 0], false),
    // A lock that nobody holds, and that thread 64 or 65 writes under.
    (&[0, 0, 0, 1, 0, 0x30, 0, 0, 0, 0], false),
    (&[0, 0, 0, 1, 0, 0x30, 0, 0, 64, 0], true),
    (&[0, 0, 0, 1, 0, 0x30, 0, 0, 65, 0], false),
    // Readers: 1 and 64, by falling and by equal ids, 0 and 65, without a read lock, beside a writer.
    (
        &[0, 0, 0, 1, 0, 0x30, 0, 0, 0, 2, 1, 1, 0, 64, 0xFF, 0xFF],
        true,
    ),
    (&[0, 0, 0, 1, 0, 0x30, 0, 0, 0, 2, 64, 1, 0, 1, 1, 0], false),
    (&[0, 0, 0, 1, 0, 0x30, 0, 0, 0, 2, 1, 1, 0, 1, 1, 0], false),
    (&[0, 0, 0, 1, 0, 0x30, 0, 0, 0, 1, 0, 1, 0], false),
    (&[0, 0, 0, 1, 0, 0x30, 0, 0, 0, 1, 65, 1, 0], false),
    (&[0, 0, 0, 1, 0, 0x30, 0, 0, 0, 1, 1, 0, 0], false),
    (&[0, 0, 0, 1, 0, 0x30, 0, 0, 2, 1, 1, 1, 0], false),
    (&[0, 0, 0, 1, 0, 0x30, 0, 0, 0, 1, 1, 1, 0], true),
];

/// What is decoded of waits, objects and input is exact, and there where it is to be.
fn expect_case<R: Abort + AllocGlobal>(
    rt: &R,
    waits: &[u8],
    objects: &[u8],
    input: &[u8],
    is_there: bool,
) {
    let bytes = bytes_with(rt, waits, objects, input);
    let found = is_exact(rt, bytes.as_slice(), 1);
    expect_eq_at(rt, objects.len(), found, is_there);
}

/// Nobody waits where it needn't.
#[test]
fn waits_are_decoded_where_they_may_be(rt: HostRuntime) {
    for (waits, objects, input, is_there) in WAITING.iter() {
        expect_case(&rt, waits, objects, input, *is_there);
    }
}

/// Each kind of object has the numbers that it may have.
#[test]
fn objects_are_decoded_as_they_may_be(rt: HostRuntime) {
    for (objects, is_there) in HOLDING.iter() {
        expect_case(&rt, NO_WAIT, objects, &[0, 0], *is_there);
    }
}

/// Keys 0, without a destructor, and 31, with one at 0x2004.
const TWO_KEYS: &[u8] = &[1, 2, 0, 0, 0, 0, 0, 0, 0, 0, 31, 0, 0, 0, 0x04, 0x20, 0, 0];

/// A program whose only thread has these flags, unwinds with 0, and ends its record with these bytes; then these keys.
fn bytes_with_values<R: Abort + AllocGlobal>(
    rt: &R,
    flags: u8,
    values: &[u8],
    keys: &[u8],
) -> Vec<u8> {
    let mut bytes = Vec::new(rt.alloc());
    push_zeros(rt, &mut bytes, 8 + 1 + 7 + 8);
    push(rt, &mut bytes, &[1]);
    push(rt, &mut bytes, &[1, flags, 0, 0, 0, 0, 0, 0, 0, 0x10]);
    push_zeros(rt, &mut bytes, 2 + 31 * 4);
    push(rt, &mut bytes, values);
    push_zeros(rt, &mut bytes, 1);
    push(rt, &mut bytes, NO_OBJECT);
    push(rt, &mut bytes, keys);
    push_zeros(rt, &mut bytes, 2 + 2);
    bytes
}

/// No value, in no round.
const NO_VALUE: &[u8] = &[0, 0, 0, 0];

/// Keys, and whether they are decoded.
const KEYS: [(&[u8], bool); 15] = [
    (NO_KEY, true),
    (TWO_KEYS, true),
    // No keys for good; with one key all the same; a mark of 2.
    (&[0, 0], true),
    (&[0, 1, 0, 0, 0, 0, 0, 0, 0, 0], false),
    (&[2, 0], false),
    // Key 31, 32, and 256; key 0 with 2^24 more.
    (&[1, 1, 31, 0, 0, 0, 0, 0, 0, 0], true),
    (&[1, 1, 32, 0, 0, 0, 0, 0, 0, 0], false),
    (&[1, 1, 0, 1, 0, 0, 0, 0, 0, 0], false),
    (&[1, 1, 0, 0, 0, 1, 0, 0, 0, 0], false),
    // Destructors at 4, at 2^32 - 4, and at 2.
    (&[1, 1, 0, 0, 0, 0, 4, 0, 0, 0], true),
    (&[1, 1, 0, 0, 0, 0, 0xFC, 0xFF, 0xFF, 0xFF], true),
    (&[1, 1, 0, 0, 0, 0, 2, 0, 0, 0], false),
    // Two keys by falling and by equal numbers; more than are counted.
    (
        &[1, 2, 31, 0, 0, 0, 0, 0, 0, 0, 0, 0, 0, 0, 0, 0, 0, 0],
        false,
    ),
    (
        &[1, 2, 9, 0, 0, 0, 0, 0, 0, 0, 9, 0, 0, 0, 0, 0, 0, 0],
        false,
    ),
    (&[1, 0, 0, 0, 0, 0, 0, 0, 0, 0], false),
];

/// Flags, the end of the thread's record, and whether it is decoded in a program with two keys: flags 1 are the initial
/// thread's, and 37 those of it where it unwinds.
const VALUES: [(u8, &[u8], bool); 18] = [
    (1, &[0, 0, 1, 0, 0, 0, 0, 0, 7, 0, 0, 0], true),
    (1, &[0, 0, 1, 0, 31, 0, 0, 0, 7, 0, 0, 0], true),
    // Under a number that is no key, and under 32; a value of 0.
    (1, &[0, 0, 1, 0, 1, 0, 0, 0, 7, 0, 0, 0], false),
    (1, &[0, 0, 1, 0, 32, 0, 0, 0, 7, 0, 0, 0], false),
    (1, &[0, 0, 1, 0, 0, 0, 0, 0, 0, 0, 0, 0], false),
    // Two values by rising, falling and equal keys.
    (
        1,
        &[0, 0, 2, 0, 0, 0, 0, 0, 7, 0, 0, 0, 31, 0, 0, 0, 8, 0, 0, 0],
        true,
    ),
    (
        1,
        &[0, 0, 2, 0, 31, 0, 0, 0, 7, 0, 0, 0, 0, 0, 0, 0, 8, 0, 0, 0],
        false,
    ),
    (
        1,
        &[0, 0, 2, 0, 31, 0, 0, 0, 7, 0, 0, 0, 31, 0, 0, 0, 8, 0, 0, 0],
        false,
    ),
    // The byte after the count.
    (1, &[0, 0, 0, 1], false),
    // A thread that doesn't unwind is in no round.
    (1, &[1, 0, 0, 0], false),
    (1, &[0, 1, 0, 0], false),
    // One that does: before the first round, in rounds 1, 4 and 5, up to key 32 and 33.
    (37, NO_VALUE, true),
    (37, &[0, 1, 0, 0], false),
    (37, &[1, 0, 0, 0], true),
    (37, &[4, 32, 0, 0], true),
    (37, &[5, 0, 0, 0], false),
    (37, &[1, 33, 0, 0], false),
    (37, &[1, 1, 1, 0, 31, 0, 0, 0, 7, 0, 0, 0], true),
];

/// What is decoded of values and keys is exact, and there where it is to be.
fn expect_values<R: Abort + AllocGlobal>(
    rt: &R,
    place: usize,
    flags: u8,
    values: &[u8],
    keys: &[u8],
    is_there: bool,
) {
    let bytes = bytes_with_values(rt, flags, values, keys);
    let found = is_exact(rt, bytes.as_slice(), 1);
    expect_eq_at(rt, place, found, is_there);
}

/// Keys are 0 to 31 by rising number, destructors are multiples of 4, and who may have no key has none.
#[test]
fn keys_are_decoded_as_they_may_be(rt: HostRuntime) {
    for (place, (keys, is_there)) in KEYS.iter().enumerate() {
        expect_values(&rt, place, 1, NO_VALUE, keys, *is_there);
    }
}

/// Values are under keys, and only a thread that unwinds is in a round.
#[test]
fn values_are_decoded_as_they_may_be(rt: HostRuntime) {
    for (place, (flags, values, is_there)) in VALUES.iter().enumerate() {
        expect_values(&rt, place, *flags, values, TWO_KEYS, *is_there);
    }
}

/// Who has ended has no values and no round.
#[test]
fn an_ended_thread_has_no_values(rt: HostRuntime) {
    let mut bytes = bytes_of_ended(&rt, 1);
    expect_decoded(&rt, bytes.as_slice(), 1);
    change(&rt, &mut bytes, 161, 1);
    expect_nothing(&rt, bytes.as_slice(), 1);
    change(&rt, &mut bytes, 161, 0);
    change(&rt, &mut bytes, 162, 1);
    expect_nothing(&rt, bytes.as_slice(), 1);
}

/// The tables of version 1 are those of a program that may have no keys; neither version is read as the other.
#[test]
fn tables_of_version_1_have_no_keys(rt: HostRuntime) {
    let old = bytes_of(&rt, OLD_FRESH);
    expect_eq(&rt, old.len(), 170);
    let mut want = bytes_of(&rt, FRESH);
    assert!(&rt; decoded_as(&rt, 1, want.as_slice(), 1).is_none());
    change(&rt, &mut want, 170, 0);
    match decoded_as(&rt, 1, old.as_slice(), 1) {
        Some((tables, held)) => expect_encoding(&rt, &tables, &held, want.as_slice()),
        None => panic!(&rt; "version 1 isn't read"),
    }
    expect_nothing(&rt, old.as_slice(), 1);
}

/// The record of a thread with 16 handlers and a value under each key, in no round.
fn push_full_thread<R: Abort>(rt: &R, bytes: &mut Vec<u8>, id: u8) {
    push(rt, bytes, &[id, if id == 1 { 1 } else { 0 }, 16, 0]);
    push_zeros(rt, bytes, 4 + 32 * 4 + 16 * 8);
    push(rt, bytes, &[0, 0, 32, 0]);
    for key in 0..32u8 {
        push(rt, bytes, &[key, 0, 0, 0, id, 0, 0, 0]);
    }
}

/// 64 such threads, none of them on one of eight harts.
fn push_full_threads<R: Abort>(rt: &R, bytes: &mut Vec<u8>) {
    push_zeros(rt, bytes, 8 + 1 + 7 + 8);
    push(rt, bytes, &[64]);
    for id in 1..=64u8 {
        push_full_thread(rt, bytes, id);
    }
}

/// Each thread waits for a moment.
fn push_full_waits<R: Abort>(rt: &R, bytes: &mut Vec<u8>) {
    push(rt, bytes, &[64]);
    for id in 1..=64u8 {
        push(rt, bytes, &[id, 9, 0, 1]);
        push_zeros(rt, bytes, 4 + 4);
        push(rt, bytes, &[1, 0, 0, 0, 0, 0, 0, 0]);
    }
}

/// 256 mutexes of thread 1, at rising addresses, and 64 barriers.
fn push_full_mutexes<R: Abort>(rt: &R, bytes: &mut Vec<u8>) {
    push(rt, bytes, &[0, 1]);
    for place in 0..=255u8 {
        push(rt, bytes, &[0, place, 1, 0, 0, 1, 1, 0]);
    }
    push(rt, bytes, &[64]);
    for place in 0..64u8 {
        push(rt, bytes, &[0, place, 2, 0, 1, 0, 0, 0]);
    }
}

/// 64 locks under which all threads read.
fn push_full_rwlocks<R: Abort>(rt: &R, bytes: &mut Vec<u8>) {
    push(rt, bytes, &[64]);
    for place in 0..64u8 {
        push(rt, bytes, &[0, place, 3, 0, 0, 64]);
        for id in 1..=64u8 {
            push(rt, bytes, &[id, 1, 0]);
        }
    }
}

/// 32 keys, 4,096 bytes of input and 16,384 of output.
fn push_full_ends<R: Abort>(rt: &R, bytes: &mut Vec<u8>) {
    push(rt, bytes, &[1, 32]);
    for key in 0..32u8 {
        push(rt, bytes, &[key, 0, 0, 0, 0, 0x20, 0, 0]);
    }
    push(rt, bytes, &[0, 0x10]);
    push_zeros(rt, bytes, 4_096);
    push(rt, bytes, &[0, 0x40]);
    push_zeros(rt, bytes, 16_384);
}

/// The longest tables: as many records as there may be, each as long as it may be.
#[test]
fn the_longest_tables_have_70_820_bytes(rt: HostRuntime) {
    let mut bytes = Vec::new(rt.alloc());
    push_full_threads(&rt, &mut bytes);
    push_full_waits(&rt, &mut bytes);
    push_full_mutexes(&rt, &mut bytes);
    push_full_rwlocks(&rt, &mut bytes);
    push_full_ends(&rt, &mut bytes);
    expect_eq(&rt, bytes.len(), 70_820);
    expect_eq(&rt, LONGEST_TABLES, 70_820);
    expect_decoded(&rt, bytes.as_slice(), 8);
}
