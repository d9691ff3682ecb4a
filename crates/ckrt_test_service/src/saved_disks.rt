//! Disks whose area holds saved tables: the program that recovers from them goes on.
//!
//! The guest calls getc, and then putc with what it got. The tables are those that it has while it waits, written by hand
//! from the format; that "xy" was put before is made up.

use crate::expect::{expect_eq, lay, memory_disk, push, push_zeros};
use crate::service::expect_replies;
use crate::small_disk::{formatted, recovered_in_memory, recovery_outcome};
use ckrt_recovery::RecoverFault;
use std::process::Abort;

/// addi x17, x0, 3; ecall; addi x17, x0, 2; ecall.
const ECHO: [u8; 16] = [
    0x93, 0x08, 0x30, 0x00, 0x73, 0x00, 0x00, 0x00, 0x93, 0x08, 0x20, 0x00, 0x73, 0x00, 0x00, 0x00,
];

/// Where area 0 begins, and its tables.
const AREA: usize = 4_096;

const TABLES: usize = 8_192;

/// After 2 events, with the first 5 bytes of output confirmed, and 192 bytes of tables in version 1: the header from its
/// byte 16 on.
const OLD_FIELDS: [u8; 24] = [
    2, 0, 0, 0, 0, 0, 0, 0, 5, 0, 0, 0, 0, 0, 0, 0, 192, 0, 0, 0, 1, 0, 0, 0,
];

/// The same with 198 bytes of tables in version 2.
const FIELDS: [u8; 24] = [
    2, 0, 0, 0, 0, 0, 0, 0, 5, 0, 0, 0, 0, 0, 0, 0, 198, 0, 0, 0, 2, 0, 0, 0,
];

/// Thread 1 waits for input after its first call, on no hart, and "xy" is held. What version 2 has more: the end of the
/// thread's record, and the keys.
fn tables_with<R: Abort + AllocGlobal>(rt: &R, values: &[u8], keys: &[u8]) -> Vec<u8> {
    let mut bytes = Vec::new(rt.alloc());
    // Clock 0, input open, running, harts idle.
    push_zeros(rt, &mut bytes, 24);
    // One thread: id 1, initial, no handler, pc 0x1008, x1 the return gate, x2 the memory's end, x17 the call's number.
    push(rt, &mut bytes, &[1, 1, 1, 0, 0, 0, 0, 0, 0]);
    push(
        rt,
        &mut bytes,
        &[8, 0x10, 0, 0, 0xf0, 0xff, 0xff, 0xff, 0, 0, 1, 0],
    );
    push_zeros(rt, &mut bytes, 14 * 4);
    push(rt, &mut bytes, &[3, 0, 0, 0]);
    push_zeros(rt, &mut bytes, 14 * 4);
    push(rt, &mut bytes, values);
    // One wait: thread 1, for input.
    push(rt, &mut bytes, &[1, 1, 8]);
    push_zeros(rt, &mut bytes, 18);
    // No mutex, barrier or lock.
    push_zeros(rt, &mut bytes, 4);
    push(rt, &mut bytes, keys);
    // No input; two bytes held.
    push(rt, &mut bytes, &[0, 0, 2, 0, b'x', b'y']);
    bytes
}

/// In version 2: no value, and there may be keys.
fn waiting_tables<R: Abort + AllocGlobal>(rt: &R) -> Vec<u8> {
    tables_with(rt, &[0, 0, 0, 0], &[1, 0])
}

/// In version 1.
fn old_waiting_tables<R: Abort + AllocGlobal>(rt: &R) -> Vec<u8> {
    tables_with(rt, &[], &[])
}

/// A disk whose area 0 holds these tables.
fn disk_with<R: Abort + AllocGlobal>(rt: &R, fields: &[u8], tables: &[u8]) -> Vec<u8> {
    let mut image = formatted(rt, &ECHO);
    lay(rt, &mut image, AREA + 16, fields);
    lay(rt, &mut image, TABLES, tables);
    image
}

/// The program on this disk gets a byte, puts it, and is recovered once more.
fn expect_goes_on<R: Abort + AllocGlobal>(rt: &R, image: Vec<u8>) {
    let mut session = recovered_in_memory(rt, image);
    expect_eq(rt, session.acknowledged(), 2);
    expect_eq(rt, session.generation(), 1);
    expect_eq(rt, session.confirmed(), 5);
    expect_eq(rt, session.released(), 7);
    expect_replies(
        rt,
        &mut session,
        b"run 0 1\nin 5a\nplace 0 1\nrun 0 2\ncommit\n",
        b"out 5 7879\nno 5 HartIdle\nok 3 taken 1\nok 4 placed\nok 5 ran 2 on\nack 5\nout 7 5a\n",
    );
    // The next life has both the saved output and what was put since, none of which the disk knows to be confirmed.
    let mut next = recovered_in_memory(rt, session.into_disk().into_image());
    expect_eq(rt, next.acknowledged(), 5);
    expect_replies(rt, &mut next, b"", b"out 5 78795a\n");
}

#[test]
fn a_saved_program_goes_on(rt: HostRuntime) {
    let tables = waiting_tables(&rt);
    expect_goes_on(&rt, disk_with(&rt, &FIELDS, tables.as_slice()));
}

#[test]
fn a_saved_program_of_version_1_goes_on(rt: HostRuntime) {
    let tables = old_waiting_tables(&rt);
    expect_goes_on(&rt, disk_with(&rt, &OLD_FIELDS, tables.as_slice()));
}

/// Why nothing is recovered from a disk with these tables.
fn fault_of<R: Abort + AllocGlobal>(rt: &R, tables: &[u8]) -> Option<RecoverFault> {
    match recovery_outcome(rt, memory_disk(rt, disk_with(rt, &FIELDS, tables))) {
        Ok(_) => None,
        Err(unrecovered) => Some(unrecovered.fault),
    }
}

#[test]
fn tables_of_no_program_are_damaged(rt: HostRuntime) {
    let mut tables = waiting_tables(&rt);
    expect_eq(&rt, fault_of(&rt, tables.as_slice()), None);
    // Another thread than any in the table waits.
    lay(&rt, &mut tables, 166, &[2]);
    let damaged = Some(RecoverFault::Damaged);
    expect_eq(&rt, fault_of(&rt, tables.as_slice()), damaged);
}
