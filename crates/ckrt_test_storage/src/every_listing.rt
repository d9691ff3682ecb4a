//! A listing with a line of every kind, written down from the format.

use crate::EVERYTHING;
use crate::expect::{bytes_of, expect_bytes, expect_eq};
use ckrt_calls::{Status, Tables};
use ckrt_inspect::{write_listing, write_listing_with_code};
use ckrt_machine::Machine;
use ckrt_memory::Memory;
use ckrt_rv32i::Cause;
use ckrt_tables::decode_tables;
use std::process::Abort;

/// A memory of zeros but for one instruction, at 0x1004.
fn memory<R: Abort + AllocGlobal>(rt: &R) -> Memory {
    let image = [0, 0, 0, 0, 0x13, 0x05, 0x10, 0x04];
    match Memory::new(rt.alloc(), 16, &image) {
        Ok(memory) => memory,
        Err(error) => panic!(rt; "{error}"),
    }
}

/// Everything that tables can hold, but for a wait for input, of a program on two harts.
fn tables_with_everything<R: Abort + AllocGlobal>(rt: &R) -> Tables {
    let bytes = bytes_of(rt, EVERYTHING);
    match decode_tables(rt.alloc(), 2, bytes.as_slice(), 2) {
        Ok(Some((tables, _))) => tables,
        _ => panic!(rt; "the tables are decoded"),
    }
}

fn machine<R: Abort + AllocGlobal>(rt: &R, tables: Tables) -> Machine {
    assert!(rt; tables.is_well_formed());
    Machine::from_parts(memory(rt), tables)
}

const LISTED: &[u8] =
    b"events 4611686018427387903\nclock 5\nstatus running\nhart 0 idle\nhart 1 1\n\
thread 1 joinable ready pc 00001004 enabled deferred pending handlers 2\n\
thread 2 joinable blocked pc 00001008 enabled deferred none handlers 0\n\
thread 3 joinable blocked pc 0000100c enabled asynchronous none handlers 0\n\
thread 4 joinable blocked pc 00001010 enabled deferred none handlers 0\n\
thread 5 joinable blocked pc 00001014 disabled deferred none handlers 0 unwinding 4294967295\n\
thread 6 joinable blocked pc 00001018 enabled deferred none handlers 0\n\
thread 7 joinable blocked pc 0000101c enabled deferred none handlers 0\n\
thread 8 joinable blocked pc 00001020 enabled deferred none handlers 0\n\
thread 9 joinable blocked pc 00001024 enabled deferred none handlers 0\n\
thread 10 detached ready pc 00001028 disabled deferred none handlers 0\n\
thread 11 joinable blocked pc 0000102c enabled deferred none handlers 0\n\
thread 12 ended 16909060\n\
wait 11 sleep until 9\n\
wait 3 mutex 00003000 until 8589934593\n\
wait 2 join 3\n\
wait 4 retake 00003000 110\n\
wait 5 retake 00003000 unwind\n\
wait 6 cond 00003010 00003000\n\
wait 7 barrier 00003020\n\
wait 8 read 00003030\n\
wait 9 write 00003040\n\
mutex 00003000 recursive 1 3\n\
mutex 00003004 errorcheck 0 0\n\
mutex 00003008 normal 10 1\n\
barrier 00003020 3\n\
rwlock 00003030 writer 1\n\
rwlock 00003040 readers 1:2 10:1\n\
key 0 00000000\n\
key 7 00002008\n\
key 31 fffffffc\n\
value 1 0 9\n\
value 1 31 16909060\n\
value 5 7 4294967295\n";

#[test]
fn everything_is_listed(rt: HostRuntime) {
    let machine = machine(&rt, tables_with_everything(&rt));
    let mut writer = Vec::new(rt.alloc());
    let done = write_listing(rt.alloc(), 4_611_686_018_427_387_903, &machine, &mut writer);
    expect_eq(&rt, done, Ok(()));
    expect_bytes(&rt, writer.as_slice(), LISTED);
}

/// How a program that has only begun, with this status, is listed.
fn expect_status<R: Abort + AllocGlobal>(rt: &R, status: Status, want: &[u8]) {
    let mut tables = Tables::new(rt.alloc(), 16, 2).expect(rt, "memory for tables");
    tables.status = status;
    let machine = machine(rt, tables);
    let mut writer = Vec::new(rt.alloc());
    let done = write_listing_with_code(rt.alloc(), 0, &machine, &mut writer);
    expect_eq(rt, done, Ok(()));
    expect_bytes(rt, writer.as_slice(), want);
}

#[test]
fn each_status_is_listed_with_code(rt: HostRuntime) {
    expect_status(
        &rt,
        Status::Exited(4_294_967_295),
        b"events 0\nclock 0\nstatus exit 4294967295\nhart 0 idle\nhart 1 idle\n\
thread 1 joinable ready pc 00001000 enabled deferred none handlers 0\n\
\x20 00001000 00000000 illegal\n\
\x20 00001004 04100513 addi x10, x0, 65\n\
\x20 00001008 00000000 illegal\n\
\x20 0000100c 00000000 illegal\n",
    );
    expect_status(
        &rt,
        Status::Faulted(1, 0x1f0c, Cause::StoreMisaligned),
        b"events 0\nclock 0\nstatus fault 1 00001f0c StoreMisaligned\nhart 0 idle\nhart 1 idle\n\
thread 1 joinable ready pc 00001000 enabled deferred none handlers 0\n\
\x20 00001000 00000000 illegal\n\
\x20 00001004 04100513 addi x10, x0, 65\n\
\x20 00001008 00000000 illegal\n\
\x20 0000100c 00000000 illegal\n",
    );
}
