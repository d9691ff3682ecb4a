//! Worked values of recovery: what a changed disk recovers to, and what a disk that fails leaves.

use crate::changes::{DAMAGED, Row, UNKNOWN, expect_rows, outcome};
use crate::expect::{expect_eq, expect_eq_at, lay, memory_disk, stopping_disk};
use crate::small_disk::{formatted, recovered, recovered_in_memory, recovery_outcome};
use ckrt_disk::{Disk, FailingDisk, MemoryDisk};
use ckrt_recovery::RecoverFault;
use ckrt_test_storage::SIZE;
use std::process::Abort;

const FIRST_AREA: usize = 4_096;

const SECOND_AREA: usize = 172_032;

const JOURNAL: usize = 339_968;

/// One event: Place(0, 1).
const PLACED: [u8; 7] = [0xa5, 3, 0, 1, 0, 1, 0];

/// A program that puts 1, 2, 3 and so on: addi x5, x5, 1; addi x10, x5, 0; addi x17, x0, 2; ecall; jal x0, -16.
const COUNTS: [u8; 20] = [
    0x93, 0x82, 0x12, 0x00, 0x13, 0x85, 0x02, 0x00, 0x93, 0x08, 0x20, 0x00, 0x73, 0x00, 0x00, 0x00,
    0x6f, 0xf0, 0x1f, 0xff,
];

const NOT_FORMATTED: Result<(u64, u64), RecoverFault> = Err(RecoverFault::NotFormatted);

/// Changes of a disk that was just formatted.
const CHANGES: [Row; 28] = [
    (&[], Ok((0, 1))),
    // The superblock.
    (&[(0, &[0])], NOT_FORMATTED),
    (&[(8, &[0x44])], NOT_FORMATTED),
    (&[(8, &[0x44]), (16, &[9])], NOT_FORMATTED),
    (&[(16, &[9])], UNKNOWN),
    (&[(16, &[2])], UNKNOWN),
    (&[(16, &[1])], Ok((0, 1))),
    (&[(16, &[9]), (20, &[15])], UNKNOWN),
    (&[(20, &[15])], DAMAGED),
    (&[(24, &[9])], DAMAGED),
    (&[(28, &[1, 0x10])], DAMAGED),
    // Area 0: closed, generation 0, versions 9, 3 and 0, version 1 of tables that aren't, tables of 177 and of 98,305 bytes.
    (&[(FIRST_AREA, &[0])], DAMAGED),
    (&[(FIRST_AREA + 8, &[0])], DAMAGED),
    (&[(FIRST_AREA + 36, &[9])], UNKNOWN),
    (&[(FIRST_AREA + 36, &[3])], UNKNOWN),
    (&[(FIRST_AREA + 36, &[0])], UNKNOWN),
    (&[(FIRST_AREA + 36, &[1])], DAMAGED),
    (&[(FIRST_AREA + 8, &[0]), (FIRST_AREA + 36, &[9])], DAMAGED),
    (&[(FIRST_AREA + 32, &[0xb1])], DAMAGED),
    (&[(FIRST_AREA + 32, &[1, 0x80, 1])], DAMAGED),
    // Area 1: open, with generation 0 and with area 0's.
    (&[(SECOND_AREA, &[0xa5])], Ok((0, 1))),
    (&[(SECOND_AREA, &[0xa5]), (SECOND_AREA + 8, &[1])], DAMAGED),
    // Batches in journal 0: one; a second gate that is open, with no batch after it.
    (&[(JOURNAL, &PLACED)], Ok((1, 1))),
    (&[(JOURNAL, &[0xa5, 3, 0, 1, 0, 1, 0xa5])], DAMAGED),
    // Run on an idle hart, Tick of 0, no room for a gate after 4,093 bytes.
    (&[(JOURNAL, &[0xa5, 4, 0, 2, 0, 1, 0, 0])], DAMAGED),
    (&[(JOURNAL, &[0xa5, 5, 0, 5, 0, 0, 0, 0, 0])], DAMAGED),
    (&[(JOURNAL, &[0xa5, 0xfd, 0x0f])], DAMAGED),
    // 2^62 - 1 events before the first of the journal.
    (
        &[
            (
                FIRST_AREA + 16,
                &[0xff, 0xff, 0xff, 0xff, 0xff, 0xff, 0xff, 0x3f],
            ),
            (JOURNAL, &PLACED),
        ],
        DAMAGED,
    ),
];

#[test]
fn each_change_has_its_answer(rt: HostRuntime) {
    expect_rows(&rt, formatted(&rt, &[]).as_slice(), &CHANGES);
}

/// A formatted disk of which only the first bytes are left.
fn expect_cut<R: Abort + AllocGlobal>(rt: &R, size: usize, fault: RecoverFault) {
    let mut bytes = formatted(rt, &[]);
    bytes.truncate(size);
    expect_eq_at(rt, size, outcome(rt, bytes), Err(fault));
}

#[test]
fn a_cut_disk_recovers_to_nothing(rt: HostRuntime) {
    expect_cut(&rt, 0, RecoverFault::NotFormatted);
    expect_cut(&rt, 31, RecoverFault::NotFormatted);
    expect_cut(&rt, 32, RecoverFault::Damaged);
    expect_cut(&rt, 4_096, RecoverFault::Damaged);
    expect_cut(&rt, SIZE - 1, RecoverFault::Damaged);
}

/// A batch that places a thread, runs it 17 times for 65,535 steps and once for 5.
fn lay_long_batch<R: Abort>(rt: &R, bytes: &mut Vec<u8>) {
    lay(rt, bytes, JOURNAL, &[0xa5, 75, 0, 1, 0, 1]);
    for place in 0..17usize {
        lay(rt, bytes, JOURNAL + 6 + 4 * place, &[2, 0, 0xff, 0xff]);
    }
    lay(rt, bytes, JOURNAL + 74, &[2, 0, 5, 0]);
}

/// 17 runs put 1,024 bytes each, and one more puts the next: of 17,409 bytes the first 1,025 are dropped.
#[test]
fn the_last_output_is_held(rt: HostRuntime) {
    let mut bytes = formatted(&rt, &COUNTS);
    lay_long_batch(&rt, &mut bytes);
    let mut session = recovered_in_memory(&rt, bytes);
    expect_eq(&rt, session.acknowledged(), 19);
    expect_eq(&rt, session.confirmed(), 1_025);
    expect_eq(&rt, session.released(), 17_409);
    let (offset, output) = session.take_output();
    expect_eq(&rt, offset, 1_025);
    expect_eq(&rt, output.len(), 16_384);
    assert!(rt; output.starts_with(&[2, 3, 4]) && output.ends_with(&[0, 1]));
}

/// Why a disk isn't recovered, if it isn't, and the disk.
fn fault_of<R: AllocGlobal, D: Disk>(rt: &R, disk: D) -> (Option<RecoverFault>, D) {
    match recovery_outcome(rt, disk) {
        Ok(session) => (None, session.into_disk()),
        Err(unrecovered) => (Some(unrecovered.fault), unrecovered.disk),
    }
}

/// Recovery of a disk that stops at a call, and the fault, if the call is made. It makes one write or sync.
fn expect_stop<R: Abort + AllocGlobal>(rt: &R, at_call: u64, want: Option<RecoverFault>) {
    let disk = stopping_disk(rt, formatted(rt, &[]), at_call, &[]);
    let (fault, disk) = fault_of(rt, disk);
    expect_eq_at(rt, at_call, fault, want);
    expect_eq_at(rt, at_call, disk.calls(), 1);
}

/// Its one write or sync is the sync at its start.
#[test]
fn a_stop_at_the_first_call_is_device(rt: HostRuntime) {
    expect_stop(&rt, 0, None);
    expect_stop(&rt, 1, Some(RecoverFault::Device));
    expect_stop(&rt, 2, None);
}

/// The disk is recovered, with no event.
fn expect_fresh<R: Abort + AllocGlobal, D: Disk + Drop>(rt: &R, disk: D) {
    expect_eq(rt, recovered(rt, disk).acknowledged(), 0);
}

/// Why a disk isn't recovered at first. It is afterwards.
fn first_fault<R: Abort + AllocGlobal, D: Disk + Drop>(rt: &R, disk: D) -> Option<RecoverFault> {
    let (fault, disk) = fault_of(rt, disk);
    expect_fresh(rt, disk);
    fault
}

/// A formatted disk that fails at a call.
fn failing<R: Abort + AllocGlobal>(rt: &R, at_call: u64) -> FailingDisk<MemoryDisk> {
    FailingDisk::new(memory_disk(rt, formatted(rt, &[])), at_call)
}

/// Recovery of a disk that fails at a call, and again without a failure.
fn expect_failure<R: Abort + AllocGlobal>(rt: &R, at_call: u64) {
    let fault = first_fault(rt, failing(rt, at_call));
    expect_eq_at(rt, at_call, fault, Some(RecoverFault::Device));
}

/// A sync, and then reads of superblock, both headers, tables, memory and one gate. The disk recovers afterwards.
#[test]
fn each_call_that_fails_is_device(rt: HostRuntime) {
    for at_call in 1..8u64 {
        expect_failure(&rt, at_call);
    }
    expect_fresh(&rt, failing(&rt, 8));
}
