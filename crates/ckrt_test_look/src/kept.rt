//! Runs that are kept on disks in memory.

use crate::expect::{expect_eq, image_of};
use crate::hunts::{SHAPE, outcomes_of};
use crate::outcomes::RACES;
use ckrt_calls::Status;
use ckrt_disk::{Disk, MemoryDisk};
use ckrt_hunt_schedules::{KeptDisk, Outcome, Plan, Row, SeedFault, keep_seed};
use ckrt_recovery::{Config, FormatFault, Session, recover};
use ckrt_schedule::ScheduleEnd;
use std::process::Abort;

/// The configuration of the disks.
const CONFIG: Config = Config {
    pages: 16,
    harts: 2,
    journal: 65_536,
};

/// How many bytes a disk has.
const SIZE: usize = 1_048_576;

/// The session that a disk gives.
fn session_of<R: Abort + AllocGlobal, D: Disk>(rt: &R, disk: D) -> Session<D> {
    match recover(rt.alloc(), disk) {
        Ok(session) => session,
        Err(unrecovered) => panic!(rt; "{}", unrecovered.fault),
    }
}

/// A disk in memory of so many bytes, all zero.
fn disk_of<R: Abort + AllocGlobal>(rt: &R, size: usize) -> MemoryDisk {
    let bytes = vec![in rt.alloc(); 0; size].expect(rt, "memory for bytes");
    MemoryDisk::new(rt.alloc(), bytes).expect(rt, "memory for a disk")
}

/// Keeps a seed of a program on a disk of so many bytes.
fn keep_on<R: Abort + AllocGlobal>(
    rt: &R,
    words: &[u32],
    size: usize,
    seed: u64,
) -> KeptDisk<MemoryDisk> {
    keep_seed(
        rt.alloc(),
        disk_of(rt, size),
        CONFIG,
        image_of(rt, words).as_slice(),
        &Plan::new(SHAPE.limit, seed),
    )
}

/// The first seed of a row is kept, and its disk recovers to the row's outcome.
fn expect_kept<R: Abort + AllocGlobal>(rt: &R, words: &[u32], row: &Row) {
    let kept = keep_on(rt, words, SIZE, row.first);
    expect_eq(rt, kept.result, Ok(ScheduleEnd::Ended));
    let again = session_of(rt, kept.disk);
    match (again.machine().status(), &row.told.outcome) {
        (Status::Exited(got), Outcome::Exited(want)) => expect_eq(rt, got, *want),
        _ => panic!(rt; "another kind of end"),
    }
}

#[test]
fn kept_runs_recover_to_their_outcomes(rt: HostRuntime) {
    let outcomes = outcomes_of(&rt, &RACES, 100);
    for row in outcomes.rows() {
        expect_kept(&rt, &RACES, row);
    }
}

#[test]
fn disk_too_small_for_a_run(rt: HostRuntime) {
    let kept = keep_on(&rt, &RACES, 4_096, 1);
    let why = SeedFault::Format(FormatFault::TooSmall);
    expect_eq(&rt, kept.result, Err(why));
}
