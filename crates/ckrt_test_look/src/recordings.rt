//! What a disk has recorded, against the events that its session took.

use crate::expect::expect_eq;
use crate::plans::expect_same;
use ckrt_disk::{Disk, MemoryDisk};
use ckrt_events::Event;
use ckrt_look_recording::{Recording, read_recording};
use ckrt_machine::Machine;
use ckrt_recovery::{Config, RecoverFault, Session, format, recover};
use ckrt_test_storage::{IMAGE, SIZE};
use std::process::Abort;

/// 16 pages, 1 hart, and a journal of 4,096 bytes.
const SMALL: Config = Config {
    pages: 16,
    harts: 1,
    journal: 4_096,
};

const FIRST_AREA: usize = 4_096;

const SECOND_AREA: usize = 172_032;

const JOURNAL: usize = 339_968;

const SECOND_JOURNAL: usize = 344_064;

/// Behind which events a checkpoint is made, and the steps of the runs. The first event places thread 1, each other one is a run.
pub type Row = (&'static [usize], &'static [u16]);

const ROWS: [Row; 7] = [
    (&[], &[]),
    (&[], &[2, 1]),
    (&[0], &[2, 1]),
    (&[1], &[2, 1]),
    (&[3], &[2, 1]),
    (&[1, 2], &[2, 1]),
    (&[1, 2, 3], &[2, 1, 1]),
];

/// One event of a row.
fn event_of(runs: &[u16], index: usize) -> Event {
    if index == 0 || runs.len() < index {
        return Event::Place(0, 1);
    }
    Event::Run(0, runs[index - 1])
}

/// A disk of zeros.
pub fn empty<R: Abort + AllocGlobal>(rt: &R) -> MemoryDisk {
    let bytes = vec![in rt.alloc(); 0; SIZE].expect(rt, "memory for bytes");
    MemoryDisk::new(rt.alloc(), bytes).expect(rt, "memory for a disk")
}

/// The same with the program formatted onto it.
fn formatted<R: Abort + AllocGlobal>(rt: &R) -> MemoryDisk {
    let mut disk = empty(rt);
    assert!(rt; format(rt.alloc(), &mut disk, SMALL, &IMAGE).is_ok());
    disk
}

fn recovered<R: Abort + AllocGlobal>(rt: &R, disk: MemoryDisk) -> Session<MemoryDisk> {
    match recover(rt.alloc(), disk) {
        Ok(session) => session,
        Err(unrecovered) => panic!(rt; "{}", unrecovered.fault),
    }
}

/// What a disk has recorded. It ensures nothing, so tests that call it are cheap to prove.
fn outcome<R: AllocGlobal, D: Disk>(rt: &R, disk: &mut D) -> Result<Recording, RecoverFault> {
    read_recording(rt.alloc(), disk)
}

/// An event that the session takes.
fn submit<R: Abort, D: Disk>(rt: &R, session: &mut Session<D>, event: &Event) {
    assert!(rt; event.in_range());
    assert!(rt; session.submit(event).is_ok());
}

/// What is pending is made durable, and then the state.
fn save<R: Abort, D: Disk>(rt: &R, session: &mut Session<D>) {
    assert!(rt; session.commit().is_ok());
    assert!(rt; session.checkpoint().is_ok());
}

/// All events of a row, with its checkpoints.
fn play<R: Abort, D: Disk>(rt: &R, session: &mut Session<D>, row: &Row) {
    for index in 0..4usize {
        if row.0.contains(&index) {
            save(rt, session);
        }
        if index <= row.1.len() {
            submit(rt, session, &event_of(row.1, index));
        }
    }
    assert!(rt; session.commit().is_ok());
}

/// The disk that the session of a row leaves.
pub fn played<R: Abort + AllocGlobal>(rt: &R, row: &Row) -> MemoryDisk {
    let mut session = recovered(rt, formatted(rt));
    play(rt, &mut session, row);
    session.into_disk()
}

/// A machine that never had a disk makes the first events of a row.
fn machine_behind<R: Abort + AllocGlobal>(rt: &R, runs: &[u16], count: usize) -> Machine {
    let Ok(mut machine) = Machine::new(rt.alloc(), 16, 1, &IMAGE) else {
        panic!(rt; "memory for a machine");
    };
    for index in 0..count {
        let event = event_of(runs, index);
        let may = event.in_range() && machine.accept(0, &event).is_ok();
        assert!(rt; may);
        machine.step(&event);
    }
    machine
}

/// The events of a row behind its first so many are recorded, and the machine behind those.
pub fn expect_recorded<R: Abort + AllocGlobal>(
    rt: &R,
    row: &Row,
    first: usize,
    recording: &Recording,
) {
    expect_eq(rt, recording.first, first as u64);
    expect_same(rt, &recording.machine, &machine_behind(rt, row.1, first));
    expect_eq(
        rt,
        first.saturating_add(recording.events.len()),
        row.1.len().saturating_add(1),
    );
    for (place, event) in recording.events.as_slice().iter().enumerate() {
        assert!(rt; *event == event_of(row.1, first.saturating_add(place)));
    }
}

fn expect_from<R: Abort + AllocGlobal>(rt: &R, row: &Row, first: usize, disk: &mut MemoryDisk) {
    match outcome(rt, disk) {
        Ok(recording) => expect_recorded(rt, row, first, &recording),
        Err(fault) => panic!(rt; "{fault}"),
    }
}

/// Behind how many events the last checkpoint but one was made: formatting counts as one.
fn last_but_one(row: &Row) -> usize {
    match row.0.iter().rev().nth(1) {
        Some(count) => *count,
        None => 0,
    }
}

#[test]
fn events_are_recorded_from_the_last_checkpoint_but_one_on(rt: HostRuntime) {
    for row in &ROWS {
        expect_from(&rt, row, last_but_one(row), &mut played(&rt, row));
    }
}

#[test]
fn a_fresh_disk_has_no_event(rt: HostRuntime) {
    match outcome(&rt, &mut formatted(&rt)) {
        Ok(recording) => {
            expect_eq(&rt, recording.first, 0);
            expect_eq(&rt, recording.events.len(), 0);
            expect_same(&rt, &recording.machine, &machine_behind(&rt, &[], 0));
        }
        Err(fault) => panic!(rt; "{fault}"),
    }
}

/// A checkpoint behind the first event, into the second area, and one behind the second event, into the first. The journal of the second
/// area has a Run of two steps.
const SAVED: Row = (&[1, 2], &[2, 1]);

/// Bytes laid over the older area or its journal, where they change what is there.
const LAID: [(usize, &[u8]); 15] = [
    // Its gate; another generation, generation 0; another version; another count; a count, an offset out of range.
    (SECOND_AREA, &[0]),
    (SECOND_AREA + 8, &[1]),
    (SECOND_AREA + 8, &[0]),
    (SECOND_AREA + 36, &[9]),
    (SECOND_AREA + 16, &[0]),
    (SECOND_AREA + 23, &[0x40]),
    (SECOND_AREA + 31, &[0x40]),
    // Tables of another length, tables that nothing has, another clock, and a byte of the last page.
    (SECOND_AREA + 32, &[0xb1]),
    (SECOND_AREA + 4_096 + 8, &[9]),
    (SECOND_AREA + 4_096, &[1]),
    (SECOND_AREA + 102_400 + 65_535, &[1]),
    // A batch less; a Run of one step; one on a hart that isn't there; an open gate without a batch.
    (SECOND_JOURNAL, &[0]),
    (SECOND_JOURNAL + 5, &[1]),
    (SECOND_JOURNAL + 4, &[1]),
    (SECOND_JOURNAL + 7, &[0xa5]),
];

/// Whatever the older area has, if it doesn't lead to the newer: what is recorded begins later, and it's no fault.
#[test]
fn an_older_area_that_does_not_lead_on_is_left_out(rt: HostRuntime) {
    for (at, bytes) in &LAID {
        let mut disk = played(&rt, &SAVED);
        expect_from(&rt, &SAVED, 1, &mut disk);
        let end = at.saturating_add(bytes.len());
        assert!(&rt; end <= disk.size());
        assert!(&rt; disk.write(*at, bytes).is_ok());
        expect_from(&rt, &SAVED, 2, &mut disk);
    }
}

/// What is pending at a checkpoint stands in no journal, so nothing leads to that.
#[test]
fn a_checkpoint_in_place_of_a_commit_begins_anew(rt: HostRuntime) {
    let row: Row = (&[], &[2, 1]);
    let mut session = recovered(&rt, formatted(&rt));
    submit(&rt, &mut session, &event_of(row.1, 0));
    submit(&rt, &mut session, &event_of(row.1, 1));
    assert!(&rt; session.checkpoint().is_ok());
    submit(&rt, &mut session, &event_of(row.1, 2));
    assert!(&rt; session.commit().is_ok());
    expect_from(&rt, &row, 2, &mut session.into_disk());
}

/// Bytes laid over a formatted disk, and the fault.
type Change = (usize, &'static [u8], RecoverFault);

const CHANGES: [Change; 8] = [
    (0, &[0], RecoverFault::NotFormatted),
    (16, &[9], RecoverFault::Version),
    (20, &[15], RecoverFault::Damaged),
    (FIRST_AREA, &[0], RecoverFault::Damaged),
    (FIRST_AREA + 36, &[9], RecoverFault::Version),
    (FIRST_AREA + 32, &[0xb1], RecoverFault::Damaged),
    // A Run on an idle hart, and an open gate without a batch.
    (JOURNAL, &[0xa5, 4, 0, 2, 0, 1, 0, 0], RecoverFault::Damaged),
    (JOURNAL, &[0xa5, 3, 0, 1, 0, 1, 0xa5], RecoverFault::Damaged),
];

fn expect_fault<R: Abort + AllocGlobal>(rt: &R, change: &Change) {
    let mut disk = formatted(rt);
    let (at, bytes, fault) = *change;
    let end = at.saturating_add(bytes.len());
    assert!(rt; end <= disk.size());
    assert!(rt; disk.write(at, bytes).is_ok());
    match outcome(rt, &mut disk) {
        Ok(_) => panic!(rt; "recorded"),
        Err(found) => expect_eq(rt, found, fault),
    }
}

#[test]
fn each_fault_is_that_of_recovery(rt: HostRuntime) {
    for change in &CHANGES {
        expect_fault(&rt, change);
    }
    match outcome(&rt, &mut empty(&rt)) {
        Ok(_) => panic!(rt; "recorded"),
        Err(found) => expect_eq(&rt, found, RecoverFault::NotFormatted),
    }
}
