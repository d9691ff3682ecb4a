//! Snapshots of histories: with which of them a look begins, by the events before the look and by whose they are.

use crate::expect::expect_eq;
use crate::histories::{file, joined, recorded};
use crate::recordings::{Row, played};
use ckrt_disk::{Disk, MemoryDisk};
use ckrt_history::{HistoryFault, PartFault, Snapshot, SnapshotSaver, begin_at, read_snapshot};
use ckrt_look_recording::{Recording, make_events};
use std::process::Abort;

/// A row whose snapshot is saved, one of which a look is then taken, the position of the look, and behind how many events that begins.
const CASES: [(Row, Row, u64, u64); 5] = [
    // Of the same history, at its end and behind it; and a look before the snapshot.
    ((&[], &[2, 1]), (&[], &[2, 1]), 3, 3),
    ((&[], &[2, 1]), (&[], &[2, 1]), 9, 3),
    ((&[], &[2, 1]), (&[], &[2, 1]), 2, 0),
    // Of one that went on; and of one that went another way.
    ((&[], &[2]), (&[], &[2, 1]), 3, 2),
    ((&[], &[2]), (&[], &[1, 1]), 3, 0),
];

/// The history of a row's disk, brought up in one batch for each event.
fn history_of<R: Abort + AllocGlobal>(rt: &R, row: &Row) -> MemoryDisk {
    let mut history = file(rt);
    for count in 0..=row.1.len() {
        let (runs, _) = row.1.split_at(count.min(row.1.len()));
        let found = joined(rt, &mut played(rt, &(row.0, runs)), &mut history, 0);
        assert!(rt; found.is_ok());
    }
    history
}

/// Saves what a history leads to. These three ensure nothing, so tests that call them are cheap to prove.
fn saved<R: AllocGlobal, K: Disk, F: Disk>(
    rt: &R,
    history: &mut K,
    snapshot: &mut F,
) -> Result<(), PartFault> {
    let Ok(
        Recording {
            first,
            mut machine,
            events,
        },
    ) = recorded(rt, history)
    else {
        return Err(PartFault::Unrecorded);
    };
    make_events(&mut machine, &events);
    let count = first.saturating_add(events.len() as u64);
    match SnapshotSaver::new(rt.alloc()) {
        Ok(saver) => saver.save(history, snapshot, 0, count, &machine),
        Err(_) => Err(PartFault::Whole(HistoryFault::OutOfMemory)),
    }
}

fn read<R: AllocGlobal, F: Disk>(rt: &R, snapshot: &mut F) -> Result<Snapshot, HistoryFault> {
    read_snapshot(rt.alloc(), snapshot)
}

fn begun<R: AllocGlobal, K: Disk>(
    rt: &R,
    history: &mut K,
    snapshot: Snapshot,
    position: u64,
) -> Result<u64, HistoryFault> {
    let whole = recorded(rt, history)?;
    let recording = begin_at(history, whole, snapshot, position)?;
    Ok(recording.first)
}

/// Behind how many events a look begins, with the snapshot of one row beside the history of another.
fn first_of<R: Abort + AllocGlobal>(rt: &R, saved_row: &Row, row: &Row, position: u64) -> u64 {
    let mut snapshot = file(rt);
    let mut before = history_of(rt, saved_row);
    expect_eq(rt, saved(rt, &mut before, &mut snapshot), Ok(()));
    match read(rt, &mut snapshot) {
        Ok(found) => match begun(rt, &mut history_of(rt, row), found, position) {
            Ok(first) => first,
            Err(fault) => panic!(rt; "{fault}"),
        },
        Err(fault) => panic!(rt; "{fault}"),
    }
}

#[test]
fn a_look_begins_with_a_snapshot_of_its_own(rt: HostRuntime) {
    for (saved_row, row, position, first) in &CASES {
        expect_eq(&rt, first_of(&rt, saved_row, row, *position), *first);
    }
}

/// A snapshot isn't saved over another one.
#[test]
fn a_whole_snapshot_stays(rt: HostRuntime) {
    let row: Row = (&[], &[2, 1]);
    let mut snapshot = file(&rt);
    let mut history = history_of(&rt, &row);
    expect_eq(&rt, saved(&rt, &mut history, &mut snapshot), Ok(()));
    let again = saved(&rt, &mut history, &mut snapshot);
    expect_eq(&rt, again, Err(PartFault::Part(HistoryFault::NotAHistory)));
}
