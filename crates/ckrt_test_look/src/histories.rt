//! Histories of disks: what became of a file, how far it goes then, and what it has recorded, against the events of the disk.

use crate::expect::expect_eq;
use crate::recordings::{Row, empty, expect_recorded, played};
use ckrt_disk::{Disk, MemoryDisk};
use ckrt_history::{
    HistoryFault, JoinFault, Joined, Span, begin_or_bring_up, history_span, read_history,
};
use ckrt_look_recording::Recording;
use ckrt_test_storage::SIZE;
use std::process::Abort;

/// How large the file of a history may grow.
const ROOM: usize = 4_096;

/// A disk, with what becomes of the history of the one before it: how many events are appended, behind how many it begins, and how many bytes of the
/// long journal it takes.
type Stage = (Row, Result<Joined, JoinFault>, u64, u64);

/// What is wrong with a disk of which the history before isn't.
const BEHIND: Result<Joined, JoinFault> = Err(JoinFault::HistoryBehind);

const DIFFERS: Result<Joined, JoinFault> = Err(JoinFault::HistoryDiffers);

/// Of each line the first disk begins the history. An event of a run has four bytes in a batch, and the batch four more with its next gate.
const LINES: [[Stage; 3]; 4] = [
    [
        ((&[], &[]), Ok(Joined::Begun), 0, 1),
        ((&[], &[2]), Ok(Joined::Appended(1)), 0, 8),
        ((&[], &[2, 1]), Ok(Joined::Appended(1)), 0, 15),
    ],
    [
        ((&[1], &[2]), Ok(Joined::Begun), 0, 1),
        ((&[1, 2], &[2, 1]), Ok(Joined::Appended(1)), 0, 8),
        ((&[1, 2], &[2, 1]), Ok(Joined::Appended(0)), 0, 8),
    ],
    [
        ((&[1, 2], &[2, 1]), Ok(Joined::Begun), 1, 1),
        ((&[], &[2]), DIFFERS, 1, 1),
        ((&[], &[1, 1]), DIFFERS, 1, 1),
    ],
    [
        ((&[], &[]), Ok(Joined::Begun), 0, 1),
        ((&[2, 3], &[2, 1]), BEHIND, 0, 1),
        ((&[3], &[2, 1, 1]), Ok(Joined::Appended(3)), 0, 16),
    ],
];

/// A file of zeros that may grow behind what a disk needs.
pub fn file<R: Abort + AllocGlobal>(rt: &R) -> MemoryDisk {
    let bytes = vec![in rt.alloc(); 0; SIZE + ROOM].expect(rt, "memory for bytes");
    MemoryDisk::new(rt.alloc(), bytes).expect(rt, "memory for a file")
}

/// What becomes of a file that has so many bytes. It ensures nothing, so tests that call it are cheap to prove.
pub fn joined<R: AllocGlobal, D: Disk, F: Disk>(
    rt: &R,
    disk: &mut D,
    file: &mut F,
    bytes: usize,
) -> Result<Joined, JoinFault> {
    begin_or_bring_up(rt.alloc(), disk, file, bytes)
}

fn span<R: AllocGlobal, F: Disk>(rt: &R, file: &mut F) -> Result<Span, HistoryFault> {
    history_span(rt.alloc(), file)
}

pub fn recorded<R: AllocGlobal, F: Disk>(rt: &R, file: &mut F) -> Result<Recording, HistoryFault> {
    read_history(rt.alloc(), file)
}

/// What is recorded are the events of a row, behind the first so many.
fn expect_from<R: Abort + AllocGlobal>(rt: &R, row: &Row, first: usize, file: &mut MemoryDisk) {
    match recorded(rt, file) {
        Ok(recording) => expect_recorded(rt, row, first, &recording),
        Err(fault) => panic!(rt; "{fault}"),
    }
}

/// The history goes so far: all events of a row behind the first so many, in so many bytes of its long journal.
fn expect_span<R: Abort + AllocGlobal>(
    rt: &R,
    row: &Row,
    first: u64,
    used: u64,
    file: &mut MemoryDisk,
) {
    match span(rt, file) {
        Ok(found) => {
            expect_eq(rt, found.first, first);
            expect_eq(
                rt,
                found.first.saturating_add(found.count),
                (row.1.len() as u64).saturating_add(1),
            );
            expect_eq(rt, found.bytes, (SIZE as u64).saturating_add(used));
        }
        Err(fault) => panic!(rt; "{fault}"),
    }
}

/// A line of stages over one file. The answer of each stage, and what the file has then: the disk's events, or those that it had.
fn play_line<R: Abort + AllocGlobal>(rt: &R, line: &[Stage]) {
    let mut history = file(rt);
    let mut last: Row = (&[], &[]);
    for (row, answer, first, used) in line {
        let found = joined(rt, &mut played(rt, row), &mut history, 0);
        expect_eq(rt, found, *answer);
        if answer.is_ok() {
            last = *row;
        }
        expect_span(rt, &last, *first, *used, &mut history);
        expect_from(rt, &last, *first as usize, &mut history);
    }
}

#[test]
fn a_history_has_the_events_of_its_disk(rt: HostRuntime) {
    for line in &LINES {
        play_line(&rt, line);
    }
}

/// Files that take no history, by how many bytes they have and which byte is laid where, and the fault.
const TAKEN: [(usize, usize, u8, JoinFault); 3] = [
    // An open gate; a byte of somebody's among the first; and one byte more than counts as empty.
    (72, 0, 0xa5, JoinFault::File(HistoryFault::NotAHistory)),
    (72, 71, 1, JoinFault::File(HistoryFault::NotAHistory)),
    (73, 4_000, 1, JoinFault::File(HistoryFault::NotAHistory)),
];

#[test]
fn a_file_of_somebody_takes_no_history(rt: HostRuntime) {
    let row: Row = (&[], &[]);
    for (bytes, at, byte, fault) in &TAKEN {
        let mut taken = file(&rt);
        assert!(&rt; *at < taken.size());
        assert!(&rt; taken.write(*at, &[*byte]).is_ok());
        let found = joined(&rt, &mut played(&rt, &row), &mut taken, *bytes);
        expect_eq(&rt, found, Err(*fault));
    }
}

/// A file that may have no more bytes than its disk.
#[test]
fn a_history_needs_room_behind_its_disk(rt: HostRuntime) {
    let row: Row = (&[], &[]);
    let found = joined(&rt, &mut played(&rt, &row), &mut empty(&rt), 0);
    expect_eq(&rt, found, Err(JoinFault::TooSmall));
}
