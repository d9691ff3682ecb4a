//! The record on a disk: the bytes of a slot, what is read of it, and what a stop leaves.

use crate::expect::{filled, memory_disk};
use crate::small_disk::{SMALL, recovered};
use arrayvec::ArrayVec;
use ckrt_disk::{Disk, MemoryDisk, StoppingDisk};
use ckrt_drive::{OffsetFault, RECORD_BYTES, checkpoint, read_offset};
use ckrt_events::Event;
use ckrt_recovery::{CommitFault, Session, format};
use ckrt_test_storage::{FILLS, IMAGE, SIZE};
use std::process::Abort;

/// The slot of area 1 after the first checkpoint, of two events that took five bytes: the name, version 1, generation 2, two
/// events, five bytes.
const SLOT: [u8; 40] = [
    0x43, 0x4b, 0x52, 0x54, 0x46, 0x45, 0x45, 0x44, 1, 0, 0, 0, 0, 0, 0, 0, 2, 0, 0, 0, 0, 0, 0, 0,
    2, 0, 0, 0, 0, 0, 0, 0, 5, 0, 0, 0, 0, 0, 0, 0,
];

/// Where that slot lies: half of the record after the size needed.
const SLOT_AT: usize = SIZE + 2_048;

/// Calls at which a disk stops while two checkpoints are made, which are after it at call 35: the writes and syncs of both slots, and
/// those of each checkpoint around its gates.
const CALLS: [u64; 8] = [2, 3, 24, 25, 26, 28, 34, 35];

/// A formatted disk of that many bytes more than it needs.
fn formatted<R: Abort + AllocGlobal>(rt: &R, more: usize) -> Vec<u8> {
    let mut disk = memory_disk(rt, filled(rt, 0xff, SIZE.saturating_add(more)));
    let outcome = format(rt.alloc(), &mut disk, SMALL, &IMAGE);
    assert!(rt; outcome.is_ok());
    disk.into_image()
}

/// Submits an Input of these bytes.
fn feed<R: Abort, D: Disk>(rt: &R, session: &mut Session<D>, bytes: &[u8]) {
    let mut input = ArrayVec::new();
    assert!(rt; input.try_extend_from_slice(bytes).is_ok());
    let event = Event::Input(input);
    assert!(rt; event.in_range());
    assert!(rt; session.submit(&event).is_ok());
}

/// A checkpoint with a record, on a disk that has room for one.
fn save<R: Abort, D: Disk>(
    rt: &R,
    session: &mut Session<D>,
    taken: u64,
) -> Result<u64, CommitFault> {
    assert!(rt; session.spare_room() >= RECORD_BYTES);
    assert!(rt; taken < 1_000);
    checkpoint(session, taken)
}

/// How much of its input the program of a disk has taken.
fn offset<R: Abort + AllocGlobal>(rt: &R, image: Vec<u8>) -> Result<u64, OffsetFault> {
    read_offset(&mut memory_disk(rt, image), None)
}

/// The same where so much is said to have been taken up to the state of the area.
fn offset_from<R: Abort + AllocGlobal>(rt: &R, image: Vec<u8>) -> Result<u64, OffsetFault> {
    read_offset(&mut memory_disk(rt, image), Some(10))
}

#[test]
fn a_slot_has_these_bytes(rt: HostRuntime) {
    let mut session = recovered(&rt, memory_disk(&rt, formatted(&rt, RECORD_BYTES)));
    feed(&rt, &mut session, b"abc");
    feed(&rt, &mut session, b"de");
    assert!(rt; save(&rt, &mut session, 5) == Ok(2));
    let image = session.into_disk().into_image();
    assert!(rt; image.len() >= SLOT_AT + 40);
    assert!(rt; image[SLOT_AT..].starts_with(&SLOT));
    assert!(rt; offset(&rt, image) == Ok(5));
}

#[test]
fn inputs_of_the_journal_count_too(rt: HostRuntime) {
    let mut session = recovered(&rt, memory_disk(&rt, formatted(&rt, RECORD_BYTES)));
    feed(&rt, &mut session, b"abc");
    assert!(rt; session.commit() == Ok(1));
    assert!(rt; save(&rt, &mut session, 3) == Ok(1));
    feed(&rt, &mut session, b"de");
    feed(&rt, &mut session, b"f");
    assert!(rt; session.commit() == Ok(3));
    feed(&rt, &mut session, b"not committed");
    assert!(rt; offset(&rt, session.into_disk().into_image()) == Ok(6));
}

#[test]
fn a_fresh_disk_has_taken_nothing(rt: HostRuntime) {
    assert!(rt; offset(&rt, formatted(&rt, 0)) == Ok(0));
    assert!(rt; offset(&rt, formatted(&rt, RECORD_BYTES)) == Ok(0));
}

#[test]
fn a_checkpoint_without_a_record_is_told(rt: HostRuntime) {
    let image = saved_by_hand(&rt);
    assert!(rt; offset(&rt, image) == Err(OffsetFault::NotRecorded));
}

/// A disk whose area was saved without a record, with two bytes of input in the journal after it.
fn saved_by_hand<R: Abort + AllocGlobal>(rt: &R) -> Vec<u8> {
    let mut session = recovered(rt, memory_disk(rt, formatted(rt, RECORD_BYTES)));
    feed(rt, &mut session, b"abc");
    assert!(rt; session.checkpoint() == Ok(1));
    feed(rt, &mut session, b"de");
    assert!(rt; session.commit() == Ok(2));
    session.into_disk().into_image()
}

/// What is said counts only where the record doesn't say it, and the journal's bytes come after it.
#[test]
fn what_is_said_counts_without_a_record(rt: HostRuntime) {
    assert!(rt; offset_from(&rt, saved_by_hand(&rt)) == Ok(12));
    assert!(rt; offset_from(&rt, formatted(&rt, 0)) == Ok(0));
}

/// A disk with a record, by two checkpoints, that stops at a call and then lays a fill over its pending bytes. What it leaves.
fn stopped<R: Abort + AllocGlobal>(
    rt: &R,
    image: &[u8],
    at_call: u64,
    fill: &[u8],
) -> StoppingDisk {
    let image = image.to_vec(rt.alloc()).expect(rt, "memory for bytes");
    let fill = fill.to_vec(rt.alloc()).expect(rt, "memory for bytes");
    let disk = StoppingDisk::new(rt.alloc(), image, at_call, fill).expect(rt, "memory for a disk");
    let mut session = recovered(rt, disk);
    feed(rt, &mut session, b"abc");
    if save(rt, &mut session, 3).is_ok() {
        feed(rt, &mut session, b"de");
        let _ = save(rt, &mut session, 5);
    }
    session.into_disk()
}

/// What was taken is what the events took to which the disk recovers: none, or one of three bytes, or two of five.
fn expect_consistent<R: Abort + AllocGlobal>(rt: &R, image: Vec<u8>) -> u64 {
    let copy = image.clone().expect(rt, "memory for bytes");
    let events = recovered(rt, memory_disk(rt, copy)).acknowledged();
    assert!(rt; events <= 2);
    let taken = [0, 3, 5][events as usize];
    assert!(rt; offset(rt, image) == Ok(taken));
    events
}

#[test]
fn each_stop_leaves_a_record_that_fits(rt: HostRuntime) {
    let image = formatted(&rt, RECORD_BYTES);
    for fill in [FILLS[0], FILLS[1]] {
        let mut most = 0;
        for at_call in CALLS {
            let left = stopped(&rt, &image, at_call, fill).into_image();
            most = expect_consistent(&rt, left).max(most);
        }
        assert!(rt; most == 2);
    }
}
