//! The inspector of what a run leaves whose disk failed one call, of the run or of the inspector.

use crate::expect::{copied, expect_eq, expect_eq_at, filled, memory_disk};
use crate::sessions::{is_committed, is_saved, submitted};
use crate::small_disk::{SMALL, format_outcome, recovery_outcome};
use ckrt_disk::{Disk, FailingDisk, MemoryDisk};
use ckrt_events::Event;
use ckrt_inspect::{InspectFault, Shown, inspect_with};
use ckrt_recovery::Session;
use ckrt_test_storage::{IMAGE, SIZE};
use std::process::Abort;

/// The session takes the event.
fn submit<R: Abort, D: Disk>(rt: &R, session: &mut Session<D>, event: &Event) {
    assert!(rt; submitted(rt, session, event).is_ok());
}

/// A commit of two events and two checkpoints of one more each, up to the first that fails.
fn commit_and_save_twice<R: Abort, D: Disk>(rt: &R, session: &mut Session<D>) {
    submit(rt, session, &Event::Place(0, 1));
    submit(rt, session, &Event::Run(0, 3));
    if !is_committed(session) {
        return;
    }
    submit(rt, session, &Event::Run(0, 1));
    if !is_saved(session) {
        return;
    }
    submit(rt, session, &Event::Run(0, 1));
    is_saved(session);
}

/// A recovery, a commit and two checkpoints, up to the first that fails. The disk comes back.
fn lived<R: Abort + AllocGlobal, D: Disk + Drop>(rt: &R, disk: D) -> D {
    match recovery_outcome(rt, disk) {
        Ok(session) => {
            let mut session = session;
            commit_and_save_twice(rt, &mut session);
            session.into_disk()
        }
        Err(unrecovered) => unrecovered.disk,
    }
}

/// The whole run on a disk of zeros, which fails a call of the run, or one after it.
fn run<R: Abort + AllocGlobal>(rt: &R, at_call: u64) -> FailingDisk<MemoryDisk> {
    let mut disk = FailingDisk::new(memory_disk(rt, filled(rt, 0, SIZE)), at_call);
    match format_outcome(rt, &mut disk, SMALL, &IMAGE) {
        Ok(()) => lived(rt, disk),
        Err(_) => disk,
    }
}

/// What the inspector answers of a disk, and what it writes.
fn inspected<R: AllocGlobal, D: Disk>(rt: &R, disk: &mut D) -> (Result<(), InspectFault>, Vec<u8>) {
    let mut listing = Vec::new(rt.alloc());
    let answer = inspect_with(rt.alloc(), disk, Shown::default(), &mut listing);
    (answer, listing)
}

/// The first line of the listing after a run whose disk failed this call, and none where there is no program. A format makes
/// 12 calls, of which the 11th opens the gate of the superblock; recovery makes 7, and a commit 4, of which the 22nd call opens
/// its gate, and the next one is its sync; the first checkpoint makes 22, up to the 45th, and the second 9. A gate is there,
/// too, whose sync failed.
fn first_line(at_call: u64) -> &'static [u8] {
    match at_call {
        0..12 => b"",
        12..23 => b"events 0\n",
        23..45 => b"events 2\n",
        45..54 => b"events 3\n",
        _ => b"events 4\n",
    }
}

/// How many calls the run makes.
const CALLS: u64 = 12 + 7 + 4 + 22 + 9;

/// The inspector of this disk answers Device, and writes nothing.
fn expect_device<R: Abort + AllocGlobal, D: Disk>(rt: &R, call: u64, disk: &mut D) {
    let (answer, listing) = inspected(rt, disk);
    expect_eq_at(rt, call, answer, Err(InspectFault::Device));
    expect_eq_at(rt, call, listing.len(), 0);
}

/// The inspector of this disk lists what a run left whose disk failed this call, or says that there is no program.
fn expect_listing<R: Abort + AllocGlobal, D: Disk>(rt: &R, at_call: u64, disk: &mut D) {
    let (answer, listing) = inspected(rt, disk);
    let line = first_line(at_call);
    let want = if line.is_empty() {
        Err(InspectFault::NotFormatted)
    } else {
        Ok(())
    };
    expect_eq_at(rt, at_call, answer, want);
    expect_eq_at(rt, at_call, listing.is_empty(), line.is_empty());
    expect_eq_at(rt, at_call, listing.starts_with(line), true);
}

/// How many reads the inspector makes after the whole run: of the superblock, a header and what it needs of the other one, the
/// tables, the pages, the gate of a journal that is empty, and what the disk notes of its program and of its schedule.
const READS: u64 = 8;

/// Each call of the run fails in turn, and none of the inspector after it.
fn fail_each_call<R: Abort + AllocGlobal>(rt: &R) {
    for at_call in 1..=CALLS {
        expect_listing(rt, at_call, &mut run(rt, at_call));
    }
}

/// No call of the run fails, and each read of the inspector after it in turn.
fn fail_each_read<R: Abort + AllocGlobal>(rt: &R) {
    for read in 1..=READS {
        expect_device(rt, read, &mut run(rt, CALLS + read));
    }
}

/// The count of one disk rises over the run and the inspector after it, until nothing fails.
#[test]
fn one_failure_of_a_run_or_of_its_inspector(rt: HostRuntime) {
    fail_each_call(&rt);
    fail_each_read(&rt);
    let call = CALLS + READS + 1;
    expect_listing(&rt, call, &mut run(&rt, call));
}

/// How many reads of these bytes the inspector makes, each of which fails in turn.
fn reads_of<R: Abort + AllocGlobal>(rt: &R, at_call: u64, left: &[u8]) -> u64 {
    for call in 1..100 {
        let mut disk = FailingDisk::new(memory_disk(rt, copied(rt, left)), call);
        if inspected(rt, &mut disk).0 != Err(InspectFault::Device) {
            expect_listing(rt, at_call, &mut memory_disk(rt, copied(rt, left)));
            return call.saturating_sub(1);
        }
    }
    0
}

/// How many reads the inspector makes after a run whose disk failed this call: of a superblock that isn't there one; and 8 as
/// above, with more for the batch that stands in the journal between the commit and the end of the first checkpoint.
fn is_count_of_reads(at_call: u64, reads: u64) -> bool {
    match at_call {
        0..12 => reads == 1,
        23..45 => reads > READS,
        _ => reads == READS,
    }
}

/// Each read of the inspector fails in turn, over what the run leaves whose disk failed this call.
fn fail_each_read_behind<R: Abort + AllocGlobal>(rt: &R, at_call: u64) {
    let left = run(rt, at_call).into_inner().into_image();
    let reads = reads_of(rt, at_call, left.as_slice());
    let is_right = is_count_of_reads(at_call, reads);
    expect_eq_at(rt, (at_call, reads), is_right, true);
}

#[test]
fn each_read_of_an_inspector_fails_behind_each_failure(rt: HostRuntime) {
    for at_call in 1..=CALLS + 1 {
        fail_each_read_behind(&rt, at_call);
    }
}
