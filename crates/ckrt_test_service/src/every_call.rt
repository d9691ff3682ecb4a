//! Every call of the disk: a format, a recovery, a commit and two checkpoints in a row, of which one call stops the disk or
//! fails, and how the program goes on from what is left.

use crate::expect::{expect_eq, expect_eq_at, filled, memory_disk, stopping_disk};
use crate::sessions::{
    expect_checkpoint, expect_commit, expect_output, expect_refusal, expect_same_step,
    is_committed, is_saved, step_if_accepted, submitted,
};
use crate::small_disk::{SMALL, format_outcome, recovered, recovered_in_memory, recovery_outcome};
use ckrt_disk::{Disk, FailingDisk, StoppingDisk};
use ckrt_events::Event;
use ckrt_machine::Machine;
use ckrt_recovery::{CommitFault, FormatFault, RecoverFault, Session, SubmitFault};
use ckrt_test_storage::{IMAGE, SIZE};
use std::process::Abort;

/// The events by number: the thread is placed, puts an `A` by its first three steps, and then takes one more at a time.
fn event(number: u64) -> Event {
    match number {
        0 => Event::Place(0, 1),
        1 => Event::Run(0, 3),
        _ => Event::Run(0, 1),
    }
}

/// The session takes the event of this number.
fn submit<R: Abort, D: Disk>(rt: &R, session: &mut Session<D>, number: u64) {
    assert!(rt; submitted(rt, session, &event(number)).is_ok());
}

/// A commit of two events and two checkpoints of one more each, up to the first that fails. How many events were taken.
fn commit_and_save_twice<R: Abort, D: Disk>(rt: &R, session: &mut Session<D>) -> u64 {
    submit(rt, session, 0);
    submit(rt, session, 1);
    if !is_committed(session) {
        return 2;
    }
    submit(rt, session, 2);
    if !is_saved(session) {
        return 3;
    }
    submit(rt, session, 3);
    is_saved(session);
    4
}

/// The machine after that many of the events, by the plain fold.
fn folded<R: Abort + AllocGlobal>(rt: &R, count: u64) -> Machine {
    let mut machine = Machine::new(rt.alloc(), 16, 1, &IMAGE).expect(rt, "a machine");
    for number in 0..count {
        step_if_accepted(rt, &mut machine, &event(number));
    }
    machine
}

/// The output of that many of the events.
fn output(count: u64) -> &'static [u8] {
    if count < 2 { b"" } else { b"A" }
}

/// What was recovered has that many events and their output, and answers one more as the plain fold does.
fn expect_goes_on<R: Abort + AllocGlobal, D: Disk>(
    rt: &R,
    session: &mut Session<D>,
    least: u64,
    most: u64,
) {
    let count = session.acknowledged();
    let is_between = least <= count && count <= most;
    expect_eq_at(rt, (least, count, most), is_between, true);
    expect_output(rt, session, 0, output(count));
    expect_same_step(rt, session, &mut folded(rt, count), &event(count));
}

/// The program goes on from these bytes.
fn expect_left<R: Abort + AllocGlobal>(rt: &R, left: Vec<u8>, least: u64, most: u64) {
    expect_goes_on(rt, &mut recovered_in_memory(rt, left), least, most);
}

/// A format that didn't end leaves no program, or the one that hasn't begun.
fn expect_unformatted_or_fresh<R: Abort + AllocGlobal, D: Disk + Drop>(rt: &R, disk: D) {
    match recovery_outcome(rt, disk) {
        Ok(mut session) => expect_goes_on(rt, &mut session, 0, 0),
        Err(unrecovered) => expect_eq(rt, unrecovered.fault, RecoverFault::NotFormatted),
    }
}

/// A session lives on a disk that stops, which leaves what was acknowledged, and no more than was taken. How many calls the
/// disk counted.
fn stop_session<R: Abort + AllocGlobal>(rt: &R, mut session: Session<StoppingDisk>) -> u64 {
    let most = commit_and_save_twice(rt, &mut session);
    let least = session.acknowledged();
    let disk = session.into_disk();
    let calls = disk.calls();
    expect_left(rt, disk.into_image(), least, most);
    calls
}

/// The same of a disk that is formatted, and perhaps not recovered.
fn stop_recovery<R: Abort + AllocGlobal>(rt: &R, disk: StoppingDisk) -> u64 {
    match recovery_outcome(rt, disk) {
        Ok(session) => stop_session(rt, session),
        Err(unrecovered) => {
            expect_eq(rt, unrecovered.fault, RecoverFault::Device);
            let calls = unrecovered.disk.calls();
            expect_left(rt, unrecovered.disk.into_image(), 0, 0);
            calls
        }
    }
}

/// The whole run on a disk of zeros that stops at a call. How many calls it counted.
fn stop_run<R: Abort + AllocGlobal>(rt: &R, at_call: u64, fill: &[u8]) -> u64 {
    let mut disk = stopping_disk(rt, filled(rt, 0, SIZE), at_call, fill);
    match format_outcome(rt, &mut disk, SMALL, &IMAGE) {
        Ok(()) => stop_recovery(rt, disk),
        Err(fault) => {
            expect_eq(rt, fault, FormatFault::Device);
            let calls = disk.calls();
            expect_unformatted_or_fresh(rt, memory_disk(rt, disk.into_image()));
            calls
        }
    }
}

/// The first call that the run doesn't reach, after a run for each of those before it.
fn first_unreached<R: Abort + AllocGlobal>(rt: &R, fill: &[u8]) -> u64 {
    for at_call in 1..200 {
        if stop_run(rt, at_call, fill) < at_call {
            return at_call;
        }
    }
    0
}

/// The run is stopped at each call. A format makes 11 writes and syncs, recovery 1, a commit 4, and a checkpoint 6 and one for
/// each of the 15 pages that are dirty for its area, with 2 more where the gate of the area was open. The guest stores nothing:
/// for the area that was recovered no page is dirty.
fn expect_every_stop<R: Abort + AllocGlobal>(rt: &R, fill: &[u8]) {
    expect_eq(rt, first_unreached(rt, fill), 11 + 1 + 4 + 21 + 8 + 1);
}

#[test]
fn every_stop_that_leaves_a5(rt: HostRuntime) {
    expect_every_stop(&rt, &[0xa5]);
}

#[test]
fn every_stop_that_leaves_00(rt: HostRuntime) {
    expect_every_stop(&rt, &[0]);
}

#[test]
fn every_stop_that_leaves_ff(rt: HostRuntime) {
    expect_every_stop(&rt, &[0xff]);
}

#[test]
fn every_stop_that_leaves_a5_and_00(rt: HostRuntime) {
    expect_every_stop(&rt, &[0xa5, 0]);
}

#[test]
fn every_stop_that_leaves_what_was_written(rt: HostRuntime) {
    expect_every_stop(&rt, &[]);
}

/// After a failure of its disk a session takes nothing more, and lends what was committed before.
fn expect_failed<R: Abort, D: Disk>(rt: &R, session: &mut Session<D>) {
    expect_refusal(rt, session, &Event::Run(0, 1), SubmitFault::Failed);
    expect_commit(rt, session, Err(CommitFault::Failed));
    expect_checkpoint(rt, session, Err(CommitFault::Failed));
    let committed = output(session.acknowledged());
    expect_output(rt, session, 0, committed);
}

/// A session lives on a disk that may fail, and if it fails the next one goes on from the disk. Whether it failed.
fn fail_session<R: Abort + AllocGlobal, D: Disk + Drop>(rt: &R, mut session: Session<D>) -> bool {
    let most = commit_and_save_twice(rt, &mut session);
    let least = session.acknowledged();
    if least == 4 {
        return false;
    }
    expect_failed(rt, &mut session);
    expect_goes_on(rt, &mut recovered(rt, session.into_disk()), least, most);
    true
}

/// The whole run on a disk that may fail. Whether it did.
fn fail_run<R: Abort + AllocGlobal, D: Disk + Drop>(rt: &R, mut disk: D) -> bool {
    if let Err(fault) = format_outcome(rt, &mut disk, SMALL, &IMAGE) {
        expect_eq(rt, fault, FormatFault::Device);
        expect_unformatted_or_fresh(rt, disk);
        return true;
    }
    match recovery_outcome(rt, disk) {
        Ok(session) => fail_session(rt, session),
        Err(unrecovered) => {
            expect_eq(rt, unrecovered.fault, RecoverFault::Device);
            expect_goes_on(rt, &mut recovered(rt, unrecovered.disk), 0, 0);
            true
        }
    }
}

/// The first call that can fail without a failure of the run, after a run for each of those before it.
fn first_harmless<R: Abort + AllocGlobal>(rt: &R) -> u64 {
    for at_call in 1..200 {
        let disk = memory_disk(rt, filled(rt, 0, SIZE));
        if !fail_run(rt, FailingDisk::new(disk, at_call)) {
            return at_call;
        }
    }
    0
}

/// A format makes 11 writes and syncs and 1 read, recovery a sync and 6 reads, a commit no read, and a checkpoint one, of the
/// gate of its area.
#[test]
fn every_call_fails_once(rt: HostRuntime) {
    expect_eq(&rt, first_harmless(&rt), 12 + 7 + 4 + 22 + 9 + 1);
}
