//! Power loss: what a stop or a failure of the disk at each call leaves, and how the program goes on from it.

use crate::expect::{copied, expect_eq, expect_eq_at, filled, memory_disk, stopping_disk};
use crate::sessions::{
    expect_answer, expect_commit, expect_output, expect_refusal, expect_same_step, is_committed,
    step_if_accepted, submitted,
};
use crate::small_disk::{
    SMALL, format_outcome, formatted, recovered, recovered_in_memory, recovery_outcome,
};
use arrayvec::ArrayVec;
use ckrt_disk::{Disk, FailingDisk};
use ckrt_events::Event;
use ckrt_machine::{Answer, Machine, RunEnd};
use ckrt_recovery::{CommitFault, FormatFault, RecoverFault, Session, SubmitFault};
use ckrt_test_storage::{FILLS, IMAGE, SIZE};
use std::process::Abort;

/// The event is submitted and committed, where the disk doesn't fail.
fn submit_and_commit<R: Abort, D: Disk>(rt: &R, session: &mut Session<D>, event: &Event) -> bool {
    assert!(rt; submitted(rt, session, event).is_ok());
    is_committed(session)
}

/// Three events, each with a commit, up to the first that fails. How many were submitted.
fn three_commits<R: Abort, D: Disk>(rt: &R, session: &mut Session<D>) -> u64 {
    if !submit_and_commit(rt, session, &Event::Place(0, 1)) {
        return 1;
    }
    if !submit_and_commit(rt, session, &Event::Run(0, 2)) {
        return 2;
    }
    submit_and_commit(rt, session, &Event::Run(0, 1));
    3
}

/// The machine after that many of the three events, by the plain fold.
fn folded<R: Abort + AllocGlobal>(rt: &R, count: u64) -> Machine {
    let mut machine = Machine::new(rt.alloc(), 16, 1, &IMAGE).expect(rt, "a machine");
    if count > 0 {
        step_if_accepted(rt, &mut machine, &Event::Place(0, 1));
    }
    if count > 1 {
        step_if_accepted(rt, &mut machine, &Event::Run(0, 2));
    }
    if count > 2 {
        step_if_accepted(rt, &mut machine, &Event::Run(0, 1));
    }
    machine
}

/// What was recovered has that many events, and answers one more as the plain fold does.
fn expect_goes_on<R: Abort + AllocGlobal, D: Disk>(
    rt: &R,
    session: &mut Session<D>,
    least: u64,
    most: u64,
) {
    let count = session.acknowledged();
    let is_between = least <= count && count <= most;
    expect_eq_at(rt, (least, count, most), is_between, true);
    expect_same_step(rt, session, &mut folded(rt, count), &Event::Run(0, 9));
}

/// What a stop at a call of two events and their commit leaves.
fn stopped_commit<R: Abort + AllocGlobal>(
    rt: &R,
    image: &[u8],
    at_call: u64,
    fill: &[u8],
) -> Vec<u8> {
    let mut session = recovered(rt, stopping_disk(rt, copied(rt, image), at_call, fill));
    expect_answer(rt, &mut session, &Event::Place(0, 1), 1, Answer::Placed);
    expect_answer(
        rt,
        &mut session,
        &Event::Run(0, 2),
        2,
        Answer::Ran(2, RunEnd::On),
    );
    expect_commit(rt, &mut session, Err(CommitFault::Device));
    expect_refusal(rt, &mut session, &Event::Run(0, 1), SubmitFault::Failed);
    expect_commit(rt, &mut session, Err(CommitFault::Failed));
    expect_eq(rt, session.acknowledged(), 0);
    session.into_disk().into_image()
}

/// A stop at a call of a commit, and how many of its two events are there afterwards.
fn expect_left<R: Abort + AllocGlobal>(
    rt: &R,
    image: &[u8],
    at_call: u64,
    fill: &[u8],
    count: u64,
) {
    let left = stopped_commit(rt, image, at_call, fill);
    let session = recovered_in_memory(rt, left);
    expect_eq_at(rt, at_call, session.acknowledged(), count);
}

#[test]
fn each_call_of_a_commit_is_stopped(rt: HostRuntime) {
    let bytes = formatted(&rt, &IMAGE);
    let image = bytes.as_slice();
    for at_call in 2..4 {
        expect_left(&rt, image, at_call, &[0xa5], 0);
        expect_left(&rt, image, at_call, &[0], 0);
        expect_left(&rt, image, at_call, &[], 0);
    }
    // The gate's write, or its sync.
    for at_call in 4..6 {
        expect_left(&rt, image, at_call, &[0xa5], 2);
        expect_left(&rt, image, at_call, &[0], 0);
        expect_left(&rt, image, at_call, &[], 2);
    }
}

/// A disk on which a format stopped has no program, or the fresh one.
fn expect_unformatted_or_fresh<R: Abort + AllocGlobal>(rt: &R, left: Vec<u8>, reached: bool) {
    match recovery_outcome(rt, memory_disk(rt, left)) {
        Ok(mut session) => expect_goes_on(rt, &mut session, 0, 0),
        Err(unrecovered) => {
            assert!(rt; reached);
            expect_eq(rt, unrecovered.fault, RecoverFault::NotFormatted);
        }
    }
}

/// A format that stops at a call. Whether it was reached.
fn stop_format<R: Abort + AllocGlobal>(rt: &R, at_call: u64, fill: &[u8]) -> bool {
    let mut disk = stopping_disk(rt, filled(rt, 0, SIZE), at_call, fill);
    let done = format_outcome(rt, &mut disk, SMALL, &IMAGE);
    let reached = disk.calls() >= at_call;
    let want = if reached {
        Err(FormatFault::Device)
    } else {
        Ok(())
    };
    expect_eq_at(rt, at_call, done, want);
    expect_unformatted_or_fresh(rt, disk.into_image(), reached);
    reached
}

/// Three commits that stop at a call leave what was acknowledged, and no more than was submitted. Whether it was reached.
fn stop_commits<R: Abort + AllocGlobal>(rt: &R, image: &[u8], at_call: u64, fill: &[u8]) -> bool {
    let mut session = recovered(rt, stopping_disk(rt, copied(rt, image), at_call, fill));
    let most = three_commits(rt, &mut session);
    let least = session.acknowledged();
    let disk = session.into_disk();
    let reached = disk.calls() >= at_call;
    expect_eq_at(rt, at_call, least == 3, !reached);
    let mut session = recovered_in_memory(rt, disk.into_image());
    expect_goes_on(rt, &mut session, least, most);
    reached
}

/// Stops a format at each of its calls.
fn stop_each_call_of_a_format<R: Abort + AllocGlobal>(rt: &R, fill: &[u8]) {
    for at_call in 1..100 {
        if !stop_format(rt, at_call, fill) {
            return;
        }
    }
}

/// Stops three commits at each of their calls. The first call is that of recovery.
fn stop_each_call_of_commits<R: Abort + AllocGlobal>(rt: &R, image: &[u8], fill: &[u8]) {
    for at_call in 2..100 {
        if !stop_commits(rt, image, at_call, fill) {
            return;
        }
    }
}

#[test]
fn every_call_is_stopped(rt: HostRuntime) {
    let image = formatted(&rt, &IMAGE);
    for fill in FILLS {
        stop_each_call_of_a_format(&rt, fill);
        stop_each_call_of_commits(&rt, image.as_slice(), fill);
    }
}

/// After a failure of its disk the session fails, and a new one goes on from the disk.
fn expect_failed<R: Abort + AllocGlobal, D: Disk + Drop>(
    rt: &R,
    mut session: Session<D>,
    most: u64,
) {
    expect_refusal(rt, &mut session, &Event::Run(0, 1), SubmitFault::Failed);
    expect_commit(rt, &mut session, Err(CommitFault::Failed));
    let least = session.acknowledged();
    expect_output(rt, &mut session, 0, &[]);
    let mut session = recovered(rt, session.into_disk());
    expect_goes_on(rt, &mut session, least, most);
}

/// Three commits, and where the disk fails one of them, what stands then. Whether it failed.
fn fail_commits<R: Abort + AllocGlobal, D: Disk + Drop>(rt: &R, mut session: Session<D>) -> bool {
    let most = three_commits(rt, &mut session);
    if session.acknowledged() == 3 {
        return false;
    }
    expect_failed(rt, session, most);
    true
}

/// Format, recovery and three commits on a disk that may fail. Whether it did.
fn live_once<R: Abort + AllocGlobal, D: Disk + Drop>(rt: &R, mut disk: D) -> bool {
    if format_outcome(rt, &mut disk, SMALL, &IMAGE) == Err(FormatFault::Device) {
        return true;
    }
    match recovery_outcome(rt, disk) {
        Ok(session) => fail_commits(rt, session),
        Err(unrecovered) => {
            expect_eq(rt, unrecovered.fault, RecoverFault::Device);
            expect_goes_on(rt, &mut recovered(rt, unrecovered.disk), 0, 0);
            true
        }
    }
}

/// The same on a disk that fails one call. Whether it was reached.
fn fail_call<R: Abort + AllocGlobal>(rt: &R, at_call: u64) -> bool {
    let disk = memory_disk(rt, filled(rt, 0, SIZE));
    live_once(rt, FailingDisk::new(disk, at_call))
}

#[test]
fn every_call_fails_once(rt: HostRuntime) {
    for at_call in 1..200 {
        if !fail_call(&rt, at_call) {
            return;
        }
    }
    panic!(&rt; "no run without a failure");
}

/// An input of 64 bytes.
fn long_input() -> Event {
    let mut bytes = ArrayVec::new();
    match bytes.try_extend_from_slice(&[7; 64]) {
        Ok(()) => Event::Input(bytes),
        Err(_) => unreachable!(),
    }
}

/// 62 inputs of 64 bytes, after which the batch takes no more.
pub fn fill_batch<R: Abort, D: Disk>(rt: &R, session: &mut Session<D>) {
    let event = long_input();
    for count in 1..63 {
        expect_answer(rt, session, &event, count, Answer::Taken(64));
    }
}

#[test]
fn batch_and_journal_fill(rt: HostRuntime) {
    let mut session = recovered_in_memory(&rt, formatted(&rt, &IMAGE));
    expect_eq(&rt, session.room(), 4_095);
    expect_eq(&rt, session.generation(), 1);
    fill_batch(&rt, &mut session);
    expect_refusal(&rt, &mut session, &Event::Tick(1), SubmitFault::BatchFull);
    expect_refusal(&rt, &mut session, &Event::Eof, SubmitFault::JournalFull);
    expect_commit(&rt, &mut session, Ok(62));
    expect_eq(&rt, session.room(), 0);
    expect_refusal(&rt, &mut session, &Event::Tick(1), SubmitFault::JournalFull);
}

/// The session's output up to an offset is confirmed.
pub fn confirm<R: Abort, D: Disk>(rt: &R, session: &mut Session<D>, offset: u64) {
    assert!(rt; session.confirmed() <= offset && offset <= session.released());
    session.confirm(offset);
    expect_eq(rt, session.confirmed(), offset);
}

#[test]
fn output_is_taken_until_it_is_confirmed(rt: HostRuntime) {
    let mut session = recovered_in_memory(&rt, formatted(&rt, &IMAGE));
    expect_answer(&rt, &mut session, &Event::Place(0, 1), 1, Answer::Placed);
    expect_answer(
        &rt,
        &mut session,
        &Event::Run(0, 9),
        2,
        Answer::Ran(6, RunEnd::End),
    );
    expect_eq(&rt, session.released(), 0);
    expect_commit(&rt, &mut session, Ok(2));
    expect_output(&rt, &mut session, 0, b"A");
    expect_output(&rt, &mut session, 0, b"A");
    expect_eq(&rt, session.released(), 1);
    expect_eq(&rt, session.disk().size(), SIZE);
    confirm(&rt, &mut session, 1);
    expect_output(&rt, &mut session, 1, b"");

    // What was confirmed is no part of the disk: the next life begins with it again.
    let mut session = recovered_in_memory(&rt, session.into_disk().into_image());
    expect_eq(&rt, session.acknowledged(), 2);
    expect_eq(&rt, session.confirmed(), 0);
    expect_output(&rt, &mut session, 0, b"A");
}
