//! Calls of a session, and what they answer. They ensure nothing, so tests that make them are cheap to prove.

use crate::expect::{expect_bytes, expect_eq};
use ckrt_disk::Disk;
use ckrt_events::Event;
use ckrt_machine::{Answer, Machine};
use ckrt_recovery::{CommitFault, Session, SubmitFault};
use std::process::Abort;

/// What a session answers to an event in range.
pub fn submitted<R: Abort, D: Disk>(
    rt: &R,
    session: &mut Session<D>,
    event: &Event,
) -> Result<(u64, Answer), SubmitFault> {
    assert!(rt; event.in_range());
    session.submit(event)
}

/// An event that a session accepts.
pub fn expect_answer<R: Abort, D: Disk>(
    rt: &R,
    session: &mut Session<D>,
    event: &Event,
    count: u64,
    answer: Answer,
) {
    expect_eq(rt, submitted(rt, session, event), Ok((count, answer)));
}

/// An event that a session refuses.
pub fn expect_refusal<R: Abort, D: Disk>(
    rt: &R,
    session: &mut Session<D>,
    event: &Event,
    fault: SubmitFault,
) {
    expect_eq(rt, submitted(rt, session, event), Err(fault));
}

/// A commit, and what it answers.
pub fn expect_commit<R: Abort, D: Disk>(
    rt: &R,
    session: &mut Session<D>,
    want: Result<u64, CommitFault>,
) {
    expect_eq(rt, session.commit(), want);
}

/// A checkpoint, and what it answers.
pub fn expect_checkpoint<R: Abort, D: Disk>(
    rt: &R,
    session: &mut Session<D>,
    want: Result<u64, CommitFault>,
) {
    expect_eq(rt, session.checkpoint(), want);
}

/// A commit, where the disk doesn't fail.
pub fn is_committed<D: Disk>(session: &mut Session<D>) -> bool {
    match session.commit() {
        Ok(_) => true,
        Err(_) => false,
    }
}

/// A checkpoint, where the disk doesn't fail.
pub fn is_saved<D: Disk>(session: &mut Session<D>) -> bool {
    match session.checkpoint() {
        Ok(_) => true,
        Err(_) => false,
    }
}

/// The output that isn't confirmed.
pub fn expect_output<R: Abort, D: Disk>(
    rt: &R,
    session: &mut Session<D>,
    offset: u64,
    bytes: &[u8],
) {
    let (at, output) = session.take_output();
    expect_eq(rt, at, offset);
    expect_bytes(rt, output, bytes);
}

/// The event's answer by a machine that never had a disk.
pub fn step_if_accepted<R: Abort>(rt: &R, machine: &mut Machine, event: &Event) -> Option<Answer> {
    assert!(rt; event.in_range());
    match machine.accept(0, event) {
        Ok(()) => Some(machine.step(event)),
        Err(_) => None,
    }
}

/// One more event gets the same answer and puts the same bytes, by a session and by a machine.
pub fn expect_same_step<R: Abort, D: Disk>(
    rt: &R,
    session: &mut Session<D>,
    machine: &mut Machine,
    event: &Event,
) {
    let answer = step_if_accepted(rt, machine, event);
    let submitted = match submitted(rt, session, event) {
        Ok((_, answer)) => Some(answer),
        Err(_) => None,
    };
    expect_eq(rt, submitted, answer);
    expect_bytes(rt, session.machine().last_output(), machine.last_output());
}
