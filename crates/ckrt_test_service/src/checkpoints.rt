//! Whole checkpoints of a session: what they save and empty, what each stop of one leaves, and how the next life goes on.

use crate::expect::{copied, expect_eq, expect_eq_at, stopping_disk};
use crate::power_loss::{confirm, fill_batch};
use crate::sessions::{
    expect_answer, expect_checkpoint, expect_commit, expect_output, expect_refusal,
};
use crate::small_disk::{formatted, recovered, recovered_in_memory};
use crate::two_areas::save_once;
use ckrt_disk::{Disk, MemoryDisk, StoppingDisk};
use ckrt_events::Event;
use ckrt_machine::{Answer, RunEnd};
use ckrt_recovery::{CommitFault, Session, SubmitFault};
use ckrt_test_storage::{FILLS, IMAGE};
use std::process::Abort;

/// The calls of the disk up to the second checkpoint: a sync of recovery, 4 of a commit, 21 of a checkpoint, 4 of a commit.
const CALLS_BEFORE: u64 = 30;

/// Those of the second checkpoint before the gate is opened: 2 that close it, and 4, since no page has changed; then the gate
/// and its sync.
const CALLS_BEFORE_GATE: u64 = 36;

const CALLS: u64 = 38;

/// The generation in use, and how many bytes the journal has left for batches.
fn expect_journal<R: Abort, D: Disk>(rt: &R, session: &Session<D>, generation: u64, room: usize) {
    expect_eq(rt, session.generation(), generation);
    expect_eq(rt, session.room(), room);
}

#[test]
fn a_checkpoint_empties_the_journal(rt: HostRuntime) {
    let mut session = recovered_in_memory(&rt, formatted(&rt, &IMAGE));
    let tick = Event::Tick(1);
    fill_batch(&rt, &mut session);
    expect_refusal(&rt, &mut session, &tick, SubmitFault::BatchFull);
    expect_refusal(&rt, &mut session, &Event::Eof, SubmitFault::JournalFull);
    expect_commit(&rt, &mut session, Ok(62));
    expect_journal(&rt, &session, 1, 0);
    expect_refusal(&rt, &mut session, &tick, SubmitFault::JournalFull);
    expect_checkpoint(&rt, &mut session, Ok(62));
    expect_journal(&rt, &session, 2, 4_095);
    expect_answer(&rt, &mut session, &tick, 63, Answer::Ticked(0));
}

/// The session of the next life.
fn next_life<R: Abort + AllocGlobal>(rt: &R, session: Session<MemoryDisk>) -> Session<MemoryDisk> {
    recovered(rt, session.into_disk())
}

/// The program is placed and runs to its end.
fn run_to_the_end<R: Abort, D: Disk>(rt: &R, session: &mut Session<D>) {
    expect_answer(rt, session, &Event::Place(0, 1), 1, Answer::Placed);
    let ended = Answer::Ran(6, RunEnd::End);
    expect_answer(rt, session, &Event::Run(0, 6), 2, ended);
}

#[test]
fn output_is_held_over_a_checkpoint(rt: HostRuntime) {
    let mut session = recovered_in_memory(&rt, formatted(&rt, &IMAGE));
    run_to_the_end(&rt, &mut session);
    expect_checkpoint(&rt, &mut session, Ok(2));
    let mut session = next_life(&rt, session);
    expect_output(&rt, &mut session, 0, &[0x41]);
    confirm(&rt, &mut session, 1);
    expect_output(&rt, &mut session, 1, &[]);
    let mut session = next_life(&rt, session);
    expect_output(&rt, &mut session, 0, &[0x41]);
}

/// That many writes and syncs were made.
fn expect_calls<R: Abort>(rt: &R, session: &Session<StoppingDisk>, calls: u64) {
    expect_eq(rt, session.disk().calls(), calls);
}

/// A commit and a checkpoint, and how many calls were made then.
fn expect_committed<R: Abort>(
    rt: &R,
    session: &mut Session<StoppingDisk>,
    count: u64,
    committed: u64,
    saved: u64,
) {
    expect_commit(rt, session, Ok(count));
    expect_calls(rt, session, committed);
    expect_checkpoint(rt, session, Ok(count));
    expect_calls(rt, session, saved);
}

#[test]
fn a_checkpoint_makes_its_calls(rt: HostRuntime) {
    let disk = stopping_disk(&rt, formatted(&rt, &IMAGE), 0, &[]);
    let mut session = recovered(&rt, disk);
    expect_calls(&rt, &session, 1);
    expect_answer(&rt, &mut session, &Event::Place(0, 1), 1, Answer::Placed);
    expect_committed(&rt, &mut session, 1, 5, 26);
    let ran = Answer::Ran(2, RunEnd::On);
    expect_answer(&rt, &mut session, &Event::Run(0, 2), 2, ran);
    // The gate of area 0 is open: 2 calls more.
    expect_committed(&rt, &mut session, 2, CALLS_BEFORE, CALLS);
    expect_journal(&rt, &session, 3, 4_095);
}

/// What a stop at a call of the second checkpoint leaves.
fn stopped<R: Abort + AllocGlobal>(rt: &R, image: &[u8], at_call: u64, fill: &[u8]) -> Vec<u8> {
    let mut session = recovered(rt, stopping_disk(rt, copied(rt, image), at_call, fill));
    save_once(rt, &mut session);
    expect_checkpoint(rt, &mut session, Err(CommitFault::Device));
    expect_refusal(rt, &mut session, &Event::Run(0, 1), SubmitFault::Failed);
    expect_checkpoint(rt, &mut session, Err(CommitFault::Failed));
    session.into_disk().into_image()
}

/// It recovers to the two events, of this generation, and goes on from them.
fn expect_left<R: Abort + AllocGlobal>(
    rt: &R,
    image: &[u8],
    at_call: u64,
    fill: &[u8],
    generation: u64,
) {
    let mut session = recovered_in_memory(rt, stopped(rt, image, at_call, fill));
    expect_eq_at(rt, at_call, session.acknowledged(), 2);
    expect_eq_at(rt, at_call, session.generation(), generation);
    let ended = Answer::Ran(4, RunEnd::End);
    expect_answer(rt, &mut session, &Event::Run(0, 9), 3, ended);
    expect_commit(rt, &mut session, Ok(3));
    expect_output(rt, &mut session, 0, &[0x41]);
}

/// Each stop of the second checkpoint. The new area is in use where its gate was left open.
fn expect_stops<R: Abort + AllocGlobal>(rt: &R, image: &[u8], fill: &[u8]) {
    for call in CALLS_BEFORE..CALLS_BEFORE_GATE {
        expect_left(rt, image, call.saturating_add(1), fill, 2);
    }
    let generation = match fill.first() {
        Some(byte) if *byte != 0xa5 => 2,
        _ => 3,
    };
    for call in CALLS_BEFORE_GATE..CALLS {
        expect_left(rt, image, call.saturating_add(1), fill, generation);
    }
}

#[test]
fn every_call_of_a_second_checkpoint_is_stopped(rt: HostRuntime) {
    let image = formatted(&rt, &IMAGE);
    for fill in FILLS {
        expect_stops(&rt, image.as_slice(), fill);
    }
}
