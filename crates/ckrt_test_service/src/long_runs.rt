//! Long runs, and the way to them from disks of version 1.

use crate::expect::{copied, expect_eq, expect_eq_at, lay, memory_disk, old_disk, stopping_disk};
use crate::service::lived;
use crate::sessions::{
    expect_answer, expect_checkpoint, expect_commit, expect_output, expect_refusal, is_saved,
};
use crate::small_disk::{formatted, recovered, recovered_in_memory, recovery_outcome};
use ckrt_disk::{Disk, StoppingDisk};
use ckrt_events::Event;
use ckrt_machine::{Answer, Refusal, RunEnd};
use ckrt_recovery::{RecoverFault, Session, SubmitFault};
use ckrt_test_storage::{AREAS, FILLS, IMAGE, LOOPS, SIX_WORDS};
use std::process::Abort;

/// Where the journal of area 0 begins.
const JOURNAL: usize = 339_968;

#[test]
fn a_long_run_needs_a_checkpoint_first(rt: HostRuntime) {
    lived(
        &rt,
        old_disk(&rt, &SIX_WORDS),
        b"place 0 1\nrunlong 0 6\ncheckpoint\nrunlong 0 6\ncommit\n",
        b"ok 1 placed\nno 27 NeedsCheckpoint\nack 1\nok 2 ran 6 end\nack 2\nout 0 41\n",
    );
}

#[test]
fn a_disk_that_is_formatted_now_takes_long_runs(rt: HostRuntime) {
    let disk = lived(
        &rt,
        formatted(&rt, &IMAGE),
        b"runlong 0 6\nplace 0 1\nrunlong 0 1000001\nrunlong 0 0\nrunlong 0 6\ncommit\n",
        b"no 5 HartIdle\nok 1 placed\nno 34 Range\nno 34 Range\nok 2 ran 6 end\nack 2\nout 0 41\n",
    );
    lived(&rt, disk, b"runlong 0 1\n", b"out 0 41\nno 1 Ended\n");
}

/// It makes all of its steps, now and when it is replayed.
#[test]
fn a_long_run_is_longer_than_a_run(rt: HostRuntime) {
    let mut image = formatted(&rt, &[]);
    lay(&rt, &mut image, AREAS[0] + 106_496, &LOOPS[0].to_le_bytes());
    let disk = lived(
        &rt,
        image,
        b"place 0 1\nrunlong 0 1000000\ncommit\n",
        b"ok 1 placed\nok 2 ran 1000000 on\nack 2\n",
    );
    lived(&rt, disk, b"run 0 1\n", b"ok 3 ran 1 on\n");
}

/// Place(0, 1) and RunLong(0, 2), as a batch after an open gate.
const LONG_BATCH: [u8; 13] = [0xa5, 9, 0, 1, 0, 1, 6, 0, 2, 0, 0, 0, 0];

/// RunLong(0, 1) alone.
const LONG_RUN: [u8; 10] = [0xa5, 6, 0, 6, 0, 1, 0, 0, 0, 0];

/// A disk with these bytes at the beginning of the journal of area 0.
fn journaled<R: Abort>(rt: &R, disk: Vec<u8>, bytes: &[u8]) -> Vec<u8> {
    let mut disk = disk;
    lay(rt, &mut disk, JOURNAL, bytes);
    disk
}

/// The disk isn't recovered.
fn expect_damaged<R: Abort + AllocGlobal>(rt: &R, disk: Vec<u8>) {
    let outcome = recovery_outcome(rt, memory_disk(rt, disk));
    let fault = match outcome {
        Ok(_) => None,
        Err(unrecovered) => Some(unrecovered.fault),
    };
    expect_eq(rt, fault, Some(RecoverFault::Damaged));
}

#[test]
fn a_journal_of_version_1_has_no_long_run(rt: HostRuntime) {
    expect_damaged(&rt, journaled(&rt, old_disk(&rt, &SIX_WORDS), &LONG_RUN));
    expect_damaged(&rt, journaled(&rt, old_disk(&rt, &SIX_WORDS), &LONG_BATCH));
    let disk = journaled(&rt, formatted(&rt, &IMAGE), &LONG_BATCH);
    let session = recovered_in_memory(&rt, disk);
    expect_eq(&rt, session.acknowledged(), 2);
}

const SIX_STEPS: Event = Event::RunLong(0, 6);

/// What a session has acknowledged, and of which version and generation its area is.
fn expect_stand<R: Abort, D: Disk>(
    rt: &R,
    session: &Session<D>,
    count: u64,
    version: u32,
    generation: u64,
) {
    expect_eq(rt, session.acknowledged(), count);
    expect_eq(rt, session.version(), version);
    expect_eq(rt, session.generation(), generation);
}

/// The placed program of an old disk, saved in version 2, and a long run in that journal.
fn migrated<R: Abort + AllocGlobal>(rt: &R) -> Vec<u8> {
    let mut session = recovered_in_memory(rt, old_disk(rt, &SIX_WORDS));
    expect_refusal(rt, &mut session, &SIX_STEPS, SubmitFault::NeedsCheckpoint);
    expect_answer(rt, &mut session, &Event::Place(0, 1), 1, Answer::Placed);
    expect_commit(rt, &mut session, Ok(1));
    expect_stand(rt, &session, 1, 1, 1);
    expect_checkpoint(rt, &mut session, Ok(1));
    expect_stand(rt, &session, 1, 2, 2);
    let ended = Answer::Ran(6, RunEnd::End);
    expect_answer(rt, &mut session, &SIX_STEPS, 2, ended);
    expect_commit(rt, &mut session, Ok(2));
    expect_stand(rt, &session, 2, 2, 2);
    session.into_disk().into_image()
}

/// Each area's journal is read by its own version, and the session has that of the area in use.
#[test]
fn two_areas_of_two_versions(rt: HostRuntime) {
    let disk = migrated(&rt);
    let mut session = recovered_in_memory(&rt, copied(&rt, disk.as_slice()));
    expect_stand(&rt, &session, 2, 2, 2);
    let ended = SubmitFault::Refused(Refusal::Ended);
    expect_refusal(&rt, &mut session, &SIX_STEPS, ended);
    let mut first = disk;
    lay(&rt, &mut first, AREAS[1], &[0]);
    let mut session = recovered_in_memory(&rt, copied(&rt, first.as_slice()));
    expect_stand(&rt, &session, 1, 1, 1);
    expect_refusal(&rt, &mut session, &SIX_STEPS, SubmitFault::NeedsCheckpoint);
    expect_damaged(&rt, journaled(&rt, first, &LONG_BATCH));
}

/// The session of an old disk that stops at a call, once its program is placed and saved in version 2, or the stop has come.
fn migrate<R: Abort>(rt: &R, session: &mut Session<StoppingDisk>) {
    expect_answer(rt, session, &Event::Place(0, 1), 1, Answer::Placed);
    if is_saved(session) {
        expect_stand(rt, session, 1, 2, 2);
    } else {
        expect_refusal(rt, session, &SIX_STEPS, SubmitFault::Failed);
        expect_stand(rt, session, 0, 1, 1);
    }
}

/// What a stop left goes on by a long run: at once where the new area was left whole, and else after a checkpoint.
fn expect_goes_on<R: Abort + AllocGlobal>(rt: &R, at_call: u64, left: Vec<u8>) {
    let mut session = recovered_in_memory(rt, left);
    let version = session.version();
    expect_eq_at(rt, at_call, session.generation(), u64::from(version));
    expect_eq_at(
        rt,
        at_call,
        session.acknowledged().saturating_add(1),
        u64::from(version),
    );
    if version == 1 {
        expect_refusal(rt, &mut session, &SIX_STEPS, SubmitFault::NeedsCheckpoint);
        expect_answer(rt, &mut session, &Event::Place(0, 1), 1, Answer::Placed);
        expect_checkpoint(rt, &mut session, Ok(1));
    }
    let ended = Answer::Ran(6, RunEnd::End);
    expect_answer(rt, &mut session, &SIX_STEPS, 2, ended);
    expect_commit(rt, &mut session, Ok(2));
    expect_output(rt, &mut session, 0, &[0x41]);
}

/// A migrating checkpoint on a disk that stops at a call after its recovery. How many calls it counted.
fn stop_at<R: Abort + AllocGlobal>(rt: &R, old: &[u8], at_call: u64, fill: &[u8]) -> u64 {
    let mut session = recovered(rt, stopping_disk(rt, copied(rt, old), at_call, fill));
    migrate(rt, &mut session);
    let disk = session.into_disk();
    let calls = disk.calls();
    expect_goes_on(rt, at_call, disk.into_image());
    calls
}

/// The first call that it doesn't reach, after a run for each of those before it but the sync of recovery.
fn first_unreached<R: Abort + AllocGlobal>(rt: &R, old: &[u8], fill: &[u8]) -> u64 {
    for at_call in 2..200 {
        if stop_at(rt, old, at_call, fill) < at_call {
            return at_call;
        }
    }
    0
}

/// One sync of recovery, and the 21 calls of a checkpoint of 15 pages.
#[test]
fn every_call_of_the_checkpoint_into_version_2_is_stopped(rt: HostRuntime) {
    let old = old_disk(&rt, &SIX_WORDS);
    for fill in FILLS {
        expect_eq(&rt, first_unreached(&rt, old.as_slice(), fill), 1 + 21 + 1);
    }
}
