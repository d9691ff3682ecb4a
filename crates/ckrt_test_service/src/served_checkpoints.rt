//! Checkpoints by lines.

use crate::expect::{expect_eq, memory_disk, stopping_disk};
use crate::service::expect_replies;
use crate::sessions::expect_checkpoint;
use crate::small_disk::{formatted, recovered, recovered_in_memory};
use ckrt_disk::Disk;
use ckrt_recovery::{CommitFault, Session};
use ckrt_test_storage::IMAGE;
use std::process::Abort;

/// The generation in use, and how many bytes the journal has left for batches.
fn expect_journal<R: Abort, D: Disk>(rt: &R, session: &Session<D>, generation: u64, room: usize) {
    expect_eq(rt, session.generation(), generation);
    expect_eq(rt, session.room(), room);
}

#[test]
fn a_line_checkpoint_is_acknowledged(rt: HostRuntime) {
    let mut session = recovered_in_memory(&rt, formatted(&rt, &IMAGE));
    expect_replies(
        &rt,
        &mut session,
        b"place 0 1\nrun 0 6\ncheckpoint\ncheckpoint\n",
        b"ok 1 placed\nok 2 ran 6 end\nack 2\nout 0 41\nack 2\n",
    );
    expect_journal(&rt, &session, 3, 4_095);
    let mut session = recovered(&rt, session.into_disk());
    expect_replies(&rt, &mut session, b"run 0 1\n", b"no 1 Ended\n");
}

#[test]
fn a_line_checkpoint_is_refused(rt: HostRuntime) {
    let disk = stopping_disk(&rt, formatted(&rt, &IMAGE), 2, &[]);
    let mut session = recovered(&rt, disk);
    let lines = b"checkpoint\ncheckpoint\n";
    expect_replies(&rt, &mut session, lines, b"no 25 Device\nno 21 Failed\n");
}

/// The image of a disk whose area in use has the last generation.
fn last_generation<R: Abort + AllocGlobal>(rt: &R) -> Vec<u8> {
    let mut image = formatted(rt, &IMAGE);
    assert!(rt; image.len() >= 4_112);
    image.as_mut_slice()[4_104..4_112].copy_from_slice(&[0xff; 8]);
    image
}

#[test]
fn the_last_generation_is_the_last(rt: HostRuntime) {
    let mut session = recovered(&rt, memory_disk(&rt, last_generation(&rt)));
    expect_journal(&rt, &session, u64::MAX, 4_095);
    expect_checkpoint(&rt, &mut session, Err(CommitFault::GenerationsUsed));
    let lines = b"checkpoint\nplace 0 1\ncommit\n";
    let want = b"no 26 GenerationsUsed\nok 1 placed\nack 1\n";
    expect_replies(&rt, &mut session, lines, want);
    expect_journal(&rt, &session, u64::MAX, 4_089);
}
