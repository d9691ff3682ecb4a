//! Checkpoints of changed pages: a guest that stores into one page, and which pages are written for it.

use crate::expect::{copied, expect_eq, expect_eq_at, stopping_disk};
use crate::sessions::{expect_checkpoint, is_saved};
use crate::small_disk::{formatted, recovered, recovered_in_memory};
use crate::two_areas::save_once;
use ckrt_disk::{Disk, StoppingDisk};
use ckrt_memory::Memory;
use ckrt_recovery::Session;
use std::process::Abort;

/// lui x5, 2; sw x5, 0(x5): the word 0x2000 goes to the address 0x2000, the first of page 2.
const STORING: [u8; 8] = [0xb7, 0x22, 0x00, 0x00, 0x23, 0xa0, 0x52, 0x00];

/// The first word of page 2 once the guest has stored it.
const STORED: [u8; 4] = [0x00, 0x20, 0x00, 0x00];

/// The calls of the disk before the second checkpoint: a sync of recovery, 4 of a commit, 21 of a checkpoint of all 15 pages,
/// 4 of a commit.
const CALLS_BEFORE: u64 = 30;

/// Those after each later checkpoint: of page 2 into area 0, of page 2 into area 1, and of no page. Each closes a gate by 2
/// calls, and makes 6 beside its pages.
const CALLS: [u64; 3] = [39, 48, 56];

/// A checkpoint, after which that many writes and syncs were made.
fn expect_saved<R: Abort>(rt: &R, session: &mut Session<StoppingDisk>, calls: u64) {
    expect_checkpoint(rt, session, Ok(2));
    expect_eq(rt, session.disk().calls(), calls);
}

/// What the guest stored stands in its page.
fn expect_page<R: Abort>(rt: &R, memory: &Memory) {
    assert!(rt; memory.pages() == 16);
    assert!(rt; memory.page(2).starts_with(&STORED));
}

/// It recovers to both events, and to what the guest stored. The generation in use.
fn expect_stored<R: Abort + AllocGlobal>(rt: &R, image: Vec<u8>, at_call: u64) -> u64 {
    let session = recovered_in_memory(rt, image);
    expect_eq_at(rt, at_call, session.acknowledged(), 2);
    expect_page(rt, session.machine().memory());
    session.generation()
}

#[test]
fn a_checkpoint_writes_the_pages_that_changed(rt: HostRuntime) {
    let disk = stopping_disk(&rt, formatted(&rt, &STORING), 0, &[]);
    let mut session = recovered(&rt, disk);
    save_once(&rt, &mut session);
    expect_eq(&rt, session.disk().calls(), CALLS_BEFORE);
    for calls in CALLS {
        expect_saved(&rt, &mut session, calls);
    }
    let generation = expect_stored(&rt, session.into_disk().into_image(), 0);
    expect_eq(&rt, generation, 5);
}

/// The checkpoints after the store, up to the first that fails.
fn save_until_it_fails(session: &mut Session<StoppingDisk>) {
    for _ in CALLS {
        if !is_saved(session) {
            return;
        }
    }
}

/// The run is stopped at a call of the checkpoints after the store.
fn stop_at<R: Abort + AllocGlobal>(rt: &R, image: &[u8], at_call: u64, fill: &[u8]) {
    let mut session = recovered(rt, stopping_disk(rt, copied(rt, image), at_call, fill));
    save_once(rt, &mut session);
    save_until_it_fails(&mut session);
    expect_stored(rt, session.into_disk().into_image(), at_call);
}

/// Each stop of these checkpoints, with what a stop leaves of a write.
fn expect_every_stop<R: Abort + AllocGlobal>(rt: &R, fill: &[u8]) {
    let image = formatted(rt, &STORING);
    for at_call in 31..57 {
        stop_at(rt, image.as_slice(), at_call, fill);
    }
}

#[test]
fn stored_at_every_stop_that_leaves_a5(rt: HostRuntime) {
    expect_every_stop(&rt, &[0xa5]);
}

#[test]
fn stored_at_every_stop_that_leaves_00(rt: HostRuntime) {
    expect_every_stop(&rt, &[0]);
}

#[test]
fn stored_at_every_stop_that_leaves_ff(rt: HostRuntime) {
    expect_every_stop(&rt, &[0xff]);
}

#[test]
fn stored_at_every_stop_that_leaves_a5_and_00(rt: HostRuntime) {
    expect_every_stop(&rt, &[0xa5, 0]);
}

#[test]
fn stored_at_every_stop_that_leaves_what_was_written(rt: HostRuntime) {
    expect_every_stop(&rt, &[]);
}
