//! Closed witnesses of the promise "safe and total". What stops a test meets any clause, so each shows its witness by coming to its
//! end.
ghost use Rattle.ckrt_witness.specs.Faults.{FailsCommit, HasEachFault, IsLastGeneration, IsRefused};

use crate::closed::{SMALL, copied, formatted, memory_disk, stopping_disk};
use crate::closed_machine::WAITERS;
use crate::faults::{fail_commit, have_each_fault, is_refused, refuse_checkpoint};
use ckrt_disk::{Disk, MemoryDisk, StoppingDisk};
use ckrt_events::Event;
use ckrt_recovery::Config;
use std::process::Abort;

/// A session whose disk stops within its commit.
fn failed<R: Abort + AllocGlobal>(rt: &R)
    ensures { FailsCommit ⟦<StoppingDisk as Disk>⟧ }
{
    let disk = stopping_disk(rt, formatted(rt, WAITERS), 3);
    match fail_commit(rt.alloc(), disk, &Event::Run(0, 1), &Event::Place(0, 1)) {
        Some(_) => {}
        None => panic!(rt; "the disk doesn't fail the commit"),
    }
}

/// Contents that recover to each fault.
fn contents<R: Abort + AllocGlobal>(rt: &R, blank: &[u8], other: &[u8], torn: &[u8])
    ensures { HasEachFault blank.now other.now torn.now }
{
    if !have_each_fault(rt.alloc(), blank, other, torn) {
        panic!(rt; "a content recovers otherwise");
    }
}

/// A session of the last generation.
fn last<R: Abort + AllocGlobal>(rt: &R, image: Vec<u8>)
    ensures { IsLastGeneration ⟦<MemoryDisk as Disk>⟧ }
{
    let disk = memory_disk(rt, image);
    match refuse_checkpoint(rt.alloc(), disk) {
        Some(_) => {}
        None => panic!(rt; "there is a checkpoint of it"),
    }
}

/// A line and an image that are refused.
fn refused<R: Abort>(rt: &R, line: &[u8], image: &[u8], config: &Config)
    ensures { IsRefused line.now image.now config.now }
{
    if !is_refused(line, image, config) {
        panic!(rt; "the line is a command, or the image isn't too long");
    }
}

/// The bytes of a formatted disk, with others from a place on.
fn changed<R: Abort + AllocGlobal>(rt: &R, at: usize, bytes: &[u8]) -> Vec<u8> {
    let mut image = formatted(rt, WAITERS);
    let Some(room) = image
        .as_mut_slice()
        .get_mut(at..at.saturating_add(bytes.len()))
    else {
        panic!(rt; "the disk has that place");
    };
    room.copy_from_slice(bytes);
    image
}

#[test]
fn the_premises_of_a_failed_commit_are_met(rt: HostRuntime) {
    failed(&rt);
}

#[test]
fn the_premises_of_each_fault_are_met(rt: HostRuntime) {
    let blank = vec![in rt.alloc(); 0u8; 348_160].expect(&rt, "memory for bytes");
    let other = changed(&rt, 16, &[9]);
    let torn = changed(&rt, 4_096, &[0]);
    contents(&rt, blank.as_slice(), other.as_slice(), torn.as_slice());
}

#[test]
fn the_premises_of_the_last_generation_are_met(rt: HostRuntime) {
    last(&rt, changed(&rt, 4_104, &[0xff; 8]));
}

#[test]
fn the_premises_of_refusals_are_met(rt: HostRuntime) {
    let long = vec![in rt.alloc(); 0u8; 61_441].expect(&rt, "memory for an image");
    refused(&rt, b"place 0", long.as_slice(), &SMALL);
}
