//! Closed witnesses of the laws of the two areas of a disk. What stops a test meets any clause, so each shows its witness by coming to its
//! end.
ghost use Rattle.std.specs.Prelude.{ℕ, List, Ok};
ghost use Rattle.ckrt_stored.specs.Recovery.{Recovered, Recovers};
ghost use Rattle.ckrt_witness.specs.Areas.{FrameWitness, SwitchWitness};

use crate::areas::{change_unused, has_both_open};
use crate::closed::{formatted, memory_disk};
use crate::closed_machine::WAITERS;
use ckrt_disk::{Disk, MemoryDisk};
use ckrt_recovery::recover;
use std::process::Abort;

/// A formatted disk, and the same one with another byte in the area that isn't in use.
fn changed<R: Abort + AllocGlobal>(rt: &R, byte: u8)
    ensures { (before : List ℕ) × (image : List ℕ) × FrameWitness before image }
{
    let mut disk = memory_disk(rt, formatted(rt, WAITERS));
    if !change_unused(&mut disk, byte) {
        panic!(rt; "the byte stands there, or the gate is open");
    }
}

/// A disk with a checkpoint of a program.
fn saved<R: Abort + AllocGlobal>(rt: &R) -> MemoryDisk
    ensures { (r : Recovered) × Recovers (⟦<MemoryDisk as Disk>⟧.content result) (Ok r) }
{
    let disk = memory_disk(rt, formatted(rt, WAITERS));
    let Ok(mut session) = recover(rt.alloc(), disk) else {
        panic!(rt; "the disk doesn't recover");
    };
    let Ok(_count) = session.checkpoint() else {
        panic!(rt; "there is no checkpoint of it");
    };
    session.into_disk()
}

/// A disk of which both areas are open.
fn switched<R: Abort + AllocGlobal>(rt: &R)
    ensures { (image : List ℕ) × SwitchWitness image }
{
    let mut disk = saved(rt);
    if !has_both_open(&mut disk) {
        panic!(rt; "an area isn't open");
    }
}

#[test]
fn the_premises_of_an_unused_area_are_met(rt: HostRuntime) {
    changed(&rt, 7);
}

#[test]
fn the_premises_of_the_newest_area_are_met(rt: HostRuntime) {
    switched(&rt);
}
