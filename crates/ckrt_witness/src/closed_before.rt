//! A closed witness of what a stop before a drive leaves. What stops a test meets any clause, so it shows its witness by coming to its end.
ghost use Rattle.std.specs.Prelude.{false, true};
ghost use Rattle.ckrt_disk.specs.Frame.{IsOnlyRead};
ghost use Rattle.ckrt_recovery.specs.Opening.{IsSyncedAndRead};
ghost use Rattle.ckrt_witness.specs.Before.{BeforeWitness};

use crate::before::{fail_recovery, read_before, stop_before};
use crate::closed::{GUEST, STOP, copied, drove, formatted, memory_disk, stopping_disk};
use ckrt_disk::{Disk, MemoryDisk, StoppingDisk};
use std::process::Abort;

/// A disk whose record is read.
fn looked<R: Abort>(rt: &R, disk: StoppingDisk) -> StoppingDisk
    ensures { IsOnlyRead ⟦<StoppingDisk as Disk>⟧ disk result false }
{
    match read_before(disk) {
        Some(end) => end,
        None => panic!(rt; "the disk has no record"),
    }
}

/// A disk that fails its recovery.
fn broken<R: Abort + AllocGlobal>(rt: &R, disk: StoppingDisk) -> StoppingDisk
    ensures { IsSyncedAndRead ⟦<StoppingDisk as Disk>⟧ disk result true }
{
    match fail_recovery(rt.alloc(), disk) {
        Some(end) => end,
        None => panic!(rt; "the disk recovers"),
    }
}

/// A drive that is stopped within a call, and stops behind it of a disk that was read and of one that failed its recovery: they meet all
/// premises of the laws.
fn before_a_drive<R: Abort + AllocGlobal>(rt: &R, text: &[u8], old: &[u8])
    ensures { BeforeWitness ⟦<StoppingDisk as Disk>⟧ ⟦<MemoryDisk as Disk>⟧ }
{
    let image = formatted(rt, GUEST);
    let output = memory_disk(rt, copied(rt, old));
    let first = drove(rt, image, STOP, output, text);
    let left = first.session.into_disk().into_image();
    let opened = memory_disk(rt, first.output.into_image());
    let next = stopping_disk(rt, copied(rt, &left), 0);
    let begun = stopping_disk(rt, left, 1);
    let looked = looked(rt, next);
    let broken = broken(rt, begun);
    let _behind_read = stopping_disk(rt, looked.into_image(), 0);
    let _behind_recovery = stopping_disk(rt, broken.into_image(), 0);
    let _other = memory_disk(rt, opened.into_image());
    stop_before::<StoppingDisk, MemoryDisk>();
}

#[test]
fn the_premises_before_a_drive_are_met(rt: HostRuntime) {
    before_a_drive(&rt, b"Ab", b"..");
}
