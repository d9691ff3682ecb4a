//! A closed witness of drives that a disk or an output fails. What stops a test meets any clause, so it shows its witness by coming to its
//! end.
ghost use Rattle.std.specs.Prelude.{◌≡◌, true};
ghost use Rattle.ckrt_disk.specs.Disk.{HasFailed};
ghost use Rattle.ckrt_drive.specs.declared.fault.DriveFault.TheVariants.{Device, Input, Output, OutputFull};
ghost use Rattle.ckrt_stored.specs.Programs.{Program, RecoversToStart};
ghost use Rattle.ckrt_witness.specs.Stopping.{FailedDrive, FailureWitness};

use crate::closed::{copied, formatted, stopping_disk};
use crate::closed_machine::WAITERS;
use crate::stopping::{fail_by_input, fail_drive};
use ckrt_disk::{Disk, StoppingDisk};
use ckrt_drive::{DriveFault, Options};
use std::process::Abort;

/// A drive that its disk fails.
fn by_disk<R: Abort + AllocGlobal>(rt: &R, disk: StoppingDisk, output: StoppingDisk)
    ensures { (p : Program) → RecoversToStart p (⟦<StoppingDisk as Disk>⟧.content disk)
        → (drive : FailedDrive ⟦<StoppingDisk as Disk>⟧ ⟦<StoppingDisk as Disk>⟧ p Device)
        × (drive.new.failed ≡ true) }
{
    match fail_drive(rt.alloc(), disk, output, Options::new(300, 1, u64::MAX)) {
        Some(DriveFault::Device) => {}
        _ => panic!(rt; "the disk doesn't fail the drive"),
    }
}

/// A drive that its output fails.
fn by_output<R: Abort + AllocGlobal>(rt: &R, disk: StoppingDisk, output: StoppingDisk)
    ensures { (p : Program) → RecoversToStart p (⟦<StoppingDisk as Disk>⟧.content disk)
        → (drive : FailedDrive ⟦<StoppingDisk as Disk>⟧ ⟦<StoppingDisk as Disk>⟧ p Output)
        × HasFailed (⟦<StoppingDisk as Disk>⟧.failures drive.output)
        (⟦<StoppingDisk as Disk>⟧.failures drive.end) }
{
    match fail_drive(rt.alloc(), disk, output, Options::new(300, 1, u64::MAX)) {
        Some(DriveFault::Output) => {}
        _ => panic!(rt; "the output doesn't fail the drive"),
    }
}

/// A drive whose output has no room.
fn without_room<R: Abort + AllocGlobal>(rt: &R, disk: StoppingDisk, output: StoppingDisk)
    ensures { (p : Program) → RecoversToStart p (⟦<StoppingDisk as Disk>⟧.content disk)
        → FailedDrive ⟦<StoppingDisk as Disk>⟧ ⟦<StoppingDisk as Disk>⟧ p OutputFull }
{
    match fail_drive(rt.alloc(), disk, output, Options::new(300, 1, u64::MAX)) {
        Some(DriveFault::OutputFull) => {}
        _ => panic!(rt; "the output has room"),
    }
}

/// A drive that its input fails.
fn by_input<R: Abort + AllocGlobal>(
    rt: &R,
    disk: StoppingDisk,
    output: StoppingDisk,
    input: StoppingDisk,
) -> StoppingDisk
    ensures { (p : Program) → RecoversToStart p (⟦<StoppingDisk as Disk>⟧.content disk)
        → FailedDrive ⟦<StoppingDisk as Disk>⟧ ⟦<StoppingDisk as Disk>⟧ p Input
        × HasFailed (⟦<StoppingDisk as Disk>⟧.failures input)
        (⟦<StoppingDisk as Disk>⟧.failures result) }
{
    match fail_by_input(
        rt.alloc(),
        disk,
        output,
        input,
        Options::new(300, 1, u64::MAX),
    ) {
        Some(end) => end,
        None => panic!(rt; "the input doesn't fail the drive"),
    }
}

/// Drives of one program, each of which fails so: they meet all premises of the clauses.
fn failures<R: Abort + AllocGlobal>(rt: &R)
    ensures { FailureWitness ⟦<StoppingDisk as Disk>⟧ }
{
    let image = formatted(rt, WAITERS);
    let disk = stopping_disk(rt, copied(rt, &image), 3);
    by_disk(rt, disk, stopping_disk(rt, copied(rt, &[0; 8]), 0));
    let disk = stopping_disk(rt, copied(rt, &image), 0);
    by_output(rt, disk, stopping_disk(rt, copied(rt, &[0; 8]), 1));
    let disk = stopping_disk(rt, copied(rt, &image), 0);
    without_room(rt, disk, stopping_disk(rt, copied(rt, &[]), 0));
    let disk = stopping_disk(rt, copied(rt, &image), 0);
    let output = stopping_disk(rt, copied(rt, &[0; 8]), 0);
    let mut input = stopping_disk(rt, copied(rt, b"Ab"), 1);
    let _ = input.sync();
    let _end = by_input(rt, disk, output, input);
}

#[test]
fn the_premises_of_drives_that_fail_are_met(rt: HostRuntime) {
    failures(&rt);
}
