//! A closed witness of the promise of turns in drives. What stops a test meets any clause, so it shows its witness by coming to its end.
ghost use Rattle.std.specs.Prelude.{None};
ghost use Rattle.ckrt_drive.specs.Plan.{schedule_of};
ghost use Rattle.ckrt_drive.specs.ByPlan.{course};
ghost use Rattle.ckrt_witness.specs.DriveTurns.{DriveTurnsWitness, DroveAlone, MakesTurns};

use crate::closed::{ENDLESS, copied, formatted, memory_disk, stopping_disk};
use crate::turns_in_drives::{Alone, drive_alone, drive_turns, turn_twice};
use ckrt_disk::{Disk, MemoryDisk, StoppingDisk};
use ckrt_drive::Options;
use std::process::Abort;

/// A drive that makes as many events as the promise speaks of.
fn turned<R: Abort + AllocGlobal>(
    rt: &R,
    disk: StoppingDisk,
    output: MemoryDisk,
    options: Options,
) -> Alone<StoppingDisk, MemoryDisk>
    ensures { (drove : DroveAlone ⟦<StoppingDisk as Disk>⟧ ⟦<MemoryDisk as Disk>⟧
        (course (schedule_of options) None) disk output result.session.disk result.output)
        × MakesTurns drove.drive }
{
    match drive_turns(rt.alloc(), disk, output, options) {
        Some(left) => left,
        None => panic!(rt; "thread 1 isn't ready, or too few events are made"),
    }
}

/// A drive behind that.
fn went_on<R: Abort + AllocGlobal>(
    rt: &R,
    disk: StoppingDisk,
    output: MemoryDisk,
    options: Options,
) -> Alone<StoppingDisk, MemoryDisk>
    ensures { DroveAlone ⟦<StoppingDisk as Disk>⟧ ⟦<MemoryDisk as Disk>⟧
        (course (schedule_of options) None) disk output result.session.disk result.output }
{
    match drive_alone(rt.alloc(), disk, output, options) {
        Some(left) => left,
        None => panic!(rt; "the disk doesn't recover"),
    }
}

/// Two drives of an endless guest, the first of which is stopped by its count of events: they meet all premises of the promise.
fn turns<R: Abort + AllocGlobal>(rt: &R, options: Options)
    ensures { DriveTurnsWitness ⟦<StoppingDisk as Disk>⟧ ⟦<MemoryDisk as Disk>⟧ }
{
    let start = stopping_disk(rt, formatted(rt, ENDLESS), 0);
    let output = memory_disk(rt, copied(rt, &[0; 8]));
    let one = turned(rt, start, output, options);
    let next = stopping_disk(rt, one.session.into_disk().into_image(), 0);
    let opened = memory_disk(rt, one.output.into_image());
    let _other = went_on(rt, next, opened, options);
    turn_twice::<StoppingDisk, MemoryDisk>();
}

#[test]
fn the_premises_of_turns_in_drives_are_met(rt: HostRuntime) {
    turns(&rt, Options::new(100, 8, 200));
}
