//! Listing the program of a disk.
ghost use Rattle.std.specs.Prelude.{◌≡◌, ◌≢◌, IfErr, IfOk, None, Some, false};
ghost use Rattle.ckrt_disk.specs.Frame.{IsOnlyRead};
ghost use Rattle.ckrt_inspect.specs.declared.fault.InspectFault.TheVariants.{Device, Range, Write as Writing};
ghost use Rattle.ckrt_stored.specs.Schedules.{schedule_of};
ghost use Rattle.ckrt_stored.specs.Superblock.{note_of};
ghost use Rattle.ckrt_inspect.specs.Inspect.{AgreesAt, IsInspected, Tells, is_device};

use crate::fault::InspectFault;
use crate::listing::write_disk_listing;
use crate::shown::Shown;
use ckrt_disk::Disk;
use ckrt_stored::{
    ProgramNote, Progress, ScheduleNote, read_note, read_past, read_progress, read_schedule,
};
use std::alloc::Global;
use std::io::Write;

/// What the content recovers to, without code.
const WHOLE: Shown = Shown {
    at: None,
    with_code: false,
};

/// The program after that many events, in place of all of them.
fn read_at<D: Disk>(alloc: Global, disk: &mut D, at: u64) -> Result<Progress, InspectFault>
    ensures exact { D.is_honest disk.new → AgreesAt (Some at) (D.content disk.old) result }
    ensures read { IsOnlyRead D.Disk disk.old disk.new (is_device result) }
    ensures unwritten { IfErr result (λ e. e ≢ Writing) }
{
    match read_past(alloc, disk, at)? {
        Some(past) => Ok(past),
        None => Err(InspectFault::Range),
    }
}

/// The program after all events.
fn read_whole<D: Disk>(alloc: Global, disk: &mut D) -> Result<Progress, InspectFault>
    ensures exact { D.is_honest disk.new → AgreesAt None (D.content disk.old) result }
    ensures read { IsOnlyRead D.Disk disk.old disk.new (is_device result) }
    ensures unwritten { IfErr result (λ e. e ≢ Writing) }
    ensures range { IfErr result (λ e. e ≢ Range) }
{
    let progress = read_progress(alloc, disk)?;
    Ok(progress)
}

/// Reads what a disk's content recovers to, or what it recovered to after that many events. The disk is only read.
///
/// # Errors
///
/// `NotFormatted`, `Version` and `Damaged` where the content recovers to no state, the first that applies; `Range` where it
/// recovers, but has no state any more after that many events, or not yet; `Device` where the disk failed a read,
/// `OutOfMemory` where a growth was refused. `Write` never.
pub fn read_program<D: Disk>(
    alloc: Global,
    disk: &mut D,
    at: Option<u64>,
) -> Result<Progress, InspectFault>
    ensures exact { D.is_honest disk.new → AgreesAt at (D.content disk.old) result }
    ensures read { IsOnlyRead D.Disk disk.old disk.new (is_device result) }
    ensures unwritten { IfErr result (λ e. e ≢ Writing) }
    ensures range { at ≡ None → IfErr result (λ e. e ≢ Range) }
{
    match at {
        Some(count) => read_at(alloc, disk, count),
        None => read_whole(alloc, disk),
    }
}

/// What a disk notes of its program.
fn noted<D: Disk>(disk: &mut D) -> Result<Option<ProgramNote>, InspectFault>
    ensures exact { IfOk result
        (λ note. D.is_honest disk.new → note ≡ note_of (D.content disk.old)) }
    ensures read { IsOnlyRead D.Disk disk.old disk.new (is_device result) }
    ensures device { IfErr result (λ e. e ≡ Device) }
{
    match read_note(disk) {
        Ok(note) => Ok(note),
        Err(_) => Err(InspectFault::Device),
    }
}

/// What a disk notes of its schedule.
fn noted_schedule<D: Disk>(disk: &mut D) -> Result<Option<ScheduleNote>, InspectFault>
    ensures exact { IfOk result
        (λ schedule. D.is_honest disk.new → schedule ≡ schedule_of (D.content disk.old)) }
    ensures read { IsOnlyRead D.Disk disk.old disk.new (is_device result) }
    ensures device { IfErr result (λ e. e ≡ Device) }
{
    match read_schedule(disk) {
        Ok(schedule) => Ok(schedule),
        Err(_) => Err(InspectFault::Device),
    }
}

/// Lists what a disk's content recovers to, or what it recovered to after that many events, with or without code: recovers
/// it, without a sync, and writes the listing, with what the disk notes of its program and of its schedule. The disk is only read: it is neither written nor synced, at any moment.
///
/// # Errors
///
/// `NotFormatted`, `Version` and `Damaged` where the content recovers to no state, the first that applies; `Range` where it
/// recovers, but has no state any more after that many events, or not yet; `Device` where the disk failed a read,
/// `OutOfMemory` where a growth was refused, both before anything is written; `Write` where the writer failed.
pub fn inspect_with<D: Disk, W: Write>(
    alloc: Global,
    disk: &mut D,
    shown: Shown,
    writer: &mut W,
) -> Result<(), InspectFault>
    ensures read { IsOnlyRead D.Disk disk.old disk.new (is_device result) }
    ensures tells { D.is_honest disk.new
        → Tells shown (D.content disk.old) (W.contents writer.old) (W.contents writer.new) result }
    ensures unwritten { IfErr result (λ e. e ≢ Writing → writer.new ≡ writer.old) }
    ensures range { shown.at ≡ None → IfErr result (λ e. e ≢ Range) }
{
    let progress = read_program(alloc, disk, shown.at)?;
    let note = noted(disk)?;
    let schedule = noted_schedule(disk)?;
    write_disk_listing(alloc, shown.with_code, &progress, &note, &schedule, writer)
}

/// Lists what a disk's content recovers to: [`inspect_with`], with nothing but the plain listing. The disk isn't handed
/// back.
///
/// # Errors
///
/// As [`inspect_with`], but for `Range`.
pub fn inspect<D: Disk + Drop, W: Write>(
    alloc: Global,
    disk: D,
    writer: &mut W,
) -> Result<(), InspectFault>
    ensures inspected { IsInspected D.Disk disk (record { at = None; with_code = false })
        (W.contents writer.old) (W.contents writer.new) result }
    ensures unwritten { IfErr result (λ e. e ≢ Writing → writer.new ≡ writer.old) }
    ensures range { IfErr result (λ e. e ≢ Range) }
{
    let mut disk = disk;
    inspect_with(alloc, &mut disk, WHOLE, writer)
}
