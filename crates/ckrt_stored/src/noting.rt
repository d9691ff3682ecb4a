//! Which schedule a disk notes, and how it comes to note another one.
ghost use Rattle.std.specs.Prelude.{◌≡◌, ◌↔◌, ◌≤◌, ℕ, IfOk, IfSome, IsTrue, OnOk, Some, is_err, not, take, true};
ghost use Rattle.ckrt_disk.specs.Frame.{IsOnlyRead, Nowhere, WritesWithin};
ghost use Rattle.ckrt_stored.specs.Filling.{WritesOnly};
ghost use Rattle.ckrt_stored.specs.Schedules.{IsFreeFor, LeavesNoting, NotesAt, is_first_used, noted_after, schedule_of, takes_notes};

use crate::blocks::has_notes;
use crate::schedule::{
    PAGE_BYTES, PICK_AT, ScheduleNote, is_first_used, pick_of, place_of, schedule_bytes,
    schedule_in,
};
use ckrt_disk::{DeviceFault, Disk, write_synced};

/// Reads which schedule a disk notes, if it does.
pub fn read_schedule<D: Disk>(disk: &mut D) -> Result<Option<ScheduleNote>, DeviceFault>
    ensures read { IsOnlyRead D.Disk disk.old disk.new (is_err result) }
    ensures exact { IfOk result
        (λ schedule. D.is_honest disk.new → schedule ≡ schedule_of (D.content disk.old)) }
{
    if disk.size() < PAGE_BYTES {
        return Ok(None);
    }
    let mut page = [0; PAGE_BYTES];
    disk.read(0, &mut page)?;
    Ok(schedule_in(&page))
}

/// Whether two schedules are the same.
fn is_same(schedule: Option<ScheduleNote>, other: &ScheduleNote) -> bool
    ensures { IsTrue result ↔ (schedule ≡ Some other.now) }
{
    schedule == Some(*other)
}

/// Whether the first note is the one that isn't in use, if the disk takes notes and doesn't note this schedule already.
fn free_note<D: Disk>(disk: &mut D, schedule: &ScheduleNote) -> Result<Option<bool>, DeviceFault>
    ensures read { IsOnlyRead D.Disk disk.old disk.new (is_err result) }
    ensures exact { IfOk result
        (λ free. D.is_honest disk.new → IsFreeFor schedule.now (D.content disk.old) free) }
    ensures room { IfOk result (λ free. IfSome free (λ _. 4096 ≤ D.size disk.old)) }
{
    if disk.size() < PAGE_BYTES {
        return Ok(None);
    }
    let mut page = [0; PAGE_BYTES];
    disk.read(0, &mut page)?;
    if !has_notes(&page) || is_same(schedule_in(&page), schedule) {
        return Ok(None);
    }
    Ok(Some(!is_first_used(&page)))
}

/// Makes durable what was written before.
fn settle<D: Disk>(disk: &mut D) -> Result<(), DeviceFault>
    ensures within { WritesWithin D.Disk Nowhere 1 disk.old disk.new (is_err result) }
    ensures content { OnOk result (D.is_honest disk.new → D.content disk.new ≡ D.content disk.old) }
    ensures nothing_pending { OnOk result
        (D.is_honest disk.new → (i : ℕ) → ¬ D.pending disk.new i) }
{
    disk.sync()
}

/// Writes a schedule into the first or the second note, and then puts that in use, each durably.
fn write_note<D: Disk>(
    disk: &mut D,
    is_first: bool,
    schedule: &ScheduleNote,
) -> Result<(), DeviceFault>
    requires turn { 1 ≤ schedule.now.turn }
    requires room { 4096 ≤ D.size disk.old }
    ensures any_moment { takes_notes (D.content disk.old) ≡ true
        → is_first ≡ not (is_first_used (take 4096 (D.content disk.old)))
        → LeavesNoting schedule.now D.Disk disk.old disk.new }
    ensures within { WritesWithin D.Disk NotesAt 5 disk.old disk.new (is_err result) }
    ensures noted { OnOk result (D.is_honest disk.new → takes_notes (D.content disk.old) ≡ true
        → schedule_of (D.content disk.new) ≡ Some schedule.now) }
{
    settle(disk)?;
    let bytes = schedule_bytes(schedule);
    write_synced(disk, place_of(is_first), bytes.as_slice())?;
    write_synced(disk, PICK_AT, &[pick_of(is_first)])
}

/// Notes a schedule on a disk that takes notes, unless it notes that one already: syncs, writes it into the note that isn't in use, and
/// then puts that in use. A stop at any moment leaves what a stop before might have left, or the schedule that was noted
/// before, or this one. Nothing is written but where notes stand, which no recovery reads.
pub fn note_schedule<D: Disk>(disk: &mut D, schedule: &ScheduleNote) -> Result<(), DeviceFault>
    requires { 1 ≤ schedule.now.turn }
    ensures any_moment { LeavesNoting schedule.now D.Disk disk.old disk.new }
    ensures within { WritesOnly D.Disk NotesAt disk.old disk.new result }
    ensures noted { OnOk result (D.is_honest disk.new
        → schedule_of (D.content disk.new) ≡ noted_after schedule.now (D.content disk.old)) }
    ensures kept { D.is_honest disk.new
        → schedule_of (D.content disk.old) ≡ noted_after schedule.now (D.content disk.old)
        → IsOnlyRead D.Disk disk.old disk.new (is_err result) }
{
    match free_note(disk, schedule)? {
        None => Ok(()),
        Some(is_first) => write_note(disk, is_first, schedule),
    }
}
