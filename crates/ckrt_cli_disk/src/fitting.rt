//! Whether a disk that a drive found has the sizes and the schedule of its words.
ghost use Rattle.std.specs.Prelude.{◌≡◌, ◌↔◌, IfOk, IsTrue, is_err};
ghost use Rattle.ckrt_cli_disk.specs.Noting.{AnswersSchedule, FitsWords, asked_schedule};
ghost use Rattle.ckrt_cli_words.specs.Jobs.{driving_of};
ghost use Rattle.ckrt_disk.specs.Frame.{IsOnlyRead};
ghost use Rattle.std.specs.Prelude.{Some};

use crate::sizes::other_sizes;
use ckrt_cli_reports::{JobFault, ScheduleNotes};
use ckrt_cli_words::DriveJob;
use ckrt_disk::{DeviceFault, Disk};
use ckrt_stored::{ScheduleNote, read_schedule};

/// The schedule of a drive's words.
pub(crate) fn asked_schedule(job: &DriveJob<'_>) -> ScheduleNote
    ensures { result ≡ asked_schedule (driving_of job.now) }
{
    ScheduleNote {
        turn: u64::from(job.turn),
        seed: job.seed,
    }
}

/// Whether two schedules are the same.
fn is_same(schedule: &ScheduleNote, other: &ScheduleNote) -> bool
    ensures { IsTrue result ↔ (schedule.now ≡ other.now) }
{
    schedule == other
}

/// Why a drive by these words is refused by a disk that notes this schedule, if it is.
fn other_noted(disk: ScheduleNote, job: &DriveJob<'_>) -> Option<JobFault>
    ensures { AnswersSchedule (driving_of job.now) (Some disk) result }
{
    let words = asked_schedule(job);
    if job.other_schedule || is_same(&disk, &words) {
        return None;
    }
    Some(JobFault::ScheduleDiffers(ScheduleNotes { disk, words }))
}

/// Why it is refused by a disk that notes this schedule, or none, if it is.
fn other_schedule(noted: Option<ScheduleNote>, job: &DriveJob<'_>) -> Option<JobFault>
    ensures { AnswersSchedule (driving_of job.now) noted result }
{
    match noted {
        Some(disk) => other_noted(disk, job),
        None => None,
    }
}

/// Why a disk isn't driven by these words, if it isn't: it has other sizes, or notes another schedule. The disk is only read.
pub(crate) fn unfitness<D: Disk>(
    disk: &mut D,
    job: &DriveJob<'_>,
) -> Result<Option<JobFault>, DeviceFault>
    ensures read { IsOnlyRead D.Disk disk.old disk.new (is_err result) }
    ensures exact { IfOk result (λ answer. D.is_honest disk.new
        → FitsWords (driving_of job.now) (D.content disk.old) answer) }
{
    if let Some(other) = other_sizes(disk, &job.sizes)? {
        return Ok(Some(JobFault::SizesDiffer(other)));
    }
    let noted = read_schedule(disk)?;
    Ok(other_schedule(noted, job))
}
