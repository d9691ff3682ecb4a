//! Looking at a stretch of what a disk or a history has recorded.
ghost use Rattle.std.specs.Prelude.{◌≡◌, ℕ, List, Option, Result};
ghost use Rattle.ckrt_disk.specs.Frame.{IsOnlyRead};
ghost use Rattle.ckrt_inspect.specs.Inspect.{is_device};
ghost use Rattle.ckrt_cli_words.specs.Jobs.{disk_stretch_of};
ghost use Rattle.ckrt_cli_reports.specs.Outside.{outside};
ghost use Rattle.ckrt_cli.specs.Looking.{LooksAt, LooksInHistory, LooksOpened, LooksPath, LooksThere, answer_of, sight, stretch_of};

use ckrt_cli_disk::{NearRead, close_near, read_near};
use ckrt_cli_files::{JobFile, Sources};
use ckrt_cli_reports::{JobFault, ends_before};
use ckrt_cli_words::StretchJob;
use ckrt_disk::Disk;
use ckrt_inspect::InspectFault;
use ckrt_look_calls::{Stretch, Telling, tell_recording, tell_stretch};
use std::alloc::Global;
use std::io::{Read, Write};

/// Which events are told.
fn stretch(job: &StretchJob<'_>) -> Stretch
    ensures { result ≡ stretch_of (disk_stretch_of job.now) }
{
    Stretch {
        from: job.from,
        to: job.to,
        last: job.last,
    }
}

/// What the job answers.
fn answer_of(answer: Result<(), InspectFault>) -> Result<(), JobFault>
    ensures { result ≡ answer_of answer }
{
    match answer {
        Ok(()) => Ok(()),
        Err(InspectFault::Range) => Err(JobFault::Unrecorded),
        Err(fault) => Err(JobFault::Inspect(fault)),
    }
}

/// Tells of a disk that was opened, and closes it.
fn look_opened<'a, I: Read, D: Disk, S: Sources<'a, I, D>, T: Telling, W: Write>(
    alloc: Global,
    disk: D,
    job: &StretchJob<'a>,
    telling: &T,
    sources: &mut S,
    writer: &mut W,
) -> Result<(), JobFault>
    ensures looks { (left : Option (List ℕ)) → LooksOpened D.Disk
        (sight (disk_stretch_of job.now) (λ start. start ≡ disk) (T.Tells telling.now))
        (outside (S.openings sources.old) (W.contents writer.old) left)
        (outside (S.openings sources.new) (W.contents writer.new) left) result }
{
    let mut disk = disk;
    let answer = tell_stretch(alloc, &mut disk, stretch(job), telling, writer);
    sources.close(disk);
    answer_of(answer)
}

/// Tells of a history that was opened, from a snapshot on where one is taken, and closes both.
fn look_in_history<'a, I: Read, D: Disk, S: Sources<'a, I, D>, T: Telling, W: Write>(
    alloc: Global,
    history: D,
    job: &StretchJob<'a>,
    telling: &T,
    sources: &mut S,
    writer: &mut W,
) -> Result<(), JobFault>
    ensures looks { (left : Option (List ℕ)) → LooksInHistory D.Disk
        (sight (disk_stretch_of job.now) (λ start. start ≡ history) (T.Tells telling.now))
        (outside (S.openings sources.old) (W.contents writer.old) left)
        (outside (S.openings sources.new) (W.contents writer.new) left) result }
{
    let mut history = history;
    let stretch = stretch(job);
    let NearRead { answer, file } = read_near::<I, D, S>(alloc, &mut history, &stretch, sources);
    close_near(history, file, sources);
    match answer {
        Ok(recording) => answer_of(tell_recording(alloc, recording, stretch, telling, writer)),
        Err(fault) => Err(JobFault::History(fault)),
    }
}

/// Tells of what was opened, a history where the words say so, and else a disk, and closes it.
fn look_at_opened<'a, I: Read, D: Disk, S: Sources<'a, I, D>, T: Telling, W: Write>(
    alloc: Global,
    opened: D,
    job: &StretchJob<'a>,
    telling: &T,
    sources: &mut S,
    writer: &mut W,
) -> Result<(), JobFault>
    ensures looks { (left : Option (List ℕ)) → LooksAt job.now.history D.Disk
        (sight (disk_stretch_of job.now) (λ start. start ≡ opened) (T.Tells telling.now))
        (outside (S.openings sources.old) (W.contents writer.old) left)
        (outside (S.openings sources.new) (W.contents writer.new) left) result }
{
    if job.history {
        look_in_history::<I, D, S, T, W>(alloc, opened, job, telling, sources, writer)
    } else {
        look_opened::<I, D, S, T, W>(alloc, opened, job, telling, sources, writer)
    }
}

/// Tells of the disk or the history of a path.
fn look_there<'a, I: Read, D: Disk, S: Sources<'a, I, D>, T: Telling, W: Write>(
    alloc: Global,
    job: &StretchJob<'a>,
    telling: &T,
    sources: &mut S,
    writer: &mut W,
) -> Result<(), JobFault>
    ensures looks { (left : Option (List ℕ)) → LooksThere D.Disk
        (sight (disk_stretch_of job.now) (S.opens sources.old job.now.disk.now)
        (T.Tells telling.now))
        (outside (S.openings sources.old) (W.contents writer.old) left)
        (outside (S.openings sources.new) (W.contents writer.new) left) result }
{
    match sources.look_at_disk(job.disk) {
        Ok(opened) => {
            look_at_opened::<I, D, S, T, W>(alloc, opened, job, telling, sources, writer)
        }
        Err(fault) => Err(JobFault::File(JobFile::Disk, fault)),
    }
}

/// Tells of the disk or the history of a path, all that it has recorded, or the events behind so many and up to so many. It is only read.
///
/// # Errors
///
/// The first that applies: `Range` where the stretch would end before it begins, before anything is opened; `File` of the disk;
/// `Inspect`, where nothing is recovered from the disk, where it failed a read or memory was refused, or where the writer failed; `History`
/// where nothing is read of the history; `Unrecorded` where not all of the stretch is recorded, or no longer.
pub(crate) fn look_path<'a, I: Read, D: Disk, S: Sources<'a, I, D>, T: Telling, W: Write>(
    alloc: Global,
    job: &StretchJob<'a>,
    telling: &T,
    sources: &mut S,
    writer: &mut W,
) -> Result<(), JobFault>
    ensures looks { (left : Option (List ℕ)) → LooksPath D.Disk
        (sight (disk_stretch_of job.now) (S.opens sources.old job.now.disk.now)
        (T.Tells telling.now))
        (outside (S.openings sources.old) (W.contents writer.old) left)
        (outside (S.openings sources.new) (W.contents writer.new) left) result }
{
    if ends_before(job.from, job.to) {
        return Err(JobFault::Range);
    }
    look_there::<I, D, S, T, W>(alloc, job, telling, sources, writer)
}
