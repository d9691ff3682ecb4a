//! Writing what a disk or a history holds as a core.
ghost use Rattle.std.specs.Prelude.{◌≡◌, ◌≤◌, Ok, IfOk, IfErr, IfSome, length};
ghost use Rattle.ckrt_gdb_forms.specs.Core.{core_of};
ghost use Rattle.ckrt_cli_words.specs.Jobs.{core_making_of};
ghost use Rattle.ckrt_look_recording.specs.Recording.{recorded_of};
ghost use Rattle.ckrt_cli_disk.specs.CoreFiles.{Cores, CoresAt, CoresHistory, CoresOpened, CoresPath, CoresRead, CoresRecorded, EndsCore, IsMomentIn, IsProgramAt, MakesCore, WritesCore, WritesInto, moment_stretch};

use crate::near::{NearRead, close_near, read_near};
use ckrt_cli_files::{FileFault, JobFile, Sources};
use ckrt_cli_reports::JobFault;
use ckrt_cli_words::CoreJob;
use ckrt_disk::{Disk, write_synced};
use ckrt_gdb_forms::{core_size, write_core};
use ckrt_history::HistoryFault;
use ckrt_inspect::{InspectFault, read_program};
use ckrt_look_calls::Stretch;
use ckrt_look_recording::{Recording, make_events};
use ckrt_machine::Machine;
use std::alloc::Global;
use std::io::Read;

/// The bytes of a core, for which there is no memory where it fails.
fn core_bytes(alloc: Global, machine: &Machine) -> Result<Vec<u8>, JobFault>
    ensures bytes { IfOk result (λ bytes. bytes.items ≡ core_of machine.now.state) }
    ensures memory { IfErr result (λ e. e ≡ JobFault.OutOfMemory) }
{
    let Ok(mut bytes) = Vec::with_capacity(alloc, core_size(machine)) else {
        return Err(JobFault::OutOfMemory);
    };
    match write_core(machine, &mut bytes) {
        Ok(()) => Ok(bytes),
        Err(_) => Err(JobFault::OutOfMemory),
    }
}

/// Writes a core into a file of as many bytes, durably.
fn write_whole<D: Disk>(core: &mut D, bytes: &[u8]) -> Result<(), FileFault>
    ensures { WritesCore D.Disk bytes.now core.old core.new result }
{
    if core.size() != bytes.len() {
        return Err(FileFault::Other);
    }
    match write_synced(core, 0, bytes) {
        Ok(()) => Ok(()),
        Err(_) => Err(FileFault::Unwritten),
    }
}

/// Gives a core that was written the path that it was made for, or gives it up where it can't have that.
fn name_written<'a, I: Read, D: Disk, S: Sources<'a, I, D>>(
    core: D,
    sources: &mut S,
    path: &'a str,
) -> Result<(), JobFault>
    ensures { EndsCore path.now core (S.openings sources.old) (S.openings sources.new) (Ok tt)
        result }
{
    match sources.name_core(path, &core) {
        Ok(()) => {
            sources.close_output(core);
            Ok(())
        }
        Err(fault) => {
            sources.abandon(core);
            Err(JobFault::File(JobFile::Core, fault))
        }
    }
}

/// Writes a core in the making, and then gives it the path that it was made for. Where either can't be it is given up.
fn write_named<'a, I: Read, D: Disk, S: Sources<'a, I, D>>(
    core: D,
    sources: &mut S,
    path: &'a str,
    bytes: &[u8],
) -> Result<(), JobFault>
    ensures { WritesInto D.Disk bytes.now path.now core (S.openings sources.old)
        (S.openings sources.new) result }
{
    let mut core = core;
    match write_whole(&mut core, bytes) {
        Ok(()) => name_written::<I, D, S>(core, sources, path),
        Err(fault) => {
            sources.abandon(core);
            Err(JobFault::File(JobFile::Core, fault))
        }
    }
}

/// Makes the core of a machine's state for a path.
fn make_core<'a, I: Read, D: Disk, S: Sources<'a, I, D>>(
    alloc: Global,
    machine: &Machine,
    sources: &mut S,
    path: &'a str,
) -> Result<(), JobFault>
    ensures { MakesCore D.Disk (S.fills sources.old path.now) (core_of machine.now.state) path.now
        (S.openings sources.old) (S.openings sources.new) result }
{
    let bytes = core_bytes(alloc, machine)?;
    match sources.open_core(alloc, path, bytes.len()) {
        Ok(core) => write_named::<I, D, S>(core, sources, path, &bytes),
        Err(fault) => Err(JobFault::File(JobFile::Core, fault)),
    }
}

/// Makes a core of what a disk holds. The disk is only read.
fn make_core_of<'a, I: Read, D: Disk, S: Sources<'a, I, D>>(
    alloc: Global,
    disk: &mut D,
    job: &CoreJob<'a>,
    sources: &mut S,
) -> Result<(), JobFault>
    ensures { Cores D.Disk (S.fills sources.old job.now.file.now) (core_making_of job.now) disk.old
        disk.new (S.openings sources.old) (S.openings sources.new) result }
{
    match read_program(alloc, disk, job.at) {
        Ok(found) => make_core::<I, D, S>(alloc, &found.machine, sources, job.file),
        Err(fault) => Err(JobFault::Inspect(fault)),
    }
}

/// Makes a core of what a disk that was opened holds, and closes the disk.
fn make_core_of_opened<'a, I: Read, D: Disk, S: Sources<'a, I, D>>(
    alloc: Global,
    disk: D,
    job: &CoreJob<'a>,
    sources: &mut S,
) -> Result<(), JobFault>
    ensures { CoresOpened D.Disk (λ start. start ≡ disk) (S.fills sources.old job.now.file.now)
        (core_making_of job.now) (S.openings sources.old) (S.openings sources.new) result }
{
    let mut disk = disk;
    let answer = make_core_of::<I, D, S>(alloc, &mut disk, job, sources);
    sources.close(disk);
    answer
}

/// How many of the events that were recorded lead to the moment behind that many, or behind the last one; none where it wasn't recorded.
fn moment_in(recording: &Recording, at: Option<u64>) -> Option<usize>
    ensures moment { IsMomentIn at (recorded_of recording.now) result }
    ensures within { IfSome result (λ n. n ≤ length recording.now.events.items) }
{
    let Some(at) = at else {
        return Some(recording.events.len());
    };
    if at < recording.first || recording.first + (recording.events.len() as u64) < at {
        return None;
    }
    Some((at - recording.first) as usize)
}

/// The program behind that many events, or behind the last one, where they were recorded.
fn program_at(recording: Recording, at: Option<u64>) -> Result<Machine, JobFault>
    ensures { IsProgramAt at (recorded_of recording) result }
{
    let Some(count) = moment_in(&recording, at) else {
        return Err(JobFault::Unrecorded);
    };
    let Recording {
        mut machine,
        events,
        ..
    } = recording;
    let (before, _) = events.split_at(count);
    if !make_events(&mut machine, before) {
        return Err(JobFault::Inspect(InspectFault::Damaged));
    }
    Ok(machine)
}

/// Makes a core of what was recorded, as it was after that many events.
fn make_core_of_recorded<'a, I: Read, D: Disk, S: Sources<'a, I, D>>(
    alloc: Global,
    recording: Recording,
    job: &CoreJob<'a>,
    sources: &mut S,
) -> Result<(), JobFault>
    ensures { CoresRecorded D.Disk (S.fills sources.old job.now.file.now) (core_making_of job.now)
        (recorded_of recording) (S.openings sources.old) (S.openings sources.new) result }
{
    match program_at(recording, job.at) {
        Ok(machine) => make_core::<I, D, S>(alloc, &machine, sources, job.file),
        Err(fault) => Err(fault),
    }
}

/// The stretch of a history that leads to the moment of a core.
fn moment_stretch(at: Option<u64>) -> Stretch
    ensures { result ≡ moment_stretch at }
{
    Stretch {
        from: None,
        to: at,
        last: Some(0),
    }
}

/// Makes a core of what was read of a history.
fn make_core_of_read<'a, I: Read, D: Disk, S: Sources<'a, I, D>>(
    alloc: Global,
    answer: Result<Recording, HistoryFault>,
    job: &CoreJob<'a>,
    sources: &mut S,
) -> Result<(), JobFault>
    ensures { CoresRead D.Disk (S.fills sources.old job.now.file.now) (core_making_of job.now)
        (S.openings sources.old) (S.openings sources.new) answer result }
{
    match answer {
        Ok(recording) => make_core_of_recorded::<I, D, S>(alloc, recording, job, sources),
        Err(fault) => Err(JobFault::History(fault)),
    }
}

/// Makes a core of what a history that was opened has recorded, from a snapshot on where one is taken, and closes both.
fn make_core_of_history<'a, I: Read, D: Disk, S: Sources<'a, I, D>>(
    alloc: Global,
    history: D,
    job: &CoreJob<'a>,
    sources: &mut S,
) -> Result<(), JobFault>
    ensures { CoresHistory D.Disk (λ start. start ≡ history)
        (S.fills sources.old job.now.file.now) (core_making_of job.now)
        (S.openings sources.old) (S.openings sources.new) result }
{
    let mut history = history;
    let stretch = moment_stretch(job.at);
    let NearRead { answer, file } = read_near::<I, D, S>(alloc, &mut history, &stretch, sources);
    let made = make_core_of_read::<I, D, S>(alloc, answer, job, sources);
    close_near(history, file, sources);
    made
}

/// Makes a core of what was opened, a history where the words say so, and else a disk, and closes it.
fn make_core_of_either<'a, I: Read, D: Disk, S: Sources<'a, I, D>>(
    alloc: Global,
    opened: D,
    job: &CoreJob<'a>,
    sources: &mut S,
) -> Result<(), JobFault>
    ensures { CoresAt job.now.history D.Disk (λ start. start ≡ opened)
        (S.fills sources.old job.now.file.now) (core_making_of job.now)
        (S.openings sources.old) (S.openings sources.new) result }
{
    if job.history {
        make_core_of_history::<I, D, S>(alloc, opened, job, sources)
    } else {
        make_core_of_opened::<I, D, S>(alloc, opened, job, sources)
    }
}

/// Writes what the disk or the history of a path holds as a core into a file beside the path of that, which gets the path once it is whole
/// and durable: the program after the last event, or as it was after that many. The disk or the history is only read.
///
/// # Errors
///
/// The first that applies: `File` of the disk; `Inspect`, where no program is found on it, or an event of the history isn't accepted at its
/// turn; `History`, where nothing is read of that; `Unrecorded`, where it hasn't recorded that many events, no longer or not yet;
/// `OutOfMemory`; `File` of the core, where something else has its path, where there is no room for it, where a write failed, or where it
/// can't get its name. What had the path stays as it was then.
pub fn core_path<'a, I: Read, D: Disk, S: Sources<'a, I, D>>(
    alloc: Global,
    job: &CoreJob<'a>,
    sources: &mut S,
) -> Result<(), JobFault>
    ensures cores { CoresPath D.Disk (S.opens sources.old job.now.disk.now)
        (S.fills sources.old job.now.file.now) (core_making_of job.now) (S.openings sources.old)
        (S.openings sources.new) result }
{
    match sources.look_at_disk(job.disk) {
        Ok(opened) => make_core_of_either::<I, D, S>(alloc, opened, job, sources),
        Err(fault) => Err(JobFault::File(JobFile::Disk, fault)),
    }
}
