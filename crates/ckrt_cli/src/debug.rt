//! Serving what a disk or a history has recorded to a debugger.
ghost use Rattle.std.specs.Prelude.{◌≡◌, IfOk};
ghost use Rattle.ckrt_cli_words.specs.Jobs.{debugging_of};
ghost use Rattle.ckrt_cli_reports.specs.Outside.{outside};
ghost use Rattle.ckrt_disk.specs.Frame.{IsOnlyRead};
ghost use Rattle.ckrt_stored.specs.Reads.{IsReadAs, is_device};
ghost use Rattle.ckrt_look_recording.specs.Reading.{RecordsParts};
ghost use Rattle.ckrt_cli.specs.Debugging.{DebugsParts, DebugsPath, IsRead, ReadsAt, ReadsHistory, ReadsOpened, ReadsPath, ServesStub, fault_of, first_in, line, run_in, session_stretch};

use ckrt_cli_disk::{NearRead, close_near, read_near};
use ckrt_cli_files::{JobFile, Sources};
use ckrt_cli_reports::JobFault;
use ckrt_cli_words::DebugJob;
use ckrt_disk::Disk;
use ckrt_gdb_playback::Recorded;
use ckrt_gdb_stub::{DebugFault, Stub};
use ckrt_inspect::InspectFault;
use ckrt_look_calls::Stretch;
use ckrt_look_recording::{Parts, read_parts, read_unreplayed};
use ckrt_main::ServeFault;
use ckrt_stored::RecoverFault;
use std::alloc::{AllocError, Global};
use std::io::{Read, Write};

/// Reads what a disk has recorded. Where a session is to begin once so many events are done, the events of the older journal are made to see
/// where they lead. Else none is made: a debugger waits a few seconds only for its first answers.
fn read_for<D: Disk>(alloc: Global, disk: &mut D, at: Option<u64>) -> Result<Parts, RecoverFault>
    ensures read { IsOnlyRead D.Disk disk.old disk.new (is_device result) }
    ensures exact { IsReadAs D.Disk disk.old disk.new (λ parts. parts) result RecordsParts }
    ensures is_read { IsRead at result }
{
    if at.is_none() {
        return read_parts(alloc, disk);
    }
    match read_unreplayed(alloc, disk) {
        Ok(newer) => Ok(Parts { newer, older: None }),
        Err(fault) => Err(fault),
    }
}

/// Reads what a disk that was opened has recorded, and closes it.
fn read_opened<'a, I: Read, D: Disk, S: Sources<'a, I, D>>(
    alloc: Global,
    disk: D,
    at: Option<u64>,
    sources: &mut S,
) -> Result<Parts, JobFault>
    ensures reads { ReadsOpened D.Disk at (λ start. start ≡ disk)
        (S.openings sources.old) (S.openings sources.new) result }
{
    let mut disk = disk;
    let answer = read_for(alloc, &mut disk, at);
    sources.close(disk);
    match answer {
        Ok(parts) => Ok(parts),
        Err(fault) => Err(JobFault::Recover(fault)),
    }
}

/// The stretch of a history that a session goes over.
fn session_stretch(at: Option<u64>) -> Stretch
    ensures { result ≡ session_stretch at }
{
    Stretch {
        from: at,
        to: None,
        last: None,
    }
}

/// Reads what a history that was opened has recorded, from a snapshot on where one is taken, and closes both.
fn read_opened_history<'a, I: Read, D: Disk, S: Sources<'a, I, D>>(
    alloc: Global,
    history: D,
    at: Option<u64>,
    sources: &mut S,
) -> Result<Parts, JobFault>
    ensures reads { ReadsHistory D.Disk at (λ start. start ≡ history)
        (S.openings sources.old) (S.openings sources.new) result }
{
    let mut history = history;
    let stretch = session_stretch(at);
    let NearRead { answer, file } = read_near::<I, D, S>(alloc, &mut history, &stretch, sources);
    close_near(history, file, sources);
    match answer {
        Ok(newer) => Ok(Parts { newer, older: None }),
        Err(fault) => Err(JobFault::History(fault)),
    }
}

/// Reads what was opened has recorded, a history where the words say so, and else a disk, and closes it.
fn read_at_opened<'a, I: Read, D: Disk, S: Sources<'a, I, D>>(
    alloc: Global,
    opened: D,
    job: &DebugJob<'a>,
    sources: &mut S,
) -> Result<Parts, JobFault>
    ensures reads { ReadsAt job.now.history D.Disk job.now.at (λ start. start ≡ opened)
        (S.openings sources.old) (S.openings sources.new) result }
{
    if job.history {
        read_opened_history::<I, D, S>(alloc, opened, job.at, sources)
    } else {
        read_opened::<I, D, S>(alloc, opened, job.at, sources)
    }
}

/// Reads what the disk or the history of a job's path has recorded.
fn read_there<'a, I: Read, D: Disk, S: Sources<'a, I, D>>(
    alloc: Global,
    job: &DebugJob<'a>,
    sources: &mut S,
) -> Result<Parts, JobFault>
    ensures reads { ReadsPath D.Disk (S.opens sources.old job.now.disk.now) (debugging_of job.now)
        (S.openings sources.old) (S.openings sources.new) result }
{
    match sources.look_at_disk(job.disk) {
        Ok(opened) => read_at_opened::<I, D, S>(alloc, opened, job, sources),
        Err(fault) => Err(JobFault::File(JobFile::Disk, fault)),
    }
}

/// What the job answers for a fault of a session, by whether there is an older part.
fn fault_of(has_older: bool, fault: DebugFault) -> JobFault
    ensures { result ≡ fault_of has_older fault }
{
    match fault {
        DebugFault::Read => JobFault::Serve(ServeFault::Read),
        DebugFault::Write => JobFault::Serve(ServeFault::Write),
        DebugFault::Refused if has_older => JobFault::OlderDiffers,
        DebugFault::Refused => JobFault::Recover(RecoverFault::Damaged),
        DebugFault::Range => JobFault::Inspect(InspectFault::Range),
        DebugFault::OutOfMemory => JobFault::OutOfMemory,
    }
}

/// Serves a session.
fn serve<R: Read, W: Write>(
    stub: Stub,
    has_older: bool,
    reader: &mut R,
    writer: &mut W,
) -> Result<(), JobFault>
    ensures serves { ServesStub stub has_older
        (line (W.contents writer.old) (R.remaining reader.old))
        (line (W.contents writer.new) (R.remaining reader.new)) result }
{
    match stub.serve(reader, writer) {
        Ok(()) => Ok(()),
        Err(fault) => Err(fault_of(has_older, fault)),
    }
}

/// What is recorded if the older part leads on, through the last checkpoint, and how many events were done before.
fn recorded_in(alloc: Global, parts: Parts) -> Result<(u64, Recorded), AllocError>
    ensures first { IfOk result (λ r. r.0 ≡ first_in parts) }
    ensures run { IfOk result (λ r. r.1 ≡ run_in parts) }
{
    let Parts { newer, older } = parts;
    match older {
        Some(older) => {
            let recorded = Recorded::through(
                alloc,
                older.machine,
                older.events,
                newer.machine,
                newer.events,
            )?;
            Ok((older.first, recorded))
        }
        None => Ok((
            newer.first,
            Recorded::new(alloc, newer.machine, newer.events)?,
        )),
    }
}

/// Serves what was recorded.
fn debug_parts<R: Read, W: Write>(
    alloc: Global,
    parts: Parts,
    at: Option<u64>,
    reader: &mut R,
    writer: &mut W,
) -> Result<(), JobFault>
    ensures debugs { DebugsParts at parts
        (line (W.contents writer.old) (R.remaining reader.old))
        (line (W.contents writer.new) (R.remaining reader.new)) result }
{
    let has_older = parts.older.is_some();
    let Ok((first, recorded)) = recorded_in(alloc, parts) else {
        return Err(JobFault::OutOfMemory);
    };
    match Stub::new(alloc, first, recorded, at) {
        Ok(stub) => serve(stub, has_older, reader, writer),
        Err(fault) => Err(fault_of(has_older, fault)),
    }
}

/// Serves what the disk or the history of a path has recorded to a debugger, by gdb's remote protocol: it reads packets and writes replies.
/// The session begins at the first event that is recorded, or once so many events are done. The disk or the history is only read, and closed
/// before the first byte is read of the debugger.
///
/// # Errors
///
/// The first that applies: `File` of the disk; `Recover`, where nothing is recovered from it, where the disk failed a read or memory
/// was refused; `History`, where nothing is read of the history; `OutOfMemory` where memory is refused to the session; `Inspect` of `Range` where it has recorded no position with so
/// many events done; `Serve` of `Read` and of `Write` where the debugger's line fails, and `OutOfMemory` where memory is refused to
/// what a `monitor` tells. The events are made when the session moves, or before it begins where so many are to be done. Where one isn't
/// accepted at its turn the content is damaged, which is `Recover` of `Damaged` then. Where there is an older part, it's `OlderDiffers`, also
/// where that doesn't lead to the last checkpoint.
pub fn debug_path<'a, I: Read, D: Disk, S: Sources<'a, I, D>, R: Read, W: Write>(
    alloc: Global,
    job: &DebugJob<'a>,
    sources: &mut S,
    reader: &mut R,
    writer: &mut W,
) -> Result<(), JobFault>
    ensures debugs { DebugsPath D.Disk (S.opens sources.old job.now.disk.now) (debugging_of job.now)
        (outside (S.openings sources.old) (W.contents writer.old) (R.remaining reader.old))
        (outside (S.openings sources.new) (W.contents writer.new) (R.remaining reader.new))
        result }
{
    match read_there::<I, D, S>(alloc, job, sources) {
        Ok(parts) => debug_parts(alloc, parts, job.at, reader, writer),
        Err(fault) => Err(fault),
    }
}
