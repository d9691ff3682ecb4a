//! Driving a disk.
ghost use Rattle.std.specs.Prelude.{◌≡◌, [], is_some, true};
ghost use Rattle.ckrt_cli_words.specs.Jobs.{driving_of};
ghost use Rattle.ckrt_cli_disk.specs.Driving.{DrivesFed, DrivesInto, DrivesJoined, DrivesNoted, DrivesOnto, DrivesOpened, DrivesOpenedOutput, DrivesPath, DrivesRecovered, DrivesSized, DrivesStream, DrivesWay, IsAsked, IsLent, IsUnwritten, means_of, offset_of, ready, setting_of, way_of};
ghost use Rattle.ckrt_cli_reports.specs.Ranges.{is_in_range};
ghost use Rattle.ckrt_drive.specs.Streams.{HasSameWriter};

use crate::equipping::{Beside, Equipped, Left, close_all, equip, left_of};
use crate::feeding::{Supplied, close_both, file_of, supply};
use crate::fitting::{asked_schedule, unfitness};
use crate::missing::find_disk;
use crate::undertaking::{Undertaken, answer_of, drive_session};
use ckrt_cli_files::{JobFile, OpenedOutput, OutputReason, Sources};
use ckrt_cli_reports::{DrivePaths, Driven, JobFault, Meter, OutputLengths, Watch, is_in_range};
use ckrt_cli_words::DriveJob;
use ckrt_disk::Disk;
use ckrt_drive::{Options, StreamOutput};
use ckrt_recovery::{RecoverFault, Session, recover};
use ckrt_stored::note_schedule;
use std::alloc::Global;
use std::io::{Read, Write};

/// How the drive goes that the words ask for.
fn options_of(job: &DriveJob<'_>) -> Options
    requires { is_in_range (driving_of job.now) ≡ true }
    ensures { IsAsked (driving_of job.now) result }
{
    let options = Options::new(job.turn, job.rounds, job.events.unwrap_or(u64::MAX));
    match job.seed {
        Some(seed) => options.with_seed(seed),
        None => options,
    }
}

/// How the drive is watched that the words ask for.
fn watch_of<'a>(job: &DriveJob<'a>) -> Watch<'a>
    ensures progress { result.progress ≡ job.now.progress }
    ensures status { result.status ≡ job.now.status }
    ensures paths { result.paths ≡ record {
      disk = job.now.disk;
      image = job.now.image;
      input = job.now.input;
      output = job.now.output;
      history = job.now.history;
    } }
{
    Watch {
        progress: job.progress,
        status: job.status,
        paths: DrivePaths {
            disk: job.disk,
            image: job.image,
            input: job.input,
            output: job.output,
            history: job.history,
        },
    }
}

/// Drives a session onto an output that was opened, and closes all.
fn drive_onto<'a, I: Read, D: Disk, S: Sources<'a, I, D>, M: Meter>(
    session: Session<D>,
    output: D,
    beside: Beside<D>,
    options: Options,
    sources: &mut S,
    meter: &mut M,
) -> Result<Driven, JobFault>
    requires { session.pending.items ≡ [] }
    ensures { DrivesOnto {d = D.Disk} options (ready session beside) output
        (S.openings sources.old) (S.openings sources.new) result }
{
    let undertaken = drive_session(session, output, beside, options, meter);
    let why = sources.last_reason();
    sources.close_output(undertaken.output);
    let left = Left {
        input: undertaken.input,
        history: undertaken.history,
    };
    close_all::<D, S>(undertaken.session.into_disk(), left, sources);
    answer_of(why, undertaken.driven)
}

/// Drives a session onto an output that was opened, if the length of its file fits the disk; else closes all as they are.
fn drive_onto_opened<'a, I: Read, D: Disk, S: Sources<'a, I, D>, M: Meter>(
    session: Session<D>,
    opened: OpenedOutput<D>,
    beside: Beside<D>,
    options: Options,
    sources: &mut S,
    meter: &mut M,
) -> Result<Driven, JobFault>
    requires { session.pending.items ≡ [] }
    ensures { DrivesOpenedOutput {d = D.Disk} opened options (ready session beside)
        (S.openings sources.old) (S.openings sources.new) result }
{
    let lengths = OutputLengths {
        length: opened.length,
        confirmed: session.confirmed(),
        released: session.released(),
    };
    if lengths.fits() {
        return drive_onto::<I, D, S, M>(session, opened.output, beside, options, sources, meter);
    }
    sources.close_output(opened.output);
    close_all::<D, S>(session.into_disk(), left_of(beside), sources);
    Err(JobFault::OutputDiffers(lengths))
}

/// Drives a session, with its output in the file of a path.
fn drive_into_file<'a, I: Read, D: Disk, S: Sources<'a, I, D>, M: Meter>(
    session: Session<D>,
    path: &'a str,
    beside: Beside<D>,
    options: Options,
    sources: &mut S,
    meter: &mut M,
) -> Result<Driven, JobFault>
    requires { session.pending.items ≡ [] }
    ensures { DrivesInto {d = D.Disk} ((S.gives sources.old).Outputs path.now) path.now options
        (ready session beside) (S.openings sources.old) (S.openings sources.new) result }
{
    match sources.open_output(path) {
        Ok(opened) => {
            drive_onto_opened::<I, D, S, M>(session, opened, beside, options, sources, meter)
        }
        Err(fault) => {
            close_all::<D, S>(session.into_disk(), left_of(beside), sources);
            Err(JobFault::File(JobFile::Output, fault))
        }
    }
}

/// Drives a session, with its output on a stream, which is lent its writer all the while.
fn drive_streamed<'a, D: Disk, W: Write, M: Meter>(
    session: Session<D>,
    stream: StreamOutput<'a, W>,
    beside: Beside<D>,
    options: Options,
    meter: &mut M,
) -> Undertaken<D, StreamOutput<'a, W>, Option<D>>
    requires { session.pending.items ≡ [] }
    ensures drives { DrivesWay ⟦<StreamOutput<'a, W> as Disk>⟧
        (way_of D.Disk options beside
        (record { input = result.input; history = result.history }))
        session result.session stream.entry result.output result.driven }
    ensures kept { is_some result.input ≡ is_some beside.intake }
    ensures lent { HasSameWriter stream.entry result.output }
{
    drive_session(session, stream, beside, options, meter)
}

/// Drives a session, with its output on a writer but for the bytes below an offset, and closes disk and input.
fn drive_onto_stream<'a, I: Read, D: Disk, S: Sources<'a, I, D>, W: Write + 'a, M: Meter>(
    session: Session<D>,
    beside: Beside<D>,
    job: &DriveJob<'a>,
    options: Options,
    sources: &mut S,
    writer: &mut W,
    meter: &mut M,
) -> Result<Driven, JobFault>
    requires { session.pending.items ≡ [] }
    ensures { DrivesStream {d = D.Disk} (setting_of ⟦<StreamOutput<'a, W> as Disk>⟧
        (IsLent W.contents (W.contents writer.old) (W.contents writer.new)) (S.gives sources.old)
        (driving_of job.now) options) (ready session beside) (S.openings sources.old)
        (S.openings sources.new) result }
{
    let stream = StreamOutput::new(writer, offset_of(job.from));
    let Undertaken {
        session,
        output,
        input,
        history,
        driven,
    } = drive_streamed(session, stream, beside, options, meter);
    let why = sources.last_reason();
    close_all::<D, S>(session.into_disk(), Left { input, history }, sources);
    let writer = output.into_writer();
    // This does nothing at run time: clauses learn here what the writer holds once the stream has it no more.
    let _ = &*writer;
    answer_of(why, driven)
}

/// Below which offset output is left out.
fn offset_of(from: Option<u64>) -> u64
    ensures { result ≡ offset_of from }
{
    match from {
        None => 0,
        Some(from) => from,
    }
}

/// Drives a session, with its output in the job's file, or on the writer where the words name none.
fn drive_recovered<'a, I: Read, D: Disk, S: Sources<'a, I, D>, W: Write + 'a, M: Meter>(
    session: Session<D>,
    beside: Beside<D>,
    job: &DriveJob<'a>,
    options: Options,
    sources: &mut S,
    writer: &mut W,
    meter: &mut M,
) -> Result<Driven, JobFault>
    requires { session.pending.items ≡ [] }
    ensures drives { DrivesRecovered {d = D.Disk} (setting_of ⟦<StreamOutput<'a, W> as Disk>⟧
        (IsLent W.contents (W.contents writer.old) (W.contents writer.new)) (S.gives sources.old)
        (driving_of job.now) options) (ready session beside) (S.openings sources.old)
        (S.openings sources.new) result }
    ensures unwritten { IsUnwritten (driving_of job.now).output (W.contents writer.old)
        (W.contents writer.new) }
{
    match job.output {
        Some(path) => {
            drive_into_file::<I, D, S, M>(session, path, beside, options, sources, meter)
        }
        None => drive_onto_stream::<I, D, S, W, M>(
            session, beside, job, options, sources, writer, meter,
        ),
    }
}

/// Recovers a disk, and drives it, with what it has beside it.
fn drive_opened<'a, I: Read, D: Disk, S: Sources<'a, I, D>, W: Write + 'a, M: Meter>(
    alloc: Global,
    equipped: Equipped<D>,
    job: &DriveJob<'a>,
    options: Options,
    sources: &mut S,
    writer: &mut W,
    meter: &mut M,
) -> Result<Driven, JobFault>
    ensures drives { DrivesOpened {d = D.Disk} (setting_of ⟦<StreamOutput<'a, W> as Disk>⟧
        (IsLent W.contents (W.contents writer.old) (W.contents writer.new)) (S.gives sources.old)
        (driving_of job.now) options) equipped (S.openings sources.old) (S.openings sources.new)
        result }
    ensures unwritten { IsUnwritten (driving_of job.now).output (W.contents writer.old)
        (W.contents writer.new) }
{
    let Equipped { disk, beside } = equipped;
    match recover(alloc, disk) {
        Ok(session) => drive_recovered::<I, D, S, W, M>(
            session, beside, job, options, sources, writer, meter,
        ),
        Err(unrecovered) => {
            close_all::<D, S>(unrecovered.disk, left_of(beside), sources);
            Err(JobFault::Recover(unrecovered.fault))
        }
    }
}

/// Drives a disk with its input, and with the history of the words, where they name one.
fn drive_joined<'a, I: Read, D: Disk, S: Sources<'a, I, D>, W: Write + 'a, M: Meter>(
    alloc: Global,
    supplied: Supplied<D>,
    job: &DriveJob<'a>,
    options: Options,
    sources: &mut S,
    writer: &mut W,
    meter: &mut M,
) -> Result<Driven, JobFault>
    ensures drives { DrivesJoined {d = D.Disk} (setting_of ⟦<StreamOutput<'a, W> as Disk>⟧
        (IsLent W.contents (W.contents writer.old) (W.contents writer.new)) (S.gives sources.old)
        (driving_of job.now) options) supplied (S.openings sources.old) (S.openings sources.new)
        result }
    ensures unwritten { IsUnwritten (driving_of job.now).output (W.contents writer.old)
        (W.contents writer.new) }
{
    let equipped = equip::<I, D, S>(alloc, supplied, job, sources)?;
    drive_opened::<I, D, S, W, M>(alloc, equipped, job, options, sources, writer, meter)
}

/// Notes the schedule of the words on a disk with its input, and drives it.
fn drive_noted<'a, I: Read, D: Disk, S: Sources<'a, I, D>, W: Write + 'a, M: Meter>(
    alloc: Global,
    supplied: Supplied<D>,
    job: &DriveJob<'a>,
    options: Options,
    sources: &mut S,
    writer: &mut W,
    meter: &mut M,
) -> Result<Driven, JobFault>
    requires { is_in_range (driving_of job.now) ≡ true }
    ensures drives { DrivesNoted {d = D.Disk} (setting_of ⟦<StreamOutput<'a, W> as Disk>⟧
        (IsLent W.contents (W.contents writer.old) (W.contents writer.new)) (S.gives sources.old)
        (driving_of job.now) options) supplied (S.openings sources.old) (S.openings sources.new)
        result }
    ensures unwritten { IsUnwritten (driving_of job.now).output (W.contents writer.old)
        (W.contents writer.new) }
{
    let Supplied { disk, intake } = supplied;
    let mut disk = disk;
    match note_schedule(&mut disk, &asked_schedule(job)) {
        Ok(()) => {
            let noted = Supplied { disk, intake };
            drive_joined::<I, D, S, W, M>(alloc, noted, job, options, sources, writer, meter)
        }
        Err(_) => {
            close_both::<D, S>(disk, file_of(intake), sources);
            Err(JobFault::Recover(RecoverFault::Device))
        }
    }
}

/// Drives a disk with the input of the words, where they name one.
fn drive_fed_by_words<'a, I: Read, D: Disk, S: Sources<'a, I, D>, W: Write + 'a, M: Meter>(
    alloc: Global,
    disk: D,
    job: &DriveJob<'a>,
    options: Options,
    sources: &mut S,
    writer: &mut W,
    meter: &mut M,
) -> Result<Driven, JobFault>
    requires { is_in_range (driving_of job.now) ≡ true }
    ensures drives { DrivesFed {d = D.Disk} (setting_of ⟦<StreamOutput<'a, W> as Disk>⟧
        (IsLent W.contents (W.contents writer.old) (W.contents writer.new)) (S.gives sources.old)
        (driving_of job.now) options) disk (S.openings sources.old) (S.openings sources.new)
        result }
    ensures unwritten { IsUnwritten (driving_of job.now).output (W.contents writer.old)
        (W.contents writer.new) }
{
    let supplied = supply::<I, D, S>(disk, job, sources)?;
    drive_noted::<I, D, S, W, M>(alloc, supplied, job, options, sources, writer, meter)
}

/// Drives a disk that was found, if it has the sizes and the schedule that are asked for; else closes it as it is.
fn drive_sized<'a, I: Read, D: Disk, S: Sources<'a, I, D>, W: Write + 'a, M: Meter>(
    alloc: Global,
    disk: D,
    job: &DriveJob<'a>,
    options: Options,
    sources: &mut S,
    writer: &mut W,
    meter: &mut M,
) -> Result<Driven, JobFault>
    requires { is_in_range (driving_of job.now) ≡ true }
    ensures drives { DrivesSized {d = D.Disk} (setting_of ⟦<StreamOutput<'a, W> as Disk>⟧
        (IsLent W.contents (W.contents writer.old) (W.contents writer.new)) (S.gives sources.old)
        (driving_of job.now) options) (driving_of job.now) disk (S.openings sources.old)
        (S.openings sources.new) result }
    ensures unwritten { IsUnwritten (driving_of job.now).output (W.contents writer.old)
        (W.contents writer.new) }
{
    let mut disk = disk;
    let found = unfitness(&mut disk, job);
    match found {
        Ok(None) => {
            drive_fed_by_words::<I, D, S, W, M>(alloc, disk, job, options, sources, writer, meter)
        }
        Ok(Some(fault)) => {
            sources.close(disk);
            Err(fault)
        }
        Err(_) => {
            sources.close(disk);
            Err(JobFault::Recover(RecoverFault::Device))
        }
    }
}

/// Drives the disk of a path to an end, with its output in the file of another, which is asked for once the disk is
/// recovered, or on the writer where the words name none. Its program's input is the job's file, where the words name one. A disk
/// that is missing is made, where the words have an image for it.
///
/// # Errors
///
/// The first that applies: `Range`, before anything is opened; `File` of the disk, or what making it answers; where it is there,
/// what the image's fault is, and `ImageDiffers`, both before a byte of the disk is changed; `BadConfig` where
/// it has other sizes than those of the words, and `ScheduleDiffers` where it notes another schedule, and the words don't say that this is meant;
/// what the input's fault is, before a byte of the disk is changed; once the schedule is noted what the history's fault is, where the words
/// name one; `Recover`, before the output is asked for;
/// `File` of the output; then what the drive answers.
pub fn drive_path<'a, I: Read + Drop, D: Disk, S: Sources<'a, I, D>, W: Write + 'a, M: Meter>(
    alloc: Global,
    job: &DriveJob<'a>,
    sources: &mut S,
    writer: &mut W,
    meter: &mut M,
) -> Result<Driven, JobFault>
    ensures drives { DrivesPath (means_of D.Disk ⟦<StreamOutput<'a, W> as Disk>⟧
        (IsLent W.contents (W.contents writer.old) (W.contents writer.new))
        (S.image_bytes sources.old) (S.opens sources.old) (S.fills sources.old)
        (S.gives sources.old) (driving_of job.now)) (driving_of job.now)
        (S.openings sources.old) (S.openings sources.new) result }
    ensures unwritten { IsUnwritten (driving_of job.now).output (W.contents writer.old)
        (W.contents writer.new) }
{
    if !is_in_range(job) {
        return Err(JobFault::Range);
    }
    let options = options_of(job);
    let disk = find_disk::<I, D, S>(alloc, job, sources)?;
    meter.begin(alloc, watch_of(job));
    drive_sized::<I, D, S, W, M>(alloc, disk, job, options, sources, writer, meter)
}
