//! The program behind its words.
ghost use Rattle.std.specs.Prelude.{◌≡◌, ◌≢◌, ◌≤◌, [], List, Option, ℕ, Some, false, map, true};
ghost use Rattle.std.specs.Io.KnownBytes.{Appends};
ghost use Rattle.clap.specs.Words.{takes};
ghost use Rattle.ckrt_cli_words.specs.Commands.{ckrt_app};
ghost use Rattle.ckrt_cli_words.specs.Jobs.{Formatting, asks_both_forms, Request, format, version, formatting_of, inspection_of, request_of, request_of_words};
ghost use Rattle.ckrt_cli_files.specs.Files.{openings_of};
ghost use Rattle.ckrt_cli.specs.Performing.{made_line, InspectsPath, MakesPath, Performs, RunsOpened, RunsPath, RunsWords, ServesStored, ShowsOpened, ShowsPath, outcome_of_hunt, outcome_with_end, outcome_without_end, real_files, size_of};
ghost use Rattle.ckrt_cli_reports.specs.Outside.{outside};
ghost use Rattle.ckrt_cli_reports.specs.Lines.{version_line};

use crate::{
    calls_path, check_path, debug_path, history_path, hunt_path, list_path, profile_path,
    races_path, stored, timeline_path,
};
use ckrt_cli_disk::{core_path, drive_path, inspect_disk, make_disk, run_disk};
use ckrt_cli_files::{ImageReader, JobFile, RealDisk, Sources, SystemSources};
use ckrt_cli_reports::{
    Done, Driven, JobFault, Meter, Reporter, report, report_words, write_formatted, write_version,
};
use ckrt_cli_words::{FormatJob, InspectJob, Job, read_words};
use ckrt_disk::{Disk, Holds};
use ckrt_drive::StreamOutput;
use ckrt_hunt_schedules::{HuntOnlooker, Verdict};
use ckrt_look_recording::Rule;
use ckrt_main::serve_image;
use ckrt_recovery::Config;
use std::alloc::Global;
use std::fs::{File, Files};
use std::io::{Read, Write};

/// Makes the disk of a job, and says how many bytes it needs.
fn make<'a, I: Read + Drop, D: Disk, S: Sources<'a, I, D>, W: Write>(
    alloc: Global,
    job: &FormatJob<'a>,
    sources: &mut S,
    writer: &mut W,
) -> Result<(), JobFault>
    ensures makes { (left : Option (List ℕ))
        → MakesPath D.Disk (formatting_of job.now)
        (S.image_bytes sources.old job.now.image.now)
        (S.fills sources.old job.now.disk.now (size_of (formatting_of job.now)))
        (outside (S.openings sources.old) (W.contents writer.old) left)
        (outside (S.openings sources.new) (W.contents writer.new) left) result }
{
    let config = Config {
        pages: job.pages,
        harts: job.harts,
        journal: job.journal,
    };
    match make_disk::<I, D, S>(alloc, sources, job.image, job.disk, config) {
        Ok(()) => write_formatted(writer, config.size_needed() as u64),
        Err(fault) => Err(fault),
    }
}

/// Runs a disk that was opened, and closes it.
fn run_opened<'a, I: Read, D: Disk + Drop, S: Sources<'a, I, D>, R: Read, W: Write>(
    alloc: Global,
    disk: D,
    sources: &mut S,
    reader: &mut R,
    writer: &mut W,
) -> Result<(), JobFault>
    ensures runs { RunsOpened D.Disk (λ start. start ≡ disk)
        (outside (S.openings sources.old) (W.contents writer.old) (R.remaining reader.old))
        (outside (S.openings sources.new) (W.contents writer.new) (R.remaining reader.new))
        result }
{
    match run_disk(alloc, disk, reader, writer) {
        Ok(disk) => {
            sources.close(disk);
            Ok(())
        }
        Err(unserved) => {
            sources.close(unserved.disk);
            Err(unserved.fault)
        }
    }
}

/// Runs the disk of a path.
fn run<'a, I: Read, D: Disk + Drop, S: Sources<'a, I, D>, R: Read, W: Write>(
    alloc: Global,
    path: &'a str,
    sources: &mut S,
    reader: &mut R,
    writer: &mut W,
) -> Result<(), JobFault>
    ensures runs { RunsPath D.Disk path.now (S.opens sources.old path.now)
        (outside (S.openings sources.old) (W.contents writer.old) (R.remaining reader.old))
        (outside (S.openings sources.new) (W.contents writer.new) (R.remaining reader.new))
        result }
{
    match sources.open_disk(path) {
        Ok(disk) => run_opened::<I, D, S, R, W>(alloc, disk, sources, reader, writer),
        Err(fault) => Err(JobFault::File(JobFile::Disk, fault)),
    }
}

/// Shows a disk that was opened, and closes it.
fn show_opened<'a, I: Read, D: Disk, S: Sources<'a, I, D>, W: Write>(
    alloc: Global,
    disk: D,
    job: &InspectJob<'a>,
    sources: &mut S,
    writer: &mut W,
) -> Result<(), JobFault>
    ensures shows { (left : Option (List ℕ))
        → ShowsOpened D.Disk (λ start. start ≡ disk) (inspection_of job.now)
        (outside (S.openings sources.old) (W.contents writer.old) left)
        (outside (S.openings sources.new) (W.contents writer.new) left) result }
{
    let mut disk = disk;
    let answer = inspect_disk(alloc, &mut disk, job, writer);
    sources.close(disk);
    answer
}

/// Shows the disk of a path.
fn inspect_path<'a, I: Read, D: Disk, S: Sources<'a, I, D>, W: Write>(
    alloc: Global,
    job: &InspectJob<'a>,
    sources: &mut S,
    writer: &mut W,
) -> Result<(), JobFault>
    ensures shows { (left : Option (List ℕ))
        → ShowsPath D.Disk (S.opens sources.old job.now.disk.now) (inspection_of job.now)
        (outside (S.openings sources.old) (W.contents writer.old) left)
        (outside (S.openings sources.new) (W.contents writer.new) left) result }
{
    match sources.look_at_disk(job.disk) {
        Ok(disk) => show_opened::<I, D, S, W>(alloc, disk, job, sources, writer),
        Err(fault) => Err(JobFault::File(JobFile::Disk, fault)),
    }
}

/// Shows the disk or the history of a path.
fn show<'a, I: Read, D: Disk, S: Sources<'a, I, D>, W: Write>(
    alloc: Global,
    job: &InspectJob<'a>,
    sources: &mut S,
    writer: &mut W,
) -> Result<(), JobFault>
    ensures shows { (left : Option (List ℕ))
        → InspectsPath D.Disk (S.opens sources.old job.now.disk.now) (inspection_of job.now)
        (outside (S.openings sources.old) (W.contents writer.old) left)
        (outside (S.openings sources.new) (W.contents writer.new) left) result }
{
    if job.history {
        list_path::<I, D, S, W>(alloc, job, sources, writer)
    } else {
        inspect_path::<I, D, S, W>(alloc, job, sources, writer)
    }
}

/// Serves the stored program in memory.
fn serve_stored<R: Read, W: Write>(
    alloc: Global,
    reader: &mut R,
    writer: &mut W,
) -> Result<(), JobFault>
    ensures serves { ServesStored (W.contents writer.old) (W.contents writer.new)
        (R.remaining reader.old) (R.remaining reader.new) result }
{
    match serve_image(alloc, &stored::IMAGE, stored::CONFIG, reader, writer) {
        Ok(()) => Ok(()),
        Err(fault) => Err(JobFault::Serve(fault)),
    }
}

/// The outcome of a job that has no end of its own.
fn without_end(done: Result<(), JobFault>) -> Result<Done, JobFault>
    ensures { result ≡ outcome_without_end done }
{
    match done {
        Ok(()) => Ok(Done::Whole),
        Err(fault) => Err(fault),
    }
}

/// What a drive came to, as the outcome of its job.
fn with_end(driven: Result<Driven, JobFault>) -> Result<Done, JobFault>
    ensures { result ≡ outcome_with_end driven }
{
    match driven {
        Ok(driven) => Ok(Done::Driven(driven)),
        Err(fault) => Err(fault),
    }
}

/// What the runs of a hunt came to, as the outcome of its job.
fn of_hunt(hunted: Result<Verdict, JobFault>) -> Result<Done, JobFault>
    ensures { result ≡ outcome_of_hunt hunted }
{
    match hunted {
        Ok(Verdict::Good) => Ok(Done::Whole),
        Ok(Verdict::Several) => Ok(Done::Several),
        Ok(Verdict::Bad) => Ok(Done::Bad),
        Err(fault) => Err(fault),
    }
}

/// Does a job.
fn perform<
    'a,
    I: Read + Drop,
    D: Disk + Drop,
    S: Sources<'a, I, D>,
    R: Read,
    W: Write + 'a,
    M: Meter + HuntOnlooker,
>(
    alloc: Global,
    job: &Job<'a>,
    rules: &[Rule],
    sources: &mut S,
    reader: &mut R,
    writer: &mut W,
    meter: &mut M,
) -> Result<Done, JobFault>
    ensures performs { Performs {d = D.Disk} (record {
      stream = ⟦<StreamOutput<'a, W> as Disk>⟧;
      contents = W.contents;
      images = S.image_bytes sources.old;
      Opens = S.opens sources.old;
      Fills = S.fills sources.old;
      others = S.gives sources.old;
      rules = rules.now;
    })
        (request_of job.now)
        (outside (S.openings sources.old) (W.contents writer.old) (R.remaining reader.old))
        (outside (S.openings sources.new) (W.contents writer.new) (R.remaining reader.new))
        result }
{
    match job {
        Job::Stored => without_end(serve_stored(alloc, reader, writer)),
        Job::Version => without_end(write_version(writer)),
        Job::Format(job) => without_end(make::<I, D, S, W>(alloc, job, sources, writer)),
        Job::Run(path) => without_end(run::<I, D, S, R, W>(alloc, path, sources, reader, writer)),
        Job::Inspect(job) => without_end(show::<I, D, S, W>(alloc, job, sources, writer)),
        Job::Core(job) => without_end(core_path::<I, D, S>(alloc, job, sources)),
        Job::Calls(job) => without_end(calls_path::<I, D, S, W>(alloc, job, sources, writer)),
        Job::Debug(job) => {
            without_end(debug_path::<I, D, S, R, W>(alloc, job, sources, reader, writer))
        }
        Job::Races(job) => {
            without_end(races_path::<I, D, S, W>(alloc, job, rules, sources, writer))
        }
        Job::Check(job) => {
            without_end(check_path::<I, D, S, W>(alloc, job, rules, sources, writer))
        }
        Job::Timeline(job) => {
            without_end(timeline_path::<I, D, S, W>(alloc, job, sources, writer))
        }
        Job::Profile(job) => without_end(profile_path::<I, D, S, W>(alloc, job, sources, writer)),
        Job::Hunt(job) => {
            of_hunt(hunt_path::<I, D, S, W, M>(alloc, job, sources, writer, meter))
        }
        Job::History(job) => {
            without_end(history_path::<I, D, S, W>(alloc, job, sources, writer))
        }
        Job::Drive(job) => {
            with_end(drive_path::<I, D, S, W, M>(alloc, job, sources, writer, meter))
        }
    }
}

/// Does what the words after the program's name ask for, with images and disks of any sources: `format DISK IMAGE` prints
/// `formatted SIZE`, `history FILE` tells how far that history goes, and brings it up to a disk first where the words name one, `run DISK` answers the lines of the reader, `inspect DISK` shows what the disk holds, `core DISK FILE`
/// writes it as a core into FILE, `calls DISK` tells its calls, `debug DISK` serves it to gdb, `races DISK` tells its data races and `check DISK` its errors of memory, with callers by these rules, `profile DISK` where its
/// steps went, `timeline DISK` draws what its threads did, `hunt IMAGE` tells what other schedules come to, `drive DISK`
/// runs its program to its end, with its output in a file or printed, keeps its history where the words name one, and reports what it came to in a line, `--version`
/// prints the version and its kit, no words serve the stored program in memory. Of a fault two lines are reported: what is
/// wrong in plain words, with the path of the file that it is of, and `ckrt: NAME`. Of words that name no job a text is. A
/// drive is looked on by the meter, and so is a hunt. The answer is the program's status: 0 where all was done, 1 for a fault, 2 for words that
/// name no job. Of a drive it is 0 where the guest ended by `exit 0` alone, 3 where it waits for input, 4 for a deadlock, 5 where
/// it made as many events as were asked for, 6 where a fault ended the guest, 7 where the guest ended by another status. Of a hunt
/// it is 0 where each run ended by `exit 0` with one output, 8 where they came to several outcomes, or one had a race that was looked
/// for, and 9 where all came to one outcome other than that.
pub fn run_words_with<
    'a,
    I: Read + Drop,
    D: Disk + Drop,
    S: Sources<'a, I, D>,
    R: Read,
    W: Write + 'a,
    E: Reporter,
    M: Meter + HuntOnlooker,
>(
    alloc: Global,
    words: &'a [&'a str],
    rules: &[Rule],
    sources: &mut S,
    reader: &mut R,
    writer: &mut W,
    reporter: &mut E,
    meter: &mut M,
) -> u8
    ensures bound { result ≤ 9 }
    ensures asked { result ≡ 0
        → (r : Request) × (request_of_words (map (λ s. s.now) words.entry.now) ≡ Some r) }
    ensures made { result ≡ 0 → (f : Formatting)
        → request_of_words (map (λ s. s.now) words.entry.now) ≡ Some (format f)
        → Appends (W.contents writer.old) (W.contents writer.new) (made_line f) }
    ensures version { result ≡ 0
        → request_of_words (map (λ s. s.now) words.entry.now) ≡ Some version
        → Appends (W.contents writer.old) (W.contents writer.new) version_line }
    ensures usage { result ≡ 2
        → asks_both_forms (map (λ s. s.now) words.entry.now) ≡ false
        → takes ckrt_app (map (λ s. s.now) words.entry.now) ≢ true }
    ensures stored { result ≡ 2 → words.entry.now ≢ [] }
    ensures outcome { RunsWords {d = D.Disk} (record {
      stream = ⟦<StreamOutput<'a, W> as Disk>⟧;
      contents = W.contents;
      images = S.image_bytes sources.old;
      Opens = S.opens sources.old;
      Fills = S.fills sources.old;
      others = S.gives sources.old;
      rules = rules.now;
    })
        (map (λ s. s.now) words.entry.now)
        (outside (S.openings sources.old) (W.contents writer.old) (R.remaining reader.old))
        (outside (S.openings sources.new) (W.contents writer.new) (R.remaining reader.new))
        (record {
          before = E.said reporter.old;
          behind = E.said reporter.new;
          has_failed = E.has_failed reporter.new;
        })
        result }
{
    match read_words(alloc, words) {
        Ok(job) => {
            let outcome = perform::<I, D, S, R, W, M>(
                alloc, &job, rules, sources, reader, writer, meter,
            );
            report(reporter, &job, outcome)
        }
        Err(fault) => report_words(reporter, fault),
    }
}

/// Does what the words after the program's name ask for, with images and disks that are files of the system, as
/// [`run_words_with`] says. Each file was opened as what it is used for, and of its path; it is proved for whatever bytes each of
/// them holds over time, as `H` says of it by all openings up to its own.
pub fn run_words<
    'a,
    F: Files<File = File>,
    H: Holds + 'a,
    R: Read,
    W: Write + 'a,
    E: Reporter,
    M: Meter + HuntOnlooker,
>(
    alloc: Global,
    words: &'a [&'a str],
    rules: &[Rule],
    sources: &mut SystemSources<'a, F, RealDisk<'a, H>>,
    reader: &mut R,
    writer: &mut W,
    reporter: &mut E,
    meter: &mut M,
) -> u8
    ensures bound { result ≤ 9 }
    ensures asked { result ≡ 0
        → (r : Request) × (request_of_words (map (λ s. s.now) words.entry.now) ≡ Some r) }
    ensures made { result ≡ 0 → (f : Formatting)
        → request_of_words (map (λ s. s.now) words.entry.now) ≡ Some (format f)
        → Appends (W.contents writer.old) (W.contents writer.new) (made_line f) }
    ensures version { result ≡ 0
        → request_of_words (map (λ s. s.now) words.entry.now) ≡ Some version
        → Appends (W.contents writer.old) (W.contents writer.new) version_line }
    ensures usage { result ≡ 2
        → asks_both_forms (map (λ s. s.now) words.entry.now) ≡ false
        → takes ckrt_app (map (λ s. s.now) words.entry.now) ≢ true }
    ensures stored { result ≡ 2 → words.entry.now ≢ [] }
    ensures outcome { RunsWords {d = ⟦<RealDisk<'a, H> as Disk>⟧}
        (real_files ⟦<StreamOutput<'a, W> as Disk>⟧ W.contents rules.now)
        (map (λ s. s.now) words.entry.now)
        (outside (openings_of sources.old) (W.contents writer.old) (R.remaining reader.old))
        (outside (openings_of sources.new) (W.contents writer.new) (R.remaining reader.new))
        (record {
          before = E.said reporter.old;
          behind = E.said reporter.new;
          has_failed = E.has_failed reporter.new;
        })
        result }
{
    run_words_with::<
        ImageReader,
        RealDisk<'a, H>,
        SystemSources<'a, F, RealDisk<'a, H>>,
        R,
        W,
        E,
        M,
    >(
        alloc, words, rules, sources, reader, writer, reporter, meter,
    )
}
