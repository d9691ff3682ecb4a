//! The hunt of the image of a path.
ghost use Rattle.std.specs.Prelude.{◌≡◌, ℕ, List, Option, Result, IfErr, option_map, true};
ghost use Rattle.ckrt_hunt_schedules.specs.Seeds.{ends_of};
ghost use Rattle.ckrt_stored.specs.Layout.{is_valid};
ghost use Rattle.ckrt_hunt_schedules.specs.Tallies.{hunted_of};
ghost use Rattle.ckrt_hunt_schedules.specs.Turns.{bytes_of};
ghost use Rattle.ckrt_cli_words.specs.Jobs.{hunting_of};
ghost use Rattle.ckrt_cli_reports.specs.Outside.{outside};
ghost use Rattle.ckrt_cli.specs.Hunting.{EndsHunt, HuntsPath, IsUnkeepable, KeepsAt, Tells, answer_of, asked_seeds, config_of, fault_of, kept_file, kept_size, look_of, place_of, reached, sought_in, wanted_of};

use crate::folder::{is_folder, keep_in_folder, outcome_path};
use crate::found::{KeptAt, ToldHunt, keep_first};
use crate::input::asked_input;
use crate::races::room_of;
use ckrt_cli_disk::fitting_image;
use ckrt_cli_files::{FileFault, JobFile, Sources};
use ckrt_cli_reports::{JobFault, is_hunt_in_range};
use ckrt_cli_words::HuntJob;
use ckrt_disk::Disk;
use ckrt_hunt_looks::{HuntTold, hunt_as_asked};
use ckrt_hunt_schedules::{
    Asked, HuntFault, HuntOnlooker, HuntWatch, Input, Look, Seeds, Shape, TableWatch, Verdict,
};
use ckrt_main::ServeFault;
use ckrt_recovery::{Config, FormatFault};
use std::alloc::Global;
use std::io::{Read, Write};

/// What is hunted: an image, what its program is given to read, and what was asked for.
#[derive(Clone, Copy)]
struct Hunted<'a, 'b> {
    image: &'b [u8],
    input: Input<'b>,
    asked: Asked<'a>,
}

/// What is given of bytes that were read.
fn input_over(read: &Option<Vec<u8>>) -> Input<'_>
    ensures { bytes_of result ≡ option_map (λ bytes. bytes.items) read.now }
{
    match read {
        Some(bytes) => Input {
            bytes: Some(bytes.as_slice()),
        },
        None => Input::none(),
    }
}

/// The sizes of a disk that a run is kept on.
fn config_of(job: &HuntJob<'_>) -> Config
    ensures { result ≡ config_of (hunting_of job.now) }
{
    Config {
        pages: job.pages,
        harts: job.harts,
        journal: 1_048_576,
    }
}

/// The seeds that the words ask for: of a hunt by time all from 1 on, and 1 to 200 where they say nothing.
fn seeds_for(job: &HuntJob<'_>) -> Option<Seeds>
    ensures { option_map ends_of result ≡ asked_seeds (hunting_of job.now) }
{
    match (job.seconds, job.seeds) {
        (Some(_), _) => Some(Seeds {
            first: 1,
            last: u64::MAX - 1,
        }),
        (None, Some(text)) => Seeds::read(text),
        (None, None) => Seeds::read("1-200"),
    }
}

/// What the words ask each run to be looked at for.
fn look_of(job: &HuntJob<'_>) -> Look
    ensures { result ≡ look_of (hunting_of job.now) }
{
    if job.races {
        Look::Races
    } else if job.check {
        Look::Errors
    } else {
        Look::Outcomes
    }
}

/// What is told of a hunt while it runs.
fn watch_of<'a>(job: &HuntJob<'a>, asked: &Asked<'a>) -> HuntWatch<'a> {
    let table = match job.table {
        Some(path) => Some(TableWatch {
            path,
            asked: *asked,
            disk: job.keep,
        }),
        None => None,
    };
    HuntWatch {
        seconds: job.seconds,
        progress: job.progress,
        table,
    }
}

/// What the job answers where the hunt wasn't told.
fn fault_of(fault: HuntFault) -> JobFault
    ensures { result ≡ fault_of fault }
{
    match fault {
        HuntFault::ImageTooLong => JobFault::Format(FormatFault::ImageTooLong),
        HuntFault::OutOfMemory => JobFault::OutOfMemory,
        HuntFault::ShadowFull => JobFault::ShadowFull,
        HuntFault::Write => JobFault::Serve(ServeFault::Write),
    }
}

/// What the job answers where keeping answered so.
fn answer_of(kept: Result<(), JobFault>, verdict: Verdict) -> Result<Verdict, JobFault>
    ensures { result ≡ answer_of kept verdict }
{
    match kept {
        Ok(()) => Ok(verdict),
        Err(fault) => Err(fault),
    }
}

/// What the path of the words is to a hunt that looks at it before it begins.
fn kept_file(path: &str) -> JobFile
    ensures { result ≡ kept_file path.now }
{
    if is_folder(path) {
        JobFile::FirstKept
    } else {
        JobFile::Kept
    }
}

/// That a disk can be made for the path of the words: in a folder the first one.
fn look_at_path<'a, I: Read, D: Disk, S: Sources<'a, I, D>>(
    alloc: Global,
    path: &str,
    sources: &S,
) -> Result<(), FileFault> {
    if !is_folder(path) {
        return sources.look_at_place(alloc, path);
    }
    match outcome_path(alloc, path, 1) {
        Ok(first) => sources.look_at_place(alloc, first),
        Err(_) => Err(FileFault::OutOfMemory),
    }
}

/// That a disk can be made where the words ask for one.
fn look_at_keep<'a, I: Read, D: Disk, S: Sources<'a, I, D>>(
    alloc: Global,
    keep: Option<&str>,
    sources: &S,
) -> Result<(), JobFault>
    ensures { IfErr result (IsUnkeepable (option_map (λ path. path.now) keep.entry)) }
{
    let Some(path) = keep else {
        return Ok(());
    };
    match look_at_path::<I, D, S>(alloc, path, sources) {
        Ok(()) => Ok(()),
        Err(fault) => Err(JobFault::File(kept_file(path), fault)),
    }
}

/// Hunts, and writes the table of it, which is flushed.
#[tactic(auto, using(crate::proofs::AppendLemmas::appends_kept))]
fn tell<O: HuntOnlooker, W: Write>(
    alloc: Global,
    hunted: &Hunted<'_, '_>,
    onlooker: &mut O,
    writer: &mut W,
) -> Result<HuntTold, HuntFault>
    ensures { Tells hunted.now.image.now hunted.now.input hunted.now.asked
        (W.contents writer.old) (W.contents writer.new) result }
{
    let asked = &hunted.asked;
    let told = hunt_as_asked(alloc, hunted.image, hunted.input, asked, onlooker, writer)?;
    match writer.flush() {
        Ok(()) => Ok(told),
        Err(_) => Err(HuntFault::Write),
    }
}

/// Keeps what the words ask for: the run of the first seed, or that of each outcome.
fn keep_if_asked<'a, I: Read, D: Disk, S: Sources<'a, I, D>, W: Write>(
    alloc: Global,
    keep: Option<&'a str>,
    told: ToldHunt<'_, '_>,
    sources: &mut S,
    writer: &mut W,
) -> Result<(), JobFault>
    requires { is_valid told.config ≡ true }
    ensures { KeepsAt D.Disk
        (sought_in (hunted_of told.entry.image.now told.entry.shape told.entry.input) told.entry
        (S.fills sources.old))
        (reached (S.openings sources.old) (W.contents writer.old))
        (reached (S.openings sources.new) (W.contents writer.new)) result
        (place_of (option_map (λ path. path.now) keep.entry) told.entry.all_rows
        told.entry.rows.now) }
{
    let Some(path) = keep else {
        return Ok(());
    };
    let at = KeptAt { path, told };
    if is_folder(path) {
        keep_in_folder::<I, D, S, W>(alloc, &at, sources, writer)
    } else {
        keep_first::<I, D, S, W>(alloc, &at, sources, writer)
    }
}

/// Hunts an image that was read, tells what came of it, and keeps what the words ask for.
fn hunt_image<'a, I: Read, D: Disk, S: Sources<'a, I, D>, W: Write, O: HuntOnlooker>(
    alloc: Global,
    job: &HuntJob<'a>,
    hunted: &Hunted<'a, '_>,
    sources: &mut S,
    writer: &mut W,
    onlooker: &mut O,
) -> Result<Verdict, JobFault>
    requires { is_valid (config_of (hunting_of job.now)) ≡ true }
    ensures hunts { (told : Result HuntTold HuntFault) × (table : Option (List ℕ))
        × Tells hunted.now.image.now hunted.now.input hunted.now.asked
        (W.contents writer.old) table told
        × EndsHunt D.Disk (wanted_of (record {
          asked = hunting_of job.now;
          known = S.image_bytes sources.old;
          Fills = λ path. S.fills sources.old path (kept_size (hunting_of job.now));
        }) hunted.now.image.now hunted.now.input hunted.now.asked)
        (reached (S.openings sources.old) table)
        (reached (S.openings sources.new) (W.contents writer.new)) told result }
{
    onlooker.begin_hunt(alloc, watch_of(job, &hunted.asked));
    match tell(alloc, hunted, onlooker, writer) {
        Ok(told) => {
            let input = hunted.input;
            let kept_of = ToldHunt {
                config: config_of(job),
                image: hunted.image,
                shape: hunted.asked.shape,
                input,
                first: hunted.asked.seeds.first,
                rows: told.done.outcomes.rows(),
                as_drawn: hunted.asked.look.is_closer(),
                all_rows: hunted.asked.all_rows,
            };
            let kept = keep_if_asked::<I, D, S, W>(alloc, job.keep, kept_of, sources, writer);
            answer_of(kept, told.verdict())
        }
        Err(fault) => Err(fault_of(fault)),
    }
}

/// Runs the image of a path by one schedule after another, each drawn from its seed, and writes the table of what they come to. The
/// seeds are those of a range, or those from 1 on for which an onlooker has time, one at least: the table is that of the range up to the
/// last seed that was run. Where the words name an input, each run reads its bytes, and then its end. The answer is what they came to
/// together. Where the words name a disk, the run of the first seed is kept there; where they name a folder, by a path that ends
/// with `/`, the first run of each outcome is, on a disk of its own. Each is kept by the shortest schedule that is found, and written is
/// its disk too, and how many switches it has. Of a folder the first run that isn't kept is named as well.
///
/// Where the words ask for races or for errors of memory, each run is looked at for them, and those that some run had are written after
/// the table. Then a run is kept as it was drawn, since a shorter schedule may have others, and where a run had one, that is told as
/// several outcomes are.
///
/// # Errors
///
/// The first that applies: `BadConfig` where pages or harts are out of their ranges; `Range` where seconds or bytes of the shadow are, where
/// there are seeds beside seconds, two looks, or such bytes without a look, or where the text of the seeds isn't a range; `File` where no disk can be made at the path where one is to be kept, in a
/// folder the first one; `File` and `OutOfMemory` of the image, `File` also where it is an ELF
/// file; `ImageTooLong`; of the input `File`, `OutOfMemory`, and `InputTooLong` where it has more than 1,048,576 bytes; `OutOfMemory` of
/// the hunt, and `ShadowFull` where a run that is looked at fills the room of the shadow; `Serve` where the writer failed; of the disk `OutOfMemory` of the search for a schedule, `File`, what formatting and recovery
/// answer, `RunTooLong`, and `Serve` where the writer failed once the disk had its name.
pub fn hunt_path<'a, I: Read + Drop, D: Disk, S: Sources<'a, I, D>, W: Write, O: HuntOnlooker>(
    alloc: Global,
    job: &HuntJob<'a>,
    sources: &mut S,
    writer: &mut W,
    onlooker: &mut O,
) -> Result<Verdict, JobFault>
    ensures hunts { (left : Option (List ℕ))
        → HuntsPath D.Disk (record {
          asked = hunting_of job.now;
          known = S.image_bytes sources.old;
          Fills = λ path. S.fills sources.old path (kept_size (hunting_of job.now));
        })
        (outside (S.openings sources.old) (W.contents writer.old) left)
        (outside (S.openings sources.new) (W.contents writer.new) left) result }
{
    let config = config_of(job);
    if !config.is_valid() {
        return Err(JobFault::Format(FormatFault::BadConfig));
    }
    let Some(shape) = Shape::new(job.pages, job.harts, job.steps) else {
        return Err(JobFault::Format(FormatFault::BadConfig));
    };
    let shape = shape.ignoring_output(job.ignore_output);
    if !is_hunt_in_range(job) {
        return Err(JobFault::Range);
    }
    let Some(seeds) = seeds_for(job) else {
        return Err(JobFault::Range);
    };
    look_at_keep::<I, D, S>(alloc, job.keep, sources)?;
    let image = fitting_image::<I, D, S>(alloc, sources, job.image, config)?;
    let input = asked_input::<I, D, S>(alloc, sources, job.input)?;
    let given = input_over(&input);
    let asked = Asked {
        image: job.image,
        shape,
        seeds,
        may_end: job.seconds.is_some(),
        input: job.input,
        look: look_of(job),
        room: room_of(job.memory),
        all_rows: job.all_rows,
    };
    let hunted = Hunted {
        image: &image,
        input: given,
        asked,
    };
    hunt_image::<I, D, S, W, O>(alloc, job, &hunted, sources, writer, onlooker)
}
