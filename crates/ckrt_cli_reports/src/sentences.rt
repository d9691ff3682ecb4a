//! What is said of a fault: of its file, of its numbers, and of numbers in the words that are out of their ranges.
use crate::fault::JobFault;
use crate::notes::ScheduleNotes;
use crate::ranges::{
    config_for, is_apart, is_choice, is_cut, is_one_look, is_room, is_shadowed, is_tabled,
    is_target, is_time,
};
use ckrt_cli_files::JobFile;
use ckrt_cli_words::{DriveJob, HistoryJob, HuntJob, Job, ShadowJob, TimelineJob};
use ckrt_events::LONG_RUN_LIMIT;
use ckrt_recovery::{Config, FormatFault};
use ckrt_stored::ScheduleNote;

/// A piece of what is said: a text, a number in decimal, or a digest in hexadecimal digits.
#[derive(Clone, Copy)]
pub(crate) enum Piece<'a> {
    /// This text.
    Text(&'a str),
    /// This number.
    Number(u64),
    /// This digest.
    Digest([u8; 32]),
}

/// At most four numbers or digests, with texts before, between and after them.
pub(crate) type Sentence<'a> = [Piece<'a>; 9];

/// No text.
const NOTHING: Piece<'static> = Piece::Text("");

/// What is said of a stretch that would end before it begins.
const TURNED: &str = "--from is above --to: ";

/// What is said of no time between two lines that tell how far something is.
const NO_PROGRESS: &str = "--progress 0 isn't 1 or more: ";

/// A text without numbers.
fn plain(text: &'static str) -> Sentence<'static> {
    one(text, NOTHING, "")
}

/// A piece between two texts.
fn one(before: &'static str, piece: Piece<'static>, after: &'static str) -> Sentence<'static> {
    two(before, piece, after, NOTHING, "")
}

/// Two pieces between texts.
fn two(
    before: &'static str,
    first: Piece<'static>,
    between: &'static str,
    second: Piece<'static>,
    after: &'static str,
) -> Sentence<'static> {
    [
        Piece::Text(before),
        first,
        Piece::Text(between),
        second,
        Piece::Text(after),
        NOTHING,
        NOTHING,
        NOTHING,
        NOTHING,
    ]
}

/// A size between two texts.
fn size(before: &'static str, number: u32, after: &'static str) -> Sentence<'static> {
    one(before, Piece::Number(u64::from(number)), after)
}

fn is_outside(least: u32, most: u32, number: u32) -> bool {
    number < least || most < number
}

/// Which of these sizes no disk has.
fn sizes_of_no_disk(sizes: Config) -> Sentence<'static> {
    if is_outside(16, 65_536, sizes.pages) {
        return size("--pages ", sizes.pages, " isn't 16 to 65536: ");
    }
    if is_outside(1, 8, sizes.harts) {
        return size("--harts ", sizes.harts, " isn't 1 to 8: ");
    }
    let range = " isn't a multiple of 4096 from 4096 to 1048576: ";
    size("--journal ", sizes.journal, range)
}

/// Which number of the words no drive goes by.
fn unfit_drive(job: &DriveJob<'_>) -> Sentence<'static> {
    if is_outside(1, LONG_RUN_LIMIT, job.turn) {
        return size("--turn ", job.turn, " isn't 1 to 1000000: ");
    }
    if job.rounds < 1 {
        return plain("--rounds-per-commit 0 isn't 1 or more: ");
    }
    if job.progress == Some(0) {
        return plain(NO_PROGRESS);
    }
    if !is_target(job.output, job.from) {
        return plain("--from doesn't go with --output: ");
    }
    plain("--input-from is below 2^62, and goes with --input: ")
}

/// How many bytes of a shadow are too few.
fn few_bytes(memory: Option<u64>) -> Sentence<'static> {
    let bytes = memory.unwrap_or(0);
    one(
        "--memory ",
        Piece::Number(bytes),
        " isn't 1048576 or more: ",
    )
}

/// Which number of a look with a shadow is out of its range.
fn unfit_shadow(job: &ShadowJob<'_>) -> Sentence<'static> {
    if !is_room(job.memory) {
        return few_bytes(job.memory);
    }
    plain(TURNED)
}

/// Which number of a timeline is out of its range.
fn unfit_drawing(job: &TimelineJob<'_>) -> Sentence<'static> {
    if is_outside(400, 4000, job.width) {
        return size("--width ", job.width, " isn't 400 to 4000: ");
    }
    plain(TURNED)
}

/// Which number of the words no hunt goes by, or that there is one too many.
fn unfit_hunt(job: &HuntJob<'_>) -> Sentence<'static> {
    if !is_choice(job.seeds, job.seconds) {
        return plain("--seconds doesn't go with --seeds: ");
    }
    if !is_time(job.seconds) {
        return plain("--seconds isn't 1 to 31536000: ");
    }
    if job.progress == Some(0) {
        return plain(NO_PROGRESS);
    }
    if !is_one_look(job.races, job.check) {
        return plain("--check doesn't go with --races: ");
    }
    if !is_tabled(job.table, job.races || job.check) {
        return plain("--table doesn't go with --races or --check: ");
    }
    if !is_shadowed(job.memory, job.races || job.check) {
        return plain("--memory goes with --races or --check alone: ");
    }
    if !is_room(job.memory) {
        return few_bytes(job.memory);
    }
    plain(
        "--seeds isn't FIRST-LAST, two numbers below 2^64 - 1, the first one not above the last: ",
    )
}

/// Which words of a history don't go together.
fn unfit_history(job: &HistoryJob<'_>) -> Sentence<'static> {
    if !is_apart(job.part, job.disk) {
        return plain("--part doesn't go with --disk: ");
    }
    if is_cut(job.part, job.from, job.to) {
        return plain(TURNED);
    }
    match job.part {
        Some(_) => plain("--part goes with --from: "),
        None => plain("--from and --to go with --part alone: "),
    }
}

/// Which number of the words is the fault Range, where they ask for a drive, for a stretch, for a timeline, for a hunt or for a history.
fn unfit(job: &Job<'_>) -> Sentence<'static> {
    match job {
        Job::Drive(job) => unfit_drive(job),
        Job::Calls(_) | Job::Profile(_) => plain(TURNED),
        Job::Races(job) | Job::Check(job) => unfit_shadow(job),
        Job::Timeline(job) => unfit_drawing(job),
        Job::Hunt(job) => unfit_hunt(job),
        Job::History(job) => unfit_history(job),
        _ => plain(""),
    }
}

/// Which size of the words is the fault BadConfig, where they ask for a disk to be made.
fn unfit_sizes(job: &Job<'_>) -> Sentence<'static> {
    match job {
        Job::Format(job) => sizes_of_no_disk(Config {
            pages: job.pages,
            harts: job.harts,
            journal: job.journal,
        }),
        Job::Drive(job) => sizes_of_no_disk(config_for(&job.sizes)),
        Job::Hunt(job) => sizes_of_no_disk(Config {
            pages: job.pages,
            harts: job.harts,
            journal: 1_048_576,
        }),
        _ => plain(""),
    }
}

/// The sizes that a disk has.
fn sizes_of_disk(sizes: Config) -> Sentence<'static> {
    [
        Piece::Text("it has --pages "),
        Piece::Number(u64::from(sizes.pages)),
        Piece::Text(" --harts "),
        Piece::Number(u64::from(sizes.harts)),
        Piece::Text(" --journal "),
        Piece::Number(u64::from(sizes.journal)),
        Piece::Text(": "),
        NOTHING,
        NOTHING,
    ]
}

/// The word of a seed, and the seed, where a schedule has one.
fn seed_of(schedule: ScheduleNote) -> [Piece<'static>; 2] {
    match schedule.seed {
        Some(seed) => [Piece::Text(" --seed "), Piece::Number(seed)],
        None => [NOTHING, NOTHING],
    }
}

/// The schedule that a disk notes, and that of the words.
fn both_schedules(notes: ScheduleNotes) -> Sentence<'static> {
    let (disk, words) = (seed_of(notes.disk), seed_of(notes.words));
    [
        Piece::Text("it goes by --turn "),
        Piece::Number(notes.disk.turn),
        disk[0],
        disk[1],
        Piece::Text(", and these words ask for --turn "),
        Piece::Number(notes.words.turn),
        words[0],
        words[1],
        Piece::Text(": "),
    ]
}

/// The numbers of a fault, where it has some.
pub(crate) fn numbers_of(job: &Job<'_>, fault: JobFault) -> Sentence<'static> {
    match fault {
        JobFault::Format(FormatFault::BadConfig) => unfit_sizes(job),
        JobFault::Range => unfit(job),
        JobFault::SizesDiffer(sizes) => sizes_of_disk(sizes),
        JobFault::ImageDiffers(notes) => two(
            "it was made with the image of SHA-256 digest ",
            Piece::Digest(notes.disk.digest),
            ", and this one has ",
            Piece::Digest(notes.image.digest),
            ": ",
        ),
        JobFault::ScheduleDiffers(notes) => both_schedules(notes),
        JobFault::OutputDiffers(lengths) => [
            Piece::Text("it has "),
            Piece::Number(lengths.length),
            Piece::Text(" bytes, and this disk wants "),
            Piece::Number(lengths.confirmed),
            Piece::Text(" to "),
            Piece::Number(lengths.released),
            Piece::Text(": "),
            NOTHING,
            NOTHING,
        ],
        JobFault::OffsetDiffers(taken) => one(
            "its program has taken ",
            Piece::Number(taken),
            " bytes of the input: ",
        ),
        JobFault::InputTooShort(lengths) => two(
            "it has ",
            Piece::Number(lengths.length),
            " bytes, and the program has taken ",
            Piece::Number(lengths.taken),
            ": ",
        ),
        _ => plain(""),
    }
}

/// What the disk in the making is of a run that is kept in a folder.
const MADE_IN_FOLDER: &str = "the disk in the making of that run, in ";

/// What the disk of a run is that is kept in a folder.
const DISK_IN_FOLDER: &str = "the disk of that run, in ";

/// What stands for the path of an output that is printed.
const STANDARD_OUTPUT: &str = "(standard output)";

/// The path in the place of the disk's, and whether it is that of a history, of a job that looks back or makes a part of a history.
fn looked_at<'a>(job: &Job<'a>) -> Option<(&'a str, bool)> {
    match job {
        Job::Inspect(job) => Some((job.disk, job.history)),
        Job::Core(job) => Some((job.disk, job.history)),
        Job::Calls(job) => Some((job.disk, job.history)),
        Job::Debug(job) => Some((job.disk, job.history)),
        Job::Races(job) | Job::Check(job) => Some((job.stretch.disk, job.stretch.history)),
        Job::Timeline(job) => Some((job.stretch.disk, job.stretch.history)),
        Job::Profile(job) => Some((job.stretch.disk, job.stretch.history)),
        Job::History(job) if job.part.is_some() => Some((job.file, true)),
        _ => None,
    }
}

/// The path that the words give for a file of their job; empty where they give none, but of an output that is printed.
fn path<'a>(job: &Job<'a>, file: JobFile) -> &'a str {
    match (job, file) {
        (Job::Core(job), JobFile::Core) => return job.file,
        (Job::History(job), JobFile::Part) => return job.part.unwrap_or(""),
        _ => {}
    }
    if let Some((path, _)) = looked_at(job) {
        return path;
    }
    match (job, file) {
        (Job::Format(job), JobFile::Image) => job.image,
        (Job::Format(job), JobFile::Disk) => job.disk,
        (Job::Run(disk), JobFile::Disk) => disk,
        (Job::Drive(job), JobFile::Disk) => job.disk,
        (Job::Drive(job), JobFile::Output) => job.output.unwrap_or(STANDARD_OUTPUT),
        (Job::Drive(job), JobFile::Making) => job.disk,
        (Job::Drive(job), JobFile::Image) => job.image.unwrap_or(""),
        (Job::Drive(job), JobFile::Input) => job.input.unwrap_or(""),
        (Job::Drive(job), JobFile::History) => job.history.unwrap_or(""),
        (Job::History(job), JobFile::History) => job.file,
        (Job::History(job), JobFile::Disk) => job.disk.unwrap_or(""),
        (Job::Hunt(job), JobFile::Image) => job.image,
        (Job::Hunt(job), JobFile::Disk) => job.keep.unwrap_or(""),
        (Job::Hunt(job), JobFile::Making) => job.keep.unwrap_or(""),
        (Job::Hunt(job), JobFile::Kept | JobFile::FirstKept) => job.keep.unwrap_or(""),
        (Job::Hunt(job), JobFile::Input) => job.input.unwrap_or(""),
        _ => "",
    }
}

/// Whether the words of a job name a folder for what it makes.
fn is_into_folder(job: &Job<'_>) -> bool {
    match job {
        Job::Hunt(job) => job.keep.unwrap_or("").ends_with("/"),
        _ => false,
    }
}

/// Whether a job looks back at a history, or makes a part of one.
fn is_of_history(job: &Job<'_>) -> bool {
    matches!(looked_at(job), Some((_, true)))
}

/// What the file of a fault is, its path, and what stands behind that. Which disk of a folder it is says the line of the run that isn't kept.
pub(crate) fn subject_of<'a>(job: &Job<'a>, file: JobFile) -> [Piece<'a>; 4] {
    let (text, ending) = match file {
        JobFile::Disk if is_of_history(job) => (JobFile::History.text(), ""),
        JobFile::Making if is_into_folder(job) => (MADE_IN_FOLDER, ""),
        JobFile::Disk if is_into_folder(job) => (DISK_IN_FOLDER, ""),
        _ => (file.text(), file.ending()),
    };
    [
        Piece::Text(text),
        Piece::Text(path(job, file)),
        Piece::Text(ending),
        Piece::Text(": "),
    ]
}
