//! What the words ask for.
use thiserror::Error;

/// What the words ask the program to do. Paths are the words themselves.
#[derive(Clone, Copy, Debug, PartialEq, Eq)]
pub enum Job<'a> {
    /// Serve the stored program in memory: there are no words.
    Stored,
    /// Tell the version: the one word `--version`.
    Version,
    /// Make a disk with an image: `format DISK IMAGE`.
    Format(FormatJob<'a>),
    /// Recover the disk of this path and serve it: `run DISK`.
    Run(&'a str),
    /// Show what a disk holds: `inspect DISK`.
    Inspect(InspectJob<'a>),
    /// Drive a disk to its end: `drive DISK`.
    Drive(DriveJob<'a>),
    /// Write what a disk holds as a core for a debugger: `core DISK FILE`.
    Core(CoreJob<'a>),
    /// Tell the calls of what a disk holds: `calls DISK`.
    Calls(StretchJob<'a>),
    /// Serve what a disk holds to a debugger: `debug DISK`.
    Debug(DebugJob<'a>),
    /// Tell the data races of what a disk holds: `races DISK`.
    Races(ShadowJob<'a>),
    /// Tell the errors of memory of what a disk holds: `check DISK`.
    Check(ShadowJob<'a>),
    /// Draw what the threads of a disk did: `timeline DISK`.
    Timeline(TimelineJob<'a>),
    /// Count where the steps of a disk went: `profile DISK`.
    Profile(ProfileJob<'a>),
    /// Run an image by one schedule after another: `hunt IMAGE`.
    Hunt(HuntJob<'a>),
    /// Tell how far a history goes, bring it up to its disk, or make a part of it: `history FILE`.
    History(HistoryJob<'a>),
}

/// What `format` makes. The numbers are as they were given, and may be out of a disk's ranges.
#[derive(Clone, Copy, Debug, PartialEq, Eq)]
pub struct FormatJob<'a> {
    /// The path of the disk.
    pub disk: &'a str,
    /// The path of the image.
    pub image: &'a str,
    /// Pages of guest memory, of 4,096 bytes each.
    pub pages: u32,
    /// Harts.
    pub harts: u32,
    /// Bytes of a journal.
    pub journal: u32,
}

/// What `inspect` shows.
#[derive(Clone, Copy, Debug, PartialEq, Eq)]
pub struct InspectJob<'a> {
    /// The path of the disk, or of the history.
    pub disk: &'a str,
    /// Whether the path is that of a history.
    pub history: bool,
    /// After how many events it is shown; after the last one where this isn't given.
    pub at: Option<u64>,
    /// Whether each thread's next instructions are shown too.
    pub code: bool,
}

/// What `core` writes, and where.
#[derive(Clone, Copy, Debug, PartialEq, Eq)]
pub struct CoreJob<'a> {
    /// The path of the disk, or of the history.
    pub disk: &'a str,
    /// The path of the core.
    pub file: &'a str,
    /// Whether the path is that of a history.
    pub history: bool,
    /// After how many events the program is written; after the last one where this isn't given.
    pub at: Option<u64>,
}

/// Which stretch of what a disk or a history has recorded is told.
#[derive(Clone, Copy, Debug, PartialEq, Eq)]
pub struct StretchJob<'a> {
    /// The path of the disk, or of the history.
    pub disk: &'a str,
    /// Whether the path is that of a history.
    pub history: bool,
    /// Behind how many events it begins; at the first one that the disk has where this isn't given.
    pub from: Option<u64>,
    /// Behind how many events it ends; at the last one where this isn't given.
    pub to: Option<u64>,
    /// How many of its events are told, the last ones; all where this isn't given.
    pub last: Option<u64>,
}

/// Which stretch is looked at with a shadow of the guest's memory. The number of bytes is as it was given, and may be too small.
#[derive(Clone, Copy, Debug, PartialEq, Eq)]
pub struct ShadowJob<'a> {
    /// Which stretch is looked at.
    pub stretch: StretchJob<'a>,
    /// How many bytes the shadow may take; this isn't given where it takes as many as by default.
    pub memory: Option<u64>,
}

/// What `debug` serves.
#[derive(Clone, Copy, Debug, PartialEq, Eq)]
pub struct DebugJob<'a> {
    /// The path of the disk, or of the history.
    pub disk: &'a str,
    /// Whether the path is that of a history.
    pub history: bool,
    /// Behind how many events the debugger begins; at the first one that the disk has where this isn't given.
    pub at: Option<u64>,
}

/// What `timeline` draws. The width is as it was given, and may be out of a picture's range.
#[derive(Clone, Copy, Debug, PartialEq, Eq)]
pub struct TimelineJob<'a> {
    /// Which stretch is drawn.
    pub stretch: StretchJob<'a>,
    /// The width of the picture, in pixels.
    pub width: u32,
    /// Whether trace events are written in place of a picture.
    pub json: bool,
}

/// In which form a profile is told.
#[derive(Clone, Copy, Debug, PartialEq, Eq)]
pub enum ProfileForm {
    /// A table of the functions with the most steps.
    Table,
    /// A line for each stack, as scripts for flame graphs read it.
    Folded,
    /// As `callgrind` writes it.
    Callgrind,
}

/// What `profile` counts, and how it is told.
#[derive(Clone, Copy, Debug, PartialEq, Eq)]
pub struct ProfileJob<'a> {
    /// Which stretch is counted.
    pub stretch: StretchJob<'a>,
    /// The form of what is told.
    pub form: ProfileForm,
}

/// What `hunt` runs, and how. The numbers are as they were given, and may be out of a hunt's ranges.
#[derive(Clone, Copy, Debug, PartialEq, Eq)]
pub struct HuntJob<'a> {
    /// The path of the image.
    pub image: &'a str,
    /// The first and the last seed, as they were given: `A-B` where they are numbers; this isn't given where the words have none.
    pub seeds: Option<&'a str>,
    /// After how many seconds no further seed is run; this isn't given where a range of them is.
    pub seconds: Option<u64>,
    /// Pages of guest memory, of 4,096 bytes each.
    pub pages: u32,
    /// Harts.
    pub harts: u32,
    /// The path of the file that each run reads as its input; this isn't given where no file is.
    pub input: Option<&'a str>,
    /// Steps of a run, at most.
    pub steps: u32,
    /// Whether each run is looked at for races too.
    pub races: bool,
    /// Whether each run is looked at for errors of memory too.
    pub check: bool,
    /// How many bytes the shadow of that look may take; this isn't given where it takes as many as by default.
    pub memory: Option<u64>,
    /// Whether outcomes that differ in their output alone are one.
    pub ignore_output: bool,
    /// Whether each row of the table has lines.
    pub all_rows: bool,
    /// The path of the disk that is made for the run of the first seed, or, with a `/` at its end, of the folder in which each outcome
    /// gets a disk; this isn't given where none is kept.
    pub keep: Option<&'a str>,
    /// The path of the file that has the table while the hunt runs; this isn't given where no file has it.
    pub table: Option<&'a str>,
    /// How many seconds lie at least between two lines that tell how far it is; this isn't given where no line does.
    pub progress: Option<u64>,
}

/// Which history is looked at, brought up, or cut into parts. Which of these go together isn't looked at yet.
#[derive(Clone, Copy, Debug, PartialEq, Eq)]
pub struct HistoryJob<'a> {
    /// The path of the history.
    pub file: &'a str,
    /// The path of the disk that it is brought up to; this isn't given where it isn't.
    pub disk: Option<&'a str>,
    /// The path of the part that is made of it; this isn't given where none is.
    pub part: Option<&'a str>,
    /// Behind how many events the part begins; this isn't given where there is none.
    pub from: Option<u64>,
    /// Behind how many events the part ends; at the history's last one where this isn't given.
    pub to: Option<u64>,
}

/// The sizes that a disk is asked to have. The numbers are as they were given, and may be out of a disk's ranges.
#[derive(Clone, Copy, Debug, PartialEq, Eq)]
pub struct Sizes {
    /// Pages of guest memory; this isn't given where any number does.
    pub pages: Option<u32>,
    /// Harts; this isn't given where any number does.
    pub harts: Option<u32>,
    /// Bytes of a journal; this isn't given where any number does.
    pub journal: Option<u32>,
}

/// What `drive` drives, and how. The numbers are as they were given, and may be out of a drive's ranges.
#[derive(Clone, Copy, Debug, PartialEq, Eq)]
pub struct DriveJob<'a> {
    /// The path of the disk.
    pub disk: &'a str,
    /// The path of the image that the disk is made with where it is missing; this isn't given where it has to be there.
    pub image: Option<&'a str>,
    /// The sizes that a disk which is made gets, and that one which is there has to have.
    pub sizes: Sizes,
    /// The path of the file that its program reads as its input; this isn't given where no file is.
    pub input: Option<&'a str>,
    /// From which offset of that file on the program reads, where the disk doesn't know it; this isn't given where it does.
    pub input_from: Option<u64>,
    /// The path of the file of its output, which goes to the standard output where this isn't given.
    pub output: Option<&'a str>,
    /// The path of the history that is kept meanwhile; this isn't given where none is.
    pub history: Option<&'a str>,
    /// Steps of a turn, at most.
    pub turn: u32,
    /// Rounds between two commits.
    pub rounds: u32,
    /// After how many events it ends; this isn't given where it has no limit.
    pub events: Option<u64>,
    /// The seed by which the hart and the steps of each turn are drawn at random; this isn't given where they go in their fixed order.
    pub seed: Option<u64>,
    /// Whether it takes this turn and this seed where the disk notes others.
    pub other_schedule: bool,
    /// How many seconds lie at least between two lines that tell how far it is; this isn't given where no line does.
    pub progress: Option<u64>,
    /// The path of the file that tells how far it is; this isn't given where none does.
    pub status: Option<&'a str>,
    /// Below which offset bytes of output are left out; this isn't given where none are. It has no meaning with a file.
    pub from: Option<u64>,
}

/// How a drive keeps its history, beside its job. The number is as it was given, and may be 0.
#[derive(Clone, Copy, Debug, PartialEq, Eq)]
pub struct Keeping {
    /// How many seconds lie at least between two snapshots of the history; this isn't given where none is made.
    pub snapshots: Option<u64>,
    /// Whether the drive goes on where the history's file fails.
    pub may_end: bool,
}

/// Why words name no job.
#[derive(Debug, Drop, Error)]
pub enum WordsFault {
    /// They aren't those of a job, or ask for help: the text to print.
    #[error("{0}")]
    Usage(String),
    /// There was no memory to read them.
    #[error("OutOfMemory")]
    OutOfMemory,
}
