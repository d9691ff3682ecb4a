//! The numbers of the words: what is given where they have none, and which of them are in their ranges.
ghost use Rattle.std.specs.Prelude.{◌≡◌, option_map};
ghost use Rattle.ckrt_cli_words.specs.Jobs.{driving_of, history_keeping_of, hunting_of};
ghost use Rattle.ckrt_cli_reports.specs.Ranges.{config_for, ends_before, is_apart, is_choice, is_cut, is_history_in_range, is_hunt_in_range, is_in_range, is_intake, is_one_look, is_room, is_shadowed, is_tabled, is_target, is_time};

use ckrt_cli_words::{DriveJob, HistoryJob, HuntJob, Sizes};
use ckrt_drive::TAKEN_LIMIT;
use ckrt_events::LONG_RUN_LIMIT;
use ckrt_recovery::Config;

/// For how many seconds a hunt takes seeds at most: 365 days.
const MOST_SECONDS: u64 = 31_536_000;

/// How many bytes a shadow may take at least: 1 MiB.
const LEAST_ROOM: u64 = 1_048_576;

/// What a disk is made with: what `format` takes, where a size isn't given.
pub fn config_for(sizes: &Sizes) -> Config
    ensures { result ≡ config_for sizes.now }
{
    Config {
        pages: sizes.pages.unwrap_or(64),
        harts: sizes.harts.unwrap_or(1),
        journal: sizes.journal.unwrap_or(65_536),
    }
}

/// Whether an offset goes with where the output goes: with the standard output alone.
pub fn is_target(output: Option<&str>, from: Option<u64>) -> bool
    ensures { result ≡ is_target (option_map (λ path. path.now) output.entry) from }
{
    output.is_none() || from.is_none()
}

/// Whether an offset goes with what the input is: with a file alone, and below where a record ends.
fn is_intake(input: Option<&str>, from: Option<u64>) -> bool
    ensures { result ≡ is_intake (option_map (λ path. path.now) input.entry) from }
{
    match from {
        Some(from) => input.is_some() && from < TAKEN_LIMIT,
        None => true,
    }
}

/// Whether the numbers of a drive are in their ranges: a turn of 1 to 1,000,000 steps, a round or more between two commits, a second or
/// more between two lines, and each offset with what it goes with.
pub fn is_in_range(job: &DriveJob<'_>) -> bool
    ensures { result ≡ is_in_range (driving_of job.now) }
{
    job.turn > 0
        && job.turn <= LONG_RUN_LIMIT
        && job.rounds > 0
        && job.progress != Some(0)
        && is_target(job.output, job.from)
        && is_intake(job.input, job.input_from)
}

/// Whether the seeds of a hunt are those of a range, or as many as there is time for, and not both.
pub fn is_choice(seeds: Option<&str>, seconds: Option<u64>) -> bool
    ensures { result ≡ is_choice (option_map (λ text. text.now) seeds.entry) seconds }
{
    seeds.is_none() || seconds.is_none()
}

/// Whether a hunt takes seeds for 1 to 31,536,000 seconds, where it goes by time.
pub fn is_time(seconds: Option<u64>) -> bool
    ensures { result ≡ is_time seconds }
{
    match seconds {
        Some(seconds) => 1 <= seconds && seconds <= MOST_SECONDS,
        None => true,
    }
}

/// Whether the runs of a hunt are looked at for races or for errors of memory, and not for both.
pub(crate) fn is_one_look(races: bool, check: bool) -> bool
    ensures { result ≡ is_one_look races check }
{
    !(races && check)
}

/// Whether a file may have the table of a hunt while it runs: where runs are looked at for their outcomes alone.
pub fn is_tabled(table: Option<&str>, is_closer: bool) -> bool
    ensures { result ≡ is_tabled (option_map (λ path. path.now) table.entry) is_closer }
{
    table.is_none() || !is_closer
}

/// Whether a shadow may take 1,048,576 bytes or more, where the words say how many.
pub fn is_room(memory: Option<u64>) -> bool
    ensures { result ≡ is_room memory }
{
    match memory {
        Some(bytes) => LEAST_ROOM <= bytes,
        None => true,
    }
}

/// Whether the words of a hunt say how many bytes a shadow may take only where it has one: where runs are looked at closer.
pub fn is_shadowed(memory: Option<u64>, is_closer: bool) -> bool
    ensures { result ≡ is_shadowed memory is_closer }
{
    memory.is_none() || is_closer
}

/// Whether a stretch would end before it begins.
pub fn ends_before(from: Option<u64>, to: Option<u64>) -> bool
    ensures { result ≡ ends_before from to }
{
    match (from, to) {
        (Some(from), Some(to)) => to < from,
        _ => false,
    }
}

/// Whether a part of a history is made without a disk, where one is made.
pub(crate) fn is_apart(part: Option<&str>, disk: Option<&str>) -> bool
    ensures { result ≡ is_apart (option_map (λ path. path.now) part.entry)
        (option_map (λ path. path.now) disk.entry) }
{
    part.is_none() || disk.is_none()
}

/// Whether a part has a first event, and nothing but a part has one, or a last one.
pub(crate) fn is_cut(part: Option<&str>, from: Option<u64>, to: Option<u64>) -> bool
    ensures { result ≡ is_cut (option_map (λ path. path.now) part.entry) from to }
{
    match part {
        Some(_) => from.is_some(),
        None => from.is_none() && to.is_none(),
    }
}

/// Whether the words of a history go together: a disk or a part, and numbers for a part alone, which doesn't end before it begins.
pub fn is_history_in_range(job: &HistoryJob<'_>) -> bool
    ensures { result ≡ is_history_in_range (history_keeping_of job.now) }
{
    is_apart(job.part, job.disk)
        && is_cut(job.part, job.from, job.to)
        && !ends_before(job.from, job.to)
}

/// Whether the numbers of a hunt, but for its sizes, are in their ranges, it takes seeds from one range or by time, its runs are looked at
/// for one thing alone, no file has its table where that has more than outcomes, and there is room for a shadow only where there is one.
pub fn is_hunt_in_range(job: &HuntJob<'_>) -> bool
    ensures { result ≡ is_hunt_in_range (hunting_of job.now) }
{
    is_choice(job.seeds, job.seconds)
        && is_time(job.seconds)
        && job.progress != Some(0)
        && is_one_look(job.races, job.check)
        && is_tabled(job.table, job.races || job.check)
        && is_shadowed(job.memory, job.races || job.check)
        && is_room(job.memory)
}
