//! What the matches of a command line name.
ghost use Rattle.std.specs.Prelude.{◌≡◌, codes, option_and_then, option_map};
ghost use Rattle.std.specs.Option.{option_map_or};
ghost use Rattle.clap.specs.Words.{first_of, found_of, rows_of, subcommand_rows_of};
ghost use Rattle.ckrt_cli_words.specs.Jobs.{calls, check, core, core_making_in, core_making_of, debug, debugging_in, debugging_of, disk_stretch_in, disk_stretch_of, drawing_in, drawing_of, drive, driving_in, driving_of, flag_in, form_of, format, formatting_in, formatting_of, history, history_keeping_in, history_keeping_of, hunt, hunting_in, hunting_of, inspect, inspection_in, inspection_of, keeping_in, names_in, number_in, place_in, plain_keeping, profile, profiling_in, profiling_of, races, request_in, request_of, run, shadowing_in, shadowing_of, sizes_in, timeline};

use crate::job::{
    CoreJob, DebugJob, DriveJob, FormatJob, HistoryJob, HuntJob, InspectJob, Job, Keeping,
    ProfileForm, ProfileJob, ShadowJob, Sizes, StretchJob, TimelineJob,
};
use clap::ArgMatches;

/// The text that was given for an argument.
fn text<'a>(matches: &ArgMatches<'a>, id: &str) -> Option<&'a str>
    ensures { option_map (λ s. s.now) result ≡ first_of id.now (rows_of (found_of matches.now)) }
{
    matches.get_str(id)
}

/// The number that was given for an option, or stands for it.
fn number(matches: &ArgMatches<'_>, id: &str) -> Option<u32>
    ensures { result ≡ number_in id.now (rows_of (found_of matches.now)) }
{
    matches.get_one::<u32>(id)
}

/// The number of 64 bits that was given for an option, if it was given.
fn place(matches: &ArgMatches<'_>, id: &str) -> Option<u64>
    ensures { result ≡ place_in id.now (rows_of (found_of matches.now)) }
{
    matches.get_one::<u64>(id)
}

/// Whether an option without a value was given.
fn flag(matches: &ArgMatches<'_>, id: &str) -> bool
    ensures { result ≡ flag_in id.now (rows_of (found_of matches.now)) }
{
    match text(matches, id) {
        Some(value) => value == "true",
        None => false,
    }
}

/// What `inspect` was given.
fn inspection<'a>(matches: &ArgMatches<'a>) -> Option<InspectJob<'a>>
    ensures { option_map inspection_of result ≡ inspection_in (rows_of (found_of matches.now)) }
{
    Some(InspectJob {
        disk: text(matches, "disk")?,
        history: flag(matches, "history"),
        at: place(matches, "at"),
        code: flag(matches, "code"),
    })
}

/// What `core` was given.
fn core_making<'a>(matches: &ArgMatches<'a>) -> Option<CoreJob<'a>>
    ensures { option_map core_making_of result
        ≡ core_making_in (rows_of (found_of matches.now)) }
{
    Some(CoreJob {
        disk: text(matches, "disk")?,
        file: text(matches, "file")?,
        history: flag(matches, "history"),
        at: place(matches, "at"),
    })
}

/// The stretch that was given.
fn stretch<'a>(matches: &ArgMatches<'a>) -> Option<StretchJob<'a>>
    ensures { option_map disk_stretch_of result
        ≡ disk_stretch_in (rows_of (found_of matches.now)) }
{
    let disk = text(matches, "disk")?;
    let history = flag(matches, "history");
    let (from, to) = (place(matches, "from"), place(matches, "to"));
    let last = place(matches, "last");
    Some(StretchJob {
        disk,
        history,
        from,
        to,
        last,
    })
}

/// The stretch that was given, and how many bytes a shadow may take.
fn shadowing<'a>(matches: &ArgMatches<'a>) -> Option<ShadowJob<'a>>
    ensures { option_map shadowing_of result ≡ shadowing_in (rows_of (found_of matches.now)) }
{
    Some(ShadowJob {
        stretch: stretch(matches)?,
        memory: place(matches, "memory"),
    })
}

/// What `debug` was given.
fn debugging<'a>(matches: &ArgMatches<'a>) -> Option<DebugJob<'a>>
    ensures { option_map debugging_of result ≡ debugging_in (rows_of (found_of matches.now)) }
{
    Some(DebugJob {
        disk: text(matches, "disk")?,
        history: flag(matches, "history"),
        at: place(matches, "at"),
    })
}

/// What `timeline` was given.
fn drawing<'a>(matches: &ArgMatches<'a>) -> Option<TimelineJob<'a>>
    ensures { option_map drawing_of result ≡ drawing_in (rows_of (found_of matches.now)) }
{
    Some(TimelineJob {
        stretch: stretch(matches)?,
        width: number(matches, "width")?,
        json: flag(matches, "json"),
    })
}

/// The form that the flags of `profile` ask for.
fn form_of(folded: bool, callgrind: bool) -> Option<ProfileForm>
    ensures { result ≡ form_of folded callgrind }
{
    match (folded, callgrind) {
        (false, false) => Some(ProfileForm::Table),
        (true, false) => Some(ProfileForm::Folded),
        (false, true) => Some(ProfileForm::Callgrind),
        (true, true) => None,
    }
}

/// What `profile` was given.
fn profiling<'a>(matches: &ArgMatches<'a>) -> Option<ProfileJob<'a>>
    ensures { option_map profiling_of result ≡ profiling_in (rows_of (found_of matches.now)) }
{
    Some(ProfileJob {
        stretch: stretch(matches)?,
        form: form_of(flag(matches, "folded"), flag(matches, "callgrind"))?,
    })
}

/// What `hunt` was given.
fn hunting<'a>(matches: &ArgMatches<'a>) -> Option<HuntJob<'a>>
    ensures { option_map hunting_of result ≡ hunting_in (rows_of (found_of matches.now)) }
{
    let (seconds, progress) = (place(matches, "seconds"), place(matches, "progress"));
    let (input, keep) = (text(matches, "input"), text(matches, "keep"));
    let (table, memory) = (text(matches, "table"), place(matches, "memory"));
    Some(HuntJob {
        image: text(matches, "image")?,
        seeds: text(matches, "seeds"),
        seconds,
        pages: number(matches, "pages")?,
        harts: number(matches, "harts")?,
        input,
        steps: number(matches, "steps")?,
        races: flag(matches, "races"),
        check: flag(matches, "check"),
        memory,
        ignore_output: flag(matches, "ignore-output"),
        all_rows: flag(matches, "rows"),
        keep,
        table,
        progress,
    })
}

/// The sizes that a disk is asked to have.
fn sizes(matches: &ArgMatches<'_>) -> Sizes
    ensures { result ≡ sizes_in (rows_of (found_of matches.now)) }
{
    Sizes {
        pages: number(matches, "pages"),
        harts: number(matches, "harts"),
        journal: number(matches, "journal"),
    }
}

/// What `drive` was given.
fn driving<'a>(matches: &ArgMatches<'a>) -> Option<DriveJob<'a>>
    ensures { option_map driving_of result ≡ driving_in (rows_of (found_of matches.now)) }
{
    Some(DriveJob {
        disk: text(matches, "disk")?,
        image: text(matches, "image"),
        sizes: sizes(matches),
        input: text(matches, "input"),
        input_from: place(matches, "input-from"),
        output: text(matches, "output"),
        history: text(matches, "history"),
        turn: number(matches, "turn")?,
        rounds: number(matches, "rounds-per-commit")?,
        events: place(matches, "events"),
        seed: place(matches, "seed"),
        other_schedule: flag(matches, "other-schedule"),
        progress: place(matches, "progress"),
        status: text(matches, "status"),
        from: place(matches, "from"),
    })
}

/// What `history` was given.
fn history_keeping<'a>(matches: &ArgMatches<'a>) -> Option<HistoryJob<'a>>
    ensures { option_map history_keeping_of result
        ≡ history_keeping_in (rows_of (found_of matches.now)) }
{
    let (disk, part) = (text(matches, "disk"), text(matches, "part"));
    let (from, to) = (place(matches, "from"), place(matches, "to"));
    Some(HistoryJob {
        file: text(matches, "file")?,
        disk,
        part,
        from,
        to,
    })
}

/// What `format` was given.
fn formatting<'a>(matches: &ArgMatches<'a>) -> Option<FormatJob<'a>>
    ensures { option_map formatting_of result ≡ formatting_in (rows_of (found_of matches.now)) }
{
    Some(FormatJob {
        disk: text(matches, "disk")?,
        image: text(matches, "image")?,
        pages: number(matches, "pages")?,
        harts: number(matches, "harts")?,
        journal: number(matches, "journal")?,
    })
}

/// The command that was named, and its own matches.
fn command_named<'m, 'a>(matches: &'m ArgMatches<'a>) -> Option<(&'a str, &'m ArgMatches<'a>)>
    ensures { option_map (λ p. (p.0.now, rows_of (found_of p.1.now))) result
        ≡ subcommand_rows_of matches.now }
{
    matches.subcommand()
}

/// The job of `format` with these matches.
fn format_named<'a>(given: &ArgMatches<'a>) -> Option<Job<'a>>
    ensures { option_map request_of result
        ≡ option_map format (formatting_in (rows_of (found_of given.now))) }
{
    Some(Job::Format(formatting(given)?))
}

/// The job of `run` with these matches.
fn run_named<'a>(given: &ArgMatches<'a>) -> Option<Job<'a>>
    ensures { option_map request_of result
        ≡ option_map run (first_of (codes "disk") (rows_of (found_of given.now))) }
{
    Some(Job::Run(text(given, "disk")?))
}

/// The job of `inspect` with these matches.
fn inspect_named<'a>(given: &ArgMatches<'a>) -> Option<Job<'a>>
    ensures { option_map request_of result
        ≡ option_map inspect (inspection_in (rows_of (found_of given.now))) }
{
    Some(Job::Inspect(inspection(given)?))
}

/// The job of `drive` with these matches.
fn drive_named<'a>(given: &ArgMatches<'a>) -> Option<Job<'a>>
    ensures { option_map request_of result
        ≡ option_map drive (driving_in (rows_of (found_of given.now))) }
{
    Some(Job::Drive(driving(given)?))
}

/// The job of `core` with these matches.
fn core_named<'a>(given: &ArgMatches<'a>) -> Option<Job<'a>>
    ensures { option_map request_of result
        ≡ option_map core (core_making_in (rows_of (found_of given.now))) }
{
    Some(Job::Core(core_making(given)?))
}

/// The job of `calls` with these matches.
fn calls_named<'a>(given: &ArgMatches<'a>) -> Option<Job<'a>>
    ensures { option_map request_of result
        ≡ option_map calls (disk_stretch_in (rows_of (found_of given.now))) }
{
    Some(Job::Calls(stretch(given)?))
}

/// The job of `debug` with these matches.
fn debug_named<'a>(given: &ArgMatches<'a>) -> Option<Job<'a>>
    ensures { option_map request_of result
        ≡ option_map debug (debugging_in (rows_of (found_of given.now))) }
{
    Some(Job::Debug(debugging(given)?))
}

/// The job of `races` with these matches.
fn races_named<'a>(given: &ArgMatches<'a>) -> Option<Job<'a>>
    ensures { option_map request_of result
        ≡ option_map races (shadowing_in (rows_of (found_of given.now))) }
{
    Some(Job::Races(shadowing(given)?))
}

/// The job of `check` with these matches.
fn check_named<'a>(given: &ArgMatches<'a>) -> Option<Job<'a>>
    ensures { option_map request_of result
        ≡ option_map check (shadowing_in (rows_of (found_of given.now))) }
{
    Some(Job::Check(shadowing(given)?))
}

/// The job of `timeline` with these matches.
fn timeline_named<'a>(given: &ArgMatches<'a>) -> Option<Job<'a>>
    ensures { option_map request_of result
        ≡ option_map timeline (drawing_in (rows_of (found_of given.now))) }
{
    Some(Job::Timeline(drawing(given)?))
}

/// The job of `profile` with these matches.
fn profile_named<'a>(given: &ArgMatches<'a>) -> Option<Job<'a>>
    ensures { option_map request_of result
        ≡ option_map profile (profiling_in (rows_of (found_of given.now))) }
{
    Some(Job::Profile(profiling(given)?))
}

/// The job of `hunt` with these matches.
fn hunt_named<'a>(given: &ArgMatches<'a>) -> Option<Job<'a>>
    ensures { option_map request_of result
        ≡ option_map hunt (hunting_in (rows_of (found_of given.now))) }
{
    Some(Job::Hunt(hunting(given)?))
}

/// The job of `history` with these matches.
fn history_named<'a>(given: &ArgMatches<'a>) -> Option<Job<'a>>
    ensures { option_map request_of result
        ≡ option_map history (history_keeping_in (rows_of (found_of given.now))) }
{
    Some(Job::History(history_keeping(given)?))
}

/// The job of the command of this name with these matches.
fn job_of<'a>(name: &str, given: &ArgMatches<'a>) -> Option<Job<'a>>
    ensures { option_map request_of result ≡ request_in (name.now, rows_of (found_of given.now)) }
{
    match name {
        "format" => format_named(given),
        "run" => run_named(given),
        "inspect" => inspect_named(given),
        "drive" => drive_named(given),
        "core" => core_named(given),
        "calls" => calls_named(given),
        "debug" => debug_named(given),
        "races" => races_named(given),
        "timeline" => timeline_named(given),
        "profile" => profile_named(given),
        "hunt" => hunt_named(given),
        "check" => check_named(given),
        "history" => history_named(given),
        _ => None,
    }
}

/// The job that the matches name.
pub(crate) fn job_named<'a>(matches: &ArgMatches<'a>) -> Option<Job<'a>>
    ensures { option_map request_of result
        ≡ option_and_then request_in (subcommand_rows_of matches.now) }
{
    let (name, given) = command_named(matches)?;
    job_of(name, given)
}

/// The file of names that was given to the command that the matches name.
pub(crate) fn names_file<'a>(matches: &ArgMatches<'a>) -> Option<&'a str>
    ensures { option_map (λ s. s.now) result
        ≡ option_and_then names_in (subcommand_rows_of matches.now) }
{
    let (_, given) = command_named(matches)?;
    text(given, "names")
}

/// How the command that the matches name keeps a history.
pub(crate) fn keeping(matches: &ArgMatches<'_>) -> Keeping
    ensures { result
        ≡ option_map_or keeping_in (subcommand_rows_of matches.now) plain_keeping }
{
    match command_named(matches) {
        Some((_, given)) => Keeping {
            snapshots: place(given, "snapshots"),
            may_end: flag(given, "history-may-end"),
        },
        None => Keeping {
            snapshots: None,
            may_end: false,
        },
    }
}
