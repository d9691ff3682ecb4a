//! Words of the program, and the jobs that they name.

use crate::expect::{expect_eq, expect_eq_at};
use ckrt_cli_words::{DriveJob, FormatJob, HistoryJob, Job, Sizes, WordsFault, read_words};
use std::process::Abort;

/// Words, and the job that they name.
type Named = (&'static [&'static str], Job<'static>);

/// Words that name a job.
fn expect_job<R: Abort + AllocGlobal>(rt: &R, words: &'static [&'static str], want: Job<'static>) {
    match read_words(rt.alloc(), words) {
        Ok(job) => expect_eq(rt, job, want),
        Err(_) => panic!(rt; "a fault"),
    }
}

/// Each of them.
fn expect_jobs<R: Abort + AllocGlobal>(rt: &R, rows: &[Named]) {
    for (words, job) in rows {
        expect_job(rt, words, *job);
    }
}

/// Whether the text has a part in it, besides how the program is used.
fn is_usage(text: &str, part: &str) -> bool {
    text.contains(part) && (text.contains("--help") || text.contains("Usage: "))
}

/// Words, and what the text on them has in it, besides how the program is used.
type Unnamed = (&'static [&'static str], &'static str);

/// Words that name no job.
fn expect_usage<R: Abort + AllocGlobal>(rt: &R, words: &'static [&'static str], part: &str) {
    match read_words(rt.alloc(), words) {
        Err(WordsFault::Usage(text)) => {
            expect_eq_at(rt, text.as_str(), is_usage(text.as_str(), part), true)
        }
        _ => expect_eq_at(rt, part, false, true),
    }
}

/// Each of them.
fn expect_usages<R: Abort + AllocGlobal>(rt: &R, rows: &[Unnamed]) {
    for (words, part) in rows {
        expect_usage(rt, words, part);
    }
}

const DEFAULTS: FormatJob<'static> = FormatJob {
    disk: "d",
    image: "i",
    pages: 64,
    harts: 1,
    journal: 65_536,
};

const NO_SIZES: Sizes = Sizes {
    pages: None,
    harts: None,
    journal: None,
};

const DRIVE: DriveJob<'static> = DriveJob {
    disk: "d",
    image: None,
    sizes: NO_SIZES,
    input: None,
    input_from: None,
    output: Some("o"),
    history: None,
    turn: 1_000_000,
    rounds: 16,
    events: None,
    seed: None,
    other_schedule: false,
    progress: None,
    status: None,
    from: None,
};

const STORED: &[Named] = &[(&[], Job::Stored)];

#[test]
fn no_words(rt: HostRuntime) {
    expect_jobs(&rt, STORED);
}

const RUNS: &[Named] = &[
    (&["run", "disk file"], Job::Run("disk file")),
    (&["run", "--", "-d"], Job::Run("-d")),
];

#[test]
fn a_run(rt: HostRuntime) {
    expect_jobs(&rt, RUNS);
}

const FORMAT: &[Named] = &[(&["format", "d", "i"], Job::Format(DEFAULTS))];

#[test]
fn a_format_with_its_defaults(rt: HostRuntime) {
    expect_jobs(&rt, FORMAT);
}

const EVERY_FORMAT_OPTION: FormatJob<'static> = FormatJob {
    disk: "d",
    image: "i",
    pages: 16,
    harts: 8,
    journal: 4_096,
};

const FULL_FORMATS: &[Named] = &[
    (
        &[
            "format",
            "d",
            "i",
            "--pages",
            "16",
            "--harts",
            "8",
            "--journal",
            "4096",
        ],
        Job::Format(EVERY_FORMAT_OPTION),
    ),
    (
        &[
            "format",
            "--journal=4096",
            "--harts=8",
            "d",
            "--pages=16",
            "i",
        ],
        Job::Format(EVERY_FORMAT_OPTION),
    ),
];

#[test]
fn a_format_with_every_option(rt: HostRuntime) {
    expect_jobs(&rt, FULL_FORMATS);
}

const WITHOUT_OUTPUT: DriveJob<'static> = DriveJob {
    output: None,
    ..DRIVE
};

const DRIVES: &[Named] = &[
    (&["drive", "d", "--output", "o"], Job::Drive(DRIVE)),
    (&["drive", "d"], Job::Drive(WITHOUT_OUTPUT)),
];

const NO_DISK: &[Unnamed] = &[(&["drive", "--output", "o"], "<DISK>")];

#[test]
fn a_drive_with_its_defaults(rt: HostRuntime) {
    expect_jobs(&rt, DRIVES);
    expect_usages(&rt, NO_DISK);
}

const EVERY_SIZE: Sizes = Sizes {
    pages: Some(0),
    harts: Some(4_294_967_295),
    journal: Some(4_096),
};

const EVERY_DRIVE_OPTION: DriveJob<'static> = DriveJob {
    image: Some("i"),
    sizes: EVERY_SIZE,
    input: Some("n"),
    input_from: Some(3),
    history: Some("h"),
    turn: 0,
    rounds: 4_294_967_295,
    events: Some(18_446_744_073_709_551_615),
    seed: Some(7),
    other_schedule: true,
    progress: Some(10),
    status: Some("t"),
    from: Some(18_446_744_073_709_551_615),
    ..DRIVE
};

const FULL_DRIVES: &[Named] = &[(
    &[
        "drive",
        "d",
        "--image",
        "i",
        "--pages=0",
        "--harts",
        "4294967295",
        "--journal=4096",
        "--input",
        "n",
        "--input-from=3",
        "--output=o",
        "--history",
        "h",
        "--turn=0",
        "--rounds-per-commit",
        "4294967295",
        "--events",
        "18446744073709551615",
        "--seed=7",
        "--other-schedule",
        "--progress",
        "10",
        "--status=t",
        "--from=18446744073709551615",
    ],
    Job::Drive(EVERY_DRIVE_OPTION),
)];

const NO_DRIVE_NUMBERS: &[Unnamed] = &[
    (&["drive", "d", "--from", "x"], "[--from OFFSET]"),
    (
        &["drive", "d", "--output", "o", "--turn", "x"],
        "[--rounds-per-commit NUMBER OF ROUNDS]",
    ),
];

#[test]
fn a_drive_with_every_option(rt: HostRuntime) {
    expect_jobs(&rt, FULL_DRIVES);
    expect_usages(&rt, NO_DRIVE_NUMBERS);
}

const PART: HistoryJob<'static> = HistoryJob {
    file: "h",
    disk: None,
    part: Some("p"),
    from: Some(4),
    to: Some(18_446_744_073_709_551_615),
};

const LOOK: HistoryJob<'static> = HistoryJob {
    part: None,
    from: None,
    to: None,
    ..PART
};

const BESIDE: HistoryJob<'static> = HistoryJob {
    disk: Some("d"),
    ..LOOK
};

const HISTORIES: &[Named] = &[
    (&["history", "h"], Job::History(LOOK)),
    (&["history", "h", "--disk", "d"], Job::History(BESIDE)),
    (
        &[
            "history",
            "h",
            "--part=p",
            "--from",
            "4",
            "--to=18446744073709551615",
        ],
        Job::History(PART),
    ),
];

const NO_PART: &[Unnamed] = &[
    (&["history", "h", "--part"], "--part"),
    (
        &["history", "h", "--part", "p", "--from", "x"],
        "--part <PART> --from NUMBER OF EVENTS [--to NUMBER OF EVENTS]",
    ),
];

#[test]
fn histories_and_their_parts(rt: HostRuntime) {
    expect_jobs(&rt, HISTORIES);
    expect_usages(&rt, NO_PART);
}

const OUT_OF_RANGE: FormatJob<'static> = FormatJob {
    pages: 4_294_967_295,
    harts: 0,
    ..DEFAULTS
};

const LARGE: &[Named] = &[(
    &["format", "d", "i", "--pages", "4294967295", "--harts", "00"],
    Job::Format(OUT_OF_RANGE),
)];

#[test]
fn a_number_out_of_a_disks_range_is_a_number(rt: HostRuntime) {
    expect_jobs(&rt, LARGE);
}

const NO_NUMBERS: &[Unnamed] = &[
    (&["format", "d", "i", "--pages", "many"], "many"),
    (&["format", "d", "i", "--pages", "4294967296"], "4294967296"),
    (&["format", "d", "i", "--harts=-1"], "-1"),
    (&["format", "d", "i", "--harts", "-1"], "-1"),
    (&["format", "d", "i", "--journal", ""], "--journal"),
    (&["format", "d", "i", "--journal"], "--journal"),
];

#[test]
fn options_that_are_no_number(rt: HostRuntime) {
    expect_usages(&rt, NO_NUMBERS);
}

const WRONG: &[Unnamed] = &[
    (&["frobnicate"], "frobnicate"),
    (&["--page"], "--page"),
    (&["--"], "Usage: "),
    (&["run"], "Usage: ckrt run <DISK>"),
    (&["run", "d", "e"], "'e'"),
    (&["run", "d", "--pages", "16"], "--pages"),
    (&["format", "d"], "<IMAGE>"),
    (&["format", "d", "i", "j"], "'j'"),
    (
        &["format", "d", "i", "--pages", "16", "--pages", "17"],
        "--pages",
    ),
    (&["help"], "help"),
];

#[test]
fn wrong_words(rt: HostRuntime) {
    expect_usages(&rt, WRONG);
}

const HELP: &[Unnamed] = &[
    (&["--help"], "format"),
    (&["-h"], "run"),
    (&["format", "--help"], "[default: 65536]"),
    (&["run", "-h"], "<DISK>"),
];

#[test]
fn help(rt: HostRuntime) {
    expect_usages(&rt, HELP);
}
