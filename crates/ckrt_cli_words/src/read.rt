//! From words to a job.
ghost use Rattle.std.specs.Prelude.{◌≡◌, ◌≢◌, [], IfOk, IfErr, IsErrOf, Some, false, map, option_and_then, option_map, true};
ghost use Rattle.clap.specs.Words.{fault_of, kind_of, subcommand_of, subcommand_rows_of, takes};
ghost use Rattle.ckrt_cli_words.specs.Commands.{ckrt_app};
ghost use Rattle.ckrt_cli_words.specs.Jobs.{asks_both_forms, asks_version, keeping_of_words, names_of_words, request_in, request_of, request_of_words};

use crate::job::{Job, Keeping, WordsFault};
use crate::{command, matches};
use clap::error::ErrorKind;
use clap::{ArgMatches, Error};
use std::alloc::{AllocError, Global};

/// What the words match in the program's command line.
fn matches_of<'a>(alloc: Global, words: &'a [&'a str]) -> Result<ArgMatches<'a>, Error>
    ensures entered { IfOk result (λ m.
        subcommand_rows_of m
        ≡ subcommand_of ckrt_app (map (λ s. s.now) words.entry.now)) }
    ensures faultless { IfOk result
        (λ _. fault_of ckrt_app (map (λ s. s.now) words.entry.now) ≡ []) }
    ensures taken { IfErr result (λ e.
        takes ckrt_app (map (λ s. s.now) words.entry.now) ≡ true
        → kind_of e ≡ ErrorKind.OutOfMemory) }
{
    let command = command::command(alloc)?;
    command.try_get_matches_from(words)
}

/// What follows a number of `format` that isn't one.
const FORMAT_USAGE: &str =
    "Usage: ckrt format <DISK> <IMAGE> [--pages 16 to 65536] [--harts 1 to 8] [--journal 4096 to 1048576 by 4096] [--env NAME=VALUE] [-- ARGUMENTS]";

/// What follows a number of `inspect` that isn't one.
const INSPECT_USAGE: &str =
    "Usage: ckrt inspect <DISK> [--history] [--at NUMBER OF EVENTS] [--code] [--names <FILE>]";

/// What follows a number of `core` that isn't one.
const CORE_USAGE: &str = "Usage: ckrt core <DISK> <FILE> [--history] [--at NUMBER OF EVENTS]";

/// What follows a number of `calls` that isn't one.
const CALLS_USAGE: &str =
    "Usage: ckrt calls <DISK> [--history] [--from NUMBER OF EVENTS] [--to NUMBER OF EVENTS] [--last NUMBER OF EVENTS] [--names <FILE>]";

/// What follows a number of `debug` that isn't one.
const DEBUG_USAGE: &str = "Usage: ckrt debug <DISK> [--history] [--at NUMBER OF EVENTS]";

/// What follows a number of `races` that isn't one.
const RACES_USAGE: &str =
    "Usage: ckrt races <DISK> [--history] [--from NUMBER OF EVENTS] [--to NUMBER OF EVENTS] [--last NUMBER OF EVENTS] [--names <FILE>] [--memory BYTES]";

/// What follows a number of `check` that isn't one.
const CHECK_USAGE: &str =
    "Usage: ckrt check <DISK> [--history] [--from NUMBER OF EVENTS] [--to NUMBER OF EVENTS] [--last NUMBER OF EVENTS] [--names <FILE>] [--memory BYTES]";

/// What follows a number of `timeline` that isn't one.
const TIMELINE_USAGE: &str =
    "Usage: ckrt timeline <DISK> [--history] [--from NUMBER OF EVENTS] [--to NUMBER OF EVENTS] [--last NUMBER OF EVENTS] [--names <FILE>] [--width 400 to 4000] [--json]";

/// What follows a number of `profile` that isn't one.
const PROFILE_USAGE: &str =
    "Usage: ckrt profile <DISK> [--history] [--from NUMBER OF EVENTS] [--to NUMBER OF EVENTS] [--last NUMBER OF EVENTS] [--names <FILE>] [--folded | --callgrind]";

/// What is wrong with `profile` with both of its forms.
const BOTH_FORMS: &str = "error: the argument '--folded' cannot be used with '--callgrind'";

/// What follows a number of `hunt` that isn't one.
const HUNT_USAGE: &str =
    "Usage: ckrt hunt <IMAGE> [--seeds FIRST-LAST | --seconds 1 to 31536000] [--pages 16 to 65536] [--harts 1 to 8] [--input <FILE>] [--steps NUMBER OF STEPS] [--races | --check] [--memory BYTES] [--ignore-output] [--rows] [--keep <DISK>] [--table <FILE>] [--progress SECONDS] [--names <FILE>] [--env NAME=VALUE] [-- ARGUMENTS]";

/// What follows a number of `history` that isn't one.
const HISTORY_USAGE: &str =
    "Usage: ckrt history <FILE> [--disk <DISK> | --part <PART> --from NUMBER OF EVENTS [--to NUMBER OF EVENTS]]";

/// What follows a number of `drive` that isn't one.
const DRIVE_USAGE: &str =
    "Usage: ckrt drive <DISK> [--image <IMAGE>] [--pages 16 to 65536] [--harts 1 to 8] [--journal 4096 to 1048576 by 4096] [--input <FILE>] [--input-from OFFSET] [--output <FILE>] [--history <FILE>] [--snapshots SECONDS] [--history-may-end] [--turn 1 to 1000000] [--rounds-per-commit NUMBER OF ROUNDS] [--events NUMBER OF EVENTS] [--seed NUMBER] [--other-schedule] [--progress SECONDS] [--status <FILE>] [--from OFFSET] [--names <FILE>] [--env NAME=VALUE] [-- ARGUMENTS]";

/// What follows a number that isn't one, by the command.
fn number_usage(words: &[&str]) -> &'static str {
    match words.first() {
        Some(&"inspect") => INSPECT_USAGE,
        Some(&"drive") => DRIVE_USAGE,
        Some(&"core") => CORE_USAGE,
        Some(&"calls") => CALLS_USAGE,
        Some(&"debug") => DEBUG_USAGE,
        Some(&"races") => RACES_USAGE,
        Some(&"timeline") => TIMELINE_USAGE,
        Some(&"profile") => PROFILE_USAGE,
        Some(&"hunt") => HUNT_USAGE,
        Some(&"check") => CHECK_USAGE,
        Some(&"history") => HISTORY_USAGE,
        _ => FORMAT_USAGE,
    }
}

/// The text of a fault that `clap` found, with the usage behind it where it is of a number.
fn fault(alloc: Global, words: &[&str], error: &Error) -> WordsFault
    ensures { kind_of error.now ≡ ErrorKind.OutOfMemory → result ≡ WordsFault.OutOfMemory }
{
    if error.kind() == ErrorKind::OutOfMemory {
        return WordsFault::OutOfMemory;
    }
    let text = if error.kind() == ErrorKind::ValueValidation {
        let usage = number_usage(words);
        format!(in alloc; "{error}\n{usage}\n")
    } else {
        format!(in alloc; "{error}")
    };
    match text {
        Ok(text) => WordsFault::Usage(text),
        Err(_) => WordsFault::OutOfMemory,
    }
}

/// What is wrong with words that `clap` takes and that name no job: `profile` was asked for both of its forms.
fn no_job(alloc: Global) -> WordsFault {
    match format!(in alloc; "{BOTH_FORMS}\n{PROFILE_USAGE}\n") {
        Ok(text) => WordsFault::Usage(text),
        Err(_) => WordsFault::OutOfMemory,
    }
}

/// The job that `clap` makes of the words, if they name one.
fn job_of<'a>(alloc: Global, words: &'a [&'a str]) -> Result<Option<Job<'a>>, WordsFault>
    ensures named { IfOk result (λ job.
        option_map request_of job
        ≡ option_and_then request_in
        (subcommand_of ckrt_app (map (λ s. s.now) words.entry.now))) }
    ensures faultless { IfOk result
        (λ _. fault_of ckrt_app (map (λ s. s.now) words.entry.now) ≡ []) }
    ensures taken { IfErr result (λ e.
        takes ckrt_app (map (λ s. s.now) words.entry.now) ≡ true
        → asks_both_forms (map (λ s. s.now) words.entry.now) ≡ false
        → e ≡ WordsFault.OutOfMemory) }
{
    match matches_of(alloc, words) {
        Ok(matches) => Ok(matches::job_named(&matches)),
        Err(error) => Err(fault(alloc, words, &error)),
    }
}

/// Whether there is one word, `--version`.
fn is_version(words: &[&str]) -> bool
    ensures { result ≡ asks_version (map (λ s. s.now) words.now) }
{
    words.len() == 1 && words[0] == "--version"
}

/// The job that the words after the program's name ask for: [`Job::Stored`] where there are none, [`Job::Version`] where
/// they are `--version` alone, else what `clap` makes of them. An option of `format` that isn't given has 64 pages, 1 hart
/// and a journal of 65,536 bytes; one that is given has to be a number below 2^32. `inspect` shows the disk after the last
/// event where `--at` isn't given, which has to be a number below 2^64, and so does `core`. `calls` begins at the first one
/// that the disk still has, ends at the last one, and tells all where its numbers aren't given, which have to be below 2^64 too. So does
/// `debug` begin, where `--at` isn't given.
///
/// `hunt` has no seeds, no seconds, 64 pages, 1 hart, no file of its input, runs of at most 10,000,000 steps, no look at races or errors of memory and no bytes of its shadow, outcomes that outputs tell apart, of many outputs the commonest alone, no disk, no file of its table and no line of progress where these aren't given;
/// the numbers that are have to be below 2^32 and, of seconds and bytes, 2^64. The text of the seeds is handed on as it is.
///
/// DISK of `core`, `calls`, `races`, `check`, `timeline`, `profile` and `debug` is a history where
/// `--history` is given. It is a disk where that isn't. `history` brings FILE up to a disk where
/// `--disk` is given, and makes a part of it where `--part` is. The numbers of a part have to be below 2^64. FILE is only looked at without `--disk`.
///
/// `races`, `check`, `timeline` and `profile` take a stretch as `calls` does, and `races` and `check` a number of bytes below 2^64. A picture is 1,200 pixels wide where `--width` isn't given, which has
/// to be below 2^32. `profile` is a table where no form is given; with both of its forms it names no job.
///
/// `drive` has turns of 1,000,000 steps, 16 rounds between two commits, no image, no sizes, no files of its input, its output and its history, no limit of
/// events, no seed, no line of progress, no file that tells how far it is, and no offsets where these aren't given; the numbers that are have to be
/// below 2^32 and, of events, a seed, seconds and offsets, 2^64.
///
/// # Errors
///
/// [`WordsFault::Usage`] where the words aren't a command's, ask for help, or for both forms of a profile, with the text for the user;
/// [`WordsFault::OutOfMemory`] where memory is refused.
pub fn read_words<'a>(alloc: Global, words: &'a [&'a str]) -> Result<Job<'a>, WordsFault>
    ensures job { IfOk result
        (λ j. request_of_words (map (λ s. s.now) words.entry.now) ≡ Some (request_of j)) }
    ensures faultless { IfOk result (λ _.
        words.entry.now ≢ [] → asks_version (map (λ s. s.now) words.entry.now) ≡ false
        → fault_of ckrt_app (map (λ s. s.now) words.entry.now) ≡ []) }
    ensures stored { IfErr result (λ _. words.entry.now ≢ []) }
    ensures taken { IfErr result (λ e.
        takes ckrt_app (map (λ s. s.now) words.entry.now) ≡ true
        → asks_both_forms (map (λ s. s.now) words.entry.now) ≡ false
        → e ≡ WordsFault.OutOfMemory) }
{
    if words.is_empty() {
        return Ok(Job::Stored);
    }
    if is_version(words) {
        return Ok(Job::Version);
    }
    match job_of(alloc, words) {
        Ok(Some(job)) => Ok(job),
        Ok(None) => Err(no_job(alloc)),
        Err(fault) => Err(fault),
    }
}

/// The file of names that the words after the program's name give by `--names`; none where they give none, and for no words and `--version`.
/// The job that [`read_words`] makes of the words is the same with it and without it.
///
/// # Errors
///
/// Those of [`read_words`], but for both forms of a profile.
pub fn read_names<'a>(alloc: Global, words: &'a [&'a str]) -> Result<Option<&'a str>, WordsFault>
    ensures file { IfOk result (λ file.
        option_map (λ s. s.now) file ≡ names_of_words (map (λ s. s.now) words.entry.now)) }
    ensures taken { IfErr result (λ e.
        takes ckrt_app (map (λ s. s.now) words.entry.now) ≡ true
        → e ≡ WordsFault.OutOfMemory) }
{
    if words.is_empty() || is_version(words) {
        return Ok(None);
    }
    match matches_of(alloc, words) {
        Ok(matches) => Ok(matches::names_file(&matches)),
        Err(error) => Err(fault(alloc, words, &error)),
    }
}

/// How the words after the program's name keep a history, by `--snapshots` and `--history-may-end`: without either where they give none, and for
/// no words and `--version`. The job that [`read_words`] makes of the words is the same with them and without. The number is of 64 bits.
///
/// # Errors
///
/// Those of [`read_words`], but for both forms of a profile.
pub fn read_keeping<'a>(alloc: Global, words: &'a [&'a str]) -> Result<Keeping, WordsFault>
    ensures keeping { IfOk result (λ keeping.
        keeping ≡ keeping_of_words (map (λ s. s.now) words.entry.now)) }
    ensures taken { IfErr result (λ e.
        takes ckrt_app (map (λ s. s.now) words.entry.now) ≡ true
        → e ≡ WordsFault.OutOfMemory) }
{
    if words.is_empty() || is_version(words) {
        return Ok(Keeping {
            snapshots: None,
            may_end: false,
        });
    }
    match matches_of(alloc, words) {
        Ok(matches) => Ok(matches::keeping(&matches)),
        Err(error) => Err(fault(alloc, words, &error)),
    }
}
