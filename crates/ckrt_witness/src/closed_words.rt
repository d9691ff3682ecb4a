//! A closed witness of runs by their words, over files of the system. What stops a test meets any clause, so it shows its witness by coming
//! to its end.
ghost use Rattle.std.specs.Prelude.{◌≡◌, ◌≢◌, [], Some, map};
ghost use Rattle.ckrt_cli.specs.Performing.{real_files};
ghost use Rattle.ckrt_witness.specs.Words.{AsksFormat, Ended, WordsWitness};
ghost use Rattle.ckrt_cli_words.specs.Jobs.{request_of_words, version};

use crate::closed_machine::WAITERS;
use crate::files::Trio;
use crate::words::{ask_format, ask_version};
use ckrt_cli::run_words;
use ckrt_cli_files::{OutputReason, RealDisk, SystemSources};
use ckrt_cli_reports::WrittenReport;
use ckrt_disk::{Calls, Disk};
use ckrt_drive::{Nobody, StreamOutput};
use std::cell::Cell;
use std::fs::{self, File, Files};
use std::io::Write;
use std::process::Abort;

/// Words that ask for a disk to be made.
pub(crate) fn expect_format<'a, R: Abort + AllocGlobal>(rt: &R, words: &'a [&'a str])
    ensures { AsksFormat (map (λ s. s.now) words.entry.now) }
{
    if !ask_format(rt.alloc(), words) {
        panic!(rt; "the words ask for no disk");
    }
}

/// Words that ask for the version.
pub(crate) fn expect_version<'a, R: Abort + AllocGlobal>(rt: &R, words: &'a [&'a str])
    ensures { request_of_words (map (λ s. s.now) words.entry.now) ≡ Some version }
{
    if !ask_version(rt.alloc(), words) {
        panic!(rt; "the words don't ask for the version");
    }
}

/// There are words.
pub(crate) fn expect_some<'a, R: Abort>(rt: &R, words: &'a [&'a str])
    ensures { map (λ s. s.now) words.entry.now ≢ [] }
{
    if words.is_empty() {
        panic!(rt; "there are no words");
    }
}

/// A status.
pub(crate) fn expect_status<R: Abort>(rt: &R, got: u8, want: u8)
    ensures { got ≡ want }
{
    if got != want {
        panic!(rt; "the run came to {got}");
    }
}

/// A run over files of the system, with this status.
fn run_real<'a, R: Abort + Files<File = File> + AllocGlobal>(
    rt: &'a R,
    words: &'a [&'a str],
    why: &'a Cell<OutputReason>,
    status: u8,
)
    ensures { Ended {d = ⟦<RealDisk<'a, Trio> as Disk>⟧}
        (real_files ⟦<StreamOutput<'a, Vec<u8>> as Disk>⟧ ⟦<Vec<u8> as Write>⟧.contents [])
        (map (λ s. s.now) words.entry.now) status }
{
    let mut lines: &[u8] = &[];
    let mut printed = Vec::new(rt.alloc());
    let mut reporter = WrittenReport::new(Vec::new(rt.alloc()));
    let got = run_words::<R, Trio, &[u8], Vec<u8>, WrittenReport<Vec<u8>>, Nobody>(
        rt.alloc(),
        words,
        &[],
        &mut SystemSources::new(rt, why, Calls::new()),
        &mut lines,
        &mut printed,
        &mut reporter,
        &mut Nobody,
    );
    expect_status(rt, got, status);
}

/// Runs by these words meet all premises over files of the system.
fn real_words<'a, R: Abort + Files<File = File> + AllocGlobal>(
    rt: &'a R,
    why: &'a Cell<OutputReason>,
    making: &'a [&'a str],
    telling: &'a [&'a str],
    nonsense: &'a [&'a str],
)
    ensures { WordsWitness {S = Unit {0}} {d = ⟦<RealDisk<'a, Trio> as Disk>⟧}
        (λ _. real_files ⟦<StreamOutput<'a, Vec<u8>> as Disk>⟧
        ⟦<Vec<u8> as Write>⟧.contents []) }
{
    expect_format(rt, making);
    run_real(rt, making, why, 0);
    expect_version(rt, telling);
    run_real(rt, telling, why, 0);
    expect_some(rt, nonsense);
    run_real(rt, nonsense, why, 2);
}

#[test]
fn the_premises_of_runs_over_files_are_met(rt: HostRuntime) {
    let why = Cell::new(OutputReason::Other);
    fs::write(&rt, "witness_guest", WAITERS).expect(&rt, "the image is written");
    real_words(
        &rt,
        &why,
        &["format", "witness_disk", "witness_guest"],
        &["--version"],
        &["nonsense"],
    );
    fs::remove_file(&rt, "witness_guest").expect(&rt, "the image is removed");
    fs::remove_file(&rt, "witness_disk").expect(&rt, "the disk is removed");
}
