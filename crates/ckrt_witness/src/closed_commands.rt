//! A closed witness of the promise of many drives from the words on, over disks in memory: two runs of the program by their words. What
//! stops a test meets any clause, so it shows its witness by coming to its end.
ghost use Rattle.std.specs.Prelude.{◌≡◌, ◌≢◌, ℕ, List, [], Some, map};
ghost use Rattle.ckrt_witness.specs.Runs.{AsksDrive, Ran, RunsWitness};
ghost use Rattle.ckrt_witness.specs.Shelf.{reach_of};

use crate::closed::{copied, formatted, stopping_disk};
use crate::commands::two_runs;
use crate::shelf::Shelf;
use ckrt_cli::run_words_with;
use ckrt_cli_reports::WrittenReport;
use ckrt_cli_words::{Job, read_words};
use ckrt_disk::{Disk, StoppingDisk};
use ckrt_drive::{Nobody, StreamOutput};
use std::io::Write;
use std::process::Abort;

/// A guest that puts the first byte of its input, and exits.
const GUEST: &[u8] = &[
    0x93, 0x08, 0x30, 0x00, // addi x17, x0, 3
    0x73, 0x00, 0x00, 0x00, // ecall
    0x93, 0x08, 0x20, 0x00, // addi x17, x0, 2
    0x73, 0x00, 0x00, 0x00, // ecall
    0x13, 0x05, 0x00, 0x00, // addi x10, x0, 0
    0x93, 0x08, 0x10, 0x00, // addi x17, x0, 1
    0x73, 0x00, 0x00, 0x00, // ecall
];

/// The words of both runs: three events are too few for the first one to come to the guest's end.
const WORDS: &[&str] = &[
    "drive", "d", "--output", "o", "--input", "i", "--events", "3",
];

/// Where a drive had enough events, and where the guest ended by `exit 0`.
pub(crate) const ENOUGH: u8 = 5;

const ENDED: u8 = 0;

/// The words ask for a drive of a disk that is there, with its output and its input in files.
fn expect_drive<'a, R: Abort + AllocGlobal>(rt: &R, words: &'a [&'a str])
    ensures { AsksDrive (map (λ s. s.now) words.entry.now) }
{
    match read_words(rt.alloc(), words) {
        Ok(Job::Drive(job)) => match job.output {
            Some(_) => match job.input {
                Some(_) => match job.image {
                    Some(_) => panic!(rt; "the words have an image"),
                    None => {}
                },
                None => panic!(rt; "the words have no input"),
            },
            None => panic!(rt; "the words have no output"),
        },
        _ => panic!(rt; "the words ask for no drive"),
    }
}

/// A status that no run has whose job failed, or whose words ask for none.
pub(crate) fn expect_done<R: Abort>(rt: &R, got: u8, want: u8)
    ensures done { got ≢ 1 }
    ensures named { got ≢ 2 }
{
    if got == 1 || got == 2 || got != want {
        panic!(rt; "the run came to {got}");
    }
}

/// What was given back.
pub(crate) fn given_back<R: Abort>(rt: &R, disk: Option<StoppingDisk>) -> StoppingDisk
    ensures { disk ≡ Some result }
{
    match disk {
        Some(disk) => disk,
        None => panic!(rt; "it wasn't given back"),
    }
}

/// Bytes that aren't the same.
pub(crate) fn expect_other<R: Abort>(rt: &R, got: &[u8], other: &[u8])
    ensures { got.now ≢ other.now }
{
    if got == other {
        panic!(rt; "nothing was written");
    }
}

/// A run of the program by these words over disks in memory: the disk and the output that it left.
fn run<'a, R: Abort + AllocGlobal>(
    rt: &R,
    words: &'a [&'a str],
    disk: StoppingDisk,
    output: StoppingDisk,
    text: &[u8],
    status: u8,
) -> (StoppingDisk, StoppingDisk)
    ensures { Ran {d = ⟦<StoppingDisk as Disk>⟧}
        (reach_of ⟦<StreamOutput<'a, Vec<u8>> as Disk>⟧ ⟦<Vec<u8> as Write>⟧.contents)
        (map (λ s. s.now) words.entry.now) disk output text.now result.0 result.1 }
{
    let input = stopping_disk(rt, copied(rt, text), 0);
    let mut sources = Shelf::new(disk, output, input);
    let mut lines: &[u8] = &[];
    let mut printed = Vec::new(rt.alloc());
    let mut reporter = WrittenReport::new(Vec::new(rt.alloc()));
    let got = run_words_with::<
        &[u8],
        StoppingDisk,
        Shelf,
        &[u8],
        Vec<u8>,
        WrittenReport<Vec<u8>>,
        Nobody,
    >(
        rt.alloc(),
        words,
        &[],
        &mut sources,
        &mut lines,
        &mut printed,
        &mut reporter,
        &mut Nobody,
    );
    expect_done(rt, got, status);
    let closed = sources.into_closed();
    (given_back(rt, closed.disk), given_back(rt, closed.output))
}

/// Two runs by the same words, the first of which stops for want of events: they meet all premises of the promise.
fn commands<'a, R: Abort + AllocGlobal>(rt: &R, words: &'a [&'a str], text: &[u8], old: &[u8])
    requires text { text.now ≢ [] }
    ensures { RunsWitness {d = ⟦<StoppingDisk as Disk>⟧}
        (reach_of ⟦<StreamOutput<'a, Vec<u8>> as Disk>⟧ ⟦<Vec<u8> as Write>⟧.contents) text.now }
{
    expect_drive(rt, words);
    let start = stopping_disk(rt, formatted(rt, GUEST), 0);
    let output = stopping_disk(rt, copied(rt, old), 0);
    let one = run(rt, words, start, output, text, ENOUGH);
    let next = stopping_disk(rt, one.0.into_image(), 0);
    let opened = stopping_disk(rt, one.1.into_image(), 0);
    let other = run(rt, words, next, opened, text, ENDED);
    let whole = other.1.into_image();
    expect_other(rt, &whole, old);
    two_runs::<&[u8], StoppingDisk, Shelf, Vec<u8>>();
}

#[test]
fn the_premises_from_the_words_on_are_met(rt: HostRuntime) {
    commands(&rt, WORDS, b"Ab", &[0; 8]);
}
