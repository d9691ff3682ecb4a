//! A closed witness of the law of a history beside many runs from the words on, over disks in memory: two runs of the program by their words that keep
//! a history. What stops a test meets any clause, so it shows its witness by coming to its end.
ghost use Rattle.std.specs.Prelude.{◌≤◌, map};
ghost use Rattle.ckrt_history.specs.Span.{HasSpan};
ghost use Rattle.ckrt_witness.specs.Beside.{AreReopened, three};
ghost use Rattle.ckrt_witness.specs.CommandsBeside.{AsksHistory, CommandsWitness, HasEvents, RanBeside};
ghost use Rattle.ckrt_witness.specs.Shelf.{reach_of};

use crate::closed::{ENDLESS, copied, formatted, memory_disk, stopping_disk};
use crate::closed_beside::{ROOM, no_history};
use crate::closed_commands::{ENOUGH, expect_done, given_back};
use crate::commands_beside::two_commands_beside;
use crate::shelf::{HistoryFile, Shelf};
use ckrt_cli::run_words_with;
use ckrt_cli_reports::WrittenReport;
use ckrt_cli_words::{Job, read_words};
use ckrt_disk::{Disk, StoppingDisk};
use ckrt_drive::{Nobody, StreamOutput};
use ckrt_history::{Span, history_span};
use std::io::Write;
use std::process::Abort;

/// The words of both runs: the guest goes round for ever, so each has enough events.
const WORDS: &[&str] = &[
    "drive",
    "d",
    "--output",
    "o",
    "--history",
    "h",
    "--events",
    "2",
];

/// A disk, an output and the file of a history.
#[derive(Drop)]
struct Kept {
    disk: StoppingDisk,
    output: StoppingDisk,
    file: StoppingDisk,
}

/// The words ask for a drive of a disk that is there, without an input, with its output and its history in two files: the path of the history.
fn expect_history<'a, R: Abort + AllocGlobal>(rt: &R, words: &'a [&'a str]) -> &'a str
    ensures { AsksHistory (map (λ s. s.now) words.entry.now) result.now }
{
    match read_words(rt.alloc(), words) {
        Ok(Job::Drive(job)) => match job.input {
            Some(_) => panic!(rt; "the words have an input"),
            None => match job.image {
                Some(_) => panic!(rt; "the words have an image"),
                None => match job.output {
                    Some(output) => match job.history {
                        Some(history) => {
                            if output == history {
                                panic!(rt; "both are in one file");
                            }
                            history
                        }
                        None => panic!(rt; "the words have no history"),
                    },
                    None => panic!(rt; "the words have no output"),
                },
            },
        },
        _ => panic!(rt; "the words ask for no drive"),
    }
}

/// A run of the program by these words over disks in memory, with a history of so many bytes: what it left of them.
fn run<'a, R: Abort + AllocGlobal>(
    rt: &R,
    words: &'a [&'a str],
    path: &'a str,
    files: Kept,
    length: u64,
) -> Kept
    ensures { RanBeside {d = ⟦<StoppingDisk as Disk>⟧}
        (reach_of ⟦<StreamOutput<'a, Vec<u8>> as Disk>⟧ ⟦<Vec<u8> as Write>⟧.contents)
        (map (λ s. s.now) words.entry.now) path.now
        (three files.disk files.output files.file)
        (three result.disk result.output result.file) }
{
    let history = HistoryFile {
        path,
        file: files.file,
        length,
    };
    let mut sources = Shelf::with_history(files.disk, files.output, history);
    let mut lines: &[u8] = &[];
    let mut printed = Vec::new(rt.alloc());
    let mut reporter = WrittenReport::new(Vec::new(rt.alloc()));
    let got = run_words_with::<
        &[u8],
        StoppingDisk,
        Shelf,
        &[u8],
        Vec<u8>,
        WrittenReport<Vec<u8>>,
        Nobody,
    >(
        rt.alloc(),
        words,
        &[],
        &mut sources,
        &mut lines,
        &mut printed,
        &mut reporter,
        &mut Nobody,
    );
    expect_done(rt, got, ENOUGH);
    let closed = sources.into_closed();
    Kept {
        disk: given_back(rt, closed.disk),
        output: given_back(rt, closed.output),
        file: given_back(rt, closed.history),
    }
}

/// How far the history of these bytes goes.
fn span_of<R: Abort + AllocGlobal>(rt: &R, bytes: &[u8]) -> Span
    ensures { HasSpan bytes.now result }
{
    let mut file = memory_disk(rt, copied(rt, bytes));
    match history_span(rt.alloc(), &mut file) {
        Ok(span) => span,
        Err(fault) => panic!(rt; "{fault}"),
    }
}

/// So many, or more.
fn expect_at_least<R: Abort>(rt: &R, got: u64, want: u64)
    ensures { want ≤ got }
{
    if got < want {
        panic!(rt; "there are {got}");
    }
}

/// These bytes are a history of so many events, or more.
fn expect_events<R: Abort + AllocGlobal>(rt: &R, bytes: &[u8], count: u64)
    ensures { HasEvents bytes.now count }
{
    let span = span_of(rt, bytes);
    expect_at_least(rt, span.count, count);
}

/// What a stop behind a run left, whose history has so many events, or more: each with its bytes as they read.
fn reopened<R: Abort + AllocGlobal>(rt: &R, left: Kept, count: u64) -> Kept
    ensures again { AreReopened ⟦<StoppingDisk as Disk>⟧ ⟦<StoppingDisk as Disk>⟧
        ⟦<StoppingDisk as Disk>⟧ (three left.disk left.output left.file)
        (three result.disk result.output result.file) }
    ensures events { HasEvents (⟦<StoppingDisk as Disk>⟧.content result.file) count }
{
    let file = left.file.into_image();
    expect_events(rt, &file, count);
    Kept {
        disk: stopping_disk(rt, left.disk.into_image(), 0),
        output: stopping_disk(rt, left.output.into_image(), 0),
        file: stopping_disk(rt, file, 0),
    }
}

/// Two runs by the same words, each of two events: they meet all premises of the law.
fn runs_beside<'a, R: Abort + AllocGlobal>(rt: &R, words: &'a [&'a str])
    ensures { CommandsWitness {d = ⟦<StoppingDisk as Disk>⟧}
        (reach_of ⟦<StreamOutput<'a, Vec<u8>> as Disk>⟧ ⟦<Vec<u8> as Write>⟧.contents) 4 }
{
    let path = expect_history(rt, words);
    let start = Kept {
        disk: stopping_disk(rt, formatted(rt, ENDLESS), 0),
        output: stopping_disk(rt, copied(rt, b"........"), 0),
        file: stopping_disk(rt, no_history(rt), 0),
    };
    let one = run(rt, words, path, start, 0);
    let next = reopened(rt, one, 2);
    let other = run(rt, words, path, next, ROOM as u64);
    reopened(rt, other, 4);
    two_commands_beside::<&[u8], StoppingDisk, Shelf, Vec<u8>>();
}

#[test]
fn the_premises_of_a_history_beside_runs_by_their_words_are_met(rt: HostRuntime) {
    runs_beside(&rt, WORDS);
}
