//! The program over real files: tables of the words that it is given, of what it prints, and of the files that are made and found.

use crate::expect::{
    expect_bytes, expect_eq, expect_eq_at, filled, image_of, remove_file, write_file,
};
use ckrt_cli::run_words;
use ckrt_cli_files::{OutputReason, SystemSources};
use ckrt_cli_reports::WrittenReport;
use ckrt_disk::Calls;
use ckrt_drive::Nobody;
use std::cell::Cell;
use std::fs::{self, File, Files};
use std::io::{self, Write};
use std::marker::Brand;
use std::process::Abort;

/// Lines for a program that puts an `A` and exits.
pub const LINES: &str = "place 0 1\nrun 0 6\ncommit\nquit\n";

/// What is done with a file, or what the program is given and what it prints.
#[derive(Clone, Copy)]
pub enum Step {
    /// A file of this path gets these bytes.
    Write(&'static str, &'static [u8]),
    /// A file of this path gets the image of a guest.
    WriteGuest(&'static str, &'static [u32]),
    /// A file of this path gets that many bytes of one value.
    Fill(&'static str, u8, usize),
    /// A file goes.
    Remove(&'static str),
    /// A file has these bytes.
    Holds(&'static str, &'static [u8]),
    /// A file has that many bytes, the last of which are these.
    EndsWith(&'static str, usize, &'static [u8]),
    /// No file is there.
    Absent(&'static str),
    /// Words and lines to which the program prints this, with status 0.
    Prints(&'static str, &'static str, &'static str),
    /// Words to which the program prints nothing but a fault, with status 1.
    Fails(&'static str, &'static str),
    /// Words to which the program prints this output of a guest and this end of a drive, with this status.
    Ends(&'static str, &'static str, &'static str, u8),
    /// Words to which the program prints nothing but a text that ends with this one, with status 2.
    Usage(&'static str, &'static str),
}

/// A writer of which only what was flushed is seen.
#[derive(Drop)]
struct Buffered {
    bytes: Vec<u8>,
    flushed: usize,
}

impl Write for Buffered {
    fn write(&mut self, buf: &[u8]) -> io::Result<usize> {
        self.bytes.write(buf)
    }

    fn flush(&mut self) -> io::Result<()> {
        self.flushed = self.bytes.len();
        Ok(())
    }
}

impl Buffered {
    fn new<R: AllocGlobal>(rt: &R) -> Buffered {
        Buffered {
            bytes: Vec::new(rt.alloc()),
            flushed: 0,
        }
    }

    /// What was flushed.
    fn into_seen(self) -> Vec<u8> {
        let mut seen = self.bytes;
        seen.truncate(self.flushed);
        seen
    }
}

/// What the program printed and flushed, and its status.
#[derive(Drop)]
struct Printed {
    output: Vec<u8>,
    errors: Vec<u8>,
    status: u8,
}

impl Printed {
    /// Whether it printed this and ended with this status.
    fn is(&self, output: &str, errors: &str, status: u8) -> bool {
        self.output.as_slice() == output.as_bytes()
            && self.errors.as_slice() == errors.as_bytes()
            && self.status == status
    }
}

/// The words between which spaces stand.
fn words_of<'a, R: Abort + AllocGlobal>(rt: &R, words: &'a str) -> Vec<&'a str> {
    words
        .split_whitespace()
        .collect(rt.alloc())
        .expect(rt, "memory for words")
}

/// Runs the program with these words and these lines, and with a place for why an output failed.
fn ckrt<'a, R: Abort + Files<File = File> + AllocGlobal>(
    rt: &'a R,
    words: &'a str,
    lines: &'a str,
    why: &'a Cell<OutputReason>,
) -> Printed {
    let words = words_of(rt, words);
    let mut reader = lines.as_bytes();
    let mut output = Buffered::new(rt);
    let mut reporter = WrittenReport::new(Buffered::new(rt));
    let status = run_words::<R, Brand, _, _, _, _>(
        rt.alloc(),
        words.as_slice(),
        &[],
        &mut SystemSources::new(rt, why, Calls::new()),
        &mut reader,
        &mut output,
        &mut reporter,
        &mut Nobody,
    );
    Printed {
        output: output.into_seen(),
        errors: reporter.into_writer().into_seen(),
        status,
    }
}

/// Words and lines to which the program prints this, with this status.
fn expect_printed<R: Abort + Files<File = File> + AllocGlobal>(
    rt: &R,
    words: &str,
    lines: &str,
    output: &str,
    errors: &str,
    status: u8,
) {
    let why = Cell::new(OutputReason::Other);
    let printed = ckrt(rt, words, lines, &why);
    expect_eq_at(rt, words, printed.is(output, errors, status), true);
}

/// Words to which the program prints nothing but a text that ends with this one, with status 2.
fn expect_usage<R: Abort + Files<File = File> + AllocGlobal>(rt: &R, words: &str, end: &str) {
    let why = Cell::new(OutputReason::Other);
    let printed = ckrt(rt, words, LINES, &why);
    expect_eq(rt, printed.status, 2);
    expect_eq_at(rt, words, printed.output.len(), 0);
    let is_told = !printed.errors.is_empty() && printed.errors.ends_with(end.as_bytes());
    expect_eq_at(rt, words, is_told, true);
}

/// The bytes of a file.
pub fn bytes_in<R: Abort + Files<File = File> + AllocGlobal>(rt: &R, path: &str) -> Vec<u8> {
    fs::read(rt, path).expect(rt, "the file is read")
}

/// What a step does with a file.
fn make<R: Abort + Files<File = File> + AllocGlobal>(rt: &R, step: Step) {
    match step {
        Step::Write(path, bytes) => write_file(rt, path, bytes),
        Step::WriteGuest(path, words) => write_file(rt, path, image_of(rt, words).as_slice()),
        Step::Fill(path, byte, size) => write_file(rt, path, filled(rt, byte, size).as_slice()),
        Step::Remove(path) => remove_file(rt, path),
        _ => panic!(rt; "the step makes no file"),
    }
}

/// What a step says of a file.
fn look<R: Abort + Files<File = File> + AllocGlobal>(rt: &R, step: Step) {
    match step {
        Step::Holds(path, bytes) => expect_bytes(rt, bytes_in(rt, path).as_slice(), bytes),
        Step::EndsWith(path, size, end) => {
            let bytes = bytes_in(rt, path);
            expect_eq(rt, bytes.len(), size);
            expect_eq_at(rt, path, bytes.ends_with(end), true);
        }
        Step::Absent(path) => {
            let is_there = fs::exists(rt, path).expect(rt, "the folder is read");
            expect_eq_at(rt, path, is_there, false);
        }
        _ => make(rt, step),
    }
}

/// Takes the step.
fn take<R: Abort + Files<File = File> + AllocGlobal>(rt: &R, step: Step) {
    match step {
        Step::Prints(words, lines, output) => expect_printed(rt, words, lines, output, "", 0),
        Step::Fails(words, fault) => expect_printed(rt, words, LINES, "", fault, 1),
        Step::Ends(words, output, end, status) => expect_printed(
            rt, words, "", output, end, status,
        ),
        Step::Usage(words, end) => expect_usage(rt, words, end),
        _ => look(rt, step),
    }
}

/// Takes these steps. It takes a runtime by its bounds, so that a test hands over its own and has nothing else to prove.
pub fn play<R: Abort + Files<File = File> + AllocGlobal>(rt: &R, steps: &[Step]) {
    for step in steps {
        take(rt, *step);
    }
}
