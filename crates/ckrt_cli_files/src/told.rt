//! Files of the system, with the length that was told of them, and outputs that tell why they failed.
ghost use Rattle.std.specs.Fs.{metadata_len};
ghost use Rattle.std.specs.Prelude.{◌≡◌};

use crate::reason::OutputReason;
use ckrt_disk::{DeviceFault, FileDisk, PositionedFile, SystemFile, Transfer};
use std::cell::Cell;
use std::fs::{File, Metadata};
use std::io::{self, Write};
use std::os::unix::fs::FileExt;

/// What learns why a call of an output failed: by the same call, made once more through another handle of the file.
#[derive(Drop)]
pub struct Teller<'a> {
    file: File,
    why: &'a Cell<OutputReason>,
}

impl<'a> Teller<'a> {
    /// One that notes the reason there.
    pub(crate) fn new(file: File, why: &'a Cell<OutputReason>) -> Teller<'a> {
        Teller { file, why }
    }

    /// Notes what the call answers that is made once more.
    fn note(&self, again: io::Result<()>) {
        match again {
            Ok(()) => self.why.set(OutputReason::Passing),
            Err(error) => self.why.set(OutputReason::of(error.kind())),
        }
    }

    /// Learns why a write failed.
    fn tell_write(&self, at: usize, bytes: &[u8]) {
        self.note(self.file.write_all_at(bytes, at as u64));
    }

    /// Learns why a sync failed.
    fn tell_sync(&self) {
        self.note(self.file.sync_data());
    }
}

/// A file, and what learns why a write or a sync of it failed, where that is to be told. A file hands no error on, and neither does a
/// disk. In all else it is the file: what a failed call leaves of it is left open there.
#[derive(Drop)]
pub struct ToldFile<'a, F> {
    file: F,
    /// How many bytes the system told that it has, when it was opened; or how many one may get that grows meanwhile.
    length: u64,
    teller: Option<Teller<'a>>,
}

impl<'a, F: PositionedFile> ToldFile<'a, F> {
    /// A file of which the system told this, and of which nothing is told where it fails.
    pub(crate) fn untold(file: F, told: &Metadata) -> ToldFile<'a, F>
        ensures file { result.file ≡ file }
        ensures length { result.length ≡ metadata_len told.now }
    {
        ToldFile {
            file,
            length: told.len(),
            teller: None,
        }
    }

    /// A file that somebody else appends to, which may get that many bytes.
    pub(crate) fn growing(file: F, length: u64) -> ToldFile<'a, F>
        ensures file { result.file ≡ file }
        ensures length { result.length ≡ length }
    {
        ToldFile {
            file,
            length,
            teller: None,
        }
    }

    /// A file of which the system told this, and of which it is told why it fails.
    pub(crate) fn told_by(file: F, told: &Metadata, teller: Teller<'a>) -> ToldFile<'a, F>
        ensures file { result.file ≡ file }
        ensures length { result.length ≡ metadata_len told.now }
    {
        ToldFile {
            file,
            length: told.len(),
            teller: Some(teller),
        }
    }

    /// Has it told why a write failed, where it did.
    fn tell_write(&self, answer: Transfer, at: usize, bytes: &[u8]) {
        match (answer, &self.teller) {
            (Transfer::Failed, Some(teller)) => teller.tell_write(at, bytes),
            _ => {}
        }
    }

    /// Has it told why a sync failed.
    fn tell_sync(&self) {
        match &self.teller {
            Some(teller) => teller.tell_sync(),
            None => {}
        }
    }
}

impl<'a, F: PositionedFile> PositionedFile for ToldFile<'a, F> {
    ghost len = { λ f. F.len f.file };

    ghost content = { λ f. F.content f.file };

    ghost pending = { λ f. F.pending f.file };

    ghost keeps_model = { λ f. F.keeps_model f.file };

    ghost errors = { λ f. F.errors f.file };

    ghost interruptions = { λ f. F.interruptions f.file };

    ghost is_reliable = { λ f. F.is_reliable f.file };

    ghost read_gives = { λ old at buf answer new. F.read_gives old.file at buf answer new.file };

    ghost write_gives = { λ old at bytes answer new.
        F.write_gives old.file at bytes answer new.file };

    ghost sync_gives = { λ old ok new. F.sync_gives old.file ok new.file };

    fn read_some(&mut self, at: usize, buf: &mut [u8]) -> Transfer {
        self.file.read_some(at, buf)
    }

    fn write_some(&mut self, at: usize, bytes: &[u8]) -> Transfer {
        let answer = self.file.write_some(at, bytes);
        self.tell_write(answer, at, bytes);
        answer
    }

    fn sync(&mut self) -> Result<(), DeviceFault> {
        let answer = self.file.sync();
        if answer.is_err() {
            self.tell_sync();
        }
        answer
    }

    ghost whole = { λ f keeps. F.whole f.file keeps };

    ghost patient = { λ f reliable. F.patient f.file reliable };
}

/// A disk that is a file of the system, which holds what `H` says.
pub type RealDisk<'a, H> = FileDisk<ToldFile<'a, SystemFile<H>>>;

/// A writer that notes why a call of it failed.
#[derive(Drop)]
pub struct ToldWriter<'a, W> {
    writer: W,
    why: &'a Cell<OutputReason>,
}

impl<'a, W: Write> ToldWriter<'a, W> {
    /// A writer that notes it there.
    pub fn new(writer: W, why: &'a Cell<OutputReason>) -> ToldWriter<'a, W>
        ensures { ⟦<ToldWriter<'a, W> as Write>⟧.contents result ≡ W.contents writer }
    {
        ToldWriter { writer, why }
    }

    /// Notes why a call failed, where it did.
    fn note<T>(&self, answer: &io::Result<T>) {
        match answer {
            Ok(_) => {}
            Err(error) => self.why.set(OutputReason::of(error.kind())),
        }
    }
}

impl<'a, W: Write> Write for ToldWriter<'a, W> {
    ghost contents = { λ told. W.contents told.writer };

    fn write(&mut self, buf: &[u8]) -> io::Result<usize> {
        let answer = self.writer.write(buf);
        self.note(&answer);
        answer
    }

    fn flush(&mut self) -> io::Result<()> {
        let answer = self.writer.flush();
        self.note(&answer);
        answer
    }
}
