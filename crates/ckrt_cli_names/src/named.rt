//! A writer that puts names behind lines, or in the place of addresses.
ghost use Rattle.std.specs.Prelude.{◌≡◌, ◌++◌, ◌∷◌, [], ◌≤◌, drop, length, take, ℕ, List, IfErr, OnOk, OnErr, IfOk, vec_len};
ghost use Rattle.std.specs.Io.KnownBytes.{append_known, Appends, Keeps};
ghost use Rattle.ckrt_cli_names.specs.Put.{HasShown, KeepsMarks, contents_at_first, shown_of, taken_of, taken_with};

use crate::labels::Labels;
use crate::names::Names;
use crate::piece::{Form, Piece};
use ckrt_disk::{Calls, History};
use std::alloc::{AllocError, Global};
use std::io::{self, ErrorKind, Write};

/// How many bytes of a line are held. A longer one goes through as it is.
const LINE_LIMIT: usize = 4_096;

/// How many bytes wait before they are written.
const BATCH: usize = 8_192;

/// A writer that puts names behind lines, or in the place of addresses.
#[derive(Drop)]
pub struct NamedWriter<W: Write> {
    names: Names,
    form: Form,
    /// What a picture is labelled with.
    labels: Labels,
    inner: W,
    /// The line that isn't finished yet.
    line: Vec<u8>,
    /// Whether its beginning has gone through already.
    is_begun: bool,
    note: Vec<u8>,
    /// What was told of the line elsewhere.
    elsewhere: Vec<u8>,
    /// What is to be written, of which so many bytes are.
    waiting: Vec<u8>,
    written: usize,
    start: History<W>,
    put: Calls<Piece>,
    ghost within: { written ≤ vec_len waiting },
    ghost shown: { HasShown (contents_at_first W.contents start.states) (W.contents inner)
        (drop written waiting.items) put.made },
    ghost noted: { names.rows.items ≡ [] → note.items ≡ [] },
    ghost plain: { names.rows.items ≡ [] → shown_of put.made ≡ taken_of put.made },
    ghost marked: { KeepsMarks form put.made },
}

impl<W: Write> NamedWriter<W> {
    ghost use Rattle.ckrt_cli_names.specs.Writers.{inner_of, line_of, put_by, start_of, waiting_of};
    ghost use Rattle.ckrt_cli_names.specs.Rows.{HasNone};

    /// One over a writer, with these names behind its lines. What it takes is what that one has so far.
    pub fn new(alloc: Global, names: Names, inner: W) -> NamedWriter<W>
        ensures start { start_of result ≡ inner ∷ [] }
        ensures put { put_by result ≡ [] }
        ensures names { result.names ≡ names }
        ensures contents { Keeps (W.contents inner) (⟦<NamedWriter<W> as Write>⟧.contents result) }
    {
        NamedWriter::in_form(alloc, names, Form::Notes, inner)
    }

    /// The same, with names in this form.
    #[tactic(auto, using(crate::proofs::PutLemmas::nothing_taken))]
    pub fn in_form(alloc: Global, names: Names, form: Form, inner: W) -> NamedWriter<W>
        ensures start { start_of result ≡ inner ∷ [] }
        ensures put { put_by result ≡ [] }
        ensures names { result.names ≡ names }
        ensures form { result.form ≡ form }
        ensures contents { Keeps (W.contents inner) (⟦<NamedWriter<W> as Write>⟧.contents result) }
    {
        let start = History::new().with(&inner);
        NamedWriter {
            names,
            form,
            labels: Labels::new(alloc),
            inner,
            line: Vec::new(alloc),
            is_begun: false,
            note: Vec::new(alloc),
            elsewhere: Vec::new(alloc),
            waiting: Vec::new(alloc),
            written: 0,
            start,
            put: Calls::new(),
        }
    }

    /// What always holds of it. What it has taken are the pieces that were put and aren't notes, and the line that isn't put yet. What the
    /// writer below has been given since the begin are all pieces in their order, but for lines in whose place a note stands and for what
    /// waits: nothing twice, nothing left out. Without names both are the same. In frames what is shown has just as many line feeds,
    /// semicolons and blanks as what was taken, in the same order.
    pub fn known(&self)
        ensures taken { ⟦<NamedWriter<W> as Write>⟧.contents self.now
            ≡ append_known (contents_at_first W.contents (start_of self.now))
            (taken_with (put_by self.now) (line_of self.now)) }
        ensures shown { HasShown (contents_at_first W.contents (start_of self.now))
            (W.contents (inner_of self.now)) (waiting_of self.now) (put_by self.now) }
        ensures plain { HasNone self.now.names
            → shown_of (put_by self.now) ≡ taken_of (put_by self.now) }
        ensures marked { KeepsMarks self.now.form (put_by self.now) }
    {
        let _ = &self.inner;
    }

    /// The line that isn't put yet.
    pub fn line(&self) -> &[u8]
        ensures { result.now ≡ line_of self.now }
    {
        self.line.as_slice()
    }

    /// Takes what was told elsewhere of the line that isn't put yet: it stands in its note, behind what is told here.
    pub fn tell_elsewhere(&mut self, text: Vec<u8>)
        ensures contents { ⟦<NamedWriter<W> as Write>⟧.contents self.new
            ≡ ⟦<NamedWriter<W> as Write>⟧.contents self.old }
    {
        self.elsewhere = text;
    }

    /// The writer below, with what it has been given by now.
    pub fn into_inner(self) -> W
        ensures { result ≡ inner_of self }
    {
        self.inner
    }

    /// Puts bytes that were taken behind what waits.
    fn put_taken(&mut self, bytes: &[u8]) -> Result<(), AllocError>
        ensures line { self.new.line ≡ self.old.line }
        ensures start { self.new.start ≡ self.old.start }
        ensures ok { OnOk result (self.new.put.made
            ≡ (Piece.Taken, bytes.now) ∷ self.old.put.made) }
        ensures err { OnErr result (self.new.put.made ≡ self.old.put.made) }
    {
        self.waiting.extend_from_slice(bytes)?;
        self.put = self.put.with(&Piece::Taken, bytes);
        Ok(())
    }

    /// One write of what waits.
    #[tactic(auto, using(crate::proofs::PutLemmas::shown_to))]
    fn write_some(&mut self) -> io::Result<usize>
        ensures line { self.new.line ≡ self.old.line }
        ensures start { self.new.start ≡ self.old.start }
        ensures put { self.new.put.made ≡ self.old.put.made }
        ensures waiting { self.new.waiting ≡ self.old.waiting }
    {
        let (_, rest) = self.waiting.split_at(self.written);
        let count = self.inner.write(rest)?;
        self.written += count;
        Ok(count)
    }

    /// Writes all that waits.
    fn write_waiting(&mut self) -> io::Result<()>
        ensures line { self.new.line ≡ self.old.line }
        ensures start { self.new.start ≡ self.old.start }
        ensures put { self.new.put.made ≡ self.old.put.made }
        ensures ok { OnOk result (self.new.waiting.items ≡ []) }
    {
        for _ in 0..u64::MAX {
            if self.written == self.waiting.len() {
                self.waiting.clear();
                self.written = 0;
                return Ok(());
            }
            match self.write_some() {
                Ok(0) => return Err(io::Error::from(ErrorKind::WriteZero)),
                Ok(_) => {}
                Err(error) => {
                    if error.kind() != ErrorKind::Interrupted {
                        return Err(error);
                    }
                }
            }
        }
        Err(io::Error::from(ErrorKind::Other))
    }

    /// Puts the line behind what waits. What comes of it later isn't named.
    fn put_line(&mut self) -> Result<(), AllocError>
        ensures start { self.new.start ≡ self.old.start }
        ensures same { taken_with self.new.put.made self.new.line.items
            ≡ taken_with self.old.put.made self.old.line.items }
        ensures ok { OnOk result (self.new.line.items ≡ []) }
    {
        if self.line.is_empty() {
            return Ok(());
        }
        self.waiting.extend_from_slice(&self.line)?;
        self.put = self.put.with(&Piece::Taken, &self.line);
        self.line.clear();
        self.is_begun = true;
        Ok(())
    }

    /// Makes the note of the line.
    fn make_note(&mut self)
        ensures line { self.new.line ≡ self.old.line }
        ensures start { self.new.start ≡ self.old.start }
        ensures put { self.new.put.made ≡ self.old.put.made }
    {
        if self.is_begun {
            self.note.clear();
        } else {
            self.names.follow_line(&self.line);
            self.names
                .push_note(&self.line, &self.elsewhere, &mut self.note);
        }
        self.elsewhere.clear();
    }

    /// Puts the note behind what waits, where there is room for it. Frames have none.
    fn put_note(&mut self)
        ensures line { self.new.line ≡ self.old.line }
        ensures start { self.new.start ≡ self.old.start }
        ensures same { taken_of self.new.put.made ≡ taken_of self.old.put.made }
    {
        if matches!(self.form, Form::Frames) {
            return;
        }
        if self.waiting.extend_from_slice(&self.note).is_ok() {
            self.put = self.put.with(&Piece::Note, &self.note);
        }
    }

    /// Puts the line behind what waits, with names in the place of its addresses, where its beginning hasn't gone through already.
    fn put_renamed(&mut self) -> Result<(), AllocError>
        ensures start { self.new.start ≡ self.old.start }
        ensures same { taken_with self.new.put.made self.new.line.items
            ≡ taken_with self.old.put.made self.old.line.items }
        ensures ok { OnOk result (self.new.line.items ≡ []) }
    {
        if self.is_begun || self.names.is_empty() {
            return self.put_line();
        }
        self.names
            .push_renamed(self.form, &self.line, &mut self.note)?;
        self.waiting.extend_from_slice(&self.note)?;
        let replaced = self.put.with(&Piece::Replaced, &self.line);
        self.put = replaced.with(&Piece::Note, &self.note);
        self.line.clear();
        Ok(())
    }

    /// Makes the note behind a line of a picture: the labels of a row, where it ends.
    fn make_labels(&mut self)
        ensures line { self.new.line ≡ self.old.line }
        ensures start { self.new.start ≡ self.old.start }
        ensures put { self.new.put.made ≡ self.old.put.made }
    {
        self.note.clear();
        if !self.names.is_empty() && matches!(self.form, Form::Picture) {
            self.labels.take(&mut self.note);
        }
    }

    /// Puts the line behind what waits, with names in the place of its addresses, and labels behind it.
    fn put_with_labels(&mut self) -> Result<(), AllocError>
        ensures start { self.new.start ≡ self.old.start }
        ensures same { taken_with self.new.put.made self.new.line.items
            ≡ taken_with self.old.put.made self.old.line.items }
        ensures ok { OnOk result (self.new.line.items ≡ []) }
    {
        if matches!(self.form, Form::Picture) {
            self.labels.watch(&self.names, &self.line);
        }
        self.put_renamed()?;
        self.make_labels();
        self.put_note();
        Ok(())
    }

    /// Puts the line behind what waits, and its note.
    fn put_with_note(&mut self) -> Result<(), AllocError>
        ensures start { self.new.start ≡ self.old.start }
        ensures same { taken_with self.new.put.made self.new.line.items
            ≡ taken_with self.old.put.made self.old.line.items }
        ensures ok { OnOk result (self.new.line.items ≡ []) }
    {
        self.make_note();
        self.put_line()?;
        self.put_note();
        Ok(())
    }

    /// Puts the line behind what waits, with its names, and its end.
    fn end_line(&mut self) -> Result<(), AllocError>
        ensures start { self.new.start ≡ self.old.start }
        ensures ok { OnOk result (taken_with self.new.put.made self.new.line.items
            ≡ taken_with self.old.put.made self.old.line.items ++ 10 ∷ []) }
        ensures err { OnErr result (taken_with self.new.put.made self.new.line.items
            ≡ taken_with self.old.put.made self.old.line.items) }
    {
        if matches!(self.form, Form::Notes) {
            self.put_with_note()?;
        } else {
            self.put_with_labels()?;
        }
        self.put_taken(b"\n")?;
        self.is_begun = false;
        Ok(())
    }

    /// Takes bytes of a line, as many as there is room for.
    fn hold(&mut self, bytes: &[u8]) -> Result<usize, AllocError>
        ensures start { self.new.start ≡ self.old.start }
        ensures bound { IfOk result (λ count. count ≤ length bytes.now) }
        ensures ok { IfOk result (λ count. taken_with self.new.put.made self.new.line.items
            ≡ taken_with self.old.put.made self.old.line.items ++ take count bytes.now) }
        ensures err { OnErr result (taken_with self.new.put.made self.new.line.items
            ≡ taken_with self.old.put.made self.old.line.items) }
    {
        if self.line.len() >= LINE_LIMIT {
            self.put_line()?;
        }
        let count = LINE_LIMIT.saturating_sub(self.line.len()).min(bytes.len());
        self.line.extend_from_slice(&bytes[..count])?;
        Ok(count)
    }

    /// Takes the end of a line, or bytes up to that, as many as there is room for.
    fn take_some(&mut self, bytes: &[u8]) -> Result<usize, AllocError>
        ensures start { self.new.start ≡ self.old.start }
        ensures bound { IfOk result (λ count. count ≤ length bytes.now) }
        ensures ok { IfOk result (λ count. taken_with self.new.put.made self.new.line.items
            ≡ taken_with self.old.put.made self.old.line.items ++ take count bytes.now) }
        ensures err { OnErr result (taken_with self.new.put.made self.new.line.items
            ≡ taken_with self.old.put.made self.old.line.items) }
    {
        match bytes.iter().position(|byte| *byte == b'\n') {
            Some(0) => {
                self.end_line()?;
                Ok(1)
            }
            Some(at) => self.hold(&bytes[..at]),
            None => self.hold(bytes),
        }
    }

    /// Hands bytes on as they are.
    fn hand_on(&mut self, bytes: &[u8]) -> io::Result<usize>
        ensures start { self.new.start ≡ self.old.start }
        ensures bound { IfOk result (λ count. count ≤ length bytes.now) }
        ensures ok { IfOk result (λ count. taken_with self.new.put.made self.new.line.items
            ≡ taken_with self.old.put.made self.old.line.items ++ take count bytes.now) }
        ensures err { OnErr result (taken_with self.new.put.made self.new.line.items
            ≡ taken_with self.old.put.made self.old.line.items) }
    {
        self.put_line()?;
        self.write_waiting()?;
        let count = self.inner.write(bytes)?;
        let (taken, _) = bytes.split_at(count);
        self.put = self.put.with(&Piece::Taken, taken);
        Ok(count)
    }
}

impl<W: Write> Write for NamedWriter<W> {
    ghost contents = { λ w. append_known (contents_at_first W.contents w.start.states)
        (taken_with w.put.made w.line.items) };

    #[tactic(auto, using(crate::proofs::PutLemmas::taken_more))]
    fn write(&mut self, buf: &[u8]) -> io::Result<usize> {
        if self.waiting.len() >= BATCH {
            self.write_waiting()?;
        }
        if self.names.is_empty() {
            let count = self.hand_on(buf)?;
            return Ok(count);
        }
        let count = self.take_some(buf)?;
        Ok(count)
    }

    fn flush(&mut self) -> io::Result<()> {
        self.put_line()?;
        self.write_waiting()?;
        self.inner.flush()
    }
}
