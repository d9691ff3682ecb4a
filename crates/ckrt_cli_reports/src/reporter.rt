//! Where the program says what went wrong.
ghost use Rattle.std.specs.Prelude.{◌≡◌, ℕ, Bool, true, false, List, Option, OnOk, OnErr};
ghost use Rattle.std.specs.Io.KnownBytes.{Appends};

use std::io::Write;

/// Something couldn't be said.
#[derive(Clone, Copy, Debug, PartialEq, Eq)]
pub struct Unsaid;

/// Where the program says what went wrong. It has failed once something couldn't be said.
pub trait Reporter {
    /// What was said, where it is known.
    ghost said: { Self → Option (List ℕ) };

    /// Whether something couldn't be said.
    ghost has_failed: { Self → Bool };

    /// Says a text.
    fn say(&mut self, text: &[u8]) -> Result<(), Unsaid>
        ensures said { OnOk result (Appends (said self.old) (said self.new) text.now) }
        ensures well { OnOk result (has_failed self.new ≡ has_failed self.old) }
        ensures failed { OnErr result (has_failed self.new ≡ true) };
}

/// The reporter that is a writer, which is flushed after each text.
#[derive(Drop)]
pub struct WrittenReport<W> {
    writer: W,
    has_failed: bool,
}

impl<W: Write> WrittenReport<W> {
    /// A reporter over a writer.
    pub fn new(writer: W) -> WrittenReport<W>
        ensures said { ⟦<WrittenReport<W> as Reporter>⟧.said result ≡ W.contents writer }
        ensures well { ⟦<WrittenReport<W> as Reporter>⟧.has_failed result ≡ false }
    {
        WrittenReport {
            writer,
            has_failed: false,
        }
    }

    /// The writer, with what was said.
    pub fn into_writer(self) -> W
        ensures said { W.contents result ≡ ⟦<WrittenReport<W> as Reporter>⟧.said self }
    {
        self.writer
    }
}

impl<W: Write> Reporter for WrittenReport<W> {
    ghost said = { λ r. W.contents r.writer };

    ghost has_failed = { λ r. r.has_failed };

    fn say(&mut self, text: &[u8]) -> Result<(), Unsaid> {
        if self.writer.write_all(text).is_err() || self.writer.flush().is_err() {
            self.has_failed = true;
            return Err(Unsaid);
        }
        Ok(())
    }
}
