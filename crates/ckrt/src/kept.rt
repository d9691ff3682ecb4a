//! What is told of a run that a hunt has kept, behind the line that says so: how it ended, as the last line of its drive would have it.
ghost use Rattle.std.specs.Prelude.{◌≡◌};

use crate::threads::note_of_end;
use ckrt_cli_files::OutputReason;
use ckrt_cli_names::{NamedWriter, Names};
use std::cell::Cell;
use std::io::{self, Write};

/// How the line of a kept run begins.
const KEPT: &[u8] = b"kept: the run of seed ";

/// What stands before the path of its disk, and behind that.
const ON: &[u8] = b" on ";

const BEHIND: &[u8] = b", switches: ";

/// A writer with names, for what a hunt prints.
#[derive(Drop)]
pub struct KeptWriter<'a, W: Write> {
    rt: &'a HostRuntime,
    why: &'a Cell<OutputReason>,
    /// The names of its image; none where nothing is to be told.
    names: Names,
    inner: NamedWriter<W>,
}

/// Where a text begins in another one, the last time.
fn last_place(text: &[u8], key: &[u8]) -> Option<usize> {
    for back in 0..=text.len() {
        let at = text.len().saturating_sub(back);
        if text.get(at..)?.starts_with(key) {
            return Some(at);
        }
    }
    None
}

/// Where a text begins in another one, the first time.
fn first_place(text: &[u8], key: &[u8]) -> Option<usize> {
    (0..text.len()).find(|at| text.get(*at..).is_some_and(|rest| rest.starts_with(key)))
}

/// The path of the disk that this line says a run is kept on.
fn kept_path(line: &[u8]) -> Option<&str> {
    let rest = line.strip_prefix(KEPT)?;
    let begin = first_place(rest, ON)?.saturating_add(ON.len());
    let path = rest.get(begin..last_place(rest, BEHIND)?)?;
    str::from_utf8(path).ok()
}

impl<'a, W: Write> KeptWriter<'a, W> {
    /// One over a writer with names, with these once more.
    pub fn new(
        rt: &'a HostRuntime,
        why: &'a Cell<OutputReason>,
        names: Names,
        inner: NamedWriter<W>,
    ) -> KeptWriter<'a, W> {
        KeptWriter {
            rt,
            why,
            names,
            inner,
        }
    }

    /// Tells of the run of the line that ends now, where that is of one.
    fn tell_kept(&mut self)
        ensures { ⟦<KeptWriter<'a, W> as Write>⟧.contents self.new
            ≡ ⟦<KeptWriter<'a, W> as Write>⟧.contents self.old }
    {
        if !self.names.have_rules() {
            return;
        }
        let Some(path) = kept_path(self.inner.line()) else {
            return;
        };
        let note = note_of_end(self.rt, self.why, path, &mut self.names);
        self.inner.tell_elsewhere(note);
    }
}

impl<'a, W: Write> Write for KeptWriter<'a, W> {
    ghost contents = { λ kept. ⟦<NamedWriter<W> as Write>⟧.contents kept.inner };

    fn write(&mut self, buf: &[u8]) -> io::Result<usize> {
        if buf.first() == Some(&b'\n') {
            self.tell_kept();
        }
        self.inner.write(buf)
    }

    fn flush(&mut self) -> io::Result<()> {
        self.inner.flush()
    }
}
