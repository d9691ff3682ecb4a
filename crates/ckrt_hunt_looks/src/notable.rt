//! What looks find in the runs of a hunt.
ghost use Rattle.std.specs.Prelude.{◌≡◌, OnOk};
ghost use Rattle.std.specs.Io.KnownBytes.{Appends};

use std::io::{Result, Write};

/// What a look finds in a run, and a hunt counts by its place in the program.
pub trait Notable: Copy + Drop {
    ghost use Rattle.ckrt_hunt_looks.specs.Rows.{Kind};

    /// Which of these are at one place, and what is written of them.
    ghost kind: { Kind Self };

    /// Whether it is at the place of one that is known.
    fn is_at(&self, known: &Self) -> bool
        ensures { result ≡ kind.is_at self.now known.now };

    /// The words before the number of a row.
    fn name() -> &'static [u8]
        ensures { result.now ≡ kind.name };

    /// The words before the number of runs that had others.
    fn others() -> &'static [u8]
        ensures { result.now ≡ kind.others };

    /// The words before the number of runs of which none had one.
    fn none() -> &'static [u8]
        ensures { result.now ≡ kind.none };

    /// Writes it, up to the end of its line. It takes no memory.
    fn write_line<W: Write>(&self, out: &mut W) -> Result<()>
        ensures { OnOk result
            (Appends (W.contents out.old) (W.contents out.new) (kind.text self.now)) };
}
