//! The moment at which something was done, and lines that tell of it.
ghost use Rattle.std.specs.Prelude.{◌≡◌, ◌++◌, OnOk};
ghost use Rattle.std.specs.Io.KnownBytes.{Appends};
ghost use Rattle.ckrt_inspect.specs.Texts.{hex_text};
ghost use Rattle.ckrt_look_calls.specs.Moments.{block_text, by_text, moment_line, moment_text, position_text, taken_line};

use crate::lines::Place;
use crate::texts::{write_counted, write_hex};
use std::io::{Result, Write};

/// Who did something, and where: a thread that is about to make a step.
#[derive(Clone, Copy, Debug, Drop)]
pub struct Moment {
    /// So many events are done, and so many steps of the next one.
    pub place: Place,
    /// The thread's number.
    pub thread: u8,
}

/// Writes a place behind a word.
#[tactic(auto, using(crate::proofs::AppendLemmas::appends_both))]
pub fn write_position<W: Write>(out: &mut W, word: &[u8], place: Place) -> Result<()>
    ensures { OnOk result
        (Appends (W.contents out.old) (W.contents out.new) (position_text word.now place)) }
{
    write_counted(out, word, place.event)?;
    write_counted(out, b"+", u64::from(place.step))
}

/// Writes which thread, and where.
#[tactic(auto, using(crate::proofs::AppendLemmas::appends_both))]
pub fn write_moment<W: Write>(out: &mut W, moment: &Moment) -> Result<()>
    ensures { OnOk result
        (Appends (W.contents out.old) (W.contents out.new) (moment_text moment.now)) }
{
    write_position(out, b"    ", moment.place)?;
    write_counted(out, b" thread ", u64::from(moment.thread))
}

/// Writes a word, and an address behind it.
#[tactic(auto, using(crate::proofs::AppendLemmas::appends_both))]
pub fn write_address<W: Write>(out: &mut W, word: &[u8], address: u32) -> Result<()>
    ensures { OnOk result
        (Appends (W.contents out.old) (W.contents out.new) (word.now ++ hex_text address)) }
{
    out.write_all(word)?;
    write_hex(out, address)
}

/// Writes a line that tells an address.
#[tactic(auto, using(crate::proofs::AppendLemmas::appends_both))]
pub fn write_moment_line<W: Write>(
    out: &mut W,
    moment: &Moment,
    word: &[u8],
    address: u32,
    tail: &[u8],
) -> Result<()>
    ensures { OnOk result
        (Appends (W.contents out.old) (W.contents out.new)
        (moment_line moment.now word.now address tail.now)) }
{
    write_moment(out, moment)?;
    write_address(out, word, address)?;
    out.write_all(tail)
}

/// Writes who did something, and where, behind a word.
#[tactic(auto, using(crate::proofs::AppendLemmas::appends_both))]
pub fn write_by<W: Write>(out: &mut W, word: &[u8], moment: &Moment) -> Result<()>
    ensures { OnOk result
        (Appends (W.contents out.old) (W.contents out.new) (by_text word.now moment.now)) }
{
    write_position(out, word, moment.place)?;
    write_counted(out, b" by thread ", u64::from(moment.thread))
}

/// How many bytes of memory from where on.
#[tactic(auto, using(crate::proofs::AppendLemmas::appends_both))]
fn write_block<W: Write>(out: &mut W, address: u32, bytes: u64) -> Result<()>
    ensures { OnOk result
        (Appends (W.contents out.old) (W.contents out.new) (block_text address bytes)) }
{
    write_counted(out, b"    in a block of ", bytes)?;
    write_address(out, b" bytes from ", address)
}

/// Writes the line of a block of so many bytes, and of when and by whom it was taken.
#[tactic(auto, using(crate::proofs::AppendLemmas::appends_both))]
pub fn write_taken_line<W: Write>(
    out: &mut W,
    address: u32,
    bytes: u64,
    moment: &Moment,
) -> Result<()>
    ensures { OnOk result
        (Appends (W.contents out.old) (W.contents out.new)
        (taken_line address bytes moment.now)) }
{
    write_block(out, address, bytes)?;
    write_by(out, b" on, taken at ", moment)?;
    out.write_all(b"\n")
}
