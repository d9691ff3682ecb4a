//! What was found, as text.
ghost use Rattle.std.specs.Prelude.{◌≡◌, ◌++◌, codes, OnOk};
ghost use Rattle.std.specs.Io.KnownBytes.{Appends};
ghost use Rattle.ckrt_look_values.specs.Texts.{done_text, finding_line, from_text, place_text, reason_text, use_text, verb, what_text};

use crate::finding::Finding;
use crate::value::{Deed, Use};
use ckrt_look_calls::{write_counted, write_hex, write_number, write_times};
use std::io::{Result, Write};

/// Where something was done, and by whom.
#[tactic(auto, using(ckrt_look_calls::proofs::AppendLemmas::appends_both))]
fn write_place<W: Write>(out: &mut W, it: &Use) -> Result<()>
    ensures { OnOk result
        (Appends (W.contents out.old) (W.contents out.new) (place_text it.now)) }
{
    write_number(out, it.moment.place.event)?;
    write_counted(out, b"+", u64::from(it.moment.place.step))?;
    write_counted(out, b" thread ", u64::from(it.moment.thread))
}

/// What is done.
fn verb(deed: Deed) -> &'static [u8]
    ensures { result.now ≡ verb deed }
{
    match deed {
        Deed::Branch => b" branches pc ".as_slice(),
        Deed::Load => b" loads pc ".as_slice(),
        Deed::Store => b" stores pc ".as_slice(),
        Deed::Jump => b" jumps pc ".as_slice(),
        Deed::Call => b" calls pc ".as_slice(),
    }
}

/// What is done where.
#[tactic(auto, using(ckrt_look_calls::proofs::AppendLemmas::appends_both))]
fn write_done<W: Write>(out: &mut W, it: &Use) -> Result<()>
    ensures { OnOk result
        (Appends (W.contents out.old) (W.contents out.new) (done_text it.now)) }
{
    out.write_all(verb(it.deed))?;
    write_hex(out, it.pc)
}

/// With what it is done.
fn reason_text() -> &'static [u8]
    ensures { result.now ≡ reason_text }
{
    b" by a value that was never stored, ".as_slice()
}

/// What is done where, and with what.
#[tactic(auto, using(ckrt_look_calls::proofs::AppendLemmas::appends_both))]
fn write_what<W: Write>(out: &mut W, it: &Use) -> Result<()>
    ensures { OnOk result
        (Appends (W.contents out.old) (W.contents out.new) (what_text it.now)) }
{
    write_done(out, it)?;
    out.write_all(reason_text())
}

/// Who does what where.
#[tactic(auto, using(ckrt_look_calls::proofs::AppendLemmas::appends_both))]
fn write_use<W: Write>(out: &mut W, it: &Use) -> Result<()>
    ensures { OnOk result
        (Appends (W.contents out.old) (W.contents out.new) (use_text it.now)) }
{
    write_place(out, it)?;
    write_what(out, it)
}

/// The uses at one place, as a line.
#[tactic(auto, using(ckrt_look_calls::proofs::AppendLemmas::appends_both))]
pub(crate) fn write_finding<W: Write>(out: &mut W, finding: &Finding) -> Result<()>
    ensures { OnOk result
        (Appends (W.contents out.old) (W.contents out.new) (finding_line finding.now)) }
{
    write_use(out, &finding.first)?;
    write_times(out, finding.count)?;
    out.write_all(b"\n")
}

/// Whose memory it was.
pub(crate) fn from_text(is_block: bool) -> &'static [u8]
    ensures { result.now ≡ from_text is_block }
{
    match is_block {
        true => b"    in a block that was taken at ".as_slice(),
        false => b"    in a frame that was made at ".as_slice(),
    }
}
