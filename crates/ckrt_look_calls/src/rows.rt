//! What is told beside the rows of what was found.
ghost use Rattle.std.specs.Prelude.{◌≡◌, OnOk};
ghost use Rattle.std.specs.Io.KnownBytes.{Appends};
ghost use Rattle.ckrt_look_calls.specs.Rows.{others_line, others_text, stretch_text, times_text};

use crate::texts::{write_counted, write_number};
use std::io::{Result, Write};

/// Writes how often something was done: `once`, or `3 times`. It takes no memory.
#[tactic(auto, using(crate::proofs::AppendLemmas::appends_both))]
pub fn write_times<W: Write>(out: &mut W, times: u64) -> Result<()>
    ensures { OnOk result
        (Appends (W.contents out.old) (W.contents out.new) (times_text times)) }
{
    if times == 1 {
        return out.write_all(b"once");
    }
    write_number(out, times)?;
    out.write_all(b" times")
}

/// How often there was something at places for which no row was left.
#[tactic(auto, using(crate::proofs::AppendLemmas::appends_both))]
fn write_others<W: Write>(out: &mut W, others: u64) -> Result<()>
    ensures { OnOk result
        (Appends (W.contents out.old) (W.contents out.new) (others_text others)) }
{
    out.write_all(b"and ")?;
    write_times(out, others)?;
    out.write_all(b" at other places\n")
}

/// Writes the same as a line, if there was something.
#[tactic(auto, using(crate::proofs::AppendLemmas::appends_none))]
pub fn write_others_line<W: Write>(out: &mut W, others: u64) -> Result<()>
    ensures { OnOk result
        (Appends (W.contents out.old) (W.contents out.new) (others_line others)) }
{
    match others {
        0 => Ok(()),
        _ => write_others(out, others),
    }
}

/// Writes where it was looked, behind a word: from behind so many events up to behind so many.
#[tactic(auto, using(crate::proofs::AppendLemmas::appends_both))]
pub fn write_stretch<W: Write>(out: &mut W, word: &[u8], begin: u64, end: u64) -> Result<()>
    ensures { OnOk result
        (Appends (W.contents out.old) (W.contents out.new) (stretch_text word.now begin end)) }
{
    write_counted(out, word, begin)?;
    write_counted(out, b" to ", end)
}
