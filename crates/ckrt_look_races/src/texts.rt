//! What was found, as text.
ghost use Rattle.std.specs.Prelude.{◌≡◌, OnOk};
ghost use Rattle.std.specs.Io.KnownBytes.{Appends};
ghost use Rattle.ckrt_look_calls.specs.Rows.{others_line, others_text, stretch_text, times_text};
ghost use Rattle.ckrt_look_races.specs.Texts.{access_text, both_text, elsewhere, none_text, pair_line, place_text, verb, what_text};

use ckrt_look_calls::{write_counted, write_hex, write_number, write_stretch, write_times};
use ckrt_look_clocks::{Access, Pair};
use std::io::{Result, Write};

/// Where an access was made, and by whom.
#[tactic(auto, using(ckrt_look_calls::proofs::AppendLemmas::appends_both))]
fn write_place<W: Write>(out: &mut W, access: &Access) -> Result<()>
    ensures { OnOk result
        (Appends (W.contents out.old) (W.contents out.new) (place_text access.now)) }
{
    write_number(out, access.place.event)?;
    write_counted(out, b"+", u64::from(access.place.step))?;
    write_counted(out, b" thread ", u64::from(access.thread))
}

/// What an access does.
fn verb(access: &Access) -> &'static [u8]
    ensures { result.now ≡ verb access.now.is_store access.now.is_atomic }
{
    match (access.is_store, access.is_atomic) {
        (true, false) => b" stores ".as_slice(),
        (true, true) => b" stores atomically ".as_slice(),
        (false, false) => b" loads ".as_slice(),
        (false, true) => b" loads atomically ".as_slice(),
    }
}

/// What an access does where, and the instruction's address.
#[tactic(auto, using(ckrt_look_calls::proofs::AppendLemmas::appends_both))]
fn write_what<W: Write>(out: &mut W, access: &Access) -> Result<()>
    ensures { OnOk result
        (Appends (W.contents out.old) (W.contents out.new) (what_text access.now)) }
{
    out.write_all(verb(access))?;
    write_hex(out, access.address)?;
    out.write_all(b" pc ")?;
    write_hex(out, access.pc)
}

/// An access.
#[tactic(auto, using(ckrt_look_calls::proofs::AppendLemmas::appends_both))]
fn write_access<W: Write>(out: &mut W, access: &Access) -> Result<()>
    ensures { OnOk result
        (Appends (W.contents out.old) (W.contents out.new) (access_text access.now)) }
{
    write_place(out, access)?;
    write_what(out, access)
}

/// Writes the two accesses of a pair. It takes no memory.
#[tactic(auto, using(ckrt_look_calls::proofs::AppendLemmas::appends_both))]
pub fn write_both<W: Write>(out: &mut W, pair: &Pair) -> Result<()>
    ensures { OnOk result
        (Appends (W.contents out.old) (W.contents out.new) (both_text pair.now)) }
{
    write_access(out, &pair.first)?;
    out.write_all(b", ")?;
    write_access(out, &pair.second)
}

/// A pair of places.
#[tactic(auto, using(ckrt_look_calls::proofs::AppendLemmas::appends_both))]
pub(crate) fn write_pair<W: Write>(out: &mut W, pair: &Pair) -> Result<()>
    ensures { OnOk result
        (Appends (W.contents out.old) (W.contents out.new) (pair_line pair.now)) }
{
    write_both(out, pair)?;
    out.write_all(b", ")?;
    write_times(out, pair.count)?;
    out.write_all(b"\n")
}

/// Where there may be others.
fn elsewhere(begin: u64) -> &'static [u8]
    ensures { result.now ≡ elsewhere begin }
{
    match begin {
        0 => b"another one may have some\n".as_slice(),
        _ => {
            b"events before these were not looked at, and another schedule may have some\n".as_slice()
        }
    }
}

/// Where there were none.
#[tactic(auto, using(ckrt_look_calls::proofs::AppendLemmas::appends_both))]
pub(crate) fn write_none<W: Write>(out: &mut W, begin: u64, end: u64) -> Result<()>
    ensures { OnOk result
        (Appends (W.contents out.old) (W.contents out.new) (none_text begin end)) }
{
    write_stretch(out, b"no races in events ", begin, end)?;
    out.write_all(b" of this schedule; ")?;
    out.write_all(elsewhere(begin))
}
