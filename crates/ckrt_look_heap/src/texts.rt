//! What was found, as text.
ghost use Rattle.std.specs.Prelude.{◌≡◌, ◌++◌, codes, OnOk};
ghost use Rattle.std.specs.Io.KnownBytes.{Appends};
ghost use Rattle.ckrt_look_heap.specs.Texts.{access_text, elsewhere, error_text, finding_line, given_text, none_text, place_text, untold_text, verb, what_text, where_text};

use crate::block::{Access, Cell, Deed};
use crate::finding::Finding;
use ckrt_look_calls::{write_counted, write_hex, write_number, write_stretch, write_times};
use std::io::{Result, Write};

/// Where something was done, and by whom.
#[tactic(auto, using(ckrt_look_calls::proofs::AppendLemmas::appends_both))]
fn write_place<W: Write>(out: &mut W, access: &Access) -> Result<()>
    ensures { OnOk result
        (Appends (W.contents out.old) (W.contents out.new) (place_text access.now)) }
{
    write_number(out, access.moment.place.event)?;
    write_counted(out, b"+", u64::from(access.moment.place.step))?;
    write_counted(out, b" thread ", u64::from(access.moment.thread))
}

/// What is done.
fn verb(deed: Deed) -> &'static [u8]
    ensures { result.now ≡ verb deed }
{
    match deed {
        Deed::Load => b" loads ".as_slice(),
        Deed::Store => b" stores ".as_slice(),
        Deed::Free => b" frees ".as_slice(),
    }
}

/// What is done where, and the instruction's address.
#[tactic(auto, using(ckrt_look_calls::proofs::AppendLemmas::appends_both))]
fn write_what<W: Write>(out: &mut W, access: &Access) -> Result<()>
    ensures { OnOk result
        (Appends (W.contents out.old) (W.contents out.new) (what_text access.now)) }
{
    out.write_all(verb(access.deed))?;
    write_hex(out, access.address)?;
    out.write_all(b" pc ")?;
    write_hex(out, access.pc)
}

/// Who does what where.
#[tactic(auto, using(ckrt_look_calls::proofs::AppendLemmas::appends_both))]
fn write_access<W: Write>(out: &mut W, access: &Access) -> Result<()>
    ensures { OnOk result
        (Appends (W.contents out.old) (W.contents out.new) (access_text access.now)) }
{
    write_place(out, access)?;
    write_what(out, access)
}

/// Where that is, beside the bytes of a block.
fn given_text(deed: Deed) -> &'static [u8]
    ensures { result.now ≡ given_text deed }
{
    match deed {
        Deed::Load | Deed::Store => b" beside a block, ".as_slice(),
        Deed::Free => b" inside a block, ".as_slice(),
    }
}

/// Where that is.
fn where_text(deed: Deed, cell: &Cell) -> &'static [u8]
    ensures { result.now ≡ where_text deed cell.now }
{
    match cell {
        Cell::Unknown | Cell::Unowned => b" in no block, ".as_slice(),
        Cell::Given(_) => given_text(deed),
        Cell::GivenBack(_, _) => b" in a block that was given back, ".as_slice(),
        Cell::Ended(_, _) => b" in a stack that has ended, ".as_slice(),
    }
}

/// What is wrong, and where it is.
#[tactic(auto, using(ckrt_look_calls::proofs::AppendLemmas::appends_both))]
fn write_wrong<W: Write>(out: &mut W, access: &Access, cell: &Cell) -> Result<()>
    ensures { OnOk result
        (Appends (W.contents out.old) (W.contents out.new)
        (access_text access.now ++ where_text access.now.deed cell.now)) }
{
    write_access(out, access)?;
    out.write_all(where_text(access.deed, cell))
}

/// Writes the first error at one place, and how often there was one. It takes no memory.
#[tactic(auto, using(ckrt_look_calls::proofs::AppendLemmas::appends_both))]
pub fn write_error<W: Write>(out: &mut W, finding: &Finding) -> Result<()>
    ensures { OnOk result
        (Appends (W.contents out.old) (W.contents out.new) (error_text finding.now)) }
{
    write_wrong(out, &finding.access, &finding.cell)?;
    write_times(out, finding.count)
}

/// The same as a line.
#[tactic(auto, using(ckrt_look_calls::proofs::AppendLemmas::appends_both))]
pub(crate) fn write_finding<W: Write>(out: &mut W, finding: &Finding) -> Result<()>
    ensures { OnOk result
        (Appends (W.contents out.old) (W.contents out.new) (finding_line finding.now)) }
{
    write_error(out, finding)?;
    out.write_all(b"\n")
}

/// Where there may be others.
fn elsewhere(begin: u64) -> &'static [u8]
    ensures { result.now ≡ elsewhere begin }
{
    match begin {
        0 => b" of this schedule; another one may have some\n".as_slice(),
        _ => b" of this schedule; blocks that were taken before these are not known\n".as_slice(),
    }
}

/// Where there were none.
#[tactic(auto, using(ckrt_look_calls::proofs::AppendLemmas::appends_both))]
pub(crate) fn write_none<W: Write>(out: &mut W, begin: u64, end: u64) -> Result<()>
    ensures { OnOk result
        (Appends (W.contents out.old) (W.contents out.new) (none_text begin end)) }
{
    write_stretch(out, b"no errors of memory in events ", begin, end)?;
    out.write_all(elsewhere(begin))
}

/// Where nothing was told of memory that is no block's.
#[tactic(auto, using(ckrt_look_calls::proofs::AppendLemmas::appends_both))]
pub(crate) fn write_untold<W: Write>(out: &mut W, begin: u64, end: u64) -> Result<()>
    ensures { OnOk result
        (Appends (W.contents out.old) (W.contents out.new) (untold_text begin end)) }
{
    write_stretch(out, b"events ", begin, end)?;
    out.write_all(
        b" don't tell which memory is no block's: no call of free, or an image of an older kit\n",
    )
}
