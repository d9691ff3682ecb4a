//! The folded stacks of a profile.
ghost use Rattle.std.specs.Prelude.{◌≡◌, slice_get, OnOk};
ghost use Rattle.std.specs.List.{flat_map};
ghost use Rattle.std.specs.Io.KnownBytes.{Appends};
ghost use Rattle.ckrt_look_profile.specs.Texts.{base_text, entry_text, folded_of, folded_text, others_line, row_line, stack_line};

use crate::counts::Counts;
use crate::row::{Base, Row};
use ckrt_look_calls::{write_counted, write_hex};
use std::io::{Result, Write};

/// A frame of a function.
#[tactic(auto, using(ckrt_look_calls::proofs::AppendLemmas::appends_both))]
fn write_entry<W: Write>(out: &mut W, entry: u32) -> Result<()>
    ensures { OnOk result
        (Appends (W.contents out.old) (W.contents out.new) (entry_text entry)) }
{
    out.write_all(b";")?;
    write_hex(out, entry)
}

/// The row of this number, if there is one.
fn row_of(rows: &[Row], row: usize) -> Option<Row>
    ensures { result ≡ slice_get rows.now row }
{
    rows.get(row).copied()
}

/// The frames of a base, of which so many calls are on the way at most.
#[tactic(auto, using(ckrt_look_calls::proofs::AppendLemmas::appends_both, ckrt_look_calls::proofs::AppendLemmas::appends_none))]
fn write_base<W: Write>(out: &mut W, rows: &[Row], most: usize, base: Base) -> Result<()>
    ensures { OnOk result
        (Appends (W.contents out.old) (W.contents out.new) (base_text rows.now most base)) }
{
    match base {
        Base::Thread(thread) => write_counted(out, b"thread ", u64::from(thread)),
        Base::Row(row) => {
            let Some(below) = row_of(rows, row) else {
                return Ok(());
            };
            if most == 0 {
                return Ok(());
            }
            write_base(out, rows, most - 1, below.base)?;
            write_entry(out, below.entry)
        }
    }
}

/// The line of a stack.
#[tactic(auto, using(ckrt_look_calls::proofs::AppendLemmas::appends_both))]
fn write_stack<W: Write>(out: &mut W, rows: &[Row], row: &Row) -> Result<()>
    ensures { OnOk result
        (Appends (W.contents out.old) (W.contents out.new) (stack_line rows.now row.now)) }
{
    write_base(out, rows, rows.len(), row.base)?;
    write_entry(out, row.entry)?;
    write_counted(out, b" ", row.steps)?;
    out.write_all(b"\n")
}

/// The line of a stack, if steps were made on it.
#[tactic(auto, using(ckrt_look_calls::proofs::AppendLemmas::appends_none))]
fn write_row<W: Write>(out: &mut W, rows: &[Row], row: &Row) -> Result<()>
    ensures { OnOk result
        (Appends (W.contents out.old) (W.contents out.new) (row_line rows.now row.now)) }
{
    if row.steps == 0 {
        return Ok(());
    }
    write_stack(out, rows, row)
}

/// The lines of all stacks.
#[tactic(auto, using(ckrt_look_calls::proofs::AppendLemmas::appends_none, ckrt_look_calls::proofs::AppendLemmas::appends_more, ckrt_look_calls::proofs::AppendLemmas::appends_all))]
fn write_rows<W: Write>(out: &mut W, rows: &[Row]) -> Result<()>
    ensures { OnOk result
        (Appends (W.contents out.old) (W.contents out.new)
        (flat_map (row_line rows.now) rows.now)) }
{
    for row in rows {
        write_row(out, rows, row)?;
    }
    Ok(())
}

/// The steps on stacks for which no row was left.
#[tactic(auto, using(ckrt_look_calls::proofs::AppendLemmas::appends_both, ckrt_look_calls::proofs::AppendLemmas::appends_none))]
fn write_others<W: Write>(out: &mut W, steps: u64) -> Result<()>
    ensures { OnOk result
        (Appends (W.contents out.old) (W.contents out.new) (others_line steps)) }
{
    if steps == 0 {
        return Ok(());
    }
    write_counted(out, b"others ", steps)?;
    out.write_all(b"\n")
}

/// A line for each stack on which steps were made, and one for those without a row.
#[tactic(auto, using(ckrt_look_calls::proofs::AppendLemmas::appends_both))]
fn write_stacks<W: Write>(out: &mut W, rows: &[Row], unkept: u64) -> Result<()>
    ensures { OnOk result
        (Appends (W.contents out.old) (W.contents out.new) (folded_of rows.now unkept)) }
{
    write_rows(out, rows)?;
    write_others(out, unkept)
}

/// What was counted, as folded stacks.
pub(crate) fn write_folded<W: Write>(out: &mut W, counts: &Counts) -> Result<()>
    ensures { OnOk result
        (Appends (W.contents out.old) (W.contents out.new) (folded_text counts.now)) }
{
    write_stacks(out, counts.rows(), counts.unkept())
}
