//! A profile in callgrind's format.
ghost use Rattle.std.specs.Prelude.{◌≡◌, OnOk};
ghost use Rattle.std.specs.Io.KnownBytes.{Appends};
ghost use Rattle.ckrt_look_profile.specs.Callgrind.{call_text, called_text, caller_at, caller_text, callgrind_text, cost_text, is_on, own_text, rest_text, row_text, rows_text, stacks_text, start_text, whole, with_row};

use crate::counts::Counts;
use crate::row::{Base, Row};
use crate::shares::total_of;
use ckrt_look_calls::{write_counted, write_hex, write_number};
use std::io::{Result, Write};

/// Whether a row is one of a base, of which so many calls are on the way at most.
fn is_on(rows: &[Row], most: usize, row: usize, base: Base) -> bool
    ensures { result ≡ is_on rows.now most row base }
{
    match base {
        Base::Thread(_) => false,
        Base::Row(other) => {
            if other == row {
                return true;
            }
            if most == 0 || other >= rows.len() {
                return false;
            }
            is_on(rows, most - 1, row, rows[other].base)
        }
    }
}

/// Steps of a row, with those of another one if that stands on it.
fn with_row(rows: &[Row], row: usize, place: usize, other: &Row, steps: u64) -> u64
    ensures { result ≡ with_row rows.now row place other.now steps }
{
    if is_on(rows, rows.len(), row, Base::Row(place)) {
        return steps.saturating_add(other.steps);
    }
    steps
}

/// The steps of a row, and of all rows that stand on it.
#[tactic(auto, using(crate::proofs::CallgrindLemmas::whole_next, crate::proofs::CallgrindLemmas::whole_all))]
fn whole(rows: &[Row], row: usize) -> u64
    ensures { result ≡ whole rows.now row }
{
    let mut steps = 0;
    for place in 0..rows.len() {
        steps = with_row(rows, row, place, &rows[place], steps);
    }
    steps
}

/// A stack's own steps.
#[tactic(auto, using(ckrt_look_calls::proofs::AppendLemmas::appends_both))]
fn write_own<W: Write>(out: &mut W, row: &Row) -> Result<()>
    ensures { OnOk result
        (Appends (W.contents out.old) (W.contents out.new) (own_text row.now)) }
{
    out.write_all(b"fn=")?;
    write_hex(out, row.entry)?;
    out.write_all(b"\n0x")?;
    write_hex(out, row.entry)?;
    write_counted(out, b" ", row.steps)?;
    out.write_all(b"\n")
}

/// The address of who calls.
fn caller_at(rows: &[Row], base: Base) -> u32
    ensures { result ≡ caller_at rows.now base }
{
    match base {
        Base::Row(row) if row < rows.len() => rows[row].entry,
        _ => 0,
    }
}

/// Who calls.
#[tactic(auto, using(ckrt_look_calls::proofs::AppendLemmas::appends_both))]
fn write_caller<W: Write>(out: &mut W, rows: &[Row], base: Base) -> Result<()>
    ensures { OnOk result
        (Appends (W.contents out.old) (W.contents out.new) (caller_text rows.now base)) }
{
    match base {
        Base::Thread(thread) => write_counted(out, b"fn=thread ", u64::from(thread)),
        Base::Row(_) => {
            out.write_all(b"fn=")?;
            write_hex(out, caller_at(rows, base))
        }
    }
}

/// What is called, and how often.
#[tactic(auto, using(ckrt_look_calls::proofs::AppendLemmas::appends_both))]
fn write_called<W: Write>(out: &mut W, row: &Row) -> Result<()>
    ensures { OnOk result
        (Appends (W.contents out.old) (W.contents out.new) (called_text row.now)) }
{
    out.write_all(b"\ncfn=")?;
    write_hex(out, row.entry)?;
    write_counted(out, b"\ncalls=", row.calls)?;
    out.write_all(b" 0x")?;
    write_hex(out, row.entry)
}

/// What a call cost that was made at an address.
#[tactic(auto, using(ckrt_look_calls::proofs::AppendLemmas::appends_both))]
fn write_cost<W: Write>(out: &mut W, address: u32, steps: u64) -> Result<()>
    ensures { OnOk result
        (Appends (W.contents out.old) (W.contents out.new) (cost_text address steps)) }
{
    out.write_all(b"\n0x")?;
    write_hex(out, address)?;
    write_counted(out, b" ", steps)?;
    out.write_all(b"\n")
}

/// A call that cost so many steps in all.
#[tactic(auto, using(ckrt_look_calls::proofs::AppendLemmas::appends_both))]
fn write_call<W: Write>(out: &mut W, rows: &[Row], steps: u64, row: &Row) -> Result<()>
    ensures { OnOk result
        (Appends (W.contents out.old) (W.contents out.new) (call_text rows.now steps row.now)) }
{
    write_caller(out, rows, row.base)?;
    write_called(out, row)?;
    write_cost(out, caller_at(rows, row.base), steps)
}

/// The row of a number.
#[tactic(auto, using(ckrt_look_calls::proofs::AppendLemmas::appends_both))]
fn write_row<W: Write>(out: &mut W, rows: &[Row], place: usize, row: &Row) -> Result<()>
    ensures { OnOk result
        (Appends (W.contents out.old) (W.contents out.new) (row_text rows.now place row.now)) }
{
    write_own(out, row)?;
    write_call(out, rows, whole(rows, place), row)
}

/// All rows.
fn write_rows<W: Write>(out: &mut W, rows: &[Row]) -> Result<()>
    ensures { OnOk result
        (Appends (W.contents out.old) (W.contents out.new) (rows_text rows.now 0 rows.now)) }
{
    let mut place: usize = 0;
    for row in rows {
        write_row(out, rows, place, row)?;
        place += 1;
    }
    Ok(())
}

/// The first lines.
#[tactic(auto, using(ckrt_look_calls::proofs::AppendLemmas::appends_both))]
fn write_start<W: Write>(out: &mut W, all: u64) -> Result<()>
    ensures { OnOk result
        (Appends (W.contents out.old) (W.contents out.new) (start_text all)) }
{
    out.write_all(
        b"# callgrind format\nversion: 1\ncreator: ckrt\npositions: instr\nevents: Steps\nsummary: ",
    )?;
    write_number(out, all)?;
    out.write_all(b"\n\nfl=???\n")
}

/// Steps on stacks for which no row was left.
#[tactic(auto, using(ckrt_look_calls::proofs::AppendLemmas::appends_both, ckrt_look_calls::proofs::AppendLemmas::appends_none))]
fn write_rest<W: Write>(out: &mut W, steps: u64) -> Result<()>
    ensures { OnOk result
        (Appends (W.contents out.old) (W.contents out.new) (rest_text steps)) }
{
    if steps == 0 {
        return Ok(());
    }
    write_counted(out, b"fn=others\n0x0 ", steps)?;
    out.write_all(b"\n")
}

/// All stacks, with so many steps in all, and so many on stacks without a row.
#[tactic(auto, using(ckrt_look_calls::proofs::AppendLemmas::appends_both))]
fn write_stacks<W: Write>(out: &mut W, all: u64, rows: &[Row], unkept: u64) -> Result<()>
    ensures { OnOk result
        (Appends (W.contents out.old) (W.contents out.new) (stacks_text all rows.now unkept)) }
{
    write_start(out, all)?;
    write_rows(out, rows)?;
    write_rest(out, unkept)
}

/// What was counted, in callgrind's format.
pub(crate) fn write_callgrind<W: Write>(out: &mut W, counts: &Counts) -> Result<()>
    ensures { OnOk result
        (Appends (W.contents out.old) (W.contents out.new) (callgrind_text counts.now)) }
{
    let all = total_of(counts.frames());
    write_stacks(out, all, counts.rows(), counts.unkept())
}
