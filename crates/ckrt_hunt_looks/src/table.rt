//! What looks found in a hunt's runs, as lines after its table.
ghost use Rattle.std.specs.Prelude.{◌≡◌, ◌+◌, ◌++◌, ◌∷◌, [], codes, decimal, length, OnOk};
ghost use Rattle.std.specs.Io.KnownBytes.{Appends};
ghost use Rattle.ckrt_hunt_looks.specs.FoundTable.{errors_text, found_text, head_text, known_others_line, none_line, others_line, races_text, row_text, rows_text, some_text};
ghost use Rattle.ckrt_hunt_looks.specs.Rows.{rows_in};

use crate::notable::Notable;
use crate::row::FoundRow;
use crate::rows::FoundRows;
use crate::tally::RaceTally;
use ckrt_hunt_schedules::{Asked, write_command_line, write_counted, write_runs};
use ckrt_look_heap::Finding;
use std::io::{Result, Write};

/// In how many runs it was found, and by which seed first.
#[tactic(auto, using(ckrt_hunt_schedules::proofs::AppendLemmas::appends_both))]
fn write_head<W: Write, F: Notable>(
    out: &mut W,
    asked: &Asked<'_>,
    number: u64,
    row: &FoundRow<F>,
) -> Result<()>
    ensures { OnOk result (Appends (W.contents out.old) (W.contents out.new)
        (head_text F.kind asked.now number row.now)) }
{
    write_counted(out, F::name(), number)?;
    write_counted(out, b": ", row.count)?;
    write_runs(out, asked)?;
    write_counted(out, b", first by seed ", row.first)?;
    out.write_all(b": ")
}

/// The two lines of a row.
#[tactic(auto, using(ckrt_hunt_schedules::proofs::AppendLemmas::appends_both))]
fn write_row<W: Write, F: Notable>(
    out: &mut W,
    asked: &Asked<'_>,
    number: u64,
    row: &FoundRow<F>,
) -> Result<()>
    ensures { OnOk result (Appends (W.contents out.old) (W.contents out.new)
        (row_text F.kind asked.now number row.now)) }
{
    write_head(out, asked, number, row)?;
    row.found.write_line(out)?;
    write_command_line(out, asked, row.first)
}

/// The lines of all rows.
fn write_rows<W: Write, F: Notable>(
    out: &mut W,
    asked: &Asked<'_>,
    rows: &[FoundRow<F>],
) -> Result<()>
    ensures { OnOk result (Appends (W.contents out.old) (W.contents out.new)
        (rows_text F.kind asked.now rows.now (length rows.now))) }
{
    for place in 0..rows.len() {
        write_row(out, asked, place as u64 + 1, &rows[place])?;
    }
    Ok(())
}

/// The line of the runs that had some without a row.
#[tactic(auto, using(ckrt_hunt_schedules::proofs::AppendLemmas::appends_both))]
fn write_known_others<W: Write, F: Notable>(
    out: &mut W,
    asked: &Asked<'_>,
    rows: &FoundRows<F>,
) -> Result<()>
    ensures { OnOk result (Appends (W.contents out.old) (W.contents out.new)
        (known_others_line F.kind asked.now rows.now.others)) }
{
    write_counted(out, F::others(), rows.others())?;
    write_runs(out, asked)?;
    out.write_all(b"\n")
}

/// The same, if there are any.
#[tactic(auto, using(ckrt_hunt_schedules::proofs::AppendLemmas::appends_none))]
fn write_others<W: Write, F: Notable>(
    out: &mut W,
    asked: &Asked<'_>,
    rows: &FoundRows<F>,
) -> Result<()>
    ensures { OnOk result (Appends (W.contents out.old) (W.contents out.new)
        (others_line F.kind asked.now rows.now.others)) }
{
    if rows.others() == 0 {
        Ok(())
    } else {
        write_known_others(out, asked, rows)
    }
}

/// The line of a hunt that found none.
#[tactic(auto, using(ckrt_hunt_schedules::proofs::AppendLemmas::appends_both))]
fn write_none<W: Write, F: Notable>(out: &mut W, asked: &Asked<'_>) -> Result<()>
    ensures { OnOk result (Appends (W.contents out.old) (W.contents out.new)
        (none_line F.kind asked.now)) }
{
    write_counted(out, F::none(), asked.seeds.count())?;
    out.write_all(b" runs; other schedules may have some\n")
}

/// The rows, and what has none.
#[tactic(auto, using(ckrt_hunt_schedules::proofs::AppendLemmas::appends_both))]
fn write_some<W: Write, F: Notable>(
    out: &mut W,
    asked: &Asked<'_>,
    rows: &FoundRows<F>,
) -> Result<()>
    ensures { OnOk result (Appends (W.contents out.old) (W.contents out.new)
        (some_text F.kind asked.now (rows_in rows.now))) }
{
    write_rows(out, asked, rows.rows())?;
    write_others(out, asked, rows)
}

/// What was found, or that nothing was.
fn write_found<W: Write, F: Notable>(
    out: &mut W,
    asked: &Asked<'_>,
    rows: &FoundRows<F>,
) -> Result<()>
    ensures { OnOk result (Appends (W.contents out.old) (W.contents out.new)
        (found_text F.kind asked.now (rows_in rows.now))) }
{
    if rows.rows().is_empty() {
        return write_none::<W, F>(out, asked);
    }
    write_some(out, asked, rows)
}

/// Writes the races of a hunt: for each pair of places, in the order in which they were found first, in how many runs it raced, the first
/// seed whose run had it, the accesses that raced there, and the command that repeats it. A number of the pair stands before it, from 1
/// on. Then it writes the cycles of locks in the same way. It takes no memory.
#[tactic(auto, using(ckrt_hunt_schedules::proofs::AppendLemmas::appends_both))]
pub fn write_races<W: Write>(out: &mut W, asked: &Asked<'_>, races: &RaceTally) -> Result<()>
    ensures { OnOk result (Appends (W.contents out.old) (W.contents out.new)
        (races_text asked.now races.now)) }
{
    write_found(out, asked, &races.pairs)?;
    write_found(out, asked, &races.cycles)
}

/// Writes the errors of memory of a hunt in the same way: for each place the error that was there first in the run of that seed. It takes
/// no memory.
pub fn write_errors<W: Write>(
    out: &mut W,
    asked: &Asked<'_>,
    errors: &FoundRows<Finding>,
) -> Result<()>
    ensures { OnOk result (Appends (W.contents out.old) (W.contents out.new)
        (errors_text asked.now errors.now)) }
{
    write_found(out, asked, errors)
}
