//! What a hunt came to, as a table.
ghost use Rattle.std.specs.Prelude.{◌≡◌, ◌+◌, ◌≤◌, ◌++◌, ◌∷◌, [], codes, decimal, length, OnOk};
ghost use Rattle.std.specs.Io.KnownBytes.{Appends};
ghost use Rattle.ckrt_hunt_schedules.specs.Table.{command_line, drawn_text, fewest_text, head_text, ignored_word, input_text, kept_text, look_word, many_text, outcome_line, outputs_line, others_line, placed_text, row_text, rows_text, runs_text, said_line, seed_text, shape_text, shown_text, table_text, unkept_text};

use crate::outcomes::Outcomes;
use crate::row::Row;
use crate::saying::write_said;
use crate::seeds::Seeds;
use crate::shape::Shape;
use crate::shorten::{Chosen, Found};
use crate::shown::{Measure, has_many, is_shown, total_of};
use crate::texts::{write_counted, write_digest, write_outcome};
use std::io::{Result, Write};

/// What each run of a hunt is looked at for, beside its outcome.
#[derive(Clone, Copy, Debug, PartialEq, Eq)]
pub enum Look {
    /// Nothing else.
    Outcomes,
    /// Data races, and cycles of locks.
    Races,
    /// Errors of memory.
    Errors,
}

impl Look {
    ghost use Rattle.ckrt_hunt_schedules.specs.Table.{is_closer};

    /// Whether it is for more than its outcome.
    pub fn is_closer(self) -> bool
        ensures { result ≡ is_closer self }
    {
        match self {
            Look::Outcomes => false,
            Look::Races | Look::Errors => true,
        }
    }
}

/// What a hunt was asked for.
#[derive(Clone, Copy, Debug, PartialEq, Eq)]
pub struct Asked<'a> {
    /// The path of the image, as it was given.
    pub image: &'a str,
    pub shape: Shape,
    pub seeds: Seeds,
    /// Whether it may end before its last seed.
    pub may_end: bool,
    /// The path of the input, as it was given, where there is one.
    pub input: Option<&'a str>,
    /// What each run is looked at for.
    pub look: Look,
    /// How many bytes the room of that look's shadow has.
    pub room: u64,
    /// Whether each row of its table has lines.
    pub all_rows: bool,
}

/// Writes of how many runs. It takes no memory.
#[tactic(auto, using(crate::proofs::AppendLemmas::appends_both))]
pub fn write_runs<W: Write>(out: &mut W, asked: &Asked<'_>) -> Result<()>
    ensures { OnOk result
        (Appends (W.contents out.old) (W.contents out.new) (runs_text asked.now)) }
{
    write_counted(out, b" of ", asked.seeds.count())?;
    out.write_all(b" runs")
}

/// How often an outcome came, and by which seed first.
#[tactic(auto, using(crate::proofs::AppendLemmas::appends_both))]
fn write_head<W: Write>(out: &mut W, asked: &Asked<'_>, number: u64, row: &Row) -> Result<()>
    ensures { OnOk result
        (Appends (W.contents out.old) (W.contents out.new) (head_text asked.now number row.now)) }
{
    write_counted(out, b"outcome ", number)?;
    write_counted(out, b": ", row.count)?;
    write_runs(out, asked)?;
    write_counted(out, b", first by seed ", row.first)?;
    out.write_all(b": ")
}

/// The line of an outcome.
#[tactic(auto, using(crate::proofs::AppendLemmas::appends_both))]
fn write_outcome_line<W: Write>(
    out: &mut W,
    asked: &Asked<'_>,
    number: u64,
    row: &Row,
) -> Result<()>
    ensures { OnOk result
        (Appends (W.contents out.old) (W.contents out.new)
        (outcome_line asked.now number row.now)) }
{
    write_head(out, asked, number, row)?;
    write_outcome(out, asked.shape.limit, &row.told.outcome)?;
    write_digest(out, &row.told.digest)?;
    out.write_all(b"\n")
}

/// The seed of a command.
#[tactic(auto, using(crate::proofs::AppendLemmas::appends_both))]
fn write_seed<W: Write>(out: &mut W, seed: u64) -> Result<()>
    ensures { OnOk result
        (Appends (W.contents out.old) (W.contents out.new) (seed_text seed)) }
{
    write_counted(out, b" --seeds ", seed)?;
    write_counted(out, b"-", seed)
}

/// What the program of a command is run with.
#[tactic(auto, using(crate::proofs::AppendLemmas::appends_both))]
fn write_shape<W: Write>(out: &mut W, shape: &Shape) -> Result<()>
    ensures { OnOk result
        (Appends (W.contents out.old) (W.contents out.new) (shape_text shape.now)) }
{
    write_counted(out, b" --pages ", u64::from(shape.pages))?;
    write_counted(out, b" --harts ", shape.harts as u64)?;
    write_counted(out, b" --steps ", u64::from(shape.limit))
}

fn write_known_input<W: Write>(out: &mut W, path: &str) -> Result<()>
    ensures { OnOk result
        (Appends (W.contents out.old) (W.contents out.new) (codes " --input " ++ path.now)) }
{
    out.write_all(b" --input ")?;
    out.write_all(path.as_bytes())
}

/// The input of a command, where there is one.
#[tactic(auto, using(crate::proofs::AppendLemmas::appends_none))]
fn write_input<W: Write>(out: &mut W, asked: &Asked<'_>) -> Result<()>
    ensures { OnOk result
        (Appends (W.contents out.old) (W.contents out.new) (input_text asked.now)) }
{
    match asked.input {
        Some(path) => write_known_input(out, path),
        None => Ok(()),
    }
}

/// What runs are looked at for, where that is more than their outcomes.
#[tactic(auto, using(crate::proofs::AppendLemmas::appends_none))]
fn write_look_word<W: Write>(out: &mut W, look: Look) -> Result<()>
    ensures { OnOk result
        (Appends (W.contents out.old) (W.contents out.new) (look_word look)) }
{
    match look {
        Look::Outcomes => Ok(()),
        Look::Races => out.write_all(b" --races"),
        Look::Errors => out.write_all(b" --check"),
    }
}

/// That outcomes which differ in their output alone are one, where they are.
#[tactic(auto, using(crate::proofs::AppendLemmas::appends_none))]
fn write_ignored_word<W: Write>(out: &mut W, ignores_output: bool) -> Result<()>
    ensures { OnOk result
        (Appends (W.contents out.old) (W.contents out.new) (ignored_word ignores_output)) }
{
    if ignores_output {
        out.write_all(b" --ignore-output")
    } else {
        Ok(())
    }
}

/// Writes the command that runs a seed alone, and keeps it. It takes no memory.
pub fn write_command_line<W: Write>(out: &mut W, asked: &Asked<'_>, seed: u64) -> Result<()>
    ensures { OnOk result
        (Appends (W.contents out.old) (W.contents out.new) (command_line asked.now seed)) }
{
    out.write_all(b"    ckrt hunt ")?;
    out.write_all(asked.image.as_bytes())?;
    write_seed(out, seed)?;
    write_shape(out, &asked.shape)?;
    write_input(out, asked)?;
    write_look_word(out, asked.look)?;
    write_ignored_word(out, asked.shape.ignores_output)?;
    write_counted(out, b" --keep seed-", seed)?;
    out.write_all(b".disk\n")
}

/// The lines of an outcome.
#[tactic(auto, using(crate::proofs::AppendLemmas::appends_both))]
fn write_row<W: Write>(out: &mut W, asked: &Asked<'_>, number: u64, row: &Row) -> Result<()>
    ensures { OnOk result
        (Appends (W.contents out.old) (W.contents out.new) (row_text asked.now number row.now)) }
{
    write_outcome_line(out, asked, number, row)?;
    write_said(out, row)?;
    write_command_line(out, asked, row.first)
}

/// The lines of a row among these, where it has lines.
#[tactic(auto, using(crate::proofs::AppendLemmas::appends_none))]
fn write_if_shown<W: Write>(
    out: &mut W,
    asked: &Asked<'_>,
    rows: &[Row],
    number: u64,
    row: &Row,
) -> Result<()>
    ensures { OnOk result
        (Appends (W.contents out.old) (W.contents out.new)
        (shown_text asked.now rows.now number row.now)) }
{
    if is_shown(asked.all_rows, rows, row) {
        write_row(out, asked, number, row)
    } else {
        Ok(())
    }
}

/// The lines of all rows that have some.
fn write_rows<W: Write>(out: &mut W, asked: &Asked<'_>, rows: &[Row]) -> Result<()>
    ensures { OnOk result
        (Appends (W.contents out.old) (W.contents out.new)
        (rows_text asked.now rows.now (length rows.now))) }
{
    for place in 0..rows.len() {
        write_if_shown(out, asked, rows, place as u64 + 1, &rows[place])?;
    }
    Ok(())
}

/// How many outputs of `exit 0` there are, of how many runs.
#[tactic(auto, using(crate::proofs::AppendLemmas::appends_both))]
fn write_many<W: Write>(out: &mut W, asked: &Asked<'_>, rows: &[Row]) -> Result<()>
    ensures { OnOk result
        (Appends (W.contents out.old) (W.contents out.new) (many_text asked.now rows.now)) }
{
    write_counted(
        out,
        b"outputs of exit 0: ",
        total_of(Measure::Outputs, rows),
    )?;
    write_counted(out, b" in ", total_of(Measure::Runs, rows))?;
    write_runs(out, asked)?;
    out.write_all(b", the three commonest above\n")
}

/// The same, where not all have lines.
#[tactic(auto, using(crate::proofs::AppendLemmas::appends_none))]
fn write_outputs<W: Write>(out: &mut W, asked: &Asked<'_>, rows: &[Row]) -> Result<()>
    ensures { OnOk result
        (Appends (W.contents out.old) (W.contents out.new) (outputs_line asked.now rows.now)) }
{
    if has_many(asked.all_rows, rows) {
        write_many(out, asked, rows)
    } else {
        Ok(())
    }
}

/// The line of the runs that no row counts.
fn write_known_others<W: Write>(out: &mut W, asked: &Asked<'_>, others: u64) -> Result<()>
    ensures { OnOk result
        (Appends (W.contents out.old) (W.contents out.new)
        (codes "other outcomes: " ++ decimal others ++ runs_text asked.now ++ 10 ∷ [])) }
{
    write_counted(out, b"other outcomes: ", others)?;
    write_runs(out, asked)?;
    out.write_all(b"\n")
}

/// The same, if there are any.
#[tactic(auto, using(crate::proofs::AppendLemmas::appends_none))]
fn write_others<W: Write>(out: &mut W, asked: &Asked<'_>, others: u64) -> Result<()>
    ensures { OnOk result
        (Appends (W.contents out.old) (W.contents out.new) (others_line asked.now others)) }
{
    if others == 0 {
        Ok(())
    } else {
        write_known_others(out, asked, others)
    }
}

/// Writes what a hunt came to: for each outcome, those that harm first, how often it came, the first seed that came to it, what
/// it is, what it said, and the command that repeats it. A number of the outcome stands before it, from 1 on. Of more than three outputs
/// of `exit 0` the three commonest have lines, unless each row is asked for. It takes no memory.
#[tactic(auto, using(crate::proofs::AppendLemmas::appends_both))]
pub fn write_table<W: Write>(out: &mut W, asked: &Asked<'_>, outcomes: &Outcomes) -> Result<()>
    ensures { OnOk result
        (Appends (W.contents out.old) (W.contents out.new) (table_text asked.now outcomes.now)) }
{
    write_rows(out, asked, outcomes.rows())?;
    write_outputs(out, asked, outcomes.rows())?;
    write_others(out, asked, outcomes.others())
}

/// A number of switches after a word.
fn write_switches<W: Write>(out: &mut W, word: &[u8], switches: u32) -> Result<()>
    ensures { OnOk result
        (Appends (W.contents out.old) (W.contents out.new) (word.now ++ decimal switches)) }
{
    write_counted(out, word, u64::from(switches))
}

/// How the run was drawn that is kept.
#[tactic(auto, using(crate::proofs::AppendLemmas::appends_both))]
fn write_drawn<W: Write>(out: &mut W, found: &Found<'_>) -> Result<()>
    ensures { OnOk result
        (Appends (W.contents out.old) (W.contents out.new) (drawn_text found.now)) }
{
    match found.plan.turns {
        Some(_) => write_switches(out, b", drawn with ", found.drawn),
        None => out.write_all(b", as it was drawn"),
    }
}

/// A seed behind a word, and the disk of its run.
fn write_placed<W: Write>(out: &mut W, word: &[u8], seed: u64, path: &str) -> Result<()>
    ensures { OnOk result
        (Appends (W.contents out.old) (W.contents out.new) (placed_text word.now seed path.now)) }
{
    write_counted(out, word, seed)?;
    out.write_all(b" on ")?;
    out.write_all(path.as_bytes())
}

/// Writes that the run of a seed isn't kept on the disk of a path. It takes no memory.
#[tactic(auto, using(crate::proofs::AppendLemmas::appends_both))]
pub fn write_unkept<W: Write>(out: &mut W, seed: u64, path: &str) -> Result<()>
    ensures { OnOk result
        (Appends (W.contents out.old) (W.contents out.new) (unkept_text seed path.now)) }
{
    write_placed(out, b"not kept: the run of seed ", seed, path)?;
    out.write_all(b"\n")
}

/// Among the runs of how many seeds a run was chosen, where they are several.
#[tactic(auto, using(crate::proofs::AppendLemmas::appends_none))]
fn write_fewest<W: Write>(out: &mut W, seeds: u32) -> Result<()>
    ensures { OnOk result
        (Appends (W.contents out.old) (W.contents out.new) (fewest_text seeds)) }
{
    if seeds <= 1 {
        Ok(())
    } else {
        write_many_seeds(out, seeds)
    }
}

/// The same of several.
fn write_many_seeds<W: Write>(out: &mut W, seeds: u32) -> Result<()>
    ensures { OnOk result
        (Appends (W.contents out.old) (W.contents out.new)
        (codes ", fewest of " ++ decimal seeds ++ codes " seeds")) }
{
    write_switches(out, b", fewest of ", seeds)?;
    out.write_all(b" seeds")
}

/// Writes which seed's run is kept, on the disk of which path, how many switches it has, how many it was drawn with, and of how many seeds
/// that is the fewest: a switch is a thread that runs after another one. It takes no memory.
pub fn write_kept<W: Write>(out: &mut W, path: &str, chosen: &Chosen<'_>) -> Result<()>
    ensures { OnOk result
        (Appends (W.contents out.old) (W.contents out.new) (kept_text path.now chosen.now)) }
{
    write_placed(out, b"kept: the run of seed ", chosen.seed, path)?;
    write_switches(out, b", switches: ", chosen.found.switches)?;
    write_drawn(out, &chosen.found)?;
    write_fewest(out, chosen.seeds)?;
    out.write_all(b"\n")
}
