//! Which rows of a table have lines.
ghost use Rattle.std.specs.Prelude.{◌≡◌, length, Some};
ghost use Rattle.ckrt_hunt_schedules.specs.Shown.{amount_at, amount_of, has_many, is_common, is_commoner, is_exit_zero, is_shown, total_of};

use crate::kind::{Kind, kind_of};
use crate::row::Row;

/// Of how many outputs of `exit 0` there are lines, where they are more.
const MOST_OUTPUTS: u64 = 3;

/// What is counted of the rows of `exit 0`.
#[derive(Clone, Copy, Debug)]
pub enum Measure {
    /// Each once.
    Outputs,
    /// Their runs.
    Runs,
    /// Each once to which more runs came than this, or as many, and the first of them before this seed.
    Commoner(u64, u64),
}

/// Whether a kind is that of `exit 0`.
fn is_exit_zero(kind: Kind) -> bool
    ensures { result ≡ is_exit_zero kind }
{
    match kind {
        Kind::Fault | Kind::Deadlock | Kind::OtherStatus | Kind::NoEnd | Kind::WaitsForInput =>
            false,
        Kind::ExitZero => true,
    }
}

/// Whether more runs came to it than this, or as many, and the first of them before this seed.
fn is_commoner(row: &Row, count: u64, first: u64) -> bool
    ensures { result ≡ is_commoner row.now count first }
{
    count < row.count || (row.count == count && row.first < first)
}

/// What a row of `exit 0` counts.
fn amount_of(measure: Measure, row: &Row) -> u64
    ensures { result ≡ amount_of measure row.now }
{
    match measure {
        Measure::Outputs => 1,
        Measure::Runs => row.count,
        Measure::Commoner(count, first) => u64::from(is_commoner(row, count, first)),
    }
}

/// What a row counts.
fn amount_at(measure: Measure, row: &Row) -> u64
    ensures { result ≡ amount_at measure (Some row.now) }
{
    if is_exit_zero(kind_of(&row.told.outcome)) {
        amount_of(measure, row)
    } else {
        0
    }
}

/// What rows count together, as far as 64 bits do.
pub fn total_of(measure: Measure, rows: &[Row]) -> u64
    ensures { result ≡ total_of measure rows.now (length rows.now) }
{
    let mut total = 0u64;
    for place in 0..rows.len() {
        total = total.saturating_add(amount_at(measure, &rows[place]));
    }
    total
}

/// Whether there are more outputs of `exit 0` than have lines.
pub fn has_many(all_rows: bool, rows: &[Row]) -> bool
    ensures { result ≡ has_many all_rows rows.now }
{
    if all_rows {
        return false;
    }
    MOST_OUTPUTS < total_of(Measure::Outputs, rows)
}

/// Whether fewer than three outputs are commoner.
fn is_common(rows: &[Row], row: &Row) -> bool
    ensures { result ≡ is_common rows.now row.now }
{
    total_of(Measure::Commoner(row.count, row.first), rows) < MOST_OUTPUTS
}

/// Whether a row among these has lines.
pub fn is_shown(all_rows: bool, rows: &[Row], row: &Row) -> bool
    ensures { result ≡ is_shown all_rows rows.now row.now }
{
    if all_rows {
        return true;
    }
    if is_exit_zero(kind_of(&row.told.outcome)) {
        is_common(rows, row)
    } else {
        true
    }
}
