//! Copies of outcomes, into room that is there.
ghost use Rattle.std.specs.Prelude.{◌≡◌, ◌≤◌, ◌+◌, ◌++◌, [], vec_capacity, vec_len};
ghost use Rattle.ckrt_hunt_schedules.specs.Tallies.{rows_of};
ghost use Rattle.ckrt_hunt_schedules.specs.declared.group.TheConstants.{GROUP_ROWS};
ghost use Rattle.ckrt_hunt_schedules.specs.declared.outcomes.TheConstants.{MOST_OUTCOMES};

use crate::group::{GROUP_ROWS, Group};
use crate::last_line::LastLine;
use crate::outcome::{Outcome, Waiting};
use crate::outcomes::MOST_OUTCOMES;
use crate::row::Row;
use crate::runs::Told;
use crate::tally::Tally;
use arrayvec::ArrayVec;

/// The same threads that wait.
fn copy_of_waitings(waitings: &ArrayVec<Waiting, 64>) -> ArrayVec<Waiting, 64>
    ensures { result ≡ waitings.now }
{
    let mut copy = ArrayVec::new();
    let _ = copy.try_extend_from_slice(waitings.as_slice());
    copy
}

/// The same outcome.
fn copy_of_outcome(outcome: &Outcome) -> Outcome
    ensures { result ≡ outcome.now }
{
    match outcome {
        Outcome::Exited(status) => Outcome::Exited(*status),
        Outcome::Faulted(thread, pc, cause) => Outcome::Faulted(*thread, *pc, *cause),
        Outcome::Deadlock(waitings) => Outcome::Deadlock(copy_of_waitings(waitings)),
        Outcome::WaitsForInput => Outcome::WaitsForInput,
        Outcome::NoEnd(circle) => Outcome::NoEnd(copy_of_waitings(circle)),
    }
}

/// The same line.
fn copy_of_line(line: &LastLine) -> LastLine
    ensures { result ≡ line.now }
{
    let mut bytes = ArrayVec::new();
    let _ = bytes.try_extend_from_slice(line.bytes.as_slice());
    LastLine {
        bytes,
        is_longer: line.is_longer,
        is_over: line.is_over,
    }
}

/// The same row.
fn copy_of_row(row: &Row) -> Row
    ensures { result ≡ row.now }
{
    Row {
        told: Told {
            outcome: copy_of_outcome(&row.told.outcome),
            digest: row.told.digest,
        },
        said: copy_of_line(&row.said),
        count: row.count,
        first: row.first,
        later: row.later,
    }
}

/// Copies of the rows of a kind go behind the others.
fn copy_group(rows: &mut Vec<Row>, group: &Group)
    requires { vec_len rows.old + GROUP_ROWS ≤ vec_capacity rows.old }
    ensures items { rows.new.items ≡ rows.old.items ++ group.now.rows.items }
    ensures len { vec_len rows.new ≤ vec_len rows.old + GROUP_ROWS }
    ensures capacity { vec_capacity rows.old ≤ vec_capacity rows.new }
{
    for row in group.rows.as_slice() {
        let _ = rows.push(copy_of_row(row));
    }
}

/// Copies of the rows of all kinds go behind each other.
pub(crate) fn copy_all(rows: &mut Vec<Row>, tally: &Tally)
    requires room { MOST_OUTCOMES ≤ vec_capacity rows.old }
    requires len { vec_len rows.old ≡ 0 }
    requires empty { rows.old.items ≡ [] }
    ensures items { rows.new.items ≡ rows_of tally.now }
    ensures capacity { MOST_OUTCOMES ≤ vec_capacity rows.new }
{
    copy_group(rows, &tally.faults);
    copy_group(rows, &tally.deadlocks);
    copy_group(rows, &tally.other_statuses);
    copy_group(rows, &tally.no_ends);
    copy_group(rows, &tally.input_waits);
    copy_group(rows, &tally.exits);
}
