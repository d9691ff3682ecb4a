//! Rows of all kinds behind each other.
ghost use Rattle.std.specs.Prelude.{◌≡◌, ◌≤◌, ◌+◌, ◌++◌, [], vec_capacity, vec_len};
ghost use Rattle.ckrt_hunt_schedules.specs.Tallies.{rows_of};
ghost use Rattle.ckrt_hunt_schedules.specs.declared.group.TheConstants.{GROUP_ROWS};
ghost use Rattle.ckrt_hunt_schedules.specs.declared.outcomes.TheConstants.{MOST_OUTCOMES};

use crate::group::{GROUP_ROWS, Group};
use crate::outcomes::MOST_OUTCOMES;
use crate::row::Row;
use crate::tally::Tally;

/// The rows of a kind go behind the others.
fn append_group(rows: &mut Vec<Row>, group: &mut Group)
    requires { vec_len rows.old + GROUP_ROWS ≤ vec_capacity rows.old }
    ensures items { rows.new.items ≡ rows.old.items ++ group.old.rows.items }
    ensures len { vec_len rows.new ≤ vec_len rows.old + GROUP_ROWS }
    ensures capacity { vec_capacity rows.old ≤ vec_capacity rows.new }
{
    let _ = rows.append(&mut group.rows);
}

/// The rows of all kinds go behind each other.
pub(crate) fn append_all(rows: &mut Vec<Row>, tally: &mut Tally)
    requires room { MOST_OUTCOMES ≤ vec_capacity rows.old }
    requires len { vec_len rows.old ≡ 0 }
    requires empty { rows.old.items ≡ [] }
    ensures items { rows.new.items ≡ rows_of tally.old }
    ensures capacity { MOST_OUTCOMES ≤ vec_capacity rows.new }
{
    append_group(rows, &mut tally.faults);
    append_group(rows, &mut tally.deadlocks);
    append_group(rows, &mut tally.other_statuses);
    append_group(rows, &mut tally.no_ends);
    append_group(rows, &mut tally.input_waits);
    append_group(rows, &mut tally.exits);
}
