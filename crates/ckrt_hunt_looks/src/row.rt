//! The rows of what looks found in the runs of a hunt.
ghost use Rattle.std.specs.Prelude.{◌≡◌, ◌≤◌, vec_capacity};
ghost use Rattle.std.specs.List.{list_any};
ghost use Rattle.ckrt_hunt_looks.specs.Rows.{counted, has_others, has_place, lacks_row, with_all, with_found};
ghost use Rattle.ckrt_hunt_looks.specs.declared.row.TheConstants.{FOUND_ROWS};

use crate::notable::Notable;

/// How many places a tally tells apart.
pub const FOUND_ROWS: usize = 64;

/// What was found at a place: in how many runs, and by which seed first.
#[derive(Clone, Copy, Debug, Drop)]
pub struct FoundRow<F> {
    /// What was found there first in the run of that seed.
    pub found: F,
    pub count: u64,
    pub first: u64,
}

/// The row of the place counts one more run, if there is one.
fn count_again<F: Notable>(rows: &mut Vec<FoundRow<F>>, found: &F) -> bool
    ensures again { result ≡ list_any (has_place F.kind found.now) rows.old.items }
    ensures rows { rows.new.items ≡ counted F.kind found.now rows.old.items }
    ensures room { vec_capacity rows.new ≡ vec_capacity rows.old }
{
    for place in 0..rows.len() {
        if found.is_at(&rows[place].found) {
            rows[place].count = rows[place].count.saturating_add(1);
            return true;
        }
    }
    false
}

/// Whether some row has the place.
fn has_row<F: Notable>(rows: &[FoundRow<F>], found: &F) -> bool
    ensures { result ≡ list_any (has_place F.kind found.now) rows.now }
{
    for row in rows {
        if found.is_at(&row.found) {
            return true;
        }
    }
    false
}

/// It was found in the run of a seed.
fn note_one<F: Notable>(rows: &mut Vec<FoundRow<F>>, seed: u64, found: &F)
    requires { FOUND_ROWS ≤ vec_capacity rows.old }
    ensures rows { rows.new.items ≡ with_found F.kind seed found.now rows.old.items }
    ensures room { FOUND_ROWS ≤ vec_capacity rows.new }
{
    if count_again(rows, found) {
        return;
    }
    if rows.len() < FOUND_ROWS {
        let _ = rows.push(FoundRow {
            found: *found,
            count: 1,
            first: seed,
        });
    }
}

/// These were found in the run of a seed.
pub(crate) fn note_all<F: Notable>(rows: &mut Vec<FoundRow<F>>, seed: u64, all: &[F])
    requires { FOUND_ROWS ≤ vec_capacity rows.old }
    ensures rows { rows.new.items ≡ with_all F.kind seed all.now rows.old.items }
    ensures room { FOUND_ROWS ≤ vec_capacity rows.new }
{
    for found in all {
        note_one(rows, seed, found);
    }
}

/// Whether some of these has no row.
fn lacks_some<F: Notable>(rows: &[FoundRow<F>], all: &[F]) -> bool
    ensures { result ≡ list_any (lacks_row F.kind rows.now) all.now }
{
    for found in all {
        if !has_row(rows, found) {
            return true;
        }
    }
    false
}

/// Whether a run had some that no row tells: one of these, or so many at places beside theirs.
pub(crate) fn has_others<F: Notable>(rows: &[FoundRow<F>], all: &[F], more: u64) -> bool
    ensures { result ≡ has_others F.kind rows.now all.now more }
{
    0 < more || lacks_some(rows, all)
}
