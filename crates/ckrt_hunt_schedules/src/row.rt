//! The rows of a tally.
ghost use Rattle.std.specs.Prelude.{◌≡◌, ◌<◌, length, slice_get, slice_set, IfSome, IsNone, Some};
ghost use Rattle.ckrt_hunt_schedules.specs.declared.row.Row.{Row};
ghost use Rattle.ckrt_hunt_schedules.specs.Tallies.{HasNone, IsFirst, counted_again};

use crate::last_line::LastLine;
use crate::runs::Told;

/// How many seeds of an outcome are remembered beside the first one.
pub const LATER_SEEDS: usize = 9;

/// An outcome: how often it came, and the first seeds that came to it.
#[derive(Debug, Drop, PartialEq, Eq)]
pub struct Row {
    pub told: Told,
    /// The last line that the run of the first seed has put.
    pub said: LastLine,
    pub count: u64,
    pub first: u64,
    /// The seeds that came to it next, where it counts so many.
    pub later: [u64; LATER_SEEDS],
}

impl Row {
    ghost use Rattle.ckrt_hunt_schedules.specs.Tallies.{later_of};

    /// The seeds that came to it next after the first one, in their order: at most [`LATER_SEEDS`].
    pub fn later(&self) -> &[u64]
        ensures { result.now ≡ later_of self.now }
    {
        let count = self.count.saturating_sub(1).min(LATER_SEEDS as u64) as usize;
        &self.later[..count]
    }
}

/// Where the row of an outcome is.
pub fn place_of(rows: &[Row], told: &Told) -> Option<usize>
    ensures found { IfSome result (λ place. (r : Row) × IsFirst told.now rows.now place r) }
    ensures none { IsNone result → HasNone told.now rows.now (length rows.now) }
{
    for place in 0..rows.len() {
        if rows[place].told == *told {
            return Some(place);
        }
    }
    None
}

/// A row counts one more, the run of this seed, and remembers it where it has room for that.
fn count_one_more(row: &mut Row, seed: u64)
    ensures { row.new ≡ counted_again seed row.old }
{
    let place = row.count.saturating_sub(1);
    row.count = row.count.saturating_add(1);
    if place < LATER_SEEDS as u64 {
        row.later[place as usize] = seed;
    }
}

/// The row at a place counts one more, the run of this seed.
pub fn count_again(rows: &mut [Row], place: usize, seed: u64)
    requires { place < length rows.old }
    ensures { (r : Row) → slice_get rows.old place ≡ Some r
        → rows.new ≡ slice_set rows.old place (counted_again seed r) }
{
    count_one_more(&mut rows[place], seed);
}
