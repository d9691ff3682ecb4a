//! Pairs of places.
ghost use Rattle.std.specs.Prelude.{◌≡◌, vec_capacity};
ghost use Rattle.std.specs.List.{list_any};
ghost use Rattle.ckrt_look_clocks.specs.Detection.{counted, is_at};

use crate::operation::{Access, Block};

/// How many pairs of places are told apart.
pub const PAIRS: usize = 64;

/// Two accesses that race, the first of those at the same two places of the program.
#[derive(Clone, Copy, Debug, Drop)]
pub struct Pair {
    pub first: Access,
    pub second: Access,
    /// How often accesses there raced.
    pub count: u64,
    /// The memory given anew last that has the word of both.
    pub block: Option<Block>,
}

/// Whether two accesses stand at the places of a pair, in either order.
fn is_at(pair: &Pair, first: &Access, second: &Access) -> bool
    ensures { result ≡ is_at first.now second.now pair.now }
{
    pair.first.pc == first.pc && pair.second.pc == second.pc
        || pair.first.pc == second.pc && pair.second.pc == first.pc
}

/// The pair of these places counts one more, if there is one.
pub(crate) fn count_again(pairs: &mut Vec<Pair>, first: &Access, second: &Access) -> bool
    ensures again { result ≡ list_any (is_at first.now second.now) pairs.old.items }
    ensures pairs { pairs.new.items ≡ counted first.now second.now pairs.old.items }
    ensures room { vec_capacity pairs.new ≡ vec_capacity pairs.old }
{
    for place in 0..pairs.len() {
        if is_at(&pairs[place], first, second) {
            pairs[place].count = pairs[place].count.saturating_add(1);
            return true;
        }
    }
    false
}
