//! Errors at one place of the program.
ghost use Rattle.std.specs.Prelude.{◌≡◌, vec_capacity};
ghost use Rattle.std.specs.List.{list_any};
ghost use Rattle.ckrt_look_heap.specs.Shadow.{counted, is_at};

use crate::block::{Access, Cell, kind_of, number_of};

/// How many places are told apart.
pub const FINDINGS: usize = 64;

/// The first error of those that do the same at one place of the program, called from one place, to words of which the same kind was told.
#[derive(Clone, Copy, Debug, Drop)]
pub struct Finding {
    pub access: Access,
    /// What was told of its word.
    pub cell: Cell,
    /// How often.
    pub count: u64,
}

impl Finding {
    /// Whether an error is one of these.
    pub fn is_at(&self, access: &Access, cell: &Cell) -> bool
        ensures { result ≡ is_at access.now cell.now self.now }
    {
        number_of(access.deed) == number_of(self.access.deed)
            && access.pc == self.access.pc
            && access.link == self.access.link
            && kind_of(cell) == kind_of(&self.cell)
    }
}

/// The errors at this place count one more, if there are some.
pub(crate) fn count_again(findings: &mut Vec<Finding>, access: &Access, cell: &Cell) -> bool
    ensures again { result ≡ list_any (is_at access.now cell.now) findings.old.items }
    ensures rows { findings.new.items ≡ counted access.now cell.now findings.old.items }
    ensures room { vec_capacity findings.new ≡ vec_capacity findings.old }
{
    for place in 0..findings.len() {
        if findings[place].is_at(access, cell) {
            findings[place].count = findings[place].count.saturating_add(1);
            return true;
        }
    }
    false
}
