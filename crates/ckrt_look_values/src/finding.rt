//! Uses of values at one place of the program.
ghost use Rattle.std.specs.Prelude.{◌≡◌, vec_capacity};
ghost use Rattle.std.specs.List.{list_any};
ghost use Rattle.ckrt_look_values.specs.Values.{counted, is_at};

use crate::value::{Use, number_of};

/// How many places are told apart.
pub const FINDINGS: usize = 64;

/// The first use of those that do the same at one place of the program, called from one place.
#[derive(Clone, Copy, Debug, Drop)]
pub struct Finding {
    pub first: Use,
    /// How often.
    pub count: u64,
}

/// Whether a use is one of these.
fn is_at(finding: &Finding, it: &Use) -> bool
    ensures { result ≡ is_at it.now finding.now }
{
    number_of(it.deed) == number_of(finding.first.deed)
        && it.pc == finding.first.pc
        && it.link == finding.first.link
}

/// The uses at this place count one more, if there are some.
pub(crate) fn count_again(findings: &mut Vec<Finding>, it: &Use) -> bool
    ensures again { result ≡ list_any (is_at it.now) findings.old.items }
    ensures rows { findings.new.items ≡ counted it.now findings.old.items }
    ensures room { vec_capacity findings.new ≡ vec_capacity findings.old }
{
    for place in 0..findings.len() {
        if is_at(&findings[place], it) {
            findings[place].count = findings[place].count.saturating_add(1);
            return true;
        }
    }
    false
}
