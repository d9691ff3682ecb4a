//! What was found.
ghost use Rattle.std.specs.Prelude.{◌≡◌, ◌≤◌, vec_capacity, IfOk};
ghost use Rattle.ckrt_look_values.specs.declared.finding.TheConstants.{FINDINGS};

use crate::finding::{FINDINGS, Finding, count_again};
use crate::value::Use;
use std::alloc::{AllocError, Global};

/// The uses that were found, by places, and how many there were at places for which no row was left.
#[derive(Drop)]
pub(crate) struct Findings {
    pub(crate) rows: Vec<Finding>,
    pub(crate) others: u64,
    ghost room: { FINDINGS ≤ vec_capacity rows },
}

impl Findings {
    ghost use Rattle.ckrt_look_values.specs.Values.{found_in, no_findings, noted};

    /// Nothing yet.
    pub(crate) fn new(alloc: Global) -> Result<Findings, AllocError>
        ensures { IfOk result (λ findings. found_in findings ≡ no_findings) }
    {
        Ok(Findings {
            rows: Vec::with_capacity(alloc, FINDINGS)?,
            others: 0,
        })
    }

    /// A use.
    pub(crate) fn note(&mut self, it: &Use)
        ensures { found_in self.new ≡ noted it.now (found_in self.old) }
    {
        if count_again(&mut self.rows, it) {
            return;
        }
        if self.rows.len() < FINDINGS {
            let _ = self.rows.push(Finding {
                first: *it,
                count: 1,
            });
            return;
        }
        self.others = self.others.saturating_add(1);
    }
}
