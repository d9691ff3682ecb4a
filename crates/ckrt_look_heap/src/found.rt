//! What was found.
ghost use Rattle.std.specs.Prelude.{◌≡◌, ◌≤◌, vec_capacity, IfOk};
ghost use Rattle.ckrt_look_heap.specs.declared.finding.TheConstants.{FINDINGS};

use crate::block::{Access, Cell};
use crate::finding::{FINDINGS, Finding, count_again};
use std::alloc::{AllocError, Global};

/// The errors that were found, by places, and how many there were at places for which no row was left.
#[derive(Drop)]
pub(crate) struct Findings {
    pub(crate) rows: Vec<Finding>,
    pub(crate) others: u64,
    ghost room: { FINDINGS ≤ vec_capacity rows },
}

impl Findings {
    ghost use Rattle.ckrt_look_heap.specs.Shadow.{found_in, no_findings, noted};

    /// Nothing yet.
    pub(crate) fn new(alloc: Global) -> Result<Findings, AllocError>
        ensures { IfOk result (λ findings. found_in findings ≡ no_findings) }
    {
        Ok(Findings {
            rows: Vec::with_capacity(alloc, FINDINGS)?,
            others: 0,
        })
    }

    /// Nothing any more.
    pub(crate) fn clear(&mut self)
        ensures { found_in self.new ≡ no_findings }
    {
        self.rows.clear();
        self.others = 0;
    }

    /// An error, and what was told of its word.
    pub(crate) fn note(&mut self, access: &Access, cell: &Cell)
        ensures { found_in self.new ≡ noted access.now cell.now (found_in self.old) }
    {
        if count_again(&mut self.rows, access, cell) {
            return;
        }
        if self.rows.len() < FINDINGS {
            let _ = self.rows.push(Finding {
                access: *access,
                cell: *cell,
                count: 1,
            });
            return;
        }
        self.others = self.others.saturating_add(1);
    }
}
