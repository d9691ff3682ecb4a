//! What was found.
ghost use Rattle.std.specs.Prelude.{◌≡◌, ◌≤◌, vec_capacity, IfOk};
ghost use Rattle.ckrt_look_clocks.specs.declared.pair.TheConstants.{PAIRS};

use crate::operation::{Access, Block};
use crate::pair::{PAIRS, Pair, count_again};
use std::alloc::{AllocError, Global};

/// The pairs that were found, and how often accesses raced for whose places no row was left.
#[derive(Drop)]
pub(crate) struct Findings {
    pub(crate) pairs: Vec<Pair>,
    pub(crate) others: u64,
    ghost room: { PAIRS ≤ vec_capacity pairs },
}

impl Findings {
    ghost use Rattle.ckrt_look_clocks.specs.Detection.{found_in, noted, no_findings};

    /// Nothing yet.
    pub(crate) fn new(alloc: Global) -> Result<Findings, AllocError>
        ensures { IfOk result (λ findings. found_in findings ≡ no_findings) }
    {
        Ok(Findings {
            pairs: Vec::with_capacity(alloc, PAIRS)?,
            others: 0,
        })
    }

    /// Nothing any more.
    pub(crate) fn clear(&mut self)
        ensures { found_in self.new ≡ no_findings }
    {
        self.pairs.clear();
        self.others = 0;
    }

    /// Two accesses race to a word that was given anew last with this memory.
    pub(crate) fn note(&mut self, block: &Option<Block>, first: &Access, second: &Access)
        ensures { found_in self.new
            ≡ noted block.now first.now second.now (found_in self.old) }
    {
        if count_again(&mut self.pairs, first, second) {
            return;
        }
        if self.pairs.len() < PAIRS {
            let _ = self.pairs.push(Pair {
                first: *first,
                second: *second,
                count: 1,
                block: *block,
            });
            return;
        }
        self.others = self.others.saturating_add(1);
    }
}
