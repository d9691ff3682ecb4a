//! What looks found in the runs of a hunt, counted.
ghost use Rattle.std.specs.Prelude.{◌≡◌, ◌≤◌, nat_lt, length, vec_capacity, IfOk};
ghost use Rattle.ckrt_hunt_looks.specs.declared.row.TheConstants.{FOUND_ROWS};

use crate::notable::Notable;
use crate::row::{FOUND_ROWS, FoundRow, has_others, note_all};
use std::alloc::{AllocError, Global};

/// What was found in the runs of seeds, each place once, and how many runs had some for whose places there was no row left.
#[derive(Drop)]
pub struct FoundRows<F> {
    pub(crate) rows: Vec<FoundRow<F>>,
    pub(crate) others: u64,
    ghost room: { FOUND_ROWS ≤ vec_capacity rows },
}

impl<F: Notable> FoundRows<F> {
    ghost use Rattle.ckrt_hunt_looks.specs.Rows.{no_rows, rows_in, with_run};

    /// Nothing yet, and room for [`FOUND_ROWS`] places.
    pub fn new(alloc: Global) -> Result<FoundRows<F>, AllocError>
        ensures { IfOk result (λ all. rows_in all ≡ no_rows) }
    {
        Ok(FoundRows {
            rows: Vec::with_capacity(alloc, FOUND_ROWS)?,
            others: 0,
        })
    }

    /// The places, in the order in which they were found first.
    pub fn rows(&self) -> &[FoundRow<F>]
        ensures { result.now ≡ self.now.rows.items }
    {
        self.rows.as_slice()
    }

    /// How many runs had some at places for which there was no row left.
    pub fn others(&self) -> u64
        ensures { result ≡ self.now.others }
    {
        self.others
    }

    /// Whether some run had one.
    pub fn has_some(&self) -> bool
        ensures { result ≡ nat_lt 0 (length self.now.rows.items) }
    {
        !self.rows.is_empty()
    }

    /// One more run: in that of a seed these were found, and so many at places beside theirs. It takes no memory.
    pub fn note(&mut self, seed: u64, all: &[F], more: u64)
        ensures { rows_in self.new ≡ with_run F.kind seed all.now more (rows_in self.old) }
    {
        note_all(&mut self.rows, seed, all);
        if has_others(self.rows.as_slice(), all, more) {
            self.others = self.others.saturating_add(1);
        }
    }
}
