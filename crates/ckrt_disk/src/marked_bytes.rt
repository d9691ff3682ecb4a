//! Bytes, and a table of those that are pending.
ghost use Rattle.std.specs.Prelude.{◌≡◌, ◌⊎◌, ◌↔◌, ◌+◌, ◌≤◌, ℕ, List, Bool, length, IfOk};
ghost use Rattle.ckrt_disk.specs.Disk.{IsOverwritten, IsWithin};
ghost use Rattle.ckrt_disk.specs.Marked.{IsMarked, IsFilled};

use std::alloc::{AllocError, Global};

/// A disk's bytes, and for each whether it is pending.
#[derive(Drop)]
pub struct MarkedBytes {
    pub bytes: Vec<u8>,
    pub pending: Vec<bool>,
    pub ghost table: { length pending.items ≡ length bytes.items },
}

/// Bytes of which none is pending. The table is made here.
pub(crate) fn unmarked(alloc: Global, bytes: Vec<u8>) -> Result<MarkedBytes, AllocError>
    ensures bytes { IfOk result (λ marked. marked.bytes.items ≡ bytes.items) }
    ensures nothing_pending { IfOk result (λ marked. (i : ℕ) → ¬ IsMarked marked.pending.items i) }
{
    let pending = vec![in alloc; false; bytes.len()]?;
    Ok(MarkedBytes { bytes, pending })
}

/// Puts bytes in the place of those from `at` on.
pub(crate) fn overwrite(bytes: &mut [u8], at: usize, from: &[u8])
    requires { at + length from.now ≤ length bytes.old }
    ensures { IsOverwritten bytes.old at from.now bytes.new }
{
    bytes[at..at + from.len()].copy_from_slice(from);
}

/// Marks n offsets from `at` on.
pub(crate) fn mark(table: &mut [bool], at: usize, n: usize)
    requires { at + n ≤ length table.old }
    ensures { (i : ℕ) → (IsMarked table.new i ↔ (IsMarked table.old i ⊎ IsWithin at n i)) }
{
    for i in at..at + n {
        table[i] = true;
    }
}

/// Marks nothing.
pub(crate) fn clear(table: &mut [bool])
    ensures { (i : ℕ) → ¬ IsMarked table.new i }
{
    for flag in table.iter_mut() {
        *flag = false;
    }
}

/// The bytes that are marked take the bytes of `fill`, over and over; with no fill they stay.
pub(crate) fn lay(bytes: &mut [u8], table: &[bool], fill: &[u8])
    requires { length table.now ≡ length bytes.old }
    ensures { IsFilled (IsMarked table.now) fill.now bytes.old bytes.new }
{
    if fill.is_empty() {
        return;
    }
    let mut laid = 0;
    for i in 0..bytes.len() {
        if table[i] {
            bytes[i] = fill[laid % fill.len()];
            laid += 1;
        }
    }
}
