//! Changes of a disk, and what it recovers to.

use crate::expect::{copied, expect_eq_at, lay, memory_disk};
use crate::small_disk::recovery_outcome;
use ckrt_recovery::RecoverFault;
use std::process::Abort;

/// A place from the beginning of the disk, and the bytes that are laid there.
pub type Change = (usize, &'static [u8]);

/// Changes of a disk, and what it recovers to: how many events, of which generation.
pub type Row = (&'static [Change], Result<(u64, u64), RecoverFault>);

pub const DAMAGED: Result<(u64, u64), RecoverFault> = Err(RecoverFault::Damaged);

pub const UNKNOWN: Result<(u64, u64), RecoverFault> = Err(RecoverFault::Version);

/// A copy of a disk with changes.
pub fn changed<R: Abort + AllocGlobal>(rt: &R, disk: &[u8], changes: &[Change]) -> Vec<u8> {
    let mut image = copied(rt, disk);
    for (at, bytes) in changes {
        lay(rt, &mut image, *at, bytes);
    }
    image
}

/// What a disk recovers to.
pub fn outcome<R: Abort + AllocGlobal>(rt: &R, disk: Vec<u8>) -> Result<(u64, u64), RecoverFault> {
    match recovery_outcome(rt, memory_disk(rt, disk)) {
        Ok(session) => Ok((session.acknowledged(), session.generation())),
        Err(unrecovered) => Err(unrecovered.fault),
    }
}

/// What a disk with the changes of a row recovers to. The number of the row says which one it is.
fn expect_row<R: Abort + AllocGlobal>(rt: &R, disk: &[u8], number: usize, row: &Row) {
    let (changes, want) = *row;
    let got = outcome(rt, changed(rt, disk, changes));
    expect_eq_at(rt, number, got, want);
}

/// The same of each row.
pub fn expect_rows<R: Abort + AllocGlobal>(rt: &R, disk: &[u8], rows: &[Row]) {
    for (number, row) in rows.iter().enumerate() {
        expect_row(rt, disk, number, row);
    }
}
