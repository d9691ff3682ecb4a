//! What several threads do, in pieces.
ghost use Rattle.std.specs.Prelude.{◌≡◌, ◌≤◌, ◌<◌, ◌+◌, ◌^◌, ℕ, OnOk, length};
ghost use Rattle.ckrt_look_timeline.specs.Pieces.{GoOn, laid, pieces_at};

use crate::piece::{Activity, Piece, extend};
use std::alloc::AllocError;

/// So many steps more of what each of the threads does.
pub(crate) fn extend_all(
    tracks: &mut Vec<Vec<Piece>>,
    now: &[Activity],
    steps: u64,
) -> Result<(), AllocError>
    requires some { 1 ≤ steps }
    requires each { length now.now ≡ length tracks.old.items }
    requires few { (i : ℕ) → i < length tracks.old.items
        → length (laid (pieces_at tracks.old.items i)) + steps < 2 ^ 64 }
    ensures length { OnOk result (length tracks.new.items ≡ length tracks.old.items) }
    ensures extended { OnOk result (GoOn now.now steps tracks.old.items tracks.new.items) }
{
    for index in 0..now.len() {
        extend(&mut tracks[index], now[index], steps)?;
    }
    Ok(())
}
