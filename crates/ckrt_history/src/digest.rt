//! The digest of the first bytes of a file.
ghost use Rattle.std.specs.Prelude.{◌≡◌, ◌≤◌, ◌+◌, ◌++◌, ℕ, IfOk, List, OnOk, drop, is_err, take};
ghost use Rattle.sha2.specs.Hashers.{Holds256};
ghost use Rattle.sha2.specs.Sha256.{sha256};
ghost use Rattle.ckrt_disk.specs.Frame.{IsOnlyRead};

use ckrt_disk::{DeviceFault, Disk};
use sha2::{Digest, Sha256};

/// How many bytes are read at a time.
const PIECE: usize = 4_096;

/// Adds so many bytes of a file from an offset on to what a hasher holds.
fn add_piece<D: Disk>(
    file: &mut D,
    at: usize,
    count: usize,
    hasher: &mut Sha256,
) -> Result<(), DeviceFault>
    requires few { count ≤ 4096 }
    requires within { at + count ≤ D.size file.old }
    ensures read { IsOnlyRead D.Disk file.old file.new (is_err result) }
    ensures added { OnOk result (D.is_honest file.new → (m : List ℕ) → Holds256 hasher.old m
        → Holds256 hasher.new (m ++ take count (drop at (D.content file.old)))) }
{
    let mut piece = [0; PIECE];
    let (front, _) = piece.split_at_mut(count);
    file.read(at, front)?;
    hasher.update(&*front);
    Ok(())
}

/// The SHA-256 digest of the first bytes of a file. The file is only read.
pub(crate) fn digest_of_first<D: Disk>(file: &mut D, count: usize) -> Result<[u8; 32], DeviceFault>
    requires { count ≤ D.size file.old }
    ensures read { IsOnlyRead D.Disk file.old file.new (is_err result) }
    ensures exact { IfOk result (λ digest.
        D.is_honest file.new → digest ≡ sha256 (take count (D.content file.old))) }
{
    let mut hasher = Sha256::new();
    for piece in 0..count / PIECE {
        add_piece(file, PIECE * piece, PIECE, &mut hasher)?;
    }
    add_piece(file, count - count % PIECE, count % PIECE, &mut hasher)?;
    Ok(hasher.finalize())
}
