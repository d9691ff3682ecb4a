//! Writes that are alike wherever they are made.
ghost use Rattle.std.specs.Prelude.{◌≤◌, ◌+◌, ℕ, length, is_ok, is_err, OnOk};
ghost use Rattle.ckrt_disk.specs.Disk.{IsOverwritten, IsWithin};
ghost use Rattle.ckrt_disk.specs.Frame.{WritesWithin};
ghost use Rattle.ckrt_disk.specs.Synced.{WritesSyncedOrFails};

use crate::disk::{DeviceFault, Disk};

/// Writes the bytes from the offset `at` on. They are pending until the next sync.
pub fn write_part<D: Disk>(disk: &mut D, at: usize, bytes: &[u8]) -> Result<(), DeviceFault>
    requires inside { at + length bytes.now ≤ D.size disk.old }
    ensures within { WritesWithin D.Disk (IsWithin at (length bytes.now)) 1 disk.old disk.new
        (is_err result) }
    ensures written { OnOk result (D.is_honest disk.new
        → IsOverwritten (D.content disk.old) at bytes.now (D.content disk.new)) }
    ensures gives { D.write_gives disk.old at bytes.now (is_ok result) disk.new }
{
    disk.write(at, bytes)
}

/// Writes the bytes from the offset `at` on and syncs. A stop at any moment of it leaves the bytes from before it
/// everywhere but in the ranges that were pending and in that of the write.
pub fn write_synced<D: Disk>(disk: &mut D, at: usize, bytes: &[u8]) -> Result<(), DeviceFault>
    requires { at + length bytes.now ≤ D.size disk.old }
    ensures within { WritesWithin D.Disk (IsWithin at (length bytes.now)) 2 disk.old disk.new
        (is_err result) }
    ensures written { OnOk result (D.is_honest disk.new
        → IsOverwritten (D.content disk.old) at bytes.now (D.content disk.new)) }
    ensures nothing_pending { OnOk result
        (D.is_honest disk.new → (i : ℕ) → ¬ D.pending disk.new i) }
    ensures gives { WritesSyncedOrFails D.Disk at bytes.now disk.old disk.new (is_err result) }
{
    write_part(disk, at, bytes)?;
    disk.sync()
}
