//! Disks whose areas are written, as the laws of what an image recovers to speak of them.
ghost use Rattle.std.specs.Prelude.{◌≡◌, ◌≢◌, ◌≤◌, ◌+◌, ◌∷◌, [], Ok, is_err, IfOk, drop, take, false, true};
ghost use Rattle.ckrt_stored.specs.Layout.{is_open};
ghost use Rattle.ckrt_disk.specs.Frame.{IsOnlyRead};
ghost use Rattle.ckrt_stored.specs.Recovery.{Recovered, Recovers};
ghost use Rattle.ckrt_witness.specs.Areas.{FrameWitness, SwitchWitness};

use ckrt_disk::{DeviceFault, Disk, write_synced};
use ckrt_stored::{FIELDS_AT, OPEN, read_header, read_in_use};

/// Whether another byte stands at an offset of a disk.
fn has_other<D: Disk>(disk: &mut D, at: usize, byte: u8) -> Result<bool, DeviceFault>
    requires { at + 1 ≤ D.size disk.old }
    ensures other { IfOk result (λ other. other ≡ true → D.is_honest disk.new
        → take 1 (drop at (D.content disk.old)) ≢ byte ∷ []) }
    ensures read { IsOnlyRead D.Disk disk.old disk.new (is_err result) }
{
    let mut old = [0];
    disk.read(at, &mut old)?;
    Ok(old[0] != byte)
}

/// Writes a byte into the area that isn't in use, behind its gate. On a disk that recovers, and is honest in the end, that meets all premises
/// of the law that such bytes don't matter. False where the byte stands there already, that gate is open, or the disk fails a
/// call.
pub fn change_unused<D: Disk>(disk: &mut D, byte: u8) -> bool
    ensures { result ≡ true → D.is_honest disk.new → (r : Recovered)
        → Recovers (D.content disk.old) (Ok r)
        → FrameWitness (D.content disk.old) (D.content disk.new) }
{
    let Ok((config, area)) = read_in_use(disk) else {
        return false;
    };
    let unused = 1 - area.index;
    let at = config.area_at(unused) + FIELDS_AT;
    let Ok(true) = has_other(disk, at, byte) else {
        return false;
    };
    if write_synced(disk, at, &[byte]).is_err() {
        return false;
    }
    let Ok(header) = read_header(disk, &config, unused) else {
        return false;
    };
    !header.is_open
}

/// Whether the gate at an offset of a disk isn't open.
fn is_shut<D: Disk>(disk: &mut D, at: usize) -> Result<bool, DeviceFault>
    requires { at + 1 ≤ D.size disk.old }
    ensures shut { IfOk result (λ shut. shut ≡ true → D.is_honest disk.new
        → is_open (take 1 (drop at (D.content disk.old))) ≡ false) }
    ensures read { IsOnlyRead D.Disk disk.old disk.new (is_err result) }
{
    let mut gate = [0];
    disk.read(at, &mut gate)?;
    Ok(gate[0] != OPEN)
}

/// Whether both areas of a disk are open, and the journal of the one in use has no batch. On a disk that recovers, and is honest in the end, that
/// meets all premises of the law that the newest open area takes over. False too where the disk fails a read.
pub fn has_both_open<D: Disk>(disk: &mut D) -> bool
    ensures { result ≡ true → D.is_honest disk.new → (r : Recovered)
        → Recovers (D.content disk.old) (Ok r) → SwitchWitness (D.content disk.old) }
{
    let Ok((config, area)) = read_in_use(disk) else {
        return false;
    };
    let Ok(true) = is_shut(disk, config.journal_at(area.index)) else {
        return false;
    };
    let Ok(header) = read_header(disk, &config, 1 - area.index) else {
        return false;
    };
    header.is_open
}
