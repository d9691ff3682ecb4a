//! Blocks of a disk, copied to the same offsets of a file.
ghost use Rattle.std.specs.Prelude.{◌≡◌, ◌≤◌, ◌<◌, ◌+◌, ◌%◌, ℕ, OnOk};
ghost use Rattle.ckrt_disk.specs.Disk.{IsWithin};
ghost use Rattle.ckrt_disk.specs.Frame.{IsOnlyRead};
ghost use Rattle.ckrt_history.specs.Copying.{AreSameBetween, WritesIn, is_disk_fault, is_file_fault};

use ckrt_disk::{DeviceFault, Disk, write_part};

/// How many bytes are copied at a time.
const BLOCK: usize = 4_096;

/// Which of two devices failed a call.
#[derive(Clone, Copy)]
pub enum CopyFault {
    /// The disk, which is only read.
    Disk,
    /// The file, which is written.
    File,
}

impl From<DeviceFault> for CopyFault {
    ghost use Rattle.ckrt_history.specs.declared.copying.CopyFault.TheVariants.{File};

    ghost from_gives = { λ _ e. e ≡ File };

    fn from(_: DeviceFault) -> CopyFault {
        CopyFault::File
    }
}

/// Copies the block from an offset on.
fn copy_block<D: Disk, F: Disk>(disk: &mut D, file: &mut F, at: usize) -> Result<(), CopyFault>
    requires disk { at + 4096 ≤ D.size disk.old }
    requires file { at + 4096 ≤ F.size file.old }
    ensures read { IsOnlyRead D.Disk disk.old disk.new (is_disk_fault result) }
    ensures written { WritesIn F.Disk (IsWithin at 4096) file.old file.new (is_file_fault result) }
    ensures copied { OnOk result (D.is_honest disk.new → F.is_honest file.new
        → AreSameBetween at (at + 4096) (D.content disk.old) (F.content file.new)) }
{
    let mut block = [0; BLOCK];
    if disk.read(at, &mut block).is_err() {
        return Err(CopyFault::Disk);
    }
    if write_part(file, at, &block).is_err() {
        return Err(CopyFault::File);
    }
    Ok(())
}

/// Copies all blocks up to an offset but the first one.
pub(crate) fn copy_blocks<D: Disk, F: Disk>(
    disk: &mut D,
    file: &mut F,
    end: usize,
) -> Result<(), CopyFault>
    requires blocks { end % 4096 ≡ 0 }
    requires disk { end ≤ D.size disk.old }
    requires file { end ≤ F.size file.old }
    ensures read { IsOnlyRead D.Disk disk.old disk.new (is_disk_fault result) }
    ensures written { WritesIn F.Disk (λ i. 4096 ≤ i) file.old file.new (is_file_fault result) }
    ensures copied { OnOk result (D.is_honest disk.new → F.is_honest file.new
        → AreSameBetween 4096 end (D.content disk.old) (F.content file.new)) }
{
    for block in 1..end / BLOCK {
        copy_block(disk, file, BLOCK * block)?;
    }
    Ok(())
}
