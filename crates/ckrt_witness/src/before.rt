//! Disks that are read or recovered before a drive, as the laws of what a stop leaves then speak of them.
ghost use Rattle.std.specs.Prelude.{IfSome, false, true};
ghost use Rattle.ckrt_disk.specs.Frame.{IsOnlyRead};
ghost use Rattle.ckrt_recovery.specs.Opening.{IsSyncedAndRead};
ghost use Rattle.ckrt_witness.specs.Before.{BeforeWitness, StoppedBefore};

use ckrt_disk::Disk;
use ckrt_drive::read_offset;
use ckrt_recovery::{RecoverFault, recover};
use std::alloc::Global;

/// Reads the record of a disk. None where it can't tell how much of its input the program has taken.
pub fn read_before<D: Disk + Drop>(disk: D) -> Option<D>
    ensures { IfSome result (λ end. IsOnlyRead D.Disk disk end false) }
{
    let mut disk = disk;
    match read_offset(&mut disk, None) {
        Ok(_) => Some(disk),
        Err(_) => None,
    }
}

/// Recovers a disk, which fails that. None where it recovers, or doesn't for another reason.
pub fn fail_recovery<D: Disk + Drop>(alloc: Global, disk: D) -> Option<D>
    ensures { IfSome result (λ end. IsSyncedAndRead D.Disk disk end true) }
{
    let Err(unrecovered) = recover(alloc, disk) else {
        return None;
    };
    let RecoverFault::Device = unrecovered.fault else {
        return None;
    };
    Some(unrecovered.disk)
}

/// What a stop behind a drive left, and what another one left of a disk that was read then and of one that failed its recovery, meet all
/// premises of the laws.
pub fn stop_before<D: Disk, O: Disk>()
    ensures { StoppedBefore D.Disk O.Disk → BeforeWitness D.Disk O.Disk }
{}
