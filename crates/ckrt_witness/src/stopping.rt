//! Drives that a disk or an output fails, as the clauses of a drive speak of them.
ghost use Rattle.std.specs.Prelude.{◌≡◌, IfSome, true};
ghost use Rattle.ckrt_disk.specs.Disk.{HasFailed};
ghost use Rattle.ckrt_drive.specs.declared.fault.DriveFault.TheVariants.{Device, Input, Output};
ghost use Rattle.ckrt_stored.specs.Programs.{Program, RecoversToStart};
ghost use Rattle.ckrt_witness.specs.Stopping.{FailedDrive};

use ckrt_disk::Disk;
use ckrt_drive::{Drive, DriveFault, FromDisk, Nobody, Options};
use ckrt_recovery::recover;
use std::alloc::Global;

/// Drives a disk until the drive can't go on: of a formatted disk, where disk and output are honest in the end, that meets the premises of the
/// clauses on this fault. None where the disk doesn't recover, or the drive comes to an end.
pub fn fail_drive<D: Disk + Drop, O: Disk + Drop>(
    alloc: Global,
    disk: D,
    output: O,
    options: Options,
) -> Option<DriveFault>
    ensures { IfSome result (λ fault. ((x : D) → D.is_honest x) → ((y : O) → O.is_honest y)
        → (p : Program) → RecoversToStart p (D.content disk)
        → (drive : FailedDrive D.Disk O.Disk p fault)
        × (fault ≡ Device → drive.new.failed ≡ true)
        × (fault ≡ Output → HasFailed (O.failures drive.output) (O.failures drive.end))) }
{
    let Ok(session) = recover(alloc, disk) else {
        return None;
    };
    let mut drive = Drive::new(session, output, options);
    match drive.run(u64::MAX, &mut Nobody) {
        Ok(_) => None,
        Err(fault) => Some(fault),
    }
}

/// Drives a disk with an input, which fails the drive: of a formatted disk, where disk and output are honest in the end, that meets the premises
/// of the clauses on that fault. None where the disk doesn't recover, or the drive comes to an end or to another fault.
pub fn fail_by_input<D: Disk + Drop, O: Disk + Drop, I: Disk + Drop>(
    alloc: Global,
    disk: D,
    output: O,
    input: I,
    options: Options,
) -> Option<I>
    ensures { IfSome result (λ end. ((x : D) → D.is_honest x) → ((y : O) → O.is_honest y)
        → (p : Program) → RecoversToStart p (D.content disk)
        → FailedDrive D.Disk O.Disk p Input × HasFailed (I.failures input) (I.failures end)) }
{
    let Ok(session) = recover(alloc, disk) else {
        return None;
    };
    let mut drive = Drive::with_feed(session, output, options, FromDisk::new(input), 0);
    let Err(DriveFault::Input) = drive.run(u64::MAX, &mut Nobody) else {
        return None;
    };
    let (_session, _output, feed) = drive.into_parts();
    Some(feed.into_disk())
}
