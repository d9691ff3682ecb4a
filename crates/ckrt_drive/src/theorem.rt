//! The theorem on one page.
ghost use Rattle.ckrt_drive.specs.Theorem.{ManyDrives, PowerLoss};

use ckrt_disk::Disk;

/// What is promised when the power fails: of one call of a session, and of many drives over a disk and an output.
pub fn power_may_go<D: Disk, O: Disk>()
    ensures power_loss { PowerLoss D.Disk }
    ensures many_drives { ManyDrives D.Disk O.Disk }
{}
