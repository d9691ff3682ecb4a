//! Laws of what comes before a drive: its disk is looked at, made longer where it has no room for the record, and notes its schedule.
ghost use Rattle.std.specs.Prelude.{Bool, List};
ghost use Rattle.ckrt_disk.specs.Frame.{IsOnlyRead};
ghost use Rattle.ckrt_drive.specs.Stages.{Stage};
ghost use Rattle.ckrt_drive.specs.Drives.{StopLeaves};
ghost use Rattle.ckrt_drive.specs.Lengthening.{LengthenedTells, LengtheningKeeps, LengtheningRecords, RecoverReadied};
ghost use Rattle.ckrt_drive.specs.Together.{IsLeftSince};

use ckrt_disk::Disk;

/// A disk that is made longer has zeros after its bytes, and one that notes its schedule has other bytes where that stands. Whatever a stop
/// meanwhile leaves recovers as before, so the same command goes on; it goes with the output as before, has recorded the same events, and tells as much of
/// its input.
pub fn longer_disks_are_the_same<D: Disk, O: Disk>()
    ensures recover { RecoverReadied }
    ensures keep { LengtheningKeeps D.Disk O.Disk }
    ensures record { LengtheningRecords D.Disk }
    ensures tell { LengthenedTells D.Disk }
{}

/// What is read of a disk before its recovery, as its sizes and its record, leaves what the stop before it left, and so does the output
/// then, which isn't opened.
pub fn reads_leave_the_same<D: Disk, O: Disk>(
    start: &D,
    end: &D,
    left: &D,
    output: &O,
    left_output: &O,
)
    ensures { (stages : List (Stage D.Disk O.Disk)) (x at : Stage D.Disk O.Disk) (failed : Bool)
        → StopLeaves stages x at start.now output.now
        → IsOnlyRead D.Disk start.now end.now failed → D.is_honest end.now
        → O.is_honest output.now → IsLeftSince D.Disk start.now end.now left.now
        → IsLeftSince O.Disk output.now output.now left_output.now
        → StopLeaves stages x at left.now left_output.now }
{}
