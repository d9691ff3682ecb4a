//! Laws of what a disk has recorded. Each is the contract of a function with an empty body.
ghost use Rattle.ckrt_stored.specs.Recorded.{BeginsRecorded, RecordedAsRecovered};
ghost use Rattle.ckrt_drive.specs.Recording.{OpensRecorded};

use ckrt_disk::Disk;

/// A freshly formatted disk has recorded that there is no event; and what an image has recorded are as many events as it recovers to.
pub fn images_have_recorded()
    ensures begins { BeginsRecorded }
    ensures one { RecordedAsRecovered }
{}

/// A session that recovery gives has recorded what its disk had.
pub fn recovery_keeps_recorded<D: Disk>()
    ensures { OpensRecorded D.Disk }
{}
