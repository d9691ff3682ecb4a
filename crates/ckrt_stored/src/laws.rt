//! Laws of what an image recovers to. Each is the contract of a function with an empty body.
ghost use Rattle.ckrt_stored.specs.Frame.{IsFramed, IsNoteApart, IsSpareFree, IsSwitched};
ghost use Rattle.ckrt_stored.specs.Past.{PastFaultIsWhole};
ghost use Rattle.ckrt_stored.specs.Recovery.{RecoversOnce};
ghost use Rattle.ckrt_stored.specs.Schedules.{AreFieldlessFree};

/// An image recovers to one thing only.
pub fn images_recover_once()
    ensures { RecoversOnce }
{}

/// The bytes of the area that isn't in use, and of its journal, don't matter to what an image recovers to, where that
/// area's gate isn't open.
pub fn unused_area_is_free()
    ensures { IsFramed }
{}

/// The bytes after those that the configuration needs don't matter to what an image recovers to.
pub fn spare_bytes_are_free()
    ensures { IsSpareFree }
{}

/// What a disk notes of its program stands in its first 72 bytes, which nothing but formatting writes.
pub fn note_stands_in_the_superblock()
    ensures { IsNoteApart }
{}

/// The bytes behind the fields of the superblock and before the first area, where schedules are noted, don't matter to what an
/// image recovers to, its faults too, nor to the program that it notes.
pub fn fieldless_bytes_are_free()
    ensures { AreFieldlessFree }
{}

/// An image recovers to the state that its newest open area holds, where the area's journal has no batch.
pub fn newest_area_takes_over()
    ensures { IsSwitched }
{}

/// A fault of an image's past is what the image recovers to, whatever the count.
pub fn past_of_an_image_has_its_faults()
    ensures { PastFaultIsWhole }
{}
