//! The law of histories that were begun from a disk. It is the contract of a function with an empty body.
ghost use Rattle.ckrt_history.specs.Begun.{BegunHasJust, BegunHasRecording};

/// A history that was begun from a disk has just what the disk's areas and journals have recorded. So where the disk recovers it has what the
/// disk has recorded.
pub fn begun_has_what_its_disk_has()
    ensures just { BegunHasJust }
    ensures recording { BegunHasRecording }
{}
