//! Laws of histories. Each is the contract of a function with an empty body.
ghost use Rattle.ckrt_history.specs.Appending.{AppendedHasMore};
ghost use Rattle.ckrt_history.specs.Either.{IsHistoryByFront};
ghost use Rattle.ckrt_history.specs.History.{HasNoFault, IsRecordedOnce};
ghost use Rattle.ckrt_history.specs.Kept.{BeginsAtEnd, GoesOnTogether, KeepsOn};
ghost use Rattle.ckrt_history.specs.Many.{BeginBeside, KeepsTheAcknowledged, RecordingsAreTheirs, RunsStandBeside};
ghost use Rattle.ckrt_history.specs.Parting.{PartsAreTheirs};
ghost use Rattle.ckrt_history.specs.Snapshots.{SavedAreOwn, SnapshotsBeginParts};

use ckrt_disk::Disk;

/// A history has one thing recorded only, and bytes that have something recorded have no fault.
pub fn histories_are_one()
    ensures once { IsRecordedOnce }
    ensures no_fault { HasNoFault }
{}

/// A history whose long journal got a batch more has that batch's events behind those that it had, and all else as before.
pub fn appended_histories_have_more()
    ensures { AppendedHasMore }
{}

/// A file is a history by its first gate and its name exactly where its front isn't refused as `NotAHistory`.
pub fn histories_are_named()
    ensures { IsHistoryByFront }
{}

/// A history that was begun from a disk, or brought up to it, goes just as far as what the disk has recorded.
pub fn joined_histories_go_as_far()
    ensures { BeginsAtEnd }
{}

/// A drive that keeps a history: after each step that has all events that are acknowledged, durably, behind those that it began with. And whatever a
/// stop leaves at any moment of the disk recovers to a list of events of which whatever it leaves of the history has a beginning.
pub fn drives_keep_histories<D: Disk, O: Disk, K: Disk>()
    ensures keep { KeepsOn D.Disk O.Disk K.Disk }
    ensures together { GoesOnTogether D.Disk O.Disk K.Disk }
{}

/// An image that has recorded the events to which it recovers has just these, as a look at its recording reads them.
pub fn recordings_are_theirs()
    ensures { RecordingsAreTheirs }
{}

/// Many runs over a disk, an output and the file of a history: the disk is made ready, a history is opened, a drive keeps it or doesn't, each on
/// what a stop of the one before left of the three, at one moment. Whatever each leaves stands: disk and output hold together, and the history
/// has just a beginning of the events that are acknowledged. They begin with a formatted disk, any output, and a file that is no history.
/// Behind a run that kept it the history has all that are acknowledged, durably.
pub fn runs_stand_beside_a_history<D: Disk, O: Disk, K: Disk>()
    ensures begin { BeginBeside D.Disk O.Disk K.Disk }
    ensures stand { RunsStandBeside D.Disk O.Disk K.Disk }
    ensures acknowledged { KeepsTheAcknowledged D.Disk O.Disk K.Disk }
{
    ckrt_drive::recovery_keeps_recorded::<D>();
}

/// A part of what is a history of a program's events is a history of a beginning of them: it begins with the plain fold's state behind the
/// first ones, and has those that follow, in order.
pub fn parts_have_the_same_events()
    ensures { PartsAreTheirs }
{}

/// A snapshot that was saved of a history which had just its events then, with the plain fold's state behind them, is the history's own.
pub fn saved_snapshots_are_own()
    ensures { SavedAreOwn }
{}

/// A snapshot that is a history's own begins just the part of it from there on: what the history has behind the snapshot's events, from the plain
/// fold's state behind them on. That holds whenever it was saved, unless its digest is that of other bytes, too.
pub fn snapshots_begin_parts()
    ensures { SnapshotsBeginParts }
{}
