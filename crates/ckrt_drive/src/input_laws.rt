//! Laws of the record. Each is the contract of a function with an empty body.
ghost use Rattle.ckrt_drive.specs.Fed.{BeginsFed, FedAsRecovered, TellsOffset};
ghost use Rattle.ckrt_drive.specs.Keeping.{AsidesKeep, CommitsKeep, OpeningsKeep, SubmitsKeep};
ghost use Rattle.ckrt_drive.specs.SlotLaws.{ReadsBack};

use ckrt_disk::Disk;
use ckrt_recovery::Session;

/// An image that keeps what events took tells just that as its offset; a freshly formatted disk keeps that no event took any; and an
/// image that recovers to events keeps what no other number of them took. A slot that was written reads as it is.
pub fn images_tell_offsets()
    ensures offset { TellsOffset }
    ensures begins { BeginsFed }
    ensures one { FedAsRecovered }
    ensures slots { ReadsBack }
{}

/// A session that keeps what its events took goes on to keep it: over a commit at any moment, and over all calls that leave the
/// disk.
pub fn calls_keep_input<D: Disk>(before: &Session<D>, after: &Session<D>)
    ensures commit { CommitsKeep before.now after.now }
    ensures submit { SubmitsKeep before.now after.now }
    ensures aside { AsidesKeep before.now after.now }
{}

/// A session that recovery gives keeps what the disk kept.
pub fn recovery_keeps_input<D: Disk>(disk: &D, session: &Session<D>)
    ensures { OpeningsKeep disk.now session.now }
{}
