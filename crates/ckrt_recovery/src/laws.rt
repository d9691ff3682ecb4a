//! Laws of sessions. Each is the contract of a function with an empty body.
ghost use Rattle.ckrt_recovery.specs.Reached.{FitsItsCalls, RepresentsItsCalls, SurvivesCall};
ghost use Rattle.ckrt_recovery.specs.Represents.{RecoversAtAnyMoment};

use crate::session::Session;
use ckrt_disk::Disk;

/// A session that the public calls make represents its events. So they fit it, and what "represents" says beside that holds: a
/// replay of the pending ones is not stopped by the ends of the counts, and nothing is pending on the disk of a session that
/// has not failed.
pub fn calls_give_represented<D: Disk>(session: &Session<D>)
    ensures represents { RepresentsItsCalls session.now }
    ensures fits { FitsItsCalls session.now }
{}

/// So the promise on power loss needs neither: of a commit or a checkpoint of a session that the public calls make, whatever a
/// stop at any moment leaves recovers to the acknowledged events, or to all.
pub fn calls_survive_a_stop<D: Disk>(before: &Session<D>, after: &Session<D>)
    ensures { RecoversAtAnyMoment before.now after.now → SurvivesCall before.now after.now }
{}
