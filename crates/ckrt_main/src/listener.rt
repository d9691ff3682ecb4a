//! Listeners, which are told what commands do.
ghost use Rattle.std.specs.Prelude.{◌≡◌, ◌+◌, ◌<◌, ◌^◌, ℕ, [], ◌∷◌, List, length, Option, OnErr, OnOk};
ghost use Rattle.ckrt_main.specs.Pieces.{Tells, TellsPart};
ghost use Rattle.ckrt_main.specs.Replies.{Reply, Accepted, Acknowledged, NotAccepted, NotSaved, outputs};

use ckrt_machine::Answer;
use ckrt_recovery::{CommitFault, SubmitFault};

/// A way of telling what commands do, as they do it, to `T`: to a writer by lines of text, to a list of bytes, or to whatever
/// else. What fails is told to nobody any more: the command ends with the fault.
pub trait Listener<T> {
    /// Why no more can be told.
    type Fault;

    /// What was told so far, where it is known.
    ghost contents: { T → Option (List ℕ) };

    /// What is told of a reply.
    ghost text: { Reply → List ℕ };

    /// An event was accepted, the `count`-th over all lives.
    fn accepted(to: &mut T, count: u64, answer: Answer) -> Result<(), Self::Fault>
        ensures ok { OnOk result
            (Tells text (contents to.old) (contents to.new) (Accepted count answer ∷ []) []) }
        ensures broken { OnErr result
            (Tells text (contents to.old) (contents to.new) [] (Accepted count answer ∷ [])) };

    /// An event was refused.
    fn refused(to: &mut T, fault: SubmitFault) -> Result<(), Self::Fault>
        ensures ok { OnOk result
            (Tells text (contents to.old) (contents to.new) (NotAccepted fault ∷ []) []) }
        ensures broken { OnErr result
            (Tells text (contents to.old) (contents to.new) [] (NotAccepted fault ∷ [])) };

    /// The first `count` events are durable.
    fn acknowledged(to: &mut T, count: u64) -> Result<(), Self::Fault>
        ensures ok { OnOk result
            (Tells text (contents to.old) (contents to.new) (Acknowledged count ∷ []) []) }
        ensures broken { OnErr result
            (Tells text (contents to.old) (contents to.new) [] (Acknowledged count ∷ [])) };

    /// A commit or a checkpoint was refused, or the device failed it.
    fn not_saved(to: &mut T, fault: CommitFault) -> Result<(), Self::Fault>
        ensures ok { OnOk result
            (Tells text (contents to.old) (contents to.new) (NotSaved fault ∷ []) []) }
        ensures broken { OnErr result
            (Tells text (contents to.old) (contents to.new) [] (NotSaved fault ∷ [])) };

    /// Output from an offset on.
    fn output(to: &mut T, offset: u64, bytes: &[u8]) -> Result<(), Self::Fault>
        requires { offset + length bytes.now < 2 ^ 64 }
        ensures ok { OnOk result
            (Tells text (contents to.old) (contents to.new) (outputs offset bytes.now) []) }
        ensures broken { OnErr result
            (TellsPart text (contents to.old) (contents to.new) (outputs offset bytes.now)) };
}
