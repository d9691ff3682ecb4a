//! Laws of transcripts and of services. Each is the contract of a function with an empty body.
ghost use Rattle.std.specs.Prelude.{◌≡◌, ◌+◌, ◌++◌, ℕ, List, length};
ghost use Rattle.ckrt_events.specs.declared.event.Event.{Event};
ghost use Rattle.ckrt_stored.specs.Programs.{Program};
ghost use Rattle.ckrt_machine.specs.Events.{fold, output_of};
ghost use Rattle.ckrt_machine.specs.Steps.{State};
ghost use Rattle.ckrt_recovery.specs.Represents.{Represents};
ghost use Rattle.ckrt_recovery.specs.View.{View, view_of};
ghost use Rattle.ckrt_main.specs.Transcript.{Fate, transcript};
ghost use Rattle.ckrt_main.specs.Alike.{AnswerAlike, IsAlike, NoneIsLocal};
ghost use Rattle.ckrt_main.specs.Told.{AcksAreDurable, LinesAgree, OutsAreOutput};

use ckrt_disk::Disk;
use ckrt_recovery::Session;

/// The accepted events of a transcript are all that happened to the machine: the session goes on from
/// their plain fold, and has counted each of them once.
pub fn transcript_folds_events()
    ensures state { (fate : Fate) (v : View) (bytes : List ℕ)
        → (transcript fate v bytes).view.recovered.state
        ≡ (fold (transcript fate v bytes).events v.recovered.state).state }
    ensures count { (fate : Fate) (v : View) (bytes : List ℕ)
        → (transcript fate v bytes).view.recovered.count
        ≡ v.recovered.count + length (transcript fate v bytes).events }
{}

/// What a reader of the lines is told is durable: for each `ack K` that a service wrote, and whatever it answered, every image
/// that a stop leaves after the service has ended recovers to a list with the first K events; and each line of output is the
/// plain fold's output of acknowledged events, at its offset. A stop within the service is a disk that fails each call from
/// there on, after which the service ends.
pub fn told_is_durable<D: Disk>(before: &Session<D>, after: &Session<D>, later: &Session<D>)
    ensures acks { AcksAreDurable before.now after.now later.now }
    ensures outs { OutsAreOutput before.now after.now }
{}

/// Sessions with the same state and count answer the same lines alike, whatever is pending, held or confirmed: the same
/// answers, the same events, and again sessions that are alike, as far as neither refuses by its own room, batch, held output,
/// counts, disk or journal's version.
pub fn answers_alike()
    ensures { (f g : Fate) (v w : View) (bytes : List ℕ) → IsAlike v w
        → NoneIsLocal (transcript f v bytes).replies → NoneIsLocal (transcript g w bytes).replies
        → AnswerAlike (transcript f v bytes) (transcript g w bytes) }
{}

/// Sessions that represent the same events have the same state and count, over whatever disks and after whatever stops.
pub fn same_events_are_alike<D: Disk, E: Disk>(one: &Session<D>, other: &Session<E>)
    ensures { (p : Program) (events : List Event) → Represents p events one.now
        → Represents p events other.now → IsAlike (view_of one.now) (view_of other.now) }
{}

/// The output of more events goes on after that of the first, so that lines of both have the same byte at the same offset.
pub fn output_goes_on()
    ensures output { (events more : List Event) (s : State)
        → output_of (events ++ more) s
        ≡ output_of events s ++ output_of more (fold events s).state }
    ensures lines { (out more : List ℕ) → LinesAgree out more }
{}
