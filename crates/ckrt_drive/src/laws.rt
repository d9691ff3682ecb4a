//! Laws of drives. Each is the contract of a function with an empty body.
ghost use Rattle.std.specs.Prelude.{◌≡◌, Err};
ghost use Rattle.ckrt_drive.specs.declared.fault.DriveFault.TheVariants.{Refused};
ghost use Rattle.ckrt_drive.specs.Plan.{plan};
ghost use Rattle.ckrt_drive.specs.declared.supply.Supply.{Supply};
ghost use Rattle.ckrt_drive.specs.Settled.{FindsAllAcknowledged, FindsNothingPending, NoneIsNext};
ghost use Rattle.ckrt_drive.specs.Streams.{GetsTheOutput};
ghost use Rattle.ckrt_recovery.specs.View.{View, view_of};
ghost use Rattle.ckrt_recovery.specs.declared.fault.SubmitFault.TheVariants.{NeedsCheckpoint};

use crate::options::Options;
use crate::stream::StreamOutput;
use ckrt_disk::Disk;
use ckrt_recovery::Session;
use std::io::Write;

/// What a run of a drive hands on to a stream is the plain fold's output of acknowledged events, whatever the run answered: each
/// byte once and in order, from the offset that the stream had got to, or that the session had confirmed if that is higher, up to
/// the one that is confirmed at its end; and where a call of the stream failed, also a beginning of what comes after that. That is said
/// where the session's disk is honest, and the bytes that the writer holds are known.
pub fn stream_gets_the_output<'a, D: Disk, W: Write>(
    before: &Session<D>,
    after: &Session<D>,
    stream: &StreamOutput<'a, W>,
    end: &StreamOutput<'a, W>,
)
    ensures { GetsTheOutput ⟦<StreamOutput<'a, W> as Disk>⟧ W.contents before.now after.now
        stream.now end.now }
{}

/// A drive hands in no event that its session refuses as `NeedsCheckpoint`: where the area is of version 1, it has been checkpointed
/// before.
pub fn plans_suit_the_version(options: &Options)
    ensures { (w : Supply) (v : View) → plan options.now w v ≡ Err (Refused NeedsCheckpoint) → ⊥ }
{}

/// A checkpoint of a drive finds nothing pending: the last batch stands in the journal. So the older area with its journal leads
/// exactly to what the newer one has.
pub fn checkpoints_find_nothing_pending<D: Disk>(options: &Options, session: &Session<D>)
    ensures acknowledged { FindsAllAcknowledged options.now (view_of session.now) }
    ensures pending { FindsNothingPending options.now session.now }
{}

/// After a checkpoint a drive plans none: the journal is empty, and takes each event of a plan.
pub fn no_checkpoint_behind_a_checkpoint<D: Disk>(options: &Options, session: &Session<D>)
    ensures { NoneIsNext options.now session.now }
{}
