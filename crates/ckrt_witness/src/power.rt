//! A session that takes an event and commits it, or saves it in a checkpoint, as the promise on power loss speaks of it.
ghost use Rattle.std.specs.Prelude.{IfSome};
ghost use Rattle.ckrt_events.specs.Bytes.{IsInRange};
ghost use Rattle.ckrt_stored.specs.Programs.{Program, RecoversToStart};
ghost use Rattle.ckrt_witness.specs.Power.{PowerWitness};

use ckrt_disk::Disk;
use ckrt_events::Event;
use ckrt_recovery::{Session, recover};
use std::alloc::Global;

/// Recovers a disk, takes an event, and commits it. On a disk that was formatted, and that is honest in the end, that meets all
/// premises of the promise on power loss. None where the disk didn't recover, the event was refused, or the commit
/// failed.
pub fn commit_one<D: Disk + Drop>(alloc: Global, disk: D, event: &Event) -> Option<Session<D>>
    requires { IsInRange event.now }
    ensures { IfSome result (λ session.
        D.is_honest session.disk → (p : Program) → RecoversToStart p (D.content disk)
        → PowerWitness D.Disk p) }
{
    let Ok(mut session) = recover(alloc, disk) else {
        return None;
    };
    if session.submit(event).is_err() {
        return None;
    }
    let committed = session.commit();
    if committed.is_err() {
        return None;
    }
    Some(session)
}

/// Recovers a disk, takes an event, and saves it in a checkpoint: that meets all premises, as [`commit_one`] does. None where the disk didn't
/// recover, the event was refused, or the checkpoint failed.
pub fn save_one<D: Disk + Drop>(alloc: Global, disk: D, event: &Event) -> Option<Session<D>>
    requires { IsInRange event.now }
    ensures { IfSome result (λ session.
        D.is_honest session.disk → (p : Program) → RecoversToStart p (D.content disk)
        → PowerWitness D.Disk p) }
{
    let Ok(mut session) = recover(alloc, disk) else {
        return None;
    };
    if session.submit(event).is_err() {
        return None;
    }
    let saved = session.checkpoint();
    if saved.is_err() {
        return None;
    }
    Some(session)
}
