//! A closed witness of the laws of sessions that answer alike. What stops a test meets any clause, so it shows its witness by coming to its
//! end.
ghost use Rattle.std.specs.Prelude.{◌∷◌, []};
ghost use Rattle.ckrt_events.specs.Bytes.{IsInRange};
ghost use Rattle.ckrt_recovery.specs.Represents.{Represents, RepresentsDisk};
ghost use Rattle.ckrt_stored.specs.Programs.{Program, RecoversTo, RecoversToStart};
ghost use Rattle.ckrt_witness.specs.Alike.{AlikeWitness};

use crate::alike::{answer_alike, represent_again, represent_one};
use crate::closed::{copied, formatted, memory_disk, stopping_disk};
use crate::closed_machine::WAITERS;
use ckrt_disk::{Disk, MemoryDisk, StoppingDisk};
use ckrt_events::Event;
use ckrt_recovery::Session;
use std::process::Abort;

/// A session that has committed an event.
fn committed<R: Abort + AllocGlobal>(rt: &R, disk: MemoryDisk, event: &Event) -> Session<MemoryDisk>
    requires { IsInRange event.now }
    ensures { (p : Program) → RecoversToStart p (⟦<MemoryDisk as Disk>⟧.content disk)
        → Represents p (event.now ∷ []) result
        × RecoversTo p (event.now ∷ []) result.progress.confirmed
        (⟦<MemoryDisk as Disk>⟧.content result.disk) }
{
    match represent_one(rt.alloc(), disk, event) {
        Some(session) => session,
        None => panic!(rt; "the event isn't committed"),
    }
}

/// A session of a disk.
fn recovered<R: Abort + AllocGlobal>(rt: &R, disk: StoppingDisk) -> Session<StoppingDisk>
    ensures { RepresentsDisk disk result }
{
    match represent_again(rt.alloc(), disk) {
        Some(session) => session,
        None => panic!(rt; "the disk doesn't recover"),
    }
}

/// A session that has committed an event, and another one over what such a session left, of another kind of disk: they meet all premises of
/// the laws.
fn alike<R: Abort + AllocGlobal>(rt: &R, event: &Event, line: &[u8])
    requires { IsInRange event.now }
    ensures { AlikeWitness ⟦<MemoryDisk as Disk>⟧ ⟦<StoppingDisk as Disk>⟧ line.now }
{
    let image = formatted(rt, WAITERS);
    let before = committed(rt, memory_disk(rt, copied(rt, &image)), event);
    let left = before.into_disk().into_image();
    let one = committed(rt, memory_disk(rt, image), event);
    let other = recovered(rt, stopping_disk(rt, left, 0));
    if !answer_alike(one, other, line) {
        panic!(rt; "a session doesn't take the event of the line");
    }
}

#[test]
fn the_premises_of_answers_alike_are_met(rt: HostRuntime) {
    alike(&rt, &Event::Place(0, 1), b"run 0 9");
}
