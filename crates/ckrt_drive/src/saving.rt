//! A checkpoint with the record of the input.
ghost use Rattle.std.specs.Prelude.{◌≡◌, ◌≤◌, ◌<◌, ◌+◌, []};
ghost use Rattle.ckrt_stored.specs.Layout.{size_needed};
ghost use Rattle.ckrt_recovery.specs.Calls.{Checkpoints, KeepsRooms};
ghost use Rattle.ckrt_recovery.specs.Represents.{RecoversAtAnyMoment, RepresentsSame};
ghost use Rattle.ckrt_drive.specs.Keeping.{SavesInput, WritesRecord};
ghost use Rattle.ckrt_drive.specs.Recording.{RecordsEvents};
ghost use Rattle.ckrt_drive.specs.Slot.{RECORD_BYTES, TAKEN_LIMIT};

use crate::slot::{SLOT_DISTANCE, Slot, slot_bytes};
use ckrt_disk::Disk;
use ckrt_recovery::{CommitFault, Session};

/// How many bytes the record has after those that the format needs.
pub const RECORD_BYTES: usize = 4_096;

/// Saves a session in the disk's other area, as its checkpoint does, and before that the number of bytes of input that its events
/// took, in the slot of that area. A stop at any moment leaves an area in use with its slot.
pub fn checkpoint<D: Disk>(session: &mut Session<D>, taken: u64) -> Result<u64, CommitFault>
    requires room { size_needed session.old.progress.config + RECORD_BYTES
        ≤ D.size session.old.disk }
    requires taken { taken < TAKEN_LIMIT }
    ensures any_moment { RecoversAtAnyMoment session.old session.new }
    ensures saves { SavesInput taken session.old session.new }
    ensures records { RecordsEvents [] session.old session.new }
    ensures represents { D.is_honest session.new.disk → RepresentsSame session.old session.new }
    ensures disk { WritesRecord session.old result session.new }
    ensures checkpoints { Checkpoints session.old result session.new }
    ensures rooms { KeepsRooms session.old session.new }
{
    let generation = session.generation();
    if generation == u64::MAX {
        return session.checkpoint();
    }
    let slot = Slot {
        generation: generation + 1,
        count: session.count(),
        taken,
    };
    let offset = SLOT_DISTANCE * (1 - session.area());
    session.write_spare(offset, slot_bytes(&slot).as_slice())?;
    session.checkpoint()
}
