//! A closed witness of the law of a history beside many runs, over disks in memory.
ghost use Rattle.std.specs.Prelude.{ℕ};
ghost use Rattle.ckrt_look_recording.specs.Recording.{Recorded};
ghost use Rattle.ckrt_history.specs.History.{HasHistory};
ghost use Rattle.ckrt_witness.specs.Beside.{BesideWitness, RanBeside, three};

use crate::beside::{keep_once, two_runs_beside};
use crate::closed::{ENDLESS, copied, formatted, memory_disk};
use ckrt_disk::{Disk, MemoryDisk};
use ckrt_drive::{Nothing, Options};
use ckrt_history::{HistoryFault, Kept, histories_are_one, history_span};
use ckrt_schedule::ScheduleEnd;
use std::process::Abort;

/// How many bytes the file of the history has, all zeros at first.
pub(crate) const ROOM: usize = 1_048_576;

/// A run of a disk with these bytes by so many events, which keeps its history in a file that has so many bytes.
fn kept<R: Abort + AllocGlobal>(
    rt: &R,
    disk: MemoryDisk,
    output: MemoryDisk,
    file: MemoryDisk,
    bytes: usize,
    events: u64,
) -> Kept<MemoryDisk, MemoryDisk, Nothing, MemoryDisk>
    ensures { RanBeside ⟦<MemoryDisk as Disk>⟧ ⟦<MemoryDisk as Disk>⟧ ⟦<MemoryDisk as Disk>⟧
        (three disk output file) (three result.session.disk result.output result.file) }
{
    let options = Options::new(300, 1, events);
    match keep_once(rt.alloc(), disk, output, file, bytes, options) {
        Ok(kept) => kept,
        Err(unmade) => panic!(rt; "{unmade:?}"),
    }
}

/// The bytes of a file of zeros, which is no history.
pub(crate) fn no_history<R: Abort + AllocGlobal>(rt: &R) -> Vec<u8>
    ensures { (r : Recorded) → HasHistory result.items r → ⊥ }
{
    let zeros = vec![in rt.alloc(); 0; ROOM].expect(rt, "memory for bytes");
    let mut looked = memory_disk(rt, copied(rt, &zeros));
    match history_span(rt.alloc(), &mut looked) {
        Err(HistoryFault::NotAHistory) => {}
        _ => panic!(rt; "zeros are a history"),
    }
    histories_are_one();
    zeros
}

/// Two runs of a guest that keep its history, the second on what a stop behind the first left: they meet all premises of the law.
fn runs_beside<R: Abort + AllocGlobal>(rt: &R)
    ensures { BesideWitness ⟦<MemoryDisk as Disk>⟧ ⟦<MemoryDisk as Disk>⟧
        ⟦<MemoryDisk as Disk>⟧ }
{
    let disk = memory_disk(rt, formatted(rt, ENDLESS));
    let output = memory_disk(rt, copied(rt, b"........"));
    let file = memory_disk(rt, no_history(rt));
    let first = kept(rt, disk, output, file, 0, 2);
    assert_eq!(rt; first.answer, Ok(Some(ScheduleEnd::Enough)));
    let disk = memory_disk(rt, first.session.into_disk().into_image());
    let output = memory_disk(rt, first.output.into_image());
    let file = memory_disk(rt, first.file.into_image());
    let second = kept(rt, disk, output, file, ROOM, 2);
    assert_eq!(rt; second.answer, Ok(Some(ScheduleEnd::Enough)));
    memory_disk(rt, second.session.into_disk().into_image());
    memory_disk(rt, second.output.into_image());
    memory_disk(rt, second.file.into_image());
    two_runs_beside::<MemoryDisk, MemoryDisk, MemoryDisk>();
}

#[test]
fn the_premises_of_a_history_beside_many_runs_are_met(rt: HostRuntime) {
    runs_beside(&rt);
}
