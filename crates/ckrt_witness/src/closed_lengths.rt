//! A closed witness of how long the file of an output is. What stops a test meets any clause, so it shows its witness by coming to its end.
ghost use Rattle.ckrt_witness.specs.Lengths.{LengthWitness};

use crate::closed::{GUEST, copied, formatted, memory_disk, stopping_disk};
use crate::lengths::drive_to_end;
use ckrt_disk::{Disk, MemoryDisk, StoppingDisk};
use ckrt_drive::Options;
use std::process::Abort;

/// A drive with an input to its end, with a file of the output that is empty at first: it meets all premises of the law.
fn long<R: Abort + AllocGlobal>(rt: &R, text: &[u8], room: &[u8])
    ensures { LengthWitness ⟦<StoppingDisk as Disk>⟧ ⟦<MemoryDisk as Disk>⟧ 0 }
{
    let disk = stopping_disk(rt, formatted(rt, GUEST), 0);
    let output = memory_disk(rt, copied(rt, room));
    let input = stopping_disk(rt, copied(rt, text), 0);
    let options = Options::new(300, 1, u64::MAX);
    match drive_to_end(rt.alloc(), disk, output, 0, input, options) {
        Some(_) => {}
        None => panic!(rt; "the drive comes to no end, or prints nothing"),
    }
}

#[test]
fn the_premises_of_the_length_of_an_output_are_met(rt: HostRuntime) {
    long(&rt, b"Ab", &[0; 8]);
}
