//! A closed witness of the law that lines of output agree. What stops a test meets any clause, so it shows its witness by coming to its end.
ghost use Rattle.ckrt_events.specs.Bytes.{IsInRange};
ghost use Rattle.ckrt_stored.specs.Programs.{Program};
ghost use Rattle.ckrt_witness.specs.Lines.{LinesWitness};

use crate::closed::{formatted, memory_disk};
use crate::released::release_twice;
use ckrt_disk::{Disk, MemoryDisk};
use ckrt_events::Event;
use std::process::Abort;

/// A guest that puts bytes for ever.
const PUTS: &[u8] = &[
    0x13, 0x05, 0x10, 0x04, // addi x10, x0, 65
    0x93, 0x08, 0x20, 0x00, // addi x17, x0, 2
    0x73, 0x00, 0x00, 0x00, // ecall
    0x6f, 0xf0, 0x5f, 0xff, // jal x0, -12
];

/// A program that puts bytes, and then more of them: it meets all premises of the law.
fn lines<R: Abort + AllocGlobal>(rt: &R, place: &Event, run: &Event, tick: &Event)
    requires place { IsInRange place.now }
    requires run { IsInRange run.now }
    requires tick { IsInRange tick.now }
    ensures { (p : Program) × LinesWitness p }
{
    let disk = memory_disk(rt, formatted(rt, PUTS));
    match release_twice(rt.alloc(), disk, (place, run), (tick, run)) {
        Some(_) => {}
        None => panic!(rt; "an event is refused, or puts nothing"),
    }
}

#[test]
fn the_premises_of_lines_that_agree_are_met(rt: HostRuntime) {
    lines(
        &rt,
        &Event::Place(0, 1),
        &Event::Run(0, 20),
        &Event::Tick(1),
    );
}
