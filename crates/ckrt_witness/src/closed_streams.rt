//! A closed witness of services whose reader or writer fails. What stops a test meets any clause, so it shows its witness by coming to its
//! end.
ghost use Rattle.ckrt_main.specs.declared.fault.ServeFault.TheVariants.{Read, Write};
ghost use Rattle.ckrt_stored.specs.Programs.{Program, RecoversToStart};
ghost use Rattle.ckrt_witness.specs.Streams.{BrokenService, StreamsWitness};

use crate::closed::{copied, formatted, memory_disk};
use crate::closed_machine::WAITERS;
use crate::streams::serve_broken;
use ckrt_disk::{Disk, MemoryDisk};
use ckrt_main::ServeFault;
use std::process::Abort;

/// A service whose reader fails behind these lines.
fn by_reader<R: Abort + AllocGlobal>(rt: &R, disk: MemoryDisk, lines: &[u8])
    ensures { (p : Program) → RecoversToStart p (⟦<MemoryDisk as Disk>⟧.content disk)
        → BrokenService ⟦<MemoryDisk as Disk>⟧ p Read }
{
    match serve_broken(rt.alloc(), disk, lines, 1_000) {
        Some((_, ServeFault::Read)) => {}
        _ => panic!(rt; "the reader doesn't fail the service"),
    }
}

/// A service whose writer fails behind so many bytes.
fn by_writer<R: Abort + AllocGlobal>(rt: &R, disk: MemoryDisk, lines: &[u8], room: usize)
    ensures { (p : Program) → RecoversToStart p (⟦<MemoryDisk as Disk>⟧.content disk)
        → BrokenService ⟦<MemoryDisk as Disk>⟧ p Write }
{
    match serve_broken(rt.alloc(), disk, lines, room) {
        Some((_, ServeFault::Write)) => {}
        _ => panic!(rt; "the writer doesn't fail the service"),
    }
}

/// One of each, of one program: they meet all premises of the clauses.
fn streams<R: Abort + AllocGlobal>(rt: &R, lines: &[u8], room: usize)
    ensures { StreamsWitness ⟦<MemoryDisk as Disk>⟧ }
{
    let image = formatted(rt, WAITERS);
    by_reader(rt, memory_disk(rt, copied(rt, &image)), lines);
    by_writer(rt, memory_disk(rt, image), lines, room);
}

#[test]
fn the_premises_of_streams_that_fail_are_met(rt: HostRuntime) {
    // the first reply has 14 bytes, and the second one 6
    streams(&rt, b"tick 1\ncommit\n", 15);
}
