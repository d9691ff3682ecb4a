//! Closed witnesses of the laws of what was printed and told. What stops a test meets any clause, so each shows its witness by coming to
//! its end.
ghost use Rattle.std.specs.Prelude.{◌≡◌, ◌∷◌, ℕ, []};
ghost use Rattle.ckrt_events.specs.Bytes.{IsInRange};
ghost use Rattle.ckrt_cli_disk.specs.Printing.{HoldsEvents};
ghost use Rattle.ckrt_stored.specs.Programs.{Program};
ghost use Rattle.ckrt_witness.specs.Printed.{PrintedWitness, ToldWitness, UnrecoveredWitness};

use crate::closed::{formatted, memory_disk, stopping_disk};
use crate::closed_machine::WAITERS;
use crate::printed::{fail_one, hold_one, run_one, serve_twice};
use ckrt_disk::{Disk, MemoryDisk, StoppingDisk};
use ckrt_events::Event;
use std::process::Abort;

/// A disk that holds an event.
fn held<R: Abort + AllocGlobal>(rt: &R, event: &Event) -> MemoryDisk
    requires { IsInRange event.now }
    ensures { (p : Program) × HoldsEvents ⟦<MemoryDisk as Disk>⟧ p (event.now ∷ []) result }
{
    let disk = memory_disk(rt, formatted(rt, WAITERS));
    match hold_one(rt.alloc(), disk, event) {
        Some(disk) => disk,
        None => panic!(rt; "the event isn't committed"),
    }
}

/// A run of such a disk by lines: it meets all premises of the law of what was printed.
fn printed<R: Abort + AllocGlobal>(rt: &R, lines: &[u8])
    ensures { (p : Program) × PrintedWitness ⟦<MemoryDisk as Disk>⟧ p }
{
    let disk = held(rt, &Event::Place(0, 1));
    match run_one(rt.alloc(), disk, lines) {
        Some(_) => {}
        None => panic!(rt; "the lines aren't served to their end"),
    }
}

/// A run of a disk with the same bytes that fails its recovery: it meets all premises of the law of what recovers nothing.
fn unrecovered<R: Abort + AllocGlobal>(rt: &R, lines: &[u8])
    ensures { (p : Program) × UnrecoveredWitness ⟦<StoppingDisk as Disk>⟧ p }
{
    let disk = held(rt, &Event::Place(0, 1));
    let broken = stopping_disk(rt, disk.into_image(), 1);
    match fail_one(rt.alloc(), broken, lines) {
        Some(_) => {}
        None => panic!(rt; "the disk recovers"),
    }
}

/// Two services: they meet all premises of what the reader of lines is told.
fn told<R: Abort + AllocGlobal>(rt: &R, lines: &[u8], others: &[u8])
    ensures { (p : Program) × ToldWitness ⟦<MemoryDisk as Disk>⟧ p }
{
    let disk = memory_disk(rt, formatted(rt, WAITERS));
    match serve_twice(rt.alloc(), disk, lines, others) {
        Some(_) => {}
        None => panic!(rt; "the lines are answered otherwise"),
    }
}

#[test]
fn the_premises_of_printed_bytes_are_met(rt: HostRuntime) {
    printed(&rt, b"run 0 9\ncommit\nquit\ntick 1\n");
}

#[test]
fn the_premises_of_a_run_that_recovers_nothing_are_met(rt: HostRuntime) {
    unrecovered(&rt, b"run 0 9\ncommit\nquit\n");
}

#[test]
fn the_premises_of_what_is_told_are_met(rt: HostRuntime) {
    told(&rt, b"auto 0 9\ncommit\n", b"tick 1\ncommit\n");
}
