//! What is given next, by the machine of a program that doesn't read.

use ckrt_events::Event;
use ckrt_machine::Machine;
use ckrt_schedule::{next_input, taken_by};
use std::process::Abort;

/// How many bytes the pieces have in which 130 bytes are given; then comes the end, as 0, and nothing more.
const PIECES: [usize; 4] = [64, 64, 2, 0];

/// How many pieces of 64 bytes a queue has room for that nobody reads.
const FULL: usize = 64;

/// The machine of a program that has no word.
fn machine<R: Abort + AllocGlobal>(rt: &R) -> Machine {
    Machine::new(rt.alloc(), 16, 1, &[]).expect(rt, "memory for a machine")
}

/// Gives what is next of a file from an offset on, and says how many bytes it has, if anything is next.
fn give<R: Abort>(rt: &R, machine: &mut Machine, file: &[u8], offset: usize) -> Option<usize> {
    assert!(rt; offset <= file.len());
    let event = next_input(machine.tables(), &file[offset..])?;
    assert!(rt; event.in_range());
    assert!(rt; machine.accept(0, &event).is_ok());
    machine.step(&event);
    Some(taken_by(&event))
}

#[test]
fn a_file_is_given_in_pieces_and_then_its_end(rt: HostRuntime) {
    let mut machine = machine(&rt);
    let file = [7; 130];
    let mut offset = 0;
    for size in PIECES {
        assert!(rt; give(&rt, &mut machine, &file, offset) == Some(size));
        offset = offset.saturating_add(size);
    }
    assert!(rt; give(&rt, &mut machine, &file, offset).is_none());
    assert!(rt; machine.tables().closed);
}

#[test]
fn an_empty_file_is_its_end(rt: HostRuntime) {
    let machine = machine(&rt);
    assert!(rt; next_input(machine.tables(), &[]) == Some(Event::Eof));
}

#[test]
fn a_queue_is_filled_and_no_more(rt: HostRuntime) {
    let mut machine = machine(&rt);
    let piece = [7; 64];
    for _ in 0..FULL {
        assert!(rt; give(&rt, &mut machine, &piece, 0) == Some(64));
    }
    assert!(rt; give(&rt, &mut machine, &piece, 0).is_none());
}
