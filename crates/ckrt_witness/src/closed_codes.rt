//! Closed witnesses of the laws that what is written stands for one thing. What stops a test meets any clause, so each shows its witness
//! by coming to its end.
ghost use Rattle.std.specs.Prelude.{◌⊎◌, ◌≡◌, ◌≤◌};
ghost use Rattle.ckrt_witness.specs.Codes.{EventsWitness, InstructionWitness};
ghost use Rattle.ckrt_witness.specs.Saved.{FreshWitness, SavedWitness};

use crate::closed::SMALL;
use crate::codes::{read_events, read_instruction};
use crate::saved::{is_fresh, read_saved};
use arrayvec::ArrayVec;
use ckrt_events::{BATCH_LIMIT, Event};
use ckrt_recovery::Config;
use ckrt_tables::TABLES_ROOM;
use std::process::Abort;

/// A word that encodes an instruction.
fn instruction<R: Abort>(rt: &R, word: u32)
    ensures { InstructionWitness word }
{
    match read_instruction(word) {
        Some(_) => {}
        None => panic!(rt; "the word encodes no instruction"),
    }
}

/// Two events, bytes that have no room for the first, and bytes that encode none.
fn events<R: Abort>(
    rt: &R,
    version: u32,
    first: &Event,
    second: &Event,
    full: ArrayVec<u8, BATCH_LIMIT>,
    torn: &[u8],
)
    ensures { EventsWitness version first.now second.now full.items torn.now }
{
    let mut full = full;
    if !read_events(version, first, second, &mut full, torn) {
        panic!(rt; "an event isn't read back, or torn bytes are read");
    }
}

/// Saved tables, and bytes that are none.
fn saved<R: Abort + AllocGlobal>(rt: &R, version: u32, harts: usize, bytes: &[u8], torn: &[u8])
    requires version { (version ≡ 1) ⊎ (version ≡ 2) }
    requires harts { harts ≤ 8 }
    ensures { SavedWitness version harts bytes.now torn.now }
{
    let mut room = vec![in rt.alloc(); 0u8; TABLES_ROOM].expect(rt, "memory for tables");
    if !read_saved(rt.alloc(), version, harts, bytes, torn, room.as_mut_slice()) {
        panic!(rt; "the tables aren't read back, or torn ones are read");
    }
}

/// A configuration whose program can be saved before it begins.
fn fresh<R: Abort>(rt: &R, config: &Config)
    ensures { FreshWitness config.now.pages config.now.harts }
{
    if !is_fresh(config) {
        panic!(rt; "the configuration is out of its ranges");
    }
}

/// The tables of a program of 16 pages that hasn't begun, in version 1, but for the output at the end.
fn fresh_tables<R: Abort + AllocGlobal>(rt: &R, version: u8) -> Vec<u8> {
    let size = if version == 1 { 170 } else { 176 };
    let mut bytes = vec![in rt.alloc(); 0u8; size].expect(rt, "memory for tables");
    // thread 1 is there, ready and the initial one; its pc, return address and stack pointer
    let front: [u8; 21] = [
        1, 1, 1, 0, 0, 0, 0, 0, 0, 0, 0x10, 0, 0, 0xf0, 0xff, 0xff, 0xff, 0, 0, 1, 0,
    ];
    put(rt, &mut bytes, 24, &front);
    if version == 2 {
        // keys are on
        put(rt, &mut bytes, 170, &[1]);
    }
    bytes
}

/// Puts bytes in place of others.
fn put<R: Abort>(rt: &R, bytes: &mut Vec<u8>, at: usize, from: &[u8]) {
    match bytes
        .as_mut_slice()
        .get_mut(at..at.saturating_add(from.len()))
    {
        Some(room) => room.copy_from_slice(from),
        None => panic!(rt; "there is no such place"),
    }
}

/// The same with two bytes of output, which is their last part: how many, and the bytes.
fn tables_with_output<R: Abort + AllocGlobal>(rt: &R, version: u8) -> Vec<u8> {
    let mut bytes = fresh_tables(rt, version);
    let count = bytes.len().saturating_sub(2);
    put(rt, &mut bytes, count, &[2, 0]);
    bytes
        .extend_from_slice(b"ok")
        .expect(rt, "memory for output");
    bytes
}

/// Bytes without the first.
fn torn<'a, R: Abort>(rt: &R, bytes: &'a [u8]) -> &'a [u8] {
    match bytes {
        [_, rest @ ..] => rest,
        [] => panic!(rt; "there are no bytes"),
    }
}

#[test]
fn the_premises_of_one_instruction_a_word_are_met(rt: HostRuntime) {
    // addi x10, x0, 65
    instruction(&rt, 0x0410_0513);
}

#[test]
fn the_premises_of_one_list_of_events_are_met(rt: HostRuntime) {
    let mut full = ArrayVec::new();
    for _ in 0..BATCH_LIMIT - 2 {
        let _ = full.try_push(4);
    }
    let first = Event::Place(0, 1);
    events(&rt, 2, &first, &Event::RunLong(0, 9), full, &[1, 0]);
}

#[test]
fn the_premises_of_one_state_are_met(rt: HostRuntime) {
    let bytes = tables_with_output(&rt, 2);
    saved(&rt, 2, 1, &bytes, torn(&rt, &bytes));
    let old = tables_with_output(&rt, 1);
    saved(&rt, 1, 1, &old, torn(&rt, &old));
}

#[test]
fn the_premises_of_fresh_tables_are_met(rt: HostRuntime) {
    fresh(&rt, &SMALL);
}
