//! Cores: what stands at an offset of one, and cores of machines that ran.

use crate::expect::expect_eq;
use ckrt_events::Event;
use ckrt_gdb_forms::write_core;
use ckrt_machine::Machine;
use std::process::Abort;

/// The bytes from an offset on.
pub fn expect_part<R: Abort>(rt: &R, bytes: &[u8], at: usize, part: &[u8]) {
    let (_, rest) = bytes.split_at_checked(at).unwrap_or((&[], &[]));
    let (found, _) = rest.split_at_checked(part.len()).unwrap_or((rest, &[]));
    expect_eq(rt, found, part);
}

/// Words from an offset on, lowest byte first.
pub fn expect_words<R: Abort>(rt: &R, bytes: &[u8], at: usize, words: &[u32]) {
    let (_, rest) = bytes.split_at_checked(at).unwrap_or((&[], &[]));
    let mut rest = rest;
    for word in words {
        let (found, behind) = rest.split_at_checked(4).unwrap_or((rest, &[]));
        expect_eq(rt, found, word.to_le_bytes().as_slice());
        rest = behind;
    }
}

/// What a note is to say of a thread. Registers that aren't named are 0.
#[derive(Drop)]
pub struct Noted {
    pub signal: u32,
    pub id: u32,
    pub pc: u32,
    pub registers: &'static [(usize, u32)],
}

impl Noted {
    /// What a register is to hold.
    fn value(&self, register: usize) -> u32 {
        for (named, value) in self.registers {
            if *named == register {
                return *value;
            }
        }
        0
    }
}

/// A note of 204 bytes of NT_PRSTATUS, by the name `CORE`, from an offset on.
pub fn expect_note<R: Abort>(rt: &R, bytes: &[u8], at: usize, want: &Noted) {
    let (_, note) = bytes.split_at_checked(at).unwrap_or((&[], &[]));
    expect_words(rt, note, 0, &[5, 204, 1, 0x4552_4f43, 0]);
    expect_words(
        rt,
        note,
        20,
        &[want.signal, 0, 0, want.signal, 0, 0, want.id],
    );
    expect_words(rt, note, 48, &[0, 0, 0, 0, 0, 0, 0, 0, 0, 0, 0]);
    expect_words(rt, note, 92, &[want.pc]);
    for register in 1..32 {
        expect_words(rt, note, 92 + 4 * register, &[want.value(register)]);
    }
    expect_words(rt, note, 220, &[0]);
}

/// Zeros from an offset on, up to the end.
pub fn expect_zeros<R: Abort>(rt: &R, bytes: &[u8], at: usize) {
    let (_, rest) = bytes.split_at_checked(at).unwrap_or((&[], &[]));
    expect_eq(rt, rest.iter().all(|byte| *byte == 0), true);
}

/// An event.
fn step<R: Abort>(rt: &R, machine: &mut Machine, event: &Event) {
    assert!(rt; event.in_range());
    let accepted = machine.accept(0, event);
    assert!(rt; accepted.is_ok());
    machine.step(event);
}

/// A thread runs on a hart until it has to stop.
pub fn run<R: Abort>(rt: &R, machine: &mut Machine, hart: u8, thread: u8) {
    step(rt, machine, &Event::Place(hart, thread));
    step(rt, machine, &Event::Run(hart, 100));
}

/// The core of a machine's state.
pub fn core_of<R: Abort + AllocGlobal>(rt: &R, machine: &Machine) -> Vec<u8> {
    let mut bytes = Vec::new(rt.alloc());
    let written = write_core(machine, &mut bytes);
    assert!(rt; written.is_ok(), "memory for a core");
    bytes
}
