//! Guests that write their own code, in bursts of any length.

use crate::expect::{expect_bytes, expect_eq, expect_eq_at, image_of, push};
use ckrt_memory::Memory;
use ckrt_rv32i::{Outcome, Regs, execute};
use std::process::Abort;

/// A guest that makes a call: its words from address 4,096 on, the instructions up to the call, and what x10 has then.
#[derive(Clone, Copy)]
struct Guest {
    words: &'static [u32],
    steps: u32,
    x10: u32,
}

/// A word that comes after the store that changes it.
const CHANGED_BEFORE_IT_IS_RUN: Guest = Guest {
    words: &[
        0x0000_12b7, // lui x5, 1
        0x0182_a303, // lw x6, 24(x5)
        0x0062_a823, // sw x6, 16(x5)
        0x0010_0593, // addi x11, x0, 1
        0x0050_0513, // addi x10, x0, 5: it is changed
        0x0000_0073, // ecall
        0x0070_0513, // addi x10, x0, 7
    ],
    steps: 5,
    x10: 7,
};

/// The word right after the store.
const CHANGED_ONE_WORD_AHEAD: Guest = Guest {
    words: &[
        0x0000_12b7, // lui x5, 1
        0x0142_a303, // lw x6, 20(x5)
        0x0062_a623, // sw x6, 12(x5)
        0x0050_0513, // addi x10, x0, 5: it is changed
        0x0000_0073, // ecall
        0x0070_0513, // addi x10, x0, 7
    ],
    steps: 4,
    x10: 7,
};

/// A word that was run, and is run twice more.
const CHANGED_BEHIND_THE_PC: Guest = Guest {
    words: &[
        0x0000_12b7, // lui x5, 1
        0x0242_a303, // lw x6, 36(x5)
        0x0015_0513, // addi x10, x10, 1: it is changed
        0x0013_8393, // addi x7, x7, 1
        0x0062_a423, // sw x6, 8(x5)
        0x0030_0413, // addi x8, x0, 3
        0xfe83_98e3, // bne x7, x8, -16
        0x0000_0073, // ecall
        0x0000_0013, // addi x0, x0, 0
        0x0105_0513, // addi x10, x10, 16
    ],
    steps: 17,
    x10: 33,
};

/// One byte of a word that was run.
const CHANGED_BY_A_BYTE: Guest = Guest {
    words: &[
        0x0000_12b7, // lui x5, 1
        0x0750_0313, // addi x6, x0, 0x75
        0x0055_0513, // addi x10, x10, 5: it becomes addi x10, x10, 7
        0x0062_8523, // sb x6, 10(x5)
        0x0013_8393, // addi x7, x7, 1
        0x0020_0413, // addi x8, x0, 2
        0xfe83_98e3, // bne x7, x8, -16
        0x0000_0073, // ecall
    ],
    steps: 12,
    x10: 12,
};

const GUESTS: [Guest; 4] = [
    CHANGED_BEFORE_IT_IS_RUN,
    CHANGED_ONE_WORD_AHEAD,
    CHANGED_BEHIND_THE_PC,
    CHANGED_BY_A_BYTE,
];

/// A memory of 128 pages with these bytes from address 4,096 on.
fn memory_of<R: Abort + AllocGlobal>(rt: &R, image: &[u8]) -> Memory {
    Memory::new(rt.alloc(), 128, image).expect(rt, "memory for a guest")
}

/// Runs in bursts of that many instructions up to the call, 1,000 of them at most: how many instructions came before it.
fn run_bursts<R: Abort>(rt: &R, memory: &mut Memory, regs: &mut Regs, budget: u32) -> u32 {
    let mut made = 0u32;
    for _ in 0..1_000 {
        assert!(rt; regs.pc() % 4 == 0);
        let (left, outcome) = memory.burst(regs, budget);
        if outcome != Outcome::Next {
            expect_eq(rt, outcome, Outcome::Call);
            return made.wrapping_add(budget).wrapping_sub(left);
        }
        expect_eq(rt, left, 0);
        made = made.wrapping_add(budget);
    }
    made
}

/// The same, one step at a time.
fn run_steps<R: Abort>(rt: &R, memory: &mut Memory, regs: &mut Regs) -> u32 {
    for made in 0..1_000 {
        assert!(rt; regs.pc() % 4 == 0);
        let outcome = execute(regs, memory);
        if outcome != Outcome::Next {
            expect_eq(rt, outcome, Outcome::Call);
            return made;
        }
    }
    1_000
}

/// The guest in bursts of this length comes to its call as it does step by step.
fn expect_guest<R: Abort + AllocGlobal>(rt: &R, guest: &Guest, budget: u32) {
    let image = image_of(rt, guest.words);
    let mut memory = memory_of(rt, &image);
    let mut regs = Regs::new(4_096);
    let made = run_bursts(rt, &mut memory, &mut regs, budget);
    let mut other_memory = memory_of(rt, &image);
    let mut other_regs = Regs::new(4_096);
    let steps = run_steps(rt, &mut other_memory, &mut other_regs);
    expect_eq_at(rt, budget, made, guest.steps);
    expect_eq_at(rt, budget, steps, guest.steps);
    expect_eq_at(rt, budget, regs.get(10), guest.x10);
    expect_eq_at(rt, budget, regs, other_regs);
    assert!(rt; memory.pages() == 128 && other_memory.pages() == 128);
    expect_bytes(rt, memory.page(1), other_memory.page(1));
}

#[test]
fn a_guest_changes_its_code(rt: HostRuntime) {
    for guest in GUESTS {
        for budget in 1..20 {
            expect_guest(&rt, &guest, budget);
        }
        expect_guest(&rt, &guest, u32::MAX);
    }
}

/// x10 grows by the number in the word at 4,096, which the code at 4,104 changes from 5 to 7.
const TWO_HARTS: [u32; 6] = [
    0x0055_0513, // addi x10, x10, 5
    0xffdf_f06f, // jal x0, -4
    0x0000_12b7, // lui x5, 1
    0x0750_0313, // addi x6, x0, 0x75
    0x0062_8123, // sb x6, 2(x5)
    0x0000_0073, // ecall
];

#[test]
fn another_hart_changes_the_code(rt: HostRuntime) {
    let image = image_of(&rt, &TWO_HARTS);
    let mut memory = memory_of(&rt, &image);
    let mut regs = Regs::new(4_096);
    let mut other = Regs::new(4_104);
    memory.burst(&mut regs, 4);
    expect_eq(&rt, regs.get(10), 10);
    expect_eq(&rt, run_bursts(&rt, &mut memory, &mut other, 9), 3);
    assert!(&rt; regs.pc() % 4 == 0);
    memory.burst(&mut regs, 2);
    expect_eq(&rt, regs.get(10), 17);
}

/// 100 pages, each of which begins by adding 1 to x10 and jumping to the next, and a page with a call after them.
fn hundred_pages<R: Abort + AllocGlobal>(rt: &R) -> Vec<u8> {
    let mut image = Vec::new(rt.alloc());
    for _page in 0..100 {
        push(rt, &mut image, &0x0015_0513u32.to_le_bytes()); // addi x10, x10, 1
        push(rt, &mut image, &0x7fd0_006fu32.to_le_bytes()); // jal x0, 4092
        push(rt, &mut image, &[0; 4_088]);
    }
    push(rt, &mut image, &0x0000_0073u32.to_le_bytes()); // ecall
    image
}

#[test]
fn a_guest_runs_through_100_pages(rt: HostRuntime) {
    let image = hundred_pages(&rt);
    let mut memory = memory_of(&rt, &image);
    let mut regs = Regs::new(4_096);
    expect_eq(&rt, run_bursts(&rt, &mut memory, &mut regs, 7), 200);
    expect_eq(&rt, regs.get(10), 100);
    regs.set_pc(4_096);
    expect_eq(&rt, run_bursts(&rt, &mut memory, &mut regs, 65_535), 200);
    expect_eq(&rt, regs.get(10), 200);
}
