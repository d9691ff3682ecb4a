//! The guest kit's routines for doubles, in bursts of any length: the same as one step at a time, in all registers. A routine
//! ends with a call here, in place of its return; what stands behind that in the kit, for rare operands, is a call too.
use crate::routines::{clear, expect_same_for, new_memory, scrambled, store};
use ckrt_memory::Memory;
use ckrt_routines::{DoubleRoutine, words};
use ckrt_rv32i::Regs;
use std::process::Abort;

const ROUTINES: [DoubleRoutine; 7] = [
    DoubleRoutine::Sum,
    DoubleRoutine::Product,
    DoubleRoutine::Quotient,
    DoubleRoutine::Root,
    DoubleRoutine::Equal,
    DoubleRoutine::Order,
    DoubleRoutine::Unordered,
];

/// The upper words of zeros, subnormals, infinities, NaNs, and the least and greatest normal numbers.
const RARE: [u32; 8] = [
    0,
    0x8000_0000,
    0x000f_ffff,
    0x7ff0_0000,
    0xfff0_0000,
    0x7ff8_0000,
    0x0010_0000,
    0x7fef_ffff,
];

/// More steps than a routine has.
const MOST: u32 = 2_000;

const CALL: u32 = 0x0000_0073;

/// A routine from address 0x1000 on, and calls up to the end of its page.
fn put<R: Abort>(rt: &R, memory: &mut Memory, routine: DoubleRoutine) {
    clear(rt, memory, 1);
    for place in 0..1_024 {
        store(rt, memory, 0x1000 + 4 * place, CALL);
    }
    let mut address = 0x1000;
    for word in words(routine) {
        store(rt, memory, address, *word);
        address = address.wrapping_add(4);
    }
}

/// The two words of an operand by its number, the upper one second: any bits, exponents near that of 1, a few bits alone, or
/// what is rare.
fn operand(number: u32) -> (u32, u32) {
    let lower = scrambled(number);
    let upper = scrambled(lower ^ number);
    match number % 4 {
        0 => (lower, upper),
        1 => (
            lower,
            upper & 0x800f_ffff | (0x3ff0_0000 + (upper & 0x3f) * 0x10_0000),
        ),
        2 => (
            0,
            upper & 0x800f_0000 | 0x3fe0_0000 + (lower & 1) * 0x10_0000,
        ),
        _ => (lower & number, RARE[(upper % 8) as usize]),
    }
}

/// The registers of two operands by their numbers, with something in each other register that a routine uses.
fn registers_of(first: u32, second: u32) -> Regs {
    let mut regs = Regs::new(0x1000);
    for register in 5..32 {
        regs.put(register, scrambled(first ^ u32::from(register)));
    }
    let (lower, upper) = operand(first);
    regs.put(10, lower);
    regs.put(11, upper);
    let (lower, upper) = operand(second);
    regs.put(12, lower);
    regs.put(13, upper);
    regs
}

/// The length of the bursts for a pair: as long as any for each other one, and 1 to 1,000 for the rest.
fn budget_of(number: u32) -> u32 {
    if number % 2 == 0 {
        65_535
    } else {
        scrambled(number) % 1_000 + 1
    }
}

/// Pairs of operands, each in bursts of a length of its own.
fn expect_pairs<R: Abort>(
    rt: &R,
    memory: &mut Memory,
    other: &mut Memory,
    routine: DoubleRoutine,
    pairs: u32,
) {
    put(rt, memory, routine);
    put(rt, other, routine);
    for number in 0..pairs {
        let regs = registers_of(number, scrambled(number) % 65_536);
        expect_same_for(rt, (memory, other), regs, budget_of(number), MOST);
    }
}

#[test]
fn doubles_in_bursts_of_each_length(rt: HostRuntime) {
    let mut memory = new_memory(&rt);
    let mut other = new_memory(&rt);
    for routine in ROUTINES {
        expect_pairs(&rt, &mut memory, &mut other, routine, 20_000);
    }
}

/// A routine that has run does, with one of its words changed, what it does step by step.
fn expect_damaged<R: Abort>(
    rt: &R,
    memory: &mut Memory,
    other: &mut Memory,
    routine: DoubleRoutine,
    address: u32,
) {
    put(rt, memory, routine);
    put(rt, other, routine);
    for number in [1, 5, 9] {
        let regs = registers_of(number, number + 4);
        expect_same_for(rt, (memory, other), regs, 65_535, MOST);
    }
    store(rt, memory, address, 0x0000_0013); // addi x0, x0, 0
    store(rt, other, address, 0x0000_0013);
    for number in [1, 5, 9] {
        let regs = registers_of(number, number + 4);
        expect_same_for(rt, (memory, other), regs, 65_535, MOST);
    }
}

#[test]
fn doubles_with_a_word_changed(rt: HostRuntime) {
    let mut memory = new_memory(&rt);
    let mut other = new_memory(&rt);
    for routine in ROUTINES {
        for word in 0..112 {
            expect_damaged(&rt, &mut memory, &mut other, routine, 0x1000 + 4 * word);
        }
    }
}

/// A guest that changes a sum while it runs: it adds, stores over a word of the sum's routine, multiplies by the routine on the same
/// page, and adds again.
const CHANGES_A_SUM: [u32; 5] = [
    0x0000_10ef, // 1000: jal x1, 0x2000
    0x014a_a023, // 1004: sw x20, 0(x21)
    0x3f80_10ef, // 1008: jal x1, 0x2400
    0x7f50_00ef, // 100c: jal x1, 0x2000
    CALL, // 1010
];

const RETURN: u32 = 0x0000_8067;

/// Words from an address on, and a return behind them.
fn put_returning<R: Abort>(rt: &R, memory: &mut Memory, from: u32, words: &[u32]) {
    let mut address = from;
    for word in words {
        store(rt, memory, address, *word);
        address = address.wrapping_add(4);
    }
    store(rt, memory, address, RETURN);
}

/// The guest, and its two routines.
fn put_changing<R: Abort>(rt: &R, memory: &mut Memory) {
    clear(rt, memory, 1);
    clear(rt, memory, 2);
    put_returning(rt, memory, 0x1000, &CHANGES_A_SUM);
    put_returning(rt, memory, 0x2000, words(DoubleRoutine::Sum));
    put_returning(rt, memory, 0x2400, words(DoubleRoutine::Product));
}

/// In a burst, the routine whose word at an address was changed does what it does step by step.
fn expect_changed<R: Abort>(rt: &R, memory: &mut Memory, other: &mut Memory, address: u32) {
    put_changing(rt, memory);
    put_changing(rt, other);
    let mut regs = registers_of(1, 5);
    regs.put(20, 0x0000_0013); // addi x0, x0, 0
    regs.put(21, address);
    expect_same_for(rt, (memory, other), regs, 65_535, 4 * MOST);
}

#[test]
fn sum_changed_beside_a_product(rt: HostRuntime) {
    let mut memory = new_memory(&rt);
    let mut other = new_memory(&rt);
    for word in 0..112 {
        expect_changed(&rt, &mut memory, &mut other, 0x2000 + 4 * word);
    }
}
