//! Guests whose words are drawn, with routines that multiply and divide among them, whole and damaged: they load and store
//! over their own words, and in bursts of any length they do what they do one step at a time.
ghost use Rattle.std.specs.Prelude.{◌<◌};

use crate::routines::{
    DIVIDE, MULTIPLY, clear, expect_same, expect_same_pages, new_memory, scrambled, store,
};
use ckrt_memory::Memory;
use ckrt_rv32i::Regs;
use std::process::Abort;

/// How many words a guest has.
const WORDS: u32 = 64;

/// Numbers that are drawn from a number.
#[derive(Drop)]
struct Draws {
    number: u32,
}

impl Draws {
    /// The next number, below this one.
    fn below(&mut self, end: u32) -> u32
        requires { 0 < end }
        ensures { result < end }
    {
        self.number = self.number.wrapping_add(1);
        scrambled(self.number) % end
    }
}

/// The registers that words name: the first of the guest's addresses is in x18, and x20 to x23 have words.
const REGISTERS: [u32; 16] = [0, 1, 5, 6, 7, 8, 9, 10, 11, 12, 13, 18, 20, 21, 22, 23];

/// Offsets of branches as they stand in a word: 8, 12, 16, 20, -8, -20, and 6, which no instruction goes to.
const OFFSETS: [u32; 7] = [
    0x0000_0400,
    0x0000_0600,
    0x0000_0800,
    0x0000_0a00,
    0xfe00_0c80,
    0xfe00_0680,
    0x0000_0300,
];

/// The first operand of a word, its second one, and what it computes.
fn operands(draws: &mut Draws) -> u32 {
    let first = REGISTERS[draws.below(16) as usize] << 15;
    let second = REGISTERS[draws.below(16) as usize] << 20;
    first | second | draws.below(8) << 12
}

/// x1 or x5 to x13.
fn destination(draws: &mut Draws) -> u32 {
    REGISTERS[draws.below(10) as usize + 1] << 7
}

/// A word: a sum, another operation, a load or a store of one of the guest's own words, a branch, a jump, or any word.
fn word(draws: &mut Draws) -> u32 {
    let rd = destination(draws);
    let place = 4 * draws.below(WORDS);
    match draws.below(12) {
        0 | 1 => draws.below(4_096) << 20 | operands(draws) & 0x000f_8000 | rd | 0x13,
        2 => operands(draws) & 0x01ff_d000 | 0x1000 | rd | 0x13,
        3 | 4 => operands(draws) | rd | 0x33,
        5 => place << 20 | 0x0009_2000 | rd | 0x03,
        6 | 7 => {
            (place & 0xe0) << 20 | operands(draws) & 0x01f0_0000 | 0x0009_2023 | (place & 0x1c) << 7
        }
        8 | 9 => OFFSETS[draws.below(7) as usize] | operands(draws) & !0x0000_2000 | 0x63,
        10 => place << 20 | 0x0009_0067 | rd,
        _ => scrambled(draws.below(u32::MAX)),
    }
}

/// A word of a routine, or another one.
fn word_to_store(draws: &mut Draws) -> u32 {
    if draws.below(2) == 0 {
        word(draws)
    } else if draws.below(2) == 0 {
        MULTIPLY[draws.below(8) as usize]
    } else {
        DIVIDE[draws.below(17) as usize]
    }
}

/// Two memories in which one guest stands, and where it was put last: the guest or a routine among its words.
#[derive(Drop)]
struct Twins {
    memory: Memory,
    other: Memory,
    last: u32,
}

impl Twins {
    fn store<R: Abort>(&mut self, rt: &R, address: u32, word: u32) {
        store(rt, &mut self.memory, address, word);
        store(rt, &mut self.other, address, word);
    }

    fn clear<R: Abort>(&mut self, rt: &R) {
        for page in [1, 15] {
            clear(rt, &mut self.memory, page);
            clear(rt, &mut self.other, page);
        }
    }

    /// Puts a guest from an address on, with some words of a routine among its own.
    fn put<R: Abort>(&mut self, rt: &R, draws: &mut Draws, at: u32) {
        self.clear(rt);
        self.last = at;
        for place in 0..WORDS {
            self.store(rt, at.wrapping_add(4 * place), word(draws));
        }
        for _ in 0..draws.below(4) {
            self.put_routine(rt, draws, at);
        }
    }

    /// Puts a routine over a guest's words, whole or with one word changed.
    fn put_routine<R: Abort>(&mut self, rt: &R, draws: &mut Draws, at: u32) {
        let routine = if draws.below(2) == 0 {
            MULTIPLY
        } else {
            DIVIDE
        };
        let mut address = at.wrapping_add(4 * draws.below(WORDS));
        self.last = address;
        for word in routine {
            self.store(rt, address, *word);
            address = address.wrapping_add(4);
        }
        if draws.below(3) == 0 {
            let place = 4 * draws.below(WORDS);
            self.store(rt, at.wrapping_add(place), word_to_store(draws));
        }
    }
}

/// The registers with which a guest at an address begins, there or where something was put last.
fn registers(draws: &mut Draws, at: u32, last: u32) -> Regs {
    let mut regs = Regs::new(if draws.below(2) == 0 { at } else { last });
    for register in 5..14 {
        let number = scrambled(draws.below(u32::MAX));
        regs.put(register, number >> draws.below(32));
    }
    regs.put(18, at);
    for register in 20..24 {
        regs.put(register, word_to_store(draws));
    }
    regs
}

/// One guest, in the first page, or so that its words end with the memory: run five times, as it has left itself.
fn expect_drawn<R: Abort>(rt: &R, twins: &mut Twins, number: u32) {
    let mut draws = Draws {
        number: scrambled(number),
    };
    let at = if draws.below(4) == 0 { 0xff00 } else { 0x1000 };
    twins.put(rt, &mut draws, at);
    for _ in 0..5 {
        let regs = registers(&mut draws, at, twins.last);
        let budget = [1, 2, 3, 7, 64, 300, 1_000][draws.below(7) as usize];
        expect_same(rt, (&mut twins.memory, &mut twins.other), regs, budget);
        expect_same_pages(rt, &twins.memory, &twins.other);
    }
}

#[test]
fn drawn_guests_in_bursts(rt: HostRuntime) {
    let mut twins = Twins {
        memory: new_memory(&rt),
        other: new_memory(&rt),
        last: 0,
    };
    for number in 0..3_000 {
        expect_drawn(&rt, &mut twins, number);
    }
}
