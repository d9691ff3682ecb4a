//! The largest memory, of 65,536 pages: words on both sides of address 0x40_0000, where those with a decoded entry end, and the last
//! words of all.

use crate::expect::{expect_eq, expect_eq_at};
use ckrt_memory::Memory;
use ckrt_rv32i::{Bus, Cause, Outcome, Regs, Size};
use std::process::Abort;

/// Where words without a decoded entry begin: page 1,024.
const BORDER: u32 = 0x40_0000;

/// The first address after all pages.
const END: u32 = 0x1000_0000;

/// addi x10, x10, N.
fn adding(number: u32) -> u32 {
    0x0005_0513u32.wrapping_add(number << 20)
}

const ECALL: u32 = 0x0000_0073;

/// A memory of 65,536 pages with these words from an address on.
fn memory_with<R: Abort + AllocGlobal>(rt: &R, address: u32, words: &[u32]) -> Memory {
    let mut memory = Memory::new(rt.alloc(), 65_536, &[]).expect(rt, "memory for a guest");
    put_words(rt, &mut memory, address, words);
    memory
}

fn put_words<R: Abort>(rt: &R, memory: &mut Memory, address: u32, words: &[u32]) {
    let mut at = address;
    for word in words {
        assert!(rt; Size::Word.is_aligned(at));
        let stored = memory.store(at, Size::Word, *word);
        expect_eq_at(rt, at, stored, true);
        at = at.wrapping_add(4);
    }
}

/// A burst from an address on: how many instructions were left, the outcome, and what x10 is then, which was 0.
fn burst_from<R: Abort>(
    rt: &R,
    memory: &mut Memory,
    address: u32,
    limit: u32,
) -> (u32, Outcome, u32) {
    let mut regs = Regs::new(address);
    assert!(rt; regs.pc() % 4 == 0);
    let (left, outcome) = memory.burst(&mut regs, limit);
    (left, outcome, regs.get(10))
}

#[test]
fn a_burst_goes_over_the_last_decoded_word(rt: HostRuntime) {
    let words = [adding(1), adding(2), adding(4), adding(8), ECALL];
    let mut memory = memory_with(&rt, BORDER - 8, &words);
    for round in 0..2 {
        for (limit, sum) in [(0, 0), (1, 1), (2, 3), (3, 7), (4, 15)] {
            let got = burst_from(&rt, &mut memory, BORDER - 8, limit);
            expect_eq_at(&rt, (round, limit), got, (0, Outcome::Next, sum));
        }
        let got = burst_from(&rt, &mut memory, BORDER - 8, 100);
        expect_eq_at(&rt, round, got, (96, Outcome::Call, 15));
    }
}

/// The word 4 MiB below, less page 0, is the first of all words.
#[test]
fn a_word_without_an_entry_takes_no_other_ones(rt: HostRuntime) {
    let mut memory = memory_with(&rt, 0x1000, &[adding(16), ECALL]);
    let low = burst_from(&rt, &mut memory, 0x1000, 9);
    expect_eq(&rt, low, (8, Outcome::Call, 16));
    put_words(&rt, &mut memory, BORDER, &[adding(3), ECALL]);
    let high = burst_from(&rt, &mut memory, BORDER, 9);
    expect_eq(&rt, high, (8, Outcome::Call, 3));
    let low = burst_from(&rt, &mut memory, 0x1000, 9);
    expect_eq(&rt, low, (8, Outcome::Call, 16));
}

#[test]
fn code_that_is_changed_is_run_as_it_is_then(rt: HostRuntime) {
    for address in [BORDER - 4, BORDER, END - 8] {
        let mut memory = memory_with(&rt, address, &[adding(1), ECALL]);
        let first = burst_from(&rt, &mut memory, address, 5);
        expect_eq_at(&rt, address, first, (4, Outcome::Call, 1));
        put_words(&rt, &mut memory, address, &[adding(2)]);
        let second = burst_from(&rt, &mut memory, address, 5);
        expect_eq_at(&rt, address, second, (4, Outcome::Call, 2));
    }
}

#[test]
fn after_the_last_word_there_is_none(rt: HostRuntime) {
    let mut memory = memory_with(&rt, END - 4, &[adding(1)]);
    let got = burst_from(&rt, &mut memory, END - 4, 5);
    expect_eq(&rt, got, (4, Outcome::Fault(Cause::FetchRange), 1));
    assert!(&rt; Size::Word.is_aligned(END));
    let stored = memory.store(END, Size::Word, 1);
    expect_eq(&rt, stored, false);
}

/// Pages on both sides of the border, and at both ends.
const LOOKED_AT: [u32; 9] = [1, 1_021, 1_022, 1_023, 1_024, 1_025, 1_026, 65_534, 65_535];

/// Of these pages just those are dirty for area 0.
fn expect_dirty<R: Abort>(rt: &R, memory: &Memory, pages: &[u32]) {
    assert!(rt; memory.pages() == 65_536);
    for page in LOOKED_AT {
        assert!(rt; page < 65_536);
        expect_eq_at(rt, page, memory.dirty(0, page), pages.contains(&page));
    }
}

#[test]
fn a_store_makes_its_page_dirty_wherever_it_is(rt: HostRuntime) {
    let mut memory = memory_with(&rt, 0x1000, &[]);
    expect_dirty(&rt, &memory, &LOOKED_AT);
    memory.clean(0);
    for address in [BORDER - 8192, BORDER - 4, BORDER, BORDER + 4096, END - 4] {
        put_words(&rt, &mut memory, address, &[1]);
    }
    expect_dirty(&rt, &memory, &[1_022, 1_023, 1_024, 1_025, 65_535]);
}
