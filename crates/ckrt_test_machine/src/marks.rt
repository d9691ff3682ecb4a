//! Marks of changed pages: which pages are dirty for which area, in a memory of 16 pages.

use crate::expect::expect_eq_at;
use ckrt_memory::Memory;
use ckrt_rv32i::{Bus, Size};
use std::process::Abort;

/// A new memory of 16 pages.
fn new_memory<R: Abort + AllocGlobal>(rt: &R) -> Memory {
    Memory::new(rt.alloc(), 16, &[]).expect(rt, "memory for a guest")
}

/// The same, clean for both areas.
fn clean_memory<R: Abort + AllocGlobal>(rt: &R) -> Memory {
    let mut memory = new_memory(rt);
    memory.clean(0);
    memory.clean(1);
    memory
}

/// Of pages 1 to 15 these are dirty for an area, and no others.
fn expect_dirty<R: Abort>(rt: &R, memory: &Memory, area: usize, pages: &[u32]) {
    assert!(rt; memory.pages() == 16 && area <= 1);
    for page in 1..16 {
        expect_eq_at(rt, page, memory.dirty(area, page), pages.contains(&page));
    }
}

const ALL: [u32; 15] = [1, 2, 3, 4, 5, 6, 7, 8, 9, 10, 11, 12, 13, 14, 15];

#[test]
fn each_area_is_cleaned_by_itself(rt: HostRuntime) {
    let mut memory = new_memory(&rt);
    expect_dirty(&rt, &memory, 0, &ALL);
    expect_dirty(&rt, &memory, 1, &ALL);
    memory.clean(1);
    expect_dirty(&rt, &memory, 0, &ALL);
    expect_dirty(&rt, &memory, 1, &[]);
    memory.clean(0);
    expect_dirty(&rt, &memory, 0, &[]);
    expect_dirty(&rt, &memory, 1, &[]);
}

/// A store into a memory that is clean makes these pages dirty for both areas.
fn expect_store<R: Abort + AllocGlobal>(rt: &R, address: u32, size: Size, pages: &[u32]) {
    let mut memory = clean_memory(rt);
    assert!(rt; size.is_aligned(address));
    let stored = memory.store(address, size, 0);
    expect_eq_at(rt, address, stored, !pages.is_empty());
    expect_dirty(rt, &memory, 0, pages);
    expect_dirty(rt, &memory, 1, pages);
}

#[test]
fn a_store_makes_its_page_dirty(rt: HostRuntime) {
    expect_store(&rt, 0x1000, Size::Word, &[1]);
    expect_store(&rt, 0x2fff, Size::Byte, &[2]);
    expect_store(&rt, 0x2ffe, Size::Half, &[2]);
    expect_store(&rt, 0x2ffc, Size::Word, &[2]);
    expect_store(&rt, 0x3000, Size::Byte, &[3]);
    expect_store(&rt, 0xfffc, Size::Word, &[15]);
    expect_store(&rt, 0x0ffc, Size::Word, &[]);
    expect_store(&rt, 0x1_0000, Size::Byte, &[]);
}

/// Other bytes go into a page.
fn load<R: Abort>(rt: &R, memory: &mut Memory, page: u32) {
    assert!(rt; memory.pages() == 16 && 1 <= page && page < 16);
    memory.load_page(page, &[1; 4096]);
}

#[test]
fn a_page_that_is_loaded_is_dirty(rt: HostRuntime) {
    let mut memory = clean_memory(&rt);
    load(&rt, &mut memory, 7);
    expect_dirty(&rt, &memory, 0, &[7]);
    expect_dirty(&rt, &memory, 1, &[7]);
    memory.clean(0);
    load(&rt, &mut memory, 8);
    expect_dirty(&rt, &memory, 0, &[8]);
    expect_dirty(&rt, &memory, 1, &[7, 8]);
}
