//! Pages that the memories of kept states share.
ghost use Rattle.std.specs.Prelude.{◌≡◌, ◌*◌, ◌<◌, ◌≤◌, ◌^◌, ℕ, IfOk, IfSome, IsTrue, get_or, length, vec_capacity, true, false};
ghost use Rattle.ckrt_gdb_history.specs.Pool.{AreNamed, AreSlots, HasSamePages, IsPool, Keeps, StandsIn, gathered, is_named, page_in};

use crate::pages::{is_same_page, restore_page};
use ckrt_memory::Memory;
use std::alloc::{AllocError, Global};

/// Pages, each in a slot of its own. A slot that is named keeps its page, and any other one is free.
#[derive(Drop)]
pub struct PagePool {
    slots: Vec<[u8; 4096]>,
    /// By slot.
    named: Vec<bool>,
    /// Where the search for a free slot goes on.
    next: usize,
    /// How many slots are free, or have no page yet. Only the number of states that are kept hangs on it.
    free: usize,
}

/// The first slot from `next` on that isn't named.
fn first_free(named: &[bool], next: usize) -> usize
    ensures { result < length named.now → get_or named.now result false ≡ false }
{
    let mut slot = next;
    while slot < named.len() && named[slot] {
        slot += 1;
    }
    slot
}

/// How many slots aren't named.
fn count_free(named: &[bool]) -> usize
    ensures { result ≤ length named.now }
{
    let mut count = 0;
    for slot in 0..named.len() {
        if !named[slot] {
            count += 1;
        }
    }
    count
}

/// These slots are named, too.
fn name_each(named: &mut [bool], names: &[u32])
    requires { (i : ℕ) → i < length names.now → get_or names.now i 0 < length named.old }
    ensures count { length named.new ≡ length named.old }
    ensures kept { (n : ℕ) → get_or named.old n false ≡ true → get_or named.new n false ≡ true }
    ensures named { (i : ℕ) → i < length names.now
        → get_or named.new (get_or names.now i 0) false ≡ true }
{
    for i in 0..names.len() {
        named[names[i] as usize] = true;
    }
}

impl PagePool {
    /// A pool with room for so many pages.
    pub fn new(alloc: Global, room: usize) -> Result<PagePool, AllocError>
        requires { room ≤ 2 ^ 32 }
        ensures { IfOk result IsPool }
    {
        let slots = Vec::with_capacity(alloc, room)?;
        let named = Vec::with_capacity(alloc, room)?;
        Ok(PagePool {
            slots,
            named,
            next: 0,
            free: room,
        })
    }

    /// How many slots may be free, or have no page yet.
    pub fn free(&self) -> usize {
        self.free
    }

    /// The page in a slot.
    pub fn page(&self, slot: u32) -> &[u8; 4096]
        requires pool { IsPool self.now }
        requires named { is_named self.now slot ≡ true }
        ensures { result.now ≡ page_in self.now slot }
    {
        &self.slots[slot as usize]
    }

    /// A page gets a slot that had none.
    fn push(&mut self, page: &[u8; 4096]) -> u32
        requires pool { IsPool self.old }
        requires room { length self.old.slots.items < vec_capacity self.old.slots }
        ensures pool { IsPool self.new }
        ensures keeps { Keeps self.old self.new }
        ensures stands { StandsIn result page.now self.new }
    {
        let slot = self.slots.len() as u32;
        self.slots.push_reserved(*page);
        self.named.push_reserved(true);
        slot
    }

    /// A page gets a slot in the place of another one that isn't named.
    fn replace(&mut self, slot: usize, page: &[u8; 4096])
        requires pool { IsPool self.old }
        requires slot { slot < length self.old.slots.items }
        requires free { is_named self.old slot ≡ false }
        ensures pool { IsPool self.new }
        ensures keeps { Keeps self.old self.new }
        ensures stands { StandsIn slot page.now self.new }
    {
        self.slots[slot] = *page;
        self.named[slot] = true;
    }

    /// A page gets a slot that isn't named, if there is one.
    pub fn put(&mut self, page: &[u8; 4096]) -> Option<u32>
        requires { IsPool self.old }
        ensures pool { IsPool self.new }
        ensures keeps { Keeps self.old self.new }
        ensures stands { IfSome result (λ slot. StandsIn slot page.now self.new) }
    {
        self.free = self.free.saturating_sub(1);
        let slot = first_free(self.named.as_slice(), self.next);
        self.next = slot;
        if slot < self.slots.len() {
            self.replace(slot, page);
            return Some(slot as u32);
        }
        if self.slots.len() < self.slots.capacity() {
            return Some(self.push(page));
        }
        None
    }

    /// The slot of a page: this one, if the page stands there, or else one that it gets.
    fn slot_for(&mut self, slot: u32, page: &[u8; 4096]) -> Option<u32>
        requires pool { IsPool self.old }
        requires named { is_named self.old slot ≡ true }
        ensures pool { IsPool self.new }
        ensures keeps { Keeps self.old self.new }
        ensures stands { IfSome result (λ slot. StandsIn slot page.now self.new) }
    {
        if is_same_page(self.page(slot), page) {
            return Some(slot);
        }
        self.put(page)
    }

    /// These become the slots of a memory's pages: they stay where the page is the same. `false` where no slot is free for a page.
    pub fn gather(&mut self, names: &mut [u32], memory: &Memory) -> bool
        requires pool { IsPool self.old }
        requires named { AreNamed self.old names.old }
        requires size { 4096 * length names.old ≡ length memory.now.bytes }
        ensures pool { IsPool self.new }
        ensures keeps { Keeps self.old self.new }
        ensures named { AreNamed self.new names.new }
        ensures count { length names.new ≡ length names.old }
        ensures bytes { IsTrue result → gathered self.new names.new ≡ memory.now.bytes }
    {
        for page in 1..memory.pages() {
            let place = page as usize - 1;
            let Some(slot) = self.slot_for(names[place], memory.page(page)) else {
                return false;
            };
            names[place] = slot;
        }
        true
    }

    /// How many pages of a memory aren't those in these slots. Only the number of states that are kept hangs on it.
    pub fn count_others(&self, names: &[u32], memory: &Memory) -> usize
        requires pool { IsPool self.now }
        requires named { AreNamed self.now names.now }
        requires size { 4096 * length names.now ≡ length memory.now.bytes }
        ensures { result ≤ length names.now }
    {
        let mut count = 0;
        for page in 1..memory.pages() {
            if !is_same_page(self.page(names[page as usize - 1]), memory.page(page)) {
                count += 1;
            }
        }
        count
    }

    /// A memory of their size gets the pages in these slots.
    pub fn restore(&self, names: &[u32], memory: &mut Memory)
        requires pool { IsPool self.now }
        requires named { AreNamed self.now names.now }
        requires size { length memory.old.bytes ≡ length (gathered self.now names.now) }
        ensures { memory.new.bytes ≡ gathered self.now names.now }
    {
        for page in 1..memory.pages() {
            restore_page(memory, page, self.page(names[page as usize - 1]));
        }
    }

    /// No slot is named.
    pub fn forget_names(&mut self)
        ensures { HasSamePages self.old self.new }
    {
        self.named.as_mut_slice().fill(false);
        self.next = 0;
    }

    /// These slots are named, too.
    pub fn name(&mut self, names: &[u32])
        requires { AreSlots self.old names.now }
        ensures same { HasSamePages self.old self.new }
        ensures kept { (n : ℕ) → is_named self.old n ≡ true → is_named self.new n ≡ true }
        ensures named { (i : ℕ) → i < length names.now
            → is_named self.new (get_or names.now i 0) ≡ true }
    {
        name_each(self.named.as_mut_slice(), names);
    }

    /// Counts the slots that are free.
    pub fn count(&mut self)
        ensures same { HasSamePages self.old self.new }
        ensures named { self.new.named ≡ self.old.named }
    {
        let none_yet = self.slots.capacity().saturating_sub(self.slots.len());
        self.free = none_yet.saturating_add(count_free(self.named.as_slice()));
    }
}
