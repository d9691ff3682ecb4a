//! The shadow of a memory, by parts: one that is touched first takes a slot of a room that was made before.
ghost use Rattle.std.specs.Prelude.{◌≡◌, ◌≤◌, ◌<◌, ◌+◌, ◌*◌, ◌/◌, ◌^◌, List, [], None, true, false, get_or, length, replicate, slice_set, vec_capacity, IfOk};
ghost use Rattle.ckrt_look_clocks.specs.declared.clock.Clock.{Clock as ClockValue};
ghost use Rattle.ckrt_look_clocks.specs.declared.operation.Operation.TheVariants as operation;
ghost use Rattle.ckrt_look_clocks.specs.Detection.{Found, compared_all, few_words, found_in, given_with, kept, no_accesses, renewed};
ghost use Rattle.ckrt_look_clocks.specs.LockHistories.{Ordered};
ghost use Rattle.ckrt_look_clocks.specs.Parts.{HaveSlots, has_slot, parts_over, taking, touched, touched_parts};

use crate::clock::Clock;
use crate::comparing::compare_all;
use crate::found::Findings;
use crate::operation::{Access, Block};
use crate::shadow::{Cell, given_with, keep, no_accesses};
use std::alloc::{AllocError, Global};
use std::marker::Model;

/// How many words a part has: those of a page.
const PART: usize = 1_024;

/// How many bytes of a room one part takes, whatever is done to it.
pub const PART_BYTES: u64 = 286_720;

/// The last accesses to each word of a memory, in a room of slots for its parts.
#[derive(Drop)]
pub(crate) struct Shadow {
    words: usize,
    /// By part of the memory the slot that it took.
    by_part: Vec<Option<usize>>,
    /// The cells of the slots that are taken, one slot behind the other.
    cells: Vec<Cell>,
    taken: usize,
    /// How many slots there are.
    count: usize,
    is_full: bool,
}

impl Model for Shadow {
    ghost use Rattle.std.specs.Prelude.{vec_capacity};
    ghost use Rattle.ckrt_look_clocks.specs.Parts.{IsRoom, Shadowed, Slots, cells_of};

    ghost Value = { Shadowed };

    ghost view = { λ s. record {
      cells = cells_of s.by_part.items s.cells.items s.words;
      slots = record {
        by_part = s.by_part.items;
        taken = s.taken;
        count = s.count;
        is_full = s.is_full;
      };
    } };

    ghost invariant = { λ s. IsRoom (record {
      by_part = s.by_part.items;
      taken = s.taken;
      count = s.count;
      is_full = s.is_full;
    }) s.cells.items s.words (vec_capacity s.cells) };
}

/// No part of so many words has a slot.
fn no_slots(alloc: Global, words: usize) -> Result<Vec<Option<usize>>, AllocError>
    ensures { IfOk result (λ slots. slots.items ≡ replicate (words / 1024 + 1) None) }
{
    let mut by_part = Vec::with_capacity(alloc, words / PART + 1)?;
    by_part.resize(words / PART + 1, None)?;
    Ok(by_part)
}

/// The room for the cells of so many slots.
fn room_for(alloc: Global, slots: usize) -> Result<Vec<Cell>, AllocError>
    ensures empty { IfOk result (λ cells. cells.items ≡ []) }
    ensures room { IfOk result (λ cells. 1024 * slots ≤ vec_capacity cells) }
    ensures fits { IfOk result (λ _. 1024 * slots < 2 ^ 64) }
{
    match slots.checked_mul(PART) {
        Some(words) => Vec::with_capacity(alloc, words),
        None => Err(AllocError),
    }
}

/// No part has a slot any more.
fn give_back(by_part: &mut Vec<Option<usize>>)
    ensures { by_part.new.items ≡ replicate (length by_part.old.items) None }
{
    by_part.as_mut_slice().fill(None);
}

/// In how many parts so many words lie, from one on.
fn parts_over(count: usize, first: usize) -> usize
    requires { first + count < 2 ^ 64 }
    ensures { result ≡ parts_over count first }
{
    if count == 0 {
        return 0;
    }
    (first + count - 1) / PART + 1 - first / PART
}

/// An access is compared with those that a cell has, and kept there.
fn note_in(
    cells: &mut Vec<Cell>,
    place: usize,
    clocks: &[Clock],
    access: &Access,
    found: &mut Findings,
)
    requires { place < length cells.old.items }
    ensures cells { cells.new.items
        ≡ slice_set cells.old.items place
        (kept access.now (get_or cells.old.items place no_accesses)) }
    ensures found { found_in found.new
        ≡ compared_all clocks.now access.now (get_or cells.old.items place no_accesses)
        (found_in found.old) }
    ensures room { vec_capacity cells.new ≡ vec_capacity cells.old }
{
    compare_all(clocks, access, &cells[place], found);
    keep(&mut cells[place], access);
}

/// A cell is without an access, and of memory that is given anew.
fn put_in(cells: &mut Vec<Cell>, place: usize, block: &Block)
    requires { place < length cells.old.items }
    ensures cells { cells.new.items
        ≡ slice_set cells.old.items place (given_with block.now) }
    ensures room { vec_capacity cells.new ≡ vec_capacity cells.old }
{
    cells[place] = given_with(block);
}

impl Shadow {
    ghost use Rattle.ckrt_look_clocks.specs.Parts.{no_shadow};
    ghost use Rattle.ckrt_look_clocks.specs.Within.{noted_one, detected_by};

    /// Nothing was done yet to a memory of so many words, in a room of so many slots.
    pub(crate) fn new(alloc: Global, words: usize, slots: usize) -> Result<Shadow, AllocError>
        ensures { IfOk result (λ shadow. shadow ≡ no_shadow words slots) }
    {
        let by_part = no_slots(alloc, words)?;
        let cells = room_for(alloc, slots)?;
        Ok(Shadow {
            words,
            by_part,
            cells,
            taken: 0,
            count: slots,
            is_full: false,
        })
    }

    /// Nothing was done any more. It gives all slots back, and looks at no word.
    pub(crate) fn clear(&mut self)
        ensures { self.new ≡ no_shadow (length self.old.cells) self.old.slots.count }
    {
        give_back(&mut self.by_part);
        self.cells.clear();
        self.taken = 0;
        self.is_full = false;
    }

    /// How many words the memory has.
    fn len(&self) -> usize
        ensures words { result ≡ length self.now.cells }
        ensures parts { length self.now.slots.by_part ≡ result / 1024 + 1 }
    {
        self.words
    }

    /// Whether the room is used up: a part more was touched than there are slots.
    pub(crate) fn is_full(&self) -> bool
        ensures { result ≡ self.now.slots.is_full }
    {
        self.is_full
    }

    /// A part that has no slot takes one, if one is left.
    fn take(&mut self, part: usize)
        requires inside { part < length self.old.slots.by_part }
        requires none { has_slot part self.old.slots ≡ false }
        ensures slots { self.new.slots ≡ taking part self.old.slots }
        ensures cells { self.new.cells ≡ self.old.cells }
    {
        if self.taken >= self.count {
            self.is_full = true;
            return;
        }
        let _ = self.cells.resize(PART * (self.taken + 1), no_accesses());
        self.by_part[part] = Some(self.taken);
        self.taken += 1;
    }

    /// A part is touched.
    fn touch(&mut self, part: usize)
        requires inside { part < length self.old.slots.by_part }
        ensures slots { self.new.slots ≡ touched part self.old.slots }
        ensures cells { self.new.cells ≡ self.old.cells }
    {
        if self.by_part[part].is_none() {
            self.take(part);
        }
    }

    /// So many parts are touched, from one on.
    fn touch_parts(&mut self, first: usize, count: usize)
        requires inside { first + count ≤ length self.old.slots.by_part }
        requires fits { first + count < 2 ^ 64 }
        ensures slots { self.new.slots ≡ touched_parts count first self.old.slots }
        ensures cells { self.new.cells ≡ self.old.cells }
    {
        for done in 0..count {
            self.touch(first + done);
        }
    }

    /// An access to a word is compared with those that were kept of it, and kept. Its part has a slot.
    fn note(&mut self, word: usize, clocks: &[Clock], access: &Access, found: &mut Findings)
        requires inside { word < length self.old.cells }
        requires slot { has_slot (word / 1024) self.old.slots ≡ true }
        ensures cells { self.new.cells
            ≡ slice_set self.old.cells word
            (kept access.now (get_or self.old.cells word no_accesses)) }
        ensures slots { self.new.slots ≡ self.old.slots }
        ensures found { found_in found.new
            ≡ compared_all clocks.now access.now (get_or self.old.cells word no_accesses)
            (found_in found.old) }
    {
        let slot = self.by_part[word / PART];
        if let Some(slot) = slot {
            let place = PART * slot + word % PART;
            note_in(&mut self.cells, place, clocks, access, found);
        }
    }

    /// A thread loads or stores.
    pub(crate) fn access(&mut self, clocks: &[Clock], access: &Access, found: &mut Findings)
        ensures { (orders : Ordered)
            → detected_by clocks.now self.new (found_in found.new) orders
            ≡ noted_one (operation.Access access.now)
            (detected_by clocks.now self.old (found_in found.old) orders) }
    {
        let word = (access.address / 4) as usize;
        if self.is_full || word >= self.words {
            return;
        }
        self.touch(word / PART);
        if !self.is_full {
            self.note(word, clocks, access, found);
        }
    }

    /// Nothing accessed a word any more that is given anew. Its part has a slot.
    fn renew_word(&mut self, word: usize, block: &Block)
        requires inside { word < length self.old.cells }
        requires slot { has_slot (word / 1024) self.old.slots ≡ true }
        ensures cells { self.new.cells
            ≡ slice_set self.old.cells word (given_with block.now) }
        ensures slots { self.new.slots ≡ self.old.slots }
    {
        let slot = self.by_part[word / PART];
        if let Some(slot) = slot {
            put_in(&mut self.cells, PART * slot + word % PART, block);
        }
    }

    /// Nothing accessed the first so many words of memory any more that is given anew. Their parts have slots.
    fn renew_words(&mut self, block: &Block, count: usize)
        requires inside { block.now.first + count ≤ length self.old.cells }
        requires fits { block.now.first + count < 2 ^ 64 }
        requires slots { HaveSlots count block.now.first self.old.slots }
        ensures cells { self.new.cells ≡ renewed count block.now self.old.cells }
        ensures slots { self.new.slots ≡ self.old.slots }
    {
        let first = block.first as usize;
        for done in 0..count {
            self.renew_word(first + done, block);
        }
    }

    /// How many words of memory that is given anew it has.
    fn few_words(&self, block: &Block) -> usize
        ensures few { result ≡ few_words block.now self.now.cells }
        ensures fits { block.now.first + result < 2 ^ 64 }
    {
        let from = block.first as usize;
        let all = self.len();
        if all <= from {
            return 0;
        }
        let left = all - from;
        let count = block.count as usize;
        if count < left { count } else { left }
    }

    /// Memory is given anew.
    pub(crate) fn renew(&mut self, block: &Block)
        ensures { (clocks : List ClockValue) (found : Found) (orders : Ordered)
            → detected_by clocks self.new found orders
            ≡ noted_one (operation.Renew block.now) (detected_by clocks self.old found orders) }
    {
        let few = self.few_words(block);
        if self.is_full || few == 0 {
            return;
        }
        let first = block.first as usize;
        self.touch_parts(first / PART, parts_over(few, first));
        if !self.is_full {
            self.renew_words(block, few);
        }
    }
}
