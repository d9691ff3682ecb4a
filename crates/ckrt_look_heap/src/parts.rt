//! What was told of each word, by parts: one whose words differ takes a slot of a room that was made before.
ghost use Rattle.std.specs.Prelude.{◌≡◌, ◌⊎◌, ◌≤◌, ◌<◌, ◌+◌, ◌*◌, ◌/◌, ◌%◌, ◌^◌, [], false, true, if◌then◌else◌, get_or, length, replicate, slice_get, vec_capacity, IfOk};
ghost use Rattle.std.specs.Option.{option_copied};
ghost use Rattle.ckrt_look_heap.specs.declared.block.Cell.TheVariants as cell;
ghost use Rattle.ckrt_look_heap.specs.declared.parts.Told.TheVariants as told;
ghost use Rattle.ckrt_look_heap.specs.Parts.{IsSplitAt, altered, split, split_at, split_for};

use crate::block::{Cell, Change, changed_by};
use std::alloc::{AllocError, Global};
use std::marker::Model;

/// How many words a part has: those of a page.
const PART: usize = 1_024;

/// How many bytes of a room one part takes whose words differ.
pub const PART_BYTES: u64 = 57_344;

/// What was told of the words of a part.
#[derive(Clone, Copy, Drop)]
pub(crate) enum Told {
    /// The same of all of them.
    Same(Cell),
    /// Each has a cell in this slot.
    Each(usize),
}

/// What was told of each word of a memory, in a room of slots for parts whose words differ.
#[derive(Drop)]
pub(crate) struct Parts {
    words: usize,
    parts: Vec<Told>,
    /// The cells of the slots that are taken, one slot behind the other.
    cells: Vec<Cell>,
    taken: usize,
    /// How many slots there are.
    count: usize,
    is_full: bool,
}

impl Model for Parts {
    ghost use Rattle.std.specs.Prelude.{vec_capacity};
    ghost use Rattle.ckrt_look_heap.specs.Parts.{IsRoom, Parted, cells_of, room_of};

    ghost Value = { Parted };

    ghost view = { λ p. record {
      cells = cells_of p.parts.items p.cells.items p.words;
      room = room_of p.parts.items p.taken p.count p.is_full;
    } };

    ghost invariant = { λ p. IsRoom p.parts.items p.cells.items
        (room_of p.parts.items p.taken p.count p.is_full) p.words (vec_capacity p.cells) };
}

/// Nothing was told of so many words.
fn no_parts(alloc: Global, words: usize) -> Result<Vec<Told>, AllocError>
    ensures { IfOk result (λ parts.
        parts.items ≡ replicate (words / 1024 + 1) (told.Same cell.Unknown)) }
{
    let mut parts = Vec::with_capacity(alloc, words / PART + 1)?;
    parts.resize(words / PART + 1, Told::Same(Cell::Unknown))?;
    Ok(parts)
}

/// Nothing was told of parts any more.
fn forget(parts: &mut Vec<Told>)
    ensures { parts.new.items ≡ replicate (length parts.old.items) (told.Same cell.Unknown) }
{
    parts.as_mut_slice().fill(Told::Same(Cell::Unknown));
}

/// The room for the cells of so many slots.
fn room_for(alloc: Global, slots: usize) -> Result<Vec<Cell>, AllocError>
    ensures empty { IfOk result (λ cells. cells.items ≡ []) }
    ensures room { IfOk result (λ cells. 1024 * slots ≤ vec_capacity cells) }
    ensures fits { IfOk result (λ _. 1024 * slots < 2 ^ 64) }
{
    match slots.checked_mul(PART) {
        Some(words) => Vec::with_capacity(alloc, words),
        None => Err(AllocError),
    }
}

/// Something else is told of so many cells, from a place on.
#[tactic(auto, using(crate::proofs::CellLemmas::changed_on))]
fn change_cells(cells: &mut Vec<Cell>, place: usize, count: usize, change: &Change)
    requires { place + count ≤ length cells.old.items }
    ensures cells { cells.new.items ≡ altered count place change.now cells.old.items }
    ensures room { vec_capacity cells.new ≡ vec_capacity cells.old }
{
    for done in 0..count {
        let cell = changed_by(change, &cells[place + done]);
        cells[place + done] = cell;
    }
}

impl Parts {
    ghost use Rattle.ckrt_look_heap.specs.Parts.{no_slots};

    /// Nothing was told yet of so many words, in a room of so many slots.
    pub(crate) fn new(alloc: Global, words: usize, slots: usize) -> Result<Parts, AllocError>
        ensures { IfOk result (λ parts. parts
            ≡ record { cells = replicate words cell.Unknown; room = no_slots words slots }) }
    {
        let parts = no_parts(alloc, words)?;
        let cells = room_for(alloc, slots)?;
        Ok(Parts {
            words,
            parts,
            cells,
            taken: 0,
            count: slots,
            is_full: false,
        })
    }

    /// Nothing was told any more. It gives all slots back, and looks at no word.
    pub(crate) fn clear(&mut self)
        ensures { self.new ≡ record {
          cells = replicate (length self.old.cells) cell.Unknown;
          room = no_slots (length self.old.cells) self.old.room.count;
        } }
    {
        forget(&mut self.parts);
        self.cells.clear();
        self.taken = 0;
        self.is_full = false;
    }

    /// How many words there are.
    pub(crate) fn len(&self) -> usize
        ensures words { result ≡ length self.now.cells }
        ensures parts { length self.now.room.has ≡ result / 1024 + 1 }
    {
        self.words
    }

    /// Whether the room is used up.
    pub(crate) fn is_full(&self) -> bool
        ensures { result ≡ self.now.room.is_full }
    {
        self.is_full
    }

    /// What was told of a word, if there is such a word.
    pub(crate) fn get(&self, word: usize) -> Option<&Cell>
        ensures { option_copied result ≡ slice_get self.now.cells word }
    {
        if word >= self.words {
            return None;
        }
        let told = &self.parts[word / PART];
        match told {
            Told::Same(cell) => Some(cell),
            Told::Each(slot) => Some(&self.cells[PART * *slot + word % PART]),
        }
    }

    /// The words of a part may differ from here on: it takes a slot, if one is left.
    fn split(&mut self, part: usize)
        requires { part < length self.old.room.has }
        ensures room { self.new.room ≡ split part self.old.room }
        ensures cells { self.new.cells ≡ self.old.cells }
    {
        let told = self.parts[part];
        let Told::Same(cell) = told else {
            return;
        };
        if self.taken >= self.count {
            self.is_full = true;
            return;
        }
        let _ = self.cells.resize(PART * (self.taken + 1), cell);
        self.parts[part] = Told::Each(self.taken);
        self.taken += 1;
    }

    /// Something else may be told of a word than of the one before it.
    fn split_at(&mut self, word: usize)
        requires { word / 1024 < length self.old.room.has }
        ensures room { self.new.room ≡ split_at word self.old.room }
        ensures cells { self.new.cells ≡ self.old.cells }
    {
        if word % PART != 0 {
            self.split(word / PART);
        }
    }

    /// Something else is told of so many words of a part, from one on: of all of them, or it has a slot.
    fn change_part(&mut self, first: usize, count: usize, change: &Change)
        requires within { first % 1024 + count ≤ 1024 }
        requires inside { first + count ≤ length self.old.cells }
        requires split { (count ≡ 1024)
            ⊎ (get_or self.old.room.has (first / 1024) false ≡ true) }
        ensures cells { self.new.cells ≡ altered count first change.now self.old.cells }
        ensures room { self.new.room ≡ self.old.room }
    {
        let part = first / PART;
        let told = self.parts[part];
        match told {
            Told::Same(cell) => self.parts[part] = Told::Same(changed_by(change, &cell)),
            Told::Each(slot) => {
                change_cells(&mut self.cells, PART * slot + first % PART, count, change)
            }
        }
    }

    /// Something else is told of so many words, from one on. Each part that has other words, too, has a slot.
    fn change_parts(&mut self, first: usize, count: usize, change: &Change)
        requires inside { first + count ≤ length self.old.cells }
        requires fits { first + count < 2 ^ 64 }
        requires begin { IsSplitAt first self.old.room }
        requires end { IsSplitAt (first + count) self.old.room }
        ensures cells { self.new.cells ≡ altered count first change.now self.old.cells }
        ensures room { self.new.room ≡ self.old.room }
    {
        let mut done = 0;
        'parts: while done < count {
            let from = first + done;
            let few = (PART - from % PART).min(count - done);
            self.change_part(from, few, change);
            done += few;
        }
    }

    /// Something else is told of so many words, from one on, unless the room is used up by it.
    pub(crate) fn change(&mut self, first: usize, count: usize, change: &Change)
        requires inside { first + count ≤ length self.old.cells }
        requires fits { first + count < 2 ^ 64 }
        requires parts { (first + count) / 1024 < length self.old.room.has }
        requires some { 1 ≤ count }
        ensures room { self.new.room ≡ split_for count first self.old.room }
        ensures cells { self.new.cells
            ≡ (if self.new.room.is_full then self.old.cells
            else altered count first change.now self.old.cells) }
    {
        self.split_at(first);
        self.split_at(first + count);
        if !self.is_full {
            self.change_parts(first, count, change);
        }
    }
}
