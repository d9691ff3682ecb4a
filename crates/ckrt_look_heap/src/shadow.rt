//! The shadow of a heap.
ghost use Rattle.std.specs.Prelude.{◌≡◌, ◌<◌, ◌+◌, ◌/◌, ◌^◌, false, length, IfOk};
ghost use Rattle.ckrt_look_heap.specs.declared.shadow.Note.TheVariants as note;
ghost use Rattle.ckrt_look_heap.specs.Shadow.{few, freed_as, if_told, part_of, wrong};
ghost use Rattle.ckrt_look_heap.specs.Within.{changes, fresh_within, is_full, noted_one, room_by_free, with_room, with_told};

use crate::block::{Access, Block, Cell, Change, Part, is_begin, may_use};
use crate::finding::Finding;
use crate::found::Findings;
use crate::parts::Parts;
use ckrt_look_calls::Moment;
use std::alloc::{AllocError, Global};
use std::marker::Model;

/// What is told of memory, or done to it.
#[derive(Clone, Copy, Debug, Drop)]
pub enum Note {
    /// Memory is loaded or stored.
    Use(Access),
    /// A block is given.
    Give(Block),
    /// A block is given back. An error of that is told, or not, as within the heap.
    GiveBack(Access, bool),
    /// A part of memory is nobody's any more.
    Disown(Part, Moment),
    /// It is the end of what is looked at, and the program has ended or not.
    End(bool),
}

/// What was told last of each word of memory, which errors were found, whether all is known since the program's begin, whether anything was told of memory that is no block's, and whether
/// the program has ended.
#[derive(Drop)]
pub struct Shadow {
    parts: Parts,
    found: Findings,
    is_whole: bool,
    is_told: bool,
    has_ended: bool,
}

impl Model for Shadow {
    ghost use Rattle.ckrt_look_heap.specs.Shadow.{found_in};
    ghost use Rattle.ckrt_look_heap.specs.Within.{Noted};

    ghost Value = { Noted };

    ghost view = { λ s. record {
      heap = record {
        cells = s.parts.cells;
        found = found_in s.found;
        is_whole = s.is_whole;
        is_told = s.is_told;
        has_ended = s.has_ended;
      };
      room = s.parts.room;
    } };
}

/// The words of a block.
fn part_of(block: &Block) -> Part
    ensures { result ≡ part_of block.now }
{
    Part {
        first: block.first,
        count: block.count,
    }
}

impl Shadow {
    ghost use Rattle.std.specs.Prelude.{get_or, slice_get};
    ghost use Rattle.ckrt_look_heap.specs.declared.block.Cell.TheVariants as cell;

    /// Nothing was told yet of a memory of so many words, from the program's begin on or not. It takes 64 bytes for each part of 1,024
    /// words, and a room of so many slots, of [`PART_BYTES`](crate::PART_BYTES) each.
    pub fn new(
        alloc: Global,
        is_whole: bool,
        words: usize,
        slots: usize,
    ) -> Result<Shadow, AllocError>
        ensures { IfOk result (λ shadow. shadow ≡ fresh_within is_whole words slots) }
    {
        Ok(Shadow {
            parts: Parts::new(alloc, words, slots)?,
            found: Findings::new(alloc)?,
            is_whole,
            is_told: false,
            has_ended: false,
        })
    }

    /// Nothing was told any more, as when it was new. It takes no memory, gives all slots back, and looks at no word.
    pub fn clear(&mut self)
        ensures { self.new ≡ fresh_within self.old.heap.is_whole (length self.old.heap.cells)
            self.old.room.count }
    {
        self.parts.clear();
        self.found.clear();
        self.is_told = false;
        self.has_ended = false;
    }

    /// What was told of the word of a load or a store, if it is an error.
    pub fn wrong(&self, access: &Access) -> Option<Cell>
        ensures { result
            ≡ wrong access.now (slice_get self.now.heap.cells (access.now.address / 4)) }
    {
        let cell = self.parts.get((access.address / 4) as usize)?;
        if may_use(access, cell) {
            None
        } else {
            Some(*cell)
        }
    }

    /// How many words of a part the memory has.
    fn few(&self, part: Part) -> usize
        ensures few { result ≡ few part self.now.heap.cells }
        ensures fits { part.first + result < 2 ^ 64 }
        ensures parts { length self.now.room.has ≡ length self.now.heap.cells / 1024 + 1 }
    {
        let from = part.first as usize;
        let all = self.parts.len();
        if all <= from {
            return 0;
        }
        let left = all - from;
        let count = part.count as usize;
        if count < left { count } else { left }
    }

    /// Something else is told of the words of a part that the memory has, unless the room is used up by it.
    fn change(&mut self, part: Part, change: &Change)
        requires left { is_full self.old ≡ false }
        ensures { self.new ≡ changes part change.now self.old }
    {
        let count = self.few(part);
        if count > 0 {
            self.parts.change(part.first as usize, count, change);
        }
    }

    /// A thread loads or stores.
    pub fn access(&mut self, access: &Access)
        ensures { self.new ≡ noted_one (note.Use access.now) self.old }
    {
        if self.parts.is_full() {
            return;
        }
        if let Some(cell) = self.wrong(access) {
            self.found.note(access, &cell);
        }
    }

    /// A block is given.
    pub fn give(&mut self, block: &Block)
        ensures { self.new ≡ noted_one (note.Give block.now) self.old }
    {
        if !self.parts.is_full() {
            self.change(part_of(block), &Change::Told(Cell::Given(*block)));
        }
    }

    /// What was told of a word: of one that the memory doesn't have nothing was.
    pub(crate) fn told_of(&self, word: usize) -> Cell
        ensures { result ≡ get_or self.now.heap.cells word cell.Unknown }
    {
        match self.parts.get(word) {
            Some(cell) => *cell,
            None => Cell::Unknown,
        }
    }

    /// An error, where such are told.
    fn note_if(&mut self, is_told: bool, access: &Access, cell: &Cell)
        ensures { self.new ≡ record {
          heap = if_told is_told access.now cell.now self.old.heap;
          room = self.old.room;
        } }
    {
        if is_told {
            self.found.note(access, cell);
        }
    }

    /// A block is given back, of whose word before it this was told.
    fn free_as(&mut self, access: &Access, cell: &Cell, is_told: bool)
        requires left { is_full self.old ≡ false }
        ensures { self.new
            ≡ with_room (room_by_free access.now cell.now self.old.heap self.old.room)
            self.old.heap (freed_as is_told access.now cell.now self.old.heap) }
    {
        match cell {
            Cell::Unknown => {
                let is_whole = self.is_whole;
                self.note_if(is_told && is_whole, access, cell);
            }
            Cell::Given(block) if is_begin(access, block) => {
                let back = Cell::GivenBack(*block, access.moment);
                self.change(part_of(block), &Change::Told(back));
            }
            _ => self.note_if(is_told, access, cell),
        }
    }

    /// Something was told of memory that is no block's.
    fn tell(&mut self)
        ensures { self.new ≡ with_told self.old }
    {
        if !self.parts.is_full() {
            self.is_told = true;
        }
    }

    /// A block is given back.
    pub fn free(&mut self, access: &Access, is_told: bool)
        ensures { self.new ≡ noted_one (note.GiveBack access.now is_told) self.old }
    {
        if self.parts.is_full() {
            return;
        }
        let head = ((access.address / 4).saturating_sub(1)) as usize;
        let cell = self.told_of(head);
        self.free_as(access, &cell, is_told);
        self.tell();
    }

    /// A part of memory is nobody's any more. Words that the memory doesn't have are passed over.
    pub fn disown(&mut self, part: Part, moment: Moment)
        ensures { self.new ≡ noted_one (note.Disown part moment) self.old }
    {
        if self.parts.is_full() {
            return;
        }
        self.change(part, &Change::Left(moment));
        self.tell();
    }

    /// It is the end.
    pub fn end(&mut self, has_ended: bool)
        ensures { self.new ≡ noted_one (note.End has_ended) self.old }
    {
        if !self.parts.is_full() {
            self.has_ended = has_ended;
        }
    }

    /// What comes next.
    pub fn note(&mut self, note: &Note)
        ensures { self.new ≡ noted_one note.now self.old }
    {
        match note {
            Note::Use(access) => self.access(access),
            Note::Give(block) => self.give(block),
            Note::GiveBack(access, is_told) => self.free(access, *is_told),
            Note::Disown(part, moment) => self.disown(*part, *moment),
            Note::End(has_ended) => self.end(*has_ended),
        }
    }

    /// The errors that were found, by places, in the order in which they were found.
    pub fn findings(&self) -> &[Finding]
        ensures { result.now ≡ self.now.heap.found.rows }
    {
        self.found.rows.as_slice()
    }

    /// How many there were at places for which no row was left.
    pub fn others(&self) -> u64
        ensures { result ≡ self.now.heap.found.others }
    {
        self.found.others
    }

    /// Whether anything was told of memory that is no block's.
    pub fn is_told(&self) -> bool
        ensures { result ≡ self.now.heap.is_told }
    {
        self.is_told
    }

    /// Whether the program has ended.
    pub fn has_ended(&self) -> bool
        ensures { result ≡ self.now.heap.has_ended }
    {
        self.has_ended
    }

    /// Whether the room is used up: the words of a part more differ than there are slots. Then nothing is noted any more.
    pub fn is_full(&self) -> bool
        ensures { result ≡ is_full self.now }
    {
        self.parts.is_full()
    }

    /// How many words the memory has.
    pub(crate) fn len(&self) -> usize
        ensures { result ≡ length self.now.heap.cells }
    {
        self.parts.len()
    }
}
