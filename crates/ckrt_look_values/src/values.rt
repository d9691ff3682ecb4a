//! The values of memory and of registers.
ghost use Rattle.std.specs.Prelude.{◌≡◌, IfOk};

use crate::finding::Finding;
use crate::found::Findings;
use crate::value::{Use, Value};
use crate::words::{fill, get_value, known_values, set_value};
use ckrt_look_heap::Part;
use std::alloc::{AllocError, Global};
use std::marker::Model;

/// A block that a function gives: what the function stores there is the heap's, up to its return.
#[derive(Clone, Copy, Debug, Drop)]
pub(crate) struct Giving {
    /// That of the block's words.
    pub(crate) value: Value,
    pub(crate) part: Part,
    /// The function's stack pointer.
    pub(crate) stack: u32,
}

/// How many registers there are: 32 for each number that a thread may have.
pub const REGISTERS: usize = 2_080;

/// What is known of each word of memory and of each register of each thread, the block that is just given, and which uses of values were
/// found that hang on what was never stored.
#[derive(Drop)]
pub struct Values {
    words: Vec<Value>,
    registers: Vec<Value>,
    giving: Option<Giving>,
    found: Findings,
}

impl Model for Values {
    ghost use Rattle.ckrt_look_values.specs.Values.{Shadow, found_in};

    ghost Value = { Shadow };

    ghost view = { λ s. record {
      words = s.words.items;
      registers = s.registers.items;
      giving = s.giving;
      found = found_in s.found;
    } };
}

impl Values {
    ghost use Rattle.ckrt_look_values.specs.Values.{fresh, given, register_of, told, with_part, with_register, with_word, word_of, without_giving};

    /// All is known of a memory of so many words.
    pub(crate) fn new(alloc: Global, words: usize) -> Result<Values, AllocError>
        ensures { IfOk result (λ values. values ≡ fresh words) }
    {
        Ok(Values {
            words: known_values(alloc, words)?,
            registers: known_values(alloc, REGISTERS)?,
            giving: None,
            found: Findings::new(alloc)?,
        })
    }

    /// That of a thread's register.
    pub(crate) fn register(&self, thread: u8, register: u8) -> Value
        ensures { result ≡ register_of thread register self.now }
    {
        let at = 32 * usize::from(thread) + usize::from(register);
        get_value(self.registers.as_slice(), at)
    }

    /// Puts a thread's register; x0 is always known.
    pub(crate) fn put(&mut self, thread: u8, register: u8, value: Value)
        ensures { self.new ≡ with_register thread register value self.old }
    {
        if register != 0 {
            let at = 32 * usize::from(thread) + usize::from(register);
            set_value(&mut self.registers, at, value);
        }
    }

    /// That of the word at an address.
    pub(crate) fn word(&self, address: u32) -> Value
        ensures { result ≡ word_of address self.now }
    {
        get_value(self.words.as_slice(), (address / 4) as usize)
    }

    /// Puts that of the word at an address.
    pub(crate) fn set_word(&mut self, address: u32, value: Value)
        ensures { self.new ≡ with_word address value self.old }
    {
        set_value(&mut self.words, (address / 4) as usize, value);
    }

    /// Puts the same for a part of memory that is given.
    pub(crate) fn set_part(&mut self, part: Part, value: Value)
        ensures { self.new ≡ with_part part value self.old }
    {
        fill(&mut self.words, part, value);
    }

    /// The block that is just given.
    pub(crate) fn giving(&self) -> Option<Giving>
        ensures { result ≡ self.now.giving }
    {
        self.giving
    }

    /// A block is given.
    pub(crate) fn give(&mut self, giving: Giving)
        ensures { self.new ≡ given giving self.old }
    {
        self.giving = Some(giving);
    }

    /// The function that gave a block has returned.
    pub(crate) fn end_giving(&mut self)
        ensures { self.new ≡ without_giving self.old }
    {
        self.giving = None;
    }

    /// A value is used, of which bits are unknown.
    pub(crate) fn tell(&mut self, it: &Use)
        ensures { self.new ≡ told it.now self.old }
    {
        self.found.note(it);
    }

    /// The uses that were found, by places, in the order in which they were found.
    pub(crate) fn findings(&self) -> &[Finding]
        ensures { result.now ≡ self.now.found.rows }
    {
        self.found.rows.as_slice()
    }

    /// How many there were at places for which no row was left.
    pub(crate) fn others(&self) -> u64
        ensures { result ≡ self.now.found.others }
    {
        self.found.others
    }
}
