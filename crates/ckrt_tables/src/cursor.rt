//! Reading bytes from the front.
ghost use Rattle.std.specs.Prelude.{◌≡◌, ◌≤◌, ℕ, List, ◌++◌, length};
ghost use Rattle.byteorder.specs.Endian.{little_bytes};
ghost use Rattle.ckrt_tables.specs.Decoding.{Finds};
ghost use Rattle.ckrt_tables.specs.Records.{one_byte};
ghost use Rattle.ckrt_tables.specs.Savable.{is_byte, is_half, is_word, is_long};

use byteorder::{ByteOrder, LittleEndian};
use std::marker::Model;

/// Bytes that are read from the front. Where too few are left for a number it is 0, and they stay.
#[derive(Drop)]
pub struct Cursor<'a> {
    rest: &'a [u8],
}

impl<'a> Model for Cursor<'a> {
    ghost use Rattle.std.specs.Prelude.{List, ℕ};

    ghost Value = { List ℕ };

    ghost view = { λ c. c.rest.now };
}

impl<'a> Cursor<'a> {
    /// All of these bytes are left.
    pub fn new(bytes: &'a [u8]) -> Self
        ensures { result ≡ bytes.now }
    {
        Cursor { rest: bytes }
    }

    /// A number of one byte.
    pub fn byte(&mut self) -> u8
        ensures { Finds is_byte one_byte self.old result self.new }
    {
        match self.rest {
            [first, rest @ ..] => {
                self.rest = rest;
                *first
            }
            [] => 0,
        }
    }

    /// A number of two bytes, the low one first.
    pub fn half(&mut self) -> u16
        ensures { Finds is_half (little_bytes 2) self.old result self.new }
    {
        if self.rest.len() < 2 {
            return 0;
        }
        let (front, rest) = self.rest.split_at(2);
        self.rest = rest;
        LittleEndian::read_u16(front)
    }

    /// A number of four bytes, the lowest first.
    pub fn word(&mut self) -> u32
        ensures { Finds is_word (little_bytes 4) self.old result self.new }
    {
        if self.rest.len() < 4 {
            return 0;
        }
        let (front, rest) = self.rest.split_at(4);
        self.rest = rest;
        LittleEndian::read_u32(front)
    }

    /// A number of eight bytes, the lowest first.
    pub fn long(&mut self) -> u64
        ensures { Finds is_long (little_bytes 8) self.old result self.new }
    {
        if self.rest.len() < 8 {
            return 0;
        }
        let (front, rest) = self.rest.split_at(8);
        self.rest = rest;
        LittleEndian::read_u64(front)
    }

    /// That many bytes; none where fewer are left.
    pub fn bytes(&mut self, count: usize) -> &'a [u8]
        ensures found { (front rest : List ℕ) → length front ≡ count → self.old ≡ front ++ rest
            → (result.now ≡ front) × (self.new ≡ rest) }
        ensures most { length result.now ≤ count }
    {
        if self.rest.len() < count {
            return &[];
        }
        let (front, rest) = self.rest.split_at(count);
        self.rest = rest;
        front
    }
}
