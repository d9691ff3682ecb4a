//! Reading the keys of a program, and what a thread has under them.
ghost use Rattle.std.specs.Prelude.{◌≡◌, ℕ, List, Option, ◌++◌, length, map, unwrap_or};
ghost use Rattle.std.specs.List.{flat_map};
ghost use Rattle.ckrt_tables.specs.Decoding.{Finds};
ghost use Rattle.ckrt_tables.specs.DecodingThreads.{AreWords, FindsKeys, fits_data_in};
ghost use Rattle.ckrt_tables.specs.Records.{data_bytes, key_entry_bytes, words_from, word_or_0};

use crate::cursor::Cursor;
use crate::reading::{Row, read_mark, read_rows};
use ckrt_thread::{Keys, MAX_KEYS, SpecificData};

/// A word by its key: a value, or the address of a destructor.
#[derive(Clone, Copy, Drop)]
pub struct KeyEntry {
    /// The key, 0 to 31.
    pub key: u32,
    /// The word.
    pub word: u32,
}

/// The words by their keys.
#[derive(Drop)]
pub struct KeyEntries {
    by_key: [Option<u32>; MAX_KEYS],
}

impl Row for KeyEntry {
    type Table = KeyEntries;

    ghost use Rattle.std.specs.Prelude.{◌≡◌};
    ghost use Rattle.ckrt_tables.specs.Records.{key_entry_bytes};
    ghost use Rattle.ckrt_tables.specs.DecodingThreads.{fits_key_entry, with_words};

    ghost encoding = { key_entry_bytes };

    ghost fits = { fits_key_entry };

    ghost LeadsTo = { λ begun words goal. goal.by_key ≡ with_words words begun.by_key };

    fn read(cursor: &mut Cursor<'_>) -> Self {
        let key = cursor.word();
        let word = cursor.word();
        KeyEntry { key, word }
    }

    fn append(self, table: &mut KeyEntries) {
        let place = self.key as usize;
        if place < MAX_KEYS {
            table.by_key[place] = Some(self.word);
        }
    }
}

/// That many words, by their keys.
fn read_words(cursor: &mut Cursor<'_>, count: u8) -> [Option<u32>; MAX_KEYS]
    ensures { (os : List (Option ℕ)) (rest : List ℕ) → AreWords os
        → count ≡ length (words_from 0 os)
        → cursor.old ≡ flat_map key_entry_bytes (words_from 0 os) ++ rest
        → (result ≡ os) × (cursor.new ≡ rest) }
{
    let mut words = KeyEntries {
        by_key: [None; MAX_KEYS],
    };
    read_rows::<KeyEntry>(cursor, &mut words, usize::from(count));
    words.by_key
}

/// The word, 0 where there is none.
fn word_or_0(word: Option<u32>) -> u32
    ensures { result ≡ word_or_0 word }
{
    word.unwrap_or(0)
}

/// The words, 0 where there is none.
fn values_of(words: &[Option<u32>; MAX_KEYS]) -> [u32; MAX_KEYS]
    ensures { result ≡ map word_or_0 words.now }
{
    let mut values = [0; MAX_KEYS];
    for key in 0..MAX_KEYS {
        values[key] = word_or_0(words[key]);
    }
    values
}

/// What a thread has under keys. Version 1 says nothing of it.
pub fn read_data(cursor: &mut Cursor<'_>, version: u32) -> SpecificData
    ensures { Finds (fits_data_in version) (data_bytes version) cursor.old result cursor.new }
{
    if version == 1 {
        return SpecificData::new();
    }
    let round = cursor.byte();
    let next_key = cursor.byte();
    let count = cursor.byte();
    cursor.byte();
    let words = read_words(cursor, count);
    SpecificData {
        values: values_of(&words),
        round,
        next_key,
    }
}

/// The keys of the program. In version 1 they are off.
pub fn read_keys(cursor: &mut Cursor<'_>, version: u32) -> Keys
    ensures { FindsKeys version cursor.old result cursor.new }
{
    if version == 1 {
        return Keys::off();
    }
    let is_on = read_mark(cursor);
    let count = cursor.byte();
    let words = read_words(cursor, count);
    match Keys::with(is_on, words) {
        Some(keys) => keys,
        None => Keys::off(),
    }
}
