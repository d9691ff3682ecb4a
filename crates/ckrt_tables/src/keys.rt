//! Writing the keys of a program, and what a thread has under them.
ghost use Rattle.std.specs.Prelude.{◌≡◌, ◌≤◌, ◌+◌, ◌∷◌, [], length, map};
ghost use Rattle.std.specs.List.{flat_map};
ghost use Rattle.byteorder.specs.Endian.{little_bytes};
ghost use Rattle.ckrt_tables.specs.Records.{data_bytes, keys_bytes, key_entry_bytes, word_at, words_from, if_not_0};
ghost use Rattle.ckrt_tables.specs.Writing.{HasRoom, IsPut};

use crate::numbers::flag;
use crate::reading_keys::KeyEntry;
use crate::writing::put;
use byteorder::{ByteOrder, LittleEndian};
use ckrt_thread::{Keys, MAX_KEYS, SpecificData};

/// A word by its key.
fn key_entry_bytes(word: KeyEntry) -> [u8; 8]
    ensures { result ≡ key_entry_bytes word }
{
    let mut bytes = [0; 8];
    LittleEndian::write_u32(&mut bytes, word.key);
    LittleEndian::write_u32(&mut bytes[4..], word.word);
    bytes
}

/// The word of a key, where there is one.
fn put_word(out: &mut [u8], at: usize, key: u32, word: Option<u32>) -> usize
    requires { HasRoom out.old at (flat_map key_entry_bytes (word_at key word)) }
    ensures { IsPut out.old at (flat_map key_entry_bytes (word_at key word)) out.new result }
{
    match word {
        Some(word) => put(out, at, &key_entry_bytes(KeyEntry { key, word })),
        None => at,
    }
}

/// The words by rising key.
fn put_words(out: &mut [u8], at: usize, words: &[Option<u32>]) -> usize
    requires few { length words.now ≡ 32 }
    requires room { HasRoom out.old at (flat_map key_entry_bytes (words_from 0 words.now)) }
    ensures { IsPut out.old at (flat_map key_entry_bytes (words_from 0 words.now)) out.new result }
{
    let mut end = at;
    for key in 0..MAX_KEYS {
        end = put_word(out, end, key as u32, words[key]);
    }
    end
}

/// How many words there are.
fn word_count(words: &[Option<u32>]) -> u8
    requires { length words.now ≡ 32 }
    ensures { result ≡ length (words_from 0 words.now) }
{
    let mut count = 0;
    for key in 0..MAX_KEYS {
        count += one_if_some(words[key]);
    }
    count
}

/// One where there is a word.
fn one_if_some(word: Option<u32>) -> u8
    ensures one { result ≡ length (word_at 0 word) }
    ensures most { result ≤ 1 }
{
    match word {
        Some(_) => 1,
        None => 0,
    }
}

/// A word, where it isn't 0.
fn if_not_0(value: u32) -> Option<u32>
    ensures { result ≡ if_not_0 value }
{
    if value == 0 { None } else { Some(value) }
}

/// The values that aren't 0.
fn words_of(values: &[u32; MAX_KEYS]) -> [Option<u32>; MAX_KEYS]
    ensures { result ≡ map if_not_0 values.now }
{
    let mut words = [None; MAX_KEYS];
    for key in 0..MAX_KEYS {
        words[key] = if_not_0(values[key]);
    }
    words
}

/// What a thread has under keys. Version 1 says nothing of it.
pub fn put_data(out: &mut [u8], at: usize, specific: &SpecificData, version: u32) -> usize
    requires { HasRoom out.old at (data_bytes version specific.now) }
    ensures { IsPut out.old at (data_bytes version specific.now) out.new result }
{
    if version == 1 {
        return at;
    }
    let words = words_of(&specific.values);
    let count = word_count(words.as_slice());
    let end = put(out, at, &[specific.round, specific.next_key, count, 0]);
    put_words(out, end, words.as_slice())
}

/// The keys of the program. Version 1 says nothing of them.
pub fn put_keys(out: &mut [u8], at: usize, keys: &Keys, version: u32) -> usize
    requires { HasRoom out.old at (keys_bytes version keys.now) }
    ensures { IsPut out.old at (keys_bytes version keys.now) out.new result }
{
    if version == 1 {
        return at;
    }
    let destructors = keys.destructors();
    let end = put(out, at, &[flag(1, keys.is_on()), word_count(destructors)]);
    put_words(out, end, destructors)
}
