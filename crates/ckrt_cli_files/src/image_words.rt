//! The words of a program, which its image gets where it takes some.
ghost use Rattle.std.specs.Prelude.{◌≡◌, ◌≤◌, ◌<◌, ◌+◌, ◌++◌, ◌∷◌, ◌^◌, [], IfOk, IfErr, IfSome, length, map};
ghost use Rattle.ckrt_disk.specs.Disk.{IsOverwritten};
ghost use Rattle.ckrt_cli_files.specs.ImageWords.{GetsWords, PutsAt, place_of, record_of, texts};
ghost use Rattle.ckrt_cli_files.specs.declared.file.FileFault.TheVariants.{OutOfMemory};

use crate::file::FileFault;
use arrayvec::ArrayVec;
use ckrt_stored::{number_32, number_64, put};

/// Where an image begins in a guest's memory.
const BEGIN: usize = 0x1000;

/// How many bytes of memory the largest guest has from there on.
pub const LARGEST_IMAGE: usize = 4_096 * 65_535;

/// "CKRTWORD", what stands after the first word of an image that takes words.
const MARK: u64 = 0x4452_4f57_5452_4b43;

/// Where that stands.
const MARK_AT: usize = 4;

/// Where the address of the place for words stands.
const ADDRESS_AT: usize = 12;

/// How many bytes that place has.
const PLACE_BYTES: usize = 16;

/// What a program is started with.
#[derive(Clone, Copy)]
pub struct ProgramWords<'a> {
    /// What `main` gets after its name.
    pub arguments: &'a [&'a str],
    /// What `getenv` finds, each `NAME=VALUE`.
    pub variables: &'a [&'a str],
}

/// Where an image takes words, if it takes any.
fn place_of(image: &[u8]) -> Option<usize>
    ensures exact { result ≡ place_of image.now }
    ensures inside { IfSome result (λ place. place + 16 ≤ length image.now) }
{
    if image.len() < PLACE_BYTES || number_64(image, MARK_AT) != MARK {
        return None;
    }
    let address = number_32(image, ADDRESS_AT) as usize;
    if address < BEGIN {
        return None;
    }
    let place = address - BEGIN;
    if image.len() < place + PLACE_BYTES {
        return None;
    }
    if number_64(image, place) == 0 && number_64(image, place + 8) == 0 {
        Some(place)
    } else {
        None
    }
}

/// Puts a text with a zero after it after the bytes that there are.
fn push_text(image: &mut Vec<u8>, text: &str) -> Result<(), FileFault>
    ensures pushed { IfOk result (λ _.
        image.new.items ≡ image.old.items ++ (text.now ++ (0 ∷ []))) }
    ensures fault { IfErr result (λ e. e ≡ OutOfMemory) }
{
    let Ok(()) = image.extend_from_slice(text.as_bytes()) else {
        return Err(FileFault::OutOfMemory);
    };
    match image.push(0) {
        Ok(()) => Ok(()),
        Err(_) => Err(FileFault::OutOfMemory),
    }
}

/// Puts texts after the bytes that there are.
fn push_texts(image: &mut Vec<u8>, words: &[&str]) -> Result<(), FileFault>
    ensures pushed { IfOk result (λ _. image.new.items
        ≡ image.old.items ++ texts (map (λ s. s.now) words.now)) }
    ensures counted { IfOk result (λ _.
        length image.old.items + length words.now ≤ length image.new.items) }
    ensures fault { IfErr result (λ e. e ≡ OutOfMemory) }
{
    for word in words {
        push_text(image, word)?;
    }
    Ok(())
}

/// What the place for words has, once so many bytes of texts stand after an image of that size.
fn record_of(size: u32, bytes: u32, arguments: u32, variables: u32) -> ArrayVec<u8, PLACE_BYTES>
    requires { 4096 + size < 2 ^ 32 }
    ensures { result.items ≡ record_of size bytes arguments variables }
{
    let mut record = ArrayVec::new();
    put(&mut record, &(BEGIN as u32 + size).to_le_bytes());
    put(&mut record, &bytes.to_le_bytes());
    put(&mut record, &arguments.to_le_bytes());
    put(&mut record, &variables.to_le_bytes());
    record
}

/// Puts the record into its place.
fn put_record(image: &mut Vec<u8>, place: usize, bytes: &[u8])
    requires { place + length bytes.now ≤ length image.old.items }
    ensures { IsOverwritten image.old.items place bytes.now image.new.items }
{
    image[place..place + bytes.len()].copy_from_slice(bytes);
}

/// Puts words after an image, and the record of them into its place.
fn put_at(image: &mut Vec<u8>, place: usize, words: &ProgramWords<'_>) -> Result<(), FileFault>
    requires { place + 16 ≤ length image.old.items }
    ensures { PutsAt place (map (λ s. s.now) words.now.arguments.now)
        (map (λ s. s.now) words.now.variables.now) image.old.items image.new.items result }
{
    let size = image.len();
    push_texts(image, words.arguments)?;
    push_texts(image, words.variables)?;
    if image.len() > LARGEST_IMAGE {
        return Err(FileFault::LongWords);
    }
    let bytes = image.len() - size;
    let record = record_of(
        size as u32,
        bytes as u32,
        words.arguments.len() as u32,
        words.variables.len() as u32,
    );
    put_record(image, place, &record);
    Ok(())
}

/// Puts words into an image, which stand after its own bytes then.
///
/// # Errors
///
/// [`FileFault::NoWords`] where the image takes none, [`FileFault::LongWords`] where it is longer with them than the largest guest's
/// memory, [`FileFault::OutOfMemory`] where memory is refused. The image is of no use then.
pub fn put_words(image: &mut Vec<u8>, words: &ProgramWords<'_>) -> Result<(), FileFault>
    ensures { GetsWords (map (λ s. s.now) words.now.arguments.now)
        (map (λ s. s.now) words.now.variables.now) image.old.items image.new.items result }
{
    match place_of(image) {
        Some(place) => put_at(image, place, words),
        None => Err(FileFault::NoWords),
    }
}
