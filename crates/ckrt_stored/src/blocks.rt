//! The superblock, from its bytes and as bytes.
ghost use Rattle.std.specs.Prelude.{◌≡◌, ◌≢◌, Err, ◌≤◌, length, IfOk, true};
ghost use Rattle.ckrt_stored.specs.declared.fault.RecoverFault.TheVariants.{Device, OutOfMemory};
ghost use Rattle.ckrt_stored.specs.Layout.{is_valid, size_needed};
ghost use Rattle.ckrt_stored.specs.Superblock.{config_within, has_notes, note_in, superblock_in, superblock_fields};
ghost use Rattle.ckrt_stored.specs.Recovery.{Agrees, Is};

use crate::config::Config;
use crate::fault::RecoverFault;
use crate::fields::{number_32, number_64, put};
use crate::layout::{FIELDS_AT, SUPERBLOCK_VERSION};
use crate::note::{ProgramNote, note_for};
use arrayvec::ArrayVec;
use ckrt_journal::OPEN;

/// How many bytes of a superblock are read.
pub(crate) const SUPERBLOCK_BYTES: usize = 32;

/// How many bytes of a superblock have the note of its program, with all that stands before it.
pub(crate) const NOTE_BYTES: usize = 72;

/// The version of a superblock that has a note of its program.
const NOTED_VERSION: u32 = 3;

/// "CKRTDISK".
const MAGIC: u64 = 0x4b53_4944_5452_4b43;

/// The configuration, where it's valid and a disk of that many bytes is large enough for it.
fn config_within(size: usize, config: Config) -> Result<Config, RecoverFault>
    ensures exact { Agrees (λ c. c) (λ e. e) result (Is (config_within size config)) }
    ensures no_device { result ≢ Err Device }
    ensures no_memory { result ≢ Err OutOfMemory }
    ensures valid { IfOk result (λ c. is_valid c ≡ true) }
    ensures room { IfOk result (λ c. size_needed c ≤ size) }
{
    if !config.is_valid() || size < config.size_needed() {
        return Err(RecoverFault::Damaged);
    }
    Ok(config)
}

/// The configuration that a superblock's first 32 bytes have, on a disk of that many bytes.
pub(crate) fn superblock(size: usize, block: &[u8]) -> Result<Config, RecoverFault>
    requires { length block.now ≡ 32 }
    ensures exact { Agrees (λ c. c) (λ e. e) result (Is (superblock_in size block.now)) }
    ensures no_device { result ≢ Err Device }
    ensures no_memory { result ≢ Err OutOfMemory }
    ensures valid { IfOk result (λ c. is_valid c ≡ true) }
    ensures room { IfOk result (λ c. size_needed c ≤ size) }
{
    if block[0] != OPEN || number_64(block, FIELDS_AT) != MAGIC {
        return Err(RecoverFault::NotFormatted);
    }
    let version = number_32(block, 16);
    if version != SUPERBLOCK_VERSION && version != NOTED_VERSION {
        return Err(RecoverFault::Version);
    }
    let config = config_within(
        size,
        Config {
            pages: number_32(block, 20),
            harts: number_32(block, 24),
            journal: number_32(block, 28),
        },
    )?;
    Ok(config)
}

/// Whether a superblock has notes.
pub(crate) fn has_notes(block: &[u8]) -> bool
    requires { 72 ≤ length block.now }
    ensures { result ≡ has_notes block.now }
{
    block[0] == OPEN
        && number_64(block, FIELDS_AT) == MAGIC
        && number_32(block, 16) == NOTED_VERSION
}

/// The note that a superblock's first 72 bytes have, if they have one.
pub(crate) fn note_in(block: &[u8]) -> Option<ProgramNote>
    requires { length block.now ≡ 72 }
    ensures { result ≡ note_in block.now }
{
    if !has_notes(block) {
        return None;
    }
    let mut digest = [0; 32];
    digest.copy_from_slice(&block[32..64]);
    Some(ProgramNote {
        digest,
        bytes: number_64(block, 64),
    })
}

/// The fields of a superblock, from its byte 8 on, for a program with this image.
pub(crate) fn superblock_fields(config: &Config, image: &[u8]) -> ArrayVec<u8, 64>
    ensures { result.items ≡ superblock_fields config.now image.now }
{
    let note = note_for(image);
    let mut fields = ArrayVec::new();
    put(&mut fields, &MAGIC.to_le_bytes());
    put(&mut fields, &NOTED_VERSION.to_le_bytes());
    put(&mut fields, &config.pages.to_le_bytes());
    put(&mut fields, &config.harts.to_le_bytes());
    put(&mut fields, &config.journal.to_le_bytes());
    put(&mut fields, &note.digest);
    put(&mut fields, &note.bytes.to_le_bytes());
    fields
}
