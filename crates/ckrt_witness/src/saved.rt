//! Saved tables that are read and written again, as the laws of their encoding speak of them.
ghost use Rattle.std.specs.Prelude.{◌⊎◌, ◌≡◌, ◌≤◌, length, true};
ghost use Rattle.ckrt_tables.specs.Encoding.{TABLES_ROOM};
ghost use Rattle.ckrt_witness.specs.Saved.{FreshWitness, SavedWitness};

use ckrt_stored::Config;
use ckrt_tables::{decode_tables, encode_tables};
use std::alloc::Global;

/// Decodes tables with output that is held, and encodes them again, and finds that torn bytes decode to nothing: that meets all premises of
/// the laws of saved tables. Whether it is so; false too where memory was refused.
pub fn read_saved(
    alloc: Global,
    version: u32,
    harts: usize,
    bytes: &[u8],
    torn: &[u8],
    room: &mut [u8],
) -> bool
    requires version { (version ≡ 1) ⊎ (version ≡ 2) }
    requires harts { harts ≤ 8 }
    requires room { TABLES_ROOM ≤ length room.old }
    ensures { result ≡ true → SavedWitness version harts bytes.now torn.now }
{
    let Ok(Some((tables, held))) = decode_tables(alloc, version, bytes, harts) else {
        return false;
    };
    if held.is_empty() {
        return false;
    }
    let Ok(None) = decode_tables(alloc, version, torn, harts) else {
        return false;
    };
    let _size = encode_tables(&tables, &held, room);
    true
}

/// Whether a program of this configuration can be saved before it begins: where the configuration is in its ranges, that meets all premises of
/// the law.
pub fn is_fresh(config: &Config) -> bool
    ensures { result ≡ true → FreshWitness config.now.pages config.now.harts }
{
    config.is_valid()
}
