//! Saved tables as a second reading of the format has them.

use anyhow::{Context, Result, ensure};
use ckrt_calls::Tables;
use ckrt_tables::{AREA_VERSION, HELD_LIMIT, Held, TABLES_ROOM, decode_tables, encode_tables};
use ckrt_thread::MAX_HARTS;
use std::alloc::Global;

/// That many zeros.
fn zeros(alloc: Global, size: usize) -> Result<Vec<u8>> {
    Ok(vec![in alloc; 0u8; size]?)
}

/// Encodes tables and output at the front of the room. How many bytes they have.
fn encoded_length(tables: &Tables, held: &Held, room: &mut [u8]) -> Result<usize> {
    ensure!(
        tables.is_well_formed() && held.len() <= HELD_LIMIT && room.len() >= TABLES_ROOM,
        "tables that aren't well-formed"
    );
    Ok(encode_tables(tables, held, room))
}

/// How many bytes tables have more in version 2 than in version 1, where there are no keys: 4 a thread, and 2.
fn growth(tables: &Tables) -> usize {
    tables
        .threads
        .thread_count()
        .wrapping_mul(4)
        .wrapping_add(2)
}

/// Whether tables and output that these bytes of a version decode to are encoded rightly: those of version 2 as the same
/// bytes, those of version 1 as that many more.
fn is_encoded_as(
    tables: &Tables,
    held: &Held,
    room: &mut [u8],
    version: u32,
    bytes: &[u8],
) -> Result<bool> {
    let length = encoded_length(tables, held, room)?;
    if version == AREA_VERSION {
        Ok(room.get(..length) == Some(bytes))
    } else {
        Ok(length.wrapping_sub(bytes.len()) == growth(tables))
    }
}

/// Whether bytes of a version decode, for that many harts, to what is encoded rightly.
fn is_saved(alloc: Global, version: u32, bytes: &[u8], harts: usize) -> Result<bool> {
    ensure!(version == 1 || version == 2, "a version that isn't known");
    ensure!(harts <= MAX_HARTS, "more harts than there may be");
    match decode_tables(alloc, version, bytes, harts)? {
        Some((tables, held)) => {
            let mut room = zeros(alloc, TABLES_ROOM)?;
            is_encoded_as(&tables, &held, room.as_mut_slice(), version, bytes)
        }
        None => Ok(false),
    }
}

/// Whether the bytes of a line `HARTS KIND HEX` are saved tables of the version just where the kind is `saved`.
fn agree(alloc: Global, version: u32, line: &str) -> Result<bool> {
    let mut words = line.split_whitespace();
    let harts = words.next().context("tables have no harts")?;
    let kind = words.next().context("tables have no kind")?;
    let bytes = words.next().context("tables have no bytes")?;
    let bytes = hex::decode(alloc, bytes)?;
    let is_saved = is_saved(alloc, version, bytes.as_slice(), harts.parse::<usize>()?)?;
    Ok(is_saved == (kind == "saved"))
}

/// How many of the lines are tables of the version that agree; all have to.
pub fn count_tables(alloc: Global, version: u32, lines: &str) -> Result<u64> {
    let mut count = 0u64;
    for line in lines.lines() {
        ensure!(agree(alloc, version, line)?, "other tables: {line}");
        count = count.wrapping_add(1);
    }
    Ok(count)
}
