//! Measures saved tables: how long they take to decode and to encode.

use anyhow::{Context, Result, ensure};
use ckrt_calls::Tables;
use ckrt_tables::{AREA_VERSION, HELD_LIMIT, Held, TABLES_ROOM, decode_tables, encode_tables};
use std::fs;
use std::time::Instant;

/// The tables and the held output that the bytes encode, and in how many nanoseconds they are decoded.
fn decode(rt: &HostRuntime, bytes: &[u8], harts: usize) -> Result<((Tables, Held), u128)> {
    ensure!(harts <= 8, "HARTS from 1 to 8");
    let start = Instant::now(rt)?;
    let decoded = decode_tables(rt.alloc(), AREA_VERSION, bytes, harts)?;
    let nanoseconds = start.elapsed(rt)?.as_nanos();
    Ok((decoded.context("no saved tables")?, nanoseconds))
}

/// Encodes them into the room: how many bytes they have, and in how many nanoseconds that was done.
fn encode(
    rt: &HostRuntime,
    tables: &Tables,
    held: &Held,
    room: &mut [u8],
) -> Result<(usize, u128)> {
    ensure!(
        tables.is_well_formed() && held.len() <= HELD_LIMIT && room.len() >= TABLES_ROOM,
        "tables that aren't well-formed"
    );
    let start = Instant::now(rt)?;
    let length = encode_tables(tables, held, room);
    Ok((length, start.elapsed(rt)?.as_nanos()))
}

/// Decodes the bytes and encodes what they are, and writes how long each took.
fn time_both(rt: &HostRuntime, bytes: &[u8], harts: usize, room: &mut [u8]) -> Result<()> {
    let ((tables, held), decoding) = decode(rt, bytes, harts)?;
    let (length, encoding) = encode(rt, &tables, &held, room)?;
    ensure!(room.get(..length) == Some(bytes), "other bytes");
    eprintln!(rt; "decoding {decoding} encoding {encoding}")?;
    Ok(())
}

/// Does so `count` times with the saved tables of a file, in version 2, those of a program with that many harts.
pub fn time_tables(rt: &HostRuntime, path: &str, harts: usize, count: u32) -> Result<()> {
    let bytes = fs::read(rt, path)?;
    let mut room = vec![in rt.alloc(); 0u8; TABLES_ROOM]?;
    for _ in 0..count {
        time_both(rt, bytes.as_slice(), harts, room.as_mut_slice())?;
    }
    Ok(())
}
