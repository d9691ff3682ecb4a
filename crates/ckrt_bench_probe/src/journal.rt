//! Measures the journal: its appends to a real file, and its reading.

use anyhow::{Context, Result, bail, ensure};
use arrayvec::ArrayVec;
use ckrt_disk::{Disk, FileDisk, MemoryDisk, SystemFile};
use ckrt_events::{BATCH_LIMIT, Event, decode_events, encode_event};
use ckrt_journal::{Journal, JournalFault};
use ckrt_tables::AREA_VERSION;
use std::marker::Brand;
use std::time::Instant;

/// How many bytes the journal in memory has.
const JOURNAL_SIZE: usize = 1_048_576;

/// Place(0, 1) and Run(0, 2), over and over, as many as are in `limit` bytes.
fn batch_of(limit: usize) -> ArrayVec<u8, BATCH_LIMIT> {
    let mut batch = ArrayVec::new();
    for _ in 0..BATCH_LIMIT {
        if batch.len().saturating_add(7) > limit
            || !encode_event(&Event::Place(0, 1), &mut batch)
            || !encode_event(&Event::Run(0, 2), &mut batch)
        {
            break;
        }
    }
    batch
}

/// Appends the batch and tells in how many nanoseconds, or answers `None` where it doesn't fit.
fn append<D: Disk>(
    rt: &HostRuntime,
    journal: &mut Journal,
    disk: &mut D,
    batch: &[u8],
) -> Result<Option<u128>> {
    ensure!(decode_events(journal.version, batch).is_some(), "no events");
    ensure!(
        !batch.is_empty() && batch.len() <= BATCH_LIMIT,
        "no batch of 1 to 4096 bytes"
    );
    ensure!(
        journal.at == 0 && journal.size <= disk.size() && journal.next_gate < journal.size,
        "the journal isn't on the disk"
    );
    if journal.room() < batch.len() + 3 {
        return Ok(None);
    }
    let start = Instant::now(rt)?;
    let done = journal.append_batch(disk, batch);
    let nanoseconds = start.elapsed(rt)?.as_nanos();
    ensure!(done.is_ok(), "the disk failed");
    Ok(Some(nanoseconds))
}

/// Appends the batch, and writes how long that took.
fn time_append<D: Disk>(
    rt: &HostRuntime,
    journal: &mut Journal,
    disk: &mut D,
    batch: &[u8],
) -> Result<()> {
    let nanoseconds = append(rt, journal, disk, batch)?.context("the file is too short")?;
    eprintln!(rt; "{nanoseconds}")?;
    Ok(())
}

/// Appends `count` batches of at most that many bytes to a journal that is the whole file.
pub fn time_appends(rt: &HostRuntime, path: &str, bytes: usize, count: u32) -> Result<()> {
    let batch = batch_of(bytes);
    let mut disk = FileDisk::<SystemFile<Brand>>::open(rt, path)?;
    let mut journal = Journal::start(0, disk.size(), AREA_VERSION);
    for _ in 0..count {
        time_append(rt, &mut journal, &mut disk, &batch)?;
    }
    Ok(())
}

/// Fills a journal in memory.
fn full_journal(rt: &HostRuntime) -> Result<MemoryDisk> {
    let bytes = vec![in rt.alloc(); 0u8; JOURNAL_SIZE]?;
    let mut disk = MemoryDisk::new(rt.alloc(), bytes)?;
    let mut journal = Journal::start(0, JOURNAL_SIZE, AREA_VERSION);
    let batch = batch_of(BATCH_LIMIT);
    for _ in 0..JOURNAL_SIZE {
        if append(rt, &mut journal, &mut disk, &batch)?.is_none() {
            break;
        }
    }
    if journal.next_gate < journal.size {
        let last = batch_of(journal.room().saturating_sub(3));
        append(rt, &mut journal, &mut disk, &last)?;
    }
    Ok(disk)
}

/// The bytes of the journal's events.
fn read(rt: &HostRuntime, disk: &mut MemoryDisk) -> Result<Vec<u8>> {
    ensure!(disk.size() == JOURNAL_SIZE, "no journal");
    match Journal::start(0, JOURNAL_SIZE, AREA_VERSION).read_chain(rt.alloc(), disk) {
        Ok(events) => Ok(events),
        Err(JournalFault::Damaged) => bail!("the journal is damaged"),
        Err(_) => bail!("the journal isn't read"),
    }
}

/// How many events the bytes encode, and a sum over them.
fn count_events(bytes: &[u8]) -> Result<(u64, u64)> {
    let (mut count, mut sum) = (0u64, 0u64);
    for event in decode_events(AREA_VERSION, bytes).context("no events")? {
        count = count.wrapping_add(1);
        sum = sum.wrapping_add(match event {
            Event::Place(_, thread) => u64::from(thread),
            Event::Run(_, steps) => u64::from(steps),
            _ => 0,
        });
    }
    Ok((count, sum))
}

/// Counts the events, and tells in how many nanoseconds.
fn time_counting(rt: &HostRuntime, bytes: &[u8]) -> Result<((u64, u64), u128)> {
    let start = Instant::now(rt)?;
    let counted = count_events(bytes)?;
    Ok((counted, start.elapsed(rt)?.as_nanos()))
}

/// Reads and decodes the journal, and writes how long each took.
fn time_round(rt: &HostRuntime, disk: &mut MemoryDisk) -> Result<(u64, u64)> {
    let start = Instant::now(rt)?;
    let bytes = read(rt, disk)?;
    let reading = start.elapsed(rt)?.as_nanos();
    let (counted, decoding) = time_counting(rt, &bytes)?;
    eprintln!(rt; "reading {reading} decoding {decoding}")?;
    Ok(counted)
}

/// Does so `count` times with a full journal, and writes how many events there are.
fn time_rounds(rt: &HostRuntime, disk: &mut MemoryDisk, count: u32) -> Result<()> {
    for round in 0..count {
        let (events, sum) = time_round(rt, disk)?;
        if round == 0 {
            println!(rt; "events {events} sum {sum}")?;
        }
    }
    Ok(())
}

/// Reads and decodes a full journal `count` times.
pub fn time_decoding(rt: &HostRuntime, count: u32) -> Result<()> {
    let mut disk = full_journal(rt)?;
    time_rounds(rt, &mut disk, count)
}
