//! Measures recovery and checkpoints of a real disk.

use anyhow::{Result, bail};
use ckrt_disk::{FileDisk, SystemFile};
use ckrt_drive::RECORD_BYTES;
use ckrt_events::Event;
use ckrt_recovery::{Session, recover};
use std::marker::Brand;
use std::time::Instant;

/// How many steps a round of the guest `stores-4` has.
const STORES_ROUND: u16 = 9;

/// A file of the system as a disk.
type RealDisk = FileDisk<SystemFile<Brand>>;

/// The session that a disk recovers to, and in how many nanoseconds it does.
fn recovered(rt: &HostRuntime, path: &str) -> Result<(Session<RealDisk>, u128)> {
    let disk = RealDisk::open(rt, path)?;
    let start = Instant::now(rt)?;
    let recovered = recover(rt.alloc(), disk);
    let nanoseconds = start.elapsed(rt)?.as_nanos();
    match recovered {
        Ok(session) => Ok((session, nanoseconds)),
        Err(unrecovered) => bail!("{}", unrecovered.fault),
    }
}

/// Recovers a disk, and writes how long that took.
pub fn time_recovery(rt: &HostRuntime, path: &str) -> Result<()> {
    let (_session, nanoseconds) = recovered(rt, path)?;
    eprintln!(rt; "{nanoseconds}")?;
    Ok(())
}

/// Saves a program, and writes how long that took.
fn time_checkpoint(rt: &HostRuntime, session: &mut Session<RealDisk>) -> Result<()> {
    let start = Instant::now(rt)?;
    let saved = session.checkpoint();
    let nanoseconds = start.elapsed(rt)?.as_nanos();
    if saved.is_err() {
        bail!("no checkpoint");
    }
    eprintln!(rt; "{nanoseconds}")?;
    Ok(())
}

/// Makes `count` checkpoints of what a disk recovers to.
pub fn time_checkpoints(rt: &HostRuntime, path: &str, count: u32) -> Result<()> {
    let (mut session, _) = recovered(rt, path)?;
    for _ in 0..count {
        time_checkpoint(rt, &mut session)?;
    }
    Ok(())
}

/// Brings both areas up to date: memory that was read of one is dirty everywhere for the other.
fn save_twice(session: &mut Session<RealDisk>) -> Result<()> {
    if session.checkpoint().is_err() || session.checkpoint().is_err() {
        bail!("no checkpoint");
    }
    Ok(())
}

/// Hands in one round of the guest `stores-4`.
fn store(session: &mut Session<RealDisk>) -> Result<()> {
    match session.submit(&Event::Run(0, STORES_ROUND)) {
        Ok(_) => Ok(()),
        Err(fault) => bail!("{fault}"),
    }
}

/// Makes `count` checkpoints, each of four pages that have changed: the disk is one on which `stores-4` has begun a round.
pub fn time_changed(rt: &HostRuntime, path: &str, count: u32) -> Result<()> {
    let (mut session, _) = recovered(rt, path)?;
    save_twice(&mut session)?;
    for _ in 0..count {
        store(&mut session)?;
        time_checkpoint(rt, &mut session)?;
    }
    Ok(())
}

/// Saves a program as a drive with an input does: by a commit, and then by a checkpoint with its record.
fn save_recorded(session: &mut Session<RealDisk>) -> Result<()> {
    if session.spare_room() < RECORD_BYTES {
        bail!("no room for the record");
    }
    if session.commit().is_err() || ckrt_drive::checkpoint(session, 0).is_err() {
        bail!("no checkpoint");
    }
    Ok(())
}

/// Saves a program so, and writes how long that took.
fn time_recorded(rt: &HostRuntime, session: &mut Session<RealDisk>) -> Result<()> {
    let start = Instant::now(rt)?;
    save_recorded(session)?;
    let nanoseconds = start.elapsed(rt)?.as_nanos();
    eprintln!(rt; "{nanoseconds}")?;
    Ok(())
}

/// Makes `count` checkpoints of what a disk recovers to, each with its record after a commit of one event. The disk is one of
/// `stores-4`.
pub fn time_recorded_checkpoints(rt: &HostRuntime, path: &str, count: u32) -> Result<()> {
    let (mut session, _) = recovered(rt, path)?;
    for _ in 0..count {
        store(&mut session)?;
        time_recorded(rt, &mut session)?;
    }
    Ok(())
}

/// Makes `count` such checkpoints, each of four pages that have changed.
pub fn time_recorded_changed(rt: &HostRuntime, path: &str, count: u32) -> Result<()> {
    let (mut session, _) = recovered(rt, path)?;
    save_twice(&mut session)?;
    for _ in 0..count {
        store(&mut session)?;
        time_recorded(rt, &mut session)?;
    }
    Ok(())
}

/// Makes `count` checkpoints, each with no page that has changed.
pub fn time_unchanged(rt: &HostRuntime, path: &str, count: u32) -> Result<()> {
    let (mut session, _) = recovered(rt, path)?;
    save_twice(&mut session)?;
    for _ in 0..count {
        time_checkpoint(rt, &mut session)?;
    }
    Ok(())
}
