//! A history that is read while a drive keeps it, and the files of its snapshots.

use crate::file::FileFault;
use crate::files::{open_read, open_system_history};
use crate::output::OpenedOutput;
use crate::reason::OutputReason;
use crate::told::RealDisk;
use ckrt_disk::{Calls, FileDisk, SystemFile};
use std::cell::Cell;
use std::fs::{File, Files};
use std::marker::Brand;

/// A history that is read while a drive appends to it.
pub type WatchedHistory = FileDisk<SystemFile<Brand>>;

/// How many bytes a file has that grows while it is read: as many as any may get.
const ANY_SIZE: usize = i64::MAX as usize;

/// Opens a history once more to read it, without a lock, while a drive keeps it.
///
/// # Errors
///
/// [`FileFault::NotAFile`] where no plain file has the path; else what the system said.
pub fn watch_history<R: Files<File = File>>(
    rt: &R,
    path: &str,
) -> Result<WatchedHistory, FileFault> {
    if !rt.metadata(path)?.is_file() {
        return Err(FileFault::NotAFile);
    }
    let file = open_read(rt, path)?;
    Ok(FileDisk::new(SystemFile::new(file, Calls::new()), ANY_SIZE))
}

/// Opens the file of a snapshot to write it, which is made where it is missing. It is locked. Why a write or a sync of it fails is noted there.
///
/// # Errors
///
/// [`FileFault::NotAHistory`] where it is too short for a history's first fields and has other bytes than zeros, or is no plain file;
/// [`FileFault::NoFolder`] where its folder is missing; else what the system said.
pub fn open_snapshot<'a, R: Files<File = File>>(
    rt: &R,
    path: &str,
    why: &'a Cell<OutputReason>,
) -> Result<OpenedOutput<RealDisk<'a, Brand>>, FileFault> {
    open_system_history(rt, path, None, Calls::new(), why)
}
