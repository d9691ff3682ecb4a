//! A file that tells how far a drive is.
ghost use Rattle.std.specs.Prelude.{◌≡◌, ◌++◌, OnOk};
ghost use Rattle.ckrt_cli_reports.specs.Reaches.{status_text};

use crate::reach::{Reach, push_reach};
use crate::replaced::{Content, Replaced};
use crate::watch::DrivePaths;
use ckrt_calls::Tables;
use ckrt_cli_files::FileFault;
use ckrt_inspect::{Readings, push_metrics};
use std::alloc::{AllocError, Global};
use std::fs::{File, Files};

/// The bytes of the longest status, and more: 64 threads, and twelve other lines with their texts.
const LONGEST: usize = 17_408;

/// The file of a status, and the other paths of its drive; nothing where memory is refused.
fn file_of(alloc: Global, path: &str, paths: &DrivePaths<'_>) -> Option<Replaced> {
    Replaced::new(alloc, Content::Status, path)?
        .beside(alloc, Some(paths.disk), FileFault::IsDisk)?
        .beside(alloc, paths.input, FileFault::IsInput)?
        .beside(alloc, paths.output, FileFault::IsOutput)?
        .beside(alloc, paths.history, FileFault::IsHistory)?
        .beside(alloc, paths.image, FileFault::IsImage)
}

/// Puts after a text how a drive stands, and how far its history is.
fn push_status(
    out: &mut Vec<u8>,
    readings: &Readings,
    tables: &Tables,
    reach: Option<Reach>,
) -> Result<(), AllocError>
    ensures { OnOk result (out.new.items
        ≡ out.old.items ++ status_text readings.now tables.now reach) }
{
    push_metrics(out, readings, tables)?;
    push_reach(out, reach)
}

/// A file that tells how far a drive is, in the text format of Prometheus. Room for its text is taken when it is made.
#[derive(Drop)]
pub(crate) struct StatusFile {
    file: Replaced,
    text: Vec<u8>,
}

impl StatusFile {
    /// The status of this path, which isn't written yet; nothing where memory is refused.
    pub(crate) fn new(alloc: Global, path: &str, paths: &DrivePaths<'_>) -> Option<StatusFile> {
        Some(StatusFile {
            file: file_of(alloc, path, paths)?,
            text: Vec::with_capacity(alloc, LONGEST).ok()?,
        })
    }

    /// Its path.
    pub(crate) fn path(&self) -> &str {
        self.file.path()
    }

    /// Writes how a drive stands whose program has these tables, and how far its history is, where that is known. Where that fails the file
    /// stays as it was.
    pub(crate) fn write<R: Files<File = File>>(
        &mut self,
        rt: &R,
        readings: &Readings,
        tables: &Tables,
        reach: Option<Reach>,
    ) -> Result<(), FileFault>
        ensures { OnOk result (self.new.text.items ≡ status_text readings.now tables.now reach) }
    {
        self.text.clear();
        if push_status(&mut self.text, readings, tables, reach).is_err() {
            return Err(FileFault::OutOfMemory);
        }
        self.file.replace(rt, self.text.as_slice())?;
        Ok(())
    }
}
