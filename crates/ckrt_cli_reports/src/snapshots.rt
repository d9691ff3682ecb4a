//! The snapshots of a history that are made while its drive runs.
use ckrt_cli_files::{FileFault, OutputReason, WatchedHistory, open_snapshot, watch_history};
use ckrt_history::{HistoryFault, PartFault, SnapshotSaver};
use ckrt_machine::Machine;
use std::alloc::Global;
use std::cell::Cell;
use std::fs::{File, Files};

/// What stands behind the path of a history in that of the folder of its snapshots.
const FOLDER: &str = ".snapshots";

/// How many digits the number of a snapshot has at most.
const DIGITS: usize = 20;

/// Why a snapshot can't be made, in plain words.
pub(crate) type Trouble = &'static str;

/// What is wrong where the history can't be read.
const UNREADABLE: &str = "the history can't be read once more";

/// Why a write or a sync of a snapshot failed.
fn failed(why: OutputReason) -> Trouble {
    match why {
        OutputReason::StorageFull => FileFault::StorageFull.text(),
        OutputReason::ReadOnly => FileFault::ReadOnly.text(),
        OutputReason::QuotaExceeded => "the disk quota is used up",
        OutputReason::FileTooLarge => "the file may not become so long",
        _ => "a write or sync of it failed",
    }
}

/// Why a snapshot wasn't saved; nothing where its file isn't free, which is passed over.
fn trouble_of(fault: PartFault, why: OutputReason) -> Option<Trouble> {
    match fault {
        PartFault::Part(HistoryFault::NotAHistory) => None,
        PartFault::Part(HistoryFault::Device) => Some(failed(why)),
        PartFault::Part(HistoryFault::OutOfMemory) | PartFault::Whole(HistoryFault::OutOfMemory) =>
            Some(FileFault::OutOfMemory.text()),
        PartFault::Part(_) => Some(FileFault::NotAHistory.text()),
        PartFault::Whole(_) => Some(UNREADABLE),
        PartFault::Unrecorded => Some("the history is of another size than the program"),
        PartFault::TooSmall => Some("its file can't have so many bytes"),
    }
}

/// The path of a file beside a history, with room for so many bytes more.
fn path_beside(alloc: Global, history: &str, ending: &str, more: usize) -> Option<String> {
    let length = history.len().saturating_add(ending.len());
    let mut path = String::with_capacity(alloc, length.saturating_add(more)).ok()?;
    path.push_str(history).ok()?;
    path.push_str(ending).ok()?;
    Some(path)
}

/// The folder of the snapshots of a history, and room for the path of each.
#[derive(Drop)]
pub(crate) struct SnapshotFolder {
    folder: String,
    path: String,
}

impl SnapshotFolder {
    /// That of the history of this path; nothing where memory is refused.
    pub(crate) fn new(alloc: Global, history: &str) -> Option<SnapshotFolder> {
        Some(SnapshotFolder {
            folder: path_beside(alloc, history, FOLDER, 0)?,
            path: path_beside(alloc, history, FOLDER, DIGITS.saturating_add(1))?,
        })
    }

    /// The path of the snapshot that was named last; that of the folder before.
    pub(crate) fn path(&self) -> &str {
        self.path.as_str()
    }

    /// Names the snapshot after so many events.
    fn name(&mut self, count: u64) -> Option<()> {
        let mut digits = itoa::Buffer::new();
        self.path.clear();
        self.path.push_str(self.folder.as_str()).ok()?;
        self.path.push_str("/").ok()?;
        self.path.push_str(digits.format(count)).ok()
    }

    /// Makes the folder where it is missing.
    fn make<R: Files<File = File>>(&self, rt: &R) -> Result<(), FileFault> {
        match rt.create_dir(self.folder.as_str()) {
            Ok(()) => Ok(()),
            Err(error) => match FileFault::from(error) {
                FileFault::IsThere => Ok(()),
                fault => Err(fault),
            },
        }
    }
}

/// What saves the snapshots of a history. All its memory is taken when it is made.
#[derive(Drop)]
pub(crate) struct Snapshots {
    history: WatchedHistory,
    saver: SnapshotSaver,
}

impl Snapshots {
    /// That of the history of this path, and its folder is made.
    pub(crate) fn new<R: Files<File = File>>(
        rt: &R,
        alloc: Global,
        history: &str,
        folder: &SnapshotFolder,
    ) -> Result<Snapshots, Trouble> {
        let history = match watch_history(rt, history) {
            Ok(history) => history,
            Err(_) => return Err(UNREADABLE),
        };
        let saver = match SnapshotSaver::new(alloc) {
            Ok(saver) => saver,
            Err(_) => return Err(FileFault::OutOfMemory.text()),
        };
        // Where it can't be made now the first snapshot says why.
        let _ = folder.make(rt);
        Ok(Snapshots { history, saver })
    }

    /// Saves a machine after so many events, which are all that the history has. A file of that name that isn't free is passed over.
    pub(crate) fn save<R: Files<File = File>>(
        &mut self,
        rt: &R,
        folder: &mut SnapshotFolder,
        count: u64,
        machine: &Machine,
    ) -> Result<(), Trouble> {
        if folder.name(count).is_none() {
            return Err(FileFault::OutOfMemory.text());
        }
        if let Err(fault) = folder.make(rt) {
            return Err(fault.text());
        }
        let why = Cell::new(OutputReason::Other);
        let mut opened = match open_snapshot(rt, folder.path(), &why) {
            Ok(opened) => opened,
            Err(FileFault::NotAHistory) => return Ok(()),
            Err(fault) => return Err(fault.text()),
        };
        let bytes = opened.length as usize;
        match self.saver.save(&mut self.history, &mut opened.output, bytes, count, machine) {
            Ok(()) => Ok(()),
            Err(fault) => match trouble_of(fault, why.get()) {
                Some(trouble) => Err(trouble),
                None => Ok(()),
            },
        }
    }
}
