//! The history of a drive, while that keeps it: how far it is, and its snapshots.
use crate::history_reader::HistoryReader;
use crate::reach::Reach;
use crate::rhythm::Rhythm;
use crate::snapshots::{SnapshotFolder, Snapshots, Trouble};
use ckrt_machine::Machine;
use std::alloc::Global;
use std::fs::{File, Files};
use std::rt::Clock;
use std::time::{Duration, Instant};

/// What a meter does with the history of its drive.
#[derive(Drop)]
pub(crate) struct HistoryWatch {
    alloc: Global,
    path: String,
    /// Whether it is told how far it is.
    is_told: bool,
    reader: Option<HistoryReader>,
    rhythm: Rhythm,
    folder: SnapshotFolder,
    snapshots: Option<Snapshots>,
    /// Whether the last snapshot could be saved.
    is_saved: bool,
}

impl HistoryWatch {
    /// The history of this path, which isn't open yet, with a snapshot at most each so many seconds, or none. Nothing where memory is refused.
    pub(crate) fn new(
        alloc: Global,
        path: &str,
        is_told: bool,
        seconds: Option<u64>,
    ) -> Option<HistoryWatch> {
        Some(HistoryWatch {
            alloc,
            path: format!(in alloc; "{}", path).ok()?,
            is_told,
            reader: None,
            rhythm: Rhythm {
                interval: seconds.map(Duration::from_secs),
                last: None,
            },
            folder: SnapshotFolder::new(alloc, path)?,
            snapshots: None,
            is_saved: true,
        })
    }

    /// Opens it, once its drive goes. All memory is taken then.
    pub(crate) fn open<R: Clock + Eprint + Files<File = File>>(&mut self, rt: &R) {
        if self.is_told {
            self.reader = HistoryReader::new(rt, self.alloc, self.path.as_str());
        }
        if self.rhythm.interval.is_some() {
            let opened = Snapshots::new(rt, self.alloc, self.path.as_str(), &self.folder);
            match opened {
                Ok(snapshots) => self.snapshots = Some(snapshots),
                Err(trouble) => self.tell(rt, Err(trouble)),
            }
            self.rhythm.last = Instant::now(rt).ok();
        }
    }

    /// How far it is, where that can be read.
    pub(crate) fn reach(&mut self) -> Option<Reach> {
        match &mut self.reader {
            Some(reader) => reader.reach(),
            None => None,
        }
    }

    /// Says why a snapshot can't be saved, once until it goes well again.
    fn tell<R: Eprint>(&mut self, rt: &R, saved: Result<(), Trouble>) {
        if let Err(trouble) = saved {
            if self.is_saved {
                let _ = eprintln!(rt; "ckrt: the snapshot {}: {}", self.folder.path(), trouble);
            }
        }
        self.is_saved = saved.is_ok();
    }

    /// Saves the machine after so many events, which are just those that the history has, where that is due.
    pub(crate) fn save_due<R: Clock + Eprint + Files<File = File>>(
        &mut self,
        rt: &R,
        count: u64,
        machine: &Machine,
    ) {
        if self.rhythm.due(rt).is_none() {
            return;
        }
        let Some(snapshots) = &mut self.snapshots else {
            return;
        };
        let saved = snapshots.save(rt, &mut self.folder, count, machine);
        self.tell(rt, saved);
        self.rhythm.last = Instant::now(rt).ok();
    }
}
