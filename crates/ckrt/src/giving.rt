//! Names that a disk gets with its image, a history of its disk, and a part of its history. What has their path and isn't a file of names stays, and so does each other file of the job.
use crate::beside::{is_missing, names_path, read_front};
use ckrt_cli_words::{DriveJob, HuntJob, Job};
use ckrt_hunt_schedules::MOST_OUTCOMES;
use std::alloc::{AllocError, Global};
use std::fs::{File, Files, OpenFile, OpenOptions};
use std::io::{self, ErrorKind, Write};
use std::os::unix::fs::MetadataExt;

/// How each file of names begins, by its version.
const BEGINS: [&[u8]; 2] = [b"ckrt-names 1 ", b"ckrt-names 2 "];

/// How many bytes that are.
const BEGIN_SIZE: u64 = 13;

/// The names of a disk, what they shall be, and which files of the job they may not be.
#[derive(Clone, Copy)]
struct Place<'a, 'b> {
    alloc: Global,
    disk: &'b str,
    names: &'b str,
    bytes: &'b [u8],
    others: [Option<&'a str>; 5],
}

/// What became of them.
#[derive(Clone, Copy, Debug, PartialEq, Eq)]
pub enum Given {
    /// They were made.
    Made,
    /// They are as they shall be already, or there are none to be made.
    AsTheyWere,
    /// Another file has their path, or they can't be made there.
    Refused,
}

/// Whether two paths lead to one file.
fn is_one_file<R: Files<File = File>>(rt: &R, first: &str, second: &str) -> bool {
    match (rt.metadata(first), rt.metadata(second)) {
        (Ok(first), Ok(second)) => first.dev() == second.dev() && first.ino() == second.ino(),
        _ => false,
    }
}

impl Place<'_, '_> {
    /// Whether the path of the names leads to another file of the job.
    fn is_other<R: Files<File = File>>(&self, rt: &R) -> bool {
        is_one_file(rt, self.names, self.disk)
            || self.others.iter().flatten().any(|other| *other == self.names
                || is_one_file(rt, self.names, other))
    }

    /// Whether what is there may go: a file of names, or the begin of one.
    fn may_go<R: Files<File = File>>(&self, rt: &R) -> bool {
        match rt.symlink_metadata(self.names) {
            Ok(found) if found.is_file() => {}
            _ => return false,
        }
        match read_front(rt, self.alloc, self.names, BEGIN_SIZE.saturating_sub(1)) {
            Ok(front) => BEGINS
                .iter()
                .any(|begin| begin.starts_with(front.as_slice())),
            Err(_) => false,
        }
    }

    /// Whether the names are there as they shall be.
    fn is_right<R: Files<File = File>>(&self, rt: &R) -> bool {
        match read_front(rt, self.alloc, self.names, self.bytes.len() as u64) {
            Ok(found) => found.as_slice() == self.bytes,
            Err(_) => false,
        }
    }

    /// Makes the names where nothing is, and has them on the device.
    fn make<R: Files<File = File>>(&self, rt: &R) -> io::Result<()> {
        let mut file = OpenOptions::new()
            .write(true)
            .create_new(true)
            .open(rt, self.names)?;
        let written = file.write_all(self.bytes);
        let synced = written.and_then(|()| file.sync_all());
        if synced.is_err() || self.is_other(rt) {
            rt.remove_file(self.names)?;
            return Err(io::Error::from(ErrorKind::AlreadyExists));
        }
        Ok(())
    }

    /// Removes names of another image, or what is left of such.
    fn clear<R: Files<File = File>>(&self, rt: &R) -> io::Result<()> {
        if is_missing(rt, self.names) {
            return Ok(());
        }
        if self.is_other(rt) || !self.may_go(rt) {
            return Err(io::Error::from(ErrorKind::AlreadyExists));
        }
        rt.remove_file(self.names)
    }

    /// Gives the disk its names, in place of older ones. Where its image has none it has none then.
    fn give<R: Files<File = File>>(&self, rt: &R) -> Given {
        if self.bytes.is_empty() {
            let _ = self.clear(rt);
            return Given::AsTheyWere;
        }
        if self.is_right(rt) {
            return Given::AsTheyWere;
        }
        if self.is_other(rt) {
            return Given::Refused;
        }
        match self.clear(rt).and_then(|()| self.make(rt)) {
            Ok(()) => Given::Made,
            Err(_) => Given::Refused,
        }
    }
}

/// The names that the disks of a job get.
#[derive(Drop)]
pub struct Giving {
    alloc: Global,
    bytes: Vec<u8>,
    /// Which disks of a hunt were there before, by their numbers from 1 on, or the one.
    there: Vec<bool>,
    /// Whether the names of a drive's disk were made.
    is_made: bool,
    /// What became of those of its history, where that was missing.
    beside: Option<Given>,
}

/// Says that a disk has no names, since another file has their path.
fn tell_refused(rt: &HostRuntime, disk: &str) {
    let _ = eprintln!(rt;
        "the names {disk}.names: another file is there, or none can be made, so {disk} has no names"
    );
}

/// The path of the disk of an outcome.
fn outcome_path(alloc: Global, keep: &str, number: usize) -> Result<String, AllocError> {
    if keep.ends_with("/") {
        format!(in alloc; "{keep}outcome-{number}.disk")
    } else {
        format!(in alloc; "{keep}")
    }
}

/// How many disks a hunt may leave.
fn most_kept(keep: &str) -> usize {
    if keep.ends_with("/") {
        MOST_OUTCOMES
    } else {
        1
    }
}

/// Which disks of a hunt are there.
fn those_there(rt: &HostRuntime, alloc: Global, keep: &str) -> Result<Vec<bool>, AllocError> {
    let mut there = Vec::new(alloc);
    for number in 1..=most_kept(keep) {
        let disk = outcome_path(alloc, keep, number)?;
        there.push(!is_missing(rt, disk.as_str()))?;
    }
    Ok(there)
}

impl Giving {
    /// Before a job is done: a drive gives a missing disk its names, and a missing history, so that ones which it makes have them too where it
    /// is killed.
    pub fn begin(
        rt: &HostRuntime,
        alloc: Global,
        job: &Job<'_>,
        bytes: Vec<u8>,
    ) -> Result<Giving, AllocError> {
        let there = match job {
            Job::Hunt(
                HuntJob {
                    keep: Some(keep),
                    ..
                },
            ) => those_there(rt, alloc, keep)?,
            _ => Vec::new(alloc),
        };
        let mut giving = Giving {
            alloc,
            bytes,
            there,
            is_made: false,
            beside: None,
        };
        if let Job::Drive(job) = job {
            giving.begin_drive(rt, job)?;
        }
        Ok(giving)
    }

    /// The same for a drive.
    fn begin_drive(&mut self, rt: &HostRuntime, job: &DriveJob<'_>) -> Result<(), AllocError> {
        if is_missing(rt, job.disk) {
            let others = [job.image, job.input, job.output, job.status, job.history];
            self.is_made = self.give(rt, job.disk, others)? == Given::Made;
        }
        if let Some(history) = job.history {
            if is_missing(rt, history) {
                self.beside = Some(self.give_beside(rt, history, job)?);
            }
        }
        Ok(())
    }

    /// Gives the history of a drive its names.
    fn give_beside(
        &self,
        rt: &HostRuntime,
        history: &str,
        job: &DriveJob<'_>,
    ) -> Result<Given, AllocError> {
        let others = [Some(job.disk), job.image, job.input, job.output, job.status];
        self.give(rt, history, others)
    }

    /// Gives a disk its names.
    fn give(
        &self,
        rt: &HostRuntime,
        disk: &str,
        others: [Option<&str>; 5],
    ) -> Result<Given, AllocError> {
        let names = names_path(self.alloc, disk)?;
        let place = Place {
            alloc: self.alloc,
            disk,
            names: names.as_str(),
            bytes: self.bytes.as_slice(),
            others,
        };
        let given = place.give(rt);
        if given == Given::Refused {
            tell_refused(rt, disk);
        }
        Ok(given)
    }

    /// Gives the disks that a hunt has made their names.
    fn give_kept(&self, rt: &HostRuntime, keep: &str, job: &HuntJob<'_>) -> Result<(), AllocError> {
        for (before, was_there) in self.there.iter().enumerate() {
            let disk = outcome_path(self.alloc, keep, before.saturating_add(1))?;
            if !was_there && !is_missing(rt, disk.as_str()) {
                let others = [Some(job.image), job.input, job.table, None, None];
                self.give(rt, disk.as_str(), others)?;
            }
        }
        Ok(())
    }

    /// Takes names that were made away again, where there is no disk or no history for them.
    fn take_back(&self, rt: &HostRuntime, is_made: bool, path: &str) -> Result<(), AllocError> {
        if is_made && is_missing(rt, path) {
            let names = names_path(self.alloc, path)?;
            let _ = rt.remove_file(names.as_str());
        }
        Ok(())
    }

    /// After a drive with a status: its history has the names of its disk, where it was driven.
    fn end_drive(
        &self,
        rt: &HostRuntime,
        job: &DriveJob<'_>,
        status: u8,
    ) -> Result<(), AllocError> {
        self.take_back(rt, self.is_made, job.disk)?;
        let Some(history) = job.history else {
            return Ok(());
        };
        match self.beside {
            Some(given) => self.take_back(rt, given == Given::Made, history),
            None if status == 1 => Ok(()),
            None => {
                self.give_beside(rt, history, job)?;
                Ok(())
            }
        }
    }

    /// After a job is done with a status: gives what it has made the names of its image.
    pub fn end(&self, rt: &HostRuntime, job: &Job<'_>, status: u8) -> Result<(), AllocError> {
        match job {
            Job::Format(job) if status == 0 => {
                self.give(rt, job.disk, [Some(job.image), None, None, None, None])?;
                Ok(())
            }
            Job::Hunt(job) => match job.keep {
                Some(keep) => self.give_kept(rt, keep, job),
                None => Ok(()),
            },
            Job::Drive(job) => self.end_drive(rt, job, status),
            Job::History(job) if status == 0 => {
                let (given, source) = match job.part {
                    Some(part) => (part, Some(job.file)),
                    None => (job.file, job.disk),
                };
                self.give(rt, given, [source, None, None, None, None])?;
                Ok(())
            }
            _ => Ok(()),
        }
    }
}
