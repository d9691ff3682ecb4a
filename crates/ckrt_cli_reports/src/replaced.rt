//! A file that is written anew again and again, beside its path.
use ckrt_cli_files::{FileFault, is_same_file};
use std::alloc::Global;
use std::fs::{File, Files, OpenOptions};
use std::io::{Read, Write};

/// What stands behind a path in that of the text that is written.
const BESIDE: &str = ".new";

/// How many other paths a job has.
const PATHS: usize = 4;

/// How each status begins.
const STATUS: &[u8; 13] = b"# HELP ckrt_e";

/// How each table begins.
const TABLE: &[u8; 11] = b"outcome 1: ";

/// What such a file has.
#[derive(Clone, Copy, Debug, PartialEq, Eq)]
pub(crate) enum Content {
    /// How far a drive is.
    Status,
    /// The table of a hunt.
    Table,
}

impl Content {
    /// What is wrong with a file that has something else.
    fn not_one(self) -> FileFault {
        match self {
            Content::Status => FileFault::NotAStatus,
            Content::Table => FileFault::NotATable,
        }
    }

    /// The same of a file beside.
    fn not_a_new_one(self) -> FileFault {
        match self {
            Content::Status => FileFault::NotANewStatus,
            Content::Table => FileFault::NotANewTable,
        }
    }

    /// Whether a file begins so. A file that can't be read doesn't.
    fn begins(self, file: &mut File) -> bool {
        match self {
            Content::Status => {
                let mut begins = [0; 13];
                file.read_exact(&mut begins).is_ok() && begins == *STATUS
            }
            Content::Table => {
                let mut begins = [0; 11];
                file.read_exact(&mut begins).is_ok() && begins == *TABLE
            }
        }
    }
}

/// Another path of the job, and why it can't be this file's.
#[derive(Drop)]
struct Other {
    path: String,
    fault: FileFault,
}

/// A file that is written beside its path and renamed, so who reads it finds a whole one. What has another content is never replaced, and
/// neither is another file of the job.
#[derive(Drop)]
pub(crate) struct Replaced {
    content: Content,
    path: String,
    beside: String,
    others: Vec<Other>,
}

impl Replaced {
    /// The file of this path, which isn't written yet; nothing where memory is refused.
    pub(crate) fn new(alloc: Global, content: Content, path: &str) -> Option<Replaced> {
        Some(Replaced {
            content,
            path: format!(in alloc; "{}", path).ok()?,
            beside: format!(in alloc; "{}{}", path, BESIDE).ok()?,
            others: Vec::with_capacity(alloc, PATHS).ok()?,
        })
    }

    /// The same with another path of the job, where it has that.
    pub(crate) fn beside(
        self,
        alloc: Global,
        path: Option<&str>,
        fault: FileFault,
    ) -> Option<Replaced> {
        let mut file = self;
        if let Some(path) = path {
            let path = format!(in alloc; "{}", path).ok()?;
            file.others.push(Other { path, fault }).ok()?;
        }
        Some(file)
    }

    /// Its path.
    pub(crate) fn path(&self) -> &str {
        self.path.as_str()
    }

    /// Has this text in place of what it has. Where that fails the file stays as it was.
    pub(crate) fn replace<R: Files<File = File>>(
        &self,
        rt: &R,
        text: &[u8],
    ) -> Result<(), FileFault> {
        self.expect_free(rt)?;
        self.write_new(rt, text)?;
        rt.rename(self.beside.as_str(), self.path.as_str())?;
        Ok(())
    }

    /// Nothing has its path, or a file with such a content has it; and the same of the path beside. No other file of the job has one of
    /// them.
    pub(crate) fn expect_free<R: Files<File = File>>(&self, rt: &R) -> Result<(), FileFault> {
        for other in self.others.iter() {
            if is_one_path(rt, self.path.as_str(), other.path.as_str()) {
                return Err(other.fault);
            }
            if is_one_path(rt, self.beside.as_str(), other.path.as_str()) {
                return Err(self.content.not_a_new_one());
            }
        }
        if self.look_at(rt, self.path.as_str())? == Found::Other {
            return Err(self.content.not_one());
        }
        self.clear(rt)
    }

    /// What has a path. Only a plain file is opened: a pipe that nobody writes to would keep its opener waiting.
    fn look_at<R: Files<File = File>>(&self, rt: &R, path: &str) -> Result<Found, FileFault> {
        match rt.symlink_metadata(path) {
            Ok(told) if told.is_file() => self.begins(rt, path),
            Ok(_) => Ok(Found::Other),
            Err(error) => nothing_or(FileFault::from(error)),
        }
    }

    /// Whether the plain file of a path has such a content, by its first bytes.
    fn begins<R: Files<File = File>>(&self, rt: &R, path: &str) -> Result<Found, FileFault> {
        let mut file = OpenOptions::new().read(true).open(rt, path)?;
        if self.content.begins(&mut file) {
            Ok(Found::Such)
        } else {
            Ok(Found::Other)
        }
    }

    /// Removes the file that a job left beside which was killed before it had renamed it. Nothing else is removed.
    fn clear<R: Files<File = File>>(&self, rt: &R) -> Result<(), FileFault> {
        match self.look_at(rt, self.beside.as_str())? {
            Found::Nothing => Ok(()),
            Found::Such => {
                rt.remove_file(self.beside.as_str())?;
                Ok(())
            }
            Found::Other => Err(self.content.not_a_new_one()),
        }
    }

    /// Writes a text into a file beside that is made for it. Where that fails the file goes.
    fn write_new<R: Files<File = File>>(&self, rt: &R, text: &[u8]) -> Result<(), FileFault> {
        let path = self.beside.as_str();
        let mut file = match OpenOptions::new()
            .write(true)
            .create_new(true)
            .open(rt, path)
        {
            Ok(file) => file,
            Err(error) => return Err(self.new_fault(FileFault::from(error))),
        };
        match file.write_all(text) {
            Ok(()) => Ok(()),
            Err(error) => {
                let _ = rt.remove_file(path);
                Err(FileFault::from(error))
            }
        }
    }

    /// What came to the path beside meanwhile is told as what was there before.
    fn new_fault(&self, fault: FileFault) -> FileFault {
        match fault {
            FileFault::IsThere => self.content.not_a_new_one(),
            other => other,
        }
    }
}

/// What has a path.
#[derive(Clone, Copy, PartialEq, Eq)]
enum Found {
    /// Nothing.
    Nothing,
    /// A file with such a content.
    Such,
    /// Anything else: also a link, whatever it leads to.
    Other,
}

/// Whether two paths are one, or lead to one file. A disk that is to be made isn't there yet.
fn is_one_path<R: Files<File = File>>(rt: &R, path: &str, other: &str) -> bool {
    path == other || is_same_file(rt, path, other)
}

/// That a file isn't there is no fault.
fn nothing_or(fault: FileFault) -> Result<Found, FileFault> {
    match fault {
        FileFault::NotFound => Ok(Found::Nothing),
        other => Err(other),
    }
}
