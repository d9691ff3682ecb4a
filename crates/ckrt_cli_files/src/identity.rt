//! Which file of the system has a path, by what it is: two paths may lead to one file.
use std::fs::{Files, Metadata};
use std::os::unix::fs::MetadataExt;

/// Which file of the system it is: on which device, and its number there.
#[derive(Clone, Copy, PartialEq, Eq)]
pub(crate) struct FileId {
    device: u64,
    number: u64,
}

impl FileId {
    /// That of a file with this metadata.
    pub(crate) fn of(told: &Metadata) -> FileId {
        FileId {
            device: told.dev(),
            number: told.ino(),
        }
    }

    /// That of what has a path, where anything does.
    pub(crate) fn at<R: Files>(rt: &R, path: &str) -> Option<FileId> {
        match rt.metadata(path) {
            Ok(told) => Some(FileId::of(&told)),
            Err(_) => None,
        }
    }
}

/// Whether a path leads to this file.
pub(crate) fn leads_to<R: Files>(rt: &R, path: &str, file: Option<FileId>) -> bool {
    match (FileId::at(rt, path), file) {
        (Some(there), Some(file)) => there == file,
        _ => false,
    }
}

/// Whether two paths lead to one file.
pub fn is_same_file<R: Files>(rt: &R, path: &str, other: &str) -> bool {
    leads_to(rt, path, FileId::at(rt, other))
}
