//! The files of a job, and why one can't be used.
ghost use Rattle.std.specs.Prelude.{◌≡◌};
ghost use Rattle.std.specs.IoError.{error_kind};
ghost use Rattle.ckrt_cli_files.specs.Openings.{kept_opening, opening_of};
ghost use Rattle.ckrt_cli_files.specs.FileFaults.{file_fault_of};

use std::io::{self, ErrorKind};

/// A file that a job names.
#[derive(Clone, Copy, Debug, PartialEq, Eq)]
pub enum JobFile {
    /// The guest's image.
    Image,
    /// The disk.
    Disk,
    /// The file of the input.
    Input,
    /// The file of the output.
    Output,
    /// The disk in the making, beside the path that it is made for.
    Making,
    /// The core.
    Core,
    /// The disk that a run of a hunt is to be kept on.
    Kept,
    /// The first disk of the folder that runs of a hunt are to be kept in.
    FirstKept,
    /// The history.
    History,
    /// The part of a history that is made.
    Part,
}

/// Why a file can't be opened, read, locked or filled.
#[derive(Clone, Copy, Debug, PartialEq, Eq)]
pub enum FileFault {
    /// Nothing has this path.
    NotFound,
    /// No folder is there for a file that was to be made.
    NoFolder,
    /// The path of a disk, an output or a status is the image's too.
    IsImage,
    /// The image is an ELF file.
    IsElf,
    /// The image takes no words.
    NoWords,
    /// The image is longer with its words than the largest guest's memory.
    LongWords,
    /// The path of an input, an output, a core or a status is the disk's too.
    IsDisk,
    /// The path of an output or a status is the input's too.
    IsInput,
    /// The path of a status is the output's too.
    IsOutput,
    /// The path of an output or a status is the history's too.
    IsHistory,
    /// A directory has this path.
    IsADirectory,
    /// What has this path is no plain file: a terminal, say, or a pipe.
    NotAFile,
    /// What has the path of an input is no plain file: a pipe, say, or a terminal.
    NotAnInput,
    /// The system tells no length of an input, and it has bytes.
    NoLength,
    /// The user may not open it so.
    PermissionDenied,
    /// Another program holds its lock.
    InUse,
    /// The device has no room for its bytes.
    StorageFull,
    /// Its file system may only be read.
    ReadOnly,
    /// It holds something else than a disk, and isn't free to become one.
    NotADisk,
    /// It holds something else than a disk in the making.
    NotInMaking,
    /// It holds something else than a status.
    NotAStatus,
    /// Something else than a status has the path of one that is written.
    NotANewStatus,
    /// It holds something else than the table of a hunt.
    NotATable,
    /// Something else than a table has the path of one that is written.
    NotANewTable,
    /// Something else than a core has the path of one.
    NotACore,
    /// Something else than a core has the path of one in the making.
    NotInWriting,
    /// It holds something else than a history, and isn't free to become one.
    NotAHistory,
    /// A write or a sync of it failed.
    Unwritten,
    /// Something has got the path that was free.
    IsThere,
    /// Something has the path of a disk that is to be made.
    IsTaken,
    /// Something else than a disk in the making has the path of one that is to be made.
    NotAMaking,
    /// No file may be made in the folder of a disk that is to be made.
    NotWritable,
    /// The system refused memory.
    OutOfMemory,
    /// A standard stream is closed, and the file got its descriptor.
    StreamClosed,
    /// Anything else.
    Other,
}

/// An opening of a file: of which path, and how it went.
#[derive(Clone, Copy)]
pub(crate) enum FileOpening<'a> {
    /// The file of this path is open.
    Opened(&'a str),
    /// That of this path can't be used, and this is why.
    Refused(&'a str, FileFault),
}

impl<'a> FileOpening<'a> {
    /// The opening of a path with this answer.
    pub(crate) fn of<T>(path: &'a str, answer: &Result<T, FileFault>) -> FileOpening<'a>
        ensures { kept_opening result ≡ opening_of path.now answer.now }
    {
        match answer {
            Ok(_) => FileOpening::Opened(path),
            Err(fault) => FileOpening::Refused(path, *fault),
        }
    }
}

/// What stands after a disk's path in that of the disk in the making.
pub(crate) const MAKING: &str = ".making";

/// What stands after a folder's path in that of its first disk.
const FIRST_KEPT: &str = "outcome-1.disk";

impl JobFile {
    /// What the file is to its job.
    pub fn text(self) -> &'static str {
        match self {
            JobFile::Image => "the image ",
            JobFile::Disk => "the disk ",
            JobFile::Input => "the input ",
            JobFile::Output => "the output ",
            JobFile::Making => "the disk in the making ",
            JobFile::Core => "the core ",
            JobFile::Kept | JobFile::FirstKept => "the disk ",
            JobFile::History => "the history ",
            JobFile::Part => "the part ",
        }
    }

    /// What stands after the path that the words give for it.
    pub fn ending(self) -> &'static str {
        match self {
            JobFile::Making => MAKING,
            JobFile::FirstKept => FIRST_KEPT,
            JobFile::Image
            | JobFile::Disk
            | JobFile::Input
            | JobFile::Output
            | JobFile::Core
            | JobFile::Kept
            | JobFile::History
            | JobFile::Part => "",
        }
    }
}

impl FileFault {
    /// The fault in plain words.
    pub fn text(self) -> &'static str {
        match self {
            FileFault::NotFound => "there is no such file",
            FileFault::NoFolder => "its folder is missing; make it, or give another path",
            FileFault::IsImage => "the image has this path too",
            FileFault::IsElf =>
                "it is an ELF file: guest/image, or objcopy -O binary, makes an image of it",
            FileFault::NoWords =>
                "it takes no words: build it by guest/build, without words or files of its own, or leave out -- and --env",
            FileFault::LongWords =>
                "with its words it is longer than the largest guest's memory; give fewer or shorter ones",
            FileFault::IsDisk => "the disk has this path too; give another",
            FileFault::IsInput => "the input has this path too; give another",
            FileFault::IsOutput => "the output has this path too; give another",
            FileFault::IsHistory => "the history has this path too; give another",
            FileFault::IsADirectory => "it is a directory",
            FileFault::NotAFile =>
                "it isn't a plain file, and can't be written by offset; without --output the bytes are printed",
            FileFault::NotAnInput =>
                "it isn't a plain file, and can't be read by offset; put its bytes into a file, and give that",
            FileFault::NoLength =>
                "the system tells no length of it, and it has bytes; copy them into a plain file, and give that",
            FileFault::PermissionDenied => "permission denied",
            FileFault::InUse => "another program has it locked",
            FileFault::StorageFull => "no space is left for it",
            FileFault::ReadOnly => "its file system is read-only",
            FileFault::NotADisk =>
                "it is no disk, and is unchanged; move it away, or give another path",
            FileFault::NotInMaking =>
                "it is no disk in the making, and is unchanged; move it away, then give the command again",
            FileFault::NotAStatus =>
                "it is no status of a drive, and is unchanged; move it away, or give another path",
            FileFault::NotANewStatus =>
                "what has this path with .new behind it is no status, and is unchanged; move it away, or give another path",
            FileFault::NotATable =>
                "it is no table of a hunt, and is unchanged; move it away, or give another path",
            FileFault::NotANewTable =>
                "what has this path with .new behind it is no table, and is unchanged; move it away, or give another path",
            FileFault::NotACore =>
                "it is no core, and is unchanged; move it away, or give another path",
            FileFault::NotInWriting =>
                "what has this path with .making behind it is no core, and is unchanged; move it away, then give the command again",
            FileFault::NotAHistory =>
                "it is no history of ckrt, and is unchanged; look at its path, or give another",
            FileFault::Unwritten =>
                "a write or sync of it failed; look after its device, then give the command again",
            FileFault::IsThere =>
                "something has the disk's path meanwhile; look at it, then give the command again",
            FileFault::IsTaken =>
                "something has this path already; move that away, or give another path",
            FileFault::NotAMaking =>
                "what has this path with .making behind it is no disk in the making, and is unchanged; move it away, then give the command again",
            FileFault::NotWritable =>
                "no file can be made in its folder; see to its permissions, or give another path",
            FileFault::OutOfMemory => "the system refused memory",
            FileFault::StreamClosed => "a standard stream is closed",
            FileFault::Other => "it can't be opened, read or filled",
        }
    }
}

impl From<io::Error> for FileFault {
    ghost from_gives = { λ error fault. fault ≡ file_fault_of (error_kind error) };

    fn from(error: io::Error) -> FileFault {
        match error.kind() {
            ErrorKind::NotFound => FileFault::NotFound,
            ErrorKind::AlreadyExists => FileFault::IsThere,
            ErrorKind::IsADirectory => FileFault::IsADirectory,
            ErrorKind::PermissionDenied => FileFault::PermissionDenied,
            ErrorKind::WouldBlock => FileFault::InUse,
            ErrorKind::StorageFull => FileFault::StorageFull,
            ErrorKind::ReadOnlyFilesystem => FileFault::ReadOnly,
            ErrorKind::OutOfMemory => FileFault::OutOfMemory,
            _ => FileFault::Other,
        }
    }
}
