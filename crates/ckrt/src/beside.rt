//! The names that lie beside an image or a disk: those of FILE are in FILE.names.
//!
//! Names of an image have to be of that very image. Those of a disk only help to read: where they can't be used, that is said, and the job
//! is done without them.
use ckrt_cli_names::{Names, NamesFault, SIZE_LIMIT};
use ckrt_cli_words::{DriveJob, HistoryJob, Job};
use ckrt_disk::MemoryDisk;
use ckrt_stored::{ProgramNote, read_note};
use sha2::{Digest, Sha256};
use std::alloc::{AllocError, Global};
use std::fs::{File, Files, OpenOptions};
use std::io::{self, ErrorKind, Read};

/// Why names can't be used.
#[derive(Clone, Copy, Debug, PartialEq, Eq)]
pub enum Trouble {
    /// The system refused memory.
    OutOfMemory,
    /// There is no such file.
    Missing,
    /// The file can't be read.
    Unreadable,
    /// It isn't a file of names.
    Malformed,
    /// It is of another image.
    OtherImage,
    /// It is of another program than the one that the disk notes.
    OtherProgram,
}

impl Trouble {
    /// What is wrong, in plain words.
    pub fn text(self) -> &'static str {
        match self {
            Trouble::OutOfMemory => "the system refused memory",
            Trouble::Missing => "there is no such file",
            Trouble::Unreadable => "it can't be read; remove it, or let it be read",
            Trouble::Malformed => "it isn't a file of names; make it again by guest/image",
            Trouble::OtherImage => {
                "it is of another image; make both by guest/build or guest/image"
            }
            Trouble::OtherProgram => {
                "it is of another program than the disk; take the names of the image that the disk was made with"
            }
        }
    }
}

impl Trouble {
    /// The name of the fault.
    pub fn name(self) -> &'static str {
        match self {
            Trouble::OutOfMemory => "OutOfMemory",
            _ => "Names",
        }
    }
}

impl From<NamesFault> for Trouble {
    fn from(fault: NamesFault) -> Trouble {
        match fault {
            NamesFault::OutOfMemory => Trouble::OutOfMemory,
            _ => Trouble::Malformed,
        }
    }
}

impl From<AllocError> for Trouble {
    fn from(_: AllocError) -> Trouble {
        Trouble::OutOfMemory
    }
}

/// How many bytes of a disk tell its program, with one more that is read.
const FRONT: u64 = 71;

/// Names that can't be used: of the image or the disk of this path.
#[derive(Clone, Copy)]
pub struct Refusal<'a> {
    /// The path of the image or the disk.
    pub path: &'a str,
    /// Why they can't.
    pub trouble: Trouble,
}

/// The names for a job.
#[derive(Drop)]
pub struct Beside<'a> {
    /// Those for what is printed.
    pub printed: Names,
    /// Those for what is reported.
    pub reported: Names,
    /// Those of a disk that can't be used.
    pub unused: Option<Refusal<'a>>,
    /// The bytes of those that each disk gets which the job makes, and the history of its disk, none where its image has no names. It isn't
    /// there where none gets any.
    pub gift: Option<Vec<u8>>,
}

/// The path of the names of a file.
pub fn names_path(alloc: Global, path: &str) -> Result<String, AllocError> {
    format!(in alloc; "{path}.names")
}

/// Whether nothing has this path.
pub fn is_missing<R: Files<File = File>>(rt: &R, path: &str) -> bool {
    match rt.metadata(path) {
        Ok(_) => false,
        Err(error) => error.kind() == ErrorKind::NotFound,
    }
}

/// The first bytes of a file, at most so many and one more. A pipe isn't waited for.
pub fn read_front<R: Files<File = File>>(
    rt: &R,
    alloc: Global,
    path: &str,
    most: u64,
) -> io::Result<Vec<u8>> {
    if !rt.metadata(path)?.is_file() {
        return Err(io::Error::from(ErrorKind::InvalidInput));
    }
    let file = OpenOptions::new().read(true).open(rt, path)?;
    let mut bytes = Vec::new(alloc);
    file.take(most.saturating_add(1)).read_to_end(&mut bytes)?;
    Ok(bytes)
}

/// Those bytes, where there is such a file, or why there are none.
pub fn read_or_refuse<R: Files<File = File>>(
    rt: &R,
    alloc: Global,
    path: &str,
    most: u64,
) -> Result<Option<Vec<u8>>, Trouble> {
    match read_front(rt, alloc, path, most) {
        Ok(bytes) => Ok(Some(bytes)),
        Err(error) => match error.kind() {
            ErrorKind::NotFound => Ok(None),
            ErrorKind::OutOfMemory => Err(Trouble::OutOfMemory),
            ErrorKind::InvalidInput => Err(Trouble::Malformed),
            _ => Err(Trouble::Unreadable),
        },
    }
}

/// The names of a file, where it has some.
fn names_of<R: Files<File = File>>(
    rt: &R,
    alloc: Global,
    path: &str,
) -> Result<Option<Names>, Trouble> {
    let beside = names_path(alloc, path)?;
    match read_or_refuse(rt, alloc, beside.as_str(), SIZE_LIMIT as u64)? {
        Some(bytes) => Ok(Some(Names::parse(alloc, bytes)?)),
        None => Ok(None),
    }
}

/// Whether names are of these bytes.
pub fn are_of(names: &Names, image: &[u8]) -> bool {
    let mut hasher = Sha256::new();
    hasher.update(image);
    let digest: [u8; 32] = hasher.finalize();
    image.len() == names.length() as usize && digest == names.digest()
}

/// The names of an image, none where it has none.
fn names_of_image<R: Files<File = File>>(
    rt: &R,
    alloc: Global,
    path: &str,
) -> Result<Names, Trouble> {
    let Some(names) = names_of(rt, alloc, path)? else {
        return Ok(Names::none(alloc));
    };
    match read_or_refuse(rt, alloc, path, names.length() as u64)? {
        Some(image) if are_of(&names, &image) => Ok(names),
        _ => Err(Trouble::OtherImage),
    }
}

/// The bytes of names once more.
pub fn copy_of(alloc: Global, names: &Names) -> Result<Vec<u8>, AllocError> {
    let mut bytes = Vec::new(alloc);
    bytes.extend_from_slice(names.bytes())?;
    Ok(bytes)
}

/// The names of an image, and their bytes once more.
fn names_with_bytes<R: Files<File = File>>(
    rt: &R,
    alloc: Global,
    path: &str,
) -> Result<(Names, Vec<u8>), Trouble> {
    let names = names_of_image(rt, alloc, path)?;
    let bytes = copy_of(alloc, &names)?;
    Ok((names, bytes))
}

/// No names.
pub fn none<'a>(alloc: Global) -> Beside<'a> {
    Beside {
        printed: Names::none(alloc),
        reported: Names::none(alloc),
        unused: None,
        gift: None,
    }
}

/// The names of an image of which a job makes disks, for what is printed. An image that is missing has none, as the job itself will say.
fn of_image<'a, R: Files<File = File>>(
    rt: &R,
    alloc: Global,
    image: &'a str,
) -> Result<Beside<'a>, Refusal<'a>> {
    if is_missing(rt, image) {
        return Ok(none(alloc));
    }
    match names_with_bytes(rt, alloc, image) {
        Ok((printed, bytes)) => Ok(Beside {
            printed,
            reported: Names::none(alloc),
            unused: None,
            gift: Some(bytes),
        }),
        Err(trouble) => Err(Refusal {
            path: image,
            trouble,
        }),
    }
}

/// Names that may be missing, for what is printed.
fn printing<'a>(alloc: Global, names: Option<Names>) -> Beside<'a> {
    match names {
        Some(printed) => Beside {
            printed,
            reported: Names::none(alloc),
            unused: None,
            gift: None,
        },
        None => none(alloc),
    }
}

/// No names of a disk: they can't be used.
fn unusable<'a>(alloc: Global, disk: &'a str, trouble: Trouble) -> Beside<'a> {
    Beside {
        printed: Names::none(alloc),
        reported: Names::none(alloc),
        unused: Some(Refusal {
            path: disk,
            trouble,
        }),
        gift: None,
    }
}

/// The name of a history, from byte 8 of its front on (docs/HISTORIES.md).
const HISTORY: &[u8] = b"CKRTHIST";

/// What the front of a history says of its program, as its disk noted that. Zeros are no note.
fn note_of_history(front: &[u8]) -> Option<ProgramNote> {
    if front.get(8..16)? != HISTORY {
        return None;
    }
    let digest = *front.get(32..64)?.first_chunk::<32>()?;
    let bytes = u64::from_le_bytes(*front.get(64..72)?.first_chunk::<8>()?);
    if bytes == 0 {
        return None;
    }
    Some(ProgramNote { digest, bytes })
}

/// What a disk or a history notes of its program. One that can't be read is as one that notes nothing: the job itself will say why.
fn note_of_disk<R: Files<File = File>>(rt: &R, alloc: Global, disk: &str) -> Option<ProgramNote> {
    let front = read_front(rt, alloc, disk, FRONT).ok()?;
    if let Some(note) = note_of_history(&front) {
        return Some(note);
    }
    let mut disk = MemoryDisk::new(alloc, front).ok()?;
    read_note(&mut disk).ok()?
}

/// The names, unless the disk notes another program.
pub fn of_program<R: Files<File = File>>(
    rt: &R,
    alloc: Global,
    names: Names,
    disk: &str,
) -> Result<Names, Trouble> {
    let Some(note) = note_of_disk(rt, alloc, disk) else {
        return Ok(names);
    };
    let noted = note.digest;
    let named = names.digest();
    if noted == named && note.bytes == u64::from(names.length()) {
        Ok(names)
    } else {
        Err(Trouble::OtherProgram)
    }
}

/// The names of the file beside a disk, where it has some.
fn names_of_disk<R: Files<File = File>>(
    rt: &R,
    alloc: Global,
    disk: &str,
) -> Result<Option<Names>, Trouble> {
    match names_of(rt, alloc, disk)? {
        Some(names) => Ok(Some(of_program(rt, alloc, names, disk)?)),
        None => Ok(None),
    }
}

/// The names of a disk, for what is printed.
fn of_disk<'a, R: Files<File = File>>(rt: &R, alloc: Global, disk: &'a str) -> Beside<'a> {
    match names_of_disk(rt, alloc, disk) {
        Ok(names) => printing(alloc, names),
        Err(trouble) => unusable(alloc, disk, trouble),
    }
}

/// The same names, for what is reported.
pub fn reported(alloc: Global, beside: Beside<'_>) -> Beside<'_> {
    let Beside {
        printed,
        unused,
        gift,
        ..
    } = beside;
    Beside {
        printed: Names::none(alloc),
        reported: printed,
        unused,
        gift,
    }
}

/// The names that a history gets of its disk, or a part of its history, where that has some.
pub fn gift_of_disk<R: Files<File = File>>(rt: &R, alloc: Global, disk: &str) -> Option<Vec<u8>> {
    match names_of_disk(rt, alloc, disk) {
        Ok(Some(names)) => copy_of(alloc, &names).ok(),
        _ => None,
    }
}

/// The names for a job that keeps a history of a disk, or makes a part of one. Nothing is printed by them.
fn of_history<'a, R: Files<File = File>>(
    rt: &R,
    alloc: Global,
    job: &HistoryJob<'a>,
) -> Beside<'a> {
    let gift = match (job.part, job.disk) {
        (Some(_), _) => gift_of_disk(rt, alloc, job.file),
        (None, Some(disk)) => gift_of_disk(rt, alloc, disk),
        (None, None) => None,
    };
    Beside {
        printed: Names::none(alloc),
        reported: Names::none(alloc),
        unused: None,
        gift,
    }
}

/// The names of a disk, which the history of its drive gets too, where it keeps one.
fn of_driven<'a, R: Files<File = File>>(rt: &R, alloc: Global, job: &DriveJob<'a>) -> Beside<'a> {
    let Beside {
        printed,
        reported,
        unused,
        ..
    } = of_disk(rt, alloc, job.disk);
    let gift = match job.history {
        Some(_) => gift_of_disk(rt, alloc, job.disk),
        None => None,
    };
    Beside {
        printed,
        reported,
        unused,
        gift,
    }
}

/// The names for a drive, whose end is reported: those of its disk, or of the image that a missing one is made of.
fn of_drive<'a, R: Files<File = File>>(
    rt: &R,
    alloc: Global,
    job: &DriveJob<'a>,
) -> Result<Beside<'a>, Refusal<'a>> {
    let beside = match job.image {
        Some(image) if is_missing(rt, job.disk) => of_image(rt, alloc, image)?,
        _ => of_driven(rt, alloc, job),
    };
    Ok(reported(alloc, beside))
}

/// The names for a job, before it is done.
pub fn before<'a, R: Files<File = File>>(
    rt: &R,
    alloc: Global,
    job: &Job<'a>,
) -> Result<Beside<'a>, Refusal<'a>> {
    match job {
        Job::Inspect(job) => Ok(of_disk(rt, alloc, job.disk)),
        Job::Calls(job) => Ok(of_disk(rt, alloc, job.disk)),
        Job::Races(job) | Job::Check(job) => Ok(of_disk(rt, alloc, job.stretch.disk)),
        Job::Profile(job) => Ok(of_disk(rt, alloc, job.stretch.disk)),
        Job::Timeline(job) => Ok(of_disk(rt, alloc, job.stretch.disk)),
        Job::Hunt(job) => of_image(rt, alloc, job.image),
        Job::Format(job) => Ok(reported(alloc, of_image(rt, alloc, job.image)?)),
        Job::Drive(job) => of_drive(rt, alloc, job),
        Job::History(job) => Ok(of_history(rt, alloc, job)),
        _ => Ok(none(alloc)),
    }
}
