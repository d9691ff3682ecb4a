//! How files of the system are opened, made, filled and named.
ghost use Rattle.std.specs.Fs.{metadata_len};
ghost use Rattle.std.specs.Prelude.{◌≡◌, ◌≤◌, IfOk, IfErr};
ghost use Rattle.ckrt_cli_files.specs.Files.{folder_of};
ghost use Rattle.ckrt_cli_files.specs.Real.{IsFreshOutput, IsFreshWhole};
ghost use Rattle.ckrt_cli_files.specs.Streams.{IsBesideStreams};

use crate::file::{FileFault, MAKING};
use crate::growing::GrowingFile;
use crate::identity::{FileId, leads_to};
use crate::leftover::{FileKind, is_blank, kind_of, look_at_leftover};
use crate::output::OpenedOutput;
use crate::reason::OutputReason;
use crate::told::{RealDisk, Teller, ToldFile};
use ckrt_disk::{Calls, Disk, FileDisk, FileUse, Holds, SystemFile};
use ckrt_recovery::RecoverFault;
use ckrt_stored::{FIELDS_AT, SMALLEST_DISK, fill_up};
use std::alloc::Global;
use std::cell::Cell;
use std::fs::{File, Files, Metadata, OpenOptions};
use std::io;
use std::marker::Brand;
use std::os::fd::AsRawFd;
use std::os::unix::fs::FileExt;
use std::path::Path;

/// The file, unless its descriptor is that of standard input, output or error: a stream that is closed when the program
/// begins leaves its descriptor to the next file, whose bytes it would then read, or print over.
fn beside_streams(file: File) -> Result<File, FileFault>
    ensures beside { IfOk result IsBesideStreams }
    ensures same { IfOk result (λ opened. opened ≡ file) }
    ensures closed { IfErr result (λ e. (e ≡ FileFault.StreamClosed) × ¬ IsBesideStreams file) }
{
    if file.as_raw_fd() > 2 {
        Ok(file)
    } else {
        Err(FileFault::StreamClosed)
    }
}

/// Opens a file to read it.
pub(crate) fn open_read<R: Files<File = File>>(rt: &R, path: &str) -> Result<File, FileFault>
    ensures { IfOk result IsBesideStreams }
{
    let file = OpenOptions::new().read(true).open(rt, path)?;
    beside_streams(file)
}

/// Which file an opening takes.
#[derive(Clone, Copy)]
enum Taken {
    /// One that is there.
    There,
    /// One that is made for it, where nothing has the path.
    Made,
    /// One that is there, or is made for it: also where a link leads that leads to nothing.
    Any,
}

/// Opens a file to read and write it, and locks it: a second program over the same disk is refused at once.
fn open_locked<R: Files<File = File>>(rt: &R, path: &str, which: Taken) -> Result<File, FileFault>
    ensures { IfOk result IsBesideStreams }
{
    let file = OpenOptions::new()
        .read(true)
        .write(true)
        .create(matches!(which, Taken::Any))
        .create_new(matches!(which, Taken::Made))
        .open(rt, path)?;
    let file = beside_streams(file)?;
    match file.try_lock() {
        Ok(()) => Ok(file),
        Err(error) => Err(FileFault::from(io::Error::from(error))),
    }
}

/// Opens a file to read it, and locks it with other readers: a file that a program may write is refused at once.
fn open_shared<R: Files<File = File>>(rt: &R, path: &str) -> Result<File, FileFault>
    ensures { IfOk result IsBesideStreams }
{
    let file = open_read(rt, path)?;
    match file.try_lock_shared() {
        Ok(()) => Ok(file),
        Err(error) => Err(FileFault::from(io::Error::from(error))),
    }
}

/// A file that is open to be looked at, and whether somebody may append to it meanwhile.
#[derive(Drop)]
pub(crate) struct LookedAt {
    pub(crate) file: File,
    pub(crate) grows: bool,
}

/// Whether a file is a history by its first gate and its name.
fn is_history(file: &File) -> bool {
    let mut front = [0; 16];
    match file.read_at(&mut front, 0) {
        Ok(16) => front[0] == 0xa5 && &front[8..] == b"CKRTHIST".as_slice(),
        _ => false,
    }
}

/// Opens a file to look at it, as [`open_shared`] does. A history may be looked at while a drive has it locked, too: it is only appended to, and
/// what stands before a closed gate doesn't change any more.
pub(crate) fn open_to_look<R: Files<File = File>>(rt: &R, path: &str) -> Result<LookedAt, FileFault>
    ensures { IfOk result (λ it. IsBesideStreams it.file) }
{
    match open_shared(rt, path) {
        Ok(file) => Ok(LookedAt { file, grows: false }),
        Err(FileFault::InUse) => open_growing(rt, path),
        Err(fault) => Err(fault),
    }
}

/// Opens a history that somebody appends to.
fn open_growing<R: Files<File = File>>(rt: &R, path: &str) -> Result<LookedAt, FileFault>
    ensures { IfOk result (λ it. IsBesideStreams it.file) }
{
    let file = open_read(rt, path)?;
    if !is_history(&file) {
        return Err(FileFault::InUse);
    }
    Ok(LookedAt { file, grows: true })
}

/// The folder of a path.
fn folder_of(path: &str) -> &str
    ensures { result.now ≡ folder_of path.now }
{
    match Path::new(path).parent() {
        Some(folder) if !folder.as_str().is_empty() => folder.as_str(),
        _ => ".",
    }
}

/// Makes the names of a path's folder durable.
pub(crate) fn sync_folder<R: Files<File = File>>(rt: &R, path: &str) -> Result<(), FileFault> {
    let folder = open_read(rt, folder_of(path))?;
    folder.sync_all()?;
    Ok(())
}

/// A file that is open, and whether it was made for that.
#[derive(Drop)]
pub(crate) struct Claimed {
    pub(crate) file: File,
    pub(crate) is_new: bool,
}

/// Removes a file. Where that can't be it stays.
pub(crate) fn remove<R: Files>(rt: &R, path: &str) {
    let _ = rt.remove_file(path);
}

/// The file, where this went well; else what was made is removed.
pub(crate) fn keep<R: Files>(
    rt: &R,
    path: &str,
    claimed: Claimed,
    answer: Result<(), FileFault>,
) -> Result<Claimed, FileFault>
    requires beside { IsBesideStreams claimed.file }
    ensures { IfOk result (λ it. IsBesideStreams it.file) }
{
    match answer {
        Ok(()) => Ok(claimed),
        Err(fault) => {
            if claimed.is_new {
                remove(rt, path);
            }
            Err(fault)
        }
    }
}

/// The file of a path that has none yet. What came there meanwhile, or is behind a link, isn't taken for one that was made.
/// Where it can't be found no folder is there for it.
fn make_locked<R: Files<File = File>>(rt: &R, path: &str) -> Result<Claimed, FileFault>
    ensures { IfOk result (λ it. IsBesideStreams it.file) }
{
    match open_locked(rt, path, Taken::Made) {
        Ok(file) => Ok(Claimed { file, is_new: true }),
        Err(FileFault::IsThere) => Ok(Claimed {
            file: open_locked(rt, path, Taken::Any)?,
            is_new: false,
        }),
        Err(FileFault::NotFound) => Err(FileFault::NoFolder),
        Err(fault) => Err(fault),
    }
}

/// The file of a path, which is made where there is none. Its name is durable then, also where the file was there: who made
/// it may have been killed before that.
pub(crate) fn open_or_make<R: Files<File = File>>(rt: &R, path: &str) -> Result<Claimed, FileFault>
    ensures { IfOk result (λ it. IsBesideStreams it.file) }
{
    let claimed = match open_locked(rt, path, Taken::There) {
        Err(FileFault::NotFound) => make_locked(rt, path)?,
        opened => Claimed {
            file: opened?,
            is_new: false,
        },
    };
    let named = sync_folder(rt, path);
    keep(rt, path, claimed, named)
}

/// A file as a disk, the last of those that were opened, of as many bytes as the system told of it.
fn whole_file<'a, H: Holds>(file: File, told: &Metadata, opened: Calls<FileUse>) -> RealDisk<'a, H>
    ensures fresh { IsFreshWhole ⟦<RealDisk<'a, H> as Disk>⟧ opened.made result }
    ensures told { ⟦<RealDisk<'a, H> as Disk>⟧.size result ≡ metadata_len told.now }
{
    let file = ToldFile::untold(SystemFile::new(file, opened), told);
    FileDisk::new(file, told.len() as usize)
}

/// The disk of an open file, the last of those that were opened, with as many bytes as the file. A directory, which may be
/// opened to be read, is none.
pub(crate) fn disk_of<'a, H: Holds>(
    file: File,
    opened: Calls<FileUse>,
) -> Result<RealDisk<'a, H>, FileFault>
    ensures { IfOk result (IsFreshWhole ⟦<RealDisk<'a, H> as Disk>⟧ opened.made) }
{
    let told = file.metadata()?;
    if told.is_dir() {
        return Err(FileFault::IsADirectory);
    }
    Ok(whole_file(file, &told, opened))
}

/// The disk of a file that was opened to be looked at, the last of those that were opened. One that grows meanwhile has as many bytes as any file
/// may get: where it ends its own last gate tells.
pub(crate) fn disk_looked_at<'a, H: Holds>(
    looked: LookedAt,
    opened: Calls<FileUse>,
) -> Result<RealDisk<'a, H>, FileFault>
    ensures { IfOk result (IsFreshWhole ⟦<RealDisk<'a, H> as Disk>⟧ opened.made) }
{
    if !looked.grows {
        return disk_of(looked.file, opened);
    }
    let file = ToldFile::growing(SystemFile::new(looked.file, opened), OUTPUT_SIZE as u64);
    Ok(FileDisk::new(file, OUTPUT_SIZE))
}

/// Fills a file that is shorter than that many bytes up to them. What is no regular file isn't filled.
pub(crate) fn fill_file(file: &File, size: usize) -> Result<(), FileFault> {
    let told = file.metadata()?;
    let length = told.len() as usize;
    if !told.is_file() || length >= size {
        return Ok(());
    }
    let mut growing = GrowingFile::new(file, size);
    match fill_up(&mut growing, length) {
        Ok(()) => Ok(()),
        Err(_) => Err(growing.fault()),
    }
}

/// What a plain file of which the system told this is that is to become a disk of `size` bytes.
fn kind_of_file(file: &File, told: &Metadata, size: usize) -> Result<FileKind, FileFault> {
    let mut disk: RealDisk<'_, Brand> = whole_file(file.try_clone()?, told, Calls::new());
    match kind_of(&mut disk, size) {
        Ok(kind) => Ok(kind),
        Err(_) => Err(FileFault::Other),
    }
}

/// Marks a file as one that is in the making, durably, where it is so long that its filling doesn't: who finds it after a stop knows
/// it by that.
fn mark(file: &File, length: usize) -> Result<(), FileFault> {
    if length < SMALLEST_DISK {
        return Ok(());
    }
    file.write_all_at(b"CKRTMAKE", FIELDS_AT as u64)?;
    file.sync_data()?;
    Ok(())
}

/// Readies a file for the format of a disk of that many bytes: it has to be a disk already, or free to be written over. Somebody's
/// bytes stay as they are. What is no plain file is left to the format.
fn begin_format(file: &File, size: usize) -> Result<(), FileFault> {
    let told = file.metadata()?;
    if !told.is_file() {
        return Ok(());
    }
    match kind_of_file(file, &told, size)? {
        FileKind::Disk => Ok(()),
        FileKind::Free => mark(file, told.len() as usize),
        FileKind::Foreign => Err(FileFault::NotADisk),
    }
}

/// A file of at least that many bytes, which is a disk or free to become one: one that is missing or shorter is filled with zero
/// bytes.
pub(crate) fn open_filled_file<R: Files<File = File>>(
    rt: &R,
    path: &str,
    size: usize,
) -> Result<Claimed, FileFault>
    ensures { IfOk result (λ it. IsBesideStreams it.file) }
{
    let claimed = open_or_make(rt, path)?;
    let begun = begin_format(&claimed.file, size);
    let claimed = keep(rt, path, claimed, begun)?;
    let filled = fill_file(&claimed.file, size);
    keep(rt, path, claimed, filled)
}

/// The path of the disk or core in the making for a path: beside that, so that it can get its name.
pub(crate) fn beside(alloc: Global, path: &str) -> Result<String, FileFault> {
    match format!(in alloc; "{}{}", path, MAKING) {
        Ok(name) => Ok(name),
        Err(_) => Err(FileFault::OutOfMemory),
    }
}

/// Whether anything has a path, also a link that leads to nothing.
fn is_taken<R: Files>(rt: &R, path: &str) -> Result<bool, FileFault> {
    match rt.symlink_metadata(path) {
        Ok(_) => Ok(true),
        Err(error) => match FileFault::from(error) {
            FileFault::NotFound => Ok(false),
            fault => Err(fault),
        },
    }
}

/// That the folder of a path is there.
fn has_folder<R: Files>(rt: &R, path: &str) -> Result<(), FileFault> {
    match rt.metadata(folder_of(path)) {
        Ok(told) if told.is_dir() => Ok(()),
        Ok(_) => Err(FileFault::NoFolder),
        Err(error) => match FileFault::from(error) {
            FileFault::NotFound => Err(FileFault::NoFolder),
            fault => Err(fault),
        },
    }
}

/// That what has this name already is a disk in the making, which nobody has locked. It stays as it is.
fn look_at_making<R: Files<File = File>>(
    rt: &R,
    alloc: Global,
    name: &str,
) -> Result<(), FileFault> {
    let file = match open_locked(rt, name, Taken::There) {
        Ok(file) => file,
        Err(FileFault::InUse) => return Err(FileFault::InUse),
        Err(_) => return Err(FileFault::NotAMaking),
    };
    if is_in_making(alloc, &file)? {
        Ok(())
    } else {
        Err(FileFault::NotAMaking)
    }
}

/// That a file of this name can be made: one is, and goes again. What has the name already has to be a disk in the making.
fn try_to_make<R: Files<File = File>>(rt: &R, alloc: Global, name: &str) -> Result<(), FileFault> {
    match open_locked(rt, name, Taken::Made) {
        Ok(file) => {
            remove(rt, name);
            drop(file);
            Ok(())
        }
        Err(FileFault::IsThere) => look_at_making(rt, alloc, name),
        Err(FileFault::PermissionDenied) => Err(FileFault::NotWritable),
        Err(fault) => Err(fault),
    }
}

/// That a disk can be made for a path, beside it by this name: the folder is there and takes a file, nothing has the path, and nothing but a
/// disk in the making the name.
pub(crate) fn look_at_place<R: Files<File = File>>(
    rt: &R,
    alloc: Global,
    path: &str,
    name: &str,
) -> Result<(), FileFault> {
    has_folder(rt, path)?;
    if is_taken(rt, path)? {
        return Err(FileFault::IsTaken);
    }
    try_to_make(rt, alloc, name)
}

/// Whether a file is a disk in the making, as one that was cut may have left it.
fn is_in_making(alloc: Global, file: &File) -> Result<bool, FileFault> {
    let told = file.metadata()?;
    if !told.is_file() {
        return Ok(false);
    }
    let again: SystemFile<Brand> = SystemFile::new(file.try_clone()?, Calls::new());
    match look_at_leftover(alloc, FileDisk::new(again, told.len() as usize)).is_in_making {
        Ok(found) => Ok(found),
        Err(RecoverFault::OutOfMemory) => Err(FileFault::OutOfMemory),
        Err(_) => Err(FileFault::Other),
    }
}

/// Cuts a disk in the making to no bytes, if nothing has the path that it is for: who had its lock before may have given it that
/// path. Else, and where it is no disk in the making, it stays as it is.
fn begin_anew<R: Files>(rt: &R, alloc: Global, path: &str, file: &File) -> Result<(), FileFault> {
    if is_taken(rt, path)? {
        return Err(FileFault::IsThere);
    }
    if !is_in_making(alloc, file)? {
        return Err(FileFault::NotInMaking);
    }
    file.set_len(0)?;
    Ok(())
}

/// The file of a disk in the making for a path, of this name and of that many zero bytes.
pub(crate) fn open_making_file<R: Files<File = File>>(
    rt: &R,
    alloc: Global,
    path: &str,
    name: &str,
    size: usize,
) -> Result<File, FileFault>
    ensures { IfOk result IsBesideStreams }
{
    let claimed = open_or_make(rt, name)?;
    let begun = begin_anew(rt, alloc, path, &claimed.file);
    let claimed = keep(rt, name, claimed, begun)?;
    match fill_file(&claimed.file, size) {
        Ok(()) => Ok(claimed.file),
        Err(fault) => {
            remove(rt, name);
            Err(fault)
        }
    }
}

/// Gives a file the path that it was made for, if nothing has that, and makes its name durable.
pub(crate) fn give_name<R: Files<File = File>>(
    rt: &R,
    name: &str,
    path: &str,
) -> Result<(), FileFault> {
    if is_taken(rt, path)? {
        return Err(FileFault::IsThere);
    }
    rt.rename(name, path)?;
    sync_folder(rt, path)
}

/// The file of a disk. Its name is durable then: who made it may have been killed before that.
pub(crate) fn open_disk_file<R: Files<File = File>>(rt: &R, path: &str) -> Result<File, FileFault>
    ensures { IfOk result IsBesideStreams }
{
    let file = open_locked(rt, path, Taken::There)?;
    sync_folder(rt, path)?;
    Ok(file)
}

/// How many bytes an output has, and a history that is looked at while it grows: more than any file. Those after the end of its file count as zeros until
/// they are written.
const OUTPUT_SIZE: usize = i64::MAX as usize;

/// The output of an open file, the last of those that were opened, which grows as it is written, and tells why it fails. What isn't a
/// plain file, as a terminal, has no offsets.
fn output_of<'a, H: Holds>(
    file: File,
    opened: Calls<FileUse>,
    why: &'a Cell<OutputReason>,
) -> Result<OpenedOutput<RealDisk<'a, H>>, FileFault>
    ensures { IfOk result (IsFreshOutput ⟦<RealDisk<'a, H> as Disk>⟧ opened.made) }
{
    let told = file.metadata()?;
    if !told.is_file() {
        return Err(FileFault::NotAFile);
    }
    let teller = Teller::new(file.try_clone()?, why);
    let file = ToldFile::told_by(SystemFile::new(file, opened), &told, teller);
    Ok(OpenedOutput {
        output: FileDisk::new(file, OUTPUT_SIZE),
        length: told.len(),
    })
}

/// The output of a path.
pub(crate) fn open_system_output<'a, R: Files<File = File>, H: Holds>(
    rt: &R,
    path: &str,
    opened: Calls<FileUse>,
    why: &'a Cell<OutputReason>,
) -> Result<OpenedOutput<RealDisk<'a, H>>, FileFault>
    ensures { IfOk result (IsFreshOutput ⟦<RealDisk<'a, H> as Disk>⟧ opened.made) }
{
    let claimed = open_or_make(rt, path)?;
    output_of(claimed.file, opened, why)
}

/// How many bytes of a history have its first fields.
const HISTORY_FRONT: usize = 72;

/// Whether a plain file of which the system told this has zeros alone where a history has its first fields.
fn is_blank_file(file: &File, told: &Metadata) -> Result<bool, FileFault> {
    let mut disk: RealDisk<'_, Brand> = whole_file(file.try_clone()?, told, Calls::new());
    match is_blank(&mut disk, HISTORY_FRONT) {
        Ok(found) => Ok(found),
        Err(_) => Err(FileFault::Other),
    }
}

/// Fills a plain file of a few zeros, or of no byte, up to the first fields of a history. What else is so short is none, nor is what isn't a plain
/// file.
fn fill_front(file: &File) -> Result<(), FileFault> {
    let told = file.metadata()?;
    let length = told.len() as usize;
    if !told.is_file() {
        return Err(FileFault::NotAHistory);
    }
    if length >= HISTORY_FRONT {
        return Ok(());
    }
    if !is_blank_file(file, &told)? {
        return Err(FileFault::NotAHistory);
    }
    let zeros = [0; HISTORY_FRONT];
    file.write_all_at(&zeros[length..], length as u64)?;
    Ok(())
}

/// That a file isn't the one that the path of an output leads to. It is open by then, so whatever leads there is found.
fn is_beside_output<R: Files>(rt: &R, file: &File, output: Option<&str>) -> Result<(), FileFault> {
    let Some(output) = output else {
        return Ok(());
    };
    let told = file.metadata()?;
    if leads_to(rt, output, Some(FileId::of(&told))) {
        return Err(FileFault::IsOutput);
    }
    Ok(())
}

/// The file of the history of a path, which isn't the output's. Where it was made for that and is refused it's removed.
pub(crate) fn open_system_history<'a, R: Files<File = File>, H: Holds>(
    rt: &R,
    path: &str,
    output: Option<&str>,
    opened: Calls<FileUse>,
    why: &'a Cell<OutputReason>,
) -> Result<OpenedOutput<RealDisk<'a, H>>, FileFault>
    ensures { IfOk result (IsFreshOutput ⟦<RealDisk<'a, H> as Disk>⟧ opened.made) }
{
    let claimed = open_or_make(rt, path)?;
    let beside = is_beside_output(rt, &claimed.file, output);
    let claimed = keep(rt, path, claimed, beside)?;
    fill_front(&claimed.file)?;
    output_of(claimed.file, opened, why)
}

/// Whether a path is that of a plain file. Nothing is opened: a pipe that nobody writes to would keep its opener waiting.
fn is_plain_file<R: Files>(rt: &R, path: &str) -> Result<(), FileFault> {
    let told = rt.metadata(path)?;
    if told.is_dir() {
        return Err(FileFault::IsADirectory);
    }
    if !told.is_file() {
        return Err(FileFault::NotAnInput);
    }
    Ok(())
}

/// Whether a file has a byte.
fn has_bytes(file: &File) -> Result<bool, FileFault> {
    let mut first = [0];
    Ok(file.read_at(&mut first, 0)? > 0)
}

/// What the system tells of an input that was opened: it has to be a plain file with a length. Where that is told to be 0 one read
/// decides, since of some files, as those of `/proc`, the system tells no length.
fn told_of_input(file: &File) -> Result<Metadata, FileFault> {
    let told = file.metadata()?;
    if !told.is_file() {
        return Err(FileFault::NotAnInput);
    }
    if told.len() == 0 && has_bytes(file)? {
        return Err(FileFault::NoLength);
    }
    Ok(told)
}

/// The input of a path: a plain file, which is only read.
pub(crate) fn open_system_input<'a, R: Files<File = File>, H: Holds>(
    rt: &R,
    path: &str,
    opened: Calls<FileUse>,
) -> Result<RealDisk<'a, H>, FileFault>
    ensures { IfOk result (IsFreshWhole ⟦<RealDisk<'a, H> as Disk>⟧ opened.made) }
{
    is_plain_file(rt, path)?;
    let file = open_read(rt, path)?;
    let told = told_of_input(&file)?;
    Ok(whole_file(file, &told, opened))
}

/// The disk of an open file once zero bytes stand after its own, up to that many bytes.
pub(crate) fn longer_disk<'a, H: Holds>(
    file: &File,
    opened: Calls<FileUse>,
    size: usize,
) -> Result<RealDisk<'a, H>, FileFault>
    ensures fresh { IfOk result (IsFreshWhole ⟦<RealDisk<'a, H> as Disk>⟧ opened.made) }
    ensures long { IfOk result (λ disk. size ≤ ⟦<RealDisk<'a, H> as Disk>⟧.size disk) }
{
    fill_file(file, size)?;
    let longer = file.try_clone()?;
    let told = longer.metadata()?;
    if (told.len() as usize) < size {
        return Err(FileFault::Other);
    }
    Ok(whole_file(longer, &told, opened))
}
