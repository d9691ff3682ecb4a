//! How the file of a core is made and named.
ghost use Rattle.std.specs.Prelude.{◌≡◌, IfOk};
ghost use Rattle.ckrt_cli_files.specs.Elf.{begins_as_core};
ghost use Rattle.ckrt_cli_files.specs.Streams.{IsBesideStreams};

use crate::file::FileFault;
use crate::files::{fill_file, keep, open_or_make, open_read, remove, sync_folder};
use crate::leftover::is_marked;
use std::fs::{File, Files};
use std::os::unix::fs::FileExt;

/// How many bytes tell that a file is a core: up to its type, after the 16 bytes of its identification.
const FRONT: usize = 18;

/// Whether a file with these first bytes is an ELF core.
fn begins_as_core(front: &[u8; FRONT]) -> bool
    ensures { result ≡ begins_as_core front.now }
{
    front.starts_with(b"\x7fELF") && front[16] == 4 && front[17] == 0
}

/// The first bytes of a file that has that many.
fn front_of(file: &File) -> Option<[u8; FRONT]> {
    let mut front = [0; FRONT];
    match file.read_exact_at(&mut front, 0) {
        Ok(()) => Some(front),
        Err(_) => None,
    }
}

/// Nothing has this path, or a core has it, or an empty file. What isn't a plain file isn't opened: a pipe that nobody writes to
/// would keep its opener waiting.
fn expect_core<R: Files<File = File>>(rt: &R, path: &str) -> Result<(), FileFault> {
    let told = match rt.metadata(path) {
        Ok(told) => told,
        Err(error) => return none_or(FileFault::from(error)),
    };
    if told.is_dir() {
        return Err(FileFault::IsADirectory);
    }
    if !told.is_file() {
        return Err(FileFault::NotACore);
    }
    if told.len() == 0 {
        return Ok(());
    }
    match front_of(&open_read(rt, path)?) {
        Some(front) if begins_as_core(&front) => Ok(()),
        _ => Err(FileFault::NotACore),
    }
}

/// That a file isn't there is no fault of a core.
fn none_or(fault: FileFault) -> Result<(), FileFault> {
    match fault {
        FileFault::NotFound => Ok(()),
        other => Err(other),
    }
}

/// Whether a file is a core in the making, as one that was cut may have left it: empty, written, or with the mark of its filling still.
fn is_in_writing(file: &File) -> Result<bool, FileFault> {
    let told = file.metadata()?;
    if !told.is_file() {
        return Ok(false);
    }
    if told.len() == 0 {
        return Ok(true);
    }
    match front_of(file) {
        Some(front) => Ok(is_marked(&front) || begins_as_core(&front)),
        None => Ok(false),
    }
}

/// Cuts a core in the making to no bytes. Where it is none it stays as it is.
fn begin_anew(file: &File) -> Result<(), FileFault> {
    if !is_in_writing(file)? {
        return Err(FileFault::NotInWriting);
    }
    file.set_len(0)?;
    Ok(())
}

/// The file of a core in the making for a path, of this name and of that many zero bytes.
pub(crate) fn open_core_file<R: Files<File = File>>(
    rt: &R,
    path: &str,
    name: &str,
    size: usize,
) -> Result<File, FileFault>
    ensures { IfOk result IsBesideStreams }
{
    expect_core(rt, path)?;
    let claimed = open_or_make(rt, name)?;
    let begun = begin_anew(&claimed.file);
    let claimed = keep(rt, name, claimed, begun)?;
    match fill_file(&claimed.file, size) {
        Ok(()) => Ok(claimed.file),
        Err(fault) => {
            remove(rt, name);
            Err(fault)
        }
    }
}

/// Gives a core the path that it was made for, in place of a core that may have it, and makes its name durable.
pub(crate) fn replace_core<R: Files<File = File>>(
    rt: &R,
    name: &str,
    path: &str,
) -> Result<(), FileFault> {
    expect_core(rt, path)?;
    rt.rename(name, path)?;
    sync_folder(rt, path)
}
