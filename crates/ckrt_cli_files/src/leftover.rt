//! Whether a file that is there may become a disk: one that a making which was cut left, or one with no bytes of anybody's.
ghost use Rattle.std.specs.Prelude.{◌≡◌, ◌↔◌, ◌≤◌, ◌+◌, false, drop, is_err, length, take, IfOk, IsTrue};
ghost use Rattle.ckrt_disk.specs.Frame.{IsOnlyRead, IsSameDisk};
ghost use Rattle.ckrt_cli_files.specs.Leftovers.{HasNotBegun, IsInMaking, IsOfContent, has_disk, is_free, is_marked, is_unfinished, is_unnamed, is_zero, kind_of};

use ckrt_disk::{DeviceFault, Disk};
use ckrt_recovery::{RecoverFault, Session, recover};
use ckrt_stored::{FIELDS_AT, OPEN, SMALLEST_DISK, number_64};
use std::alloc::Global;

/// What a file is that is to become a disk.
#[derive(Clone, Copy)]
pub(crate) enum FileKind {
    /// A disk already, as its open gate and its name tell: nothing of it is written over.
    Disk,
    /// Free to be written over: it has no bytes but zeros, or a making that was cut left it.
    Free,
    /// Somebody's bytes.
    Foreign,
}

/// A file that was looked at, and whether it is a disk in the making.
#[derive(Drop)]
pub(crate) struct Looked<D> {
    pub(crate) disk: D,
    pub(crate) is_in_making: Result<bool, RecoverFault>,
}

/// How many bytes tell that a file is in the making: its gate, those after it that nothing writes, and a name.
const FRONT: usize = 16;

/// "CKRTMAKE", which a file has for a name while it is made.
const MAKING: u64 = 0x454b_414d_5452_4b43;

/// "CKRTDISK", the name of a disk.
const NAME: u64 = 0x4b53_4944_5452_4b43;

/// How many bytes are looked at together.
const BLOCK: usize = 4_096;

/// Whether a file with these first bytes is in the making.
pub(crate) fn is_marked(front: &[u8]) -> bool
    requires { 16 ≤ length front.now }
    ensures { result ≡ is_marked front.now }
{
    number_64(front, 0) == 0 && number_64(front, FIELDS_AT) == MAKING
}

/// Whether a file with these first bytes has the name of a disk, and its gate is still closed.
fn is_unnamed(front: &[u8]) -> bool
    requires { 16 ≤ length front.now }
    ensures { result ≡ is_unnamed front.now }
{
    number_64(front, 0) == 0 && number_64(front, FIELDS_AT) == NAME
}

/// Whether a file is empty, or begins as one that is in the making.
fn is_unfinished<D: Disk>(disk: &mut D) -> Result<bool, DeviceFault>
    ensures read { IsOnlyRead D.Disk disk.old disk.new (is_err result) }
    ensures exact { IfOk result
        (λ found. D.is_honest disk.new → found ≡ is_unfinished (D.content disk.old)) }
{
    if disk.size() < FRONT {
        return Ok(disk.size() == 0);
    }
    let mut front = [0; FRONT];
    disk.read(0, &mut front)?;
    Ok(is_marked(&front) || is_unnamed(&front))
}

/// Whether a session is that of a program that hasn't begun.
fn is_at_start<D: Disk>(session: &Session<D>) -> bool
    ensures { IsTrue result
        ↔ ((session.now.acknowledged ≡ 0) × (session.now.progress.generation ≡ 1)) }
{
    session.acknowledged() == 0 && session.generation() == 1
}

/// That a disk holds no program that hasn't begun, where it was seen that nothing is recovered from it.
fn no_start(fault: RecoverFault) -> Result<bool, RecoverFault>
    ensures { IfOk result (λ found. (found ≡ false) × IsOfContent fault) }
{
    match fault {
        RecoverFault::Device | RecoverFault::OutOfMemory => Err(fault),
        RecoverFault::NotFormatted | RecoverFault::Version | RecoverFault::Damaged => Ok(false),
    }
}

/// Whether the program of a disk hasn't begun.
fn has_not_begun<D: Disk>(alloc: Global, disk: D) -> Looked<D>
    ensures same { IsSameDisk D.Disk disk result.disk }
    ensures found { IfOk result.is_in_making
        (λ found. D.is_honest result.disk → (IsTrue found ↔ HasNotBegun (D.content disk))) }
{
    match recover(alloc, disk) {
        Ok(session) => {
            let found = is_at_start(&session);
            Looked {
                disk: session.into_disk(),
                is_in_making: Ok(found),
            }
        }
        Err(unrecovered) => {
            let is_in_making = no_start(unrecovered.fault);
            Looked {
                disk: unrecovered.disk,
                is_in_making,
            }
        }
    }
}

/// Whether a file is a disk in the making.
pub(crate) fn look_at_leftover<D: Disk>(alloc: Global, disk: D) -> Looked<D>
    ensures { IfOk result.is_in_making
        (λ found. D.is_honest result.disk → (IsTrue found ↔ IsInMaking (D.content disk))) }
{
    let mut disk = disk;
    match is_unfinished(&mut disk) {
        Ok(true) => Looked {
            disk,
            is_in_making: Ok(true),
        },
        Ok(false) => has_not_begun(alloc, disk),
        Err(_) => Looked {
            disk,
            is_in_making: Err(RecoverFault::Device),
        },
    }
}

/// Whether a block has nothing but zeros.
fn is_zero(block: &[u8]) -> bool
    ensures { result ≡ is_zero block.now }
{
    block.iter().all(|byte| *byte == 0)
}

/// Whether that many bytes from the offset `at` on are nothing but zeros.
fn has_zeros<D: Disk>(disk: &mut D, at: usize, count: usize) -> Result<bool, DeviceFault>
    requires inside { at + count ≤ D.size disk.old }
    requires few { count ≤ 4096 }
    ensures read { IsOnlyRead D.Disk disk.old disk.new (is_err result) }
    ensures exact { IfOk result (λ found. D.is_honest disk.new
        → found ≡ is_zero (take count (drop at (D.content disk.old)))) }
{
    let mut block = [0; BLOCK];
    disk.read(at, &mut block[..count])?;
    Ok(is_zero(&block[..count]))
}

/// Whether the first bytes of a file, that many at most, are nothing but zeros.
pub(crate) fn is_blank<D: Disk>(disk: &mut D, size: usize) -> Result<bool, DeviceFault>
    ensures read { IsOnlyRead D.Disk disk.old disk.new (is_err result) }
    ensures exact { IfOk result
        (λ found. D.is_honest disk.new → found ≡ is_zero (take size (D.content disk.old))) }
{
    let end = disk.size().min(size);
    let mut at = 0;
    while at < end {
        let count = (end - at).min(BLOCK);
        if !has_zeros(disk, at, count)? {
            return Ok(false);
        }
        at += count;
    }
    Ok(true)
}

/// Whether a file is a disk, by its open gate and its name. It is as long as the smallest disk then.
fn has_disk<D: Disk>(disk: &mut D) -> Result<bool, DeviceFault>
    ensures read { IsOnlyRead D.Disk disk.old disk.new (is_err result) }
    ensures exact { IfOk result
        (λ found. D.is_honest disk.new → found ≡ has_disk (D.content disk.old)) }
{
    if disk.size() < SMALLEST_DISK {
        return Ok(false);
    }
    let mut front = [0; FRONT];
    disk.read(0, &mut front)?;
    Ok(front[0] == OPEN && number_64(&front, FIELDS_AT) == NAME)
}

/// Whether a file is free to be written over.
fn is_free<D: Disk>(disk: &mut D, size: usize) -> Result<bool, DeviceFault>
    ensures read { IsOnlyRead D.Disk disk.old disk.new (is_err result) }
    ensures exact { IfOk result
        (λ found. D.is_honest disk.new → found ≡ is_free size (D.content disk.old)) }
{
    if is_unfinished(disk)? {
        return Ok(true);
    }
    is_blank(disk, size)
}

/// What a file is that is to become a disk of that many bytes.
pub(crate) fn kind_of<D: Disk>(disk: &mut D, size: usize) -> Result<FileKind, DeviceFault>
    ensures read { IsOnlyRead D.Disk disk.old disk.new (is_err result) }
    ensures exact { IfOk result
        (λ kind. D.is_honest disk.new → kind ≡ kind_of size (D.content disk.old)) }
{
    if has_disk(disk)? {
        return Ok(FileKind::Disk);
    }
    if is_free(disk, size)? {
        Ok(FileKind::Free)
    } else {
        Ok(FileKind::Foreign)
    }
}
