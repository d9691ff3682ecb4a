//! Filling a file with zero bytes.
ghost use Rattle.std.specs.Prelude.{◌≡◌, ◌≤◌, ◌<◌, ◌+◌, ℕ, ⊤, false, length, is_err, slice_index, IfOk, OnOk};
ghost use Rattle.ckrt_disk.specs.Disk.{IsWithin};
ghost use Rattle.ckrt_disk.specs.Frame.{AtAnyMoment, IsOnlyRead, MayBeLeft, Nowhere, WritesWithin};
ghost use Rattle.ckrt_stored.specs.Layout.{is_open};
ghost use Rattle.ckrt_stored.specs.Filling.{FillsAt, IsBegun, IsClosed, IsFilled, IsZeroFrom, WritesOnly, block, filled_byte, smallest_disk};

use ckrt_disk::{DeviceFault, Disk, write_part, write_synced};
use ckrt_journal::OPEN;

/// The bytes of the smallest disk, of 16 pages and journals of 4,096 bytes.
pub const SMALLEST_DISK: usize = 348_160;

/// How many bytes are written at a time, at most. The first of these blocks has the gate of a disk.
const BLOCK: usize = 4_096;

/// How a file begins that is to be a disk: its gate is closed, and "CKRTMAKE" stands where the format puts the name of a disk.
const FRONT: [u8; 16] = [0, 0, 0, 0, 0, 0, 0, 0, 67, 75, 82, 84, 77, 65, 75, 69];

/// The first block of a file that is to be a disk.
fn first_block() -> [u8; BLOCK]
    ensures length { length result ≡ block }
    ensures bytes { (i : ℕ) → slice_index result i ≡ filled_byte i }
{
    let mut first = [0; BLOCK];
    first[..FRONT.len()].copy_from_slice(&FRONT);
    first
}

/// Writes that many zero bytes from the offset `at` on.
fn write_zeros<D: Disk>(disk: &mut D, at: usize, count: usize) -> Result<(), DeviceFault>
    requires inside { at + count ≤ D.size disk.old }
    requires few { count ≤ block }
    ensures within { WritesWithin D.Disk (IsWithin at count) 1 disk.old disk.new (is_err result) }
    ensures zeros { OnOk result (D.is_honest disk.new → (i : ℕ) → IsWithin at count i
        → slice_index (D.content disk.new) i ≡ 0) }
{
    let zeros = [0; BLOCK];
    write_part(disk, at, &zeros[..count])
}

/// Fills the first block, durably.
fn begin<D: Disk>(disk: &mut D) -> Result<(), DeviceFault>
    ensures within { WritesWithin D.Disk (λ i. i < block) 2 disk.old disk.new (is_err result) }
    ensures filled { OnOk result (D.is_honest disk.new → (i : ℕ) → i < block
        → i < D.size disk.new → slice_index (D.content disk.new) i ≡ filled_byte i) }
    ensures closed { OnOk result (D.is_honest disk.new → is_open (D.content disk.new) ≡ false) }
    ensures nothing_pending { OnOk result
        (D.is_honest disk.new → (i : ℕ) → ¬ D.pending disk.new i) }
{
    let first = first_block();
    let count = disk.size().min(BLOCK);
    write_synced(disk, 0, &first[..count])
}

/// Whether the gate is open.
fn has_open_gate<D: Disk>(disk: &mut D) -> Result<bool, DeviceFault>
    requires { 1 ≤ D.size disk.old }
    ensures read { IsOnlyRead D.Disk disk.old disk.new (is_err result) }
    ensures exact { IfOk result
        (λ found. D.is_honest disk.new → found ≡ is_open (D.content disk.old)) }
{
    let mut gate = [0];
    disk.read(0, &mut gate)?;
    Ok(gate[0] == OPEN)
}

/// Fills from one offset on.
fn fill<D: Disk>(disk: &mut D, from: usize) -> Result<(), DeviceFault>
    ensures within { WritesOnly D.Disk (λ i. from ≤ i) disk.old disk.new result }
    ensures zeros { OnOk result (D.is_honest disk.new → IsZeroFrom from (D.content disk.new)) }
{
    let mut at = from;
    while at < disk.size() {
        let count = (disk.size() - at).min(BLOCK);
        write_zeros(disk, at, count)?;
        at += count;
    }
    Ok(())
}

/// Makes a closed gate durable, as it stands.
fn settle_gate<D: Disk>(disk: &mut D) -> Result<(), DeviceFault>
    requires { 1 ≤ D.size disk.old }
    ensures within { WritesOnly D.Disk Nowhere disk.old disk.new result }
    ensures any_moment { AtAnyMoment D.Disk disk.old disk.new (MayBeLeft D.Disk disk.old) }
    ensures content { OnOk result (D.is_honest disk.new → D.content disk.new ≡ D.content disk.old) }
    ensures durable { OnOk result (D.is_honest disk.new → is_open (D.content disk.old) ≡ false
        → (i : ℕ) → ¬ D.pending disk.new i) }
{
    if has_open_gate(disk)? {
        return Ok(());
    }
    disk.sync()
}

/// Fills all of a file that is shorter than any disk: its first block first, and durably.
fn fill_whole<D: Disk>(disk: &mut D) -> Result<(), DeviceFault>
    ensures within { WritesOnly D.Disk (λ _. ⊤) disk.old disk.new result }
    ensures filled { OnOk result (D.is_honest disk.new → IsFilled 0 (D.content disk.new)) }
    ensures begun { AtAnyMoment D.Disk disk.old disk.new (IsBegun D.Disk disk.old) }
{
    begin(disk)?;
    fill(disk, BLOCK)
}

/// Fills a file that is long enough for a disk after its end, with its gate looked at before.
fn fill_behind<D: Disk>(disk: &mut D, length: usize) -> Result<(), DeviceFault>
    requires some { 1 ≤ length }
    requires room { length ≤ D.size disk.old }
    ensures within { WritesOnly D.Disk (λ i. length ≤ i) disk.old disk.new result }
    ensures zeros { OnOk result (D.is_honest disk.new → IsZeroFrom length (D.content disk.new)) }
    ensures closed { is_open (D.content disk.old) ≡ false
        → AtAnyMoment D.Disk disk.old disk.new (IsClosed D.Disk disk.old) }
{
    settle_gate(disk)?;
    fill(disk, length)
}

/// Fills a file of `length` bytes with zeros up to the size of its disk. One that is shorter than any disk is filled from its
/// start: the first block, then a sync, and then the rest, so that no stop makes of it what looks formatted. That block tells that
/// the file is in the making: "CKRTMAKE" stands in it where formatting writes over it. Of any other file the gate is read first, and
/// synced as it stands where it is closed; nothing before its end is written.
pub fn fill_up<D: Disk>(disk: &mut D, length: usize) -> Result<(), DeviceFault>
    requires { length ≤ D.size disk.old }
    ensures within { WritesOnly D.Disk (FillsAt length) disk.old disk.new result }
    ensures filled { OnOk result (D.is_honest disk.new → IsFilled length (D.content disk.new)) }
    ensures begun { length < smallest_disk
        → AtAnyMoment D.Disk disk.old disk.new (IsBegun D.Disk disk.old) }
    ensures closed { smallest_disk ≤ length → is_open (D.content disk.old) ≡ false
        → AtAnyMoment D.Disk disk.old disk.new (IsClosed D.Disk disk.old) }
{
    if length < SMALLEST_DISK {
        fill_whole(disk)
    } else {
        fill_behind(disk, length)
    }
}
