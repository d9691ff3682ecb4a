//! Formatting a disk. Its first byte is the superblock's gate, which is opened last: until then a stop leaves a disk that
//! isn't formatted.
ghost use Rattle.std.specs.Prelude.{◌≡◌, ◌≤◌, ◌+◌, ℕ, true, Some, None, length, is_err, IfOk, IfErr, OnOk};
ghost use Rattle.ckrt_disk.specs.Frame.{Nowhere, WritesWithin};
ghost use Rattle.ckrt_stored.specs.declared.fault.FormatFault.TheVariants.{AlreadyFormatted, Device, OutOfMemory};
ghost use Rattle.ckrt_stored.specs.Layout.{is_valid, is_open, memory_size, size_needed};
ghost use Rattle.ckrt_stored.specs.Fields.{BecomesFresh, HasFreshArea, IsFresh, fresh_memory};
ghost use Rattle.ckrt_stored.specs.Format.{format_refusal, ComesBeforeCalls, FormatsBehindGate, FormatsDisk, IsFormatWrite, IsRefusedBy, LeavesFormatting, StaysIfFormatted, TellsFormatted};

use crate::blocks::superblock_fields;
use crate::config::Config;
use crate::fault::FormatFault;
use crate::fields::header_fields;
use crate::fresh::{FRESH_TABLES_SIZE, fresh_tables};
use crate::header::Header;
use crate::layout::FIELDS_AT;
use ckrt_disk::{DeviceFault, Disk, write_part, write_synced};
use ckrt_journal::{CLOSED, OPEN};
use ckrt_tables::AREA_VERSION;
use std::alloc::{AllocError, Global};

impl From<DeviceFault> for FormatFault {
    ghost from_gives = { λ _ e. e ≡ Device };

    fn from(_: DeviceFault) -> FormatFault {
        FormatFault::Device
    }
}

impl From<AllocError> for FormatFault {
    ghost from_gives = { λ _ e. e ≡ OutOfMemory };

    fn from(_: AllocError) -> FormatFault {
        FormatFault::OutOfMemory
    }
}

/// Whether a disk of that many bytes can be formatted so.
fn check(size: usize, config: &Config, image: &[u8]) -> Result<(), FormatFault>
    ensures refused { IfErr result
        (λ fault. format_refusal size config.now image.now ≡ Some fault) }
    ensures ok { OnOk result (format_refusal size config.now image.now ≡ None) }
    ensures valid { OnOk result (is_valid config.now ≡ true) }
    ensures image { OnOk result (length image.now ≤ memory_size config.now) }
    ensures room { OnOk result (size_needed config.now ≤ size) }
{
    if !config.is_valid() {
        return Err(FormatFault::BadConfig);
    }
    if image.len() > config.memory_size() {
        return Err(FormatFault::ImageTooLong);
    }
    if size < config.size_needed() {
        return Err(FormatFault::TooSmall);
    }
    Ok(())
}

/// The guest's memory: the image, and zeros after it.
fn guest_memory(alloc: Global, config: &Config, image: &[u8]) -> Result<Vec<u8>, AllocError>
    requires valid { is_valid config.now ≡ true }
    requires image { length image.now ≤ memory_size config.now }
    ensures bytes { IfOk result (λ memory. memory.items ≡ fresh_memory config.now image.now) }
    ensures size { IfOk result (λ memory. length memory.items ≡ memory_size config.now) }
{
    let size = config.memory_size();
    let mut memory = Vec::with_capacity(alloc, size)?;
    memory.extend_from_slice(image)?;
    memory.resize(size, 0)?;
    Ok(memory)
}

/// Syncs, and looks whether the first gate is open.
fn is_formatted<D: Disk>(disk: &mut D) -> Result<bool, DeviceFault>
    requires { 1 ≤ D.size disk.old }
    ensures within { WritesWithin D.Disk Nowhere 1 disk.old disk.new (is_err result) }
    ensures exact { IfOk result
        (λ found. D.is_honest disk.new → found ≡ is_open (D.content disk.old)) }
    ensures content { OnOk result (D.is_honest disk.new → D.content disk.new ≡ D.content disk.old) }
    ensures nothing_pending { OnOk result
        (D.is_honest disk.new → (i : ℕ) → ¬ D.pending disk.new i) }
    ensures calls { D.calls disk.new ≡ D.calls disk.old + 1 }
{
    disk.sync()?;
    let mut gate = [0];
    disk.read(0, &mut gate)?;
    Ok(gate[0] == OPEN)
}

/// Area 0, open, with this memory and no event.
fn write_area<D: Disk>(disk: &mut D, config: &Config, memory: &[u8]) -> Result<(), DeviceFault>
    requires valid { is_valid config.now ≡ true }
    requires memory { length memory.now ≡ memory_size config.now }
    requires room { size_needed config.now ≤ D.size disk.old }
    ensures within { WritesWithin D.Disk (FormatsBehindGate config.now) 4 disk.old disk.new
        (is_err result) }
    ensures written { OnOk result
        (D.is_honest disk.new → HasFreshArea config.now memory.now (D.content disk.new)) }
{
    let header = header_fields(&Header {
        is_open: true,
        generation: 1,
        count: 0,
        offset: 0,
        tables: FRESH_TABLES_SIZE as u32,
        version: AREA_VERSION,
    });
    let tables = fresh_tables(config);
    write_part(disk, config.area_at(0), &[OPEN])?;
    write_part(disk, config.area_at(0) + FIELDS_AT, header.as_slice())?;
    write_part(disk, config.tables_at(0), tables.as_slice())?;
    write_part(disk, config.memory_at(0), memory)
}

/// No batch in journal 0, area 1 closed, and the superblock's fields, with the note of the image.
fn write_blocks<D: Disk>(disk: &mut D, config: &Config, image: &[u8]) -> Result<(), DeviceFault>
    requires valid { is_valid config.now ≡ true }
    requires room { size_needed config.now ≤ D.size disk.old }
    ensures within { WritesWithin D.Disk (FormatsBehindGate config.now) 3 disk.old disk.new
        (is_err result) }
    ensures written { OnOk result (D.is_honest disk.new
        → BecomesFresh config.now image.now (D.content disk.old) (D.content disk.new)) }
{
    let superblock = superblock_fields(config, image);
    write_part(disk, config.journal_at(0), &[CLOSED])?;
    write_part(disk, config.area_at(1), &[CLOSED])?;
    write_part(disk, FIELDS_AT, superblock.as_slice())
}

/// All that a freshly formatted disk has besides its first gate, durably.
fn write_behind_gate<D: Disk>(
    disk: &mut D,
    config: &Config,
    image: &[u8],
    memory: &[u8],
) -> Result<(), DeviceFault>
    requires valid { is_valid config.now ≡ true }
    requires memory { length memory.now ≡ memory_size config.now }
    requires room { size_needed config.now ≤ D.size disk.old }
    ensures within { WritesWithin D.Disk (FormatsBehindGate config.now) 8 disk.old disk.new
        (is_err result) }
    ensures written { OnOk result
        (D.is_honest disk.new → IsFresh config.now image.now memory.now (D.content disk.new)) }
    ensures nothing_pending { OnOk result
        (D.is_honest disk.new → (i : ℕ) → ¬ D.pending disk.new i) }
{
    write_area(disk, config, memory)?;
    write_blocks(disk, config, image)?;
    disk.sync()
}

/// Formats a disk for a guest's image, which it notes: a program that hasn't begun. The first that applies of these refuses it, and
/// nothing is changed: `BadConfig` where the configuration is out of its ranges, `ImageTooLong` where the image has more
/// bytes than the guest's memory, 4,096·(pages - 1), `TooSmall` where the disk has fewer bytes than the configuration
/// needs, `OutOfMemory` where there was no memory for a copy of the guest's memory. Then it syncs and reads the first
/// byte, and answers `AlreadyFormatted` where that is an open gate, without a write. `Device` comes where the disk failed
/// a call. A stop at any moment leaves what a stop before might have left, a disk that isn't formatted, or one that is; it
/// touches neither the second journal nor the bytes after the size that the configuration needs.
pub fn format<D: Disk>(
    alloc: Global,
    disk: &mut D,
    config: Config,
    image: &[u8],
) -> Result<(), FormatFault>
    ensures any_moment { LeavesFormatting config image.now D.Disk disk.old disk.new }
    ensures within { IsFormatWrite D.Disk config disk.old disk.new result }
    ensures refused { IsRefusedBy (format_refusal (D.size disk.old) config image.now) result }
    ensures unchanged { IfErr result (λ fault. ComesBeforeCalls fault → disk.new ≡ disk.old) }
    ensures already_formatted { TellsFormatted D.Disk disk.old disk.new result }
    ensures stays { StaysIfFormatted D.Disk disk.old disk.new }
    ensures made { OnOk result (FormatsDisk D.Disk config image.now disk.old disk.new) }
{
    check(disk.size(), &config, image)?;
    let memory = guest_memory(alloc, &config, image)?;
    if is_formatted(disk)? {
        return Err(FormatFault::AlreadyFormatted);
    }
    write_behind_gate(disk, &config, image, &memory)?;
    write_synced(disk, 0, &[OPEN])?;
    Ok(())
}
