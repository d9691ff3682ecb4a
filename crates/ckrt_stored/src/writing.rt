//! How an area is written: its gate is closed, all after the gate is written and made durable, and then the gate is opened.
ghost use Rattle.std.specs.Prelude.{◌≡◌, ◌≤◌, ◌<◌, ◌+◌, ◌∷◌, [], true, false, length, is_err, IfOk, OnOk};
ghost use Rattle.ckrt_disk.specs.Disk.{IsOverwritten, IsWithin};
ghost use Rattle.ckrt_disk.specs.Frame.{AtAnyMoment, WritesWithin};
ghost use Rattle.ckrt_journal.specs.Chain.{OPEN};
ghost use Rattle.ckrt_memory.specs.Pages.{page_of};
ghost use Rattle.ckrt_tables.specs.declared.encoding.TheConstants.{TABLES_ROOM};
ghost use Rattle.ckrt_stored.specs.Holds.{slot, slot_at, AllPagesStand, CleanPagesStand, CleanPagesStandOn};
ghost use Rattle.ckrt_stored.specs.Layout.{is_valid, is_gate_open, memory_size, size_needed};
ghost use Rattle.ckrt_stored.specs.Write.{calls_of_closing, dirty_pages, other_area, FillsAt, IsClosing, IsDurable, IsFilled, IsOtherAreaWrite, IsRefusedExactly, IsSavedOn, LeavesSaving, PagesAt};

use crate::area_fault::AreaFault;
use crate::config::Config;
use crate::fields::header_fields;
use crate::header::Header;
use crate::layout::FIELDS_AT;
use crate::save_point::SavePoint;
use ckrt_disk::{DeviceFault, Disk, write_part, write_synced};
use ckrt_journal::{CLOSED, OPEN};
use ckrt_memory::Memory;
use ckrt_tables::AREA_VERSION;

/// Closes a gate, where it is open, and says whether it was. A gate that stands closed isn't written: a byte that is written
/// again may be left as any byte by a stop, also as an open gate.
fn close_gate<D: Disk>(disk: &mut D, gate_at: usize) -> Result<bool, DeviceFault>
    requires { gate_at + 1 ≤ D.size disk.old }
    ensures any_moment { IsDurable D.Disk disk.old
        → AtAnyMoment D.Disk disk.old disk.new (IsClosing gate_at (D.content disk.old)) }
    ensures within { WritesWithin D.Disk (IsWithin gate_at 1) (calls_of_closing result) disk.old
        disk.new (is_err result) }
    ensures read { IfOk result (λ was_open.
        D.is_honest disk.new → was_open ≡ is_gate_open gate_at (D.content disk.old)) }
    ensures closed { OnOk result
        (D.is_honest disk.new → is_gate_open gate_at (D.content disk.new) ≡ false) }
    ensures durable { OnOk result
        (D.is_honest disk.new → IsDurable D.Disk disk.old → IsDurable D.Disk disk.new) }
{
    let mut gate = [0];
    disk.read(gate_at, &mut gate)?;
    if gate[0] != OPEN {
        return Ok(false);
    }
    write_synced(disk, gate_at, &[CLOSED])?;
    Ok(true)
}

/// Writes a page of the guest's memory into its slot.
fn write_page<D: Disk>(
    disk: &mut D,
    config: &Config,
    area: usize,
    memory: &Memory,
    page: u32,
) -> Result<(), DeviceFault>
    requires valid { is_valid config.now ≡ true }
    requires room { size_needed config.now ≤ D.size disk.old }
    requires area { area ≤ 1 }
    requires memory { length memory.now.bytes ≡ memory_size config.now }
    requires page { (1 ≤ page) × (page < config.now.pages) }
    ensures within { WritesWithin D.Disk (IsWithin (slot_at config.now area page) 4096) 1 disk.old
        disk.new (is_err result) }
    ensures written { OnOk result (D.is_honest disk.new
        → slot config.now area page (D.content disk.new) ≡ page_of memory.now.bytes page) }
{
    write_part(disk, config.slot_at(area, page), memory.page(page))
}

/// Writes the pages of the guest's memory that are dirty for the area, each into its slot, by rising number.
fn write_pages<D: Disk>(
    disk: &mut D,
    config: &Config,
    area: usize,
    memory: &Memory,
) -> Result<(), DeviceFault>
    requires valid { is_valid config.now ≡ true }
    requires room { size_needed config.now ≤ D.size disk.old }
    requires area { area ≤ 1 }
    requires memory { length memory.now.bytes ≡ memory_size config.now }
    ensures within { WritesWithin D.Disk (PagesAt config.now area)
        (dirty_pages config.now area memory.now) disk.old disk.new (is_err result) }
    ensures written { OnOk result (D.is_honest disk.new
        → CleanPagesStand config.now area memory.now (D.content disk.old)
        → AllPagesStand config.now area memory.now.bytes (D.content disk.new)) }
{
    let mut page = memory.next_dirty(area, 1, config.pages);
    while page < config.pages {
        write_page(disk, config, area, memory, page)?;
        page = memory.next_dirty(area, page + 1, config.pages);
    }
    Ok(())
}

/// Writes all after the gate of an area, and that its journal has no batch, and makes it durable.
fn fill<D: Disk>(
    disk: &mut D,
    config: &Config,
    area: usize,
    header: &Header,
    tables: &[u8],
    memory: &Memory,
) -> Result<(), DeviceFault>
    requires valid { is_valid config.now ≡ true }
    requires room { size_needed config.now ≤ D.size disk.old }
    requires area { area ≤ 1 }
    requires tables { length tables.now ≤ TABLES_ROOM }
    requires memory { length memory.now.bytes ≡ memory_size config.now }
    ensures within { WritesWithin D.Disk (FillsAt config.now area)
        (dirty_pages config.now area memory.now + 4) disk.old disk.new (is_err result) }
    ensures filled { OnOk result (D.is_honest disk.new
        → CleanPagesStand config.now area memory.now (D.content disk.old)
        → IsFilled config.now area header.now tables.now memory.now.bytes
        (D.content disk.new)) }
    ensures durable { OnOk result (D.is_honest disk.new → IsDurable D.Disk disk.new) }
{
    write_part(disk, config.journal_at(area), &[CLOSED])?;
    write_part(disk, config.tables_at(area), tables)?;
    write_pages(disk, config, area, memory)?;
    let fields = header_fields(header);
    write_synced(disk, config.area_at(area) + FIELDS_AT, fields.as_slice())
}

/// Opens a gate.
fn open_gate<D: Disk>(disk: &mut D, gate_at: usize) -> Result<(), DeviceFault>
    requires { gate_at + 1 ≤ D.size disk.old }
    ensures within { WritesWithin D.Disk (IsWithin gate_at 1) 2 disk.old disk.new (is_err result) }
    ensures written { OnOk result (D.is_honest disk.new
        → IsOverwritten (D.content disk.old) gate_at (OPEN ∷ []) (D.content disk.new)) }
    ensures durable { OnOk result (D.is_honest disk.new → IsDurable D.Disk disk.new) }
{
    write_synced(disk, gate_at, &[OPEN])
}

/// Saves a program's state in the area that isn't in use, and makes it durable: its tables and held output, encoded, at
/// most 98,304 bytes, and its memory of as many pages as the configuration has. Of the memory it writes the pages that are
/// dirty for that area; the clean ones have to stand in their slots there already. `GenerationsUsed`, exactly where the
/// generation in use is 2^64 - 1, before any call of the disk; else `Device` where the disk failed a call. A stop at any
/// moment leaves what a stop before might have left; or the gate of the area was open and only it has changed; or the gate
/// is closed, and all but the area and the first byte of its journal is as before; or the area holds the state whole, its
/// journal has no batch, and all else is as before. That needs a disk on which nothing is pending, since what is pending
/// may be left as any byte, the area's gate too. After Ok the last of these stands, durably. It takes no memory.
pub fn write_area<D: Disk>(
    disk: &mut D,
    config: &Config,
    point: &SavePoint,
    tables: &[u8],
    memory: &Memory,
) -> Result<(), AreaFault>
    requires valid { is_valid config.now ≡ true }
    requires room { size_needed config.now ≤ D.size disk.old }
    requires area { point.now.area ≤ 1 }
    requires tables { length tables.now ≤ TABLES_ROOM }
    requires memory { length memory.now.bytes ≡ memory_size config.now }
    requires clean { CleanPagesStandOn D.Disk config.now (other_area point.now) memory.now
        disk.old }
    ensures any_moment { LeavesSaving D.Disk config.now point.now tables.now memory.now disk.old
        disk.new }
    ensures write { IsOtherAreaWrite D.Disk config.now point.now memory.now disk.old disk.new
        result }
    ensures refused { IsRefusedExactly point.now disk.old disk.new result }
    ensures saved { OnOk result
        (IsSavedOn D.Disk config.now point.now tables.now memory.now disk.old disk.new) }
    ensures durable { OnOk result (D.is_honest disk.new → IsDurable D.Disk disk.new) }
{
    if point.generation == u64::MAX {
        return Err(AreaFault::GenerationsUsed);
    }
    let area = 1 - point.area;
    let header = Header {
        is_open: true,
        generation: point.generation + 1,
        count: point.count,
        offset: point.offset,
        tables: tables.len() as u32,
        version: AREA_VERSION,
    };
    let gate_at = config.area_at(area);
    close_gate(disk, gate_at)?;
    fill(disk, config, area, &header, tables, memory)?;
    open_gate(disk, gate_at)?;
    Ok(())
}
