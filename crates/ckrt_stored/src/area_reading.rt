//! How an area is read: its tables, which are decoded, and its memory. Nothing here writes or syncs.
ghost use Rattle.std.specs.Prelude.{◌≡◌, ◌≢◌, ◌≤◌, ◌⊎◌, Err, IfOk, IfErr, length, true};
ghost use Rattle.ckrt_disk.specs.Frame.{IsOnlyRead};
ghost use Rattle.ckrt_calls.specs.Output.{HELD_LIMIT};
ghost use Rattle.ckrt_stored.specs.declared.area_fault.AreaFault.TheVariants.{Damaged, Device, GenerationsUsed, OutOfMemory, Version};
ghost use Rattle.ckrt_stored.specs.Answers.{is_device};
ghost use Rattle.ckrt_stored.specs.Areas.{IsPicked};
ghost use Rattle.ckrt_memory.specs.Marks.{IsAllClean};
ghost use Rattle.ckrt_stored.specs.Holds.{BothStand, GivesPagesThatStand};
ghost use Rattle.ckrt_stored.specs.Layout.{is_valid, memory_of, memory_size, size_needed, tables_of};
ghost use Rattle.ckrt_stored.specs.Read.{CanBeSavedIn, ReadsArea};

use crate::area::Area;
use crate::area_fault::AreaFault;
use crate::config::Config;
use ckrt_calls::Tables;
use ckrt_disk::Disk;
use ckrt_memory::Memory;
use ckrt_tables::{Held, decode_tables};
use std::alloc::Global;

/// The bytes of the tables and the held output, as many as the area's header says.
fn read_table_bytes<D: Disk>(
    alloc: Global,
    disk: &mut D,
    config: &Config,
    area: &Area,
) -> Result<Vec<u8>, AreaFault>
    requires valid { is_valid config.now ≡ true }
    requires disk { size_needed config.now ≤ D.size disk.old }
    requires picked { IsPicked area.now }
    ensures exact { D.is_honest disk.new
        → IfOk result (λ bytes. bytes.items ≡ tables_of config.now area.now (D.content disk.old)) }
    ensures errors { IfErr result (λ e. (e ≡ Device) ⊎ (e ≡ OutOfMemory)) }
    ensures read { IsOnlyRead D.Disk disk.old disk.new (is_device result) }
{
    let mut bytes = vec![in alloc; 0; area.header.tables as usize]?;
    disk.read(config.tables_at(area.index), &mut bytes)?;
    Ok(bytes)
}

/// The guest's memory. It stands in the area as it is, so it is clean for that.
fn read_memory<D: Disk>(
    alloc: Global,
    disk: &mut D,
    config: &Config,
    area: usize,
) -> Result<Memory, AreaFault>
    requires valid { is_valid config.now ≡ true }
    requires room { size_needed config.now ≤ D.size disk.old }
    requires area { area ≤ 1 }
    ensures exact { D.is_honest disk.new
        → IfOk result (λ m. m.bytes ≡ memory_of config.now area (D.content disk.old)) }
    ensures size { IfOk result (λ m. length m.bytes ≡ memory_size config.now) }
    ensures pages { D.is_honest disk.new
        → IfOk result (λ m. BothStand config.now m (D.content disk.old)) }
    ensures clean { IfOk result (λ m. IsAllClean area m) }
    ensures errors { IfErr result (λ e. (e ≡ Device) ⊎ (e ≡ OutOfMemory)) }
    ensures read { IsOnlyRead D.Disk disk.old disk.new (is_device result) }
{
    let mut bytes = vec![in alloc; 0; config.memory_size()]?;
    disk.read(config.memory_at(area), &mut bytes)?;
    let mut memory = Memory::from_bytes(alloc, bytes)?;
    memory.clean(area);
    Ok(memory)
}

/// Reads the state that an area holds: memory, tables and held output. `Damaged` where the bytes of its tables are the
/// encoding of no state that can be saved, for as many harts as the configuration has; `Device` where the disk failed a
/// read; `OutOfMemory` where a growth of memory was refused. The memory is clean for the area that it stands in, and dirty
/// for the other one. It writes and syncs nothing. The ring of held output has room for [`HELD_LIMIT`] bytes.
///
/// [`HELD_LIMIT`]: ckrt_tables::HELD_LIMIT
pub fn read_area<D: Disk>(
    alloc: Global,
    disk: &mut D,
    config: &Config,
    area: &Area,
) -> Result<(Memory, Tables, Held), AreaFault>
    requires valid { is_valid config.now ≡ true }
    requires disk { size_needed config.now ≤ D.size disk.old }
    requires picked { IsPicked area.now }
    ensures read { IsOnlyRead D.Disk disk.old disk.new (is_device result) }
    ensures exact { D.is_honest disk.new
        → ReadsArea config.now area.now (D.content disk.old) result }
    ensures savable { IfOk result (λ r. CanBeSavedIn config.now area.now r.1 r.2.items) }
    ensures memory { IfOk result (λ r. length r.0.bytes ≡ memory_size config.now) }
    ensures pages { GivesPagesThatStand D.Disk config.now disk.old disk.new (λ r. r.0) result }
    ensures clean { IfOk result (λ r. IsAllClean area.now.index r.0) }
    ensures held { IfOk result (λ r. r.2.capacity ≡ HELD_LIMIT) }
    ensures no_other { (result ≢ Err GenerationsUsed) × (result ≢ Err Version) }
{
    let bytes = read_table_bytes(alloc, disk, config, area)?;
    // tables are large: `?` would move them three times more, and the value of the match once more
    match decode_tables(alloc, area.header.version, &bytes, config.harts as usize) {
        Ok(Some((tables, held))) => {
            let memory = read_memory(alloc, disk, config, area.index)?;
            return Ok((memory, tables, held));
        }
        Ok(None) => return Err(AreaFault::Damaged),
        Err(_) => return Err(AreaFault::OutOfMemory),
    }
}
