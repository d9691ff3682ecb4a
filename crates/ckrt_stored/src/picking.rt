//! Which of the two areas is in use.
ghost use Rattle.std.specs.Prelude.{◌≡◌, ◌≢◌, ◌≤◌, ◌<◌, Err, IfOk, is_err, true};
ghost use Rattle.ckrt_disk.specs.Frame.{IsOnlyRead};
ghost use Rattle.ckrt_stored.specs.declared.area_fault.AreaFault.TheVariants.{Device, OutOfMemory};
ghost use Rattle.ckrt_stored.specs.Areas.{area_of, checked_area, newest_area, IsPicked};
ghost use Rattle.ckrt_stored.specs.Layout.{is_valid, size_needed, header_of};
ghost use Rattle.ckrt_stored.specs.Answers.{Agrees, IsReadAs, is_device};

use crate::area::Area;
use crate::area_fault::AreaFault;
use crate::config::Config;
use crate::fields::{HEADER_BYTES, header};
use crate::header::Header;
use crate::layout::COUNT_LIMIT;
use ckrt_disk::{DeviceFault, Disk};
use ckrt_tables::{AREA_VERSION, TABLES_ROOM};

/// The area, where it has a generation, a known version, and fields in their ranges. `Damaged` where it is of generation 0 or a field is
/// out of its range; `Version` where it is of another version than 1 and 2, which is looked at before the other fields.
pub fn checked_area(area: Area) -> Result<Area, AreaFault>
    requires { area.index < 2 }
    ensures exact { Agrees (λ a. a) result (checked_area area) }
    ensures no_device { result ≢ Err Device }
    ensures no_memory { result ≢ Err OutOfMemory }
    ensures picked { IfOk result IsPicked }
{
    let header = area.header;
    if header.generation == 0 {
        return Err(AreaFault::Damaged);
    }
    if header.version != 1 && header.version != AREA_VERSION {
        return Err(AreaFault::Version);
    }
    if header.count >= COUNT_LIMIT
        || header.offset >= COUNT_LIMIT
        || header.tables as usize > TABLES_ROOM
    {
        return Err(AreaFault::Damaged);
    }
    Ok(area)
}

/// The open area, and of two open ones that of the greater generation.
fn newest_area(first: Header, second: Header) -> Result<Area, AreaFault>
    ensures exact { Agrees (λ a. a) result (newest_area first second) }
    ensures no_device { result ≢ Err Device }
    ensures no_memory { result ≢ Err OutOfMemory }
    ensures picked { IfOk result IsPicked }
{
    if !first.is_open && !second.is_open {
        return Err(AreaFault::Damaged);
    }
    if first.is_open && second.is_open && first.generation == second.generation {
        return Err(AreaFault::Damaged);
    }
    let is_first = first.is_open && (!second.is_open || second.generation < first.generation);
    let area = checked_area(if is_first {
        Area {
            index: 0,
            header: first,
        }
    } else {
        Area {
            index: 1,
            header: second,
        }
    })?;
    Ok(area)
}

/// Reads the header of an area, 0 or 1, and writes nothing. It fails where the disk failed the read.
pub fn read_header<D: Disk>(
    disk: &mut D,
    config: &Config,
    area: usize,
) -> Result<Header, DeviceFault>
    requires valid { is_valid config.now ≡ true }
    requires room { size_needed config.now ≤ D.size disk.old }
    requires area { area ≤ 1 }
    ensures exact { D.is_honest disk.new
        → IfOk result (λ h. h ≡ header_of config.now area (D.content disk.old)) }
    ensures read { IsOnlyRead D.Disk disk.old disk.new (is_err result) }
{
    let mut block = [0; HEADER_BYTES];
    disk.read(config.area_at(area), &mut block)?;
    Ok(header(&block))
}

/// Picks the area in use: the open one, and of two open ones that of the greater generation. `Damaged` where none is
/// open, both are of one generation, the picked one is of generation 0, or its count of events or its offset of held
/// output is 2^62 or more or its tables' length above 98,304; `Version` where the picked one is of another version than 1
/// and 2, which is looked at after its generation and before its other fields; `Device` where the disk failed a read. It writes
/// and syncs nothing.
pub fn pick_area<D: Disk>(disk: &mut D, config: &Config) -> Result<Area, AreaFault>
    requires valid { is_valid config.now ≡ true }
    requires room { size_needed config.now ≤ D.size disk.old }
    ensures read { IsOnlyRead D.Disk disk.old disk.new (is_device result) }
    ensures exact { IsReadAs D.Disk disk.old disk.new result (area_of config.now) }
    ensures picked { IfOk result IsPicked }
    ensures memory { result ≢ Err OutOfMemory }
{
    let first = read_header(disk, config, 0)?;
    let second = read_header(disk, config, 1)?;
    newest_area(first, second)
}
