//! Areas of a disk: what a checkpoint writes and what each stop of it leaves, which area is picked, and what is read of it.
//!
//! With 16 pages, 1 hart and a journal of 4,096 bytes an area has 102,400 + 4,096 * 16 = 167,936 bytes. So the areas lie
//! at 4,096 and 172,032 and the journals at 339,968 and 344,064, as the format has it.
ghost use Rattle.std.specs.Prelude.{IsTrue, ◌≡◌, ◌≤◌, true};
ghost use Rattle.ckrt_memory.specs.Marks.{IsAllDirty};
ghost use Rattle.ckrt_stored.specs.Layout.{is_valid, size_needed};

use crate::expect::{
    copied, expect_bytes, expect_eq, expect_eq_at, expect_text, filled, lay, memory_disk,
    stopping_disk,
};
use crate::small_disk::{SMALL, formatted};
use crate::{FILLS, IMAGE, SIZE};
use ckrt_calls::Tables;
use ckrt_disk::Disk;
use ckrt_memory::Memory;
use ckrt_stored::{Area, AreaFault, SavePoint, pick_area, read_area, write_area};
use ckrt_tables::{HELD_LIMIT, Held, TABLES_ROOM, encode_tables};
use std::process::Abort;

/// Where area 1 begins, and its journal.
const AREA_1: usize = 172_032;

const JOURNAL_1: usize = 344_064;

/// The calls of a checkpoint into an area whose gate is closed, where no page is clean for it: writes of the journal's first
/// gate, the tables, 15 pages and the header's fields, a sync, the gate, a sync. And how many of them come before the gate.
const CALLS: u64 = 21;

const CALLS_BEFORE_GATE: u64 = 19;

/// After 5 events, with 7 bytes of output confirmed, in area 0 as it was formatted.
const POINT: SavePoint = SavePoint {
    area: 0,
    generation: 1,
    count: 5,
    offset: 7,
};

/// Three bytes in place of tables.
const TABLES: [u8; 3] = [1, 2, 3];

/// The header's fields of that: generation 2, 5 events, offset 7, 3 bytes of tables, version 2.
const FIELDS: [u8; 32] = [
    2, 0, 0, 0, 0, 0, 0, 0, 5, 0, 0, 0, 0, 0, 0, 0, 7, 0, 0, 0, 0, 0, 0, 0, 3, 0, 0, 0, 2, 0, 0, 0,
];

/// Whether a disk is large enough for the small configuration, which is in its ranges.
fn is_on<D: Disk>(disk: &D) -> bool
    ensures { IsTrue result → (is_valid SMALL ≡ true) × (size_needed SMALL ≤ D.size disk.now) }
{
    SMALL.is_valid() && SMALL.size_needed() <= disk.size()
}

/// A memory of 16 pages with these bytes at its beginning, dirty everywhere.
fn memory<R: Abort + AllocGlobal>(rt: &R, image: &[u8]) -> Memory
    ensures { IsAllDirty result }
{
    Memory::new(rt.alloc(), 16, image).expect(rt, "memory for a guest")
}

/// What writing an area answers. All pages are written.
fn written<R: Abort, D: Disk>(
    rt: &R,
    disk: &mut D,
    point: &SavePoint,
    tables: &[u8],
    memory: &Memory,
) -> Result<(), AreaFault>
    requires { IsAllDirty memory.now }
{
    assert!(rt; is_on(disk));
    assert!(rt; point.area <= 1 && tables.len() <= TABLES_ROOM);
    assert!(rt; memory.pages() == SMALL.pages);
    write_area(disk, &SMALL, point, tables, memory)
}

/// A disk of bytes EE, with the gate of area 1 as given.
fn start<R: Abort + AllocGlobal>(rt: &R, gate: u8) -> Vec<u8> {
    let mut image = filled(rt, 0xee, SIZE);
    lay(rt, &mut image, AREA_1, &[gate]);
    image
}

/// The same with the state of `POINT` and `TABLES` in area 1.
fn saved<R: Abort + AllocGlobal>(rt: &R) -> Vec<u8> {
    let mut image = start(rt, 0xa5);
    lay(rt, &mut image, AREA_1 + 8, &FIELDS);
    lay(rt, &mut image, AREA_1 + 4_096, &TABLES);
    // Pages 1 to 15, of which the first begins with the guest's image.
    let pages = filled(rt, 0, 15 * 4_096);
    lay(rt, &mut image, AREA_1 + 102_400 + 4_096, pages.as_slice());
    lay(rt, &mut image, AREA_1 + 102_400 + 4_096, &IMAGE);
    lay(rt, &mut image, JOURNAL_1, &[0]);
    image
}

/// A checkpoint onto the disk with that gate of area 1 makes that many calls, and leaves what the format says.
fn expect_saved<R: Abort + AllocGlobal>(rt: &R, gate: u8, calls: u64) {
    let mut disk = stopping_disk(rt, start(rt, gate), 0, &[]);
    let memory = memory(rt, &IMAGE);
    expect_eq(rt, written(rt, &mut disk, &POINT, &TABLES, &memory), Ok(()));
    expect_eq(rt, disk.calls(), calls);
    expect_bytes(rt, disk.into_image().as_slice(), saved(rt).as_slice());
}

#[test]
fn a_checkpoint_writes_what_the_format_says(rt: HostRuntime) {
    expect_saved(&rt, 0, CALLS);
    expect_saved(&rt, 0xee, CALLS);
    // Two calls more where the gate was open.
    expect_saved(&rt, 0xa5, CALLS + 2);
}

/// What a stop at a call leaves of a checkpoint.
fn stopped<R: Abort + AllocGlobal>(rt: &R, gate: u8, at_call: u64, fill: &[u8]) -> Vec<u8> {
    let mut disk = stopping_disk(rt, start(rt, gate), at_call, fill);
    let memory = memory(rt, &IMAGE);
    let answer = written(rt, &mut disk, &POINT, &TABLES, &memory);
    expect_eq_at(rt, at_call, answer, Err(AreaFault::Device));
    disk.into_image()
}

/// Two images are the same but for the bytes from an offset on.
fn expect_same_but<R: Abort + AllocGlobal>(
    rt: &R,
    got: &[u8],
    want: &[u8],
    at: usize,
    size: usize,
) {
    let mut masked = copied(rt, got);
    let end = at.saturating_add(size);
    assert!(rt; end <= got.len() && end <= want.len());
    lay(rt, &mut masked, at, &want[at..end]);
    expect_bytes(rt, masked.as_slice(), want);
}

/// While the gate is closed: the gate alone has changed.
fn expect_closing<R: Abort + AllocGlobal>(rt: &R, at_call: u64, fill: &[u8]) {
    let left = stopped(rt, 0xa5, at_call, fill);
    expect_same_but(rt, left.as_slice(), start(rt, 0xa5).as_slice(), AREA_1, 1);
}

/// The gate of area 1 in an image.
fn gate<R: Abort>(rt: &R, image: &[u8]) -> u8 {
    assert!(rt; AREA_1 < image.len());
    image[AREA_1]
}

/// Before the gate is opened: it is closed, and all but the area and the first byte of its journal is as before.
fn expect_filling<R: Abort + AllocGlobal>(rt: &R, before: u8, at_call: u64, fill: &[u8]) {
    let mut left = stopped(rt, before, at_call, fill);
    assert!(rt; gate(rt, left.as_slice()) != 0xa5);
    lay(rt, &mut left, JOURNAL_1, &[0xee]);
    let start = start(rt, before);
    expect_same_but(rt, left.as_slice(), start.as_slice(), AREA_1, 167_936);
}

/// In the gate's write or its sync: the area holds the state, and its gate is what the stop made of it.
fn expect_opening<R: Abort + AllocGlobal>(rt: &R, before: u8, at_call: u64, fill: &[u8], want: u8) {
    let left = stopped(rt, before, at_call, fill);
    expect_eq_at(rt, at_call, gate(rt, left.as_slice()), want);
    expect_same_but(rt, left.as_slice(), saved(rt).as_slice(), AREA_1, 1);
}

/// Each stop of a checkpoint of which that many calls come before the filling.
fn expect_stops<R: Abort + AllocGlobal>(rt: &R, before: u8, closing: u64, fill: &[u8]) {
    for at_call in 0..closing {
        expect_closing(rt, at_call.saturating_add(1), fill);
    }
    let opening = closing.saturating_add(CALLS_BEFORE_GATE);
    for at_call in closing..opening {
        expect_filling(rt, before, at_call.saturating_add(1), fill);
    }
    let want = match fill.first() {
        Some(byte) => *byte,
        None => 0xa5,
    };
    for at_call in opening..opening.saturating_add(2) {
        expect_opening(rt, before, at_call.saturating_add(1), fill, want);
    }
}

#[test]
fn every_call_of_a_checkpoint_is_stopped(rt: HostRuntime) {
    for fill in FILLS {
        expect_stops(&rt, 0, 0, fill);
        expect_stops(&rt, 0xa5, 2, fill);
    }
}

/// A state is saved from area 1 on that is of this generation, and the calls that it takes.
fn expect_generation<R: Abort + AllocGlobal>(
    rt: &R,
    generation: u64,
    want: Result<(), AreaFault>,
    calls: u64,
) {
    let mut disk = stopping_disk(rt, filled(rt, 0, SIZE), 0, &[]);
    let point = SavePoint {
        area: 1,
        generation,
        count: 0,
        offset: 0,
    };
    let memory = memory(rt, &IMAGE);
    expect_eq(rt, written(rt, &mut disk, &point, &TABLES, &memory), want);
    expect_eq(rt, disk.calls(), calls);
}

#[test]
fn the_last_generation_has_none_behind_it(rt: HostRuntime) {
    expect_generation(&rt, u64::MAX - 1, Ok(()), CALLS);
    expect_generation(&rt, u64::MAX, Err(AreaFault::GenerationsUsed), 0);
}

/// The area in use.
fn picked<R: Abort, D: Disk>(rt: &R, disk: &mut D) -> Result<Area, AreaFault> {
    assert!(rt; is_on(disk));
    pick_area(disk, &SMALL)
}

/// Two headers with these gates and generations, of this version, and what is picked: the area and its generation.
fn expect_picked_of<R: Abort + AllocGlobal>(
    rt: &R,
    version: u8,
    first: (u8, u8),
    second: (u8, u8),
    want: Result<(usize, u64), AreaFault>,
) {
    let mut image = filled(rt, 0, SIZE);
    lay(rt, &mut image, 4_096, &[first.0]);
    lay(rt, &mut image, 4_096 + 8, &[first.1]);
    lay(rt, &mut image, 4_096 + 36, &[version]);
    lay(rt, &mut image, AREA_1, &[second.0]);
    lay(rt, &mut image, AREA_1 + 8, &[second.1]);
    lay(rt, &mut image, AREA_1 + 36, &[version]);
    let got = match picked(rt, &mut memory_disk(rt, image)) {
        Ok(area) => Ok((area.index, area.header.generation)),
        Err(fault) => Err(fault),
    };
    expect_eq(rt, got, want);
}

/// The same of version 2.
fn expect_picked<R: Abort + AllocGlobal>(
    rt: &R,
    first: (u8, u8),
    second: (u8, u8),
    want: Result<(usize, u64), AreaFault>,
) {
    expect_picked_of(rt, 2, first, second, want);
}

#[test]
fn areas_of_two_versions_are_picked(rt: HostRuntime) {
    expect_picked_of(&rt, 0, (0xa5, 1), (0, 9), Err(AreaFault::Version));
    expect_picked_of(&rt, 1, (0xa5, 1), (0, 9), Ok((0, 1)));
    expect_picked_of(&rt, 2, (0, 9), (0xa5, 1), Ok((1, 1)));
    expect_picked_of(&rt, 3, (0xa5, 1), (0, 9), Err(AreaFault::Version));
}

#[test]
fn the_open_area_of_the_greater_generation_is_picked(rt: HostRuntime) {
    expect_picked(&rt, (0xa5, 1), (0, 9), Ok((0, 1)));
    expect_picked(&rt, (0, 9), (0xa5, 1), Ok((1, 1)));
    expect_picked(&rt, (0xa5, 3), (0xa5, 2), Ok((0, 3)));
    expect_picked(&rt, (0xa5, 2), (0xa5, 3), Ok((1, 3)));
    expect_picked(&rt, (0xa5, 2), (0xa5, 2), Err(AreaFault::Damaged));
    expect_picked(&rt, (0xee, 2), (0, 3), Err(AreaFault::Damaged));
    expect_picked(&rt, (0xa5, 0), (0, 3), Err(AreaFault::Damaged));
}

/// Tables and held output, encoded.
fn encoded_parts<R: Abort + AllocGlobal>(rt: &R, tables: &Tables, held: &Held) -> Vec<u8> {
    let mut room = filled(rt, 0, TABLES_ROOM);
    assert!(rt; room.len() == TABLES_ROOM);
    assert!(rt; tables.is_well_formed() && held.len() <= HELD_LIMIT);
    let length = encode_tables(tables, held, room.as_mut_slice());
    room.truncate(length);
    room
}

/// The tables of a program that hasn't begun and this held output, encoded.
fn encoded<R: Abort + AllocGlobal>(rt: &R, output: &[u8]) -> Vec<u8> {
    let tables = Tables::new(rt.alloc(), 16, 1).expect(rt, "memory for tables");
    let mut held = Held::with_capacity(rt.alloc(), HELD_LIMIT).expect(rt, "memory for output");
    assert!(rt; output.len() <= HELD_LIMIT);
    held.fill_from_slice(output);
    encoded_parts(rt, &tables, &held)
}

/// What the area in use has, which is this one.
fn read<R: Abort + AllocGlobal, D: Disk>(
    rt: &R,
    disk: &mut D,
    index: usize,
) -> (Memory, Tables, Held) {
    assert!(rt; is_on(disk));
    let area = match pick_area(disk, &SMALL) {
        Ok(area) => area,
        Err(fault) => panic!(rt; "{fault}"),
    };
    expect_eq(rt, area.index, index);
    match read_area(rt.alloc(), disk, &SMALL, &area) {
        Ok(parts) => parts,
        Err(fault) => panic!(rt; "{fault}"),
    }
}

/// The area in use is this one; it has a program that hasn't begun, with this output, and these first bytes of memory.
fn expect_read<R: Abort + AllocGlobal, D: Disk>(
    rt: &R,
    disk: &mut D,
    index: usize,
    output: &[u8],
    image: &[u8],
) {
    let (memory, tables, held) = read(rt, disk, index);
    expect_eq(rt, memory.pages(), 16);
    expect_eq(rt, tables.threads.hart_count(), 1);
    expect_eq(rt, held.len(), output.len());
    assert!(rt; memory.pages() == 16);
    assert!(rt; memory.page(1).starts_with(image));
    let found = encoded_parts(rt, &tables, &held);
    let want = encoded(rt, output);
    assert!(rt; found.as_slice() == want.as_slice());
}

#[test]
fn what_was_saved_is_read(rt: HostRuntime) {
    let mut disk = memory_disk(&rt, formatted(&rt, &IMAGE));
    expect_read(&rt, &mut disk, 0, b"", &IMAGE);
    let memory = memory(&rt, &[9, 8, 7]);
    let tables = encoded(&rt, b"held");
    expect_eq(
        &rt,
        written(&rt, &mut disk, &POINT, tables.as_slice(), &memory),
        Ok(()),
    );
    expect_read(&rt, &mut disk, 1, b"held", &[9, 8, 7, 0]);
}

#[test]
fn faults_have_names(rt: HostRuntime) {
    expect_text(&rt, AreaFault::Device, "Device");
    expect_text(&rt, AreaFault::Damaged, "Damaged");
    expect_text(&rt, AreaFault::GenerationsUsed, "GenerationsUsed");
    expect_text(&rt, AreaFault::OutOfMemory, "OutOfMemory");
    expect_text(&rt, AreaFault::Version, "Version");
}
