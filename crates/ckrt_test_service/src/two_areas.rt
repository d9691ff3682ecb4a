//! Disks both of whose areas hold a state: which of them is recovered, with which journal, and what comes of a change in
//! either.
//!
//! The program puts an `A` by its first three steps and ends with its sixth. Area 0 is formatted and its journal has the
//! first event; area 1 is saved after that event, and its journal has the second, of two steps. On the other disk area 0
//! is saved once more, after a third event of one step, and its journal has a fourth of one step.

use crate::changes::{Change, DAMAGED, Row, UNKNOWN, changed, expect_rows, outcome};
use crate::expect::{expect_eq, expect_eq_at};
use crate::sessions::{expect_answer, expect_checkpoint, expect_commit};
use crate::small_disk::{formatted, recovered_in_memory};
use ckrt_disk::{Disk, MemoryDisk};
use ckrt_events::Event;
use ckrt_machine::{Answer, RunEnd};
use ckrt_recovery::Session;
use ckrt_test_storage::IMAGE;
use std::process::Abort;

/// Where the areas begin.
const AREA_0: usize = 4_096;

const AREA_1: usize = 172_032;

/// From the beginning of an area: the fields of its header, its tables, and its first page.
const GENERATION: usize = 8;

const COUNT: usize = 16;

const OFFSET: usize = 24;

const LENGTH: usize = 32;

const VERSION: usize = 36;

const TABLES: usize = 4_096;

const FIRST_PAGE: usize = 106_496;

/// Where the superblock has the number of pages.
const PAGES: usize = 20;

/// A run of the program, where it doesn't end.
fn run<R: Abort, D: Disk>(rt: &R, session: &mut Session<D>, count: u64, steps: u16) {
    let ran = Answer::Ran(u32::from(steps), RunEnd::On);
    expect_answer(rt, session, &Event::Run(0, steps), count, ran);
}

/// The first two events, with a checkpoint between them: of the second the program makes two steps.
pub fn save_once<R: Abort, D: Disk>(rt: &R, session: &mut Session<D>) {
    expect_answer(rt, session, &Event::Place(0, 1), 1, Answer::Placed);
    expect_commit(rt, session, Ok(1));
    expect_checkpoint(rt, session, Ok(1));
    run(rt, session, 2, 2);
    expect_commit(rt, session, Ok(2));
}

/// Two events more, with a checkpoint between them.
fn save_again<R: Abort, D: Disk>(rt: &R, session: &mut Session<D>) {
    run(rt, session, 3, 1);
    expect_checkpoint(rt, session, Ok(3));
    run(rt, session, 4, 1);
    expect_commit(rt, session, Ok(4));
}

/// The bytes of the disk that a session leaves.
fn left(session: Session<MemoryDisk>) -> Vec<u8> {
    session.into_disk().into_image()
}

/// The disk that was saved once.
fn saved_once<R: Abort + AllocGlobal>(rt: &R) -> Vec<u8> {
    let mut session = recovered_in_memory(rt, formatted(rt, &IMAGE));
    save_once(rt, &mut session);
    left(session)
}

/// The disk that was saved twice.
fn saved_twice<R: Abort + AllocGlobal>(rt: &R) -> Vec<u8> {
    let mut session = recovered_in_memory(rt, formatted(rt, &IMAGE));
    save_once(rt, &mut session);
    save_again(rt, &mut session);
    left(session)
}

/// 2^62, lowest byte first.
const TOO_MANY: [u8; 8] = [0, 0, 0, 0, 0, 0, 0, 0x40];

/// Changes of the disk that was saved once: area 1 is in use, of generation 2, with two events.
const OF_ONCE: [Row; 31] = [
    (&[], Ok((2, 2))),
    // A gate that isn't open: the other area is in use, with its own journal.
    (&[(AREA_1, &[0])], Ok((1, 1))),
    (&[(AREA_1, &[0xff])], Ok((1, 1))),
    (&[(AREA_0, &[0])], Ok((2, 2))),
    (&[(AREA_0, &[0]), (AREA_1, &[0])], DAMAGED),
    // Generations: the greater one is in use, and two that are equal are damage.
    (&[(AREA_1 + GENERATION, &[0])], Ok((1, 1))),
    (&[(AREA_1 + GENERATION, &[1])], DAMAGED),
    (&[(AREA_1 + GENERATION, &[9])], Ok((2, 9))),
    (&[(AREA_0 + GENERATION, &[0])], Ok((2, 2))),
    (&[(AREA_0 + GENERATION, &[2])], DAMAGED),
    (&[(AREA_0 + GENERATION, &[3])], Ok((1, 3))),
    (&[(AREA_0 + GENERATION, &[0, 1])], Ok((1, 256))),
    (
        &[(AREA_0 + GENERATION, &[0]), (AREA_1 + GENERATION, &[0])],
        DAMAGED,
    ),
    // The other fields of the area in use, and of the other one.
    (&[(AREA_1 + VERSION, &[9])], UNKNOWN),
    (&[(AREA_1 + VERSION, &[0])], UNKNOWN),
    (&[(AREA_0 + VERSION, &[9])], Ok((2, 2))),
    (&[(AREA_1 + COUNT, &[7])], Ok((8, 2))),
    (&[(AREA_1 + COUNT, &TOO_MANY)], DAMAGED),
    (&[(AREA_0 + COUNT, &TOO_MANY)], Ok((2, 2))),
    (&[(AREA_1 + OFFSET, &[9])], Ok((2, 2))),
    (&[(AREA_1 + OFFSET, &TOO_MANY)], DAMAGED),
    (&[(AREA_0 + OFFSET, &TOO_MANY)], Ok((2, 2))),
    (&[(AREA_1 + LENGTH, &[171])], DAMAGED),
    (&[(AREA_1 + LENGTH, &[169])], DAMAGED),
    (&[(AREA_1 + LENGTH, &[1, 0x80, 1])], DAMAGED),
    (&[(AREA_0 + LENGTH, &[1, 0x80, 1])], Ok((2, 2))),
    // Tables: whether the input is closed is neither yes nor no, and a thread is on a hart that isn't there.
    (&[(AREA_1 + TABLES + 8, &[2])], DAMAGED),
    (&[(AREA_1 + TABLES + 17, &[1])], DAMAGED),
    (&[(AREA_0 + TABLES + 8, &[2])], Ok((2, 2))),
    // Pages: those of the area that isn't in use aren't read, and the number of pages is the disk's.
    (&[(AREA_0 + FIRST_PAGE, &[0; 12])], Ok((2, 2))),
    (&[(PAGES, &[17])], DAMAGED),
];

/// Changes of the disk that was saved twice: area 0 is in use, of generation 3, with four events.
const OF_TWICE: [Row; 22] = [
    (&[], Ok((4, 3))),
    (&[(AREA_0, &[0])], Ok((2, 2))),
    (&[(AREA_1, &[0])], Ok((4, 3))),
    (&[(AREA_0, &[0]), (AREA_1, &[0])], DAMAGED),
    (&[(AREA_0 + GENERATION, &[0])], Ok((2, 2))),
    (&[(AREA_0 + GENERATION, &[1])], Ok((2, 2))),
    (&[(AREA_0 + GENERATION, &[2])], DAMAGED),
    (&[(AREA_1 + GENERATION, &[3])], DAMAGED),
    (&[(AREA_1 + GENERATION, &[4])], Ok((2, 4))),
    (&[(AREA_0 + VERSION, &[9])], UNKNOWN),
    (&[(AREA_1 + VERSION, &[9])], Ok((4, 3))),
    (&[(AREA_0 + COUNT, &TOO_MANY)], DAMAGED),
    (&[(AREA_1 + COUNT, &TOO_MANY)], Ok((4, 3))),
    (&[(AREA_0 + OFFSET, &TOO_MANY)], DAMAGED),
    (&[(AREA_1 + OFFSET, &TOO_MANY)], Ok((4, 3))),
    (&[(AREA_0 + LENGTH, &[0])], DAMAGED),
    (&[(AREA_1 + LENGTH, &[0])], Ok((4, 3))),
    (&[(AREA_0 + TABLES + 7, &[0x80])], DAMAGED),
    (&[(AREA_1 + TABLES + 7, &[0x80])], Ok((4, 3))),
    (&[(AREA_1 + FIRST_PAGE, &[0; 12])], Ok((4, 3))),
    (&[(PAGES, &[15])], DAMAGED),
    (&[(PAGES, &[1, 4])], DAMAGED),
];

/// The program goes on after that many events: it ends with its sixth step.
fn expect_end<R: Abort, D: Disk>(rt: &R, session: &mut Session<D>, count: u64, steps: u32) {
    let ended = Answer::Ran(steps, RunEnd::End);
    expect_answer(rt, session, &Event::Run(0, 9), count, ended);
}

#[test]
fn each_change_of_a_disk_that_was_saved_once(rt: HostRuntime) {
    expect_rows(&rt, saved_once(&rt).as_slice(), &OF_ONCE);
}

#[test]
fn each_change_of_a_disk_that_was_saved_twice(rt: HostRuntime) {
    expect_rows(&rt, saved_twice(&rt).as_slice(), &OF_TWICE);
}

/// A disk with one change recovers to a program that has that many steps left after that many events.
fn expect_steps_left<R: Abort + AllocGlobal>(
    rt: &R,
    disk: &[u8],
    change: Change,
    events: u64,
    steps: u32,
) {
    let mut session = recovered_in_memory(rt, changed(rt, disk, &[change]));
    expect_eq_at(rt, change.0, session.acknowledged(), events);
    expect_end(rt, &mut session, events.saturating_add(1), steps);
}

/// Each area comes with its own pages, tables and journal.
#[test]
fn each_area_goes_on_from_its_own_state(rt: HostRuntime) {
    let once = saved_once(&rt);
    expect_steps_left(&rt, once.as_slice(), (AREA_0, &[0]), 2, 4);
    expect_steps_left(&rt, once.as_slice(), (AREA_1, &[0]), 1, 6);
    let twice = saved_twice(&rt);
    expect_steps_left(&rt, twice.as_slice(), (AREA_1, &[0]), 4, 2);
    expect_steps_left(&rt, twice.as_slice(), (AREA_0, &[0]), 2, 4);
    // The last two words of the program in area 0: with zeros the next step is a fault, where that area is in use.
    let change = (AREA_0 + FIRST_PAGE + 16, [0u8; 8].as_slice());
    expect_steps_left(&rt, once.as_slice(), change, 2, 4);
    expect_steps_left(&rt, twice.as_slice(), change, 4, 1);
}

/// With 17 pages on a larger disk area 0 is where it was and its journal is in what was added: no event.
#[test]
fn the_number_of_pages_moves_the_journal(rt: HostRuntime) {
    let mut disk = saved_once(&rt);
    assert!(&rt; disk.resize(348_160 + 2 * 4_096, 0).is_ok());
    let image = changed(&rt, disk.as_slice(), &[(PAGES, &[17])]);
    expect_eq(&rt, outcome(&rt, image), Ok((0, 1)));
}
