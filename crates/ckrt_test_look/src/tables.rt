//! Ranges of seeds, shapes, and tables of outcomes.

ghost use Rattle.std.specs.Prelude.{◌≤◌, ◌<◌};

use crate::expect::{expect_eq, image_of};
use crate::hunts::{SHAPE, outcomes_in};
use arrayvec::ArrayVec;
use ckrt_drive::Nobody;
use ckrt_hunt_schedules::{
    Asked, Awaited, Finished, HuntFault, HuntOnlooker, HuntWatch, Input, LastLine, Look, Made,
    Outcome, Outcomes, Seeds, Shape, Tally, Told, Verdict, Waiting, hunt_and_tell, write_table,
};
use ckrt_rv32i::Cause;
use std::alloc::Global;
use std::process::Abort;

/// Texts, and the ends of the ranges that they name.
const RANGES: [(&str, Option<(u64, u64)>); 17] = [
    ("1-200", Some((1, 200))),
    ("17-17", Some((17, 17))),
    ("0-0", Some((0, 0))),
    ("+1-+2", Some((1, 2))),
    ("007-9", Some((7, 9))),
    (
        "0-18446744073709551614",
        Some((0, 18_446_744_073_709_551_614)),
    ),
    ("0-18446744073709551615", None),
    ("18446744073709551616-18446744073709551617", None),
    ("5-4", None),
    ("17", None),
    ("17-", None),
    ("-17", None),
    ("-", None),
    ("", None),
    ("1-2-3", None),
    ("1 - 2", None),
    ("a-b", None),
];

/// The ends of the range that a text names.
fn ends_of(text: &str) -> Option<(u64, u64)> {
    match Seeds::read(text) {
        Some(seeds) => Some((seeds.first, seeds.last)),
        None => None,
    }
}

#[test]
fn ranges_of_seeds_are_read(rt: HostRuntime) {
    for (text, want) in &RANGES {
        expect_eq(&rt, ends_of(text), *want);
    }
}

/// Pages, harts and a limit, and whether there is such a shape.
const SHAPES: [(u32, u32, u32, bool); 9] = [
    (16, 1, 0, true),
    (65_536, 8, 4_294_967_295, true),
    (64, 2, 10_000_000, true),
    (15, 1, 1, false),
    (65_537, 1, 1, false),
    (16, 0, 1, false),
    (16, 9, 1, false),
    (0, 0, 0, false),
    (4_294_967_295, 4_294_967_295, 1, false),
];

#[test]
fn shapes_have_ranges(rt: HostRuntime) {
    for (pages, harts, limit, is_one) in &SHAPES {
        expect_eq(&rt, Shape::new(*pages, *harts, *limit).is_some(), *is_one);
    }
}

/// The digest of the byte `A`, whose first digits are those of `sha256sum`.
const OF_A: [u8; 32] = [
    0x55, 0x9a, 0xea, 0xd0, 0x82, 0x64, 0xd5, 0x79, 0x5d, 0x39, 0x09, 0x71, 0x8c, 0xdd, 0x05, 0xab,
    0xd4, 0x95, 0x72, 0xe8, 0x4f, 0xe5, 0x55, 0x90, 0xee, 0xf3, 0x1a, 0x88, 0xa0, 0x8f, 0xdf, 0xfd,
];

/// A thread waits for each of what there is.
const WAITINGS: [Waiting; 9] = [
    Waiting {
        thread: 1,
        awaited: Awaited::End(2),
    },
    Waiting {
        thread: 2,
        awaited: Awaited::Mutex(0x2c58, Some(3)),
    },
    Waiting {
        thread: 3,
        awaited: Awaited::Condition(64),
    },
    Waiting {
        thread: 4,
        awaited: Awaited::Barrier(0xfffc),
    },
    Waiting {
        thread: 5,
        awaited: Awaited::Read(0x1000_0000),
    },
    Waiting {
        thread: 6,
        awaited: Awaited::Write(0xffff_fffc),
    },
    Waiting {
        thread: 7,
        awaited: Awaited::Mutex(0x2c5c, None),
    },
    Waiting {
        thread: 63,
        awaited: Awaited::Input,
    },
    Waiting {
        thread: 64,
        awaited: Awaited::Deadline,
    },
];

/// A run that has put no line.
fn silent(told: Told) -> Finished {
    Finished {
        told,
        made: Made::nothing(),
        said: LastLine::none(),
    }
}

/// Notes a run that has put no line.
fn note(tally: &mut Tally, seed: u64, outcome: Outcome, digest: Option<[u8; 32]>) {
    tally.note(seed, silent(Told { outcome, digest }));
}

/// A tally without a run.
fn empty_tally<R: Abort + AllocGlobal>(rt: &R) -> Tally {
    match Tally::new(rt.alloc()) {
        Ok(tally) => tally,
        Err(_) => panic!(rt; "memory for a tally"),
    }
}

/// Two threads that wait for each other.
fn circle_of_two() -> ArrayVec<Waiting, 64> {
    let mut circle = ArrayVec::new();
    circle.push(Waiting {
        thread: 2,
        awaited: Awaited::Mutex(0x2c58, Some(3)),
    });
    circle.push(Waiting {
        thread: 3,
        awaited: Awaited::End(2),
    });
    circle
}

/// A tally with each kind of outcome, one of them twice.
fn tally_of_each<R: Abort + AllocGlobal>(rt: &R) -> Tally {
    let mut tally = empty_tally(rt);
    let mut waitings = ArrayVec::new();
    let taken = waitings.try_extend_from_slice(&WAITINGS);
    assert!(rt; taken.is_ok(), "64 waits at most");
    note(&mut tally, 1, Outcome::Exited(7), Some(OF_A));
    note(
        &mut tally,
        2,
        Outcome::Faulted(2, 0x1234, Cause::LoadRange),
        None,
    );
    note(&mut tally, 3, Outcome::Exited(7), Some(OF_A));
    note(&mut tally, 4, Outcome::Deadlock(waitings), None);
    note(&mut tally, 5, Outcome::WaitsForInput, None);
    note(&mut tally, 6, Outcome::NoEnd(ArrayVec::new()), None);
    note(&mut tally, 7, Outcome::NoEnd(circle_of_two()), None);
    note(&mut tally, 8, Outcome::Exited(0), Some(OF_A));
    tally
}

/// A hunt of these seeds.
fn asked_for(first: u64, last: u64) -> Asked<'static>
    requires some { first ≤ last }
    requires few { last < 1000 }
{
    Asked {
        image: "race.bin",
        shape: SHAPE,
        seeds: Seeds { first, last },
        may_end: false,
        input: None,
        look: Look::Outcomes,
        room: 0,
        all_rows: false,
    }
}

/// What is printed of outcomes of 200 runs.
fn table_of<R: Abort + AllocGlobal>(rt: &R, outcomes: &Outcomes) -> Vec<u8> {
    let mut writer = Vec::new(rt.alloc());
    let written = write_table(&mut writer, &asked_for(1, 200), outcomes);
    assert!(rt; written.is_ok());
    writer
}

const TABLE: &[u8] = b"\
outcome 1: 1 of 200 runs, first by seed 2: fault of thread 2 at 00001234, LoadRange
    ckrt hunt race.bin --seeds 2-2 --pages 16 --harts 2 --steps 10000 --keep seed-2.disk
outcome 2: 1 of 200 runs, first by seed 4: deadlock, thread 1 waits for the end of thread 2, \
thread 2 waits for mutex 00002c58 (thread 3 has it), thread 3 waits for condition 00000040, \
thread 4 waits for barrier 0000fffc, thread 5 waits for read lock 10000000, \
thread 6 waits for write lock fffffffc, thread 7 waits for mutex 00002c5c, thread 63 waits for input, thread 64 waits for its deadline
    ckrt hunt race.bin --seeds 4-4 --pages 16 --harts 2 --steps 10000 --keep seed-4.disk
outcome 3: 2 of 200 runs, first by seed 1: exit 7, output 559aead0
    ckrt hunt race.bin --seeds 1-1 --pages 16 --harts 2 --steps 10000 --keep seed-1.disk
outcome 4: 1 of 200 runs, first by seed 6: no end within 10000 steps or events
    ckrt hunt race.bin --seeds 6-6 --pages 16 --harts 2 --steps 10000 --keep seed-6.disk
outcome 5: 1 of 200 runs, first by seed 7: no end within 10000 steps or events, thread 2 waits for mutex 00002c58 (thread 3 has it), thread 3 waits for the end of thread 2
    ckrt hunt race.bin --seeds 7-7 --pages 16 --harts 2 --steps 10000 --keep seed-7.disk
outcome 6: 1 of 200 runs, first by seed 5: waits for input
    ckrt hunt race.bin --seeds 5-5 --pages 16 --harts 2 --steps 10000 --keep seed-5.disk
outcome 7: 1 of 200 runs, first by seed 8: exit 0, output 559aead0
    ckrt hunt race.bin --seeds 8-8 --pages 16 --harts 2 --steps 10000 --keep seed-8.disk
";

#[test]
fn each_outcome_is_told(rt: HostRuntime) {
    let mut tally = tally_of_each(&rt);
    expect_eq(&rt, tally.count(), 7);
    let outcomes = outcomes_in(&rt, &mut tally);
    expect_eq(&rt, outcomes.verdict(), Verdict::Several);
    let table = table_of(&rt, &outcomes);
    expect_eq(&rt, table.as_slice(), TABLE);
}

/// The end of a table with more outcomes of a kind than rows.
const OTHERS: &[u8] = b" --seeds 64-64 --pages 16 --harts 2 --steps 10000 --keep seed-64.disk
other outcomes: 2 of 200 runs
";

/// A tally of exits with 66 statuses.
fn crowded_tally<R: Abort + AllocGlobal>(rt: &R) -> Tally {
    let mut tally = empty_tally(rt);
    for seed in 1..67 {
        note(&mut tally, u64::from(seed), Outcome::Exited(seed), None);
    }
    tally
}

#[test]
fn outcomes_without_a_row_are_told(rt: HostRuntime) {
    let outcomes = outcomes_in(&rt, &mut crowded_tally(&rt));
    expect_eq(&rt, outcomes.others(), 2);
    let table = table_of(&rt, &outcomes);
    expect_eq(&rt, table.as_slice().ends_with(OTHERS), true);
}

/// The beginning of a table with a deadlock behind more outcomes of other kinds than rows.
const LATE: &[u8] = b"outcome 1: 1 of 200 runs, first by seed 67: deadlock
    ckrt hunt race.bin --seeds 67-67 ";

#[test]
fn each_kind_has_rows_of_its_own(rt: HostRuntime) {
    let mut tally = crowded_tally(&rt);
    note(&mut tally, 67, Outcome::Deadlock(ArrayVec::new()), None);
    let outcomes = outcomes_in(&rt, &mut tally);
    expect_eq(&rt, outcomes.rows().len(), 65);
    let table = table_of(&rt, &outcomes);
    expect_eq(&rt, table.as_slice().starts_with(LATE), true);
}

/// A tally of five outputs of `exit 0`, which came once, once, twice, three times and once, in this order, and of another status.
fn tally_of_outputs<R: Abort + AllocGlobal>(rt: &R) -> Tally {
    let mut tally = empty_tally(rt);
    let mut seed = 0u64;
    for byte in *b"abcddcde" {
        seed = seed.saturating_add(1);
        note(&mut tally, seed, Outcome::Exited(0), Some([byte; 32]));
    }
    note(&mut tally, 9, Outcome::Exited(3), Some([3; 32]));
    tally
}

const OUTPUTS: &[u8] = b"\
outcome 1: 1 of 200 runs, first by seed 9: exit 3, output 03030303
    ckrt hunt race.bin --seeds 9-9 --pages 16 --harts 2 --steps 10000 --keep seed-9.disk
outcome 2: 1 of 200 runs, first by seed 1: exit 0, output 61616161
    ckrt hunt race.bin --seeds 1-1 --pages 16 --harts 2 --steps 10000 --keep seed-1.disk
outcome 4: 2 of 200 runs, first by seed 3: exit 0, output 63636363
    ckrt hunt race.bin --seeds 3-3 --pages 16 --harts 2 --steps 10000 --keep seed-3.disk
outcome 5: 3 of 200 runs, first by seed 4: exit 0, output 64646464
    ckrt hunt race.bin --seeds 4-4 --pages 16 --harts 2 --steps 10000 --keep seed-4.disk
outputs of exit 0: 5 in 8 of 200 runs, the three commonest above
";

/// The seeds behind the first one that a row remembers; none where there is no such row.
fn later_of(outcomes: &Outcomes, index: usize) -> &[u64] {
    match outcomes.rows().get(index) {
        Some(row) => row.later(),
        None => &[],
    }
}

/// How many runs a row counts, and the first seed; zeros where there is no such row.
fn counted(outcomes: &Outcomes, index: usize) -> (u64, u64) {
    match outcomes.rows().get(index) {
        Some(row) => (row.count, row.first),
        None => (0, 0),
    }
}

#[test]
fn the_commonest_of_many_outputs_are_told(rt: HostRuntime) {
    let mut tally = tally_of_outputs(&rt);
    let mut copied = outcomes_in(&rt, &mut tally_of_each(&rt));
    copied.copy(&tally);
    expect_eq(&rt, table_of(&rt, &copied).as_slice(), OUTPUTS);
    let outcomes = outcomes_in(&rt, &mut tally);
    expect_eq(&rt, table_of(&rt, &outcomes).as_slice(), OUTPUTS);
    expect_eq(&rt, later_of(&outcomes, 4), [5, 7].as_slice());
    expect_eq(&rt, later_of(&outcomes, 5), [].as_slice());
}

#[test]
fn each_output_is_told_where_that_is_asked_for(rt: HostRuntime) {
    let outcomes = outcomes_in(&rt, &mut tally_of_outputs(&rt));
    let asked = Asked {
        all_rows: true,
        ..asked_for(1, 200)
    };
    let mut table = Vec::new(rt.alloc());
    assert!(rt; write_table(&mut table, &asked, &outcomes).is_ok());
    let end =
        b"    ckrt hunt race.bin --seeds 8-8 --pages 16 --harts 2 --steps 10000 --keep seed-8.disk\n";
    expect_eq(&rt, table.as_slice().ends_with(end), true);
}

#[test]
fn ten_seeds_of_an_outcome_are_remembered(rt: HostRuntime) {
    let mut tally = empty_tally(&rt);
    for seed in 5..20 {
        note(&mut tally, seed, Outcome::WaitsForInput, None);
    }
    let outcomes = outcomes_in(&rt, &mut tally);
    expect_eq(&rt, counted(&outcomes, 0), (15, 5));
    let later = [6, 7, 8, 9, 10, 11, 12, 13, 14];
    expect_eq(&rt, later_of(&outcomes, 0), later.as_slice());
}

/// What two runs come to together.
fn verdict_of<R: Abort + AllocGlobal>(rt: &R, first: Told, second: Told) -> Verdict {
    let mut tally = empty_tally(rt);
    tally.note(1, silent(first));
    tally.note(2, silent(second));
    outcomes_in(rt, &mut tally).verdict()
}

/// An exit with this status, behind the output `A`.
fn exit(status: u32) -> Told {
    Told {
        outcome: Outcome::Exited(status),
        digest: Some(OF_A),
    }
}

/// What is told of a run that didn't exit.
fn cut(outcome: Outcome) -> Told {
    Told {
        outcome,
        digest: None,
    }
}

fn fault() -> Told {
    cut(Outcome::Faulted(2, 0x1234, Cause::LoadRange))
}

fn deadlock() -> Told {
    cut(Outcome::Deadlock(circle_of_two()))
}

fn no_end() -> Told {
    cut(Outcome::NoEnd(ArrayVec::new()))
}

fn waits() -> Told {
    cut(Outcome::WaitsForInput)
}

#[test]
fn outcomes_have_a_verdict(rt: HostRuntime) {
    let other = Told {
        outcome: Outcome::Exited(0),
        digest: Some([0; 32]),
    };
    expect_eq(&rt, verdict_of(&rt, exit(0), exit(0)), Verdict::Good);
    expect_eq(&rt, verdict_of(&rt, exit(0), other), Verdict::Several);
    expect_eq(&rt, verdict_of(&rt, exit(0), exit(7)), Verdict::Several);
    expect_eq(&rt, verdict_of(&rt, fault(), deadlock()), Verdict::Several);
    expect_eq(&rt, verdict_of(&rt, exit(7), exit(7)), Verdict::Bad);
    expect_eq(&rt, verdict_of(&rt, fault(), fault()), Verdict::Bad);
    expect_eq(&rt, verdict_of(&rt, deadlock(), deadlock()), Verdict::Bad);
    expect_eq(&rt, verdict_of(&rt, no_end(), no_end()), Verdict::Bad);
    expect_eq(&rt, verdict_of(&rt, waits(), waits()), Verdict::Bad);
}

/// Puts `A`, and exits with status 7.
const PUTS: [u32; 6] = [
    0x04100513, // addi x10, x0, 65
    0x00200893, // addi x17, x0, 2
    0x00000073, // ecall: putc
    0x00700513, // addi x10, x0, 7
    0x00100893, // addi x17, x0, 1
    0x00000073, // ecall: exit
];

const ONE_OUTCOME: &[u8] = b"\
outcome 1: 10 of 10 runs, first by seed 5: exit 7, output 559aead0
    said: A
    ckrt hunt race.bin --seeds 5-5 --pages 16 --harts 2 --steps 10000 --keep seed-5.disk
";

#[test]
fn hunt_is_told(rt: HostRuntime) {
    let mut writer = Vec::new(rt.alloc());
    let image = image_of(&rt, &PUTS);
    let asked = asked_for(5, 14);
    let told = hunt_and_tell(
        rt.alloc(),
        image.as_slice(),
        Input::none(),
        &asked,
        &mut Nobody,
        &mut writer,
    );
    assert!(rt; told.is_ok());
    expect_eq(&rt, writer.as_slice(), ONE_OUTCOME);
}

/// Has time up to this seed.
#[derive(Drop)]
struct Patience {
    last: u64,
}

impl HuntOnlooker for Patience {
    ghost Answers = { λ _ _. Unit {0} };

    fn begin_hunt(&mut self, _alloc: Global, _watch: HuntWatch<'_>) {}

    fn has_time(&mut self, seed: u64, _tally: &Tally) -> bool {
        seed < self.last
    }

    fn end_hunt(&mut self, _seeds: Seeds, _outcomes: &Outcomes) {}
}

/// What is printed of a hunt of the seeds 5 to 14, by an onlooker who has time up to seed 7.
fn table_by_time<R: Abort + AllocGlobal>(rt: &R, may_end: bool) -> Vec<u8> {
    let mut writer = Vec::new(rt.alloc());
    let image = image_of(rt, &PUTS);
    let asked = Asked {
        may_end,
        ..asked_for(5, 14)
    };
    let mut onlooker = Patience { last: 7 };
    let none = Input::none();
    let done = hunt_and_tell(rt.alloc(), &image, none, &asked, &mut onlooker, &mut writer);
    assert!(rt; done.is_ok());
    writer
}

const THREE_SEEDS: &[u8] = b"\
outcome 1: 3 of 3 runs, first by seed 5: exit 7, output 559aead0
    said: A
    ckrt hunt race.bin --seeds 5-5 --pages 16 --harts 2 --steps 10000 --keep seed-5.disk
";

#[test]
fn hunt_ends_early_where_it_may(rt: HostRuntime) {
    expect_eq(&rt, table_by_time(&rt, true).as_slice(), THREE_SEEDS);
    expect_eq(&rt, table_by_time(&rt, false).as_slice(), ONE_OUTCOME);
}

/// Why a hunt of so many zero bytes isn't told.
fn fault_of<R: Abort + AllocGlobal>(rt: &R, size: usize) -> Option<HuntFault> {
    let image = vec![in rt.alloc(); 0; size].expect(rt, "memory for an image");
    let mut writer = Vec::new(rt.alloc());
    hunt_and_tell(
        rt.alloc(),
        &image,
        Input::none(),
        &asked_for(1, 1),
        &mut Nobody,
        &mut writer,
    )
    .err()
}

#[test]
fn image_has_to_fit(rt: HostRuntime) {
    expect_eq(&rt, fault_of(&rt, 61_440), None);
    expect_eq(&rt, fault_of(&rt, 61_441), Some(HuntFault::ImageTooLong));
}
