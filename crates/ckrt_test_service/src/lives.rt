//! Lives of one program, one after another, over a disk that stops.

ghost use Rattle.std.specs.Prelude.{IsTrue, All};
ghost use Rattle.ckrt_main.specs.Lives.{IsInRangeLife};

use crate::expect::{copied, expect_bytes, expect_eq, expect_eq_at};
use crate::small_disk::{SMALL, recovered_in_memory};
use ckrt_events::{Command, Event};
use ckrt_main::{Life, LifeReport, LivesFault, lives};
use ckrt_recovery::Config;
use ckrt_test_storage::IMAGE;
use std::process::Abort;

/// A life of these commands that is stopped at a call, or never.
fn life<R: Abort + AllocGlobal>(rt: &R, commands: &[Command], stop_at: u64, fill: &[u8]) -> Life {
    let mut list = Vec::new(rt.alloc());
    for command in commands {
        let command = command.clone().expect(rt, "memory for a command");
        list.push(command).expect(rt, "memory for a command");
    }
    Life {
        commands: list,
        stop_at,
        fill: copied(rt, fill),
    }
}

/// Whether the arguments of each command of each life are in their ranges.
fn are_in_range(list: &[Life]) -> bool
    ensures { IsTrue result → All IsInRangeLife list.now }
{
    list.iter().all(|life| life.in_range())
}

/// What becomes of lives. It ensures nothing, so tests that call it are cheap to prove.
fn outcome<R: Abort + AllocGlobal>(
    rt: &R,
    image: &[u8],
    config: Config,
    list: &[Life],
) -> Result<Vec<LifeReport>, LivesFault> {
    assert!(rt; are_in_range(list));
    lives(rt.alloc(), image, config, list)
}

/// A report: that many events recovered and acknowledged, this output from an offset on, and that many events that the image
/// left by it recovers to.
#[derive(Drop)]
struct Want<'a> {
    recovered: Option<u64>,
    acknowledged: u64,
    released_from: u64,
    released: &'a [u8],
    left: u64,
}

fn expect_report<R: Abort + AllocGlobal>(
    rt: &R,
    number: usize,
    report: &LifeReport,
    want: &Want<'_>,
) {
    expect_eq_at(rt, number, report.recovered, want.recovered);
    expect_eq_at(rt, number, report.acknowledged, want.acknowledged);
    expect_eq_at(rt, number, report.released_from, want.released_from);
    expect_bytes(rt, report.released.as_slice(), want.released);
    let session = recovered_in_memory(rt, copied(rt, report.left.as_slice()));
    expect_eq_at(rt, number, session.acknowledged(), want.left);
}

fn place() -> Command {
    Command::Submit(Event::Place(0, 1))
}

fn run(steps: u16) -> Command {
    Command::Submit(Event::Run(0, steps))
}

/// Six lives: the first is stopped at the gate of its commit, and the second before it recovered.
fn six_lives<R: Abort + AllocGlobal>(rt: &R) -> Vec<Life> {
    let mut list = Vec::new(rt.alloc());
    for life in [
        life(rt, &[place(), run(2), Command::Commit], 4, &[0xa5]),
        life(rt, &[], 1, &[]),
        life(rt, &[run(4), Command::Commit], 0, &[]),
        life(rt, &[], 0, &[]),
        life(rt, &[Command::Checkpoint], 0, &[]),
        life(rt, &[], 0, &[]),
    ] {
        list.push(life).expect(rt, "memory for a life");
    }
    list
}

fn wanted(
    recovered: Option<u64>,
    acknowledged: u64,
    released_from: u64,
    released: &[u8],
    left: u64,
) -> Want<'_> {
    Want {
        recovered,
        acknowledged,
        released_from,
        released,
        left,
    }
}

/// The lives are these.
fn expect_reports<R: Abort + AllocGlobal>(rt: &R, reports: &[LifeReport], wants: &[Want<'_>]) {
    expect_eq(rt, reports.len(), wants.len());
    for (number, (report, want)) in reports.iter().zip(wants.iter()).enumerate() {
        expect_report(rt, number, report, want);
    }
}

#[test]
fn six_lives_of_one_program(rt: HostRuntime) {
    let list = six_lives(&rt);
    let Ok(reports) = outcome(&rt, &IMAGE, SMALL, list.as_slice()) else {
        panic!(rt; "the lives are reported");
    };
    let wants = [
        wanted(Some(0), 0, 0, b"", 2),
        wanted(None, 0, 0, b"", 2),
        wanted(Some(2), 3, 0, b"A", 3),
        wanted(Some(3), 3, 0, b"A", 3),
        wanted(Some(3), 3, 0, b"A", 3),
        wanted(Some(3), 3, 1, b"", 3),
    ];
    expect_reports(&rt, reports.as_slice(), &wants);
}

/// The fault of no life at all.
fn fault_of<R: Abort + AllocGlobal>(rt: &R, image: &[u8], config: Config) -> Option<LivesFault> {
    outcome(rt, image, config, &[]).err()
}

#[test]
fn what_format_refuses(rt: HostRuntime) {
    expect_eq(&rt, fault_of(&rt, &IMAGE, SMALL), None);
    let few = Config { pages: 15, ..SMALL };
    expect_eq(&rt, fault_of(&rt, &IMAGE, few), Some(LivesFault::Format));
    let none = Config { harts: 0, ..SMALL };
    expect_eq(&rt, fault_of(&rt, &IMAGE, none), Some(LivesFault::Format));
    let long = vec![in rt.alloc(); 0u8; 61_441].expect(&rt, "memory for an image");
    expect_eq(
        &rt,
        fault_of(&rt, long.as_slice(), SMALL),
        Some(LivesFault::Format),
    );
    expect_eq(&rt, fault_of(&rt, &long[..61_440], SMALL), None);
}

/// A life that is stopped at a call of its first commit, and one after it: how many events the second recovers, and what it
/// releases.
fn expect_next<R: Abort + AllocGlobal>(rt: &R, stop_at: u64, fill: &[u8], recovered: u64) {
    let commands = [place(), run(2), Command::Commit];
    let mut list = Vec::new(rt.alloc());
    list.push(life(rt, &commands, stop_at, fill))
        .expect(rt, "memory for a life");
    list.push(life(rt, &[], 0, &[]))
        .expect(rt, "memory for a life");
    let Ok(reports) = outcome(rt, &IMAGE, SMALL, list.as_slice()) else {
        panic!(rt; "the lives are reported");
    };
    let [_, second] = reports.as_slice() else {
        panic!(rt; "two lives are reported");
    };
    expect_eq_at(rt, stop_at, second.recovered, Some(recovered));
    expect_eq_at(rt, stop_at, second.acknowledged, recovered);
}

#[test]
fn a_life_goes_on_from_what_a_stop_left(rt: HostRuntime) {
    for stop_at in 2..4 {
        expect_next(&rt, stop_at, &[0xa5], 0);
        expect_next(&rt, stop_at, &[], 0);
    }
    for stop_at in 4..6 {
        expect_next(&rt, stop_at, &[0xa5], 2);
        expect_next(&rt, stop_at, &[0], 0);
        expect_next(&rt, stop_at, &[], 2);
    }
    expect_next(&rt, 6, &[0], 2);
}

#[test]
fn quit_ends_a_life(rt: HostRuntime) {
    let commands = [place(), Command::Quit, run(2), Command::Commit];
    let mut list = Vec::new(rt.alloc());
    list.push(life(&rt, &commands, 0, &[]))
        .expect(&rt, "memory for a life");
    let refused = [
        run(2),
        place(),
        place(),
        Command::Auto(0, 2),
        Command::Blank,
        Command::Commit,
    ];
    list.push(life(&rt, &refused, 0, &[]))
        .expect(&rt, "memory for a life");
    let Ok(reports) = outcome(&rt, &IMAGE, SMALL, list.as_slice()) else {
        panic!(rt; "the lives are reported");
    };
    let wants = [wanted(Some(0), 0, 0, b"", 0), wanted(Some(0), 2, 0, b"", 2)];
    expect_reports(&rt, reports.as_slice(), &wants);
}
