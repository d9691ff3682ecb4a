//! The state at a position, against a machine that makes one step at a time.

use crate::expect::{expect_eq, machine_of};
use crate::plans::{expect_same, go_to, history_of, plan};
use ckrt_events::Event;
use ckrt_gdb_history::{History, Position};
use ckrt_machine::Machine;
use ckrt_test_storage::{BOUNDED, COUNTERS, PAIR, ROUNDS, SIX_WORDS, SLEEPERS};
use std::process::Abort;

/// The event, or a run of one step where it is a run.
fn step_of<R: Abort>(rt: &R, event: &Event) -> Event {
    match event {
        Event::RunLong(hart, _) => Event::RunLong(*hart, 1),
        Event::Place(hart, thread) => Event::Place(*hart, *thread),
        Event::Tick(ticks) => Event::Tick(*ticks),
        Event::Run(_, _) | Event::Input(_) | Event::Eof => panic!(rt; "not in a schedule"),
    }
}

/// The machine makes an event of one step, which has to be accepted.
fn step<R: Abort>(rt: &R, machine: &mut Machine, event: &Event) {
    let may = event.in_range() && machine.accept(0, event).is_ok();
    assert!(rt; may);
    machine.step(event);
}

/// Goes to the position from the beginning or from the end, and back, and compares.
fn look<R: Abort>(rt: &R, history: &mut History, position: Position, machine: &Machine) {
    go_to(rt, history, position);
    expect_same(rt, history.machine(), machine);
    history.step_back();
    history.step_back();
    go_to(rt, history, position);
    expect_same(rt, history.machine(), machine);
    if position.events % 3 == 0 {
        go_to(rt, history, Position::at_event(0));
    }
}

/// Each 61st position of a guest.
fn compare<R: Abort + AllocGlobal>(rt: &R, words: &[u32], steps: u32, kept: u32) {
    let mut history = history_of(rt, words, steps, kept);
    let mut machine = machine_of(rt, words);
    let mut time = 0u64;
    for (events, event) in plan(rt, words, steps).as_slice().iter().enumerate() {
        assert!(rt; events <= history.events().len());
        let event = step_of(rt, event);
        for steps in 0..history.positions_after(events) {
            if time % 61 == 0 {
                look(rt, &mut history, Position { events, steps }, &machine);
            }
            step(rt, &mut machine, &event);
            time = time.wrapping_add(1);
        }
    }
    let end = Position::at_event(history.events().len());
    look(rt, &mut history, end, &machine);
    expect_eq(
        rt,
        history.has(Position {
            events: end.events,
            steps: 1,
        }),
        false,
    );
}

#[test]
fn positions_are_those_of_single_steps(rt: HostRuntime) {
    for (steps, kept) in [(1, 1), (2, 9), (7, 40), (30, 2), (1_000, 1_000)] {
        compare(&rt, &COUNTERS, steps, kept);
        compare(&rt, &BOUNDED, steps, kept);
        compare(&rt, &SLEEPERS, steps, kept);
        compare(&rt, &ROUNDS, steps, kept);
        compare(&rt, &PAIR, steps, kept);
        compare(&rt, &SIX_WORDS, steps, kept);
    }
}

/// Counts in x5, a round each two steps, without an end.
const COUNTING: [u32; 2] = [0x0012_8293, 0xffdf_f06f];

/// How many steps a run has.
const LONG: u32 = 20_000;

/// Runs by their numbers, and steps within them. Shortly before some others, and far from others.
const PLACES: [(u32, u32); 10] = [
    (70, 19_999),
    (70, 19_998),
    (70, 12_000),
    (69, 1),
    (3, 12_345),
    (40, 7_000),
    (40, 6_999),
    (40, 2),
    (0, 19_000),
    (0, 0),
];

/// What x5 has is half of the steps so far, rounded up.
fn expect_counted<R: Abort>(rt: &R, history: &History, steps: u32) {
    match history.machine().tables().threads.regs(1) {
        Some(regs) => expect_eq(rt, regs.get(5), steps.div_ceil(2)),
        None => panic!(rt; "no thread"),
    }
}

/// Goes to a place, and back by a step. The run with a number is behind one event more than three times as many.
fn count_at<R: Abort>(rt: &R, history: &mut History, run: u32, steps: u32) {
    assert!(rt; run < 80 && steps < LONG);
    let events = 3 * run as usize + 1;
    go_to(rt, history, Position { events, steps });
    expect_counted(rt, history, run * LONG + steps);
    history.step_back();
    if steps > 0 {
        expect_counted(rt, history, run * LONG + steps - 1);
    }
}

#[test]
fn positions_within_long_runs_are_found(rt: HostRuntime) {
    for kept in [1, 9] {
        let mut history = history_of(&rt, &COUNTING, LONG, kept);
        for (run, steps) in &PLACES {
            count_at(&rt, &mut history, *run, *steps);
        }
    }
}
