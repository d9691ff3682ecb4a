//! Guests with a schedule, and machines that go through it one step at a time.

use crate::expect::{expect_eq, machine_of};
use ckrt_events::Event;
use ckrt_gdb_history::{History, Position, Room};
use ckrt_machine::Machine;
use std::process::Abort;

/// The machine makes the event, if it is accepted, and the event is noted.
fn add<R: Abort>(rt: &R, machine: &mut Machine, events: &mut Vec<Event>, event: Event) {
    if !event.in_range() || machine.accept(0, &event).is_err() {
        return;
    }
    machine.step(&event);
    assert!(rt; events.push(event).is_ok(), "memory for events");
}

/// A schedule: the threads in turn on two harts, each for so many steps, and a tick behind each turn.
pub fn plan<R: Abort + AllocGlobal>(rt: &R, words: &[u32], steps: u32) -> Vec<Event> {
    let mut machine = machine_of(rt, words);
    let mut events = Vec::new(rt.alloc());
    for turn in 0..160u8 {
        let hart = turn % 2;
        if let Some(thread) = machine.planned(hart) {
            add(rt, &mut machine, &mut events, Event::Place(hart, thread));
        }
        add(rt, &mut machine, &mut events, Event::RunLong(hart, steps));
        add(rt, &mut machine, &mut events, Event::Tick(1));
    }
    events
}

/// The history of a guest by its schedule, with room for so many states.
pub fn history_of<R: Abort + AllocGlobal>(rt: &R, words: &[u32], steps: u32, kept: u32) -> History {
    let machine = machine_of(rt, words);
    let mut events = plan(rt, words, steps);
    let room = Room::new(rt.alloc(), &machine, &mut events, kept).expect(
        rt,
        "memory for a history",
    );
    match History::new(room, machine, events) {
        Ok(history) => history,
        Err(error) => panic!(rt; "{error}"),
    }
}

/// Goes to a position that has to be one.
pub fn go_to<R: Abort>(rt: &R, history: &mut History, position: Position) {
    let has = history.has(position);
    assert!(rt; has);
    history.go_to(position);
}

/// The same memory, registers, clock and status.
pub fn expect_same<R: Abort>(rt: &R, got: &Machine, want: &Machine) {
    for page in 1..16 {
        assert!(rt; page < got.memory().pages());
        assert!(rt; page < want.memory().pages());
        expect_eq(
            rt,
            got.memory().page(page).as_slice(),
            want.memory().page(page).as_slice(),
        );
    }
    for id in 1..65u8 {
        expect_eq(
            rt,
            got.tables().threads.regs(id),
            want.tables().threads.regs(id),
        );
    }
    expect_eq(rt, got.tables().clock, want.tables().clock);
    expect_eq(rt, got.status(), want.status());
}
