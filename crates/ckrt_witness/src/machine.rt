//! Events of a machine, as the promise that it meets its tables speaks of them.
ghost use Rattle.std.specs.Prelude.{◌≡◌, ◌||◌, IfSome, true};
ghost use Rattle.std.specs.List.{list_any};
ghost use Rattle.ckrt_witness.specs.Machine.{HasAllWaits, HasEachKind, MachineWitness, MayGoOn, WasAccepted, WereAccepted, is_eof, is_input, is_long_run, is_place, is_run, is_tick};

use ckrt_events::Event;
use ckrt_machine::{Machine, Refusal};
use ckrt_thread::{Object, ThreadId};

/// Where threads wait: a mutex, a read-write lock, a thread that is joined, and a hart.
pub struct Places {
    pub mutex: u32,
    pub lock: u32,
    pub joined: ThreadId,
    pub hart: u8,
}

/// Whether an event of each kind is among these.
fn has_each_kind(events: &[Event]) -> bool
    ensures { result ≡ true → HasEachKind events.now }
{
    let place = has_place(events);
    let run = has_run(events);
    let input = has_input(events);
    let eof = has_eof(events);
    let tick = has_tick(events);
    let long_run = has_long_run(events);
    place && run && input && eof && tick && long_run
}

fn has_place(events: &[Event]) -> bool
    ensures { result ≡ list_any is_place events.now }
{
    events.iter().any(|e| matches!(e, Event::Place(_, _)))
}

fn has_run(events: &[Event]) -> bool
    ensures { result ≡ list_any is_run events.now }
{
    events.iter().any(|e| matches!(e, Event::Run(_, _)))
}

fn has_input(events: &[Event]) -> bool
    ensures { result ≡ list_any is_input events.now }
{
    events.iter().any(|e| matches!(e, Event::Input(_)))
}

fn has_eof(events: &[Event]) -> bool
    ensures { result ≡ list_any is_eof events.now }
{
    events.iter().any(|e| matches!(e, Event::Eof))
}

fn has_tick(events: &[Event]) -> bool
    ensures { result ≡ list_any is_tick events.now }
{
    events.iter().any(|e| matches!(e, Event::Tick(_)))
}

fn has_long_run(events: &[Event]) -> bool
    ensures { result ≡ list_any is_long_run events.now }
{
    events.iter().any(|e| matches!(e, Event::RunLong(_, _)))
}

/// Applies an event, and tells whether it put bytes. None where it is out of its range, or refused.
fn apply(machine: &mut Machine, event: &Event) -> Option<bool>
    ensures { IfSome result (λ put. WasAccepted event.now machine.old.state machine.new.state put) }
{
    if !event.in_range() || machine.accept(0, event).is_err() {
        return None;
    }
    let _answer = machine.step(event);
    Some(!machine.last_output().is_empty())
}

fn is_either(one: bool, other: bool) -> bool
    ensures { result ≡ (one || other) }
{
    one || other
}

/// Applies events one after another, and tells whether they put bytes. None where one is out of its range, or refused.
fn apply_all(machine: &mut Machine, events: &[Event]) -> Option<bool>
    ensures { IfSome result
        (λ put. WereAccepted events.now machine.old.state machine.new.state put) }
{
    let mut put = false;
    for event in events {
        let Some(more) = apply(machine, event) else {
            return None;
        };
        put = is_either(put, more);
    }
    Some(put)
}

/// Whether threads wait at all these places, one is on the hart, and another is planned for it.
fn has_all_waits(machine: &Machine, at: &Places) -> bool
    ensures { result ≡ true → HasAllWaits machine.now.state.tables }
{
    let threads = &machine.tables().threads;
    let Some(_locker) = threads.first_waiter(Object::Mutex(at.mutex)) else {
        return false;
    };
    let Some(_writer) = threads.first_waiter(Object::RwLock(at.lock)) else {
        return false;
    };
    let Some(_joiner) = threads.first_waiter(Object::End(at.joined)) else {
        return false;
    };
    let Some(_running) = threads.on_hart(at.hart as usize) else {
        return false;
    };
    let Some(_next) = machine.planned(at.hart) else {
        return false;
    };
    true
}

/// Whether events are accepted one after another, and put bytes.
fn reach(machine: &mut Machine, events: &[Event]) -> bool
    ensures { result ≡ true
        → WereAccepted events.now machine.old.state machine.new.state true }
{
    match apply_all(machine, events) {
        Some(put) => put,
        None => false,
    }
}

/// Why a machine refuses an event, where it accepts another one. None where it isn't so.
fn refusal_beside(machine: &Machine, more: &Event, other: &Event) -> Option<Refusal>
    ensures { IfSome result (MayGoOn more.now other.now machine.now.state) }
{
    if !more.in_range() || machine.accept(0, more).is_err() {
        return None;
    }
    machine.accept(0, other).err()
}

/// Applies events of each kind to a machine, and looks at what they lead to: there threads wait at all these places, `more` is accepted,
/// and `other` is refused. That meets all premises of the promise that the machine meets its tables. The refusal; None where
/// one of this isn't so.
pub fn apply_each_kind(
    machine: &mut Machine,
    events: &[Event],
    at: &Places,
    more: &Event,
    other: &Event,
) -> Option<Refusal>
    ensures { IfSome result (λ _. MachineWitness machine.old.state events.now) }
{
    machine.known();
    if !has_each_kind(events) {
        return None;
    }
    if !reach(machine, events) {
        return None;
    }
    if !has_all_waits(machine, at) {
        return None;
    }
    refusal_beside(machine, more, other)
}
