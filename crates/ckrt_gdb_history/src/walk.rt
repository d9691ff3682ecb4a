//! How a machine goes on from one position to another.
ghost use Rattle.std.specs.Prelude.{◌≡◌, ◌≤◌, ◌<◌, ℕ, List, IfSome, Some, false, length};
ghost use Rattle.ckrt_machine.specs.Steps.{State};
ghost use Rattle.ckrt_events.specs.declared.event.Event.{Event};
ghost use Rattle.ckrt_gdb_history.specs.Positions.{IsBefore, IsPosition, IsUpTo, next_position, previous_position, run_in};
ghost use Rattle.ckrt_gdb_history.specs.Engine.{IsAt, steps_through};
ghost use Rattle.ckrt_gdb_history.specs.Search.{IsOtherIn, IsPassed, may_stop, meets_at};
ghost use Rattle.ckrt_gdb_history.specs.Stops.{accesses_at};

use crate::accessing::Accessing;
use crate::position::Position;
use crate::reason::{OrCall, Sought, SoughtOrAccess};
use crate::replay::{finish, go_into, go_into_until, run_in};
use crate::stop::Stops;
use ckrt_events::Event;
use ckrt_look_recording::calm_on;
use ckrt_machine::Machine;
use ckrt_memory::StopReason;
use ckrt_thread::ThreadId;

/// The machine makes the rest of the event that it is in, and all further ones until so many are done. The result is where it is
/// then: where it was, if none was to be made.
fn finish_events(machine: &mut Machine, events: &[Event], from: Position, count: usize) -> Position
    requires at { (s : State) × IsAt machine.old from events.now s }
    requires ahead { from.events ≤ count }
    requires count { count ≤ length events.now }
    ensures at { (s : State) → IsAt machine.old from events.now s
        → IsAt machine.new result events.now s }
    ensures events { result.events ≡ count }
    ensures steps { result.steps ≤ from.steps }
    ensures begun { from.events < count → result.steps ≡ 0 }
    ensures size { length machine.new.state.bytes ≡ length machine.old.state.bytes }
{
    let mut at = from;
    while at.events < count {
        finish(machine, &events[at.events], at.steps);
        at = Position::at_event(at.events + 1);
    }
    at
}

/// The machine makes more steps of the event that it is in, and not the last.
fn go_further(machine: &mut Machine, events: &[Event], from: Position, to: Position)
    requires at { (s : State) × IsAt machine.old from events.now s
        × IsPosition to events.now s }
    requires event { from.events ≡ to.events }
    requires ahead { from.steps ≤ to.steps }
    ensures at { (s : State) → IsAt machine.old from events.now s → IsPosition to events.now s
        → IsAt machine.new to events.now s }
    ensures size { length machine.new.state.bytes ≡ length machine.old.state.bytes }
{
    if from.steps < to.steps {
        go_into(machine, &events[to.events], from.steps, to.steps);
    }
}

/// The machine goes on to another position.
pub fn go_on_to(machine: &mut Machine, events: &[Event], from: Position, to: Position)
    requires at { (s : State) × IsAt machine.old from events.now s
        × IsPosition to events.now s }
    requires ahead { IsUpTo from to }
    ensures at { (s : State) → IsAt machine.old from events.now s → IsPosition to events.now s
        → IsAt machine.new to events.now s }
    ensures size { length machine.new.state.bytes ≡ length machine.old.state.bytes }
{
    let at = finish_events(machine, events, from, to.events);
    go_further(machine, events, at, to);
}

/// The machine, which is inside a run, goes on to another position of the run, or to the first one before it at which a reason to
/// stop is met. The result is where it is then.
pub fn go_on_until<R: StopReason>(
    machine: &mut Machine,
    events: &[Event],
    from: Position,
    to: Position,
    reason: &R,
) -> Position
    requires at { (s : State) × IsAt machine.old from events.now s
        × IsPosition to events.now s }
    requires event { from.events ≡ to.events }
    requires steps { (0 < from.steps) × (from.steps ≤ to.steps) }
    ensures within { (result.events ≡ from.events) × (from.steps ≤ result.steps)
        × (result.steps ≤ to.steps) }
    ensures at { (s : State) → IsAt machine.old from events.now s → IsPosition to events.now s
        → IsAt machine.new result events.now s }
    ensures unmet { (s : State) → IsAt machine.old from events.now s
        → (r : Position) → IsUpTo from r → IsBefore r result
        → meets_at (R.meets reason.now) r events.now s ≡ false }
    ensures size { length machine.new.state.bytes ≡ length machine.old.state.bytes }
{
    let event = &events[from.events];
    let steps = go_into_until(machine, event, from.steps, to.steps, reason);
    Position {
        events: from.events,
        steps,
    }
}

/// Who is on the hart of a run, where that isn't this thread, and acts on no request by its next step.
fn other_on(machine: &Machine, event: &Event, thread: ThreadId) -> Option<ThreadId>
    ensures { IfSome result (λ other. IsOtherIn thread other (run_in event.now) machine.now.state) }
{
    let (hart, _) = run_in(event)?;
    let other = calm_on(machine, hart)?;
    if other == thread {
        return None;
    }
    Some(other)
}

/// The machine, which is inside a run, goes on past steps that aren't this thread's, as `go_on_until` does, and no further than to a call.
/// It stays where the next step may be the thread's.
fn go_past_others<R: StopReason>(
    machine: &mut Machine,
    events: &[Event],
    from: Position,
    to: Position,
    reason: &R,
    thread: ThreadId,
) -> Position
    requires at { (s : State) × IsAt machine.old from events.now s
        × IsPosition to events.now s }
    requires event { from.events ≡ to.events }
    requires steps { (0 < from.steps) × (from.steps ≤ to.steps) }
    ensures within { (result.events ≡ from.events) × (from.steps ≤ result.steps)
        × (result.steps ≤ to.steps) }
    ensures at { (s : State) → IsAt machine.old from events.now s → IsPosition to events.now s
        → IsAt machine.new result events.now s }
    ensures unmet { (s : State) → IsAt machine.old from events.now s
        → (r : Position) → IsUpTo from r → IsBefore r result
        → IsPassed (R.meets reason.now) (Some thread) r events.now s }
    ensures size { length machine.new.state.bytes ≡ length machine.old.state.bytes }
{
    let Some(_other) = other_on(machine, &events[from.events], thread) else {
        return from;
    };
    let reason = OrCall { reason };
    go_on_until(machine, events, from, to, &reason)
}

/// The machine, which is inside a run, goes on past positions at which the reason isn't met and the next step isn't this thread's, and to
/// `to` at most. It may stay before one of them.
pub fn go_past<R: StopReason>(
    machine: &mut Machine,
    events: &[Event],
    from: Position,
    to: Position,
    reason: &R,
    thread: Option<ThreadId>,
) -> Position
    requires at { (s : State) × IsAt machine.old from events.now s
        × IsPosition to events.now s }
    requires event { from.events ≡ to.events }
    requires steps { (0 < from.steps) × (from.steps ≤ to.steps) }
    ensures within { (result.events ≡ from.events) × (from.steps ≤ result.steps)
        × (result.steps ≤ to.steps) }
    ensures at { (s : State) → IsAt machine.old from events.now s → IsPosition to events.now s
        → IsAt machine.new result events.now s }
    ensures unmet { (s : State) → IsAt machine.old from events.now s
        → (r : Position) → IsUpTo from r → IsBefore r result
        → IsPassed (R.meets reason.now) thread r events.now s }
    ensures size { length machine.new.state.bytes ≡ length machine.old.state.bytes }
{
    match thread {
        Some(thread) => go_past_others(machine, events, from, to, reason, thread),
        None => go_on_until(machine, events, from, to, reason),
    }
}

/// The same, up to a reason that a search looks for, and past no position at which a watch stops for what the next step loads or stores.
pub fn go_past_all(
    machine: &mut Machine,
    events: &[Event],
    from: Position,
    to: Position,
    sought: &Sought<'_>,
    stops: &Stops,
) -> Position
    requires at { (s : State) × IsAt machine.old from events.now s
        × IsPosition to events.now s }
    requires event { from.events ≡ to.events }
    requires steps { (0 < from.steps) × (from.steps ≤ to.steps) }
    ensures within { (result.events ≡ from.events) × (from.steps ≤ result.steps)
        × (result.steps ≤ to.steps) }
    ensures at { (s : State) → IsAt machine.old from events.now s → IsPosition to events.now s
        → IsAt machine.new result events.now s }
    ensures unmet { (s : State) → IsAt machine.old from events.now s
        → (r : Position) → IsUpTo from r → IsBefore r result
        → IsPassed (may_stop sought.now.breakpoints.now sought.now.seen.now) stops.now.thread r
        events.now s }
    ensures unseen { (s : State) → IsAt machine.old from events.now s
        → (r : Position) → IsUpTo from r → IsBefore r result
        → accesses_at stops.now.watches.items r events.now s ≡ false }
    ensures size { length machine.new.state.bytes ≡ length machine.old.state.bytes }
{
    if !stops.sees_loads() {
        return go_past(machine, events, from, to, sought, stops.thread);
    }
    let reason = SoughtOrAccess {
        sought: *sought,
        accessing: Accessing {
            watches: stops.watches.as_slice(),
        },
    };
    go_past(machine, events, from, to, &reason, stops.thread)
}

/// The position behind the next step, where so many steps are made of each event.
pub fn next_position(steps: &[u32], at: Position) -> Position
    requires { at.events < length steps.now }
    ensures { (events : List Event) (s : State) → steps.now ≡ steps_through events s
        → IsPosition at events s
        → result ≡ next_position at events s }
{
    if at.steps < steps[at.events].saturating_sub(1) {
        return Position {
            events: at.events,
            steps: at.steps + 1,
        };
    }
    Position::at_event(at.events + 1)
}

/// The position before the step that led here; the first one itself where there is none.
pub fn previous_position(steps: &[u32], at: Position) -> Position
    requires { at.events ≤ length steps.now }
    ensures { (events : List Event) (s : State) → steps.now ≡ steps_through events s
        → result ≡ previous_position at events s }
{
    if at.steps > 0 {
        return Position {
            events: at.events,
            steps: at.steps - 1,
        };
    }
    if at.events == 0 {
        return at;
    }
    Position {
        events: at.events - 1,
        steps: steps[at.events - 1].saturating_sub(1),
    }
}
