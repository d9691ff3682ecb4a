//! How a machine goes through the events of a history.
ghost use Rattle.std.specs.Prelude.{◌≡◌, ◌<◌, ◌≤◌, ◌++◌, ◌∷◌, [], ℕ, false, length, vec_capacity, vec_len, IfErr, IfOk};
ghost use Rattle.ckrt_events.specs.declared.event.Event.{Event};
ghost use Rattle.ckrt_machine.specs.Steps.{State};
ghost use Rattle.ckrt_machine.specs.Events.{AllAccepted, IsAccepted, fold, step};
ghost use Rattle.ckrt_gdb_history.specs.Positions.{into_run, run_in, steps_of};
ghost use Rattle.ckrt_gdb_history.specs.Engine.{AreSnapshots, IsInto, steps_through};
ghost use Rattle.ckrt_gdb_history.specs.Search.{meets_in};

use crate::fault::HistoryFault;
use crate::kept::Snapshots;
use ckrt_events::Event;
use ckrt_machine::{Answer, Machine};
use ckrt_memory::StopReason;

/// The hart of an event that is a run, and the number of steps at most.
pub fn run_in(event: &Event) -> Option<(u8, u32)>
    ensures { result ≡ run_in event.now }
{
    match event {
        Event::Run(hart, limit) => Some((*hart, u32::from(*limit))),
        Event::RunLong(hart, limit) => Some((*hart, *limit)),
        Event::Place(_, _) | Event::Input(_) | Event::Eof | Event::Tick(_) => None,
    }
}

/// The machine, which has made some steps of an event, makes the rest of it.
pub fn finish(machine: &mut Machine, event: &Event, made: u32)
    requires { (s : State) × IsInto made event.now s machine.old }
    ensures state { (s : State) → IsInto made event.now s machine.old
        → machine.new.state ≡ (step event.now s).state }
    ensures size { length machine.new.state.bytes ≡ length machine.old.state.bytes }
{
    if made == 0 {
        machine.step(event);
        return;
    }
    let Some((hart, limit)) = run_in(event) else {
        unreachable!()
    };
    machine.go_on(hart, limit - made);
}

/// The machine, which has made some steps of an event, makes more of them, and not the last.
pub fn go_into(machine: &mut Machine, event: &Event, made: u32, steps: u32)
    requires into { (s : State) × IsInto made event.now s machine.old
        × (steps < steps_of event.now s) }
    requires steps { made < steps }
    ensures into { (s : State) → IsInto made event.now s machine.old
        → steps < steps_of event.now s
        → IsInto steps event.now s machine.new }
    ensures size { length machine.new.state.bytes ≡ length machine.old.state.bytes }
{
    let Some((hart, _limit)) = run_in(event) else {
        unreachable!()
    };
    if made == 0 {
        machine.step(&Event::RunLong(hart, steps));
        return;
    }
    machine.go_on(hart, steps - made);
}

/// The machine, which has made a step of a run or more, makes more of them: up to one before which a reason to stop is met, and not
/// more than `steps` in all. The result is how many it has made then.
pub fn go_into_until<R: StopReason>(
    machine: &mut Machine,
    event: &Event,
    made: u32,
    steps: u32,
    reason: &R,
) -> u32
    requires into { (s : State) × IsInto made event.now s machine.old
        × (steps < steps_of event.now s) }
    requires steps { (0 < made) × (made ≤ steps) }
    ensures within { (made ≤ result) × (result ≤ steps) }
    ensures into { (s : State) → IsInto made event.now s machine.old
        → steps < steps_of event.now s
        → IsInto result event.now s machine.new }
    ensures unmet { (s : State) → IsInto made event.now s machine.old
        → (k : ℕ) → made ≤ k → k < result
        → meets_in (R.meets reason.now) (run_in event.now) (into_run k (run_in event.now) s).state
        ≡ false }
    ensures size { length machine.new.state.bytes ≡ length machine.old.state.bytes }
{
    let Some((hart, _limit)) = run_in(event) else {
        unreachable!()
    };
    let (left, _) = machine.go_on_to(hart, steps - made, reason);
    steps - left
}

/// In how many steps an event was done, by its answer.
pub fn steps_by(answer: Answer) -> u32
    ensures { (e : Event) (s : State) → (step e s).answer ≡ answer → result ≡ steps_of e s }
{
    match answer {
        Answer::Ran(made, _) => made,
        Answer::Placed => 1,
        Answer::Taken(_) => 1,
        Answer::Closed => 1,
        Answer::Ticked(_) => 1,
    }
}

/// It is noted in how many steps one more event was done. There is room for it.
pub fn note(steps: &mut Vec<u32>, count: u32)
    requires { vec_len steps.old < vec_capacity steps.old }
    ensures noted { steps.new.items ≡ steps.old.items ++ count ∷ [] }
    ensures room { vec_capacity steps.new ≡ vec_capacity steps.old }
{
    steps.push_reserved(count);
}

/// The machine makes an event, if it is accepted, and it is noted in how many steps it was done.
fn replay_one(
    machine: &mut Machine,
    event: &Event,
    steps: &mut Vec<u32>,
) -> Result<(), HistoryFault>
    requires { vec_len steps.old < vec_capacity steps.old }
    ensures room { vec_capacity steps.new ≡ vec_capacity steps.old }
    ensures accepted { IfOk result (λ _. IsAccepted event.now machine.old.state) }
    ensures state { IfOk result (λ _.
        machine.new.state ≡ (step event.now machine.old.state).state) }
    ensures steps { IfOk result (λ _.
        steps.new.items ≡ steps.old.items ++ steps_of event.now machine.old.state ∷ []) }
    ensures size { length machine.new.state.bytes ≡ length machine.old.state.bytes }
    ensures refused { IfErr result (λ _. IsAccepted event.now machine.old.state → ⊥) }
{
    if !event.in_range() || machine.accept(0, event).is_err() {
        return Err(HistoryFault::Refused);
    }
    let answer = machine.step(event);
    note(steps, steps_by(answer));
    Ok(())
}

/// The machine makes all events, if each is accepted at its turn. It is noted in how many steps each was done, and the state behind
/// each `every` of them is kept.
pub fn replay_all(
    machine: &mut Machine,
    events: &[Event],
    every: usize,
    steps: &mut Vec<u32>,
    snapshots: &mut Snapshots,
) -> Result<(), HistoryFault>
    requires steps { steps.old.items ≡ [] }
    requires start { snapshots.old.start ≡ machine.old.state }
    requires snapshots { AreSnapshots snapshots.old.kept events.now machine.old.state }
    requires every { 0 < every }
    requires room { length events.now ≤ vec_capacity steps.old }
    ensures accepted { IfOk result (λ _. AllAccepted events.now machine.old.state) }
    ensures state { IfOk result (λ _.
        machine.new.state ≡ (fold events.now machine.old.state).state) }
    ensures steps { IfOk result (λ _.
        steps.new.items ≡ steps_through events.now machine.old.state) }
    ensures start { snapshots.new.start ≡ snapshots.old.start }
    ensures kept { IfOk result (λ _.
        AreSnapshots snapshots.new.kept events.now machine.old.state) }
    ensures room { vec_capacity steps.new ≡ vec_capacity steps.old }
    ensures size { length machine.new.state.bytes ≡ length machine.old.state.bytes }
    ensures refused { IfErr result (λ _. AllAccepted events.now machine.old.state → ⊥) }
{
    for event in events {
        snapshots.keep_at(machine, steps.len(), every);
        replay_one(machine, event, steps)?;
    }
    Ok(())
}
