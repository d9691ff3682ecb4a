//! The state at a place of a recording.
ghost use Rattle.std.specs.Prelude.{◌≡◌, ◌≤◌, ◌-◌, drop, length, take, IfOk, OnOk};
ghost use Rattle.ckrt_machine.specs.Events.{AllAccepted, fold};
ghost use Rattle.ckrt_look_calls.specs.Replays.{IsBehind, IsSound, first_steps, replay_of, run_of, state_at, steps_of, stepped};

use crate::lines::Place;
use ckrt_calls::Tables;
use ckrt_events::Event;
use ckrt_look_recording::Rule;
use ckrt_machine::Machine;
use ckrt_memory::Memory;
use ckrt_stored::restore_tables;
use std::alloc::{AllocError, Global};

/// What is looked at again: events behind the first so many, from a machine's state on, and the rules by which callers are found.
#[derive(Clone, Copy)]
pub struct Source<'a> {
    /// By which callers are found.
    pub rules: &'a [Rule],
    /// How many events came before the state.
    pub count: u64,
    /// The events from the state on, in order.
    pub events: &'a [Event],
    /// The state.
    pub start: &'a Machine,
}

/// A machine that has made the first events of a recording.
#[derive(Drop)]
pub struct Cursor {
    /// As those events have left it.
    pub machine: Machine,
    /// How many events of the recording it has made.
    pub made: usize,
}

/// The bytes of a memory, once more.
fn copied_bytes(alloc: Global, memory: &Memory) -> Result<Vec<u8>, AllocError>
    ensures { IfOk result (λ bytes. bytes.items ≡ memory.now.bytes) }
{
    let mut bytes = Vec::with_capacity(alloc, memory.as_slice().len())?;
    bytes.extend_from_slice(memory.as_slice())?;
    Ok(bytes)
}

/// The tables of a machine, once more.
fn copied_tables(alloc: Global, machine: &Machine) -> Result<Tables, AllocError>
    ensures { IfOk result (λ tables. tables ≡ machine.now.state.tables) }
{
    let pages = machine.memory().pages();
    let threads = &machine.tables().threads;
    threads.known();
    let mut tables = Tables::new(alloc, pages, threads.hart_count())?;
    restore_tables(&mut tables, machine.tables());
    Ok(tables)
}

/// A machine in the state of another. It takes as much memory as that.
pub fn copy_of(alloc: Global, machine: &Machine) -> Result<Machine, AllocError>
    ensures { IfOk result (λ copy. copy.state ≡ machine.now.state) }
{
    machine.known();
    machine.memory().known();
    let tables = copied_tables(alloc, machine)?;
    let bytes = copied_bytes(alloc, machine.memory())?;
    let memory = Memory::from_bytes(alloc, bytes)?;
    Ok(Machine::from_parts(memory, tables))
}

/// Events from one on up to another.
#[tactic(auto, using(crate::proofs::ReplayLemmas::events_between))]
fn events_between(events: &[Event], from: usize, to: usize) -> &[Event]
    requires order { from ≤ to }
    requires within { to ≤ length events.now }
    ensures { result.now ≡ take (to - from) (drop from events.now) }
{
    let (_, rest) = events.split_at(from);
    let (some, _) = rest.split_at(to - from);
    some
}

/// A run of so many steps, where that is fewer.
fn run_of(steps: u32, hart: u8, most: u32) -> Option<Event>
    ensures { result ≡ run_of steps hart most }
{
    if steps == 0 {
        return None;
    }
    Some(Event::RunLong(hart, steps.min(most)))
}

/// The first steps of an event.
fn steps_of(steps: u32, event: &Event) -> Option<Event>
    ensures { result ≡ steps_of steps event.now }
{
    match event {
        Event::Run(hart, most) => run_of(steps, *hart, u32::from(*most)),
        Event::RunLong(hart, most) => run_of(steps, *hart, *most),
        Event::Place(_, _) | Event::Input(_) | Event::Eof | Event::Tick(_) => None,
    }
}

/// The first steps of the event at a place.
fn first_steps(events: &[Event], made: usize, steps: u32) -> Option<Event>
    ensures { result ≡ first_steps steps (drop made events.now) }
{
    match events.get(made) {
        Some(event) => steps_of(steps, event),
        None => None,
    }
}

/// Makes events.
fn make_all(machine: &mut Machine, events: &[Event])
    requires accepted { AllAccepted events.now machine.old.state }
    ensures state { machine.new.state ≡ (fold events.now machine.old.state).state }
{
    for event in events {
        machine.step(event);
    }
}

/// Makes the first steps of the event at a place.
fn step_into(machine: &mut Machine, events: &[Event], made: usize, steps: u32)
    requires accepted { AllAccepted (drop made events.now) machine.old.state }
    ensures state { machine.new.state
        ≡ stepped (first_steps steps (drop made events.now)) machine.old.state }
{
    if let Some(event) = first_steps(events, made, steps) {
        machine.step(&event);
    }
}

impl Cursor {
    /// Nothing is made yet.
    pub fn new(alloc: Global, source: &Source<'_>) -> Result<Cursor, AllocError>
        ensures behind { IfOk result (IsBehind (replay_of source.now)) }
        ensures made { IfOk result (λ cursor. cursor.made ≡ 0) }
    {
        Ok(Cursor {
            machine: copy_of(alloc, source.start)?,
            made: 0,
        })
    }

    /// Goes on to where so many events are made.
    fn go_on(&mut self, source: &Source<'_>, made: usize)
        requires sound { IsSound (replay_of source.now) }
        requires behind { IsBehind (replay_of source.now) self.old }
        requires order { self.old.made ≤ made }
        requires within { made ≤ length source.now.events.now }
        ensures behind { IsBehind (replay_of source.now) self.new }
        ensures made { self.new.made ≡ made }
    {
        make_all(
            &mut self.machine,
            events_between(source.events, self.made, made),
        );
        self.made = made;
    }

    /// Goes to where so many events are made. Where more are, it begins again.
    fn go_to(&mut self, alloc: Global, source: &Source<'_>, made: usize) -> Result<(), AllocError>
        requires sound { IsSound (replay_of source.now) }
        requires behind { IsBehind (replay_of source.now) self.old }
        requires within { made ≤ length source.now.events.now }
        ensures behind { OnOk result (IsBehind (replay_of source.now) self.new) }
        ensures made { OnOk result (self.new.made ≡ made) }
    {
        if made < self.made {
            *self = Cursor::new(alloc, source)?;
        }
        self.go_on(source, made);
        Ok(())
    }

    /// A machine in the state at a place.
    #[tactic(auto, using(crate::proofs::ReplayLemmas::ahead_accepted))]
    pub fn machine_at(
        &mut self,
        alloc: Global,
        source: &Source<'_>,
        place: Place,
    ) -> Result<Machine, AllocError>
        requires sound { IsSound (replay_of source.now) }
        requires behind { IsBehind (replay_of source.now) self.old }
        ensures state { IfOk result (λ there.
            there.state ≡ state_at place (replay_of source.now)) }
        ensures behind { OnOk result (IsBehind (replay_of source.now) self.new) }
    {
        let made = place.event.saturating_sub(source.count) as usize;
        self.go_to(alloc, source, made.min(source.events.len()))?;
        let mut there = copy_of(alloc, &self.machine)?;
        step_into(&mut there, source.events, made, place.step);
        Ok(there)
    }
}
