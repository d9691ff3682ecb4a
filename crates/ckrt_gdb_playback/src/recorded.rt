//! A run that nobody has replayed.
ghost use Rattle.std.specs.Prelude.{◌≡◌, ◌≤◌, ◌++◌, ◌↔◌, IfErr, IfOk, IsTrue, length, None, Some};
ghost use Rattle.ckrt_gdb_playback.specs.Known.{greatest, known_of, placed, placed_in};
ghost use Rattle.ckrt_gdb_playback.specs.Recorded.{ComesThrough, IsSound, run_of};
ghost use Rattle.ckrt_gdb_playback.specs.Stages.{IsWithin, stage_of};

use crate::limits::begin_of;
use crate::threads::shown_ids;
use ckrt_events::Event;
use ckrt_gdb_history::{History, HistoryFault, Room};
use ckrt_look_recording::{Comparison, append};
use ckrt_machine::Machine;
use ckrt_thread::ThreadId;
use std::alloc::{AllocError, Global};
use std::marker::Model;

/// How many states a history keeps on the way through the events, where its room has place for so many.
const STATES: u32 = 1_000;

/// A machine as it was saved behind so many events, and what another one is compared with it by.
#[derive(Drop)]
struct SavedStage {
    events: usize,
    machine: Machine,
    comparison: Comparison,
}

/// A run that nobody has replayed: the machine as it was at the beginning, the events from there on, the room of their history, and the
/// stage that they come through.
pub struct Recorded {
    machine: Machine,
    events: Vec<Event>,
    room: Room,
    stage: Option<SavedStage>,
}

/// Written out, so that whoever lets a run go needs no proof about each of its parts.
impl Drop for Recorded {
    fn drop(self) {
        let Recorded {
            machine: _,
            events: _,
            room: _,
            stage: _,
        } = self;
    }
}

impl Model for Recorded {
    ghost use Rattle.std.specs.Prelude.{length, vec_capacity};
    ghost use Rattle.ckrt_gdb_history.specs.Engine.{IsRoomFor};
    ghost use Rattle.ckrt_gdb_playback.specs.Recorded.{Run};
    ghost use Rattle.ckrt_gdb_playback.specs.Stages.{IsWithin, stage_of};

    ghost Value = { Run };

    ghost view = { λ r. record {
      start = r.machine.state;
      events = r.events.items;
      stage = stage_of r.stage;
    } };

    ghost invariant = { λ r.
        IsRoomFor (length r.events.items) (vec_capacity r.events) r.machine.state r.room
        × IsWithin r.stage (length r.events.items) };
}

/// The greatest of these numbers of threads, or 1.
fn greatest(ids: &[ThreadId]) -> ThreadId
    ensures { result ≡ greatest 1 ids.now }
{
    let mut known = 1;
    for id in ids {
        known = known.max(*id);
    }
    known
}

/// The number of the thread that an event places, or 0.
fn placed_in(event: &Event) -> ThreadId
    ensures { result ≡ placed_in event.now }
{
    match event {
        Event::Place(_, thread) => *thread,
        _ => 0,
    }
}

/// The greatest number of a thread that is placed, or this one.
fn placed(least: ThreadId, events: &[Event]) -> ThreadId
    ensures { result ≡ placed least events.now }
{
    let mut known = least;
    for event in events {
        known = known.max(placed_in(event));
    }
    known
}

/// Goes to a stage of a history, and says whether the machine is there as it was saved.
fn is_as_saved(history: &mut History, saved: &SavedStage) -> bool
    requires { saved.now.events ≤ length history.old.events }
    ensures history { history.new ≡ record history.old { position = history.new.position } }
    ensures through { IsTrue result
        ↔ ComesThrough (stage_of (Some saved.now)) history.old.events history.old.start }
{
    let there = begin_of(history, saved.events);
    history.go_to(there);
    saved.comparison.are_same(history.machine(), &saved.machine)
}

/// Whether a history comes through a stage, if there is one.
fn comes_through(history: &mut History, stage: &Option<SavedStage>) -> bool
    requires { IsWithin stage.now (length history.old.events) }
    ensures history { history.new ≡ record history.old { position = history.new.position } }
    ensures through { IsTrue result
        ↔ ComesThrough (stage_of stage.now) history.old.events history.old.start }
{
    match stage {
        Some(saved) => is_as_saved(history, saved),
        None => true,
    }
}

impl Recorded {
    /// The run from the machine's state on. The room of its history is taken.
    pub fn new(alloc: Global, machine: Machine, events: Vec<Event>) -> Result<Recorded, AllocError>
        ensures { IfOk result (λ run. run ≡ record {
          start = machine.state;
          events = events.items;
          stage = None;
        }) }
    {
        let mut events = events;
        let room = Room::new(alloc, &machine, &mut events, STATES)?;
        Ok(Recorded {
            machine,
            events,
            room,
            stage: None,
        })
    }

    /// The run from the machine's state on, through the state in which another machine was saved behind its events, and on from there
    /// through `later` ones. The room of its history is taken.
    pub fn through(
        alloc: Global,
        machine: Machine,
        events: Vec<Event>,
        saved: Machine,
        later: Vec<Event>,
    ) -> Result<Recorded, AllocError>
        ensures { IfOk result (λ run. run ≡ record {
          start = machine.state;
          events = events.items ++ later.items;
          stage = Some (record { events = length events.items; state = saved.state });
        }) }
    {
        let stage = SavedStage {
            events: events.len(),
            machine: saved,
            comparison: Comparison::new(alloc)?,
        };
        let mut all = events;
        append(&mut all, later)?;
        let room = Room::new(alloc, &machine, &mut all, STATES)?;
        Ok(Recorded {
            machine,
            events: all,
            room,
            stage: Some(stage),
        })
    }

    /// The machine at the beginning.
    pub fn machine(&self) -> &Machine
        ensures { result.now.state ≡ self.now.start }
    {
        &self.machine
    }

    /// How many events it has.
    pub fn event_count(&self) -> usize
        ensures { result ≡ length self.now.events }
    {
        self.events.len()
    }

    /// Up to which number gdb knows threads from the first stop on.
    pub fn known_threads(&self) -> ThreadId
        ensures { result ≡ known_of self.now }
    {
        let there = shown_ids(&self.machine.tables().threads);
        placed(greatest(there.as_slice()), self.events.as_slice())
    }

    /// Its history, which stands at its beginning.
    ///
    /// # Errors
    ///
    /// `Refused` exactly where an event isn't accepted at its turn, or the events don't come through the run's stage.
    pub fn play(self) -> Result<History, HistoryFault>
        ensures played { IfOk result (λ h. h ≡ run_of self) }
        ensures sound { IfOk result (λ _. IsSound self) }
        ensures refused { IfErr result (λ _. IsSound self → ⊥) }
    {
        let Recorded {
            machine,
            events,
            room,
            stage,
        } = self;
        let mut history = History::new(room, machine, events)?;
        if !comes_through(&mut history, &stage) {
            return Err(HistoryFault::Refused);
        }
        let begin = begin_of(&history, 0);
        history.go_to(begin);
        Ok(history)
    }
}
