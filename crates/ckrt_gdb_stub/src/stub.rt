//! A session with gdb over a recorded run.
ghost use Rattle.std.specs.Prelude.{◌≡◌, ◌⊎◌, IfErr, IfOk, IfSome, IsErrOf, IsOk, is_some, None};
ghost use Rattle.ckrt_gdb_stub.specs.declared.fault.DebugFault.TheVariants.{Range, Refused};
ghost use Rattle.ckrt_gdb_playback.specs.Playback.{IsPlayable, history_of};
ghost use Rattle.ckrt_gdb_playback.specs.Recorded.{IsSound, run_of};
ghost use Rattle.ckrt_gdb_playback.specs.Look.{fitting};
ghost use Rattle.ckrt_gdb_playback.specs.Requests.{last_text};
ghost use Rattle.ckrt_events.specs.Bytes.{IsInRange};
ghost use Rattle.ckrt_gdb_history.specs.Forks.{append_fault};
ghost use Rattle.ckrt_gdb_stub.specs.Session.{Answers, BeginsAt, HasForked, HasGoneOn, HasGoneToEnd, HasMoved, HasSet, IsMotion, IsOfRun, IsOutside, Makes, Names, Reaches, gone_on, look_in, set_text_in, way_in};

use crate::fault::DebugFault;
use ckrt_events::Event;
use ckrt_gdb_forms::{Payload, Request};
use ckrt_gdb_history::{AppendFault, HistoryFault, Position};
use ckrt_gdb_playback::{Desk, Playback, Recorded, Way, tell_state, way_of};
use ckrt_schedule::ScheduleEnd;
use std::alloc::Global;

/// What gdb asks is answered by this, from a recorded run: a state of the machine and the events from there on.
///
/// The run is replayed once somebody moves, since a debugger waits a few seconds only for its first answers. All memory was taken for
/// what is [`Recorded`], but that of the texts that a `monitor` gets.
pub struct Stub {
    pub(crate) alloc: Global,
    pub(crate) playback: Playback,
    pub(crate) desk: Desk,
}

/// Written out, so that whoever lets a session go needs no proof about each of its parts.
impl Drop for Stub {
    fn drop(self) {
        let Stub {
            alloc: _,
            playback: _,
            desk: _,
        } = self;
    }
}

impl Stub {
    /// A session that begins with the run's first event, before which `first` were done, or once `at` events are done.
    ///
    /// # Errors
    ///
    /// Where `at` is given, for which the run is replayed: `Range` exactly where it has no such position, and `Refused` only where an
    /// event isn't accepted at its turn, or they don't come through the run's stage.
    pub fn new(
        alloc: Global,
        first: u64,
        recorded: Recorded,
        at: Option<u64>,
    ) -> Result<Stub, DebugFault>
        ensures begun { IfOk result (BeginsAt at first recorded) }
        ensures within { IfOk result (λ _. IsOutside at first (run_of recorded) → ⊥) }
        ensures range { IsErrOf result Range → IsOutside at first (run_of recorded) }
        ensures refused { IsErrOf result Refused → IsSound recorded → ⊥ }
        ensures fault { IfErr result (λ e. (e ≡ Refused) ⊎ (e ≡ Range)) }
        ensures sure { at ≡ None → IsOk result }
    {
        let desk = Desk::new(
            first,
            recorded.event_count(),
            &recorded.machine().tables().threads,
            recorded.known_threads(),
        );
        let stub = Stub {
            alloc,
            playback: Playback::Unplayed(recorded),
            desk,
        };
        let Some(events) = at else {
            return Ok(stub);
        };
        let (stub, is_there) = stub.reach(events, 0)?;
        if is_there {
            Ok(stub)
        } else {
            Err(DebugFault::Range)
        }
    }

    /// Goes to where so many events of all are done, and so many steps of the next, and shows whose step is next. `false` where the
    /// run has no such position, and then nothing changes.
    pub(crate) fn reach(self, events: u64, steps: u32) -> Result<(Stub, bool), HistoryFault>
        ensures reached { IfOk result (λ r. Reaches events steps self r.1 r.0) }
        ensures refused { IfErr result (λ _. IsPlayable self.playback → ⊥) }
    {
        let Stub {
            alloc,
            playback,
            mut desk,
        } = self;
        let mut history = playback.played()?;
        let is_there = desk.reach(&mut history, events, steps);
        let playback = Playback::Played(history);
        Ok((
            Stub {
                alloc,
                playback,
                desk,
            },
            is_there,
        ))
    }

    /// Goes behind the last event, and shows who ended the program, if it has ended.
    pub(crate) fn reach_end(self) -> Result<Stub, HistoryFault>
        ensures reached { IfOk result (HasGoneToEnd self) }
        ensures refused { IfErr result (λ _. IsPlayable self.playback → ⊥) }
    {
        let Stub {
            alloc,
            playback,
            mut desk,
        } = self;
        let mut history = playback.played()?;
        desk.reach_end(&mut history);
        let playback = Playback::Played(history);
        Ok(Stub {
            alloc,
            playback,
            desk,
        })
    }

    /// Motions end from now on where so many events of all are done, and so many steps of the next. None where the run has no such
    /// position, and then nothing changes.
    pub(crate) fn name(
        self,
        events: u64,
        steps: u32,
    ) -> Result<(Stub, Option<Position>), HistoryFault>
        ensures named { IfOk result (λ r. Names events steps self r.1 r.0) }
        ensures refused { IfErr result (λ _. IsPlayable self.playback → ⊥) }
    {
        let Stub {
            alloc,
            playback,
            mut desk,
        } = self;
        let history = playback.played()?;
        let there = desk.stop_at(&history, events, steps);
        let playback = Playback::Played(history);
        Ok((
            Stub {
                alloc,
                playback,
                desk,
            },
            there,
        ))
    }

    /// The run's history ends where it stands.
    pub(crate) fn fork(self) -> Result<Stub, HistoryFault>
        ensures forked { IfOk result (HasForked self) }
        ensures refused { IfErr result (λ _. IsPlayable self.playback → ⊥) }
    {
        let Stub {
            alloc,
            playback,
            mut desk,
        } = self;
        let mut history = playback.played()?;
        desk.cut(&mut history);
        let playback = Playback::Played(history);
        Ok(Stub {
            alloc,
            playback,
            desk,
        })
    }

    /// Makes one more event behind the last, and shows who was there. Else it is told why not, and then nothing changes.
    pub(crate) fn append(self, event: Event) -> Result<(Stub, Option<AppendFault>), HistoryFault>
        requires { IsInRange event }
        ensures fault { IfOk result (λ r. r.1 ≡ append_fault event (history_of self.playback)) }
        ensures made { IfOk result (λ r. Makes event r.1 self r.0) }
        ensures refused { IfErr result (λ _. IsPlayable self.playback → ⊥) }
    {
        let Stub {
            alloc,
            playback,
            mut desk,
        } = self;
        let mut history = playback.played()?;
        let fault = desk.append(&mut history, event);
        let playback = Playback::Played(history);
        Ok((
            Stub {
                alloc,
                playback,
                desk,
            },
            fault,
        ))
    }

    /// Makes so many events at most behind the last, each the one that is next by turns, and shows whose step is next then. It is told
    /// why there is no further one.
    pub(crate) fn extend(
        self,
        most: u32,
    ) -> Result<(Stub, Result<ScheduleEnd, AppendFault>), HistoryFault>
        ensures end { IfOk result (λ r. r.1 ≡ (gone_on most self).end) }
        ensures made { IfOk result (λ r. HasGoneOn most self r.0) }
        ensures refused { IfErr result (λ _. IsPlayable self.playback → ⊥) }
    {
        let Stub {
            alloc,
            playback,
            mut desk,
        } = self;
        let mut history = playback.played()?;
        let end = desk.extend(&mut history, most);
        let playback = Playback::Played(history);
        Ok((
            Stub {
                alloc,
                playback,
                desk,
            },
            end,
        ))
    }

    /// Moves, and tells where it stops.
    fn walk(self, way: Way, out: &mut Payload) -> Result<Stub, HistoryFault>
        ensures moved { IfOk result (λ stub. HasMoved way self stub
            × (out.new.items ≡ fitting (last_text stub.desk.view))) }
        ensures refused { IfErr result (λ _. IsPlayable self.playback → ⊥) }
    {
        let Stub {
            alloc,
            playback,
            mut desk,
        } = self;
        let mut history = playback.played()?;
        desk.walk(&mut history, way, out);
        let playback = Playback::Played(history);
        Ok(Stub {
            alloc,
            playback,
            desk,
        })
    }

    /// What is neither a look nor a motion.
    fn set(self, request: &Request, out: &mut Payload) -> Stub
        ensures set { HasSet request.now self result }
        ensures payload { out.new.items ≡ fitting (set_text_in request.now self) }
    {
        let Stub {
            alloc,
            playback,
            mut desk,
        } = self;
        desk.set(request, &playback.machine().tables().threads, out);
        Stub {
            alloc,
            playback,
            desk,
        }
    }

    /// Shows what is asked of the state. `false` where something else was asked.
    fn look(&self, request: &Request, out: &mut Payload) -> bool
        ensures told { result ≡ is_some (look_in request.now self.now) }
        ensures payload { IfSome (look_in request.now self.now)
            (λ text. out.new.items ≡ fitting text) }
    {
        tell_state(request, &self.desk.view, self.playback.machine(), out)
    }

    /// The way that gdb wants to go, if it does.
    pub(crate) fn way(&self, request: &Request) -> Option<Way>
        ensures { result ≡ way_in request.now self.now }
    {
        way_of(
            request,
            &self.desk.view,
            &self.playback.machine().tables().threads,
        )
    }

    /// Answers a request: the payload of its reply, in place of what was in `out`.
    ///
    /// # Errors
    ///
    /// `Refused` of a motion alone, for which the run is replayed once, and only where an event isn't accepted at its turn, or they
    /// don't come through the run's stage.
    pub fn answer(self, request: &Request, out: &mut Payload) -> Result<Stub, HistoryFault>
        ensures answered { IfOk result (λ stub. Answers request.now self stub out.new.items) }
        ensures run { IfOk result (IsOfRun self) }
        ensures moving { IfErr result (λ _. IsMotion request.now self) }
        ensures refused { IfErr result (λ _. IsPlayable self.playback → ⊥) }
    {
        if self.look(request, out) {
            return Ok(self);
        }
        match self.way(request) {
            Some(way) => self.walk(way, out),
            None => Ok(self.set(request, out)),
        }
    }
}
