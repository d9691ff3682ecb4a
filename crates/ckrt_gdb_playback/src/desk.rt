//! What a session has beside the run: what gdb said last, its stops, and what bounds its motions.
ghost use Rattle.std.specs.Prelude.{◌≡◌, ◌≤◌, ◌↔◌, IfSome, IsNone, IsSome, IsTrue, length, min, true, false};
ghost use Rattle.ckrt_events.specs.Bytes.{IsInRange};
ghost use Rattle.ckrt_gdb_history.specs.Forks.{append_fault, forked, with_event};
ghost use Rattle.ckrt_gdb_history.specs.Positions.{IsPosition, at_event};
ghost use Rattle.ckrt_gdb_playback.specs.Extending.{going_on, view_behind};
ghost use Rattle.ckrt_gdb_playback.specs.Playback.{HasPlace, position_of};
ghost use Rattle.ckrt_gdb_history.specs.Stops.{widths};
ghost use Rattle.ckrt_gdb_playback.specs.declared.motion.Found.{Found};
ghost use Rattle.ckrt_gdb_playback.specs.Look.{fitting};
ghost use Rattle.ckrt_gdb_playback.specs.Motions.{Moved, at};
ghost use Rattle.ckrt_gdb_playback.specs.Requests.{last_text};
ghost use Rattle.ckrt_gdb_playback.specs.Settings.{HasSetStops, examined, examined_text, marked_text, set_text, view_after};
ghost use Rattle.ckrt_gdb_playback.specs.Limits.{unbounded};
ghost use Rattle.ckrt_gdb_playback.specs.Marks.{IsWithoutStops};
ghost use Rattle.ckrt_gdb_playback.specs.Told.{ender_or, first_view, next_or, shown, standing_in, told};

use crate::going::{Way, go};
use crate::limits::{Bounds, begin_of};
use crate::look::{FAILED, put_done, put_last, put_reply};
use crate::marks::{Marked, insert, remove};
use crate::threads::is_listed;
use crate::told::{ender_or, first_view, next_or, shown, standing_in};
use crate::view::View;
use ckrt_events::Event;
use ckrt_gdb_forms::{Choice, Payload, Reply, Request};
use ckrt_gdb_history::{AppendFault, History, Position, Stops};
use ckrt_schedule::{Schedule, ScheduleEnd};
use ckrt_thread::{ThreadId, Threads};

/// How many steps a turn has in a run that goes on by itself: as many as in a drive that is given no other number.
const TURN: u32 = 1_000_000;

/// What a session has beside the run.
#[derive(Drop)]
pub struct Desk {
    /// How many events were done before the first of the run.
    pub first: u64,
    /// How many of the run's events are recorded: its first ones.
    pub recorded: usize,
    pub view: View,
    pub stops: Stops,
    pub bounds: Bounds,
    ghost narrow: { widths stops.watches.items ≤ 256 },
}

/// Whether the mark was taken, as gdb is told it.
fn put_marked(marked: Marked, out: &mut Payload)
    ensures { out.new.items ≡ fitting (marked_text marked) }
{
    match marked {
        Marked::Done => put_reply(&Reply::Done, out),
        Marked::Full => put_reply(&Reply::Failed(FAILED), out),
    }
}

/// The thread whose registers are told from now on: of any, that of the last stop. Nothing changes where it isn't listed.
fn examine(view: &mut View, choice: Choice, threads: &Threads, out: &mut Payload)
    ensures view { view.new ≡ examined choice view.old threads.now }
    ensures payload { out.new.items ≡ fitting (examined_text choice view.old.known threads.now) }
{
    match choice {
        Choice::One(thread) if is_listed(threads, view.known, thread) => {
            view.examined = thread as u8;
            put_done(true, out);
        }
        Choice::One(_) => put_done(false, out),
        Choice::Any | Choice::All => {
            view.examined = view.last.thread;
            put_done(true, out);
        }
    }
}

/// The position with so many events of all done, and so many steps of the next, in a history before which `first` were done.
fn place_of(history: &History, first: u64, events: u64, steps: u32) -> Option<Position>
    ensures has { IsSome result ↔ HasPlace first events steps history.now }
    ensures place { IfSome result (λ p. p ≡ position_of first events steps) }
    ensures is_one { IfSome result (λ p. IsPosition p history.now.events history.now.start) }
{
    if events < first || events - first > history.events().len() as u64 {
        return None;
    }
    let position = Position {
        events: (events - first) as usize,
        steps,
    };
    if history.has(position) {
        Some(position)
    } else {
        None
    }
}

/// What is shown of a run that went on by itself: whose step is next, but where it didn't stand at the end.
fn view_behind(end: &Result<ScheduleEnd, AppendFault>, view: &View, history: &History) -> View
    ensures { result ≡ view_behind end.now view.now history.now }
{
    match end {
        Err(AppendFault::NotAtEnd) => *view,
        _ => standing_in(view, next_or(history, view.last.thread)),
    }
}

impl Desk {
    /// A session that begins: thread 1 is shown, or whoever is left, and there is no stop. Before the first event of the run `first`
    /// were done, so many are recorded, and gdb knows the threads up to a number.
    pub fn new(first: u64, recorded: usize, threads: &Threads, known: ThreadId) -> Desk
        ensures view { result.view ≡ first_view known (shown 1 threads.now) }
        ensures stops { IsWithoutStops result.stops }
        ensures bounds { result.bounds ≡ unbounded }
        ensures first { result.first ≡ first }
        ensures recorded { result.recorded ≡ recorded }
    {
        Desk {
            first,
            recorded,
            view: first_view(known, shown(threads, 1)),
            stops: Stops::new(),
            bounds: Bounds::new(),
        }
    }

    /// What is neither a look nor a motion.
    pub fn set(&mut self, request: &Request, threads: &Threads, out: &mut Payload)
        ensures view { self.new.view ≡ view_after request.now self.old.view threads.now }
        ensures stops { HasSetStops request.now self.old.stops self.new.stops }
        ensures kept { (self.new.bounds ≡ self.old.bounds) × (self.new.first ≡ self.old.first)
            × (self.new.recorded ≡ self.old.recorded) }
        ensures payload { out.new.items
            ≡ fitting (set_text request.now self.old.stops self.old.view.known threads.now) }
    {
        match request {
            Request::Examine(choice) => examine(&mut self.view, *choice, threads, out),
            Request::Choose(choice) => {
                self.view.chosen = *choice;
                put_done(true, out);
            }
            Request::Insert(mark) => put_marked(insert(&mut self.stops, *mark), out),
            Request::Remove(mark) => {
                remove(&mut self.stops, *mark);
                put_reply(&Reply::Done, out);
            }
            Request::Detach | Request::Kill => put_reply(&Reply::Done, out),
            _ => put_reply(&Reply::Unsupported, out),
        }
    }

    /// Moves, and tells where it stops.
    pub fn walk(&mut self, history: &mut History, way: Way, out: &mut Payload)
        ensures stops { self.new.stops ≡ self.old.stops }
        ensures kept { (self.new.bounds ≡ self.old.bounds) × (self.new.first ≡ self.old.first)
            × (self.new.recorded ≡ self.old.recorded)
            × (self.new.view.chosen ≡ self.old.view.chosen)
            × (self.new.view.known ≡ self.old.view.known) }
        ensures moved { (found : Found)
            × Moved self.old.bounds way self.old.stops history.old history.new found
            × (self.new.view.last
            ≡ told self.old.bounds way found self.old.view.last.thread history.old history.new) }
        ensures told { out.new.items ≡ fitting (last_text self.new.view) }
        ensures examined { self.new.view.examined ≡ self.new.view.last.thread }
    {
        let stopped = go(history, &mut self.stops, way, self.bounds, self.view.last);
        self.view.last = stopped;
        self.view.examined = stopped.thread;
        put_last(&self.view, out);
    }

    /// Goes to where so many events of all are done, and so many steps of the next, and shows whose step is next. `false` where the
    /// run has no such position, and then nothing changes.
    pub fn reach(&mut self, history: &mut History, events: u64, steps: u32) -> bool
        ensures stops { self.new.stops ≡ self.old.stops }
        ensures kept { (self.new.bounds ≡ self.old.bounds) × (self.new.first ≡ self.old.first)
            × (self.new.recorded ≡ self.old.recorded) }
        ensures has { IsTrue result ↔ HasPlace self.old.first events steps history.old }
        ensures there { result ≡ true
            → (history.new ≡ at (position_of self.old.first events steps) history.old)
            × (self.new.view
            ≡ standing_in self.old.view (next_or self.old.view.last.thread history.new)) }
        ensures nowhere { result ≡ false
            → (history.new ≡ history.old) × (self.new.view ≡ self.old.view) }
    {
        let Some(position) = place_of(history, self.first, events, steps) else {
            return false;
        };
        history.go_to(position);
        let thread = next_or(history, self.view.last.thread);
        self.view = standing_in(&self.view, thread);
        true
    }

    /// Goes behind the last event, and shows who ended the program, if it has ended.
    pub fn reach_end(&mut self, history: &mut History)
        ensures stops { self.new.stops ≡ self.old.stops }
        ensures kept { (self.new.bounds ≡ self.old.bounds) × (self.new.first ≡ self.old.first)
            × (self.new.recorded ≡ self.old.recorded) }
        ensures there { history.new ≡ at (at_event (length history.old.events)) history.old }
        ensures view { self.new.view
            ≡ standing_in self.old.view (ender_or self.old.view.last.thread history.new) }
    {
        let end = begin_of(history, history.events().len());
        history.go_to(end);
        let ender = ender_or(history, self.view.last.thread);
        self.view = standing_in(&self.view, ender);
    }

    /// Motions end from now on where so many events of all are done, and so many steps of the next. The result is that position. None where
    /// the run has none, and then nothing changes.
    pub fn stop_at(&mut self, history: &History, events: u64, steps: u32) -> Option<Position>
        ensures stops { self.new.stops ≡ self.old.stops }
        ensures kept { (self.new.view ≡ self.old.view) × (self.new.first ≡ self.old.first)
            × (self.new.recorded ≡ self.old.recorded) }
        ensures has { IsSome result ↔ HasPlace self.old.first events steps history.now }
        ensures there { IfSome result (λ p. (p ≡ position_of self.old.first events steps)
            × (self.new.bounds ≡ record self.old.bounds { until = Some p })) }
        ensures nowhere { IsNone result → self.new.bounds ≡ self.old.bounds }
    {
        let position = place_of(history, self.first, events, steps)?;
        self.bounds.until = Some(position);
        Some(position)
    }

    /// The history ends where it stands. What is left of its events is recorded still, but for a run that is cut.
    pub fn cut(&mut self, history: &mut History)
        ensures history { history.new ≡ forked history.old }
        ensures recorded { self.new.recorded
            ≡ min self.old.recorded history.old.position.events }
        ensures stops { self.new.stops ≡ self.old.stops }
        ensures kept { (self.new.view ≡ self.old.view) × (self.new.bounds ≡ self.old.bounds)
            × (self.new.first ≡ self.old.first) }
    {
        self.recorded = self.recorded.min(history.position().events);
        history.cut();
    }

    /// Makes one more event behind the last, and shows whose step was next. Else it is told why not, and then nothing changes.
    pub fn append(&mut self, history: &mut History, event: Event) -> Option<AppendFault>
        requires { IsInRange event }
        ensures stops { self.new.stops ≡ self.old.stops }
        ensures kept { (self.new.bounds ≡ self.old.bounds) × (self.new.first ≡ self.old.first)
            × (self.new.recorded ≡ self.old.recorded) }
        ensures fault { result ≡ append_fault event history.old }
        ensures made { IsNone result → (history.new ≡ with_event event history.old)
            × (self.new.view
            ≡ standing_in self.old.view (next_or self.old.view.last.thread history.new)) }
        ensures nothing { IsSome result
            → (history.new ≡ history.old) × (self.new.view ≡ self.old.view) }
    {
        if let Err(fault) = history.append(event) {
            return Some(fault);
        }
        self.view = standing_in(&self.view, next_or(history, self.view.last.thread));
        None
    }

    /// Makes the events behind the last that are next by turns, `most` at most, and shows whose step is next then. The result is why there
    /// is no further one. Nothing changes where it doesn't stand at the end.
    pub fn extend(&mut self, history: &mut History, most: u32) -> Result<ScheduleEnd, AppendFault>
        ensures stops { self.new.stops ≡ self.old.stops }
        ensures kept { (self.new.bounds ≡ self.old.bounds) × (self.new.first ≡ self.old.first)
            × (self.new.recorded ≡ self.old.recorded) }
        ensures history { history.new ≡ (going_on most self.old.first history.old).history }
        ensures end { result ≡ (going_on most self.old.first history.old).end }
        ensures view { self.new.view ≡ view_behind result self.old.view history.new }
    {
        let schedule = Schedule {
            turn: TURN,
            seed: None,
        };
        let end = history.extend(schedule, self.first, most);
        self.view = view_behind(&end, &self.view, history);
        end
    }
}
