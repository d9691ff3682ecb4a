//! How far a motion goes at most.
ghost use Rattle.std.specs.Prelude.{◌≡◌, ◌≤◌, ◌↔◌, IsTrue, length};
ghost use Rattle.ckrt_gdb_history.specs.Positions.{IsPosition, IsUpTo, at_event};
ghost use Rattle.ckrt_gdb_playback.specs.Limits.{EndsBack, EndsOn, IsEndBack, IsEndOn, IsLimitBack, IsLimitOn, IsOnWay, IsOnWayBack, unbounded};

use ckrt_gdb_history::{History, Position};

/// What bounds a motion.
#[derive(Clone, Copy)]
pub struct Bounds {
    /// How many steps it makes at most, by and large, 1 or more.
    pub limit: u32,
    /// Where it ends, if that is on its way.
    pub until: Option<Position>,
}

impl Bounds {
    /// 2,000 million steps, and no position.
    pub fn new() -> Bounds
        ensures { result ≡ unbounded }
    {
        Bounds {
            limit: 2_000_000_000,
            until: None,
        }
    }
}

/// Where so many events are done, and no step of the next.
pub fn begin_of(history: &History, events: usize) -> Position
    requires { events ≤ length history.now.events }
    ensures is_one { IsPosition result history.now.events history.now.start }
    ensures place { result ≡ at_event events }
{
    history.known();
    Position::at_event(events)
}

/// The first end of an event by which so many steps from here on are made; behind the last event where they are fewer.
fn last_within(history: &History, limit: u32) -> Position
    ensures is_one { IsPosition result history.now.events history.now.start }
    ensures ahead { IsUpTo history.now.position result }
    ensures limit { IsLimitOn limit history.now result }
{
    history.known();
    let here = history.position();
    let count = history.events().len();
    let mut left = u64::from(limit) + u64::from(here.steps);
    let mut events = here.events;
    while events < count && left > 0 {
        left = left.saturating_sub(u64::from(history.positions_after(events)));
        events += 1;
    }
    begin_of(history, events)
}

/// The last begin of an event from which so many steps are made up to here; before the first event where they are fewer.
fn first_within(history: &History, limit: u32) -> Position
    ensures is_one { IsPosition result history.now.events history.now.start }
    ensures behind { IsUpTo result history.now.position }
    ensures limit { IsLimitBack limit history.now result }
{
    history.known();
    let here = history.position();
    let mut left = limit.saturating_sub(here.steps);
    let mut events = here.events;
    while events > 0 && left > 0 {
        events -= 1;
        left = left.saturating_sub(history.positions_after(events));
    }
    begin_of(history, events)
}

/// Whether a position comes before the end of a motion on.
fn is_on_way(history: &History, position: Position, last: Position) -> bool
    ensures { IsTrue result ↔ IsOnWay position last history.now }
{
    history.has(position) && history.position().is_before(position) && position.is_up_to(last)
}

/// Whether a position comes before the end of a motion back.
fn is_on_way_back(history: &History, position: Position, first: Position) -> bool
    ensures { IsTrue result ↔ IsOnWayBack position first history.now }
{
    history.has(position) && position.is_before(history.position()) && first.is_up_to(position)
}

/// The position that was named, where a motion on to `last` comes by it.
fn cut_on(history: &History, until: Option<Position>, last: Position) -> Position
    requires is_one { IsPosition last history.now.events history.now.start }
    requires ahead { IsUpTo history.now.position last }
    ensures is_one { IsPosition result history.now.events history.now.start }
    ensures ahead { IsUpTo history.now.position result }
    ensures end { EndsOn until last result history.now }
{
    match until {
        Some(position) => {
            if is_on_way(history, position, last) {
                return position;
            }
            last
        }
        None => last,
    }
}

/// The position that was named, where a motion back to `first` comes by it.
fn cut_back(history: &History, until: Option<Position>, first: Position) -> Position
    requires is_one { IsPosition first history.now.events history.now.start }
    requires behind { IsUpTo first history.now.position }
    ensures is_one { IsPosition result history.now.events history.now.start }
    ensures behind { IsUpTo result history.now.position }
    ensures end { EndsBack until first result history.now }
{
    match until {
        Some(position) => {
            if is_on_way_back(history, position, first) {
                return position;
            }
            first
        }
        None => first,
    }
}

/// Where a motion on ends at last.
pub fn end_on(history: &History, bounds: Bounds) -> Position
    ensures is_one { IsPosition result history.now.events history.now.start }
    ensures ahead { IsUpTo history.now.position result }
    ensures end { IsEndOn bounds history.now result }
{
    let last = last_within(history, bounds.limit);
    cut_on(history, bounds.until, last)
}

/// Where a motion back ends at last.
pub fn end_back(history: &History, bounds: Bounds) -> Position
    ensures is_one { IsPosition result history.now.events history.now.start }
    ensures behind { IsUpTo result history.now.position }
    ensures end { IsEndBack bounds history.now result }
{
    let first = first_within(history, bounds.limit);
    cut_back(history, bounds.until, first)
}
