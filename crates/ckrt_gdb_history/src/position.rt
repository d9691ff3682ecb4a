//! Where somebody stands in a history.
ghost use Rattle.std.specs.Prelude.{◌≡◌, ◌↔◌, IsTrue};
ghost use Rattle.ckrt_gdb_history.specs.Positions.{IsBefore, IsUpTo, at_event};

/// So many events are done, and so many steps of the next one.
#[derive(Clone, Copy, Debug, Drop, PartialEq, Eq)]
pub struct Position {
    pub events: usize,
    /// Fewer than the event makes; 0 where the next event is no run, and behind the last one.
    pub steps: u32,
}

impl Position {
    /// So many events are done, and no step of the next.
    pub fn at_event(events: usize) -> Position
        ensures { result ≡ at_event events }
    {
        Position { events, steps: 0 }
    }

    /// Whether the other is further on.
    pub fn is_before(self, other: Position) -> bool
        ensures { IsTrue result ↔ IsBefore self other }
    {
        if self.events == other.events {
            return self.steps < other.steps;
        }
        self.events < other.events
    }

    /// Whether the other is further on, or the same.
    pub fn is_up_to(self, other: Position) -> bool
        ensures { IsTrue result ↔ IsUpTo self other }
    {
        if self.events == other.events {
            return self.steps <= other.steps;
        }
        self.events < other.events
    }
}
