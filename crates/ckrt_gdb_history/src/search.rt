//! Searches for a reason to stop, forward and backward.
ghost use Rattle.std.specs.Prelude.{◌≡◌, ◌≤◌, ◌↔◌, IsTrue, true, false};
ghost use Rattle.ckrt_gdb_history.specs.Positions.{IsBefore, IsGreatest, IsLastOnWay, IsLeast, IsPosition, IsUpTo, NoneBefore, NoneBehind, PassesNone, previous_position};
ghost use Rattle.ckrt_gdb_history.specs.Stops.{IsStop, has_accessed, watched_at, widths};

use crate::history::History;
use crate::position::Position;
use crate::stop::{Stops, Watched};

impl History {
    /// Goes behind the next step, and on to the first position at which there may be a reason to stop, or to `last`. Says whether a watch
    /// stops there for what the step before it loaded or stored.
    fn go_past(&mut self, stops: &Stops, last: Position) -> bool
        requires width { widths stops.now.watches.items ≤ 256 }
        requires last { IsPosition last self.old.events self.old.start }
        requires more { IsBefore self.old.position last }
        ensures history { self.new ≡ record self.old { position = self.new.position } }
        ensures passes { PassesNone (IsStop stops.now self.old) self.old.position last
            self.new.position self.old }
        ensures same { watched_at stops.now.watches.items
            (previous_position self.new.position self.new.events self.new.start) self.new.events
            self.new.start
            ≡ watched_at stops.now.watches.items self.old.position self.old.events self.old.start }
        ensures accessed { result ≡ has_accessed stops.now.watches.items self.new.position
            self.new.events self.new.start }
    {
        self.known();
        let seen = self.seen(stops);
        let accesses = self.accesses(stops);
        self.step_forward();
        if accesses {
            return true;
        }
        self.pass(stops, seen.as_slice(), last);
        false
    }

    /// Whether the bytes under the watches of changes aren't those that were seen. Those are seen from now on.
    fn sees_others(&self, stops: &Stops, seen: &mut Watched) -> bool
        requires { widths stops.now.watches.items ≤ 256 }
        ensures seen { seen.new.items
            ≡ watched_at stops.now.watches.items self.now.position self.now.events self.now.start }
        ensures others { IsTrue result ↔ (seen.old.items ≡ seen.new.items → ⊥) }
    {
        let bytes = self.watched(stops);
        let same = bytes.as_slice() == seen.as_slice();
        *seen = bytes;
        !same
    }

    /// Goes behind the next step, and on past positions without a reason to stop, to `last` at most; says whether there is one where it
    /// stands then. `seen` are the bytes under the watches.
    fn advance(&mut self, stops: &Stops, seen: &mut Watched, last: Position) -> bool
        requires width { widths stops.now.watches.items ≤ 256 }
        requires last { IsPosition last self.old.events self.old.start }
        requires more { IsBefore self.old.position last }
        requires seen { seen.old.items
            ≡ watched_at stops.now.watches.items self.old.position self.old.events self.old.start }
        ensures history { self.new ≡ record self.old { position = self.new.position } }
        ensures passes { PassesNone (IsStop stops.now self.old) self.old.position last
            self.new.position self.old }
        ensures seen { seen.new.items
            ≡ watched_at stops.now.watches.items self.new.position self.new.events self.new.start }
        ensures stop { IsTrue result ↔ IsStop stops.now self.new self.new.position }
    {
        let has_accessed = self.go_past(stops, last);
        let has_changed = self.sees_others(stops, seen);
        if has_accessed || has_changed {
            return true;
        }
        self.is_halt(stops)
    }

    /// Goes forward to the least position with a reason to stop that is behind this one, and not behind `last`. `false` where there is
    /// none, and then it stands at `last`.
    pub fn forward(&mut self, stops: &Stops, last: Position) -> bool
        requires width { widths stops.now.watches.items ≤ 256 }
        requires last { IsPosition last self.old.events self.old.start }
        requires ahead { IsUpTo self.old.position last }
        ensures history { self.new ≡ record self.old { position = self.new.position } }
        ensures found { result ≡ true
            → IsLeast (IsStop stops.now self.old) self.old.position last self.new.position
            self.old }
        ensures none { result ≡ false
            → (self.new.position ≡ last)
            × NoneBehind (IsStop stops.now self.old) self.old.position last self.old }
    {
        if stops.are_none() {
            self.go_to(last);
            return false;
        }
        self.known();
        let mut seen = self.watched(stops);
        'steps: while self.position().is_before(last) {
            if self.advance(stops, &mut seen, last) {
                return true;
            }
        }
        false
    }

    /// Goes to a position, and says whether there is a reason to stop there.
    fn look_at(&mut self, stops: &Stops, position: Position) -> bool
        requires width { widths stops.now.watches.items ≤ 256 }
        requires position { IsPosition position self.old.events self.old.start }
        ensures position { self.new ≡ record self.old { position = position } }
        ensures stop { IsTrue result ↔ IsStop stops.now self.old position }
    {
        self.known();
        self.go_to(position);
        if position.events == 0 && position.steps == 0 {
            return self.is_halt(stops);
        }
        self.step_back();
        let mut seen = self.watched(stops);
        self.advance(stops, &mut seen, position)
    }

    /// Goes on to `end`. The result is the last position on the way that has a reason to stop: behind this one, not behind `end`, and
    /// before `here`.
    fn last_on_way(&mut self, stops: &Stops, end: Position, here: Position) -> Option<Position>
        requires width { widths stops.now.watches.items ≤ 256 }
        requires end { IsPosition end self.old.events self.old.start }
        requires ahead { IsUpTo self.old.position end }
        ensures position { self.new ≡ record self.old { position = end } }
        ensures found { IsLastOnWay (IsStop stops.now self.old) self.old.position end here self.old
            result }
    {
        self.known();
        let mut seen = self.watched(stops);
        let mut found = None;
        'steps: while self.position().is_before(end) {
            if !self.advance(stops, &mut seen, end) {
                continue;
            }
            let position = self.position();
            if !position.is_before(here) {
                continue;
            }
            found = Some(position);
        }
        found
    }

    /// The same by going over all positions from those on that are kept on the way, the last first.
    fn search_back(&mut self, stops: &Stops, first: Position) -> bool
        requires width { widths stops.now.watches.items ≤ 256 }
        requires first { IsPosition first self.old.events self.old.start }
        requires behind { IsUpTo first self.old.position }
        ensures history { self.new ≡ record self.old { position = self.new.position } }
        ensures found { result ≡ true
            → IsGreatest (IsStop stops.now self.old) first self.old.position self.new.position
            self.old }
        ensures none { result ≡ false
            → (self.new.position ≡ first)
            × NoneBefore (IsStop stops.now self.old) first self.old.position self.old }
    {
        let here = self.position();
        if !first.is_before(here) {
            return false;
        }
        let mut end = here;
        'kept: while let Some(from) = self.kept_between(first, end) {
            self.go_to(from);
            if let Some(position) = self.last_on_way(stops, end, here) {
                self.go_to(position);
                return true;
            }
            end = from;
        }
        self.go_to(first);
        if let Some(position) = self.last_on_way(stops, end, here) {
            self.go_to(position);
            return true;
        }
        self.look_at(stops, first)
    }

    /// Goes back to the greatest position with a reason to stop that is before this one, and not before `first`. `false` where
    /// there is none, and then it stands at `first`.
    pub fn backward(&mut self, stops: &Stops, first: Position) -> bool
        requires width { widths stops.now.watches.items ≤ 256 }
        requires first { IsPosition first self.old.events self.old.start }
        requires behind { IsUpTo first self.old.position }
        ensures history { self.new ≡ record self.old { position = self.new.position } }
        ensures found { result ≡ true
            → IsGreatest (IsStop stops.now self.old) first self.old.position self.new.position
            self.old }
        ensures none { result ≡ false
            → (self.new.position ≡ first)
            × NoneBefore (IsStop stops.now self.old) first self.old.position self.old }
    {
        if stops.are_none() {
            self.go_to(first);
            return false;
        }
        self.known();
        let here = self.position();
        if !first.is_before(here) {
            return false;
        }
        self.step_back();
        let previous = self.position();
        if self.look_at(stops, previous) {
            return true;
        }
        self.go_to(here);
        self.search_back(stops, first)
    }
}
