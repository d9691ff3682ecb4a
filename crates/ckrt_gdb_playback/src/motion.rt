//! Motions through a history, and where they stop.
ghost use Rattle.std.specs.Prelude.{◌≡◌, ◌≤◌, ◌↔◌, [], ◌∷◌, IfSome, IsNone, IsTrue};
ghost use Rattle.ckrt_gdb_history.specs.Positions.{IsPosition, IsUpTo};
ghost use Rattle.ckrt_gdb_history.specs.Stops.{HasMet, widths};
ghost use Rattle.ckrt_gdb_playback.specs.Motions.{HasHalted, HasStepped, MeetsWatch, HasMetFirst, IsFirstMet, IsStepping, SteppedOn, WentBack, WentOn, WentToStep, and_steps_of, is_next};

use ckrt_gdb_history::{History, Position, Stops, Watch};

/// Why a motion ended.
#[derive(Clone, Copy)]
pub enum Found {
    /// A step met a watch. This is the first that it met.
    Met(Watch),
    /// A step is next before which there is to be a stop.
    Halted,
    /// The thread's step was made.
    Stepped,
    /// Nothing of the kind.
    Nothing,
}

/// A watch alone.
fn only(watch: Watch) -> Stops
    ensures { result.watches.items ≡ watch ∷ [] }
{
    let mut stops = Stops::new();
    stops.watches.push(watch);
    stops
}

/// The first watch that the step that led here met.
fn watch_of(history: &mut History, watches: &[Watch]) -> Watch
    requires width { widths watches.now ≤ 256 }
    requires met { HasMet watches.now history.old.position history.old.events
        history.old.start }
    ensures history { history.new ≡ history.old }
    ensures first { IsFirstMet result watches.now history.old.position history.old.events
        history.old.start }
{
    let [watch, rest @ ..] = watches else {
        unreachable!()
    };
    if history.has_met(&only(*watch)) {
        return *watch;
    }
    watch_of(history, rest)
}

/// The first watch that the step that led here met, if it met one.
fn met(history: &mut History, stops: &Stops) -> Option<Watch>
    requires { widths stops.now.watches.items ≤ 256 }
    ensures history { history.new ≡ history.old }
    ensures none { IsNone result → MeetsWatch stops.now history.old history.old.position → ⊥ }
    ensures first { IfSome result (λ watch.
        HasMetFirst watch stops.now history.old history.old.position) }
{
    if !history.has_met(stops) {
        return None;
    }
    Some(watch_of(history, stops.watches.as_slice()))
}

/// A stop here, or before the step that led here, where that met a watch.
fn halt(history: &mut History, stops: &Stops) -> Found
    requires { widths stops.now.watches.items ≤ 256 }
    ensures { HasHalted stops.now history.old history.new result }
{
    match met(history, stops) {
        Some(watch) => {
            history.step_back();
            Found::Met(watch)
        }
        None => Found::Halted,
    }
}

/// Goes on to the next stop, or to `last`.
pub fn go_on(history: &mut History, stops: &Stops, last: Position) -> Found
    requires width { widths stops.now.watches.items ≤ 256 }
    requires last { IsPosition last history.old.events history.old.start }
    requires ahead { IsUpTo history.old.position last }
    ensures { WentOn stops.now last history.old history.new result }
{
    if !history.forward(stops, last) {
        return Found::Nothing;
    }
    halt(history, stops)
}

/// Goes back to the last stop, or to `first`.
pub fn go_back(history: &mut History, stops: &Stops, first: Position) -> Found
    requires width { widths stops.now.watches.items ≤ 256 }
    requires first { IsPosition first history.old.events history.old.start }
    requires behind { IsUpTo first history.old.position }
    ensures { WentBack stops.now first history.old history.new result }
{
    if let Some(watch) = met(history, stops) {
        return Found::Met(watch);
    }
    if !history.backward(stops, first) {
        return Found::Nothing;
    }
    match met(history, stops) {
        Some(watch) => Found::Met(watch),
        None => Found::Halted,
    }
}

/// Whether the next step is the thread's.
fn is_next(history: &History, thread: u8) -> bool
    ensures { result ≡ is_next thread history.now }
{
    match history.runner() {
        Some((next, _)) => next == thread,
        None => false,
    }
}

/// Goes on to before the thread's next step, if that isn't the next one already.
fn go_to_step(history: &mut History, stops: &mut Stops, thread: u8, last: Position) -> Found
    requires width { widths stops.old.watches.items ≤ 256 }
    requires last { IsPosition last history.old.events history.old.start }
    requires ahead { IsUpTo history.old.position last }
    ensures stops { stops.new ≡ stops.old }
    ensures went { WentToStep thread stops.old last history.old history.new result }
{
    if is_next(history, thread) {
        return Found::Halted;
    }
    let others = stops.thread;
    stops.thread = Some(thread);
    let found = go_on(history, stops, last);
    stops.thread = others;
    found
}

/// Whether nothing stopped it before, and the thread's step is next.
fn is_stepping(history: &History, thread: u8, found: Found) -> bool
    ensures { IsTrue result ↔ IsStepping thread history.now found }
{
    match found {
        Found::Halted => is_next(history, thread),
        Found::Met(_) | Found::Stepped | Found::Nothing => false,
    }
}

/// The thread's step led here: a stop here, or before it, where it met a watch.
fn halt_behind(history: &mut History, stops: &Stops) -> Found
    requires { widths stops.now.watches.items ≤ 256 }
    ensures { HasStepped stops.now history.old history.new result }
{
    match halt(history, stops) {
        Found::Met(watch) => Found::Met(watch),
        Found::Halted => Found::Stepped,
        Found::Stepped | Found::Nothing => unreachable!(),
    }
}

/// Goes on behind the thread's next step, if nothing stops it before.
pub fn step_on(history: &mut History, stops: &mut Stops, thread: u8, last: Position) -> Found
    requires width { widths stops.old.watches.items ≤ 256 }
    requires last { IsPosition last history.old.events history.old.start }
    requires ahead { IsUpTo history.old.position last }
    ensures stops { stops.new ≡ stops.old }
    ensures stepped { SteppedOn thread stops.old last history.old history.new result }
{
    let found = go_to_step(history, stops, thread, last);
    if !is_stepping(history, thread, found) {
        return found;
    }
    history.step_forward();
    halt_behind(history, stops)
}

/// Goes back before the thread's last step, if nothing stops it before.
pub fn step_back(history: &mut History, stops: &mut Stops, thread: u8, first: Position) -> Found
    requires width { widths stops.old.watches.items ≤ 256 }
    requires first { IsPosition first history.old.events history.old.start }
    requires behind { IsUpTo first history.old.position }
    ensures stops { stops.new ≡ stops.old }
    ensures went { WentBack (and_steps_of thread stops.old) first history.old history.new result }
{
    let others = stops.thread;
    stops.thread = Some(thread);
    let found = go_back(history, stops, first);
    stops.thread = others;
    found
}
