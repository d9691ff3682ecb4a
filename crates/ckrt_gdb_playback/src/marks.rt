//! Where gdb wants stops.
ghost use Rattle.std.specs.Prelude.{◌≡◌, ◌≤◌};
ghost use Rattle.ckrt_gdb_history.specs.Stops.{widths};
ghost use Rattle.ckrt_gdb_playback.specs.Marks.{AreStops, HasInserted, HasRemoved, by_room, has_breakpoint, has_watch, inserted, is_breakpoint, is_kind, is_watch, takes_breakpoint, takes_watch, watch_of, with_breakpoint, with_watch, without_breakpoint, without_watch};

use arrayvec::ArrayVec;
use ckrt_gdb_forms::Mark;
use ckrt_gdb_history::{BREAKPOINT_LIMIT, Breakpoint, Stops, WATCH_LIMIT, Watch, WatchKind};

type Breakpoints = ArrayVec<Breakpoint, 64>;

type Watches = ArrayVec<Watch, 16>;

/// What became of a mark.
#[derive(Clone, Copy)]
pub enum Marked {
    Done,
    /// There is no room for more.
    Full,
}

/// Whether a breakpoint is of any thread, and at the address.
fn is_breakpoint(there: &Breakpoint, address: u32) -> bool
    ensures { result ≡ is_breakpoint address there.now }
{
    there.address == address && there.thread.is_none()
}

/// Whether one of them is.
fn has_breakpoint(breakpoints: &[Breakpoint], address: u32) -> bool
    ensures { result ≡ has_breakpoint address breakpoints.now }
{
    breakpoints
        .iter()
        .any(|there| is_breakpoint(there, address))
}

/// A watch of a kind, of so many bytes, at least one.
fn watch_of(kind: WatchKind, first: u32, size: u32) -> Watch
    ensures { result ≡ watch_of kind first size }
{
    Watch {
        kind,
        first,
        last: first.saturating_add(size.saturating_sub(1)),
    }
}

/// Whether the two are one kind.
fn is_kind(wanted: WatchKind, there: WatchKind) -> bool
    ensures { result ≡ is_kind wanted there }
{
    match wanted {
        WatchKind::Changes => matches!(there, WatchKind::Changes),
        WatchKind::Loads => matches!(there, WatchKind::Loads),
        WatchKind::Accesses => matches!(there, WatchKind::Accesses),
    }
}

/// Whether the two are of one kind, and of the same addresses.
fn is_watch(there: &Watch, wanted: Watch) -> bool
    ensures { result ≡ is_watch wanted there.now }
{
    is_kind(wanted.kind, there.kind) && there.first == wanted.first && there.last == wanted.last
}

/// Whether one of them is.
fn has_watch(watches: &[Watch], wanted: Watch) -> bool
    ensures { result ≡ has_watch wanted watches.now }
{
    watches.iter().any(|there| is_watch(there, wanted))
}

/// One breakpoint more, unless it is there. `false` where there is no room for it.
fn insert_breakpoint(breakpoints: &mut Breakpoints, address: u32) -> bool
    ensures taken { result ≡ takes_breakpoint address breakpoints.old.items }
    ensures breakpoints { breakpoints.new.items ≡ with_breakpoint address breakpoints.old.items }
{
    if has_breakpoint(breakpoints.as_slice(), address) {
        return true;
    }
    if breakpoints.len() >= BREAKPOINT_LIMIT {
        return false;
    }
    breakpoints.push(Breakpoint {
        address,
        thread: None,
    });
    true
}

/// One watch more, unless it is there, if all have few enough addresses. `false` where there is no room for it.
fn insert_watch(stops: &mut Stops, wanted: Watch) -> bool
    requires { widths stops.old.watches.items ≤ 256 }
    ensures width { widths stops.new.watches.items ≤ 256 }
    ensures taken { result ≡ takes_watch wanted stops.old.watches.items }
    ensures stops { AreStops stops.old.breakpoints.items
        (with_watch wanted stops.old.watches.items) stops.old stops.new }
{
    if has_watch(stops.watches.as_slice(), wanted) {
        return true;
    }
    if stops.watches.try_push(wanted).is_err() {
        return false;
    }
    if stops.width() > WATCH_LIMIT as u64 {
        stops.watches.pop();
        return false;
    }
    true
}

/// A mark is taken, or there is no room for it.
fn by_room(is_taken: bool) -> Marked
    ensures { result ≡ by_room is_taken }
{
    if is_taken { Marked::Done } else { Marked::Full }
}

/// gdb wants a stop.
pub fn insert(stops: &mut Stops, mark: Mark) -> Marked
    requires { widths stops.old.watches.items ≤ 256 }
    ensures width { widths stops.new.watches.items ≤ 256 }
    ensures marked { result ≡ inserted mark stops.old }
    ensures stops { HasInserted mark stops.old stops.new }
{
    match mark {
        Mark::Execution(address) => by_room(insert_breakpoint(&mut stops.breakpoints, address)),
        Mark::Writes(first, size) => {
            by_room(insert_watch(stops, watch_of(WatchKind::Changes, first, size)))
        }
        Mark::Reads(first, size) => {
            by_room(insert_watch(stops, watch_of(WatchKind::Loads, first, size)))
        }
        Mark::Accesses(first, size) => {
            by_room(insert_watch(stops, watch_of(WatchKind::Accesses, first, size)))
        }
    }
}

/// The breakpoint goes, if it is there.
fn remove_breakpoint(breakpoints: &mut Breakpoints, address: u32)
    ensures { breakpoints.new.items ≡ without_breakpoint address breakpoints.old.items }
{
    breakpoints.retain(|there| !is_breakpoint(there, address));
}

/// The watch goes, if it is there.
fn retain_others(watches: &mut Watches, wanted: Watch)
    ensures { watches.new.items ≡ without_watch wanted watches.old.items }
{
    watches.retain(|there| !is_watch(there, wanted));
}

/// The same of all stops.
fn remove_watch(stops: &mut Stops, wanted: Watch)
    requires { widths stops.old.watches.items ≤ 256 }
    ensures width { widths stops.new.watches.items ≤ 256 }
    ensures stops { AreStops stops.old.breakpoints.items
        (without_watch wanted stops.old.watches.items) stops.old stops.new }
{
    retain_others(&mut stops.watches, wanted);
}

/// gdb doesn't want the stop any more.
pub fn remove(stops: &mut Stops, mark: Mark)
    requires { widths stops.old.watches.items ≤ 256 }
    ensures width { widths stops.new.watches.items ≤ 256 }
    ensures stops { HasRemoved mark stops.old stops.new }
{
    match mark {
        Mark::Execution(address) => remove_breakpoint(&mut stops.breakpoints, address),
        Mark::Writes(first, size) => {
            remove_watch(stops, watch_of(WatchKind::Changes, first, size));
        }
        Mark::Reads(first, size) => {
            remove_watch(stops, watch_of(WatchKind::Loads, first, size));
        }
        Mark::Accesses(first, size) => {
            remove_watch(stops, watch_of(WatchKind::Accesses, first, size));
        }
    }
}
