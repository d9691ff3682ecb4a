//! A motion, and the stop that it ends with.
ghost use Rattle.std.specs.Prelude.{◌≡◌, ◌≤◌};
ghost use Rattle.ckrt_gdb_history.specs.Stops.{widths};
ghost use Rattle.ckrt_gdb_playback.specs.declared.motion.Found.{Found};
ghost use Rattle.ckrt_gdb_playback.specs.Motions.{Moved};
ghost use Rattle.ckrt_gdb_playback.specs.Told.{told};

use crate::limits::{Bounds, end_back, end_on};
use crate::motion::{go_back, go_on, step_back, step_on};
use crate::told::{has_moved, told_back, told_on};
use crate::view::Stopped;
use ckrt_gdb_history::{History, Stops};

/// In which way somebody moves.
#[derive(Clone, Copy)]
pub enum Way {
    /// On to the next stop.
    On,
    /// On behind the next step of this thread.
    StepOn(u8),
    /// Back to the last stop.
    Back,
    /// Back before the last step of this thread.
    StepBack(u8),
}

/// On to the next stop. The thread is that of the stop before.
fn go_to_stop(history: &mut History, stops: &Stops, bounds: Bounds, thread: u8) -> Stopped
    requires { widths stops.now.watches.items ≤ 256 }
    ensures { (found : Found) × Moved bounds Way.On stops.now history.old history.new found
        × (result ≡ told bounds Way.On found thread history.old history.new) }
{
    let here = history.position();
    let end = end_on(history, bounds);
    let found = go_on(history, stops, end);
    let has_moved = has_moved(here, history.position());
    told_on(history, bounds.until, found, has_moved, thread)
}

/// On behind the next step of a thread.
fn go_step(history: &mut History, stops: &mut Stops, bounds: Bounds, thread: u8) -> Stopped
    requires { widths stops.old.watches.items ≤ 256 }
    ensures stops { stops.new ≡ stops.old }
    ensures moved { (found : Found)
        × Moved bounds (Way.StepOn thread) stops.old history.old history.new found
        × (result ≡ told bounds (Way.StepOn thread) found thread history.old history.new) }
{
    let here = history.position();
    let end = end_on(history, bounds);
    let found = step_on(history, stops, thread, end);
    let has_moved = has_moved(here, history.position());
    told_on(history, bounds.until, found, has_moved, thread)
}

/// Back to the last stop. The thread is that of the stop before.
fn go_back_to_stop(history: &mut History, stops: &Stops, bounds: Bounds, thread: u8) -> Stopped
    requires { widths stops.now.watches.items ≤ 256 }
    ensures { (found : Found) × Moved bounds Way.Back stops.now history.old history.new found
        × (result ≡ told bounds Way.Back found thread history.old history.new) }
{
    let end = end_back(history, bounds);
    let found = go_back(history, stops, end);
    told_back(history, bounds.until, found, thread)
}

/// Back before the last step of a thread.
fn go_back_step(history: &mut History, stops: &mut Stops, bounds: Bounds, thread: u8) -> Stopped
    requires { widths stops.old.watches.items ≤ 256 }
    ensures stops { stops.new ≡ stops.old }
    ensures moved { (found : Found)
        × Moved bounds (Way.StepBack thread) stops.old history.old history.new found
        × (result ≡ told bounds (Way.StepBack thread) found thread history.old history.new) }
{
    let end = end_back(history, bounds);
    let found = step_back(history, stops, thread, end);
    told_back(history, bounds.until, found, thread)
}

/// Moves, within bounds. `last` is the stop before.
pub fn go(
    history: &mut History,
    stops: &mut Stops,
    way: Way,
    bounds: Bounds,
    last: Stopped,
) -> Stopped
    requires { widths stops.old.watches.items ≤ 256 }
    ensures stops { stops.new ≡ stops.old }
    ensures moved { (found : Found) × Moved bounds way stops.old history.old history.new found
        × (result ≡ told bounds way found last.thread history.old history.new) }
{
    match way {
        Way::On => go_to_stop(history, stops, bounds, last.thread),
        Way::StepOn(thread) => go_step(history, stops, bounds, thread),
        Way::Back => go_back_to_stop(history, stops, bounds, last.thread),
        Way::StepBack(thread) => go_back_step(history, stops, bounds, thread),
    }
}
