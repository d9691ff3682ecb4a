//! In which way a debugger asks to go.
ghost use Rattle.std.specs.Prelude.{◌≡◌};
ghost use Rattle.ckrt_gdb_playback.specs.Requests.{stepping, way_by, way_of};

use crate::going::Way;
use crate::threads::is_shown;
use crate::view::View;
use ckrt_gdb_forms::{Choice, Motion, Request};
use ckrt_thread::{ThreadId, Threads};

/// The thread that is to step: the one that is meant, where it is shown, else that of the last stop.
fn stepping(choice: Choice, view: &View, threads: &Threads) -> ThreadId
    ensures { result ≡ stepping choice view.now threads.now }
{
    match choice {
        Choice::One(thread) if is_shown(threads, thread) => thread as u8,
        _ => view.last.thread,
    }
}

/// The way of a motion. Of a range of steps it is the first step, as gdb allows.
fn way_by(motion: Motion, view: &View, threads: &Threads) -> Way
    ensures { result ≡ way_by motion view.now threads.now }
{
    match motion {
        Motion::Continue => Way::On,
        Motion::Step(choice) => Way::StepOn(stepping(choice, view, threads)),
        Motion::StepOut(_, _, choice) => Way::StepOn(stepping(choice, view, threads)),
    }
}

/// The way that gdb wants to go, if it does.
pub fn way_of(request: &Request, view: &View, threads: &Threads) -> Option<Way>
    ensures { result ≡ way_of request.now view.now threads.now }
{
    match request {
        Request::Move(motion) => Some(way_by(*motion, view, threads)),
        Request::ContinueBack => Some(Way::Back),
        Request::StepBack => Some(Way::StepBack(stepping(view.chosen, view, threads))),
        _ => None,
    }
}
