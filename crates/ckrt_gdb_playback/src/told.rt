//! How a stop is told.
ghost use Rattle.std.specs.Prelude.{◌≡◌};
ghost use Rattle.ckrt_gdb_playback.specs.Told.{cause_of, ender_by, ender_or, exited, first_view, is_interrupted, standing_in, ending_of, has_moved, interrupted, is_begin, is_end, next_or, shown, signal_of, status_at, stepped, stepper_or, told_back, told_on, trap, reached, is_same, is_named, at_end};

use crate::motion::Found;
use crate::threads::{is_shown, shown_ids};
use crate::view::{Stopped, View};
use ckrt_calls::Status;
use ckrt_gdb_forms::{Cause, Choice};
use ckrt_gdb_history::{History, Position, Watch, WatchKind};
use ckrt_rv32i::Cause as Fault;
use ckrt_thread::{ThreadId, Threads};

/// gdb's number of a breakpoint, a watch or a step.
const TRAP: u8 = 5;

/// gdb's number of an interrupt.
const INTERRUPTED: u8 = 2;

/// gdb's number of no signal.
const NONE: u8 = 0;

/// gdb's number of an abort.
const ABORT: u8 = 6;

/// The status of a guest that aborted.
const ABORTED: u32 = 134;

/// gdb's number of the signal that a fault would be to a thread.
fn signal_of(fault: Fault) -> u8
    ensures { result ≡ signal_of fault }
{
    match fault {
        Fault::Illegal => 4,
        Fault::Breakpoint => 5,
        Fault::JumpMisaligned | Fault::LoadMisaligned | Fault::StoreMisaligned => 10,
        Fault::FetchRange | Fault::LoadRange | Fault::StoreRange | Fault::Gate => 11,
    }
}

/// The thread if it is shown, else the first one that is.
pub fn shown(threads: &Threads, thread: ThreadId) -> ThreadId
    ensures { result ≡ shown thread threads.now }
{
    if is_shown(threads, u32::from(thread)) {
        return thread;
    }
    let ids = shown_ids(threads);
    ids.first().copied().unwrap_or(1)
}

/// Whose step is next, or this thread where nobody's is.
pub fn next_or(history: &History, thread: ThreadId) -> ThreadId
    ensures { result ≡ next_or thread history.now }
{
    let threads = &history.machine().tables().threads;
    match history.runner() {
        Some((next, _)) => shown(threads, next),
        None => shown(threads, thread),
    }
}

/// A stop by a trap.
pub fn trap(cause: Cause, thread: ThreadId) -> Stopped
    ensures { result ≡ trap cause thread }
{
    Stopped {
        signal: TRAP,
        cause,
        thread,
    }
}

/// A thread that stands, where gdb has said nothing of threads, and knows those up to a number.
pub fn first_view(known: ThreadId, thread: ThreadId) -> View
    ensures { result ≡ first_view known thread }
{
    View {
        examined: thread,
        chosen: Choice::Any,
        last: trap(Cause::Stopped, thread),
        known,
    }
}

/// A thread that stands where somebody went.
pub fn standing_in(view: &View, thread: ThreadId) -> View
    ensures { result ≡ standing_in view.now thread }
{
    View {
        examined: thread,
        chosen: view.chosen,
        last: trap(Cause::Stopped, thread),
        known: view.known,
    }
}

/// The stop at the position that was named.
fn reached(thread: ThreadId) -> Stopped
    ensures { result ≡ reached thread }
{
    Stopped {
        signal: NONE,
        cause: Cause::Stopped,
        thread,
    }
}

/// The stop at the limit of steps.
fn interrupted(thread: ThreadId) -> Stopped
    ensures { result ≡ interrupted thread }
{
    Stopped {
        signal: INTERRUPTED,
        cause: Cause::Stopped,
        thread,
    }
}

/// Whether the two are one position.
pub fn is_same(from: Position, to: Position) -> bool
    ensures { result ≡ is_same from to }
{
    from.events == to.events && from.steps == to.steps
}

/// Whether it is the position that was named.
fn is_named(until: Option<Position>, here: Position) -> bool
    ensures { result ≡ is_named until here }
{
    match until {
        Some(position) => is_same(position, here),
        None => false,
    }
}

/// The stop where a motion ends at last.
fn at_end(history: &History, until: Option<Position>, thread: ThreadId) -> Stopped
    ensures { result ≡ at_end until thread history.now }
{
    if is_named(until, history.position()) {
        reached(thread)
    } else {
        interrupted(thread)
    }
}

/// Whether a motion ended at the limit of steps.
pub fn is_interrupted(stopped: Stopped) -> bool
    ensures { result ≡ is_interrupted stopped }
{
    stopped.signal == INTERRUPTED
}

/// The stop behind the step with which the program ended: it aborted, or there is another cause.
fn exited(status: u32, cause: Cause, thread: ThreadId) -> Stopped
    ensures { result ≡ exited status cause thread }
{
    if status == ABORTED {
        Stopped {
            signal: ABORT,
            cause: Cause::Stopped,
            thread,
        }
    } else {
        trap(cause, thread)
    }
}

/// The stop behind the last event: the fault or the abort with which the program ended, if it is told for the first time; else that
/// nothing is recorded behind.
pub fn ending(status: Status, has_moved: bool, thread: ThreadId) -> Stopped
    ensures { result ≡ ending_of status has_moved thread }
{
    match status {
        Status::Faulted(faulted, _, cause) if has_moved => Stopped {
            signal: signal_of(cause),
            cause: Cause::Stopped,
            thread: faulted,
        },
        Status::Exited(status) if has_moved => exited(status, Cause::End, thread),
        _ => trap(Cause::End, thread),
    }
}

/// The thread that made the step that led here, or this one where nobody did.
fn stepper_or(history: &mut History, thread: ThreadId) -> ThreadId
    ensures history { history.new ≡ history.old }
    ensures stepper { result ≡ stepper_or thread history.old }
{
    let here = history.position();
    history.step_back();
    let stepper = next_or(history, thread);
    history.go_to(here);
    stepper
}

/// Whether no event is left.
fn is_end(history: &History) -> bool
    ensures { result ≡ is_end history.now }
{
    history.events().len() <= history.position().events
}

/// Whether the history stands where it begins.
fn is_begin(history: &History) -> bool
    ensures { result ≡ is_begin history.now }
{
    let here = history.position();
    here.events == 0 && here.steps == 0
}

/// Whether the two are different positions.
pub fn has_moved(from: Position, to: Position) -> bool
    ensures { result ≡ has_moved from to }
{
    !is_same(from, to)
}

/// How the program stands.
fn status_at(history: &History) -> Status
    ensures { result ≡ status_at history.now }
{
    history.machine().status()
}

/// Who ended a program that stands so, or this thread where it hasn't ended.
fn ender_by(status: Status, history: &mut History, thread: ThreadId) -> ThreadId
    ensures history { history.new ≡ history.old }
    ensures ender { result ≡ ender_by status thread history.old }
{
    match status {
        Status::Running => thread,
        Status::Exited(_) => stepper_or(history, thread),
        Status::Faulted(faulted, _, _) => faulted,
    }
}

/// Who ended the program, or this thread where it hasn't ended.
pub fn ender_or(history: &mut History, thread: ThreadId) -> ThreadId
    ensures history { history.new ≡ history.old }
    ensures ender { result ≡ ender_or thread history.old }
{
    let ender = ender_by(status_at(history), history, thread);
    shown(&history.machine().tables().threads, ender)
}

/// The stop behind a thread's step: the fault or the abort with which the program ended by it, if one did.
fn stepped(is_end: bool, status: Status, thread: ThreadId) -> Stopped
    ensures { result ≡ stepped is_end status thread }
{
    match status {
        Status::Faulted(_, _, _) if is_end => ending(status, true, thread),
        Status::Exited(number) if is_end => exited(number, Cause::Stopped, thread),
        _ => trap(Cause::Stopped, thread),
    }
}

/// A watch that a step met, as gdb is told it.
fn cause_of(watch: &Watch) -> Cause
    ensures { result ≡ cause_of watch.now }
{
    match watch.kind {
        WatchKind::Changes => Cause::Written(watch.first),
        WatchKind::Loads => Cause::Read(watch.first),
        WatchKind::Accesses => Cause::Accessed(watch.first),
    }
}

/// A motion that was to go on, and `has_moved` if it did. The thread is the one that was to step, or that of the last stop.
pub fn told_on(
    history: &mut History,
    until: Option<Position>,
    found: Found,
    has_moved: bool,
    thread: ThreadId,
) -> Stopped
    ensures history { history.new ≡ history.old }
    ensures told { result ≡ told_on until found has_moved thread history.old }
{
    let next = next_or(history, thread);
    let shown = shown(&history.machine().tables().threads, thread);
    let status = status_at(history);
    let is_end = is_end(history);
    match found {
        Found::Met(watch) => trap(cause_of(&watch), next),
        Found::Halted => trap(Cause::Stopped, next),
        Found::Stepped => stepped(is_end, status, shown),
        Found::Nothing if is_end => ending(status, has_moved, ender_or(history, thread)),
        Found::Nothing => at_end(history, until, next),
    }
}

/// A motion back. The thread is that which was to step, or that of the last stop.
pub fn told_back(
    history: &mut History,
    until: Option<Position>,
    found: Found,
    thread: ThreadId,
) -> Stopped
    ensures history { history.new ≡ history.old }
    ensures told { result ≡ told_back until found thread history.old }
{
    let next = next_or(history, thread);
    match found {
        Found::Met(watch) => trap(cause_of(&watch), stepper_or(history, thread)),
        Found::Halted | Found::Stepped => trap(Cause::Stopped, next),
        Found::Nothing if is_begin(history) => trap(Cause::Begin, next),
        Found::Nothing => at_end(history, until, next),
    }
}
