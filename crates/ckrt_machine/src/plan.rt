//! Who goes onto a hart next.
ghost use Rattle.std.specs.Prelude.{◌≡◌, ◌≤◌};
ghost use Rattle.ckrt_machine.specs.Steps.{hart_of};
ghost use Rattle.ckrt_machine.specs.Plans.{planned, least_ready, next_ready, or_zero};

use crate::hart::is_running;
use ckrt_calls::Tables;
use ckrt_thread::{Hart, MAX_THREADS, ThreadId, Threads};

/// The thread to put onto the hart next: the least ready one that is on no hart and above the
/// hart's own, else the least at all. None where nobody is ready, where the program has ended, and
/// where there is no such hart.
pub fn plan(tables: &Tables, hart: Hart) -> Option<ThreadId>
    ensures { result ≡ planned hart tables.now }
{
    if !is_running(tables) || usize::from(hart) >= tables.threads.hart_count() {
        return None;
    }
    next_ready(tables, hart)
}

/// The least ready thread above the thread on the hart, else the least.
fn next_ready(tables: &Tables, hart: Hart) -> Option<ThreadId>
    ensures { result ≡ next_ready hart tables.now }
{
    let present = present(tables, hart);
    match ready(&tables.threads, present + 1) {
        Some(thread) => Some(thread),
        None => ready(&tables.threads, 1),
    }
}

/// The thread on the hart, or 0.
fn present(tables: &Tables, hart: Hart) -> ThreadId
    ensures present { result ≡ or_zero (hart_of tables.now hart) }
    ensures small { result ≤ 64 }
{
    match tables.threads.on_hart(usize::from(hart)) {
        Some(thread) => {
            tables.threads.known_live(thread);
            thread
        }
        None => 0,
    }
}

/// The least ready thread from this id on.
fn ready(threads: &Threads, from: ThreadId) -> Option<ThreadId>
    requires { from ≤ 65 }
    ensures { result ≡ least_ready from threads.now }
{
    for thread in from..MAX_THREADS as ThreadId + 1 {
        if threads.is_ready(thread) {
            return Some(thread);
        }
    }
    None
}
