//! Waits whose deadlines come.
ghost use Rattle.std.specs.Prelude.{◌≡◌, ◌≤◌, Some, true, length, is_some};
ghost use Rattle.std.specs.List.{find, list_all};
ghost use Rattle.ckrt_thread.specs.Waits.{is_of};
ghost use Rattle.ckrt_thread.specs.Deadlines.{due_waits};
ghost use Rattle.ckrt_calls.specs.WellFormed.{IsWellFormed, lies_ahead};
ghost use Rattle.ckrt_calls.specs.Table.{timed_out, all_timed_out};

use crate::table::Tables;
use ckrt_cond::resume;
use ckrt_thread::{ETIMEDOUT, Reason, RetakeResult, Wait};

/// A wait that is due ends: a sleep with 0, a wait at a condition with the mutex and `ETIMEDOUT`, and a wait for a
/// mutex with `ETIMEDOUT`.
fn time_out(tables: &mut Tables, wait: &Wait)
    requires found { find (is_of wait.now.thread) tables.old.threads.waits ≡ Some wait.now }
    requires well_formed { IsWellFormed tables.old }
    ensures { tables.new ≡ timed_out wait.now.reason wait.now.thread tables.old }
{
    match wait.reason {
        Reason::Sleep => tables.threads.wake(wait.thread, 0),
        Reason::Condition(_, mutex) => {
            let mutexes = &mut tables.mutexes;
            resume(
                &mut tables.threads,
                mutexes,
                wait.thread,
                mutex,
                RetakeResult::TimedOut,
            );
        }
        _ => tables.threads.wake(wait.thread, ETIMEDOUT),
    }
}

/// The same for a wait that has a deadline: tables that were well-formed stay so.
fn end_wait(tables: &mut Tables, wait: &Wait)
    requires found { find (is_of wait.now.thread) tables.old.threads.waits ≡ Some wait.now }
    requires timed { is_some wait.now.deadline ≡ true }
    requires well_formed { IsWellFormed tables.old }
    ensures well_formed { IsWellFormed tables.new }
    ensures tables { tables.new ≡ timed_out wait.now.reason wait.now.thread tables.old }
{
    time_out(tables, wait);
}

/// Ends each wait that is due at this moment, in order of deadline and then of thread. The result is how many.
pub fn end_due_waits(tables: &mut Tables, now: u64) -> u32
    requires well_formed { IsWellFormed tables.old }
    ensures well_formed { IsWellFormed tables.new }
    ensures ahead { list_all (lies_ahead now) tables.new.threads.waits ≡ true }
    ensures tables { tables.new
        ≡ all_timed_out (due_waits now tables.old.threads.waits) tables.old }
    ensures ended { result ≡ length (due_waits now tables.old.threads.waits) }
{
    let mut ended = 0;
    for _round in 0..tables.threads.wait_count() {
        let Some(wait) = tables.threads.earliest_due(now) else {
            return ended;
        };
        end_wait(tables, &wait);
        ended += 1;
    }
    ended
}
