//! Threads that unwind: their clean-up handlers and the destructors of their values run, and then they end.
ghost use Rattle.std.specs.Prelude.{◌≡◌, true, false};
ghost use Rattle.ckrt_thread.specs.State.{is_live, is_waiting, is_any_live};
ghost use Rattle.ckrt_calls.specs.declared.table.Status.TheVariants.{Running};
ghost use Rattle.ckrt_calls.specs.WellFormed.{IsWellFormed};
ghost use Rattle.ckrt_calls.specs.Table.{status_with, unwound, begun_unwind, acted, acts_at};

use crate::number::Call;
use crate::table::{Status, Tables};
use ckrt_thread::ThreadId;

/// With the last thread that ends the program exits with status 0.
fn exit_with_last(tables: &mut Tables)
    ensures { tables.new
        ≡ record tables.old
        { status = status_with (is_any_live tables.old.threads) tables.old.status } }
{
    if !tables.threads.is_any_live() {
        tables.status = Status::Exited(0);
    }
}

/// A thread that is on a hart begins to unwind: its clean-up handlers run, the newest first, then the destructors of its
/// values, and then it ends with the value. With the last thread that ends the program exits with status 0.
pub fn begin_unwind(tables: &mut Tables, thread: ThreadId, value: u32)
    requires live { is_live tables.old.threads thread ≡ true }
    requires free { is_waiting tables.old.threads thread ≡ false }
    requires running { tables.old.status ≡ Running }
    requires well_formed { IsWellFormed tables.old }
    ensures well_formed { IsWellFormed tables.new }
    ensures tables { tables.new ≡ begun_unwind thread value tables.old }
{
    ckrt_cancel::begin_unwind(&mut tables.threads, thread, value);
    exit_with_last(tables);
}

/// A thread that is on a hart, and that unwinds, goes to its next clean-up handler, else to the next destructor. With
/// none left it ends, and with the last thread the program exits with status 0.
pub fn next_handler(tables: &mut Tables, thread: ThreadId)
    requires live { is_live tables.old.threads thread ≡ true }
    requires free { is_waiting tables.old.threads thread ≡ false }
    requires running { tables.old.status ≡ Running }
    requires well_formed { IsWellFormed tables.old }
    ensures well_formed { IsWellFormed tables.new }
    ensures tables { tables.new ≡ unwound thread tables.old }
{
    ckrt_cancel::next_handler(&mut tables.threads, thread);
    exit_with_last(tables);
}

/// A thread that is on a hart acts on the request to cancel it: it begins to unwind, to end as a cancelled thread.
///
/// It isn't inlined: a run would clear the room of its locals at each step that is made by itself.
#[inline(never)]
pub fn act_on_request(tables: &mut Tables, thread: ThreadId)
    requires live { is_live tables.old.threads thread ≡ true }
    requires free { is_waiting tables.old.threads thread ≡ false }
    requires running { tables.old.status ≡ Running }
    requires well_formed { IsWellFormed tables.old }
    ensures well_formed { IsWellFormed tables.new }
    ensures tables { tables.new ≡ acted thread tables.old }
{
    ckrt_cancel::act_on_request(&mut tables.threads, thread);
    exit_with_last(tables);
}

/// Whether the thread acts on a request at this call, which it does not make then. If so it has.
pub fn acts_at(tables: &mut Tables, call: Call, thread: ThreadId) -> bool
    requires live { is_live tables.old.threads thread ≡ true }
    requires free { is_waiting tables.old.threads thread ≡ false }
    ensures acts { result ≡ acts_at call thread tables.old }
    ensures acted { result ≡ true → tables.new ≡ acted thread tables.old }
    ensures same { result ≡ false → tables.new ≡ tables.old }
{
    if !call.is_point() {
        return false;
    }
    if !ckrt_cancel::point(&mut tables.threads, thread) {
        return false;
    }
    exit_with_last(tables);
    true
}
