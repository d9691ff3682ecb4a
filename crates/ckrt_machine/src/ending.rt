//! What ends a burst of instructions: a call, a return to one of the gates, or a fault.
ghost use Rattle.std.specs.Prelude.{◌≡◌, ◌≤◌, ◌%◌, ℕ, List, true, false};
ghost use Rattle.ckrt_thread.specs.State.{is_live, is_waiting};
ghost use Rattle.ckrt_thread.specs.declared.records.CallResult.TheVariants.{Done};
ghost use Rattle.ckrt_rv32i.specs.declared.execution.Outcome.TheVariants.{Fault};
ghost use Rattle.ckrt_calls.specs.declared.table.Status.TheVariants.{Running, Faulted};
ghost use Rattle.ckrt_calls.specs.WellFormed.{IsWellFormed};
ghost use Rattle.ckrt_calls.specs.Table as calls;
ghost use Rattle.ckrt_machine.specs.Steps.{quiet, returned, handled, called, with_result};
ghost use Rattle.ckrt_machine.specs.Bursts.{ending};

use ckrt_calls::{Status, Tables, begin_unwind, call, next_handler};
use ckrt_rv32i::{Cause, Outcome};
use ckrt_thread::{CallResult, RETURN_GATE, ThreadId, UNWIND_GATE};

/// What follows the last instruction of a burst, whose registers are back in the table: nothing, a call, or what a
/// fault comes to. The result is the byte that a call puts.
///
/// It isn't inlined: a run would clear the room of its locals at each step that is made by itself.
#[inline(never)]
pub fn end_burst(tables: &mut Tables, outcome: Outcome, thread: ThreadId) -> Option<u8>
    requires live { is_live tables.old.threads thread ≡ true }
    requires free { is_waiting tables.old.threads thread ≡ false }
    requires id { thread ≤ 64 }
    requires running { tables.old.status ≡ Running }
    requires well_formed { IsWellFormed tables.old }
    ensures well_formed { IsWellFormed tables.new }
    ensures tables { (m : List ℕ)
        → record { state = record { bytes = m; tables = tables.new }; put = result }
        ≡ ending outcome thread (record { bytes = m; tables = tables.old }) }
{
    match outcome {
        Outcome::Next => None,
        Outcome::Call => make_call(tables, thread),
        Outcome::Fault(cause) => {
            end_at_fault(tables, cause, thread);
            None
        }
    }
}

/// Makes the call that the thread's registers name, and gives the byte that it puts.
fn make_call(tables: &mut Tables, thread: ThreadId) -> Option<u8>
    requires live { is_live tables.old.threads thread ≡ true }
    requires free { is_waiting tables.old.threads thread ≡ false }
    requires id { thread ≤ 64 }
    requires running { tables.old.status ≡ Running }
    requires well_formed { IsWellFormed tables.old }
    ensures well_formed { IsWellFormed tables.new }
    ensures tables { (m : List ℕ)
        → record { state = record { bytes = m; tables = tables.new }; put = result }
        ≡ called thread m (calls.called thread tables.old) }
{
    let (made, put) = call(tables, thread);
    if let CallResult::Done(value) = made {
        put_result(tables, thread, value);
    }
    put
}

/// The result of a call goes to x10 of the thread that made it.
fn put_result(tables: &mut Tables, thread: ThreadId, value: u32)
    requires id { thread ≤ 64 }
    requires well_formed { IsWellFormed tables.old }
    ensures well_formed { IsWellFormed tables.new }
    ensures tables { tables.new ≡ with_result (Done value) thread tables.old }
{
    tables.threads.set_result(thread, value);
    tables.threads.known();
}

/// A fault of a thread. Where it is at a gate, which no instruction is at, it returned from its first function, from a
/// clean-up handler or from a destructor.
fn end_at_fault(tables: &mut Tables, cause: Cause, thread: ThreadId)
    requires live { is_live tables.old.threads thread ≡ true }
    requires free { is_waiting tables.old.threads thread ≡ false }
    requires running { tables.old.status ≡ Running }
    requires well_formed { IsWellFormed tables.old }
    ensures well_formed { IsWellFormed tables.new }
    ensures tables { (m : List ℕ)
        → quiet (record { bytes = m; tables = tables.new })
        ≡ ending (Fault cause) thread (record { bytes = m; tables = tables.old }) }
{
    let live = tables.threads.live(thread);
    let pc = live.regs.pc();
    if pc == RETURN_GATE {
        let initial = live.initial;
        let value = live.regs.get(10);
        leave(tables, initial, thread, value);
    } else if pc == UNWIND_GATE {
        let unwinds = live.cancellation.unwinding.is_some();
        leave_handler(tables, unwinds, thread, pc);
    } else {
        fault(tables, cause, thread, pc);
    }
}

/// The first function of a thread returned with a value: the initial thread ends the program with it, and any other
/// unwinds to end with it.
fn leave(tables: &mut Tables, initial: bool, thread: ThreadId, value: u32)
    requires live { is_live tables.old.threads thread ≡ true }
    requires free { is_waiting tables.old.threads thread ≡ false }
    requires running { tables.old.status ≡ Running }
    requires well_formed { IsWellFormed tables.old }
    ensures well_formed { IsWellFormed tables.new }
    ensures tables { (m : List ℕ)
        → quiet (record { bytes = m; tables = tables.new })
        ≡ returned initial value thread (record { bytes = m; tables = tables.old }) }
{
    if initial {
        tables.status = Status::Exited(value);
    } else {
        begin_unwind(tables, thread, value);
    }
}

/// A clean-up handler or a destructor returned: a thread that unwinds goes to its next handler, else to its next
/// destructor, or ends, and any other faults.
fn leave_handler(tables: &mut Tables, unwinds: bool, thread: ThreadId, pc: u32)
    requires live { is_live tables.old.threads thread ≡ true }
    requires free { is_waiting tables.old.threads thread ≡ false }
    requires running { tables.old.status ≡ Running }
    requires aligned { pc % 4 ≡ 0 }
    requires well_formed { IsWellFormed tables.old }
    ensures well_formed { IsWellFormed tables.new }
    ensures tables { (m : List ℕ)
        → quiet (record { bytes = m; tables = tables.new })
        ≡ handled unwinds pc thread (record { bytes = m; tables = tables.old }) }
{
    if unwinds {
        next_handler(tables, thread);
    } else {
        fault(tables, Cause::Gate, thread, pc);
    }
}

/// A fault ends the program: thread, pc and cause stay in its status.
fn fault(tables: &mut Tables, cause: Cause, thread: ThreadId, pc: u32)
    requires live { is_live tables.old.threads thread ≡ true }
    requires aligned { pc % 4 ≡ 0 }
    requires well_formed { IsWellFormed tables.old }
    ensures well_formed { IsWellFormed tables.new }
    ensures tables { tables.new ≡ record tables.old { status = Faulted thread pc cause } }
{
    tables.status = Status::Faulted(thread, pc, cause);
}
