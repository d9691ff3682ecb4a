//! Harts: threads go onto them, and they run.
ghost use Rattle.std.specs.Prelude.{◌≡◌, ◌<◌, ◌≤◌, ◌-◌, ◌%◌, ℕ, List, [], length, true, false, Some, None, IsSome, IsNone, IfSome};
ghost use Rattle.ckrt_thread.specs.State.{is_live, is_ready, is_waiting, placed_on, thread_of};
ghost use Rattle.ckrt_thread.specs.Cancellation.{cancellation_of, is_immediate};
ghost use Rattle.ckrt_memory.specs.Marks.{AreWithin, FollowsStores};
ghost use Rattle.ckrt_calls.specs.WellFormed.{IsWellFormed};
ghost use Rattle.ckrt_machine.specs.Steps.{hart_of, with_regs};
ghost use Rattle.ckrt_machine.specs.Runs.{is_running, stop_of, stopped, run_on, with_byte};
ghost use Rattle.ckrt_machine.specs.Events.{run_of};
ghost use Rattle.ckrt_machine.specs.Stores.{stored_in_run};

use crate::ending::end_burst;
use crate::event::{Answer, RunEnd};
use arrayvec::ArrayVec;
use ckrt_calls::{Status, Tables, act_on_request};
use ckrt_memory::Memory;
use ckrt_registers::Regs;
use ckrt_thread::{Hart, ThreadId};

/// How many bytes a run puts at most.
pub const RUN_OUTPUT: usize = 1_024;

/// A ready thread goes onto a hart. The thread that was there goes off, and stays ready.
pub fn place(tables: &mut Tables, hart: Hart, thread: ThreadId)
    requires hart { hart < tables.old.threads.hart_count }
    requires ready { is_ready tables.old.threads thread ≡ true }
    requires well_formed { IsWellFormed tables.old }
    ensures well_formed { IsWellFormed tables.new }
    ensures tables { tables.new
        ≡ record tables.old { threads = placed_on hart thread tables.old.threads } }
{
    tables.threads.place(usize::from(hart), thread);
    tables.threads.known();
}

/// Whether the program hasn't ended.
pub fn is_running(tables: &Tables) -> bool
    ensures { result ≡ is_running tables.now.status }
{
    matches!(tables.status, Status::Running)
}

/// Whether a run ends after a step, and how.
pub fn stop(tables: &Tables, hart: usize, output: &ArrayVec<u8, 1024>) -> Option<RunEnd>
    ensures { result ≡ stop_of hart tables.now output.now.items }
{
    if !is_running(tables) {
        return Some(RunEnd::End);
    }
    if tables.threads.on_hart(hart).is_none() {
        return Some(RunEnd::Off);
    }
    if output.len() >= RUN_OUTPUT {
        return Some(RunEnd::On);
    }
    None
}

/// The thread on the hart, which isn't idle.
pub fn runner(tables: &Tables, hart: usize) -> u8
    requires { IsSome (hart_of tables.now hart) }
    ensures on { hart_of tables.now hart ≡ Some result }
    ensures live { is_live tables.now.threads result ≡ true }
    ensures id { result ≤ 64 }
    ensures free { is_waiting tables.now.threads result ≡ false }
{
    let Some(thread) = tables.threads.on_hart(hart) else {
        unreachable!()
    };
    tables.threads.known_live(thread);
    thread
}

/// A thread's registers go back into the table.
pub fn put_back(tables: &mut Tables, thread: ThreadId, regs: &Regs)
    requires live { is_live tables.old.threads thread ≡ true }
    requires free { is_waiting tables.old.threads thread ≡ false }
    requires aligned { regs.now.pc % 4 ≡ 0 }
    requires well_formed { IsWellFormed tables.old }
    ensures tables { tables.new ≡ with_regs thread regs.now tables.old }
    ensures live { is_live tables.new.threads thread ≡ true }
    ensures free { is_waiting tables.new.threads thread ≡ false }
    ensures well_formed { IsWellFormed tables.new }
{
    tables.threads.set_regs(thread, regs);
    tables.threads.known();
}

/// The byte that a step puts, if it puts one.
pub fn put_byte(output: &mut ArrayVec<u8, 1024>, put: Option<u8>)
    requires { length output.old.items < 1024 }
    ensures { output.new.items ≡ with_byte put output.old.items }
{
    if let Some(byte) = put {
        output.push(byte);
    }
}

/// One or more steps of the thread on a hart: it acts on a request that is immediate, or makes a burst with its
/// registers at hand, and what ends it. A request becomes immediate only by a call, which ends a burst, or before the
/// run; so it is looked for here alone. The result is how many steps are left, and how the run ended, if it did.
fn turn(
    memory: &mut Memory,
    tables: &mut Tables,
    output: &mut ArrayVec<u8, 1024>,
    hart: usize,
    limit: u32,
) -> (u32, Option<RunEnd>)
    requires limit { 0 < limit }
    requires going { stop_of hart tables.old output.old.items ≡ None }
    requires well_formed { IsWellFormed tables.old }
    ensures well_formed { IsWellFormed tables.new }
    ensures less { IsNone result.1 → result.0 < limit }
    ensures within { result.0 ≤ limit }
    ensures going { IsNone result.1 → stop_of hart tables.new output.new.items ≡ None }
    ensures follows { FollowsStores
        (stored_in_run limit hart (record { bytes = memory.old.bytes; tables = tables.old })
        output.old.items)
        memory.old memory.new }
    ensures rest { IsNone result.1
        → AreWithin
        (stored_in_run result.0 hart (record { bytes = memory.new.bytes; tables = tables.new })
        output.new.items)
        (stored_in_run limit hart (record { bytes = memory.old.bytes; tables = tables.old })
        output.old.items) }
    ensures run { run_on limit hart (record { bytes = memory.old.bytes; tables = tables.old })
        output.old.items
        ≡ stopped (run_on result.0) result.1 result.0 hart
        (record { bytes = memory.new.bytes; tables = tables.new }) output.new.items }
{
    let thread = runner(tables, hart);
    let live = tables.threads.live(thread);
    let immediate = live.cancellation.is_immediate();
    if immediate {
        act_on_request(tables, thread);
        return (limit - 1, stop(tables, hart, output));
    }
    let mut regs = live.regs;
    memory.known();
    let (left, outcome) = memory.burst(&mut regs, limit);
    put_back(tables, thread, &regs);
    if left == 0 {
        return (0, Some(RunEnd::On));
    }
    let put = end_burst(tables, outcome, thread);
    put_byte(output, put);
    (left - 1, stop(tables, hart, output))
}

/// Steps of the thread on a hart, `limit` at most. The result is how many are left, and how the run
/// ended.
pub fn run(
    memory: &mut Memory,
    tables: &mut Tables,
    output: &mut ArrayVec<u8, 1024>,
    hart: usize,
    limit: u32,
) -> (u32, RunEnd)
    requires going { stop_of hart tables.old output.old.items ≡ None }
    requires well_formed { IsWellFormed tables.old }
    ensures well_formed { IsWellFormed tables.new }
    ensures within { result.0 ≤ limit }
    ensures follows { FollowsStores
        (stored_in_run limit hart (record { bytes = memory.old.bytes; tables = tables.old })
        output.old.items)
        memory.old memory.new }
    ensures run { record {
      left = result.0;
      how = result.1;
      state = record { bytes = memory.new.bytes; tables = tables.new };
      output = output.new.items;
    }
        ≡ run_on limit hart (record { bytes = memory.old.bytes; tables = tables.old })
        output.old.items }
{
    let mut left = limit;
    while left > 0 {
        let (rest, ended) = turn(memory, tables, output, hart, left);
        if let Some(how) = ended {
            return (rest, how);
        }
        left = rest;
    }
    (0, RunEnd::On)
}

/// The same from no output on, as an event's answer.
pub fn answer_run(
    memory: &mut Memory,
    tables: &mut Tables,
    output: &mut ArrayVec<u8, 1024>,
    hart: Hart,
    limit: u32,
) -> Answer
    requires going { stop_of hart tables.old output.old.items ≡ None }
    requires empty { output.old.items ≡ [] }
    requires well_formed { IsWellFormed tables.old }
    ensures well_formed { IsWellFormed tables.new }
    ensures follows { FollowsStores
        (stored_in_run limit hart (record { bytes = memory.old.bytes; tables = tables.old })
        [])
        memory.old memory.new }
    ensures run { record {
      state = record { bytes = memory.new.bytes; tables = tables.new };
      answer = result;
      output = output.new.items;
    } ≡ run_of hart limit (record { bytes = memory.old.bytes; tables = tables.old }) }
{
    let (left, how) = run(memory, tables, output, usize::from(hart), limit);
    Answer::Ran(limit - left, how)
}
