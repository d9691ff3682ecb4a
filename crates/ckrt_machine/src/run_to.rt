//! Runs that end where there is a reason to stop.
ghost use Rattle.std.specs.Prelude.{◌≡◌, ◌<◌, ◌≤◌, List, length, true, false, None, IsSome, IsNone};
ghost use Rattle.ckrt_thread.specs.State.{is_live, is_waiting};
ghost use Rattle.ckrt_memory.specs.Marks.{AreWithin, FollowsStores};
ghost use Rattle.ckrt_calls.specs.WellFormed.{IsWellFormed};
ghost use Rattle.ckrt_machine.specs.Steps.{hart_of};
ghost use Rattle.ckrt_machine.specs.Runs.{stop_of};
ghost use Rattle.ckrt_machine.specs.RunsTo.{meets_on, run_to, stopped_to};
ghost use Rattle.ckrt_machine.specs.Stores.{stored_in_run};

use crate::ending::end_burst;
use crate::event::RunEnd;
use crate::hart::{put_back, put_byte, runner, stop};
use arrayvec::ArrayVec;
use ckrt_calls::{Tables, act_on_request};
use ckrt_memory::{Memory, StopReason};
use ckrt_rv32i::Outcome;

/// Whether the reason to stop is met with the registers of the thread on the hart, which isn't idle.
fn is_met<R: StopReason>(memory: &Memory, tables: &Tables, hart: usize, reason: &R) -> bool
    requires { IsSome (hart_of tables.now hart) }
    ensures { result
        ≡ meets_on (R.meets reason.now) hart
        (record { bytes = memory.now.bytes; tables = tables.now }) }
{
    let thread = runner(tables, hart);
    memory.meets(&tables.threads.live(thread).regs, reason)
}

/// One or more steps of the thread on a hart, before the first of which the reason to stop isn't met: as `turn` makes them, and up
/// to a step before which it is. The result is how many steps are left, and how the run ended, if it did.
fn turn_to<R: StopReason>(
    memory: &mut Memory,
    tables: &mut Tables,
    output: &mut ArrayVec<u8, 1024>,
    hart: usize,
    limit: u32,
    reason: &R,
) -> (u32, Option<RunEnd>)
    requires limit { 0 < limit }
    requires going { stop_of hart tables.old output.old.items ≡ None }
    requires unmet { meets_on (R.meets reason.now) hart
        (record { bytes = memory.old.bytes; tables = tables.old })
        ≡ false }
    requires well_formed { IsWellFormed tables.old }
    ensures well_formed { IsWellFormed tables.new }
    ensures less { IsNone result.1 → result.0 < limit }
    ensures within { result.0 ≤ limit }
    ensures going { IsNone result.1 → stop_of hart tables.new output.new.items ≡ None }
    ensures follows { FollowsStores
        (stored_in_run limit hart (record { bytes = memory.old.bytes; tables = tables.old })
        output.old.items)
        memory.old memory.new }
    ensures rest { IsNone result.1
        → AreWithin
        (stored_in_run result.0 hart (record { bytes = memory.new.bytes; tables = tables.new })
        output.new.items)
        (stored_in_run limit hart (record { bytes = memory.old.bytes; tables = tables.old })
        output.old.items) }
    ensures run { run_to (R.meets reason.now) limit hart
        (record { bytes = memory.old.bytes; tables = tables.old }) output.old.items
        ≡ stopped_to (run_to (R.meets reason.now) result.0) result.1 result.0 hart
        (record { bytes = memory.new.bytes; tables = tables.new }) output.new.items }
{
    let thread = runner(tables, hart);
    let live = tables.threads.live(thread);
    let immediate = live.cancellation.is_immediate();
    if immediate {
        act_on_request(tables, thread);
        return (limit - 1, stop(tables, hart, output));
    }
    let mut regs = live.regs;
    memory.known();
    let (left, outcome) = memory.burst_to(&mut regs, limit, reason);
    put_back(tables, thread, &regs);
    if left == 0 {
        return (0, Some(RunEnd::On));
    }
    if let Outcome::Next = outcome {
        return (left, None);
    }
    let put = end_burst(tables, outcome, thread);
    put_byte(output, put);
    (left - 1, stop(tables, hart, output))
}

/// Steps of the thread on a hart, `limit` at most, up to one before which the reason to stop is met. The result is how many are
/// left, and how the run ended, or none where the reason is met.
pub fn run_to<R: StopReason>(
    memory: &mut Memory,
    tables: &mut Tables,
    output: &mut ArrayVec<u8, 1024>,
    hart: usize,
    limit: u32,
    reason: &R,
) -> (u32, Option<RunEnd>)
    requires going { stop_of hart tables.old output.old.items ≡ None }
    requires well_formed { IsWellFormed tables.old }
    ensures well_formed { IsWellFormed tables.new }
    ensures within { result.0 ≤ limit }
    ensures follows { FollowsStores
        (stored_in_run limit hart (record { bytes = memory.old.bytes; tables = tables.old })
        output.old.items)
        memory.old memory.new }
    ensures run { record {
      left = result.0;
      how = result.1;
      state = record { bytes = memory.new.bytes; tables = tables.new };
      output = output.new.items;
    }
        ≡ run_to (R.meets reason.now) limit hart
        (record { bytes = memory.old.bytes; tables = tables.old }) output.old.items }
{
    let mut left = limit;
    while left > 0 {
        if is_met(memory, tables, hart, reason) {
            return (left, None);
        }
        let (rest, ended) = turn_to(memory, tables, output, hart, left, reason);
        if ended.is_some() {
            return (rest, ended);
        }
        left = rest;
    }
    (0, Some(RunEnd::On))
}
