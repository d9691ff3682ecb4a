//! Calls of the guest, made on the tables of a program by hand.
ghost use Rattle.std.specs.Prelude.{◌≡◌, ◌%◌, ◌≤◌, true, false};
ghost use Rattle.ckrt_thread.specs.State.{is_live, is_waiting};
ghost use Rattle.ckrt_calls.specs.declared.table.Status.TheVariants.{Running};
ghost use Rattle.ckrt_calls.specs.WellFormed.{IsWellFormed};

use ckrt_calls::{Status, Tables, call, tick};
use ckrt_rv32i::Regs;
use ckrt_thread::CallResult;
use std::process::Abort;

/// The registers of a thread become these.
fn arm(tables: &mut Tables, thread: u8, regs: &Regs)
    requires live { is_live tables.old.threads thread ≡ true }
    requires free { is_waiting tables.old.threads thread ≡ false }
    requires aligned { regs.now.pc % 4 ≡ 0 }
    requires running { tables.old.status ≡ Running }
    requires well_formed { IsWellFormed tables.old }
    ensures live { is_live tables.new.threads thread ≡ true }
    ensures free { is_waiting tables.new.threads thread ≡ false }
    ensures running { tables.new.status ≡ Running }
    ensures well_formed { IsWellFormed tables.new }
{
    tables.threads.set_regs(thread, regs);
    tables.threads.known();
}

/// Whether the program runs.
pub fn is_running(tables: &Tables) -> bool
    ensures { result ≡ true → tables.now.status ≡ Running }
{
    matches!(tables.status, Status::Running)
}

/// The same registers with the number of a call and its arguments.
fn armed(regs: &Regs, number: u32, arguments: [u32; 4]) -> Regs
    requires aligned { regs.now.pc % 4 ≡ 0 }
    ensures aligned { result.pc % 4 ≡ 0 }
{
    let mut armed = *regs;
    armed.put(10, arguments[0]);
    armed.put(11, arguments[1]);
    armed.put(12, arguments[2]);
    armed.put(13, arguments[3]);
    armed.put(17, number);
    armed
}

/// Makes the call of this number with these arguments as a thread that is ready.
pub fn call_as<R: Abort>(
    rt: &R,
    tables: &mut Tables,
    thread: u8,
    number: u32,
    arguments: [u32; 4],
) -> CallResult
    requires { IsWellFormed tables.old }
    ensures { IsWellFormed tables.new }
{
    assert!(rt; tables.threads.is_ready(thread));
    assert!(rt; is_running(tables));
    let regs = tables
        .threads
        .regs(thread)
        .expect(rt, "the thread is ready");
    arm(tables, thread, &armed(&regs, number, arguments));
    let (result, _) = call(tables, thread);
    result
}

/// Some ticks pass; answers how many waits ended.
pub fn tick_by<R: Abort>(rt: &R, tables: &mut Tables, ticks: u32) -> u32
    requires { IsWellFormed tables.old }
    ensures { IsWellFormed tables.new }
{
    assert!(rt; tables.clock < 0x1000_0000_0000);
    tick(tables, ticks)
}

/// Thread 1 creates threads 2 to `last`.
fn create_threads<R: Abort>(rt: &R, tables: &mut Tables, last: u32)
    requires { IsWellFormed tables.old }
    ensures { IsWellFormed tables.new }
{
    for _id in 1..last {
        let made = call_as(rt, tables, 1, 10, [0x1000, 7, 0x8000, 0]);
        assert_eq!(rt; made, CallResult::Done(0));
    }
}

/// The tables of a program of 16 pages and 1 hart, with threads 1 to `last`.
pub fn tables_with<R: Abort + AllocGlobal>(rt: &R, last: u32) -> Tables
    ensures { IsWellFormed result }
{
    let mut tables = Tables::new(rt.alloc(), 16, 1).expect(rt, "memory for tables");
    create_threads(rt, &mut tables, last);
    tables
}
