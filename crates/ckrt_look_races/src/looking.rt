//! What is looked at before a step.
ghost use Rattle.std.specs.Prelude.{◌≡◌, Some};
ghost use Rattle.ckrt_thread.specs.declared.records.Thread.TheVariants as Thread;
ghost use Rattle.ckrt_machine.specs.Steps.{hart_of};
ghost use Rattle.ckrt_look_calls.specs.Lines.{caller_of};
ghost use Rattle.ckrt_look_races.specs.Acting.{acting, acts, is_at_point};
ghost use Rattle.ckrt_look_races.specs.Writers.{writes};

use arrayvec::ArrayVec;
use ckrt_calls::{Call, Tables};
use ckrt_look_calls::{Caller, next_caller};
use ckrt_machine::Machine;
use ckrt_thread::{Live, MAX_THREADS, ThreadId, Wait};

/// Who makes a call by the step, whether that thread has the read-write lock of its first argument to write, who acts on a request by
/// it, and who waits.
#[derive(Drop)]
pub(crate) struct Before {
    pub(crate) caller: Option<Caller>,
    pub(crate) is_writer: bool,
    pub(crate) acting: Option<ThreadId>,
    pub(crate) waits: ArrayVec<Wait, MAX_THREADS>,
}

/// Whether who makes a call has the read-write lock of its first argument to write.
fn writes(caller: &Option<Caller>, tables: &Tables) -> bool
    ensures { result ≡ writes caller.now tables.now }
{
    match caller {
        Some(caller) => {
            let lock = tables.rwlocks.lock(caller.regs.get(10));
            lock.is_writer(caller.thread)
        }
        None => false,
    }
}

/// Whether who makes a call does so at a cancellation point.
fn is_at_point(caller: &Option<Caller>) -> bool
    ensures { result ≡ is_at_point caller.now }
{
    match caller {
        Some(caller) => match Call::from_number(caller.regs.get(17)) {
            Some(call) => call.is_point(),
            None => false,
        },
        None => false,
    }
}

/// Whether a thread acts on a request by its next step, which is at a cancellation point or not.
fn acts(is_at_point: bool, live: &Live) -> bool
    ensures { result ≡ acts is_at_point (Some (Thread.Live live.now)) }
{
    let cancellation = &live.cancellation;
    cancellation.is_immediate() || is_at_point && cancellation.is_pending()
}

/// Who acts on a request by the next step of a hart, and may make this call by it.
fn acting(machine: &Machine, hart: u8, caller: &Option<Caller>) -> Option<ThreadId>
    requires { caller.now ≡ caller_of (hart_of machine.now.state.tables hart) machine.now.state }
    ensures { result ≡ acting (hart_of machine.now.state.tables hart) machine.now.state }
{
    let threads = &machine.tables().threads;
    let thread = threads.on_hart(usize::from(hart))?;
    if acts(is_at_point(caller), threads.live(thread)) {
        Some(thread)
    } else {
        None
    }
}

/// What is looked at before the next step of a hart.
pub(crate) fn look(machine: &Machine, hart: u8) -> Before
    ensures caller { result.caller
        ≡ caller_of (hart_of machine.now.state.tables hart) machine.now.state }
    ensures writer { result.is_writer ≡ writes
        (caller_of (hart_of machine.now.state.tables hart) machine.now.state)
        machine.now.state.tables }
    ensures acting { result.acting
        ≡ acting (hart_of machine.now.state.tables hart) machine.now.state }
    ensures waits { result.waits.items ≡ machine.now.state.tables.threads.waits }
{
    let caller = next_caller(machine, hart);
    let tables = machine.tables();
    Before {
        caller,
        is_writer: writes(&caller, tables),
        acting: acting(machine, hart, &caller),
        waits: tables.threads.waits(),
    }
}
