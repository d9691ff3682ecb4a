//! What each call does.
ghost use Rattle.std.specs.Prelude.{◌≡◌, true, false, Option, None};
ghost use Rattle.ckrt_registers.specs.Registers.{Registers};
ghost use Rattle.ckrt_thread.specs.State.{is_live, is_waiting};
ghost use Rattle.ckrt_calls.specs.declared.table.Status.TheVariants.{Running};
ghost use Rattle.ckrt_calls.specs.WellFormed.{IsWellFormed};
ghost use Rattle.ckrt_calls.specs.Table.{process_row, thread_row, mutex_row, condition_row, barrier_row, rwlock_row, cancellation_row, key_row, row, row_or_point, called};
ghost use Rattle.ckrt_calls.specs.Calling.{MayCall};

use crate::console::getc;
use crate::number::{
    BarrierCall, Call, CancellationCall, ConditionCall, KeyCall, MutexCall, ProcessCall,
    RwLockCall, ThreadCall,
};
use crate::table::{Status, Tables};
use crate::time::{clock, moment_of, sleep_until};
use crate::unwinding::{acts_at, begin_unwind};
use ckrt_registers::Regs;
use ckrt_thread::{CallResult, ENOSYS, ThreadId};

/// The thread, which is on a hart, makes the call that stands in its registers: the number in x17, the arguments in x10 to x13.
/// At a cancellation point it acts on a request to cancel it instead. The result, which the caller puts into x10, and the
/// byte that the call puts, if it puts one. A second result is in x11 then.
pub fn call(tables: &mut Tables, thread: ThreadId) -> (CallResult, Option<u8>)
    requires live { is_live tables.old.threads thread ≡ true }
    requires free { is_waiting tables.old.threads thread ≡ false }
    requires running { tables.old.status ≡ Running }
    requires well_formed { IsWellFormed tables.old }
    ensures well_formed { IsWellFormed tables.new }
    ensures result { result.0 ≡ (called thread tables.old).result }
    ensures put { result.1 ≡ (called thread tables.old).put }
    ensures tables { tables.new ≡ (called thread tables.old).tables }
{
    dispatch(tables, thread)
}

/// The change of [`call`], and what it answers.
fn dispatch(tables: &mut Tables, thread: ThreadId) -> (CallResult, Option<u8>)
    requires { MayCall thread tables.old }
    ensures result { result.0 ≡ (called thread tables.old).result }
    ensures put { result.1 ≡ (called thread tables.old).put }
    ensures tables { tables.new ≡ (called thread tables.old).tables }
{
    let Some(regs) = tables.threads.regs(thread) else {
        unreachable!()
    };
    match Call::from_number(regs.get(17)) {
        Some(call) => act_or_perform(tables, call, thread, &regs),
        None => (CallResult::Done(ENOSYS), None),
    }
}

/// One call, with the thread's registers. At a cancellation point the thread acts on a request instead, if it has one.
fn act_or_perform(
    tables: &mut Tables,
    call: Call,
    thread: ThreadId,
    regs: &Regs,
) -> (CallResult, Option<u8>)
    requires { MayCall thread tables.old }
    ensures result { result.0 ≡ (row_or_point call thread regs.now tables.old).result }
    ensures put { result.1 ≡ (row_or_point call thread regs.now tables.old).put }
    ensures tables { tables.new ≡ (row_or_point call thread regs.now tables.old).tables }
{
    if acts_at(tables, call, thread) {
        return (CallResult::Moved, None);
    }
    perform(tables, call, thread, regs)
}

/// One call, with the thread's registers.
fn perform(
    tables: &mut Tables,
    call: Call,
    thread: ThreadId,
    regs: &Regs,
) -> (CallResult, Option<u8>)
    requires { MayCall thread tables.old }
    ensures result { result.0 ≡ (row call thread regs.now tables.old).result }
    ensures put { result.1 ≡ (row call thread regs.now tables.old).put }
    ensures tables { tables.new ≡ (row call thread regs.now tables.old).tables }
{
    match call {
        Call::Process(call) => perform_for_process(tables, call, thread, regs),
        Call::Thread(call) => (perform_on_threads(tables, call, thread, regs), None),
        Call::Mutex(call) => (perform_on_mutexes(tables, call, thread, regs), None),
        Call::Condition(call) => (perform_on_conditions(tables, call, thread, regs), None),
        Call::Barrier(call) => (perform_on_barriers(tables, call, thread, regs), None),
        Call::RwLock(call) => (perform_on_rwlocks(tables, call, thread, regs), None),
        Call::Cancellation(call) => (perform_on_cancellation(tables, call, thread, regs), None),
        Call::Key(call) => (perform_on_keys(tables, call, thread, regs), None),
    }
}

/// A call on the process, its console or its time.
fn perform_for_process(
    tables: &mut Tables,
    call: ProcessCall,
    thread: ThreadId,
    regs: &Regs,
) -> (CallResult, Option<u8>)
    requires { MayCall thread tables.old }
    ensures result { result.0 ≡ (process_row call thread regs.now tables.old).result }
    ensures put { result.1 ≡ (process_row call thread regs.now tables.old).put }
    ensures tables { tables.new ≡ (process_row call thread regs.now tables.old).tables }
{
    let a = regs.get(10);
    match call {
        ProcessCall::Exit => {
            tables.status = Status::Exited(a);
            (CallResult::Moved, None)
        }
        ProcessCall::Putc => (CallResult::Done(0), Some((a % 256) as u8)),
        ProcessCall::Getc => (getc(tables, thread), None),
        ProcessCall::Clock => (clock(tables, thread), None),
        ProcessCall::SleepUntil => {
            let moment = moment_of(a, regs.get(11));
            (sleep_until(tables, thread, moment), None)
        }
    }
}

/// A call on threads.
fn perform_on_threads(
    tables: &mut Tables,
    call: ThreadCall,
    thread: ThreadId,
    regs: &Regs,
) -> CallResult
    requires { MayCall thread tables.old }
    ensures result { result ≡ (thread_row call thread regs.now tables.old).result }
    ensures put { None ≡ (thread_row call thread regs.now tables.old).put }
    ensures tables { tables.new ≡ (thread_row call thread regs.now tables.old).tables }
{
    let a = regs.get(10);
    match call {
        ThreadCall::Create => {
            let b = regs.get(11);
            tables
                .threads
                .create(thread, a, b, regs.get(12), regs.get(13))
        }
        ThreadCall::Join => tables.threads.join(thread, a),
        ThreadCall::Detach => tables.threads.detach(a),
        ThreadCall::Exit => {
            begin_unwind(tables, thread, a);
            CallResult::Moved
        }
        ThreadCall::SelfId => CallResult::Done(thread as u32),
    }
}

/// A call on mutexes.
fn perform_on_mutexes(
    tables: &mut Tables,
    call: MutexCall,
    thread: ThreadId,
    regs: &Regs,
) -> CallResult
    requires { MayCall thread tables.old }
    ensures result { result ≡ (mutex_row call thread regs.now tables.old).result }
    ensures put { None ≡ (mutex_row call thread regs.now tables.old).put }
    ensures tables { tables.new ≡ (mutex_row call thread regs.now tables.old).tables }
{
    let a = regs.get(10);
    let b = regs.get(11);
    let clock = tables.clock;
    let threads = &mut tables.threads;
    let mutexes = &mut tables.mutexes;
    match call {
        MutexCall::Init => mutexes.init(threads, a, b),
        MutexCall::Destroy => mutexes.destroy(threads, a),
        MutexCall::Lock => mutexes.lock(threads, thread, a),
        MutexCall::TryLock => mutexes.trylock(threads, thread, a),
        MutexCall::TimedLock => {
            let moment = moment_of(b, regs.get(12));
            mutexes.timedlock(threads, thread, a, moment, clock)
        }
        MutexCall::Unlock => mutexes.unlock(threads, thread, a),
    }
}

/// A call on conditions.
fn perform_on_conditions(
    tables: &mut Tables,
    call: ConditionCall,
    thread: ThreadId,
    regs: &Regs,
) -> CallResult
    requires { MayCall thread tables.old }
    ensures result { result ≡ (condition_row call thread regs.now tables.old).result }
    ensures put { None ≡ (condition_row call thread regs.now tables.old).put }
    ensures tables { tables.new ≡ (condition_row call thread regs.now tables.old).tables }
{
    let a = regs.get(10);
    let b = regs.get(11);
    let clock = tables.clock;
    let threads = &mut tables.threads;
    let mutexes = &mut tables.mutexes;
    match call {
        ConditionCall::Init => ckrt_cond::init(threads, mutexes, a),
        ConditionCall::Destroy => ckrt_cond::destroy(threads, mutexes, a),
        ConditionCall::Wait => ckrt_cond::wait(threads, mutexes, thread, a, b),
        ConditionCall::TimedWait => {
            let moment = moment_of(regs.get(12), regs.get(13));
            ckrt_cond::timedwait(threads, mutexes, thread, a, b, moment, clock)
        }
        ConditionCall::Signal => ckrt_cond::signal(threads, mutexes, a),
        ConditionCall::Broadcast => ckrt_cond::broadcast(threads, mutexes, a),
    }
}

/// A call on barriers.
fn perform_on_barriers(
    tables: &mut Tables,
    call: BarrierCall,
    thread: ThreadId,
    regs: &Regs,
) -> CallResult
    requires { MayCall thread tables.old }
    ensures result { result ≡ (barrier_row call thread regs.now tables.old).result }
    ensures put { None ≡ (barrier_row call thread regs.now tables.old).put }
    ensures tables { tables.new ≡ (barrier_row call thread regs.now tables.old).tables }
{
    let a = regs.get(10);
    match call {
        BarrierCall::Init => tables.barriers.init(&tables.threads, a, regs.get(11)),
        BarrierCall::Destroy => tables.barriers.destroy(&tables.threads, a),
        BarrierCall::Wait => tables.barriers.wait(&mut tables.threads, thread, a),
    }
}

/// A call on read-write locks.
fn perform_on_rwlocks(
    tables: &mut Tables,
    call: RwLockCall,
    thread: ThreadId,
    regs: &Regs,
) -> CallResult
    requires { MayCall thread tables.old }
    ensures result { result ≡ (rwlock_row call thread regs.now tables.old).result }
    ensures put { None ≡ (rwlock_row call thread regs.now tables.old).put }
    ensures tables { tables.new ≡ (rwlock_row call thread regs.now tables.old).tables }
{
    let a = regs.get(10);
    let threads = &mut tables.threads;
    let locks = &mut tables.rwlocks;
    match call {
        RwLockCall::Init => locks.init(threads, a),
        RwLockCall::Destroy => locks.destroy(threads, a),
        RwLockCall::RdLock => locks.rdlock(threads, thread, a),
        RwLockCall::TryRdLock => locks.tryrdlock(threads, thread, a),
        RwLockCall::WrLock => locks.wrlock(threads, thread, a),
        RwLockCall::TryWrLock => locks.trywrlock(threads, thread, a),
        RwLockCall::Unlock => locks.unlock(threads, thread, a),
    }
}

/// A call on cancellation and clean-up handlers.
fn perform_on_cancellation(
    tables: &mut Tables,
    call: CancellationCall,
    thread: ThreadId,
    regs: &Regs,
) -> CallResult
    requires { MayCall thread tables.old }
    ensures result { result ≡ (cancellation_row call thread regs.now tables.old).result }
    ensures put { None ≡ (cancellation_row call thread regs.now tables.old).put }
    ensures tables { tables.new ≡ (cancellation_row call thread regs.now tables.old).tables }
{
    let a = regs.get(10);
    let threads = &mut tables.threads;
    match call {
        CancellationCall::Cancel => ckrt_cancel::request(threads, &mut tables.mutexes, a),
        CancellationCall::TestCancel => CallResult::Done(0),
        CancellationCall::SetCancelState => ckrt_cancel::set_state(threads, thread, a),
        CancellationCall::SetCancelType => ckrt_cancel::set_type(threads, thread, a),
        CancellationCall::CleanupPush => ckrt_cancel::push(threads, thread, a, regs.get(11)),
        CancellationCall::CleanupPop => ckrt_cancel::pop(threads, thread, a, regs.pc()),
    }
}

/// A call on thread-specific data.
fn perform_on_keys(tables: &mut Tables, call: KeyCall, thread: ThreadId, regs: &Regs) -> CallResult
    requires { MayCall thread tables.old }
    ensures result { result ≡ (key_row call thread regs.now tables.old).result }
    ensures put { None ≡ (key_row call thread regs.now tables.old).put }
    ensures tables { tables.new ≡ (key_row call thread regs.now tables.old).tables }
{
    let a = regs.get(10);
    let threads = &mut tables.threads;
    match call {
        KeyCall::Create => ckrt_cancel::key_create(threads, thread, a),
        KeyCall::Delete => ckrt_cancel::key_delete(threads, a),
        KeyCall::SetSpecific => ckrt_cancel::setspecific(threads, thread, a, regs.get(11)),
        KeyCall::GetSpecific => ckrt_cancel::getspecific(threads, thread, a),
    }
}
