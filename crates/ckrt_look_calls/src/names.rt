//! The table of calls as text: names, and how arguments and answers are told.
ghost use Rattle.std.specs.Prelude.{◌≡◌};
ghost use Rattle.ckrt_look_calls.specs.Calls.{answers_of, arguments_of, barrier_name, cancellation_name, condition_name, key_name, mutex_name, name_of, process_name, rwlock_name, thread_name};

use ckrt_calls::{
    BarrierCall, Call, CancellationCall, ConditionCall, KeyCall, MutexCall, ProcessCall,
    RwLockCall, ThreadCall,
};
use ckrt_rv32i::Cause;

/// How the arguments of a call are told, from x10 on. A word that may be an address is told in hexadecimal digits.
#[derive(Clone, Copy, Debug)]
pub enum Arguments {
    Nothing,
    Number,
    Word,
    WordNumber,
    NumberWord,
    TwoWords,
    /// A moment of the clock, in two registers.
    Moment,
    WordMoment,
    TwoWordsMoment,
    /// Three words, and a number.
    Creation,
}

/// How the answers of a call are told, from x10 on. A second one stands behind a first one of 0 alone.
#[derive(Clone, Copy, Debug)]
pub enum Answers {
    One,
    AndNumber,
    /// The second may be an address: it is told in hexadecimal digits.
    AndWord,
    /// A moment of the clock, in two registers.
    Moment,
}

fn process_name(call: ProcessCall) -> &'static [u8]
    ensures { result.now ≡ process_name call }
{
    match call {
        ProcessCall::Exit => b"exit".as_slice(),
        ProcessCall::Putc => b"putc".as_slice(),
        ProcessCall::Getc => b"getc".as_slice(),
        ProcessCall::Clock => b"clock".as_slice(),
        ProcessCall::SleepUntil => b"sleep_until".as_slice(),
    }
}

fn thread_name(call: ThreadCall) -> &'static [u8]
    ensures { result.now ≡ thread_name call }
{
    match call {
        ThreadCall::Create => b"create".as_slice(),
        ThreadCall::Join => b"join".as_slice(),
        ThreadCall::Detach => b"detach".as_slice(),
        ThreadCall::Exit => b"thread_exit".as_slice(),
        ThreadCall::SelfId => b"self".as_slice(),
    }
}

fn mutex_name(call: MutexCall) -> &'static [u8]
    ensures { result.now ≡ mutex_name call }
{
    match call {
        MutexCall::Init => b"mutex_init".as_slice(),
        MutexCall::Destroy => b"mutex_destroy".as_slice(),
        MutexCall::Lock => b"mutex_lock".as_slice(),
        MutexCall::TryLock => b"mutex_trylock".as_slice(),
        MutexCall::TimedLock => b"mutex_timedlock".as_slice(),
        MutexCall::Unlock => b"mutex_unlock".as_slice(),
    }
}

fn condition_name(call: ConditionCall) -> &'static [u8]
    ensures { result.now ≡ condition_name call }
{
    match call {
        ConditionCall::Init => b"cond_init".as_slice(),
        ConditionCall::Destroy => b"cond_destroy".as_slice(),
        ConditionCall::Wait => b"cond_wait".as_slice(),
        ConditionCall::TimedWait => b"cond_timedwait".as_slice(),
        ConditionCall::Signal => b"cond_signal".as_slice(),
        ConditionCall::Broadcast => b"cond_broadcast".as_slice(),
    }
}

fn barrier_name(call: BarrierCall) -> &'static [u8]
    ensures { result.now ≡ barrier_name call }
{
    match call {
        BarrierCall::Init => b"barrier_init".as_slice(),
        BarrierCall::Destroy => b"barrier_destroy".as_slice(),
        BarrierCall::Wait => b"barrier_wait".as_slice(),
    }
}

fn rwlock_name(call: RwLockCall) -> &'static [u8]
    ensures { result.now ≡ rwlock_name call }
{
    match call {
        RwLockCall::Init => b"rwlock_init".as_slice(),
        RwLockCall::Destroy => b"rwlock_destroy".as_slice(),
        RwLockCall::RdLock => b"rwlock_rdlock".as_slice(),
        RwLockCall::TryRdLock => b"rwlock_tryrdlock".as_slice(),
        RwLockCall::WrLock => b"rwlock_wrlock".as_slice(),
        RwLockCall::TryWrLock => b"rwlock_trywrlock".as_slice(),
        RwLockCall::Unlock => b"rwlock_unlock".as_slice(),
    }
}

fn cancellation_name(call: CancellationCall) -> &'static [u8]
    ensures { result.now ≡ cancellation_name call }
{
    match call {
        CancellationCall::Cancel => b"cancel".as_slice(),
        CancellationCall::TestCancel => b"testcancel".as_slice(),
        CancellationCall::SetCancelState => b"setcancelstate".as_slice(),
        CancellationCall::SetCancelType => b"setcanceltype".as_slice(),
        CancellationCall::CleanupPush => b"cleanup_push".as_slice(),
        CancellationCall::CleanupPop => b"cleanup_pop".as_slice(),
    }
}

fn key_name(call: KeyCall) -> &'static [u8]
    ensures { result.now ≡ key_name call }
{
    match call {
        KeyCall::Create => b"key_create".as_slice(),
        KeyCall::Delete => b"key_delete".as_slice(),
        KeyCall::SetSpecific => b"setspecific".as_slice(),
        KeyCall::GetSpecific => b"getspecific".as_slice(),
    }
}

/// The name of a call.
pub fn name_of(call: Call) -> &'static [u8]
    ensures { result.now ≡ name_of call }
{
    match call {
        Call::Process(call) => process_name(call),
        Call::Thread(call) => thread_name(call),
        Call::Mutex(call) => mutex_name(call),
        Call::Condition(call) => condition_name(call),
        Call::Barrier(call) => barrier_name(call),
        Call::RwLock(call) => rwlock_name(call),
        Call::Cancellation(call) => cancellation_name(call),
        Call::Key(call) => key_name(call),
    }
}

/// How its arguments are told.
pub fn arguments_of(call: Call) -> Arguments
    ensures { result ≡ arguments_of call }
{
    match call {
        Call::Process(ProcessCall::Exit | ProcessCall::Putc) => Arguments::Number,
        Call::Process(ProcessCall::Getc | ProcessCall::Clock) => Arguments::Nothing,
        Call::Process(ProcessCall::SleepUntil) => Arguments::Moment,
        Call::Thread(ThreadCall::Create) => Arguments::Creation,
        Call::Thread(ThreadCall::Join | ThreadCall::Detach) => Arguments::Number,
        Call::Thread(ThreadCall::Exit) => Arguments::Word,
        Call::Thread(ThreadCall::SelfId) => Arguments::Nothing,
        Call::Mutex(MutexCall::Init) => Arguments::WordNumber,
        Call::Mutex(MutexCall::TimedLock) => Arguments::WordMoment,
        Call::Mutex(_) => Arguments::Word,
        Call::Condition(ConditionCall::Wait) => Arguments::TwoWords,
        Call::Condition(ConditionCall::TimedWait) => Arguments::TwoWordsMoment,
        Call::Condition(_) => Arguments::Word,
        Call::Barrier(BarrierCall::Init) => Arguments::WordNumber,
        Call::Barrier(_) => Arguments::Word,
        Call::RwLock(_) => Arguments::Word,
        Call::Cancellation(CancellationCall::TestCancel) => Arguments::Nothing,
        Call::Cancellation(CancellationCall::CleanupPush) => Arguments::TwoWords,
        Call::Cancellation(_) => Arguments::Number,
        Call::Key(KeyCall::Create) => Arguments::Word,
        Call::Key(KeyCall::SetSpecific) => Arguments::NumberWord,
        Call::Key(_) => Arguments::Number,
    }
}

/// How its answers are told; a call that isn't in the table has one answer.
pub fn answers_of(call: Option<Call>) -> Answers
    ensures { result ≡ answers_of call }
{
    match call {
        Some(Call::Process(ProcessCall::Clock)) => Answers::Moment,
        Some(Call::Thread(ThreadCall::Create)) => Answers::AndNumber,
        Some(Call::Thread(ThreadCall::Join)) => Answers::AndWord,
        Some(
            Call::Cancellation(CancellationCall::SetCancelState | CancellationCall::SetCancelType),
        ) => Answers::AndNumber,
        Some(Call::Key(KeyCall::Create)) => Answers::AndNumber,
        Some(Call::Key(KeyCall::GetSpecific)) => Answers::AndWord,
        _ => Answers::One,
    }
}
