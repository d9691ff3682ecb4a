//! The calls of a guest and their numbers.
ghost use Rattle.std.specs.Prelude.{◌≡◌};
ghost use Rattle.ckrt_calls.specs.Table.{call_of, is_point};

/// A call that is in the table. Its number stands in x17 and its arguments in x10 to x13.
#[derive(Clone, Copy, Debug, PartialEq, Eq)]
pub enum Call {
    Process(ProcessCall),
    Thread(ThreadCall),
    Mutex(MutexCall),
    Condition(ConditionCall),
    Barrier(BarrierCall),
    RwLock(RwLockCall),
    Cancellation(CancellationCall),
    Key(KeyCall),
}

/// The calls on the process, its console and its time.
#[derive(Clone, Copy, Debug, PartialEq, Eq)]
pub enum ProcessCall {
    /// 1 (status): the program ends.
    Exit,
    /// 2 (byte): a byte goes to the console.
    Putc,
    /// 3: the first byte of the console's input. 0xFFFFFFFF where it has ended; else the thread waits for one.
    Getc,
    /// 4: the clock in ticks, the low word in x10 and the high word in x11.
    Clock,
    /// 5 (low, high): waits for a moment of the clock.
    SleepUntil,
}

/// The calls on threads.
#[derive(Clone, Copy, Debug, PartialEq, Eq)]
pub enum ThreadCall {
    /// 10 (start, argument, stack, detached): a thread begins. Its id goes to x11.
    Create,
    /// 11 (id): waits for the end of a thread. Its value goes to x11.
    Join,
    /// 12 (id): nobody is to join the thread.
    Detach,
    /// 13 (value): the thread unwinds, and ends with the value.
    Exit,
    /// 14: the thread's id.
    SelfId,
}

/// The calls on mutexes.
#[derive(Clone, Copy, Debug, PartialEq, Eq)]
pub enum MutexCall {
    /// 20 (mutex, kind): a mutex gets a kind: 0 normal, 1 recursive, 2 error checking.
    Init,
    /// 21 (mutex): a mutex becomes free and normal again.
    Destroy,
    /// 22 (mutex): locks a mutex, or waits for it.
    Lock,
    /// 23 (mutex): locks a mutex where that needs no wait.
    TryLock,
    /// 24 (mutex, low, high): locks a mutex, or waits for it until a moment of the clock.
    TimedLock,
    /// 25 (mutex): unlocks a mutex once.
    Unlock,
}

/// The calls on conditions.
#[derive(Clone, Copy, Debug, PartialEq, Eq)]
pub enum ConditionCall {
    /// 30 (condition): a condition is initialised.
    Init,
    /// 31 (condition): a condition is destroyed.
    Destroy,
    /// 32 (condition, mutex): unlocks a mutex once and waits at a condition; then locks the mutex again.
    Wait,
    /// 33 (condition, mutex, low, high): the same, until a moment of the clock at the latest.
    TimedWait,
    /// 34 (condition): who waits longest at a condition waits no more.
    Signal,
    /// 35 (condition): nobody waits at a condition any more.
    Broadcast,
}

/// The calls on barriers.
#[derive(Clone, Copy, Debug, PartialEq, Eq)]
pub enum BarrierCall {
    /// 40 (barrier, count): that many threads are to meet at a barrier.
    Init,
    /// 41 (barrier): a barrier is destroyed.
    Destroy,
    /// 42 (barrier): waits at a barrier until all have come.
    Wait,
}

/// The calls on read-write locks.
#[derive(Clone, Copy, Debug, PartialEq, Eq)]
pub enum RwLockCall {
    /// 50 (lock): a read-write lock is initialised.
    Init,
    /// 51 (lock): a read-write lock is destroyed.
    Destroy,
    /// 52 (lock): locks a read-write lock to read, or waits for it.
    RdLock,
    /// 53 (lock): locks a read-write lock to read where that needs no wait.
    TryRdLock,
    /// 54 (lock): locks a read-write lock to write, or waits for it.
    WrLock,
    /// 55 (lock): locks a read-write lock to write where that needs no wait.
    TryWrLock,
    /// 56 (lock): gives up a read-write lock once.
    Unlock,
}

/// The calls on cancellation and clean-up handlers.
#[derive(Clone, Copy, Debug, PartialEq, Eq)]
pub enum CancellationCall {
    /// 60 (id): a thread is asked to end.
    Cancel,
    /// 61: a cancellation point, and nothing else.
    TestCancel,
    /// 62 (state): whether the thread can be cancelled: 0 it can, 1 it cannot. The old state goes to x11.
    SetCancelState,
    /// 63 (type): when the thread acts on a request: 0 at a cancellation point, 1 at once. The old type goes to x11.
    SetCancelType,
    /// 64 (routine, argument): the thread has one clean-up handler more.
    CleanupPush,
    /// 65 (execute): the newest clean-up handler is removed, and run where execute isn't 0.
    CleanupPop,
}

/// The calls on thread-specific data.
#[derive(Clone, Copy, Debug, PartialEq, Eq)]
pub enum KeyCall {
    /// 70 (destructor): a key is made, 0 for no destructor. Its number goes to x11.
    Create,
    /// 71 (key): a key is removed, and the values under it.
    Delete,
    /// 72 (key, value): the thread gets a value under a key.
    SetSpecific,
    /// 73 (key): the thread's value under a key goes to x11.
    GetSpecific,
}

impl Call {
    /// The call of a number, if it is in the table.
    pub fn from_number(number: u32) -> Option<Self>
        ensures { result ≡ call_of number }
    {
        match number {
            1 => Some(Call::Process(ProcessCall::Exit)),
            2 => Some(Call::Process(ProcessCall::Putc)),
            3 => Some(Call::Process(ProcessCall::Getc)),
            4 => Some(Call::Process(ProcessCall::Clock)),
            5 => Some(Call::Process(ProcessCall::SleepUntil)),
            10 => Some(Call::Thread(ThreadCall::Create)),
            11 => Some(Call::Thread(ThreadCall::Join)),
            12 => Some(Call::Thread(ThreadCall::Detach)),
            13 => Some(Call::Thread(ThreadCall::Exit)),
            14 => Some(Call::Thread(ThreadCall::SelfId)),
            20 => Some(Call::Mutex(MutexCall::Init)),
            21 => Some(Call::Mutex(MutexCall::Destroy)),
            22 => Some(Call::Mutex(MutexCall::Lock)),
            23 => Some(Call::Mutex(MutexCall::TryLock)),
            24 => Some(Call::Mutex(MutexCall::TimedLock)),
            25 => Some(Call::Mutex(MutexCall::Unlock)),
            30 => Some(Call::Condition(ConditionCall::Init)),
            31 => Some(Call::Condition(ConditionCall::Destroy)),
            32 => Some(Call::Condition(ConditionCall::Wait)),
            33 => Some(Call::Condition(ConditionCall::TimedWait)),
            34 => Some(Call::Condition(ConditionCall::Signal)),
            35 => Some(Call::Condition(ConditionCall::Broadcast)),
            40 => Some(Call::Barrier(BarrierCall::Init)),
            41 => Some(Call::Barrier(BarrierCall::Destroy)),
            42 => Some(Call::Barrier(BarrierCall::Wait)),
            50 => Some(Call::RwLock(RwLockCall::Init)),
            51 => Some(Call::RwLock(RwLockCall::Destroy)),
            52 => Some(Call::RwLock(RwLockCall::RdLock)),
            53 => Some(Call::RwLock(RwLockCall::TryRdLock)),
            54 => Some(Call::RwLock(RwLockCall::WrLock)),
            55 => Some(Call::RwLock(RwLockCall::TryWrLock)),
            56 => Some(Call::RwLock(RwLockCall::Unlock)),
            60 => Some(Call::Cancellation(CancellationCall::Cancel)),
            61 => Some(Call::Cancellation(CancellationCall::TestCancel)),
            62 => Some(Call::Cancellation(CancellationCall::SetCancelState)),
            63 => Some(Call::Cancellation(CancellationCall::SetCancelType)),
            64 => Some(Call::Cancellation(CancellationCall::CleanupPush)),
            65 => Some(Call::Cancellation(CancellationCall::CleanupPop)),
            70 => Some(Call::Key(KeyCall::Create)),
            71 => Some(Call::Key(KeyCall::Delete)),
            72 => Some(Call::Key(KeyCall::SetSpecific)),
            73 => Some(Call::Key(KeyCall::GetSpecific)),
            _ => None,
        }
    }

    /// Whether it is a cancellation point: there a thread acts on a request to cancel it.
    pub fn is_point(self) -> bool
        ensures { result ≡ is_point self }
    {
        match self {
            Call::Process(ProcessCall::Putc | ProcessCall::Getc | ProcessCall::SleepUntil) => true,
            Call::Thread(ThreadCall::Join) => true,
            Call::Condition(ConditionCall::Wait | ConditionCall::TimedWait) => true,
            Call::Cancellation(CancellationCall::TestCancel) => true,
            _ => false,
        }
    }
}
