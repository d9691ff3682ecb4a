//! What a run comes to.
ghost use Rattle.std.specs.Prelude.{◌≡◌, ◌≤◌, ◌<◌, ◌+◌, ◌++◌, length};
ghost use Rattle.std.specs.List.{find};
ghost use Rattle.ckrt_thread.specs.Waits.{is_of};
ghost use Rattle.ckrt_hunt_schedules.specs.Outcomes.{awaited_by, awaited_thread, blocker_by, blocker_of, by_status, circled_among, circled_by, is_in_circle, no_end, outcome_of, owner_of, waiting_among, waiting_by};

use arrayvec::ArrayVec;
use ckrt_calls::{Status, Tables};
use ckrt_mutex::Mutexes;
use ckrt_objects::get;
use ckrt_rv32i::Cause;
use ckrt_schedule::ScheduleEnd;
use ckrt_thread::{MAX_THREADS, Reason, ThreadId, Wait};

/// What a thread waits for.
#[derive(Clone, Copy, Debug, Default, Drop, PartialEq, Eq)]
pub enum Awaited {
    /// A byte of the console's input.
    #[default]
    Input,
    /// Its deadline.
    Deadline,
    /// The end of a thread.
    End(ThreadId),
    /// A mutex, by its address, and the thread that has it.
    Mutex(u32, Option<ThreadId>),
    /// A signal at a condition, by its address.
    Condition(u32),
    /// The others at a barrier, by its address.
    Barrier(u32),
    /// A read-write lock, by its address, to read.
    Read(u32),
    /// A read-write lock, by its address, to write.
    Write(u32),
}

/// A thread that waits, and for what.
#[derive(Clone, Copy, Debug, Default, Drop, PartialEq, Eq)]
pub struct Waiting {
    pub thread: ThreadId,
    pub awaited: Awaited,
}

/// What a run comes to.
#[derive(Debug, Drop, PartialEq, Eq)]
pub enum Outcome {
    /// The program ended with this status.
    Exited(u32),
    /// The program ended by a fault: the thread, its pc, and why.
    Faulted(ThreadId, u32, Cause),
    /// No thread can go on, no wait has a deadline, and nobody waits for input: who waits, by number, and for what.
    Deadlock(ArrayVec<Waiting, 64>),
    /// No thread can go on, no wait has a deadline, and a thread waits for input.
    WaitsForInput,
    /// The program didn't end within as many steps and events as it might make: who waits for whom in a circle, by number, while others
    /// may go on.
    NoEnd(ArrayVec<Waiting, 64>),
}

/// Who has the mutex at an address.
fn owner_of(mutexes: &Mutexes, address: u32) -> Option<ThreadId>
    ensures { result ≡ owner_of address mutexes.now }
{
    mutexes.known();
    let rows = mutexes.rows();
    let mutex = get(rows.as_slice(), address)?;
    mutex.owner
}

/// What a wait is for.
fn awaited_by(mutexes: &Mutexes, reason: Reason) -> Awaited
    ensures { result ≡ awaited_by mutexes.now reason }
{
    match reason {
        Reason::Input => Awaited::Input,
        Reason::Sleep => Awaited::Deadline,
        Reason::Join(thread) => Awaited::End(thread),
        Reason::Lock(mutex) | Reason::Retake(mutex, _) => {
            Awaited::Mutex(mutex, owner_of(mutexes, mutex))
        }
        Reason::Condition(condition, _) => Awaited::Condition(condition),
        Reason::Barrier(barrier) => Awaited::Barrier(barrier),
        Reason::Read(lock) => Awaited::Read(lock),
        Reason::Write(lock) => Awaited::Write(lock),
    }
}

/// The thread goes after the others, with what it waits for, if it waits.
fn push_waiting(
    waiting: &mut ArrayVec<Waiting, 64>,
    mutexes: &Mutexes,
    thread: ThreadId,
    wait: Option<Wait>,
)
    requires { length waiting.old.items < 64 }
    ensures items { waiting.new.items ≡ waiting.old.items ++ waiting_by mutexes.now thread wait }
    ensures few { length waiting.new.items ≤ length waiting.old.items + 1 }
{
    if let Some(wait) = wait {
        let awaited = awaited_by(mutexes, wait.reason);
        waiting.push(Waiting { thread, awaited });
    }
}

/// Which threads wait, and for what.
fn waiting_of(tables: &Tables) -> ArrayVec<Waiting, 64>
    ensures { result.items ≡ waiting_among tables.now 64 }
{
    let mut waiting = ArrayVec::new();
    for thread in 1..MAX_THREADS as ThreadId + 1 {
        push_waiting(
            &mut waiting,
            &tables.mutexes,
            thread,
            tables.threads.wait_of(thread),
        );
    }
    waiting
}

/// Whom a thread waits for that waits for this.
fn awaited_thread(awaited: Awaited) -> Option<ThreadId>
    ensures { result ≡ awaited_thread awaited }
{
    match awaited {
        Awaited::End(thread) => Some(thread),
        Awaited::Mutex(_, owner) => owner,
        Awaited::Input
        | Awaited::Deadline
        | Awaited::Condition(_)
        | Awaited::Barrier(_)
        | Awaited::Read(_)
        | Awaited::Write(_) => None,
    }
}

/// Whom a wait without a deadline is for.
fn blocker_by(mutexes: &Mutexes, wait: Option<Wait>) -> Option<ThreadId>
    ensures { result ≡ blocker_by mutexes.now wait }
{
    let wait = wait?;
    match wait.deadline {
        None => awaited_thread(awaited_by(mutexes, wait.reason)),
        Some(_) => None,
    }
}

/// Whom a thread waits for without a deadline.
fn blocker_of(tables: &Tables, thread: ThreadId) -> Option<ThreadId>
    ensures { result ≡ blocker_of tables.now thread }
{
    blocker_by(&tables.mutexes, tables.threads.wait_of(thread))
}

/// Whether a thread waits for itself, by those that it waits for.
fn is_in_circle(tables: &Tables, thread: ThreadId) -> bool
    ensures { result ≡ is_in_circle tables.now thread }
{
    let mut from = blocker_of(tables, thread);
    for _turn in 0..MAX_THREADS {
        let Some(other) = from else {
            return false;
        };
        if other == thread {
            return true;
        }
        from = blocker_of(tables, other);
    }
    false
}

/// The thread goes after the others, with what it waits for, if it waits in a circle.
fn push_circled(waiting: &mut ArrayVec<Waiting, 64>, tables: &Tables, thread: ThreadId)
    requires { length waiting.old.items < 64 }
    ensures items { waiting.new.items
        ≡ waiting.old.items ++ circled_by (is_in_circle tables.now thread)
        (waiting_by tables.now.mutexes thread (find (is_of thread) tables.now.threads.waits)) }
    ensures few { length waiting.new.items ≤ length waiting.old.items + 1 }
{
    if is_in_circle(tables, thread) {
        push_waiting(
            waiting,
            &tables.mutexes,
            thread,
            tables.threads.wait_of(thread),
        );
    }
}

/// Who waits for whom in a circle.
fn circled_of(tables: &Tables) -> ArrayVec<Waiting, 64>
    ensures { result.items ≡ circled_among tables.now 64 }
{
    let mut waiting = ArrayVec::new();
    for thread in 1..MAX_THREADS as ThreadId + 1 {
        push_circled(&mut waiting, tables, thread);
    }
    waiting
}

/// What a run comes to that didn't end.
fn no_end(tables: &Tables) -> Outcome
    ensures { result ≡ no_end tables.now }
{
    Outcome::NoEnd(circled_of(tables))
}

/// How the program has ended.
fn by_status(tables: &Tables, status: Status) -> Outcome
    ensures { result ≡ by_status tables.now status }
{
    match status {
        Status::Running => no_end(tables),
        Status::Exited(status) => Outcome::Exited(status),
        Status::Faulted(thread, pc, cause) => Outcome::Faulted(thread, pc, cause),
    }
}

/// What a run comes to that ends so, with these tables.
pub fn outcome_of(tables: &Tables, ending: ScheduleEnd) -> Outcome
    ensures { result ≡ outcome_of ending tables.now }
{
    match ending {
        ScheduleEnd::Ended => by_status(tables, tables.status),
        ScheduleEnd::WaitsForInput => Outcome::WaitsForInput,
        ScheduleEnd::Deadlock => Outcome::Deadlock(waiting_of(tables)),
        ScheduleEnd::Enough => no_end(tables),
    }
}
