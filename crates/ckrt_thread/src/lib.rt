//! Threads, harts and the one list of waits: the `pthread_create`, `pthread_join`, `pthread_detach` and
//! `pthread_exit` pages of POSIX.1-2017, and what the objects of a program need to block and wake threads.
#![tactic(auto)]

mod abi;
mod contents;
mod deadlines;
mod errors;
mod harts;
mod keys;
mod laws;
mod links;
mod queues;
mod records;
mod slots;
mod table;
mod values;
mod wait_list;

pub use abi::{PROGRAM_START, RETURN_GATE, UNWIND_GATE};
pub use errors::{EAGAIN, EBUSY, EDEADLK, EINVAL, ENOSYS, EPERM, ESRCH, ETIMEDOUT};
pub use keys::{DESTRUCTOR_ROUNDS, Key, Keys, MAX_KEYS, SpecificData, Turn};
pub use laws::{
    first_of_queue, grants_every_admissible, known_by_rows, next_on_hart, next_thread, next_wait,
    thread_behind,
};
pub use records::{
    CANCELED, CallResult, Cancellation, Handler, Hart, Live, MAX_HANDLERS, MAX_HARTS, MAX_THREADS,
    MOMENT_END, Object, Reason, RetakeResult, Thread, ThreadId, Wait, Waiter,
};
pub use table::Threads;
