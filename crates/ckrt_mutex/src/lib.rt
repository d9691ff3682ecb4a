//! Mutexes of a guest program, over its table of threads (POSIX.1-2017, pthread_mutex_init, pthread_mutex_lock and
//! their companions).
#![tactic(auto)]

mod entries;
mod mutexes;
mod records;

pub use mutexes::Mutexes;
pub use records::{Kind, MAX_RECURSIVE_COUNT, Mutex};
