//! Condition variables of a guest program, over its tables of threads and mutexes (POSIX.1-2017, pthread_cond_init,
//! pthread_cond_wait, pthread_cond_signal and their companions).
#![tactic(auto)]

mod conditions;
mod one_mutex;
mod waiters;

pub use conditions::{broadcast, destroy, init, signal, timedwait, wait};
pub use one_mutex::are_conditions_well_formed;
pub use waiters::resume;
