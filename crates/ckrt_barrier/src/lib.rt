//! Barriers of a guest program, over its table of threads (POSIX.1-2017, pthread_barrier_init, pthread_barrier_destroy and
//! pthread_barrier_wait).
#![tactic(auto)]

mod barrier;
mod barriers;

pub use barrier::{Barrier, MAX_BARRIERS, SERIAL_THREAD};
pub use barriers::Barriers;
