//! Read-write locks of a guest program, over its table of threads (POSIX.1-2017, pthread_rwlock_init,
//! pthread_rwlock_rdlock, pthread_rwlock_wrlock and their companions).
#![tactic(auto)]

mod locks;
mod records;
mod waiters;

pub use locks::RwLocks;
pub use records::RwLock;
