//! Cancellation of a guest program's threads, their clean-up handlers and their thread-specific data, over its tables of
//! threads and mutexes (POSIX.1-2017, 2.9.5 Thread Cancellation; pthread_cancel, pthread_setcancelstate,
//! pthread_setcanceltype, pthread_testcancel, pthread_cleanup_push, pthread_cleanup_pop, pthread_exit,
//! pthread_key_create, pthread_key_delete, pthread_setspecific and pthread_getspecific).
#![tactic(auto)]

mod handlers;
mod keys;
mod requests;
mod settings;
mod unwinding;

pub use handlers::{pop, push};
pub use keys::{getspecific, key_create, key_delete, setspecific};
pub use requests::{point, request};
pub use settings::{set_state, set_type};
pub use unwinding::{act_on_request, begin_unwind, next_handler};
