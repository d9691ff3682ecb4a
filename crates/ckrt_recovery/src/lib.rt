//! Recovery and sessions: a machine whose every accepted event is journaled on a disk, so that power may go at any moment and
//! the program goes on exactly where it was.
#![tactic(auto)]

mod fault;
mod laws;
mod opening;
mod session;

pub use ckrt_stored::{Config, FormatFault, RecoverFault, format};
pub use fault::{CommitFault, SubmitFault};
pub use laws::{calls_give_represented, calls_survive_a_stop};
pub use opening::{Unrecovered, recover};
pub use session::Session;
