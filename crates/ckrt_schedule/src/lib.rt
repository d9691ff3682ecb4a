//! Schedules: which event of a program is next, by whose turn it is or by lot. It knows no disk and no session: a drive, a hunt and a
//! session with a debugger go by it.
//!
//! A program may have an input: the bytes of a file and then its end. [`next_input`] says what is next, from the bytes that are left and the
//! tables of the program: an Input of 64 bytes, or of all that are left, once the queue has room for it, and after the last
//! byte the end of input. A session refuses none of these for a reason that lies in the machine. Proved of every list of
//! events in which each Input and each end came so: the Inputs, joined, are a beginning of the file, and the end comes only
//! after all of it.
#![tactic(auto)]

mod giving;
mod giving_laws;
mod laws;
mod lot;
mod next;
mod onlooker;
mod schedule;
mod taken;

pub use giving::{PIECE, next_input};
pub use giving_laws::{given_input_is_taken, given_input_is_the_file};
pub use laws::{clock_comes, each_ready_is_placed, each_runs, owner_runs_at_once};
pub use lot::{lot_from, lot_of, state_behind};
pub use next::{Next, ScheduleEnd};
pub use onlooker::Nobody;
pub use schedule::{Schedule, idle, next_event, run_by};
pub use taken::taken_by;
