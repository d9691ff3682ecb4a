//! Where the steps of a guest went: its functions, its stacks of calls and its threads by steps, and how long threads waited for what.
//!
//! [`write_profile`] goes over recorded events step by step, and writes what it counted.
//!
//! A [`Counts`] is given the steps of a run in their order, and its waits. It takes no memory once it is made.
#![tactic(auto)]

mod callgrind;
mod count_laws;
mod counts;
mod folded;
mod form;
mod functions;
mod laws;
mod leaving;
mod recorded;
mod row;
mod shares;
mod stacks;
mod table;
mod texts;
mod turn;
mod waits;
mod walk;

pub use count_laws::each_step_counts_once;
pub use counts::{Counts, Note, Step};
pub use form::Form;
pub use functions::Function;
pub use laws::{functions_have_all_steps, sums_are_the_steps};
pub use recorded::write_profile;
pub use row::{Base, Position, ROWS, Row};
pub use shares::{Share, Subject, functions_of, rank, steps_of, threads_of, total_of, waits_of};
pub use stacks::{Frame, THREADS};
pub use turn::{Turn, turn_of};
pub use waits::{Awaited, WAITS, Waited};
pub use walk::count_event;
