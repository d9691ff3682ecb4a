//! A machine: harts, the threads of a program, and its memory. It goes on by events alone, so the
//! same events always lead to the same state and the same output.
#![tactic(auto)]

mod accept;
mod ending;
mod event;
mod hart;
mod laws;
mod machine;
mod plan;
mod run_to;

pub use event::{Answer, Refusal, RunEnd};
pub use hart::RUN_OUTPUT;
pub use laws::{
    accepted_events_keep_well_formed, clock_goes_by_ticks, events_keep_harts_and_keys, folds_on,
    planned_is_accepted, reached_is_well_formed, ready_threads_stay_ready, run_is_its_steps,
    threads_stay_on_their_harts, well_formed_implies, well_formed_implies_of_threads,
};
pub use machine::Machine;
