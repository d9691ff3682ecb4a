//! A hunt that looks at each run, for races or for errors of memory: which places had some in some run, in how many, and by which seed
//! first.
//!
//! Proved: each race and each error that is told of a seed is one that the events of that seed's run have, from the program's beginning
//! on. The runs of a place and its first seed are those of all seeds that were run, and what is written is that of the rows. What seeds
//! come to is counted as in any other hunt.
//!
//! A look is a [`RunLook`]: that at races is a detector of `ckrt_look_clocks`, and that at errors a shadow of `ckrt_look_heap`. What they
//! find is counted in [`FoundRows`], by its place.
#![tactic(auto)]

mod beginning;
mod errors;
mod hunt;
mod kinds;
mod laws;
mod look;
mod notable;
mod races;
mod row;
mod rows;
mod table;
mod tally;
mod telling;
mod walk;

pub use hunt::LookHunt;
pub use laws::{
    looks_are_of_the_run, looks_repeat, only_cycles_are_told, only_errors_are_told,
    only_races_are_told,
};
pub use look::RunLook;
pub use notable::Notable;
pub use row::{FOUND_ROWS, FoundRow};
pub use rows::FoundRows;
pub use table::{write_errors, write_races};
pub use tally::RaceTally;
pub use telling::{HuntFound, HuntTold, LookDone, hunt_as_asked};
