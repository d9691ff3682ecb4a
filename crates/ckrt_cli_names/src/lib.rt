//! Names of a guest's source beside the addresses in lines that are printed, or in their place.
#![tactic(auto)]

mod callers;
mod fault;
mod follower;
mod labels;
mod lines;
mod named;
mod names;
mod piece;
mod renamed;
mod rows;
mod rules;
mod scan;
mod told;

pub use fault::NamesFault;
pub use named::NamedWriter;
pub use names::{Names, SIZE_LIMIT};
pub use piece::{Form, Piece};
