//! The inspector: a stopped program in plain text, without a change to its disk.
#![tactic(auto)]

mod code;
mod fault;
mod inspecting;
mod keys;
mod laws;
mod listing;
mod metrics;
mod objects;
mod rows;
mod shown;
mod texts;
mod threads;

pub use fault::InspectFault;
pub use inspecting::{inspect, inspect_with, read_program};
pub use laws::{worked_instructions, worked_lines, worked_listings};
pub use listing::{write_listing, write_listing_with_code};
pub use metrics::{Metric, Readings, Standing, push_metrics};
pub use shown::Shown;
