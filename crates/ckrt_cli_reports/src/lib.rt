//! What the program says: the lines of an outcome, on standard output and error, and how far a drive or a hunt is.
//!
//! Proved: what was reported of a fault ends with the line with its name, or the reporter failed; the line of what a drive came to
//! was reported exactly; the line of a disk that was made and that of the version are written exactly, or a beginning of them
//! where the writer failed; the status is that of the outcome.
//!
//! Only tested: what is said of a fault in plain words, with the path of its file (`texts` of `ckrt_test_drive`); the lines on how
//! far a drive or a hunt is, how far a history is read to be, when a snapshot of it is made, when a hunt by time ends, when a table is written, and
//! that what is said is flushed.
//!
//! What a job comes to: a fault, or what it came to where it was done. Each fault has a name, a file that it is of, and an advice in plain words.
//!
//! Proved: the name of each fault ([`JobFault`]); the status of each end ([`Driven`]); which lengths an output and an input may have
//! beside their disk; which numbers of the words are in their ranges.
//!
//! Only tested: the file and the advice of each fault (`texts` of `ckrt_test_drive`).
#![tactic(auto)]

mod done;
mod driven;
mod fault;
mod history_reader;
mod history_watch;
mod hunted;
mod lengths;
mod meter;
mod notes;
mod ranges;
mod reach;
mod replaced;
mod reporter;
mod reporting;
mod rhythm;
mod sentences;
mod snapshots;
mod status;
mod table;
mod version;
mod watch;

pub use done::Done;
pub use driven::Driven;
pub use fault::JobFault;
pub use lengths::{InputLengths, OutputLengths};
pub use meter::SystemMeter;
pub use notes::{ProgramNotes, ScheduleNotes};
pub use ranges::{
    config_for, ends_before, is_choice, is_history_in_range, is_hunt_in_range, is_in_range,
    is_room, is_target, is_time,
};
pub use reporter::{Reporter, Unsaid, WrittenReport};
pub use reporting::{report, report_words, write_formatted, write_version};
pub use watch::{DrivePaths, Meter, Watch};
