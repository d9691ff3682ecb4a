//! The calls of a guest, a line for each: who called what, what it was answered or waits for, and when a wait is over.
//!
//! [`trace_event`] applies an event to a machine and writes its lines, and takes no memory. [`tell_stretch`] tells what a disk has
//! recorded, or a stretch of it, in a way that is given: [`Calls`] writes these lines.
//!
//! Each step of recorded events, with what looks at it; and the second look at what was found.
//!
//! A [`StepWatcher`] makes each step, and looks at it, as by who makes it ([`stepping_of`]). [`watch_event`] makes the steps of an event one by one, [`watch_events`] those
//! of many. What comes of the watcher is a fold over the steps.
//!
//! What was found at a [`Moment`] is told with the callers then: a [`Cursor`] goes over the events of a [`Source`] again, up to there, and
//! [`write_made`] writes them.
#![tactic(auto)]

mod again;
mod callers;
mod events;
mod lines;
mod moment;
mod names;
mod recorded;
mod replay;
mod room;
mod rows;
mod stepping;
mod stretch;
mod texts;
mod walk;
mod watcher;
mod watching;

pub use again::write_made;
pub use callers::write_callers;
pub use events::{advance, is_stopped, trace_event};
pub use lines::{Before, Caller, Place, Waiting, next_caller};
pub use moment::{
    Moment, write_address, write_by, write_moment, write_moment_line, write_position,
    write_taken_line,
};
pub use names::{Answers, Arguments, answers_of, arguments_of, name_of};
pub use recorded::Calls;
pub use replay::{Cursor, Source, copy_of};
pub use room::{slots_in, words_of};
pub use rows::{write_others_line, write_stretch, write_times};
pub use stepping::{Stepping, stepping_of};
pub use stretch::{Stretch, Telling, tell_recording, tell_stretch};
pub use texts::{write_counted, write_hex, write_number};
pub use walk::watch_event;
pub use watcher::StepWatcher;
pub use watching::watch_events;
