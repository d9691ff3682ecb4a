//! The words of the program: what they ask for, read by `clap`.
//!
//! [`read_words`] gives the [`Job`] that the words name, or the text to print where they name none, [`read_names`] the file of names
//! that they give, and [`read_keeping`] how a drive keeps its history. Nothing is opened.
//!
//! Proved: where it answers Ok its job is the stored guest exactly for no words, the version for the one word `--version`,
//! else what the command line's meaning in `clap` gives for the words: the command, DISK, IMAGE, FILE, each option's value or
//! default. Usage is never answered for no words, nor for words that `clap` takes, but for `profile` with both of its forms. The file of names is the value of `--names`, and how a history is kept has the values of `--snapshots` and `--history-may-end`. The texts on usage are tested only.
#![tactic(auto)]

mod argument;
mod command;
mod job;
mod looking;
mod matches;
mod read;

pub use job::{
    CoreJob, DebugJob, DriveJob, FormatJob, HistoryJob, HuntJob, InspectJob, Job, Keeping,
    ProfileForm, ProfileJob, ShadowJob, Sizes, StretchJob, TimelineJob, WordsFault,
};
pub use read::{read_keeping, read_names, read_words};
