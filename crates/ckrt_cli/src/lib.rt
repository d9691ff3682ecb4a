//! The program behind its words: it reads them, does the job that they ask for, and reports what came of it.
//!
//! [`run_words`] is the whole program behind its words, with files of the system; [`run_words_with`] is the same with images
//! and disks of any `Sources`.
//!
//! Proved of [`run_words_with`]: its outcome is the one that the words ask for, and the status is that outcome's: for
//! `format` that of making the disk of DISK with the image of IMAGE, and then the line `formatted SIZE`; for `run` that of
//! running the disk of DISK; for `inspect` that of showing it; for `core` that of writing its core into FILE; for `drive` that of driving it with its output in FILE or on a
//! stream, and with the history that the words name, and then the line of what it came to; for no words that of serving the stored program, of which a service that
//! ends early has written a beginning; for `--version` the line of version and kit. Where a line can't be written, what was
//! written is a beginning of it. The files that were asked for are those of DISK, IMAGE, input, output and history, each once, and none where the
//! words name none; the disk is closed as its job left it, once, by who knows nothing of it and so can't write to it. A disk
//! that can't be opened is a fault of File with what its sources said of that path. What was reported of a fault ends with the line
//! with its name, or the reporter failed. The status is 2 never
//! for no words, nor for words that `clap` takes. [`run_words`] says the same of files of the system, each opened as what it is
//! used for and of its path, whatever bytes they hold over time; and of the files that it was handed, what they were asked for.
//!
//! Only tested: what is said of a fault in plain words, that what is printed is flushed, that faults on standard error reach it.
//!
//! The jobs that look back at what a disk has recorded: telling its calls, its data races and where its steps went, drawing what its
//! threads did, and serving it to a debugger.
//!
//! Proved of [`calls_path`]: the disk is only read, and closed as it was then; what was written are the lines of the events that it
//! has recorded, all or a stretch of them; where it hasn't recorded all of that stretch, the fault is Unrecorded; Range comes exactly
//! where the stretch would end before it begins.
//!
//! Proved of [`races_path`]: the same of the pairs of places that race, and of [`check_path`]: of the errors of memory.
//!
//! Proved of [`timeline_path`]: the same of what each thread did, as a picture or as trace events; Range comes also exactly where the
//! width is out of its range, and nothing is asked for then.
//!
//! Proved of [`profile_path`]: the same of where the steps went, in each form.
//!
//! Proved of [`debug_path`]: the disk is only read, and closed as it was then; the session begins with what its content has recorded,
//! or where the words ask; it moves only where each event is accepted, and the older part leads to the last checkpoint;
//! what was written is what the session says of what was read, or a beginning of it where it broke off. That the disk is closed before
//! anything is read of the debugger is so by the types: a session has no disk.
//!
//! The job that hunts an image: what its seeds come to, as a table, and the run of the first one on a disk of its own.
//!
//! Proved of [`hunt_path`]: BadConfig comes where pages or harts are out of their ranges, and else Range exactly where another number
//! is, where there are seeds beside seconds, or where the text of the seeds is no range, before anything is asked for. Else the image
//! is read as for a disk, then the input, if the words name one, and each seed is run with it, or each from 1 on up to one that has taken the time; what was written is the table of
//! what these came to, or nothing, unless the writer failed. Where the words ask for races or errors of memory, those of the runs are behind it. The answer
//! is whether there were several outcomes, or one of these. Where the
//! words name a disk, it is asked for only then. It gets the name of its path only where it has a whole run that comes to what the
//! first seed comes to, by the shortest schedule that was found, or as it was drawn where such are asked for: whatever a stop leaves of
//! it recovers to just that. Else it is given
//! up. Behind the table it is told how many switches that run has, and how many the seed drew. Where the words name a folder, it is so
//! with a disk for each outcome, in their order, each with the run of the first seed that came to it. The first one that isn't kept is
//! named, and ends it.
//!
//! The job that keeps a history of a disk.
//!
//! Proved of [`history_path`]: the history that the words name is only read where they name no disk. Else it is begun from the disk or
//! brought up to it, and the disk is only read: a stop at any moment leaves of the file what `ckrt_history` says. Where they name a part, that is
//! made of the history, which is only read, and a stop leaves of the part's file what `ckrt_history` says. Range comes exactly where the words
//! don't go together or a part would end before it begins, and then nothing is opened. What was written are the
//! lines of how far it goes, or the part, or nothing where there is a fault, unless the writer failed. Of the looks, with `--history`: that what is told is
//! what the history has recorded.
//!
//! The promise of many drives from the words of the program on: runs of one command, one after another.
#![tactic(auto)]

mod calls;
mod check;
mod debug;
mod folder;
mod found;
mod history;
mod hunting;
mod input;
mod keeping;
mod laws;
mod listing;
mod look_laws;
mod looking;
mod made;
mod profile;
mod program;
mod races;
mod runs;
mod stored;
mod timeline;

pub use calls::calls_path;
pub use check::check_path;
pub use debug::debug_path;
pub use history::history_path;
pub use hunting::hunt_path;
pub use laws::{
    commands_go_on, commands_go_on_beside_a_history, disks_are_left_before_drives, runs_go_on,
    runs_go_on_beside_a_history,
};
pub use listing::list_path;
pub use look_laws::{
    recorded_events_are_accepted, refused_events_are_damage, runs_that_lead_on_are_sound,
    sound_runs_are_recorded,
};
pub use profile::profile_path;
pub use program::{run_words, run_words_with};
pub use races::races_path;
pub use runs::{output_has_its_length, runs_are_drives, runs_are_told, runs_keep_histories};
pub use timeline::timeline_path;
