//! Where jobs get their files from: images, disks, inputs, outputs and cores, by path, and why one can't be used.
//!
//! [`Sources`] is what a job asks for a file, and [`Closes`] gives it back; both keep a record of what was asked for and how that
//! was opened. [`SystemSources`] is the same with files of the system.
//!
//! Proved of the files of the system: none that is opened has the descriptor of a standard stream; the folder that is looked for is
//! the path's; the record has just what was asked for. A file is taken for a disk in the making exactly where it is empty, begins
//! with a mark of a making, or recovers to a program that hasn't begun; and it is formatted only where it is free: where it has
//! that mark, or nothing but zeros. Filling is stated over any disk (`ckrt_stored`).
//!
//! Only tested: which reason of a failed output is told, what a path opens, that a file is filled and locked and its folder synced,
//! that a disk in the making takes no other file's name.
#![tactic(auto)]

mod core_paths;
mod file;
mod files;
mod growing;
mod identity;
mod image_reader;
mod image_words;
mod leftover;
mod output;
mod reason;
mod snapshot_path;
mod sources;
mod system;
mod told;
mod watching;

pub use file::{FileFault, JobFile};
pub use identity::is_same_file;
pub use image_reader::ImageReader;
pub use image_words::{LARGEST_IMAGE, ProgramWords, put_words};
pub use output::OpenedOutput;
pub use reason::OutputReason;
pub use sources::{Closes, Sources, Unlengthened};
pub use system::SystemSources;
pub use told::{RealDisk, ToldFile, ToldWriter};
pub use watching::{WatchedHistory, open_snapshot, watch_history};
