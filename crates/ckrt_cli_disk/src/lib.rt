//! The jobs: making a disk, running one, driving one, showing one, and writing its core.
//!
//! [`make_disk`], [`run_disk`] and [`inspect_disk`] are jobs over any disk; [`drive_path`] and [`core_path`] find theirs by its
//! path, among the files of any `Sources`.
//!
//! Proved of [`make_disk`]: BadConfig comes exactly where the configuration is out of its ranges, before anything is
//! opened; with a fault of the image, ImageTooLong and want of memory for the image the disk wasn't asked for, and a fault of
//! the disk's file comes only where the image fits; a fault of a file is that of the opening of its path, or of a read of the
//! image; a disk with the image's path isn't asked for. Where
//! the disk is open it is formatted, once: TooSmall comes exactly where it is shorter than needed; AlreadyFormatted where its
//! first byte is an open gate, and it reads as before then; a disk whose first byte is an open gate isn't written, whatever
//! the answer; Ok comes where that gate was closed, and it holds the program with exactly this image then; Device only where
//! the disk's failures grew; what a stop leaves at any moment is that of formatting; and the disk is closed as formatting
//! left it.
//!
//! Proved of [`run_disk`], whatever it answers and over any disk: where nothing is recovered that comes before a byte is
//! read or written; the fault is the content's, and it is Device only where a call of the disk failed. Else what was written
//! is a beginning of the transcript of what the content recovers to, of a fate that is none exactly where no call of the
//! disk failed, and all of it where the answer is Ok. What a stop left at any moment since the start was possible before, or
//! recovers to a list between the recovered events and those with the accepted ones after them; the disk that comes back
//! recovers to one with every acknowledged event; no line `ack` has a greater number, and each line of output is the plain
//! fold's of acknowledged events.
//!
//! Proved of [`inspect_disk`]: where it answers Ok the disk's content recovers, and what was written is the listing of what
//! it recovers to, or recovered to after that many events, with code or without, if the disk is honest; NotFormatted, Version,
//! Damaged and Range are the content's, Device comes only where a read failed; the disk is only read, at every moment, and
//! nothing is written with a fault but Write.
//!
//! Proved of `core`: the disk is only read, and what is found on it is what it recovers to, or recovered to after that many events. The
//! file of the core is asked for only then, with as many bytes as that state's core has. It gets its path only once it has just these
//! bytes, durably, and else is given up. Nothing is printed, and no line is read.
//!
//! Proved of a disk that `drive` makes since it is missing: it is asked for only with an image that fits; it gets the path's name
//! only once it is formatted, whole and durable, and else is given up; and it is the disk that is driven then. Sizes of the words
//! that aren't those of a disk that is there are the fault SizesDiffer, with the disk's own.
//!
//! Proved of a disk that `drive` finds, with an image in its words: where it notes its program, and its image has another digest or
//! length, that is the fault ImageDiffers, with both; else it is driven. Either way no byte of it is written before, and where it
//! is refused it is closed as it was. The image is only read where the disk notes its program.
//!
//! Proved of the schedule of a drive: where a disk that is there notes another one, that is the fault ScheduleDiffers, with both, unless the
//! words say that it is meant; the disk is closed as it was. Else it is noted once the input is found, before the disk is recovered, and
//! nowhere but where schedules are noted: a stop meanwhile leaves the old one or the new one.
//!
//! Proved of `drive`: numbers out of their ranges are the fault Range, before anything is opened; the output is asked for
//! only once the disk is recovered; the session that its content recovers to was driven as `ckrt_drive` says, step by step
//! from the first round up to an end, with the options of the words; the program's status is the session's; and disk and
//! output are closed as the drive left them. Where the words name no file the output is a stream that leaves out what lies
//! below their offset, and nothing but that stream writes to the writer, from the job's beginning to its end; else nothing is
//! printed. An offset beside a file is the fault Range too.
//!
//! Proved of the input of a drive: it is asked for only once the disk has told how many bytes the program has taken, and goes on after
//! just these. Where the disk can't tell how many these were when it was saved, the words say so, or NotRecorded comes; where it
//! can, words that say more are OffsetDiffers. A file with fewer bytes is InputTooShort. A disk that is driven with an input has room for the record, and is made
//! longer where it hasn't. The steps of the drive were supplied from the bytes of that file, where they read the same to the
//! end. Where the input can't be used both are closed as they were, and no output is asked for. Without an input the steps are
//! supplied from none.
//!
//! Proved of the history of a drive: it is asked for once the schedule is noted, and before the disk is recovered. It gets what it lacks of the
//! disk as `open_kept` of `ckrt_history` says; the disk is synced for that, and else only read. Where the history can't be had all are closed, and
//! no output is asked for. The drive is one of its own, step by step, and after each step the history has what the disk has, as `ckrt_history` says.
//! Where the history fails the drive has made some of its steps, and all are closed as these left them. Without a history none is asked for.
//!
//! A law: a byte that was printed at an offset is never another, over any number of runs of a disk
//! ([`printed_bytes_stay`]).
//!
//! What a drive hands on to its stream is the output of acknowledged events: `stream_gets_the_output` of `ckrt_drive`.
#![tactic(auto)]

mod address;
mod core_file;
mod driving;
mod equipping;
mod feeding;
mod fitting;
mod image;
mod laws;
mod making;
mod missing;
mod near;
mod program;
mod running;
mod showing;
mod sizes;
mod undertaking;

pub use core_file::core_path;
pub use driving::drive_path;
pub use equipping::{Beside, Left, fault_of};
pub use feeding::Intake;
pub use laws::printed_bytes_stay;
pub use making::{fitting_image, make_disk};
pub use near::{NearRead, close_near, read_near};
pub use running::{Unserved, run_disk};
pub use showing::inspect_disk;
