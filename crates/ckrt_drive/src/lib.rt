//! Unattended runs: a drive runs a program on all its harts to its end, gives it its input ([`Feed`]), commits and checkpoints
//! by itself, and puts each byte of output at its offset of a disk of its own, or hands it on ([`StreamOutput`]).
//!
//! The record of a drive: how much of its input a program has taken, durably, with the events that took it.
//!
//! The format of a disk doesn't know it. So the record lies after the bytes that the configuration needs, where nothing of the
//! format is read or written. It has a slot for each of the two areas, in a sector of its own:
//!
//! | Offset | Bytes | What |
//! |---|---|---|
//! | 0 | 8 | "CKRTFEED" |
//! | 8 | 8 | version, 1 |
//! | 16 | 8 | the area's generation |
//! | 24 | 8 | the area's number of events |
//! | 32 | 8 | how many bytes of input these took, below 2^62 |
//!
//! The slot of area 0 is at the size needed, that of area 1 at 2,048 bytes after that. A checkpoint writes and syncs the slot of the
//! area that it is about to write, before it closes that area's gate; recovery reads the slot of the area that it picked. So no
//! slot is read while it is written. What was taken is the slot's number and the bytes of the Inputs in the area's journal; of an
//! area of generation 1 with no event it is 0, without a slot.
//!
//! Drives of one disk onto one output, one after another, each stopped at any moment: what they leave, and whose events it has
//! ([`drives_hold_together`], [`drives_go_by_plan`], [`drives_give_the_file`]).
#![tactic(auto)]

mod drive;
mod fault;
mod feed;
mod input_laws;
mod laws;
mod lengthening;
mod many_drives;
mod offset_fault;
mod onlooker;
mod options;
mod plan;
mod reading;
mod recording_laws;
mod saving;
mod slot;
mod step_done;
mod steps;
mod stream;
mod supply;
mod theorem;

pub use ckrt_schedule::Nobody;
pub use drive::Drive;
pub use fault::DriveFault;
pub use feed::{Feed, FromDisk, Nothing};
pub use input_laws::{calls_keep_input, images_tell_offsets, recovery_keeps_input};
pub use laws::{
    checkpoints_find_nothing_pending, no_checkpoint_behind_a_checkpoint, plans_suit_the_version,
    stream_gets_the_output,
};
pub use lengthening::{longer_disks_are_the_same, reads_leave_the_same};
pub use many_drives::{
    drives_give_the_file, drives_give_turns, drives_go_by_plan, drives_hold_together,
    drives_record_their_events, planned_input_is_the_file, recoveries_leave_the_same,
    step_holds_together, what_is_left,
};
pub use offset_fault::OffsetFault;
pub use onlooker::Onlooker;
pub use options::Options;
pub use reading::read_offset;
pub use recording_laws::{images_have_recorded, recovery_keeps_recorded};
pub use saving::{RECORD_BYTES, checkpoint};
pub use slot::{Slot, TAKEN_LIMIT};
pub use step_done::StepDone;
pub use stream::StreamOutput;
pub use supply::Supply;
pub use theorem::power_may_go;
