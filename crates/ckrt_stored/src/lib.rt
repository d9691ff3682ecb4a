//! What is stored on a disk: how it is laid out and formatted, and what the image of a disk recovers to.
//!
//! It has two areas, of which each may hold a program's state whole: where they lie, which is in use, how they are read and
//! written.
//!
//! The filling of a file that is to be a disk: a file that is missing or short gets zero bytes up to the disk's size.
//!
//! What a file shows after its end once it has grown, and the power went, may be the bytes of a file that was removed: those of
//! another disk, too, whose first byte is an open gate. So the first block is filled, and synced, before the file grows any
//! further; and a file that is shorter than any disk isn't taken for one, whatever its first byte is.
//!
//! That block begins with a mark, "CKRTMAKE" behind a closed gate: by it a file is known again whose making was cut.
//!
//! Proved of [`fill_up`], over any disk: it writes only after the file's end, and in all of a file that is shorter than any disk;
//! where it answers Ok there are zeros, and the mark in the first block of such a file. A stop at any moment leaves a file that is still shorter than any disk, or
//! whose gate is closed, unless it was long enough and its gate stood open before.
//!
//! Going back: tables and memory become those of another state of the same program, in the room that they have.
#![tactic(auto)]

mod area;
mod area_fault;
mod area_reading;
mod blocks;
mod config;
mod emptying;
mod fault;
mod fields;
mod filling;
mod formatting;
mod fresh;
mod header;
mod laws;
mod layout;
mod memory;
mod note;
mod noting;
mod objects;
mod past;
mod picking;
mod progress;
mod reading;
mod replay;
mod save_point;
mod schedule;
mod tables;
mod threads;
mod writing;

pub use area::Area;
pub use area_fault::AreaFault;
pub use area_reading::read_area;
pub use ckrt_journal::{CLOSED, OPEN};
pub use config::Config;
pub use fault::{FormatFault, RecoverFault};
pub use fields::{header_fields, number_32, number_64, put};
pub use filling::{SMALLEST_DISK, fill_up};
pub use formatting::format;
pub use header::Header;
pub use laws::{
    fieldless_bytes_are_free, images_recover_once, newest_area_takes_over,
    note_stands_in_the_superblock, past_of_an_image_has_its_faults, spare_bytes_are_free,
    unused_area_is_free,
};
pub use layout::{COUNT_LIMIT, FIELDS_AT, SUPERBLOCK_VERSION};
pub use memory::restore_memory;
pub use note::{ProgramNote, note_for};
pub use noting::{note_schedule, read_schedule};
pub use past::read_past;
pub use picking::{checked_area, pick_area, read_header};
pub use progress::Progress;
pub use reading::{ends_in_range, read_in_use, read_note, read_progress};
pub use save_point::SavePoint;
pub use schedule::ScheduleNote;
pub use tables::restore_tables;
pub use writing::write_area;
