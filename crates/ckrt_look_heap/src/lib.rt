//! Errors of memory: what a guest did to memory that no block of its heap has any more, or never had.
//!
//! The kit tells which block is whose, by instructions that do nothing else. A [`Shadow`] has for each word of memory what was told of it
//! last, and looks at each step of recorded events. [`write_errors`] tells each load, store and free that the shadow doesn't allow, each place in
//! the program once, with the first one there and how often. Then it tells which blocks were never given back.
#![tactic(auto)]

mod again;
mod block;
mod finding;
mod found;
mod laws;
mod left;
mod notes;
mod parts;
mod recorded;
mod shadow;
mod texts;
mod walk;

pub use again::write_back;
pub use block::{Access, Block, Cell, Deed, Part};
pub use finding::{FINDINGS, Finding};
pub use laws::{
    example_is_told, given_back_blocks_are_told, given_blocks_are_used, nothing_is_left_out,
    only_errors_are_told, room_for_all_suffices,
};
pub use notes::{is_in_heap, watch_notes};
pub use parts::PART_BYTES;
pub use recorded::{shadow_for, write_errors};
pub use shadow::{Note, Shadow};
pub use texts::write_error;
pub use walk::{watch_end, watch_event};
