//! Tests of what is stored: disks, events, journals, saved tables, areas, formatting, and listings. Besides them stand here the guests, disks and
//! saved tables that crates of tests share, word by word or byte by byte. Nothing of the product stands on them.
#![tactic(auto)]

#[cfg(test)]
mod areas;
#[cfg(test)]
mod decoded_tables;
#[cfg(test)]
mod disks;
#[cfg(test)]
mod events;
#[cfg(test)]
mod every_listing;
#[cfg(test)]
mod expect;
#[cfg(test)]
mod formatting;
mod guests;
#[cfg(test)]
mod inspecting;
#[cfg(test)]
mod journal;
#[cfg(test)]
mod rows;
mod saved_bytes;
#[cfg(test)]
mod saved_tables;
mod shared_disks;
#[cfg(test)]
mod small_disk;

pub use guests::{
    BOUNDED, COUNTERS, IMAGE, LOOPS, PAIR, PUTS_ITS_VALUE, READERS, ROUNDS, SIX_WORDS, SLEEPERS,
};
pub use saved_bytes::{BEHIND_THREAD, EVERYTHING, FRESH, INITIAL_THREAD, OLD_FRESH, Piece};
pub use shared_disks::{AREAS, FILLS, OLD_DISK, SIZE};
