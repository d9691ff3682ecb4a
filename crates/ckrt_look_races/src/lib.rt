//! Data races of a guest: which of its loads and stores no lock, barrier, creation or join puts in an order.
//!
//! [`write_races`] goes over recorded events step by step, and writes what it found: each
//! pair of places in the program once, with the first two accesses there that race, and how often. Then it goes to the places of these
//! accesses again, and writes beneath each pair which locks were held there and who called.
#![tactic(auto)]

mod accesses;
mod again;
mod calls;
mod cycles_again;
mod held;
mod holders;
mod inversions;
mod kit;
mod laws;
mod locking;
mod looking;
mod moment;
mod orders;
mod recorded;
mod texts;
mod walk;

pub use holders::Lock;
pub use inversions::write_cycle;
pub use laws::{
    found_is_of_the_history, histories_are_orderly, only_cycles_are_told, only_races_are_told,
};
pub use recorded::{ROOM, detector_for, write_races};
pub use texts::write_both;
pub use walk::watch_event;
