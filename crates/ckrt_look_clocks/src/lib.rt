//! Data races: which accesses of threads to one memory are unordered, told operation by operation.
//!
//! A [`Detector`] is given the operations of a run in their order: loads and stores, and what is passed from one holder to another,
//! as a lock passes on to the thread that takes it what was seen by those that gave it up. It takes no memory once it is made: a part
//! of the shadow that is touched first takes a slot of a room of so many, and where none is left the detector says so.
#![tactic(auto)]

mod clock;
mod comparing;
mod detector;
mod found;
mod holding;
mod inversion;
mod laws;
mod lock;
mod locks;
mod operation;
mod order;
mod pair;
mod parts;
mod search;
mod shadow;

pub use clock::Clock;
pub use detector::Detector;
pub use inversion::{INVERSIONS, Inversion, Link};
pub use laws::{
    clocks_are_exact, kept_races_are_found, nothing_is_left_out, only_races_are_found,
    room_for_all_suffices, seen_behind_seen, seen_by_chains,
};
pub use lock::{LockName, Locking, Taking};
pub use operation::{Access, Block, Operation, Place, THREADS};
pub use order::{HELD, Held, Order};
pub use pair::{PAIRS, Pair};
pub use parts::PART_BYTES;
pub use search::{LINKS, ORDERS};
pub use shadow::Cell;
