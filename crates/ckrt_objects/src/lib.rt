//! What the tables of a program's objects share: a table by rising address, which objects are in use, and what
//! granting an object to its waiters leaves.
#![tactic(auto)]

mod address_map;
mod grants;
mod in_use;
mod laws;
mod named;
mod places;

pub use address_map::{Entry, append, get, get_near, remove, store, store_near};
pub use grants::{Grant, grant_waiters};
pub use in_use::{are_limit_in_use, are_too_few, is_full, is_in_use, is_named_by_wait};
pub use laws::{map_after_a_change, map_stays_rising};
pub use named::Named;
pub use places::Places;
