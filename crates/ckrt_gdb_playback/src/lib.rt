//! A recorded run as a debugger sees it: what is shown of the state at each position, motions on and back, where they stop, and how a
//! stop is told.
//!
//! It knows gdb's requests and replies, and no line over which they come.
#![tactic(auto)]

mod asked;
mod bytes;
mod description;
mod desk;
mod going;
mod limits;
mod look;
mod marks;
mod memory;
mod motion;
mod playback;
mod recorded;
mod standing;
mod threads;
mod told;
mod view;

pub use asked::way_of;
pub use desk::Desk;
pub use going::Way;
pub use limits::Bounds;
pub use look::{put_reply, tell_state};
pub use playback::Playback;
pub use recorded::Recorded;
pub use told::{is_interrupted, is_same};
pub use view::{Stopped, View};
