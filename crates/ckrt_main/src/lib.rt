//! The service of a session: lines of text in, replies and output out. What the lines are, what they get, and the commands
//! among them as they are done: whoever runs commands over a session stands on this.
//!
//! Many lives of one program: each recovers what the life before left of a disk, does what its commands say, and may be
//! stopped at any write or sync.
#![tactic(auto)]

mod fault;
mod in_memory;
mod laws;
mod life;
mod lines;
mod listener;
mod lives_fault;
mod many;
mod performing;
mod replies;
mod service;
mod session;

pub use ckrt_events::Command;
pub use ckrt_recovery::Config;
pub use fault::ServeFault;
pub use in_memory::serve_image;
pub use laws::{
    answers_alike, output_goes_on, same_events_are_alike, told_is_durable, transcript_folds_events,
};
pub use life::{Life, LifeReport};
pub use listener::Listener;
pub use lives_fault::LivesFault;
pub use many::lives;
pub use performing::{perform, release};
pub use service::{serve, write_reply};
