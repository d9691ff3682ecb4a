//! What each thread of a guest did, step after step: on which hart it ran, what it waited for, and when it was ready.
//!
//! [`write_timeline`] goes over recorded events, and writes the pieces of each thread, as a picture or as trace events. Steps that call
//! nothing are made in a row by [`go_quietly`](ckrt_look_recording::go_quietly), and looked at once.
#![tactic(auto)]

mod activity;
mod chart;
mod page;
mod part;
mod piece;
mod recorded;
mod shares;
mod timeline;
mod tracks;
mod walk;
mod words;

pub use page::is_width;
pub use piece::{Activity, Piece};
pub use recorded::{Style, write_timeline};
pub use words::Form;
