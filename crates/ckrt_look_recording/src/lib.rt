//! What a disk has recorded: the state that its history begins with, and the events from there on; and what every look needs:
//! steps in a row, what a step loads and stores, and who called.
//!
//! A disk has more than the state that it recovers to. Its area in use has an earlier one, and its journal the events that lead from
//! there. The other area has the state before that, and its journal stays whole until the next checkpoint: where its events lead
//! exactly to the area in use, a history begins there. Whoever looks back begins with these. [`read_recording`] reads them, and
//! how many events came before. [`read_unreplayed`] does so for those who make all events anyway, and see then whether each is accepted.
//! [`read_parts`] makes not even those of the older area: whether they lead on shows once they are made.
//!
//! Proved of an honest disk: what is read is what its content has recorded ([`recordings_are_one`]), each event is accepted at its
//! turn, and the plain fold of all of them leads to the state that the content recovers to ([`recordings_lead_on`]). Each fault is
//! that of recovery: a damaged older area is none. Of any disk: it is only read.
//!
//! Steps that call nothing, return to no gate and act on no request: they change no wait, and leave the thread on its hart.
//!
//! [`go_quietly`] makes such steps in a row, and [`go_quietly_to`] up to a reason to stop. [`fetched`] and [`may_access`] say what a step
//! loads and stores.
//!
//! Who called: from the frame of a thread to its callers, out of the code of a kit, and the names of threads.
//!
//! A guest's code says nothing of frames, so rules come with it: how each instruction's function is left ([`Rule`]), and which code is a
//! kit's ([`Stretch`]). Nothing here takes memory.
#![tactic(auto)]

mod accesses;
mod area;
mod callers;
mod frame;
mod laws;
mod name;
mod older;
mod parts;
mod quiet;
mod reading;
mod recording;
mod replay;
mod rule;
mod same;
mod unreplayed;
mod walk;
mod word;

pub use accesses::{byte_count, fetched, may_access};
pub use area::read_events;
pub use callers::caller_of;
pub use frame::Frame;
pub use laws::{recordings_are_one, recordings_lead_on};
pub use name::name_of;
pub use parts::{Parts, read_parts};
pub use quiet::{AtCalls, calm_on, go_quietly, go_quietly_to, is_ecall_at, is_quiet};
pub use reading::{append, read_areas, read_recording};
pub use recording::Recording;
pub use replay::make_events;
pub use rule::{Base, Rule, Saved, Stretch};
pub use same::Comparison;
pub use unreplayed::read_unreplayed;
pub use walk::{Call, MOST_FRAMES, call_of};
