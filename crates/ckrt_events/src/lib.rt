//! Events: what drives the machine, as bytes of a journal and as lines of text.
//!
//! An [`Event`] has one encoding in bytes ([`encode_event`], [`decode_events`]), and a line of text has one meaning as a
//! [`Command`] ([`parse_command`]). No call takes memory.
#![tactic(auto)]

mod command;
mod encoding;
mod event;
mod line;
mod words;

pub use command::{Command, LineFault};
pub use encoding::{
    BATCH_LIMIT, Events, decode_events, encode_event, encoded_len, encodings_are_prefix_free,
};
pub use event::{Event, LONG_RUN_LIMIT, RUN_LIMIT};
pub use line::{LINE_LIMIT, parse_command};
