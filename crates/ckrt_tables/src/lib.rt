//! Saved tables: a program's tables and the output that it holds are written as bytes, by the one encoding that they have.
#![tactic(auto)]

mod cursor;
mod decoding;
mod encoding;
mod fitting;
mod keys;
mod laws;
mod numbers;
mod objects;
mod reading;
mod reading_keys;
mod reading_objects;
mod reading_queues;
mod reading_threads;
mod threads;
mod writing;

pub use ckrt_calls::HELD_LIMIT;
pub use decoding::decode_tables;
pub use encoding::{AREA_VERSION, Held, LONGEST_TABLES, TABLES_ROOM, encode_tables};
pub use laws::{
    decodes_to_one, encodings_are_distinct, fresh_encoding, fresh_is_savable, longest_encoding,
};
