//! What a history lacks of its disk.
use ckrt_events::Event;

/// What a disk has recorded, and what of it a history lacks.
#[derive(Drop)]
pub struct Missing {
    /// The events that the disk has recorded.
    pub events: Vec<Event>,
    /// The place of the first one that the history lacks.
    pub at: usize,
    /// How many events are done behind the history's last one.
    pub first: u64,
}

/// What a history was brought up by.
#[derive(Clone, Copy, Debug, PartialEq, Eq)]
pub struct Brought {
    /// How many events were done behind its last one.
    pub first: u64,
    /// How many events were appended.
    pub count: u64,
}
