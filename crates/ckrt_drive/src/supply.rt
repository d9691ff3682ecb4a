//! What a step of a drive goes by.
use ckrt_events::Event;

/// What a step of a drive goes by, besides its options and its session.
#[derive(Clone, Debug, Drop, PartialEq, Eq)]
pub struct Supply {
    /// How many events are left to the drive.
    pub left: u64,
    /// What the program is given of its input, if it is given something.
    pub given: Option<Event>,
    /// How many bytes of its input the program has taken, where checkpoints record it.
    pub recorded: Option<u64>,
}
