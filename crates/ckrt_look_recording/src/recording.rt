//! What was read of a disk's history.
ghost use Rattle.std.specs.Prelude.{◌<◌, ◌+◌, ◌^◌, length};
ghost use Rattle.ckrt_stored.specs.Layout.{COUNT_LIMIT};

use ckrt_events::Event;
use ckrt_machine::Machine;

/// What a disk has recorded.
#[derive(Drop)]
pub struct Recording {
    /// How many events were done before these: below [`COUNT_LIMIT`](ckrt_stored::COUNT_LIMIT).
    pub first: u64,
    /// The machine behind them, which has put no byte yet.
    pub machine: Machine,
    /// The events from there on, in order.
    pub events: Vec<Event>,
    ghost small: { first < COUNT_LIMIT },
    ghost bounded: { first + length events.items < 2 ^ 64 },
}
