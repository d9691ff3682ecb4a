//! A life, and what is reported of it.
ghost use Rattle.std.specs.Prelude.{IsTrue, ◌↔◌, All};
ghost use Rattle.ckrt_events.specs.Line.{IsInRangeCommand};

use ckrt_events::Command;

/// One recovery of a disk, and what is done with the session.
#[derive(Drop)]
pub struct Life {
    /// What is done, in order; a `quit` ends the life, and an event that is refused is passed over.
    pub commands: Vec<Command>,
    /// The write or sync at which the disk stops, counted from 1; 0 is never.
    pub stop_at: u64,
    /// The bytes that the stop lays over what was pending; none leave it as it was written.
    pub fill: Vec<u8>,
}

/// What became of a life.
#[derive(Drop)]
pub struct LifeReport {
    /// How many events it recovered; `None` where it was stopped before.
    pub recovered: Option<u64>,
    /// How many events it acknowledged, over all lives.
    pub acknowledged: u64,
    /// The offset of the first byte that it released.
    pub released_from: u64,
    /// The output that it released, in order.
    pub released: Vec<u8>,
    /// The image that it left.
    pub left: Vec<u8>,
}

fn are_in_range(commands: &[Command]) -> bool
    ensures { IsTrue result ↔ All IsInRangeCommand commands.now }
{
    commands.iter().all(|command| command.in_range())
}

impl Life {
    ghost use Rattle.ckrt_main.specs.Lives.{IsInRangeLife};

    /// Whether the arguments of each command are in their ranges.
    pub fn in_range(&self) -> bool
        ensures { IsTrue result ↔ IsInRangeLife self.now }
    {
        are_in_range(&self.commands)
    }
}
