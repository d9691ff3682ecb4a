//! The commands of lines, and the faults of lines.
ghost use Rattle.std.specs.Prelude.{IsTrue, ◌↔◌};

use crate::event::{Event, LAST_HART};
use thiserror::Error;

/// What a line asks of the service.
#[derive(Clone, Debug, Drop, PartialEq, Eq)]
pub enum Command {
    /// One event.
    Submit(Event),
    /// The next ready thread goes onto a hart, which then executes: the hart, 0 to 7, and the steps at most, 1 to 65,535.
    Auto(u8, u16),
    /// What was accepted becomes durable, by the journal.
    Commit,
    /// What was accepted becomes durable, by a copy of the whole machine.
    Checkpoint,
    /// The end of the service.
    Quit,
    /// A line without words, which has no reply.
    Blank,
}

impl Command {
    ghost use Rattle.ckrt_events.specs.Line.{IsInRangeCommand};

    /// Whether each field is in its range.
    pub fn in_range(&self) -> bool
        ensures { IsTrue result ↔ IsInRangeCommand self.now }
    {
        match self {
            Command::Submit(event) => event.in_range(),
            Command::Auto(hart, steps) => *hart <= LAST_HART && 1 <= *steps,
            Command::Commit | Command::Checkpoint | Command::Quit | Command::Blank => true,
        }
    }
}

/// Why a line has no meaning. Its text is its name.
#[derive(Clone, Copy, Debug, PartialEq, Eq, Error)]
pub enum LineFault {
    /// The first word is no command's, or the count of words isn't that command's.
    #[error("Unknown")]
    Unknown,
    /// A number has a byte that is no decimal digit.
    #[error("Number")]
    Number,
    /// The bytes of input aren't pairs of hexadecimal digits.
    #[error("Hex")]
    Hex,
    /// A number, or the count of the bytes of input, is out of its range.
    #[error("Range")]
    Range,
    /// The line has more bytes than [`crate::LINE_LIMIT`].
    #[error("TooLong")]
    TooLong,
}

impl LineFault {
    ghost use Rattle.std.specs.Prelude.{◌≡◌, ◌≤◌, length};
    ghost use Rattle.ckrt_events.specs.Refusals.{line_fault_text};

    /// Its code and its name, as a session tells them: 20 bytes at most.
    pub fn text(self) -> &'static [u8]
        ensures text { result.now ≡ line_fault_text self }
        ensures short { length result.now ≤ 20 }
    {
        match self {
            LineFault::Unknown => b"31 Unknown".as_slice(),
            LineFault::Number => b"32 Number".as_slice(),
            LineFault::Hex => b"33 Hex".as_slice(),
            LineFault::Range => b"34 Range".as_slice(),
            LineFault::TooLong => b"35 TooLong".as_slice(),
        }
    }
}
