//! What a machine answers to an event, and why it refuses one.

use thiserror::Error;

/// How a run ended.
#[derive(Clone, Copy, Debug, PartialEq, Eq)]
pub enum RunEnd {
    /// The thread is still on the hart.
    On,
    /// The thread left the hart, as it waits or ended.
    Off,
    /// The program ended.
    End,
}

/// What an event that isn't refused came to.
#[derive(Clone, Copy, Debug, PartialEq, Eq)]
pub enum Answer {
    /// The thread is on the hart.
    Placed,
    /// How many steps were made, one that faulted or ended the program included, and how the run
    /// ended.
    Ran(u32, RunEnd),
    /// How many bytes of input were taken.
    Taken(u32),
    /// The input is closed.
    Closed,
    /// How many waits ended because their deadlines were reached.
    Ticked(u32),
}

/// Why an event is refused, in the order in which the reasons are tested. A refused event changes nothing.
#[derive(Clone, Copy, Debug, PartialEq, Eq, Error)]
pub enum Refusal {
    /// The program has ended.
    #[error("Ended")]
    Ended,
    /// The machine has no such hart.
    #[error("NoSuchHart")]
    NoSuchHart,
    /// No thread has the id.
    #[error("NoSuchThread")]
    NoSuchThread,
    /// The thread waits, has ended, or is on a hart.
    #[error("NotReady")]
    NotReady,
    /// No thread is on the hart.
    #[error("HartIdle")]
    HartIdle,
    /// The input was closed before.
    #[error("InputClosed")]
    InputClosed,
    /// The input queue would have more than 4,096 bytes.
    #[error("InputFull")]
    InputFull,
    /// The clock would reach 2^63.
    #[error("ClockEnd")]
    ClockEnd,
    /// Too much output is held for a run, which may put 1,024 bytes more.
    #[error("OutputFull")]
    OutputFull,
}

impl Refusal {
    ghost use Rattle.std.specs.Prelude.{◌≡◌, ◌≤◌, length};
    ghost use Rattle.ckrt_machine.specs.RefusalTexts.{refusal_text};

    /// Its code and its name, as a session tells them: 20 bytes at most.
    pub fn text(self) -> &'static [u8]
        ensures text { result.now ≡ refusal_text self }
        ensures short { length result.now ≤ 20 }
    {
        match self {
            Refusal::Ended => b"1 Ended".as_slice(),
            Refusal::NoSuchHart => b"2 NoSuchHart".as_slice(),
            Refusal::NoSuchThread => b"3 NoSuchThread".as_slice(),
            Refusal::NotReady => b"4 NotReady".as_slice(),
            Refusal::HartIdle => b"5 HartIdle".as_slice(),
            Refusal::InputClosed => b"6 InputClosed".as_slice(),
            Refusal::InputFull => b"7 InputFull".as_slice(),
            Refusal::ClockEnd => b"8 ClockEnd".as_slice(),
            Refusal::OutputFull => b"9 OutputFull".as_slice(),
        }
    }
}
