//! What is next, or why nothing is.
use ckrt_events::Event;

/// Why no event is next.
#[derive(Clone, Copy, Debug, PartialEq, Eq)]
pub enum ScheduleEnd {
    /// The program ended.
    Ended,
    /// No thread can go on, no wait has a deadline, and a thread waits for input.
    WaitsForInput,
    /// No thread can go on, no wait has a deadline, and nobody waits for input.
    Deadlock,
    /// As many events were handed in as were to be.
    Enough,
}

/// The event that is next, or why there is none.
#[derive(Clone, Debug, Drop, PartialEq, Eq)]
pub enum Next {
    Submit(Event),
    End(ScheduleEnd),
}
