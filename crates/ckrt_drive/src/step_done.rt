//! What a step of a drive did.
use ckrt_events::Event;
use ckrt_machine::Answer;
use ckrt_schedule::ScheduleEnd;

/// What a drive did.
#[derive(Clone, Debug, Drop, PartialEq, Eq)]
pub enum StepDone {
    /// The session took this event, which came to this.
    Submitted(Event, Answer),
    /// The events so far are acknowledged, by a commit.
    Committed,
    /// The same, by a checkpoint.
    Checkpointed,
    /// The released output is durable at its offset, and confirmed.
    Released,
    /// There is nothing more to do, and all is acknowledged and confirmed.
    Stopped(ScheduleEnd),
}
