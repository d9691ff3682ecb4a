//! Calls of a session, and what they answer. They ensure nothing, so tests that make them are cheap to prove.

use ckrt_disk::Disk;
use ckrt_events::Event;
use ckrt_machine::Answer;
use ckrt_recovery::{Session, SubmitFault};
use std::process::Abort;

/// What a session answers to an event in range.
pub fn submitted<R: Abort, D: Disk>(
    rt: &R,
    session: &mut Session<D>,
    event: &Event,
) -> Result<(u64, Answer), SubmitFault> {
    assert!(rt; event.in_range());
    session.submit(event)
}
