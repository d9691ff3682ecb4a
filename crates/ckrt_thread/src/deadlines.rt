//! Scans of the list of waits for deadlines.
ghost use Rattle.std.specs.Prelude.{◌≡◌};
ghost use Rattle.ckrt_thread.specs.Deadlines.{is_due, is_before, sooner_of, earliest_due};

use crate::records::Wait;

/// Whether the wait was to end at this moment, or before.
fn is_due(wait: &Wait, now: u64) -> bool
    ensures { result ≡ is_due now wait.now }
{
    match wait.deadline {
        Some(deadline) => deadline <= now,
        None => false,
    }
}

/// Whether the first of two due waits ends before the second: by deadline, then by thread.
fn is_before(first: &Wait, second: &Wait) -> bool
    ensures { result ≡ is_before first.now second.now }
{
    let first_end = first.deadline.unwrap_or(0);
    let second_end = second.deadline.unwrap_or(0);
    first_end < second_end || (first_end == second_end && first.thread < second.thread)
}

/// The first to end of a due wait and others.
fn sooner_of(wait: &Wait, others: Option<Wait>) -> Wait
    ensures { result ≡ sooner_of wait.now others }
{
    match others {
        Some(other) if is_before(&other, wait) => other,
        _ => *wait,
    }
}

/// The due wait with the least deadline, and of these the one of the least thread.
#[tactic(auto, using(crate::proofs::DueWaits::not_due_at_place))]
pub fn earliest_due(waits: &[Wait], now: u64) -> Option<Wait>
    ensures { result ≡ earliest_due now waits.now }
{
    let mut earliest = None;
    for place in (0..waits.len()).rev() {
        let wait = &waits[place];
        if is_due(wait, now) {
            earliest = Some(sooner_of(wait, earliest));
        }
    }
    earliest
}
