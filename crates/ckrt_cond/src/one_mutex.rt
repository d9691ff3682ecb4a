//! The test of waits at conditions: the waiters of one condition name one mutex.
ghost use Rattle.std.specs.Prelude.{◌≡◌, ◌↔◌, true};
ghost use Rattle.std.specs.List.{list_all, list_any};
ghost use Rattle.ckrt_cond.specs.Rows.{is_with_other};
ghost use Rattle.ckrt_cond.specs.WellFormed.{IsWellFormed, names_the_one_mutex};

use crate::waiters::is_with_other;
use ckrt_thread::{Reason, Threads, Wait};

/// Whether one of these waits is at the condition with another mutex.
fn is_any_with_other(waits: &[Wait], condition: u32, mutex: u32) -> bool
    ensures { result ≡ list_any (λ w. is_with_other condition mutex w.reason) waits.now }
{
    waits
        .iter()
        .any(|wait| is_with_other(wait.reason, condition, mutex))
}

/// Whether none of these waits is at this wait's condition with another mutex.
fn names_the_one_mutex(waits: &[Wait], wait: &Wait) -> bool
    ensures { result ≡ names_the_one_mutex waits.now wait.now }
{
    match wait.reason {
        Reason::Condition(condition, mutex) => !is_any_with_other(waits, condition, mutex),
        _ => true,
    }
}

/// Whether each of these waits names the one mutex of its condition.
fn each_names_the_one_mutex(waits: &[Wait]) -> bool
    ensures { result ≡ list_all (names_the_one_mutex waits.now) waits.now }
{
    waits.iter().all(|wait| names_the_one_mutex(waits, wait))
}

/// Whether the waiters of each condition name one mutex.
pub fn are_conditions_well_formed(threads: &Threads) -> bool
    ensures { (result ≡ true) ↔ IsWellFormed threads.now }
{
    each_names_the_one_mutex(threads.waits().as_slice())
}
