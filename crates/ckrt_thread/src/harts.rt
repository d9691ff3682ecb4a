//! Scans of the harts.
ghost use Rattle.std.specs.Prelude.{◌≡◌, map};
ghost use Rattle.std.specs.List.{list_any};
ghost use Rattle.ckrt_thread.specs.State.{holds, off};

use crate::records::ThreadId;

/// Whether the hart has the thread.
fn is_held(hart: &Option<ThreadId>, thread: ThreadId) -> bool
    ensures { result ≡ holds thread hart.now }
{
    match hart {
        Some(held) => thread == *held,
        None => false,
    }
}

/// Whether the thread is on one of the harts.
pub fn harts_any(harts: &[Option<ThreadId>], thread: ThreadId) -> bool
    ensures { result ≡ list_any (holds thread) harts.now }
{
    harts.iter().any(|hart| is_held(hart, thread))
}

/// What a hart has after the thread is off it.
fn hart_without(hart: Option<ThreadId>, thread: ThreadId) -> Option<ThreadId>
    ensures { result ≡ off thread hart }
{
    match hart {
        Some(held) if thread == held => None,
        other => other,
    }
}

/// Takes the thread off each hart.
#[tactic(auto, using(std::proofs::lemmas::List::Edits::map_over_more))]
pub fn take_off(harts: &mut [Option<ThreadId>], thread: ThreadId)
    ensures { harts.new ≡ map (off thread) harts.old }
{
    for hart in harts.iter_mut() {
        *hart = hart_without(*hart, thread);
    }
}
