//! What each thread did, in pieces.
ghost use Rattle.std.specs.Prelude.{◌≡◌, ◌≤◌, ◌<◌, ◌+◌, ◌^◌, ℕ, [], IfOk, OnOk, get_or, length, replicate};
ghost use Rattle.ckrt_look_timeline.specs.declared.piece.Activity.TheVariants as activity;
ghost use Rattle.ckrt_look_timeline.specs.Tracks.{GoesOn, IsWhole, track_in};

use crate::piece::{Activity, Piece};
use crate::tracks::extend_all;
use ckrt_thread::MAX_THREADS;
use std::alloc::{AllocError, Global};

/// What each thread did, step after step.
#[derive(Drop)]
pub(crate) struct Timeline {
    /// The pieces of each thread, those of thread 1 first.
    pub(crate) tracks: Vec<Vec<Piece>>,
    /// How many steps there are.
    pub(crate) steps: u64,
}

/// No steps yet.
#[tactic(auto, using(crate::proofs::TrackLemmas::one_more))]
pub(crate) fn no_steps(alloc: Global) -> Result<Timeline, AllocError>
    ensures whole { IfOk result (λ z. IsWhole z) }
    ensures none { IfOk result (λ z. z.steps ≡ 0) }
    ensures empty { IfOk result (λ z. (i : ℕ) → track_in z i ≡ []) }
{
    let mut tracks = Vec::new(alloc);
    for _thread in 0..MAX_THREADS {
        tracks.push(Vec::new(alloc))?;
    }
    Ok(Timeline { tracks, steps: 0 })
}

/// So many steps more, at each of which the threads do this.
pub(crate) fn note(timeline: &mut Timeline, now: &[Activity], steps: u64) -> Result<(), AllocError>
    requires whole { IsWhole timeline.old }
    requires each { length now.now ≡ 64 }
    requires some { 1 ≤ steps }
    requires few { timeline.old.steps + steps < 2 ^ 64 }
    ensures goes_on { OnOk result (GoesOn
        (λ i. replicate steps (get_or now.now i activity.Absent)) timeline.old timeline.new) }
    ensures steps { OnOk result (timeline.new.steps ≡ timeline.old.steps + steps) }
{
    extend_all(&mut timeline.tracks, now, steps)?;
    timeline.steps += steps;
    Ok(())
}
