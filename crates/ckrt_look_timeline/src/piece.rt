//! What a thread does, in pieces.
ghost use Rattle.std.specs.Prelude.{◌≡◌, ◌≤◌, ◌<◌, ◌+◌, ◌^◌, ◌++◌, ◌∷◌, [], List, OnOk, length, replicate};
ghost use Rattle.ckrt_look_timeline.specs.Pieces.{ArePieces, laid};

use ckrt_thread::{Hart, ThreadId};
use std::alloc::AllocError;

/// What a thread does while a step is made.
#[derive(Clone, Copy, Debug, PartialEq, Eq)]
pub enum Activity {
    /// No thread has its number.
    Absent,
    /// It has ended, and nobody has joined it.
    Ended,
    /// It waits for nothing, and another thread makes the step.
    Ready,
    /// It makes the step, on this hart.
    Running(Hart),
    /// It waits for a mutex, by its address.
    Mutex(u32),
    /// It waits for a signal to a condition, by its address.
    Condition(u32),
    /// It waits for the others at a barrier, by its address.
    Barrier(u32),
    /// It waits for a read-write lock, by its address.
    RwLock(u32),
    /// It waits for the end of a thread.
    Join(ThreadId),
    /// It waits for a byte of the console's input.
    Input,
    /// It waits for its deadline.
    Sleep,
}

/// Steps at each of which a thread does the same.
#[derive(Clone, Copy, Debug, PartialEq, Eq)]
pub struct Piece {
    /// What it does.
    pub activity: Activity,
    /// How many steps it does that: one at least.
    pub steps: u64,
}

/// A piece more.
fn push(pieces: &mut Vec<Piece>, activity: Activity, steps: u64) -> Result<(), AllocError>
    ensures pushed { OnOk result (pieces.new.items
        ≡ pieces.old.items ++ (record { activity = activity; steps = steps }) ∷ []) }
{
    pieces.push(Piece { activity, steps })?;
    Ok(())
}

/// So many steps more of an activity: of the last piece where that is of the same, else of a new one.
pub(crate) fn extend(
    pieces: &mut Vec<Piece>,
    activity: Activity,
    steps: u64,
) -> Result<(), AllocError>
    requires some { 1 ≤ steps }
    requires few { length (laid pieces.old.items) + steps < 2 ^ 64 }
    ensures extended { OnOk result ((track : List Activity) → ArePieces track pieces.old.items
        → ArePieces (track ++ replicate steps activity) pieces.new.items) }
{
    let Some(last) = pieces.pop() else {
        return push(pieces, activity, steps);
    };
    if last.activity == activity {
        return push(pieces, activity, last.steps + steps);
    }
    push(pieces, last.activity, last.steps)?;
    push(pieces, activity, steps)
}
