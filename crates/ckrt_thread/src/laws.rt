//! Laws of queues, of granting and of rows.
ghost use Rattle.std.specs.Prelude.{◌≡◌, ℕ, ◌++◌, ◌∷◌, [], false, slice_get};
ghost use Rattle.ckrt_thread.specs.declared.records.Object.{Object};
ghost use Rattle.ckrt_thread.specs.State.{State, IsWellFormed, first_waiter};
ghost use Rattle.ckrt_thread.specs.Contents.{ThreadRow, thread_rows, thread_appended, GoesOnWithThread, GoesOnWithWait, GoesOnWithHart, HaveSameRows, HasNextThread, HasNextWait, HasNextOnHart, NextGoesOn};
ghost use Rattle.ckrt_thread.specs.Granting.{GrantRule, queue_of, grant_waiters, has_admissible_waiter};

/// The first waiter of an object is the first of its queue.
#[tactic(auto, using(crate::proofs::Grants::first_of_queue))]
pub fn first_of_queue()
    ensures { (o : Object) (s : State) → first_waiter o s ≡ slice_get (queue_of o s) 0 }
{}

/// Granting goes on as long as the first waiter is admissible: none is afterwards.
#[tactic(auto, using(crate::proofs::Grants::grants_every_admissible))]
pub fn grants_every_admissible<O>()
    ensures { (rule : GrantRule O) (o : O) (s : State)
        → has_admissible_waiter rule (grant_waiters rule o s) ≡ false }
{}

/// A state is known by its rows: no two well-formed states have the same.
#[tactic(auto, using(crate::proofs::ThreadRows::known_by_rows))]
pub fn known_by_rows()
    ensures { (r s : State) → IsWellFormed r → IsWellFormed s → HaveSameRows r s → r ≡ s }
{}

/// A thread that is appended is after those that there are.
#[tactic(auto, using(crate::proofs::ThreadRows::thread_behind))]
pub fn thread_behind()
    ensures { (r : ThreadRow) (s : State) → GoesOnWithThread r s
        → thread_rows (thread_appended r s) ≡ thread_rows s ++ r ∷ [] }
{}

/// Each thread of a well-formed state goes on from those before it.
pub fn next_thread()
    ensures { NextGoesOn HasNextThread GoesOnWithThread }
{}

/// Each wait of a well-formed state goes on from all threads and the waits before it.
pub fn next_wait()
    ensures { NextGoesOn HasNextWait GoesOnWithWait }
{}

/// Each thread on a hart of a well-formed state goes on from all threads, all waits and some of the others on harts.
pub fn next_on_hart()
    ensures { (h : ℕ) → NextGoesOn (HasNextOnHart h) (GoesOnWithHart h) }
{}
