//! Laws of states and of the plain fold. Each is the contract of a function with an empty body.
ghost use Rattle.std.specs.Prelude.{◌≡◌, ◌≤◌, ◌++◌, ◌∷◌, [], ℕ, List, IfSome, Some, None, true, false};
ghost use Rattle.std.specs.List.{list_all};
ghost use Rattle.ckrt_thread.specs.Granting.{has_admissible_waiter};
ghost use Rattle.ckrt_thread.specs.declared.records.Object.TheVariants.{Mutex};
ghost use Rattle.ckrt_thread.specs.Waits.{is_of, joins_another};
ghost use Rattle.ckrt_thread.specs.State.{count_of, first_waiter, holds, is_joinable, is_joined, is_live, is_waiting, joiners, thread_of};
ghost use Rattle.ckrt_mutex.specs.Mutex.{mutex_at};
ghost use Rattle.ckrt_mutex.specs.Rows.{mutex_rule};
ghost use Rattle.ckrt_rwlock.specs.RwLock.{is_exclusive, lock_at};
ghost use Rattle.ckrt_rwlock.specs.Rows.{rwlock_rule};
ghost use Rattle.ckrt_calls.specs.declared.table.Tables.{Tables};
ghost use Rattle.ckrt_calls.specs.WellFormed.{IsWellFormed};
ghost use Rattle.ckrt_events.specs.declared.event.Event.{Event};
ghost use Rattle.ckrt_events.specs.declared.event.Event.TheVariants.{Place};
ghost use Rattle.ckrt_machine.specs.Steps.{State, hart_of};
ghost use Rattle.ckrt_machine.specs.Runs.{run_on, HasMade};
ghost use Rattle.ckrt_machine.specs.Plans.{planned};
ghost use Rattle.ckrt_machine.specs.Refusals.{refusal_of};
ghost use Rattle.ckrt_machine.specs.Stays.{ClockGoesByTicks, StayOnHart, StayReady};
ghost use Rattle.ckrt_machine.specs.Events.{AllAccepted, IsAccepted, fold, fresh, output_of, reached, step, with_keys_off};

/// One more event is applied after the others: its effect is that of a step on what they left, its
/// bytes follow theirs, and where they are accepted and it is, all are.
pub fn folds_on()
    ensures state { (es : List Event) (e : Event) (s : State)
        → (fold (es ++ e ∷ []) s).state ≡ (step e (fold es s).state).state }
    ensures output { (es : List Event) (e : Event) (s : State)
        → output_of (es ++ e ∷ []) s ≡ output_of es s ++ (step e (fold es s).state).output }
    ensures accepted { (es : List Event) (e : Event) (s : State) → AllAccepted es s
        → IsAccepted e (fold es s).state → AllAccepted (es ++ e ∷ []) s }
{}

/// No event changes how many harts there are, nor whether the program may have keys.
pub fn events_keep_harts_and_keys()
    ensures harts { (es : List Event) (s : State)
        → (fold es s).state.tables.threads.hart_count ≡ s.tables.threads.hart_count }
    ensures keys { (es : List Event) (s : State)
        → (fold es s).state.tables.threads.keys.is_on ≡ s.tables.threads.keys.is_on }
{}

/// A thread that is ready stays so until an event puts it onto a hart: whatever other threads call, and whatever input or time does, no
/// event ends it, makes it wait, or gives it a hart in another way. This holds of every state.
pub fn ready_threads_stay_ready()
    ensures stay { StayReady }
{}

/// A thread on a hart stays there, and on no other, until an event of that hart or one that puts this thread onto another: only its
/// own run ends it or makes it wait, and only a thread that is put there takes it off. This holds of every state.
pub fn threads_stay_on_their_harts()
    ensures stay { StayOnHart }
{}

/// The clock goes on by the ticks of the events, and by nothing else: no run, no call and no input changes it.
pub fn clock_goes_by_ticks()
    ensures clock { ClockGoesByTicks }
{}

/// What well-formed tables imply, in plain words: nobody is left waiting at a free mutex, no read-write lock has a writer
/// beside readers or a first waiter that could be granted it, no thread waits twice, and a thread on a hart has not ended and
/// waits for nothing.
pub fn well_formed_implies()
    ensures mutexes { (s : Tables) (a : ℕ) → IsWellFormed s
        → IfSome (first_waiter (Mutex a) s.threads)
        (λ w. (mutex_rule a).is_admissible (mutex_at a s.mutexes) w ≡ false) }
    ensures rwlocks { (s : Tables) (a : ℕ) → IsWellFormed s
        → is_exclusive (lock_at a s.rwlocks) ≡ true }
    ensures rwlock_waiters { (s : Tables) (a : ℕ) → IsWellFormed s
        → has_admissible_waiter (rwlock_rule a) (lock_at a s.rwlocks, s.threads) ≡ false }
    ensures waits { (s : Tables) (t : ℕ) → IsWellFormed s → count_of (is_of t) s.threads.waits ≤ 1 }
    ensures harts { (s : Tables) (h : ℕ) → IsWellFormed s
        → IfSome (hart_of s h)
        (λ t. (is_live s.threads t ≡ true) × (is_waiting s.threads t ≡ false)) }
{}

/// What they imply of threads: a thread that waits has not ended, a thread is on one hart at most, and a joined thread has not ended
/// and is not detached, and is joined by one thread, another.
pub fn well_formed_implies_of_threads()
    ensures waiting { (s : Tables) (t : ℕ) → IsWellFormed s → is_waiting s.threads t ≡ true
        → is_live s.threads t ≡ true }
    ensures one_hart { (s : Tables) (t : ℕ) → IsWellFormed s
        → count_of (holds t) s.threads.harts ≤ 1 }
    ensures joined { (s : Tables) (t : ℕ) → IsWellFormed s → is_joined t s.threads ≡ true
        → is_joinable (thread_of s.threads t) ≡ true }
    ensures joined_once { (s : Tables) (t : ℕ) → IsWellFormed s → joiners s.threads t ≤ 1 }
    ensures joined_by_another { (s : Tables) → IsWellFormed s
        → list_all joins_another s.threads.waits ≡ true }
{}

/// The thread that is planned for a hart is accepted there, whatever output is held.
pub fn planned_is_accepted()
    ensures accepted { (held h t : ℕ) (s : State) → planned h s.tables ≡ Some t
        → refusal_of held (Place h t) s ≡ None }
{}

/// A run is its steps: after each step but the last nothing ended it, and the last ended it so, or it was the last of those
/// that it might make.
pub fn run_is_its_steps()
    ensures steps { (n h : ℕ) (s : State) (out : List ℕ)
        → (m : ℕ) × HasMade n m h s out (run_on n h s out) }
{}

/// Whatever well-formed state stands at the start, and whatever events are accepted one after another: the state that they
/// lead to is well-formed, the first thread that waits for a mutex or a read-write lock could not be granted it, and nobody is left
/// waiting at a free lock. Such a state every program starts with, on at most 8 harts: one whose keys are on, and one whose
/// keys are off, as on a disk that was formatted in version 1. So this speaks of every program.
pub fn accepted_events_keep_well_formed()
    ensures well_formed { (es : List Event) (s : State) → IsWellFormed s.tables → AllAccepted es s
        → IsWellFormed (fold es s).state.tables }
    ensures mutexes { (es : List Event) (s : State) (a : ℕ) → IsWellFormed s.tables
        → AllAccepted es s
        → has_admissible_waiter (mutex_rule a)
        (mutex_at a (fold es s).state.tables.mutexes, (fold es s).state.tables.threads)
        ≡ false }
    ensures rwlocks { (es : List Event) (s : State) (a : ℕ) → IsWellFormed s.tables
        → AllAccepted es s
        → has_admissible_waiter (rwlock_rule a)
        (lock_at a (fold es s).state.tables.rwlocks, (fold es s).state.tables.threads)
        ≡ false }
    ensures starts { (pages harts : ℕ) (image : List ℕ) → harts ≤ 8
        → IsWellFormed (fresh pages harts image).tables }
    ensures starts_keys_off { (pages harts : ℕ) (image : List ℕ) → harts ≤ 8
        → IsWellFormed (with_keys_off (fresh pages harts image)).tables }
{}

/// Whatever program begins whose keys are on, on at most 8 harts, and whatever events are accepted one after another: the
/// state that they lead to is well-formed. So the first thread that waits for a mutex or a read-write lock could not be granted it,
/// and nobody is left waiting at a free lock. Where keys are off, and of any start, [`accepted_events_keep_well_formed`] says
/// the same.
pub fn reached_is_well_formed()
    ensures well_formed { (pages harts : ℕ) (image : List ℕ) (es : List Event) → harts ≤ 8
        → AllAccepted es (fresh pages harts image)
        → IsWellFormed (reached pages harts image es).tables }
    ensures mutexes { (pages harts : ℕ) (image : List ℕ) (es : List Event) (a : ℕ) → harts ≤ 8
        → AllAccepted es (fresh pages harts image)
        → has_admissible_waiter (mutex_rule a) (
          mutex_at a
              (reached pages harts image es).tables.mutexes,
          (reached pages harts image es).tables.threads,
        ) ≡ false }
    ensures rwlocks { (pages harts : ℕ) (image : List ℕ) (es : List Event) (a : ℕ) → harts ≤ 8
        → AllAccepted es (fresh pages harts image)
        → has_admissible_waiter (rwlock_rule a) (
          lock_at a
              (reached pages harts image es).tables.rwlocks,
          (reached pages harts image es).tables.threads,
        ) ≡ false }
{}
