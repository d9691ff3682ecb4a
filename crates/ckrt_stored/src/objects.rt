//! Mutexes, barriers, read-write locks and input become those of another state.
ghost use Rattle.std.specs.Prelude.{◌≡◌, []};

use ckrt_barrier::Barriers;
use ckrt_calls::InputQueue;
use ckrt_mutex::Mutexes;
use ckrt_rwlock::RwLocks;

/// The same mutexes.
pub fn copied_mutexes(kept: &Mutexes) -> Mutexes
    ensures { result ≡ kept.now }
{
    kept.known();
    let mut mutexes = Mutexes::new();
    for place in 0..kept.count() {
        mutexes.append(kept.row(place));
    }
    mutexes
}

/// The same barriers.
pub fn copied_barriers(kept: &Barriers) -> Barriers
    ensures { result ≡ kept.now }
{
    kept.known();
    let mut barriers = Barriers::new();
    for place in 0..kept.count() {
        barriers.append(kept.row(place));
    }
    barriers
}

/// The same locks.
pub fn copied_rwlocks(kept: &RwLocks) -> RwLocks
    ensures { result ≡ kept.now }
{
    kept.known();
    let mut rwlocks = RwLocks::new();
    for place in 0..kept.count() {
        rwlocks.append(*kept.row(place));
    }
    rwlocks
}

/// Nothing waits to be read any more.
fn clear(input: &mut InputQueue)
    ensures { input.new ≡ [] }
{
    while input.len() > 0 {
        input.pop_first();
    }
}

/// The same bytes wait to be read.
pub fn restore_input(input: &mut InputQueue, kept: &InputQueue)
    ensures { input.new ≡ kept.now }
{
    clear(input);
    let (front, back) = kept.as_slices();
    input.append(front);
    input.append(back);
}
