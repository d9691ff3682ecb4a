//! Vector clocks.
ghost use Rattle.std.specs.Prelude.{◌≡◌};
ghost use Rattle.ckrt_look_clocks.specs.Detection.{clock_at, clock_of, joined, knows, learned, no_clock, passed};

use crate::operation::{Access, Place, THREADS, is_before};

/// Of each thread, the place before which all its accesses are seen.
#[derive(Clone, Copy, Debug)]
pub struct Clock {
    pub seen: [Place; THREADS],
}

/// Nothing is seen.
pub(crate) const NOTHING: Place = Place { event: 0, step: 0 };

pub(crate) fn no_clock() -> Clock
    ensures { result ≡ no_clock }
{
    Clock {
        seen: [NOTHING; THREADS],
    }
}

/// What one has seen, with what another has.
fn join(seen: &mut [Place; THREADS], more: &[Place; THREADS])
    ensures { seen.new ≡ joined seen.old more.now }
{
    for thread in 0..THREADS {
        if is_before(seen[thread], more[thread]) {
            seen[thread] = more[thread];
        }
    }
}

/// The clock of a holder.
fn clock_of(clocks: &[Clock], holder: usize) -> Clock
    ensures { result ≡ clock_of holder clocks.now }
{
    if holder < clocks.len() {
        clocks[holder]
    } else {
        no_clock()
    }
}

/// What a holder has seen at a place: a thread has seen all that it did before.
fn clock_at(clocks: &[Clock], holder: usize, place: Place) -> Clock
    ensures { result ≡ clock_at holder place clocks.now }
{
    let mut clock = clock_of(clocks, holder);
    if holder < THREADS {
        clock.seen[holder] = place;
    }
    clock
}

/// A holder has seen what a clock says.
fn learn(clocks: &mut Vec<Clock>, holder: usize, clock: &Clock)
    ensures { clocks.new.items ≡ learned holder clock.now clocks.old.items }
{
    if holder < clocks.len() {
        let mut seen = clocks[holder].seen;
        join(&mut seen, &clock.seen);
        clocks[holder] = Clock { seen };
    }
}

/// All that a holder has seen at a place another has seen from there on.
pub(crate) fn pass(clocks: &mut Vec<Clock>, from: usize, to: usize, place: Place)
    ensures { clocks.new.items ≡ passed from to place clocks.old.items }
{
    let clock = clock_at(clocks.as_slice(), from, place);
    learn(clocks, to, &clock);
}

/// Whether a thread has seen an access.
pub(crate) fn knows(clocks: &[Clock], thread: u8, access: &Access) -> bool
    ensures { result ≡ knows clocks.now thread access.now }
{
    if thread == access.thread {
        return true;
    }
    let clock = clock_of(clocks, usize::from(thread));
    let other = usize::from(access.thread);
    other < THREADS && is_before(access.place, clock.seen[other])
}
