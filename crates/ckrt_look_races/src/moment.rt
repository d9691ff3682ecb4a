//! The moments of a detector, as all looks have them.
ghost use Rattle.std.specs.Prelude.{◌≡◌};
ghost use Rattle.ckrt_look_races.specs.Moments.{moment_of, place_of};

use ckrt_look_calls::{Moment, Place};

/// A place of a detector.
pub(crate) fn place_of(place: ckrt_look_clocks::Place) -> Place
    ensures { result ≡ place_of place }
{
    Place {
        event: place.event,
        step: place.step,
    }
}

/// A thread at such a place.
pub(crate) fn moment_of(thread: u8, place: ckrt_look_clocks::Place) -> Moment
    ensures { result ≡ moment_of thread place }
{
    Moment {
        place: place_of(place),
        thread,
    }
}
