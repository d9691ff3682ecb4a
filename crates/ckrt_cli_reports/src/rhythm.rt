//! How often something is told.
use std::rt::Clock;
use std::time::{Duration, Instant};

/// When something is told again.
#[derive(Clone, Copy)]
pub(crate) struct Rhythm {
    /// From one time to the next; none: it is never told.
    pub(crate) interval: Option<Duration>,
    /// When it was told last, where the clock said so.
    pub(crate) last: Option<Instant>,
}

impl Rhythm {
    /// Never.
    pub(crate) fn never() -> Rhythm {
        Rhythm {
            interval: None,
            last: None,
        }
    }

    /// How long ago it was told, where that is long enough.
    pub(crate) fn due<R: Clock>(&self, rt: &R) -> Option<Duration> {
        let interval = self.interval?;
        let since = self.last?.elapsed(rt).ok()?;
        if since < interval { None } else { Some(since) }
    }
}
