//! How far a hunt is, and whether it has time left.
use std::rt::Clock;
use std::time::{Duration, Instant};

/// How far a hunt is.
#[derive(Clone, Copy)]
pub(crate) struct HuntTimes {
    /// When it began, where the clock said so.
    begun: Option<Instant>,
    /// How long it takes seeds; none: to the last one.
    limit: Option<Duration>,
    /// How many seeds were run.
    pub(crate) runs: u64,
    runs_at_last_line: u64,
}

impl HuntTimes {
    /// A hunt that begins at this moment, where it is known, and takes seeds for so many seconds, where it goes by time.
    pub(crate) fn begun(moment: Option<Instant>, seconds: Option<u64>) -> HuntTimes {
        HuntTimes {
            begun: moment,
            limit: seconds.map(Duration::from_secs),
            runs: 0,
            runs_at_last_line: 0,
        }
    }

    /// One more seed was run.
    pub(crate) fn count(&mut self) {
        self.runs = self.runs.saturating_add(1);
    }

    /// How many runs were made in a second since the last line, which was told so long ago; a line is told now.
    pub(crate) fn rate(&mut self, since: Duration) -> u128 {
        let runs = u128::from(self.runs.saturating_sub(self.runs_at_last_line));
        self.runs_at_last_line = self.runs;
        1_000 * runs / since.as_millis().max(1)
    }

    /// Whether there is time for one more seed. Where the clock fails there is none, so that a hunt by time ends.
    pub(crate) fn has_time<R: Clock>(&self, rt: &R) -> bool {
        let Some(limit) = self.limit else {
            return true;
        };
        let Some(begun) = self.begun else {
            return false;
        };
        match begun.elapsed(rt) {
            Ok(since) => since < limit,
            Err(_) => false,
        }
    }
}
