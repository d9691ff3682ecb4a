//! The options of a drive.
ghost use Rattle.std.specs.Prelude.{◌≡◌, ◌≤◌, None, Some};
ghost use Rattle.ckrt_events.specs.declared.event.TheConstants.{LONG_RUN_LIMIT};

use ckrt_events::LONG_RUN_LIMIT;

/// What a drive is run with: steps a turn, rounds a commit, events in all, and the seed of its lots where it has one.
#[derive(Clone, Copy, Debug, PartialEq, Eq)]
pub struct Options {
    pub(crate) turn: u32,
    pub(crate) rounds: u32,
    pub(crate) events: u64,
    pub(crate) seed: Option<u64>,
    ghost some_steps: { 1 ≤ turn },
    ghost few_steps: { turn ≤ LONG_RUN_LIMIT },
    ghost some_rounds: { 1 ≤ rounds },
}

impl Options {
    /// In each round each hart in turn runs `turn` steps at most. There is a commit after `rounds` rounds, and the drive ends
    /// after `events` events.
    pub fn new(turn: u32, rounds: u32, events: u64) -> Options
        requires turn { 1 ≤ turn }
        requires few { turn ≤ LONG_RUN_LIMIT }
        requires rounds { 1 ≤ rounds }
        ensures turn { result.turn ≡ turn }
        ensures rounds { result.rounds ≡ rounds }
        ensures events { result.events ≡ events }
        ensures seed { result.seed ≡ None }
    {
        Options {
            turn,
            rounds,
            events,
            seed: None,
        }
    }

    /// The same with harts and the steps of their runs by lot, as the generator of this seed draws them: each by the number of
    /// its event.
    pub fn with_seed(self, seed: u64) -> Options
        ensures { result ≡ record self { seed = Some seed } }
    {
        Options {
            turn: self.turn,
            rounds: self.rounds,
            events: self.events,
            seed: Some(seed),
        }
    }
}
