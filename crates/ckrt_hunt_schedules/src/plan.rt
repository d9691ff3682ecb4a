//! What a seed has drawn before its run begins, and which turns are given.
ghost use Rattle.std.specs.Prelude.{◌≡◌, ◌≤◌, Some};

use crate::drawn::{is_early, point_of};
use crate::given::Turn;
use crate::lots::{SCALE, lot_at, scale_of};

/// What a run is given to read: these bytes, and then the end of input; or nothing at all.
#[derive(Clone, Copy, Debug)]
pub struct Input<'a> {
    pub bytes: Option<&'a [u8]>,
}

impl<'a> Input<'a> {
    ghost use Rattle.ckrt_hunt_schedules.specs.Plans.{no_input};

    /// Nothing.
    pub fn none() -> Input<'a>
        ensures { result ≡ no_input }
    {
        Input { bytes: None }
    }
}

/// The plan of a run: what its seed has drawn before it begins, and the turns that are given in place of drawn ones.
#[derive(Clone, Copy, Debug)]
pub struct Plan<'a> {
    /// A run ends at that many steps, and at that many events.
    pub limit: u32,
    pub seed: u64,
    /// For how many steps the threads run by priorities, at most 1,000,000. After them all goes by lot.
    pub horizon: u32,
    /// After that many steps the first change point lowers a thread.
    pub first: u32,
    pub second: u32,
    pub third: u32,
    /// Whether ticks come early.
    pub is_early: bool,
    /// The first turns of the run, where they are given. Those behind them are then [`Turn::Lowest`].
    pub turns: Option<&'a [Turn]>,
    /// What the program is given to read.
    pub input: Input<'a>,
    /// Whether the output of the run is left out of what is told of it.
    pub ignores_output: bool,
}

impl<'a> Plan<'a> {
    ghost use Rattle.ckrt_hunt_schedules.specs.Plans.{by_lot, by_priorities, plan_of};

    /// The plan of a seed, for a run of at most that many steps, and as many events.
    pub fn new(limit: u32, seed: u64) -> Plan<'a>
        ensures { result ≡ plan_of limit seed }
    {
        if seed % 2 == 0 {
            Plan::by_lot(limit, seed)
        } else {
            Plan::by_priorities(limit, seed, scale_of(lot_at(seed, 0, SCALE)))
        }
    }

    /// The same with these turns in place of drawn ones.
    pub fn with_turns(self, turns: &'a [Turn]) -> Plan<'a>
        ensures { result ≡ record self.entry { turns = Some turns.entry } }
    {
        Plan {
            turns: Some(turns),
            ..self
        }
    }

    /// The same with this input.
    pub fn with_input(self, input: Input<'a>) -> Plan<'a>
        ensures { result ≡ record self.entry { input = input.entry } }
    {
        Plan { input, ..self }
    }

    /// The same, with the output left out of what is told, or not.
    pub fn ignoring_output(self, ignores_output: bool) -> Plan<'a>
        ensures { result ≡ record self.entry { ignores_output = ignores_output } }
    {
        Plan {
            ignores_output,
            ..self
        }
    }

    /// All goes by lot.
    fn by_lot(limit: u32, seed: u64) -> Plan<'a>
        ensures { result ≡ by_lot limit seed }
    {
        Plan {
            limit,
            seed,
            horizon: 0,
            first: 0,
            second: 0,
            third: 0,
            is_early: is_early(seed),
            turns: None,
            input: Input::none(),
            ignores_output: false,
        }
    }

    /// Priorities for that many steps.
    fn by_priorities(limit: u32, seed: u64, steps: u32) -> Plan<'a>
        requires some { 1 ≤ steps }
        requires few { steps ≤ 1000000 }
        ensures { result ≡ by_priorities limit seed steps }
    {
        Plan {
            limit,
            seed,
            horizon: steps,
            first: point_of(seed, steps, 0),
            second: point_of(seed, steps, 1),
            third: point_of(seed, steps, 2),
            is_early: is_early(seed),
            turns: None,
            input: Input::none(),
            ignores_output: false,
        }
    }
}
