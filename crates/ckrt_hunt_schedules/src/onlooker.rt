//! Who looks on while a hunt runs.
ghost use Rattle.std.specs.Prelude.{◌≡◌, ℕ, Bool, true, false};

use crate::outcomes::Outcomes;
use crate::seeds::Seeds;
use crate::table::Asked;
use crate::tally::Tally;
use ckrt_schedule::Nobody;
use std::alloc::Global;

/// The file that has the table of a hunt while it runs.
#[derive(Clone, Copy, Debug, PartialEq, Eq)]
pub struct TableWatch<'a> {
    /// Its path.
    pub path: &'a str,
    /// What the hunt was asked for.
    pub asked: Asked<'a>,
    /// The path of the disk that it makes, if it makes one.
    pub disk: Option<&'a str>,
}

/// For how long a hunt takes seeds, and what is told of it meanwhile.
#[derive(Clone, Copy, Debug, PartialEq, Eq)]
pub struct HuntWatch<'a> {
    /// For how many seconds it takes seeds; none: it takes those of its range.
    pub seconds: Option<u64>,
    /// A line on standard error at most each so many seconds; none: never.
    pub progress: Option<u64>,
    /// The file that has its table, if there is one.
    pub table: Option<TableWatch<'a>>,
}

/// Looks on while a hunt runs, and says where one ends that may end before its last seed. No run depends on it.
pub trait HuntOnlooker {
    /// Whether it may answer so behind a seed.
    ghost Answers: { (seed : ℕ) → (has_time : Bool) → Type 0 };

    /// A hunt begins.
    fn begin_hunt(&mut self, alloc: Global, watch: HuntWatch<'_>);

    /// This seed was run, which isn't the last one, and all that were run came to this. Whether there is time for the next one.
    fn has_time(&mut self, seed: u64, tally: &Tally) -> bool
        ensures { Answers seed result };

    /// The hunt is over: these seeds were run, and came to this.
    fn end_hunt(&mut self, seeds: Seeds, outcomes: &Outcomes);
}

impl HuntOnlooker for Nobody {
    ghost Answers = { λ seed has_time. has_time ≡ false };

    fn begin_hunt(&mut self, _alloc: Global, _watch: HuntWatch<'_>) {}

    fn has_time(&mut self, _seed: u64, _tally: &Tally) -> bool {
        false
    }

    fn end_hunt(&mut self, _seeds: Seeds, _outcomes: &Outcomes) {}
}

/// Whether a hunt ends behind this seed: where it may end early, and the onlooker has no time for the next seed. He is asked in any case.
pub fn is_over<O: HuntOnlooker>(onlooker: &mut O, seed: u64, tally: &Tally, may_end: bool) -> bool
    ensures over { result ≡ true → (may_end ≡ true) × O.Answers seed false }
    ensures on { result ≡ false → may_end ≡ true → O.Answers seed true }
{
    let has_time = onlooker.has_time(seed, tally);
    may_end && !has_time
}
