//! What a seed draws by lot: each turn has lots of its own, and turn 0 is the seed's, before the first turn of its run.
ghost use Rattle.std.specs.Prelude.{◌≡◌, ◌≤◌, ℕ};
ghost use Rattle.ckrt_hunt_schedules.specs.Lots.{lot_at, lots_of, scale_by, scale_of, shortest_of};

use ckrt_schedule::{lot_from, lot_of, state_behind};

/// How many lots a turn has. Lots 1 to 64 are those of the threads.
const LOTS: u64 = 128;

/// Whether the turn is the clock's; of turn 0, whether ticks come early.
pub const CLOCK: u8 = 0;

/// Which of 10, 100, .., 1,000,000 a length is drawn from; of turn 0, for how many steps there are priorities.
pub const SCALE: u8 = 65;

/// The length of the turn.
pub const LENGTH: u8 = 66;

/// The hart onto which a thread goes.
pub const HART: u8 = 67;

/// Of turn 0: how many change points there are.
pub const CHANGES: u8 = 68;

/// Of turn 0: the first of the three change points.
pub const POINTS: u8 = 69;

/// A lot of a turn.
pub fn lot_at(seed: u64, turn: u64, place: u8) -> u32
    requires { turn ≤ 4294967296 }
    ensures { result ≡ lot_at seed turn place }
{
    lot_of(seed, LOTS * turn + u64::from(place))
}

/// The lots of one turn, each as near as the others: the state of the generator before the first of them.
#[derive(Clone, Copy, Debug, PartialEq, Eq)]
pub struct TurnLots {
    state: u64,
}

impl TurnLots {
    /// Those of a turn.
    pub fn new(seed: u64, turn: u64) -> TurnLots
        requires { turn ≤ 4294967296 }
        ensures { result.state ≡ lots_of seed turn }
    {
        TurnLots {
            state: state_behind(seed, LOTS * turn),
        }
    }

    /// The lot at a place.
    #[tactic(auto, using(crate::proofs::LotLemmas::lot_there))]
    pub fn at(self, place: u8) -> u32
        ensures { (seed turn : ℕ) → self.state ≡ lots_of seed turn
            → result ≡ lot_at seed turn place }
    {
        lot_from(self.state, u64::from(place))
    }
}

/// One of 10, 100, .., 1,000,000.
fn scale_by(pick: u32) -> u32
    ensures scale { result ≡ scale_by pick }
    ensures some { 10 ≤ result }
    ensures few { result ≤ 1000000 }
{
    match pick {
        0 => 10,
        1 => 100,
        2 => 1_000,
        3 => 10_000,
        4 => 100_000,
        _ => 1_000_000,
    }
}

/// The one of them that a lot picks, each as likely as the others.
pub fn scale_of(lot: u32) -> u32
    ensures scale { result ≡ scale_of lot }
    ensures some { 10 ≤ result }
    ensures few { result ≤ 1000000 }
{
    scale_by(lot % 6)
}

/// The shorter of two of them that a lot picks; near a call the shortest of three.
pub fn shortest_of(near: bool, lot: u32) -> u32
    ensures scale { result ≡ shortest_of near lot }
    ensures some { 10 ≤ result }
    ensures few { result ≤ 1000000 }
{
    let third = if near { lot / 36 % 6 } else { lot % 6 };
    scale_by((lot % 6).min((lot / 6 % 6).min(third)))
}
