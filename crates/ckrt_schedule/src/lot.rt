//! Lots, which a generator of pseudorandom numbers draws.
ghost use Rattle.std.specs.Prelude.{◌≡◌};
ghost use Rattle.ckrt_schedule.specs.Lots.{lot_from, lot_of, state_behind};

use rand_core::utils::NextWord;
use rand_pcg::Pcg32;

/// The stream of the generator's reference program.
const STREAM: u64 = 54;

/// The number of 32 bits that the generator of a seed draws after that many others.
pub fn lot_of(seed: u64, behind: u64) -> u32
    ensures { result ≡ lot_of seed behind }
{
    let mut generator = Pcg32::new(seed, STREAM);
    generator.advance(behind);
    generator.next_word()
}

/// The state of the generator after that many lots of a seed. From there it is near to the next ones.
pub fn state_behind(seed: u64, lots: u64) -> u64
    ensures { result ≡ state_behind seed lots }
{
    let mut generator = Pcg32::new(seed, STREAM);
    generator.advance(lots);
    generator.state()
}

/// The number of 32 bits that the generator draws from a state, after that many others.
pub fn lot_from(state: u64, others: u64) -> u32
    ensures { result ≡ lot_from state others }
{
    let mut generator = Pcg32::from_state(state, STREAM);
    generator.advance(others);
    generator.next_word()
}
