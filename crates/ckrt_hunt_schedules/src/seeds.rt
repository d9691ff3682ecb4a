//! A range of seeds.
ghost use Rattle.std.specs.Prelude.{◌≡◌, ◌≤◌, ◌<◌, ◌+◌, ◌-◌, option_map};

/// The seeds from one on up to another, both counted.
#[derive(Clone, Copy, Debug, PartialEq, Eq)]
pub struct Seeds {
    pub first: u64,
    pub last: u64,
    ghost ordered: { first ≤ last },
    ghost ends: { last < 18446744073709551615 },
}

impl Seeds {
    ghost use Rattle.ckrt_hunt_schedules.specs.Seeds.{ends_of, number_of, range_of, seeds_of};

    /// The number that a text is.
    #[tactic(auto, using(crate::proofs::NumberLemmas::number_read))]
    fn number_of(text: &str) -> Option<u64>
        ensures { result ≡ number_of text.now }
    {
        text.parse::<u64>().ok()
    }

    /// The range with these ends. None where the last is 2^64 - 1, or the first is above it.
    pub fn range_of(first: u64, last: u64) -> Option<Seeds>
        ensures { option_map ends_of result ≡ range_of first last }
    {
        if first <= last && last < u64::MAX {
            Some(Seeds { first, last })
        } else {
            None
        }
    }

    /// The range that a text `A-B` names, from seed A up to seed B. None where one of them isn't a decimal number below
    /// 2^64, where B is 2^64 - 1, or where A is above B.
    pub fn read(text: &str) -> Option<Seeds>
        ensures { option_map ends_of result ≡ seeds_of text.now }
    {
        let (first, last) = text.split_once('-')?;
        Seeds::range_of(Seeds::number_of(first)?, Seeds::number_of(last)?)
    }

    /// How many seeds they are.
    pub fn count(&self) -> u64
        ensures { result ≡ self.now.last - self.now.first + 1 }
    {
        self.last - self.first + 1
    }
}
