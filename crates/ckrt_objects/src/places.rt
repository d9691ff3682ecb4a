//! Remembered places of a map's entries.
ghost use Rattle.std.specs.Prelude.{◌≡◌, ◌<◌, ◌%◌, slice_index, slice_set, replicate};
ghost use Rattle.ckrt_objects.specs.Places.{slot_in};

use std::marker::Model;

/// How many places are remembered.
const SLOTS: usize = 256;

/// What an address is multiplied by, so that near ones have slots of their own: 2^32 divided by the golden ratio.
const SPREAD: u32 = 0x9E37_79B9;

/// The places at which entries of a map were stored last, each in a slot that its address tells. By now the slot may be
/// another address's, or the entry have moved: so who asks looks at the entry there.
#[derive(Drop)]
pub struct Places {
    slots: [u8; SLOTS],
}

impl Model for Places {
    ghost use Rattle.std.specs.Prelude.{◌≡◌, ℕ, List, length};

    ghost Value = { List ℕ };

    ghost view = { λ p. p.slots };

    ghost invariant = { λ p. length p.slots ≡ 256 };
}

/// The slot of an address.
fn slot_of(address: u32) -> usize
    ensures slot { result ≡ slot_in address }
    ensures within { result < 256 }
{
    (address.wrapping_mul(SPREAD) / 0x0100_0000) as usize
}

impl Places {
    /// Place 0 for each address.
    pub fn new() -> Self
        ensures { result ≡ replicate 256 0 }
    {
        Places { slots: [0; SLOTS] }
    }

    /// Where an address may have its entry.
    pub fn near(&self, address: u32) -> usize
        ensures { result ≡ slice_index self.now (slot_in address) }
    {
        self.slots[slot_of(address)] as usize
    }

    /// An address has its entry at this place; of a place above 255 the lowest 8 bits are remembered.
    pub fn remember(&mut self, address: u32, place: usize)
        ensures { self.new ≡ slice_set self.old (slot_in address) (place % 256) }
    {
        self.slots[slot_of(address)] = (place % SLOTS) as u8;
    }
}
