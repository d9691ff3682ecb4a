//! A slot, from its bytes and as bytes. Numbers have their lowest byte first.
ghost use Rattle.std.specs.Prelude.{◌≡◌, ◌<◌, length};
ghost use Rattle.ckrt_drive.specs.Slot.{slot_bytes, slot_in};

use arrayvec::ArrayVec;
use ckrt_stored::{number_64, put};

/// "CKRTFEED".
const MAGIC: u64 = 0x4445_4546_5452_4b43;

/// The version of the record.
const RECORD_VERSION: u64 = 1;

/// How many bytes a slot has.
pub(crate) const SLOT_BYTES: usize = 40;

/// How far the slots lie apart.
pub(crate) const SLOT_DISTANCE: usize = 2_048;

/// A program takes fewer bytes of input than this.
pub const TAKEN_LIMIT: u64 = 1 << 62;

/// What a slot says of an area.
#[derive(Clone, Copy, Debug, PartialEq, Eq)]
pub struct Slot {
    /// The generation of the area.
    pub generation: u64,
    /// The number of events that led to the area's state.
    pub count: u64,
    /// How many bytes of input these took.
    pub taken: u64,
}

/// The slot that 40 bytes are, if they are one.
pub(crate) fn slot_in(block: &[u8]) -> Option<Slot>
    requires { length block.now ≡ 40 }
    ensures { result ≡ slot_in block.now }
{
    let taken = number_64(block, 32);
    if number_64(block, 0) == MAGIC
        && number_64(block, 8) == RECORD_VERSION
        && taken < TAKEN_LIMIT
    {
        Some(Slot {
            generation: number_64(block, 16),
            count: number_64(block, 24),
            taken,
        })
    } else {
        None
    }
}

/// A slot as bytes.
pub(crate) fn slot_bytes(slot: &Slot) -> ArrayVec<u8, 40>
    ensures { result.items ≡ slot_bytes slot.now }
{
    let mut bytes = ArrayVec::new();
    put(&mut bytes, &MAGIC.to_le_bytes());
    put(&mut bytes, &RECORD_VERSION.to_le_bytes());
    put(&mut bytes, &slot.generation.to_le_bytes());
    put(&mut bytes, &slot.count.to_le_bytes());
    put(&mut bytes, &slot.taken.to_le_bytes());
    bytes
}
