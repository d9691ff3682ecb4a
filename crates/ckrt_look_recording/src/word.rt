//! Words of a guest's memory.
ghost use Rattle.std.specs.Prelude.{◌≡◌};
ghost use Rattle.ckrt_look_recording.specs.Frames.{word_at};

use ckrt_memory::Memory;
use ckrt_rv32i::{Bus, Size};

/// The word at an address, where that is aligned and in the memory.
pub(crate) fn word_at(memory: &Memory, address: u64) -> Option<u32>
    ensures { result ≡ word_at memory.now.bytes address }
{
    memory.known();
    if address % 4 != 0 || address > u64::from(u32::MAX) {
        return None;
    }
    memory.load(address as u32, Size::Word)
}
