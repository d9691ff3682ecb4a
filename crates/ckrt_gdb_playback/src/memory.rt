//! Bytes of a guest's memory.
ghost use Rattle.std.specs.Prelude.{◌≡◌};
ghost use Rattle.ckrt_gdb_playback.specs.Look.{byte_there, bytes_there, memory_count};

use crate::bytes::Bytes;
use arrayvec::ArrayVec;
use ckrt_memory::Memory;
use ckrt_rv32i::{Bus, Size};

/// How many bytes of memory go into a packet.
const COUNT_LIMIT: u32 = 2_048;

/// The byte at an address, where there is one.
fn byte_there(memory: &Memory, address: u64) -> Option<u8>
    ensures { result ≡ byte_there address memory.now.bytes }
{
    memory.known();
    if address > u64::from(u32::MAX) {
        return None;
    }
    let byte = memory.load(address as u32, Size::Byte)?;
    Some(byte as u8)
}

/// The bytes from an address on, up to the first one outside: as many as are asked for, and at most a packet's.
pub fn memory_bytes(memory: &Memory, address: u32, count: u32) -> Bytes
    ensures { result.items ≡ bytes_there (memory_count count) address memory.now.bytes }
{
    let mut out = ArrayVec::new();
    let mut at = u64::from(address);
    let mut left = count.min(COUNT_LIMIT);
    while left > 0 {
        let Some(byte) = byte_there(memory, at) else {
            return out;
        };
        out.push(byte);
        at += 1;
        left -= 1;
    }
    out
}
