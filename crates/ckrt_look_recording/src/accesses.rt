//! The instruction at an address, and whether a load or a store is made.
ghost use Rattle.std.specs.Prelude.{◌≡◌, ◌≤◌, ◌+◌, IfSome, length};
ghost use Rattle.ckrt_rv32i.specs.Memory.{byte_count, is_valid, loaded};
ghost use Rattle.ckrt_rv32i.specs.Table.{IsInRange};
ghost use Rattle.ckrt_rv32i.specs.declared.memory_bus.Size.TheVariants as size;
ghost use Rattle.ckrt_look_recording.specs.Accesses.{fetched, may_access};

use ckrt_rv32i::{Instr, Size, decode};

/// The address of the first byte of a memory.
const FIRST_ADDRESS: u32 = 4_096;

/// How many bytes there are of a size.
#[inline]
pub fn byte_count(size: Size) -> u8
    ensures { result ≡ byte_count size }
{
    match size {
        Size::Byte => 1,
        Size::Half => 2,
        Size::Word => 4,
    }
}

/// The word at an index of bytes.
#[inline(always)]
fn word_in(bytes: &[u8], at: usize) -> u32
    requires { at + 4 ≤ length bytes.now }
    ensures { result ≡ loaded bytes.now (4096 + at) size.Word }
{
    bytes[at] as u32
        + 256 * bytes[at + 1] as u32
        + 65536 * bytes[at + 2] as u32
        + 16777216 * bytes[at + 3] as u32
}

/// The instruction at an address, if there is one, of these bytes from address 4,096 on.
#[inline]
pub fn fetched(bytes: &[u8], pc: u32) -> Option<Instr>
    ensures value { result ≡ fetched bytes.now pc }
    ensures in_range { IfSome result IsInRange }
{
    let at = pc.wrapping_sub(FIRST_ADDRESS) as usize;
    if pc < FIRST_ADDRESS || bytes.len() < at + 4 {
        return None;
    }
    decode(word_in(bytes, at))
}

/// Whether so many bytes from an address on are among these from address 4,096 on.
#[inline]
fn is_valid(bytes: &[u8], address: u32, size: Size) -> bool
    ensures { result ≡ is_valid bytes.now address size }
{
    let at = address.wrapping_sub(FIRST_ADDRESS) as usize;
    address >= FIRST_ADDRESS && at + usize::from(byte_count(size)) <= bytes.len()
}

/// Whether a load or a store of so many bytes from an address on is made: they are among these from address 4,096 on, and the address
/// is aligned.
#[inline]
pub fn may_access(bytes: &[u8], address: u32, size: Size) -> bool
    ensures { result ≡ may_access bytes.now address size }
{
    size.is_aligned(address) && is_valid(bytes, address, size)
}
