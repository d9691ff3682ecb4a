//! The names of threads.
ghost use Rattle.std.specs.Prelude.{◌≡◌, drop, take};
ghost use Rattle.std.specs.List.{position};
ghost use Rattle.ckrt_look_recording.specs.Names.{before_zero, bytes_at, is_zero, name_of};

use crate::word::word_at;
use ckrt_memory::Memory;

/// Where the name stands in a thread's record.
const NAME_AT: u64 = 24;

/// How many bytes a name has at most.
const NAME_LIMIT: usize = 15;

/// The first address of a memory.
const FIRST: u64 = 4_096;

/// The first bytes, at most so many.
#[tactic(auto, using(crate::proofs::NameLemmas::first_of))]
fn first_of(bytes: &[u8], count: usize) -> &[u8]
    ensures { result.now ≡ take count bytes.now }
{
    let (first, _) = bytes.split_at(count.min(bytes.len()));
    first
}

/// The bytes from a place on.
#[tactic(auto, using(crate::proofs::NameLemmas::rest_of))]
fn rest_of(bytes: &[u8], at: usize) -> &[u8]
    ensures { result.now ≡ drop at bytes.now }
{
    let (_, rest) = bytes.split_at(at.min(bytes.len()));
    rest
}

/// As many bytes from an address on as a name may have.
fn bytes_at(bytes: &[u8], address: u64) -> &[u8]
    ensures { result.now ≡ bytes_at bytes.now address }
{
    if address < FIRST {
        return &[];
    }
    first_of(rest_of(bytes, (address - FIRST) as usize), NAME_LIMIT)
}

/// Whether a byte ends a name.
fn is_zero(byte: u8) -> bool
    ensures { result ≡ is_zero byte }
{
    byte == 0
}

/// Where the first zero stands.
fn zero_in(bytes: &[u8]) -> Option<usize>
    ensures { result ≡ position is_zero bytes.now }
{
    bytes.iter().position(|byte| is_zero(*byte))
}

/// The bytes before the first zero, or all.
fn before_zero(bytes: &[u8]) -> &[u8]
    ensures { result.now ≡ before_zero bytes.now }
{
    match zero_in(bytes) {
        Some(at) => first_of(bytes, at),
        None => bytes,
    }
}

/// The name of a thread, by the kit's table of threads at this address. No bytes where it has none.
pub fn name_of(memory: &Memory, table: u32, thread: u8) -> &[u8]
    ensures { result.now ≡ name_of memory.now.bytes table thread }
{
    let place = u64::from(table) + 4 * u64::from(thread);
    match word_at(memory, place) {
        Some(at) => before_zero(bytes_at(memory.as_slice(), u64::from(at) + NAME_AT)),
        None => &[],
    }
}
