//! Tables and held output as bytes.
ghost use Rattle.std.specs.Prelude.{◌≡◌, ◌≤◌, ℕ, ◌+◌, ◌∷◌, ◌++◌, [], length, take, drop, Some};
ghost use Rattle.byteorder.specs.Endian.{little_bytes};
ghost use Rattle.ckrt_calls.specs.WellFormed.{IsWellFormed};
ghost use Rattle.ckrt_calls.specs.Output.{HELD_LIMIT};
ghost use Rattle.ckrt_tables.specs.Decoding.{DecodesTo};
ghost use Rattle.ckrt_tables.specs.Encoding.{AREA_VERSION, TABLES_ROOM, LONGEST_TABLES, encoding_of, status_bytes, framed, queue_bytes, IsHeld};
ghost use Rattle.ckrt_tables.specs.Records.{flag};
ghost use Rattle.ckrt_tables.specs.Writing.{HasRoom, IsPut, IsFew};

use crate::fitting::known_savable;
use crate::keys::put_keys;
use crate::numbers::{cause_number, flag};
use crate::objects::{put_barriers, put_mutexes, put_rwlocks};
use crate::threads::{put_harts, put_threads, put_waits};
use crate::writing::put;
use byteorder::{ByteOrder, LittleEndian};
use circular_buffer::HeapCircularBuffer;
use ckrt_calls::{InputQueue, Status, Tables};
use ckrt_thread::{MAX_KEYS, ThreadId};

/// The output that a program holds, first byte first: at most [`crate::HELD_LIMIT`] bytes.
pub type Held = HeapCircularBuffer<u8>;

/// The room that saved tables have, in bytes.
pub const TABLES_ROOM: usize = 98_304;

/// The version in which tables are saved. In version 1 there are no keys.
pub const AREA_VERSION: u32 = 2;

/// How many bytes the longest saved tables have: 16 for clock, input and status, 8 for harts, and the counts and records of
/// 64 threads with 16 handlers and 32 values each, 64 waits, 256 mutexes, 64 barriers, 64 read-write locks with 64 readers
/// each, 32 keys, 4,096 bytes of input and 16,384 of output.
pub const LONGEST_TABLES: usize = 70_820;

/// What a status and its parts are saved as.
fn framed(kind: u8, thread: ThreadId, cause: u8, word: u32) -> [u8; 7]
    ensures { result ≡ framed kind thread cause word }
{
    let mut bytes = [kind, thread, cause, 0, 0, 0, 0];
    LittleEndian::write_u32(&mut bytes[3..], word);
    bytes
}

/// A program's status.
fn status_bytes(status: Status) -> [u8; 7]
    ensures { result ≡ status_bytes status }
{
    match status {
        Status::Running => framed(0, 0, 0, 0),
        Status::Exited(code) => framed(1, 0, 0, code),
        Status::Faulted(thread, pc, cause) => framed(2, thread, cause_number(cause), pc),
    }
}

/// The clock.
fn put_clock(out: &mut [u8], at: usize, clock: u64) -> usize
    requires { HasRoom out.old at (little_bytes 8 clock) }
    ensures { IsPut out.old at (little_bytes 8 clock) out.new result }
{
    put(out, at, &clock.to_le_bytes())
}

/// Whether no more input comes.
fn put_closed(out: &mut [u8], at: usize, is_closed: bool) -> usize
    requires { HasRoom out.old at (flag 1 is_closed ∷ []) }
    ensures { IsPut out.old at (flag 1 is_closed ∷ []) out.new result }
{
    put(out, at, &[flag(1, is_closed)])
}

/// The status of the program.
fn put_status(out: &mut [u8], at: usize, status: Status) -> usize
    requires { HasRoom out.old at (status_bytes status) }
    ensures { IsPut out.old at (status_bytes status) out.new result }
{
    put(out, at, &status_bytes(status))
}

/// How many bytes there are, at most 16,384, and the bytes, which lie in two slices.
fn put_queue(out: &mut [u8], at: usize, first: &[u8], second: &[u8]) -> usize
    requires few { length (first.now ++ second.now) ≤ HELD_LIMIT }
    requires room { HasRoom out.old at (queue_bytes (first.now ++ second.now)) }
    ensures { IsPut out.old at (queue_bytes (first.now ++ second.now)) out.new result }
{
    let count = (first.len() + second.len()) as u16;
    let head = put(out, at, &count.to_le_bytes());
    let middle = put(out, head, first);
    put(out, middle, second)
}

/// The input that no thread has read.
fn put_input(out: &mut [u8], at: usize, input: &InputQueue) -> usize
    requires { HasRoom out.old at (queue_bytes input.now) }
    ensures { IsPut out.old at (queue_bytes input.now) out.new result }
{
    let (first, second) = input.as_slices();
    put_queue(out, at, first, second)
}

/// The held output.
fn put_held(out: &mut [u8], at: usize, held: &Held) -> usize
    requires held { IsHeld held.now.items }
    requires room { HasRoom out.old at (queue_bytes held.now.items) }
    ensures { IsPut out.old at (queue_bytes held.now.items) out.new result }
{
    let (first, second) = held.as_slices();
    put_queue(out, at, first, second)
}

/// All parts, one after another.
fn put_parts(out: &mut [u8], tables: &Tables, held: &Held, version: u32) -> usize
    requires few { IsFew tables.now }
    requires held { IsHeld held.now.items }
    requires room { length (encoding_of version tables.now held.now.items) ≤ length out.old }
    ensures { IsPut out.old 0 (encoding_of version tables.now held.now.items) out.new result }
{
    let clock = put_clock(out, 0, tables.clock);
    let closed = put_closed(out, clock, tables.closed);
    let status = put_status(out, closed, tables.status);
    let harts = put_harts(out, status, &tables.threads);
    let threads = put_threads(out, harts, &tables.threads, version);
    let waits = put_waits(out, threads, &tables.threads);
    let mutexes = put_mutexes(out, waits, &tables.mutexes);
    let barriers = put_barriers(out, mutexes, &tables.barriers);
    let rwlocks = put_rwlocks(out, barriers, &tables.rwlocks);
    let keys = put_keys(out, rwlocks, tables.threads.keys(), version);
    let input = put_input(out, keys, &tables.input);
    put_held(out, input, held)
}

/// How many bytes are in the parts of each encoding that aren't records, input or output: clock, input's end, status, harts,
/// counts, and the mark of keys.
const FIXED_BYTES: usize = 36;

/// How many bytes the encoding has at most, by how many records there are: a thread's has 524 at most, a wait's 20, a mutex's
/// and a barrier's 8, a read-write lock's 198 at most, and a key's 8.
#[tactic(auto, using(crate::proofs::Few::few))]
pub(crate) fn most_bytes(tables: &Tables, held: &Held) -> usize
    requires well_formed { IsWellFormed tables.now }
    requires held { IsHeld held.now.items }
    ensures { (version : ℕ) → length (encoding_of version tables.now held.now.items) ≤ result }
{
    let threads = 524 * tables.threads.thread_count() + 20 * tables.threads.wait_count();
    let mutexes = 8 * tables.mutexes.count();
    let others = 8 * tables.barriers.count() + 198 * tables.rwlocks.count();
    let keys = 8 * MAX_KEYS;
    FIXED_BYTES + threads + mutexes + others + keys + tables.input.len() + held.len()
}

/// As [`encode_tables`], in a version, where there is room for the encoding.
pub(crate) fn put_tables(out: &mut [u8], tables: &Tables, held: &Held, version: u32) -> usize
    requires well_formed { IsWellFormed tables.now }
    requires held { IsHeld held.now.items }
    requires room { length (encoding_of version tables.now held.now.items) ≤ length out.old }
    ensures { IsPut out.old 0 (encoding_of version tables.now held.now.items) out.new result }
{
    put_parts(out, tables, held, version)
}

/// Writes the encoding of tables and held output, in [`AREA_VERSION`], at the front of `out`, and answers how many bytes it has; what is after
/// it stays. They decode to these tables and this output. `out` must have room for [`TABLES_ROOM`] bytes.
#[tactic(auto, using(crate::proofs::Bounds::encoding_bound))]
pub fn encode_tables(tables: &Tables, held: &Held, out: &mut [u8]) -> usize
    requires well_formed { IsWellFormed tables.now }
    requires held { IsHeld held.now.items }
    requires room { TABLES_ROOM ≤ length out.old }
    ensures length { result ≡ length (encoding_of AREA_VERSION tables.now held.now.items) }
    ensures longest { result ≤ LONGEST_TABLES }
    ensures front { take result out.new ≡ encoding_of AREA_VERSION tables.now held.now.items }
    ensures back { drop result out.new ≡ drop result out.old }
    ensures decodes { DecodesTo AREA_VERSION tables.now.threads.hart_count (take result out.new)
        (Some (record { tables = tables.now; held = held.now.items })) }
{
    known_savable(tables, held, AREA_VERSION);
    put_tables(out, tables, held, AREA_VERSION)
}
