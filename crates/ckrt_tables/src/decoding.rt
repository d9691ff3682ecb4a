//! Bytes as tables and held output.
ghost use Rattle.std.specs.Prelude.{◌⊎◌, ◌≡◌, ◌≤◌, ◌∷◌, [], ◌↔◌, IsTrue, IfOk, IfSome, length, true};
ghost use Rattle.ckrt_calls.specs.WellFormed.{IsWellFormed};
ghost use Rattle.ckrt_calls.specs.Output.{HELD_LIMIT};
ghost use Rattle.ckrt_tables.specs.Decoding.{DecodesTo, Finds, IsBegun, IsEncodingOf, Saved, saved};
ghost use Rattle.ckrt_tables.specs.Encoding.{encoding_of, status_bytes, status_from, IsHeld};
ghost use Rattle.ckrt_tables.specs.Records.{cause_from, flag};
ghost use Rattle.ckrt_tables.specs.Savable.{fits_status};

use crate::cursor::Cursor;
use crate::encoding::{Held, most_bytes, put_tables};
use crate::fitting::{is_without_keys, known_savable};
use crate::reading::read_mark;
use crate::reading_keys::read_keys;
use crate::reading_objects::{read_barriers, read_mutexes, read_rwlocks};
use crate::reading_queues::{read_held, read_input};
use crate::reading_threads::read_threads;
use ckrt_barrier::Barriers;
use ckrt_calls::{HELD_LIMIT, InputQueue, Status, Tables};
use ckrt_mutex::Mutexes;
use ckrt_rv32i::Cause;
use ckrt_rwlock::RwLocks;
use ckrt_thread::{Keys, ThreadId, Threads};
use std::alloc::{AllocError, Global};

/// The cause that a number of 1 to 9 stands for.
fn cause_from(number: u8) -> Cause
    ensures { result ≡ cause_from number }
{
    match number {
        1 => Cause::FetchRange,
        2 => Cause::Illegal,
        3 => Cause::JumpMisaligned,
        4 => Cause::LoadMisaligned,
        5 => Cause::LoadRange,
        6 => Cause::StoreMisaligned,
        7 => Cause::StoreRange,
        8 => Cause::Breakpoint,
        _ => Cause::Gate,
    }
}

/// The status of this kind, 0 to 2, with the thread and the cause of a fault, and the exit status or the pc of the fault.
fn status_from(kind: u8, thread: ThreadId, cause: u8, word: u32) -> Status
    ensures { result ≡ status_from kind thread cause word }
{
    match kind {
        0 => Status::Running,
        1 => Status::Exited(word),
        _ => Status::Faulted(thread, word, cause_from(cause)),
    }
}

/// The status of the program.
fn read_status(cursor: &mut Cursor<'_>) -> Status
    ensures { Finds fits_status status_bytes cursor.old result cursor.new }
{
    let kind = cursor.byte();
    let thread = cursor.byte();
    let cause = cursor.byte();
    let word = cursor.word();
    status_from(kind, thread, cause, word)
}

/// Reads tables and held output part by part, each where it stays. Where the bytes are the encoding, in a version, of a state
/// for that many harts, it is that state; other bytes may give any.
fn read_tables(bytes: &[u8], version: u32, tables: &mut Tables, held: &mut Held)
    requires version { (version ≡ 1) ⊎ (version ≡ 2) }
    requires begun { IsBegun tables.old.threads.hart_count tables.old held.old }
    ensures found { (s : Saved) → IsEncodingOf version tables.old.threads.hart_count bytes.now s
        → (tables.new ≡ s.tables) × (held.new.items ≡ s.held) }
    ensures room { held.new.capacity ≡ HELD_LIMIT }
    ensures held { IsHeld held.new.items }
{
    let mut cursor = Cursor::new(bytes);
    tables.clock = cursor.long();
    tables.closed = read_mark(&mut cursor);
    tables.status = read_status(&mut cursor);
    read_threads(&mut cursor, &mut tables.threads, version);
    read_mutexes(&mut cursor, &mut tables.mutexes);
    read_barriers(&mut cursor, &mut tables.barriers);
    read_rwlocks(&mut cursor, &mut tables.rwlocks);
    let keys = read_keys(&mut cursor, version);
    tables.threads.set_keys(keys);
    read_input(&mut cursor, &mut tables.input);
    read_held(&mut cursor, held);
}

/// That many zeros.
fn zeros(alloc: Global, size: usize) -> Result<Vec<u8>, AllocError>
    ensures { IfOk result (λ zeros. length zeros.items ≡ size) }
{
    let zeros = vec![in alloc; 0; size]?;
    Ok(zeros)
}

/// Whether the bytes are the encoding of the tables and the held output, which is written into `room`.
fn is_encoding(tables: &Tables, held: &Held, version: u32, room: &mut [u8], bytes: &[u8]) -> bool
    requires well_formed { IsWellFormed tables.now }
    requires held { IsHeld held.now.items }
    requires room { length (encoding_of version tables.now held.now.items) ≤ length room.old }
    ensures { IsTrue result ↔ (bytes.now ≡ encoding_of version tables.now held.now.items) }
{
    let size = put_tables(room, tables, held, version);
    let (front, _) = room.split_at(size);
    bytes == front
}

/// Tables and a ring of output that have nothing yet. All memory that they need is taken here.
fn begin(alloc: Global, harts: usize) -> Result<(Tables, Held), AllocError>
    requires { harts ≤ 8 }
    ensures { IfOk result (λ begun. IsBegun harts begun.0 begun.1) }
{
    let threads = Threads::empty(alloc, harts, Keys::all())?;
    let input = InputQueue::new(alloc)?;
    let held = Held::with_capacity(alloc, HELD_LIMIT)?;
    let tables = Tables {
        threads,
        mutexes: Mutexes::new(),
        barriers: Barriers::new(),
        rwlocks: RwLocks::new(),
        clock: 0,
        input,
        closed: false,
        status: Status::Running,
    };
    Ok((tables, held))
}

/// Whether the bytes are the encoding, in a version, of these tables and this held output, as a state that can be saved and
/// of that many harts.
fn are_encoded(
    alloc: Global,
    version: u32,
    bytes: &[u8],
    harts: usize,
    tables: &Tables,
    held: &Held,
) -> Result<bool, AllocError>
    requires held { IsHeld held.now.items }
    ensures { IfOk result (λ are.
        IsTrue are
        ↔ IsEncodingOf version harts bytes.now
        (record { tables = tables.now; held = held.now.items })) }
{
    if !tables.is_well_formed() || tables.threads.hart_count() != harts {
        return Ok(false);
    }
    if version == 1 && !is_without_keys(&tables.threads) {
        return Ok(false);
    }
    known_savable(tables, held, version);
    let mut room = zeros(alloc, most_bytes(tables, held))?;
    Ok(is_encoding(tables, held, version, room.as_mut_slice(), bytes))
}

/// The tables and the held output that the bytes encode in a version, 1 or 2, for a program with that many harts (at most 8);
/// `None` where the bytes are the encoding of no state that can be saved. Version 1 is of a program whose keys are off. The ring of output has room for [`HELD_LIMIT`] bytes. All memory that
/// tables and ring need is taken here; the only error is that it is refused.
pub fn decode_tables(
    alloc: Global,
    version: u32,
    bytes: &[u8],
    harts: usize,
) -> Result<Option<(Tables, Held)>, AllocError>
    requires version { (version ≡ 1) ⊎ (version ≡ 2) }
    requires harts { harts ≤ 8 }
    ensures exact { IfOk result (λ found. DecodesTo version harts bytes.now (saved found)) }
    ensures room { IfOk result (λ found. IfSome found (λ parts. parts.1.capacity ≡ HELD_LIMIT)) }
{
    let (mut tables, mut held) = begin(alloc, harts)?;
    read_tables(bytes, version, &mut tables, &mut held);
    if !are_encoded(alloc, version, bytes, harts, &tables, &held)? {
        return Ok(None);
    }
    Ok(Some((tables, held)))
}
