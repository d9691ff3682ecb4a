//! Reading harts, threads and waits, and a table of threads that is built of them.
ghost use Rattle.std.specs.Prelude.{◌⊎◌, ◌≡◌, ◌<◌, ◌+◌, ◌*◌, ◌∷◌, ℕ, List, Bool, Option, true, is_some, unwrap_or};
ghost use Rattle.ckrt_thread.specs.declared.records.Live.{Live};
ghost use Rattle.ckrt_thread.specs.declared.records.Thread.{Thread};
ghost use Rattle.ckrt_thread.specs.declared.records.Thread.TheVariants as thread;
ghost use Rattle.ckrt_thread.specs.State.{State};
ghost use Rattle.ckrt_thread.specs.Contents.{who_is_on};
ghost use Rattle.ckrt_tables.specs.Decoding.{Finds, FillsUp, GoesOn, Reaches};
ghost use Rattle.ckrt_tables.specs.DecodingThreads.{AreThreadBytes, BuildsThreads, HartsLeadTo, PutsOnHarts, ThreadsLeadTo, fits_row};
ghost use Rattle.ckrt_tables.specs.Records.{counted, flag, flags_of, one_byte, reason_from, registers_bytes, retake_from, thread_bytes};
ghost use Rattle.ckrt_tables.specs.Savable.{fit_registers};

use crate::cursor::Cursor;
use crate::encoding::AREA_VERSION;
use crate::reading::{Row, read_few, read_rows};
use crate::reading_keys::read_data;
use crate::reading_objects::read_id;
use arrayvec::ArrayVec;
use ckrt_registers::Regs;
use ckrt_thread::{
    Cancellation, Handler, Live, MAX_HANDLERS, MAX_HARTS, Reason, RetakeResult, SpecificData,
    Thread, ThreadId, Threads, Wait,
};
use std::marker::Model;

/// The clean-up handlers of a thread, oldest first.
type Handlers = ArrayVec<Handler, MAX_HANDLERS>;

/// The thread on each hart.
type Harts = ArrayVec<Option<ThreadId>, MAX_HARTS>;

/// What saved tables say of a thread.
#[derive(Drop)]
pub struct ThreadRecord {
    id: ThreadId,
    thread: Thread,
}

impl Model for ThreadRecord {
    ghost use Rattle.ckrt_thread.specs.Contents.{ThreadRow};

    ghost Value = { ThreadRow };

    ghost view = { λ r. record { id = r.id; thread = r.thread } };
}

/// The item goes after the others, where there is room.
fn push_if_room<T: Drop, const N: usize>(items: &mut ArrayVec<T, N>, item: T)
    ensures { GoesOn (FillsUp N) items.old item items.new }
{
    if items.len() < N {
        items.push(item);
    }
}

// Harts.

impl Row for Option<ThreadId> {
    type Table = Harts;

    ghost use Rattle.ckrt_tables.specs.Records.{hart_bytes};
    ghost use Rattle.ckrt_tables.specs.Savable.{if_there, is_id};
    ghost use Rattle.ckrt_tables.specs.Decoding.{FillsUp};

    ghost encoding = { hart_bytes };

    ghost fits = { if_there is_id };

    ghost LeadsTo = { FillsUp 8 };

    fn read(cursor: &mut Cursor<'_>) -> Self {
        read_id(cursor)
    }

    fn append(self, table: &mut Harts) {
        push_if_room(table, self);
    }
}

// A thread.

/// The next mark among flags, the lowest first.
fn next_mark(flags: &mut u8) -> bool
    ensures { (mark : Bool) (more : ℕ) → flags.old ≡ flag 1 mark + 2 * more
        → (result ≡ mark) × (flags.new ≡ more) }
{
    let is_set = *flags % 2 == 1;
    *flags /= 2;
    is_set
}

/// A number that may be absent.
fn number_if(is_there: bool, number: u32) -> Option<u32>
    ensures { (o : Option ℕ) → is_there ≡ is_some o → number ≡ unwrap_or o 0 → result ≡ o }
{
    if is_there { Some(number) } else { None }
}

/// A thread that has not ended, with these flags, the value that it unwinds with, registers, handlers and data.
fn live_of(flags: u8, value: u32, regs: Regs, handlers: Handlers, specific: SpecificData) -> Live
    ensures { (l : Live) → AreThreadBytes flags value regs handlers.items specific (thread.Live l)
        → result ≡ l }
{
    let mut flags = flags;
    let initial = next_mark(&mut flags);
    let detached = next_mark(&mut flags);
    let is_disabled = next_mark(&mut flags);
    let is_asynchronous = next_mark(&mut flags);
    let is_requested = next_mark(&mut flags);
    let is_unwinding = next_mark(&mut flags);
    Live {
        regs,
        initial,
        detached,
        cancellation: Cancellation {
            is_enabled: !is_disabled,
            is_asynchronous,
            is_requested,
            unwinding: number_if(is_unwinding, value),
        },
        handlers,
        specific,
    }
}

/// The flag of a thread that has ended.
const ENDED: u8 = 64;

/// A thread with these flags, value, registers, handlers and data.
fn thread_of(
    flags: u8,
    value: u32,
    regs: Regs,
    handlers: Handlers,
    specific: SpecificData,
) -> Thread
    ensures { (t : Thread) → AreThreadBytes flags value regs handlers.items specific t
        → result ≡ t }
{
    if flags == ENDED {
        Thread::Ended(value)
    } else {
        Thread::Live(live_of(flags, value, regs, handlers, specific))
    }
}

/// The pc, and x1 to x31.
fn read_registers(cursor: &mut Cursor<'_>) -> Regs
    ensures { Finds fit_registers registers_bytes cursor.old result cursor.new }
{
    let mut regs = Regs::new(cursor.word());
    for register in 1..32u8 {
        regs.put(register, cursor.word());
    }
    regs
}

impl Row for Handler {
    type Table = Handlers;

    ghost use Rattle.ckrt_tables.specs.Records.{handler_bytes};
    ghost use Rattle.ckrt_tables.specs.Savable.{fits_handler};
    ghost use Rattle.ckrt_tables.specs.Decoding.{FillsUp};

    ghost encoding = { handler_bytes };

    ghost fits = { fits_handler };

    ghost LeadsTo = { FillsUp 16 };

    fn read(cursor: &mut Cursor<'_>) -> Self {
        let routine = cursor.word();
        let argument = cursor.word();
        Handler { routine, argument }
    }

    fn append(self, table: &mut Handlers) {
        push_if_room(table, self);
    }
}

/// A thread in a version.
fn read_thread(cursor: &mut Cursor<'_>, version: u32) -> (ThreadId, Thread)
    ensures { Finds (fits_row version) (thread_bytes version) cursor.old
        (record { id = result.0; thread = result.1 }) cursor.new }
{
    let id = cursor.byte();
    let flags = cursor.byte();
    let count = cursor.byte();
    cursor.byte();
    let value = cursor.word();
    let regs = read_registers(cursor);
    let mut handlers = ArrayVec::new();
    read_rows::<Handler>(cursor, &mut handlers, usize::from(count));
    let specific = read_data(cursor, version);
    let thread = thread_of(flags, value, regs, handlers, specific);
    (id, thread)
}

impl Row for ThreadRecord {
    type Table = Threads;

    ghost use Rattle.ckrt_tables.specs.Records.{thread_bytes};
    ghost use Rattle.ckrt_tables.specs.DecodingThreads.{fits_row, ThreadsLeadTo};

    ghost encoding = { thread_bytes 2 };

    ghost fits = { fits_row 2 };

    ghost LeadsTo = { ThreadsLeadTo };

    fn read(cursor: &mut Cursor<'_>) -> Self {
        let (id, thread) = read_thread(cursor, AREA_VERSION);
        ThreadRecord { id, thread }
    }

    fn append(self, table: &mut Threads) {
        table.known();
        table.append_thread(self.id, self.thread);
    }
}

/// A thread as version 1 has it.
#[derive(Drop)]
pub struct FirstRecord {
    id: ThreadId,
    thread: Thread,
}

impl Model for FirstRecord {
    ghost use Rattle.ckrt_thread.specs.Contents.{ThreadRow};

    ghost Value = { ThreadRow };

    ghost view = { λ r. record { id = r.id; thread = r.thread } };
}

impl Row for FirstRecord {
    type Table = Threads;

    ghost use Rattle.ckrt_tables.specs.Records.{thread_bytes};
    ghost use Rattle.ckrt_tables.specs.DecodingThreads.{fits_row, ThreadsLeadTo};

    ghost encoding = { thread_bytes 1 };

    ghost fits = { fits_row 1 };

    ghost LeadsTo = { ThreadsLeadTo };

    fn read(cursor: &mut Cursor<'_>) -> Self {
        let (id, thread) = read_thread(cursor, 1);
        FirstRecord { id, thread }
    }

    fn append(self, table: &mut Threads) {
        table.known();
        table.append_thread(self.id, self.thread);
    }
}

// A wait.

/// What a retake ends with, by its number.
fn retake_from(number: u8) -> RetakeResult
    ensures { result ≡ retake_from number }
{
    match number {
        0 => RetakeResult::Done,
        110 => RetakeResult::TimedOut,
        _ => RetakeResult::Unwind,
    }
}

/// The reason of this kind, 1 to 9, with what a retake ends with and what it names.
fn reason_from(kind: u8, outcome: u8, first: u32, second: u32) -> Reason
    ensures { result ≡ reason_from kind outcome first second }
{
    match kind {
        1 => Reason::Join((first % 256) as ThreadId),
        2 => Reason::Lock(first),
        3 => Reason::Retake(first, retake_from(outcome)),
        4 => Reason::Condition(first, second),
        5 => Reason::Barrier(first),
        6 => Reason::Read(first),
        7 => Reason::Write(first),
        8 => Reason::Input,
        _ => Reason::Sleep,
    }
}

/// A moment that may be absent.
fn moment_if(is_there: u8, moment: u64) -> Option<u64>
    ensures { (o : Option ℕ) → is_there ≡ flag 1 (is_some o) → moment ≡ unwrap_or o 0 → result ≡ o }
{
    if is_there == 1 { Some(moment) } else { None }
}

impl Row for Wait {
    type Table = Threads;

    ghost use Rattle.ckrt_tables.specs.Records.{wait_bytes};
    ghost use Rattle.ckrt_tables.specs.Savable.{fits_wait};
    ghost use Rattle.ckrt_tables.specs.DecodingThreads.{WaitsLeadTo};

    ghost encoding = { wait_bytes };

    ghost fits = { fits_wait };

    ghost LeadsTo = { WaitsLeadTo };

    fn read(cursor: &mut Cursor<'_>) -> Self {
        let thread = cursor.byte();
        let kind = cursor.byte();
        let outcome = cursor.byte();
        let is_timed = cursor.byte();
        let first = cursor.word();
        let second = cursor.word();
        let moment = cursor.long();
        Wait {
            thread,
            reason: reason_from(kind, outcome, first, second),
            deadline: moment_if(is_timed, moment),
        }
    }

    fn append(self, table: &mut Threads) {
        table.known();
        table.append_wait(self);
    }
}

// The table of threads.

/// Puts a thread onto a hart, if one is to be there.
fn place_on(threads: &mut Threads, hart: usize, thread: Option<ThreadId>)
    ensures { (goal : State) → hart < 8 → who_is_on goal hart ≡ thread
        → HartsLeadTo hart threads.old goal
        → HartsLeadTo (hart + 1) threads.new goal }
{
    threads.known();
    if let Some(thread) = thread {
        threads.append_on_hart(hart, thread);
    }
}

/// Puts threads onto the harts, where all are idle.
fn place_all(threads: &mut Threads, harts: &[Option<ThreadId>])
    ensures { PutsOnHarts harts.now threads.old threads.new }
{
    for (hart, thread) in harts.iter().enumerate() {
        place_on(threads, hart, *thread);
    }
    threads.known();
}

/// How many threads there are, and the threads in a version, which go onto the table.
fn read_thread_rows(cursor: &mut Cursor<'_>, threads: &mut Threads, version: u32)
    requires { (version ≡ 1) ⊎ (version ≡ 2) }
    ensures { Reaches ThreadsLeadTo (fits_row version) (counted one_byte (thread_bytes version))
        (λ n. n < 256) cursor.old threads.old threads.new cursor.new }
{
    if version == 1 {
        read_few::<FirstRecord>(cursor, threads);
    } else {
        read_few::<ThreadRecord>(cursor, threads);
    }
}

/// The thread on each hart, the threads and the waits, in a version, which go onto a new table.
pub fn read_threads(cursor: &mut Cursor<'_>, threads: &mut Threads, version: u32)
    requires { (version ≡ 1) ⊎ (version ≡ 2) }
    ensures { BuildsThreads version threads.old cursor.old threads.new cursor.new }
{
    let mut harts = ArrayVec::new();
    read_rows::<Option<ThreadId>>(cursor, &mut harts, MAX_HARTS);
    read_thread_rows(cursor, threads, version);
    read_few::<Wait>(cursor, threads);
    place_all(threads, harts.as_slice());
}
