//! Saved tables, and their bytes as the format lists them.

use crate::expect::{bytes_of, expect_bytes, expect_eq, expect_eq_at, filled};
use crate::{EVERYTHING, FRESH};
use arrayvec::ArrayVec;
use circular_buffer::HeapCircularBuffer;
use ckrt_barrier::{Barrier, Barriers};
use ckrt_calls::{InputQueue, Status, Tables};
use ckrt_mutex::{Kind, Mutex, Mutexes};
use ckrt_objects::Entry;
use ckrt_rv32i::Regs;
use ckrt_rwlock::{RwLock, RwLocks};
use ckrt_tables::{HELD_LIMIT, Held, TABLES_ROOM, encode_tables};
use ckrt_thread::{
    Cancellation, Handler, Keys, Live, MAX_HANDLERS, MAX_KEYS, Reason, RetakeResult, SpecificData,
    Thread, ThreadId, Threads, Wait,
};
use std::process::Abort;

/// Held output of these bytes.
fn held<R: Abort + AllocGlobal>(rt: &R, bytes: &[u8]) -> Held {
    let mut held = HeapCircularBuffer::with_capacity(rt.alloc(), HELD_LIMIT).expect(
        rt,
        "memory for output",
    );
    assert!(rt; bytes.len() <= HELD_LIMIT);
    held.fill_from_slice(bytes);
    held
}

/// What the tables and the output are saved as; the room after it stays as it was.
pub fn expect_encoding<R: Abort + AllocGlobal>(rt: &R, tables: &Tables, held: &Held, want: &[u8]) {
    let mut room = filled(rt, 0xEE, TABLES_ROOM);
    assert!(rt; room.len() >= TABLES_ROOM);
    assert!(rt; tables.is_well_formed());
    assert!(rt; held.len() <= HELD_LIMIT);
    let length = encode_tables(tables, held, room.as_mut_slice());
    assert!(rt; length <= room.len());
    let (front, back) = room.as_slice().split_at(length);
    expect_bytes(rt, front, want);
    assert!(rt; back.iter().all(|byte| *byte == 0xEE));
}

/// The tables of a program that hasn't begun: 176 bytes.
#[test]
fn fresh_tables_have_176_bytes(rt: HostRuntime) {
    let tables = Tables::new(rt.alloc(), 16, 1).expect(&rt, "memory for tables");
    let want = bytes_of(&rt, FRESH);
    expect_eq(&rt, want.len(), 176);
    expect_encoding(&rt, &tables, &held(&rt, b""), want.as_slice());
}

/// A thread with zeros in its registers, at a pc.
fn live(pc: u32) -> Live {
    Live {
        regs: Regs::new(pc),
        initial: false,
        detached: false,
        cancellation: Cancellation::new(),
        handlers: ArrayVec::new(),
        specific: SpecificData::new(),
    }
}

/// Registers with a number of its own in each.
fn numbered_registers(pc: u32) -> Regs {
    let mut regs = Regs::new(pc);
    for register in 1..32u8 {
        regs.put(register, register as u32);
    }
    regs
}

/// Two handlers.
fn two_handlers() -> ArrayVec<Handler, MAX_HANDLERS> {
    let mut handlers = ArrayVec::new();
    handlers.push(Handler {
        routine: 0x2000,
        argument: 7,
    });
    handlers.push(Handler {
        routine: 0x2004,
        argument: 8,
    });
    handlers
}

/// Values under keys 0 and 31.
fn two_values() -> SpecificData {
    let mut specific = SpecificData::new();
    specific.values[0] = 9;
    specific.values[31] = 0x0102_0304;
    specific
}

/// The thread that the program began with: with a request, a number of its own in each register, two handlers, and two
/// values.
fn first_thread() -> Thread {
    let mut first = live(0x1004);
    first.regs = numbered_registers(0x1004);
    first.initial = true;
    first.cancellation.is_requested = true;
    first.handlers = two_handlers();
    first.specific = two_values();
    Thread::Live(first)
}

/// A thread that can be cancelled at any instruction.
fn asynchronous_thread(pc: u32) -> Thread {
    let mut thread = live(pc);
    thread.cancellation.is_asynchronous = true;
    Thread::Live(thread)
}

/// A thread that was cancelled, and runs the destructor of key 31 in the second round; its value under key 7 was set.
fn unwinding_thread(pc: u32) -> Thread {
    let mut thread = live(pc);
    thread.cancellation = Cancellation::new().acted_on();
    thread.specific.values[7] = 0xFFFF_FFFF;
    thread.specific.round = 2;
    thread.specific.next_key = 32;
    Thread::Live(thread)
}

/// A thread that doesn't unwind, with a value under this key, a round and a next key.
fn thread_with(key: u8, round: u8, next_key: u8) -> Thread {
    let mut thread = live(0x102C);
    if let Some(value) = thread.specific.values.get_mut(key as usize) {
        *value = 1;
    }
    thread.specific.round = round;
    thread.specific.next_key = next_key;
    Thread::Live(thread)
}

/// A detached thread that can't be cancelled.
fn detached_thread(pc: u32) -> Thread {
    let mut thread = live(pc);
    thread.detached = true;
    thread.cancellation.is_enabled = false;
    Thread::Live(thread)
}

/// The twelve threads: the first one, one that nothing is said of for each wait, one that is ready, and one that has ended.
fn thread_of(id: ThreadId) -> Thread {
    let pc = 0x1000 + 4 * u32::from(id);
    match id {
        1 => first_thread(),
        3 => asynchronous_thread(pc),
        5 => unwinding_thread(pc),
        10 => detached_thread(pc),
        12 => Thread::Ended(0x0102_0304),
        _ => Thread::Live(live(pc)),
    }
}

/// A thread after those that there are is taken, or refused.
fn expect_thread<R: Abort>(
    rt: &R,
    threads: &mut Threads,
    id: ThreadId,
    thread: Thread,
    is_taken: bool,
) {
    expect_eq_at(rt, id, threads.append_thread(id, thread), is_taken);
}

/// A wait after those that there are is taken, or refused.
fn expect_wait<R: Abort>(rt: &R, threads: &mut Threads, wait: Wait, is_taken: bool) {
    expect_eq_at(rt, wait.thread, threads.append_wait(wait), is_taken);
}

/// A thread on a hart is taken, or refused.
fn expect_on_hart<R: Abort>(
    rt: &R,
    threads: &mut Threads,
    hart: usize,
    thread: ThreadId,
    is_taken: bool,
) {
    expect_eq_at(rt, hart, threads.append_on_hart(hart, thread), is_taken);
}

/// A thread, what it waits for, and until when.
type Waiting = (ThreadId, Reason, Option<u64>);

/// A wait of each kind but that for input, and not in order of thread.
const WAITS: [Waiting; 9] = [
    (11, Reason::Sleep, Some(9)),
    (3, Reason::Lock(0x3000), Some(0x2_0000_0001)),
    (2, Reason::Join(3), None),
    (4, Reason::Retake(0x3000, RetakeResult::TimedOut), None),
    (5, Reason::Retake(0x3000, RetakeResult::Unwind), None),
    (6, Reason::Condition(0x3010, 0x3000), None),
    (7, Reason::Barrier(0x3020), None),
    (8, Reason::Read(0x3030), None),
    (9, Reason::Write(0x3040), None),
];

/// Keys 0, without a destructor, 7 and 31.
fn three_keys<R: Abort>(rt: &R) -> Keys {
    let mut destructors = [None; MAX_KEYS];
    destructors[0] = Some(0);
    destructors[7] = Some(0x2008);
    destructors[31] = Some(0xFFFF_FFFC);
    Keys::with(true, destructors).expect(rt, "destructors are at multiples of 4")
}

/// Twelve threads, nine waits, one of two harts with a thread, and three keys.
fn threads_with_everything<R: Abort + AllocGlobal>(rt: &R) -> Threads {
    let keys = three_keys(rt);
    let mut threads = Threads::empty(rt.alloc(), 2, keys).expect(rt, "memory for threads");
    for id in 1..13u8 {
        expect_thread(rt, &mut threads, id, thread_of(id), true);
    }
    for (thread, reason, deadline) in WAITS {
        let wait = Wait {
            thread,
            reason,
            deadline,
        };
        expect_wait(rt, &mut threads, wait, true);
    }
    expect_on_hart(rt, &mut threads, 1, 1, true);
    threads
}

/// A recursive mutex that thread 1 locked thrice, a free one that checks for errors, and a normal one of thread 10.
fn mutexes<R: Abort>(rt: &R) -> Mutexes {
    let mut mutexes = Mutexes::new();
    let values = [
        Mutex::owned(Kind::Recursive, 1, 3),
        Mutex::free(Kind::ErrorCheck),
        Mutex::owned(Kind::Normal, 10, 1),
    ];
    let mut address = 0x3000u32;
    for value in values {
        let entry = Entry { address, value };
        expect_eq(rt, mutexes.append(entry), true);
        address = address.wrapping_add(4);
    }
    mutexes
}

/// A lock that thread 1 writes under, and one that threads 1 and 10 read under, the first twice.
fn rwlocks<R: Abort>(rt: &R) -> RwLocks {
    let mut rwlocks = RwLocks::new();
    let written = Entry {
        address: 0x3030,
        value: RwLock::unheld().with_writer(Some(1)),
    };
    let read = Entry {
        address: 0x3040,
        value: RwLock::unheld()
            .with_read_count(1, 2)
            .with_read_count(10, 1),
    };
    for entry in [written, read] {
        expect_eq(rt, rwlocks.append(entry), true);
    }
    rwlocks
}

/// One barrier, for three threads.
fn barriers<R: Abort>(rt: &R) -> Barriers {
    let mut barriers = Barriers::new();
    let entry = Entry {
        address: 0x3020,
        value: Barrier { count: 3 },
    };
    expect_eq(rt, barriers.append(entry), true);
    barriers
}

/// Two bytes of input.
fn input<R: Abort + AllocGlobal>(rt: &R) -> InputQueue {
    let mut input = InputQueue::new(rt.alloc()).expect(rt, "memory for input");
    input.append(b"hi");
    input
}

/// Everything that tables can hold, but for a wait for input.
fn tables_with_everything<R: Abort + AllocGlobal>(rt: &R) -> Tables {
    Tables {
        threads: threads_with_everything(rt),
        mutexes: mutexes(rt),
        barriers: barriers(rt),
        rwlocks: rwlocks(rt),
        clock: 5,
        input: input(rt),
        closed: true,
        status: Status::Running,
    }
}

/// The same as bytes, with the output `out`. A long table costs where it is named: here alone.
pub fn bytes_of_everything<R: Abort + AllocGlobal>(rt: &R) -> Vec<u8> {
    bytes_of(rt, EVERYTHING)
}

/// Everything that tables can hold, but for a wait for input, has the bytes of the format.
#[test]
fn tables_with_everything_have_their_bytes(rt: HostRuntime) {
    let tables = tables_with_everything(&rt);
    let held = held(&rt, b"out");
    expect_encoding(&rt, &tables, &held, bytes_of_everything(&rt).as_slice());
}

const OF_ENDED: Wait = Wait {
    thread: 12,
    reason: Reason::Input,
    deadline: None,
};

const FOR_ITSELF: Wait = Wait {
    thread: 10,
    reason: Reason::Join(10),
    deadline: None,
};

/// A row that no well-formed table goes on with is refused, and the table stays as it was.
#[test]
fn rows_that_fit_nowhere_are_refused(rt: HostRuntime) {
    let mut threads = threads_with_everything(&rt);
    expect_thread(&rt, &mut threads, 12, Thread::Ended(0), false);
    expect_thread(&rt, &mut threads, 65, Thread::Ended(0), false);
    expect_thread(&rt, &mut threads, 13, first_thread(), false);
    expect_thread(&rt, &mut threads, 13, Thread::Live(live(0x1002)), false);
    expect_thread(&rt, &mut threads, 13, thread_with(1, 0, 0), false);
    expect_thread(&rt, &mut threads, 13, thread_with(0, 1, 0), false);
    expect_thread(&rt, &mut threads, 13, thread_with(0, 0, 1), false);
    expect_wait(&rt, &mut threads, OF_ENDED, false);
    expect_wait(&rt, &mut threads, FOR_ITSELF, false);
    expect_on_hart(&rt, &mut threads, 0, 1, false);
    expect_on_hart(&rt, &mut threads, 2, 10, false);
    expect_eq(&rt, threads.thread_count(), 12);
    expect_eq(&rt, threads.wait_count(), 9);
    expect_on_hart(&rt, &mut threads, 0, 10, true);
}
