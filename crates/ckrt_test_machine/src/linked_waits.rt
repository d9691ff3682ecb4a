//! The table of waits beside a plain list, and how often a hand-over reaches an entry of the table.

use crate::expect::expect_eq;
use arrayvec::ArrayVec;
use ckrt_rv32i::Regs;
use ckrt_thread::{
    Cancellation, Keys, Live, Object, Reason, RetakeResult, SpecificData, Thread, ThreadId,
    Threads, Wait,
};
use std::alloc::AllocGlobal;
use std::process::Abort;

/// How many calls the fixed list has.
const CALLS: u32 = 10_000;

/// At most that many entries are reached when the first waiter is taken out.
const MOST_REACHED: u8 = 8;

/// A wait in a form that can be compared: who, the kind of its reason, the object, the second object, and the deadline.
type Row = (ThreadId, u8, u32, u32, Option<u64>);

fn row_of(wait: &Wait) -> Row {
    let (kind, object, second) = match wait.reason {
        Reason::Input => (0, 0, 0),
        Reason::Sleep => (1, 0, 0),
        Reason::Join(thread) => (2, thread as u32, 0),
        Reason::Lock(mutex) => (3, mutex, 0),
        Reason::Retake(mutex, _) => (4, mutex, 0),
        Reason::Condition(condition, mutex) => (5, condition, mutex),
        Reason::Barrier(barrier) => (6, barrier, 0),
        Reason::Read(lock) => (7, lock, 0),
        Reason::Write(lock) => (8, lock, 0),
    };
    (wait.thread, kind, object, second, wait.deadline)
}

/// Whether a wait is for the object.
fn is_for(wait: &Wait, object: Object) -> bool {
    let (_, kind, address, _, _) = row_of(wait);
    match object {
        Object::Input => kind == 0,
        Object::End(thread) => kind == 2 && address == thread as u32,
        Object::Mutex(mutex) => (kind == 3 || kind == 4) && address == mutex,
        Object::Condition(condition) => kind == 5 && address == condition,
        Object::Barrier(barrier) => kind == 6 && address == barrier,
        Object::RwLock(lock) => (kind == 7 || kind == 8) && address == lock,
    }
}

/// A thread at the start of a program, with zeros in its registers.
fn live(initial: bool) -> Thread {
    Thread::Live(Live {
        regs: Regs::new(0x1000),
        initial,
        detached: false,
        cancellation: Cancellation::new(),
        handlers: ArrayVec::new(),
        specific: SpecificData::new(),
    })
}

/// 64 threads, none of which waits.
fn all_threads<R: Abort + AllocGlobal>(rt: &R) -> Threads {
    let mut threads = Threads::empty(rt.alloc(), 1, Keys::new()).expect(
        rt,
        "memory for the threads",
    );
    for id in 1..=64u8 {
        expect_eq(rt, threads.append_thread(id, live(id == 1)), true);
    }
    threads
}

/// One of four objects of each kind, by a number.
fn object_of(number: u32) -> Object {
    let address = 0x2000 + 4 * (number / 8 % 4);
    match number % 8 {
        0 => Object::Input,
        1 => Object::Condition(address),
        2 => Object::Barrier(address),
        3 => Object::RwLock(address),
        _ => Object::Mutex(address),
    }
}

/// A reason to wait, by a number, and its deadline.
fn reason_of(number: u32) -> (Reason, Option<u64>) {
    let address = 0x2000 + 4 * (number / 8 % 4);
    match number % 8 {
        0 => (Reason::Input, None),
        1 => (Reason::Condition(address, 0x3000), Some(number as u64)),
        2 => (Reason::Barrier(address), None),
        3 => (Reason::Read(address), None),
        4 => (Reason::Write(address), None),
        5 => (Reason::Sleep, Some(number as u64)),
        6 => (Reason::Retake(address, RetakeResult::Done), None),
        _ => (Reason::Lock(address), None),
    }
}

/// The next number of a fixed row (the constants are those of `rand` in POSIX.1-2017, with 32 bits kept).
fn next(number: u32) -> u32 {
    number.wrapping_mul(1_103_515_245).wrapping_add(12_345)
}

/// A plain list of waits, in order.
type Plain = Vec<Wait>;

/// A thread begins to wait, where it doesn't wait yet.
fn begin<R: Abort>(rt: &R, threads: &mut Threads, plain: &mut Plain, wait: Wait) {
    let waits = plain.iter().any(|other| other.thread == wait.thread);
    expect_eq(rt, threads.append_wait(wait), !waits);
    if !waits {
        plain.push(wait).expect(rt, "memory for a wait");
    }
}

/// A thread's wait ends.
fn end(threads: &mut Threads, plain: &mut Plain, thread: ThreadId) {
    threads.take_wait(thread);
    plain.retain(|wait| wait.thread != thread);
}

/// The first wait for an object in the plain list.
fn first_in(plain: &[Wait], object: Object) -> Option<Wait> {
    for wait in plain {
        if is_for(wait, object) {
            return Some(*wait);
        }
    }
    None
}

/// The first waiter of an object is taken out, and the answer is that of the plain list.
fn wake<R: Abort>(rt: &R, threads: &mut Threads, plain: &mut Plain, object: Object) {
    let want = first_in(plain.as_slice(), object);
    match (threads.wake_first(object), want) {
        (Some(waiter), Some(wait)) => {
            let got = Wait {
                thread: waiter.thread,
                reason: waiter.reason,
                deadline: wait.deadline,
            };
            expect_eq(rt, row_of(&got), row_of(&wait));
            assert!(rt; waiter.reached <= MOST_REACHED);
            plain.retain(|other| other.thread != wait.thread);
        }
        (None, None) => {}
        _ => panic!(rt; "only one of both lists has a waiter"),
    }
}

/// The table has the waits of the plain list, in its order.
fn expect_waits<R: Abort>(rt: &R, threads: &Threads, plain: &[Wait]) {
    let waits = threads.waits();
    expect_eq(rt, waits.len(), plain.len());
    for (wait, want) in waits.as_slice().iter().zip(plain) {
        expect_eq(rt, row_of(wait), row_of(want));
    }
}

/// The object has the queue that the plain list has for it.
fn expect_queue<R: Abort>(rt: &R, threads: &Threads, plain: &[Wait], object: Object) {
    let got = threads.first_waiter(object).map(|wait| row_of(&wait));
    let want = first_in(plain, object).map(|wait| row_of(&wait));
    expect_eq(rt, got, want);
    let count = plain.iter().filter(|wait| is_for(wait, object)).count();
    expect_eq(rt, threads.waiter_count(object), count);
}

/// The table has the waits of the plain list, and each object its queue.
fn expect_same<R: Abort>(rt: &R, threads: &Threads, plain: &[Wait]) {
    expect_waits(rt, threads, plain);
    for number in 0..32 {
        expect_queue(rt, threads, plain, object_of(number));
    }
}

/// One call of the fixed list, by a number.
fn call<R: Abort>(rt: &R, threads: &mut Threads, plain: &mut Plain, number: u32) {
    let thread = (number / 65_536 % 64 + 1) as ThreadId;
    match number / 1024 % 8 {
        0 => end(threads, plain, thread),
        1 | 2 => wake(rt, threads, plain, object_of(number / 4096)),
        _ => {
            let (reason, deadline) = reason_of(number / 4096);
            let wait = Wait {
                thread,
                reason,
                deadline,
            };
            begin(rt, threads, plain, wait);
        }
    }
}

/// 10,000 calls of a fixed list give the same waits as a plain list that is searched.
#[test]
fn ten_thousand_calls_as_a_plain_list(rt: HostRuntime) {
    let mut threads = all_threads(&rt);
    let mut plain = Vec::new(rt.alloc());
    let mut number = 1;
    for _ in 0..CALLS {
        number = next(number);
        call(&rt, &mut threads, &mut plain, number);
        expect_same(&rt, &threads, plain.as_slice());
    }
}

/// A thread waits for a mutex.
fn lock<R: Abort>(rt: &R, threads: &mut Threads, thread: ThreadId, mutex: u32) {
    let wait = Wait {
        thread,
        reason: Reason::Lock(mutex),
        deadline: None,
    };
    expect_eq(rt, threads.append_wait(wait), true);
}

/// The first waiter of a mutex is this thread, and few entries are reached until it is taken out.
fn expect_few<R: Abort>(rt: &R, threads: &mut Threads, mutex: u32, thread: ThreadId) {
    match threads.wake_first(Object::Mutex(mutex)) {
        Some(waiter) => {
            expect_eq(rt, waiter.thread, thread);
            assert!(rt; waiter.reached > 0 && waiter.reached <= MOST_REACHED);
        }
        None => panic!(rt; "nobody waits for {mutex}"),
    }
}

/// With 63 waits in the table a hand-over reaches few entries, of a queue whose first is after 60 others as of one whose
/// first is the first of all.
#[test]
fn few_entries_are_reached_among_63_waits(rt: HostRuntime) {
    let mut threads = all_threads(&rt);
    for thread in 2..=61u8 {
        lock(&rt, &mut threads, thread, 0x2000);
    }
    for thread in 62..=64u8 {
        lock(&rt, &mut threads, thread, 0x3000);
    }
    expect_eq(&rt, threads.wait_count(), 63);
    expect_few(&rt, &mut threads, 0x3000, 62);
    for thread in 2..=61u8 {
        expect_few(&rt, &mut threads, 0x2000, thread);
    }
    expect_few(&rt, &mut threads, 0x3000, 63);
    expect_few(&rt, &mut threads, 0x3000, 64);
    expect_eq(
        &rt,
        threads.wake_first(Object::Mutex(0x2000)).is_none(),
        true,
    );
    expect_eq(&rt, threads.wait_count(), 0);
}
