//! What a table holds, row by row.

use crate::expect::{expect_eq, expect_eq_at};
use arrayvec::ArrayVec;
use ckrt_barrier::{Barrier, Barriers};
use ckrt_mutex::{Kind, Mutex, Mutexes};
use ckrt_objects::Entry;
use ckrt_rv32i::Regs;
use ckrt_rwlock::{RwLock, RwLocks};
use ckrt_thread::{
    Cancellation, Keys, Live, Reason, SpecificData, Thread, ThreadId, Threads, Wait,
};
use std::process::Abort;

/// A thread after those that there are.
fn append_thread<R: Abort>(rt: &R, threads: &mut Threads, id: ThreadId) {
    let thread = Thread::Live(Live {
        regs: Regs::new(0x1000),
        initial: false,
        detached: false,
        cancellation: Cancellation::new(),
        handlers: ArrayVec::new(),
        specific: SpecificData::new(),
    });
    expect_eq(rt, threads.append_thread(id, thread), true);
}

/// A wait after those that there are.
fn append_wait<R: Abort>(
    rt: &R,
    threads: &mut Threads,
    thread: ThreadId,
    reason: Reason,
    deadline: Option<u64>,
) {
    let wait = Wait {
        thread,
        reason,
        deadline,
    };
    expect_eq(rt, threads.append_wait(wait), true);
}

/// Threads 1, 4, 9 and 64, of which 64 waits first, and then 4.
fn four_threads<R: Abort + AllocGlobal>(rt: &R) -> Threads {
    let mut threads = Threads::empty(rt.alloc(), 2, Keys::new()).expect(rt, "memory for threads");
    for id in [1, 4, 9, 64u8] {
        append_thread(rt, &mut threads, id);
    }
    append_wait(rt, &mut threads, 64, Reason::Sleep, Some(9));
    append_wait(rt, &mut threads, 4, Reason::Barrier(0x3020), None);
    expect_eq(rt, threads.append_on_hart(1, 9), true);
    threads
}

/// Which thread stands at a place.
fn expect_thread<R: Abort>(rt: &R, threads: &Threads, place: usize, want: Option<ThreadId>) {
    let id = match threads.thread_at(place) {
        Some((id, _)) => Some(id),
        None => None,
    };
    expect_eq_at(rt, place, id, want);
}

/// Which thread waits at a place.
fn expect_wait<R: Abort>(rt: &R, threads: &Threads, place: usize, want: Option<ThreadId>) {
    let thread = match threads.wait_at(place) {
        Some(wait) => Some(wait.thread),
        None => None,
    };
    expect_eq_at(rt, place, thread, want);
}

/// Threads stand by rising number, waits in the order of the start of waiting, and harts by their numbers.
#[test]
fn threads_waits_and_harts_stand_at_their_places(rt: HostRuntime) {
    let threads = four_threads(&rt);
    expect_eq(&rt, threads.thread_count(), 4);
    expect_thread(&rt, &threads, 0, Some(1));
    expect_thread(&rt, &threads, 1, Some(4));
    expect_thread(&rt, &threads, 2, Some(9));
    expect_thread(&rt, &threads, 3, Some(64));
    expect_thread(&rt, &threads, 4, None);
    expect_eq(&rt, threads.wait_count(), 2);
    expect_wait(&rt, &threads, 0, Some(64));
    expect_wait(&rt, &threads, 1, Some(4));
    expect_wait(&rt, &threads, 2, None);
    expect_eq(&rt, threads.hart_count(), 2);
    expect_eq(&rt, threads.on_hart(0), None);
    expect_eq(&rt, threads.on_hart(1), Some(9));
}

/// Mutexes of this owner at 0x3000, 0x3004 and 0x3008.
fn three_mutexes<R: Abort>(rt: &R) -> Mutexes {
    let mut mutexes = Mutexes::new();
    for (address, owner) in [(0x3000, 1), (0x3004, 10), (0x3008, 64)] {
        let value = Mutex::owned(Kind::Normal, owner, 1);
        expect_eq(rt, mutexes.append(Entry { address, value }), true);
    }
    mutexes
}

/// The mutex at a place.
fn expect_mutex<R: Abort>(rt: &R, mutexes: &Mutexes, place: usize, address: u32, owner: u8) {
    assert!(rt; place < mutexes.count());
    let entry = mutexes.row(place);
    expect_eq_at(
        rt,
        place,
        (entry.address, entry.value.owner),
        (address, Some(owner)),
    );
}

/// Mutexes stand by rising address.
#[test]
fn mutexes_stand_at_their_places(rt: HostRuntime) {
    let mutexes = three_mutexes(&rt);
    expect_eq(&rt, mutexes.count(), 3);
    expect_mutex(&rt, &mutexes, 0, 0x3000, 1);
    expect_mutex(&rt, &mutexes, 1, 0x3004, 10);
    expect_mutex(&rt, &mutexes, 2, 0x3008, 64);
}

/// The barrier at a place.
fn expect_barrier<R: Abort>(rt: &R, barriers: &Barriers, place: usize, address: u32, count: u32) {
    assert!(rt; place < barriers.count());
    let entry = barriers.row(place);
    expect_eq_at(
        rt,
        place,
        (entry.address, entry.value.count),
        (address, count),
    );
}

/// Barriers stand by rising address.
#[test]
fn barriers_stand_at_their_places(rt: HostRuntime) {
    let mut barriers = Barriers::new();
    for (address, count) in [(0x3020, 3), (0x3024, 5)] {
        let value = Barrier { count };
        expect_eq(&rt, barriers.append(Entry { address, value }), true);
    }
    expect_eq(&rt, barriers.count(), 2);
    expect_barrier(&rt, &barriers, 0, 0x3020, 3);
    expect_barrier(&rt, &barriers, 1, 0x3024, 5);
}

/// The read-write lock at a place, which this thread writes under.
fn expect_lock<R: Abort>(rt: &R, locks: &RwLocks, place: usize, address: u32, writer: ThreadId) {
    assert!(rt; place < locks.count());
    let entry = locks.row(place);
    expect_eq_at(
        rt,
        place,
        (entry.address, entry.value.writer),
        (address, Some(writer)),
    );
}

/// Read-write locks stand by rising address.
#[test]
fn locks_stand_at_their_places(rt: HostRuntime) {
    let mut locks = RwLocks::new();
    for (address, writer) in [(0x3030, 1), (0x3040, 10)] {
        let value = RwLock::unheld().with_writer(Some(writer));
        expect_eq(&rt, locks.append(Entry { address, value }), true);
    }
    expect_eq(&rt, locks.count(), 2);
    expect_lock(&rt, &locks, 0, 0x3030, 1);
    expect_lock(&rt, &locks, 1, 0x3040, 10);
}
