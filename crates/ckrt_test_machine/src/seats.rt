//! What the tables of objects share, at a type of object that the guest does not have: the table, the count and the
//! granting.
ghost use Rattle.std.specs.Prelude.{nat_lt, ◌-◌, ◌≡◌, ◌≤◌, true, length};
ghost use Rattle.ckrt_objects.specs.AddressMap.{is_rising};

use crate::expect::{expect_eq, expect_eq_at};
use arrayvec::ArrayVec;
use ckrt_mutex::Mutex;
use ckrt_objects::{
    Entry, Grant, Named, are_limit_in_use, are_too_few, get, grant_waiters, is_full, is_in_use,
    is_named_by_wait, remove, store,
};
use ckrt_thread::{CallResult, Object, Reason, Threads, Wait};
use std::process::Abort;

/// Seats that are granted one by one. Who waits at a condition names the seat that it wants, as it would its mutex.
#[derive(Clone, Copy, Debug, Default, Drop, PartialEq, Eq)]
struct Seats {
    free: u32,
}

impl Named for Seats {
    ghost use Rattle.ckrt_mutex.specs.Rows.{named};
    ghost use Rattle.ckrt_mutex.specs.Named.{named_by_object};

    ghost named = { named };

    ghost by_object = { named_by_object };

    fn named_by(wait: &Wait) -> Option<u32> {
        Mutex::named_by(wait)
    }
}

impl Grant for Seats {
    ghost IsProper = { λ _. Unit {0} };

    ghost is_admissible = { λ s w. nat_lt 0 s.free };

    ghost granted = { λ s w. record { free = s.free - 1 } };

    fn admits(&self, _wait: &Wait) -> bool {
        0 < self.free
    }

    fn grant(&mut self, _wait: &Wait) {
        self.free -= 1;
    }
}

const SEATS: u32 = 0x2000;

/// Threads 1 to 3, of which 2 and 3 wait for seats.
fn waiting<R: Abort + AllocGlobal>(rt: &R) -> Threads {
    let mut threads = Threads::new(rt.alloc(), 0x1_0000, 1).expect(rt, "memory for threads");
    begin(rt, &mut threads);
    begin(rt, &mut threads);
    wait(rt, &mut threads, 2);
    wait(rt, &mut threads, 3);
    threads
}

/// Thread 1 begins another.
fn begin<R: Abort>(rt: &R, threads: &mut Threads) {
    assert!(rt; threads.is_ready(1));
    let created = threads.create(1, 0x1000, 0, 0x8000, 0);
    expect_eq(rt, created, CallResult::Done(0));
}

/// A thread that is ready waits for the seat of its number.
fn wait<R: Abort>(rt: &R, threads: &mut Threads, thread: u8) {
    assert!(rt; threads.is_ready(thread));
    threads.block(thread, Reason::Condition(SEATS, thread as u32), None);
}

/// A thread is ready or not.
fn expect_ready<R: Abort>(rt: &R, threads: &Threads, thread: u8, is_ready: bool) {
    expect_eq_at(rt, thread, threads.is_ready(thread), is_ready);
}

#[test]
fn by_address(rt: HostRuntime) {
    let mut table: ArrayVec<Entry<Seats>, 3> = ArrayVec::new();
    store(&mut table, 0x3000, Seats { free: 3 });
    store(&mut table, 0x1000, Seats { free: 1 });
    store(&mut table, 0x3000, Seats { free: 2 });
    expect_eq(&rt, table.len(), 2);
    expect_eq(&rt, get(table.as_slice(), 0x3000), Some(Seats { free: 2 }));
    expect_eq(&rt, get(table.as_slice(), 0x2000), None);
    remove(&mut table, 0x3000);
    expect_eq(&rt, get(table.as_slice(), 0x3000), None);
}

/// Threads 2 and 3 wait for seats 2 and 3, and seats 2 and 9 are in the table.
fn expect_in_use<R: Abort>(rt: &R, threads: &Threads, table: &[Entry<Seats>])
    requires rising { is_rising table.now ≡ true }
    requires few { length table.now ≤ 3 }
{
    expect_eq(rt, is_named_by_wait::<Seats>(threads, 3), true);
    expect_eq(rt, is_in_use(threads, table, 9), true);
    expect_eq(rt, is_in_use(threads, table, 7), false);
    expect_eq(rt, threads.named_at_most(), 2);
    expect_eq(rt, are_too_few(threads, table, 5), true);
    expect_eq(rt, are_too_few(threads, table, 4), false);
    expect_eq(rt, are_limit_in_use(threads, table, 3), true);
    expect_eq(rt, are_limit_in_use(threads, table, 4), false);
    expect_eq(rt, is_full(threads, table, 7, 3), true);
    expect_eq(rt, is_full(threads, table, 3, 3), false);
}

#[test]
fn in_use(rt: HostRuntime) {
    let threads = waiting(&rt);
    let mut table: ArrayVec<Entry<Seats>, 3> = ArrayVec::new();
    store(&mut table, 2, Seats { free: 1 });
    store(&mut table, 9, Seats { free: 1 });
    expect_in_use(&rt, &threads, table.as_slice());
}

#[test]
fn granted_in_order(rt: HostRuntime) {
    let mut threads = waiting(&rt);
    let mut seats = Seats { free: 1 };
    grant_waiters(&mut threads, Object::Condition(SEATS), &mut seats);
    expect_eq(&rt, seats.free, 0);
    expect_ready(&rt, &threads, 2, true);
    expect_ready(&rt, &threads, 3, false);
    seats.free = 5;
    grant_waiters(&mut threads, Object::Condition(SEATS), &mut seats);
    expect_eq(&rt, seats.free, 4);
    expect_ready(&rt, &threads, 3, true);
}
