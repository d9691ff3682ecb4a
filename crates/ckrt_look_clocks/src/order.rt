//! Locks that a thread holds, and orders in which it took some.
ghost use Rattle.std.specs.Prelude.{◌≡◌, length, None};
ghost use Rattle.std.specs.List.{list_any};
ghost use Rattle.ckrt_look_clocks.specs.LockOrders.{are_alike, are_apart, awaits, blocker, free_order, free_place, holds, holds_some, is_idle, is_repeat, meets, meets_with, no_order, nothing_held, order_at, put_at, share, without};

use crate::lock::{
    LockName, Taking, clashes_with, is_alike, is_of, is_same_taking, no_lock, unless_of,
};

/// How many locks a thread may hold at once, so that they are told apart.
pub const HELD: usize = 16;

/// The locks that a thread holds.
#[derive(Clone, Copy, Debug, Drop)]
pub struct Held {
    pub locks: [Option<Taking>; HELD],
}

/// A thread took a lock while it held these.
#[derive(Clone, Copy, Debug, Drop)]
pub struct Order {
    pub thread: u8,
    pub taken: Taking,
    pub held: Held,
}

/// No lock.
pub(crate) fn nothing_held() -> Held
    ensures { result ≡ nothing_held }
{
    Held {
        locks: [None; HELD],
    }
}

pub(crate) fn no_order() -> Order
    ensures { result ≡ no_order }
{
    Order {
        thread: 0,
        taken: no_lock(),
        held: nothing_held(),
    }
}

/// Whether this lock is held.
pub(crate) fn holds(lock: LockName, held: &Held) -> bool
    ensures { result ≡ holds lock held.now }
{
    held.locks.iter().any(|taking| is_of(lock, taking))
}

/// Whether any lock is held.
pub(crate) fn holds_some(held: &Held) -> bool
    ensures { result ≡ holds_some held.now }
{
    held.locks.iter().any(|taking| taking.is_some())
}

/// The last place that is free.
pub(crate) fn free_place(locks: &[Option<Taking>; HELD]) -> Option<usize>
    ensures { result ≡ free_place (length locks.now) locks.now }
{
    let mut free = None;
    for place in 0..HELD {
        if locks[place].is_none() {
            free = Some(place);
        }
    }
    free
}

/// One lock more is held, at a place that is free.
pub(crate) fn put_at(held: &Held, place: usize, taking: &Taking) -> Held
    ensures { result ≡ put_at place taking.now held.now }
{
    let mut locks = held.locks;
    if place < HELD {
        locks[place] = Some(*taking);
    }
    Held { locks }
}

/// A lock isn't held any more.
pub(crate) fn give_up(locks: &mut [Option<Taking>; HELD], lock: LockName)
    ensures { locks.new ≡ without (length locks.old) lock locks.old }
{
    for place in 0..HELD {
        locks[place] = unless_of(lock, locks[place]);
    }
}

/// Whether the same locks are held in the same way at the same places.
fn are_alike(a: &[Option<Taking>; HELD], b: &[Option<Taking>; HELD]) -> bool
    ensures { result ≡ are_alike (length a.now) a.now b.now }
{
    let mut alike = true;
    for place in 0..HELD {
        alike = alike && is_alike(&a[place], &b[place]);
    }
    alike
}

/// Whether a thread took the same lock while it held the same ones.
pub(crate) fn is_repeat(a: &Order, b: &Order) -> bool
    ensures { result ≡ is_repeat a.now b.now }
{
    a.thread == b.thread
        && is_same_taking(&a.taken, &b.taken)
        && are_alike(&a.held.locks, &b.held.locks)
}

/// Whether an order is told of no lock any more.
pub(crate) fn is_idle(order: &Order) -> bool
    ensures { result ≡ is_idle order.now }
{
    !holds_some(&order.held)
}

/// The last order that is told of no lock any more.
pub(crate) fn free_order(orders: &[Order]) -> Option<usize>
    ensures { result ≡ free_order (length orders.now) orders.now }
{
    let mut free = None;
    for place in 0..orders.len() {
        if is_idle(&orders[place]) {
            free = Some(place);
        }
    }
    free
}

pub(crate) fn order_at(orders: &[Order], place: usize) -> Order
    ensures { result ≡ order_at place orders.now }
{
    if place < orders.len() {
        orders[place]
    } else {
        no_order()
    }
}

/// Whether one of the locks that are held keeps a taking out.
fn meets(taking: &Taking, held: &Held) -> bool
    ensures { result ≡ meets taking.now held.now }
{
    held.locks.iter().any(|lock| clashes_with(taking, lock))
}

/// Whether the first took what the second's thread held.
pub(crate) fn awaits(a: &Order, b: &Order) -> bool
    ensures { result ≡ awaits a.now b.now }
{
    meets(&a.taken, &b.held)
}

/// Whether a lock that is held somewhere keeps out one of those that are held.
fn meets_with(held: &Held, lock: &Option<Taking>) -> bool
    ensures { result ≡ meets_with held.now lock.now }
{
    match lock {
        Some(taking) => meets(taking, held),
        None => false,
    }
}

/// Whether some lock is held by both, and not by both to read.
fn share(a: &Held, b: &Held) -> bool
    ensures { result ≡ share a.now b.now }
{
    a.locks.iter().any(|lock| meets_with(b, lock))
}

/// Whether two orders are of two threads that may come so far at once.
pub(crate) fn are_apart(a: &Order, b: &Order) -> bool
    ensures { result ≡ are_apart a.now b.now }
{
    a.thread != b.thread && !share(&a.held, &b.held)
}

/// What keeps a taking out, of the locks that are held: the last by place.
pub(crate) fn blocker(taking: &Taking, locks: &[Option<Taking>; HELD]) -> Option<Taking>
    ensures { result ≡ blocker (length locks.now) taking.now locks.now }
{
    let mut blocker = None;
    for place in 0..HELD {
        if clashes_with(taking, &locks[place]) {
            blocker = locks[place];
        }
    }
    blocker
}
