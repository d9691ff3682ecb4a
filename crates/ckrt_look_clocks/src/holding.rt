//! What threads hold, and orders that are known.
ghost use Rattle.std.specs.Prelude.{◌≡◌, length, replicate, slice_set, vec_capacity, IfOk};
ghost use Rattle.std.specs.List.{list_any};
ghost use Rattle.ckrt_look_clocks.specs.LockHistories.{held_by, order_without, orders_without};
ghost use Rattle.ckrt_look_clocks.specs.LockOrders.{is_repeat, nothing_held};

use crate::lock::{LockName, is_lock};
use crate::operation::THREADS;
use crate::order::{Held, Order, give_up, is_repeat, nothing_held};
use std::alloc::{AllocError, Global};

/// Threads that hold nothing.
pub(crate) fn fresh_threads(alloc: Global) -> Result<Vec<Held>, AllocError>
    ensures { IfOk result (λ held. held.items ≡ replicate 65 nothing_held) }
{
    let mut held = Vec::with_capacity(alloc, THREADS)?;
    held.resize(THREADS, nothing_held())?;
    Ok(held)
}

/// No thread holds anything any more.
pub(crate) fn clear_threads(held: &mut Vec<Held>)
    ensures { held.new.items ≡ replicate (length held.old.items) nothing_held }
{
    held.as_mut_slice().fill(nothing_held());
}

pub(crate) fn held_by(held: &[Held], thread: usize) -> Held
    ensures { result ≡ held_by thread held.now }
{
    if thread < held.len() {
        held[thread]
    } else {
        nothing_held()
    }
}

/// Whether an order is among these.
pub(crate) fn is_known(orders: &[Order], order: &Order) -> bool
    ensures { result ≡ list_any (is_repeat order.now) orders.now }
{
    orders.iter().any(|known| is_repeat(order, known))
}

/// An order that tells of a lock no more.
fn order_without(order: &Order, lock: LockName) -> Order
    ensures { result ≡ order_without lock order.now }
{
    let mut left = *order;
    if is_lock(lock, order.taken.lock) {
        left.held = nothing_held();
    } else {
        give_up(&mut left.held.locks, lock);
    }
    left
}

/// An order at a place of another one.
pub(crate) fn put_order(orders: &mut Vec<Order>, place: usize, order: &Order)
    ensures orders { orders.new.items ≡ slice_set orders.old.items place order.now }
    ensures room { vec_capacity orders.new ≡ vec_capacity orders.old }
{
    if place < orders.len() {
        orders[place] = *order;
    }
}

/// Orders that tell of a lock no more.
pub(crate) fn forget(orders: &mut Vec<Order>, lock: LockName)
    ensures orders { orders.new.items
        ≡ orders_without (length orders.old.items) lock orders.old.items }
    ensures room { vec_capacity orders.new ≡ vec_capacity orders.old }
{
    for place in 0..orders.len() {
        orders[place] = order_without(&orders[place], lock);
    }
}
