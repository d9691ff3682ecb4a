//! Who holds which locks, and in which orders they were taken.
ghost use Rattle.std.specs.Prelude.{◌≡◌, ◌≤◌, length, vec_capacity, IfOk};
ghost use Rattle.ckrt_look_clocks.specs.declared.search.TheConstants.{ORDERS};

use crate::holding::{clear_threads, forget, fresh_threads, held_by, is_known, put_order};
use crate::inversion::{Inversion, InversionRows};
use crate::lock::{LockName, Locking, Taking};
use crate::order::{
    Held, Order, free_order, free_place, give_up, holds, holds_some, nothing_held, put_at,
};
use crate::search::{ORDERS, Search};
use std::alloc::{AllocError, Global};

/// The locks that each thread holds, the orders in which threads took them, and the cycles that these closed.
#[derive(Drop)]
pub(crate) struct Locks {
    held: Vec<Held>,
    orders: Vec<Order>,
    search: Search,
    found: InversionRows,
    is_full: bool,
    ghost threads: { length held.items ≡ 65 },
    ghost room: { ORDERS ≤ vec_capacity orders },
    ghost paths: { ORDERS ≤ vec_capacity search.paths },
}

impl Locks {
    ghost use Rattle.ckrt_look_clocks.specs.Cycles.{Inversions};
    ghost use Rattle.ckrt_look_clocks.specs.LockHistories.{behind_lock, gave_up, inversions_in, made_anew, no_orders, ordered_by, ordered_in, sought, took, with_held, with_lock, with_order};

    /// No lock is taken yet.
    pub(crate) fn new(alloc: Global) -> Result<Locks, AllocError>
        ensures { IfOk result (λ locks. ordered_in locks ≡ no_orders) }
    {
        Ok(Locks {
            held: fresh_threads(alloc)?,
            orders: Vec::with_capacity(alloc, ORDERS)?,
            search: Search::new(alloc)?,
            found: InversionRows::new(alloc)?,
            is_full: false,
        })
    }

    /// No lock is taken any more.
    pub(crate) fn clear(&mut self)
        ensures { ordered_in self.new ≡ no_orders }
    {
        clear_threads(&mut self.held);
        self.orders.clear();
        self.found.clear();
        self.is_full = false;
    }

    /// What a thread holds from here on.
    fn set_held(&mut self, thread: usize, held: &Held)
        ensures { ordered_in self.new ≡ with_held thread held.now (ordered_in self.old) }
    {
        if thread < self.held.len() {
            self.held[thread] = *held;
        }
    }

    /// A thread holds one lock more, if a place is free.
    fn add_lock(&mut self, thread: usize, taking: &Taking)
        ensures { ordered_in self.new ≡ with_lock thread taking.now (ordered_in self.old) }
    {
        let held = held_by(self.held.as_slice(), thread);
        match free_place(&held.locks) {
            Some(place) => self.set_held(thread, &put_at(&held, place, taking)),
            None => self.is_full = true,
        }
    }

    /// Notes the cycle that an order closes, if it does.
    fn seek(&mut self, place: usize)
        ensures { ordered_in self.new ≡ sought place (ordered_in self.old) }
    {
        let orders = self.orders.as_slice();
        self.search.search(orders, place);
        self.found.note_cycle(orders, &self.search.cycle);
    }

    /// One order more, unless it is known.
    fn add_order(&mut self, order: &Order)
        ensures { ordered_in self.new ≡ with_order order.now (ordered_in self.old) }
    {
        if is_known(self.orders.as_slice(), order) {
            return;
        }
        let count = self.orders.len();
        match free_order(self.orders.as_slice()) {
            Some(place) => {
                put_order(&mut self.orders, place, order);
                self.seek(place);
            }
            None => {
                if count < ORDERS {
                    let _ = self.orders.push(*order);
                    self.seek(count);
                } else {
                    self.is_full = true;
                }
            }
        }
    }

    /// The order of a lock that a thread takes, if it would have waited for it, and holds others.
    fn order_by(&mut self, thread: u8, waits: bool, taking: &Taking)
        ensures { ordered_in self.new
            ≡ ordered_by thread waits taking.now (ordered_in self.old) }
    {
        let held = held_by(self.held.as_slice(), usize::from(thread));
        if waits && holds_some(&held) {
            self.add_order(&Order {
                thread,
                taken: *taking,
                held,
            });
        }
    }

    /// A thread takes a lock.
    fn take(&mut self, thread: u8, waits: bool, taking: &Taking)
        ensures { ordered_in self.new ≡ took thread waits taking.now (ordered_in self.old) }
    {
        let holder = usize::from(thread);
        if holds(taking.lock, &held_by(self.held.as_slice(), holder)) {
            return;
        }
        self.order_by(thread, waits, taking);
        self.add_lock(holder, taking);
    }

    /// A thread gives up a lock.
    fn give_up(&mut self, thread: usize, lock: LockName)
        ensures { ordered_in self.new ≡ gave_up thread lock (ordered_in self.old) }
    {
        let mut held = held_by(self.held.as_slice(), thread);
        give_up(&mut held.locks, lock);
        self.set_held(thread, &held);
    }

    /// The next operation.
    pub(crate) fn note(&mut self, operation: &Locking)
        ensures { ordered_in self.new ≡ behind_lock operation.now (ordered_in self.old) }
    {
        if self.is_full {
            return;
        }
        match operation {
            Locking::Take(thread, waits, taking) => self.take(*thread, *waits, taking),
            Locking::GiveUp(thread, lock) => self.give_up(usize::from(*thread), *lock),
            Locking::Renew(lock) => forget(&mut self.orders, *lock),
            Locking::Begin(thread) => self.set_held(usize::from(*thread), &nothing_held()),
        }
    }

    /// The cycles that were found, in the order in which they were found first.
    pub(crate) fn rows(&self) -> &[Inversion]
        ensures { result.now ≡ (ordered_in self.now).found.rows }
    {
        self.found.rows.as_slice()
    }

    /// How often there was a cycle for whose places no row was left.
    pub(crate) fn others(&self) -> u64
        ensures { result ≡ (ordered_in self.now).found.others }
    {
        self.found.others
    }

    /// Whether a room was used up: then nothing is noted any more.
    pub(crate) fn is_full(&self) -> bool
        ensures { result ≡ (ordered_in self.now).is_full }
    {
        self.is_full
    }
}
