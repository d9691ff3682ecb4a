//! Cycles of orders, as they are told.
ghost use Rattle.std.specs.Prelude.{◌≡◌, ◌≤◌, ◌<◌, length, None, vec_capacity, IfOk};
ghost use Rattle.ckrt_look_clocks.specs.Cycles.{are_at, are_links_in, counted_again, counted_at, has_link, inversion_of, is_at_place, is_link_at, is_link_in, latest, link_at, link_behind, link_of, links, order_before, order_in, row_at, row_of};
ghost use Rattle.ckrt_look_clocks.specs.declared.inversion.TheConstants.{INVERSIONS};

use crate::lock::Taking;
use crate::order::{Order, blocker, order_at};
use crate::search::{LINKS, Path};
use std::alloc::{AllocError, Global};

/// How many cycles are told apart by their places.
pub const INVERSIONS: usize = 64;

/// A thread of a cycle: what it took, and what it held then, which the one before it in the cycle took.
#[derive(Clone, Copy, Debug, Drop)]
pub struct Link {
    pub thread: u8,
    pub taken: Taking,
    pub held: Taking,
}

/// A cycle: the first of those at the same places of the program.
#[derive(Clone, Copy, Debug, Drop)]
pub struct Inversion {
    /// Its threads, from the one on that took its lock last.
    pub links: [Option<Link>; LINKS],
    /// How many they are.
    pub length: usize,
    /// How often there was a cycle there.
    pub count: u64,
}

/// An order behind another one.
fn link_behind(before: &Order, order: &Order) -> Link
    ensures { result ≡ link_behind before.now order.now }
{
    Link {
        thread: order.thread,
        taken: order.taken,
        held: blocker(&before.taken, &order.held.locks).unwrap_or(order.taken),
    }
}

/// The order at a place of a path, or the one that closes it.
fn order_in(orders: &[Order], path: &Path, place: Option<usize>) -> Order
    ensures { result ≡ order_in orders.now path.now place }
{
    match place {
        Some(place) => order_at(orders, place),
        None => order_at(orders, path.last),
    }
}

/// The order before one of a path, which is the last before the first.
fn order_before(orders: &[Order], path: &Path, number: usize) -> Order
    requires { number < 8 }
    ensures { result ≡ order_before number orders.now path.now }
{
    if number == 0 {
        return order_at(orders, path.last);
    }
    order_in(orders, path, path.places[number - 1])
}

/// An order of a path, behind the one before.
fn link_at(orders: &[Order], path: &Path, number: usize) -> Option<Link>
    requires { number < 8 }
    ensures { result ≡ link_at number orders.now path.now }
{
    match path.places[number] {
        Some(place) => Some(link_behind(
            &order_before(orders, path, number),
            &order_at(orders, place),
        )),
        None => None,
    }
}

/// The orders of a path, as they are told.
fn links(orders: &[Order], path: &Path) -> [Option<Link>; LINKS]
    ensures { result ≡ links (length path.now.places) orders.now path.now }
{
    let mut links = [None; LINKS];
    for number in 0..LINKS {
        links[number] = link_at(orders, path, number);
    }
    links
}

pub(crate) fn inversion_of(orders: &[Order], path: &Path) -> Inversion
    ensures { result ≡ inversion_of orders.now path.now }
{
    Inversion {
        links: links(orders, path),
        length: path.count,
        count: 1,
    }
}

/// Whether two locks were taken at the same place of the program.
fn is_at_place(a: &Taking, b: &Taking) -> bool
    ensures { result ≡ is_at_place a.now b.now }
{
    a.pc == b.pc && a.caller == b.caller
}

/// Whether a link has the place of another.
fn is_link_at(a: &Link, b: &Option<Link>) -> bool
    ensures { result ≡ is_link_at a.now b.now }
{
    match b {
        Some(b) => is_at_place(&a.taken, &b.taken),
        None => false,
    }
}

/// Whether one of these links has the place of a link.
fn has_link(links: &[Option<Link>; LINKS], a: &Link) -> bool
    ensures { result ≡ has_link links.now a.now }
{
    links.iter().any(|b| is_link_at(a, b))
}

/// The same, if there is such a link.
fn is_link_in(links: &[Option<Link>; LINKS], a: &Option<Link>) -> bool
    ensures { result ≡ is_link_in links.now a.now }
{
    match a {
        Some(a) => has_link(links, a),
        None => true,
    }
}

/// Whether each of these has the place of one of those.
fn are_links_in(links: &[Option<Link>; LINKS], more: &[Option<Link>; LINKS]) -> bool
    ensures { result ≡ are_links_in links.now more.now }
{
    more.iter().all(|a| is_link_in(links, a))
}

impl Inversion {
    /// Whether another cycle is at the same places: it has as many links, whose locks were taken at the same places.
    pub fn is_at(&self, other: &Inversion) -> bool
        ensures { result ≡ are_at self.now other.now }
    {
        self.length == other.length
            && are_links_in(&other.links, &self.links)
            && are_links_in(&self.links, &other.links)
    }
}

/// A place, if it is one that is looked for, or else the one before it.
fn latest(before: Option<usize>, place: usize, is_one: bool) -> Option<usize>
    ensures { result ≡ latest before place is_one }
{
    if is_one { Some(place) } else { before }
}

/// The row at a place.
fn row_at(rows: &[Inversion], place: usize) -> Inversion
    ensures { result ≡ row_at place rows.now }
{
    if place < rows.len() {
        rows[place]
    } else {
        Inversion {
            links: [None; LINKS],
            length: 0,
            count: 0,
        }
    }
}

/// The last of these that is at the places of a cycle.
fn row_of(rows: &[Inversion], inversion: &Inversion) -> Option<usize>
    ensures { result ≡ row_of (length rows.now) inversion.now rows.now }
{
    let mut row = None;
    for place in 0..rows.len() {
        row = latest(row, place, inversion.is_at(&row_at(rows, place)));
    }
    row
}

/// A row that counts one more.
fn counted_again(row: &Inversion) -> Inversion
    ensures { result ≡ counted_again row.now }
{
    Inversion {
        links: row.links,
        length: row.length,
        count: row.count.saturating_add(1),
    }
}

/// One of these counts one more.
fn count_at(rows: &mut Vec<Inversion>, place: usize)
    ensures rows { rows.new.items ≡ counted_at place rows.old.items }
    ensures room { vec_capacity rows.new ≡ vec_capacity rows.old }
{
    if place < rows.len() {
        rows[place] = counted_again(&rows[place]);
    }
}

/// The cycles that were found, and how often there was one for whose places no row was left.
#[derive(Drop)]
pub(crate) struct InversionRows {
    pub(crate) rows: Vec<Inversion>,
    pub(crate) others: u64,
    ghost room: { INVERSIONS ≤ vec_capacity rows },
}

impl InversionRows {
    ghost use Rattle.ckrt_look_clocks.specs.LockHistories.{inversions_in};
    ghost use Rattle.ckrt_look_clocks.specs.Cycles.{no_inversions, noted_cycle, noted_inversion};

    /// Nothing yet.
    pub(crate) fn new(alloc: Global) -> Result<InversionRows, AllocError>
        ensures { IfOk result (λ rows. inversions_in rows ≡ no_inversions) }
    {
        Ok(InversionRows {
            rows: Vec::with_capacity(alloc, INVERSIONS)?,
            others: 0,
        })
    }

    /// Nothing any more.
    pub(crate) fn clear(&mut self)
        ensures { inversions_in self.new ≡ no_inversions }
    {
        self.rows.clear();
        self.others = 0;
    }

    /// A cycle was found.
    fn note(&mut self, inversion: &Inversion)
        ensures { inversions_in self.new
            ≡ noted_inversion inversion.now (inversions_in self.old) }
    {
        match row_of(self.rows.as_slice(), inversion) {
            Some(place) => count_at(&mut self.rows, place),
            None => {
                if self.rows.len() < INVERSIONS {
                    let _ = self.rows.push(*inversion);
                    return;
                }
                self.others = self.others.saturating_add(1);
            }
        }
    }

    /// A cycle was found by a search, or none.
    pub(crate) fn note_cycle(&mut self, orders: &[Order], cycle: &Option<Path>)
        ensures { inversions_in self.new
            ≡ noted_cycle orders.now cycle.now (inversions_in self.old) }
    {
        if let Some(path) = cycle {
            self.note(&inversion_of(orders, path));
        }
    }
}
