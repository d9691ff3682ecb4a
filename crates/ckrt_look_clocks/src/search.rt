//! The search for a cycle of orders.
ghost use Rattle.std.specs.Prelude.{◌≡◌, ◌≤◌, length, replicate, None, vec_capacity, IfOk};
ghost use Rattle.ckrt_look_clocks.specs.Cycles.{begun, closes, ends_at, first_path, gone_on, is_apart_from, is_apart_from_all, is_reached, longer, may_go_on, no_path, path_at, searched, visited, visited_from, visited_one, with_path};
ghost use Rattle.ckrt_look_clocks.specs.declared.search.TheConstants.{ORDERS};

use crate::order::{Order, are_apart, awaits, order_at};
use std::alloc::{AllocError, Global};

/// How many orders are told apart.
pub const ORDERS: usize = 2_048;

/// How many orders a cycle may have.
pub const LINKS: usize = 8;

/// Orders by their places, each but the first one awaited by the one before.
#[derive(Clone, Copy, Debug, Drop)]
pub struct Path {
    pub places: [Option<usize>; LINKS],
    pub count: usize,
    pub last: usize,
}

/// The paths that were found so far, and the one that is a cycle.
#[derive(Drop)]
pub(crate) struct Search {
    pub(crate) paths: Vec<Path>,
    pub(crate) cycle: Option<Path>,
}

/// The path of one order.
fn first_path(place: usize) -> Path
    ensures { result ≡ first_path place }
{
    let mut places = [None; LINKS];
    places[0] = Some(place);
    Path {
        places,
        count: 1,
        last: place,
    }
}

/// A path with one order more.
fn longer(path: &Path, place: usize) -> Path
    ensures { result ≡ longer place path.now }
{
    let mut places = path.places;
    if path.count < LINKS {
        places[path.count] = Some(place);
    }
    Path {
        places,
        count: path.count.saturating_add(1),
        last: place,
    }
}

fn path_at(paths: &[Path], place: usize) -> Path
    ensures { result ≡ path_at place paths.now }
{
    if place < paths.len() {
        paths[place]
    } else {
        Path {
            places: [None; LINKS],
            count: LINKS,
            last: 0,
        }
    }
}

/// Whether an order may come so far at once with the one at a place of a path.
fn is_apart_from(orders: &[Order], order: &Order, place: &Option<usize>) -> bool
    ensures { result ≡ is_apart_from orders.now order.now place.now }
{
    match place {
        Some(place) => are_apart(&order_at(orders, *place), order),
        None => true,
    }
}

/// Whether some path ends with an order.
fn is_reached(paths: &[Path], place: usize) -> bool
    ensures { result ≡ is_reached place paths.now }
{
    paths.iter().any(|path| path.last == place)
}

/// Whether an order is apart from all those of a path.
fn is_apart_from_all(orders: &[Order], order: &Order, path: &Path) -> bool
    ensures { result ≡ is_apart_from_all orders.now order.now path.now }
{
    path.places
        .iter()
        .all(|place| is_apart_from(orders, order, place))
}

/// Whether a path goes on with an order, which no path ended with before.
fn may_go_on(orders: &[Order], paths: &[Path], path: &Path, place: usize) -> bool
    ensures { result ≡ may_go_on orders.now place path.now paths.now }
{
    let order = order_at(orders, place);
    path.count < LINKS
        && awaits(&order_at(orders, path.last), &order)
        && !is_reached(paths, place)
        && is_apart_from_all(orders, &order, path)
}

impl Search {
    ghost use Rattle.ckrt_look_clocks.specs.Cycles.{found_of};

    /// Nothing is looked for yet.
    pub(crate) fn new(alloc: Global) -> Result<Search, AllocError>
        ensures { IfOk result (λ search. ORDERS ≤ vec_capacity search.paths) }
    {
        Ok(Search {
            paths: Vec::with_capacity(alloc, ORDERS)?,
            cycle: None,
        })
    }

    /// One path more.
    fn add(&mut self, path: &Path)
        requires { ORDERS ≤ vec_capacity self.old.paths }
        ensures found { found_of self.new ≡ with_path path.now (found_of self.old) }
        ensures room { ORDERS ≤ vec_capacity self.new.paths }
    {
        if self.paths.len() < ORDERS {
            let _ = self.paths.push(*path);
        }
    }

    /// A path goes on with an order, and may close.
    fn go_on(&mut self, orders: &[Order], first: usize, path: &Path, place: usize)
        requires { ORDERS ≤ vec_capacity self.old.paths }
        ensures found { found_of self.new
            ≡ gone_on orders.now first place path.now (found_of self.old) }
        ensures room { ORDERS ≤ vec_capacity self.new.paths }
    {
        let more = longer(path, place);
        if awaits(&order_at(orders, place), &order_at(orders, first)) {
            self.cycle = Some(more);
        } else {
            self.add(&more);
        }
    }

    /// An order behind a path.
    fn visit_one(&mut self, orders: &[Order], first: usize, from: usize, place: usize)
        requires { ORDERS ≤ vec_capacity self.old.paths }
        ensures found { found_of self.new
            ≡ visited_one orders.now first from place (found_of self.old) }
        ensures room { ORDERS ≤ vec_capacity self.new.paths }
    {
        if self.cycle.is_some() {
            return;
        }
        let path = path_at(self.paths.as_slice(), from);
        if may_go_on(orders, self.paths.as_slice(), &path, place) {
            self.go_on(orders, first, &path, place);
        }
    }

    /// All orders behind a path.
    fn visit(&mut self, orders: &[Order], first: usize, from: usize)
        requires { ORDERS ≤ vec_capacity self.old.paths }
        ensures found { found_of self.new
            ≡ visited (length orders.now) orders.now first from (found_of self.old) }
        ensures room { ORDERS ≤ vec_capacity self.new.paths }
    {
        for place in 0..orders.len() {
            self.visit_one(orders, first, from, place);
        }
    }

    /// All orders behind a path, if there is one at the place, and no cycle yet.
    fn visit_from(&mut self, orders: &[Order], first: usize, from: usize)
        requires { ORDERS ≤ vec_capacity self.old.paths }
        ensures found { found_of self.new
            ≡ visited_from orders.now first from (found_of self.old) }
        ensures room { ORDERS ≤ vec_capacity self.new.paths }
    {
        if from < self.paths.len() && self.cycle.is_none() {
            self.visit(orders, first, from);
        }
    }

    /// Begins with the path of one order.
    fn begin(&mut self, first: usize)
        requires { ORDERS ≤ vec_capacity self.old.paths }
        ensures found { found_of self.new ≡ begun first }
        ensures room { ORDERS ≤ vec_capacity self.new.paths }
    {
        self.paths.clear();
        self.cycle = None;
        let _ = self.paths.push(first_path(first));
    }

    /// Looks for a cycle that begins with an order.
    pub(crate) fn search(&mut self, orders: &[Order], first: usize)
        requires { ORDERS ≤ vec_capacity self.old.paths }
        ensures found { found_of self.new
            ≡ searched (length orders.now) orders.now first }
        ensures room { ORDERS ≤ vec_capacity self.new.paths }
    {
        self.begin(first);
        for from in 0..orders.len() {
            self.visit_from(orders, first, from);
        }
    }
}
