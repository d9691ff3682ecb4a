//! The rows of stacks.
ghost use Rattle.std.specs.Prelude.{◌≡◌, ◌≤◌, length, vec_capacity};
ghost use Rattle.ckrt_look_profile.specs.declared.row.TheConstants.{ROWS as rows_limit};
ghost use Rattle.ckrt_look_profile.specs.Stacks.{at_row, below, counted, entered, first_row, is_base, is_row, left, on_base, place_of, row_at, with_row};

/// How many stacks are told apart.
pub const ROWS: usize = 1024;

/// What a call stands on.
#[derive(Clone, Copy, Debug, Drop)]
pub enum Base {
    /// The thread of this number: nothing called it.
    Thread(u8),
    /// The row of this number.
    Row(usize),
}

/// A stack of calls: a function on those that called it.
#[derive(Clone, Copy, Debug, Drop)]
pub struct Row {
    /// What called it.
    pub base: Base,
    /// The address of its first instruction.
    pub entry: u32,
    /// How often it was called there.
    pub calls: u64,
    /// How many steps were made in it.
    pub steps: u64,
}

/// Where a thread is.
#[derive(Clone, Copy, Debug, Drop)]
pub struct Position {
    /// The row of its stack, or the thread itself where it is in no function.
    pub base: Base,
    /// How many calls it is further, for which no row was left.
    pub lost: u64,
}

/// Whether two calls stand on the same.
fn is_base(base: Base, other: Base) -> bool
    ensures { result ≡ is_base base other }
{
    match (base, other) {
        (Base::Thread(thread), Base::Thread(other)) => thread == other,
        (Base::Row(row), Base::Row(other)) => row == other,
        _ => false,
    }
}

/// Whether a row is that of a function on its base.
fn is_row(base: Base, entry: u32, row: &Row) -> bool
    ensures { result ≡ is_row base entry row.now }
{
    row.entry == entry && is_base(base, row.base)
}

/// The number of the row of a function on its base, or that of rows.
#[tactic(auto, using(crate::proofs::ListLemmas::row_here, crate::proofs::ListLemmas::row_further, crate::proofs::ListLemmas::no_row_ahead))]
fn place_of(base: Base, entry: u32, rows: &[Row]) -> usize
    ensures place { result ≡ place_of base entry rows.now }
    ensures within { result ≤ length rows.now }
{
    for place in 0..rows.len() {
        if is_row(base, entry, &rows[place]) {
            return place;
        }
    }
    rows.len()
}

/// At a row.
fn at_row(row: usize) -> Position
    ensures { result ≡ at_row row }
{
    Position {
        base: Base::Row(row),
        lost: 0,
    }
}

/// A function is called the first time on a base.
fn first_row(base: Base, entry: u32) -> Row
    ensures { result ≡ first_row base entry }
{
    Row {
        base,
        entry,
        calls: 1,
        steps: 0,
    }
}

/// A row more, as long as one is left.
fn add_row(rows: &mut Vec<Row>, base: Base, entry: u32) -> Position
    requires room { rows_limit ≤ vec_capacity rows.old }
    ensures rows { rows.new.items ≡ (with_row base entry rows.old.items).rows }
    ensures position { result ≡ (with_row base entry rows.old.items).position }
    ensures room { rows_limit ≤ vec_capacity rows.new }
{
    let place = rows.len();
    if place < ROWS {
        let _ = rows.push(first_row(base, entry));
        return at_row(place);
    }
    Position { base, lost: 1 }
}

/// A call of the function at an address.
pub(crate) fn enter(rows: &mut Vec<Row>, position: Position, entry: u32) -> Position
    requires room { rows_limit ≤ vec_capacity rows.old }
    ensures rows { rows.new.items ≡ (entered position entry rows.old.items).rows }
    ensures position { result ≡ (entered position entry rows.old.items).position }
    ensures room { rows_limit ≤ vec_capacity rows.new }
{
    let base = position.base;
    if position.lost > 0 {
        let lost = position.lost.saturating_add(1);
        return Position { base, lost };
    }
    let place = place_of(base, entry, rows.as_slice());
    if place < rows.len() {
        rows[place].calls = rows[place].calls.saturating_add(1);
        return at_row(place);
    }
    add_row(rows, base, entry)
}

/// The row of a base.
fn row_at(base: Base, rows: &[Row]) -> Option<Row>
    ensures { result ≡ row_at base rows.now }
{
    match base {
        Base::Row(row) if row < rows.len() => Some(rows[row]),
        _ => None,
    }
}

/// Where a thread is that was at a position of a base, and returns to this one.
fn on_base(position: Position, base: Base) -> Position
    ensures { result ≡ on_base position base }
{
    match base {
        Base::Row(row) => at_row(row),
        Base::Thread(_) => position,
    }
}

/// A return. One from the first function of a thread stays there.
pub(crate) fn leave(rows: &[Row], position: Position) -> Position
    ensures { result ≡ left position rows.now }
{
    if position.lost > 0 {
        return Position {
            base: position.base,
            lost: position.lost - 1,
        };
    }
    match row_at(position.base, rows) {
        Some(row) => on_base(position, row.base),
        None => position,
    }
}

/// So many steps at a position. Where it has no row, they are some of those without.
pub(crate) fn count(rows: &mut Vec<Row>, unkept: &mut u64, position: Position, steps: u64)
    requires room { rows_limit ≤ vec_capacity rows.old }
    ensures rows { rows.new.items ≡ (counted steps position rows.old.items unkept.old).rows }
    ensures unkept { unkept.new ≡ (counted steps position rows.old.items unkept.old).unkept }
    ensures room { rows_limit ≤ vec_capacity rows.new }
{
    match position.base {
        Base::Row(row) if position.lost == 0 && row < rows.len() => {
            rows[row].steps = rows[row].steps.saturating_add(steps);
        }
        _ => *unkept = unkept.saturating_add(steps),
    }
}
