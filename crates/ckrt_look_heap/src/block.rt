//! Blocks of a heap, what is told of words of memory, and what is done to these.
ghost use Rattle.std.specs.Prelude.{◌≡◌};
ghost use Rattle.ckrt_look_heap.specs.Shadow.{begin_of, changed_by, is_begin, is_load, is_within, kind_of, left_by, may_use, needed, number_of};

use ckrt_look_calls::Moment;

/// A block that was given: so many words from the first one on. That word is the heap's own, and behind it the block has so many bytes.
#[derive(Clone, Copy, Debug, Drop)]
pub struct Block {
    pub first: u32,
    pub count: u32,
    pub bytes: u32,
    pub taken: Moment,
}

/// So many words from the first one on.
#[derive(Clone, Copy, Debug, Drop)]
pub struct Part {
    pub first: u32,
    pub count: u32,
}

/// What was told last of a word of memory.
#[derive(Clone, Copy, Debug, Drop)]
pub enum Cell {
    /// Nothing was.
    Unknown,
    /// It is no block's.
    Unowned,
    /// It is a block's.
    Given(Block),
    /// The block that had it was given back.
    GivenBack(Block, Moment),
    /// It is a block's, in a part that is nobody's any more, as a stack that has ended.
    Ended(Block, Moment),
}

/// What is told of words.
#[derive(Clone, Copy, Debug, Drop)]
pub(crate) enum Change {
    /// This.
    Told(Cell),
    /// They are nobody's from a moment on.
    Left(Moment),
}

/// What is told of a word that is nobody's from a moment on.
fn left_by(moment: Moment, cell: &Cell) -> Cell
    ensures { result ≡ left_by moment cell.now }
{
    match cell {
        Cell::Unknown => Cell::Unowned,
        Cell::Given(block) => Cell::Ended(*block, moment),
        Cell::Unowned | Cell::GivenBack(_, _) | Cell::Ended(_, _) => *cell,
    }
}

/// What is told of a word then.
pub(crate) fn changed_by(change: &Change, cell: &Cell) -> Cell
    ensures { result ≡ changed_by change.now cell.now }
{
    match change {
        Change::Told(told) => *told,
        Change::Left(moment) => left_by(*moment, cell),
    }
}

/// What is done to memory.
#[derive(Clone, Copy, Debug, Drop)]
pub enum Deed {
    Load,
    Store,
    /// A block is given back, that which begins at the address.
    Free,
}

/// What a thread does to so many bytes from an address on.
#[derive(Clone, Copy, Debug, Drop)]
pub struct Access {
    pub deed: Deed,
    /// The instruction's address.
    pub pc: u32,
    /// Where the function returns to that it is in, or that it called.
    pub link: u32,
    pub address: u32,
    /// 1, 2 or 4, and 0 of a block that is given back.
    pub size: u8,
    pub moment: Moment,
}

/// The address of the first byte of a block.
pub(crate) fn begin_of(block: &Block) -> u64
    ensures { result ≡ begin_of block.now }
{
    4 * u64::from(block.first) + 4
}

/// Whether something is a load.
fn is_load(deed: Deed) -> bool
    ensures { result ≡ is_load deed }
{
    match deed {
        Deed::Load => true,
        Deed::Store | Deed::Free => false,
    }
}

/// How many bytes of an access have to be a block's: of a word that is loaded whole the first one.
fn needed(access: &Access) -> u8
    ensures { result ≡ needed access.now }
{
    if is_load(access.deed) && access.size == 4 {
        return 1;
    }
    access.size
}

/// Whether these bytes of an access are a block's.
fn is_within(access: &Access, block: &Block) -> bool
    ensures { result ≡ is_within access.now block.now }
{
    let block = *block;
    let begin = begin_of(&block);
    let first = u64::from(access.address);
    begin <= first && first + u64::from(needed(access)) <= begin + u64::from(block.bytes)
}

/// Whether a word of which this was told may be loaded or stored so.
pub(crate) fn may_use(access: &Access, cell: &Cell) -> bool
    ensures { result ≡ may_use access.now cell.now }
{
    match cell {
        Cell::Unknown => true,
        Cell::Given(block) => is_within(access, block),
        Cell::Unowned | Cell::GivenBack(_, _) | Cell::Ended(_, _) => false,
    }
}

/// Whether a block begins at the address that is given back.
pub(crate) fn is_begin(access: &Access, block: &Block) -> bool
    ensures { result ≡ is_begin access.now block.now }
{
    u64::from(access.address) == begin_of(block)
}

/// A number for each thing that is done.
pub(crate) fn number_of(deed: Deed) -> u8
    ensures { result ≡ number_of deed }
{
    match deed {
        Deed::Load => 0,
        Deed::Store => 1,
        Deed::Free => 2,
    }
}

/// A number for each kind of what is told of a word.
pub(crate) fn kind_of(cell: &Cell) -> u8
    ensures { result ≡ kind_of cell.now }
{
    match cell {
        Cell::Unknown => 0,
        Cell::Unowned => 1,
        Cell::Given(_) => 2,
        Cell::GivenBack(_, _) => 3,
        Cell::Ended(_, _) => 4,
    }
}
