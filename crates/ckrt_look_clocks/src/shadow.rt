//! The shadow of a word of memory.
ghost use Rattle.std.specs.Prelude.{◌≡◌, ◌%◌, ◌<◌, None};
ghost use Rattle.ckrt_look_clocks.specs.Detection.{given_with, is_by, is_repeated, is_same, kept, no_accesses, stored, with_load};

use crate::operation::{Access, Block};

/// The accesses to a word that later ones are compared with.
#[derive(Clone, Copy, Debug)]
pub struct Cell {
    /// The last store to each byte, by rising address.
    pub stores: [Option<Access>; 4],
    /// The last load.
    pub load: Option<Access>,
    /// The last load of the thread that loaded before that one's.
    pub other: Option<Access>,
    /// The memory given anew last that has the word.
    pub block: Option<Block>,
}

/// No access yet.
pub(crate) fn no_accesses() -> Cell
    ensures { result ≡ no_accesses }
{
    Cell {
        stores: [None; 4],
        load: None,
        other: None,
        block: None,
    }
}

/// No access yet, to a word that was given anew with this memory.
pub(crate) fn given_with(block: &Block) -> Cell
    ensures { result ≡ given_with block.now }
{
    Cell {
        stores: [None; 4],
        load: None,
        other: None,
        block: Some(*block),
    }
}

/// Whether an access is of this thread.
fn is_by(thread: u8, access: &Option<Access>) -> bool
    ensures { result ≡ is_by thread access.now }
{
    match access {
        Some(access) => thread == access.thread,
        None => false,
    }
}

/// A load is kept.
fn keep_load(cell: &mut Cell, access: &Access)
    ensures { cell.new ≡ with_load access.now cell.old }
{
    if !is_by(access.thread, &cell.load) {
        cell.other = cell.load;
    }
    cell.load = Some(*access);
}

/// A store is the last one to each byte that it has.
fn keep_store(stores: &mut [Option<Access>; 4], access: &Access)
    ensures { stores.new
        ≡ stored access.now.size (access.now.address % 4) access.now stores.old }
{
    let first = (access.address % 4) as usize;
    for done in 0..usize::from(access.size) {
        if first + done < 4 {
            stores[first + done] = Some(*access);
        }
    }
}

/// An access is kept.
pub(crate) fn keep(cell: &mut Cell, access: &Access)
    ensures { cell.new ≡ kept access.now cell.old }
{
    if access.is_store {
        keep_store(&mut cell.stores, access);
    } else {
        keep_load(cell, access);
    }
}

/// Whether two bytes have the same last store.
fn is_same(a: &Option<Access>, b: &Option<Access>) -> bool
    ensures { result ≡ is_same a.now b.now }
{
    let Some(a) = a else {
        return false;
    };
    let Some(b) = b else {
        return false;
    };
    a.place.event == b.place.event && a.place.step == b.place.step
}

/// Whether a byte's last store is that of an earlier byte, too.
pub(crate) fn is_repeated(stores: &[Option<Access>; 4], byte: usize) -> bool
    requires { byte < 4 }
    ensures { result ≡ is_repeated byte stores.now }
{
    for earlier in 0..byte {
        if is_same(&stores[byte], &stores[earlier]) {
            return true;
        }
    }
    false
}
