//! An access, compared with those that were kept of its word.
ghost use Rattle.std.specs.Prelude.{◌≡◌, length};
ghost use Rattle.ckrt_look_clocks.specs.Detection.{compared, compared_all, compared_stores, found_in};

use crate::clock::{Clock, knows};
use crate::found::Findings;
use crate::operation::{Access, Block, conflict};
use crate::shadow::{Cell, is_repeated};

/// An access is compared with one that was kept.
fn compare(
    block: &Option<Block>,
    clocks: &[Clock],
    access: &Access,
    kept: &Option<Access>,
    found: &mut Findings,
)
    ensures { found_in found.new
        ≡ compared block.now clocks.now access.now kept.now (found_in found.old) }
{
    if let Some(kept) = kept {
        if conflict(kept, access) && !knows(clocks, access.thread, kept) {
            found.note(block, kept, access);
        }
    }
}

/// An access is compared with the last stores to the bytes of its word, with each once.
fn compare_stores(
    block: &Option<Block>,
    clocks: &[Clock],
    access: &Access,
    stores: &[Option<Access>; 4],
    found: &mut Findings,
)
    ensures { found_in found.new
        ≡ compared_stores (length stores.now) block.now clocks.now access.now stores.now
        (found_in found.old) }
{
    for byte in 0..4 {
        if !is_repeated(stores, byte) {
            compare(block, clocks, access, &stores[byte], found);
        }
    }
}

/// An access is compared with those that were kept of its word.
pub(crate) fn compare_all(clocks: &[Clock], access: &Access, cell: &Cell, found: &mut Findings)
    ensures { found_in found.new
        ≡ compared_all clocks.now access.now cell.now (found_in found.old) }
{
    compare_stores(&cell.block, clocks, access, &cell.stores, found);
    compare(&cell.block, clocks, access, &cell.load, found);
    compare(&cell.block, clocks, access, &cell.other, found);
}
