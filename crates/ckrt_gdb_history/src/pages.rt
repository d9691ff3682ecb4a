//! A page of a memory.
ghost use Rattle.std.specs.Prelude.{◌≡◌, ◌≤◌, ◌*◌, length, IsTrue};
ghost use Rattle.ckrt_memory.specs.Pages.{with_page};

use ckrt_memory::Memory;

/// Whether two pages have the same bytes. All are looked at, so that many are compared at once.
pub fn is_same_page(one: &[u8; 4096], other: &[u8; 4096]) -> bool
    ensures { IsTrue result → one.now ≡ other.now }
{
    let mut same = true;
    for i in 0..4096 {
        same &= one[i] == other[i];
    }
    same
}

/// The memory gets the bytes of a page, if it has others there: what was decoded of the same bytes stays.
pub fn restore_page(memory: &mut Memory, page: u32, from: &[u8; 4096])
    requires low { 1 ≤ page }
    requires high { 4096 * page ≤ length memory.old.bytes }
    ensures { memory.new.bytes ≡ with_page memory.old.bytes page from.now }
{
    if !is_same_page(memory.page(page), from) {
        memory.load_page(page, from);
    }
}
