//! A memory gets the bytes of another.
ghost use Rattle.std.specs.Prelude.{◌≡◌, length};
ghost use Rattle.ckrt_memory.specs.Marks.{COPY, IsAllClean, IsCopyButMarked};

use ckrt_memory::{COPY, Memory};

/// The memory gets the bytes of another one of its size, of which it is a copy but for the pages that are marked: those alone are
/// put. No page is marked for a copy then. It takes no memory.
pub fn restore_memory(memory: &mut Memory, kept: &Memory)
    requires size { length memory.old.bytes ≡ length kept.now.bytes }
    requires copy { IsCopyButMarked kept.now.bytes memory.old }
    ensures bytes { memory.new.bytes ≡ kept.now.bytes }
    ensures clean { IsAllClean COPY memory.new }
    ensures room { memory.new.room ≡ memory.old.room }
{
    let pages = kept.pages();
    let mut page = memory.next_dirty(COPY, 1, pages);
    while page < pages {
        memory.load_page(page, kept.page(page));
        page = memory.next_dirty(COPY, page + 1, pages);
    }
    memory.clean(COPY);
}
