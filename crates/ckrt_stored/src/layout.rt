//! Where things lie on a disk.
ghost use Rattle.std.specs.Prelude.{◌≡◌, ◌≤◌, ◌+◌, true};
ghost use Rattle.ckrt_stored.specs.Holds.{slot_at};
ghost use Rattle.ckrt_stored.specs.Layout.{is_valid, memory_size, area_size, size_needed, area_at, tables_at, memory_at, journal_at, journal_of};

use crate::config::Config;
use ckrt_journal::Journal;
use ckrt_memory::PAGE_SIZE;
use ckrt_tables::TABLES_ROOM;

/// The version of the superblock. An area has its own.
pub const SUPERBLOCK_VERSION: u32 = 1;

/// The offset of the first field in a superblock and in an area's header.
pub const FIELDS_AT: usize = 8;

/// The counts of events and of output bytes stay below this.
pub const COUNT_LIMIT: u64 = 1 << 62;

/// How many bytes a superblock's or a header's block has.
const BLOCK_SIZE: usize = 4096;

impl Config {
    /// The bytes of the guest's memory: page 0 has none.
    pub fn memory_size(&self) -> usize
        requires { is_valid self.now ≡ true }
        ensures { result ≡ memory_size self.now }
    {
        PAGE_SIZE * (self.pages as usize - 1)
    }

    /// The bytes of an area: its header, its tables, and a place for each page.
    fn area_size(&self) -> usize
        requires { is_valid self.now ≡ true }
        ensures { result ≡ area_size self.now }
    {
        BLOCK_SIZE + TABLES_ROOM + PAGE_SIZE * self.pages as usize
    }

    /// The bytes that a disk needs: the superblock, two areas, two journals.
    pub fn size_needed(&self) -> usize
        requires { is_valid self.now ≡ true }
        ensures { result ≡ size_needed self.now }
    {
        BLOCK_SIZE + 2 * self.area_size() + 2 * self.journal as usize
    }

    /// The offset of an area, 0 or 1, which begins with its gate.
    pub fn area_at(&self, area: usize) -> usize
        requires valid { is_valid self.now ≡ true }
        requires area { area ≤ 1 }
        ensures { result ≡ area_at self.now area }
    {
        BLOCK_SIZE + area * self.area_size()
    }

    /// The offset of an area's tables.
    pub fn tables_at(&self, area: usize) -> usize
        requires valid { is_valid self.now ≡ true }
        requires area { area ≤ 1 }
        ensures { result ≡ tables_at self.now area }
    {
        self.area_at(area) + BLOCK_SIZE
    }

    /// The offset of the guest's memory in an area, from page 1 on.
    pub fn memory_at(&self, area: usize) -> usize
        requires valid { is_valid self.now ≡ true }
        requires area { area ≤ 1 }
        ensures { result ≡ memory_at self.now area }
    {
        self.area_at(area) + BLOCK_SIZE + TABLES_ROOM + PAGE_SIZE
    }

    /// The offset of a page in an area, from page 1 on.
    pub(crate) fn slot_at(&self, area: usize, page: u32) -> usize
        requires valid { is_valid self.now ≡ true }
        requires area { area ≤ 1 }
        requires page { page ≤ self.now.pages }
        ensures { result ≡ slot_at self.now area page }
    {
        self.area_at(area) + BLOCK_SIZE + TABLES_ROOM + PAGE_SIZE * page as usize
    }

    /// The offset of an area's journal.
    pub fn journal_at(&self, area: usize) -> usize
        requires valid { is_valid self.now ≡ true }
        requires area { area ≤ 1 }
        ensures { result ≡ journal_at self.now area }
    {
        BLOCK_SIZE + 2 * self.area_size() + area * self.journal as usize
    }

    /// The journal of an area, 0 or 1, at its first gate. It has the version of the area.
    pub fn journal_of(&self, area: usize, version: u32) -> Journal
        requires valid { is_valid self.now ≡ true }
        requires area { area ≤ 1 }
        ensures { result ≡ journal_of self.now area version }
    {
        Journal::start(self.journal_at(area), self.journal as usize, version)
    }
}
