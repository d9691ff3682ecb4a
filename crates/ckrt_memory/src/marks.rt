//! The marks of pages: a byte for each page, with a bit for each area, and one for what a burst has noted. Areas are 0 and 1, those
//! of a disk, and [`COPY`].
ghost use Rattle.std.specs.Prelude.{◌≡◌, ◌≢◌, ◌+◌, ◌/◌, ◌%◌, ◌^◌, ◌<◌, ◌≤◌, ℕ, length, slice_index, true, false, []};
ghost use Rattle.ckrt_memory.specs.Marks.{has_bit, IsNextDirty};

/// How many pages a memory has at most, page 0 counted.
pub const PAGES_LIMIT: usize = 65_536;

/// How many marks are looked at together.
const GROUP: usize = 32;

/// The area that is another memory, which has the same bytes but for marked pages.
pub const COPY: usize = 2;

/// The bit of a mark that is for no area: whether a store may have been to the page since a burst last noted what stands there.
pub const SINCE_NOTED: usize = 3;

/// Whether a mark has the bit of an area, or `SINCE_NOTED`.
#[inline(always)]
pub fn has_bit(mark: u8, area: usize) -> bool
    requires { area ≤ 3 }
    ensures { result ≡ has_bit area mark }
{
    (mark >> area) % 2 == 1
}

/// The bits that some of these marks have.
#[inline(always)]
fn all_bits(marks: &[u8]) -> u8
    ensures { (area p : ℕ) → p < length marks.now → has_bit area result ≡ false
        → has_bit area (slice_index marks.now p) ≡ false }
{
    let mut bits = 0;
    for i in 0..marks.len() {
        bits |= marks[i];
    }
    bits
}

/// Whether none of a group of marks, from this one on, has the bit of an area.
#[inline(always)]
fn is_group_clean(marks: &[u8; 65536], area: usize, first: usize) -> bool
    requires area { area ≤ 2 }
    requires group { first + 32 ≤ 65536 }
    ensures { result ≡ true → (p : ℕ) → first ≤ p → p < first + 32
        → has_bit area (slice_index marks.now p) ≡ false }
{
    !has_bit(all_bits(&marks[first..first + GROUP]), area)
}

/// The first page from `from` on whose mark has the bit of an area, or `end` where none below it has.
pub fn next_marked(marks: &[u8; 65536], area: usize, from: usize, end: usize) -> usize
    requires area { area ≤ 2 }
    requires range { (from ≤ end) × (end ≤ 65536) }
    ensures { IsNextDirty area from end
        (record { bytes = []; marks = marks.now; room = record { bytes = 0; words = 0 } })
        result }
{
    let mut page = from;
    while page < end {
        if page % GROUP == 0 && is_group_clean(marks, area, page) {
            page += GROUP;
        } else if has_bit(marks[page], area) {
            return page;
        } else {
            page += 1;
        }
    }
    end
}

/// A page's mark without that for an area.
#[inline(always)]
fn cleaned(mark: u8, area: usize) -> u8
    requires { area ≤ 2 }
    ensures clean { result / 2 ^ area % 2 ≡ 0 }
    ensures others { (b : ℕ) → b ≤ 2 → b ≢ area → result / 2 ^ b % 2 ≡ mark / 2 ^ b % 2 }
{
    match area {
        0 => mark - mark % 2,
        1 => mark - mark / 2 % 2 * 2,
        _ => mark - mark / 4 % 2 * 4,
    }
}

/// Takes the marks of the first pages for an area away.
pub fn clean_marks(marks: &mut [u8; 65536], area: usize, pages: usize)
    requires area { area ≤ 2 }
    requires pages { pages ≤ 65536 }
    ensures length { length marks.new ≡ length marks.old }
    ensures clean { (p : ℕ) → p < pages → slice_index marks.new p / 2 ^ area % 2 ≡ 0 }
    ensures others { (b p : ℕ) → b ≤ 2 → b ≢ area
        → slice_index marks.new p / 2 ^ b % 2 ≡ slice_index marks.old p / 2 ^ b % 2 }
{
    for p in 0..pages {
        marks[p] = cleaned(marks[p], area);
    }
}
