//! The entries of a table of mutexes. Some may be of free normal mutexes, which the table doesn't have: `kept` says
//! what it has.
ghost use Rattle.std.specs.Prelude.{◌≡◌, ◌≤◌, length, true};
ghost use Rattle.ckrt_objects.specs.AddressMap.{has_room, is_rising, place_in};
ghost use Rattle.ckrt_objects.specs.Appended.{Appends, IsTableUpTo};
ghost use Rattle.ckrt_mutex.specs.Mutex.{mutex_at, put, kept, is_proper, AreEntries, IsTable};

use crate::records::{Kind, Mutex};
use arrayvec::ArrayVec;
use ckrt_objects::{Entry, append, get_near, store_near};

/// The mutex at an address, free and normal where there is no entry. It is found at once where the address has its entry
/// at the place `near`.
pub fn mutex_of(entries: &[Entry<Mutex>], near: usize, address: u32) -> Mutex
    requires { is_rising entries.now ≡ true }
    ensures { result ≡ mutex_at address entries.now }
{
    get_near(entries, near, address).unwrap_or(Mutex::free(Kind::Normal))
}

/// The entries without those of free normal mutexes.
pub fn kept_of(entries: &[Entry<Mutex>]) -> ArrayVec<Entry<Mutex>, 256>
    requires { length entries.now ≤ 256 }
    ensures { result.items ≡ kept entries.now }
{
    let mut left: ArrayVec<Entry<Mutex>, 256> = ArrayVec::new();
    for entry in entries {
        if !entry.value.is_plain() {
            left.push(*entry);
        }
    }
    left
}

/// Where the room is used up, the entries of free normal mutexes go, unless the mutex at the address is another: that has an
/// entry. Then there is room for an entry of the address.
#[tactic(auto, using(crate::proofs::Kept::kept_twice, crate::proofs::Kept::entries_kept, crate::proofs::Kept::room_for_entry))]
fn make_room(entries: &mut ArrayVec<Entry<Mutex>, 256>, near: usize, address: u32)
    requires entries { AreEntries entries.old.items }
    requires room { has_room 256 address (kept entries.old.items) ≡ true }
    ensures entries { AreEntries entries.new.items }
    ensures room { has_room 256 address entries.new.items ≡ true }
    ensures kept { kept entries.new.items ≡ kept entries.old.items }
{
    if entries.is_full() && mutex_of(entries.as_slice(), near, address).is_plain() {
        let left = kept_of(entries.as_slice());
        *entries = left;
    }
}

/// The mutex at an address becomes this one, at once where the address has its entry at the place `near`. Answers the
/// place of its entry.
pub fn put_entry(
    entries: &mut ArrayVec<Entry<Mutex>, 256>,
    near: usize,
    address: u32,
    mutex: Mutex,
) -> usize
    requires entries { AreEntries entries.old.items }
    requires room { has_room 256 address (kept entries.old.items) ≡ true }
    requires proper { is_proper mutex ≡ true }
    ensures entries { AreEntries entries.new.items }
    ensures kept { kept entries.new.items ≡ put address mutex (kept entries.old.items) }
    ensures place { result ≡ place_in address entries.new.items }
{
    make_room(entries, near, address);
    store_near(entries, near, address, mutex)
}

/// How many entries there are without those of free normal mutexes.
pub fn kept_count(entries: &[Entry<Mutex>]) -> usize
    ensures { result ≡ length (kept entries.now) }
{
    entries
        .iter()
        .filter(|entry| !entry.value.is_plain())
        .count()
}

/// Appends an entry after those of mutexes that aren't free and normal, where a table goes on so, and says whether it
/// did. The entries of free normal mutexes go where they are in the way.
pub fn append_entry(entries: &mut ArrayVec<Entry<Mutex>, 256>, entry: Entry<Mutex>) -> bool
    requires entries { AreEntries entries.old.items }
    ensures entries { AreEntries entries.new.items }
    ensures appends { Appends (IsTableUpTo 256 IsTable) entry (kept entries.old.items)
        (kept entries.new.items) result }
{
    if entry.value.is_plain() || !entry.value.is_proper() {
        return false;
    }
    if append(entries, entry) {
        return true;
    }
    let mut left = kept_of(entries.as_slice());
    if !append(&mut left, entry) {
        return false;
    }
    *entries = left;
    true
}
