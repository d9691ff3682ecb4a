//! A map from guest addresses, with its entries by rising address.
ghost use Rattle.std.specs.Prelude.{◌≡◌, ◌≤◌, length, true, slice_get};
ghost use Rattle.ckrt_objects.specs.AddressMap.{lookup, removed, stored, is_rising, has_room, place_in, is_entry_of};
ghost use Rattle.ckrt_objects.specs.Appended.{Appends, IsTableUpTo};

use arrayvec::ArrayVec;

/// What lies at an address of the guest.
#[derive(Clone, Copy, Debug, Default, Drop)]
pub struct Entry<T> {
    /// Any number below 2^32.
    pub address: u32,
    /// What lies there.
    pub value: T,
}

/// How many entries have a lower address.
#[tactic(auto, using(crate::proofs::AddressMap::place_of_point))]
fn place_of<T>(entries: &[Entry<T>], address: u32) -> usize
    requires { is_rising entries.now ≡ true }
    ensures place { result ≡ place_in address entries.now }
    ensures within { result ≤ length entries.now }
{
    entries.partition_point(|entry| entry.address < address)
}

/// Whether the entry at a place is the address's.
fn is_entry_at<T>(entries: &[Entry<T>], place: usize, address: u32) -> bool
    ensures { result ≡ is_entry_of address (slice_get entries.now place) }
{
    match entries.get(place) {
        Some(entry) => address == entry.address,
        None => false,
    }
}

/// The place of an address. It looks first at a place where the address may have its entry.
fn place_near<T>(entries: &[Entry<T>], near: usize, address: u32) -> usize
    requires { is_rising entries.now ≡ true }
    ensures place { result ≡ place_in address entries.now }
    ensures within { result ≤ length entries.now }
{
    if is_entry_at(entries, near, address) {
        return near;
    }
    place_of(entries, address)
}

/// What the map has at an address, whose place is known.
fn get_at<T: Copy>(entries: &[Entry<T>], place: usize, address: u32) -> Option<T>
    requires rising { is_rising entries.now ≡ true }
    requires place { place ≡ place_in address entries.now }
    ensures { result ≡ lookup address entries.now }
{
    if is_entry_at(entries, place, address) {
        Some(entries[place].value)
    } else {
        None
    }
}

/// What the map has at an address.
pub fn get<T: Copy>(entries: &[Entry<T>], address: u32) -> Option<T>
    requires { is_rising entries.now ≡ true }
    ensures { result ≡ lookup address entries.now }
{
    let place = place_of(entries, address);
    get_at(entries, place, address)
}

/// The same, found at once where the address has its entry at this place.
pub fn get_near<T: Copy>(entries: &[Entry<T>], near: usize, address: u32) -> Option<T>
    requires { is_rising entries.now ≡ true }
    ensures { result ≡ lookup address entries.now }
{
    let place = place_near(entries, near, address);
    get_at(entries, place, address)
}

/// The map has this value from now on at an address whose place is known.
fn store_at<T: Copy + Default + Drop, const N: usize>(
    entries: &mut ArrayVec<Entry<T>, N>,
    place: usize,
    address: u32,
    value: T,
)
    requires rising { is_rising entries.old.items ≡ true }
    requires place { place ≡ place_in address entries.old.items }
    requires within { place ≤ length entries.old.items }
    requires room { has_room N address entries.old.items ≡ true }
    ensures { entries.new.items ≡ stored address value entries.old.items }
{
    if is_entry_at(entries.as_slice(), place, address) {
        entries[place] = Entry { address, value };
    } else {
        entries.insert(place, Entry { address, value });
    }
}

/// The map has this value at an address from now on.
pub fn store<T: Copy + Default + Drop, const N: usize>(
    entries: &mut ArrayVec<Entry<T>, N>,
    address: u32,
    value: T,
)
    requires rising { is_rising entries.old.items ≡ true }
    requires room { has_room N address entries.old.items ≡ true }
    ensures { entries.new.items ≡ stored address value entries.old.items }
{
    let place = place_of(entries.as_slice(), address);
    store_at(entries, place, address, value);
}

/// The same, found at once where the address has its entry at this place. Answers the place at which it has it then.
pub fn store_near<T: Copy + Default + Drop, const N: usize>(
    entries: &mut ArrayVec<Entry<T>, N>,
    near: usize,
    address: u32,
    value: T,
) -> usize
    requires rising { is_rising entries.old.items ≡ true }
    requires room { has_room N address entries.old.items ≡ true }
    ensures entries { entries.new.items ≡ stored address value entries.old.items }
    ensures place { result ≡ place_in address entries.new.items }
{
    let place = place_near(entries.as_slice(), near, address);
    store_at(entries, place, address, value);
    place
}

/// The map has nothing at an address from now on.
pub fn remove<T: Copy + Default + Drop, const N: usize>(
    entries: &mut ArrayVec<Entry<T>, N>,
    address: u32,
)
    requires { is_rising entries.old.items ≡ true }
    ensures { entries.new.items ≡ removed address entries.old.items }
{
    let place = place_of(entries.as_slice(), address);
    if is_entry_at(entries.as_slice(), place, address) {
        entries.remove(place);
    }
}

/// Appends an entry, where its address is above all others and there is room for it, and says whether it did.
pub fn append<T: Copy + Default + Drop, const N: usize>(
    entries: &mut ArrayVec<Entry<T>, N>,
    entry: Entry<T>,
) -> bool
    requires { is_rising entries.old.items ≡ true }
    ensures { Appends (IsTableUpTo N (λ es. is_rising es ≡ true)) entry entries.old.items
        entries.new.items result }
{
    if entries.is_full() || place_of(entries.as_slice(), entry.address) < entries.len() {
        return false;
    }
    entries.push(entry);
    true
}
