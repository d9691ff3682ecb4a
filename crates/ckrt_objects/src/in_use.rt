//! Which objects of a kind are in use, and how many.
ghost use Rattle.std.specs.Prelude.{◌≡◌, ◌<◌, ◌≤◌, length, drop, true, ◌+◌, nat_le, nat_lt, cond, slice_get, Some};
ghost use Rattle.ckrt_thread.specs.Queues.{named_at_most};
ghost use Rattle.ckrt_objects.specs.AddressMap.{is_rising};
ghost use Rattle.ckrt_objects.specs.InUse.{names, is_named, is_in_use, is_new, is_full, count_in_use};

use crate::address_map::{Entry, get};
use crate::named::Named;
use ckrt_thread::{Threads, Wait};

/// Whether a wait names the object.
fn is_named_by<T: Named>(wait: &Wait, address: u32) -> bool
    ensures { result ≡ names T.named address wait.now }
{
    match T::named_by(wait) {
        Some(named) => address == named,
        None => false,
    }
}

/// The wait at a place.
fn wait_at(waits: &[Wait], place: usize) -> Wait
    requires { place < length waits.now }
    ensures { slice_get waits.now place ≡ Some result }
{
    waits[place]
}

/// Whether a wait from this place on names the object.
#[tactic(auto, using(crate::proofs::InUse::drop_at))]
fn is_named_from<T: Named>(waits: &[Wait], from: usize, address: u32) -> bool
    requires { from ≤ length waits.now }
    ensures { result ≡ is_named T.named address (drop from waits.now) }
{
    for place in from..waits.len() {
        let wait = wait_at(waits, place);
        if is_named_by::<T>(&wait, address) {
            return true;
        }
    }
    false
}

/// Whether a wait names the object at an address.
pub fn is_named_by_wait<T: Named>(threads: &Threads, address: u32) -> bool
    ensures { result ≡ is_named T.named address threads.now.waits }
{
    is_named_from::<T>(threads.waits().as_slice(), 0, address)
}

/// Whether the object is in use, where only the waits from this place on count.
#[tactic(auto, using(crate::proofs::InUse::any_in_use, crate::proofs::InUse::lookup_is_some))]
fn is_in_use_from<T: Named + Copy>(
    waits: &[Wait],
    from: usize,
    entries: &[Entry<T>],
    address: u32,
) -> bool
    requires rising { is_rising entries.now ≡ true }
    requires within { from ≤ length waits.now }
    ensures { result ≡ is_in_use T.named address (drop from waits.now) entries.now }
{
    get(entries, address).is_some() || is_named_from::<T>(waits, from, address)
}

/// Whether the object at an address is in use: it has an entry, or a wait names it.
pub fn is_in_use<T: Named + Copy>(threads: &Threads, entries: &[Entry<T>], address: u32) -> bool
    requires { is_rising entries.now ≡ true }
    ensures { result ≡ is_in_use T.named address threads.now.waits entries.now }
{
    is_in_use_from(threads.waits().as_slice(), 0, entries, address)
}

/// Whether the wait at this place names an object that no later wait names, and that has no entry.
fn is_new_at<T: Named + Copy>(waits: &[Wait], entries: &[Entry<T>], place: usize) -> bool
    requires rising { is_rising entries.now ≡ true }
    requires within { place < length waits.now }
    requires few { place < 64 }
    ensures { result ≡ is_new T.named (drop place waits.now) entries.now }
{
    let wait = wait_at(waits, place);
    match T::named_by(&wait) {
        Some(address) => !is_in_use_from(waits, place + 1, entries, address),
        None => false,
    }
}

/// One where the wait at this place names an object that is not counted otherwise, else nothing.
fn new_at<T: Named + Copy>(waits: &[Wait], entries: &[Entry<T>], place: usize) -> usize
    requires rising { is_rising entries.now ≡ true }
    requires within { place < length waits.now }
    requires few { place < 64 }
    ensures count { result ≡ cond (is_new T.named (drop place waits.now) entries.now) 1 0 }
    ensures one { result ≤ 1 }
{
    if is_new_at(waits, entries, place) {
        1
    } else {
        0
    }
}

/// Whether that many objects are in use. Once the waits that are left are too few for that, it looks at none of them.
#[tactic(auto, using(crate::proofs::InUse::count_at, crate::proofs::InUse::count_done))]
fn are_limit_named<T: Named + Copy>(waits: &[Wait], entries: &[Entry<T>], limit: usize) -> bool
    requires rising { is_rising entries.now ≡ true }
    requires size { length entries.now ≤ limit }
    requires small { limit ≤ 65535 }
    requires few { length waits.now ≤ 64 }
    ensures { result ≡ nat_le limit (count_in_use T.named waits.now entries.now) }
{
    let mut count = entries.len();
    for place in 0..waits.len() {
        if count + (waits.len() - place) < limit {
            return false;
        }
        count += new_at(waits, entries, place);
    }
    limit <= count
}

/// Whether there are too few entries, and objects that the waits may name, for that many objects to be in use. It looks at
/// no wait.
#[tactic(auto, using(crate::proofs::InUse::count_named))]
pub fn are_too_few<T: Named + Copy>(threads: &Threads, entries: &[Entry<T>], limit: usize) -> bool
    requires rising { is_rising entries.now ≡ true }
    requires small { length entries.now ≤ 65535 }
    ensures value { result ≡ nat_lt (length entries.now + named_at_most threads.now.waits) limit }
    ensures few { result ≡ true → count_in_use T.named threads.now.waits entries.now < limit }
{
    entries.len() + threads.wait_count() < limit || entries.len() + threads.named_at_most() < limit
}

/// Whether that many objects are in use. Where entries and waits can't make up that many, it looks at none of them.
pub fn are_limit_in_use<T: Named + Copy>(
    threads: &Threads,
    entries: &[Entry<T>],
    limit: usize,
) -> bool
    requires rising { is_rising entries.now ≡ true }
    requires size { length entries.now ≤ limit }
    requires small { limit ≤ 65535 }
    ensures { result ≡ nat_le limit (count_in_use T.named threads.now.waits entries.now) }
{
    if are_too_few(threads, entries, limit) {
        return false;
    }
    are_limit_named(threads.waits().as_slice(), entries, limit)
}

/// Whether the object at an address is not in use, and that many others are.
pub fn is_full<T: Named + Copy>(
    threads: &Threads,
    entries: &[Entry<T>],
    address: u32,
    limit: usize,
) -> bool
    requires rising { is_rising entries.now ≡ true }
    requires size { length entries.now ≤ limit }
    requires small { limit ≤ 65535 }
    ensures { result ≡ is_full T.named limit address threads.now.waits entries.now }
{
    are_limit_in_use(threads, entries, limit) && !is_in_use(threads, entries, address)
}
