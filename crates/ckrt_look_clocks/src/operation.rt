//! Operations of threads.
ghost use Rattle.std.specs.Prelude.{◌≡◌};
ghost use Rattle.ckrt_look_clocks.specs.Histories.{is_before, have_common_byte, conflict};

use crate::lock::Locking;

/// The numbers of threads are below this.
pub const THREADS: usize = 65;

/// So many events are done, and so many steps of the next one.
#[derive(Clone, Copy, Debug, PartialEq, Eq)]
pub struct Place {
    pub event: u64,
    pub step: u32,
}

/// A load or a store.
#[derive(Clone, Copy, Debug, Drop, PartialEq, Eq)]
pub struct Access {
    pub thread: u8,
    pub is_store: bool,
    /// Whether it is one of an atomic object.
    pub is_atomic: bool,
    /// The instruction's address.
    pub pc: u32,
    /// The address of the first byte.
    pub address: u32,
    /// How many bytes, 1, 2 or 4.
    pub size: u8,
    pub place: Place,
}

/// Memory that was given anew at a place, as a thread told of it: so many words from the first one on.
#[derive(Clone, Copy, Debug, Drop, PartialEq, Eq)]
pub struct Block {
    pub thread: u8,
    pub first: u32,
    pub count: u32,
    pub place: Place,
}

/// What a thread does to memory, or one holder passes on to another. A holder below [`THREADS`] is the thread of that number,
/// any other a lock.
#[derive(Clone, Copy, Debug, Drop)]
pub enum Operation {
    Access(Access),
    /// All that the first has seen the second has seen from here on.
    Pass(u16, u16, Place),
    /// Memory is given anew: what was done to it before is compared with nothing.
    Renew(Block),
    /// A lock is taken, given up or made, at a place.
    Lock(Locking, Place),
}

/// Whether a place is before another.
pub(crate) fn is_before(place: Place, other: Place) -> bool
    ensures { result ≡ is_before place other }
{
    place.event < other.event || place.event == other.event && place.step < other.step
}

/// Whether two accesses have a byte in common.
fn have_common_byte(a: &Access, b: &Access) -> bool
    ensures { result ≡ have_common_byte a.now b.now }
{
    u64::from(a.address) < u64::from(b.address) + u64::from(b.size)
        && u64::from(b.address) < u64::from(a.address) + u64::from(a.size)
}

/// Whether two accesses are of two threads, to a common byte, one of them a store, and not both atomic.
pub(crate) fn conflict(a: &Access, b: &Access) -> bool
    ensures { result ≡ conflict a.now b.now }
{
    a.thread != b.thread
        && have_common_byte(a, b)
        && (a.is_store || b.is_store)
        && !(a.is_atomic && b.is_atomic)
}
