//! Numbers of holders, and what they pass on.
ghost use Rattle.std.specs.Prelude.{◌≡◌, ◌≤◌, ◌<◌};
ghost use Rattle.ckrt_look_races.specs.Holders.{acquired, handed_on, lock_holder, ordered, place_of, released, thread_holder, word_of};

use ckrt_look_clocks::{Operation, Place};

/// How many holders there are: 65 numbers of threads, 4,096 locks of each of three kinds, 1,024 words, and for each thread a request, what
/// its relaxed loads have met, and what its last fence gave up.
pub(crate) const HOLDERS: usize = 13572;

/// What a thread gives up, or takes.
#[derive(Clone, Copy, Debug)]
pub enum Lock {
    /// A mutex, by its address.
    Mutex(u32),
    /// A read-write lock, by its address: what those have done who wrote under it.
    Writers(u32),
    /// The same of those who read under it.
    Readers(u32),
    /// A word that atomic operations load and store.
    Word(u32),
    /// A request that a thread be cancelled.
    Request(u32),
    /// What a thread's relaxed atomic loads have met: its next fence takes that.
    Loaded(u32),
    /// What a thread had done by its last fence: its relaxed atomic stores give that up.
    Fenced(u32),
}

/// The number of a thread, which is 1 to 64.
pub(crate) fn thread_holder(thread: u32) -> u16
    ensures holder { result ≡ thread_holder thread }
    ensures few { result ≤ 64 }
{
    if thread <= 64 { thread as u16 } else { 0 }
}

/// Where an address stands among 4,096.
fn place_of(address: u32) -> u16
    ensures place { result ≡ place_of address }
    ensures few { result < 4096 }
{
    (address % 4096) as u16
}

/// Where the word at an address stands among 1,024.
fn word_of(address: u32) -> u16
    ensures place { result ≡ word_of address }
    ensures few { result < 1024 }
{
    (address / 4 % 1024) as u16
}

/// The number of a lock.
fn lock_holder(lock: Lock) -> u16
    ensures { result ≡ lock_holder lock }
{
    match lock {
        Lock::Mutex(address) => 65 + place_of(address),
        Lock::Writers(address) => 4161 + place_of(address),
        Lock::Readers(address) => 8257 + place_of(address),
        Lock::Word(address) => 12353 + word_of(address),
        Lock::Request(thread) => 13377 + thread_holder(thread),
        Lock::Loaded(thread) => 13442 + thread_holder(thread),
        Lock::Fenced(thread) => 13507 + thread_holder(thread),
    }
}

/// A thread gives up what others that come later take.
pub(crate) fn released(thread: u8, lock: Lock, place: Place) -> Operation
    ensures { result ≡ released thread lock place }
{
    Operation::Pass(thread_holder(u32::from(thread)), lock_holder(lock), place)
}

/// A thread takes what others gave up.
pub(crate) fn acquired(thread: u8, lock: Lock, place: Place) -> Operation
    ensures { result ≡ acquired thread lock place }
{
    Operation::Pass(lock_holder(lock), thread_holder(u32::from(thread)), place)
}

/// What was given up to one goes on to the other.
pub(crate) fn handed_on(from: Lock, to: Lock, place: Place) -> Operation
    ensures { result ≡ handed_on from to place }
{
    Operation::Pass(lock_holder(from), lock_holder(to), place)
}

/// What one thread has done is before what another does from here on.
pub(crate) fn ordered(thread: u32, other: u32, place: Place) -> Operation
    ensures { result ≡ ordered thread other place }
{
    Operation::Pass(thread_holder(thread), thread_holder(other), place)
}
