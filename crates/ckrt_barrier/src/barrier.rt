//! A barrier.

/// How many barriers there may be.
pub const MAX_BARRIERS: usize = 64;

/// What the last thread to come to a barrier gets: `PTHREAD_BARRIER_SERIAL_THREAD` of POSIX.1-2017, with Linux's value,
/// -1.
pub const SERIAL_THREAD: u32 = 0xFFFF_FFFF;

/// A barrier. Who waits at it stands in the list of waits.
#[derive(Clone, Copy, Debug, Default, Drop)]
pub struct Barrier {
    /// How many threads meet at it, at least 1.
    pub count: u32,
}
