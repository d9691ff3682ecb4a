//! What a session remembers between packets.

use ckrt_gdb_forms::{Cause, Choice};

/// A stop as gdb was told it.
#[derive(Clone, Copy)]
pub struct Stopped {
    /// The number of gdb's signal.
    pub signal: u8,
    pub cause: Cause,
    /// The thread, 1 to 64.
    pub thread: u8,
}

/// What gdb said last of threads, and what it was told of stops.
#[derive(Clone, Copy)]
pub struct View {
    /// Whose registers are told.
    pub examined: u8,
    /// Who steps back.
    pub chosen: Choice,
    pub last: Stopped,
    /// Up to which number gdb knows threads from the first stop on.
    pub known: u8,
}
