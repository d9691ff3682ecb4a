//! The output of a program.

/// How many bytes of output are held for a program at most: those that it has put and nobody has confirmed.
pub const HELD_LIMIT: usize = 16_384;
