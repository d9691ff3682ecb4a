//! Saved tables, field by field as the format lists them.
//!
//! All numbers have their lowest byte first. No byte here comes from the program: each was written down from the format.

/// Bytes, and that many zeros after them.
pub type Piece = (&'static [u8], usize);

/// The count of threads, 1, and the front of the record of the one thread of a program that hasn't begun: its number, the flag
/// of the initial thread, no handler, and that it doesn't unwind; it begins at 0x1000, returns to 0xFFFFFFF0, and has its
/// stack at 65,536. After it stand 29 registers of 0, and in version 2 that it is in no round of destructors, the next key
/// 0, and no value.
pub const INITIAL_THREAD: &[u8] = &[
    1, 1, 1, 0, 0, 0, 0, 0, 0, 0x00, 0x10, 0x00, 0x00, 0xF0, 0xFF, 0xFF, 0xFF, 0x00, 0x00, 0x01,
    0x00,
];

/// The zeros after it in version 2.
pub const BEHIND_THREAD: usize = 29 * 4 + 4;

/// The tables of a program that hasn't begun.
pub const FRESH: &[Piece] = &[
    // The clock, whether the input ended, the status, and eight idle harts.
    (&[], 8 + 1 + 7 + 8),
    // One thread; no wait, mutex, barrier or read-write lock.
    (INITIAL_THREAD, BEHIND_THREAD + 1 + 2 + 1 + 1),
    // There may be keys, and there is none; no input and no output.
    (&[1, 0], 2 + 2),
];

/// The same in version 1.
pub const OLD_FRESH: &[Piece] = &[
    (&[], 8 + 1 + 7 + 8),
    (INITIAL_THREAD, 29 * 4 + 1 + 2 + 1 + 1 + 2 + 2),
];

/// Everything that tables can hold, but for a wait for input, with the output `out`.
pub const EVERYTHING: &[Piece] = &[
    // The clock, that the input has ended, that the program runs, and thread 1 on hart 1.
    (&[5], 7),
    (&[1], 7),
    (&[0, 1], 6),
    // Twelve threads. The first one is initial (1), with a request (16), two handlers, not unwinding, at 0x1004.
    (&[12], 0),
    (&[1, 17, 2, 0, 0, 0, 0, 0, 0x04, 0x10], 2),
    (&[1], 3),
    (&[2], 3),
    (&[3], 3),
    (&[4], 3),
    (&[5], 3),
    (&[6], 3),
    (&[7], 3),
    (&[8], 3),
    (&[9], 3),
    (&[10], 3),
    (&[11], 3),
    (&[12], 3),
    (&[13], 3),
    (&[14], 3),
    (&[15], 3),
    (&[16], 3),
    (&[17], 3),
    (&[18], 3),
    (&[19], 3),
    (&[20], 3),
    (&[21], 3),
    (&[22], 3),
    (&[23], 3),
    (&[24], 3),
    (&[25], 3),
    (&[26], 3),
    (&[27], 3),
    (&[28], 3),
    (&[29], 3),
    (&[30], 3),
    (&[31], 3),
    (&[0x00, 0x20, 0, 0, 7, 0, 0, 0], 0),
    (&[0x04, 0x20, 0, 0, 8, 0, 0, 0], 0),
    // No round, next key 0, two values: under key 0 and under key 31.
    (&[0, 0, 2, 0], 0),
    (&[0, 0, 0, 0, 9, 0, 0, 0], 0),
    (&[31, 0, 0, 0, 4, 3, 2, 1], 0),
    // Without values and in no round.
    (&[2, 0, 0, 0, 0, 0, 0, 0, 0x08, 0x10], 2 + 31 * 4 + 4),
    (&[3, 8, 0, 0, 0, 0, 0, 0, 0x0C, 0x10], 2 + 31 * 4 + 4),
    (&[4, 0, 0, 0, 0, 0, 0, 0, 0x10, 0x10], 2 + 31 * 4 + 4),
    // Disabled (4) and unwinding (32), to end with 0xFFFFFFFF.
    (
        &[5, 36, 0, 0, 0xFF, 0xFF, 0xFF, 0xFF, 0x14, 0x10],
        2 + 31 * 4,
    ),
    // The second round, past key 31, and one value: under key 7.
    (&[2, 32, 1, 0], 0),
    (&[7, 0, 0, 0, 0xFF, 0xFF, 0xFF, 0xFF], 0),
    (&[6, 0, 0, 0, 0, 0, 0, 0, 0x18, 0x10], 2 + 31 * 4 + 4),
    (&[7, 0, 0, 0, 0, 0, 0, 0, 0x1C, 0x10], 2 + 31 * 4 + 4),
    (&[8, 0, 0, 0, 0, 0, 0, 0, 0x20, 0x10], 2 + 31 * 4 + 4),
    (&[9, 0, 0, 0, 0, 0, 0, 0, 0x24, 0x10], 2 + 31 * 4 + 4),
    // Detached (2) and disabled (4).
    (&[10, 6, 0, 0, 0, 0, 0, 0, 0x28, 0x10], 2 + 31 * 4 + 4),
    (&[11, 0, 0, 0, 0, 0, 0, 0, 0x2C, 0x10], 2 + 31 * 4 + 4),
    // Ended, with 0x01020304; all else is 0.
    (&[12, 64, 0, 0, 4, 3, 2, 1], 32 * 4 + 4),
    // Nine waits, 20 bytes each: thread, kind, result, whether there is a deadline; two names; the deadline.
    (&[9], 0),
    (&[11, 9, 0, 1, 0, 0, 0, 0, 0, 0, 0, 0, 9], 7),
    (
        &[
            3, 2, 0, 1, 0, 0x30, 0, 0, 0, 0, 0, 0, 1, 0, 0, 0, 2, 0, 0, 0,
        ],
        0,
    ),
    (&[2, 1, 0, 0, 3], 15),
    (&[4, 3, 110, 0, 0, 0x30], 14),
    (&[5, 3, 255, 0, 0, 0x30], 14),
    (&[6, 4, 0, 0, 0x10, 0x30, 0, 0, 0, 0x30], 10),
    (&[7, 5, 0, 0, 0x20, 0x30], 14),
    (&[8, 6, 0, 0, 0x30, 0x30], 14),
    (&[9, 7, 0, 0, 0x40, 0x30], 14),
    // Three mutexes, one barrier, two read-write locks.
    (&[3, 0], 0),
    (&[0x00, 0x30, 0, 0, 1, 1, 3, 0], 0),
    (&[0x04, 0x30, 0, 0, 2, 0, 0, 0], 0),
    (&[0x08, 0x30, 0, 0, 0, 10, 1, 0], 0),
    (&[1, 0x20, 0x30, 0, 0, 3, 0, 0, 0], 0),
    (&[2, 0x30, 0x30, 0, 0, 1, 0], 0),
    (&[0x40, 0x30, 0, 0, 0, 2, 1, 2, 0, 10, 1, 0], 0),
    // That there may be keys, and three of them.
    (&[1, 3], 8),
    (&[7, 0, 0, 0, 0x08, 0x20, 0, 0], 0),
    (&[31, 0, 0, 0, 0xFC, 0xFF, 0xFF, 0xFF], 0),
    // The input and the output.
    (&[2, 0, 0x68, 0x69], 0),
    (&[3, 0, 0x6F, 0x75, 0x74], 0),
];
