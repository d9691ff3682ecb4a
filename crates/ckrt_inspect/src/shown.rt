//! What of a disk is listed.

/// What of a disk is listed: by default what it recovers to, without code.
#[derive(Clone, Copy, Debug, Default, PartialEq, Eq)]
pub struct Shown {
    /// The program after that many events, in place of all of them.
    pub at: Option<u64>,
    /// After each thread's line the code that it is about to run.
    pub with_code: bool,
}
