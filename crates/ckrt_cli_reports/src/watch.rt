//! Who looks on while a drive runs.
use ckrt_drive::{Nobody, Onlooker};
use std::alloc::Global;

/// The paths that the words of a drive give.
#[derive(Clone, Copy, Debug, PartialEq, Eq)]
pub struct DrivePaths<'a> {
    /// That of the disk.
    pub disk: &'a str,
    /// That of the image, if there is one.
    pub image: Option<&'a str>,
    /// That of the input, if there is one.
    pub input: Option<&'a str>,
    /// That of the output, if there is one.
    pub output: Option<&'a str>,
    /// That of the history, if there is one.
    pub history: Option<&'a str>,
}

/// What is told of a drive while it runs.
#[derive(Clone, Copy, Debug, PartialEq, Eq)]
pub struct Watch<'a> {
    /// A line on standard error at most each so many seconds; none: never.
    pub progress: Option<u64>,
    /// The path of the file that is rewritten with how far the drive is, if there is one.
    pub status: Option<&'a str>,
    /// The other paths of the drive, none of which that file may have.
    pub paths: DrivePaths<'a>,
}

/// Tells how far a drive is, while it looks on.
pub trait Meter: Onlooker {
    /// A drive begins, of which it tells this.
    fn begin(&mut self, alloc: Global, watch: Watch<'_>);

    /// The drive has an input, of which its program has taken so many bytes.
    fn fed(&mut self, taken: u64);

    /// The file of the drive's history failed, or has no room left, so the drive doesn't go on.
    fn history_failed(&mut self);
}

impl Meter for Nobody {
    fn begin(&mut self, _alloc: Global, _watch: Watch<'_>) {}

    fn fed(&mut self, _taken: u64) {}

    fn history_failed(&mut self) {}
}
