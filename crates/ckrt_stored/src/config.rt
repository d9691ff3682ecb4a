//! The configuration of a disk.
ghost use Rattle.std.specs.Prelude.{◌≡◌};
ghost use Rattle.ckrt_stored.specs.Layout.{is_valid};

/// What a disk is formatted with.
#[derive(Clone, Copy, Debug, PartialEq, Eq)]
pub struct Config {
    /// Pages of guest memory, of 4,096 bytes each, the first of which is never valid: 16 to 65,536.
    pub pages: u32,
    /// Harts: 1 to 8.
    pub harts: u32,
    /// Bytes of each of the two journals: a multiple of 4,096, from 4,096 to 1,048,576.
    pub journal: u32,
}

impl Config {
    /// Whether each field is in its range.
    pub fn is_valid(&self) -> bool
        ensures { result ≡ is_valid self.now }
    {
        16 <= self.pages
            && self.pages <= 65_536
            && 1 <= self.harts
            && self.harts <= 8
            && self.journal % 4_096 == 0
            && 4_096 <= self.journal
            && self.journal <= 1_048_576
    }
}
