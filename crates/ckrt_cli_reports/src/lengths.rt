//! The file of an output, and that of an input, beside its disk.
ghost use Rattle.std.specs.Prelude.{◌≡◌};
ghost use Rattle.ckrt_cli_reports.specs.Lengths.{fits, is_long_enough};

/// How many bytes the file of an output has, beside how many its disk wants there.
#[derive(Clone, Copy, Debug, PartialEq, Eq)]
pub struct OutputLengths {
    /// The bytes of the file.
    pub length: u64,
    /// Those that are confirmed, the fewest that it may have.
    pub confirmed: u64,
    /// Those that are released, the most that it may have.
    pub released: u64,
}

impl OutputLengths {
    /// Whether the file may be the output of the disk.
    pub fn fits(&self) -> bool
        ensures { result ≡ fits self.now }
    {
        self.confirmed <= self.length && self.length <= self.released
    }
}

/// How many bytes the file of an input has, beside how many of them the program has taken.
#[derive(Clone, Copy, Debug, PartialEq, Eq)]
pub struct InputLengths {
    /// The bytes of the file.
    pub length: u64,
    /// Those that the program has taken.
    pub taken: u64,
}

impl InputLengths {
    /// Whether the file has the bytes that the program has taken.
    pub fn is_long_enough(&self) -> bool
        ensures { result ≡ is_long_enough self.now }
    {
        self.taken <= self.length
    }
}
