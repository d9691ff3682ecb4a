//! What a run has put.
ghost use Rattle.std.specs.Prelude.{◌++◌, List, ℕ, []};
ghost use Rattle.ckrt_hunt_schedules.specs.Runs.{Hears};

use crate::last_line::LastLine;
use sha2::{Digest, Sha256};

/// What is told of an output, while it goes on.
#[derive(Drop)]
pub struct Heard {
    pub(crate) hasher: Sha256,
    pub(crate) last_line: LastLine,
}

impl Heard {
    /// Of no byte.
    pub(crate) fn nothing() -> Heard
        ensures { Hears result [] }
    {
        Heard {
            hasher: Sha256::new(),
            last_line: LastLine::none(),
        }
    }

    /// More of the output. It takes no memory.
    pub(crate) fn hear(&mut self, bytes: &[u8])
        ensures { (output : List ℕ) → Hears self.old output
            → Hears self.new (output ++ bytes.now) }
    {
        self.hasher.update(bytes);
        self.last_line.hear(bytes);
    }
}
