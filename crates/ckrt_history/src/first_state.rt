//! What a part of a history begins with.
ghost use Rattle.std.specs.Prelude.{◌≡◌, ◌<◌, length, true};
ghost use Rattle.ckrt_stored.specs.Layout.{COUNT_LIMIT, is_valid};
ghost use Rattle.ckrt_history.specs.Sizes.{HasSizes};

use crate::beginning::FIELDS_END;
use ckrt_machine::Machine;
use ckrt_stored::Config;

/// What a part of a history begins with: a machine that stands in memory, as it is behind the first so many events.
#[derive(Clone, Copy)]
pub(crate) struct FirstState<'a> {
    /// The sizes of the history.
    pub config: Config,
    /// Its first bytes.
    pub block: [u8; FIELDS_END],
    /// How many events are done.
    pub first: u64,
    /// The machine behind these.
    pub machine: &'a Machine,
    ghost valid: { is_valid config ≡ true },
    ghost sizes: { HasSizes config machine.now.state },
    ghost block_size: { length block ≡ 72 },
    ghost small: { first < COUNT_LIMIT },
}
