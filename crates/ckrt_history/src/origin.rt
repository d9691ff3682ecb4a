//! Of which history a snapshot is.
ghost use Rattle.std.specs.Prelude.{◌≡◌, ◌<◌, ◌^◌, length, true};
ghost use Rattle.ckrt_stored.specs.Layout.{is_valid};

use crate::beginning::FIELDS_END;
use ckrt_stored::Config;

/// Of which history a snapshot is, as it is read for it.
#[derive(Drop)]
pub(crate) struct Origin {
    /// The sizes of the history.
    pub config: Config,
    /// Its first bytes.
    pub block: [u8; FIELDS_END],
    /// How many bytes it has before the gate that ends it.
    pub bytes: usize,
    /// The SHA-256 digest of these.
    pub digest: [u8; 32],
    ghost valid: { is_valid config ≡ true },
    ghost block_size: { length block ≡ 72 },
    ghost digest_size: { length digest ≡ 32 },
    ghost small: { bytes < 2 ^ 64 },
}
