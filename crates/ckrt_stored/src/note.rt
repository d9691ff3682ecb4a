//! What a disk notes of its program.
ghost use Rattle.std.specs.Prelude.{◌≡◌};
ghost use Rattle.ckrt_stored.specs.Superblock.{note_for};

use sha2::{Digest, Sha256};

/// The image that a disk was formatted with, as its superblock has it.
#[derive(Clone, Copy, Debug, PartialEq, Eq)]
pub struct ProgramNote {
    /// The SHA-256 digest of the image.
    pub digest: [u8; 32],
    /// How many bytes the image has.
    pub bytes: u64,
}

/// What a disk notes of a program with this image.
pub fn note_for(image: &[u8]) -> ProgramNote
    ensures { result ≡ note_for image.now }
{
    ProgramNote {
        digest: Sha256::digest(image),
        bytes: image.len() as u64,
    }
}
