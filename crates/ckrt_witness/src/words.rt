//! Words that ask for a disk to be made, or for the version.
ghost use Rattle.std.specs.Prelude.{◌≡◌, Some, map, true};
ghost use Rattle.ckrt_witness.specs.Words.{AsksFormat};
ghost use Rattle.ckrt_cli_words.specs.Jobs.{request_of_words, version};

use ckrt_cli_words::{Job, read_words};
use std::alloc::Global;

/// Whether words ask for a disk to be made.
pub fn ask_format<'a>(alloc: Global, words: &'a [&'a str]) -> bool
    ensures { result ≡ true → AsksFormat (map (λ s. s.now) words.entry.now) }
{
    let Ok(Job::Format(_job)) = read_words(alloc, words) else {
        return false;
    };
    2 <= words.len()
}

/// Whether they ask for the version.
pub fn ask_version<'a>(alloc: Global, words: &'a [&'a str]) -> bool
    ensures { result ≡ true
        → request_of_words (map (λ s. s.now) words.entry.now) ≡ Some version }
{
    matches!(read_words(alloc, words), Ok(Job::Version))
}
