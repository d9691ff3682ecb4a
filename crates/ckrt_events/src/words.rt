//! The words and numbers of a line.
ghost use Rattle.std.specs.Prelude.{◌≡◌, ◌<◌, ◌≤◌, ℕ, true, false, [], ◌∷◌, drop, length, slice_index, MatchOption, IfSome, IfOk};
ghost use Rattle.ckrt_events.specs.Words.{is_blank as blank, words_of, number_in, ends_word, begins_word};

use crate::command::LineFault;

fn is_blank(b: u8) -> bool
    ensures { result ≡ blank b }
{
    b == b' ' || b == b'\t'
}

/// The line without the spaces and tabs at its front.
fn skip_blanks(line: &[u8]) -> &[u8]
    ensures same { words_of result.now ≡ words_of line.now }
    ensures within { length result.now ≤ length line.now }
    ensures first { begins_word result.now ≡ true }
{
    let mut rest = line;
    while let [b, tail @ ..] = rest {
        if !is_blank(*b) {
            return rest;
        }
        rest = tail;
    }
    rest
}

/// How many bytes come before the first space or tab.
fn word_len(rest: &[u8]) -> usize
    ensures within { result ≤ length rest.now }
    ensures plain { (k : ℕ) → k < result → blank (slice_index rest.now k) ≡ false }
    ensures end { ends_word (drop result rest.now) ≡ true }
{
    rest.iter().position(|b| is_blank(*b)).unwrap_or(rest.len())
}

/// The first word of a line, and what follows it.
pub(crate) fn next_word(line: &[u8]) -> Option<(&[u8], &[u8])>
    ensures within { IfSome result
        (λ r. (length r.0.now ≤ length line.now) × (length r.1.now ≤ length line.now)) }
    ensures some { IfSome result (λ r. 1 ≤ length r.0.now) }
    ensures words { MatchOption result (words_of line.now ≡ [])
        (λ r. words_of line.now ≡ r.0.now ∷ words_of r.1.now) }
{
    let rest = skip_blanks(line);
    if rest.is_empty() {
        return None;
    }
    let len = word_len(rest);
    Some(rest.split_at(len))
}

/// The decimal number that a word writes, of any length, where it is from `low` to `high`. A byte that is no digit is reported before a
/// number out of range.
pub(crate) fn number(word: &[u8], low: u32, high: u32) -> Result<u32, LineFault>
    ensures value { result ≡ number_in low high word.now }
    ensures low { IfOk result (λ n. low ≤ n) }
    ensures high { IfOk result (λ n. n ≤ high) }
{
    /// Above each u32: a greater number counts as this one.
    const CAP: u64 = 1 << 33;
    let mut value = 0u64;
    for b in word {
        if !b.is_ascii_digit() {
            return Err(LineFault::Number);
        }
        value = (10 * value + u64::from(*b - b'0')).min(CAP);
    }
    if value < u64::from(low) || value > u64::from(high) {
        return Err(LineFault::Range);
    }
    Ok(value as u32)
}
