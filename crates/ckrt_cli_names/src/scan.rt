//! The words of a line that are addresses.
ghost use Rattle.std.specs.Prelude.{◌≤◌, ◌<◌, ◌+◌, length, IfSome};

/// How many digits an address has.
const DIGITS: usize = 8;

/// Whether a byte belongs to a word.
fn is_word_byte(byte: u8) -> bool {
    byte.is_ascii_alphanumeric() || byte == b'_'
}

/// Where the next word begins, or the end of the line.
pub(crate) fn word_begin(line: &[u8], from: usize) -> usize
    requires { from ≤ length line.now }
    ensures from { from ≤ result }
    ensures within { result ≤ length line.now }
{
    let (_, rest) = line.split_at(from);
    match rest.iter().position(|byte| is_word_byte(*byte)) {
        Some(at) => from + at,
        None => line.len(),
    }
}

/// Where a word ends.
pub(crate) fn word_end(line: &[u8], from: usize) -> usize
    requires { from ≤ length line.now }
    ensures from { from ≤ result }
    ensures within { result ≤ length line.now }
{
    let (_, rest) = line.split_at(from);
    match rest.iter().position(|byte| !is_word_byte(*byte)) {
        Some(at) => from + at,
        None => line.len(),
    }
}

/// The value of a lower-case hexadecimal digit.
fn digit(byte: u8) -> Option<u32>
    ensures { IfSome result (λ value. value < 16) }
{
    match byte {
        b'0'..=b'9' => Some((byte - b'0') as u32),
        b'a'..=b'f' => Some((byte - b'a') as u32 + 10),
        _ => None,
    }
}

/// The number of a word of eight lower-case hexadecimal digits.
pub(crate) fn hex_word(word: &[u8]) -> Option<u32> {
    if word.len() != DIGITS {
        return None;
    }
    let mut value = 0u32;
    for byte in word {
        let more = digit(*byte)?;
        value = (value << 4) | more;
    }
    Some(value)
}

/// The number of a word of decimal digits.
pub(crate) fn decimal(digits: &[u8]) -> Option<u64> {
    if digits.is_empty() {
        return None;
    }
    let mut value: u64 = 0;
    for byte in digits {
        if !byte.is_ascii_digit() {
            return None;
        }
        value = value
            .checked_mul(10)?
            .checked_add(u64::from(byte.saturating_sub(b'0')))?;
    }
    Some(value)
}

/// What stands before a word, as far as that matters.
#[derive(Clone, Copy, PartialEq, Eq)]
enum Before {
    /// Nothing that matters.
    Nothing,
    /// The thread of the line waits.
    Blocked,
    /// What follows is the pc of a thread that waits.
    BlockedPc,
    /// What follows is no address: bytes of input, or the digest of an output.
    Bytes,
}

/// What stands before the word behind this one.
fn before_next(before: Before, word: &[u8]) -> Before {
    if word == b"blocked".as_slice() {
        return Before::Blocked;
    }
    if word == b"pc".as_slice() && before == Before::Blocked {
        return Before::BlockedPc;
    }
    if word == b"input".as_slice() || word == b"output".as_slice() {
        return Before::Bytes;
    }
    Before::Nothing
}

/// Below it there is no memory.
const NULL_PAGE: u32 = 4_096;

/// The address that a word is, where it is to be named. A guest's memory ends below 01000000, and no decimal number begins with two zeros.
/// A word below 00001000 mostly is a number; in a line of a fault it is the address. The pc of a thread that waits is behind its call.
fn address_of(word: &[u8], before: Before, is_fault: bool) -> Option<u32> {
    if before == Before::Bytes || !word.starts_with(b"00") {
        return None;
    }
    let address = hex_word(word)?;
    if address < NULL_PAGE && !is_fault {
        return None;
    }
    if before == Before::BlockedPc {
        return Some(address.saturating_sub(4));
    }
    Some(address)
}

/// How many addresses of a line are named at most.
pub(crate) const MOST: usize = 16;

/// How many addresses of this line are: of a line of code the first alone, of a command that is to be typed none, nor of what a program said.
pub(crate) fn most_of(line: &[u8]) -> usize
    ensures { result ≤ MOST }
{
    if line.starts_with(b"`") || line.starts_with(b"    said: ") {
        return 0;
    }
    if line.len() > 10 && line.starts_with(b"  ") && hex_word(&line[2..10]).is_some() {
        return 1;
    }
    MOST
}

/// The words of a line, one after another.
#[derive(Drop)]
pub(crate) struct Scan<'a> {
    line: &'a [u8],
    at: usize,
    before: Before,
    /// Whether the line tells of a fault.
    is_fault: bool,
    ghost within: { at ≤ length line.now },
}

impl<'a> Scan<'a> {
    /// From the begin of a line.
    pub(crate) fn new(line: &'a [u8]) -> Scan<'a> {
        Scan {
            line,
            at: 0,
            before: Before::Nothing,
            is_fault: false,
        }
    }

    /// The next word, and what stands before it.
    fn next_word(&mut self) -> Option<(&'a [u8], Before)> {
        let begin = word_begin(self.line, self.at);
        let end = word_end(self.line, begin);
        self.at = end;
        if begin == end {
            return None;
        }
        let word = &self.line[begin..end];
        let before = self.before;
        self.before = before_next(before, word);
        if word == b"fault".as_slice() {
            self.is_fault = true;
        }
        Some((word, before))
    }

    /// The next address that is to be named.
    pub(crate) fn next_address(&mut self) -> Option<u32> {
        for _ in 0..self.line.len() {
            let (word, before) = self.next_word()?;
            if let Some(address) = address_of(word, before, self.is_fault) {
                return Some(address);
            }
        }
        None
    }
}
