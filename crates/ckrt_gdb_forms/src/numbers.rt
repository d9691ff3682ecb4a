//! Hexadecimal numbers of packets.
ghost use Rattle.std.specs.Prelude.{◌≡◌, ◌<◌, ◌≤◌, ◌++◌, IfSome};
ghost use Rattle.hex.specs.Hex.{hex_digit_value};
ghost use Rattle.ckrt_gdb_forms.specs.Numbers.{digit_of, number_of};

/// The value of a hexadecimal digit, of either case.
pub(crate) fn digit_value(byte: u8) -> Option<u8>
    ensures value { result ≡ hex_digit_value byte }
    ensures below { IfSome result (λ d. d < 16) }
{
    match byte {
        b'0'..=b'9' => Some(byte - b'0'),
        b'a'..=b'f' => Some(byte - b'a' + 10),
        b'A'..=b'F' => Some(byte - b'A' + 10),
        _ => None,
    }
}

/// The number that a word writes in one hexadecimal digit or more, where it fits.
pub(crate) fn number(word: &[u8]) -> Option<u32>
    ensures { result ≡ number_of word.now }
{
    if word.is_empty() {
        return None;
    }
    let mut value = 0u32;
    let mut rest = word;
    while let [byte, tail @ ..] = rest {
        let digit = digit_value(*byte)?;
        if value >= 1 << 28 {
            return None;
        }
        value = 16 * value + u32::from(digit);
        rest = tail;
    }
    Some(value)
}
