//! Pieces of a payload, one behind the other.
ghost use Rattle.std.specs.Prelude.{◌≡◌, [], ◌∷◌, ◌+◌, ◌<◌, ◌≤◌, ◌++◌, IsOk, OnOk, length};
ghost use Rattle.arrayvec.specs.ArrayVec.{array_vec_len};
ghost use Rattle.ckrt_gdb_forms.specs.Numbers.{byte_text, digit_of, hex_text, number_text};
ghost use Rattle.ckrt_gdb_forms.specs.Replies.{escape, escaped};

use crate::frame::PAYLOAD_LIMIT;
use arrayvec::ArrayVec;
use thiserror::Error;

/// The bytes of a packet between `$` and `#`.
pub type Payload = ArrayVec<u8, PAYLOAD_LIMIT>;

/// What was to be written is longer than a payload may be.
#[derive(Clone, Copy, Debug, Drop, PartialEq, Eq, Error)]
#[error("a packet of more than 4096 bytes")]
pub struct Full;

/// Bytes as they are.
pub(crate) fn push(out: &mut Payload, bytes: &[u8]) -> Result<(), Full>
    ensures done { OnOk result (out.new.items ≡ out.old.items ++ bytes.now) }
    ensures fits { array_vec_len out.old + length bytes.now ≤ 4096 → IsOk result }
{
    match out.try_extend_from_slice(bytes) {
        Ok(()) => Ok(()),
        Err(_) => Err(Full),
    }
}

/// The digit of a value below 16.
pub(crate) fn digit(value: u8) -> u8
    requires { value < 16 }
    ensures { result ≡ digit_of value }
{
    b"0123456789abcdef"[usize::from(value)]
}

/// A byte in two digits.
pub(crate) fn push_digits(out: &mut Payload, byte: u8) -> Result<(), Full>
    ensures done { OnOk result (out.new.items ≡ out.old.items ++ byte_text byte) }
    ensures fits { array_vec_len out.old + 2 ≤ 4096 → IsOk result }
{
    push(out, &[digit(byte / 16), digit(byte % 16)])
}

/// Bytes in two digits each.
pub(crate) fn push_hex(out: &mut Payload, bytes: &[u8]) -> Result<(), Full>
    ensures done { OnOk result (out.new.items ≡ out.old.items ++ hex_text bytes.now) }
    ensures fits { array_vec_len out.old + length (hex_text bytes.now) ≤ 4096 → IsOk result }
{
    let mut rest = bytes;
    while let [byte, tail @ ..] = rest {
        push_digits(out, *byte)?;
        rest = tail;
    }
    Ok(())
}

/// A number in digits.
pub(crate) fn push_number(out: &mut Payload, number: u32) -> Result<(), Full>
    ensures done { OnOk result (out.new.items ≡ out.old.items ++ number_text number) }
    ensures fits { array_vec_len out.old + length (number_text number) ≤ 4096 → IsOk result }
{
    if number < 16 {
        return push(out, &[digit(number as u8)]);
    }
    push_number(out, number / 16)?;
    push(out, &[digit((number % 16) as u8)])
}

/// A byte, or two where it is special.
fn push_byte(out: &mut Payload, byte: u8) -> Result<(), Full>
    ensures done { OnOk result (out.new.items ≡ out.old.items ++ escape byte) }
    ensures fits { array_vec_len out.old + length (escape byte) ≤ 4096 → IsOk result }
{
    match byte {
        b'#' | b'$' | b'*' | b'}' => push(out, &[b'}', byte - 32]),
        _ => push(out, &[byte]),
    }
}

/// Bytes, the special ones among them escaped.
pub(crate) fn push_escaped(out: &mut Payload, bytes: &[u8]) -> Result<(), Full>
    ensures done { OnOk result (out.new.items ≡ out.old.items ++ escaped bytes.now) }
    ensures fits { array_vec_len out.old + length (escaped bytes.now) ≤ 4096 → IsOk result }
{
    let mut rest = bytes;
    while let [byte, tail @ ..] = rest {
        push_byte(out, *byte)?;
        rest = tail;
    }
    Ok(())
}
