//! Bytes of a reply, one piece behind the other.
ghost use Rattle.std.specs.Prelude.{◌≡◌, ◌+◌, ◌<◌, ◌≤◌, ◌++◌, IsOk, OnOk, length, decimal};
ghost use Rattle.arrayvec.specs.ArrayVec.{array_vec_len};
ghost use Rattle.ckrt_gdb_forms.specs.Numbers.{digit_of, number_text};
ghost use Rattle.ckrt_gdb_playback.specs.Look.{word, words};
ghost use Rattle.ckrt_gdb_playback.specs.Standing.{address_text};

use arrayvec::ArrayVec;
use ckrt_gdb_forms::Full;

/// How many bytes a reply tells at most: two digits of a payload are a byte.
pub const BYTES_LIMIT: usize = 2_048;

/// The bytes that a reply tells in digits.
pub type Bytes = ArrayVec<u8, BYTES_LIMIT>;

/// Bytes as they are.
pub fn push(out: &mut Bytes, bytes: &[u8]) -> Result<(), Full>
    ensures done { OnOk result (out.new.items ≡ out.old.items ++ bytes.now) }
    ensures fits { array_vec_len out.old + length bytes.now ≤ 2048 → IsOk result }
{
    match out.try_extend_from_slice(bytes) {
        Ok(()) => Ok(()),
        Err(_) => Err(Full),
    }
}

/// A word, lowest byte first.
fn push_word(out: &mut Bytes, number: u32) -> Result<(), Full>
    ensures done { OnOk result (out.new.items ≡ out.old.items ++ word number) }
    ensures fits { array_vec_len out.old + length (word number) ≤ 2048 → IsOk result }
{
    push(out, &number.to_le_bytes())
}

/// Words, each lowest byte first.
pub fn push_words(out: &mut Bytes, numbers: &[u32]) -> Result<(), Full>
    ensures done { OnOk result (out.new.items ≡ out.old.items ++ words numbers.now) }
    ensures fits { array_vec_len out.old + length (words numbers.now) ≤ 2048 → IsOk result }
{
    let mut rest = numbers;
    while let [number, tail @ ..] = rest {
        push_word(out, *number)?;
        rest = tail;
    }
    Ok(())
}

/// A number in decimal.
pub fn push_decimal(out: &mut Bytes, number: u64) -> Result<(), Full>
    ensures done { OnOk result (out.new.items ≡ out.old.items ++ decimal number) }
    ensures fits { array_vec_len out.old + length (decimal number) ≤ 2048 → IsOk result }
{
    push(out, itoa::Buffer::new().format(number).as_bytes())
}

/// The hexadecimal digit of a value below 16.
fn digit(value: u8) -> u8
    requires { value < 16 }
    ensures { result ≡ digit_of value }
{
    b"0123456789abcdef"[usize::from(value)]
}

/// A number in hexadecimal digits, with no zero before others.
fn push_hex(out: &mut Bytes, number: u32) -> Result<(), Full>
    ensures done { OnOk result (out.new.items ≡ out.old.items ++ number_text number) }
    ensures fits { array_vec_len out.old + length (number_text number) ≤ 2048 → IsOk result }
{
    if number < 16 {
        return push(out, &[digit(number as u8)]);
    }
    push_hex(out, number / 16)?;
    push(out, &[digit((number % 16) as u8)])
}

/// A word of text, and a number in decimal behind it.
pub fn push_counted(out: &mut Bytes, text: &[u8], number: u64) -> Result<(), Full>
    ensures done { OnOk result (out.new.items ≡ out.old.items ++ (text.now ++ decimal number)) }
    ensures fits { array_vec_len out.old + length (text.now ++ decimal number) ≤ 2048
        → IsOk result }
{
    push(out, text)?;
    push_decimal(out, number)
}

/// An address.
fn push_address(out: &mut Bytes, address: u32) -> Result<(), Full>
    ensures done { OnOk result (out.new.items ≡ out.old.items ++ address_text address) }
    ensures fits { array_vec_len out.old + length (address_text address) ≤ 2048 → IsOk result }
{
    push(out, b"0x")?;
    push_hex(out, address)
}

/// A word of text, and an address behind it.
pub fn push_at(out: &mut Bytes, text: &[u8], address: u32) -> Result<(), Full>
    ensures done { OnOk result
        (out.new.items ≡ out.old.items ++ (text.now ++ address_text address)) }
    ensures fits { array_vec_len out.old + length (text.now ++ address_text address) ≤ 2048
        → IsOk result }
{
    push(out, text)?;
    push_address(out, address)
}
