//! What a run said, onto a writer.
ghost use Rattle.std.specs.Prelude.{◌≡◌, ◌++◌, ◌∷◌, [], ◌==◌, ◌&&◌, nat_le, nat_lt, codes, length, OnOk};
ghost use Rattle.std.specs.List.{flat_map};
ghost use Rattle.std.specs.Io.KnownBytes.{Appends};
ghost use Rattle.hex.specs.Hex.{encode_lower};
ghost use Rattle.ckrt_hunt_schedules.specs.Table.{byte_text, is_silent, line_text, rest_text, said_line};

use crate::kind::{Kind, kind_of};
use crate::last_line::LastLine;
use crate::row::Row;
use std::io::{Result, Write};

/// A byte by its two hexadecimal digits.
#[tactic(auto, using(crate::proofs::AppendLemmas::appends_both))]
fn write_digits<W: Write>(out: &mut W, byte: u8) -> Result<()>
    ensures { OnOk result
        (Appends (W.contents out.old) (W.contents out.new)
        (codes "\\x" ++ encode_lower (byte ∷ []))) }
{
    let bytes = [byte];
    let mut digits = [0u8; 2];
    match hex::encode_to_slice(&bytes, &mut digits) {
        Ok(()) => {
            out.write_all(b"\\x")?;
            out.write_all(&digits)
        }
        Err(_) => unreachable!(),
    }
}

/// A byte of a line.
fn write_byte<W: Write>(out: &mut W, byte: u8) -> Result<()>
    ensures { OnOk result
        (Appends (W.contents out.old) (W.contents out.new) (byte_text byte)) }
{
    if 32 <= byte && byte < 127 {
        out.write_all(&[byte])
    } else {
        write_digits(out, byte)
    }
}

/// The bytes of a line.
#[tactic(auto, using(crate::proofs::AppendLemmas::appends_none, crate::proofs::AppendLemmas::appends_all))]
fn write_bytes<W: Write>(out: &mut W, bytes: &[u8]) -> Result<()>
    ensures { OnOk result
        (Appends (W.contents out.old) (W.contents out.new) (flat_map byte_text bytes.now)) }
{
    for byte in bytes {
        write_byte(out, *byte)?;
    }
    Ok(())
}

/// That a line has more bytes, where it has.
#[tactic(auto, using(crate::proofs::AppendLemmas::appends_none))]
fn write_rest<W: Write>(out: &mut W, is_longer: bool) -> Result<()>
    ensures { OnOk result
        (Appends (W.contents out.old) (W.contents out.new) (rest_text is_longer)) }
{
    if is_longer {
        out.write_all(b"..")
    } else {
        Ok(())
    }
}

/// A line that a run put.
fn write_line<W: Write>(out: &mut W, line: &LastLine) -> Result<()>
    ensures { OnOk result
        (Appends (W.contents out.old) (W.contents out.new) (line_text line.now)) }
{
    out.write_all(b"    said: ")?;
    write_bytes(out, line.bytes.as_slice())?;
    write_rest(out, line.is_longer)?;
    out.write_all(b"\n")
}

/// Whether nothing is told of a line: where there is none, and of `exit 0`.
fn is_silent(kind: Kind, line: &LastLine) -> bool
    ensures { result ≡ is_silent kind line.now }
{
    match kind {
        Kind::ExitZero => true,
        Kind::Fault | Kind::Deadlock | Kind::OtherStatus | Kind::NoEnd | Kind::WaitsForInput => line
            .bytes
            .is_empty(),
    }
}

/// Writes what the first run of an outcome said, where there is something to tell. It takes no memory.
#[tactic(auto, using(crate::proofs::AppendLemmas::appends_none))]
pub(crate) fn write_said<W: Write>(out: &mut W, row: &Row) -> Result<()>
    ensures { OnOk result
        (Appends (W.contents out.old) (W.contents out.new) (said_line row.now)) }
{
    if is_silent(kind_of(&row.told.outcome), &row.said) {
        Ok(())
    } else {
        write_line(out, &row.said)
    }
}
