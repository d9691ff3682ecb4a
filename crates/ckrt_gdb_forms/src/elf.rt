//! Headers of an ELF file, and the numbers in it.
ghost use Rattle.std.specs.Prelude.{OnOk};
ghost use Rattle.std.specs.Io.KnownBytes.{Appends};
ghost use Rattle.ckrt_gdb_forms.specs.Elf.{elf_header, halves, program_header, words};

use std::io::{Result, Write};

const ET_CORE: u16 = 4;

const EM_RISCV: u16 = 243;

/// The kind of a segment that is in memory.
pub const PT_LOAD: u32 = 1;
/// The kind of a segment of notes.
pub const PT_NOTE: u32 = 4;

/// Where a part of the file stands, and where in memory it is.
#[derive(Clone, Copy, Debug)]
pub struct Segment {
    /// [`PT_LOAD`] or [`PT_NOTE`].
    pub kind: u32,
    /// Its first byte in the file.
    pub offset: u32,
    /// The address of its first byte, 0 where it is nowhere in memory.
    pub address: u32,
    pub file_size: u32,
    pub memory_size: u32,
    /// What a program may do there: 4 to read, 2 to write, 1 to execute.
    pub flags: u32,
}

/// Numbers of two bytes.
#[tactic(auto, using(crate::proofs::AppendLemmas::appends_none, crate::proofs::AppendLemmas::appends_more, crate::proofs::AppendLemmas::appends_all))]
fn write_halves<W: Write>(out: &mut W, numbers: &[u16]) -> Result<()>
    ensures { OnOk result (Appends (W.contents out.old) (W.contents out.new) (halves numbers.now)) }
{
    for number in numbers {
        out.write_all(&number.to_le_bytes())?;
    }
    Ok(())
}

/// Numbers of four bytes.
#[tactic(auto, using(crate::proofs::AppendLemmas::appends_none, crate::proofs::AppendLemmas::appends_more, crate::proofs::AppendLemmas::appends_all))]
pub fn write_words<W: Write>(out: &mut W, numbers: &[u32]) -> Result<()>
    ensures { OnOk result (Appends (W.contents out.old) (W.contents out.new) (words numbers.now)) }
{
    for number in numbers {
        out.write_all(&number.to_le_bytes())?;
    }
    Ok(())
}

/// The ELF header of a core with two program headers.
#[tactic(auto, using(crate::proofs::AppendLemmas::appends_both))]
pub fn write_elf_header<W: Write>(out: &mut W) -> Result<()>
    ensures { OnOk result (Appends (W.contents out.old) (W.contents out.new) elf_header) }
{
    out.write_all(b"\x7fELF\x01\x01\x01\0\0\0\0\0\0\0\0\0")?;
    write_halves(out, &[ET_CORE, EM_RISCV])?;
    write_words(out, &[1, 0, 52, 0, 0])?;
    write_halves(out, &[52, 32, 2, 0, 0, 0])
}

/// The program header of a segment.
pub fn write_program_header<W: Write>(out: &mut W, segment: &Segment) -> Result<()>
    ensures { OnOk result
        (Appends (W.contents out.old) (W.contents out.new) (program_header segment.now)) }
{
    write_words(
        out,
        &[
            segment.kind,
            segment.offset,
            segment.address,
            0,
            segment.file_size,
            segment.memory_size,
            segment.flags,
            4,
        ],
    )
}
