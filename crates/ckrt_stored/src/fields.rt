//! The fields of blocks, from their bytes and as bytes. Numbers have their lowest byte first. The superblock and the record of
//! the input are read and written by the same functions, in the crates above.
ghost use Rattle.std.specs.Prelude.{◌≡◌, ◌≤◌, ◌+◌, ◌++◌, length};
ghost use Rattle.ckrt_stored.specs.Layout.{number_at, header_in};
ghost use Rattle.ckrt_stored.specs.AreaFields.{header_fields};

use crate::header::Header;
use arrayvec::ArrayVec;
use byteorder::{ByteOrder, LittleEndian};
use ckrt_journal::OPEN;

/// How many bytes of a header are read.
pub(crate) const HEADER_BYTES: usize = 40;

/// The number in the four bytes from an offset on.
#[tactic(auto, unfolding(crate::specs::Layout::number_at))]
pub fn number_32(block: &[u8], at: usize) -> u32
    requires { at + 4 ≤ length block.now }
    ensures { result ≡ number_at 4 at block.now }
{
    LittleEndian::read_u32(&block[at..at + 4])
}

/// The number in the eight bytes from an offset on.
#[tactic(auto, unfolding(crate::specs::Layout::number_at))]
pub fn number_64(block: &[u8], at: usize) -> u64
    requires { at + 8 ≤ length block.now }
    ensures { result ≡ number_at 8 at block.now }
{
    LittleEndian::read_u64(&block[at..at + 8])
}

/// Puts bytes after those that are there.
pub fn put<const N: usize>(out: &mut ArrayVec<u8, N>, bytes: &[u8])
    requires { length out.old.items + length bytes.now ≤ N }
    ensures { out.new.items ≡ out.old.items ++ bytes.now }
{
    out.try_extend_from_slice(bytes).unwrap();
}

/// The header that 40 bytes have.
pub(crate) fn header(block: &[u8]) -> Header
    requires { length block.now ≡ 40 }
    ensures { result ≡ header_in block.now }
{
    Header {
        is_open: block[0] == OPEN,
        generation: number_64(block, 8),
        count: number_64(block, 16),
        offset: number_64(block, 24),
        tables: number_32(block, 32),
        version: number_32(block, 36),
    }
}

/// The fields of an area's header, from its byte 8 on.
pub fn header_fields(header: &Header) -> ArrayVec<u8, 32>
    ensures { result.items ≡ header_fields header.now }
{
    let mut fields = ArrayVec::new();
    put(&mut fields, &header.generation.to_le_bytes());
    put(&mut fields, &header.count.to_le_bytes());
    put(&mut fields, &header.offset.to_le_bytes());
    put(&mut fields, &header.tables.to_le_bytes());
    put(&mut fields, &header.version.to_le_bytes());
    fields
}
