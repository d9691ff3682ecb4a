//! The rows of a file of names.
ghost use Rattle.std.specs.Prelude.{◌≤◌, ◌<◌, ◌+◌, ◌^◌, length, IfSome, IfOk};
ghost use Rattle.ckrt_cli_names.specs.Rows.{IsInOrder};

use crate::fault::NamesFault;
use crate::scan::hex_word;
use std::alloc::Global;

/// What a file of names begins with: of version 1, and of version 2, which has rules after its rows.
const MAGIC: &[u8; 13] = b"ckrt-names 1 ";

const MAGIC_WITH_RULES: &[u8; 13] = b"ckrt-names 2 ";

/// Where the length of the image stands.
const LENGTH_AT: usize = 78;

/// How many bytes the first line has, with its end.
pub(crate) const HEAD: usize = 87;

/// Where the text of a row begins.
const TEXT_AT: usize = 21;

/// A stretch of addresses with one text.
#[derive(Clone, Copy)]
pub(crate) struct Row {
    pub(crate) begin: u32,
    /// The address behind it.
    pub(crate) end: u32,
    /// Where its text lies in the file.
    pub(crate) text_at: usize,
    pub(crate) text_end: usize,
    /// Whether it is told how far from its begin an address is.
    pub(crate) tells_offset: bool,
}

/// The image that a file of names is of.
#[derive(Clone, Copy)]
pub(crate) struct Head {
    pub(crate) digest: [u8; 32],
    pub(crate) length: u32,
    /// Whether there may be rules after the rows.
    pub(crate) has_rules: bool,
}

/// The first line.
pub(crate) fn read_head(bytes: &[u8]) -> Option<Head> {
    let has_rules = bytes.starts_with(MAGIC_WITH_RULES);
    if bytes.len() < HEAD || !(has_rules || bytes.starts_with(MAGIC)) {
        return None;
    }
    if bytes[LENGTH_AT - 1] != b' ' || bytes[HEAD - 1] != b'\n' {
        return None;
    }
    let mut digest = [0u8; 32];
    if hex::decode_to_slice(&bytes[MAGIC.len()..LENGTH_AT - 1], &mut digest).is_err() {
        return None;
    }
    let length = hex_word(&bytes[LENGTH_AT..HEAD - 1])?;
    Some(Head {
        digest,
        length,
        has_rules,
    })
}

/// Whether the text of a row tells how far from its begin an address is.
fn kind(line: &[u8]) -> Option<bool> {
    if line.starts_with(b"at ") {
        return Some(false);
    }
    if line.starts_with(b"in ") {
        return Some(true);
    }
    None
}

/// The row of a line that stands there in the file.
fn read_row(line: &[u8], at: usize) -> Option<Row>
    requires { at + length line.now < 2 ^ 64 }
    ensures { IfSome result (λ row. row.begin ≤ row.end) }
{
    if line.len() <= TEXT_AT || line[11] != b' ' || line[20] != b' ' {
        return None;
    }
    let tells_offset = kind(line)?;
    let begin = hex_word(&line[3..11])?;
    let size = hex_word(&line[12..20])?;
    let end = begin.checked_add(size)?;
    Some(Row {
        begin,
        end,
        text_at: at + TEXT_AT,
        text_end: at + line.len(),
        tells_offset,
    })
}

/// How many bytes the line has that stands there.
pub(crate) fn line_length(bytes: &[u8], at: usize) -> Option<usize>
    requires { at ≤ length bytes.now }
    ensures { IfSome result (λ count. at + count < length bytes.now) }
{
    let (_, rest) = bytes.split_at(at);
    rest.iter().position(|byte| *byte == b'\n')
}

/// Whether the line is a row of addresses that stands there.
fn is_row(bytes: &[u8], at: usize) -> bool
    requires { at ≤ length bytes.now }
{
    let (_, rest) = bytes.split_at(at);
    kind(rest).is_some()
}

/// The rows after the first line, and where the first line after them stands, which is none.
#[tactic(auto, using(crate::proofs::RowLemmas::order_more, crate::proofs::RowLemmas::ends_more))]
pub(crate) fn read_rows(alloc: Global, bytes: &[u8]) -> Result<(Vec<Row>, usize), NamesFault>
    ensures { IfOk result (λ found. IsInOrder found.0.items) }
{
    let mut rows = Vec::new(alloc);
    let mut at = HEAD.min(bytes.len());
    let mut last = 0;
    for _ in 0..bytes.len() {
        if at >= bytes.len() || !is_row(bytes, at) {
            return Ok((rows, at));
        }
        let Some(count) = line_length(bytes, at) else {
            return Err(NamesFault::Row(at as u64));
        };
        let Some(row) = read_row(&bytes[at..at + count], at) else {
            return Err(NamesFault::Row(at as u64));
        };
        if row.begin < last {
            return Err(NamesFault::Order(at as u64));
        }
        last = row.end;
        if rows.push(row).is_err() {
            return Err(NamesFault::OutOfMemory);
        }
        at += count + 1;
    }
    Ok((rows, at))
}
