//! The labels of a picture: what threads waited for, where there is room.
use crate::names::{Names, Place};
use crate::renamed::{find, push_offset, push_xml};
use crate::scan::{word_begin, word_end};
use std::alloc::{AllocError, Global};

/// How many pixels a letter of a label takes.
const LETTER: u64 = 7;

/// How many letters a label has at least, where its name is cut.
const LEAST: u64 = 4;

/// A row of a picture.
#[derive(Clone, Copy)]
struct Row {
    /// Where its bars begin, in pixels.
    left: u64,
    top: u64,
    width: u64,
    /// How many steps that is.
    steps: u64,
}

/// What is labelled in a row of a picture.
#[derive(Drop)]
pub(crate) struct Labels {
    row: Option<Row>,
    texts: Vec<u8>,
    is_ended: bool,
}

/// The number that a line begins with.
fn number_at(line: &[u8]) -> u64 {
    let mut value: u64 = 0;
    for byte in line {
        if !byte.is_ascii_digit() {
            return value;
        }
        value = value
            .saturating_mul(10)
            .saturating_add(u64::from(byte.saturating_sub(b'0')));
    }
    value
}

/// The number of an attribute.
fn attribute(line: &[u8], key: &[u8]) -> Option<u64> {
    let at = find(line, key)?;
    let rest = line.get(at.saturating_add(key.len())..)?;
    Some(number_at(rest))
}

/// The row that begins with a line.
fn row_of(line: &[u8]) -> Option<Row> {
    if !line.starts_with(b"<svg x=") {
        return None;
    }
    Some(Row {
        left: attribute(line, b" x=\"")?,
        top: attribute(line, b" y=\"")?,
        width: attribute(line, b" width=\"")?,
        steps: attribute(line, b" viewBox=\"0 0 ")?,
    })
}

/// How many pixels of a row so many steps take.
fn pixels(row: &Row, steps: u64) -> u64 {
    steps.saturating_mul(row.width) / row.steps.max(1)
}

/// What stands before the object of a wait, as `mutex` in `waits for mutex 00002d04`; and what is named of that.
fn object_of<'a, 'n>(names: &'n Names, line: &'a [u8]) -> Option<(&'a [u8], Place<'n>)> {
    let at = find(line, b" waits ")?;
    let words = line.get(at.saturating_add(7)..)?;
    let kind_at = find(words, b" ")?.saturating_add(1);
    let kind = words.get(kind_at..)?;
    let mut from = 0;
    for _ in 0..4 {
        if from > kind.len() {
            return None;
        }
        let begin = word_begin(kind, from);
        let end = word_end(kind, begin);
        if let Some(place) = names.place_of_word(kind.get(begin..end)?) {
            return Some((kind.get(..begin)?, place));
        }
        from = end;
    }
    None
}

/// Whether a byte goes on with a letter of UTF-8.
fn goes_on(byte: u8) -> bool {
    (0x80..=0xbf).contains(&byte)
}

/// The first bytes of a text, at most so many, without a part of a letter.
fn cut(text: &[u8], most: u64) -> &[u8] {
    let mut size = 0;
    for at in 0..text.len() {
        if at as u64 > most {
            break;
        }
        if !goes_on(text[at]) {
            size = at;
        }
    }
    match text.get(..size) {
        Some(front) => front,
        None => text,
    }
}

/// A label: with what it is of, where there is room for that, else the name alone, cut to the room.
fn push_cut(
    kind: &[u8],
    place: Place<'_>,
    room: u64,
    texts: &mut Vec<u8>,
) -> Result<(), AllocError> {
    let size = place.text.len() as u64;
    if place.offset == 0 && size.saturating_add(kind.len() as u64) <= room {
        push_xml(kind, texts)?;
        return push_xml(place.text, texts);
    }
    if size <= room {
        push_xml(place.text, texts)?;
        return push_offset(place.offset, texts);
    }
    push_xml(cut(place.text, room.saturating_sub(2)), texts)?;
    texts.extend_from_slice(b"..")
}

/// A label at a place.
fn push_label(
    row: &Row,
    begin: u64,
    room: u64,
    object: (&[u8], Place<'_>),
    texts: &mut Vec<u8>,
) -> Result<(), AllocError> {
    let mut digits = itoa::Buffer::new();
    let left = row
        .left
        .saturating_add(pixels(row, begin))
        .saturating_add(3);
    texts.extend_from_slice(b"\n<text font-size=\"11\" pointer-events=\"none\" x=\"")?;
    texts.extend_from_slice(digits.format(left).as_bytes())?;
    texts.extend_from_slice(b"\" y=\"")?;
    texts.extend_from_slice(digits.format(row.top.saturating_add(12)).as_bytes())?;
    texts.extend_from_slice(b"\">")?;
    let (kind, place) = object;
    push_cut(kind, place, room, texts)?;
    texts.extend_from_slice(b"</text>")
}

/// The label of a piece, where there is room for it.
fn push_piece(
    names: &Names,
    row: &Row,
    line: &[u8],
    texts: &mut Vec<u8>,
) -> Result<(), AllocError> {
    let (Some(begin), Some(steps)) = (attribute(line, b" x=\""), attribute(line, b" width=\""))
    else {
        return Ok(());
    };
    let room = pixels(row, steps).saturating_sub(6) / LETTER;
    let Some((kind, place)) = object_of(names, line) else {
        return Ok(());
    };
    if room < LEAST.min(place.text.len() as u64) {
        return Ok(());
    }
    push_label(row, begin, room, (kind, place), texts)
}

impl Labels {
    /// None yet.
    pub(crate) fn new(alloc: Global) -> Labels {
        Labels {
            row: None,
            texts: Vec::new(alloc),
            is_ended: false,
        }
    }

    /// Looks at a line of a picture. Where memory is refused a label is left out, and those before it.
    pub(crate) fn watch(&mut self, names: &Names, line: &[u8]) {
        self.is_ended = line.starts_with(b"</svg>");
        if let Some(row) = row_of(line) {
            self.row = Some(row);
            self.texts.clear();
            return;
        }
        let Some(row) = self.row else {
            return;
        };
        if line.starts_with(b"<rect ") && push_piece(names, &row, line, &mut self.texts).is_err() {
            self.texts.clear();
        }
    }

    /// Takes the labels of a row that has ended, behind a note. Where memory is refused there are none.
    pub(crate) fn take(&mut self, note: &mut Vec<u8>) {
        if self.is_ended {
            if note.extend_from_slice(&self.texts).is_err() {
                note.clear();
            }
            self.texts.clear();
            self.row = None;
        }
    }
}
