//! Lines with names in the place of their addresses.
ghost use Rattle.std.specs.Prelude.{◌≡◌, ◌++◌, [], IsTrue, OnOk, false, true};
ghost use Rattle.ckrt_cli_names.specs.Put.{is_mark, is_unmarked, marks};

use crate::names::{Names, Place};
use crate::piece::Form;
use crate::scan::{hex_word, word_begin, word_end};
use std::alloc::AllocError;

/// Below it there is no memory.
const NULL_PAGE: u32 = 4_096;

/// Whether a byte ends a line or a frame.
fn is_mark(byte: u8) -> bool
    ensures { result ≡ is_mark byte }
{
    byte == b'\n' || byte == b';' || byte == b' '
}

/// Whether no byte ends a line or a frame.
fn is_unmarked(bytes: &[u8]) -> bool
    ensures { result ≡ is_unmarked bytes.now }
{
    for byte in bytes {
        if is_mark(*byte) {
            return false;
        }
    }
    true
}

/// A byte that can stand in a frame.
fn harmless(byte: u8) -> u8
    ensures { is_mark result ≡ false }
{
    if is_mark(byte) || byte < b' ' {
        return b'_';
    }
    byte
}

/// A byte of a name in a frame.
#[tactic(auto, using(crate::proofs::PutLemmas::unmarked_more))]
fn push_harmless(byte: u8, out: &mut Vec<u8>) -> Result<(), AllocError>
    ensures { OnOk result (marks out.new.items ≡ marks out.old.items) }
{
    let byte = harmless(byte);
    out.extend_from_slice(&[byte])
}

/// A name in a frame.
fn push_frame(text: &[u8], out: &mut Vec<u8>) -> Result<(), AllocError>
    ensures { OnOk result (marks out.new.items ≡ marks out.old.items) }
{
    for byte in text {
        push_harmless(*byte, out)?;
    }
    Ok(())
}

/// A byte of a name in a picture.
fn push_xml_byte(byte: u8, out: &mut Vec<u8>) -> Result<(), AllocError> {
    match byte {
        b'&' => out.extend_from_slice(b"&amp;"),
        b'<' => out.extend_from_slice(b"&lt;"),
        b'>' => out.extend_from_slice(b"&gt;"),
        b'"' => out.extend_from_slice(b"&quot;"),
        0..=31 => out.extend_from_slice(b"_"),
        _ => out.extend_from_slice(&[byte]),
    }
}

/// A text in a picture.
pub(crate) fn push_xml(text: &[u8], out: &mut Vec<u8>) -> Result<(), AllocError> {
    for byte in text {
        push_xml_byte(*byte, out)?;
    }
    Ok(())
}

/// A byte of a name in trace events.
fn push_json_byte(byte: u8, out: &mut Vec<u8>) -> Result<(), AllocError> {
    match byte {
        b'"' => out.extend_from_slice(b"\\\""),
        b'\\' => out.extend_from_slice(b"\\\\"),
        0..=31 => out.extend_from_slice(b"_"),
        _ => out.extend_from_slice(&[byte]),
    }
}

/// A text in trace events.
fn push_json(text: &[u8], out: &mut Vec<u8>) -> Result<(), AllocError> {
    for byte in text {
        push_json_byte(*byte, out)?;
    }
    Ok(())
}

/// A text in a timeline.
fn push_marked_up(form: Form, text: &[u8], out: &mut Vec<u8>) -> Result<(), AllocError> {
    if matches!(form, Form::Picture) {
        push_xml(text, out)
    } else {
        push_json(text, out)
    }
}

/// Puts the name of a thread behind its number: in a picture in a line of its own below, in trace events behind a blank.
fn push_label(form: Form, name: &[u8], out: &mut Vec<u8>) -> Result<(), AllocError> {
    if !matches!(form, Form::Picture) {
        out.extend_from_slice(b" ")?;
        return push_json(name, out);
    }
    out.extend_from_slice(b"<tspan x=\"4\" dy=\"9\" font-size=\"8\">")?;
    push_xml(name, out)?;
    out.extend_from_slice(b"</tspan>")
}

/// How far from the begin of its row an address is.
pub(crate) fn push_offset(offset: u32, out: &mut Vec<u8>) -> Result<(), AllocError> {
    if offset == 0 {
        return Ok(());
    }
    let mut digits = itoa::Buffer::new();
    out.extend_from_slice(b" + ")?;
    out.extend_from_slice(digits.format(offset).as_bytes())
}

/// Where a text stands in another one, the first time.
pub(crate) fn find(text: &[u8], key: &[u8]) -> Option<usize> {
    let mut rest = text;
    for at in 0..text.len() {
        if rest.starts_with(key) {
            return Some(at);
        }
        let (_, more) = rest.split_first()?;
        rest = more;
    }
    None
}

/// What stands behind the last of these.
fn behind_last<'a>(text: &'a [u8], key: &[u8]) -> &'a [u8] {
    let mut rest = text;
    for _ in 0..text.len() {
        let Some(at) = find(rest, key) else {
            return rest;
        };
        let Some(more) = rest.get(at.saturating_add(key.len())..) else {
            return rest;
        };
        rest = more;
    }
    rest
}

/// The function of a text: of what was drawn into another one, that one.
pub(crate) fn function_of(text: &[u8]) -> &[u8] {
    let outermost = behind_last(text, b", in ");
    let Some(at) = find(outermost, b" at ") else {
        return outermost;
    };
    match outermost.get(..at) {
        Some(name) => name,
        None => outermost,
    }
}

impl Names {
    /// What is named of a word.
    pub(crate) fn place_of_word(&self, word: &[u8]) -> Option<Place<'_>> {
        if !word.starts_with(b"00") {
            return None;
        }
        let address = hex_word(word)?;
        if address < NULL_PAGE {
            return None;
        }
        self.place_of(address)
    }

    /// A word of a line of frames, or the function in whose place it stands.
    #[tactic(auto, using(crate::proofs::PutLemmas::marks_append, crate::proofs::PutLemmas::named_word))]
    fn push_frame_word(&self, word: &[u8], out: &mut Vec<u8>) -> Result<(), AllocError>
        ensures { OnOk result (marks out.new.items ≡ marks out.old.items ++ marks word.now) }
    {
        if !is_unmarked(word) {
            return out.extend_from_slice(word);
        }
        match self.place_of_word(word) {
            Some(place) if !place.is_data => push_frame(function_of(place.text), out),
            _ => out.extend_from_slice(word),
        }
    }

    /// A word of a timeline, or what is named of it.
    fn push_word(&self, form: Form, word: &[u8], out: &mut Vec<u8>) -> Result<(), AllocError> {
        let Some(place) = self.place_of_word(word) else {
            return out.extend_from_slice(word);
        };
        push_marked_up(form, place.text, out)?;
        push_offset(place.offset, out)
    }

    /// A word, or what stands in its place.
    fn push_either(&self, form: Form, word: &[u8], out: &mut Vec<u8>) -> Result<(), AllocError>
        ensures { form ≡ Form.Frames
            → OnOk result (marks out.new.items ≡ marks out.old.items ++ marks word.now) }
    {
        match form {
            Form::Frames => self.push_frame_word(word, out),
            _ => self.push_word(form, word, out),
        }
    }

    /// What stands before a word, and the word or what stands in its place.
    #[tactic(auto, using(crate::proofs::PutLemmas::marks_append, crate::proofs::PutLemmas::marks_step))]
    fn push_step(
        &self,
        form: Form,
        front: &[u8],
        word: &[u8],
        out: &mut Vec<u8>,
    ) -> Result<(), AllocError>
        ensures { form ≡ Form.Frames → OnOk result
            (marks out.new.items ≡ marks out.old.items ++ marks (front.now ++ word.now)) }
    {
        out.extend_from_slice(front)?;
        self.push_either(form, word, out)
    }

    /// Makes a line with names in the place of its addresses, word by word.
    #[tactic(auto, using(crate::proofs::PutLemmas::marks_append))]
    fn push_words(&self, form: Form, line: &[u8], out: &mut Vec<u8>) -> Result<(), AllocError>
        ensures { form ≡ Form.Frames → OnOk result (marks out.new.items ≡ marks line.now) }
    {
        out.clear();
        let mut rest = line;
        for _ in 0..line.len() {
            if rest.is_empty() {
                break;
            }
            let begin = word_begin(rest, 0);
            let end = word_end(rest, begin);
            let (step, more) = rest.split_at(end);
            let (front, word) = step.split_at(begin);
            self.push_step(form, front, word, out)?;
            rest = more;
        }
        out.extend_from_slice(rest)
    }

    /// Makes a line of a timeline, where the label of a thread has its name too.
    fn push_labelled(&self, form: Form, line: &[u8], out: &mut Vec<u8>) -> Result<(), AllocError> {
        let Some(label) = self.label_of(form, line) else {
            return self.push_words(form, line, out);
        };
        out.clear();
        out.extend_from_slice(label.front)?;
        push_label(form, label.name, out)?;
        out.extend_from_slice(label.back)
    }

    /// Makes a line with names in the place of its addresses, and beside the numbers of threads that label what they did.
    pub(crate) fn push_renamed(
        &self,
        form: Form,
        line: &[u8],
        out: &mut Vec<u8>,
    ) -> Result<(), AllocError>
        ensures { form ≡ Form.Frames → OnOk result (marks out.new.items ≡ marks line.now) }
    {
        match form {
            Form::Frames => self.push_words(form, line, out),
            _ => self.push_labelled(form, line, out),
        }
    }
}
