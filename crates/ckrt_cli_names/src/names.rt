//! The names of a guest's source.
ghost use Rattle.std.specs.Prelude.{◌≡◌, ◌<◌, ◌↔◌, [], IsTrue, IfOk, IfSome, Err, Contains, vec_len};
ghost use Rattle.ckrt_cli_names.specs.Rows.{HasNone, IsInOrder, LiesIn, bytes_of, rows_of};

use crate::fault::NamesFault;
use crate::follower::Follower;
use crate::lines::{End, end_of};
use crate::renamed::push_offset;
use crate::rows::{Head, Row, read_head, read_rows};
use crate::rules::Rules;
use crate::scan::{MOST, Scan, most_of};
use crate::told::{Told, push_mark};
use std::alloc::{AllocError, Global};

/// The names of a program's addresses.
#[derive(Drop)]
pub struct Names {
    bytes: Vec<u8>,
    head: Head,
    pub(crate) rows: Vec<Row>,
    pub(crate) rules: Rules,
    /// What is told of threads.
    pub(crate) told: Vec<Told>,
    /// The thread that ended the program by a call.
    pub(crate) ended_by: Option<u8>,
    /// A recording that is made beside the lines.
    pub(crate) follower: Option<Follower>,
    /// What is told of the thread of a line, where that recording stands.
    pub(crate) there: Option<Told>,
}

/// What is named of an address.
#[derive(Clone, Copy)]
pub(crate) struct Place<'a> {
    pub(crate) text: &'a [u8],
    /// How far from the begin of its row the address is, where that is told; else 0.
    pub(crate) offset: u32,
    /// Whether it is a variable, or a part of one.
    pub(crate) is_data: bool,
}

/// How many bytes of a file of names are taken.
pub const SIZE_LIMIT: usize = 67_108_864;

/// How many bytes a note has at most.
pub(crate) const NOTE_LIMIT: usize = 4_096;

impl Names {
    /// No names.
    pub fn none(alloc: Global) -> Names
        ensures { HasNone result }
    {
        Names {
            bytes: Vec::new(alloc),
            head: Head {
                digest: [0; 32],
                length: 0,
                has_rules: false,
            },
            rows: Vec::new(alloc),
            rules: Rules::none(alloc),
            told: Vec::new(alloc),
            ended_by: None,
            follower: None,
            there: None,
        }
    }

    /// The names that a file has, whose bytes they keep.
    pub fn parse(alloc: Global, bytes: Vec<u8>) -> Result<Names, NamesFault>
        ensures bytes { IfOk result (λ names. bytes_of names ≡ bytes.items) }
        ensures order { IfOk result (λ names. IsInOrder (rows_of names)) }
        ensures large { SIZE_LIMIT < vec_len bytes → result ≡ Err NamesFault.TooLarge }
    {
        if bytes.len() > SIZE_LIMIT {
            return Err(NamesFault::TooLarge);
        }
        let Some(head) = read_head(&bytes) else {
            return Err(NamesFault::NoNames);
        };
        let (rows, at) = read_rows(alloc, &bytes)?;
        if !head.has_rules && at < bytes.len() {
            return Err(NamesFault::Row(at as u64));
        }
        let rules = Rules::read(alloc, &bytes, at)?;
        Ok(Names {
            bytes,
            head,
            rows,
            rules,
            told: Vec::new(alloc),
            ended_by: None,
            follower: None,
            there: None,
        })
    }

    /// The bytes of their file, none where there are no names.
    pub fn bytes(&self) -> &[u8]
        ensures { result.now ≡ bytes_of self.now }
    {
        self.bytes.as_slice()
    }

    /// The SHA-256 digest of the image that they are of.
    pub fn digest(&self) -> [u8; 32]
        ensures { result ≡ self.now.head.digest }
    {
        self.head.digest
    }

    /// How many bytes that image has.
    pub fn length(&self) -> u32
        ensures { result ≡ self.now.head.length }
    {
        self.head.length
    }

    /// Whether there are rules among them, by which threads can be told.
    pub fn have_rules(&self) -> bool
        ensures { result ≡ self.now.head.has_rules }
    {
        self.head.has_rules
    }

    /// Whether there are none.
    pub(crate) fn is_empty(&self) -> bool
        ensures { IsTrue result ↔ (self.now.rows.items ≡ []) }
    {
        self.rows.is_empty()
    }

    /// The row that an address lies in.
    fn row_of(&self, address: u32) -> Option<Row>
        ensures inside { IfSome result (λ row. LiesIn address row) }
        ensures known { IfSome result (λ row. Contains (rows_of self.now) row) }
    {
        let count = self.rows.partition_point(|row| row.begin <= address);
        if count == 0 {
            return None;
        }
        let row = self.rows[count - 1];
        if row.begin <= address && address < row.end {
            Some(row)
        } else {
            None
        }
    }

    /// What is named of an address.
    pub(crate) fn place_of(&self, address: u32) -> Option<Place<'_>> {
        let row = self.row_of(address)?;
        let text = self.bytes.as_slice().get(row.text_at..row.text_end)?;
        let offset = if row.tells_offset {
            address.saturating_sub(row.begin)
        } else {
            0
        };
        Some(Place {
            text,
            offset,
            is_data: row.tells_offset,
        })
    }

    /// Puts the text of an address behind those of a note.
    fn push_place(&self, address: u32, note: &mut Vec<u8>) -> Result<(), AllocError> {
        let Some(place) = self.place_of(address) else {
            return Ok(());
        };
        if note.len() >= NOTE_LIMIT || place.text.len() > NOTE_LIMIT {
            return Ok(());
        }
        push_mark(note)?;
        note.extend_from_slice(place.text)?;
        push_offset(place.offset, note)
    }

    /// Puts the texts of a line's addresses into a note, behind the first so many.
    fn push_places(
        &self,
        line: &[u8],
        passed: usize,
        note: &mut Vec<u8>,
    ) -> Result<(), AllocError> {
        let mut scan = Scan::new(line);
        let mut seen = [0u32; MOST];
        for index in 0..most_of(line) {
            let Some(address) = scan.next_address() else {
                return Ok(());
            };
            if index >= passed && !seen[..index].contains(&address) {
                self.push_place(address, note)?;
            }
            seen[index] = address;
        }
        Ok(())
    }

    /// Puts what is told of a fault into a note: of its thread, in place of the text of its pc, which is the line's first address; and the
    /// texts of the others.
    fn push_faulted(&self, line: &[u8], thread: u8, note: &mut Vec<u8>) -> Result<(), AllocError> {
        let is_told = self.push_fault(thread, note)?;
        self.push_places(line, usize::from(is_told), note)
    }

    /// Puts the texts of a line's addresses into a note, and what is told of the thread of its step.
    fn push_stepped(&self, line: &[u8], note: &mut Vec<u8>) -> Result<(), AllocError> {
        self.push_places(line, 0, note)?;
        self.push_there(note)
    }

    /// Puts what is told of a line into a note: how the program ended, or the texts of its addresses.
    fn push_ended(&self, line: &[u8], note: &mut Vec<u8>) -> Result<(), AllocError> {
        match end_of(line) {
            End::Deadlock => self.push_all(note),
            End::Exit => self.push_exit(note),
            End::Fault(thread) => self.push_faulted(line, thread, note),
            End::None => self.push_stepped(line, note),
        }
    }

    /// Puts what is told of a line into a note: of its thread, where that is known of a listing.
    fn push_told(&self, line: &[u8], note: &mut Vec<u8>) -> Result<(), AllocError> {
        let Some(told) = self.told_behind(line) else {
            return self.push_ended(line, note);
        };
        if told.is_empty() {
            return Ok(());
        }
        note.extend_from_slice(b"    # ")?;
        note.extend_from_slice(told)
    }

    /// Puts what is told of a line into a note, and what was told of it elsewhere.
    fn push_with(
        &self,
        line: &[u8],
        elsewhere: &[u8],
        note: &mut Vec<u8>,
    ) -> Result<(), AllocError> {
        self.push_told(line, note)?;
        note.extend_from_slice(elsewhere)
    }

    /// Makes the note of a line: what is told of its thread, or the texts of its addresses, each once; and what was told of it elsewhere. Where
    /// memory is refused it has none.
    pub(crate) fn push_note(&self, line: &[u8], elsewhere: &[u8], note: &mut Vec<u8>)
        ensures none { self.now.rows.items ≡ [] → note.new.items ≡ [] }
    {
        note.clear();
        if self.rows.is_empty() {
            return;
        }
        if self.push_with(line, elsewhere, note).is_err() {
            note.clear();
        }
    }

    /// The note of a line, with all that stands before it.
    pub fn note_of(&self, alloc: Global, line: &[u8]) -> Vec<u8> {
        let mut note = Vec::new(alloc);
        self.push_note(line, &[], &mut note);
        note
    }
}
