//! What is told of a thread: its name, and where it stands in the user's own code.
ghost use Rattle.std.specs.Prelude.{◌≡◌};
ghost use Rattle.ckrt_cli_names.specs.Rows.{bytes_of, rows_of};

use crate::follower::Follower;
use crate::lines::{cut, number_of, step_of, thread_of};
use crate::names::{NOTE_LIMIT, Names, Place};
use crate::piece::Form;
use crate::renamed::{find, function_of, push_offset};
use crate::scan::word_end;
use ckrt_events::Event;
use ckrt_look_recording::{Call, Frame, call_of, name_of};
use ckrt_machine::Machine;
use ckrt_memory::Memory;
use std::alloc::{AllocError, Global};

/// What stands behind the line of a thread.
#[derive(Drop)]
pub(crate) struct Told {
    thread: u8,
    /// Its name, and where it stands.
    text: Vec<u8>,
    /// How many bytes of that are its name.
    name_size: usize,
    /// Whether it stands in the user's own code, or in a call of that.
    is_led_by_user: bool,
}

/// A line of a timeline that labels what a thread did: what stands before its name, that name, and what stands after it.
#[derive(Clone, Copy)]
pub(crate) struct Label<'a, 'n> {
    pub(crate) front: &'a [u8],
    pub(crate) name: &'n [u8],
    pub(crate) back: &'a [u8],
}

/// A byte of a name, as it is printed.
fn printed(byte: u8) -> u8 {
    if (b' '..=b'~').contains(&byte) {
        byte
    } else {
        b'?'
    }
}

/// A name as it is printed.
fn push_name(name: &[u8], text: &mut Vec<u8>) -> Result<(), AllocError> {
    for byte in name {
        text.push(printed(*byte))?;
    }
    Ok(())
}

/// What stands before a part of a note.
pub(crate) fn push_mark(note: &mut Vec<u8>) -> Result<(), AllocError> {
    note.extend_from_slice(if note.is_empty() {
        b"    # ".as_slice()
    } else {
        b"; ".as_slice()
    })
}

/// Puts what is told of a thread behind a note.
fn push_behind(told: &Told, note: &mut Vec<u8>) -> Result<(), AllocError> {
    if told.text.is_empty() || note.len() >= NOTE_LIMIT {
        return Ok(());
    }
    push_mark(note)?;
    note.extend_from_slice(&told.text)
}

/// What stands between two parts.
fn push_comma(text: &mut Vec<u8>) -> Result<(), AllocError> {
    if text.is_empty() {
        return Ok(());
    }
    text.extend_from_slice(b", ")
}

/// Where a function was called: `called at main.c:92, in worker` of `worker at main.c:92`. Where it is told what that was drawn into, this
/// stands at the end.
fn push_caller(caller: Place<'_>, text: &mut Vec<u8>) -> Result<(), AllocError> {
    let Some((function, place)) = cut(caller.text, b" at ") else {
        text.extend_from_slice(b"called in ")?;
        text.extend_from_slice(caller.text)?;
        return push_offset(caller.offset, text);
    };
    let (line, drawn_into) = cut(place, b", in ").unwrap_or((place, b""));
    text.extend_from_slice(b"called at ")?;
    text.extend_from_slice(line)?;
    text.extend_from_slice(b", in ")?;
    text.extend_from_slice(function)?;
    if drawn_into.is_empty() {
        return Ok(());
    }
    text.extend_from_slice(b", in ")?;
    text.extend_from_slice(drawn_into)
}

/// Where the number of a thread begins in a line that labels what it did.
fn label_at(form: Form, line: &[u8]) -> Option<usize> {
    let (begin, key) = if matches!(form, Form::Picture) {
        (b"<text x=\"4\" ".as_slice(), b"\">thread ".as_slice())
    } else {
        (
            b"{\"name\":\"thread_name\",".as_slice(),
            b"{\"name\":\"thread ".as_slice(),
        )
    };
    if !line.starts_with(begin) {
        return None;
    }
    Some(find(line, key)?.saturating_add(key.len()))
}

impl Names {
    /// Where a thread stands: which function of the kit was called, and where that was.
    fn push_call(
        &self,
        within: u32,
        caller: Place<'_>,
        text: &mut Vec<u8>,
    ) -> Result<(), AllocError> {
        if let Some(place) = self.place_of(within) {
            push_comma(text)?;
            text.extend_from_slice(b"in ")?;
            text.extend_from_slice(function_of(place.text))?;
        }
        push_comma(text)?;
        push_caller(caller, text)
    }

    /// Where a thread stands that is in code of the user, or whose caller isn't known.
    fn push_own(&self, place: u32, text: &mut Vec<u8>) -> Result<(), AllocError> {
        let Some(place) = self.place_of(place) else {
            return Ok(());
        };
        push_comma(text)?;
        text.extend_from_slice(place.text)?;
        push_offset(place.offset, text)
    }

    /// Where a thread stands.
    fn push_standing(
        &self,
        place: u32,
        call: Option<Call>,
        text: &mut Vec<u8>,
    ) -> Result<(), AllocError> {
        if let Some(call) = call {
            if let Some(caller) = self.place_of(call.from) {
                return self.push_call(call.within, caller, text);
            }
        }
        self.push_own(place, text)
    }

    /// The call by which a thread came into the kit.
    fn call_of(&self, memory: &Memory, frame: &Frame) -> Option<Call> {
        call_of(&self.rules.kit, &self.rules.ups, memory, frame)
    }

    /// Whether an address is one of the kit's code.
    fn is_kit(&self, address: u32) -> bool {
        self.rules.kit.iter().any(|stretch| stretch.begin <= address && address < stretch.end)
    }

    /// What is told of a thread, of which its frame is known.
    fn told_at(
        &self,
        alloc: Global,
        memory: &Memory,
        thread: u8,
        frame: &Frame,
    ) -> Result<Told, AllocError> {
        let mut text = Vec::new(alloc);
        if let Some(table) = self.rules.threads {
            push_name(name_of(memory, table, thread), &mut text)?;
        }
        let name_size = text.len();
        let call = self.call_of(memory, frame);
        self.push_standing(frame.place, call, &mut text)?;
        Ok(Told {
            thread,
            text,
            name_size,
            is_led_by_user: call.is_some() || !self.is_kit(frame.place),
        })
    }

    /// Makes what stands behind the line of a thread, of which its frame is known: its name, and where it stands in the user's own code.
    /// It takes the place of what would stand there for the address alone. No row changes.
    pub fn tell_thread(
        &mut self,
        alloc: Global,
        memory: &Memory,
        thread: u8,
        frame: &Frame,
    ) -> Result<(), AllocError>
        ensures rows { rows_of self.new ≡ rows_of self.old }
        ensures bytes { bytes_of self.new ≡ bytes_of self.old }
    {
        let told = self.told_at(alloc, memory, thread, frame)?;
        self.told.push(told)?;
        Ok(())
    }

    /// Forgets what is told of threads.
    pub fn forget_threads(&mut self) {
        self.told.clear();
        self.ended_by = None;
    }

    /// Takes the thread that ended the program by a call: the line of that end tells it.
    pub fn tell_ended_by(&mut self, thread: u8) {
        self.ended_by = Some(thread);
    }

    /// Takes a recording: a machine, behind how many events it is, and the events from there on. The line of each of its steps then tells
    /// where its thread stood.
    pub fn follow(&mut self, alloc: Global, machine: Machine, first: u64, events: Vec<Event>) {
        self.follower = Some(Follower::new(alloc, machine, first, events));
    }

    /// Goes to the step that a line tells of. Where the recording doesn't lead there it is given up.
    fn go_to_step(&mut self, line: &[u8]) -> Option<u8>
        ensures rows { rows_of self.new ≡ rows_of self.old }
        ensures bytes { bytes_of self.new ≡ bytes_of self.old }
    {
        let step = step_of(line)?;
        let follower = self.follower.as_mut()?;
        if follower.go_to(step.event, step.step) {
            return Some(step.thread);
        }
        self.follower = None;
        None
    }

    /// What is told of a thread where the recording stands.
    fn told_there(&self, thread: u8) -> Option<Told> {
        let follower = self.follower.as_ref()?;
        let frame = follower.frame_of(thread)?;
        self.told_at(follower.alloc, follower.memory(), thread, &frame)
            .ok()
    }

    /// Looks where the thread stood of whose step a line tells, in a recording that was taken.
    pub(crate) fn follow_line(&mut self, line: &[u8])
        ensures rows { rows_of self.new ≡ rows_of self.old }
        ensures bytes { bytes_of self.new ≡ bytes_of self.old }
    {
        if self.follower.is_none() {
            return;
        }
        let thread = self.go_to_step(line);
        self.there = thread.and_then(|thread| self.told_there(thread));
    }

    /// Puts what is told of a thread behind the note of its step, where a line of the user led there.
    pub(crate) fn push_there(&self, note: &mut Vec<u8>) -> Result<(), AllocError> {
        match &self.there {
            Some(told) if told.is_led_by_user => push_behind(told, note),
            _ => Ok(()),
        }
    }

    /// Puts what is told of a thread that ended the program into a note: where a line of the user led there.
    pub(crate) fn push_exit(&self, note: &mut Vec<u8>) -> Result<(), AllocError> {
        match self.ended_by.and_then(|thread| self.told_of(thread)) {
            Some(told) if told.is_led_by_user => push_behind(told, note),
            _ => Ok(()),
        }
    }

    /// Puts where each thread stands into a note.
    pub(crate) fn push_all(&self, note: &mut Vec<u8>) -> Result<(), AllocError> {
        let mut digits = itoa::Buffer::new();
        for told in &self.told {
            if told.text.is_empty() || note.len() >= NOTE_LIMIT {
                continue;
            }
            push_mark(note)?;
            note.extend_from_slice(b"thread ")?;
            note.extend_from_slice(digits.format(told.thread).as_bytes())?;
            note.extend_from_slice(b" ")?;
            note.extend_from_slice(&told.text)?;
        }
        Ok(())
    }

    /// Puts what is told of a thread that faulted into a note, and says whether anything is.
    pub(crate) fn push_fault(&self, thread: u8, note: &mut Vec<u8>) -> Result<bool, AllocError> {
        let told = match &self.there {
            Some(told) => Some(told),
            None => self.told_of(thread),
        };
        match told {
            Some(told) if told.thread == thread => {
                push_behind(told, note)?;
                Ok(!told.text.is_empty())
            }
            _ => Ok(false),
        }
    }

    /// What is told of a thread.
    fn told_of(&self, thread: u8) -> Option<&Told> {
        self.told.iter().find(|told| told.thread == thread)
    }

    /// What stands behind this line, where it is that of a thread of which something is told.
    pub(crate) fn told_behind(&self, line: &[u8]) -> Option<&[u8]> {
        let told = self.told_of(thread_of(line)?)?;
        Some(told.text.as_slice())
    }

    /// The parts of a line of a timeline that labels a thread, where that has a name.
    pub(crate) fn label_of<'a>(&self, form: Form, line: &'a [u8]) -> Option<Label<'a, '_>> {
        let at = label_at(form, line)?.min(line.len());
        let end = word_end(line, at);
        let told = self.told_of(number_of(&line[at..end])?)?;
        let name = told.text.as_slice().get(..told.name_size)?;
        if name.is_empty() {
            return None;
        }
        let (front, back) = line.split_at(end);
        Some(Label { front, name, back })
    }
}
