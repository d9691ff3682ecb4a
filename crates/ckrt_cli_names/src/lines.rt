//! Lines that tell of a thread: whose they are, and how a program ended by them.
use crate::renamed::find;
use crate::scan::decimal;

/// A line that tells of a thread at a place of a recording.
#[derive(Clone, Copy)]
pub(crate) struct Step {
    pub(crate) event: u64,
    pub(crate) step: u32,
    pub(crate) thread: u8,
}

/// Of which thread a line tells how it ended.
#[derive(Clone, Copy)]
pub(crate) enum End {
    /// Of none.
    None,
    /// Of all: none can go on.
    Deadlock,
    /// Of that which ended the program.
    Exit,
    /// Of this one, which faulted.
    Fault(u8),
}

/// The parts of a text before and after a key, which stands in it.
pub(crate) fn cut<'a>(text: &'a [u8], key: &[u8]) -> Option<(&'a [u8], &'a [u8])> {
    let at = find(text, key)?;
    Some((text.get(..at)?, text.get(at.saturating_add(key.len())..)?))
}

/// The number of a thread.
pub(crate) fn number_of(digits: &[u8]) -> Option<u8> {
    u8::try_from(decimal(digits)?).ok()
}

/// What stands behind the place that a line begins with: `thread 2 ..` or `fault 2 ..` of `13+4 thread 2 ..`.
fn behind_place(line: &[u8]) -> Option<(u64, u32, &[u8])> {
    let (place, rest) = cut(line, b" ")?;
    let (event, step) = cut(place, b"+")?;
    let step = u32::try_from(decimal(step)?).ok()?;
    Some((decimal(event)?, step, rest))
}

/// The step that a line tells of, with its thread.
pub(crate) fn step_of(line: &[u8]) -> Option<Step> {
    let (event, step, rest) = behind_place(line)?;
    let thread = match fault_of(rest) {
        Some(thread) => thread,
        None => thread_of(rest)?,
    };
    Some(Step {
        event,
        step,
        thread,
    })
}

/// The thread of a fault.
fn fault_of(text: &[u8]) -> Option<u8> {
    let (digits, _) = cut(text.strip_prefix(b"fault ".as_slice())?, b" ")?;
    number_of(digits)
}

/// What stands behind one of these beginnings of a line.
fn behind_end(line: &[u8]) -> Option<&[u8]> {
    if let Some(rest) = line.strip_prefix(b"ended: ".as_slice()) {
        return Some(rest);
    }
    if let Some(rest) = line.strip_prefix(b"status ".as_slice()) {
        return Some(rest);
    }
    let (_, _, rest) = behind_place(line)?;
    Some(rest)
}

/// How a program ended, by this line.
pub(crate) fn end_of(line: &[u8]) -> End {
    if line == b"deadlock".as_slice() {
        return End::Deadlock;
    }
    if line.starts_with(b"ended: exit ") {
        return End::Exit;
    }
    match behind_end(line).and_then(fault_of) {
        Some(thread) => End::Fault(thread),
        None => End::None,
    }
}

/// The number of the thread whose line this is.
pub(crate) fn thread_of(line: &[u8]) -> Option<u8> {
    let rest = line.strip_prefix(b"thread ".as_slice())?;
    let (digits, _) = cut(rest, b" ")?;
    number_of(digits)
}
