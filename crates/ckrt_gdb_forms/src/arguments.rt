//! The arguments of packets.
ghost use Rattle.std.specs.Prelude.{◌≡◌, ◌++◌, option_map};
ghost use Rattle.ckrt_gdb_forms.specs.Requests.{choice_of, mark_of, mark_of_kind, motion_among, motion_by, motion_of, pair_of, parts_of, target_of, text_of};

use crate::numbers::number;
use crate::parts::split_at;
use crate::request::{Choice, Mark, Motion, TEXT_LIMIT, Text};
use arrayvec::ArrayVec;

/// Two numbers with a comma between them.
pub(crate) fn pair(word: &[u8]) -> Option<(u32, u32)>
    ensures { result ≡ pair_of word.now }
{
    let (first, second) = split_at(word, b',');
    let second = second?;
    Some((number(first)?, number(second)?))
}

/// Threads by a number.
pub(crate) fn choice(word: &[u8]) -> Option<Choice>
    ensures { result ≡ choice_of word.now }
{
    if word == b"-1".as_slice() {
        return Some(Choice::All);
    }
    let id = number(word)?;
    if id == 0 {
        Some(Choice::Any)
    } else {
        Some(Choice::One(id))
    }
}

/// The text that pairs of digits write.
pub(crate) fn text(word: &[u8]) -> Option<Text>
    ensures { option_map (λ t. t.items) result ≡ text_of word.now }
{
    if word.len() > 2 * TEXT_LIMIT {
        return None;
    }
    let mut bytes = [0u8; TEXT_LIMIT];
    let count = word.len() / 2;
    if hex::decode_to_slice(word, &mut bytes[..count]).is_err() {
        return None;
    }
    let mut text = ArrayVec::new();
    match text.try_extend_from_slice(&bytes[..count]) {
        Ok(()) => Some(text),
        Err(_) => unreachable!(),
    }
}

/// Where gdb wants a stop.
pub(crate) fn mark(kind: &[u8], args: &[u8]) -> Option<Mark>
    ensures { result ≡ mark_of kind.now args.now }
{
    let (address, size) = pair(args)?;
    mark_of_kind(kind, address, size)
}

fn mark_of_kind(kind: &[u8], address: u32, size: u32) -> Option<Mark>
    ensures { result ≡ mark_of_kind kind.now address size }
{
    if kind == b"0".as_slice() || kind == b"1".as_slice() {
        Some(Mark::Execution(address))
    } else if kind == b"2".as_slice() {
        Some(Mark::Writes(address, size))
    } else if kind == b"3".as_slice() {
        Some(Mark::Reads(address, size))
    } else if kind == b"4".as_slice() {
        Some(Mark::Accesses(address, size))
    } else {
        None
    }
}

/// The first motion that steps a thread, or on.
pub(crate) fn motion(actions: &[u8]) -> Option<Motion>
    ensures { result ≡ motion_among (parts_of actions.now) }
{
    let (word, rest) = split_at(actions, b';');
    let motion = one_motion(word)?;
    match (motion, rest) {
        (Motion::Continue, Some(rest)) => self::motion(rest),
        _ => Some(motion),
    }
}

fn one_motion(word: &[u8]) -> Option<Motion>
    ensures { result ≡ motion_of word.now }
{
    let (what, whom) = split_at(word, b':');
    let choice = match whom {
        Some(whom) => choice(whom)?,
        None => Choice::Any,
    };
    motion_by(choice, what)
}

fn motion_by(choice: Choice, what: &[u8]) -> Option<Motion>
    ensures { result ≡ motion_by choice what.now }
{
    let [letter, range @ ..] = what else {
        return None;
    };
    match *letter {
        b'c' | b'C' => Some(Motion::Continue),
        b's' | b'S' => Some(Motion::Step(choice)),
        b'r' => {
            let (from, to) = pair(range)?;
            Some(Motion::StepOut(from, to, choice))
        }
        _ => None,
    }
}
