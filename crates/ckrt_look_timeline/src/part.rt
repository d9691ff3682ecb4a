//! Parts of a text.
ghost use Rattle.std.specs.Prelude.{◌≡◌, OnOk};
ghost use Rattle.std.specs.Io.KnownBytes.{Appends};
ghost use Rattle.ckrt_look_timeline.specs.Parts.{part_text, parts_text};
ghost use Rattle.ckrt_look_timeline.specs.Words.{kind_of, object_of, size_of, words_of};

use crate::piece::Activity;
use ckrt_look_calls::{write_hex, write_number};
use std::io::{Result, Write};

/// A part of a text.
#[derive(Clone, Copy, Debug)]
pub(crate) enum Part<'a> {
    /// As it stands.
    Text(&'a [u8]),
    /// A number in decimal.
    Number(u64),
    /// The word for the kind of an activity.
    Kind(Activity),
    /// What a thread does, in words.
    Words(Activity),
    /// The number or the address behind these, where there is one.
    Object(Activity),
    /// The height of a bar, and where it stands in its row.
    Size(Activity),
}

/// The word for the kind of an activity.
fn kind_of(activity: Activity) -> &'static [u8]
    ensures { result.now ≡ kind_of activity }
{
    match activity {
        Activity::Absent => b"absent".as_slice(),
        Activity::Ended => b"ended".as_slice(),
        Activity::Ready => b"ready".as_slice(),
        Activity::Running(_) => b"running".as_slice(),
        Activity::Mutex(_) => b"mutex".as_slice(),
        Activity::Condition(_) => b"condition".as_slice(),
        Activity::Barrier(_) => b"barrier".as_slice(),
        Activity::RwLock(_) => b"rwlock".as_slice(),
        Activity::Join(_) => b"join".as_slice(),
        Activity::Input => b"input".as_slice(),
        Activity::Sleep => b"sleep".as_slice(),
    }
}

/// The height of a bar, and where it stands in its row.
fn size_of(activity: Activity) -> &'static [u8]
    ensures { result.now ≡ size_of activity }
{
    match activity {
        Activity::Ready => b"y=\"7\" height=\"2\"".as_slice(),
        _ => b"y=\"0\" height=\"16\"".as_slice(),
    }
}

/// What a thread does, in words.
fn words_of(activity: Activity) -> &'static [u8]
    ensures { result.now ≡ words_of activity }
{
    match activity {
        Activity::Absent => b"isn't there".as_slice(),
        Activity::Ended => b"has ended".as_slice(),
        Activity::Ready => b"is ready".as_slice(),
        Activity::Running(_) => b"runs on hart ".as_slice(),
        Activity::Mutex(_) => b"waits for mutex ".as_slice(),
        Activity::Condition(_) => b"waits for condition ".as_slice(),
        Activity::Barrier(_) => b"waits at barrier ".as_slice(),
        Activity::RwLock(_) => b"waits for read-write lock ".as_slice(),
        Activity::Join(_) => b"waits to join thread ".as_slice(),
        Activity::Input => b"waits for input".as_slice(),
        Activity::Sleep => b"sleeps".as_slice(),
    }
}

/// The number or the address behind the words for an activity.
#[tactic(auto, using(ckrt_look_calls::proofs::AppendLemmas::appends_none))]
fn write_object<W: Write>(out: &mut W, activity: Activity) -> Result<()>
    ensures { OnOk result
        (Appends (W.contents out.old) (W.contents out.new) (object_of activity)) }
{
    match activity {
        Activity::Running(hart) => write_number(out, u64::from(hart)),
        Activity::Join(thread) => write_number(out, u64::from(thread)),
        Activity::Mutex(address) => write_hex(out, address),
        Activity::Condition(address) => write_hex(out, address),
        Activity::Barrier(address) => write_hex(out, address),
        Activity::RwLock(address) => write_hex(out, address),
        _ => Ok(()),
    }
}

/// A part.
fn write_part<W: Write>(out: &mut W, part: &Part<'_>) -> Result<()>
    ensures { OnOk result
        (Appends (W.contents out.old) (W.contents out.new) (part_text part.now)) }
{
    match part {
        Part::Text(text) => out.write_all(text),
        Part::Number(number) => write_number(out, *number),
        Part::Kind(activity) => out.write_all(kind_of(*activity)),
        Part::Words(activity) => out.write_all(words_of(*activity)),
        Part::Object(activity) => write_object(out, *activity),
        Part::Size(activity) => out.write_all(size_of(*activity)),
    }
}

/// Parts one behind another.
#[tactic(auto, using(ckrt_look_calls::proofs::AppendLemmas::appends_none, ckrt_look_calls::proofs::AppendLemmas::appends_more, ckrt_look_calls::proofs::AppendLemmas::appends_all))]
pub(crate) fn write_parts<W: Write>(out: &mut W, parts: &[Part<'_>]) -> Result<()>
    ensures { OnOk result
        (Appends (W.contents out.old) (W.contents out.new) (parts_text parts.now)) }
{
    for part in parts {
        write_part(out, part)?;
    }
    Ok(())
}
