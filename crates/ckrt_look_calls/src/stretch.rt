//! Stretches of what a disk has recorded.
ghost use Rattle.std.specs.Prelude.{◌≡◌, ◌≤◌, ◌<◌, ◌+◌, ◌^◌, false, None, IfErr, IfOk, IfSome, OnOk, length};
ghost use Rattle.std.specs.Bool.{OnFalse, OnTrue};
ghost use Rattle.ckrt_disk.specs.Frame.{IsOnlyRead};
ghost use Rattle.ckrt_inspect.specs.Inspect.{is_device};
ghost use Rattle.ckrt_machine.specs.Events.{AllAccepted};
ghost use Rattle.ckrt_look_recording.specs.Recording.{recorded_of};
ghost use Rattle.ckrt_stored.specs.Reads as reads;
ghost use Rattle.ckrt_stored.specs.Reads.{IsReadAs};
ghost use Rattle.ckrt_look_calls.specs.Stretches.{IsEventsFault, IsReachFault, IsReached, IsWithin, RecordsTo, TellsRecording, TellsStretch, Writes, begin_of, lately, to_of};

use ckrt_disk::Disk;
use ckrt_events::Event;
use ckrt_inspect::InspectFault;
use ckrt_look_recording::{Recording, make_events, read_recording, read_unreplayed};
use ckrt_machine::Machine;
use ckrt_stored::RecoverFault;
use std::alloc::Global;
use std::io::Write;

/// Which events of a disk are told, counted since its formatting.
#[derive(Clone, Copy, Debug, PartialEq, Eq)]
pub struct Stretch {
    /// Those behind the first so many. Where it isn't given they begin at the first one that the disk has.
    pub from: Option<u64>,
    /// Those among the first so many. Where it isn't given they end at the last one.
    pub to: Option<u64>,
    /// Of these the last so many, or all where they are fewer. Where it isn't given all are told.
    pub last: Option<u64>,
}

/// A way of telling events, as a text.
pub trait Telling {
    ghost use Rattle.ckrt_look_calls.specs.Stretches.{Account};

    /// Which text tells of events that are behind so many others, and whether they fill the room of its shadow.
    ghost Tells: { Self → Account };

    /// Makes events, each of which is to be accepted at its turn, and tells them. The first is behind `count` others. A text that is
    /// whole before the last of them is made is told of a damaged disk too, so it's written behind them where it can be.
    ///
    /// # Errors
    ///
    /// `Damaged` where an event isn't accepted at its turn, `ShadowFull` where the events fill the room of its shadow, `OutOfMemory` where a
    /// growth was refused, `Write` where the writer failed.
    fn tell<W: Write>(
        &self,
        alloc: Global,
        machine: &mut Machine,
        count: u64,
        events: &[Event],
        out: &mut W,
    ) -> Result<(), InspectFault>
        requires few { count + length events.now < 2 ^ 64 }
        ensures told { OnOk result
            (Writes ((Tells self.now).IsText count events.now machine.old.state)
            (W.contents out.old) (W.contents out.new)) }
        ensures accepted { OnOk result (AllAccepted events.now machine.old.state) }
        ensures fault { IfErr result
            (IsEventsFault ((Tells self.now).Fills count events.now machine.old.state) events.now
            machine.old.state) };
}

/// Behind how many events the last so many begin.
fn lately(last: Option<u64>, to: u64) -> u64
    ensures place { result ≡ lately last to }
    ensures within { result ≤ to }
{
    match last {
        Some(count) => to.saturating_sub(count),
        None => 0,
    }
}

/// Behind how many events a stretch begins, and how many there are at its end, if it lies within those that are behind `first` others
/// and end with the one that is the `last`th.
fn bounds(stretch: Stretch, first: u64, last: u64) -> Option<(u64, u64)>
    ensures some { IfSome result (λ b. IsWithin stretch first last
        × (b.0 ≡ begin_of stretch first last) × (b.1 ≡ to_of stretch last)) }
    ensures ordered { IfSome result (λ b. (first ≤ b.0) × (b.0 ≤ b.1)) }
    ensures none { result ≡ None → IsWithin stretch first last → ⊥ }
{
    let from = stretch.from.unwrap_or(first);
    let to = stretch.to.unwrap_or(last);
    if first <= from && from <= to && to <= last {
        Some((from.max(lately(stretch.last, to)), to))
    } else {
        None
    }
}

/// Whether each event is accepted at its turn. Those of a stretch with an end of its own were made when they were read.
fn are_accepted(machine: &mut Machine, events: &[Event], to: Option<u64>) -> bool
    ensures accepted { OnTrue result (to ≡ None → AllAccepted events.now machine.old.state) }
    ensures refused { OnFalse result (AllAccepted events.now machine.old.state → ⊥) }
{
    match to {
        Some(_) => true,
        None => make_events(machine, events),
    }
}

/// Makes the events of a recording, which are behind `first` others, up to a stretch of it. The answer is behind how many events the
/// stretch begins, and its events.
///
/// # Errors
///
/// `Range` where the recording hasn't all of the stretch, or that ends before it begins; `Damaged` where an event before the stretch, or
/// any one of a recording that hasn't all of it, isn't accepted at its turn.
fn go_to_stretch<'a>(
    machine: &mut Machine,
    first: u64,
    events: &'a [Event],
    stretch: Stretch,
) -> Result<(u64, &'a [Event]), InspectFault>
    requires few { first + length events.now < 2 ^ 64 }
    ensures reached { IfOk result (λ reached. IsReached stretch (record {
      first = first;
      start = machine.old.state;
      events = events.now;
    }) reached.0 reached.1.now machine.new.state) }
    ensures few { IfOk result (λ reached. reached.0 + length reached.1.now < 2 ^ 64) }
    ensures fault { IfErr result (IsReachFault stretch (record {
      first = first;
      start = machine.old.state;
      events = events.now;
    })) }
{
    let Some((from, to)) = bounds(stretch, first, first + events.len() as u64) else {
        if are_accepted(machine, events, stretch.to) {
            return Err(InspectFault::Range);
        }
        return Err(InspectFault::Damaged);
    };
    let (before, rest) = events.split_at((from - first) as usize);
    let (told, _behind) = rest.split_at((to - from) as usize);
    if !make_events(machine, before) {
        return Err(InspectFault::Damaged);
    }
    Ok((from, told))
}

/// Tells events, and flushes the writer.
fn tell_flushed<T: Telling, W: Write>(
    alloc: Global,
    machine: &mut Machine,
    count: u64,
    events: &[Event],
    telling: &T,
    out: &mut W,
) -> Result<(), InspectFault>
    requires few { count + length events.now < 2 ^ 64 }
    ensures told { OnOk result
        (Writes ((T.Tells telling.now).IsText count events.now machine.old.state)
        (W.contents out.old) (W.contents out.new)) }
    ensures accepted { OnOk result (AllAccepted events.now machine.old.state) }
    ensures fault { IfErr result
        (IsEventsFault ((T.Tells telling.now).Fills count events.now machine.old.state) events.now
        machine.old.state) }
{
    telling.tell(alloc, machine, count, events, out)?;
    match out.flush() {
        Ok(()) => Ok(()),
        Err(_) => Err(InspectFault::Write),
    }
}

/// Tells a stretch of a recording: its events up to the stretch's end are made once.
///
/// # Errors
///
/// `Range` where the recording hasn't all of the stretch, or that ends before it begins; `Damaged` where one of its events isn't accepted at its
/// turn; `ShadowFull` where the stretch fills the room of a shadow; `OutOfMemory` where a growth was refused, `Write` where the writer failed.
pub fn tell_recording<T: Telling, W: Write>(
    alloc: Global,
    recording: Recording,
    stretch: Stretch,
    telling: &T,
    out: &mut W,
) -> Result<(), InspectFault>
    ensures tells { TellsRecording (T.Tells telling.now) stretch (recorded_of recording)
        (W.contents out.old) (W.contents out.new) result }
    ensures device { is_device result ≡ false }
{
    let mut machine = recording.machine;
    let events = recording.events;
    let (from, told) = go_to_stretch(&mut machine, recording.first, events.as_slice(), stretch)?;
    tell_flushed(alloc, &mut machine, from, told, telling, out)
}

/// Reads what a disk has recorded, for a stretch that ends there. Where that is given, events may lie behind it, and they're made before
/// anything is told; else those who tell of it make them to the last, and none is made twice.
fn read_to<D: Disk>(alloc: Global, disk: &mut D, to: Option<u64>) -> Result<Recording, RecoverFault>
    ensures read { IsOnlyRead D.Disk disk.old disk.new (reads.is_device result) }
    ensures exact { IsReadAs D.Disk disk.old disk.new recorded_of result (RecordsTo to) }
{
    match to {
        Some(_) => read_recording(alloc, disk),
        None => read_unreplayed(alloc, disk),
    }
}

/// Tells a stretch of what a disk has recorded. The disk is only read: it is neither written nor synced, at any moment.
///
/// A stretch without an end of its own has each of its events made once. So where one of them isn't accepted, something may be written before
/// `Damaged`, if the way of telling writes before it has made them all.
///
/// # Errors
///
/// `NotFormatted`, `Version` and `Damaged` where the content recovers to no state, the first that applies; `Range` where the disk
/// hasn't recorded all of the stretch, or that ends before it begins; `ShadowFull` where it fills the room of a shadow; `Device` where the disk
/// failed a read, `OutOfMemory` where a growth was refused, `Write` where the writer failed.
pub fn tell_stretch<D: Disk, T: Telling, W: Write>(
    alloc: Global,
    disk: &mut D,
    stretch: Stretch,
    telling: &T,
    out: &mut W,
) -> Result<(), InspectFault>
    ensures read { IsOnlyRead D.Disk disk.old disk.new (is_device result) }
    ensures tells { D.is_honest disk.new
        → TellsStretch (T.Tells telling.now) stretch (D.content disk.old)
        (W.contents out.old) (W.contents out.new) result }
{
    let recording = read_to(alloc, disk, stretch.to)?;
    tell_recording(alloc, recording, stretch, telling, out)
}
