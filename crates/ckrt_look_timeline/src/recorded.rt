//! The timeline of events.
ghost use Rattle.std.specs.Prelude.{◌≡◌, true, ◌⊎◌, ◌≤◌, ◌<◌, ◌+◌, ◌*◌, ◌^◌, ◌++◌, ◌∷◌, [], None, IfErr, OnOk, length};
ghost use Rattle.std.specs.Io.KnownBytes.{Appends};
ghost use Rattle.ckrt_events.specs.Bytes.{IsInRange};
ghost use Rattle.ckrt_machine.specs.Events.{AllAccepted, refusal_of, step};
ghost use Rattle.ckrt_look_calls.specs.Stretches.{IsEventsFault, Writes};
ghost use Rattle.ckrt_look_timeline.specs.Charts.{chart_text};
ghost use Rattle.ckrt_look_timeline.specs.Widths.{is_width};
ghost use Rattle.ckrt_look_timeline.specs.Recorded.{IsDrawing};
ghost use Rattle.ckrt_look_timeline.specs.Pieces.{tracks_of};
ghost use Rattle.ckrt_look_timeline.specs.Tracks.{AreUpTo, GoesOn, IsWhole, begins_of, in_event, in_events};

use crate::chart::{rows_in, write_chart};
use crate::page::Chart;
use crate::shares::span_of;
use crate::timeline::{Timeline, no_steps};
use crate::walk::watch_event;
use crate::words::Form;
use ckrt_events::Event;
use ckrt_inspect::InspectFault;
use ckrt_machine::Machine;
use std::alloc::{AllocError, Global};
use std::io::Write;

/// How a timeline is told.
#[derive(Clone, Copy, Debug, PartialEq, Eq)]
pub struct Style {
    /// A picture, or trace events.
    pub form: Form,
    /// The width of a picture, in pixels: 400 to 4,000.
    pub width: u32,
}

/// Of how many events a timeline is made, at most: no disk has recorded more.
const MAX_EVENTS: usize = 0x7fff_0000;

/// Makes an event, and notes behind how many steps it begins.
fn watch_next(
    machine: &mut Machine,
    event: &Event,
    timeline: &mut Timeline,
    begins: &mut Vec<u64>,
) -> Result<(), AllocError>
    requires in_range { IsInRange event.now }
    requires accepted { refusal_of 0 event.now machine.old.state ≡ None }
    requires whole { IsWhole timeline.old }
    requires few { timeline.old.steps + 4294967295 < 2 ^ 64 }
    ensures state { OnOk result (machine.new.state ≡ (step event.now machine.old.state).state) }
    ensures goes_on { OnOk result
        (GoesOn (λ i. in_event (i + 1) event.now machine.old.state) timeline.old timeline.new) }
    ensures steps { OnOk result (timeline.new.steps ≤ timeline.old.steps + 4294967295) }
    ensures begins { OnOk result (begins.new.items ≡ begins.old.items ++ timeline.old.steps ∷ []) }
{
    begins.push(timeline.steps)?;
    watch_event(machine, event, timeline)
}

/// Makes events, each of which is to be accepted at its turn, and notes what each thread did, and where each event begins.
fn watch_events(
    machine: &mut Machine,
    events: &[Event],
    timeline: &mut Timeline,
    begins: &mut Vec<u64>,
) -> Result<(), InspectFault>
    requires whole { IsWhole timeline.old }
    requires begun { timeline.old.steps ≡ 0 }
    requires few { length events.now ≤ 2147418112 }
    ensures goes_on { OnOk result
        (GoesOn (λ i. in_events (i + 1) events.now machine.old.state) timeline.old timeline.new) }
    ensures steps { OnOk result (timeline.new.steps ≤ 4294967295 * length events.now) }
    ensures begins { OnOk result
        (begins.new.items ≡ begins.old.items ++ begins_of 0 events.now machine.old.state) }
    ensures accepted { OnOk result (AllAccepted events.now machine.old.state) }
    ensures fault { IfErr result (IsEventsFault ⊥ events.now machine.old.state) }
{
    for event in events {
        if !event.in_range() || machine.accept(0, event).is_err() {
            return Err(InspectFault::Damaged);
        }
        let Ok(()) = watch_next(machine, event, timeline, begins) else {
            return Err(InspectFault::OutOfMemory);
        };
    }
    Ok(())
}

/// Writes a timeline.
fn write_tracks<W: Write>(
    out: &mut W,
    form: Form,
    chart: &Chart,
    begins: &[u64],
    timeline: &Timeline,
) -> Result<(), InspectFault>
    requires events { length begins.now ≤ chart.now.events }
    requires begins { AreUpTo chart.now.steps begins.now }
    requires whole { IsWhole timeline.now }
    requires few { timeline.now.steps < 2 ^ 63 }
    ensures written { OnOk result (Appends (W.contents out.old) (W.contents out.new)
        (chart_text form chart.now begins.now (tracks_of timeline.now.tracks.items))) }
    ensures fault { IfErr result (λ e. e ≡ InspectFault.Write) }
{
    match write_chart(out, form, chart, begins, timeline.tracks.as_slice()) {
        Ok(()) => Ok(()),
        Err(_) => Err(InspectFault::Write),
    }
}

/// Makes events, each of which is to be accepted at its turn, and writes what each thread did at each of their steps: as a picture, or as
/// trace events. The first event is behind `count` others. It takes 16 bytes for each piece of a thread, and 8 for each event.
///
/// # Errors
///
/// `Damaged` where an event isn't accepted at its turn; `OutOfMemory` where a growth was refused, or there are more than 2,147,418,112
/// events, as no disk has; `Write` where the writer failed.
pub fn write_timeline<W: Write>(
    alloc: Global,
    machine: &mut Machine,
    count: u64,
    events: &[Event],
    style: Style,
    out: &mut W,
) -> Result<(), InspectFault>
    requires fits { is_width style.width ≡ true }
    requires few { count + length events.now < 2 ^ 64 }
    ensures draws { OnOk result
        (Writes (IsDrawing style count events.now machine.old.state) (W.contents out.old)
        (W.contents out.new)) }
    ensures accepted { OnOk result (AllAccepted events.now machine.old.state) }
    ensures fault { IfErr result (IsEventsFault ⊥ events.now machine.old.state) }
{
    if events.len() > MAX_EVENTS {
        return Err(InspectFault::OutOfMemory);
    }
    let Ok(mut timeline) = no_steps(alloc) else {
        return Err(InspectFault::OutOfMemory);
    };
    let mut begins = Vec::new(alloc);
    watch_events(machine, events, &mut timeline, &mut begins)?;
    let tracks = timeline.tracks.as_slice();
    let rows = rows_in(tracks);
    let span = span_of(style.form, tracks, rows, timeline.steps);
    let chart = Chart {
        width: u64::from(style.width),
        first: count,
        events: events.len() as u64,
        steps: timeline.steps,
        rows,
        span,
    };
    write_tracks(out, style.form, &chart, begins.as_slice(), &timeline)
}
