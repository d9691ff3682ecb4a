//! The profile of events.
ghost use Rattle.std.specs.Prelude.{◌≡◌, ◌⊎◌, ◌<◌, ◌+◌, ◌^◌, IfErr, OnOk, length};
ghost use Rattle.std.specs.Bool.{OnFalse, OnTrue};
ghost use Rattle.std.specs.Io.KnownBytes.{Appends};
ghost use Rattle.ckrt_machine.specs.Events.{AllAccepted};
ghost use Rattle.ckrt_look_calls.specs.Stretches.{IsEventsFault};
ghost use Rattle.ckrt_look_profile.specs.Counts.{behind_all};
ghost use Rattle.ckrt_look_profile.specs.Recorded.{text_of};
ghost use Rattle.ckrt_look_profile.specs.Steps.{notes, of_events};
ghost use Rattle.ckrt_look_profile.specs.Texts.{profile_text};

use crate::counts::Counts;
use crate::form::{Form, write_form};
use crate::walk::{count_event, look_last, meet_all};
use ckrt_events::Event;
use ckrt_inspect::InspectFault;
use ckrt_machine::Machine;
use std::alloc::Global;
use std::io::Write;

/// Makes events, if each is accepted at its turn, and counts their steps, and the waits up to their end.
fn count_events(machine: &mut Machine, events: &[Event], counts: &mut Counts) -> bool
    ensures counted { OnTrue result
        (counts.new ≡ behind_all (of_events events.now machine.old.state) counts.old) }
    ensures accepted { OnTrue result (AllAccepted events.now machine.old.state) }
    ensures refused { OnFalse result (AllAccepted events.now machine.old.state → ⊥) }
{
    for event in events {
        if !event.in_range() || machine.accept(0, event).is_err() {
            return false;
        }
        count_event(machine, event, counts);
    }
    look_last(machine, counts);
    true
}

/// The same, from the threads that there are on.
#[tactic(auto, using(crate::proofs::BehindLemmas::behind_both))]
fn count_all(machine: &mut Machine, events: &[Event], counts: &mut Counts) -> bool
    ensures counted { OnTrue result
        (counts.new ≡ behind_all (notes events.now machine.old.state) counts.old) }
    ensures accepted { OnTrue result (AllAccepted events.now machine.old.state) }
    ensures refused { OnFalse result (AllAccepted events.now machine.old.state → ⊥) }
{
    meet_all(machine, counts);
    count_events(machine, events, counts)
}

/// Makes events, each of which is to be accepted at its turn, and writes their profile: how many steps were made in each function, on each
/// stack of calls and by each thread, and how long threads waited. It takes 60 KB.
///
/// # Errors
///
/// `Damaged` where an event isn't accepted at its turn, `OutOfMemory` where a growth was refused, `Write` where the writer failed.
pub fn write_profile<W: Write>(
    alloc: Global,
    machine: &mut Machine,
    events: &[Event],
    form: Form,
    out: &mut W,
) -> Result<(), InspectFault>
    ensures profile { OnOk result
        (Appends (W.contents out.old) (W.contents out.new)
        (text_of form events.now machine.old.state)) }
    ensures accepted { OnOk result (AllAccepted events.now machine.old.state) }
    ensures fault { IfErr result (IsEventsFault ⊥ events.now machine.old.state) }
{
    let Ok(mut counts) = Counts::new(alloc) else {
        return Err(InspectFault::OutOfMemory);
    };
    if !count_all(machine, events, &mut counts) {
        return Err(InspectFault::Damaged);
    }
    write_form(alloc, form, &counts, out)
}
