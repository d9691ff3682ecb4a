//! The steps of many events.
ghost use Rattle.std.specs.Prelude.{◌≡◌, ◌<◌, ◌+◌, ◌^◌, false, true, IfErr, OnOk, length};
ghost use Rattle.ckrt_machine.specs.Events.{AllAccepted, fold};
ghost use Rattle.ckrt_look_calls.specs.Stretches.{IsEventsFault};
ghost use Rattle.ckrt_look_calls.specs.Walks.{after_events};

use crate::walk::watch_event;
use crate::watcher::StepWatcher;
use ckrt_events::Event;
use ckrt_inspect::InspectFault;
use ckrt_machine::Machine;

/// Makes events, each of which is to be accepted at its turn, as long as the room of what looks at them isn't used up. The first is after `count`
/// others. It takes no memory.
///
/// # Errors
///
/// `Damaged` where an event isn't accepted at its turn, `ShadowFull` where the room is used up.
pub fn watch_events<W: StepWatcher>(
    machine: &mut Machine,
    count: u64,
    events: &[Event],
    watcher: &mut W,
) -> Result<(), InspectFault>
    requires few { count + length events.now < 2 ^ 64 }
    requires left { W.used_up watcher.old ≡ false }
    ensures watched { OnOk result (watcher.new
        ≡ after_events W.after count events.now machine.old.state watcher.old) }
    ensures left { OnOk result (W.used_up watcher.new ≡ false) }
    ensures state { OnOk result
        (machine.new.state ≡ (fold events.now machine.old.state).state) }
    ensures accepted { OnOk result (AllAccepted events.now machine.old.state) }
    ensures fault { IfErr result (IsEventsFault (W.used_up
        (after_events W.after count events.now machine.old.state watcher.old) ≡ true)
        events.now machine.old.state) }
{
    let mut done = count;
    for event in events {
        if !event.in_range() || machine.accept(0, event).is_err() {
            return Err(InspectFault::Damaged);
        }
        watch_event(machine, done, event, watcher);
        if watcher.is_used_up() {
            return Err(InspectFault::ShadowFull);
        }
        done += 1;
    }
    Ok(())
}
