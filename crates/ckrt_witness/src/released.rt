//! Output that is released, and then more of it, as the law that lines of output agree speaks of them.
ghost use Rattle.std.specs.Prelude.{◌≡◌, ◌<◌, ◌∷◌, ◌++◌, List, [], IfSome, true};
ghost use Rattle.ckrt_events.specs.Bytes.{IsInRange};
ghost use Rattle.ckrt_events.specs.declared.event.Event.{Event};
ghost use Rattle.ckrt_recovery.specs.Represents.{Represents};
ghost use Rattle.ckrt_stored.specs.Programs.{Program, RecoversToStart};
ghost use Rattle.ckrt_witness.specs.Lines.{LinesWitness};

use ckrt_disk::Disk;
use ckrt_events::Event;
use ckrt_main::output_goes_on;
use ckrt_recovery::{Session, recover};
use std::alloc::Global;

/// Takes two events and commits them, with all output that they put. False where one is refused, or the commit fails.
fn commit_two<D: Disk>(session: &mut Session<D>, first: &Event, second: &Event) -> bool
    requires first { IsInRange first.now }
    requires second { IsInRange second.now }
    ensures represents { result ≡ true → D.is_honest session.new.disk
        → (p : Program) (events : List Event) → Represents p events session.old
        → Represents p ((events ++ first.now ∷ []) ++ second.now ∷ []) session.new }
    ensures acknowledged { result ≡ true
        → session.new.acknowledged ≡ session.new.progress.count }
    ensures honest { result ≡ true → D.is_honest session.new.disk
        → D.is_honest session.old.disk }
{
    if session.submit(first).is_err() {
        return false;
    }
    if session.submit(second).is_err() {
        return false;
    }
    session.commit().is_ok()
}

/// Recovers a disk, takes two events and commits them, and then takes two more: of a formatted disk that is honest in the end that meets all
/// premises of the law. The session; None where the disk doesn't recover, an event is refused, or either two of them put nothing.
pub fn release_twice<D: Disk + Drop>(
    alloc: Global,
    disk: D,
    first: (&Event, &Event),
    second: (&Event, &Event),
) -> Option<Session<D>>
    requires first { IsInRange first.0.now }
    requires also_first { IsInRange first.1.now }
    requires second { IsInRange second.0.now }
    requires also_second { IsInRange second.1.now }
    ensures { IfSome result (λ session. D.is_honest session.disk → (p : Program)
        → RecoversToStart p (D.content disk) → LinesWitness p) }
{
    output_goes_on();
    let Ok(mut session) = recover(alloc, disk) else {
        return None;
    };
    if !commit_two(&mut session, first.0, first.1) {
        return None;
    }
    let confirmed = session.confirmed();
    let released = session.released();
    if released <= confirmed {
        return None;
    }
    if !commit_two(&mut session, second.0, second.1) {
        return None;
    }
    if session.released() <= released {
        return None;
    }
    Some(session)
}
