//! Sessions of one program over two disks, as the laws of what they answer alike speak of them.
ghost use Rattle.std.specs.Prelude.{◌≡◌, ◌≢◌, ◌==◌, ◌∷◌, List, [], None, IfSome, false, true};
ghost use Rattle.std.specs.List.{list_any};
ghost use Rattle.ckrt_main.specs.Transcript.{transcript};
ghost use Rattle.ckrt_events.specs.Bytes.{IsInRange};
ghost use Rattle.ckrt_events.specs.declared.event.Event.{Event};
ghost use Rattle.ckrt_main.specs.Alike.{NoneIsLocal};
ghost use Rattle.ckrt_recovery.specs.Represents.{Represents, RepresentsDisk};
ghost use Rattle.ckrt_recovery.specs.View.{view_of};
ghost use Rattle.ckrt_stored.specs.Programs.{Program, RecoversTo, RecoversToStart};
ghost use Rattle.ckrt_witness.specs.Alike.{AlikeWitness};

use ckrt_disk::Disk;
use ckrt_events::{Command, Event, parse_command};
use ckrt_main::same_events_are_alike;
use ckrt_recovery::{Session, recover};
use std::alloc::Global;

/// Recovers a disk, takes an event, and commits it: of a formatted disk that is honest in the end the session represents that event, and its
/// disk recovers to it. None where the disk doesn't recover, the event is refused, or the commit fails.
pub fn represent_one<D: Disk + Drop>(alloc: Global, disk: D, event: &Event) -> Option<Session<D>>
    requires { IsInRange event.now }
    ensures { IfSome result (λ session. D.is_honest session.disk
        → (p : Program) → RecoversToStart p (D.content disk)
        → Represents p (event.now ∷ []) session
        × RecoversTo p (event.now ∷ []) session.progress.confirmed (D.content session.disk)) }
{
    let Ok(mut session) = recover(alloc, disk) else {
        return None;
    };
    if session.submit(event).is_err() {
        return None;
    }
    let committed = session.commit();
    if committed.is_err() {
        return None;
    }
    Some(session)
}

/// A session of a disk that recovers.
pub fn represent_again<D: Disk + Drop>(alloc: Global, disk: D) -> Option<Session<D>>
    ensures { IfSome result (λ session. RepresentsDisk disk session) }
{
    let Ok(session) = recover(alloc, disk) else {
        return None;
    };
    Some(session)
}

/// Whether a line feed is among bytes.
fn has_line_feed(bytes: &[u8]) -> bool
    ensures { result ≡ list_any (λ b. b == 10) bytes.now }
{
    bytes.iter().any(|b| *b == b'\n')
}

/// Whether a session takes the event of a line, once it has confirmed its output.
fn takes_event<D: Disk + Drop>(session: Session<D>, line: &[u8]) -> bool
    ensures { result ≡ true
        → NoneIsLocal (transcript None (view_of session) line.now).replies }
{
    if line.is_empty() || has_line_feed(line) {
        return false;
    }
    let Ok(Command::Submit(event)) = parse_command(line) else {
        return false;
    };
    let mut session = session;
    let _confirmed = session.confirmed();
    let released = session.released();
    session.confirm(released);
    session.submit(&event).is_ok()
}

/// Two sessions that represent the same events, and both take the event of a line, meet all premises of the laws. False where one of them
/// doesn't take it.
pub fn answer_alike<D: Disk + Drop, E: Disk + Drop>(
    one: Session<D>,
    other: Session<E>,
    line: &[u8],
) -> bool
    ensures { result ≡ true → (p : Program) (events : List Event) → events ≢ []
        → Represents p events one → Represents p events other
        → AlikeWitness D.Disk E.Disk line.now }
{
    same_events_are_alike(&one, &other);
    if line.is_empty() || !takes_event(one, line) {
        return false;
    }
    takes_event(other, line)
}
