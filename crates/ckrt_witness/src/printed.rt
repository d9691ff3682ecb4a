//! Runs of a disk and services of lines, as the laws of what was printed and told speak of them.
ghost use Rattle.std.specs.Prelude.{◌≡◌, ◌≢◌, ◌∷◌, ◌≤◌, ◌<◌, ℕ, List, [], IfSome, true};
ghost use Rattle.ckrt_recovery.specs.Accepts.{Accepts};
ghost use Rattle.ckrt_disk.specs.Disk.{HasFailed};
ghost use Rattle.ckrt_events.specs.Bytes.{IsInRange};
ghost use Rattle.ckrt_events.specs.declared.event.Event.{Event};
ghost use Rattle.ckrt_cli_disk.specs.Printing.{HoldsEvents};
ghost use Rattle.ckrt_stored.specs.Programs.{Program, RecoversToStart};
ghost use Rattle.ckrt_witness.specs.Printed.{PrintedWitness, ToldWitness, UnrecoveredWitness};

use crate::service::are_some;
use ckrt_cli_disk::run_disk;
use ckrt_cli_reports::JobFault;
use ckrt_disk::Disk;
use ckrt_events::Event;
use ckrt_main::serve;
use ckrt_recovery::{RecoverFault, Session, recover};
use std::alloc::Global;

/// Recovers a disk, takes an event and commits it: an honest disk that was formatted holds that event then. None where the disk didn't recover,
/// the event was refused, or the commit failed.
pub fn hold_one<D: Disk + Drop>(alloc: Global, disk: D, event: &Event) -> Option<D>
    requires { IsInRange event.now }
    ensures { IfSome result (λ end. D.is_honest end → (p : Program)
        → RecoversToStart p (D.content disk)
        → HoldsEvents D.Disk p (event.now ∷ []) end) }
{
    let Ok(mut session) = recover(alloc, disk) else {
        return None;
    };
    if session.submit(event).is_err() {
        return None;
    }
    let committed = session.commit();
    if committed.is_err() {
        return None;
    }
    Some(session.into_disk())
}

/// Runs a disk with lines that it serves to their end: of an honest disk that holds events and fails no call, that meets all premises of the laws
/// of runs. The disk; None where the run ended early, or nothing was written.
pub fn run_one<D: Disk + Drop>(alloc: Global, disk: D, lines: &[u8]) -> Option<D>
    ensures { IfSome result (λ end.
        D.is_honest end → ¬ HasFailed (D.failures disk) (D.failures end)
        → (p : Program) (before : List Event) → before ≢ []
        → HoldsEvents D.Disk p before disk → PrintedWitness D.Disk p) }
{
    let mut reader = lines;
    let mut writer = Vec::new(alloc);
    let Ok(end) = run_disk(alloc, disk, &mut reader, &mut writer) else {
        return None;
    };
    if !are_some(lines, writer.as_slice()) {
        return None;
    }
    Some(end)
}

/// Runs a disk that fails its recovery: of an honest disk that holds events, that meets all premises of the law of a run that recovers nothing. The
/// disk; None where it recovered, or there are no lines.
pub fn fail_one<D: Disk + Drop>(alloc: Global, disk: D, lines: &[u8]) -> Option<D>
    ensures { IfSome result (λ end. D.is_honest end
        → (p : Program) (before : List Event) → before ≢ []
        → HoldsEvents D.Disk p before disk → UnrecoveredWitness D.Disk p) }
{
    if lines.is_empty() {
        return None;
    }
    let mut reader = lines;
    let mut writer = Vec::new(alloc);
    let Err(unserved) = run_disk(alloc, disk, &mut reader, &mut writer) else {
        return None;
    };
    let JobFault::Recover(RecoverFault::Device) = unserved.fault else {
        return None;
    };
    Some(unserved.disk)
}

/// Whether a session has acknowledged more events than so many.
fn has_acknowledged_more<D: Disk>(session: &Session<D>, acknowledged: u64) -> bool
    ensures { result ≡ true → acknowledged < session.now.acknowledged }
{
    acknowledged < session.acknowledged()
}

/// Whether it has confirmed more output, too.
fn has_told_more<D: Disk>(session: &Session<D>, acknowledged: u64, confirmed: u64) -> bool
    ensures { result ≡ true → (acknowledged < session.now.acknowledged)
        × (confirmed < session.now.progress.confirmed) }
{
    acknowledged < session.acknowledged() && confirmed < session.confirmed()
}

/// Recovers a disk and answers lines, and then others: of a formatted disk that is honest in the end, that meets all premises of what the reader of
/// the first lines is told. The session; None where the disk didn't recover, or the first service committed or printed nothing, or the second
/// committed nothing.
pub fn serve_twice<D: Disk + Drop>(
    alloc: Global,
    disk: D,
    lines: &[u8],
    others: &[u8],
) -> Option<Session<D>>
    ensures { IfSome result (λ later. D.is_honest later.disk → (p : Program)
        → RecoversToStart p (D.content disk) → ToldWitness D.Disk p) }
{
    let Ok(mut session) = recover(alloc, disk) else {
        return None;
    };
    let acknowledged = session.acknowledged();
    let confirmed = session.confirmed();
    let mut reader = lines;
    let mut writer = Vec::new(alloc);
    let Ok(()) = serve(&mut reader, &mut writer, &mut session) else {
        return None;
    };
    if !are_some(lines, writer.as_slice()) {
        return None;
    }
    if !has_told_more(&session, acknowledged, confirmed) {
        return None;
    }
    serve_on(alloc, session, others)
}

/// Answers more lines. The session; None where the service ended early, or acknowledged nothing.
fn serve_on<D: Disk + Drop>(alloc: Global, session: Session<D>, lines: &[u8]) -> Option<Session<D>>
    ensures { IfSome result (λ later.
        ((more : List Event) × Accepts more session later)
        × (session.acknowledged < later.acknowledged)) }
{
    let mut session = session;
    let acknowledged = session.acknowledged();
    let mut reader = lines;
    let mut writer = Vec::new(alloc);
    let Ok(()) = serve(&mut reader, &mut writer, &mut session) else {
        return None;
    };
    if !has_acknowledged_more(&session, acknowledged) {
        return None;
    }
    Some(session)
}
