//! A service of lines, as the promise "end to end without a stop" speaks of it.
ghost use Rattle.std.specs.Prelude.{◌≡◌, ◌≢◌, ◌+◌, ◌≤◌, ◌<◌, [], IfSome, true};
ghost use Rattle.ckrt_disk.specs.Disk.{HasFailed};
ghost use Rattle.ckrt_stored.specs.Programs.{Program, RecoversToStart};
ghost use Rattle.ckrt_witness.specs.Service.{RefusesImage, ServesImage, ServiceWitness};

use ckrt_disk::Disk;
use ckrt_main::{ServeFault, serve, serve_image};
use ckrt_recovery::{Config, Session, recover};
use std::alloc::Global;

/// Whether there are lines and a text.
pub(crate) fn are_some(lines: &[u8], text: &[u8]) -> bool
    ensures { result ≡ true → (lines.now ≢ []) × (text.now ≢ []) }
{
    !lines.is_empty() && !text.is_empty()
}

/// Whether a session has three events more than so many, and has acknowledged and printed more.
fn has_more<D: Disk>(session: &Session<D>, count: u64, acknowledged: u64, confirmed: u64) -> bool
    ensures { result ≡ true → (count + 3 ≤ session.now.progress.count)
        × (acknowledged < session.now.acknowledged)
        × (confirmed < session.now.progress.confirmed) }
{
    count < session.count()
        && 3 <= session.count() - count
        && acknowledged < session.acknowledged()
        && confirmed < session.confirmed()
}

/// Recovers a disk and answers lines: of a formatted disk that is honest in the end, and that failed no call, that meets all premises of
/// the promise. The session; None where the disk didn't recover, fewer than three events were taken, or nothing was committed or
/// printed.
pub fn serve_once<D: Disk + Drop>(alloc: Global, disk: D, lines: &[u8]) -> Option<Session<D>>
    ensures { IfSome result (λ end.
        D.is_honest end.disk → ¬ HasFailed (D.failures disk) (D.failures end.disk)
        → (p : Program) → RecoversToStart p (D.content disk) → ServiceWitness D.Disk p) }
{
    let Ok(mut session) = recover(alloc, disk) else {
        return None;
    };
    let count = session.count();
    let acknowledged = session.acknowledged();
    let confirmed = session.confirmed();
    let mut reader = lines;
    let mut writer = Vec::new(alloc);
    let Ok(()) = serve(&mut reader, &mut writer, &mut session) else {
        return None;
    };
    if !are_some(lines, writer.as_slice()) {
        return None;
    }
    if !has_more(&session, count, acknowledged, confirmed) {
        return None;
    }
    Some(session)
}

/// Serves an image in memory, and finds that lines were answered. False where it isn't served, or nothing is read or written.
pub fn serve_in_memory(alloc: Global, image: &[u8], config: Config, lines: &[u8]) -> bool
    ensures { result ≡ true → ServesImage config image.now }
{
    let mut reader = lines;
    let mut writer = Vec::new(alloc);
    let Ok(()) = serve_image(alloc, image, config, &mut reader, &mut writer) else {
        return false;
    };
    are_some(lines, writer.as_slice())
}

/// Asks for a service of an image that is refused. False where it isn't, or there are no lines.
pub fn refuse_image(alloc: Global, image: &[u8], config: Config, lines: &[u8]) -> bool
    ensures { result ≡ true → RefusesImage config image.now }
{
    if lines.is_empty() {
        return false;
    }
    let mut reader = lines;
    let mut writer = Vec::new(alloc);
    let Err(ServeFault::Format) = serve_image(alloc, image, config, &mut reader, &mut writer) else {
        return false;
    };
    true
}
