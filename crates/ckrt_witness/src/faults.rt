//! Refusals and faults, as the promise "safe and total" speaks of them.
ghost use Rattle.std.specs.Prelude.{◌≡◌, ◌<◌, IfSome, length, true};
ghost use Rattle.ckrt_stored.specs.Layout.{is_valid, memory_size};
ghost use Rattle.ckrt_events.specs.Bytes.{IsInRange};
ghost use Rattle.ckrt_stored.specs.Recovery.{AgreesOnFault, Recovers};
ghost use Rattle.ckrt_witness.specs.Faults.{FailsCommit, HasEachFault, IsLastGeneration, IsRefused};

use ckrt_disk::{Disk, MemoryDisk};
use ckrt_events::{Event, parse_command};
use ckrt_recovery::{CommitFault, Config, RecoverFault, Session, recover};
use std::alloc::Global;

/// Recovers a disk, refuses an event, takes another, and commits it, which the disk fails. On a disk that is honest in the end that is a
/// session of which "safe and total" says that it has failed. None where the disk doesn't recover, the one event is taken or the other
/// refused, or the commit isn't failed by the disk.
pub fn fail_commit<D: Disk + Drop>(
    alloc: Global,
    disk: D,
    other: &Event,
    event: &Event,
) -> Option<Session<D>>
    requires other { IsInRange other.now }
    requires event { IsInRange event.now }
    ensures { IfSome result (λ session. D.is_honest session.disk → FailsCommit D.Disk) }
{
    let Ok(mut session) = recover(alloc, disk) else {
        return None;
    };
    let Err(_why) = session.submit(other) else {
        return None;
    };
    let Ok(_answer) = session.submit(event) else {
        return None;
    };
    let Err(CommitFault::Device) = session.commit() else {
        return None;
    };
    Some(session)
}

/// The fault that a content recovers to. None where it recovers to a program, or where memory was refused.
fn fault_of(alloc: Global, content: &[u8]) -> Option<RecoverFault>
    ensures { IfSome result (λ fault. AgreesOnFault fault (Recovers content.now)) }
{
    let bytes = content.to_vec(alloc).ok()?;
    let disk = MemoryDisk::new(alloc, bytes).ok()?;
    match recover(alloc, disk) {
        Ok(_) => None,
        Err(unrecovered) => Some(unrecovered.fault),
    }
}

/// Whether these contents recover to each of the three faults.
pub fn have_each_fault(alloc: Global, blank: &[u8], other: &[u8], torn: &[u8]) -> bool
    ensures { result ≡ true → HasEachFault blank.now other.now torn.now }
{
    let Some(RecoverFault::NotFormatted) = fault_of(alloc, blank) else {
        return false;
    };
    let Some(RecoverFault::Version) = fault_of(alloc, other) else {
        return false;
    };
    let Some(RecoverFault::Damaged) = fault_of(alloc, torn) else {
        return false;
    };
    true
}

/// Recovers a disk of the last generation, of which no checkpoint is made. None where it doesn't recover, or there is a checkpoint of it.
pub fn refuse_checkpoint<D: Disk + Drop>(alloc: Global, disk: D) -> Option<Session<D>>
    ensures { IfSome result (λ session. D.is_honest session.disk → IsLastGeneration D.Disk) }
{
    let Ok(mut session) = recover(alloc, disk) else {
        return None;
    };
    let Err(CommitFault::GenerationsUsed) = session.checkpoint() else {
        return None;
    };
    Some(session)
}

/// Whether an image is too long for a configuration that is in its ranges.
fn is_too_long(image: &[u8], config: &Config) -> bool
    ensures { result ≡ true → (is_valid config.now ≡ true)
        × (memory_size config.now < length image.now) }
{
    config.is_valid() && image.len() > config.memory_size()
}

/// Whether a line is no command, and an image is too long for a configuration that is in its ranges.
pub fn is_refused(line: &[u8], image: &[u8], config: &Config) -> bool
    ensures { result ≡ true → IsRefused line.now image.now config.now }
{
    let Err(_why) = parse_command(line) else {
        return false;
    };
    is_too_long(image, config)
}
