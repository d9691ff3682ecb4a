//! Lives, one after another.
ghost use Rattle.std.specs.Prelude.{◌≡◌, ◌↔◌, ◌⊎◌, List, [], ◌∷◌, ◌++◌, ℕ, true, None, replicate, All, Ok, IfOk, IfErr, IsErrOf};
ghost use Rattle.ckrt_stored.specs.Layout.{is_valid, size_needed};
ghost use Rattle.ckrt_events.specs.Line.{IsInRangeCommand};
ghost use Rattle.ckrt_events.specs.declared.event.Event.{Event};
ghost use Rattle.ckrt_stored.specs.Format.{IsFormatted};
ghost use Rattle.ckrt_stored.specs.Programs.{Program, formatted_program};
ghost use Rattle.ckrt_stored.specs.Recovery.{Recovered, Recovers};
ghost use Rattle.ckrt_recovery.specs.View.{is_refused};
ghost use Rattle.ckrt_recovery.specs.declared.session.Session.{Session};
ghost use Rattle.ckrt_disk.specs.declared.stopping.StoppingDisk.{StoppingDisk};
ghost use Rattle.ckrt_main.specs.declared.life.Life.{Life};
ghost use Rattle.ckrt_main.specs.Lives.{AreLives, AreSameBytes, IsInRangeLife, IsLife};
ghost use Rattle.ckrt_main.specs.LifePieces.{HasRun, LivedSoFar, Stands};

use crate::life::{Life, LifeReport};
use crate::lives_fault::LivesFault;
use crate::session::serve;
use ckrt_disk::{Disk, MemoryDisk, StoppingDisk};
use ckrt_events::Command;
use ckrt_recovery::{Config, FormatFault, RecoverFault, Session, format, recover};
use std::alloc::{AllocError, Global};

/// A disk of zeros that has as many bytes as the configuration needs.
fn blank_disk(alloc: Global, config: &Config) -> Result<MemoryDisk, AllocError>
    requires { is_valid config.now ≡ true }
    ensures content { IfOk result
        (λ disk. ⟦<MemoryDisk as Disk>⟧.content disk ≡ replicate (size_needed config.now) 0) }
{
    let bytes = vec![in alloc; 0; config.size_needed()]?;
    MemoryDisk::new(alloc, bytes)
}

/// What formatting leaves of a blank disk of the size that the configuration needs.
fn formatted_image(alloc: Global, image: &[u8], config: Config) -> Result<Vec<u8>, LivesFault>
    ensures formatted { IfOk result (λ left. IsFormatted config image.now left.items) }
    ensures refused { IsErrOf result LivesFault.Format ↔ (is_refused config image.now ≡ true) }
    ensures errors { IfErr result (λ e. (e ≡ LivesFault.Format) ⊎ (e ≡ LivesFault.OutOfMemory)) }
{
    if !config.is_valid() || image.len() > config.memory_size() {
        return Err(LivesFault::Format);
    }
    let mut disk = blank_disk(alloc, &config)?;
    match format(alloc, &mut disk, config, image) {
        Ok(()) => Ok(disk.into_image()),
        Err(FormatFault::OutOfMemory) => Err(LivesFault::OutOfMemory),
        Err(_) => unreachable!(),
    }
}

/// What the commands make of a recovered session, and what is left of its disk.
fn run(
    alloc: Global,
    session: Session<StoppingDisk>,
    commands: &[Command],
) -> Result<LifeReport, AllocError>
    requires { All IsInRangeCommand commands.now }
    ensures { IfOk result (λ report.
        (end : Session StoppingDisk ⟦<StoppingDisk as Disk>⟧)
        × HasRun commands.now report session end) }
{
    let recovered = session.acknowledged();
    let released_from = session.confirmed();
    let mut session = session;
    let released = serve(alloc, &mut session, commands)?;
    let acknowledged = session.acknowledged();
    Ok(LifeReport {
        recovered: Some(recovered),
        acknowledged,
        released_from,
        released,
        left: session.into_disk().into_image(),
    })
}

/// A life that was stopped before it recovered.
fn stopped(alloc: Global, disk: StoppingDisk) -> LifeReport
    ensures recovered { result.recovered ≡ None }
    ensures acknowledged { result.acknowledged ≡ 0 }
    ensures released_from { result.released_from ≡ 0 }
    ensures released { result.released.items ≡ [] }
    ensures left { result.left.items ≡ ⟦<StoppingDisk as Disk>⟧.content disk }
{
    LifeReport {
        recovered: None,
        acknowledged: 0,
        released_from: 0,
        released: Vec::new(alloc),
        left: disk.into_image(),
    }
}

/// A life over an image, which recovers.
fn live(alloc: Global, image: Vec<u8>, life: &Life) -> Result<LifeReport, AllocError>
    requires in_range { IsInRangeLife life.now }
    requires recovers { (r : Recovered) × Recovers image.items (Ok r) }
    ensures { IfOk result (λ report.
        (p : Program) (before : List Event) → Stands p image.items before
        → (events : List Event) × IsLife p life.now report image.items before events) }
{
    let fill = life.fill.to_vec(alloc)?;
    let disk = StoppingDisk::new(alloc, image, life.stop_at, fill)?;
    match recover(alloc, disk) {
        Ok(session) => run(alloc, session, &life.commands),
        Err(unrecovered) => match unrecovered.fault {
            RecoverFault::Device => Ok(stopped(alloc, unrecovered.disk)),
            RecoverFault::OutOfMemory => Err(AllocError),
            _ => unreachable!(),
        },
    }
}

/// One life more over the image that the lives before left, and what it leaves.
fn live_on(
    alloc: Global,
    image: Vec<u8>,
    life: &Life,
    reports: &mut Vec<LifeReport>,
) -> Result<Vec<u8>, AllocError>
    requires in_range { IsInRangeLife life.now }
    requires recovers { (r : Recovered) × Recovers image.items (Ok r) }
    ensures { IfOk result (λ left.
        (p : Program) (formatted : List ℕ) (before : List Life)
        → LivedSoFar p formatted before reports.old.items image.items
        → LivedSoFar p formatted (before ++ life.now ∷ []) reports.new.items left.items) }
{
    let report = live(alloc, image, life)?;
    let left = report.left.to_vec(alloc)?;
    reports.push(report)?;
    Ok(left)
}

/// The lives of a program, one after another, over a disk in memory that is formatted with it: each recovers what the life
/// before left, does what its commands say, and takes and confirms its output once it has recovered and after each commit
/// and checkpoint. A command that is refused is passed over. A life may be stopped at any write or sync.
///
/// `Format` where the configuration is out of its ranges or the image longer than the memory, `OutOfMemory` where a growth
/// was refused.
pub fn lives(
    alloc: Global,
    image: &[u8],
    config: Config,
    list: &[Life],
) -> Result<Vec<LifeReport>, LivesFault>
    requires { All IsInRangeLife list.now }
    ensures lived { IfOk result
        (λ reports. AreLives (formatted_program config image.now) list.now reports.items) }
    ensures same_bytes { IfOk result (λ reports. AreSameBytes reports.items) }
    ensures format { IsErrOf result LivesFault.Format ↔ (is_refused config image.now ≡ true) }
{
    let mut left = formatted_image(alloc, image, config)?;
    let mut reports = Vec::new(alloc);
    for life in list {
        left = live_on(alloc, left, life, &mut reports)?;
    }
    Ok(reports)
}
