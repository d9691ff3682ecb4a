//! The run of a seed on a disk of its own.
ghost use Rattle.std.specs.Prelude.{◌≡◌, ◌≤◌, List, IfErr, IfOk, Ok};
ghost use Rattle.ckrt_events.specs.declared.event.Event.{Event};
ghost use Rattle.ckrt_recovery.specs.Accepts.{Accepts};
ghost use Rattle.ckrt_hunt_schedules.specs.Kept.{KeepsRun};
ghost use Rattle.ckrt_disk.specs.Frame.{IsSameDisk};
ghost use Rattle.ckrt_stored.specs.Format.{format_refusal};
ghost use Rattle.ckrt_stored.specs.Programs.{Program, RecoversToStart, formatted_program, start_of};
ghost use Rattle.ckrt_hunt_schedules.specs.KeptDisks.{HasReason, IsNoRefusal, IsOverReason, IsRefusedAsFormat, KeepsSeed};

use crate::keeping::{KeepFault, keep};
use crate::plan::Plan;
use ckrt_disk::Disk;
use ckrt_recovery::{Config, FormatFault, RecoverFault, Session, format, recover};
use ckrt_schedule::ScheduleEnd;
use std::alloc::Global;
use thiserror::Error;

/// Why a disk doesn't have a run whole.
#[derive(Clone, Copy, Debug, PartialEq, Eq, Error)]
pub enum SeedFault {
    /// It wasn't formatted.
    #[error("{0}")]
    Format(FormatFault),
    /// It wasn't recovered, or has no hart, as no disk has that reads what was written.
    #[error("{0}")]
    Recover(RecoverFault),
    /// Not all events were kept.
    #[error("{0}")]
    Keep(KeepFault),
}

/// A disk, and how the run that it was to have ended, or why it doesn't have it.
#[derive(Drop)]
pub struct KeptDisk<D: Disk> {
    pub disk: D,
    pub result: Result<ScheduleEnd, SeedFault>,
}

/// Keeps a run over a session.
fn keep_over<D: Disk>(session: &mut Session<D>, plan: &Plan<'_>) -> Result<ScheduleEnd, SeedFault>
    ensures kept { IfOk result (λ ending. KeepsRun plan.now session.old session.new (Ok ending)) }
    ensures took { (events : List Event) × Accepts events session.old session.new }
    ensures why { IfErr result (IsOverReason plan.now session.old session.new) }
    ensures refused { IfErr result IsNoRefusal }
{
    if session.machine().tables().threads.hart_count() == 0 {
        return Err(SeedFault::Recover(RecoverFault::Damaged));
    }
    match keep(session, plan) {
        Ok(ending) => Ok(ending),
        Err(fault) => Err(SeedFault::Keep(fault)),
    }
}

/// Keeps a run on a disk with a program before its first event.
fn keep_recovered<D: Disk>(alloc: Global, disk: D, plan: &Plan<'_>) -> KeptDisk<D>
    ensures kept { (program : Program)
        → (D.is_honest disk → RecoversToStart program (D.content disk))
        → KeepsSeed D.Disk program plan.now result }
    ensures why { (program : Program)
        → 1 ≤ (start_of program).tables.threads.hart_count
        → (D.is_honest disk → RecoversToStart program (D.content disk))
        → HasReason D.Disk program plan.now disk result }
    ensures same { IsSameDisk D.Disk disk result.disk }
    ensures refused { IfErr result.result IsNoRefusal }
{
    match recover(alloc, disk) {
        Ok(session) => {
            let mut session = session;
            let result = keep_over(&mut session, plan);
            KeptDisk {
                disk: session.into_disk(),
                result,
            }
        }
        Err(unrecovered) => KeptDisk {
            disk: unrecovered.disk,
            result: Err(SeedFault::Recover(unrecovered.fault)),
        },
    }
}

/// Formats a disk with an image, and keeps the run of a plan on it, whole from its first event. The disk comes back,
/// whatever the answer.
///
/// `Format` where it can't be formatted so; `Keep` of the session's refusal of the next event, as `JournalFull` where the
/// run has more events than the journal of the configuration has room for, or where the disk fails. On an honest disk
/// `Recover` comes only where the disk fails, or memory is short. All memory is taken before the run begins.
pub fn keep_seed<D: Disk>(
    alloc: Global,
    disk: D,
    config: Config,
    image: &[u8],
    plan: &Plan<'_>,
) -> KeptDisk<D>
    ensures kept { KeepsSeed D.Disk (formatted_program config image.now) plan.now result }
    ensures why { HasReason D.Disk (formatted_program config image.now) plan.now disk result }
    ensures refused { IsRefusedAsFormat (format_refusal (D.size disk) config image.now)
        result.result }
    ensures same { IsSameDisk D.Disk disk result.disk }
{
    let mut disk = disk;
    if let Err(fault) = format(alloc, &mut disk, config, image) {
        return KeptDisk {
            disk,
            result: Err(SeedFault::Format(fault)),
        };
    }
    keep_recovered(alloc, disk, plan)
}
