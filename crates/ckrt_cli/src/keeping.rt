//! The disk that a run of a hunt is kept on.
ghost use Rattle.std.specs.Prelude.{◌≡◌, Ok, true};
ghost use Rattle.ckrt_stored.specs.Layout.{is_valid, size_needed};
ghost use Rattle.ckrt_stored.specs.Programs.{formatted_program};
ghost use Rattle.ckrt_cli.specs.Keeping.{EndsKeeping, Keeps, KeepsOn, fault_of, keep_fault_of};

use ckrt_cli_files::{JobFile, Sources};
use ckrt_cli_reports::JobFault;
use ckrt_disk::Disk;
use ckrt_hunt_schedules::{KeepFault, KeptDisk, Plan, SeedFault, keep_seed};
use ckrt_recovery::{Config, RecoverFault};
use ckrt_schedule::ScheduleEnd;
use std::alloc::Global;
use std::io::Read;

/// Which program's run is kept, where, and whether as it was drawn.
#[derive(Clone, Copy)]
pub(crate) struct Kept<'a, 'b> {
    pub(crate) path: &'a str,
    pub(crate) config: Config,
    pub(crate) image: &'b [u8],
    pub(crate) as_drawn: bool,
}

/// What the job answers where events weren't kept.
fn keep_fault_of(fault: KeepFault) -> JobFault
    ensures { result ≡ keep_fault_of fault }
{
    match fault {
        KeepFault::Device => JobFault::Recover(RecoverFault::Device),
        KeepFault::Refused(_) => JobFault::RunTooLong,
    }
}

/// What the job answers where a run wasn't kept.
fn fault_of(fault: SeedFault) -> JobFault
    ensures { result ≡ fault_of fault }
{
    match fault {
        SeedFault::Format(fault) => JobFault::Format(fault),
        SeedFault::Recover(fault) => JobFault::Recover(fault),
        SeedFault::Keep(fault) => keep_fault_of(fault),
    }
}

/// Gives a disk with a whole run the name of its path, or gives it up where it can't have that.
fn name_kept<'a, I: Read, D: Disk, S: Sources<'a, I, D>>(
    disk: D,
    ending: ScheduleEnd,
    sources: &mut S,
    path: &'a str,
) -> Result<(), JobFault>
    ensures { EndsKeeping path.now disk (S.openings sources.old) (S.openings sources.new)
        (Ok ending) result }
{
    let _ = ending;
    match sources.name_disk(path, &disk) {
        Ok(()) => {
            sources.close(disk);
            Ok(())
        }
        Err(fault) => {
            sources.abandon(disk);
            Err(JobFault::File(JobFile::Making, fault))
        }
    }
}

/// What becomes of a disk that was to have a run.
fn end_kept<'a, I: Read, D: Disk, S: Sources<'a, I, D>>(
    kept: KeptDisk<D>,
    sources: &mut S,
    path: &'a str,
) -> Result<(), JobFault>
    ensures { EndsKeeping path.now kept.disk (S.openings sources.old) (S.openings sources.new)
        kept.result result }
{
    match kept.result {
        Ok(ending) => name_kept::<I, D, S>(kept.disk, ending, sources, path),
        Err(fault) => {
            sources.abandon(kept.disk);
            Err(fault_of(fault))
        }
    }
}

/// Keeps the run of a plan on a disk that was made for it.
fn keep_on<'a, I: Read, D: Disk, S: Sources<'a, I, D>>(
    alloc: Global,
    disk: D,
    what: &Kept<'a, '_>,
    plan: &Plan<'_>,
    sources: &mut S,
) -> Result<(), JobFault>
    ensures { KeepsOn D.Disk (record {
      program = formatted_program what.now.config what.now.image.now;
      plan = plan.now;
      path = what.now.path.now;
      Fills = λ start. start ≡ disk;
    })
        (S.openings sources.old) (S.openings sources.new) result }
{
    let kept = keep_seed(alloc, disk, what.config, what.image, plan);
    end_kept::<I, D, S>(kept, sources, what.path)
}

/// Keeps the run of a plan on a disk of a path that nothing has: beside it, and by its name once it has the whole run.
pub(crate) fn keep<'a, I: Read, D: Disk, S: Sources<'a, I, D>>(
    alloc: Global,
    what: &Kept<'a, '_>,
    plan: &Plan<'_>,
    sources: &mut S,
) -> Result<(), JobFault>
    requires { is_valid what.now.config ≡ true }
    ensures { Keeps D.Disk (record {
      program = formatted_program what.now.config what.now.image.now;
      plan = plan.now;
      path = what.now.path.now;
      Fills = S.fills sources.old what.now.path.now (size_needed what.now.config);
    })
        (S.openings sources.old) (S.openings sources.new) result }
{
    match sources.open_making(alloc, what.path, what.config.size_needed()) {
        Ok(disk) => keep_on::<I, D, S>(alloc, disk, what, plan, sources),
        Err(fault) => Err(JobFault::File(JobFile::Making, fault)),
    }
}
