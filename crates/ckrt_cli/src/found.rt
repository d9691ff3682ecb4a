//! The run of a seed on a disk of a path, by the shortest schedule that is found, or as it was drawn.
ghost use Rattle.std.specs.Prelude.{◌≡◌, ◌⊎◌, Ok, Result, true};
ghost use Rattle.ckrt_cli_reports.specs.declared.fault.JobFault.{JobFault};
ghost use Rattle.ckrt_stored.specs.Layout.{is_valid, size_needed};
ghost use Rattle.ckrt_stored.specs.Programs.{formatted_program};
ghost use Rattle.ckrt_hunt_schedules.specs.Short.{IsChosen};
ghost use Rattle.ckrt_hunt_schedules.specs.Table.{kept_text};
ghost use Rattle.ckrt_hunt_schedules.specs.Tallies.{hunted_of};
ghost use Rattle.ckrt_cli.specs.Keeping.{Keeps};
ghost use Rattle.ckrt_cli.specs.Hunting.{IsAsDrawn, KeepsFound, LacksRoom, TellsKept, reached, room_fault_of, sought_by, sought_in};

use crate::keeping::{Kept, keep};
use ckrt_cli_files::Sources;
use ckrt_cli_reports::JobFault;
use ckrt_disk::Disk;
use ckrt_hunt_schedules::{Chosen, Hunt, Input, Row, Shape, Tries, as_drawn, room_for, write_kept};
use ckrt_main::ServeFault;
use ckrt_memory::MemoryError;
use ckrt_recovery::{Config, FormatFault};
use std::alloc::Global;
use std::io::{Read, Write};

/// A hunt that was told: of which image, with which input, the sizes of disks for its runs, the first seed, the outcomes, whether
/// runs are kept as they were drawn, and whether each outcome has lines.
#[derive(Clone, Copy)]
pub(crate) struct ToldHunt<'b, 'i> {
    pub(crate) config: Config,
    pub(crate) image: &'b [u8],
    pub(crate) shape: Shape,
    pub(crate) input: Input<'i>,
    pub(crate) first: u64,
    pub(crate) rows: &'b [Row],
    pub(crate) as_drawn: bool,
    pub(crate) all_rows: bool,
}

/// A hunt that was told, and the path of the disk or of the folder where runs of it are kept.
#[derive(Clone, Copy)]
pub(crate) struct KeptAt<'a, 'b, 'i> {
    pub(crate) path: &'a str,
    pub(crate) told: ToldHunt<'b, 'i>,
}

/// The first seeds that came to an outcome.
#[derive(Clone, Copy)]
pub(crate) struct SeedsOf<'b> {
    pub(crate) first: u64,
    pub(crate) later: &'b [u64],
}

/// What the job answers where there is no room to look for a shorter schedule.
pub(crate) fn room_fault_of(fault: MemoryError) -> JobFault
    ensures { result ≡ room_fault_of fault }
{
    match fault {
        MemoryError::ImageTooLong => JobFault::Format(FormatFault::ImageTooLong),
        MemoryError::OutOfMemory => JobFault::OutOfMemory,
    }
}

/// Says which run was kept, and flushes that.
#[tactic(auto, using(crate::proofs::AppendLemmas::appends_kept))]
fn tell_kept<W: Write>(writer: &mut W, path: &str, chosen: &Chosen<'_>) -> Result<(), JobFault>
    ensures { TellsKept (kept_text path.now chosen.now)
        (W.contents writer.old) (W.contents writer.new) (Ok tt) result }
{
    if write_kept(writer, path, chosen).is_err() {
        return Err(JobFault::Serve(ServeFault::Write));
    }
    match writer.flush() {
        Ok(()) => Ok(()),
        Err(_) => Err(JobFault::Serve(ServeFault::Write)),
    }
}

/// Which run of an outcome is kept, by which plan: that of the first seed as it was drawn, or of the seeds that came to it first the one
/// for which the shortest schedule is found.
fn choose<'a, 'i: 'a>(
    hunt: &mut Hunt<'i>,
    seeds: &SeedsOf<'_>,
    tries: &'a mut Tries,
    is_drawn: bool,
) -> Chosen<'a>
    ensures chosen { IsChosen hunt.old seeds.now.first result }
    ensures drawn { IsAsDrawn hunt.old seeds.now.first is_drawn result }
    ensures same { hunt.new ≡ hunt.old }
{
    if is_drawn {
        return as_drawn(hunt, seeds.first);
    }
    tries.search(hunt, seeds.first, seeds.later);
    tries.chosen(hunt, seeds.first)
}

/// Keeps the run of a seed on a disk of a path, by the plan that was found for it, and says so.
fn keep_chosen<'a, I: Read, D: Disk, S: Sources<'a, I, D>, W: Write>(
    alloc: Global,
    chosen: &Chosen<'_>,
    what: &Kept<'a, '_>,
    sources: &mut S,
    writer: &mut W,
) -> Result<(), JobFault>
    requires { is_valid what.now.config ≡ true }
    ensures { (kept : Result (Unit {0}) JobFault)
        × Keeps D.Disk (record {
          program = formatted_program what.now.config what.now.image.now;
          plan = chosen.now.found.plan;
          path = what.now.path.now;
          Fills = S.fills sources.old what.now.path.now (size_needed what.now.config);
        })
        (S.openings sources.old) (S.openings sources.new) kept
        × TellsKept (kept_text what.now.path.now chosen.now)
        (W.contents writer.old) (W.contents writer.new) kept result }
{
    match keep::<I, D, S>(alloc, what, &chosen.found.plan, sources) {
        Ok(()) => tell_kept(writer, what.path, chosen),
        Err(fault) => Err(fault),
    }
}

/// Keeps a run of an outcome on a disk of a path, that of the seed and by the plan that are chosen, and says so.
pub(crate) fn keep_run<'a, I: Read, D: Disk, S: Sources<'a, I, D>, W: Write>(
    alloc: Global,
    seeds: &SeedsOf<'_>,
    hunt: &mut Hunt<'_>,
    tries: &mut Tries,
    what: &Kept<'a, '_>,
    sources: &mut S,
    writer: &mut W,
) -> Result<(), JobFault>
    requires { is_valid what.now.config ≡ true }
    ensures kept { KeepsFound D.Disk
        (sought_by hunt.old seeds.now.first what.now.as_drawn what.now.config what.now.image.now
        (λ path. S.fills sources.old path (size_needed what.now.config)))
        what.now.path.now (reached (S.openings sources.old) (W.contents writer.old))
        (reached (S.openings sources.new) (W.contents writer.new)) result }
    ensures same { hunt.new ≡ hunt.old }
{
    let chosen = choose(hunt, seeds, tries, what.as_drawn);
    keep_chosen::<I, D, S, W>(alloc, &chosen, what, sources, writer)
}

/// The seeds that came to what the first seed of the hunt came to, which has a row.
fn seeds_of_first<'b>(rows: &'b [Row], first: u64) -> SeedsOf<'b>
    ensures { result.first ≡ first }
{
    for row in rows {
        if row.first == first {
            return SeedsOf {
                first,
                later: row.later(),
            };
        }
    }
    SeedsOf { first, later: &[] }
}

/// Keeps a run that comes to what the first seed comes to on the disk of a path, by the plan that is found.
pub(crate) fn keep_first<'a, I: Read, D: Disk, S: Sources<'a, I, D>, W: Write>(
    alloc: Global,
    at: &KeptAt<'a, '_, '_>,
    sources: &mut S,
    writer: &mut W,
) -> Result<(), JobFault>
    requires { is_valid at.now.told.config ≡ true }
    ensures { LacksRoom (reached (S.openings sources.old) (W.contents writer.old))
        (reached (S.openings sources.new) (W.contents writer.new)) result
        ⊎ KeepsFound D.Disk
        (sought_in (hunted_of at.now.told.image.now at.now.told.shape at.now.told.input)
        at.now.told
        (S.fills sources.old))
        at.now.path.now (reached (S.openings sources.old) (W.contents writer.old))
        (reached (S.openings sources.new) (W.contents writer.new)) result }
{
    let told = &at.told;
    let (hunt, tries) = match room_for(alloc, told.image, told.shape, told.input) {
        Ok(room) => room,
        Err(fault) => return Err(room_fault_of(fault)),
    };
    let mut hunt = hunt;
    let mut tries = tries;
    let what = Kept {
        path: at.path,
        config: told.config,
        image: told.image,
        as_drawn: told.as_drawn,
    };
    let seeds = seeds_of_first(told.rows, told.first);
    let (hunt, tries) = (&mut hunt, &mut tries);
    keep_run::<I, D, S, W>(alloc, &seeds, hunt, tries, &what, sources, writer)
}
