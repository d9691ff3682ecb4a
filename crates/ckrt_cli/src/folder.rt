//! The folder in which each outcome of a hunt has a disk.
ghost use Rattle.std.specs.Prelude.{◌≡◌, ◌<◌, ◌⊎◌, Err, IfOk, OnErr, OnOk, length, true};
ghost use Rattle.ckrt_stored.specs.Layout.{is_valid};
ghost use Rattle.ckrt_hunt_schedules.specs.Table.{unkept_text};
ghost use Rattle.ckrt_hunt_schedules.specs.Tallies.{hunted_of};
ghost use Rattle.ckrt_cli.specs.Hunting.{KeepsEach, KeptIfShown, KeptOneMore, LacksPath, LacksRoom, NamesRow, TellsUnkept, folder_at, is_folder, outcome_path, reached, sought_in};

use crate::found::{KeptAt, SeedsOf, keep_run, room_fault_of};
use crate::keeping::Kept;
use ckrt_cli_files::Sources;
use ckrt_cli_reports::JobFault;
use ckrt_disk::Disk;
use ckrt_hunt_schedules::{Hunt, Tries, is_shown, room_for, write_unkept};
use ckrt_main::ServeFault;
use std::alloc::{AllocError, Global};
use std::io::{Read, Write};

/// Whether a path names a folder: it ends with `/`.
pub(crate) fn is_folder(path: &str) -> bool
    ensures { result ≡ is_folder path.now }
{
    match path.as_bytes().last() {
        Some(byte) => *byte == b'/',
        None => false,
    }
}

/// The path of the disk of an outcome in a folder. It stays as long as the program runs, as its words do.
pub(crate) fn outcome_path<'a>(
    alloc: Global,
    folder: &str,
    number: usize,
) -> Result<&'a str, AllocError>
    ensures { IfOk result (λ path. path.now ≡ outcome_path folder.now number) }
{
    let path = format!(in alloc; "{}outcome-{}.disk", folder, number)?;
    match Box::new(alloc, path) {
        Ok(path) => Ok(Box::leak(path).as_str()),
        Err(_) => Err(AllocError),
    }
}

/// Says which run wasn't kept, and flushes that. The answer is why, or that the writer failed.
#[tactic(auto, using(crate::proofs::AppendLemmas::appends_kept))]
fn tell_unkept<W: Write>(writer: &mut W, seed: u64, path: &str, why: JobFault) -> JobFault
    ensures { TellsUnkept (unkept_text seed path.now) why
        (W.contents writer.old) (W.contents writer.new) (Err result) }
{
    if write_unkept(writer, seed, path).is_err() {
        return JobFault::Serve(ServeFault::Write);
    }
    match writer.flush() {
        Ok(()) => why,
        Err(_) => JobFault::Serve(ServeFault::Write),
    }
}

/// Keeps a run of an outcome in a folder, or names it where it isn't kept.
fn keep_row<'a, I: Read, D: Disk, S: Sources<'a, I, D>, W: Write>(
    alloc: Global,
    at: &KeptAt<'a, '_, '_>,
    place: usize,
    hunt: &mut Hunt<'_>,
    tries: &mut Tries,
    sources: &mut S,
    writer: &mut W,
) -> Result<(), JobFault>
    requires config { is_valid at.now.told.config ≡ true }
    requires place { place < length at.now.told.rows.now }
    ensures kept { OnOk result (KeptOneMore D.Disk
        (sought_in hunt.old at.now.told (S.fills sources.old)) (folder_at at.now) place
        (λ r. r ≡ reached (S.openings sources.old) (W.contents writer.old))
        (reached (S.openings sources.new) (W.contents writer.new))) }
    ensures stops { OnErr result
        (LacksPath (reached (S.openings sources.old) (W.contents writer.old))
        (reached (S.openings sources.new) (W.contents writer.new)) result
        ⊎ ((named : NamesRow D.Disk
        (sought_in hunt.old at.now.told (S.fills sources.old)) (folder_at at.now) place
        (reached (S.openings sources.old) (W.contents writer.old))
        (reached (S.openings sources.new) (W.contents writer.new)))
        × (named.result ≡ result))) }
    ensures same { hunt.new ≡ hunt.old }
{
    let row = &at.told.rows[place];
    let seeds = SeedsOf {
        first: row.first,
        later: row.later(),
    };
    let path = match outcome_path(alloc, at.path, place + 1) {
        Ok(path) => path,
        Err(_) => return Err(JobFault::OutOfMemory),
    };
    let what = Kept {
        path,
        config: at.told.config,
        image: at.told.image,
        as_drawn: at.told.as_drawn,
    };
    match keep_run::<I, D, S, W>(alloc, &seeds, hunt, tries, &what, sources, writer) {
        Ok(()) => Ok(()),
        Err(why) => Err(tell_unkept(writer, seeds.first, path, why)),
    }
}

/// The same of an outcome that has lines. Of any other nothing is kept.
fn keep_if_shown<'a, I: Read, D: Disk, S: Sources<'a, I, D>, W: Write>(
    alloc: Global,
    at: &KeptAt<'a, '_, '_>,
    place: usize,
    hunt: &mut Hunt<'_>,
    tries: &mut Tries,
    sources: &mut S,
    writer: &mut W,
) -> Result<(), JobFault>
    requires config { is_valid at.now.told.config ≡ true }
    requires place { place < length at.now.told.rows.now }
    ensures kept { OnOk result (KeptIfShown D.Disk
        (sought_in hunt.old at.now.told (S.fills sources.old)) (folder_at at.now) place
        (λ r. r ≡ reached (S.openings sources.old) (W.contents writer.old))
        (reached (S.openings sources.new) (W.contents writer.new))) }
    ensures stops { OnErr result
        (LacksPath (reached (S.openings sources.old) (W.contents writer.old))
        (reached (S.openings sources.new) (W.contents writer.new)) result
        ⊎ ((named : NamesRow D.Disk
        (sought_in hunt.old at.now.told (S.fills sources.old)) (folder_at at.now) place
        (reached (S.openings sources.old) (W.contents writer.old))
        (reached (S.openings sources.new) (W.contents writer.new)))
        × (named.result ≡ result))) }
    ensures same { hunt.new ≡ hunt.old }
{
    let told = &at.told;
    if is_shown(told.all_rows, told.rows, &told.rows[place]) {
        return keep_row::<I, D, S, W>(alloc, at, place, hunt, tries, sources, writer);
    }
    Ok(())
}

/// Keeps a run of each outcome that has lines in a folder, in their order, up to the first one that isn't kept.
fn keep_rows<'a, I: Read, D: Disk, S: Sources<'a, I, D>, W: Write>(
    alloc: Global,
    at: &KeptAt<'a, '_, '_>,
    hunt: &mut Hunt<'_>,
    tries: &mut Tries,
    sources: &mut S,
    writer: &mut W,
) -> Result<(), JobFault>
    requires { is_valid at.now.told.config ≡ true }
    ensures { KeepsEach D.Disk (sought_in hunt.old at.now.told (S.fills sources.old))
        (folder_at at.now) (reached (S.openings sources.old) (W.contents writer.old))
        (reached (S.openings sources.new) (W.contents writer.new)) result }
{
    for place in 0..at.told.rows.len() {
        keep_if_shown::<I, D, S, W>(alloc, at, place, hunt, tries, sources, writer)?;
    }
    Ok(())
}

/// Keeps a run of each outcome that has lines in a folder, by the plan that is found.
pub(crate) fn keep_in_folder<'a, I: Read, D: Disk, S: Sources<'a, I, D>, W: Write>(
    alloc: Global,
    at: &KeptAt<'a, '_, '_>,
    sources: &mut S,
    writer: &mut W,
) -> Result<(), JobFault>
    requires { is_valid at.now.told.config ≡ true }
    ensures { LacksRoom (reached (S.openings sources.old) (W.contents writer.old))
        (reached (S.openings sources.new) (W.contents writer.new)) result
        ⊎ KeepsEach D.Disk
        (sought_in (hunted_of at.now.told.image.now at.now.told.shape at.now.told.input)
        at.now.told (S.fills sources.old))
        (folder_at at.now) (reached (S.openings sources.old) (W.contents writer.old))
        (reached (S.openings sources.new) (W.contents writer.new)) result }
{
    let (hunt, tries) = match room_for(alloc, at.told.image, at.told.shape, at.told.input) {
        Ok(room) => room,
        Err(fault) => return Err(room_fault_of(fault)),
    };
    let mut hunt = hunt;
    let mut tries = tries;
    keep_rows::<I, D, S, W>(alloc, at, &mut hunt, &mut tries, sources, writer)
}
