//! Telling the calls that a disk has recorded.
ghost use Rattle.std.specs.Prelude.{ℕ, List, Option};
ghost use Rattle.ckrt_cli_words.specs.Jobs.{disk_stretch_of};
ghost use Rattle.ckrt_cli_reports.specs.Outside.{outside};
ghost use Rattle.ckrt_cli.specs.Looking.{TracesPath};

use crate::looking::look_path;
use ckrt_cli_files::Sources;
use ckrt_cli_reports::JobFault;
use ckrt_cli_words::StretchJob;
use ckrt_disk::Disk;
use ckrt_look_calls::Calls;
use std::alloc::Global;
use std::io::{Read, Write};

/// Tells the calls that the disk of a path has recorded, a line each: all, or those behind so many events and up to so many. The
/// disk is only read.
///
/// # Errors
///
/// The first that applies: `Range` where the stretch would end before it begins, before anything is opened; `File` of the disk;
/// `Inspect`, where nothing is recovered from it, where the disk failed a read or memory was refused, or where the writer failed;
/// `Unrecorded` where it hasn't recorded all of the stretch, or no longer has it.
pub fn calls_path<'a, I: Read, D: Disk, S: Sources<'a, I, D>, W: Write>(
    alloc: Global,
    job: &StretchJob<'a>,
    sources: &mut S,
    writer: &mut W,
) -> Result<(), JobFault>
    ensures traces { (left : Option (List ℕ))
        → TracesPath D.Disk (S.opens sources.old job.now.disk.now) (disk_stretch_of job.now)
        (outside (S.openings sources.old) (W.contents writer.old) left)
        (outside (S.openings sources.new) (W.contents writer.new) left) result }
{
    look_path::<I, D, S, Calls, W>(alloc, job, &Calls, sources, writer)
}
