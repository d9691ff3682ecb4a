//! Showing what a disk holds.
ghost use Rattle.std.specs.Prelude.{◌≡◌, ◌≢◌, IfErr};
ghost use Rattle.ckrt_inspect.specs.declared.fault.InspectFault.TheVariants.{Write as Writing};
ghost use Rattle.ckrt_cli_disk.specs.Showing.{Shows, shown_of};
ghost use Rattle.ckrt_cli_reports.specs.declared.fault.JobFault.TheVariants.{Inspect};

use ckrt_cli_reports::JobFault;
use ckrt_cli_words::InspectJob;
use ckrt_disk::Disk;
use ckrt_inspect::{Shown, inspect_with};
use std::alloc::Global;
use std::io::Write;

/// What of a disk is to be shown.
fn shown(job: &InspectJob<'_>) -> Shown
    ensures { result ≡ shown_of job.now.at job.now.code }
{
    Shown {
        at: job.at,
        with_code: job.code,
    }
}

/// Shows what a disk holds: its listing, as the job asks for it. The disk is only read.
///
/// # Errors
///
/// `Inspect`: where nothing is recovered from it or it has no state after that many events, where the disk failed a read or
/// memory was refused, all before anything is written; or where the writer failed.
pub fn inspect_disk<D: Disk, W: Write>(
    alloc: Global,
    disk: &mut D,
    job: &InspectJob<'_>,
    writer: &mut W,
) -> Result<(), JobFault>
    ensures shows { Shows D.Disk disk.old disk.new (shown_of job.now.at job.now.code)
        (W.contents writer.old) (W.contents writer.new) result }
    ensures unwritten { IfErr result (λ e. e ≢ Inspect Writing → writer.new ≡ writer.old) }
{
    match inspect_with(alloc, disk, shown(job), writer) {
        Ok(()) => Ok(()),
        Err(fault) => Err(JobFault::Inspect(fault)),
    }
}
