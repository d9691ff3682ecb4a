//! Running a disk.
ghost use Rattle.std.specs.Prelude.{◌≡◌, Ok, IfOk, IfErr};
ghost use Rattle.ckrt_disk.specs.Disk.{HasFailed};
ghost use Rattle.ckrt_disk.specs.Frame.{IsSameDisk};
ghost use Rattle.ckrt_main.specs.Service.{Served};
ghost use Rattle.ckrt_stored.specs.Recovery.{Recovered, Recovers};
ghost use Rattle.ckrt_recovery.specs.View.{opened};
ghost use Rattle.ckrt_cli_disk.specs.Running.{AgreesOnJob, IsBeforeService, disk_of, RunsDisk};

use ckrt_cli_reports::JobFault;
use ckrt_disk::Disk;
use ckrt_main::serve;
use ckrt_recovery::recover;
use std::alloc::Global;
use std::io::{Read, Write};

/// The disk that was handed in, and why its service ended early or didn't begin.
#[derive(Drop)]
pub struct Unserved<D> {
    pub disk: D,
    pub fault: JobFault,
}

/// Recovers a disk, and answers the lines of a reader, up to its end or a line `quit`. The disk comes back.
///
/// # Errors
///
/// `Recover` where nothing is recovered, before a byte is read or written; `Serve` where the reader or the writer failed.
pub fn run_disk<D: Disk + Drop, R: Read, W: Write>(
    alloc: Global,
    disk: D,
    reader: &mut R,
    writer: &mut W,
) -> Result<D, Unserved<D>>
    ensures served { IfOk result (λ end.
        D.is_honest end → ¬ HasFailed (D.failures disk) (D.failures end)
        → (r : Recovered) → Recovers (D.content disk) (Ok r)
        → Served (W.contents writer.old) (W.contents writer.new)
        (R.remaining reader.old) (R.remaining reader.new) (opened r)) }
    ensures unrecovered { IfErr result
        (λ u. D.is_honest u.disk → AgreesOnJob u.fault (Recovers (D.content disk))) }
    ensures unread { IfErr result (λ u. IsBeforeService u.fault → reader.new ≡ reader.old) }
    ensures unwritten { IfErr result (λ u. IsBeforeService u.fault → writer.new ≡ writer.old) }
    ensures disk { IsSameDisk D.Disk disk (disk_of result) }
    ensures runs { RunsDisk D.Disk disk (W.contents writer.old) (W.contents writer.new)
        (R.remaining reader.old) (R.remaining reader.new) result }
{
    let mut session = match recover(alloc, disk) {
        Ok(session) => session,
        Err(unrecovered) => {
            return Err(Unserved {
                disk: unrecovered.disk,
                fault: JobFault::Recover(unrecovered.fault),
            });
        }
    };
    match serve(reader, writer, &mut session) {
        Ok(()) => Ok(session.into_disk()),
        Err(fault) => Err(Unserved {
            disk: session.into_disk(),
            fault: JobFault::Serve(fault),
        }),
    }
}
