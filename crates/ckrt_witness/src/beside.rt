//! A drive that keeps a history, as the law of a history beside many runs speaks of it.
ghost use Rattle.std.specs.Prelude.{◌≡◌, ◌^◌, ◌-◌, [], None, IfOk};
ghost use Rattle.ckrt_drive.specs.Stages.{stage};
ghost use Rattle.ckrt_history.specs.Keeping.{RanKeeping, keeping_stage};
ghost use Rattle.ckrt_stored.specs.Programs.{Program};
ghost use Rattle.ckrt_witness.specs.Beside.{BesideWitness, RanBeside, RanTwice, three};

use ckrt_disk::Disk;
use ckrt_drive::{Drive, Feed, Nobody, Nothing, Options};
use ckrt_history::{JoinFault, KeepingDrive, Kept, KeptHistory, open_kept};
use ckrt_recovery::{RecoverFault, Session, recover};
use std::alloc::Global;

/// Why there was no drive.
#[derive(Debug, PartialEq, Drop)]
pub enum Unmade {
    /// The history wasn't opened.
    History(JoinFault),
    /// The disk wasn't recovered.
    Disk(RecoverFault),
}

/// Drives a session, and keeps its history.
fn keep<D: Disk, O: Disk, K: Disk>(
    session: Session<D>,
    output: O,
    options: Options,
    history: KeptHistory<K>,
) -> Kept<D, O, Nothing, K>
    requires { session.pending.items ≡ [] }
    ensures { RanKeeping options (⟦<Nothing as Feed>⟧.is_honest result.feed) None (2 ^ 64 - 1)
        (keeping_stage K.Disk (stage O.Disk options.events 0 session output)
        history.file history.place) result }
{
    let drive = Drive::new(session, output, options);
    KeepingDrive::new(drive, history).run(u64::MAX, &mut Nobody)
}

/// Opens a history, recovers its disk, and drives it: that is a run that keeps the history, where the three are honest in the end.
pub fn keep_once<D: Disk + Drop, O: Disk + Drop, K: Disk + Drop>(
    alloc: Global,
    disk: D,
    output: O,
    file: K,
    bytes: usize,
    options: Options,
) -> Result<Kept<D, O, Nothing, K>, Unmade>
    ensures { IfOk result (λ kept.
        D.is_honest kept.session.disk → O.is_honest kept.output → K.is_honest kept.file
        → RanBeside D.Disk O.Disk K.Disk (three disk output file)
        (three kept.session.disk kept.output kept.file)) }
{
    let mut disk = disk;
    let history = match open_kept(alloc, &mut disk, file, bytes) {
        Ok(history) => history,
        Err(unkept) => return Err(Unmade::History(unkept.fault)),
    };
    match recover(alloc, disk) {
        Ok(session) => Ok(keep(session, output, options, history)),
        Err(unrecovered) => Err(Unmade::Disk(unrecovered.fault)),
    }
}

/// Two runs that keep a history, the second on what a stop behind the first left, meet all premises of the law of a history beside many runs.
pub fn two_runs_beside<D: Disk, O: Disk, K: Disk>()
    ensures { (p : Program) → RanTwice D.Disk O.Disk K.Disk p
        → BesideWitness D.Disk O.Disk K.Disk }
{}
