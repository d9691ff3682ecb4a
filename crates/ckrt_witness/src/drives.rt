//! A drive that is made, as the promise of many drives speaks of it.
ghost use Rattle.std.specs.Prelude.{ℕ, List, Some, IfOk};
ghost use Rattle.ckrt_drive.specs.Stages.{stage};
ghost use Rattle.ckrt_stored.specs.Programs.{Program};
ghost use Rattle.ckrt_witness.specs.Drives.{Drove, DroveTwice, Records, Went, Witness};

use ckrt_disk::Disk;
use ckrt_drive::{Drive, DriveFault, FromDisk, Nobody, Options};
use ckrt_recovery::{RecoverFault, Session, recover};
use ckrt_schedule::ScheduleEnd;
use std::alloc::Global;

/// What a drive leaves, and what it answered.
#[derive(Drop)]
pub struct Left<D: Disk, O, I> {
    pub session: Session<D>,
    pub output: O,
    pub input: I,
    pub answer: Result<Option<ScheduleEnd>, DriveFault>,
}

/// Drives a session, with an input of which so much was taken.
fn go<D: Disk, O: Disk, I: Disk>(
    session: Session<D>,
    output: O,
    input: I,
    taken: u64,
    options: Options,
) -> Left<D, O, I>
    ensures { Went {d = D.Disk} {o = O.Disk} options (I.is_honest result.input)
        (Some (I.content input)) (stage O.Disk options.events taken session output) result.session
        result.output }
{
    let feed = FromDisk::new(input);
    let mut drive = Drive::with_feed(session, output, options, feed, taken);
    let answer = drive.run(u64::MAX, &mut Nobody);
    let (session, output, feed) = drive.into_parts();
    Left {
        session,
        output,
        input: feed.into_disk(),
        answer,
    }
}

/// Recovers a disk and drives it: that is a drive, where disk, output and input are honest in the end, and where its record tells what
/// the drive is told.
pub fn drive_once<D: Disk + Drop, O: Disk + Drop, I: Disk + Drop>(
    alloc: Global,
    disk: D,
    output: O,
    input: I,
    taken: u64,
    options: Options,
) -> Result<Left<D, O, I>, RecoverFault>
    ensures { IfOk result (λ left.
        D.is_honest left.session.disk → O.is_honest left.output → I.is_honest left.input
        → Records D.Disk disk taken
        → Drove D.Disk O.Disk disk output (I.content input) left.session.disk left.output) }
{
    match recover(alloc, disk) {
        Ok(session) => Ok(go(session, output, input, taken, options)),
        Err(unrecovered) => Err(unrecovered.fault),
    }
}

/// Two drives of a formatted disk with one input, the second on what a stop behind the first left, meet all premises of the promise
/// of many drives.
pub fn two_drives<D: Disk, O: Disk>()
    ensures { (p : Program) (file : List ℕ) → DroveTwice D.Disk O.Disk p file
        → Witness D.Disk O.Disk file }
{}
