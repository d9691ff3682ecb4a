//! Drives without an input, as the promise of turns in drives speaks of them.
ghost use Rattle.std.specs.Prelude.{◌≡◌, ◌≤◌, None, IfSome, true};
ghost use Rattle.ckrt_drive.specs.Plan.{schedule_of};
ghost use Rattle.ckrt_drive.specs.Stages.{stage};
ghost use Rattle.ckrt_drive.specs.declared.options.Options.{Options};
ghost use Rattle.ckrt_drive.specs.ByPlan.{course};
ghost use Rattle.ckrt_stored.specs.Programs.{Program};
ghost use Rattle.ckrt_thread.specs.State.{is_ready};
ghost use Rattle.ckrt_schedule.specs.Turns.{turns_within};
ghost use Rattle.ckrt_witness.specs.DriveTurns.{DriveTurnsWitness, DroveAlone, DroveTurns, MakesTurns};
ghost use Rattle.ckrt_witness.specs.Drives.{Went};

use ckrt_disk::Disk;
use ckrt_drive::{Drive, Nobody, Options, power_may_go};
use ckrt_recovery::{Session, recover};
use std::alloc::Global;

/// What such a drive leaves.
#[derive(Drop)]
pub struct Alone<D: Disk, O> {
    pub session: Session<D>,
    pub output: O,
}

/// Drives a session without an input.
fn go_alone<D: Disk, O: Disk>(session: Session<D>, output: O, options: Options) -> Alone<D, O>
    ensures { Went {d = D.Disk} {o = O.Disk} options (Unit {0}) None
        (stage O.Disk options.events 0 session output) result.session result.output }
{
    let mut drive = Drive::new(session, output, options);
    let _answer = drive.run(u64::MAX, &mut Nobody);
    let (session, output, _feed) = drive.into_parts();
    Alone { session, output }
}

/// Whether thread 1 of a session is ready.
fn has_ready<D: Disk>(session: &Session<D>) -> bool
    ensures { result ≡ true
        → is_ready session.now.progress.machine.state.tables.threads 1 ≡ true }
{
    session.machine().tables().threads.is_ready(1)
}

/// Whether as many events were made as the promise of turns speaks of, with so many harts.
fn has_turns<D: Disk>(session: &Session<D>, harts: usize) -> bool
    ensures { result ≡ true → turns_within harts 0 ≤ session.now.progress.count }
{
    harts <= 8 && 64 * (2 * harts as u64 + 1) <= session.count()
}

/// Recovers a disk and drives it without an input: that is a drive, where disk and output are honest in the end. None where the disk doesn't
/// recover.
pub fn drive_alone<D: Disk + Drop, O: Disk + Drop>(
    alloc: Global,
    disk: D,
    output: O,
    options: Options,
) -> Option<Alone<D, O>>
    ensures { IfSome result (λ left.
        D.is_honest left.session.disk → O.is_honest left.output
        → DroveAlone D.Disk O.Disk (course (schedule_of options) None) disk output
        left.session.disk left.output) }
{
    let Ok(session) = recover(alloc, disk) else {
        return None;
    };
    Some(go_alone(session, output, options))
}

/// The same, where thread 1 is ready before, and as many events are made as the promise of turns speaks of. None where it isn't so, too.
pub fn drive_turns<D: Disk + Drop, O: Disk + Drop>(
    alloc: Global,
    disk: D,
    output: O,
    options: Options,
) -> Option<Alone<D, O>>
    ensures { IfSome result (λ left.
        D.is_honest left.session.disk → O.is_honest left.output
        → (drove : DroveAlone D.Disk O.Disk (course (schedule_of options) None) disk output
        left.session.disk left.output) × MakesTurns drove.drive) }
{
    let Ok(session) = recover(alloc, disk) else {
        return None;
    };
    if !has_ready(&session) {
        return None;
    }
    let harts = session.machine().tables().threads.hart_count();
    let left = go_alone(session, output, options);
    if !has_turns(&left.session, harts) {
        return None;
    }
    Some(left)
}

/// Two drives of a formatted disk without an input, the second on what a stop behind the first left, meet all premises of the promise.
pub fn turn_twice<D: Disk, O: Disk>()
    ensures { (p : Program) → DroveTurns D.Disk O.Disk p → DriveTurnsWitness D.Disk O.Disk }
{
    power_may_go::<D, O>();
}
