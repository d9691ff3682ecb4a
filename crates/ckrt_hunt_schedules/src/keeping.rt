//! A run that is kept on a disk, whole from its first event.
ghost use Rattle.std.specs.Prelude.{◌≡◌, ◌≤◌, ◌<◌, ◌+◌, true, [], OnOk, OnErr, IfErr, IfOk};
ghost use Rattle.ckrt_events.specs.Bytes.{IsInRange};
ghost use Rattle.ckrt_recovery.specs.View.{refusal_of, view_of};
ghost use Rattle.ckrt_recovery.specs.Accepts.{Accepts};
ghost use Rattle.ckrt_hunt_schedules.specs.Kept.{GoesOn, IsLeft, IsTaken, KeepsRun, Takes, commit_makes_room};
ghost use Rattle.ckrt_hunt_schedules.specs.Turns.{IsFit};

use crate::made::Made;
use crate::plan::Plan;
use crate::turn::{next, runner_of};
use ckrt_disk::Disk;
use ckrt_events::Event;
use ckrt_machine::{Answer, Refusal};
use ckrt_recovery::{Session, SubmitFault};
use ckrt_schedule::{Next, ScheduleEnd};
use thiserror::Error;

/// Why a run isn't kept whole. The disk then has the events before, as far as they were acknowledged.
#[derive(Clone, Copy, Debug, PartialEq, Eq, Error)]
pub enum KeepFault {
    /// The disk failed a commit, or had before: the session has to be recovered.
    #[error("Device")]
    Device,
    /// The session refuses an event: mostly by `JournalFull`, where the run wants a disk with a larger journal.
    #[error("{0}")]
    Refused(SubmitFault),
}

/// Acknowledges all events so far, and drops the output that is released then.
fn save<D: Disk>(session: &mut Session<D>) -> Result<(), KeepFault>
    ensures accepts { Accepts [] session.old session.new }
    ensures saved { OnOk result (session.new.acknowledged ≡ session.new.progress.count) }
    ensures dropped { OnOk result (session.new.progress.confirmed ≡ session.new.released) }
    ensures machine { session.new.progress.machine ≡ session.old.progress.machine }
    ensures device { IfErr result (λ fault. fault ≡ KeepFault.Device) }
    ensures failed { OnErr result (session.new.failed ≡ true) }
{
    match session.commit() {
        Ok(_) => {
            let released = session.released();
            session.confirm(released);
            Ok(())
        }
        Err(_) => Err(KeepFault::Device),
    }
}

/// Hands an event in.
fn submit<D: Disk>(session: &mut Session<D>, event: &Event) -> Result<Answer, SubmitFault>
    requires { IsInRange event.now }
    ensures taken { IfOk result (IsTaken event.now session.old session.new) }
    ensures refused { IfErr result (λ why. refusal_of (view_of session.old) event.now ≡ Some why) }
    ensures same { OnErr result (session.new ≡ session.old) }
{
    match session.submit(event) {
        Ok((_, answer)) => Ok(answer),
        Err(fault) => Err(fault),
    }
}

/// Hands an event in after a commit.
fn submit_saved<D: Disk>(session: &mut Session<D>, event: &Event) -> Result<Answer, KeepFault>
    requires { IsInRange event.now }
    ensures { Takes event.now session.old session.new result }
{
    save(session)?;
    match submit(session, event) {
        Ok(answer) => Ok(answer),
        Err(fault) => Err(KeepFault::Refused(fault)),
    }
}

/// Whether a commit makes room.
fn commit_makes_room(fault: SubmitFault) -> bool
    ensures { result ≡ commit_makes_room fault }
{
    match fault {
        SubmitFault::Refused(Refusal::OutputFull) | SubmitFault::BatchFull => true,
        SubmitFault::Failed
        | SubmitFault::NeedsCheckpoint
        | SubmitFault::Refused(_)
        | SubmitFault::JournalFull
        | SubmitFault::CountersUsed => false,
    }
}

/// Hands an event in; where the batch or the held output has no room for it, all before it is acknowledged first.
fn take<D: Disk>(session: &mut Session<D>, event: &Event) -> Result<Answer, KeepFault>
    requires { IsInRange event.now }
    ensures { Takes event.now session.old session.new result }
{
    match submit(session, event) {
        Ok(answer) => Ok(answer),
        Err(fault) => {
            if commit_makes_room(fault) {
                return submit_saved(session, event);
            }
            Err(KeepFault::Refused(fault))
        }
    }
}

/// One event on.
fn keep_event<D: Disk>(
    session: &mut Session<D>,
    plan: &Plan<'_>,
    made: &mut Made,
    event: &Event,
) -> Result<(), KeepFault>
    requires fit { IsFit plan.now made.old session.old.progress.machine.state.tables event.now }
    requires turns { made.old.turns ≤ made.old.events }
    ensures on { OnOk result (GoesOn plan.now event.now
        session.old session.new made.old made.new) }
    ensures left { IfErr result (IsLeft event.now session.old session.new) }
    ensures events { OnOk result (made.new.events ≡ made.old.events + 1) }
    ensures turns { OnOk result (made.new.turns ≤ made.new.events) }
{
    let who = runner_of(session.machine().tables(), event);
    let answer = take(session, event)?;
    *made = made.with(plan, who, answer);
    Ok(())
}

/// The end of a run: all its events are acknowledged.
fn finish<D: Disk>(session: &mut Session<D>, ending: ScheduleEnd) -> Result<ScheduleEnd, KeepFault>
    ensures accepts { Accepts [] session.old session.new }
    ensures ended { IfOk result (λ e. e ≡ ending) }
    ensures saved { OnOk result (session.new.acknowledged ≡ session.new.progress.count) }
    ensures device { IfErr result (λ fault. fault ≡ KeepFault.Device) }
    ensures failed { OnErr result (session.new.failed ≡ true) }
{
    match save(session) {
        Ok(()) => Ok(ending),
        Err(fault) => Err(fault),
    }
}

/// Runs a program by a plan over a session, from where it stands, and acknowledges the run's events: they are those that
/// [`run`](crate::run) has from there. Its output isn't kept. It takes no memory.
pub fn keep<D: Disk>(session: &mut Session<D>, plan: &Plan<'_>) -> Result<ScheduleEnd, KeepFault>
    requires { 1 ≤ session.old.progress.machine.state.tables.threads.hart_count }
    ensures { KeepsRun plan.now session.old session.new result }
{
    let mut made = Made::nothing();
    'events: loop {
        match next(session.machine(), plan, &made) {
            Next::Submit(event) => keep_event(session, plan, &mut made, &event)?,
            Next::End(ending) => return finish(session, ending),
        }
    }
}
