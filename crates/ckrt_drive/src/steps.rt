//! Steps of a drive.
ghost use Rattle.std.specs.Prelude.{◌≡◌, ◌≤◌, ◌<◌, ◌+◌, ◌-◌, ◌*◌, ◌^◌, [], ◌∷◌, is_err, true, Err, None, Ok, Option, Some, OnErr, IfErr, IfOk, IfSome};
ghost use Rattle.ckrt_disk.specs.Disk.{CountsFault};
ghost use Rattle.ckrt_events.specs.Bytes.{IsInRange};
ghost use Rattle.ckrt_recovery.specs.declared.fault.SubmitFault.{SubmitFault};
ghost use Rattle.ckrt_recovery.specs.View.{view_of, refusal_of};
ghost use Rattle.ckrt_drive.specs.declared.fault.DriveFault.TheVariants.{Input};
ghost use Rattle.ckrt_drive.specs.declared.step_done.StepDone.TheVariants.{Committed, Checkpointed, Released};
ghost use Rattle.ckrt_schedule.specs.Schedules.{places_of};
ghost use Rattle.ckrt_drive.specs.Plan.{is_checkpoint_due, is_commit_due, is_filled, is_old, is_settled, is_shortage, left_after, make_room, offered, plan, plan_for, plan_next, plan_onward};
ghost use Rattle.ckrt_drive.specs.Given.{CountsRead, IsSupplied};
ghost use Rattle.ckrt_drive.specs.Stages.{TakesStep, stage};
ghost use Rattle.ckrt_drive.specs.Steps.{Advances, Steps, accepted_by, aim, aim_of};
ghost use Rattle.ckrt_schedule.specs.Taken as input;

use crate::fault::DriveFault;
use crate::feed::Feed;
use crate::options::Options;
use crate::plan::next_for;
use crate::saving::RECORD_BYTES;
use crate::slot::TAKEN_LIMIT;
use crate::step_done::StepDone;
use crate::supply::Supply;
use ckrt_disk::{DeviceFault, Disk, write_synced};
use ckrt_events::Event;
use ckrt_journal::FRAME_LIMIT;
use ckrt_machine::Refusal;
use ckrt_recovery::{CommitFault, Session, SubmitFault};
use ckrt_schedule::{Next, taken_by};

/// Acknowledges the events so far by a commit.
fn commit<D: Disk>(session: &mut Session<D>, recorded: Option<u64>) -> Result<StepDone, DriveFault>
    ensures { Advances (aim (Ok Committed) recorded) session.old session.new result }
{
    match session.commit() {
        Ok(_) => Ok(StepDone::Committed),
        Err(_) => Err(DriveFault::Device),
    }
}

/// Acknowledges the events so far by a checkpoint that has no record.
fn checkpoint_alone<D: Disk>(session: &mut Session<D>) -> Result<StepDone, DriveFault>
    ensures { Advances (aim (Ok Checkpointed) None) session.old session.new result }
{
    match session.checkpoint() {
        Ok(_) => Ok(StepDone::Checkpointed),
        Err(CommitFault::GenerationsUsed) => Err(DriveFault::GenerationsUsed),
        Err(CommitFault::Failed) => Err(DriveFault::Device),
        Err(CommitFault::Device) => Err(DriveFault::Device),
    }
}

/// Acknowledges the events so far by a checkpoint that records how much of its input the program has taken.
fn checkpoint_recorded<D: Disk>(
    session: &mut Session<D>,
    taken: u64,
) -> Result<StepDone, DriveFault>
    ensures { Advances (aim (Ok Checkpointed) (Some taken)) session.old session.new result }
{
    if session.spare_room() < RECORD_BYTES || taken >= TAKEN_LIMIT {
        return Err(DriveFault::NoRecord);
    }
    match crate::saving::checkpoint(session, taken) {
        Ok(_) => Ok(StepDone::Checkpointed),
        Err(CommitFault::GenerationsUsed) => Err(DriveFault::GenerationsUsed),
        Err(CommitFault::Failed) => Err(DriveFault::Device),
        Err(CommitFault::Device) => Err(DriveFault::Device),
    }
}

/// Acknowledges the events so far by a checkpoint.
fn checkpoint<D: Disk>(
    session: &mut Session<D>,
    recorded: Option<u64>,
) -> Result<StepDone, DriveFault>
    ensures { Advances (aim (Ok Checkpointed) recorded) session.old session.new result }
{
    match recorded {
        Some(taken) => checkpoint_recorded(session, taken),
        None => checkpoint_alone(session),
    }
}

/// Whether nothing is pending.
fn is_settled<D: Disk>(session: &Session<D>) -> bool
    ensures { result ≡ is_settled (view_of session.now) }
{
    session.acknowledged() == session.count()
}

/// Whether the area is of version 1, whose journal has no long runs.
fn is_old<D: Disk>(session: &Session<D>) -> bool
    ensures { result ≡ is_old (view_of session.now) }
{
    session.version() < 2
}

/// Whether the journal has a batch, and might have no room for another.
fn is_filled<D: Disk>(session: &Session<D>) -> bool
    ensures { result ≡ is_filled (view_of session.now) }
{
    session.has_batches() && session.room() < FRAME_LIMIT
}

/// Whether a checkpoint comes first.
fn is_checkpoint_due<D: Disk>(session: &Session<D>) -> bool
    ensures { result ≡ is_checkpoint_due (view_of session.now) }
{
    is_settled(session) && (is_old(session) || is_filled(session))
}

/// How many places a round has.
fn places_of<D: Disk>(session: &Session<D>) -> u64
    ensures places { result ≡ places_of session.now.progress.machine.state.tables }
    ensures few { result ≤ 17 }
{
    2 * session.machine().tables().threads.hart_count() as u64 + 1
}

/// Whether a commit comes first.
fn is_commit_due<D: Disk>(session: &Session<D>, options: &Options) -> bool
    ensures { result ≡ is_commit_due options.now (view_of session.now) }
{
    let pending = session.count() - session.acknowledged();
    is_old(session) || u64::from(options.rounds) * places_of(session) <= pending
}

/// Makes room: by a commit where something is pending, and else by a checkpoint.
fn make_room<D: Disk>(
    session: &mut Session<D>,
    recorded: Option<u64>,
) -> Result<StepDone, DriveFault>
    ensures { Advances (aim (Ok (make_room (view_of session.old))) recorded)
        session.old session.new result }
{
    if is_settled(session) {
        checkpoint(session, recorded)
    } else {
        commit(session, recorded)
    }
}

/// Whether a commit or a checkpoint makes room for the event.
fn is_shortage(fault: SubmitFault) -> bool
    ensures { result ≡ is_shortage fault }
{
    matches!(
        fault,
        SubmitFault::Refused(Refusal::OutputFull)
            | SubmitFault::BatchFull
            | SubmitFault::JournalFull
    )
}

/// Hands an event in; where there is no room for it, makes some.
fn offer<D: Disk>(
    session: &mut Session<D>,
    event: Event,
    recorded: Option<u64>,
) -> Result<StepDone, DriveFault>
    requires { IsInRange event }
    ensures { Advances (aim (offered (view_of session.old) event
        (refusal_of (view_of session.old) event)) recorded) session.old session.new result }
{
    match session.submit(&event) {
        Ok((_, answer)) => Ok(StepDone::Submitted(event, answer)),
        Err(fault) => {
            if is_shortage(fault) {
                return make_room(session, recorded);
            }
            Err(DriveFault::Refused(fault))
        }
    }
}

/// Writes the released bytes at their offset, syncs the output, and then confirms them.
fn release<D: Disk, O: Disk>(
    session: &mut Session<D>,
    output: &mut O,
    recorded: Option<u64>,
) -> Result<StepDone, DriveFault>
    ensures steps { Steps O.Disk (aim (Ok Released) recorded) session.old session.new
        output.old output.new result }
    ensures unread { IfErr result (λ fault. fault ≡ Input → ⊥) }
{
    let released = session.released();
    if output.size() < released as usize {
        return Err(DriveFault::OutputFull);
    }
    let (offset, bytes) = session.take_output();
    if write_synced(output, offset as usize, bytes).is_err() {
        return Err(DriveFault::Output);
    }
    session.confirm(released);
    Ok(StepDone::Released)
}

/// Hands in the next event, or finds that there is none, once all is acknowledged.
fn do_next<D: Disk>(
    session: &mut Session<D>,
    options: &Options,
    supply: Supply,
) -> Result<StepDone, DriveFault>
    requires { IfSome supply.given IsInRange }
    ensures { Advances (aim (plan_next options.now supply (view_of session.old)) supply.recorded)
        session.old session.new result }
{
    let behind = session.count();
    let recorded = supply.recorded;
    match next_for(session.machine(), options, supply, behind) {
        Next::Submit(event) => offer(session, event, recorded),
        Next::End(ending) => {
            if !is_settled(session) {
                return commit(session, recorded);
            }
            Ok(StepDone::Stopped(ending))
        }
    }
}

/// Saves what has to be saved first, or else does what is next.
fn go_on<D: Disk>(
    session: &mut Session<D>,
    options: &Options,
    supply: Supply,
) -> Result<StepDone, DriveFault>
    requires { IfSome supply.given IsInRange }
    ensures { Advances (aim (plan_onward options.now supply (view_of session.old)) supply.recorded)
        session.old session.new result }
{
    if is_checkpoint_due(session) {
        return checkpoint(session, supply.recorded);
    }
    if is_commit_due(session, options) {
        return commit(session, supply.recorded);
    }
    do_next(session, options, supply)
}

/// Does what is planned.
fn advance<D: Disk, O: Disk>(
    session: &mut Session<D>,
    output: &mut O,
    options: &Options,
    supply: Supply,
) -> Result<StepDone, DriveFault>
    requires { IfSome supply.given IsInRange }
    ensures steps { Steps O.Disk (aim_of options.now supply (view_of session.old)) session.old
        session.new output.old output.new result }
    ensures unread { IfErr result (λ fault. fault ≡ Input → ⊥) }
{
    if session.confirmed() < session.released() {
        return release(session, output, supply.recorded);
    }
    go_on(session, options, supply)
}

/// How many events are left after what the drive did.
fn left_after(did: &StepDone, left: u64) -> u64
    ensures { result ≡ left_after did.now left }
{
    match did {
        StepDone::Submitted(_, _) => left.saturating_sub(1),
        StepDone::Committed | StepDone::Checkpointed | StepDone::Released | StepDone::Stopped(_) =>
            left,
    }
}

/// How many bytes of input the program took by what the drive did.
fn taken_in(did: &StepDone) -> u64
    ensures { result ≡ input.taken_by (accepted_by did.now) }
{
    match did {
        StepDone::Submitted(event, _) => taken_by(event) as u64,
        StepDone::Committed | StepDone::Checkpointed | StepDone::Released | StepDone::Stopped(_) =>
            0,
    }
}

/// What the next step goes by: the feed is asked what the program is given.
fn supply_from<D: Disk, F: Feed>(
    feed: &mut F,
    session: &Session<D>,
    left: u64,
    taken: u64,
) -> Result<Supply, DeviceFault>
    ensures left { IfOk result (λ w. w.left ≡ left) }
    ensures supplied { IfOk result (λ w. F.is_honest feed.new
        → IsSupplied (F.file feed.old) taken session.now.progress.machine.state.tables w) }
    ensures in_range { IfOk result (λ w. IfSome w.given IsInRange) }
    ensures few { IfOk result (λ w.
        IfSome w.given (λ e. taken + input.taken_by (e ∷ []) < 2 ^ 64)) }
    ensures small { taken < 2 ^ 64 }
    ensures file { F.is_honest feed.new → F.file feed.new ≡ F.file feed.old }
    ensures honest { F.is_honest feed.new → F.is_honest feed.old }
    ensures failures { CountsFault (F.failures feed.old) (F.failures feed.new) result }
{
    let given = feed.next(session.machine().tables(), taken)?;
    let recorded = feed.is_recorded().then_some(taken);
    Ok(Supply {
        left,
        given,
        recorded,
    })
}

/// Does what is planned, and counts the events that are left and the bytes of input that are taken.
pub(crate) fn step<D: Disk, O: Disk, F: Feed>(
    session: &mut Session<D>,
    output: &mut O,
    feed: &mut F,
    options: &Options,
    left: &mut u64,
    taken: &mut u64,
) -> Result<StepDone, DriveFault>
    ensures steps { TakesStep options.now (F.is_honest feed.new) (F.file feed.old)
        (stage O.Disk left.old taken.old session.old output.old)
        (stage O.Disk left.new taken.new session.new output.new) result }
    ensures left { IfOk result (λ did. left.new ≡ left_after did left.old) }
    ensures kept { OnErr result (left.new ≡ left.old) }
    ensures file { F.is_honest feed.new → F.file feed.new ≡ F.file feed.old }
    ensures honest { F.is_honest feed.new → F.is_honest feed.old }
    ensures reads { CountsRead (F.failures feed.old) (F.failures feed.new) result }
{
    let Ok(supply) = supply_from(feed, session, *left, *taken) else {
        return Err(DriveFault::Input);
    };
    let did = advance(session, output, options, supply)?;
    *left = left_after(&did, *left);
    *taken += taken_in(&did);
    Ok(did)
}
