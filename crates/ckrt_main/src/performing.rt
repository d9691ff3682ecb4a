//! Commands over a session, and what a listener is told of them.
ghost use Rattle.std.specs.Prelude.{◌≡◌, ◌≤◌, false, is_none, Some, Ok, IfOk, IfSome, OnErr, OnOk};
ghost use Rattle.ckrt_events.specs.Bytes.{IsInRange};
ghost use Rattle.ckrt_events.specs.Line.{IsInRangeCommand};
ghost use Rattle.ckrt_events.specs.declared.event.Event.TheVariants.{Place, Run};
ghost use Rattle.ckrt_events.specs.declared.command.Command.TheVariants.{Auto};
ghost use Rattle.ckrt_machine.specs.Events as machine;
ghost use Rattle.ckrt_recovery.specs.View.{view_of, refusal_of};
ghost use Rattle.ckrt_main.specs.Pieces.{Answers, BreaksOff, Tells};
ghost use Rattle.ckrt_main.specs.Transcript as transcript;

use crate::listener::Listener;
use ckrt_disk::Disk;
use ckrt_events::{Command, Event};
use ckrt_recovery::Session;
use ckrt_thread::{Hart, ThreadId};

/// Tells the released output, and then confirms it; where the listener fails nothing is confirmed.
pub fn release<L: Listener<T>, T, D: Disk>(
    session: &mut Session<D>,
    to: &mut T,
) -> Result<(), L::Fault>
    ensures ok { OnOk result (Answers transcript.output false
        (Tells L.text (L.contents to.old) (L.contents to.new)) session.old
        session.new) }
    ensures broken { OnErr result (BreaksOff transcript.output
        (Tells L.text (L.contents to.old) (L.contents to.new)) session.old
        session.new) }
{
    let released = session.released();
    let (offset, bytes) = session.take_output();
    L::output(to, offset, bytes)?;
    session.confirm(released);
    Ok(())
}

/// Hands an event to the session, tells what it answers, and answers whether the event was accepted.
fn submit<L: Listener<T>, T, D: Disk>(
    session: &mut Session<D>,
    to: &mut T,
    event: &Event,
) -> Result<bool, L::Fault>
    requires { IsInRange event.now }
    ensures accepted { IfOk result
        (λ accepted. accepted ≡ is_none (refusal_of (view_of session.old) event.now)) }
    ensures ok { OnOk result (Answers (transcript.submit event.now) false
        (Tells L.text (L.contents to.old) (L.contents to.new)) session.old
        session.new) }
    ensures broken { OnErr result (BreaksOff (transcript.submit event.now)
        (Tells L.text (L.contents to.old) (L.contents to.new)) session.old
        session.new) }
{
    match session.submit(event) {
        Ok((count, answer)) => {
            L::accepted(to, count, answer)?;
            Ok(true)
        }
        Err(fault) => {
            L::refused(to, fault)?;
            Ok(false)
        }
    }
}

/// Places a thread onto a hart, and runs the hart unless that was refused.
fn place_and_run<L: Listener<T>, T, D: Disk>(
    session: &mut Session<D>,
    to: &mut T,
    hart: Hart,
    thread: ThreadId,
    steps: u16,
) -> Result<(), L::Fault>
    requires place { IsInRange (Place hart thread) }
    requires run { IsInRange (Run hart steps) }
    ensures ok { OnOk result (Answers (transcript.run_planned (Some thread) hart steps) false
        (Tells L.text (L.contents to.old) (L.contents to.new)) session.old
        session.new) }
    ensures broken { OnErr result (BreaksOff (transcript.run_planned (Some thread) hart steps)
        (Tells L.text (L.contents to.old) (L.contents to.new)) session.old
        session.new) }
{
    if submit::<L, T, D>(session, to, &Event::Place(hart, thread))? {
        submit::<L, T, D>(session, to, &Event::Run(hart, steps))?;
        return Ok(());
    }
    Ok(())
}

/// The thread to place onto a hart next, 1 to 64.
fn planned<D: Disk>(session: &Session<D>, hart: Hart) -> Option<ThreadId>
    ensures planned { result ≡ machine.planned hart session.now.progress.machine.state.tables }
    ensures in_range { IfSome result (λ thread. (1 ≤ thread) × (thread ≤ 64)) }
{
    session.machine().planned(hart)
}

/// Places the planned thread onto a hart, if there is one, and runs the hart unless that was refused.
fn run_planned<L: Listener<T>, T, D: Disk>(
    session: &mut Session<D>,
    to: &mut T,
    hart: Hart,
    steps: u16,
) -> Result<(), L::Fault>
    requires { IsInRange (Run hart steps) }
    ensures ok { OnOk result (Answers (transcript.respond (Ok (Auto hart steps))) false
        (Tells L.text (L.contents to.old) (L.contents to.new)) session.old
        session.new) }
    ensures broken { OnErr result (BreaksOff (transcript.respond (Ok (Auto hart steps)))
        (Tells L.text (L.contents to.old) (L.contents to.new)) session.old
        session.new) }
{
    match planned(session, hart) {
        Some(thread) => place_and_run::<L, T, D>(session, to, hart, thread, steps),
        None => {
            submit::<L, T, D>(session, to, &Event::Run(hart, steps))?;
            Ok(())
        }
    }
}

/// Commits the events so far, acknowledges them, and tells the released output.
fn commit<L: Listener<T>, T, D: Disk>(session: &mut Session<D>, to: &mut T) -> Result<(), L::Fault>
    ensures ok { OnOk result (Answers transcript.commit false
        (Tells L.text (L.contents to.old) (L.contents to.new)) session.old
        session.new) }
    ensures broken { OnErr result (BreaksOff transcript.commit
        (Tells L.text (L.contents to.old) (L.contents to.new)) session.old
        session.new) }
{
    match session.commit() {
        Ok(count) => {
            L::acknowledged(to, count)?;
            release::<L, T, D>(session, to)
        }
        Err(fault) => L::not_saved(to, fault),
    }
}

/// Saves the state after the events so far, acknowledges them, and tells the released output.
fn checkpoint<L: Listener<T>, T, D: Disk>(
    session: &mut Session<D>,
    to: &mut T,
) -> Result<(), L::Fault>
    ensures ok { OnOk result (Answers transcript.checkpoint false
        (Tells L.text (L.contents to.old) (L.contents to.new)) session.old
        session.new) }
    ensures broken { OnErr result (BreaksOff transcript.checkpoint
        (Tells L.text (L.contents to.old) (L.contents to.new)) session.old
        session.new) }
{
    match session.checkpoint() {
        Ok(count) => {
            L::acknowledged(to, count)?;
            release::<L, T, D>(session, to)
        }
        Err(fault) => L::not_saved(to, fault),
    }
}

/// Does what a command says, tells the listener, and answers whether the command was `quit`.
///
/// An event or a commit that is refused is told, and no fault. Each reply is told before the next call of the session, and what
/// a commit or a checkpoint releases is told after its acknowledgement and then confirmed.
pub fn perform<L: Listener<T>, T, D: Disk>(
    session: &mut Session<D>,
    to: &mut T,
    command: &Command,
) -> Result<bool, L::Fault>
    requires { IsInRangeCommand command.now }
    ensures ok { IfOk result (λ quit.
        Answers (transcript.respond (Ok command.now)) quit
        (Tells L.text (L.contents to.old) (L.contents to.new)) session.old
        session.new) }
    ensures broken { OnErr result (BreaksOff (transcript.respond (Ok command.now))
        (Tells L.text (L.contents to.old) (L.contents to.new)) session.old
        session.new) }
{
    match command {
        Command::Submit(event) => {
            submit::<L, T, D>(session, to, event)?;
            Ok(false)
        }
        Command::Auto(hart, steps) => {
            run_planned::<L, T, D>(session, to, *hart, *steps)?;
            Ok(false)
        }
        Command::Commit => {
            commit::<L, T, D>(session, to)?;
            Ok(false)
        }
        Command::Checkpoint => {
            checkpoint::<L, T, D>(session, to)?;
            Ok(false)
        }
        Command::Quit => Ok(true),
        Command::Blank => Ok(false),
    }
}
