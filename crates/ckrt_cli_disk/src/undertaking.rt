//! A session that is driven, with what it has beside it.
ghost use Rattle.std.specs.Prelude.{◌≡◌, [], None, Some, is_some, true};
ghost use Rattle.ckrt_cli_disk.specs.Driving.{DrivesWay, answer_of, driven_of, without_history, way_of};

use crate::address::fault_address;
use crate::equipping::Beside;
use crate::feeding::Intake;
use ckrt_cli_files::OutputReason;
use ckrt_cli_reports::{Driven, JobFault, Meter};
use ckrt_disk::Disk;
use ckrt_drive::{Drive, DriveFault, Feed, FromDisk, Nothing, Options};
use ckrt_history::{HistoryFault, KeepingDrive, KeepingFault, KeptHistory};
use ckrt_machine::Machine;
use ckrt_recovery::Session;
use ckrt_schedule::ScheduleEnd;

/// A session, its output, its input and its history's file after a drive, and what it came to.
#[derive(Drop)]
pub(crate) struct Undertaken<D: Disk, O, F> {
    pub(crate) session: Session<D>,
    pub(crate) output: O,
    pub(crate) input: F,
    pub(crate) history: Option<D>,
    pub(crate) driven: Result<Driven, KeepingFault>,
}

/// What a drive came to where its run answered so, and the machine stands so.
fn driven_of(
    machine: &Machine,
    answer: Result<Option<ScheduleEnd>, KeepingFault>,
) -> Result<Driven, KeepingFault>
    ensures { result ≡ driven_of machine.now.state answer }
{
    match answer {
        Ok(ending) => Ok(Driven {
            ending,
            status: machine.status(),
            address: fault_address(machine),
        }),
        Err(fault) => Err(fault),
    }
}

/// What a drive that keeps no history tells where its run answered so.
fn without_history(
    answer: Result<Option<ScheduleEnd>, DriveFault>,
) -> Result<Option<ScheduleEnd>, KeepingFault>
    ensures { result ≡ without_history answer }
{
    match answer {
        Ok(ending) => Ok(ending),
        Err(fault) => Err(KeepingFault::Drive(fault)),
    }
}

/// Drives a session that keeps no history, with its output in a disk of its own and its input from a feed, of which the program has taken
/// that many bytes.
fn run_alone<D: Disk, O: Disk, F: Feed, M: Meter>(
    session: Session<D>,
    output: O,
    feed: F,
    taken: u64,
    options: Options,
    meter: &mut M,
) -> Undertaken<D, O, F>
    ensures { DrivesWay O.Disk (record {
      options = options;
      IsRead = F.is_honest result.input;
      file = F.file feed;
      taken = taken;
      history = None;
      kept = result.history;
    })
        session result.session output result.output result.driven }
{
    let mut drive = Drive::with_feed(session, output, options, feed, taken);
    let answer = drive.run(u64::MAX, meter);
    let driven = driven_of(drive.session().machine(), without_history(answer));
    let (session, output, input) = drive.into_parts();
    Undertaken {
        session,
        output,
        input,
        history: None,
        driven,
    }
}

/// Tells the meter where the file of the history failed, or has no room left.
fn tell_history<M: Meter>(answer: &Result<Option<ScheduleEnd>, KeepingFault>, meter: &mut M) {
    if let Err(KeepingFault::Device | KeepingFault::Full) = answer {
        meter.history_failed();
    }
}

/// The same with a history, which has all events of the disk.
fn run_keeping<D: Disk, O: Disk, F: Feed, M: Meter>(
    session: Session<D>,
    output: O,
    feed: F,
    taken: u64,
    history: KeptHistory<D>,
    options: Options,
    meter: &mut M,
) -> Undertaken<D, O, F>
    requires { session.pending.items ≡ [] }
    ensures { DrivesWay O.Disk (record {
      options = options;
      IsRead = F.is_honest result.input;
      file = F.file feed;
      taken = taken;
      history = Some history;
      kept = result.history;
    })
        session result.session output result.output result.driven }
{
    let drive = Drive::with_feed(session, output, options, feed, taken);
    let keeping = KeepingDrive::new(drive, history);
    let ran = keeping.run(u64::MAX, meter);
    tell_history(&ran.answer, meter);
    let driven = driven_of(ran.session.machine(), ran.answer);
    Undertaken {
        session: ran.session,
        output: ran.output,
        input: ran.feed,
        history: Some(ran.file),
        driven,
    }
}

/// Drives a session, with a history, where there is one, with its output in a disk of its own and its input from a feed, of which the program
/// has taken that many bytes.
fn undertake<D: Disk, O: Disk, F: Feed, M: Meter>(
    session: Session<D>,
    output: O,
    feed: F,
    taken: u64,
    history: Option<KeptHistory<D>>,
    options: Options,
    meter: &mut M,
) -> Undertaken<D, O, F>
    requires { session.pending.items ≡ [] }
    ensures { DrivesWay O.Disk (record {
      options = options;
      IsRead = F.is_honest result.input;
      file = F.file feed;
      taken = taken;
      history = history;
      kept = result.history;
    })
        session result.session output result.output result.driven }
{
    match history {
        None => run_alone(session, output, feed, taken, options, meter),
        Some(history) => run_keeping(session, output, feed, taken, history, options, meter),
    }
}

/// Drives a session without an input, with its output in a disk of its own.
fn drive_unfed<D: Disk, O: Disk, M: Meter>(
    session: Session<D>,
    output: O,
    history: Option<KeptHistory<D>>,
    options: Options,
    meter: &mut M,
) -> Undertaken<D, O, Option<D>>
    requires { session.pending.items ≡ [] }
    ensures drives { DrivesWay O.Disk (way_of D.Disk options
        (record { intake = None; history = history })
        (record { input = result.input; history = result.history }))
        session result.session output result.output result.driven }
    ensures unfed { result.input ≡ None }
{
    let undertaken = undertake(session, output, Nothing, 0, history, options, meter);
    Undertaken {
        session: undertaken.session,
        output: undertaken.output,
        input: None,
        history: undertaken.history,
        driven: undertaken.driven,
    }
}

/// Drives a session with an input, and with its output in a disk of its own.
fn drive_fed<D: Disk, O: Disk, M: Meter>(
    session: Session<D>,
    output: O,
    intake: Intake<D>,
    history: Option<KeptHistory<D>>,
    options: Options,
    meter: &mut M,
) -> Undertaken<D, O, Option<D>>
    requires { session.pending.items ≡ [] }
    ensures drives { DrivesWay O.Disk (way_of D.Disk options
        (record { intake = Some intake; history = history })
        (record { input = result.input; history = result.history }))
        session result.session output result.output result.driven }
    ensures fed { is_some result.input ≡ true }
{
    meter.fed(intake.taken);
    let feed = FromDisk::new(intake.file);
    let undertaken = undertake(session, output, feed, intake.taken, history, options, meter);
    Undertaken {
        session: undertaken.session,
        output: undertaken.output,
        input: Some(undertaken.input.into_disk()),
        history: undertaken.history,
        driven: undertaken.driven,
    }
}

/// Drives a session, with what it has beside it, and with its output in a disk of its own.
pub(crate) fn drive_session<D: Disk, O: Disk, M: Meter>(
    session: Session<D>,
    output: O,
    beside: Beside<D>,
    options: Options,
    meter: &mut M,
) -> Undertaken<D, O, Option<D>>
    requires { session.pending.items ≡ [] }
    ensures drives { DrivesWay O.Disk (way_of D.Disk options beside
        (record { input = result.input; history = result.history }))
        session result.session output result.output result.driven }
    ensures kept { is_some result.input ≡ is_some beside.intake }
{
    let Beside { intake, history } = beside;
    match intake {
        Some(intake) => drive_fed(session, output, intake, history, options, meter),
        None => drive_unfed(session, output, history, options, meter),
    }
}

/// What the job answers where its drive answered so. Of an output that failed it says why.
pub(crate) fn answer_of(
    why: OutputReason,
    driven: Result<Driven, KeepingFault>,
) -> Result<Driven, JobFault>
    ensures { result ≡ answer_of why driven }
{
    match driven {
        Ok(driven) => Ok(driven),
        Err(KeepingFault::Drive(DriveFault::Output)) => Err(JobFault::OutputFailed(why)),
        Err(KeepingFault::Drive(fault)) => Err(JobFault::Drive(fault)),
        Err(KeepingFault::Device) => Err(JobFault::History(HistoryFault::Device)),
        Err(KeepingFault::Full) => Err(JobFault::HistoryFull),
    }
}
