//! How far a drive or a hunt is, told while it runs.
ghost use Rattle.std.specs.Prelude.{◌≡◌};
ghost use Rattle.ckrt_cli_reports.specs.Ends.{standing_of};
ghost use Rattle.ckrt_cli_reports.specs.Standings.{readings_of};

use crate::history_watch::HistoryWatch;
use crate::hunted::HuntTimes;
use crate::reach::{Behind, Reach};
use crate::rhythm::Rhythm;
use crate::status::StatusFile;
use crate::table::TableFile;
use crate::watch::{Meter, Watch};
use ckrt_cli_files::FileFault;
use ckrt_disk::Disk;
use ckrt_drive::{Onlooker, StepDone};
use ckrt_events::Event;
use ckrt_hunt_schedules::{HuntOnlooker, HuntWatch, Outcomes, Seeds, TableWatch, Tally};
use ckrt_inspect::{Readings, Standing};
use ckrt_machine::Answer;
use ckrt_recovery::Session;
use ckrt_schedule::{ScheduleEnd, taken_by};
use std::alloc::Global;
use std::fs::{File, Files};
use std::rt::Clock;
use std::time::{Duration, Instant};

/// How a drive stands behind a step that did this.
fn standing_of(did: &StepDone) -> Standing
    ensures { result ≡ standing_of did.now }
{
    match did {
        StepDone::Stopped(ScheduleEnd::Ended) => Standing::Ended,
        StepDone::Stopped(ScheduleEnd::WaitsForInput) => Standing::WaitsForInput,
        StepDone::Stopped(ScheduleEnd::Deadlock) => Standing::Deadlock,
        StepDone::Stopped(ScheduleEnd::Enough) => Standing::Enough,
        StepDone::Submitted(_, _)
        | StepDone::Committed
        | StepDone::Checkpointed
        | StepDone::Released => Standing::Running,
    }
}

/// The clock is looked at once in so many steps of a drive.
const STEPS_PER_LOOK: u32 = 64;

/// The seconds from one status to the next.
const STATUS_INTERVAL: u64 = 10;

/// The seconds from one table to the next.
const TABLE_INTERVAL: u64 = 5;

/// What was counted since a drive began.
#[derive(Clone, Copy)]
struct Counts {
    /// How many events the disk had before, once that is known.
    earlier_events: Option<u64>,
    events: u64,
    steps: u64,
    /// How many bytes of its input the program has taken, where it has one.
    taken: Option<u64>,
}

impl Counts {
    /// Nothing yet.
    fn new() -> Counts {
        Counts {
            earlier_events: None,
            events: 0,
            steps: 0,
            taken: None,
        }
    }

    /// Counts an event, and the guest steps that it made.
    fn count(&mut self, event: &Event, answer: &Answer) {
        self.events = self.events.saturating_add(1);
        if let Answer::Ran(steps, _) = answer {
            self.steps = self.steps.saturating_add(u64::from(*steps));
        }
        self.taken = match self.taken {
            Some(taken) => Some(taken.saturating_add(taken_by(event) as u64)),
            None => None,
        };
    }

    /// The events of the disk since its first one.
    fn all_events(&self) -> u64 {
        self.earlier_events.unwrap_or(0).saturating_add(self.events)
    }

    /// How the drive stands with this session: nothing that it counts as acknowledged is more than the session does.
    fn readings<D: Disk>(&self, session: &Session<D>, standing: Standing) -> Readings
        ensures { result ≡ readings_of session.now self.now.steps self.now.taken standing }
    {
        Readings {
            events: session.count(),
            acknowledged: session.acknowledged(),
            steps: self.steps,
            output: session.released(),
            input: self.taken,
            generation: session.generation(),
            room: session.room() as u64,
            standing,
        }
    }
}

/// Tells from time to time how far a drive is: by a line on standard error, with the events of the disk since its first one, guest
/// steps since the drive began, guest steps a second since the last line, bytes of output of acknowledged events, generation, the room that the
/// journal has left in bytes, and how far the history is that is kept; and by a file. It also has snapshots of that history made. Of a hunt the line has the seeds that were run and the last of them, seeds a
/// second since the last line, and how many outcomes there are; and a file has its table. Where the clock or standard error fails there is no
/// line.
#[derive(Drop)]
pub struct SystemMeter<'a, R> {
    rt: &'a R,
    lines: Rhythm,
    statuses: Rhythm,
    status: Option<StatusFile>,
    tables: Rhythm,
    table: Option<TableFile>,
    /// Whether the last status or table could be written.
    is_written: bool,
    unlooked: u32,
    counts: Counts,
    steps_at_last_line: u64,
    /// The history that the drive keeps, where it keeps one.
    history: Option<HistoryWatch>,
    /// How many seconds lie at least between two snapshots of that.
    snapshots: Option<u64>,
    /// Below which offset all output was put out at the last look.
    put_out: u64,
    /// Below which one it was where the history failed.
    history_ended: Option<u64>,
    hunt: HuntTimes,
}

impl<'a, R: Clock + Eprint + Files<File = File>> SystemMeter<'a, R> {
    /// A meter that tells nothing yet.
    pub fn new(rt: &'a R) -> SystemMeter<'a, R> {
        SystemMeter {
            rt,
            lines: Rhythm::never(),
            statuses: Rhythm::never(),
            status: None,
            tables: Rhythm::never(),
            table: None,
            is_written: true,
            unlooked: 0,
            counts: Counts::new(),
            steps_at_last_line: 0,
            history: None,
            snapshots: None,
            put_out: 0,
            history_ended: None,
            hunt: HuntTimes::begun(None, None),
        }
    }

    /// The same, which has a snapshot of the history made at most each so many seconds, if there is to be any.
    pub fn saving_snapshots(mut self, seconds: Option<u64>) -> SystemMeter<'a, R> {
        self.snapshots = seconds;
        self
    }

    /// Where the history's file failed while a drive kept it, the offset below which all output was put out by then.
    pub fn history_ended(&self) -> Option<u64> {
        self.history_ended
    }

    /// How far the history is, where there is one that can be read.
    fn reach(&mut self) -> Option<Reach> {
        match &mut self.history {
            Some(history) => history.reach(),
            None => None,
        }
    }

    /// The present moment, where the clock tells it.
    fn moment(&self) -> Option<Instant> {
        Instant::now(self.rt).ok()
    }

    /// Whether it is time to look at the clock.
    fn looks(&mut self) -> bool {
        self.unlooked = self.unlooked.wrapping_add(1) % STEPS_PER_LOOK;
        self.unlooked == 0
    }

    /// Prints a line.
    fn print<D: Disk>(&mut self, since: Duration, session: &Session<D>) {
        let reach = self.reach();
        let steps = u128::from(self.counts.steps.saturating_sub(self.steps_at_last_line));
        let _ = eprintln!(self.rt;
            "progress: {} events, {} steps, {} steps a second, {} bytes of output, generation {}, room {}{}",
            self.counts.all_events(),
            self.counts.steps,
            1_000 * steps / since.as_millis().max(1),
            session.released(),
            session.generation(),
            session.room(),
            Behind(reach)
        );
        self.steps_at_last_line = self.counts.steps;
        self.lines.last = self.moment();
    }

    /// Prints a line of a hunt.
    fn print_hunt(&mut self, since: Duration, seed: u64, tally: &Tally) {
        let rate = self.hunt.rate(since);
        let _ = eprintln!(self.rt;
            "progress: {} runs, seed {}, {} runs a second, outcomes: {}",
            self.hunt.runs,
            seed,
            rate,
            tally.count()
        );
        self.lines.last = self.moment();
    }

    /// Writes the status. Where that fails it says so, once until it goes well again.
    fn write_status<D: Disk>(&mut self, session: &Session<D>, standing: Standing) {
        self.statuses.last = self.moment();
        let readings = self.counts.readings(session, standing);
        if self.status.is_none() {
            return;
        }
        let reach = self.reach();
        let Some(status) = &mut self.status else {
            return;
        };
        let written = status.write(self.rt, &readings, session.machine().tables(), reach);
        if let Err(fault) = written {
            if self.is_written {
                let _ = eprintln!(self.rt; "ckrt: the status {}: {}", status.path(), fault.text());
            }
        }
        self.is_written = written.is_ok();
    }

    /// Says that the table can't be written, where that isn't so, once until it goes well again.
    fn tell_table(&mut self, written: Result<(), FileFault>) {
        if let (Err(fault), Some(table)) = (written, &self.table) {
            if self.is_written {
                let _ = eprintln!(self.rt; "ckrt: the table {}: {}", table.path(), fault.text());
            }
        }
        self.is_written = written.is_ok();
    }

    /// Takes the file of a table, and looks at whether it can be written.
    fn take_table(&mut self, alloc: Global, watch: &TableWatch<'_>) {
        self.table = TableFile::new(alloc, watch);
        self.tables = Rhythm {
            interval: Some(Duration::from_secs(TABLE_INTERVAL)),
            last: self.moment(),
        };
        let free = match &self.table {
            Some(table) => table.expect_free(self.rt),
            None => Ok(()),
        };
        self.tell_table(free);
    }

    /// Writes the table of the seeds up to this one, where that is due.
    fn write_table_due(&mut self, seed: u64, tally: &Tally) {
        if self.tables.due(self.rt).is_none() {
            return;
        }
        let Some(table) = &mut self.table else {
            return;
        };
        let written = table.write_so_far(self.rt, seed, tally);
        self.tell_table(written);
        self.tables.last = self.moment();
    }

    /// Opens the history that is kept.
    fn open_history(&mut self) {
        if let Some(history) = &mut self.history {
            history.open(self.rt);
        }
    }

    /// Has a snapshot of the history made, where that is due.
    fn save_snapshot<D: Disk>(&mut self, session: &Session<D>) {
        if let Some(history) = &mut self.history {
            history.save_due(self.rt, session.count(), session.machine());
        }
    }

    /// Tells what is due.
    fn tell_due<D: Disk>(&mut self, session: &Session<D>) {
        if let Some(since) = self.lines.due(self.rt) {
            self.print(since, session);
        }
        if self.statuses.due(self.rt).is_some() {
            self.write_status(session, Standing::Running);
        }
    }
}

impl<'a, R: Clock + Eprint + Files<File = File>> Onlooker for SystemMeter<'a, R> {
    fn look<D: Disk>(&mut self, did: &StepDone, session: &Session<D>) {
        // no event of the drive is acknowledged before it first looks on
        let is_first = self.counts.earlier_events.is_none();
        if is_first {
            self.counts.earlier_events = Some(session.acknowledged());
            self.open_history();
        }
        self.put_out = session.confirmed();
        if let StepDone::Submitted(event, answer) = did {
            self.counts.count(event, answer);
        }
        if let StepDone::Committed = did {
            self.save_snapshot(session);
        }
        if is_first || matches!(did, StepDone::Stopped(_)) {
            self.write_status(session, standing_of(did));
        } else if self.looks() {
            self.tell_due(session);
        }
    }
}

impl<'a, R: Clock + Eprint + Files<File = File>> Meter for SystemMeter<'a, R> {
    fn begin(&mut self, alloc: Global, watch: Watch<'_>) {
        self.lines = Rhythm {
            interval: watch.progress.map(Duration::from_secs),
            last: self.moment(),
        };
        self.statuses = Rhythm {
            interval: Some(Duration::from_secs(STATUS_INTERVAL)),
            last: self.moment(),
        };
        self.status = match watch.status {
            Some(path) => StatusFile::new(alloc, path, &watch.paths),
            None => None,
        };
        let is_told = watch.progress.is_some() || watch.status.is_some();
        self.history = match watch.paths.history {
            Some(path) => HistoryWatch::new(alloc, path, is_told, self.snapshots),
            None => None,
        };
    }

    fn fed(&mut self, taken: u64) {
        self.counts.taken = Some(taken);
    }

    fn history_failed(&mut self) {
        self.history_ended = Some(self.put_out);
    }
}

impl<'a, R: Clock + Eprint + Files<File = File>> HuntOnlooker for SystemMeter<'a, R> {
    ghost Answers = { λ _ _. Unit {0} };

    fn begin_hunt(&mut self, alloc: Global, watch: HuntWatch<'_>) {
        let moment = self.moment();
        self.hunt = HuntTimes::begun(moment, watch.seconds);
        self.lines = Rhythm {
            interval: watch.progress.map(Duration::from_secs),
            last: moment,
        };
        if let Some(table) = &watch.table {
            self.take_table(alloc, table);
        }
    }

    fn has_time(&mut self, seed: u64, tally: &Tally) -> bool {
        self.hunt.count();
        if let Some(since) = self.lines.due(self.rt) {
            self.print_hunt(since, seed, tally);
        }
        self.write_table_due(seed, tally);
        self.hunt.has_time(self.rt)
    }

    fn end_hunt(&mut self, seeds: Seeds, outcomes: &Outcomes) {
        let Some(table) = &mut self.table else {
            return;
        };
        let written = table.write(self.rt, seeds, outcomes);
        self.tell_table(written);
    }
}
