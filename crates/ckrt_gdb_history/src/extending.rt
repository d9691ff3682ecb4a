//! A history goes on by a schedule.
ghost use Rattle.std.specs.Prelude.{◌≡◌, ◌≤◌, length};
ghost use Rattle.ckrt_events.specs.declared.event.TheConstants.{LONG_RUN_LIMIT};
ghost use Rattle.ckrt_gdb_history.specs.Extended.{Extended, enough, extended_by, extension, going_on, next_in};
ghost use Rattle.ckrt_gdb_history.specs.Forks.{last_state};
ghost use Rattle.ckrt_gdb_history.specs.Positions.{History};
ghost use Rattle.ckrt_schedule.specs.Schedules.{IsInRangeNext};

use crate::forking::AppendFault;
use crate::history::History;
use ckrt_calls::Status;
use ckrt_schedule::{Next, Schedule, ScheduleEnd, next_event};

impl History {
    /// Why there is no further event where as many were made as were to be.
    fn enough(&self) -> ScheduleEnd
        requires { length self.now.events ≤ self.now.position.events }
        ensures { result ≡ enough (last_state self.now).tables.status }
    {
        match self.machine.status() {
            Status::Running => ScheduleEnd::Enough,
            Status::Exited(_) | Status::Faulted(_, _, _) => ScheduleEnd::Ended,
        }
    }

    /// What a schedule has next behind the last event, where `first` were done before the history.
    fn next_by(&self, schedule: Schedule, first: u64) -> Next
        requires some { 1 ≤ schedule.turn }
        requires few { schedule.turn ≤ LONG_RUN_LIMIT }
        requires end { length self.now.events ≤ self.now.position.events }
        ensures next { result ≡ next_in schedule first self.now }
        ensures in_range { IsInRangeNext result }
    {
        let behind = first.saturating_add(self.events.len() as u64);
        next_event(&self.machine, schedule, None, behind)
    }

    /// Behind the last event the one is made that the schedule has next. The result is why there is none.
    fn extend_once(
        &mut self,
        schedule: Schedule,
        first: u64,
    ) -> Option<Result<ScheduleEnd, AppendFault>>
        requires some { 1 ≤ schedule.turn }
        requires few { schedule.turn ≤ LONG_RUN_LIMIT }
        requires end { length self.old.events ≤ self.old.position.events }
        ensures step { (more : History → Extended)
            → extended_by more (next_in schedule first self.old) self.old
            ≡ going_on more result self.new }
        ensures end { length self.new.events ≤ self.new.position.events }
    {
        let event = match self.next_by(schedule, first) {
            Next::Submit(event) => event,
            Next::End(end) => return Some(Ok(end)),
        };
        match self.append(event) {
            Ok(()) => None,
            Err(fault) => Some(Err(fault)),
        }
    }

    /// Behind the last event those are made that a schedule has next, `most` of them at most; `first` were done before the history. It
    /// answers why there is no further one. It takes no memory.
    ///
    /// # Errors
    ///
    /// As of [`History::append`], for the first event that isn't made. Those before it are, and stay. `NotAtEnd` comes before any.
    pub fn extend(
        &mut self,
        schedule: Schedule,
        first: u64,
        most: u32,
    ) -> Result<ScheduleEnd, AppendFault>
        requires some { 1 ≤ schedule.turn }
        requires few { schedule.turn ≤ LONG_RUN_LIMIT }
        ensures history { self.new ≡ (extension most schedule first self.old).history }
        ensures end { result ≡ (extension most schedule first self.old).end }
    {
        if self.position.events < self.events.len() {
            return Err(AppendFault::NotAtEnd);
        }
        let mut left = most;
        'events: while left > 0 {
            if let Some(end) = self.extend_once(schedule, first) {
                return end;
            }
            left -= 1;
        }
        Ok(self.enough())
    }
}
