//! Which event is next for a drive.
ghost use Rattle.std.specs.Prelude.{◌≡◌, ◌≤◌, IfSome};
ghost use Rattle.ckrt_events.specs.Bytes.{IsInRange};
ghost use Rattle.ckrt_events.specs.declared.event.TheConstants.{LONG_RUN_LIMIT};
ghost use Rattle.ckrt_schedule.specs.Schedules.{IsInRangeNext};
ghost use Rattle.ckrt_drive.specs.Plan.{next, schedule_of};

use crate::options::Options;
use crate::supply::Supply;
use ckrt_calls::Status;
use ckrt_machine::Machine;
use ckrt_schedule::{Next, Schedule, ScheduleEnd, next_event};

/// By what the events of a drive are chosen.
fn schedule_of(options: &Options) -> Schedule
    ensures schedule { result ≡ schedule_of options.now }
    ensures some { 1 ≤ result.turn }
    ensures few { result.turn ≤ LONG_RUN_LIMIT }
{
    Schedule {
        turn: options.turn,
        seed: options.seed,
    }
}

/// The event that is next for a drive with this supply, after that many others, or why there is none.
pub fn next_for(machine: &Machine, options: &Options, supply: Supply, behind: u64) -> Next
    requires { IfSome supply.given IsInRange }
    ensures next { result ≡ next (schedule_of options.now) supply behind
        machine.now.state.tables }
    ensures in_range { IsInRangeNext result }
{
    if matches!(machine.status(), Status::Running) && supply.left == 0 {
        return Next::End(ScheduleEnd::Enough);
    }
    next_event(machine, schedule_of(options), supply.given, behind)
}
