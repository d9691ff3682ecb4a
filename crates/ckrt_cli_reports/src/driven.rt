//! What a drive came to.
ghost use Rattle.std.specs.Prelude.{◌≡◌};
ghost use Rattle.ckrt_cli_reports.specs.Statuses.{end_status, ended_status};

use ckrt_calls::Status;
use ckrt_schedule::ScheduleEnd;

/// What a drive came to.
#[derive(Clone, Copy, Debug, PartialEq, Eq)]
pub struct Driven {
    /// Why there is nothing more to do; this isn't known after 2^64 - 1 steps.
    pub ending: Option<ScheduleEnd>,
    /// How the program stands.
    pub status: Status,
    /// The address that its fault is about, where one ended it and there is one.
    pub address: Option<u32>,
}

/// The program's status for a guest that ended.
fn ended_status(status: Status) -> u8
    ensures { result ≡ ended_status status }
{
    match status {
        Status::Exited(0) => 0,
        Status::Exited(_) => 7,
        Status::Faulted(..) => 6,
        Status::Running => 5,
    }
}

impl Driven {
    /// The program's status for it.
    pub fn exit_status(self) -> u8
        ensures { result ≡ end_status self.ending self.status }
    {
        match self.ending {
            Some(ScheduleEnd::Ended) => ended_status(self.status),
            Some(ScheduleEnd::WaitsForInput) => 3,
            Some(ScheduleEnd::Deadlock) => 4,
            Some(ScheduleEnd::Enough) | None => 5,
        }
    }
}
