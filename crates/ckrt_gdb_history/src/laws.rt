//! Laws of histories. Each is the contract of a function with an empty body.
ghost use Rattle.ckrt_gdb_history.specs.Extended.{GoOnBySchedule};
ghost use Rattle.ckrt_gdb_history.specs.Forks.{EndWhereTheyAreCut};

/// A history that is cut ends with the state at which it was cut.
pub fn forks_end_there()
    ensures { EndWhereTheyAreCut }
{}

/// What a history gets by a schedule are events that the schedule has next, one behind the other, and nothing else.
pub fn histories_go_on_by_schedule()
    ensures { GoOnBySchedule }
{}
