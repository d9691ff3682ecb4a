//! Laws of schedules. Each is the contract of a function with an empty body.
ghost use Rattle.ckrt_schedule.specs.Turns.{ClockComes, EachReadyIsPlaced, EachRuns, RunsAtOnce};

/// The theorem of turns: a thread that is ready is put onto a hart by one of so many events as 64 rounds have, and 64 rounds more for each
/// event of an input among them.
pub fn each_ready_is_placed()
    ensures { EachReadyIsPlaced }
{}

/// Without a seed, who goes onto a hart as its round begins runs with the next event.
pub fn owner_runs_at_once()
    ensures { RunsAtOnce }
{}

/// Without a seed and without input, each thread that is ready or on a hart runs: one of so many events as 65 rounds have, and one more, is
/// a run of the hart that it is on then.
pub fn each_runs()
    ensures { EachRuns }
{}

/// The clock goes on by a tick at least in each round, but for one where an event of an input takes the clock's place.
pub fn clock_comes()
    ensures { ClockComes }
{
    ckrt_machine::clock_goes_by_ticks();
}
