//! Laws of the races of recorded events. Each is the contract of a function with an empty body.
ghost use Rattle.ckrt_look_races.specs.CycleLaws.{OnlyCyclesAreTold};
ghost use Rattle.ckrt_look_races.specs.Laws.{FoundIsOfTheHistory, HistoriesAreOrderly, OnlyRacesAreTold};

/// The history of events is orderly: so the laws of `ckrt_look_clocks` hold of it.
pub fn histories_are_orderly()
    ensures { HistoriesAreOrderly }
{}

/// What is found by events is what is found in their history.
pub fn found_is_of_the_history()
    ensures { FoundIsOfTheHistory }
{}

/// Each pair that is told of events is of two accesses that race: of different threads, to a common byte, one of them a store, not
/// both atomic, and neither happens before the other.
pub fn only_races_are_told()
    ensures { OnlyRacesAreTold }
{}

/// Each row of the orders of locks that are told of events is a cycle: two threads or more, each of which took a lock that the next one
/// held, and the last one that of the first. No two of them are the same thread, nor did they hold a lock that keeps the other out: so
/// one thread alone makes none, nor do threads below a common lock.
pub fn only_cycles_are_told()
    ensures { OnlyCyclesAreTold }
{}
