//! That what is told of a seed is what its run has, and no more. Each law is the contract of a function with an empty body.
ghost use Rattle.ckrt_hunt_looks.specs.Laws.{LooksAreOfTheRun, LooksRepeat, OnlyCyclesAreTold, OnlyErrorsAreTold, OnlyRacesAreTold};

/// Each pair that is told of a seed is of two accesses of its run that race.
pub fn only_races_are_told()
    ensures { OnlyRacesAreTold }
{}

/// Each cycle of locks that is told of a seed is one.
pub fn only_cycles_are_told()
    ensures { OnlyCyclesAreTold }
{}

/// Each error of memory that is told of a seed is one: in its run a word was used that may not be, or a block given back where none begins.
pub fn only_errors_are_told()
    ensures { OnlyErrorsAreTold }
{}

/// A seed has the same run again, and so the same races, the same orders of locks, and the same errors of memory.
pub fn looks_repeat()
    ensures { LooksRepeat }
{}

/// What is told of a seed is of the run whose outcome is told of it.
pub fn looks_are_of_the_run()
    ensures { LooksAreOfTheRun }
{}
