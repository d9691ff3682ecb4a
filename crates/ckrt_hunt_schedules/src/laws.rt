//! That what is told of a seed is what it does again, in memory or on a disk, and what is told of all seeds each of them does.
//! Each law is the contract of a function with an empty body.
ghost use Rattle.std.specs.Prelude.{◌≡◌, ℕ};
ghost use Rattle.ckrt_machine.specs.Steps.{State};
ghost use Rattle.ckrt_hunt_schedules.specs.declared.plan.Plan.{Plan};
ghost use Rattle.ckrt_hunt_schedules.specs.declared.runs.Told.{Told};
ghost use Rattle.ckrt_schedule.specs.declared.next.ScheduleEnd.{ScheduleEnd};
ghost use Rattle.ckrt_stored.specs.Programs.{Program, start_of};
ghost use Rattle.ckrt_hunt_schedules.specs.KeptDisks.{HasRun, IsToldOf};
ghost use Rattle.ckrt_hunt_schedules.specs.Runs.{ComesTo};
ghost use Rattle.ckrt_hunt_schedules.specs.Short.{Repeats};
ghost use Rattle.ckrt_hunt_schedules.specs.Tallies.{Hunted, SeedComesTo};
ghost use Rattle.ckrt_hunt_schedules.specs.Verdicts.{OneOutcomeIsOfAll};

use ckrt_disk::Disk;

/// A plan and a state have one run, and it comes to one outcome: so a seed repeats.
pub fn seed_repeats()
    ensures { (p : Plan) (start : State) (first second : Told) → ComesTo p start first
        → ComesTo p start second → first ≡ second }
{}

/// What is told of a run, and what a disk has that the run was kept on, are one thing: whatever a stop leaves of the disk
/// recovers to the outcome that was told.
pub fn told_is_kept<D: Disk>()
    ensures { (program : Program) (p : Plan) (disk : D) (ending : ScheduleEnd) (told : Told)
        → (has : HasRun D.Disk program p disk ending)
        → ComesTo p (start_of program) told → IsToldOf has told }
{}

/// What is told of a seed, and what a disk has on which its run was kept by a shorter schedule, are one thing too.
pub fn told_is_kept_short<D: Disk>()
    ensures { (h : Hunted) (seed : ℕ) (program : Program) (p : Plan) (disk : D)
        (ending : ScheduleEnd)
        (told : Told) → h.start ≡ start_of program → Repeats h seed p
        → (has : HasRun D.Disk program p disk ending) → SeedComesTo h seed told
        → IsToldOf has told }
{}

/// Where a hunt isn't told to have several outcomes, each of its seeds comes to the one that it has: to `exit 0` where the verdict is good.
pub fn one_outcome_is_of_all()
    ensures { OneOutcomeIsOfAll }
{}
