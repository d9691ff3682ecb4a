//! Laws of a disk and an output together. Each is the contract of a function with an empty body.
ghost use Rattle.std.specs.Prelude.{◌≡◌, ◌≤◌, ◌<◌, ℕ, Bool, List, [], ◌∷◌, ◌++◌, Option, Result, length};
ghost use Rattle.ckrt_disk.specs.Frame.{MayBeLeft};
ghost use Rattle.ckrt_drive.specs.Output.{HoldsOutput, acknowledged_output};
ghost use Rattle.ckrt_drive.specs.Stages.{Stage};
ghost use Rattle.ckrt_drive.specs.Steps.{Aim, Steps, accepted_in};
ghost use Rattle.ckrt_drive.specs.declared.fault.DriveFault.{DriveFault};
ghost use Rattle.ckrt_drive.specs.declared.step_done.StepDone.{StepDone};
ghost use Rattle.ckrt_drive.specs.ByPlan.{AreOfTheUnbroken, AreOneList, IsUnbrokenOnce};
ghost use Rattle.ckrt_drive.specs.Drives.{AllKeep, AreTold, ComeBehind, DrivesStandRecorded, EndUnbroken, GoByPlan, IsDrive, OneDrive, StopLeaves};
ghost use Rattle.ckrt_drive.specs.Giving.{DrivesGiveFile};
ghost use Rattle.ckrt_drive.specs.Inputs.{EndBehindAll, GiveBeginning};
ghost use Rattle.ckrt_drive.specs.Together.{HoldTogether, IsLeftSince, IsSpared, Past, StandTogether, StandsFed, StandsRecorded, past};
ghost use Rattle.ckrt_drive.specs.Turns.{DrivesGiveTurns, PlansGiveTurns};
ghost use Rattle.ckrt_events.specs.declared.event.Event.{Event};
ghost use Rattle.ckrt_stored.specs.Programs.{Program, RecoversToStart};
ghost use Rattle.ckrt_recovery.specs.Opening.{IsSyncedAndRead};
ghost use Rattle.ckrt_recovery.specs.Represents.{Represents, acknowledged_of};

use ckrt_disk::Disk;
use ckrt_recovery::Session;

/// What a stop may leave of a device: where a process was killed the device itself, where power was lost one with a single
/// image.
pub fn what_is_left<D: Disk>(old: &D, new: &D, left: &D)
    ensures killed { D.is_honest new.now → D.moment old.now ≤ D.moment new.now
        → ((i : ℕ) → D.pending new.now i → i < length (D.content new.now))
        → IsLeftSince D.Disk old.now new.now new.now }
    ensures lost { (image : List ℕ) → D.left_since new.now (D.moment old.now) image
        → D.content left.now ≡ image → ((i : ℕ) → ¬ D.pending left.now i)
        → IsLeftSince D.Disk old.now new.now left.now }
{}

/// A stop within a step of a drive: whatever it leaves of the disk, with whatever it leaves of the output, holds together.
pub fn step_holds_together<D: Disk, O: Disk>(
    before: &Session<D>,
    after: &Session<D>,
    output: &O,
    end: &O,
)
    ensures { (planned : Aim) (result : Result StepDone DriveFault)
        → Steps O.Disk planned before.now after.now output.now end.now result
        → D.is_honest after.now.disk → O.is_honest end.now → (p : Program) (events : List Event)
        → Represents p events before.now
        → HoldsOutput O.Disk 0 before.now.progress.confirmed
        (acknowledged_output p events before.now) output.now → (old : List ℕ)
        → IsSpared O.Disk before.now.released old output.now → (image : List ℕ)
        → D.left_since after.now.disk (D.moment before.now.disk) image
        → HoldTogether
        (past p old (acknowledged_of events before.now) (events ++ accepted_in result))
        image (O.left_since end.now (O.moment output.now)) }
{}

/// Drives of one disk onto one output, one after another, each but the last stopped at any moment: whatever each leaves of
/// the two holds together, and the output is the plain fold's, and after that what it held before. They begin with a
/// formatted disk and any output.
pub fn drives_hold_together<D: Disk, O: Disk>(disk: &D, output: &O)
    ensures formatted { (p : Program)
        → ((image : List ℕ) → MayBeLeft D.Disk disk.now image → RecoversToStart p image)
        → ((i : ℕ) → ¬ O.pending output.now i)
        → StandTogether D.Disk O.Disk (past p (O.content output.now) [] []) disk.now output.now }
    ensures keep { (h : Past) (first : OneDrive D.Disk O.Disk)
        (more : List (OneDrive D.Disk O.Disk)) → first.start ≡ disk.now
        → first.first.output ≡ output.now → StandTogether D.Disk O.Disk h disk.now output.now
        → IsDrive first → ComeBehind first more → AllKeep h (first ∷ more) }
{}

/// Whatever a stop leaves of a disk has recorded just the events that it recovers to: its areas were written with the states of the plain fold
/// behind the first of them, and its journals have those that follow.
pub fn drives_record_their_events<D: Disk, O: Disk>(disk: &D)
    ensures formatted { (p : Program) (old : List ℕ)
        → ((image : List ℕ) → MayBeLeft D.Disk disk.now image → RecoversToStart p image)
        → StandsRecorded D.Disk (past p old [] []) disk.now }
    ensures many { DrivesStandRecorded D.Disk O.Disk }
{}

/// Drives with an input, each told what the record of its disk says. Whatever a stop leaves of a disk keeps what its events took, and a
/// formatted disk keeps that they took nothing. So each drive was told what the events took that it recovered. And the Inputs of the events of
/// each, joined, are a beginning of the file: nothing is given twice and nothing left out, whatever was stopped when. The end of input comes
/// only after all of it.
pub fn drives_give_the_file<D: Disk, O: Disk>(disk: &D)
    ensures formatted { (file : Option (List ℕ)) (p : Program) (old : List ℕ)
        → ((image : List ℕ) → MayBeLeft D.Disk disk.now image → RecoversToStart p image)
        → StandsFed D.Disk file (past p old [] []) disk.now }
    ensures told { AreTold D.Disk O.Disk }
    ensures given { DrivesGiveFile D.Disk O.Disk }
{}

/// Which events come is not left to the stops. Of two lists by the plan of one program, one is a beginning of the other, and each is a
/// beginning of the one that nothing stops. The events of drives by one schedule, with one input, go on by plan, whatever was stopped
/// when; where the program has ended they are that list, and the output is that list's.
pub fn drives_go_by_plan<D: Disk, O: Disk>()
    ensures one { AreOneList }
    ensures beginnings { AreOfTheUnbroken }
    ensures once { IsUnbrokenOnce }
    ensures drives { GoByPlan D.Disk O.Disk }
    ensures ends { EndUnbroken D.Disk O.Disk }
{}

/// What goes on by plan gives each ready thread its turn, and takes the clock on: behind its first events a thread that is ready before so
/// many events as `turns_within` says is put onto a hart by one of them. So it does in the list of each of many drives, whatever was stopped
/// when.
pub fn drives_give_turns<D: Disk, O: Disk>()
    ensures plans { PlansGiveTurns }
    ensures drives { DrivesGiveTurns D.Disk O.Disk }
{
    ckrt_schedule::each_ready_is_placed();
    ckrt_schedule::clock_comes();
}

/// What comes by plan gives the program its input: the Inputs, joined, are a beginning of the file, so nothing is given twice and
/// nothing left out, whatever was stopped when; and the end of input comes only after all of it.
pub fn planned_input_is_the_file()
    ensures beginning { GiveBeginning }
    ensures end { EndBehindAll }
{}

/// A recovery that is stopped, or fails, leaves what the stop before it left, and so does the output then, which isn't
/// opened.
pub fn recoveries_leave_the_same<D: Disk, O: Disk>(
    start: &D,
    end: &D,
    left: &D,
    output: &O,
    left_output: &O,
)
    ensures { (stages : List (Stage D.Disk O.Disk)) (x at : Stage D.Disk O.Disk) (failed : Bool)
        → StopLeaves stages x at start.now output.now
        → IsSyncedAndRead D.Disk start.now end.now failed → D.is_honest end.now
        → O.is_honest output.now → IsLeftSince D.Disk start.now end.now left.now
        → IsLeftSince O.Disk output.now output.now left_output.now
        → StopLeaves stages x at left.now left_output.now }
{}
