//! Laws of runs of the program as drives, by how it supplies them. Each is the contract of a function with an empty body.
ghost use Rattle.std.specs.Prelude.{◌≡◌, ℕ, true, List, ◌++◌, length};
ghost use Rattle.ckrt_cli_reports.specs.Lengths.{fits, lengths_of};
ghost use Rattle.ckrt_cli.specs.HistoryRuns.{RunsKeepHistories, RunsKeepTheAcknowledged};
ghost use Rattle.ckrt_cli.specs.Runs.{ProgramRun, RunsAreDrives, RunsAreTold};
ghost use Rattle.ckrt_drive.specs.Runs.{IsAllSaved};
ghost use Rattle.ckrt_cli.specs.Lengths.{size_after};
ghost use Rattle.ckrt_events.specs.declared.event.Event.{Event};
ghost use Rattle.ckrt_recovery.specs.Represents.{Represents};
ghost use Rattle.ckrt_recovery.specs.View.{view_of};
ghost use Rattle.ckrt_stored.specs.Programs.{Program, output_after};

use ckrt_cli_files::Sources;
use ckrt_disk::Disk;
use ckrt_history::runs_stand_beside_a_history;
use std::io::Read;

/// A run of the program is a drive, with an input or without one; and at an end all is saved.
pub fn runs_are_drives<D: Disk, O: Disk>()
    ensures { RunsAreDrives D.Disk O.Disk }
{}

/// A run with an input is told what the record of its disk says, by how the program supplies it: whatever the words say beside.
pub fn runs_are_told<'a, I: Read, D: Disk, S: Sources<'a, I, D>, O: Disk>(sources: &S)
    ensures { RunsAreTold D.Disk O.Disk (S.gives sources.now) }
{}

/// A run of the program with a history, which was opened for the disk as it was before that, is a run of the law of a history beside many runs that
/// keeps it: wherever it was stopped, and whatever it came to. Behind one whose history didn't fail that has, durably, just the events that are
/// acknowledged.
pub fn runs_keep_histories<D: Disk, O: Disk>()
    ensures keep { RunsKeepHistories D.Disk O.Disk }
    ensures acknowledged { RunsKeepTheAcknowledged D.Disk O.Disk }
{
    runs_stand_beside_a_history::<D, O, D>();
}

/// Where all is saved, as at an end, the file of an output has the length of the output, if its length fitted the disk when the
/// drive began: no byte stands after it.
pub fn output_has_its_length<D: Disk, O: Disk>()
    ensures { (r : ProgramRun D.Disk O.Disk) → D.is_honest r.after.disk → (p : Program)
        (events : List Event) → Represents p events r.before → (size : ℕ)
        → fits (lengths_of size r.before) ≡ true → IsAllSaved (view_of r.after)
        → size_after size r.before.progress.confirmed r.drives.runs.puts.pieces
        ≡ length (output_after p (events ++ r.drives.runs.accepted)) }
{}
