//! What runs of one command keep. It is the contract of a function that only hands on the laws of a disk.
ghost use Rattle.std.specs.Prelude.{◌≤◌, List, ℕ};
ghost use Rattle.ckrt_disk.specs.Disk.{IsImage};
ghost use Rattle.ckrt_cli.specs.Performing.{real_files};
ghost use Rattle.ckrt_look_recording.specs.declared.rule.Rule.{Rule};
ghost use Rattle.ckrt_cli.specs.Commands.{CommandsGoOn, RunsGoOn};
ghost use Rattle.ckrt_cli.specs.HistoryRuns.{CommandsAreBeside, CommandsStandOn, RunsAreBeside, RunsStandOn};
ghost use Rattle.ckrt_cli.specs.Promise.{LeaveItLonger};

use ckrt_cli_files::{RealDisk, Sources};
use ckrt_disk::{Disk, Holds};
use ckrt_drive::StreamOutput;
use ckrt_history::runs_stand_beside_a_history;
use std::io::{Read, Write};

/// What each kind of disk says of what a stop leaves of it.
fn disk_laws<D: Disk>()
    ensures only_now { (disk : D) (image : List ℕ) → D.is_honest disk
        → D.left_since disk (D.moment disk) image
        → IsImage (D.content disk) (D.pending disk) image }
    ensures readable { (disk : D) → D.is_honest disk
        → IsImage (D.content disk) (D.pending disk) (D.content disk) }
    ensures counts_now { (disk : D) (t : ℕ) (image : List ℕ) → D.is_honest disk
        → t ≤ D.moment disk → IsImage (D.content disk) (D.pending disk) image
        → D.left_since disk t image }
{}

/// What a run does with its disk before its drive, but for making it longer, leaves what a stop might have left before.
pub fn disks_are_left_before_drives<D: Disk>()
    ensures { LeaveItLonger D.Disk }
{}

/// The same of runs over any sources, as `run_words_with` takes them, whatever the rules by which races tell callers: each reaches what its
/// sources give when it begins.
pub fn runs_go_on<'a, I: Read, D: Disk, S: Sources<'a, I, D>, W: Write + 'a>()
    ensures { (rules : List Rule) → RunsGoOn {d = D.Disk} (λ (sources : S). record {
      stream = ⟦<StreamOutput<'a, W> as Disk>⟧;
      contents = W.contents;
      images = S.image_bytes sources;
      Opens = S.opens sources;
      Fills = S.fills sources;
      others = S.gives sources;
      rules = rules;
    }) }
{
    disk_laws::<D>();
}

/// Runs of the program by words that drive one disk onto the file of one output, with one input, over files of the system: whatever
/// these hold over time, as `H` says of each. Each begins with what the run before it, or a stop of that at any moment, left of disk
/// and output. Those that come to their drives keep what was acknowledged before, and so on: the promise of many drives.
pub fn commands_go_on<'a, H: Holds + 'a, W: Write + 'a>()
    ensures { (rules : List Rule) → CommandsGoOn {d = ⟦<RealDisk<'a, H> as Disk>⟧}
        (real_files ⟦<StreamOutput<'a, W> as Disk>⟧ W.contents rules) }
{
    disk_laws::<RealDisk<'a, H>>();
}

/// Runs of the program over any sources, by words that drive one disk onto the file of one output, and keep a history in one file or none. Each
/// begins with what the run before it, or a stop of that at any moment, left of the three at one moment. Whatever a run leaves, runs of the law of
/// a history beside many runs lead there (`are`). So whatever each leaves stands (`stand`): disk and output hold together, and the history
/// has just a beginning of the events that are acknowledged.
pub fn runs_go_on_beside_a_history<'a, I: Read, D: Disk, S: Sources<'a, I, D>, W: Write + 'a>()
    ensures are { (rules : List Rule) → RunsAreBeside {d = D.Disk} (λ (sources : S). record {
      stream = ⟦<StreamOutput<'a, W> as Disk>⟧;
      contents = W.contents;
      images = S.image_bytes sources;
      Opens = S.opens sources;
      Fills = S.fills sources;
      others = S.gives sources;
      rules = rules;
    }) }
    ensures stand { (rules : List Rule) → RunsStandOn {d = D.Disk} (λ (sources : S). record {
      stream = ⟦<StreamOutput<'a, W> as Disk>⟧;
      contents = W.contents;
      images = S.image_bytes sources;
      Opens = S.opens sources;
      Fills = S.fills sources;
      others = S.gives sources;
      rules = rules;
    }) }
{
    disk_laws::<D>();
    runs_stand_beside_a_history::<D, D, D>();
}

/// The same of runs over files of the system, whatever these hold over time, as `H` says of each.
pub fn commands_go_on_beside_a_history<'a, H: Holds + 'a, W: Write + 'a>()
    ensures are { (rules : List Rule) → CommandsAreBeside {d = ⟦<RealDisk<'a, H> as Disk>⟧}
        (real_files ⟦<StreamOutput<'a, W> as Disk>⟧ W.contents rules) }
    ensures stand { (rules : List Rule) → CommandsStandOn {d = ⟦<RealDisk<'a, H> as Disk>⟧}
        (real_files ⟦<StreamOutput<'a, W> as Disk>⟧ W.contents rules) }
{
    disk_laws::<RealDisk<'a, H>>();
    runs_stand_beside_a_history::<RealDisk<'a, H>, RealDisk<'a, H>, RealDisk<'a, H>>();
}
