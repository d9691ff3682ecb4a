//! Laws of runs. Each is the contract of a function with an empty body.
ghost use Rattle.std.specs.Prelude.{◌++◌, ℕ, List, Option};
ghost use Rattle.ckrt_events.specs.declared.event.Event.{Event};
ghost use Rattle.ckrt_stored.specs.Programs.{Program};
ghost use Rattle.ckrt_cli_disk.specs.Printing.{HoldsEvents, PrintsOn};
ghost use Rattle.ckrt_cli_disk.specs.Running.{IsUnrecovered, Serves};
ghost use Rattle.ckrt_cli_reports.specs.declared.fault.JobFault.{JobFault};
ghost use Rattle.ckrt_main.specs.Replies.{outs_of};

use ckrt_disk::Disk;

/// A byte that was once printed at an offset is never another, over any number of runs of a disk, whatever ends them. What a
/// run prints is output of its acknowledged events, which begin with those that the disk held before it: so no line has
/// another byte at an offset than any line of the output of these. And whatever a stop leaves after the run holds the
/// acknowledged ones again, for the next run; where nothing is recovered nothing is printed, and it holds what it held. A
/// stop within a run is a disk that fails each call from there on, after which the run ends.
pub fn printed_bytes_stay<D: Disk>(start: &D, end: &D)
    ensures served { (a b r s : Option (List ℕ)) (run : Serves D.Disk start.now end.now a b r s)
        → D.is_honest end.now → (p : Program) (before : List Event)
        → HoldsEvents D.Disk p before start.now
        → PrintsOn D.Disk p before (outs_of (run.shows.replies ++ run.shows.broken)) end.now }
    ensures unrecovered { (a b r s : Option (List ℕ)) (fault : JobFault)
        → IsUnrecovered D.Disk start.now end.now a b r s fault → D.is_honest end.now
        → (p : Program) (before : List Event) → HoldsEvents D.Disk p before start.now
        → HoldsEvents D.Disk p before end.now }
{}
