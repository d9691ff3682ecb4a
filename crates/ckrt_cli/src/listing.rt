//! Showing a moment of a history.
ghost use Rattle.std.specs.Prelude.{ℕ, List, Option};
ghost use Rattle.ckrt_cli_words.specs.Jobs.{inspection_of};
ghost use Rattle.ckrt_cli_reports.specs.Outside.{outside};
ghost use Rattle.ckrt_cli.specs.Looking.{ListsPath};

use crate::looking::look_path;
use ckrt_cli_files::Sources;
use ckrt_cli_reports::JobFault;
use ckrt_cli_words::{InspectJob, StretchJob};
use ckrt_disk::Disk;
use ckrt_events::Event;
use ckrt_inspect::{InspectFault, write_listing, write_listing_with_code};
use ckrt_look_calls::Telling;
use ckrt_look_recording::make_events;
use ckrt_machine::Machine;
use std::alloc::Global;
use std::io::{Read, Write};

/// The listing of the program behind the events of a stretch.
#[derive(Drop)]
struct Listing {
    /// Whether each thread's next instructions are shown too.
    with_code: bool,
}

impl Telling for Listing {
    ghost use Rattle.ckrt_look_calls.specs.Stretches.{account};
    ghost use Rattle.ckrt_cli.specs.Looking.{IsListing};

    ghost Tells = { λ self. account (IsListing self.with_code) };

    fn tell<W: Write>(
        &self,
        alloc: Global,
        machine: &mut Machine,
        count: u64,
        events: &[Event],
        out: &mut W,
    ) -> Result<(), InspectFault> {
        if !make_events(machine, events) {
            return Err(InspectFault::Damaged);
        }
        let count = count + events.len() as u64;
        if self.with_code {
            write_listing_with_code(alloc, count, machine, out)
        } else {
            write_listing(alloc, count, machine, out)
        }
    }
}

/// Shows the program of the history of a path: behind its last event, or behind that many. The history is only read.
///
/// # Errors
///
/// As those of [`calls_path`](crate::calls_path), but for `Range`.
pub fn list_path<'a, I: Read, D: Disk, S: Sources<'a, I, D>, W: Write>(
    alloc: Global,
    job: &InspectJob<'a>,
    sources: &mut S,
    writer: &mut W,
) -> Result<(), JobFault>
    ensures lists { (left : Option (List ℕ))
        → ListsPath D.Disk (S.opens sources.old job.now.disk.now) (inspection_of job.now)
        (outside (S.openings sources.old) (W.contents writer.old) left)
        (outside (S.openings sources.new) (W.contents writer.new) left) result }
{
    let stretch = StretchJob {
        disk: job.disk,
        history: true,
        from: None,
        to: job.at,
        last: Some(0),
    };
    let listing = Listing {
        with_code: job.code,
    };
    look_path::<I, D, S, Listing, W>(alloc, &stretch, &listing, sources, writer)
}
