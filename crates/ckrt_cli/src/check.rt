//! Telling the errors of memory of what a disk has recorded.
ghost use Rattle.std.specs.Prelude.{ℕ, List, Option};
ghost use Rattle.ckrt_cli_words.specs.Jobs.{shadowing_of};
ghost use Rattle.ckrt_cli_reports.specs.Outside.{outside};
ghost use Rattle.ckrt_cli.specs.Looking.{ChecksPath};

use crate::looking::look_path;
use crate::races::room_of;
use ckrt_cli_files::Sources;
use ckrt_cli_reports::{JobFault, is_room};
use ckrt_cli_words::ShadowJob;
use ckrt_disk::Disk;
use ckrt_events::Event;
use ckrt_inspect::InspectFault;
use ckrt_look_calls::Telling;
use ckrt_look_recording::Rule;
use ckrt_look_values::write_checks;
use ckrt_machine::Machine;
use std::alloc::Global;
use std::io::{Read, Write};

/// Its errors of memory and its uses of values that were never stored, a line for each place, with what is told of the first one there. Callers
/// are found by rules, and the shadow may take so many bytes.
#[derive(Clone, Copy)]
struct Errors<'a> {
    rules: &'a [Rule],
    room: u64,
}

impl Telling for Errors<'_> {
    ghost use Rattle.ckrt_look_values.specs.Recorded.{checks_account};

    ghost Tells = { λ r. checks_account r.rules.now r.room };

    fn tell<W: Write>(
        &self,
        alloc: Global,
        machine: &mut Machine,
        count: u64,
        events: &[Event],
        out: &mut W,
    ) -> Result<(), InspectFault> {
        write_checks(alloc, machine, count, events, self.rules, self.room, out)
    }
}

/// Tells the errors of memory of what the disk of a path has recorded, and its uses of values that were never stored: of all, or of the
/// events behind so many and up to so many. Each place has a line, with what is told of the first one there. Callers are found by rules. The
/// disk is only read.
///
/// # Errors
///
/// As those of [`calls_path`](crate::calls_path), and `Range` where the shadow would have fewer than 1,048,576 bytes, before anything is
/// opened; `Inspect` of `ShadowFull` where the events fill its room.
pub fn check_path<'a, I: Read, D: Disk, S: Sources<'a, I, D>, W: Write>(
    alloc: Global,
    job: &ShadowJob<'a>,
    rules: &[Rule],
    sources: &mut S,
    writer: &mut W,
) -> Result<(), JobFault>
    ensures checks { (left : Option (List ℕ))
        → ChecksPath D.Disk (S.opens sources.old job.now.stretch.disk.now) rules.now
        (shadowing_of job.now)
        (outside (S.openings sources.old) (W.contents writer.old) left)
        (outside (S.openings sources.new) (W.contents writer.new) left) result }
{
    if !is_room(job.memory) {
        return Err(JobFault::Range);
    }
    let errors = Errors {
        rules,
        room: room_of(job.memory),
    };
    look_path::<I, D, S, Errors, W>(alloc, &job.stretch, &errors, sources, writer)
}
