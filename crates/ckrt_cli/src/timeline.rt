//! Drawing what the threads of a disk's program did.
ghost use Rattle.std.specs.Prelude.{◌≡◌, true, ℕ, List, Option};
ghost use Rattle.ckrt_cli_words.specs.Jobs.{drawing_of};
ghost use Rattle.ckrt_cli_reports.specs.Outside.{outside};
ghost use Rattle.ckrt_look_timeline.specs.Widths.{is_width};
ghost use Rattle.ckrt_cli.specs.Looking.{TimelinePath, form_of};

use crate::looking::look_path;
use ckrt_cli_files::Sources;
use ckrt_cli_reports::JobFault;
use ckrt_cli_words::TimelineJob;
use ckrt_disk::Disk;
use ckrt_events::Event;
use ckrt_inspect::InspectFault;
use ckrt_look_calls::Telling;
use ckrt_look_timeline::{Form, Style, is_width, write_timeline};
use ckrt_machine::Machine;
use std::alloc::Global;
use std::io::{Read, Write};

/// Its timeline, in a style.
#[derive(Drop)]
struct Timeline {
    style: Style,
    ghost fits: { is_width style.width ≡ true },
}

impl Telling for Timeline {
    ghost use Rattle.ckrt_look_calls.specs.Stretches.{account};
    ghost use Rattle.ckrt_look_timeline.specs.Recorded.{IsDrawing};

    ghost Tells = { λ self. account (IsDrawing self.style) };

    fn tell<W: Write>(
        &self,
        alloc: Global,
        machine: &mut Machine,
        count: u64,
        events: &[Event],
        out: &mut W,
    ) -> Result<(), InspectFault> {
        write_timeline(alloc, machine, count, events, self.style, out)
    }
}

/// The form that a job asks for.
fn form_of(json: bool) -> Form
    ensures { result ≡ form_of json }
{
    if json { Form::Events } else { Form::Picture }
}

/// Draws what the threads of a disk's program did in what the disk of a path has recorded, as a picture or as trace events: in all
/// events, or in those behind so many and up to so many. The disk is only read.
///
/// # Errors
///
/// As those of [`calls_path`](crate::calls_path), and Range where the picture's width is out of its range.
pub fn timeline_path<'a, I: Read, D: Disk, S: Sources<'a, I, D>, W: Write>(
    alloc: Global,
    job: &TimelineJob<'a>,
    sources: &mut S,
    writer: &mut W,
) -> Result<(), JobFault>
    ensures draws { (left : Option (List ℕ))
        → TimelinePath D.Disk (S.opens sources.old job.now.stretch.disk.now) (drawing_of job.now)
        (outside (S.openings sources.old) (W.contents writer.old) left)
        (outside (S.openings sources.new) (W.contents writer.new) left) result }
{
    if !is_width(job.width) {
        return Err(JobFault::Range);
    }
    let timeline = Timeline {
        style: Style {
            form: form_of(job.json),
            width: job.width,
        },
    };
    look_path::<I, D, S, Timeline, W>(alloc, &job.stretch, &timeline, sources, writer)
}
