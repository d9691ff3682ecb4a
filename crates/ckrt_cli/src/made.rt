//! Histories that are made: of a disk, or as a part of another history.
ghost use Rattle.std.specs.Prelude.{◌≡◌, Some};
ghost use Rattle.ckrt_cli.specs.Histories.{Cuts, Joins, Makes, MakesAndMeasures, MakesFrom, MakesOpened, MakesWith, Measures, both, cut_fault, files_of, given, making, place, unread};

use crate::history::Found;
use ckrt_cli_disk::fault_of;
use ckrt_cli_files::{JobFile, OpenedOutput, Sources};
use ckrt_cli_reports::JobFault;
use ckrt_disk::Disk;
use ckrt_history::{
    HistoryFault, Joined, PartFault, PartStretch, begin_or_bring_up, begin_part, history_span,
};
use std::alloc::Global;
use std::io::Read;

/// What a history is made of.
#[derive(Clone, Copy)]
pub(crate) enum Origin {
    /// A disk: it is begun from that, or brought up to it.
    Disk,
    /// Another history, of which it is to have this part.
    Part(PartStretch),
}

/// What the two files are to a job: the one that is looked at, and the one that gets a history.
fn files_of(origin: Origin) -> (JobFile, JobFile)
    ensures { result ≡ files_of origin }
{
    match origin {
        Origin::Disk => (JobFile::Disk, JobFile::History),
        Origin::Part(_) => (JobFile::History, JobFile::Part),
    }
}

/// What a job answers where it isn't read how far a history goes that was made.
fn unread(origin: Origin, fault: HistoryFault) -> JobFault
    ensures { result ≡ unread origin fault }
{
    match origin {
        Origin::Disk => JobFault::History(fault),
        Origin::Part(_) => JobFault::Part(fault),
    }
}

/// What a job answers where no part of a history was made.
fn cut_fault(fault: PartFault) -> JobFault
    ensures { result ≡ cut_fault fault }
{
    match fault {
        PartFault::Whole(fault) => JobFault::History(fault),
        PartFault::Unrecorded => JobFault::Unrecorded,
        PartFault::Part(fault) => JobFault::Part(fault),
        PartFault::TooSmall => JobFault::PartFull,
    }
}

/// Begins a history in a file that has so many bytes, or brings it up to its disk. What it is made of is only read.
fn make<D: Disk>(
    alloc: Global,
    origin: Origin,
    source: &mut D,
    history: &mut D,
    bytes: usize,
) -> Result<Joined, JobFault>
    ensures makes { Makes D.Disk origin bytes (both source.old history.old)
        (both source.new history.new) result }
{
    match origin {
        Origin::Disk => match begin_or_bring_up(alloc, source, history, bytes) {
            Ok(joined) => Ok(joined),
            Err(fault) => Err(fault_of(fault)),
        },
        Origin::Part(stretch) => match begin_part(alloc, source, history, bytes, stretch) {
            Ok(()) => Ok(Joined::Begun),
            Err(fault) => Err(cut_fault(fault)),
        },
    }
}

/// The same, and reads how far the history goes then.
fn make_and_measure<D: Disk>(
    alloc: Global,
    origin: Origin,
    source: &mut D,
    history: &mut D,
    bytes: usize,
) -> Result<Found, JobFault>
    ensures makes { MakesAndMeasures D.Disk origin bytes (both source.old history.old)
        (both source.new history.new) result }
{
    match make(alloc, origin, source, history, bytes) {
        Ok(joined) => match history_span(alloc, history) {
            Ok(span) => Ok((Some(joined), span)),
            Err(fault) => Err(unread(origin, fault)),
        },
        Err(fault) => Err(fault),
    }
}

/// The same with both files opened, and closes them.
fn make_opened<'a, I: Read, D: Disk, S: Sources<'a, I, D>>(
    alloc: Global,
    origin: Origin,
    source: D,
    output: OpenedOutput<D>,
    sources: &mut S,
) -> Result<Found, JobFault>
    ensures makes { MakesOpened D.Disk origin (λ it. it ≡ source) (λ it. it ≡ output)
        (S.openings sources.old) (S.openings sources.new) result }
{
    let (mut source, bytes) = (source, output.length as usize);
    let mut history = output.output;
    let found = make_and_measure(alloc, origin, &mut source, &mut history, bytes);
    sources.close_history(history);
    sources.close(source);
    found
}

/// The same with the first file opened, and the path of the other.
fn make_with<'a, I: Read, D: Disk, S: Sources<'a, I, D>>(
    alloc: Global,
    origin: Origin,
    source: D,
    path: &'a str,
    sources: &mut S,
) -> Result<Found, JobFault>
    ensures makes { MakesWith D.Disk origin (λ it. it ≡ source)
        (place path.now ((S.gives sources.old).Outputs path.now))
        (S.openings sources.old) (S.openings sources.new) result }
{
    match sources.open_history(path) {
        Ok(output) => make_opened::<I, D, S>(alloc, origin, source, output, sources),
        Err(fault) => {
            sources.close(source);
            Err(JobFault::File(files_of(origin).1, fault))
        }
    }
}

/// Makes a history at a path of what another path has, or brings it up to that, and reads how far it goes then. What it is made of is only
/// read.
pub(crate) fn make_path<'a, I: Read, D: Disk, S: Sources<'a, I, D>>(
    alloc: Global,
    origin: Origin,
    source: &'a str,
    path: &'a str,
    sources: &mut S,
) -> Result<Found, JobFault>
    ensures makes { MakesFrom D.Disk origin
        (making (given (S.opens sources.old) (S.gives sources.old).Outputs) source.now path.now)
        (S.openings sources.old) (S.openings sources.new) result }
{
    match sources.look_at_disk(source) {
        Ok(opened) => make_with::<I, D, S>(alloc, origin, opened, path, sources),
        Err(fault) => Err(JobFault::File(files_of(origin).0, fault)),
    }
}
