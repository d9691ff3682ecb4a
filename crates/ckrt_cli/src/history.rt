//! Keeping a history: telling how far it goes, bringing it up to its disk, and making parts of it.
ghost use Rattle.std.specs.Prelude.{◌≡◌, ◌∷◌, ◌++◌, [], ℕ, List, Option, None, Some, OnOk, codes, decimal, option_map};
ghost use Rattle.std.specs.Io.KnownBytes.{Appends};
ghost use Rattle.ckrt_cli_words.specs.Jobs.{history_keeping_of};
ghost use Rattle.ckrt_cli_reports.specs.Outside.{outside};
ghost use Rattle.ckrt_cli.specs.Histories.{Finds, MeasuresOpened, MeasuresPath, SaysHistory, TellsHistory, given, history_text, joined_text, span_text, stretch_of};

use crate::made::{Origin, make_path};
use ckrt_cli_files::{JobFile, Sources};
use ckrt_cli_reports::{JobFault, is_history_in_range};
use ckrt_cli_words::HistoryJob;
use ckrt_disk::Disk;
use ckrt_history::{Joined, PartStretch, Span, history_span};
use ckrt_look_calls::write_counted;
use ckrt_main::ServeFault;
use std::alloc::Global;
use std::io::{self, Read, Write};

/// What was found of a history: what became of its file, where one was to be made, and how far it goes.
pub(crate) type Found = (Option<Joined>, Span);

/// Writes what became of the file.
#[tactic(auto, using(ckrt_look_calls::proofs::AppendLemmas::appends_both))]
fn write_joined<W: Write>(out: &mut W, joined: Joined) -> io::Result<()>
    ensures { OnOk result (Appends (W.contents out.old) (W.contents out.new)
        (joined_text (Some joined))) }
{
    match joined {
        Joined::Begun => out.write_all(b"begun\n"),
        Joined::Appended(count) => {
            write_counted(out, b"appended ", count)?;
            out.write_all(b"\n")
        }
    }
}

/// Writes how far a history goes.
#[tactic(auto, using(ckrt_look_calls::proofs::AppendLemmas::appends_both))]
fn write_span<W: Write>(out: &mut W, span: &Span) -> io::Result<()>
    ensures { OnOk result (Appends (W.contents out.old) (W.contents out.new)
        (span_text span.now)) }
{
    let end = span.first.saturating_add(span.count);
    write_counted(out, b"events ", span.first)?;
    write_counted(out, b" to ", end)?;
    write_counted(out, b"\nbytes ", span.bytes)?;
    out.write_all(b"\n")
}

/// Writes what was found of a history.
fn write_found<W: Write>(out: &mut W, found: &Found) -> io::Result<()>
    ensures { OnOk result (Appends (W.contents out.old) (W.contents out.new)
        (history_text found.now)) }
{
    if let Some(joined) = found.0 {
        write_joined(out, joined)?;
    }
    write_span(out, &found.1)
}

/// Prints what was found of a history.
fn say<W: Write>(out: &mut W, found: &Found) -> Result<(), JobFault>
    ensures { SaysHistory (W.contents out.old) (W.contents out.new) (history_text found.now)
        result }
{
    if write_found(out, found).is_err() || out.flush().is_err() {
        return Err(JobFault::Serve(ServeFault::Write));
    }
    Ok(())
}

/// Reads how far a history that was opened goes, and closes it.
fn measure_opened<'a, I: Read, D: Disk, S: Sources<'a, I, D>>(
    alloc: Global,
    history: D,
    sources: &mut S,
) -> Result<Found, JobFault>
    ensures measures { MeasuresOpened D.Disk (λ start. start ≡ history)
        (S.openings sources.old) (S.openings sources.new) result }
{
    let mut history = history;
    let answer = history_span(alloc, &mut history);
    sources.close(history);
    match answer {
        Ok(span) => Ok((None, span)),
        Err(fault) => Err(JobFault::History(fault)),
    }
}

/// Reads how far the history of a path goes.
fn measure_path<'a, I: Read, D: Disk, S: Sources<'a, I, D>>(
    alloc: Global,
    path: &'a str,
    sources: &mut S,
) -> Result<Found, JobFault>
    ensures measures { MeasuresPath D.Disk (S.opens sources.old path.now) path.now
        (S.openings sources.old) (S.openings sources.new) result }
{
    match sources.look_at_disk(path) {
        Ok(history) => measure_opened::<I, D, S>(alloc, history, sources),
        Err(fault) => Err(JobFault::File(JobFile::History, fault)),
    }
}

/// Which part of a history the words ask for.
fn stretch_of(job: &HistoryJob<'_>) -> PartStretch
    ensures { result ≡ stretch_of (history_keeping_of job.now) }
{
    PartStretch {
        from: job.from.unwrap_or(0),
        to: job.to,
    }
}

/// Makes a part of the history of a path, or brings that up to a disk, or only looks at it, as the words ask, and reads how far what was made
/// goes.
fn find<'a, I: Read, D: Disk, S: Sources<'a, I, D>>(
    alloc: Global,
    job: &HistoryJob<'a>,
    sources: &mut S,
) -> Result<Found, JobFault>
    ensures finds { Finds D.Disk (given (S.opens sources.old) (S.gives sources.old).Outputs)
        (history_keeping_of job.now) (S.openings sources.old) (S.openings sources.new) result }
{
    if !is_history_in_range(job) {
        return Err(JobFault::Range);
    }
    match (job.part, job.disk) {
        (Some(part), _) => {
            let origin = Origin::Part(stretch_of(job));
            make_path::<I, D, S>(alloc, origin, job.file, part, sources)
        }
        (None, Some(disk)) => { make_path::<I, D, S>(alloc, Origin::Disk, disk, job.file, sources) }
        (None, None) => measure_path::<I, D, S>(alloc, job.file, sources),
    }
}

/// Tells how far the history of a path goes. Where the words name a disk the history is brought up to it first, or begun from it where the file is
/// missing, empty, or has one that isn't whole. The disk is only read. Where they name a part, that is made of the history, which is only read, and
/// it is told how far the part goes.
///
/// # Errors
///
/// The first that applies: `Range` where the words don't go together, or a part would end before it begins, before anything is opened; `File` of
/// what is looked at, or of what is made; `Recover`, where nothing is recovered from the disk, or it failed a read; `History`,
/// where the file is no history, or failed a call, or memory was refused; `HistoryBehind` where the disk no longer has the events after its last
/// one; `HistoryDiffers` where it isn't the disk's; `HistoryFull` where its file can't have so many bytes; of a part `Unrecorded` where the history
/// doesn't have all of its events, `Part` where its file isn't free, or failed a call, and `PartFull` where that can't have so many bytes; `Serve` of
/// `Write` where the writer failed, and then the history or the part is as it was to be.
pub fn history_path<'a, I: Read, D: Disk, S: Sources<'a, I, D>, W: Write>(
    alloc: Global,
    job: &HistoryJob<'a>,
    sources: &mut S,
    writer: &mut W,
) -> Result<(), JobFault>
    ensures tells { (left : Option (List ℕ)) → TellsHistory D.Disk
        (given (S.opens sources.old) (S.gives sources.old).Outputs) (history_keeping_of job.now)
        (outside (S.openings sources.old) (W.contents writer.old) left)
        (outside (S.openings sources.new) (W.contents writer.new) left) result }
{
    match find::<I, D, S>(alloc, job, sources) {
        Ok(found) => say(writer, &found),
        Err(fault) => Err(fault),
    }
}
