//! Reading a history for a look at it: from a snapshot on, where one is taken.
ghost use Rattle.std.specs.Prelude.{◌≡◌, None, Ok};
ghost use Rattle.ckrt_disk.specs.Frame.{IsOnlyRead};
ghost use Rattle.ckrt_look_recording.specs.Recording.{recorded_of};
ghost use Rattle.ckrt_cli_files.specs.Openings.{with_closed};
ghost use Rattle.ckrt_cli_files.specs.Sources.{GivesSame};
ghost use Rattle.ckrt_history.specs.Reads.{is_device};
ghost use Rattle.ckrt_cli_disk.specs.Near.{AnswersFor, BeginsNear, Finds, ReadsNear, ReadsOpened, position_in, with_snapshot_closed};

use ckrt_cli_files::{Closes, Sources};
use ckrt_disk::Disk;
use ckrt_history::{HistoryFault, Snapshot, begin_at, read_history, read_snapshot};
use ckrt_look_calls::Stretch;
use ckrt_look_recording::Recording;
use std::alloc::Global;
use std::io::Read;

/// What was found of a snapshot: itself, where it was read, and its file, where that was opened.
#[derive(Drop)]
pub(crate) struct Found<D> {
    pub(crate) snapshot: Option<Snapshot>,
    pub(crate) file: Option<D>,
}

/// What was read of a history for a look at it, and the file of the snapshot that was looked at for that, which is to be closed.
#[derive(Drop)]
pub struct NearRead<D> {
    /// What is recorded, from the snapshot on where that was taken.
    pub answer: Result<Recording, HistoryFault>,
    /// The file of the snapshot.
    pub file: Option<D>,
}

/// Behind how many events a look at a stretch begins.
fn position_in(stretch: &Stretch, whole: &Recording) -> u64
    ensures { result ≡ position_in stretch.now (recorded_of whole.now) }
{
    let end = whole.first + whole.events.len() as u64;
    match (stretch.from, stretch.last) {
        (Some(from), _) => from,
        (None, Some(last)) => stretch.to.unwrap_or(end).saturating_sub(last),
        (None, None) => whole.first,
    }
}

/// The snapshot in a file that was opened.
fn read_opened<D: Disk>(alloc: Global, file: D) -> Found<D>
    ensures { ReadsOpened D.Disk file result }
{
    let mut file = file;
    let answer = read_snapshot(alloc, &mut file);
    Found {
        snapshot: answer.ok(),
        file: Some(file),
    }
}

/// No snapshot.
fn nothing<D>() -> Found<D>
    ensures snapshot { result.snapshot ≡ None }
    ensures file { result.file ≡ None }
{
    Found {
        snapshot: None,
        file: None,
    }
}

/// The nearest snapshot that is known behind no more events than a position, where it can be read.
fn find_snapshot<'a, I: Read, D: Disk, S: Sources<'a, I, D>>(
    alloc: Global,
    position: u64,
    sources: &mut S,
) -> Found<D>
    ensures finds { Finds D.Disk (S.openings sources.old) (S.openings sources.new) result }
    ensures same { GivesSame (S.image_bytes sources.old) (S.image_bytes sources.new)
        (S.fills sources.old) (S.fills sources.new) (S.gives sources.old) (S.gives sources.new) }
{
    let Some(path) = sources.nearest_snapshot(position) else {
        return nothing();
    };
    match sources.look_at_disk(path) {
        Ok(file) => read_opened(alloc, file),
        Err(_) => nothing(),
    }
}

/// What a look begins with, where a history has recorded this, and this snapshot was read.
fn begin_with<D: Disk>(
    history: &mut D,
    stretch: &Stretch,
    whole: Recording,
    snapshot: Option<Snapshot>,
) -> Result<Recording, HistoryFault>
    ensures read { IsOnlyRead D.Disk history.old history.new (is_device result) }
    ensures begins { D.is_honest history.new
        → AnswersFor (D.content history.old) stretch.now snapshot (Ok whole) result }
{
    let position = position_in(stretch, &whole);
    match snapshot {
        Some(snapshot) => begin_at(history, whole, snapshot, position),
        None => Ok(whole),
    }
}

/// What a look begins with at a history that has recorded this, from the nearest snapshot on where that is taken.
fn begin_near<'a, I: Read, D: Disk, S: Sources<'a, I, D>>(
    alloc: Global,
    history: &mut D,
    stretch: &Stretch,
    whole: Recording,
    sources: &mut S,
) -> NearRead<D>
    ensures begins { BeginsNear D.Disk stretch.now whole history.old history.new
        (S.openings sources.old, S.openings sources.new) result }
    ensures same { GivesSame (S.image_bytes sources.old) (S.image_bytes sources.new)
        (S.fills sources.old) (S.fills sources.new) (S.gives sources.old) (S.gives sources.new) }
{
    let position = position_in(stretch, &whole);
    let Found { snapshot, file } = find_snapshot::<I, D, S>(alloc, position, sources);
    let answer = begin_with(history, stretch, whole, snapshot);
    NearRead { answer, file }
}

/// Reads what a history has recorded for a look at a stretch of it: from the nearest snapshot on that is known at or before where the look begins,
/// where that is the history's own; else from its own first state on. The history is only read, and so is the snapshot, whose file is to be
/// closed with it.
///
/// # Errors
///
/// Those of [`read_history`], and of [`begin_at`].
pub fn read_near<'a, I: Read, D: Disk, S: Sources<'a, I, D>>(
    alloc: Global,
    history: &mut D,
    stretch: &Stretch,
    sources: &mut S,
) -> NearRead<D>
    ensures reads { ReadsNear D.Disk stretch.now history.old history.new
        (S.openings sources.old) (S.openings sources.new) result }
    ensures same { GivesSame (S.image_bytes sources.old) (S.image_bytes sources.new)
        (S.fills sources.old) (S.fills sources.new) (S.gives sources.old) (S.gives sources.new) }
{
    match read_history(alloc, history) {
        Ok(whole) => begin_near::<I, D, S>(alloc, history, stretch, whole, sources),
        Err(fault) => NearRead {
            answer: Err(fault),
            file: None,
        },
    }
}

/// Closes a history, and the file of the snapshot beside it, where there is one.
pub fn close_near<D, S: Closes<D>>(history: D, file: Option<D>, sources: &mut S)
    ensures { S.openings sources.new
        ≡ with_closed (with_snapshot_closed (S.openings sources.old) file) history }
{
    match file {
        Some(file) => sources.close(file),
        None => {}
    }
    sources.close(history);
}
