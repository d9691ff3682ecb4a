//! What a drive has beside its disk: its input, and the history that it keeps.
ghost use Rattle.std.specs.Prelude.{◌≡◌, Err, OnOk};
ghost use Rattle.ckrt_cli_words.specs.Jobs.{driving_of};
ghost use Rattle.ckrt_cli_files.specs.Sources.{GivesNoMore};
ghost use Rattle.ckrt_cli_disk.specs.Equipping.{Equips, EquipsOpened, EquipsWith, fault_of, left_of, left_unkept, with_left_closed};

use crate::feeding::{Intake, Supplied, close_both, file_of};
use ckrt_cli_files::{Closes, JobFile, OpenedOutput, Sources};
use ckrt_cli_reports::JobFault;
use ckrt_cli_words::DriveJob;
use ckrt_disk::Disk;
use ckrt_history::{JoinFault, KeptHistory, Unkept, open_kept};
use std::alloc::Global;
use std::io::Read;

/// What a drive has beside its disk and its output: an input and a history, where there are such.
#[derive(Drop)]
pub struct Beside<D: Disk> {
    /// The input.
    pub intake: Option<Intake<D>>,
    /// The history that it keeps.
    pub history: Option<KeptHistory<D>>,
}

/// The files of both, as a drive leaves them.
#[derive(Drop)]
pub struct Left<D> {
    /// That of the input.
    pub input: Option<D>,
    /// That of the history.
    pub history: Option<D>,
}

/// A disk, with what its drive has beside it.
#[derive(Drop)]
pub struct Equipped<D: Disk> {
    /// The disk.
    pub disk: D,
    /// What is beside it.
    pub beside: Beside<D>,
}

/// What a job answers where a history has no more of its disk.
pub fn fault_of(fault: JoinFault) -> JobFault
    ensures { result ≡ fault_of fault }
{
    match fault {
        JoinFault::Disk(fault) => JobFault::Recover(fault),
        JoinFault::File(fault) => JobFault::History(fault),
        JoinFault::TooSmall => JobFault::HistoryFull,
        JoinFault::HistoryBehind => JobFault::HistoryBehind,
        JoinFault::HistoryDiffers => JobFault::HistoryDiffers,
    }
}

/// The files of what a drive has beside it, where it isn't driven.
pub(crate) fn left_of<D: Disk>(beside: Beside<D>) -> Left<D>
    ensures { result ≡ left_of beside }
{
    let Beside { intake, history } = beside;
    Left {
        input: file_of(intake),
        history: match history {
            Some(history) => Some(history.file),
            None => None,
        },
    }
}

/// Closes a disk, and what its drive left beside it.
pub(crate) fn close_all<D, S: Closes<D>>(disk: D, left: Left<D>, sources: &mut S)
    ensures { S.openings sources.new ≡ with_left_closed (S.openings sources.old) left disk }
{
    let Left { input, history } = left;
    match history {
        Some(history) => sources.close_history(history),
        None => {}
    }
    close_both::<D, S>(disk, input, sources);
}

/// Closes a disk and its input, and the file of the history that it can't have, which is told.
fn refuse<'a, I: Read, D: Disk, S: Sources<'a, I, D>>(
    disk: D,
    intake: Option<Intake<D>>,
    unkept: Unkept<D>,
    sources: &mut S,
) -> JobFault
    ensures told { result ≡ fault_of unkept.fault }
    ensures closes { S.openings sources.new ≡ with_left_closed (S.openings sources.old)
        (left_unkept intake unkept) disk }
{
    let left = Left {
        input: file_of(intake),
        history: Some(unkept.file),
    };
    close_all::<D, S>(disk, left, sources);
    fault_of(unkept.fault)
}

/// A disk with its input, and with the history in a file that was opened, which gets what it lacks of the disk first.
fn with_opened<'a, I: Read, D: Disk, S: Sources<'a, I, D>>(
    alloc: Global,
    supplied: Supplied<D>,
    opened: OpenedOutput<D>,
    sources: &mut S,
) -> Result<Equipped<D>, JobFault>
    ensures equips { EquipsOpened D.Disk supplied opened (S.openings sources.old)
        (S.openings sources.new) result }
    ensures same { OnOk result (GivesNoMore (S.gives sources.old) (S.gives sources.new)) }
{
    let Supplied { disk, intake } = supplied;
    let mut disk = disk;
    match open_kept(alloc, &mut disk, opened.output, opened.length as usize) {
        Ok(history) => Ok(Equipped {
            disk,
            beside: Beside {
                intake,
                history: Some(history),
            },
        }),
        Err(unkept) => Err(refuse::<I, D, S>(disk, intake, unkept, sources)),
    }
}

/// A disk with its input, and with the history of a path.
fn with_history<'a, I: Read, D: Disk, S: Sources<'a, I, D>>(
    alloc: Global,
    supplied: Supplied<D>,
    path: &'a str,
    sources: &mut S,
) -> Result<Equipped<D>, JobFault>
    ensures equips { EquipsWith D.Disk ((S.gives sources.old).Outputs path.now) path.now supplied
        (S.openings sources.old) (S.openings sources.new) result }
    ensures same { OnOk result (GivesNoMore (S.gives sources.old) (S.gives sources.new)) }
{
    match sources.open_history(path) {
        Ok(opened) => with_opened::<I, D, S>(alloc, supplied, opened, sources),
        Err(fault) => {
            close_both::<D, S>(supplied.disk, file_of(supplied.intake), sources);
            Err(JobFault::File(JobFile::History, fault))
        }
    }
}

/// A disk with its input, and with the history of the words, where they name one. That is begun from the disk first, or brought up to it. The
/// disk is synced for it, and else only read. Where the history can't be had all are closed.
///
/// # Errors
///
/// The first that applies: `File` of the history; `Recover`, where the disk fails the sync, or nothing is recovered from it; else what
/// [`open_kept`] answers.
pub(crate) fn equip<'a, I: Read, D: Disk, S: Sources<'a, I, D>>(
    alloc: Global,
    supplied: Supplied<D>,
    job: &DriveJob<'a>,
    sources: &mut S,
) -> Result<Equipped<D>, JobFault>
    ensures equips { Equips D.Disk (S.gives sources.old) (driving_of job.now).history supplied
        (S.openings sources.old) (S.openings sources.new) result }
    ensures same { OnOk result (GivesNoMore (S.gives sources.old) (S.gives sources.new)) }
{
    match job.history {
        Some(path) => with_history::<I, D, S>(alloc, supplied, path, sources),
        None => {
            let Supplied { disk, intake } = supplied;
            let beside = Beside {
                intake,
                history: None,
            };
            Ok(Equipped { disk, beside })
        }
    }
}
