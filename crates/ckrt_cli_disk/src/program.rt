//! The program of a disk that a drive finds, beside the image of its words.
ghost use Rattle.std.specs.Prelude.{◌≡◌, ◌↔◌, IsTrue, OnOk};
ghost use Rattle.ckrt_cli_disk.specs.Programs.{Compares, ComparesImage, EndsNoted, LooksAtProgram, NotesImage};
ghost use Rattle.ckrt_cli_files.specs.Sources.{GivesSame};
ghost use Rattle.std.specs.Option.{option_map};

use crate::making::fitting_image;
use ckrt_cli_files::Sources;
use ckrt_cli_reports::{JobFault, ProgramNotes};
use ckrt_disk::Disk;
use ckrt_recovery::{Config, RecoverFault};
use ckrt_stored::{ProgramNote, note_for, read_note};
use std::alloc::Global;
use std::io::Read;

/// The largest disk: an image that doesn't fit its memory is that of none.
const LARGEST: Config = Config {
    pages: 65_536,
    harts: 1,
    journal: 4_096,
};

/// What a disk would note of the image of a path.
fn note_image<'a, I: Read + Drop, D: Disk, S: Sources<'a, I, D>>(
    alloc: Global,
    sources: &mut S,
    path: &'a str,
) -> Result<ProgramNote, JobFault>
    ensures notes { NotesImage (S.image_bytes sources.old path.now) path.now
        (S.openings sources.old) (S.openings sources.new) result }
    ensures same { GivesSame (S.image_bytes sources.old) (S.image_bytes sources.new)
        (S.fills sources.old) (S.fills sources.new) (S.gives sources.old)
        (S.gives sources.new) }
{
    let image = fitting_image(alloc, sources, path, LARGEST)?;
    Ok(note_for(&image))
}

/// Whether two notes are of one program.
fn is_same(note: &ProgramNote, other: &ProgramNote) -> bool
    ensures { IsTrue result ↔ (note.now ≡ other.now) }
{
    note == other
}

/// A disk with this note, if that is of the given program; else closes it as it is.
fn of_program<'a, I: Read, D: Disk, S: Sources<'a, I, D>>(
    disk: D,
    note: ProgramNote,
    given: ProgramNote,
    sources: &mut S,
) -> Result<D, JobFault>
    ensures ends { EndsNoted note given disk (S.openings sources.old) (S.openings sources.new)
        result }
    ensures same { OnOk result (sources.new ≡ sources.old) }
{
    if is_same(&given, &note) {
        return Ok(disk);
    }
    sources.close(disk);
    Err(JobFault::ImageDiffers(ProgramNotes {
        disk: note,
        image: given,
    }))
}

/// A disk with this note, if that is of the image of a path; else closes it as it is.
fn of_image<'a, I: Read + Drop, D: Disk, S: Sources<'a, I, D>>(
    alloc: Global,
    disk: D,
    note: ProgramNote,
    path: &'a str,
    sources: &mut S,
) -> Result<D, JobFault>
    ensures compares { ComparesImage (S.image_bytes sources.old path.now) path.now note disk
        (S.openings sources.old) (S.openings sources.new) result }
    ensures same { OnOk result (GivesSame (S.image_bytes sources.old) (S.image_bytes sources.new)
        (S.fills sources.old) (S.fills sources.new) (S.gives sources.old)
        (S.gives sources.new)) }
{
    match note_image::<I, D, S>(alloc, sources, path) {
        Ok(given) => of_program::<I, D, S>(disk, note, given, sources),
        Err(fault) => {
            sources.close(disk);
            Err(fault)
        }
    }
}

/// A disk that was found, if what it notes of its program is that of the image of a path, or nothing; else closes it as it is.
fn looked_at<'a, I: Read + Drop, D: Disk, S: Sources<'a, I, D>>(
    alloc: Global,
    disk: D,
    path: &'a str,
    sources: &mut S,
) -> Result<D, JobFault>
    ensures looks { LooksAtProgram D.Disk (S.image_bytes sources.old path.now) path.now disk
        (S.openings sources.old) (S.openings sources.new) result }
    ensures same { OnOk result (GivesSame (S.image_bytes sources.old) (S.image_bytes sources.new)
        (S.fills sources.old) (S.fills sources.new) (S.gives sources.old)
        (S.gives sources.new)) }
{
    let mut disk = disk;
    match read_note(&mut disk) {
        Ok(Some(note)) => of_image::<I, D, S>(alloc, disk, note, path, sources),
        Ok(None) => Ok(disk),
        Err(_) => {
            sources.close(disk);
            Err(JobFault::Recover(RecoverFault::Device))
        }
    }
}

/// A disk that was found, unless it notes another program than that of the words' image. Nothing of it is written.
///
/// # Errors
///
/// `Recover` where the disk failed the read; what the image's fault is, where that can't be read, is an ELF file, or fits no
/// memory; `ImageDiffers`. The disk is closed as it was.
pub(crate) fn compared<'a, I: Read + Drop, D: Disk, S: Sources<'a, I, D>>(
    alloc: Global,
    disk: D,
    image: Option<&'a str>,
    sources: &mut S,
) -> Result<D, JobFault>
    ensures compares { Compares D.Disk (S.image_bytes sources.old)
        (option_map (λ p. p.now) image.entry) disk (S.openings sources.old) (S.openings sources.new)
        result }
    ensures same { OnOk result (GivesSame (S.image_bytes sources.old) (S.image_bytes sources.new)
        (S.fills sources.old) (S.fills sources.new) (S.gives sources.old)
        (S.gives sources.new)) }
{
    match image {
        Some(path) => looked_at::<I, D, S>(alloc, disk, path, sources),
        None => Ok(disk),
    }
}
