//! Making a disk that a drive doesn't find.
ghost use Rattle.std.specs.Prelude.{◌≡◌, ◌↔◌, ◌≤◌, ◌+◌, IfOk, IfErr, IsTrue, Ok, OnOk};
ghost use Rattle.ckrt_stored.specs.Layout.{size_needed};
ghost use Rattle.ckrt_cli_words.specs.Jobs.{driving_of};
ghost use Rattle.ckrt_cli_disk.specs.Feeding.{made_size};
ghost use Rattle.ckrt_cli_disk.specs.Missing.{EndsNaming, FindsDisk, MakesMissing, MakesNamed};
ghost use Rattle.ckrt_cli_files.specs.Openings.{opened, refused, with_making};
ghost use Rattle.ckrt_cli_reports.specs.Ranges.{config_for};
ghost use Rattle.ckrt_cli_files.specs.Sources.{GivesSame};
ghost use Rattle.ckrt_cli_reports.specs.declared.fault.JobFault.TheVariants.{File};
ghost use Rattle.ckrt_cli_files.specs.declared.file.FileFault.{FileFault};
ghost use Rattle.ckrt_cli_files.specs.declared.file.JobFile.TheVariants as file;

use crate::feeding::spare_for;
use crate::making::fitting_image;
use crate::program::compared;
use ckrt_cli_files::{FileFault, JobFile, Sources};
use ckrt_cli_reports::{JobFault, config_for};
use ckrt_cli_words::DriveJob;
use ckrt_disk::Disk;
use ckrt_recovery::{Config, FormatFault};
use std::alloc::Global;
use std::io::Read;

/// Gives a disk that was formatted the name of its path, or gives it up where it can't have that.
fn name_made<'a, I: Read, D: Disk, S: Sources<'a, I, D>>(
    disk: D,
    sources: &mut S,
    path: &'a str,
) -> Result<D, JobFault>
    ensures ends { EndsNaming path.now disk (S.openings sources.old) (S.openings sources.new)
        (Ok tt) result }
    ensures same { OnOk result (GivesSame (S.image_bytes sources.old) (S.image_bytes sources.new)
        (S.fills sources.old) (S.fills sources.new) (S.gives sources.old)
        (S.gives sources.new)) }
{
    match sources.name_disk(path, &disk) {
        Ok(()) => Ok(disk),
        Err(fault) => {
            sources.abandon(disk);
            Err(JobFault::File(JobFile::Making, fault))
        }
    }
}

/// Formats a disk in the making, and then gives it the name of its path. Where either can't be it is given up.
fn make_named<'a, I: Read, D: Disk, S: Sources<'a, I, D>>(
    alloc: Global,
    disk: D,
    sources: &mut S,
    path: &'a str,
    config: Config,
    image: &[u8],
) -> Result<D, JobFault>
    ensures makes { MakesNamed D.Disk config image.now path.now disk (S.openings sources.old)
        (S.openings sources.new) result }
    ensures same { OnOk result (GivesSame (S.image_bytes sources.old) (S.image_bytes sources.new)
        (S.fills sources.old) (S.fills sources.new) (S.gives sources.old)
        (S.gives sources.new)) }
{
    let mut disk = disk;
    let answer = ckrt_recovery::format(alloc, &mut disk, config, image);
    match answer {
        Ok(()) => name_made::<I, D, S>(disk, sources, path),
        Err(fault) => {
            sources.abandon(disk);
            Err(JobFault::Format(fault))
        }
    }
}

/// A disk in the making for a path, of that many bytes.
fn disk_in_making<'a, I: Read, D: Disk, S: Sources<'a, I, D>>(
    alloc: Global,
    sources: &mut S,
    path: &'a str,
    size: usize,
) -> Result<D, JobFault>
    ensures disk { IfOk result (S.fills sources.old path.now size) }
    ensures opened { OnOk result
        (S.openings sources.new ≡ with_making (S.openings sources.old) (opened path.now)) }
    ensures refused { IfErr result (λ e.
        (why : FileFault) × (e ≡ File file.Making why)
        × (S.openings sources.new
        ≡ with_making (S.openings sources.old) (refused path.now why))) }
    ensures same { GivesSame (S.image_bytes sources.old) (S.image_bytes sources.new)
        (S.fills sources.old) (S.fills sources.new) (S.gives sources.old)
        (S.gives sources.new) }
{
    match sources.open_making(alloc, path, size) {
        Ok(disk) => Ok(disk),
        Err(fault) => Err(JobFault::File(JobFile::Making, fault)),
    }
}

/// Makes a disk for a path that nothing has: beside it, and by its name once it is formatted and durable. It has that many bytes
/// to spare after those of its format.
///
/// # Errors
///
/// The first that applies: `BadConfig`, before anything is opened; `File` and `OutOfMemory` of the image, `File` also where it
/// is an ELF file; `ImageTooLong`; `File` of the disk in the making; what formatting answers; `File` of its naming.
fn make_missing<'a, I: Read + Drop, D: Disk, S: Sources<'a, I, D>>(
    alloc: Global,
    sources: &mut S,
    image_path: &'a str,
    disk_path: &'a str,
    config: Config,
    spare: usize,
) -> Result<D, JobFault>
    requires { spare ≤ 4096 }
    ensures makes { MakesMissing D.Disk config (S.image_bytes sources.old image_path.now)
        (S.fills sources.old disk_path.now (size_needed config + spare)) image_path.now
        disk_path.now (S.openings sources.old) (S.openings sources.new) result }
    ensures same { OnOk result (GivesSame (S.image_bytes sources.old) (S.image_bytes sources.new)
        (S.fills sources.old) (S.fills sources.new) (S.gives sources.old)
        (S.gives sources.new)) }
{
    if !config.is_valid() {
        return Err(JobFault::Format(FormatFault::BadConfig));
    }
    let image = fitting_image(alloc, sources, image_path, config)?;
    let disk = disk_in_making(alloc, sources, disk_path, config.size_needed() + spare)?;
    make_named::<I, D, S>(alloc, disk, sources, disk_path, config, &image)
}

/// Whether a file can't be used since nothing has its path.
fn is_missing(fault: FileFault) -> bool
    ensures { IsTrue result ↔ (fault ≡ FileFault.NotFound) }
{
    match fault {
        FileFault::NotFound => true,
        _ => false,
    }
}

/// The disk of a drive: the one of its path, unless that is of another program than the image of its words; or, where nothing has
/// the path, one that is made with that image.
///
/// # Errors
///
/// `File` of the disk, where it can't be opened, or is missing and the words have no image for it; what comparing it with the
/// image answers; else what making it answers.
pub(crate) fn find_disk<'a, I: Read + Drop, D: Disk, S: Sources<'a, I, D>>(
    alloc: Global,
    job: &DriveJob<'a>,
    sources: &mut S,
) -> Result<D, JobFault>
    ensures finds { FindsDisk D.Disk (config_for job.now.sizes) (S.image_bytes sources.old)
        (S.opens sources.old job.now.disk.now)
        (S.fills sources.old job.now.disk.now (made_size (driving_of job.now)))
        job.now.disk.now (driving_of job.now).image (S.openings sources.old)
        (S.openings sources.new) result }
    ensures same { OnOk result (GivesSame (S.image_bytes sources.old) (S.image_bytes sources.new)
        (S.fills sources.old) (S.fills sources.new) (S.gives sources.old)
        (S.gives sources.new)) }
{
    let fault = match sources.open_disk(job.disk) {
        Ok(disk) => return compared::<I, D, S>(alloc, disk, job.image, sources),
        Err(fault) => fault,
    };
    match job.image {
        Some(image) if is_missing(fault) => {
            let spare = spare_for(job.input);
            let config = config_for(&job.sizes);
            make_missing::<I, D, S>(alloc, sources, image, job.disk, config, spare)
        }
        _ => Err(JobFault::File(JobFile::Disk, fault)),
    }
}
