//! Making a disk.
ghost use Rattle.std.specs.Prelude.{◌≡◌, ◌↔◌, ◌≤◌, ℕ, List, Some, false, true, length, IfOk, IfErr, IsTrue, OnOk};
ghost use Rattle.ckrt_stored.specs.Layout.{is_valid, memory_size, size_needed};
ghost use Rattle.ckrt_cli_disk.specs.Making.{EndsOnImage, FormatsOpened, IsFit, Makes};
ghost use Rattle.ckrt_cli_files.specs.Elf.{is_elf};
ghost use Rattle.ckrt_cli_files.specs.Openings.{opened, refused, with_disk, with_image};
ghost use Rattle.ckrt_cli_files.specs.Sources.{GivesSame};
ghost use Rattle.ckrt_cli_reports.specs.declared.fault.JobFault.TheVariants.{File};
ghost use Rattle.ckrt_cli_files.specs.declared.file.FileFault.{FileFault};
ghost use Rattle.ckrt_cli_files.specs.declared.file.JobFile.TheVariants as file;

use crate::image::{is_elf, read_image};
use ckrt_cli_files::{FileFault, JobFile, Sources};
use ckrt_cli_reports::JobFault;
use ckrt_disk::Disk;
use ckrt_recovery::{Config, FormatFault};
use std::alloc::Global;
use std::io::Read;

/// A reader of the image.
fn open_image<'a, I: Read, D: Disk, S: Sources<'a, I, D>>(
    sources: &mut S,
    path: &'a str,
) -> Result<I, JobFault>
    ensures bytes { IfOk result
        (λ reader. I.remaining reader ≡ S.image_bytes sources.old path.now) }
    ensures opened { OnOk result
        (S.openings sources.new ≡ with_image (S.openings sources.old) (opened path.now)) }
    ensures refused { IfErr result (λ e.
        (why : FileFault) × (e ≡ File file.Image why)
        × (S.openings sources.new
        ≡ with_image (S.openings sources.old) (refused path.now why))) }
    ensures same { GivesSame (S.image_bytes sources.old) (S.image_bytes sources.new)
        (S.fills sources.old) (S.fills sources.new) (S.gives sources.old)
        (S.gives sources.new) }
{
    match sources.open_image(path) {
        Ok(reader) => Ok(reader),
        Err(fault) => Err(JobFault::File(JobFile::Image, fault)),
    }
}

/// The image, which is no ELF file, and has no more bytes than the guest's memory.
pub fn fitting_image<'a, I: Read + Drop, D: Disk, S: Sources<'a, I, D>>(
    alloc: Global,
    sources: &mut S,
    path: &'a str,
    config: Config,
) -> Result<Vec<u8>, JobFault>
    requires { is_valid config ≡ true }
    ensures bytes { IfOk result (λ image.
        (bytes : List ℕ) → S.image_bytes sources.old path.now ≡ Some bytes
        → image.items ≡ bytes) }
    ensures fits { IfOk result
        (λ image. (length image.items ≤ memory_size config) × (is_elf image.items ≡ false)) }
    ensures known { OnOk result (IsFit config (S.image_bytes sources.old path.now)) }
    ensures opened { OnOk result
        (S.openings sources.new ≡ with_image (S.openings sources.old) (opened path.now)) }
    ensures unfit { IfErr result (EndsOnImage config (S.image_bytes sources.old path.now) path.now
        (S.openings sources.old) (S.openings sources.new)) }
    ensures same { GivesSame (S.image_bytes sources.old) (S.image_bytes sources.new)
        (S.fills sources.old) (S.fills sources.new) (S.gives sources.old)
        (S.gives sources.new) }
{
    let reader = open_image(sources, path)?;
    let image = read_image(alloc, reader, config.memory_size())?;
    if is_elf(&image) {
        return Err(JobFault::File(JobFile::Image, FileFault::IsElf));
    }
    if image.len() > config.memory_size() {
        return Err(JobFault::Format(FormatFault::ImageTooLong));
    }
    Ok(image)
}

/// The disk of a path, filled up to that many bytes.
fn filled_disk<'a, I: Read, D: Disk, S: Sources<'a, I, D>>(
    sources: &mut S,
    path: &'a str,
    size: usize,
) -> Result<D, JobFault>
    ensures disk { IfOk result (S.fills sources.old path.now size) }
    ensures opened { OnOk result
        (S.openings sources.new ≡ with_disk (S.openings sources.old) (opened path.now)) }
    ensures refused { IfErr result (λ e.
        (why : FileFault) × (e ≡ File file.Disk why)
        × (S.openings sources.new
        ≡ with_disk (S.openings sources.old) (refused path.now why))) }
{
    match sources.open_filled(path, size) {
        Ok(disk) => Ok(disk),
        Err(fault) => Err(JobFault::File(JobFile::Disk, fault)),
    }
}

/// Whether two paths are the same word.
fn is_same_path(path: &str, other: &str) -> bool
    ensures { IsTrue result ↔ (path.now ≡ other.now) }
{
    path == other
}

/// Formats a disk that was opened, and closes it, or gives it up where it isn't formatted.
fn format_opened<'a, I: Read, D: Disk, S: Sources<'a, I, D>>(
    alloc: Global,
    disk: D,
    sources: &mut S,
    config: Config,
    image: &[u8],
) -> Result<(), JobFault>
    ensures formats { FormatsOpened D.Disk config image.now disk (S.openings sources.old)
        (S.openings sources.new) result }
{
    let mut disk = disk;
    let answer = ckrt_recovery::format(alloc, &mut disk, config, image);
    match answer {
        Ok(()) => {
            sources.close(disk);
            Ok(())
        }
        Err(fault) => {
            sources.abandon(disk);
            Err(JobFault::Format(fault))
        }
    }
}

/// Makes a disk with an image: opens the image, reads it, opens the disk, filled up to the bytes that the configuration
/// needs, formats it and closes it. The program on it hasn't begun.
///
/// # Errors
///
/// The first that applies: `BadConfig`, before anything is opened; `File` and `OutOfMemory` of the image, `File` also where it
/// is an ELF file; `ImageTooLong`; `File` of the disk, which is asked for only with an image that fits, and not where its path
/// is the image's; then what formatting answers.
pub fn make_disk<'a, I: Read + Drop, D: Disk, S: Sources<'a, I, D>>(
    alloc: Global,
    sources: &mut S,
    image_path: &'a str,
    disk_path: &'a str,
    config: Config,
) -> Result<(), JobFault>
    ensures makes { Makes D.Disk config (S.image_bytes sources.old image_path.now)
        (S.fills sources.old disk_path.now (size_needed config)) image_path.now disk_path.now
        (S.openings sources.old) (S.openings sources.new) result }
    ensures unopened { is_valid config ≡ false → sources.new ≡ sources.old }
{
    if !config.is_valid() {
        return Err(JobFault::Format(FormatFault::BadConfig));
    }
    let image = fitting_image(alloc, sources, image_path, config)?;
    if is_same_path(disk_path, image_path) {
        return Err(JobFault::File(JobFile::Disk, FileFault::IsImage));
    }
    let disk = filled_disk(sources, disk_path, config.size_needed())?;
    format_opened(alloc, disk, sources, config, &image)
}
