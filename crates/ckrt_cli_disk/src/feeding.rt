//! The input of a drive: where it goes on, and the room for the record of it on the disk.
ghost use Rattle.std.specs.Prelude.{◌≡◌, ◌≢◌, ◌≤◌, ◌<◌, Err, IfSome, Ok, OnOk, option_map, true};
ghost use Rattle.ckrt_disk.specs.Frame.{IsOnlyRead};
ghost use Rattle.ckrt_cli_words.specs.Jobs.{driving_of};
ghost use Rattle.ckrt_stored.specs.declared.fault.RecoverFault.TheVariants.{OutOfMemory};
ghost use Rattle.ckrt_stored.specs.Reads.{is_device};
ghost use Rattle.ckrt_stored.specs.Recovery.{Agrees, Is};
ghost use Rattle.ckrt_cli_reports.specs.Ranges.{is_in_range};
ghost use Rattle.ckrt_cli_disk.specs.Feeding.{EndsWithRoom, LooksUp, MakesRoom, Supplies, SuppliesFrom, SuppliesOpened, SuppliesTaken, TakesInput, file_of, size_wanted, spare_for, taken_by_words};
ghost use Rattle.ckrt_cli_files.specs.Openings.{with_both_closed};
ghost use Rattle.ckrt_cli_files.specs.Sources.{GivesNoMore};
ghost use Rattle.ckrt_drive.specs.Slot.{TAKEN_LIMIT};

use ckrt_cli_files::{Closes, JobFile, Sources};
use ckrt_cli_reports::{InputLengths, JobFault};
use ckrt_cli_words::DriveJob;
use ckrt_disk::Disk;
use ckrt_drive::{OffsetFault, RECORD_BYTES, read_offset};
use ckrt_recovery::RecoverFault;
use ckrt_stored::read_in_use;
use std::io::Read;

/// The input of a drive.
#[derive(Drop)]
pub struct Intake<D> {
    /// The file, as a disk.
    pub file: D,
    /// How many of its bytes the program has taken.
    pub taken: u64,
}

/// A disk, with an input beside it, where there is one.
#[derive(Drop)]
pub struct Supplied<D> {
    /// The disk.
    pub disk: D,
    /// The input, of which there is none without a file.
    pub intake: Option<Intake<D>>,
}

/// A disk that can't be driven with an input, and why.
#[derive(Drop)]
pub struct Unready<D> {
    pub disk: D,
    pub fault: JobFault,
}

/// How many bytes of its input the program has taken, where its disk told so and the words don't say more.
fn taken_by_words(told: Result<u64, OffsetFault>, from: Option<u64>) -> Result<u64, JobFault>
    ensures { result ≡ taken_by_words from told }
{
    match told {
        Ok(taken) if from.unwrap_or(0) > taken => Err(JobFault::OffsetDiffers(taken)),
        Ok(taken) => Ok(taken),
        Err(OffsetFault::NotRecorded) => Err(JobFault::NotRecorded),
        Err(OffsetFault::Unrecovered(fault)) => Err(JobFault::Recover(fault)),
    }
}

/// How many bytes of its input the program of a disk has taken, which is only read. Where the disk can't tell how many these were when
/// it was saved, the words say so.
pub(crate) fn look_up_taken<D: Disk>(disk: &mut D, from: Option<u64>) -> Result<u64, JobFault>
    requires { IfSome from (λ n. n < TAKEN_LIMIT) }
    ensures { LooksUp D.Disk from disk.old disk.new result }
{
    let told = read_offset(disk, from);
    taken_by_words(told, from)
}

/// How many bytes a disk that is made has after those of its format.
pub(crate) fn spare_for(input: Option<&str>) -> usize
    ensures size { result ≡ spare_for (option_map (λ path. path.now) input.entry) }
    ensures few { result ≤ 4096 }
{
    match input {
        Some(_) => RECORD_BYTES,
        None => 0,
    }
}

/// How many bytes a disk has to have, with the record after those of its format.
fn size_wanted<D: Disk>(disk: &mut D) -> Result<usize, RecoverFault>
    ensures exact { D.is_honest disk.new
        → Agrees (λ n. n) (λ e. e) result (Is (size_wanted (D.content disk.old))) }
    ensures read { IsOnlyRead D.Disk disk.old disk.new (is_device result) }
    ensures memory { result ≢ Err OutOfMemory }
{
    let (config, _area) = read_in_use(disk)?;
    Ok(config.size_needed() + RECORD_BYTES)
}

/// A disk of that many bytes or more: as it is, or made longer.
fn with_size<'a, I: Read, D: Disk, S: Sources<'a, I, D>>(
    disk: D,
    size: usize,
    sources: &mut S,
) -> Result<D, Unready<D>>
    ensures ends { EndsWithRoom D.Disk (S.gives sources.old).Longer disk (S.openings sources.old)
        (S.openings sources.new) result (Ok size) }
    ensures same { GivesNoMore (S.gives sources.old) (S.gives sources.new) }
{
    if disk.size() >= size {
        return Ok(disk);
    }
    match sources.lengthen(disk, size) {
        Ok(longer) => Ok(longer),
        Err(same) => Err(Unready {
            disk: same.disk,
            fault: JobFault::File(JobFile::Disk, same.fault),
        }),
    }
}

/// A disk with room for the record of an input: as it is, or made longer.
pub(crate) fn with_room<'a, I: Read, D: Disk, S: Sources<'a, I, D>>(
    disk: D,
    sources: &mut S,
) -> Result<D, Unready<D>>
    ensures makes { MakesRoom D.Disk (S.gives sources.old).Longer disk (S.openings sources.old)
        (S.openings sources.new) result }
    ensures same { GivesNoMore (S.gives sources.old) (S.gives sources.new) }
{
    let mut disk = disk;
    let size = size_wanted(&mut disk);
    match size {
        Ok(size) => with_size::<I, D, S>(disk, size, sources),
        Err(fault) => Err(Unready {
            disk,
            fault: JobFault::Recover(fault),
        }),
    }
}

/// The file of an input, where there is one.
pub(crate) fn file_of<D>(intake: Option<Intake<D>>) -> Option<D>
    ensures { result ≡ file_of intake }
{
    match intake {
        Some(intake) => Some(intake.file),
        None => None,
    }
}

/// Closes a disk, and the input beside it, where there is one.
pub(crate) fn close_both<D, S: Closes<D>>(disk: D, input: Option<D>, sources: &mut S)
    ensures { S.openings sources.new ≡ with_both_closed (S.openings sources.old) input disk }
{
    match input {
        Some(input) => sources.close_input(input),
        None => {}
    }
    sources.close(disk);
}

/// A disk with an input that has the bytes which were taken of it, once there is room for the record. Else both are closed.
fn with_input<'a, I: Read, D: Disk, S: Sources<'a, I, D>>(
    disk: D,
    intake: Intake<D>,
    sources: &mut S,
) -> Result<Supplied<D>, JobFault>
    requires long { intake.taken ≤ D.size intake.file }
    ensures takes { TakesInput D.Disk (S.gives sources.old).Longer disk intake
        (S.openings sources.old) (S.openings sources.new) result }
    ensures same { OnOk result (GivesNoMore (S.gives sources.old) (S.gives sources.new)) }
{
    match with_room::<I, D, S>(disk, sources) {
        Ok(disk) => Ok(Supplied {
            disk,
            intake: Some(intake),
        }),
        Err(unready) => {
            close_both::<D, S>(unready.disk, Some(intake.file), sources);
            Err(unready.fault)
        }
    }
}

/// A disk with an input that was opened, if that has the bytes which were taken of it. Else both are closed as they are.
fn with_opened<'a, I: Read, D: Disk, S: Sources<'a, I, D>>(
    disk: D,
    intake: Intake<D>,
    sources: &mut S,
) -> Result<Supplied<D>, JobFault>
    ensures ends { SuppliesOpened D.Disk (S.gives sources.old).Longer disk intake
        (S.openings sources.old) (S.openings sources.new) result }
    ensures same { OnOk result (GivesNoMore (S.gives sources.old) (S.gives sources.new)) }
{
    let lengths = InputLengths {
        length: intake.file.size() as u64,
        taken: intake.taken,
    };
    if lengths.is_long_enough() {
        return with_input::<I, D, S>(disk, intake, sources);
    }
    close_both::<D, S>(disk, Some(intake.file), sources);
    Err(JobFault::InputTooShort(lengths))
}

/// A disk with the input of a path, of which its program has taken that many bytes.
fn with_taken<'a, I: Read, D: Disk, S: Sources<'a, I, D>>(
    disk: D,
    path: &'a str,
    taken: u64,
    sources: &mut S,
) -> Result<Supplied<D>, JobFault>
    ensures ends { SuppliesTaken D.Disk (S.gives sources.old) path.now disk
        (S.openings sources.old) (S.openings sources.new) result (Ok taken) }
    ensures same { OnOk result (GivesNoMore (S.gives sources.old) (S.gives sources.new)) }
{
    match sources.open_input(path) {
        Ok(file) => with_opened::<I, D, S>(disk, Intake { file, taken }, sources),
        Err(fault) => {
            sources.close(disk);
            Err(JobFault::File(JobFile::Input, fault))
        }
    }
}

/// A disk with the input of a path, from where its program has got to in it.
fn with_path<'a, I: Read, D: Disk, S: Sources<'a, I, D>>(
    disk: D,
    path: &'a str,
    from: Option<u64>,
    sources: &mut S,
) -> Result<Supplied<D>, JobFault>
    requires { IfSome from (λ n. n < TAKEN_LIMIT) }
    ensures ends { SuppliesFrom D.Disk (S.gives sources.old) path.now from disk
        (S.openings sources.old) (S.openings sources.new) result }
    ensures same { OnOk result (GivesNoMore (S.gives sources.old) (S.gives sources.new)) }
{
    let mut disk = disk;
    let taken = look_up_taken(&mut disk, from);
    match taken {
        Ok(taken) => with_taken::<I, D, S>(disk, path, taken, sources),
        Err(fault) => {
            sources.close(disk);
            Err(fault)
        }
    }
}

/// A disk with the input of the words, where they name one. Where the input can't be used both are closed, before a byte of the
/// disk is changed.
///
/// # Errors
///
/// The first that applies: `Recover` of the disk; `NotRecorded` where it can't tell how much its program has taken, and the words
/// don't say so; `OffsetDiffers` where they say more than the disk; `File` of the input; `InputTooShort` where that has
/// fewer bytes than the program has taken; `File` of the disk, where it can't be made longer for the record.
pub(crate) fn supply<'a, I: Read, D: Disk, S: Sources<'a, I, D>>(
    disk: D,
    job: &DriveJob<'a>,
    sources: &mut S,
) -> Result<Supplied<D>, JobFault>
    requires { is_in_range (driving_of job.now) ≡ true }
    ensures supplies { Supplies D.Disk (S.gives sources.old) (driving_of job.now).input
        job.now.input_from disk (S.openings sources.old) (S.openings sources.new) result }
    ensures same { OnOk result (GivesNoMore (S.gives sources.old) (S.gives sources.new)) }
{
    match job.input {
        Some(path) => with_path::<I, D, S>(disk, path, job.input_from, sources),
        None => Ok(Supplied { disk, intake: None }),
    }
}
