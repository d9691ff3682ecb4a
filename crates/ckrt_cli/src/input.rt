//! The input that a hunt gives its programs.
ghost use Rattle.std.specs.Prelude.{◌≡◌, ◌<◌, ◌+◌, ◌^◌, ◌⊎◌, List, ℕ, Some, IfErr, IfOk, OnOk, option_map, take};
ghost use Rattle.ckrt_cli.specs.Inputs.{EndsOnAskedInput, EndsOnInput, IsAskedInput, IsUnreadable, with_asked_input};
ghost use Rattle.ckrt_cli_reports.specs.declared.fault.JobFault.TheVariants.{File, OutOfMemory};
ghost use Rattle.ckrt_cli_files.specs.Openings.{opened, refused, with_image};
ghost use Rattle.ckrt_cli_files.specs.Sources.{GivesSame};
ghost use Rattle.ckrt_cli_files.specs.declared.file.FileFault.{FileFault};
ghost use Rattle.ckrt_cli_files.specs.declared.file.JobFile.TheVariants as file;

use ckrt_cli_files::{FileFault, JobFile, Sources};
use ckrt_cli_reports::JobFault;
use ckrt_disk::Disk;
use std::alloc::Global;
use std::io::{ErrorKind, Read};

/// How many bytes a hunt gives a program to read at most.
const LONGEST_INPUT: usize = 1_048_576;

/// A reader of the input, which is read whole as an image is.
fn open_input<'a, I: Read, D: Disk, S: Sources<'a, I, D>>(
    sources: &mut S,
    path: &'a str,
) -> Result<I, JobFault>
    ensures bytes { IfOk result
        (λ reader. I.remaining reader ≡ S.image_bytes sources.old path.now) }
    ensures opened { OnOk result
        (S.openings sources.new ≡ with_image (S.openings sources.old) (opened path.now)) }
    ensures refused { IfErr result (λ e.
        (why : FileFault) × (e ≡ File file.Input why)
        × (S.openings sources.new
        ≡ with_image (S.openings sources.old) (refused path.now why))) }
    ensures same { GivesSame (S.image_bytes sources.old) (S.image_bytes sources.new)
        (S.fills sources.old) (S.fills sources.new) (S.gives sources.old)
        (S.gives sources.new) }
{
    match sources.open_image(path) {
        Ok(reader) => Ok(reader),
        Err(fault) => Err(JobFault::File(JobFile::Input, fault)),
    }
}

/// The bytes of an input up to one byte past `limit`, so that a longer one is known without being read whole.
fn read_front<I: Read + Drop>(alloc: Global, reader: I, limit: usize) -> Result<Vec<u8>, JobFault>
    requires { limit < 2 ^ 32 }
    ensures bytes { IfOk result (λ read.
        (bytes : List ℕ) → I.remaining reader ≡ Some bytes
        → read.items ≡ take (limit + 1) bytes) }
    ensures fault { IfErr result (λ e. IsUnreadable e ⊎ (e ≡ OutOfMemory)) }
{
    let mut bytes = Vec::new(alloc);
    let mut front = reader.take(limit as u64 + 1);
    match front.read_to_end(&mut bytes) {
        Ok(_) => Ok(bytes),
        Err(error) if error.kind() == ErrorKind::OutOfMemory => Err(JobFault::OutOfMemory),
        Err(error) => Err(JobFault::File(JobFile::Input, FileFault::from(error))),
    }
}

/// The bytes of the input of a path, which are all read.
fn whole_input<'a, I: Read + Drop, D: Disk, S: Sources<'a, I, D>>(
    alloc: Global,
    sources: &mut S,
    path: &'a str,
) -> Result<Vec<u8>, JobFault>
    ensures bytes { IfOk result (λ input.
        (bytes : List ℕ) → S.image_bytes sources.old path.now ≡ Some bytes
        → input.items ≡ bytes) }
    ensures opened { OnOk result
        (S.openings sources.new ≡ with_image (S.openings sources.old) (opened path.now)) }
    ensures unfit { IfErr result (EndsOnInput (S.image_bytes sources.old path.now) path.now
        (S.openings sources.old) (S.openings sources.new)) }
    ensures same { GivesSame (S.image_bytes sources.old) (S.image_bytes sources.new)
        (S.fills sources.old) (S.fills sources.new) (S.gives sources.old)
        (S.gives sources.new) }
{
    let reader = open_input(sources, path)?;
    let input = read_front(alloc, reader, LONGEST_INPUT)?;
    if input.len() > LONGEST_INPUT {
        return Err(JobFault::InputTooLong);
    }
    Ok(input)
}

/// The bytes of the input that the words name, which are all read; none where they name none.
pub(crate) fn asked_input<'a, I: Read + Drop, D: Disk, S: Sources<'a, I, D>>(
    alloc: Global,
    sources: &mut S,
    path: Option<&'a str>,
) -> Result<Option<Vec<u8>>, JobFault>
    ensures bytes { IfOk result (λ input.
        IsAskedInput (S.image_bytes sources.old) (option_map (λ p. p.now) path.entry)
        (option_map (λ bytes. bytes.items) input)) }
    ensures opened { OnOk result (S.openings sources.new
        ≡ with_asked_input (option_map (λ p. p.now) path.entry) (S.openings sources.old)) }
    ensures unfit { IfErr result (EndsOnAskedInput (S.image_bytes sources.old)
        (option_map (λ p. p.now) path.entry) (S.openings sources.old) (S.openings sources.new)) }
    ensures same { GivesSame (S.image_bytes sources.old) (S.image_bytes sources.new)
        (S.fills sources.old) (S.fills sources.new) (S.gives sources.old)
        (S.gives sources.new) }
{
    let Some(path) = path else {
        return Ok(None);
    };
    match whole_input(alloc, sources, path) {
        Ok(input) => Ok(Some(input)),
        Err(fault) => Err(fault),
    }
}
