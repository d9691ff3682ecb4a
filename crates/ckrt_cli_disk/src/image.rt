//! Reading an image.
ghost use Rattle.std.specs.Prelude.{◌≡◌, ◌<◌, ◌+◌, ◌^◌, ◌⊎◌, List, ℕ, Some, IfOk, IfErr, take};
ghost use Rattle.ckrt_cli_disk.specs.Making.{IsUnreadable};
ghost use Rattle.ckrt_cli_files.specs.Elf.{is_elf};
ghost use Rattle.ckrt_cli_reports.specs.declared.fault.JobFault.TheVariants.{OutOfMemory};

use ckrt_cli_files::{FileFault, JobFile};
use ckrt_cli_reports::JobFault;
use std::alloc::Global;
use std::io::{ErrorKind, Read};

/// The bytes of an image up to one byte past `limit`, so that a longer one is known without being read whole.
pub(crate) fn read_image<I: Read + Drop>(
    alloc: Global,
    image: I,
    limit: usize,
) -> Result<Vec<u8>, JobFault>
    requires { limit < 2 ^ 32 }
    ensures bytes { IfOk result (λ read.
        (bytes : List ℕ) → I.remaining image ≡ Some bytes
        → read.items ≡ take (limit + 1) bytes) }
    ensures fault { IfErr result (λ e. IsUnreadable e ⊎ (e ≡ OutOfMemory)) }
{
    let mut bytes = Vec::new(alloc);
    let mut front = image.take(limit as u64 + 1);
    match front.read_to_end(&mut bytes) {
        Ok(_) => Ok(bytes),
        Err(error) if error.kind() == ErrorKind::OutOfMemory => Err(JobFault::OutOfMemory),
        Err(error) => Err(JobFault::File(JobFile::Image, FileFault::from(error))),
    }
}

/// Whether a file is an ELF file, by its first four bytes (System V ABI, "ELF Header": `EI_MAG0` to `EI_MAG3`). An image is
/// what a linker's output holds, and not that output.
pub(crate) fn is_elf(bytes: &[u8]) -> bool
    ensures { result ≡ is_elf bytes.now }
{
    bytes.starts_with(&[0x7f, b'E', b'L', b'F'])
}
