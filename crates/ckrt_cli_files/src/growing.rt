//! A file of the system while it is filled.
ghost use Rattle.std.specs.IoError.{error_kind};
ghost use Rattle.std.specs.Prelude.{◌≡◌, [], None, length, IfErr};
ghost use Rattle.ckrt_disk.specs.Disk.{CountsFault};
ghost use Rattle.ckrt_disk.specs.Stop.{named_none};
ghost use Rattle.ckrt_cli_files.specs.FileFaults.{file_fault_of};

use crate::file::FileFault;
use ckrt_disk::{DeviceFault, Disk, History};
use std::fs::File;
use std::io;
use std::os::unix::fs::FileExt;

/// A file of the system as a disk of as many bytes as it is to have: it grows where it is written after its end. It keeps why
/// its last call failed, which a disk doesn't tell. It isn't honest: what a file of the system holds no contract can say.
#[derive(Drop)]
pub(crate) struct GrowingFile<'a> {
    file: &'a File,
    size: usize,
    past: History<usize>,
    failures: u64,
    fault: FileFault,
}

impl<'a> GrowingFile<'a> {
    /// A file that is to have that many bytes.
    pub(crate) fn new(file: &'a File, size: usize) -> GrowingFile<'a>
        ensures size { result.size ≡ size }
        ensures failures { result.failures ≡ 0 }
    {
        GrowingFile {
            file,
            size,
            past: History::new(),
            failures: 0,
            fault: FileFault::Other,
        }
    }

    /// Why its last call failed.
    pub(crate) fn fault(&self) -> FileFault
        ensures { result ≡ self.now.fault }
    {
        self.fault
    }

    /// What the disk answers where the file answered so.
    fn told(&mut self, answer: io::Result<()>) -> Result<(), DeviceFault>
        ensures counts { CountsFault self.old.failures self.new.failures result }
        ensures why { IfErr answer (λ error. self.new.fault ≡ file_fault_of (error_kind error)) }
        ensures size { self.new.size ≡ self.old.size }
        ensures past { self.new.past ≡ self.old.past }
    {
        match answer {
            Ok(()) => Ok(()),
            Err(error) => {
                self.failures = self.failures.saturating_add(1);
                self.fault = FileFault::from(error);
                Err(DeviceFault)
            }
        }
    }
}

impl<'a> Disk for GrowingFile<'a> {
    ghost size = { λ growing. growing.size };

    ghost content = { λ _. [] };

    ghost pending = { λ _ _. ⊥ };

    ghost moment = { λ _. 0 };

    ghost left_since = { λ _ _ _. ⊥ };

    ghost failures = { λ growing. growing.failures };

    ghost calls = { λ growing. length growing.past.states };

    ghost named_stop = { λ _. None };

    ghost is_honest = { λ _. ⊥ };

    fn size(&self) -> usize {
        self.size
    }

    fn read(&mut self, at: usize, buf: &mut [u8]) -> Result<(), DeviceFault> {
        let answer = self.file.read_exact_at(buf, at as u64);
        self.told(answer)
    }

    fn write(&mut self, at: usize, bytes: &[u8]) -> Result<(), DeviceFault> {
        self.past = self.past.with(&self.size);
        let answer = self.file.write_all_at(bytes, at as u64);
        self.told(answer)
    }

    fn sync(&mut self) -> Result<(), DeviceFault> {
        self.past = self.past.with(&self.size);
        let answer = self.file.sync_data();
        self.told(answer)
    }

    ghost whole = { λ growing no. absurd no };

    ghost readable = { λ growing no. absurd no };

    ghost counts_now = { λ growing t image no le now. absurd no };

    ghost only_now = { λ growing image no left. absurd no };

    ghost stopped = { λ growing s is. absurd (named_none s is) };
}
