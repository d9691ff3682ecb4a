//! A disk in memory, which never fails.
ghost use Rattle.std.specs.Prelude.{◌≡◌, ℕ, true, None, length, refl, IfOk};
ghost use Rattle.std.proofs.Common.{inl};
ghost use Rattle.ckrt_disk.specs.History.{Since, only_now};
ghost use Rattle.ckrt_disk.specs.Marked.{IsMarked};
ghost use Rattle.ckrt_disk.specs.Stop.{named_none};

use crate::disk::{DeviceFault, Disk};
use crate::history::History;
use crate::marked_bytes::{MarkedBytes, clear, mark, overwrite, unmarked};
use std::alloc::{AllocError, Global};

/// A disk in memory. It is honest, names no stop and never fails.
#[derive(Drop)]
pub struct MemoryDisk {
    marked: MarkedBytes,
    history: History<MarkedBytes>,
}

impl MemoryDisk {
    /// A disk with these bytes, of which none is pending. The only memory that it takes is for the table of pending
    /// bytes, here.
    pub fn new(alloc: Global, bytes: Vec<u8>) -> Result<MemoryDisk, AllocError>
        ensures content { IfOk result (λ disk. ⟦<MemoryDisk as Disk>⟧.content disk ≡ bytes.items) }
        ensures nothing_pending { IfOk result
            (λ disk. (i : ℕ) → ¬ ⟦<MemoryDisk as Disk>⟧.pending disk i) }
        ensures calls { IfOk result (λ disk. ⟦<MemoryDisk as Disk>⟧.calls disk ≡ 0) }
        ensures named_stop { IfOk result (λ disk. ⟦<MemoryDisk as Disk>⟧.named_stop disk ≡ None) }
        ensures honest { IfOk result ⟦<MemoryDisk as Disk>⟧.is_honest }
        ensures failures { IfOk result (λ disk. ⟦<MemoryDisk as Disk>⟧.failures disk ≡ 0) }
    {
        Ok(MemoryDisk {
            marked: unmarked(alloc, bytes)?,
            history: History::new(),
        })
    }

    /// The bytes as they read.
    pub fn into_image(self) -> Vec<u8>
        ensures { result.items ≡ ⟦<MemoryDisk as Disk>⟧.content self }
    {
        self.marked.bytes
    }
}

impl Disk for MemoryDisk {
    ghost size = { λ d. length d.marked.bytes.items };

    ghost content = { λ d. d.marked.bytes.items };

    ghost pending = { λ d. IsMarked d.marked.pending.items };

    ghost moment = { λ d. length d.history.states };

    ghost left_since = { λ d.
        Since (λ m. m.bytes.items) (λ m. IsMarked m.pending.items) d.marked d.history.states };

    ghost failures = { λ _. 0 };

    ghost calls = { λ d. length d.history.states };

    ghost named_stop = { λ _. None };

    ghost is_honest = { λ _. Unit {0} };

    ghost read_gives = { λ old at buf buf' ok new. ok ≡ true };

    ghost write_gives = { λ old at bytes ok new. ok ≡ true };

    ghost sync_gives = { λ old ok new. ok ≡ true };

    fn size(&self) -> usize {
        self.marked.bytes.len()
    }

    fn read(&mut self, at: usize, buf: &mut [u8]) -> Result<(), DeviceFault> {
        buf.copy_from_slice(&self.marked.bytes[at..at + buf.len()]);
        Ok(())
    }

    fn write(&mut self, at: usize, bytes: &[u8]) -> Result<(), DeviceFault> {
        self.history = self.history.with(&self.marked);
        mark(&mut self.marked.pending, at, bytes.len());
        overwrite(&mut self.marked.bytes, at, bytes);
        Ok(())
    }

    fn sync(&mut self) -> Result<(), DeviceFault> {
        self.history = self.history.with(&self.marked);
        clear(&mut self.marked.pending);
        Ok(())
    }

    ghost whole = { λ d h. refl };

    ghost readable = { λ d h. record { size = refl; same = λ i out. refl } };

    ghost counts_now = { λ d t image h le now. inl now };

    ghost only_now = { λ d image h left. only_now _ _ d.marked d.history.states image left };

    ghost stopped = { λ d s is. absurd (named_none s is) };
}
