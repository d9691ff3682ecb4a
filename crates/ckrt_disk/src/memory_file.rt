//! A file in memory, whose calls transfer less than they are asked and are interrupted.
ghost use Rattle.std.specs.Prelude.{◌≡◌, ◌+◌, ◌-◌, ◌^◌, ◌≤◌, ◌<◌, ℕ, true, [], length, drop, refl};
ghost use Rattle.ckrt_disk.specs.FileCalls.{pending_of, errors_of, interruptions_of};
ghost use Rattle.ckrt_disk.specs.FileErrors.{is_patient};
ghost use Rattle.ckrt_disk.specs.Transfer.{interruptions_after};

use crate::calls::Calls;
use crate::disk::DeviceFault;
use crate::file_call::FileCall;
use crate::marked_bytes::overwrite;
use crate::positioned::PositionedFile;
use crate::transfer::Transfer;

/// A file in memory. Its calls transfer at most as many bytes as its limits say, one limit for each call, and all that
/// is asked when the limits are used up; a limit of 0 is a signal that interrupts the call. It ends where its bytes end:
/// a call that reaches beyond them transfers those before, and fails where there are none. It has always kept the disk
/// model, and it is reliable, so it shows that a file can.
#[derive(Drop)]
pub struct MemoryFile {
    bytes: Vec<u8>,
    limits: Vec<usize>,
    used: usize,
    calls: Calls<FileCall>,
    ghost within: { used ≤ length limits.items },
    ghost interrupted: { interruptions_of calls.made ≤ used },
    ghost few: { length limits.items + length bytes.items < 2 ^ 64 - 1 },
}

impl MemoryFile {
    ghost use Rattle.ckrt_disk.specs.MemoryFile.{answer_to, limits_of};

    /// A file with these bytes, none of them pending.
    pub fn new(bytes: Vec<u8>, limits: Vec<usize>) -> MemoryFile
        ensures content { ⟦<MemoryFile as PositionedFile>⟧.content result ≡ bytes.items }
        ensures nothing_pending { (i : ℕ) → ¬ ⟦<MemoryFile as PositionedFile>⟧.pending result i }
        ensures len { ⟦<MemoryFile as PositionedFile>⟧.len result ≡ length bytes.items }
        ensures limits { limits_of result ≡ limits.items }
        ensures keeps_model { ⟦<MemoryFile as PositionedFile>⟧.keeps_model result }
        ensures errors { ⟦<MemoryFile as PositionedFile>⟧.errors result ≡ 0 }
        ensures reliable { ⟦<MemoryFile as PositionedFile>⟧.is_reliable result }
    {
        MemoryFile {
            bytes,
            limits,
            used: 0,
            calls: Calls::new(),
        }
    }

    /// The answer to a call of `len` bytes from `at` on, which uses up a limit.
    fn answer(&mut self, at: usize, len: usize) -> Transfer
        ensures answer { result
            ≡ answer_to (limits_of self.old) at len (length self.old.bytes.items) }
        ensures limits { limits_of self.new ≡ drop 1 (limits_of self.old) }
        ensures bytes { self.new.bytes ≡ self.old.bytes }
        ensures calls { self.new.calls ≡ self.old.calls }
        ensures used { interruptions_after result self.old.used ≤ self.new.used }
    {
        let limit = if self.used < self.limits.len() {
            self.limits[self.used]
        } else {
            len
        };
        self.used = self.limits.len().min(self.used + 1);
        let room = self.bytes.len().saturating_sub(at).min(len);
        if room == 0 {
            Transfer::Failed
        } else if limit == 0 {
            Transfer::Interrupted
        } else {
            Transfer::Done(limit.min(room))
        }
    }
}

impl PositionedFile for MemoryFile {
    ghost use Rattle.ckrt_disk.specs.MemoryFile.{AnswersTo};

    ghost len = { λ f. length f.bytes.items };

    ghost content = { λ f. f.bytes.items };

    ghost pending = { λ f. pending_of (λ _. ⊥) f.calls.made };

    ghost keeps_model = { λ _. Unit {0} };

    ghost errors = { λ f. errors_of f.calls.made };

    ghost interruptions = { λ f. interruptions_of f.calls.made };

    ghost is_reliable = { λ _. Unit {0} };

    ghost read_gives = { λ old at buf answer new. AnswersTo old at (length buf) answer new };

    ghost write_gives = { λ old at bytes answer new. AnswersTo old at (length bytes) answer new };

    ghost sync_gives = { λ old ok new. ok ≡ true };

    fn read_some(&mut self, at: usize, buf: &mut [u8]) -> Transfer {
        let answer = self.answer(at, buf.len());
        if let Transfer::Done(n) = answer {
            buf[..n].copy_from_slice(&self.bytes[at..at + n]);
        }
        self.calls = self.calls.with(&FileCall::Read { at, answer }, buf);
        answer
    }

    fn write_some(&mut self, at: usize, bytes: &[u8]) -> Transfer {
        let answer = self.answer(at, bytes.len());
        self.calls = self.calls.with(&FileCall::Write { at, answer }, bytes);
        if let Transfer::Done(n) = answer {
            overwrite(&mut self.bytes, at, &bytes[..n]);
        }
        answer
    }

    fn sync(&mut self) -> Result<(), DeviceFault> {
        self.calls = self.calls.with(&FileCall::Sync { is_done: true }, &[]);
        Ok(())
    }

    ghost whole = { λ f keeps. refl };

    ghost patient = { λ f _. is_patient _ _ _ _ f.interrupted f.within f.few };
}
