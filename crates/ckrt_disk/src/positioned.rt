//! A file that is read and written by offset, as the system offers it: a call may transfer less than it was asked, and a
//! signal may interrupt it.
ghost use Rattle.std.specs.Prelude.{◌≡◌, ◌⊎◌, ◌↔◌, ◌≤◌, ◌<◌, ◌+◌, ◌-◌, ◌^◌, ℕ, Bool, List, length, take, drop, is_ok, OnOk, OnErr};
ghost use Rattle.ckrt_disk.specs.Disk.{IsImage, IsOverwritten, IsWithin};
ghost use Rattle.ckrt_disk.specs.Transfer.{OnDone, OnStopped, OnFailed, errors_after, interruptions_after};
ghost use Rattle.ckrt_disk.specs.declared.transfer.Transfer.{Transfer};

use crate::disk::DeviceFault;
use crate::transfer::Transfer;

/// A file by offset. Its clauses on bytes are those of a file that has kept the disk model up to now: nobody else has
/// written it, it has read what was written, and what a sync answered Ok for has stayed.
pub trait PositionedFile {
    /// The number of its bytes, which no call changes.
    ghost len: { Self → ℕ };

    /// The bytes as they read.
    ghost content: { Self → List ℕ };

    /// The offsets that were written, well or not, since the last sync that answered Ok.
    ghost pending: { Self → ℕ → Type 0 };

    /// Whether the file has kept the disk model up to now.
    ghost keeps_model: { Self → Type 0 };

    /// The count of its calls that failed. A call that transfers less than it was asked isn't one, nor is one that a
    /// signal interrupts.
    ghost errors: { Self → ℕ };

    /// The count of its calls that a signal interrupted.
    ghost interruptions: { Self → ℕ };

    /// Whether the file is reliable up to now: no sync of it has failed, nor a read or write of one byte or more within
    /// it, and few of its calls were interrupted.
    ghost is_reliable: { Self → Type 0 };

    /// What a kind of file says of a read beside the model: the file before it, the offset, the buffer after it, the
    /// answer, and the file after it.
    ghost read_gives: { Self → ℕ → List ℕ → Transfer → Self → Type 0 } = { λ _ _ _ _ _. Unit {0} };

    /// The same of a write, with the bytes that it was given.
    ghost write_gives: { Self → ℕ → List ℕ → Transfer → Self → Type 0 } = { λ _ _ _ _ _. Unit {0} };

    /// The same of a sync, with whether the answer is Ok.
    ghost sync_gives: { Self → Bool → Self → Type 0 } = { λ _ _ _. Unit {0} };

    /// Reads bytes from the offset `at` on.
    fn read_some(&mut self, at: usize, buf: &mut [u8]) -> Transfer
        ensures count { OnDone result (λ n. (1 ≤ n) × (n ≤ length buf.old)) }
        ensures bytes { OnDone result
            (λ n. keeps_model self.new → take n buf.new ≡ take n (drop at (content self.old))) }
        ensures content { keeps_model self.new → content self.new ≡ content self.old }
        ensures pending { keeps_model self.new → (i : ℕ)
            → (pending self.new i ↔ pending self.old i) }
        ensures len { len self.new ≡ len self.old }
        ensures keeps_model { keeps_model self.new → keeps_model self.old }
        ensures errors { errors self.new ≡ errors_after result (errors self.old) }
        ensures interruptions { interruptions self.new
            ≡ interruptions_after result (interruptions self.old) }
        ensures reliable { OnFailed result (is_reliable self.new
            → (length buf.old ≡ 0) ⊎ (len self.old < at + length buf.old)) }
        ensures is_reliable { is_reliable self.new → is_reliable self.old }
        ensures gives { read_gives self.old at buf.new result self.new };

    /// Writes bytes from the offset `at` on, within the file. Well or not, their range is then pending.
    fn write_some(&mut self, at: usize, bytes: &[u8]) -> Transfer
        ensures count { OnDone result (λ n. (1 ≤ n) × (n ≤ length bytes.now)) }
        ensures written { OnDone result (λ n.
            keeps_model self.new → at + length bytes.now ≤ len self.old
            → IsOverwritten (content self.old) at (take n bytes.now) (content self.new)) }
        ensures torn { OnStopped result
            (keeps_model self.new → content self.new ≡ content self.old) (keeps_model self.new
            → IsImage (content self.old) (pending self.new) (content self.new)) }
        ensures pending { keeps_model self.new → (i : ℕ)
            → (pending self.new i ↔ (pending self.old i ⊎ IsWithin at (length bytes.now) i)) }
        ensures len { len self.new ≡ len self.old }
        ensures keeps_model { keeps_model self.new → keeps_model self.old }
        ensures errors { errors self.new ≡ errors_after result (errors self.old) }
        ensures interruptions { interruptions self.new
            ≡ interruptions_after result (interruptions self.old) }
        ensures reliable { OnFailed result (is_reliable self.new
            → (length bytes.now ≡ 0) ⊎ (len self.old < at + length bytes.now)) }
        ensures is_reliable { is_reliable self.new → is_reliable self.old }
        ensures gives { write_gives self.old at bytes.now result self.new };

    /// Makes what was written durable.
    fn sync(&mut self) -> Result<(), DeviceFault>
        ensures nothing_pending { OnOk result
            (keeps_model self.new → (i : ℕ) → ¬ pending self.new i) }
        ensures content { OnOk result (keeps_model self.new → content self.new ≡ content self.old) }
        ensures torn { OnErr result (keeps_model self.new
            → IsImage (content self.old) (pending self.old) (content self.new)) }
        ensures pending { OnErr result
            (keeps_model self.new → (i : ℕ) → (pending self.new i ↔ pending self.old i)) }
        ensures len { len self.new ≡ len self.old }
        ensures keeps_model { keeps_model self.new → keeps_model self.old }
        ensures no_error { OnOk result (errors self.new ≡ errors self.old) }
        ensures error { OnErr result (errors self.new ≡ errors self.old + 1) }
        ensures interruptions { interruptions self.new ≡ interruptions self.old }
        ensures reliable { OnErr result (¬ is_reliable self.new) }
        ensures is_reliable { is_reliable self.new → is_reliable self.old }
        ensures gives { sync_gives self.old (is_ok result) self.new };

    /// A file that keeps the model reads as many bytes as it has.
    ghost whole: { (file : Self) → keeps_model file → length (content file) ≡ len file };

    /// Too few calls of a reliable file are interrupted for a transfer within it to be given up.
    ghost patient: { (file : Self) → is_reliable file
        → interruptions file + len file < 2 ^ 64 - 1 };
}
