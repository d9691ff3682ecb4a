//! The disk model, as the layers above see it.
ghost use Rattle.std.specs.Prelude.{◌≡◌, ◌⊎◌, ◌↔◌, ◌≤◌, ◌<◌, ◌+◌, ℕ, Bool, List, Option, Some, length, take, drop, is_ok, OnOk, OnErr};
ghost use Rattle.ckrt_disk.specs.Disk.{IsOverwritten, IsWithin, IsImage, Elapses, CountsFault, IsStopped, StopsAt};

use thiserror::Error;

/// The disk failed a call.
#[derive(Clone, Copy, Debug, PartialEq, Eq, Error)]
#[error("Device")]
pub struct DeviceFault;

/// A fixed number of bytes, which are read and written by offset. A range that was written is pending until a sync
/// answers Ok, and a stop may leave any bytes there.
///
/// A disk is honest up to now where its calls so far have kept the model. The clauses on bytes and on what a stop may
/// leave are those of calls after which it is. Those on size, failures, calls and the named stop hold of every disk.
pub trait Disk {
    /// The number of its bytes.
    ghost size: { Self → ℕ };

    /// The bytes as they read.
    ghost content: { Self → List ℕ };

    /// The offsets that were written, well or not, since the last sync that answered Ok.
    ghost pending: { Self → ℕ → Type 0 };

    /// The present moment, a number that doesn't fall.
    ghost moment: { Self → ℕ };

    /// The images that a stop at a moment since that one may have left, within a call or between two.
    ghost left_since: { Self → ℕ → List ℕ → Type 0 };

    /// The count of failures, which stays at 2^64 - 1.
    ghost failures: { Self → ℕ };

    /// The count of writes and syncs, failed or not.
    ghost calls: { Self → ℕ };

    /// The call at which the disk is to stop, if it names one; 0 is never.
    ghost named_stop: { Self → Option ℕ };

    /// Whether its calls up to now have kept the model, so that the laws on bytes and images hold of it.
    ghost is_honest: { Self → Type 0 };

    /// What a kind of disk says of a read beside the model: the disk before it, the offset, the buffer before and
    /// after it, whether the answer is Ok, and the disk after it.
    ghost read_gives: { Self → ℕ → List ℕ → List ℕ → Bool
        → Self → Type 0 } = { λ _ _ _ _ _ _. Unit {0} };

    /// The same of a write: the disk before it, the offset, the bytes, whether the answer is Ok, the disk after it.
    ghost write_gives: { Self → ℕ → List ℕ → Bool → Self → Type 0 } = { λ _ _ _ _ _. Unit {0} };

    /// The same of a sync.
    ghost sync_gives: { Self → Bool → Self → Type 0 } = { λ _ _ _. Unit {0} };

    /// The number of its bytes.
    fn size(&self) -> usize
        ensures { result ≡ size self.now };

    /// Reads the bytes from the offset `at` on. A read that fails changes nothing on the disk.
    fn read(&mut self, at: usize, buf: &mut [u8]) -> Result<(), DeviceFault>
        requires { at + length buf.old ≤ size self.old }
        ensures bytes { OnOk result (is_honest self.new
            → buf.new ≡ take (length buf.old) (drop at (content self.old))) }
        ensures content { is_honest self.new → content self.new ≡ content self.old }
        ensures pending { is_honest self.new → (i : ℕ) → (pending self.new i ↔ pending self.old i) }
        ensures time { is_honest self.new
            → Elapses (moment self.old) (moment self.new) (left_since self.old)
            (left_since self.new) (λ _. ⊥) }
        ensures honest { is_honest self.new → is_honest self.old }
        ensures size { size self.new ≡ size self.old }
        ensures failures { CountsFault (failures self.old) (failures self.new) result }
        ensures calls { calls self.new ≡ calls self.old }
        ensures named_stop { named_stop self.new ≡ named_stop self.old }
        ensures stop { StopsAt (named_stop self.old) (calls self.old) result }
        ensures gives { read_gives self.old at buf.old buf.new (is_ok result) self.new };

    /// Writes the bytes from the offset `at` on. Well or not, their range is pending until a sync answers Ok. A write
    /// that fails may leave any bytes in the pending ranges.
    fn write(&mut self, at: usize, bytes: &[u8]) -> Result<(), DeviceFault>
        requires { at + length bytes.now ≤ size self.old }
        ensures written { OnOk result (is_honest self.new
            → IsOverwritten (content self.old) at bytes.now (content self.new)) }
        ensures torn { OnErr result (is_honest self.new
            → IsImage (content self.old) (pending self.new) (content self.new)) }
        ensures pending { is_honest self.new → (i : ℕ)
            → (pending self.new i ↔ (pending self.old i ⊎ IsWithin at (length bytes.now) i)) }
        ensures time { is_honest self.new
            → Elapses (moment self.old) (moment self.new) (left_since self.old)
            (left_since self.new) (IsImage (content self.old) (pending self.new)) }
        ensures honest { is_honest self.new → is_honest self.old }
        ensures size { size self.new ≡ size self.old }
        ensures failures { CountsFault (failures self.old) (failures self.new) result }
        ensures calls { calls self.new ≡ calls self.old + 1 }
        ensures named_stop { named_stop self.new ≡ named_stop self.old }
        ensures stop { StopsAt (named_stop self.old) (calls self.old + 1) result }
        ensures gives { write_gives self.old at bytes.now (is_ok result) self.new };

    /// Makes what was written durable: after Ok nothing is pending. A sync that fails may leave any bytes in the
    /// pending ranges.
    fn sync(&mut self) -> Result<(), DeviceFault>
        ensures nothing_pending { OnOk result
            (is_honest self.new → (i : ℕ) → ¬ pending self.new i) }
        ensures content { OnOk result (is_honest self.new → content self.new ≡ content self.old) }
        ensures torn { OnErr result (is_honest self.new
            → IsImage (content self.old) (pending self.old) (content self.new)) }
        ensures pending { OnErr result
            (is_honest self.new → (i : ℕ) → (pending self.new i ↔ pending self.old i)) }
        ensures time { is_honest self.new
            → Elapses (moment self.old) (moment self.new) (left_since self.old)
            (left_since self.new) (IsImage (content self.old) (pending self.old)) }
        ensures honest { is_honest self.new → is_honest self.old }
        ensures size { size self.new ≡ size self.old }
        ensures failures { CountsFault (failures self.old) (failures self.new) result }
        ensures calls { calls self.new ≡ calls self.old + 1 }
        ensures named_stop { named_stop self.new ≡ named_stop self.old }
        ensures stop { StopsAt (named_stop self.old) (calls self.old + 1) result }
        ensures gives { sync_gives self.old (is_ok result) self.new };

    /// An honest disk reads as many bytes as it has.
    ghost whole: { (disk : Self) → is_honest disk → length (content disk) ≡ size disk };

    /// The content as it reads is one of the images that a stop may leave.
    ghost readable: { (disk : Self) → is_honest disk
        → IsImage (content disk) (pending disk) (content disk) };

    /// A stop now is a stop since any moment so far.
    ghost counts_now: { (disk : Self) (t : ℕ) (image : List ℕ) → is_honest disk → t ≤ moment disk
        → IsImage (content disk) (pending disk) image → left_since disk t image };

    /// Since the present moment there is no stop but one now.
    ghost only_now: { (disk : Self) (image : List ℕ) → is_honest disk
        → left_since disk (moment disk) image → IsImage (content disk) (pending disk) image };

    /// It has failed exactly where it has reached the call that it names.
    ghost stopped: { (disk : Self) (s : ℕ) → named_stop disk ≡ Some s
        → ((0 < failures disk) ↔ IsStopped s (calls disk)) };
}
