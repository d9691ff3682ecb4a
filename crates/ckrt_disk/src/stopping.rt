//! A disk in memory that stops at a call of a given number.
ghost use Rattle.std.specs.Prelude.{ℕ, List, ◌∷◌, ◌≡◌, ◌↔◌, ◌<◌, ◌≤◌, ◌+◌, ◌-◌, ◌^◌, min, Some, length, refl, IfOk, IsErr};
ghost use Rattle.std.proofs.Common.{inl};
ghost use Rattle.ckrt_disk.specs.Disk.{CountsFault, IsImage, IsOverwritten, IsStopped, IsWithin};
ghost use Rattle.ckrt_disk.specs.History.{Since, only_now};
ghost use Rattle.ckrt_disk.specs.Marked.{IsFilled, IsMarked};
ghost use Rattle.ckrt_disk.specs.Stop.{stopped_law};

use crate::disk::{DeviceFault, Disk};
use crate::history::History;
use crate::marked_bytes::{MarkedBytes, clear, lay, mark, overwrite, unmarked};
use std::alloc::{AllocError, Global};

/// A disk in memory that stops at the write or sync of a given number. At that call the write's range becomes pending
/// and its bytes go in; then the pending bytes, by rising offset, take the bytes of `fill` over and over (with an empty
/// fill they stay). That call and all later ones fail, reads too. It is honest.
#[derive(Drop)]
pub struct StoppingDisk {
    marked: MarkedBytes,
    count: CallCount,
    fill: Vec<u8>,
}

/// The writes and syncs so far, the one at which the disk stops, and the calls that failed.
#[derive(Drop)]
struct CallCount {
    history: History<MarkedBytes>,
    at_call: u64,
    calls: u64,
    failures: u64,
    ghost small: { at_call < 2 ^ 64 },
    ghost counted: { calls ≡ min (length history.states) (2 ^ 64 - 1) },
    ghost failed: { 0 < failures → (0 < at_call) × (at_call ≤ calls) },
    ghost stopped: { 0 < at_call → at_call ≤ calls → 0 < failures },
}

impl StoppingDisk {
    ghost use Rattle.ckrt_disk.specs.Stopping.{fill_of};

    /// A disk with these bytes, of which none is pending. Writes and syncs are counted from 1, and `at_call` 0 is
    /// never. The only memory that it takes is for the table of pending bytes, here.
    pub fn new(
        alloc: Global,
        image: Vec<u8>,
        at_call: u64,
        fill: Vec<u8>,
    ) -> Result<StoppingDisk, AllocError>
        ensures content { IfOk result
            (λ disk. ⟦<StoppingDisk as Disk>⟧.content disk ≡ image.items) }
        ensures nothing_pending { IfOk result
            (λ disk. (i : ℕ) → ¬ ⟦<StoppingDisk as Disk>⟧.pending disk i) }
        ensures calls { IfOk result (λ disk. ⟦<StoppingDisk as Disk>⟧.calls disk ≡ 0) }
        ensures failures { IfOk result (λ disk. ⟦<StoppingDisk as Disk>⟧.failures disk ≡ 0) }
        ensures named_stop { IfOk result
            (λ disk. ⟦<StoppingDisk as Disk>⟧.named_stop disk ≡ Some at_call) }
        ensures fill { IfOk result (λ disk. fill_of disk ≡ fill.items) }
        ensures honest { IfOk result ⟦<StoppingDisk as Disk>⟧.is_honest }
    {
        Ok(StoppingDisk {
            marked: unmarked(alloc, image)?,
            count: CallCount {
                history: History::new(),
                at_call,
                calls: 0,
                failures: 0,
            },
            fill,
        })
    }

    /// The number of writes and syncs so far, which stays at 2^64 - 1.
    pub fn calls(&self) -> u64
        ensures { result ≡ min (⟦<StoppingDisk as Disk>⟧.calls self.now) (2 ^ 64 - 1) }
    {
        self.count.calls
    }

    /// The bytes as they read: after the stop what it left.
    pub fn into_image(self) -> Vec<u8>
        ensures { result.items ≡ ⟦<StoppingDisk as Disk>⟧.content self }
    {
        self.marked.bytes
    }
}

/// Whether a call comes before the stop, is the one that stops, or comes after it.
#[derive(Clone, Copy, PartialEq, Eq)]
enum Phase {
    Before,
    At,
    After,
}

/// The phase of the next write or sync.
fn next_phase(at_call: u64, calls: u64) -> Phase
    ensures at { (result ≡ Phase.At)
        ↔ (at_call ≡ min (calls + 1) (2 ^ 64 - 1)) × (calls < at_call) }
    ensures after { (result ≡ Phase.After) ↔ IsStopped at_call calls }
{
    if at_call != 0 && calls >= at_call {
        Phase::After
    } else if calls.saturating_add(1) == at_call {
        Phase::At
    } else {
        Phase::Before
    }
}

impl CallCount {
    /// Counts a write or sync of a disk in this state: whether it comes before the stop, stops it, or comes after.
    fn note_call(&mut self, state: &MarkedBytes) -> Phase
        ensures at { (result ≡ Phase.At) ↔ (self.old.at_call ≡ length self.old.history.states + 1) }
        ensures after { (result ≡ Phase.After)
            ↔ IsStopped self.old.at_call (length self.old.history.states) }
        ensures history { self.new.history.states ≡ state.now ∷ self.old.history.states }
        ensures at_call { self.new.at_call ≡ self.old.at_call }
        ensures before { result ≡ Phase.Before → self.new.failures ≡ self.old.failures }
        ensures failed { ¬ (result ≡ Phase.Before)
            → self.new.failures ≡ min (self.old.failures + 1) (2 ^ 64 - 1) }
    {
        let phase = next_phase(self.at_call, self.calls);
        self.history = self.history.with(state);
        self.calls = self.calls.saturating_add(1);
        if phase != Phase::Before {
            self.failures = self.failures.saturating_add(1);
            return phase;
        }
        phase
    }

    /// Counts a read, which fails after the stop.
    fn note_read(&mut self) -> Result<(), DeviceFault>
        ensures failures { CountsFault self.old.failures self.new.failures result }
        ensures stop { IsErr result ↔ IsStopped self.old.at_call (length self.old.history.states) }
        ensures history { self.new.history ≡ self.old.history }
        ensures at_call { self.new.at_call ≡ self.old.at_call }
    {
        if self.at_call != 0 && self.calls >= self.at_call {
            self.failures = self.failures.saturating_add(1);
            return Err(DeviceFault);
        }
        Ok(())
    }
}

/// Puts bytes from a place on, and at the stop lays the fill over what is marked; after it nothing is written.
fn put(bytes: &mut [u8], table: &[bool], at: usize, from: &[u8], phase: Phase, fill: &[u8])
    requires room { at + length from.now ≤ length bytes.old }
    requires table { length table.now ≡ length bytes.old }
    requires marked { (i : ℕ) → IsWithin at (length from.now) i → IsMarked table.now i }
    ensures image { IsImage bytes.old (IsMarked table.now) bytes.new }
    ensures before { phase ≡ Phase.Before → IsOverwritten bytes.old at from.now bytes.new }
    ensures at { phase ≡ Phase.At
        → (written : List ℕ) × IsOverwritten bytes.old at from.now written
        × IsFilled (IsMarked table.now) fill.now written bytes.new }
    ensures after { phase ≡ Phase.After → bytes.new ≡ bytes.old }
{
    if phase == Phase::After {
        return;
    }
    overwrite(bytes, at, from);
    if phase == Phase::At {
        lay(bytes, table, fill);
    }
}

impl Disk for StoppingDisk {
    ghost use Rattle.ckrt_disk.specs.Stopping.{LaysFillAtSync, LaysFillAtWrite, fill_of};

    ghost size = { λ d. length d.marked.bytes.items };

    ghost content = { λ d. d.marked.bytes.items };

    ghost pending = { λ d. IsMarked d.marked.pending.items };

    ghost moment = { λ d. length d.count.history.states };

    ghost left_since = { λ d.
        Since (λ m. m.bytes.items) (λ m. IsMarked m.pending.items) d.marked
        d.count.history.states };

    ghost failures = { λ d. d.count.failures };

    ghost calls = { λ d. length d.count.history.states };

    ghost named_stop = { λ d. Some d.count.at_call };

    ghost is_honest = { λ _. Unit {0} };

    ghost read_gives = { λ old at buf buf' ok new. fill_of new ≡ fill_of old };

    ghost write_gives = { LaysFillAtWrite };

    ghost sync_gives = { LaysFillAtSync };

    fn size(&self) -> usize {
        self.marked.bytes.len()
    }

    fn read(&mut self, at: usize, buf: &mut [u8]) -> Result<(), DeviceFault> {
        self.count.note_read()?;
        buf.copy_from_slice(&self.marked.bytes[at..at + buf.len()]);
        Ok(())
    }

    fn write(&mut self, at: usize, bytes: &[u8]) -> Result<(), DeviceFault> {
        let phase = self.count.note_call(&self.marked);
        mark(&mut self.marked.pending, at, bytes.len());
        put(
            &mut self.marked.bytes,
            &self.marked.pending,
            at,
            bytes,
            phase,
            &self.fill,
        );
        if phase != Phase::Before {
            return Err(DeviceFault);
        }
        Ok(())
    }

    fn sync(&mut self) -> Result<(), DeviceFault> {
        match self.count.note_call(&self.marked) {
            Phase::Before => {
                clear(&mut self.marked.pending);
                Ok(())
            }
            Phase::At => {
                lay(&mut self.marked.bytes, &self.marked.pending, &self.fill);
                Err(DeviceFault)
            }
            Phase::After => Err(DeviceFault),
        }
    }

    ghost whole = { λ d h. refl };

    ghost readable = { λ d h. record { size = refl; same = λ i out. refl } };

    ghost counts_now = { λ d t image h le now. inl now };

    ghost only_now = { λ d image h left. only_now _ _ d.marked d.count.history.states image left };

    ghost stopped = { λ d s is.
        stopped_law d.count.at_call d.count.calls (length d.count.history.states) d.count.failures
        d.count.small d.count.counted d.count.failed d.count.stopped s is };
}
