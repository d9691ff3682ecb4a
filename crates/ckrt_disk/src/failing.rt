//! A disk over another one that fails a call of a given number.
ghost use Rattle.std.specs.Prelude.{◌≡◌, ◌⊎◌, ◌↔◌, ◌<◌, ◌^◌, ℕ, false, None, length, refl};
ghost use Rattle.std.proofs.Common.{inl};
ghost use Rattle.ckrt_disk.specs.History.{Since, only_now};
ghost use Rattle.ckrt_disk.specs.Stop.{named_none};

use crate::disk::{DeviceFault, Disk};
use crate::history::History;

/// The range of a write: `len` bytes from `at` on.
#[derive(Clone, Copy)]
pub struct Span {
    pub at: usize,
    pub len: usize,
}

/// The inner disk, and the ranges of the writes that it wasn't asked to do, since the last sync that answered Ok.
#[derive(Drop)]
pub struct Inner<D> {
    pub disk: D,
    pub skipped: History<Span>,
}

/// A disk that counts its reads, writes and syncs from 1, fails one of them without doing it, and passes the others on
/// to an inner disk. It is honest as the inner one and names no stop.
#[derive(Drop)]
pub struct FailingDisk<D> {
    inner: Inner<D>,
    history: History<Inner<D>>,
    at_call: u64,
    count: u64,
    failures: u64,
}

impl<D: Disk> FailingDisk<D> {
    ghost use Rattle.ckrt_disk.specs.Failing.{inner_of, at_call_of, count_of};

    /// A disk over `inner` that fails the call `at_call`; 0 is never. The count stays at 2^64 - 1, which is then the
    /// number of every later call too.
    pub fn new(inner: D, at_call: u64) -> FailingDisk<D>
        ensures inner { inner_of result ≡ inner }
        ensures at_call { at_call_of result ≡ at_call }
        ensures count { count_of result ≡ 0 }
        ensures pending { (i : ℕ)
            → (⟦<FailingDisk<D> as Disk>⟧.pending result i ↔ D.pending inner i) }
        ensures calls { ⟦<FailingDisk<D> as Disk>⟧.calls result ≡ 0 }
        ensures failures { ⟦<FailingDisk<D> as Disk>⟧.failures result ≡ 0 }
        ensures named_stop { ⟦<FailingDisk<D> as Disk>⟧.named_stop result ≡ None }
        ensures honest { ⟦<FailingDisk<D> as Disk>⟧.is_honest result ↔ D.is_honest inner }
    {
        FailingDisk {
            inner: Inner {
                disk: inner,
                skipped: History::new(),
            },
            history: History::new(),
            at_call,
            count: 0,
            failures: 0,
        }
    }

    /// The inner disk.
    pub fn into_inner(self) -> D
        ensures { result ≡ inner_of self }
    {
        let FailingDisk {
            inner,
            history: _,
            at_call: _,
            count: _,
            failures: _,
        } = self;
        let Inner { disk, skipped: _ } = inner;
        disk
    }
}

impl<D: Disk> Disk for FailingDisk<D> {
    ghost use Rattle.ckrt_disk.specs.Failing.{IsInSpans, FailsOnce};

    ghost size = { λ d. D.size d.inner.disk };

    ghost content = { λ d. D.content d.inner.disk };

    ghost pending = { λ d i. D.pending d.inner.disk i ⊎ IsInSpans d.inner.skipped.states i };

    ghost moment = { λ d. length d.history.states };

    ghost left_since = { λ d.
        Since (λ s. D.content s.disk) (λ s i. D.pending s.disk i ⊎ IsInSpans s.skipped.states i)
        d.inner d.history.states };

    ghost failures = { λ d. d.failures };

    ghost calls = { λ d. length d.history.states };

    ghost named_stop = { λ _. None };

    ghost is_honest = { λ d. D.is_honest d.inner.disk };

    ghost read_gives = { λ old at buf buf' ok new.
        FailsOnce D.failures D.calls 0 old new ok
        (D.read_gives old.inner.disk at buf buf' ok new.inner.disk) };

    ghost write_gives = { λ old at bytes ok new.
        FailsOnce D.failures D.calls 1 old new ok
        (D.write_gives old.inner.disk at bytes ok new.inner.disk) };

    ghost sync_gives = { λ old ok new.
        FailsOnce D.failures D.calls 1 old new ok (D.sync_gives old.inner.disk ok new.inner.disk) };

    fn size(&self) -> usize {
        self.inner.disk.size()
    }

    fn read(&mut self, at: usize, buf: &mut [u8]) -> Result<(), DeviceFault> {
        self.count = self.count.saturating_add(1);
        if self.count == self.at_call || self.inner.disk.read(at, buf).is_err() {
            self.failures = self.failures.saturating_add(1);
            return Err(DeviceFault);
        }
        Ok(())
    }

    fn write(&mut self, at: usize, bytes: &[u8]) -> Result<(), DeviceFault> {
        self.count = self.count.saturating_add(1);
        self.history = self.history.with(&self.inner);
        if self.count == self.at_call {
            let span = Span {
                at,
                len: bytes.len(),
            };
            self.inner.skipped = self.inner.skipped.with(&span);
            self.failures = self.failures.saturating_add(1);
            return Err(DeviceFault);
        }
        match self.inner.disk.write(at, bytes) {
            Ok(()) => Ok(()),
            Err(fault) => {
                self.failures = self.failures.saturating_add(1);
                Err(fault)
            }
        }
    }

    fn sync(&mut self) -> Result<(), DeviceFault> {
        self.count = self.count.saturating_add(1);
        self.history = self.history.with(&self.inner);
        if self.count == self.at_call || self.inner.disk.sync().is_err() {
            self.failures = self.failures.saturating_add(1);
            return Err(DeviceFault);
        }
        self.inner.skipped = History::new();
        Ok(())
    }

    ghost whole = { λ d h. D.whole d.inner.disk h };

    ghost readable = { λ d h. record { size = refl; same = λ i out. refl } };

    ghost counts_now = { λ d t image h le now. inl now };

    ghost only_now = { λ d image h left. only_now _ _ d.inner d.history.states image left };

    ghost stopped = { λ d s is. absurd (named_none s is) };
}
