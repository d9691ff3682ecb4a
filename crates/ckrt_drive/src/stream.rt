//! Outputs that hand their bytes on.
ghost use Rattle.std.specs.Prelude.{◌≡◌, ◌+◌, ◌-◌, ◌^◌, min, [], None, length, drop, false, IsErr};
ghost use Rattle.ckrt_disk.specs.Stop.{named_none};

use ckrt_disk::{DeviceFault, Disk, History, write_text};
use std::io::Write;

/// How many bytes a stream takes: more than any file has.
const STREAM_SIZE: usize = i64::MAX as usize;

/// An output that hands its bytes on to a writer, each once and in their order, and keeps none: those below the offset that
/// it has got to are left out. Once its writer has failed it hands nothing more on. It isn't honest: nobody can read it, and
/// what a stop leaves of its bytes is for whoever gets them.
#[derive(Drop)]
pub struct StreamOutput<'a, W> {
    writer: &'a mut W,
    next: usize,
    past: History<usize>,
    failures: u64,
}

/// The ones of these bytes, from the offset `at` on, that lie at or after `next`.
fn behind(bytes: &[u8], at: usize, next: usize) -> &[u8]
    ensures { result.now ≡ drop (next - at) bytes.now }
{
    let (_, rest) = bytes.split_at(next.saturating_sub(at).min(bytes.len()));
    rest
}

impl<'a, W: Write> StreamOutput<'a, W> {
    ghost use Rattle.ckrt_drive.specs.Streams.{HandsNothingOn, got_to, writer_of};

    /// A stream onto a writer that it is lent, which leaves out the bytes below an offset.
    pub fn new(writer: &'a mut W, from: u64) -> StreamOutput<'a, W>
        ensures writer { writer_of result ≡ writer.old }
        ensures lent { result.writer.ghost_name ≡ writer.entry.ghost_name }
        ensures from { got_to result ≡ from }
        ensures failures { ⟦<StreamOutput<'a, W> as Disk>⟧.failures result ≡ 0 }
        ensures size { ⟦<StreamOutput<'a, W> as Disk>⟧.size result ≡ 2 ^ 63 - 1 }
    {
        StreamOutput {
            writer,
            next: from as usize,
            past: History::new(),
            failures: 0,
        }
    }

    /// The writer that it was lent, as it is.
    pub fn into_writer(self) -> &'a mut W
        ensures lent { result.ghost_name ≡ self.entry.writer.ghost_name }
        ensures writer { result.now ≡ writer_of self.entry }
    {
        self.writer
    }

    /// Counts a failure.
    fn fail(&mut self) -> Result<(), DeviceFault>
        ensures failed { IsErr result }
        ensures failures { self.new.failures ≡ min (self.old.failures + 1) (2 ^ 64 - 1) }
        ensures past { self.new.past ≡ self.old.past }
        ensures kept { HandsNothingOn self.old false self.new }
    {
        self.failures = self.failures.saturating_add(1);
        Err(DeviceFault)
    }
}

impl<'a, W: Write> Disk for StreamOutput<'a, W> {
    ghost use Rattle.ckrt_drive.specs.Streams.{HandsOn, HandsNothingOn, SyncsNothing};

    ghost size = { λ _. 2 ^ 63 - 1 };

    ghost content = { λ _. [] };

    ghost pending = { λ _ _. ⊥ };

    ghost moment = { λ _. 0 };

    ghost left_since = { λ _ _ _. ⊥ };

    ghost failures = { λ stream. stream.failures };

    ghost calls = { λ stream. length stream.past.states };

    ghost named_stop = { λ _. None };

    ghost is_honest = { λ _. ⊥ };

    ghost read_gives = { λ old at buf buf' ok new. (ok ≡ false) × HandsNothingOn old ok new };

    ghost write_gives = { HandsOn W.contents };

    ghost sync_gives = { SyncsNothing };

    fn size(&self) -> usize {
        STREAM_SIZE
    }

    fn read(&mut self, _at: usize, _buf: &mut [u8]) -> Result<(), DeviceFault> {
        self.fail()
    }

    fn write(&mut self, at: usize, bytes: &[u8]) -> Result<(), DeviceFault> {
        self.past = self.past.with(&self.next);
        if self.failures > 0 {
            return self.fail();
        }
        if write_text(self.writer, behind(bytes, at, self.next)).is_err() {
            return self.fail();
        }
        self.next = self.next.max(at + bytes.len());
        Ok(())
    }

    /// A write has flushed its writer, so there is nothing that could fail.
    fn sync(&mut self) -> Result<(), DeviceFault> {
        self.past = self.past.with(&self.next);
        if self.failures > 0 {
            return self.fail();
        }
        Ok(())
    }

    ghost whole = { λ stream no. absurd no };

    ghost readable = { λ stream no. absurd no };

    ghost counts_now = { λ stream t image no le now. absurd no };

    ghost only_now = { λ stream image no left. absurd no };

    ghost stopped = { λ stream s is. absurd (named_none s is) };
}
