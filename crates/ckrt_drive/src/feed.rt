//! What a drive gives its program as input.
ghost use Rattle.std.specs.Prelude.{◌≡◌, ◌+◌, ◌<◌, ◌≤◌, ◌^◌, ℕ, List, [], ◌∷◌, Option, Some, None, is_some, length, take, drop, IfOk, IfSome};
ghost use Rattle.ckrt_disk.specs.Disk.{CountsFault};
ghost use Rattle.ckrt_events.specs.Bytes.{IsInRange};
ghost use Rattle.ckrt_schedule.specs.Next.{next_input};
ghost use Rattle.ckrt_schedule.specs.Taken.{taken_by};
ghost use Rattle.ckrt_schedule.specs.Next.{given_in};

use ckrt_calls::Tables;
use ckrt_disk::{DeviceFault, Disk};
use ckrt_events::Event;
use ckrt_schedule::{PIECE, next_input};

/// What a drive gives its program as input: the bytes of a file and then its end, or nothing.
pub trait Feed {
    /// The bytes of the file, where there is one.
    ghost file: { Self → Option (List ℕ) };

    /// Whether the file has read as these bytes up to now.
    ghost is_honest: { Self → Type 0 };

    /// The count of reads that failed, which stays at 2^64 - 1.
    ghost failures: { Self → ℕ };

    /// Whether there is a file: then checkpoints record how much the program has taken of it.
    fn is_recorded(&self) -> bool
        ensures { result ≡ is_some (file self.now) };

    /// What the program is given next, where it has taken that many bytes; nothing where there is no file.
    fn next(&mut self, tables: &Tables, taken: u64) -> Result<Option<Event>, DeviceFault>
        ensures given { IfOk result (λ given. is_honest self.new
            → given ≡ given_in (file self.old) taken tables.now) }
        ensures in_range { IfOk result (λ given. IfSome given IsInRange) }
        ensures few { IfOk result (λ given.
            IfSome given (λ e. taken + taken_by (e ∷ []) < 2 ^ 64)) }
        ensures file { is_honest self.new → file self.new ≡ file self.old }
        ensures kind { is_some (file self.new) ≡ is_some (file self.old) }
        ensures honest { is_honest self.new → is_honest self.old }
        ensures failures { CountsFault (failures self.old) (failures self.new) result };
}

/// No input at all: events give a program what it reads, if anybody does.
#[derive(Clone, Copy, Debug, PartialEq, Eq)]
pub struct Nothing;

impl Feed for Nothing {
    ghost file = { λ _. None };

    ghost is_honest = { λ _. Unit {0} };

    ghost failures = { λ _. 0 };

    fn is_recorded(&self) -> bool {
        false
    }

    fn next(&mut self, _tables: &Tables, _taken: u64) -> Result<Option<Event>, DeviceFault> {
        Ok(None)
    }
}

/// The bytes of a disk, which is only read: at most [`PIECE`] bytes at once, where the program takes them.
#[derive(Drop)]
pub struct FromDisk<I: Disk> {
    disk: I,
}

impl<I: Disk> FromDisk<I> {
    /// The bytes of this disk.
    pub fn new(disk: I) -> FromDisk<I>
        ensures { result.disk ≡ disk }
    {
        FromDisk { disk }
    }

    /// The disk, as it is.
    pub fn into_disk(self) -> I
        ensures { result ≡ self.disk }
    {
        self.disk
    }
}

/// What is given of the bytes at a place, as many as the window has. Nothing is read where nothing is given: that depends on their
/// number alone.
fn given_at<I: Disk>(
    disk: &mut I,
    tables: &Tables,
    at: usize,
    window: &mut [u8],
    count: usize,
) -> Result<Option<Event>, DeviceFault>
    requires room { at + count ≤ I.size disk.old }
    requires long { length window.old ≡ count }
    ensures given { IfOk result (λ given. I.is_honest disk.new
        → given ≡ next_input tables.now (take count (drop at (I.content disk.old)))) }
    ensures in_range { IfOk result (λ given. IfSome given IsInRange) }
    ensures few { IfOk result (λ given. IfSome given (λ e. taken_by (e ∷ []) ≤ count)) }
    ensures content { I.is_honest disk.new → I.content disk.new ≡ I.content disk.old }
    ensures honest { I.is_honest disk.new → I.is_honest disk.old }
    ensures failures { CountsFault (I.failures disk.old) (I.failures disk.new) result }
{
    prove!(window.len() == count);
    if next_input(tables, window).is_none() {
        return Ok(None);
    }
    disk.read(at, window)?;
    Ok(next_input(tables, window))
}

impl<I: Disk> Feed for FromDisk<I> {
    ghost file = { λ feed. Some (I.content feed.disk) };

    ghost is_honest = { λ feed. I.is_honest feed.disk };

    ghost failures = { λ feed. I.failures feed.disk };

    fn is_recorded(&self) -> bool {
        true
    }

    fn next(&mut self, tables: &Tables, taken: u64) -> Result<Option<Event>, DeviceFault> {
        let size = self.disk.size();
        let at = (taken as usize).min(size);
        let count = (size - at).min(PIECE);
        let mut window = [0; PIECE];
        let given = given_at(&mut self.disk, tables, at, &mut window[..count], count)?;
        Ok(given)
    }
}
