//! A hunt from its image to its table.
ghost use Rattle.std.specs.Prelude.{◌≡◌, ◌≢◌, ◌*◌, ◌-◌, ◌<◌, ◌↔◌, length, IfErr, IfOk, IsErrOf};
ghost use Rattle.std.specs.Io.KnownBytes.{Appends};
ghost use Rattle.ckrt_memory.specs.declared.MemoryError.TheVariants as memory;
ghost use Rattle.ckrt_hunt_schedules.specs.Seeds.{IsEndedBy};
ghost use Rattle.ckrt_hunt_schedules.specs.Table.{done_text};
ghost use Rattle.ckrt_hunt_schedules.specs.Tallies.{IsHunted};

use crate::hunt::Hunt;
use crate::onlooker::HuntOnlooker;
use crate::outcomes::Outcomes;
use crate::plan::Input;
use crate::seeds::Seeds;
use crate::table::{Asked, write_table};
use crate::tally::Tally;
use ckrt_memory::MemoryError;
use std::alloc::{AllocError, Global};
use std::io::Write;
use thiserror::Error;

/// Why a hunt isn't told.
#[derive(Clone, Copy, Debug, PartialEq, Eq, Error)]
pub enum HuntFault {
    /// The image has more bytes than the pages from page 1 on.
    #[error("ImageTooLong")]
    ImageTooLong,
    /// There was no memory for it.
    #[error("OutOfMemory")]
    OutOfMemory,
    /// The shadow of a run that is looked at closer has no room left.
    #[error("ShadowFull")]
    ShadowFull,
    /// The writer failed.
    #[error("Write")]
    Write,
}

impl From<AllocError> for HuntFault {
    ghost use Rattle.ckrt_hunt_schedules.specs.declared.telling.HuntFault.{HuntFault};

    ghost from_gives = { λ _ e. e ≡ HuntFault.OutOfMemory };

    fn from(_: AllocError) -> HuntFault {
        HuntFault::OutOfMemory
    }
}

/// What a hunt came to.
#[derive(Drop)]
pub struct HuntDone {
    /// The seeds that were run.
    pub seeds: Seeds,
    /// What they came to.
    pub outcomes: Outcomes,
}

/// Runs the seeds.
fn hunt_seeds<O: HuntOnlooker>(
    alloc: Global,
    image: &[u8],
    input: Input<'_>,
    asked: &Asked<'_>,
    onlooker: &mut O,
) -> Result<HuntDone, MemoryError>
    ensures hunted { IfOk result (IsHunted image.now input.entry asked.now) }
    ensures ended { IfOk result
        (λ done. IsEndedBy O.Answers asked.now.seeds asked.now.may_end done.seeds) }
    ensures too_long { IsErrOf result memory.ImageTooLong
        ↔ (4096 * (asked.now.shape.pages - 1) < length image.now) }
{
    let mut hunt = Hunt::new(alloc, image, asked.shape, input)?;
    let mut tally = Tally::new(alloc)?;
    let mut outcomes = Outcomes::new(alloc)?;
    let seeds = hunt.note_seeds(&mut tally, asked.seeds, asked.may_end, onlooker);
    outcomes.take(&mut tally);
    onlooker.end_hunt(seeds, &outcomes);
    Ok(HuntDone { seeds, outcomes })
}

/// The fault that comes of a machine's.
pub fn hunt_fault_of(fault: MemoryError) -> HuntFault
    ensures too_long { (result ≡ HuntFault.ImageTooLong) ↔ (fault ≡ memory.ImageTooLong) }
    ensures never { result ≢ HuntFault.Write }
    ensures unshadowed { result ≢ HuntFault.ShadowFull }
{
    match fault {
        MemoryError::ImageTooLong => HuntFault::ImageTooLong,
        MemoryError::OutOfMemory => HuntFault::OutOfMemory,
    }
}

/// Hunts a program that begins with this image, and is given this to read: runs each seed of the range in turn, and writes the table of what they
/// came to, which it answers too. Where the hunt may end early, an onlooker says behind which seed it does, and the table is that of the
/// seeds up to it. All room is taken before the first run.
///
/// # Errors
///
/// `ImageTooLong` where the image has more bytes than the pages from page 1 on, and `OutOfMemory` where the allocator
/// refuses the room, before anything is written; `Write` where the writer failed. `ShadowFull` never.
pub fn hunt_and_tell<O: HuntOnlooker, W: Write>(
    alloc: Global,
    image: &[u8],
    input: Input<'_>,
    asked: &Asked<'_>,
    onlooker: &mut O,
    out: &mut W,
) -> Result<HuntDone, HuntFault>
    ensures hunted { IfOk result (IsHunted image.now input.entry asked.now) }
    ensures ended { IfOk result
        (λ done. IsEndedBy O.Answers asked.now.seeds asked.now.may_end done.seeds) }
    ensures told { IfOk result (λ done.
        Appends (W.contents out.old) (W.contents out.new) (done_text asked.now done)) }
    ensures too_long { IsErrOf result HuntFault.ImageTooLong
        ↔ (4096 * (asked.now.shape.pages - 1) < length image.now) }
    ensures unwritten { IfErr result (λ e. e ≢ HuntFault.Write → out.new ≡ out.old) }
    ensures unshadowed { IfErr result (λ e. e ≢ HuntFault.ShadowFull) }
{
    let done = match hunt_seeds(alloc, image, input, asked, onlooker) {
        Ok(done) => done,
        Err(fault) => return Err(hunt_fault_of(fault)),
    };
    let told = Asked {
        seeds: done.seeds,
        ..*asked
    };
    match write_table(out, &told, &done.outcomes) {
        Ok(()) => Ok(done),
        Err(_) => Err(HuntFault::Write),
    }
}
