//! The schedule that a disk notes, and the bytes of its notes.
ghost use Rattle.std.specs.Prelude.{◌≡◌, ◌≤◌, ◌<◌, ◌+◌, ◌^◌, length};
ghost use Rattle.ckrt_stored.specs.Schedules.{is_first_used, mark_of, pick_of, place_of, schedule_at, schedule_by, schedule_bytes, schedule_in, seed_of};

use crate::blocks::has_notes;
use crate::fields::{number_64, put};
use arrayvec::ArrayVec;

/// How many bytes of a disk have the notes of its schedule, with all that stands before them.
pub(crate) const PAGE_BYTES: usize = 4096;

/// The offset of the byte that says which note is in use.
pub(crate) const PICK_AT: usize = 2048;

/// By what the events of a drive are chosen, as its disk notes it.
#[derive(Clone, Copy, Debug, PartialEq, Eq)]
pub struct ScheduleNote {
    /// How many steps a turn has at most.
    pub turn: u64,
    /// The seed of its lots, if it draws some.
    pub seed: Option<u64>,
}

/// The schedule of three numbers, if they are one's.
fn schedule_by(turn: u64, mark: u64, seed: u64) -> Option<ScheduleNote>
    ensures { result ≡ schedule_by turn mark seed }
{
    if turn == 0 {
        return None;
    }
    if mark == 1 {
        return Some(ScheduleNote {
            turn,
            seed: Some(seed),
        });
    }
    if mark == 0 && seed == 0 {
        return Some(ScheduleNote { turn, seed: None });
    }
    None
}

/// The schedule of the 24 bytes from an offset on.
fn schedule_at(page: &[u8], at: usize) -> Option<ScheduleNote>
    requires { at + 24 ≤ length page.now }
    ensures { result ≡ schedule_at at page.now }
{
    let turn = number_64(page, at);
    let mark = number_64(page, at + 8);
    let seed = number_64(page, at + 16);
    schedule_by(turn, mark, seed)
}

/// Whether the first note is in use.
pub(crate) fn is_first_used(page: &[u8]) -> bool
    requires { length page.now ≡ 4096 }
    ensures { result ≡ is_first_used page.now }
{
    page[PICK_AT] == 1
}

/// Where the first or the second note stands.
pub(crate) fn place_of(is_first: bool) -> usize
    ensures { result ≡ place_of is_first }
{
    if is_first { 2560 } else { 3072 }
}

/// The byte that puts the first or the second note in use.
pub(crate) fn pick_of(is_first: bool) -> u8
    ensures { result ≡ pick_of is_first }
{
    if is_first { 1 } else { 2 }
}

/// The schedule of the note in use, if the superblock has notes, and that is one.
pub(crate) fn schedule_in(page: &[u8]) -> Option<ScheduleNote>
    requires { length page.now ≡ 4096 }
    ensures { result ≡ schedule_in page.now }
{
    if !has_notes(page) {
        return None;
    }
    let at = place_of(is_first_used(page));
    schedule_at(page, at)
}

/// What says whether there is a seed.
fn mark_of(seed: Option<u64>) -> u64
    ensures { result ≡ mark_of seed }
{
    match seed {
        None => 0,
        Some(_) => 1,
    }
}

/// A seed, 0 where there is none.
fn seed_of(seed: Option<u64>) -> u64
    ensures { result ≡ seed_of seed }
{
    match seed {
        None => 0,
        Some(seed) => seed,
    }
}

/// The bytes of a schedule's note.
pub(crate) fn schedule_bytes(schedule: &ScheduleNote) -> ArrayVec<u8, 24>
    ensures bytes { result.items ≡ schedule_bytes schedule.now }
    ensures turn { schedule.now.turn < 2 ^ 64 }
    ensures seed { seed_of schedule.now.seed < 2 ^ 64 }
{
    let mut bytes = ArrayVec::new();
    put(&mut bytes, &schedule.turn.to_le_bytes());
    put(&mut bytes, &mark_of(schedule.seed).to_le_bytes());
    put(&mut bytes, &seed_of(schedule.seed).to_le_bytes());
    bytes
}
