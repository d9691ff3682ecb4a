//! Lives of a program, as the promise of many lives speaks of them.
ghost use Rattle.std.specs.Prelude.{◌≡◌, ◌-◌, All, IfSome, IsTrue, true, slice_index};
ghost use Rattle.ckrt_main.specs.Lives.{IsInRangeLife, Releases};
ghost use Rattle.ckrt_stored.specs.Programs.{formatted_program};
ghost use Rattle.ckrt_witness.specs.Lives.{AreStopped, FourLives, FourReports, HaveRecovered, LivesWitness};

use ckrt_main::{Life, LifeReport, lives};
use ckrt_recovery::Config;
use std::alloc::Global;

/// Whether the arguments of each command of each life are in their ranges.
fn are_in_range(list: &[Life]) -> bool
    ensures { IsTrue result → All IsInRangeLife list.now }
{
    list.iter().all(|life| life.in_range())
}

/// Whether lives with these stops are stopped once they have recovered, before that, and never, twice.
fn are_stopped(cut: u64, early: u64, one: u64, other: u64) -> bool
    ensures { result ≡ true → AreStopped cut early one other }
{
    1 < cut && early == 1 && one == 0 && other == 0
}

/// Whether these are four lives: one is stopped once it has recovered, the next before that, and two never.
fn are_four(list: &[Life]) -> bool
    ensures { result ≡ true → FourLives list.now }
{
    let [cut, early, one, other] = list else {
        return false;
    };
    if !are_in_range(list) {
        return false;
    }
    are_stopped(cut.stop_at, early.stop_at, one.stop_at, other.stop_at)
}

/// Whether three of four lives have recovered: what was cut is there in the next of them, which acknowledges more.
fn have_recovered(
    cut: &LifeReport,
    early: &LifeReport,
    one: &LifeReport,
    other: &LifeReport,
) -> bool
    ensures { result ≡ true → HaveRecovered cut.now early.now one.now other.now }
{
    let Some(_first) = cut.recovered else {
        return false;
    };
    let None = early.recovered else {
        return false;
    };
    let Some(before) = one.recovered else {
        return false;
    };
    let Some(_behind) = other.recovered else {
        return false;
    };
    cut.acknowledged < before && before < one.acknowledged
}

/// Whether a life released the byte at an offset.
fn releases(report: &LifeReport, offset: u64) -> bool
    ensures { result ≡ true → Releases report.now offset
        (slice_index report.now.released.items (offset - report.now.released_from)) }
{
    let bytes = report.released.as_slice();
    report.released_from <= offset && offset - report.released_from < bytes.len() as u64
}

/// Whether four lives have reported so, of which two have released the byte at this offset.
fn report_four(reports: &[LifeReport], offset: u64) -> bool
    ensures { result ≡ true → FourReports reports.now }
{
    let [cut, early, one, other] = reports else {
        return false;
    };
    if !have_recovered(cut, early, one, other) {
        return false;
    }
    releases(one, offset) && releases(other, offset)
}

/// Four lives of a program on a disk that is formatted with it, of which two release the byte at this offset: they meet all premises of the
/// promise of many lives. The reports; None where the lives are others, or memory was refused.
pub fn live_four_times(
    alloc: Global,
    image: &[u8],
    config: Config,
    list: &[Life],
    offset: u64,
) -> Option<Vec<LifeReport>>
    ensures { IfSome result (λ _. LivesWitness (formatted_program config image.now)) }
{
    if !are_four(list) {
        return None;
    }
    let Ok(reports) = lives(alloc, image, config, list) else {
        return None;
    };
    if !report_four(reports.as_slice(), offset) {
        return None;
    }
    Some(reports)
}
