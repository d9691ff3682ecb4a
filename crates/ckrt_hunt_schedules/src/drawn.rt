//! What the plan of a seed is made of.
ghost use Rattle.std.specs.Prelude.{◌≡◌, ◌≤◌};
ghost use Rattle.ckrt_hunt_schedules.specs.Plans.{is_early, point_of};

use crate::lots::{CHANGES, CLOCK, POINTS, lot_at};

/// Whether ticks come early for a seed.
pub fn is_early(seed: u64) -> bool
    ensures { result ≡ is_early seed }
{
    lot_at(seed, 0, CLOCK) % 2 == 0
}

/// A change point of a seed, of those among that many steps.
pub fn point_of(seed: u64, steps: u32, point: u8) -> u32
    requires some { 1 ≤ steps }
    requires few { steps ≤ 1000000 }
    requires point { point ≤ 2 }
    ensures { result ≡ point_of seed steps point }
{
    if u32::from(point) < lot_at(seed, 0, CHANGES) % 4 {
        lot_at(seed, 0, POINTS + point) % steps + 1
    } else {
        steps
    }
}
