//! Disks that are inspected, as the clauses of the inspector speak of them.
ghost use Rattle.ckrt_witness.specs.Inspecting.{Inspected};

use ckrt_disk::Disk;
use ckrt_inspect::{InspectFault, Shown, inspect_with};
use std::alloc::Global;

/// Inspects a disk, and drops what it writes: of disks that are honest that meets the premises of the clauses on this answer.
pub fn inspect_one<D: Disk + Drop>(alloc: Global, disk: D, shown: Shown) -> Result<(), InspectFault>
    ensures { ((x : D) → D.is_honest x) → Inspected D.Disk result }
{
    let mut disk = disk;
    let mut writer = Vec::new(alloc);
    let answer = inspect_with(alloc, &mut disk, shown, &mut writer);
    answer
}
