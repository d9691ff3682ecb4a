//! Closed witnesses of the clauses of the inspector. What stops a test meets any clause, so it shows its witness by coming to its end.
ghost use Rattle.std.specs.Prelude.{◌≡◌, Err, Ok};
ghost use Rattle.ckrt_inspect.specs.declared.fault.InspectFault.TheVariants.{Device, NotFormatted, Range};
ghost use Rattle.ckrt_witness.specs.Inspecting.{InspectWitness, Inspected};

use crate::closed::{formatted, stopping_disk};
use crate::closed_machine::WAITERS;
use crate::inspecting::inspect_one;
use ckrt_disk::{Disk, StoppingDisk};
use ckrt_inspect::{InspectFault, Shown};
use std::process::Abort;

/// A listing.
fn listed<R: Abort + AllocGlobal>(rt: &R, disk: StoppingDisk)
    ensures { Inspected ⟦<StoppingDisk as Disk>⟧ (Ok tt) }
{
    match inspect_one(rt.alloc(), disk, Shown::default()) {
        Ok(()) => {}
        Err(_) => panic!(rt; "the disk isn't listed"),
    }
}

/// No state after so many events.
fn out_of_range<R: Abort + AllocGlobal>(rt: &R, disk: StoppingDisk)
    ensures { Inspected ⟦<StoppingDisk as Disk>⟧ (Err Range) }
{
    let shown = Shown {
        at: Some(5),
        with_code: false,
    };
    match inspect_one(rt.alloc(), disk, shown) {
        Err(InspectFault::Range) => {}
        _ => panic!(rt; "it has that state"),
    }
}

/// No disk of the format.
fn not_formatted<R: Abort + AllocGlobal>(rt: &R, disk: StoppingDisk)
    ensures { Inspected ⟦<StoppingDisk as Disk>⟧ (Err NotFormatted) }
{
    match inspect_one(rt.alloc(), disk, Shown::default()) {
        Err(InspectFault::NotFormatted) => {}
        _ => panic!(rt; "it is formatted"),
    }
}

/// A disk that fails a read.
fn failing<R: Abort + AllocGlobal>(rt: &R, disk: StoppingDisk)
    ensures { Inspected ⟦<StoppingDisk as Disk>⟧ (Err Device) }
{
    match inspect_one(rt.alloc(), disk, Shown::default()) {
        Err(InspectFault::Device) => {}
        _ => panic!(rt; "the disk doesn't fail"),
    }
}

/// All of these: they meet all premises of the clauses.
fn inspections<R: Abort + AllocGlobal>(rt: &R)
    ensures { InspectWitness ⟦<StoppingDisk as Disk>⟧ }
{
    listed(rt, stopping_disk(rt, formatted(rt, WAITERS), 0));
    out_of_range(rt, stopping_disk(rt, formatted(rt, WAITERS), 0));
    let blank = vec![in rt.alloc(); 0u8; 348_160].expect(rt, "memory for bytes");
    not_formatted(rt, stopping_disk(rt, blank, 0));
    let mut stopped = stopping_disk(rt, formatted(rt, WAITERS), 1);
    let _ = stopped.sync();
    failing(rt, stopped);
}

#[test]
fn the_premises_of_the_inspector_are_met(rt: HostRuntime) {
    inspections(&rt);
}
