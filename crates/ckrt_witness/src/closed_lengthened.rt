//! A closed witness of a disk that is made longer. What stops a test meets any clause, so it shows its witness by coming to its end.
ghost use Rattle.std.specs.Prelude.{◌≡◌, ◌<◌, ◌++◌, length, replicate};
ghost use Rattle.ckrt_witness.specs.Lengthened.{LongerWitness};

use crate::closed::{copied, formatted, memory_disk};
use crate::closed_machine::WAITERS;
use crate::lengthened::lengthen;
use ckrt_disk::{Disk, MemoryDisk};
use std::process::Abort;

/// Bytes with that many zeros after them.
fn with_zeros<R: Abort + AllocGlobal>(rt: &R, bytes: &[u8], count: usize) -> Vec<u8>
    ensures zeros { result.items ≡ bytes.now ++ replicate count 0 }
    ensures longer { length bytes.now < length result.items }
{
    let zeros = vec![in rt.alloc(); 0u8; count].expect(rt, "memory for zeros");
    let mut all = copied(rt, bytes);
    all.extend_from_slice(&zeros).expect(rt, "memory for zeros");
    if all.len() <= bytes.len() {
        panic!(rt; "the bytes aren't longer");
    }
    all
}

/// A formatted disk, a longer one, and an output: they meet all premises of the laws.
fn longer<R: Abort + AllocGlobal>(rt: &R, file: &[u8], old: &[u8])
    ensures { LongerWitness ⟦<MemoryDisk as Disk>⟧ ⟦<MemoryDisk as Disk>⟧ file.now }
{
    let image = formatted(rt, WAITERS);
    let longer = with_zeros(rt, &image, 1_024);
    let _before = memory_disk(rt, image);
    let _behind = memory_disk(rt, longer);
    let _output = memory_disk(rt, copied(rt, old));
    lengthen::<MemoryDisk, MemoryDisk>();
}

#[test]
fn the_premises_of_a_longer_disk_are_met(rt: HostRuntime) {
    longer(&rt, b"Ab", b"..");
}
