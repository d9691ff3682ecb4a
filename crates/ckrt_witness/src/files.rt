//! Honest files of the system.
ghost use Rattle.std.specs.Prelude.{◌≡◌, ◌∷◌, [], replicate};
ghost use Rattle.ckrt_witness.specs.Held.{left_bytes};

use ckrt_disk::{Calls, Disk, FileDisk, FileUse, Holds, SystemFile};
use std::fs::File;

/// A disk, an output and an input of three sizes, and the same disk opened again, with other bytes.
pub struct Trio;

impl Holds for Trio {
    ghost use Rattle.ckrt_witness.specs.Held.{held_by};

    ghost held = { λ opened _. held_by opened };

    ghost unsettled = { λ _ _. ⊥ };
}

/// A file of the system as a disk.
type Real = FileDisk<SystemFile<Trio>>;

/// A disk, an output and an input.
#[derive(Drop)]
pub struct Three {
    pub disk: Real,
    pub output: Real,
    pub input: Real,
}

/// Three files that were just opened, one after another: all are honest, and they have three sizes.
pub fn three_sizes(disk: File, output: File, input: File) -> Three
    ensures disk { ⟦<Real as Disk>⟧.is_honest result.disk }
    ensures output { ⟦<Real as Disk>⟧.is_honest result.output }
    ensures input { ⟦<Real as Disk>⟧.is_honest result.input }
    ensures disk_size { ⟦<Real as Disk>⟧.size result.disk ≡ 24 }
    ensures output_size { ⟦<Real as Disk>⟧.size result.output ≡ 40 }
    ensures input_size { ⟦<Real as Disk>⟧.size result.input ≡ 5 }
{
    let first = Calls::new().with(&FileUse::Disk, b"d");
    let second = first.with(&FileUse::Input, b"i");
    let third = second.with(&FileUse::Output, b"o");
    Three {
        disk: FileDisk::new(SystemFile::new(disk, first), 24),
        output: FileDisk::new(SystemFile::new(output, third), 40),
        input: FileDisk::new(SystemFile::new(input, second), 5),
    }
}

/// One path that is opened twice: both disks are honest, and the second has other bytes than the first began with, as a stop leaves
/// them.
pub fn opened_again(first: File, second: File) -> (Real, Real)
    ensures first { ⟦<Real as Disk>⟧.is_honest result.0 }
    ensures second { ⟦<Real as Disk>⟧.is_honest result.1 }
    ensures begins { ⟦<Real as Disk>⟧.content result.0 ≡ replicate 24 0 }
    ensures goes_on { ⟦<Real as Disk>⟧.content result.1 ≡ left_bytes }
    ensures settled { (i : _) → ¬ ⟦<Real as Disk>⟧.pending result.1 i }
{
    let once = Calls::new().with(&FileUse::Disk, b"d");
    let twice = once.with(&FileUse::Disk, b"d");
    (
        FileDisk::new(SystemFile::new(first, once), 24),
        FileDisk::new(SystemFile::new(second, twice), 24),
    )
}
