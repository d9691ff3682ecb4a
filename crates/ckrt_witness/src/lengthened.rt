//! A disk that is made longer, as the laws of many drives speak of it.
ghost use Rattle.std.specs.Prelude.{ℕ, List};
ghost use Rattle.ckrt_stored.specs.Programs.{Program};
ghost use Rattle.ckrt_witness.specs.Lengthened.{Lengthens, LongerWitness};

use ckrt_disk::Disk;

/// A formatted disk, one with zeros after its bytes, and an output of which nothing is pending, meet all premises of the laws.
pub fn lengthen<D: Disk, O: Disk>()
    ensures { (p : Program) (file : List ℕ) (old longer : D) (output : O)
        → Lengthens D.Disk p old longer → ((i : ℕ) → ¬ O.pending output i)
        → LongerWitness D.Disk O.Disk file }
{}
