//! Makings of disks, as the clauses of `make_disk` speak of them.
ghost use Rattle.std.specs.Prelude.{◌≡◌, Err, IfSome, Ok, true};
ghost use Rattle.ckrt_witness.specs.Making.{Made};

use crate::shelf::Shelf;
use ckrt_cli_disk::make_disk;
use ckrt_cli_reports::JobFault;
use ckrt_disk::{Disk, StoppingDisk};
use ckrt_recovery::Config;
use std::alloc::Global;

/// The paths of an image and of a disk.
const IMAGE: &str = "i";

const DISK: &str = "d";

/// Makes a disk with an image. False where it isn't made.
pub fn make_one(alloc: Global, guest: &[u8], disk: StoppingDisk, config: Config) -> bool
    ensures { result ≡ true → Made ⟦<StoppingDisk as Disk>⟧ config guest.now disk (Ok tt) }
{
    let mut sources = Shelf::with_guest(guest, disk);
    match make_disk::<&[u8], StoppingDisk, Shelf>(alloc, &mut sources, IMAGE, DISK, config) {
        Ok(()) => true,
        Err(_) => false,
    }
}

/// Asks for a disk that can't be made. Why it isn't; None where it was made.
pub fn refuse_one(
    alloc: Global,
    guest: &[u8],
    disk: StoppingDisk,
    config: Config,
) -> Option<JobFault>
    ensures { IfSome result
        (λ fault. Made ⟦<StoppingDisk as Disk>⟧ config guest.now disk (Err fault)) }
{
    let mut sources = Shelf::with_guest(guest, disk);
    match make_disk::<&[u8], StoppingDisk, Shelf>(alloc, &mut sources, IMAGE, DISK, config) {
        Ok(()) => None,
        Err(fault) => Some(fault),
    }
}
