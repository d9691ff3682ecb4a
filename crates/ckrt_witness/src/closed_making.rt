//! A closed witness of the making of a disk. What stops a test meets any clause, so it shows its witness by coming to its end.
ghost use Rattle.std.specs.Prelude.{◌≡◌, Err, Ok, false, true};
ghost use Rattle.ckrt_stored.specs.Layout.{is_open, is_valid};
ghost use Rattle.ckrt_cli_reports.specs.declared.fault.JobFault.TheVariants.{Format};
ghost use Rattle.ckrt_stored.specs.declared.fault.FormatFault.{FormatFault};
ghost use Rattle.ckrt_witness.specs.Making.{Made, MakingWitness};

use crate::closed::{SMALL, formatted, stopping_disk};
use crate::closed_machine::WAITERS;
use crate::making::{make_one, refuse_one};
use ckrt_cli_reports::JobFault;
use ckrt_disk::{Disk, StoppingDisk};
use ckrt_recovery::{Config, FormatFault};
use std::process::Abort;

/// That many zeros.
fn zeros<R: Abort + AllocGlobal>(rt: &R, size: usize) -> Vec<u8> {
    vec![in rt.alloc(); 0; size].expect(rt, "memory for bytes")
}

/// A disk that is made.
fn made<R: Abort + AllocGlobal>(rt: &R, guest: &[u8], disk: StoppingDisk, config: Config)
    ensures { Made ⟦<StoppingDisk as Disk>⟧ config guest.now disk (Ok tt) }
{
    if !make_one(rt.alloc(), guest, disk, config) {
        panic!(rt; "the disk isn't made");
    }
}

/// A disk that isn't made, for this reason.
fn refused<R: Abort + AllocGlobal>(
    rt: &R,
    guest: &[u8],
    disk: StoppingDisk,
    config: Config,
    want: FormatFault,
)
    ensures { Made ⟦<StoppingDisk as Disk>⟧ config guest.now disk (Err (Format want)) }
{
    match refuse_one(rt.alloc(), guest, disk, config) {
        Some(JobFault::Format(got)) => expect_fault(rt, got, want),
        _ => panic!(rt; "the disk is made, or a file is refused"),
    }
}

/// This fault.
fn expect_fault<R: Abort>(rt: &R, got: FormatFault, want: FormatFault)
    ensures { got ≡ want }
{
    if got != want {
        panic!(rt; "{got}");
    }
}

/// Bytes with an open gate.
fn expect_open<R: Abort>(rt: &R, bytes: &[u8])
    ensures { is_open bytes.now ≡ true }
{
    match bytes {
        [0xa5, ..] => {}
        _ => panic!(rt; "the gate isn't open"),
    }
}

/// A configuration out of its ranges.
fn expect_invalid<R: Abort>(rt: &R, config: &Config)
    ensures { is_valid config.now ≡ false }
{
    if config.is_valid() {
        panic!(rt; "the configuration is in its ranges");
    }
}

/// How many bytes a disk of this configuration has.
fn size_of<R: Abort>(rt: &R, config: &Config) -> usize {
    if !config.is_valid() {
        panic!(rt; "the configuration is out of its ranges");
    }
    config.size_needed()
}

/// Makings of disks: they meet all premises of the clauses of `make_disk`.
fn makings<R: Abort + AllocGlobal>(rt: &R, guest: &[u8], config: Config, other: Config)
    ensures { MakingWitness ⟦<StoppingDisk as Disk>⟧ config guest.now }
{
    let size = size_of(rt, &config);
    made(rt, guest, stopping_disk(rt, zeros(rt, size), 0), config);
    let old = formatted(rt, guest);
    expect_open(rt, &old);
    let stays = FormatFault::AlreadyFormatted;
    refused(rt, guest, stopping_disk(rt, old, 0), config, stays);
    let broken = stopping_disk(rt, zeros(rt, size), 4);
    refused(rt, guest, broken, config, FormatFault::Device);
    let short = stopping_disk(rt, zeros(rt, 4_096), 0);
    refused(rt, guest, short, config, FormatFault::TooSmall);
    expect_invalid(rt, &other);
    let new = stopping_disk(rt, zeros(rt, size), 0);
    refused(rt, guest, new, other, FormatFault::BadConfig);
}

#[test]
fn the_premises_of_making_a_disk_are_met(rt: HostRuntime) {
    let other = Config {
        pages: 16,
        harts: 9,
        journal: 4_096,
    };
    makings(&rt, WAITERS, SMALL, other);
}
