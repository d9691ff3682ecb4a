//! A closed witness of the promise "end to end without a stop". What stops a test meets any clause, so it shows its witness by coming to
//! its end.
ghost use Rattle.ckrt_stored.specs.Programs.{Program};
ghost use Rattle.ckrt_witness.specs.Service.{ImageWitness, RefusesImage, ServesImage, ServiceWitness};

use crate::closed::{SMALL, formatted, memory_disk};
use crate::closed_machine::WAITERS;
use crate::service::{refuse_image, serve_in_memory, serve_once};
use ckrt_disk::{Disk, MemoryDisk};
use ckrt_recovery::Config;
use std::process::Abort;

/// A service of a formatted disk that answers these lines: it meets all premises of the promise.
fn service<R: Abort + AllocGlobal>(rt: &R, lines: &[u8])
    ensures { (p : Program) × ServiceWitness ⟦<MemoryDisk as Disk>⟧ p }
{
    let disk = memory_disk(rt, formatted(rt, WAITERS));
    match serve_once(rt.alloc(), disk, lines) {
        Some(_) => {}
        None => panic!(rt; "the lines are answered otherwise"),
    }
}

/// A service in memory.
fn served<R: Abort + AllocGlobal>(rt: &R, image: &[u8], config: Config, lines: &[u8])
    ensures { ServesImage config image.now }
{
    if !serve_in_memory(rt.alloc(), image, config, lines) {
        panic!(rt; "the image isn't served");
    }
}

/// One that doesn't begin.
fn refused<R: Abort + AllocGlobal>(rt: &R, image: &[u8], config: Config, lines: &[u8])
    ensures { RefusesImage config image.now }
{
    if !refuse_image(rt.alloc(), image, config, lines) {
        panic!(rt; "the image is served");
    }
}

/// Both of one image: they meet all premises of the clauses of `serve_image`.
fn in_memory<R: Abort + AllocGlobal>(
    rt: &R,
    image: &[u8],
    config: Config,
    other: Config,
    lines: &[u8],
)
    ensures { ImageWitness config other image.now }
{
    served(rt, image, config, lines);
    refused(rt, image, other, lines);
}

#[test]
fn the_premises_of_a_service_in_memory_are_met(rt: HostRuntime) {
    let other = Config {
        pages: 16,
        harts: 9,
        journal: 4_096,
    };
    in_memory(&rt, WAITERS, SMALL, other, b"auto 0 9\ncommit\n");
}

#[test]
fn the_premises_of_end_to_end_are_met(rt: HostRuntime) {
    service(
        &rt,
        b"in 4142\ntick 3\nauto 0 9\ncommit\nno such line\nquit\nplace 0 1\n",
    );
}
