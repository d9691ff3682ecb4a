//! A closed witness of runs by their words, over disks in memory. What stops a test meets any clause, so it shows its witness by coming to
//! its end.
ghost use Rattle.std.specs.Prelude.{map};
ghost use Rattle.ckrt_witness.specs.Shelf.{reach_of};
ghost use Rattle.ckrt_witness.specs.Words.{Ended, WordsWitness};
ghost use Rattle.ckrt_witness.specs.declared.shelf.Shelf.{Shelf};

use crate::closed::{SMALL, stopping_disk};
use crate::closed_machine::WAITERS;
use crate::closed_words::{expect_format, expect_some, expect_status, expect_version};
use crate::shelf::Shelf;
use ckrt_cli::run_words_with;
use ckrt_cli_reports::WrittenReport;
use ckrt_disk::{Disk, StoppingDisk};
use ckrt_drive::{Nobody, StreamOutput};
use std::io::Write;
use std::process::Abort;

/// A run over an image and a disk to be made, with this status.
fn run_shelf<'a, R: Abort + AllocGlobal>(
    rt: &R,
    words: &'a [&'a str],
    guest: &'a [u8],
    disk: StoppingDisk,
    status: u8,
)
    ensures { (sources : Shelf) × Ended {d = ⟦<StoppingDisk as Disk>⟧}
        (reach_of ⟦<StreamOutput<'a, Vec<u8>> as Disk>⟧ ⟦<Vec<u8> as Write>⟧.contents sources)
        (map (λ s. s.now) words.entry.now) status }
{
    let mut sources = Shelf::with_guest(guest, disk);
    let mut lines: &[u8] = &[];
    let mut printed = Vec::new(rt.alloc());
    let mut reporter = WrittenReport::new(Vec::new(rt.alloc()));
    let got = run_words_with::<
        &[u8],
        StoppingDisk,
        Shelf,
        &[u8],
        Vec<u8>,
        WrittenReport<Vec<u8>>,
        Nobody,
    >(
        rt.alloc(),
        words,
        &[],
        &mut sources,
        &mut lines,
        &mut printed,
        &mut reporter,
        &mut Nobody,
    );
    expect_status(rt, got, status);
}

/// A disk of zeros, as long as the smallest machine needs.
fn blank<R: Abort + AllocGlobal>(rt: &R) -> StoppingDisk {
    let zeros = vec![in rt.alloc(); 0; SMALL.size_needed()].expect(rt, "memory for bytes");
    stopping_disk(rt, zeros, 0)
}

/// Runs by these words meet all premises over disks in memory.
fn memory_words<'a, R: Abort + AllocGlobal>(
    rt: &R,
    making: &'a [&'a str],
    telling: &'a [&'a str],
    nonsense: &'a [&'a str],
    guest: &'a [u8],
)
    ensures { WordsWitness {S = Shelf} {d = ⟦<StoppingDisk as Disk>⟧}
        (reach_of ⟦<StreamOutput<'a, Vec<u8>> as Disk>⟧ ⟦<Vec<u8> as Write>⟧.contents) }
{
    expect_format(rt, making);
    run_shelf(rt, making, guest, blank(rt), 0);
    expect_version(rt, telling);
    run_shelf(rt, telling, guest, blank(rt), 0);
    expect_some(rt, nonsense);
    run_shelf(rt, nonsense, guest, blank(rt), 2);
}

#[test]
fn the_premises_of_runs_in_memory_are_met(rt: HostRuntime) {
    memory_words(
        &rt,
        &[
            "format",
            "d",
            "i",
            "--pages",
            "16",
            "--harts",
            "1",
            "--journal",
            "4096",
        ],
        &["--version"],
        &["nonsense"],
        WAITERS,
    );
}
