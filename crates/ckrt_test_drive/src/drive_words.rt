//! The program's word `drive`, over real files.

use crate::program::Step::{self, Ends, Fails, Holds, Prints, Remove, Write, WriteGuest};
use crate::program::play;
use ckrt_test_storage::IMAGE;

/// Locks the mutex 0x5000 twice.
const LOCKS_TWICE: [u32; 5] = [
    0x00005537, // lui x10, 5
    0x01600893, // addi x17, x0, 22
    0x00000073, // ecall
    0x00005537, // lui x10, 5
    0x00000073, // ecall
];

/// Puts each byte that it gets.
const ECHO: [u32; 5] = [
    0x00300893, // addi x17, x0, 3
    0x00000073, // ecall
    0x00200893, // addi x17, x0, 2
    0x00000073, // ecall
    0xff1ff06f, // j to the start
];

/// No instruction.
const ILLEGAL: [u32; 1] = [0xffff_ffff];

/// A guest that is stopped after one event, driven to its end, and driven again.
const DRIVEN_ON: &[Step] = &[
    Write("drive_a.img", &IMAGE),
    Prints(
        "format drive_a.disk drive_a.img --pages 16 --journal 4096",
        "",
        "formatted 348160\n",
    ),
    Remove("drive_a.img"),
    Ends(
        "drive drive_a.disk --output drive_a.out --events 1 --seed 5 --progress 60",
        "",
        "enough\n",
        5,
    ),
    Holds("drive_a.out", b""),
    Ends(
        "drive drive_a.disk --output drive_a.out --other-schedule",
        "",
        "ended: exit 0\n",
        0,
    ),
    Holds("drive_a.out", b"A"),
    Ends(
        "drive drive_a.disk --output drive_a.out",
        "",
        "ended: exit 0\n",
        0,
    ),
    Holds("drive_a.out", b"A"),
    Remove("drive_a.disk"),
    Remove("drive_a.out"),
];

#[test]
fn a_drive_goes_on_where_one_stopped(rt: HostRuntime) {
    play(&rt, DRIVEN_ON);
}

/// A guest that nobody can ever take on, and one that faults.
const OTHER_ENDS: &[Step] = &[
    WriteGuest("drive_b.img", &LOCKS_TWICE),
    Prints(
        "format drive_b.disk drive_b.img --pages 16 --journal 4096",
        "",
        "formatted 348160\n",
    ),
    Remove("drive_b.img"),
    Ends(
        "drive drive_b.disk --output drive_b.out",
        "",
        "deadlock\n",
        4,
    ),
    Remove("drive_b.disk"),
    WriteGuest("drive_b.img", &ILLEGAL),
    Prints(
        "format drive_b.disk drive_b.img --pages 16 --journal 4096",
        "",
        "formatted 348160\n",
    ),
    Remove("drive_b.img"),
    Ends(
        "drive drive_b.disk --output drive_b.out --turn 1 --rounds-per-commit 1",
        "",
        "`guest/where PROGRAM.elf 00001000` says where that is; so does `addr2line -e PROGRAM.elf 00001000`\nended: fault 1 00001000 Illegal\n",
        6,
    ),
    Remove("drive_b.disk"),
    Remove("drive_b.out"),
];

#[test]
fn each_end_has_its_line_and_status(rt: HostRuntime) {
    play(&rt, OTHER_ENDS);
}

/// A file of three bytes for a disk that has put none out, and one of two for a disk that has put one, as its last checkpoint knows.
const LONGER: &str =
    "the output drive_c.out: it has 3 bytes, and this disk wants 0 to 0: it may be another run's: give a new file; if the disk is an older copy, `truncate -s` to the last number goes on\nckrt: OutputDiffers\n";

const LONGER_BY_ONE: &str =
    "the output drive_c.out: it has 2 bytes, and this disk wants 1 to 1: it may be another run's: give a new file; if the disk is an older copy, `truncate -s` to the last number goes on\nckrt: OutputDiffers\n";

/// A guest that waits for input, is given some, and is driven on. A file that is longer than its output is refused, and stays.
const FED: &[Step] = &[
    WriteGuest("drive_c.img", &ECHO),
    Prints(
        "format drive_c.disk drive_c.img --pages 16 --journal 4096",
        "",
        "formatted 348160\n",
    ),
    Remove("drive_c.img"),
    Write("drive_c.out", b"..."),
    Fails("drive drive_c.disk --output drive_c.out", LONGER),
    Holds("drive_c.out", b"..."),
    Remove("drive_c.out"),
    Ends(
        "drive drive_c.disk --output drive_c.out",
        "",
        "waits for input\n",
        3,
    ),
    Holds("drive_c.out", b""),
    Prints(
        "run drive_c.disk",
        "in 58\ncommit\n",
        "ok 3 taken 1\nack 3\n",
    ),
    Ends(
        "drive drive_c.disk --output drive_c.out",
        "",
        "waits for input\n",
        3,
    ),
    Holds("drive_c.out", b"X"),
    Write("drive_c.out", b"XY"),
    Fails("drive drive_c.disk --output drive_c.out", LONGER_BY_ONE),
    Holds("drive_c.out", b"XY"),
    Remove("drive_c.disk"),
    Remove("drive_c.out"),
];

#[test]
fn a_guest_that_waits_for_input_is_driven_on(rt: HostRuntime) {
    play(&rt, FED);
}

/// A guest whose output is printed: what isn't confirmed on the disk yet comes again, but for what lies below an offset. The journal
/// has room for more than a batch, so no checkpoint confirms it.
const STREAMED: &[Step] = &[
    Write("drive_e.img", &IMAGE),
    Prints(
        "format drive_e.disk drive_e.img --pages 16 --journal 8192",
        "",
        "formatted 356352\n",
    ),
    Remove("drive_e.img"),
    Ends("drive drive_e.disk", "A", "ended: exit 0\n", 0),
    Ends("drive drive_e.disk --from 0", "A", "ended: exit 0\n", 0),
    Ends("drive drive_e.disk --from 1", "", "ended: exit 0\n", 0),
    Remove("drive_e.disk"),
];

#[test]
fn output_without_a_file_is_printed(rt: HostRuntime) {
    play(&rt, STREAMED);
}

const NO_TURN: &str = "--turn 0 isn't 1 to 1000000: give another, or leave it out\nckrt: Range\n";

const LONG_TURN: &str =
    "--turn 1000001 isn't 1 to 1000000: give another, or leave it out\nckrt: Range\n";

const NO_ROUNDS: &str =
    "--rounds-per-commit 0 isn't 1 or more: give another, or leave it out\nckrt: Range\n";

const NO_SECONDS: &str =
    "--progress 0 isn't 1 or more: give another, or leave it out\nckrt: Range\n";

const TWO_TARGETS: &str =
    "--from doesn't go with --output: give another, or leave it out\nckrt: Range\n";

const NO_INPUT: &str =
    "--input-from is below 2^62, and goes with --input: give another, or leave it out\nckrt: Range\n";

const ABSENT: &str = "the disk drive_none.disk: there is no such file\nckrt: File\n";

const UNFORMATTED: &str =
    "the disk drive_d.disk: it is no disk of ckrt, or its making was stopped: look at its path (docs/OPERATING.md)\nckrt: NotFormatted\n";

const FOLDER: &str = "the output .: it is a directory\nckrt: File\n";

const ABSENT_FOLDER: &str =
    "the output drive_none/out: its folder is missing; make it, or give another path\nckrt: File\n";

const ITSELF: &str =
    "the output drive_d.disk: the disk has this path too; give another\nckrt: File\n";

/// The numbers come first, then the disk, what is on it, and the output.
const DRIVE_FAULTS: &[Step] = &[
    Fails("drive drive_none.disk --output . --turn 0", NO_TURN),
    Fails("drive drive_none.disk --output . --turn 1000001", LONG_TURN),
    Fails(
        "drive drive_none.disk --output . --rounds-per-commit 0",
        NO_ROUNDS,
    ),
    Fails("drive drive_none.disk --output . --progress 0", NO_SECONDS),
    Fails("drive drive_none.disk --output . --from 0", TWO_TARGETS),
    Fails("drive drive_none.disk --output . --input-from 0", NO_INPUT),
    Fails("drive drive_none.disk --output .", ABSENT),
    Fails("drive drive_none.disk --from 7", ABSENT),
    Write("drive_d.disk", b""),
    Fails("drive drive_d.disk --output .", UNFORMATTED),
    Remove("drive_d.disk"),
    Write("drive_d.img", &IMAGE),
    Prints(
        "format drive_d.disk drive_d.img --pages 16 --journal 4096",
        "",
        "formatted 348160\n",
    ),
    Remove("drive_d.img"),
    Fails("drive drive_d.disk --output .", FOLDER),
    Fails("drive drive_d.disk --output drive_none/out", ABSENT_FOLDER),
    Fails("drive drive_d.disk --output drive_d.disk", ITSELF),
    Remove("drive_d.disk"),
];

#[test]
fn faults_of_a_drive_come_in_their_order(rt: HostRuntime) {
    play(&rt, DRIVE_FAULTS);
}
