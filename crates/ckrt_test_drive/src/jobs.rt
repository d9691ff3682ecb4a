//! The jobs of the program, over real files.

use crate::program::Step::{
    self, Absent, EndsWith, Fails, Fill, Holds, Prints, Remove, Usage, Write,
};
use crate::program::{LINES, play};
use ckrt_test_storage::IMAGE;
use std::fs::{File, Files};
use std::process::Abort;

const REPLIES: &str = "ok 1 placed\nok 2 ran 6 end\nack 2\nout 0 41\n";

const STORED: &[Step] = &[Prints("", LINES, REPLIES)];

#[test]
fn no_words_serve_the_stored_program(rt: HostRuntime) {
    play(&rt, STORED);
}

const HOLDS_A_PROGRAM: &str =
    "the disk jobs_a.disk: it holds a program already, and is unchanged; `ckrt drive` goes on with it\nckrt: AlreadyFormatted\n";

/// The listing of a program that hasn't begun.
const FRESH: &str =
    "events 0\nclock 0\nstatus running\nhart 0 idle\nthread 1 joinable ready pc 00001000 enabled deferred none handlers 0\nprogram 0e6376304a4316bffed9623510f220e728ef4485ff15af18d591aff9d191d3e4 24\n";

/// A disk that is made, shown, run and run again.
const RUNS: &[Step] = &[
    Write("jobs_a.img", &IMAGE),
    Prints(
        "format jobs_a.disk jobs_a.img --pages 16 --journal 4096",
        "",
        "formatted 348160\n",
    ),
    EndsWith("jobs_a.disk", 348_160, &[]),
    Prints("inspect jobs_a.disk", "", FRESH),
    Prints("run jobs_a.disk", LINES, REPLIES),
    // what was confirmed isn't on the disk
    Prints("run jobs_a.disk", "run 0 1\n", "out 0 41\nno 1 Ended\n"),
    Fails(
        "format jobs_a.disk jobs_a.img --pages 16 --journal 4096",
        HOLDS_A_PROGRAM,
    ),
    Prints("run jobs_a.disk", "", "out 0 41\n"),
    Remove("jobs_a.disk"),
    Remove("jobs_a.img"),
];

#[test]
fn a_disk_is_made_shown_run_and_run_again(rt: HostRuntime) {
    play(&rt, RUNS);
}

/// A disk that is made with the defaults.
const DEFAULTS: &[Step] = &[
    Write("jobs_b.img", &IMAGE),
    Prints("format jobs_b.disk jobs_b.img", "", "formatted 864256\n"),
    Remove("jobs_b.disk"),
    Remove("jobs_b.img"),
];

#[test]
fn defaults_have_their_size(rt: HostRuntime) {
    play(&rt, DEFAULTS);
}

const SOMEBODYS: &str =
    "the disk jobs_c.disk: it is no disk, and is unchanged; move it away, or give another path\nckrt: NotADisk\n";

/// A file of 348,170 bytes is refused where they are somebody's, and is as it was. Where they are zeros it becomes a disk, and the last ten of
/// them stay.
const LONGER: &[Step] = &[
    Write("jobs_c.img", &IMAGE),
    Fill("jobs_c.disk", 0x77, 348_170),
    Fails(
        "format jobs_c.disk jobs_c.img --pages=16 --journal=4096",
        SOMEBODYS,
    ),
    EndsWith("jobs_c.disk", 348_170, &[0x77; 10]),
    Fill("jobs_c.disk", 0, 348_170),
    Prints(
        "format jobs_c.disk jobs_c.img --pages=16 --journal=4096",
        "",
        "formatted 348160\n",
    ),
    EndsWith("jobs_c.disk", 348_170, &[0; 10]),
    Remove("jobs_c.disk"),
    Remove("jobs_c.img"),
];

#[test]
fn a_longer_file_keeps_what_stands_behind(rt: HostRuntime) {
    play(&rt, LONGER);
}

const NO_DISK: &str =
    "the disk jobs_j.disk: it is no disk, and is unchanged; move it away, or give another path\nckrt: NotADisk\n";

/// The front of a disk: an open gate, and a disk's name.
const FRONT: &[u8] = b"\xa5\0\0\0\0\0\0\0CKRTDISK";

/// Files that begin as a disk does are somebody's where they lack a disk's name, or are shorter than any disk.
const OPEN_GATES: &[Step] = &[
    Write("jobs_j.img", &IMAGE),
    Fill("jobs_j.disk", 0xa5, 348_159),
    Fails("format jobs_j.disk jobs_j.img", NO_DISK),
    EndsWith("jobs_j.disk", 348_159, &[0xa5; 10]),
    Fill("jobs_j.disk", 0xa5, 348_160),
    Fails(
        "format jobs_j.disk jobs_j.img --pages 16 --journal 4096",
        NO_DISK,
    ),
    EndsWith("jobs_j.disk", 348_160, &[0xa5; 10]),
    Write("jobs_j.disk", FRONT),
    Fails("format jobs_j.disk jobs_j.img", NO_DISK),
    Holds("jobs_j.disk", FRONT),
    Remove("jobs_j.disk"),
    Remove("jobs_j.img"),
];

#[test]
fn a_file_that_begins_as_a_disk_does_is_somebodys(rt: HostRuntime) {
    play(&rt, OPEN_GATES);
}

const BAD_PAGES: &str =
    "--pages 15 isn't 16 to 65536: give another, or leave it out\nckrt: BadConfig\n";

const BAD_HARTS: &str = "--harts 9 isn't 1 to 8: give another, or leave it out\nckrt: BadConfig\n";

const BAD_JOURNAL: &str =
    "--journal 4097 isn't a multiple of 4096 from 4096 to 1048576: give another, or leave it out\nckrt: BadConfig\n";

const ONE_PATH: &str = "the disk jobs_i.img: the image has this path too\nckrt: File\n";

const NO_FOLDER: &str =
    "the disk jobs_none/i.disk: its folder is missing; make it, or give another path\nckrt: File\n";

/// An image is never made a disk, and a missing folder is told as that.
const REFUSED_PATHS: &[Step] = &[
    Fails("format jobs_i.img jobs_i.img --pages 15", BAD_PAGES),
    Fails(
        "format jobs_i.img jobs_i.img",
        "the image jobs_i.img: there is no such file\nckrt: File\n",
    ),
    Write("jobs_i.img", &IMAGE),
    Fails("format jobs_i.img jobs_i.img", ONE_PATH),
    Holds("jobs_i.img", &IMAGE),
    Fails("format jobs_none/i.disk jobs_i.img", NO_FOLDER),
    Remove("jobs_i.img"),
];

#[test]
fn no_disk_over_the_image_or_without_a_folder(rt: HostRuntime) {
    play(&rt, REFUSED_PATHS);
}

const ABSENT_IMAGE: &str = "the image jobs_none.img: there is no such file\nckrt: File\n";

const LONG_IMAGE: &str =
    "the image jobs_d.img: it is longer than the guest's memory; take more by --pages\nckrt: ImageTooLong\n";

const ELF: &[u8] = b"\x7fELF\x01\x01\x01";

const ELF_IMAGE: &str =
    "the image jobs_d.elf: it is an ELF file: guest/image, or objcopy -O binary, makes an image of it\nckrt: File\n";

const FOLDER: &str = "the disk .: it is a directory\nckrt: File\n";

/// The image is tested before the disk is touched, and the configuration before the image.
const FAULTS: &[Step] = &[
    Fill("jobs_d.img", 0, 61_441),
    Fails("format jobs_d.disk jobs_none.img --pages 15", BAD_PAGES),
    Fails("format jobs_d.disk jobs_none.img --harts 9", BAD_HARTS),
    Fails(
        "format jobs_d.disk jobs_none.img --journal 4097",
        BAD_JOURNAL,
    ),
    Fails("format . jobs_none.img --pages 16", ABSENT_IMAGE),
    Fails("format jobs_d.disk jobs_d.img --pages 16", LONG_IMAGE),
    Write("jobs_d.elf", ELF),
    Fails("format jobs_d.disk jobs_d.elf --pages 16", ELF_IMAGE),
    Remove("jobs_d.elf"),
    Absent("jobs_d.disk"),
    // a disk that can't be opened is told only of an image that fits
    Fails("format . jobs_d.img --pages 16", LONG_IMAGE),
    Fails("format . jobs_d.img --pages 17", FOLDER),
    Remove("jobs_d.img"),
];

#[test]
fn faults_come_in_their_order(rt: HostRuntime) {
    play(&rt, FAULTS);
}

const UNREADABLE_IMAGE: &str =
    "the image /proc/self/mem: it can't be opened, read or filled\nckrt: File\n";

/// A process's own memory is a file that opens and whose first byte can't be read, for root neither.
const UNREADABLE: &[Step] = &[
    Fails("format jobs_g.disk /proc/self/mem", UNREADABLE_IMAGE),
    Absent("jobs_g.disk"),
];

#[test]
fn an_image_that_cant_be_read_is_refused(rt: HostRuntime) {
    play(&rt, UNREADABLE);
}

const ABSENT_DISK: &str = "the disk jobs_none.disk: there is no such file\nckrt: File\n";

const SHORT_DISK: &str =
    "the disk jobs_e.disk: it is no disk of ckrt, or its making was stopped: look at its path (docs/OPERATING.md)\nckrt: NotFormatted\n";

/// A folder that nobody locks: the one in which tests run may be locked.
const ROOT_FOLDER: &str = "the disk /: it is a directory\nckrt: File\n";

/// Files that are no disks.
const NO_DISKS: &[Step] = &[
    Fails("run jobs_none.disk", ABSENT_DISK),
    Fails("run .", FOLDER),
    Write("jobs_e.disk", b"CKRTDISK"),
    Fails("run jobs_e.disk", SHORT_DISK),
    Fails("inspect /", ROOT_FOLDER),
    Fails("inspect jobs_none.disk", ABSENT_DISK),
    Fails("inspect jobs_e.disk --code", SHORT_DISK),
    Remove("jobs_e.disk"),
];

#[test]
fn what_is_no_disk_is_neither_run_nor_shown(rt: HostRuntime) {
    play(&rt, NO_DISKS);
}

/// The file is locked.
fn lock<R: Abort>(rt: &R, file: &File) {
    assert!(rt; file.try_lock().is_ok());
}

const DISK_IN_USE: &str = "the disk jobs_f.disk: another program has it locked\nckrt: File\n";

const EMPTY_DISK: &str =
    "the disk jobs_f.disk: it is no disk of ckrt, or its making was stopped: look at its path (docs/OPERATING.md)\nckrt: NotFormatted\n";

const IN_USE: &[Step] = &[
    Fails("run jobs_f.disk", DISK_IN_USE),
    Fails("inspect jobs_f.disk", DISK_IN_USE),
];

const NOT_IN_USE: &[Step] = &[Fails("run jobs_f.disk", EMPTY_DISK), Remove("jobs_f.disk")];

/// A disk that is in use, and then is not.
fn expect_lock<R: Abort + Files<File = File> + AllocGlobal>(rt: &R) {
    play(rt, &[Write("jobs_f.disk", b"")]);
    let holder = File::open(rt, "jobs_f.disk").expect(rt, "the file is opened");
    lock(rt, &holder);
    play(rt, IN_USE);
    holder.unlock().expect(rt, "the file is unlocked");
    play(rt, NOT_IN_USE);
}

#[test]
fn a_disk_in_use_is_refused(rt: HostRuntime) {
    expect_lock(&rt);
}

const NUMBER_USAGE: &str =
    "\nUsage: ckrt format <DISK> <IMAGE> [--pages 16 to 65536] [--harts 1 to 8] [--journal 4096 to 1048576 by 4096] [--env NAME=VALUE] [-- ARGUMENTS]\n";

/// What is wrong with a number that isn't one, and how numbers are given.
const WRONG_NUMBER: &[Step] = &[Usage("format jobs_h.disk jobs_none.img --pages x", NUMBER_USAGE)];

#[test]
fn a_wrong_number_gets_the_usage(rt: HostRuntime) {
    play(&rt, WRONG_NUMBER);
}

const VERSION: &[Step] = &[Prints(
    "--version",
    "",
    "ckrt 0.1.0, source proved with rattle-kit-13f logic dac8208d650f15bf\n",
)];

#[test]
fn the_version_names_the_kit(rt: HostRuntime) {
    play(&rt, VERSION);
}

/// Words that name no job.
const NO_JOBS: &[Step] = &[
    Usage("frobnicate", ""),
    Usage("--help", ""),
    Usage("run", ""),
    Usage("run a b", ""),
    Usage("inspect", ""),
    Usage("--version now", ""),
];

#[test]
fn words_that_name_no_job_print_the_usage(rt: HostRuntime) {
    play(&rt, NO_JOBS);
}
