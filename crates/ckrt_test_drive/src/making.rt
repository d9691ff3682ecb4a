//! The disk that a drive makes where it is missing, over real files.

use crate::program::Step::{Absent, Ends, EndsWith, Fails, Fill, Holds, Prints, Remove, Write};
use crate::program::{LINES, Step, play};
use ckrt_test_storage::IMAGE;

/// The listing of a program that hasn't begun.
const FRESH: &str =
    "events 0\nclock 0\nstatus running\nhart 0 idle\nthread 1 joinable ready pc 00001000 enabled deferred none handlers 0\nprogram 0e6376304a4316bffed9623510f220e728ef4485ff15af18d591aff9d191d3e4 24\nschedule 1000000\n";

const OTHER_SIZES: &str =
    "the disk making_a.disk: it has --pages 16 --harts 1 --journal 4096: these stay; give them, or leave them out\nckrt: BadConfig\n";

/// A disk is made, goes on by the same words, and takes no other sizes.
const MAKES: &[Step] = &[
    Write("making_a.img", &IMAGE),
    Ends(
        "drive making_a.disk --image making_a.img --pages 16 --journal 4096 --events 0",
        "",
        "enough\n",
        5,
    ),
    Absent("making_a.disk.making"),
    EndsWith("making_a.disk", 348_160, &[]),
    Prints("inspect making_a.disk", "", FRESH),
    Ends(
        "drive making_a.disk --image making_a.img --pages 16 --journal 4096",
        "A",
        "ended: exit 0\n",
        0,
    ),
    // what isn't given isn't compared; the byte was confirmed by the checkpoint after it
    Ends("drive making_a.disk", "", "ended: exit 0\n", 0),
    Fails("drive making_a.disk --image making_none.img", ABSENT_IMAGE),
    Fails("drive making_a.disk --pages 17", OTHER_SIZES),
    Fails("drive making_a.disk --harts 2 --pages 16", OTHER_SIZES),
    Fails("drive making_a.disk --journal 8192", OTHER_SIZES),
    Remove("making_a.disk"),
    Ends(
        "drive making_a.disk --image making_a.img --events 0",
        "",
        "enough\n",
        5,
    ),
    EndsWith("making_a.disk", 864_256, &[]),
    Remove("making_a.disk"),
    Remove("making_a.img"),
];

#[test]
fn a_missing_disk_is_made_and_goes_on(rt: HostRuntime) {
    play(&rt, MAKES);
}

/// Images that put a B in place of an A, and that have a zero more, which the guest's memory doesn't tell.
const OF_B: [u8; 24] = [
    0x13, 0x05, 0x20, 0x04, 0x93, 0x08, 0x20, 0x00, 0x73, 0x00, 0x00, 0x00, 0x13, 0x05, 0x00, 0x00,
    0x93, 0x08, 0x10, 0x00, 0x73, 0x00, 0x00, 0x00,
];

const LONGER: [u8; 25] = [
    0x13, 0x05, 0x10, 0x04, 0x93, 0x08, 0x20, 0x00, 0x73, 0x00, 0x00, 0x00, 0x13, 0x05, 0x00, 0x00,
    0x93, 0x08, 0x10, 0x00, 0x73, 0x00, 0x00, 0x00, 0x00,
];

/// The digests are those of `sha256sum`.
const ANOTHER: &str =
    "the disk making_d.disk: it was made with the image of SHA-256 digest 0e6376304a4316bffed9623510f220e728ef4485ff15af18d591aff9d191d3e4, and this one has 1858650d299a77447e19e5de5c1d3c40d2a3babf0c4a047d1ea20bd92e7ce33a: to begin anew remove disk and output; to go on with the program of the disk leave --image out\nckrt: ImageDiffers\n";

const ONE_MORE: &str =
    "the disk making_d.disk: it was made with the image of SHA-256 digest 0e6376304a4316bffed9623510f220e728ef4485ff15af18d591aff9d191d3e4, and this one has 5cf438b45e2de655b2bb30c9bb36f8686ade44997f15ce3ee2917d1e74b35772: to begin anew remove disk and output; to go on with the program of the disk leave --image out\nckrt: ImageDiffers\n";

const ELF_IMAGE: &str =
    "the image making_g.img: it is an ELF file: guest/image, or objcopy -O binary, makes an image of it\nckrt: File\n";

/// A disk is driven with its own image alone, and an image that is none isn't compared.
const OTHER_IMAGES: &[Step] = &[
    Write("making_d.img", &IMAGE),
    Write("making_e.img", &OF_B),
    Write("making_f.img", &LONGER),
    Write("making_g.img", b"\x7fELF"),
    Ends(
        "drive making_d.disk --image making_d.img --pages 16 --journal 4096",
        "A",
        "ended: exit 0\n",
        0,
    ),
    Fails("drive making_d.disk --image making_e.img", ANOTHER),
    Fails("drive making_d.disk --image making_f.img", ONE_MORE),
    Fails(
        "drive making_d.disk --image making_e.img --pages 17",
        ANOTHER,
    ),
    Fails("drive making_d.disk --image making_g.img", ELF_IMAGE),
    Ends(
        "drive making_d.disk --image making_d.img --from 1",
        "",
        "ended: exit 0\n",
        0,
    ),
    Remove("making_d.disk"),
    Remove("making_d.img"),
    Remove("making_e.img"),
    Remove("making_f.img"),
    Remove("making_g.img"),
];

#[test]
fn a_disk_is_driven_with_its_own_image(rt: HostRuntime) {
    play(&rt, OTHER_IMAGES);
}

const MAKE_B: &str =
    "drive making_b.disk --image making_b.img --pages 16 --journal 4096 --events 0";

const MAKE_B_LATER: &str = "drive making_b.disk --image making_b.img --pages 16 --journal 4096";

const NOT_IN_MAKING: &str =
    "the disk in the making making_b.disk.making: it is no disk in the making, and is unchanged; move it away, then give the command again\nckrt: File\n";

/// What a making that was cut may leave is made anew: a file without a byte, one that is filled in part, and a disk that hasn't
/// begun. Anything else stays, and is told: zeros without a mark, too.
const LEFTOVERS: &[Step] = &[
    Write("making_b.img", &IMAGE),
    Write("making_b.disk.making", b""),
    Ends(MAKE_B, "", "enough\n", 5),
    Absent("making_b.disk.making"),
    Remove("making_b.disk"),
    Write("making_b.disk.making", b"\0\0\0\0\0\0\0\0CKRTMAKE\0\0"),
    Ends(MAKE_B, "", "enough\n", 5),
    EndsWith("making_b.disk", 348_160, &[]),
    Absent("making_b.disk.making"),
    Remove("making_b.disk"),
    Prints(
        "format making_b.disk.making making_b.img --pages 17",
        "",
        "formatted 479232\n",
    ),
    Ends(MAKE_B, "", "enough\n", 5),
    EndsWith("making_b.disk", 348_160, &[]),
    Remove("making_b.disk"),
    Write("making_b.disk.making", b"notes"),
    Fails(MAKE_B_LATER, NOT_IN_MAKING),
    Holds("making_b.disk.making", b"notes"),
    Fill("making_b.disk.making", 0x77, 20_000),
    Fails(MAKE_B_LATER, NOT_IN_MAKING),
    Fill("making_b.disk.making", 0, 900_000),
    Fails(MAKE_B_LATER, NOT_IN_MAKING),
    EndsWith("making_b.disk.making", 900_000, &[]),
    Remove("making_b.disk.making"),
    Prints(
        "format making_b.disk.making making_b.img",
        "",
        "formatted 864256\n",
    ),
    Prints(
        "run making_b.disk.making",
        LINES,
        "ok 1 placed\nok 2 ran 6 end\nack 2\nout 0 41\n",
    ),
    Fails(MAKE_B_LATER, NOT_IN_MAKING),
    Prints("run making_b.disk.making", "", "out 0 41\n"),
    Remove("making_b.disk.making"),
    Remove("making_b.img"),
];

#[test]
fn what_a_cut_making_left_is_made_anew(rt: HostRuntime) {
    play(&rt, LEFTOVERS);
}

const ABSENT: &str = "the disk making_c.disk: there is no such file\nckrt: File\n";

const ABSENT_IMAGE: &str = "the image making_none.img: there is no such file\nckrt: File\n";

const BAD_CONFIG: &str =
    "--pages 15 isn't 16 to 65536: give another, or leave it out\nckrt: BadConfig\n";

const LONG_IMAGE: &str =
    "the image making_c.img: it is longer than the guest's memory; take more by --pages\nckrt: ImageTooLong\n";

const NO_FOLDER: &str =
    "the disk in the making making_none/c.disk.making: its folder is missing; make it, or give another path\nckrt: File\n";

/// Nothing is left where no disk was made.
const FAULTS: &[Step] = &[
    Fill("making_c.img", 0, 61_441),
    Fails("drive making_c.disk --pages 15", ABSENT),
    Fails(
        "drive making_c.disk --image making_none.img --pages 15",
        BAD_CONFIG,
    ),
    Fails("drive making_c.disk --image making_none.img", ABSENT_IMAGE),
    Fails(
        "drive making_c.disk --image making_c.img --pages 16",
        LONG_IMAGE,
    ),
    Fails("drive making_none/c.disk --image making_c.img", NO_FOLDER),
    Absent("making_c.disk"),
    Absent("making_c.disk.making"),
    Remove("making_c.img"),
];

#[test]
fn no_disk_is_made_of_nothing(rt: HostRuntime) {
    play(&rt, FAULTS);
}
