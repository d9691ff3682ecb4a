//! A disk that is formatted a second time: it keeps its program, byte for byte.

use crate::expect::expect_eq;
use crate::program::Step::{self, Fails, Prints, Remove, Write};
use crate::program::{bytes_in, play};
use ckrt_test_storage::{IMAGE, SIZE};
use std::fs::{File, Files};
use std::process::Abort;

const FIRST: &str = "format second_a.disk second_a.img --pages 16 --journal 4096";

const SAME_SIZE: &str = "format second_a.disk second_b.img --pages 16 --journal 4096";

const LARGER: &str = "format second_a.disk second_b.img";

const RUN: &str = "run second_a.disk";

const HOLDS_A_PROGRAM: &str =
    "the disk second_a.disk: it holds a program already, and is unchanged; `ckrt drive` goes on with it\nckrt: AlreadyFormatted\n";

/// A disk with a program that has run.
const MADE: &[Step] = &[
    Write("second_a.img", &IMAGE),
    Write("second_b.img", &[0; 8]),
    Prints(FIRST, "", "formatted 348160\n"),
    Prints(
        RUN,
        "place 0 1\nrun 0 3\ncommit\n",
        "ok 1 placed\nok 2 ran 3 on\nack 2\nout 0 41\n",
    ),
];

/// The program goes on, with its own image and configuration.
const GOES_ON: &[Step] = &[
    Prints(
        RUN,
        "run 0 9\ncheckpoint\n",
        "out 0 41\nok 3 ran 3 end\nack 3\n",
    ),
    Remove("second_a.disk"),
    Remove("second_a.img"),
    Remove("second_b.img"),
];

/// A second format of a file of this size is refused, and adds zeros alone, up to that size.
fn expect_kept<R: Abort + Files<File = File> + AllocGlobal>(
    rt: &R,
    words: &'static str,
    from: usize,
    to: usize,
) {
    let before = bytes_in(rt, "second_a.disk");
    play(rt, &[Fails(words, HOLDS_A_PROGRAM)]);
    let after = bytes_in(rt, "second_a.disk");
    expect_eq(rt, before.len(), from);
    expect_eq(rt, after.len(), to);
    expect_eq(rt, after.starts_with(before.as_slice()), true);
    expect_eq(rt, after.iter().skip(from).all(|byte| *byte == 0), true);
}

/// Another image in the same configuration changes nothing of the file. A configuration that needs a longer one adds zeros to
/// it, and changes nothing of what was there; and one that needs a shorter one than that changes nothing.
#[test]
fn a_disk_that_is_formatted_twice_keeps_its_program(rt: HostRuntime) {
    play(&rt, MADE);
    expect_kept(&rt, SAME_SIZE, SIZE, SIZE);
    expect_kept(&rt, LARGER, SIZE, 864_256);
    expect_kept(&rt, SAME_SIZE, 864_256, 864_256);
    play(&rt, GOES_ON);
}
