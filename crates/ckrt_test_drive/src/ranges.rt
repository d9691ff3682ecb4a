//! Each text that the program says of numbers: those of a fault, and those of the words that are out of their range.

use crate::texts::{DRIVE, Told, expect_told};
use ckrt_cli_reports::{InputLengths, JobFault, OutputLengths};
use ckrt_recovery::{Config, FormatFault};

/// Faults with numbers.
const NUMBERS: &[Told] = &[
    (
        DRIVE,
        JobFault::SizesDiffer(Config {
            pages: 64,
            harts: 1,
            journal: 65_536,
        }),
        "the disk d: it has --pages 64 --harts 1 --journal 65536: these stay; give them, or leave them out\nckrt: BadConfig\n",
    ),
    (
        DRIVE,
        JobFault::OutputDiffers(OutputLengths {
            length: 9,
            confirmed: 10,
            released: 12,
        }),
        "the output o: it has 9 bytes, and this disk wants 10 to 12: some of the output was lost or cut: `truncate -s` to the first number goes on, with zeros for what is gone\nckrt: OutputDiffers\n",
    ),
    (
        DRIVE,
        JobFault::OutputDiffers(OutputLengths {
            length: 13,
            confirmed: 10,
            released: 12,
        }),
        "the output o: it has 13 bytes, and this disk wants 10 to 12: it may be another run's: give a new file; if the disk is an older copy, `truncate -s` to the last number goes on\nckrt: OutputDiffers\n",
    ),
    (
        DRIVE,
        JobFault::OffsetDiffers(7),
        "the disk d: its program has taken 7 bytes of the input: leave --input-from out\nckrt: OffsetDiffers\n",
    ),
    (
        DRIVE,
        JobFault::InputTooShort(InputLengths {
            length: 3,
            taken: 7,
        }),
        "the input n: it has 3 bytes, and the program has taken 7: give the file that it had before, whole\nckrt: InputTooShort\n",
    ),
];

const BAD_SIZES: JobFault = JobFault::Format(FormatFault::BadConfig);

/// Numbers in the words that are out of their ranges: the first of them is told.
const UNFIT: &[Told] = &[
    (
        "format d i --pages 15 --harts 9",
        BAD_SIZES,
        "--pages 15 isn't 16 to 65536: give another, or leave it out\nckrt: BadConfig\n",
    ),
    (
        "drive d --pages 65537",
        BAD_SIZES,
        "--pages 65537 isn't 16 to 65536: give another, or leave it out\nckrt: BadConfig\n",
    ),
    (
        "drive d --harts 0",
        BAD_SIZES,
        "--harts 0 isn't 1 to 8: give another, or leave it out\nckrt: BadConfig\n",
    ),
    (
        "hunt i --harts 9",
        BAD_SIZES,
        "--harts 9 isn't 1 to 8: give another, or leave it out\nckrt: BadConfig\n",
    ),
    (
        "format d i --journal 4097",
        BAD_SIZES,
        "--journal 4097 isn't a multiple of 4096 from 4096 to 1048576: give another, or leave it out\nckrt: BadConfig\n",
    ),
    (
        "drive d --turn 0",
        JobFault::Range,
        "--turn 0 isn't 1 to 1000000: give another, or leave it out\nckrt: Range\n",
    ),
    (
        "drive d --turn 1000001",
        JobFault::Range,
        "--turn 1000001 isn't 1 to 1000000: give another, or leave it out\nckrt: Range\n",
    ),
    (
        "drive d --rounds-per-commit 0",
        JobFault::Range,
        "--rounds-per-commit 0 isn't 1 or more: give another, or leave it out\nckrt: Range\n",
    ),
    (
        "drive d --progress 0",
        JobFault::Range,
        "--progress 0 isn't 1 or more: give another, or leave it out\nckrt: Range\n",
    ),
    (
        "drive d --output o --from 1",
        JobFault::Range,
        "--from doesn't go with --output: give another, or leave it out\nckrt: Range\n",
    ),
    (
        "drive d --input-from 1",
        JobFault::Range,
        "--input-from is below 2^62, and goes with --input: give another, or leave it out\nckrt: Range\n",
    ),
    (
        "calls d --from 2 --to 1",
        JobFault::Range,
        "--from is above --to: give another, or leave it out\nckrt: Range\n",
    ),
    (
        "races d --from 2 --to 1",
        JobFault::Range,
        "--from is above --to: give another, or leave it out\nckrt: Range\n",
    ),
    (
        "races d --memory 1048576 --from 2 --to 1",
        JobFault::Range,
        "--from is above --to: give another, or leave it out\nckrt: Range\n",
    ),
    (
        "races d --memory 1048575 --from 2 --to 1",
        JobFault::Range,
        "--memory 1048575 isn't 1048576 or more: give another, or leave it out\nckrt: Range\n",
    ),
    (
        "hunt i --races --memory 0",
        JobFault::Range,
        "--memory 0 isn't 1048576 or more: give another, or leave it out\nckrt: Range\n",
    ),
    (
        "hunt i --memory 1048576",
        JobFault::Range,
        "--memory goes with --races or --check alone: give another, or leave it out\nckrt: Range\n",
    ),
    (
        "hunt i --races --check",
        JobFault::Range,
        "--check doesn't go with --races: give another, or leave it out\nckrt: Range\n",
    ),
    (
        "check d --from 2 --to 1",
        JobFault::Range,
        "--from is above --to: give another, or leave it out\nckrt: Range\n",
    ),
    (
        "check d --memory 1048575",
        JobFault::Range,
        "--memory 1048575 isn't 1048576 or more: give another, or leave it out\nckrt: Range\n",
    ),
    (
        "profile d --from 2 --to 1",
        JobFault::Range,
        "--from is above --to: give another, or leave it out\nckrt: Range\n",
    ),
    (
        "timeline d --from 2 --to 1",
        JobFault::Range,
        "--from is above --to: give another, or leave it out\nckrt: Range\n",
    ),
    (
        "timeline d --width 399",
        JobFault::Range,
        "--width 399 isn't 400 to 4000: give another, or leave it out\nckrt: Range\n",
    ),
    (
        "timeline d --width 4001",
        JobFault::Range,
        "--width 4001 isn't 400 to 4000: give another, or leave it out\nckrt: Range\n",
    ),
    (
        "hunt i --seeds 1-2 --seconds 1",
        JobFault::Range,
        "--seconds doesn't go with --seeds: give another, or leave it out\nckrt: Range\n",
    ),
    (
        "hunt i --seconds 0",
        JobFault::Range,
        "--seconds isn't 1 to 31536000: give another, or leave it out\nckrt: Range\n",
    ),
    (
        "hunt i --seconds 31536001",
        JobFault::Range,
        "--seconds isn't 1 to 31536000: give another, or leave it out\nckrt: Range\n",
    ),
    (
        "hunt i --progress 0",
        JobFault::Range,
        "--progress 0 isn't 1 or more: give another, or leave it out\nckrt: Range\n",
    ),
    (
        "hunt i --seeds 2-1",
        JobFault::Range,
        "--seeds isn't FIRST-LAST, two numbers below 2^64 - 1, the first one not above the last: give another, or leave it out\nckrt: Range\n",
    ),
];

#[test]
fn numbers_are_told(rt: HostRuntime) {
    expect_told(&rt, NUMBERS);
    expect_told(&rt, UNFIT);
}
