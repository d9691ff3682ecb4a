//! The schedule that a disk notes, over real files.

use crate::program::Step::{Ends, EndsWith, Fails, Prints, Remove, Write};
use crate::program::{Step, play};
use ckrt_test_storage::IMAGE;

/// The listing of the program that hasn't begun, of a disk that notes no schedule.
const UNNOTED: &str =
    "events 0\nclock 0\nstatus running\nhart 0 idle\nthread 1 joinable ready pc 00001000 enabled deferred none handlers 0\nprogram 0e6376304a4316bffed9623510f220e728ef4485ff15af18d591aff9d191d3e4 24\n";

const NOTED: &str =
    "events 0\nclock 0\nstatus running\nhart 0 idle\nthread 1 joinable ready pc 00001000 enabled deferred none handlers 0\nprogram 0e6376304a4316bffed9623510f220e728ef4485ff15af18d591aff9d191d3e4 24\nschedule 7 5\n";

const ANOTHER: &str =
    "events 0\nclock 0\nstatus running\nhart 0 idle\nthread 1 joinable ready pc 00001000 enabled deferred none handlers 0\nprogram 0e6376304a4316bffed9623510f220e728ef4485ff15af18d591aff9d191d3e4 24\nschedule 1000000\n";

const OTHER_TURN: &str =
    "the disk scheduled_a.disk: it goes by --turn 7 --seed 5, and these words ask for --turn 8 --seed 5: give those of the disk; or add --other-schedule to go on by the new one, by which the output may be another; to begin anew remove disk and output\nckrt: ScheduleDiffers\n";

const OTHER_SEED: &str =
    "the disk scheduled_a.disk: it goes by --turn 7 --seed 5, and these words ask for --turn 7 --seed 6: give those of the disk; or add --other-schedule to go on by the new one, by which the output may be another; to begin anew remove disk and output\nckrt: ScheduleDiffers\n";

const NO_SEED: &str =
    "the disk scheduled_a.disk: it goes by --turn 7 --seed 5, and these words ask for --turn 7: give those of the disk; or add --other-schedule to go on by the new one, by which the output may be another; to begin anew remove disk and output\nckrt: ScheduleDiffers\n";

const ITS_OWN: &str =
    "the disk scheduled_a.disk: it goes by --turn 1000000, and these words ask for --turn 7 --seed 5: give those of the disk; or add --other-schedule to go on by the new one, by which the output may be another; to begin anew remove disk and output\nckrt: ScheduleDiffers\n";

/// A drive notes its schedule on a disk that notes none, and another one is taken by its word alone. The first note is in use, then the second
/// one, then the first one again.
const SCHEDULES: &[Step] = &[
    Write("scheduled_a.img", &IMAGE),
    Prints(
        "format scheduled_a.disk scheduled_a.img --pages 16 --journal 4096",
        "",
        "formatted 348160\n",
    ),
    Prints("inspect scheduled_a.disk", "", UNNOTED),
    Ends(
        "drive scheduled_a.disk --turn 7 --seed 5 --events 0",
        "",
        "enough\n",
        5,
    ),
    Prints("inspect scheduled_a.disk", "", NOTED),
    Fails("drive scheduled_a.disk --turn 8 --seed 5", OTHER_TURN),
    Fails("drive scheduled_a.disk --turn 7 --seed 6", OTHER_SEED),
    Fails("drive scheduled_a.disk --turn 7", NO_SEED),
    Prints("inspect scheduled_a.disk", "", NOTED),
    Ends(
        "drive scheduled_a.disk --turn 7 --seed 5 --events 0",
        "",
        "enough\n",
        5,
    ),
    Ends(
        "drive scheduled_a.disk --other-schedule --events 0",
        "",
        "enough\n",
        5,
    ),
    Prints("inspect scheduled_a.disk", "", ANOTHER),
    Fails("drive scheduled_a.disk --turn 7 --seed 5", ITS_OWN),
    Ends(
        "drive scheduled_a.disk --turn 7 --seed 5 --other-schedule --events 0",
        "",
        "enough\n",
        5,
    ),
    Prints("inspect scheduled_a.disk", "", NOTED),
    Ends(
        "drive scheduled_a.disk --turn 7 --seed 5",
        "A",
        "ended: exit 0\n",
        0,
    ),
    EndsWith("scheduled_a.disk", 348_160, &[]),
    Remove("scheduled_a.disk"),
    Remove("scheduled_a.img"),
];

#[test]
fn a_disk_notes_its_schedule(rt: HostRuntime) {
    play(&rt, SCHEDULES);
}
