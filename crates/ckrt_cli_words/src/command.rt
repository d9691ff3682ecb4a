//! The program's command line, for `clap`.
ghost use Rattle.std.specs.Prelude.{◌≡◌, ◌∷◌, [], IfOk, codes, false, fold, map, not, true};
ghost use Rattle.std.specs.List.{list_all};
ghost use Rattle.clap.specs.Words.{App, app_of, new_app, rule_of, with_rule, with_subcommand};
ghost use Rattle.clap.specs.declared.builder.command.Command.TheViews.{out-Command};
ghost use Rattle.ckrt_cli_words.specs.Commands.{app_with, bare_app, calls_app, check_app, ckrt_app, core_app, debug_app, drive_app, format_app, history_app, hunt_app, inspect_app, profile_app, races_app, run_app, timeline_app};

use crate::argument::{flag, names, needed, number, option, place, shadow_room, size, variable};
use crate::looking::{
    calls_command, check_command, core_command, debug_command, inspect_command, profile_command,
    races_command, timeline_command,
};
use clap::{Arg, Command};
use std::alloc::{AllocError, Global};

/// `format DISK IMAGE [--pages P] [--harts H] [--journal J] [--env NAME=VALUE]`.
fn format_command<'a>(alloc: Global) -> Result<Command<'a>, AllocError>
    ensures app { IfOk result (λ c. app_of c ≡ format_app) }
    ensures local { IfOk result (λ c. (out-Command c).has_globals ≡ false) }
{
    let arguments = format_arguments(alloc)?;
    Command::new(alloc, "format")
        .about(
            "Makes a disk with a guest that hasn't begun, as `ckrt format pi.disk pi.bin --pages 256`",
        )
        .args(arguments)
}

/// What `format` is given.
fn format_arguments<'a>(alloc: Global) -> Result<Vec<Arg<'a>>, AllocError>
    ensures app { IfOk result (λ arguments.
        fold with_rule (new_app (codes "format")) (map rule_of arguments.items)
        ≡ format_app) }
    ensures local { IfOk result (λ arguments. list_all (λ a. not a.global) arguments.items ≡ true) }
{
    let arguments = vec![in alloc;
        needed(alloc, "disk", "DISK", "The file to make a disk of"),
        needed(
            alloc,
            "image",
            "IMAGE",
            "The guest program, a flat binary linked at 0x1000"
        ),
        number(alloc, "pages", "64", "Pages of guest memory, 16 to 65536"),
        number(alloc, "harts", "1", "Harts, 1 to 8"),
        number(
            alloc,
            "journal",
            "65536",
            "Bytes of a journal, 4096 to 1048576 by 4096"
        ),
        variable(alloc),
    ]?;
    Ok(arguments)
}

/// `run DISK`.
fn run_command<'a>(alloc: Global) -> Result<Command<'a>, AllocError>
    ensures app { IfOk result (λ c. app_of c ≡ run_app) }
    ensures local { IfOk result (λ c. (out-Command c).has_globals ≡ false) }
{
    let disk = needed(alloc, "disk", "DISK", "A disk that `format` made");
    Command::new(alloc, "run")
        .about(
            "Recovers a disk and answers the lines of the standard input, as `echo 'tick 1' | ckrt run pi.disk`",
        )
        .arg(disk)
}

/// `hunt IMAGE` with its options: which seeds, on what machine, with what input, how long a run is, whether it is looked at for races or errors of memory and what that may take, whether outputs tell outcomes apart, which rows its table has, where runs are kept, where its table is, how often it tells how far it is, and where names are.
fn hunt_command<'a>(alloc: Global) -> Result<Command<'a>, AllocError>
    ensures app { IfOk result (λ c. app_of c ≡ hunt_app) }
    ensures local { IfOk result (λ c. (out-Command c).has_globals ≡ false) }
{
    let arguments = hunt_arguments(alloc)?;
    Command::new(alloc, "hunt")
        .about(
            "Runs a guest by one schedule after another and tells what they come to, as `ckrt hunt pi.bin --seeds 1-200`",
        )
        .args(arguments)
}

/// What `hunt` is given.
fn hunt_arguments<'a>(alloc: Global) -> Result<Vec<Arg<'a>>, AllocError>
    ensures app { IfOk result (λ arguments.
        fold with_rule (new_app (codes "hunt")) (map rule_of arguments.items) ≡ hunt_app) }
    ensures local { IfOk result (λ arguments. list_all (λ a. not a.global) arguments.items ≡ true) }
{
    let arguments = vec![in alloc;
        needed(
            alloc,
            "image",
            "IMAGE",
            "The guest program, a flat binary linked at 0x1000"
        ),
        option(
            alloc,
            "seeds",
            "A-B",
            "The first and the last seed, each with a schedule of its own; 1-200 without it"
        ),
        place(
            alloc,
            "seconds",
            "S",
            "Take seeds from 1 on until S seconds have passed, 1 to 31536000; not with --seeds"
        ),
        number(
            alloc,
            "pages",
            "64",
            "Pages of the memory of each run, 16 to 65536"
        ),
        number(alloc, "harts", "1", "Harts, 1 to 8"),
        option(
            alloc,
            "input",
            "FILE",
            "The file whose bytes, at most 1048576, and then its end, are the input of each run"
        ),
        number(
            alloc,
            "steps",
            "10000000",
            "Steps of a run, and its events, at most"
        ),
        flag(
            alloc,
            "races",
            "Tell which accesses of two threads raced in some run, and in how many"
        ),
        flag(
            alloc,
            "check",
            "Tell which errors of memory some run had, and how many runs; not with --races"
        ),
        shadow_room(alloc),
        flag(
            alloc,
            "ignore-output",
            "Count outcomes that differ in their output alone as one"
        ),
        flag(
            alloc,
            "rows",
            "Tell each output of exit 0, where there are more than three, as tables have to be that are joined"
        ),
        option(
            alloc,
            "keep",
            "DISK",
            "A new disk for a run that comes to what the first seed comes to, in few switches, but with --races or --check as that was drawn; FOLDER/ keeps each outcome in that folder"
        ),
        option(
            alloc,
            "table",
            "FILE",
            "Have the table so far in this file while the hunt runs; not with --races or --check"
        ),
        place(
            alloc,
            "progress",
            "SECONDS",
            "Tell how far it is, at most once in so many seconds, 1 or more"
        ),
        names(alloc),
        variable(alloc),
    ]?;
    Ok(arguments)
}

/// `history FILE [--disk DISK | --part PART --from K [--to K]]`.
fn history_command<'a>(alloc: Global) -> Result<Command<'a>, AllocError>
    ensures app { IfOk result (λ c. app_of c ≡ history_app) }
    ensures local { IfOk result (λ c. (out-Command c).has_globals ≡ false) }
{
    let arguments = history_arguments(alloc)?;
    Command::new(alloc, "history")
        .about(
            "Keeps all events of a disk in a file, tells how far that goes, or makes a part of it, as `ckrt history pi.history --disk pi.disk`",
        )
        .args(arguments)
}

/// What `history` is given.
fn history_arguments<'a>(alloc: Global) -> Result<Vec<Arg<'a>>, AllocError>
    ensures app { IfOk result (λ arguments.
        fold with_rule (new_app (codes "history")) (map rule_of arguments.items)
        ≡ history_app) }
    ensures local { IfOk result (λ arguments. list_all (λ a. not a.global) arguments.items ≡ true) }
{
    let arguments = vec![in alloc;
        needed(
            alloc,
            "file",
            "FILE",
            "The history; with --disk it is made where it is missing"
        ),
        option(
            alloc,
            "disk",
            "DISK",
            "Begin the history from this disk, or append what it lacks of the disk's events"
        ),
        option(
            alloc,
            "part",
            "PART",
            "Make a history of this path with a part of the events of FILE; not with --disk"
        ),
        place(
            alloc,
            "from",
            "K",
            "Begin the part after K events; with --part alone, which wants it"
        ),
        place(
            alloc,
            "to",
            "K",
            "End the part after K events, not at the last one; with --part alone"
        ),
    ]?;
    Ok(arguments)
}

/// `drive DISK` with its options: how a missing disk is made, where input, output and history are, how that is kept, how the drive goes on, and where names are.
fn drive_command<'a>(alloc: Global) -> Result<Command<'a>, AllocError>
    ensures app { IfOk result (λ c. app_of c ≡ drive_app) }
    ensures local { IfOk result (λ c. (out-Command c).has_globals ≡ false) }
{
    let arguments = drive_arguments(alloc)?;
    Command::new(alloc, "drive")
        .about(
            "Runs a guest to its end; killed, the same command goes on, as `ckrt drive pi.disk --image pi.bin --output pi.txt`",
        )
        .args(arguments)
}

/// What `drive` is given.
fn drive_arguments<'a>(alloc: Global) -> Result<Vec<Arg<'a>>, AllocError>
    ensures app { IfOk result (λ arguments.
        fold with_rule (new_app (codes "drive")) (map rule_of arguments.items)
        ≡ drive_app) }
    ensures local { IfOk result (λ arguments. list_all (λ a. not a.global) arguments.items ≡ true) }
{
    let arguments = vec![in alloc;
        needed(
            alloc,
            "disk",
            "DISK",
            "A disk; where it is missing, --image makes it"
        ),
        option(
            alloc,
            "image",
            "IMAGE",
            "The guest program that the disk is made with where it is missing"
        ),
        size(
            alloc,
            "pages",
            "Pages of guest memory, 16 to 65536; 64 for a disk that is made"
        ),
        size(alloc, "harts", "Harts, 1 to 8; 1 for a disk that is made"),
        size(
            alloc,
            "journal",
            "Bytes of a journal, 4096 to 1048576 by 4096; 65536 for a disk that is made"
        ),
        option(
            alloc,
            "input",
            "FILE",
            "The file whose bytes, and then its end, are the program's input, each given once over all drives of the disk"
        ),
        place(
            alloc,
            "input-from",
            "OFFSET",
            "Where the input goes on, with --input; only for a disk that can't tell"
        ),
        option(
            alloc,
            "output",
            "FILE",
            "The file to put the program's output in, each byte at its offset; the standard output without it"
        ),
        option(
            alloc,
            "history",
            "FILE",
            "The file to keep all events of the disk in, batch by batch; it is made where it is missing"
        ),
        place(
            alloc,
            "snapshots",
            "SECONDS",
            "Make a snapshot of the history in FILE.snapshots, at most once in so many seconds, 1 or more; with --history"
        ),
        flag(
            alloc,
            "history-may-end",
            "Go on without the history where its file fails, as on a full file system; with --history"
        ),
        number(
            alloc,
            "turn",
            "1000000",
            "Steps of a thread's turn on a hart, 1 to 1000000"
        ),
        number(
            alloc,
            "rounds-per-commit",
            "16",
            "Rounds of turns between two commits, 1 or more"
        ),
        place(alloc, "events", "N", "End after N events"),
        place(
            alloc,
            "seed",
            "S",
            "Draw the hart and the steps of each turn at random, by this seed"
        ),
        flag(
            alloc,
            "other-schedule",
            "Go by this --turn and --seed where the disk notes others; the output may then be another"
        ),
        place(
            alloc,
            "progress",
            "SECONDS",
            "Tell how far it is, at most once in so many seconds, 1 or more"
        ),
        option(
            alloc,
            "status",
            "FILE",
            "Rewrite FILE at most every 10 seconds with how far the drive is, in the text format of Prometheus"
        ),
        place(
            alloc,
            "from",
            "OFFSET",
            "Leave out the output below this offset, on the standard output"
        ),
        names(alloc),
        variable(alloc),
    ]?;
    Ok(arguments)
}

/// The program without a command.
fn bare_command<'a>(alloc: Global) -> Result<Command<'a>, AllocError>
    ensures app { IfOk result (λ c. app_of c ≡ bare_app) }
    ensures local { IfOk result (λ c. (out-Command c).has_globals ≡ false) }
{
    Command::new(alloc, "ckrt")
        .about(
            "Checkpoint and restart of pthread programs; without words it serves a stored program in memory, and `--version` tells the version",
        )
        .no_binary_name(true)
        .disable_help_subcommand(true)
        .subcommand_required(true)
        .bin_name("ckrt")
}

/// A command with one more below it, where that one could be made.
fn with_command<'a>(
    whole: Command<'a>,
    made: Result<Command<'a>, AllocError>,
) -> Result<Command<'a>, AllocError>
    requires local { IfOk made (λ c. (out-Command c).has_globals ≡ false) }
    ensures { IfOk result (λ r.
        (app : App) → IfOk made.entry (λ c. app_of c ≡ app)
        → app_of r ≡ with_subcommand (app_of whole.entry) app.top) }
{
    match made {
        Ok(command) => whole.subcommand(command),
        Err(fault) => {
            drop(whole);
            Err(fault)
        }
    }
}

/// The program with the commands that begin a disk and serve it, `format` and `run`.
fn command_on_disks<'a>(alloc: Global) -> Result<Command<'a>, AllocError>
    ensures { IfOk result (λ c. app_of c ≡ app_with (format_app ∷ run_app ∷ [])) }
{
    let bare = bare_command(alloc)?;
    let with_format = with_command(bare, format_command(alloc))?;
    with_command(with_format, run_command(alloc))
}

/// The program with these, `inspect` and `drive`.
fn command_with_drive<'a>(alloc: Global) -> Result<Command<'a>, AllocError>
    ensures { IfOk result (λ c.
        app_of c ≡ app_with (format_app ∷ run_app ∷ inspect_app ∷ drive_app ∷ [])) }
{
    let with_run = command_on_disks(alloc)?;
    let with_inspect = with_command(with_run, inspect_command(alloc))?;
    with_command(with_inspect, drive_command(alloc))
}

/// The program with these, `core` and `calls`.
fn command_with_calls<'a>(alloc: Global) -> Result<Command<'a>, AllocError>
    ensures { IfOk result (λ c.
        app_of c ≡ app_with
        (format_app ∷ run_app ∷ inspect_app ∷ drive_app ∷ core_app ∷ calls_app ∷ [])) }
{
    let with_drive = command_with_drive(alloc)?;
    let with_core = with_command(with_drive, core_command(alloc))?;
    with_command(with_core, calls_command(alloc))
}

/// The program with these, `debug` and `races`.
fn command_with_races<'a>(alloc: Global) -> Result<Command<'a>, AllocError>
    ensures { IfOk result (λ c.
        app_of c ≡ app_with
        (format_app ∷ run_app ∷ inspect_app ∷ drive_app ∷ core_app ∷ calls_app ∷ debug_app
        ∷ races_app ∷ [])) }
{
    let with_calls = command_with_calls(alloc)?;
    let with_debug = with_command(with_calls, debug_command(alloc))?;
    with_command(with_debug, races_command(alloc))
}

/// The program with these, `timeline` and `profile`.
fn command_with_profile<'a>(alloc: Global) -> Result<Command<'a>, AllocError>
    ensures { IfOk result (λ c.
        app_of c ≡ app_with
        (format_app ∷ run_app ∷ inspect_app ∷ drive_app ∷ core_app ∷ calls_app ∷ debug_app
        ∷ races_app ∷ timeline_app ∷ profile_app ∷ [])) }
{
    let with_races = command_with_races(alloc)?;
    let with_timeline = with_command(with_races, timeline_command(alloc))?;
    with_command(with_timeline, profile_command(alloc))
}

/// The program with these, `hunt` and `check`.
fn command_with_check<'a>(alloc: Global) -> Result<Command<'a>, AllocError>
    ensures { IfOk result (λ c.
        app_of c ≡ app_with
        (format_app ∷ run_app ∷ inspect_app ∷ drive_app ∷ core_app ∷ calls_app ∷ debug_app
        ∷ races_app ∷ timeline_app ∷ profile_app ∷ hunt_app ∷ check_app ∷ [])) }
{
    let with_profile = command_with_profile(alloc)?;
    let with_hunt = with_command(with_profile, hunt_command(alloc))?;
    with_command(with_hunt, check_command(alloc))
}

/// The program's command line: with these, `history`.
pub(crate) fn command<'a>(alloc: Global) -> Result<Command<'a>, AllocError>
    ensures { IfOk result (λ c. app_of c ≡ ckrt_app) }
{
    let with_check = command_with_check(alloc)?;
    with_command(with_check, history_command(alloc))
}
