//! The commands that only look at a disk or a history, for `clap`.
ghost use Rattle.std.specs.Prelude.{◌≡◌, IfOk, codes, false, fold, map, not, true};
ghost use Rattle.std.specs.List.{list_all};
ghost use Rattle.clap.specs.Words.{App, app_of, new_app, rule_of, with_rule};
ghost use Rattle.clap.specs.declared.builder.command.Command.TheViews.{out-Command};
ghost use Rattle.ckrt_cli_words.specs.Commands.{calls_app, check_app, core_app, debug_app, flag_rule, inspect_app, place_rule, profile_app, races_app, shadow_app, stretch_app, timeline_app};

use crate::argument::{flag, names, needed, number, place, shadow_room};
use clap::{Arg, Command};
use std::alloc::{AllocError, Global};

/// `inspect DISK [--history] [--at K] [--code] [--names FILE]`.
pub(crate) fn inspect_command<'a>(alloc: Global) -> Result<Command<'a>, AllocError>
    ensures app { IfOk result (λ c. app_of c ≡ inspect_app) }
    ensures local { IfOk result (λ c. (out-Command c).has_globals ≡ false) }
{
    let arguments = inspect_arguments(alloc)?;
    Command::new(alloc, "inspect")
        .about("Shows a stopped guest, and changes nothing, as `ckrt inspect pi.disk --at 50`")
        .args(arguments)
}

/// What `inspect` is given.
fn inspect_arguments<'a>(alloc: Global) -> Result<Vec<Arg<'a>>, AllocError>
    ensures app { IfOk result (λ arguments.
        fold with_rule (new_app (codes "inspect")) (map rule_of arguments.items)
        ≡ inspect_app) }
    ensures local { IfOk result (λ arguments. list_all (λ a. not a.global) arguments.items ≡ true) }
{
    let arguments = vec![in alloc;
        needed(alloc, "disk", "DISK", "A disk that `format` made"),
        of_history(alloc),
        place(
            alloc,
            "at",
            "K",
            "Show it after K events, not after the last one"
        ),
        flag(alloc, "code", "Show each thread's next instructions"),
        names(alloc),
    ]?;
    Ok(arguments)
}

/// `core DISK FILE [--history] [--at K]`.
pub(crate) fn core_command<'a>(alloc: Global) -> Result<Command<'a>, AllocError>
    ensures app { IfOk result (λ c. app_of c ≡ core_app) }
    ensures local { IfOk result (λ c. (out-Command c).has_globals ≡ false) }
{
    let arguments = core_arguments(alloc)?;
    Command::new(alloc, "core")
        .about(
            "Writes a stopped guest as an ELF core for gdb, as `ckrt core pi.disk pi.core --at 50`",
        )
        .args(arguments)
}

/// What `core` is given.
fn core_arguments<'a>(alloc: Global) -> Result<Vec<Arg<'a>>, AllocError>
    ensures app { IfOk result (λ arguments.
        fold with_rule (new_app (codes "core")) (map rule_of arguments.items) ≡ core_app) }
    ensures local { IfOk result (λ arguments. list_all (λ a. not a.global) arguments.items ≡ true) }
{
    let arguments = vec![in alloc;
        needed(alloc, "disk", "DISK", "A disk that `format` made"),
        needed(
            alloc,
            "file",
            "FILE",
            "The core; nothing but an empty file or another core is replaced"
        ),
        of_history(alloc),
        place(
            alloc,
            "at",
            "K",
            "Write the guest as it was after K events, not after the last one"
        ),
    ]?;
    Ok(arguments)
}

/// `calls DISK` with the options of a stretch.
pub(crate) fn calls_command<'a>(alloc: Global) -> Result<Command<'a>, AllocError>
    ensures app { IfOk result (λ c. app_of c ≡ calls_app) }
    ensures local { IfOk result (λ c. (out-Command c).has_globals ≡ false) }
{
    let arguments = stretch_arguments(alloc)?;
    Command::new(alloc, "calls")
        .about(
            "Tells the calls of a stopped guest, a line each, and changes nothing, as `ckrt calls pi.disk --from 40`",
        )
        .args(arguments)
}

/// Whether a history stands in the place of a disk.
fn of_history<'a>(alloc: Global) -> Arg<'a>
    ensures rule { rule_of result ≡ flag_rule (codes "history") }
    ensures local { result.global ≡ false }
{
    flag(
        alloc,
        "history",
        "DISK is a history, as `ckrt drive --history` keeps it",
    )
}

/// Where a stretch begins.
fn beginning<'a>(alloc: Global) -> Arg<'a>
    ensures rule { rule_of result ≡ place_rule (codes "from") }
    ensures local { result.global ≡ false }
{
    place(
        alloc,
        "from",
        "K",
        "Begin after K events, not at the first one that the disk has",
    )
}

/// Where a stretch ends.
fn end<'a>(alloc: Global) -> Arg<'a>
    ensures rule { rule_of result ≡ place_rule (codes "to") }
    ensures local { result.global ≡ false }
{
    place(alloc, "to", "K", "End after K events, not at the last one")
}

/// How many events of a stretch are told.
fn latest<'a>(alloc: Global) -> Arg<'a>
    ensures rule { rule_of result ≡ place_rule (codes "last") }
    ensures local { result.global ≡ false }
{
    place(alloc, "last", "N", "Only the last N events of these")
}

/// The words of a stretch of what a disk has recorded.
fn stretch_arguments<'a>(alloc: Global) -> Result<Vec<Arg<'a>>, AllocError>
    ensures app { IfOk result (λ arguments. (named : App)
        → fold with_rule named (map rule_of arguments.items) ≡ stretch_app named) }
    ensures local { IfOk result (λ arguments. list_all (λ a. not a.global) arguments.items ≡ true) }
{
    let arguments = vec![in alloc;
        needed(alloc, "disk", "DISK", "A disk that `format` made"),
        of_history(alloc),
        beginning(alloc),
        end(alloc),
        latest(alloc),
        names(alloc),
    ]?;
    Ok(arguments)
}

/// The words of a stretch that is looked at with a shadow.
fn shadow_arguments<'a>(alloc: Global) -> Result<Vec<Arg<'a>>, AllocError>
    ensures app { IfOk result (λ arguments. (named : App)
        → fold with_rule named (map rule_of arguments.items) ≡ shadow_app named) }
    ensures local { IfOk result (λ arguments. list_all (λ a. not a.global) arguments.items ≡ true) }
{
    let arguments = vec![in alloc;
        needed(alloc, "disk", "DISK", "A disk that `format` made"),
        of_history(alloc),
        beginning(alloc),
        end(alloc),
        latest(alloc),
        names(alloc),
        shadow_room(alloc),
    ]?;
    Ok(arguments)
}

/// `debug DISK [--history] [--at K]`.
pub(crate) fn debug_command<'a>(alloc: Global) -> Result<Command<'a>, AllocError>
    ensures app { IfOk result (λ c. app_of c ≡ debug_app) }
    ensures local { IfOk result (λ c. (out-Command c).has_globals ≡ false) }
{
    let arguments = debug_arguments(alloc)?;
    Command::new(alloc, "debug")
        .about(
            "Serves a stopped guest to gdb, forward and back, and changes nothing, as `target remote | ckrt debug pi.disk`",
        )
        .args(arguments)
}

/// What `debug` is given.
fn debug_arguments<'a>(alloc: Global) -> Result<Vec<Arg<'a>>, AllocError>
    ensures app { IfOk result (λ arguments.
        fold with_rule (new_app (codes "debug")) (map rule_of arguments.items) ≡ debug_app) }
    ensures local { IfOk result (λ arguments. list_all (λ a. not a.global) arguments.items ≡ true) }
{
    let arguments = vec![in alloc;
        needed(alloc, "disk", "DISK", "A disk that `format` made"),
        of_history(alloc),
        place(
            alloc,
            "at",
            "K",
            "Begin after K events, not at the first one that the disk has"
        ),
    ]?;
    Ok(arguments)
}

/// `races DISK` with the options of a stretch, and of a shadow.
pub(crate) fn races_command<'a>(alloc: Global) -> Result<Command<'a>, AllocError>
    ensures app { IfOk result (λ c. app_of c ≡ races_app) }
    ensures local { IfOk result (λ c. (out-Command c).has_globals ≡ false) }
{
    let arguments = shadow_arguments(alloc)?;
    Command::new(alloc, "races")
        .about(
            "Tells the data races of a stopped guest, and changes nothing, as `ckrt races pi.disk`",
        )
        .args(arguments)
}

/// `check DISK` with the options of a stretch, and of a shadow.
pub(crate) fn check_command<'a>(alloc: Global) -> Result<Command<'a>, AllocError>
    ensures app { IfOk result (λ c. app_of c ≡ check_app) }
    ensures local { IfOk result (λ c. (out-Command c).has_globals ≡ false) }
{
    let arguments = shadow_arguments(alloc)?;
    Command::new(alloc, "check")
        .about(
            "Tells the errors of memory of a stopped guest, and changes nothing, as `ckrt check pi.disk`",
        )
        .args(arguments)
}

/// `timeline DISK` with its options.
pub(crate) fn timeline_command<'a>(alloc: Global) -> Result<Command<'a>, AllocError>
    ensures app { IfOk result (λ c. app_of c ≡ timeline_app) }
    ensures local { IfOk result (λ c. (out-Command c).has_globals ≡ false) }
{
    let arguments = timeline_arguments(alloc)?;
    Command::new(alloc, "timeline")
        .about(
            "Draws what the threads of a stopped guest did, and changes nothing, as `ckrt timeline pi.disk > pi.svg`",
        )
        .args(arguments)
}

/// What `timeline` is given.
fn timeline_arguments<'a>(alloc: Global) -> Result<Vec<Arg<'a>>, AllocError>
    ensures app { IfOk result (λ arguments.
        fold with_rule (new_app (codes "timeline")) (map rule_of arguments.items)
        ≡ timeline_app) }
    ensures local { IfOk result (λ arguments. list_all (λ a. not a.global) arguments.items ≡ true) }
{
    let arguments = vec![in alloc;
        needed(alloc, "disk", "DISK", "A disk that `format` made"),
        of_history(alloc),
        beginning(alloc),
        end(alloc),
        latest(alloc),
        names(alloc),
        number(
            alloc,
            "width",
            "1200",
            "Pixels of the picture's width, 400 to 4000"
        ),
        flag(
            alloc,
            "json",
            "Write trace events for Perfetto in place of a picture"
        ),
    ]?;
    Ok(arguments)
}

/// `profile DISK` with its options.
pub(crate) fn profile_command<'a>(alloc: Global) -> Result<Command<'a>, AllocError>
    ensures app { IfOk result (λ c. app_of c ≡ profile_app) }
    ensures local { IfOk result (λ c. (out-Command c).has_globals ≡ false) }
{
    let arguments = profile_arguments(alloc)?;
    Command::new(alloc, "profile")
        .about(
            "Counts where the steps and waits of a stopped guest went, and changes nothing, as `ckrt profile pi.disk`",
        )
        .args(arguments)
}

/// What `profile` is given.
fn profile_arguments<'a>(alloc: Global) -> Result<Vec<Arg<'a>>, AllocError>
    ensures app { IfOk result (λ arguments.
        fold with_rule (new_app (codes "profile")) (map rule_of arguments.items)
        ≡ profile_app) }
    ensures local { IfOk result (λ arguments. list_all (λ a. not a.global) arguments.items ≡ true) }
{
    let arguments = vec![in alloc;
        needed(alloc, "disk", "DISK", "A disk that `format` made"),
        of_history(alloc),
        beginning(alloc),
        end(alloc),
        latest(alloc),
        names(alloc),
        flag(
            alloc,
            "folded",
            "Write a line for each stack, for flame graphs; not with --callgrind"
        ),
        flag(
            alloc,
            "callgrind",
            "Write it as callgrind does, for kcachegrind; not with --folded"
        ),
    ]?;
    Ok(arguments)
}
