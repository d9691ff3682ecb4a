//! One word or option of the command line, for `clap`.
ghost use Rattle.std.specs.Prelude.{◌≡◌, codes, false};
ghost use Rattle.clap.specs.Words.{rule_of};
ghost use Rattle.ckrt_cli_words.specs.Commands.{flag_rule, needed_rule, number_rule, option_rule, place_rule, size_rule};

use clap::{Arg, ArgAction, value_parser};
use std::alloc::Global;

/// A word that has to stand there.
pub(crate) fn needed<'a>(alloc: Global, id: &'a str, name: &'a str, help: &'a str) -> Arg<'a>
    ensures rule { rule_of result ≡ needed_rule id.entry.now }
    ensures local { result.global ≡ false }
{
    Arg::new(alloc, id)
        .value_name(name)
        .help(help)
        .required(true)
}

/// An option with a number of 32 bits, and its value where it isn't given.
pub(crate) fn number<'a>(alloc: Global, id: &'a str, default: &'a str, help: &'a str) -> Arg<'a>
    ensures rule { rule_of result ≡ number_rule id.entry.now default.entry.now }
    ensures local { result.global ≡ false }
{
    size(alloc, id, help).default_value(default)
}

/// An option with a number of 32 bits, which may be left out.
pub(crate) fn size<'a>(alloc: Global, id: &'a str, help: &'a str) -> Arg<'a>
    ensures rule { rule_of result ≡ size_rule id.entry.now }
    ensures local { result.global ≡ false }
{
    option(alloc, id, "N", help).value_parser(value_parser!(u32))
}

/// An option with a number of 64 bits, which may be left out.
pub(crate) fn place<'a>(alloc: Global, id: &'a str, name: &'a str, help: &'a str) -> Arg<'a>
    ensures rule { rule_of result ≡ place_rule id.entry.now }
    ensures local { result.global ≡ false }
{
    option(alloc, id, name, help).value_parser(value_parser!(u64))
}

/// An option with a text, which may be left out.
pub(crate) fn option<'a>(alloc: Global, id: &'a str, name: &'a str, help: &'a str) -> Arg<'a>
    ensures rule { rule_of result ≡ option_rule id.entry.now }
    ensures local { result.global ≡ false }
{
    Arg::new(alloc, id).long(id).value_name(name).help(help)
}

/// An option without a value.
pub(crate) fn flag<'a>(alloc: Global, id: &'a str, help: &'a str) -> Arg<'a>
    ensures rule { rule_of result ≡ flag_rule id.entry.now }
    ensures local { result.global ≡ false }
{
    Arg::new(alloc, id)
        .long(id)
        .action(ArgAction::SetTrue)
        .help(help)
}

/// Where names are taken from.
pub(crate) fn names<'a>(alloc: Global) -> Arg<'a>
    ensures rule { rule_of result ≡ option_rule (codes "names") }
    ensures local { result.global ≡ false }
{
    option(
        alloc,
        "names",
        "FILE",
        "Take names from FILE, not from the file of names beside the disk or the image",
    )
}

/// A variable of the environment of the program whose image is read. `clap` meets it where its value is missing: the others are taken out before,
/// since there may be several.
pub(crate) fn variable<'a>(alloc: Global) -> Arg<'a>
    ensures rule { rule_of result ≡ option_rule (codes "env") }
    ensures local { result.global ≡ false }
{
    option(
        alloc,
        "env",
        "NAME=VALUE",
        "Give the program a variable of its environment; its arguments follow --",
    )
}

/// How many bytes a shadow may take.
pub(crate) fn shadow_room<'a>(alloc: Global) -> Arg<'a>
    ensures rule { rule_of result ≡ place_rule (codes "memory") }
    ensures local { result.global ≡ false }
{
    place(
        alloc,
        "memory",
        "BYTES",
        "Bytes that the shadow of the guest's memory may take, 1048576 or more; 2349096960 without it",
    )
}
