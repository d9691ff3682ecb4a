//! The program that the benches measure, whose growths of memory are refused one by one, and which compares outside vectors. It
//! does the jobs of its words in turn, and writes times to standard error.
//!
//! - `ckrt_bench_probe run IMAGE PAGES HARTS STEPS` runs a guest on the machine.
//! - `ckrt_bench_probe feed IMAGE PAGES HARTS STEPS INPUT` does so with a file as the guest's input.
//! - `ckrt_bench_probe append FILE BYTES COUNT` appends to a journal on a real file.
//! - `ckrt_bench_probe decode COUNT` reads and decodes a full journal in memory.
//! - `ckrt_bench_probe save FILE HARTS COUNT` decodes and encodes saved tables.
//! - `ckrt_bench_probe recover FILE` recovers a disk.
//! - `ckrt_bench_probe checkpoint FILE COUNT` recovers a disk and makes checkpoints.
//! - `ckrt_bench_probe changed FILE COUNT` makes checkpoints of a disk of the guest `stores-4`, with four changed pages each.
//! - `ckrt_bench_probe unchanged FILE COUNT` makes checkpoints with no changed page.
//! - `ckrt_bench_probe recorded FILE COUNT` and `recorded-changed FILE COUNT` make checkpoints as a drive with an input does: each after a
//!   commit, and with its record; of all pages of `stores-4`, and as `changed` does.
//! - `ckrt_bench_probe grow` formats a disk and recovers it, and says which growth of memory was refused, if one was.
//! - `ckrt_bench_probe tables` decodes saved tables, and says whether a growth of memory was refused.
//! - `ckrt_bench_probe lives` runs lives of one program, and says whether a growth of memory was refused.
//! - `ckrt_bench_probe vectors` compares outside vectors, which lie in the folder that it is run in.
#![tactic(auto)]

mod disk;
mod growth;
mod journal;
mod lives;
mod run;
mod saved;
mod vector_tables;
mod vectors;

use crate::disk::{
    time_changed, time_checkpoints, time_recorded_changed, time_recorded_checkpoints,
    time_recovery, time_unchanged,
};
use crate::growth::{report, report_tables};
use crate::journal::{time_appends, time_decoding};
use crate::lives::report_lives;
use crate::run::{shape_of, time_fed, time_run};
use crate::saved::time_tables;
use crate::vectors::compare_vectors;
use anyhow::{Context, Result, bail};
use std::env;

const USAGE: &str =
    "usage: ckrt_bench_probe (run IMAGE PAGES HARTS STEPS | feed IMAGE PAGES HARTS STEPS INPUT | append FILE BYTES COUNT | decode COUNT | save FILE HARTS COUNT | recover FILE | checkpoint FILE COUNT | changed FILE COUNT | unchanged FILE COUNT | recorded FILE COUNT | recorded-changed FILE COUNT | grow | tables | lives | vectors)...";

fn number(word: &str) -> Result<u32> {
    word.parse::<u32>().context(USAGE)
}

/// Each job answers the words after its own.
type Rest<'a> = Result<&'a [String]>;

fn run_guest<'a>(rt: &HostRuntime, words: &'a [String]) -> Rest<'a> {
    let [image, pages, harts, steps, rest @ ..] = words else {
        bail!(USAGE);
    };
    let shape = shape_of(number(pages)?, number(harts)?, number(steps)?)?;
    time_run(rt, image, shape)?;
    Ok(rest)
}

fn feed_guest<'a>(rt: &HostRuntime, words: &'a [String]) -> Rest<'a> {
    let [image, pages, harts, steps, input, rest @ ..] = words else {
        bail!(USAGE);
    };
    let shape = shape_of(number(pages)?, number(harts)?, number(steps)?)?;
    time_fed(rt, image, shape, input)?;
    Ok(rest)
}

fn append<'a>(rt: &HostRuntime, words: &'a [String]) -> Rest<'a> {
    let [path, bytes, count, rest @ ..] = words else {
        bail!(USAGE);
    };
    time_appends(rt, path, number(bytes)? as usize, number(count)?)?;
    Ok(rest)
}

fn decode<'a>(rt: &HostRuntime, words: &'a [String]) -> Rest<'a> {
    let [count, rest @ ..] = words else {
        bail!(USAGE);
    };
    time_decoding(rt, number(count)?)?;
    Ok(rest)
}

fn save<'a>(rt: &HostRuntime, words: &'a [String]) -> Rest<'a> {
    let [path, harts, count, rest @ ..] = words else {
        bail!(USAGE);
    };
    time_tables(rt, path, number(harts)? as usize, number(count)?)?;
    Ok(rest)
}

fn recover<'a>(rt: &HostRuntime, words: &'a [String]) -> Rest<'a> {
    let [path, rest @ ..] = words else {
        bail!(USAGE);
    };
    time_recovery(rt, path)?;
    Ok(rest)
}

fn checkpoint<'a>(rt: &HostRuntime, words: &'a [String]) -> Rest<'a> {
    let [path, count, rest @ ..] = words else {
        bail!(USAGE);
    };
    time_checkpoints(rt, path, number(count)?)?;
    Ok(rest)
}

fn change<'a>(rt: &HostRuntime, words: &'a [String]) -> Rest<'a> {
    let [path, count, rest @ ..] = words else {
        bail!(USAGE);
    };
    time_changed(rt, path, number(count)?)?;
    Ok(rest)
}

fn keep<'a>(rt: &HostRuntime, words: &'a [String]) -> Rest<'a> {
    let [path, count, rest @ ..] = words else {
        bail!(USAGE);
    };
    time_unchanged(rt, path, number(count)?)?;
    Ok(rest)
}

fn save_recorded<'a>(rt: &HostRuntime, words: &'a [String]) -> Rest<'a> {
    let [path, count, rest @ ..] = words else {
        bail!(USAGE);
    };
    time_recorded_checkpoints(rt, path, number(count)?)?;
    Ok(rest)
}

fn change_recorded<'a>(rt: &HostRuntime, words: &'a [String]) -> Rest<'a> {
    let [path, count, rest @ ..] = words else {
        bail!(USAGE);
    };
    time_recorded_changed(rt, path, number(count)?)?;
    Ok(rest)
}

fn grow<'a>(rt: &HostRuntime, words: &'a [String]) -> Rest<'a> {
    println!(rt; "{}", report(rt.alloc()))?;
    Ok(words)
}

fn tables<'a>(rt: &HostRuntime, words: &'a [String]) -> Rest<'a> {
    println!(rt; "{}", report_tables(rt.alloc()))?;
    Ok(words)
}

fn live<'a>(rt: &HostRuntime, words: &'a [String]) -> Rest<'a> {
    println!(rt; "{}", report_lives(rt.alloc()))?;
    Ok(words)
}

fn compare<'a>(rt: &HostRuntime, words: &'a [String]) -> Rest<'a> {
    compare_vectors(rt)?;
    Ok(words)
}

/// Does the first job that the words ask for.
fn probe<'a>(rt: &HostRuntime, words: &'a [String]) -> Rest<'a> {
    let [verb, rest @ ..] = words else {
        bail!(USAGE);
    };
    match verb.as_str() {
        "run" => run_guest(rt, rest),
        "feed" => feed_guest(rt, rest),
        "append" => append(rt, rest),
        "decode" => decode(rt, rest),
        "save" => save(rt, rest),
        "recover" => recover(rt, rest),
        "checkpoint" => checkpoint(rt, rest),
        "changed" => change(rt, rest),
        "unchanged" => keep(rt, rest),
        "recorded" => save_recorded(rt, rest),
        "recorded-changed" => change_recorded(rt, rest),
        "grow" => grow(rt, rest),
        "tables" => tables(rt, rest),
        "lives" => live(rt, rest),
        "vectors" => compare(rt, rest),
        _ => bail!(USAGE),
    }
}

/// Does the jobs in turn.
fn probe_each(rt: &HostRuntime, words: &[String]) -> Result<()> {
    let mut rest = words;
    for _ in 0..words.len() {
        rest = probe(rt, rest)?;
        if rest.is_empty() {
            return Ok(());
        }
    }
    bail!(USAGE)
}

fn main(rt: HostRuntime) -> Result<()> {
    let words: Vec<String> = env::args(&rt)?.skip(1).collect(rt.alloc())?;
    probe_each(&rt, words.as_slice())
}
