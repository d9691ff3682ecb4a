//! The table of a profile.
ghost use Rattle.std.specs.Prelude.{◌≡◌, ◌⊎◌, IfErr, IfOk, OnOk};
ghost use Rattle.std.specs.Io.KnownBytes.{Appends};
ghost use Rattle.ckrt_look_profile.specs.Shares.{functions, ranked, thread_shares, total, wait_shares};
ghost use Rattle.ckrt_look_profile.specs.Texts.{functions_text, steps_text, table_of, table_text, threads_text, waits_text};

use crate::counts::Counts;
use crate::shares::{Share, functions_of, rank, threads_of, total_of, waits_of};
use crate::texts::{Section, write_section};
use ckrt_inspect::InspectFault;
use ckrt_look_calls::write_counted;
use std::alloc::{AllocError, Global};
use std::io;
use std::io::Write;

/// Functions, threads and waits, those with the most steps first.
#[derive(Drop)]
struct Ranks {
    functions: Vec<Share>,
    threads: Vec<Share>,
    waits: Vec<Share>,
}

/// The functions.
fn ranked_functions(alloc: Global, counts: &Counts) -> Result<Vec<Share>, AllocError>
    ensures { IfOk result (λ shares. shares.items ≡ ranked (functions counts.now.stacks.rows)) }
{
    let shares = functions_of(alloc, counts.rows())?;
    rank(alloc, shares.as_slice())
}

/// The threads.
fn ranked_threads(alloc: Global, counts: &Counts) -> Result<Vec<Share>, AllocError>
    ensures { IfOk result
        (λ shares. shares.items ≡ ranked (thread_shares counts.now.stacks.frames)) }
{
    let shares = threads_of(alloc, counts.frames())?;
    rank(alloc, shares.as_slice())
}

/// The waits.
fn ranked_waits(alloc: Global, counts: &Counts) -> Result<Vec<Share>, AllocError>
    ensures { IfOk result (λ shares. shares.items ≡ ranked (wait_shares counts.now.waits.rows)) }
{
    let shares = waits_of(alloc, counts.waited())?;
    rank(alloc, shares.as_slice())
}

/// All of them.
fn ranks_of(alloc: Global, counts: &Counts) -> Result<Ranks, AllocError>
    ensures { IfOk result (λ ranks.
        (ranks.functions.items ≡ ranked (functions counts.now.stacks.rows))
        × (ranks.threads.items ≡ ranked (thread_shares counts.now.stacks.frames))
        × (ranks.waits.items ≡ ranked (wait_shares counts.now.waits.rows))) }
{
    Ok(Ranks {
        functions: ranked_functions(alloc, counts)?,
        threads: ranked_threads(alloc, counts)?,
        waits: ranked_waits(alloc, counts)?,
    })
}

/// The first line.
#[tactic(auto, using(ckrt_look_calls::proofs::AppendLemmas::appends_both))]
fn write_steps<W: Write>(out: &mut W, all: u64) -> io::Result<()>
    ensures { OnOk result
        (Appends (W.contents out.old) (W.contents out.new) (steps_text all)) }
{
    write_counted(out, b"steps ", all)?;
    out.write_all(b"\n")
}

/// The section of functions.
fn write_functions<W: Write>(
    out: &mut W,
    all: u64,
    counts: &Counts,
    shares: &[Share],
) -> io::Result<()>
    requires { shares.now ≡ ranked (functions counts.now.stacks.rows) }
    ensures { OnOk result
        (Appends (W.contents out.old) (W.contents out.new) (functions_text all counts.now)) }
{
    let section = Section {
        head: b"function",
        shares,
        rest: counts.unkept(),
        word: b"elsewhere",
    };
    write_section(out, all, &section)
}

/// The section of threads.
fn write_threads<W: Write>(
    out: &mut W,
    all: u64,
    counts: &Counts,
    shares: &[Share],
) -> io::Result<()>
    requires { shares.now ≡ ranked (thread_shares counts.now.stacks.frames) }
    ensures { OnOk result
        (Appends (W.contents out.old) (W.contents out.new) (threads_text all counts.now)) }
{
    let section = Section {
        head: b"thread",
        shares,
        rest: 0,
        word: b"",
    };
    write_section(out, all, &section)
}

/// The section of waits.
fn write_waits<W: Write>(out: &mut W, all: u64, counts: &Counts, shares: &[Share]) -> io::Result<()>
    requires { shares.now ≡ ranked (wait_shares counts.now.waits.rows) }
    ensures { OnOk result
        (Appends (W.contents out.old) (W.contents out.new) (waits_text all counts.now)) }
{
    let section = Section {
        head: b"wait",
        shares,
        rest: counts.unkept_waits(),
        word: b"others",
    };
    write_section(out, all, &section)
}

/// The whole table.
#[tactic(auto, using(ckrt_look_calls::proofs::AppendLemmas::appends_both))]
fn write_ranks<W: Write>(out: &mut W, all: u64, counts: &Counts, ranks: &Ranks) -> io::Result<()>
    requires functions { ranks.now.functions.items
        ≡ ranked (functions counts.now.stacks.rows) }
    requires threads { ranks.now.threads.items
        ≡ ranked (thread_shares counts.now.stacks.frames) }
    requires waits { ranks.now.waits.items ≡ ranked (wait_shares counts.now.waits.rows) }
    ensures { OnOk result
        (Appends (W.contents out.old) (W.contents out.new) (table_of all counts.now)) }
{
    write_steps(out, all)?;
    write_functions(out, all, counts, ranks.functions.as_slice())?;
    write_threads(out, all, counts, ranks.threads.as_slice())?;
    write_waits(out, all, counts, ranks.waits.as_slice())
}

/// The table of what was counted.
pub(crate) fn write_table<W: Write>(
    alloc: Global,
    counts: &Counts,
    out: &mut W,
) -> Result<(), InspectFault>
    ensures table { OnOk result
        (Appends (W.contents out.old) (W.contents out.new) (table_text counts.now)) }
    ensures fault { IfErr result
        (λ e. (e ≡ InspectFault.Write) ⊎ (e ≡ InspectFault.OutOfMemory)) }
{
    let Ok(ranks) = ranks_of(alloc, counts) else {
        return Err(InspectFault::OutOfMemory);
    };
    match write_ranks(out, total_of(counts.frames()), counts, &ranks) {
        Ok(()) => Ok(()),
        Err(_) => Err(InspectFault::Write),
    }
}
