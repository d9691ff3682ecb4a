//! The second look at cycles of locks.
ghost use Rattle.std.specs.Prelude.{◌≡◌, ◌⊎◌, ◌+◌, ◌<◌, ◌^◌, length, IfErr, OnOk, Some};
ghost use Rattle.std.specs.Io.KnownBytes.{Appends};
ghost use Rattle.std.specs.List.{flat_map};
ghost use Rattle.ckrt_inspect.specs.declared.fault.InspectFault.TheVariants.{OutOfMemory, Write as Writing};
ghost use Rattle.ckrt_look_calls.specs.Replays.{IsBehind, IsSound, replay_of};
ghost use Rattle.ckrt_look_races.specs.Inversions.{callers_at, inversion_text, link_lines, orders_text, rows_text};

use crate::inversions::{
    moment_at, write_full, write_inversion_line, write_more_line, write_no_cycle, write_took_line,
};
use ckrt_inspect::InspectFault;
use ckrt_look_calls::{Cursor, Source, write_made};
use ckrt_look_clocks::{Detector, Inversion, Link};
use std::alloc::Global;
use std::io::Write;

/// Who called as a thread took its lock.
fn write_callers_at<W: Write>(
    alloc: Global,
    source: &Source<'_>,
    cursor: &mut Cursor,
    link: &Link,
    out: &mut W,
) -> Result<(), InspectFault>
    requires sound { IsSound (replay_of source.now) }
    requires behind { IsBehind (replay_of source.now) cursor.old }
    ensures written { OnOk result (Appends (W.contents out.old) (W.contents out.new)
        (callers_at link.now (replay_of source.now))) }
    ensures behind { OnOk result (IsBehind (replay_of source.now) cursor.new) }
    ensures fault { IfErr result (λ e. (e ≡ OutOfMemory) ⊎ (e ≡ Writing)) }
{
    write_made(alloc, source, cursor, &moment_at(link), out)
}

/// What a thread held, and who called.
#[tactic(auto, using(ckrt_look_calls::proofs::AppendLemmas::appends_both))]
fn write_some_link<W: Write>(
    alloc: Global,
    source: &Source<'_>,
    cursor: &mut Cursor,
    link: &Link,
    out: &mut W,
) -> Result<(), InspectFault>
    requires sound { IsSound (replay_of source.now) }
    requires behind { IsBehind (replay_of source.now) cursor.old }
    ensures written { OnOk result (Appends (W.contents out.old) (W.contents out.new)
        (link_lines (replay_of source.now) (Some link.now))) }
    ensures behind { OnOk result (IsBehind (replay_of source.now) cursor.new) }
    ensures fault { IfErr result (λ e. (e ≡ OutOfMemory) ⊎ (e ≡ Writing)) }
{
    let Ok(()) = write_took_line(out, link) else {
        return Err(InspectFault::Write);
    };
    write_callers_at(alloc, source, cursor, link, out)
}

/// The same, if there is a thread.
#[tactic(auto, using(ckrt_look_calls::proofs::AppendLemmas::appends_none))]
fn write_link<W: Write>(
    alloc: Global,
    source: &Source<'_>,
    cursor: &mut Cursor,
    link: &Option<Link>,
    out: &mut W,
) -> Result<(), InspectFault>
    requires sound { IsSound (replay_of source.now) }
    requires behind { IsBehind (replay_of source.now) cursor.old }
    ensures written { OnOk result (Appends (W.contents out.old) (W.contents out.new)
        (link_lines (replay_of source.now) link.now)) }
    ensures behind { OnOk result (IsBehind (replay_of source.now) cursor.new) }
    ensures fault { IfErr result (λ e. (e ≡ OutOfMemory) ⊎ (e ≡ Writing)) }
{
    match link {
        Some(link) => write_some_link(alloc, source, cursor, link, out),
        None => Ok(()),
    }
}

/// The same of all threads of a cycle.
#[tactic(auto, using(ckrt_look_calls::proofs::AppendLemmas::appends_none, ckrt_look_calls::proofs::AppendLemmas::appends_more, ckrt_look_calls::proofs::AppendLemmas::appends_all))]
fn write_links<W: Write>(
    alloc: Global,
    source: &Source<'_>,
    cursor: &mut Cursor,
    links: &[Option<Link>],
    out: &mut W,
) -> Result<(), InspectFault>
    requires sound { IsSound (replay_of source.now) }
    requires behind { IsBehind (replay_of source.now) cursor.old }
    ensures written { OnOk result (Appends (W.contents out.old) (W.contents out.new)
        (flat_map (link_lines (replay_of source.now)) links.now)) }
    ensures behind { OnOk result (IsBehind (replay_of source.now) cursor.new) }
    ensures fault { IfErr result (λ e. (e ≡ OutOfMemory) ⊎ (e ≡ Writing)) }
{
    for link in links {
        write_link(alloc, source, cursor, link, out)?;
    }
    Ok(())
}

/// A cycle, with what is told of it.
#[tactic(auto, using(ckrt_look_calls::proofs::AppendLemmas::appends_both))]
fn write_inversion<W: Write>(
    alloc: Global,
    source: &Source<'_>,
    cursor: &mut Cursor,
    inversion: &Inversion,
    out: &mut W,
) -> Result<(), InspectFault>
    requires sound { IsSound (replay_of source.now) }
    requires behind { IsBehind (replay_of source.now) cursor.old }
    ensures written { OnOk result (Appends (W.contents out.old) (W.contents out.new)
        (inversion_text (replay_of source.now) inversion.now)) }
    ensures behind { OnOk result (IsBehind (replay_of source.now) cursor.new) }
    ensures fault { IfErr result (λ e. (e ≡ OutOfMemory) ⊎ (e ≡ Writing)) }
{
    let Ok(()) = write_inversion_line(out, inversion) else {
        return Err(InspectFault::Write);
    };
    write_links(alloc, source, cursor, inversion.links.as_slice(), out)
}

/// Cycles, with what is told of each.
#[tactic(auto, using(ckrt_look_calls::proofs::AppendLemmas::appends_none, ckrt_look_calls::proofs::AppendLemmas::appends_more, ckrt_look_calls::proofs::AppendLemmas::appends_all))]
fn write_inversions<W: Write>(
    alloc: Global,
    source: &Source<'_>,
    cursor: &mut Cursor,
    inversions: &[Inversion],
    out: &mut W,
) -> Result<(), InspectFault>
    requires sound { IsSound (replay_of source.now) }
    requires behind { IsBehind (replay_of source.now) cursor.old }
    ensures written { OnOk result (Appends (W.contents out.old) (W.contents out.new)
        (flat_map (inversion_text (replay_of source.now)) inversions.now)) }
    ensures behind { OnOk result (IsBehind (replay_of source.now) cursor.new) }
    ensures fault { IfErr result (λ e. (e ≡ OutOfMemory) ⊎ (e ≡ Writing)) }
{
    for inversion in inversions {
        write_inversion(alloc, source, cursor, inversion, out)?;
    }
    Ok(())
}

/// The same from the begin of a recording on.
fn write_inversions_again<W: Write>(
    alloc: Global,
    source: &Source<'_>,
    inversions: &[Inversion],
    out: &mut W,
) -> Result<(), InspectFault>
    requires sound { IsSound (replay_of source.now) }
    ensures written { OnOk result (Appends (W.contents out.old) (W.contents out.new)
        (flat_map (inversion_text (replay_of source.now)) inversions.now)) }
    ensures fault { IfErr result (λ e. (e ≡ OutOfMemory) ⊎ (e ≡ Writing)) }
{
    let Ok(mut cursor) = Cursor::new(alloc, source) else {
        return Err(InspectFault::OutOfMemory);
    };
    write_inversions(alloc, source, &mut cursor, inversions, out)
}

/// The cycles that a detector found, or that there was none.
#[tactic(auto, using(ckrt_look_calls::proofs::AppendLemmas::appends_both))]
fn write_rows<W: Write>(
    alloc: Global,
    source: &Source<'_>,
    detector: &Detector,
    out: &mut W,
) -> Result<(), InspectFault>
    requires few { source.now.count + length source.now.events.now < 2 ^ 64 }
    requires sound { IsSound (replay_of source.now) }
    ensures written { OnOk result (Appends (W.contents out.old) (W.contents out.new)
        (rows_text (inversion_text (replay_of source.now)) source.now.count
        (source.now.count + length source.now.events.now)
        detector.now.watched.orders.found.rows detector.now.watched.orders.found.others)) }
    ensures fault { IfErr result (λ e. (e ≡ OutOfMemory) ⊎ (e ≡ Writing)) }
{
    let inversions = detector.inversions();
    if inversions.is_empty() {
        let end = source.count + source.events.len() as u64;
        return match write_no_cycle(out, source.count, end) {
            Ok(()) => Ok(()),
            Err(_) => Err(InspectFault::Write),
        };
    }
    write_inversions_again(alloc, source, inversions, out)?;
    match write_more_line(out, detector.other_inversions()) {
        Ok(()) => Ok(()),
        Err(_) => Err(InspectFault::Write),
    }
}

/// What a detector found of the orders of locks, with what a second look tells of each.
#[tactic(auto, using(ckrt_look_calls::proofs::AppendLemmas::appends_both))]
pub(crate) fn write_orders<W: Write>(
    alloc: Global,
    source: &Source<'_>,
    detector: &Detector,
    out: &mut W,
) -> Result<(), InspectFault>
    requires few { source.now.count + length source.now.events.now < 2 ^ 64 }
    requires sound { IsSound (replay_of source.now) }
    ensures written { OnOk result (Appends (W.contents out.old) (W.contents out.new)
        (orders_text (inversion_text (replay_of source.now)) source.now.count
        (source.now.count + length source.now.events.now) detector.now.watched.orders)) }
    ensures fault { IfErr result (λ e. (e ≡ OutOfMemory) ⊎ (e ≡ Writing)) }
{
    write_rows(alloc, source, detector, out)?;
    match write_full(out, detector.are_orders_full()) {
        Ok(()) => Ok(()),
        Err(_) => Err(InspectFault::Write),
    }
}
