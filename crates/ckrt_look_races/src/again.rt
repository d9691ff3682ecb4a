//! The second look at races.
ghost use Rattle.std.specs.Prelude.{◌≡◌, ◌⊎◌, IfErr, IfOk, OnOk, Some};
ghost use Rattle.std.specs.Io.KnownBytes.{Appends};
ghost use Rattle.std.specs.List.{flat_map};
ghost use Rattle.ckrt_inspect.specs.declared.fault.InspectFault.TheVariants.{OutOfMemory, Write as Writing};
ghost use Rattle.ckrt_look_calls.specs.Replays.{IsBehind, IsSound, replay_of};
ghost use Rattle.ckrt_look_races.specs.Again.{AreBehind, access_text, accesses_text, begin_of, block_line, memory_text, race_text, size_of, taken_at};

use crate::held::write_access_lines;
use crate::moment::moment_of;
use crate::texts::write_pair;
use ckrt_inspect::InspectFault;
use ckrt_look_calls::{Cursor, Moment, Source, write_made, write_taken_line};
use ckrt_look_clocks::{Access, Block, Pair};
use std::alloc::{AllocError, Global};
use std::io::{Result as Written, Write};

/// When memory was taken, and by whom.
fn taken_at(block: &Block) -> Moment
    ensures { result ≡ taken_at block.now }
{
    moment_of(block.thread, block.place)
}

/// How many bytes a block has.
fn size_of(block: &Block) -> u64
    ensures { result ≡ size_of block.now }
{
    (4 * u64::from(block.count)).saturating_sub(4)
}

/// Where it begins.
fn begin_of(block: &Block) -> u32
    ensures { result ≡ begin_of block.now }
{
    block.first.wrapping_mul(4).wrapping_add(4)
}

/// The line of memory that was given anew.
fn write_block_line<W: Write>(out: &mut W, block: &Block) -> Written<()>
    ensures { OnOk result
        (Appends (W.contents out.old) (W.contents out.new) (block_line block.now)) }
{
    write_taken_line(out, begin_of(block), size_of(block), &taken_at(block))
}

/// The locks and the callers of the thread of an access.
fn write_access<W: Write>(
    alloc: Global,
    source: &Source<'_>,
    cursor: &mut Cursor,
    access: &Access,
    out: &mut W,
) -> Result<(), InspectFault>
    requires sound { IsSound (replay_of source.now) }
    requires behind { IsBehind (replay_of source.now) cursor.old }
    ensures written { OnOk result (Appends (W.contents out.old) (W.contents out.new)
        (access_text access.now (replay_of source.now))) }
    ensures behind { OnOk result (IsBehind (replay_of source.now) cursor.new) }
    ensures fault { IfErr result (λ e. (e ≡ OutOfMemory) ⊎ (e ≡ Writing)) }
{
    let moment = moment_of(access.thread, access.place);
    let Ok(machine) = cursor.machine_at(alloc, source, moment.place) else {
        return Err(InspectFault::OutOfMemory);
    };
    match write_access_lines(out, &moment, source.rules, &machine) {
        Ok(()) => Ok(()),
        Err(_) => Err(InspectFault::Write),
    }
}

/// Memory, and who took it.
#[tactic(auto, using(ckrt_look_calls::proofs::AppendLemmas::appends_both))]
fn write_taken_block<W: Write>(
    alloc: Global,
    source: &Source<'_>,
    cursor: &mut Cursor,
    block: &Block,
    out: &mut W,
) -> Result<(), InspectFault>
    requires sound { IsSound (replay_of source.now) }
    requires behind { IsBehind (replay_of source.now) cursor.old }
    ensures written { OnOk result (Appends (W.contents out.old) (W.contents out.new)
        (memory_text (Some block.now) (replay_of source.now))) }
    ensures behind { OnOk result (IsBehind (replay_of source.now) cursor.new) }
    ensures fault { IfErr result (λ e. (e ≡ OutOfMemory) ⊎ (e ≡ Writing)) }
{
    let Ok(()) = write_block_line(out, block) else {
        return Err(InspectFault::Write);
    };
    write_made(alloc, source, cursor, &taken_at(block), out)
}

/// The memory that has the word of a race, and who took it.
#[tactic(auto, using(ckrt_look_calls::proofs::AppendLemmas::appends_none))]
fn write_memory<W: Write>(
    alloc: Global,
    source: &Source<'_>,
    cursor: &mut Cursor,
    block: &Option<Block>,
    out: &mut W,
) -> Result<(), InspectFault>
    requires sound { IsSound (replay_of source.now) }
    requires behind { IsBehind (replay_of source.now) cursor.old }
    ensures written { OnOk result (Appends (W.contents out.old) (W.contents out.new)
        (memory_text block.now (replay_of source.now))) }
    ensures behind { OnOk result (IsBehind (replay_of source.now) cursor.new) }
    ensures fault { IfErr result (λ e. (e ≡ OutOfMemory) ⊎ (e ≡ Writing)) }
{
    match block {
        Some(block) => write_taken_block(alloc, source, cursor, block, out),
        None => Ok(()),
    }
}

/// Machines that look at first accesses, at second ones, and where memory was taken. Each of these places mostly lies behind that of the
/// race before.
#[derive(Drop)]
pub(crate) struct Cursors {
    pub(crate) first: Cursor,
    pub(crate) second: Cursor,
    pub(crate) block: Cursor,
}

impl Cursors {
    /// At the begin of a recording.
    fn new(alloc: Global, source: &Source<'_>) -> Result<Cursors, AllocError>
        ensures { IfOk result (AreBehind (replay_of source.now)) }
    {
        Ok(Cursors {
            first: Cursor::new(alloc, source)?,
            second: Cursor::new(alloc, source)?,
            block: Cursor::new(alloc, source)?,
        })
    }
}

/// What is told of the two accesses of a race.
#[tactic(auto, using(ckrt_look_calls::proofs::AppendLemmas::appends_both))]
fn write_accesses<W: Write>(
    alloc: Global,
    source: &Source<'_>,
    cursors: &mut Cursors,
    pair: &Pair,
    out: &mut W,
) -> Result<(), InspectFault>
    requires sound { IsSound (replay_of source.now) }
    requires behind { AreBehind (replay_of source.now) cursors.old }
    ensures written { OnOk result (Appends (W.contents out.old) (W.contents out.new)
        (accesses_text pair.now (replay_of source.now))) }
    ensures behind { OnOk result (AreBehind (replay_of source.now) cursors.new) }
    ensures fault { IfErr result (λ e. (e ≡ OutOfMemory) ⊎ (e ≡ Writing)) }
{
    write_access(alloc, source, &mut cursors.first, &pair.first, out)?;
    write_access(alloc, source, &mut cursors.second, &pair.second, out)
}

/// A race, with what is told of it.
#[tactic(auto, using(ckrt_look_calls::proofs::AppendLemmas::appends_both))]
fn write_race<W: Write>(
    alloc: Global,
    source: &Source<'_>,
    cursors: &mut Cursors,
    pair: &Pair,
    out: &mut W,
) -> Result<(), InspectFault>
    requires sound { IsSound (replay_of source.now) }
    requires behind { AreBehind (replay_of source.now) cursors.old }
    ensures written { OnOk result (Appends (W.contents out.old) (W.contents out.new)
        (race_text (replay_of source.now) pair.now)) }
    ensures behind { OnOk result (AreBehind (replay_of source.now) cursors.new) }
    ensures fault { IfErr result (λ e. (e ≡ OutOfMemory) ⊎ (e ≡ Writing)) }
{
    let Ok(()) = write_pair(out, pair) else {
        return Err(InspectFault::Write);
    };
    write_accesses(alloc, source, cursors, pair, out)?;
    write_memory(alloc, source, &mut cursors.block, &pair.block, out)
}

/// Races, with what is told of each.
#[tactic(auto, using(ckrt_look_calls::proofs::AppendLemmas::appends_none, ckrt_look_calls::proofs::AppendLemmas::appends_more, ckrt_look_calls::proofs::AppendLemmas::appends_all))]
fn write_each<W: Write>(
    alloc: Global,
    source: &Source<'_>,
    cursors: &mut Cursors,
    pairs: &[Pair],
    out: &mut W,
) -> Result<(), InspectFault>
    requires sound { IsSound (replay_of source.now) }
    requires behind { AreBehind (replay_of source.now) cursors.old }
    ensures written { OnOk result (Appends (W.contents out.old) (W.contents out.new)
        (flat_map (race_text (replay_of source.now)) pairs.now)) }
    ensures fault { IfErr result (λ e. (e ≡ OutOfMemory) ⊎ (e ≡ Writing)) }
{
    for pair in pairs {
        write_race(alloc, source, cursors, pair, out)?;
    }
    Ok(())
}

/// Races, with what a second look tells of each.
pub(crate) fn write_races_again<W: Write>(
    alloc: Global,
    source: &Source<'_>,
    pairs: &[Pair],
    out: &mut W,
) -> Result<(), InspectFault>
    requires sound { IsSound (replay_of source.now) }
    ensures written { OnOk result (Appends (W.contents out.old) (W.contents out.new)
        (flat_map (race_text (replay_of source.now)) pairs.now)) }
    ensures fault { IfErr result (λ e. (e ≡ OutOfMemory) ⊎ (e ≡ Writing)) }
{
    let Ok(mut cursors) = Cursors::new(alloc, source) else {
        return Err(InspectFault::OutOfMemory);
    };
    write_each(alloc, source, &mut cursors, pairs, out)
}
