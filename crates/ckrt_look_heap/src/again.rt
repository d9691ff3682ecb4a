//! The second look at errors, and at blocks that weren't given back.
ghost use Rattle.std.specs.Prelude.{◌≡◌, ◌⊎◌, ◌++◌, IfErr, IfOk, OnOk};
ghost use Rattle.std.specs.Io.KnownBytes.{Appends};
ghost use Rattle.std.specs.List.{flat_map};
ghost use Rattle.ckrt_inspect.specs.declared.fault.InspectFault.TheVariants.{OutOfMemory, Write as Writing};
ghost use Rattle.ckrt_look_heap.specs.declared.block.Cell.TheVariants as cell;
ghost use Rattle.ckrt_look_calls.specs.Moments.{made_text};
ghost use Rattle.ckrt_look_calls.specs.Replays.{IsBehind, IsSound, replay_of};
ghost use Rattle.ckrt_look_heap.specs.Again.{AreBehind, address_of, back_line, back_text, block_line, cell_text, finding_text, left_text, taken_text};

use crate::block::{Block, Cell};
use crate::finding::Finding;
use crate::texts::write_finding;
use ckrt_inspect::InspectFault;
use ckrt_look_calls::{Cursor, Moment, Source, write_by, write_made, write_taken_line};
use std::alloc::{AllocError, Global};
use std::io::{Result as Written, Write};

/// Where a block begins.
fn address_of(block: &Block) -> u32
    ensures { result ≡ address_of block.now }
{
    block.first.wrapping_mul(4).wrapping_add(4)
}

/// The line of a block.
fn write_block_line<W: Write>(out: &mut W, block: &Block) -> Written<()>
    ensures { OnOk result
        (Appends (W.contents out.old) (W.contents out.new) (block_line block.now)) }
{
    let bytes = u64::from(block.bytes);
    write_taken_line(out, address_of(block), bytes, &block.taken)
}

/// The line of who gave it back.
#[tactic(auto, using(ckrt_look_calls::proofs::AppendLemmas::appends_both))]
fn write_back_line<W: Write>(out: &mut W, word: &[u8], moment: &Moment) -> Written<()>
    ensures { OnOk result
        (Appends (W.contents out.old) (W.contents out.new) (back_line word.now moment.now)) }
{
    write_by(out, word, moment)?;
    out.write_all(b"\n")
}

/// A block, and who took it.
#[tactic(auto, using(ckrt_look_calls::proofs::AppendLemmas::appends_both))]
fn write_taken<W: Write>(
    alloc: Global,
    source: &Source<'_>,
    cursor: &mut Cursor,
    block: &Block,
    out: &mut W,
) -> Result<(), InspectFault>
    requires sound { IsSound (replay_of source.now) }
    requires behind { IsBehind (replay_of source.now) cursor.old }
    ensures written { OnOk result (Appends (W.contents out.old) (W.contents out.new)
        (taken_text block.now (replay_of source.now))) }
    ensures behind { OnOk result (IsBehind (replay_of source.now) cursor.new) }
    ensures fault { IfErr result (λ e. (e ≡ OutOfMemory) ⊎ (e ≡ Writing)) }
{
    let Ok(()) = write_block_line(out, block) else {
        return Err(InspectFault::Write);
    };
    write_made(alloc, source, cursor, &block.taken, out)
}

/// Who gave it back.
#[tactic(auto, using(ckrt_look_calls::proofs::AppendLemmas::appends_both))]
pub fn write_back<W: Write>(
    alloc: Global,
    source: &Source<'_>,
    cursor: &mut Cursor,
    word: &[u8],
    moment: &Moment,
    out: &mut W,
) -> Result<(), InspectFault>
    requires sound { IsSound (replay_of source.now) }
    requires behind { IsBehind (replay_of source.now) cursor.old }
    ensures written { OnOk result (Appends (W.contents out.old) (W.contents out.new)
        (back_text word.now moment.now (replay_of source.now))) }
    ensures behind { OnOk result (IsBehind (replay_of source.now) cursor.new) }
    ensures fault { IfErr result (λ e. (e ≡ OutOfMemory) ⊎ (e ≡ Writing)) }
{
    let Ok(()) = write_back_line(out, word, moment) else {
        return Err(InspectFault::Write);
    };
    write_made(alloc, source, cursor, moment, out)
}

/// Machines that look at errors, at where blocks were taken, and at where they were given back.
#[derive(Drop)]
pub(crate) struct Cursors {
    pub(crate) made: Cursor,
    pub(crate) taken: Cursor,
    pub(crate) back: Cursor,
}

impl Cursors {
    /// At the begin of a recording.
    fn new(alloc: Global, source: &Source<'_>) -> Result<Cursors, AllocError>
        ensures { IfOk result (AreBehind (replay_of source.now)) }
    {
        Ok(Cursors {
            made: Cursor::new(alloc, source)?,
            taken: Cursor::new(alloc, source)?,
            back: Cursor::new(alloc, source)?,
        })
    }
}

/// A block, who took it, and who gave it back.
#[tactic(auto, using(ckrt_look_calls::proofs::AppendLemmas::appends_both))]
fn write_both<W: Write>(
    alloc: Global,
    source: &Source<'_>,
    cursors: &mut Cursors,
    block: &Block,
    word: &[u8],
    moment: &Moment,
    out: &mut W,
) -> Result<(), InspectFault>
    requires sound { IsSound (replay_of source.now) }
    requires behind { AreBehind (replay_of source.now) cursors.old }
    ensures written { OnOk result (Appends (W.contents out.old) (W.contents out.new)
        (taken_text block.now (replay_of source.now)
        ++ back_text word.now moment.now (replay_of source.now))) }
    ensures behind { OnOk result (AreBehind (replay_of source.now) cursors.new) }
    ensures fault { IfErr result (λ e. (e ≡ OutOfMemory) ⊎ (e ≡ Writing)) }
{
    write_taken(alloc, source, &mut cursors.taken, block, out)?;
    write_back(alloc, source, &mut cursors.back, word, moment, out)
}

/// A block that was given back.
fn write_given_back<W: Write>(
    alloc: Global,
    source: &Source<'_>,
    cursors: &mut Cursors,
    block: &Block,
    moment: &Moment,
    out: &mut W,
) -> Result<(), InspectFault>
    requires sound { IsSound (replay_of source.now) }
    requires behind { AreBehind (replay_of source.now) cursors.old }
    ensures written { OnOk result (Appends (W.contents out.old) (W.contents out.new)
        (cell_text (cell.GivenBack block.now moment.now) (replay_of source.now))) }
    ensures behind { OnOk result (AreBehind (replay_of source.now) cursors.new) }
    ensures fault { IfErr result (λ e. (e ≡ OutOfMemory) ⊎ (e ≡ Writing)) }
{
    write_both(
        alloc,
        source,
        cursors,
        block,
        b"    given back at ",
        moment,
        out,
    )
}

/// A block with a part that has ended.
fn write_ended<W: Write>(
    alloc: Global,
    source: &Source<'_>,
    cursors: &mut Cursors,
    block: &Block,
    moment: &Moment,
    out: &mut W,
) -> Result<(), InspectFault>
    requires sound { IsSound (replay_of source.now) }
    requires behind { AreBehind (replay_of source.now) cursors.old }
    ensures written { OnOk result (Appends (W.contents out.old) (W.contents out.new)
        (cell_text (cell.Ended block.now moment.now) (replay_of source.now))) }
    ensures behind { OnOk result (AreBehind (replay_of source.now) cursors.new) }
    ensures fault { IfErr result (λ e. (e ≡ OutOfMemory) ⊎ (e ≡ Writing)) }
{
    write_both(alloc, source, cursors, block, b"    ended at ", moment, out)
}

/// What was told of a word.
#[tactic(auto, using(ckrt_look_calls::proofs::AppendLemmas::appends_none))]
fn write_cell<W: Write>(
    alloc: Global,
    source: &Source<'_>,
    cursors: &mut Cursors,
    cell: &Cell,
    out: &mut W,
) -> Result<(), InspectFault>
    requires sound { IsSound (replay_of source.now) }
    requires behind { AreBehind (replay_of source.now) cursors.old }
    ensures written { OnOk result (Appends (W.contents out.old) (W.contents out.new)
        (cell_text cell.now (replay_of source.now))) }
    ensures behind { OnOk result (AreBehind (replay_of source.now) cursors.new) }
    ensures fault { IfErr result (λ e. (e ≡ OutOfMemory) ⊎ (e ≡ Writing)) }
{
    match cell {
        Cell::Unknown | Cell::Unowned => Ok(()),
        Cell::Given(block) => write_taken(alloc, source, &mut cursors.taken, block, out),
        Cell::GivenBack(block, moment) => {
            write_given_back(alloc, source, cursors, block, moment, out)
        }
        Cell::Ended(block, moment) => write_ended(alloc, source, cursors, block, moment, out),
    }
}

/// Who made an error, and what was told of its word.
#[tactic(auto, using(ckrt_look_calls::proofs::AppendLemmas::appends_both))]
fn write_beneath<W: Write>(
    alloc: Global,
    source: &Source<'_>,
    cursors: &mut Cursors,
    finding: &Finding,
    out: &mut W,
) -> Result<(), InspectFault>
    requires sound { IsSound (replay_of source.now) }
    requires behind { AreBehind (replay_of source.now) cursors.old }
    ensures written { OnOk result (Appends (W.contents out.old) (W.contents out.new)
        (made_text finding.now.access.moment (replay_of source.now)
        ++ cell_text finding.now.cell (replay_of source.now))) }
    ensures behind { OnOk result (AreBehind (replay_of source.now) cursors.new) }
    ensures fault { IfErr result (λ e. (e ≡ OutOfMemory) ⊎ (e ≡ Writing)) }
{
    let moment = &finding.access.moment;
    write_made(alloc, source, &mut cursors.made, moment, out)?;
    write_cell(alloc, source, cursors, &finding.cell, out)
}

/// The errors at a place, with what is told of the first.
#[tactic(auto, using(ckrt_look_calls::proofs::AppendLemmas::appends_both))]
fn write_one<W: Write>(
    alloc: Global,
    source: &Source<'_>,
    cursors: &mut Cursors,
    finding: &Finding,
    out: &mut W,
) -> Result<(), InspectFault>
    requires sound { IsSound (replay_of source.now) }
    requires behind { AreBehind (replay_of source.now) cursors.old }
    ensures written { OnOk result (Appends (W.contents out.old) (W.contents out.new)
        (finding_text (replay_of source.now) finding.now)) }
    ensures behind { OnOk result (AreBehind (replay_of source.now) cursors.new) }
    ensures fault { IfErr result (λ e. (e ≡ OutOfMemory) ⊎ (e ≡ Writing)) }
{
    let Ok(()) = write_finding(out, finding) else {
        return Err(InspectFault::Write);
    };
    write_beneath(alloc, source, cursors, finding, out)
}

/// Errors, with what is told of each.
#[tactic(auto, using(ckrt_look_calls::proofs::AppendLemmas::appends_none, ckrt_look_calls::proofs::AppendLemmas::appends_more, ckrt_look_calls::proofs::AppendLemmas::appends_all))]
fn write_each<W: Write>(
    alloc: Global,
    source: &Source<'_>,
    cursors: &mut Cursors,
    findings: &[Finding],
    out: &mut W,
) -> Result<(), InspectFault>
    requires sound { IsSound (replay_of source.now) }
    requires behind { AreBehind (replay_of source.now) cursors.old }
    ensures written { OnOk result (Appends (W.contents out.old) (W.contents out.new)
        (flat_map (finding_text (replay_of source.now)) findings.now)) }
    ensures fault { IfErr result (λ e. (e ≡ OutOfMemory) ⊎ (e ≡ Writing)) }
{
    for finding in findings {
        write_one(alloc, source, cursors, finding, out)?;
    }
    Ok(())
}

/// Errors, with what a second look tells of each.
pub(crate) fn write_findings<W: Write>(
    alloc: Global,
    source: &Source<'_>,
    findings: &[Finding],
    out: &mut W,
) -> Result<(), InspectFault>
    requires sound { IsSound (replay_of source.now) }
    ensures written { OnOk result (Appends (W.contents out.old) (W.contents out.new)
        (flat_map (finding_text (replay_of source.now)) findings.now)) }
    ensures fault { IfErr result (λ e. (e ≡ OutOfMemory) ⊎ (e ≡ Writing)) }
{
    let Ok(mut cursors) = Cursors::new(alloc, source) else {
        return Err(InspectFault::OutOfMemory);
    };
    write_each(alloc, source, &mut cursors, findings, out)
}

/// Blocks, and who took each.
#[tactic(auto, using(ckrt_look_calls::proofs::AppendLemmas::appends_none, ckrt_look_calls::proofs::AppendLemmas::appends_more, ckrt_look_calls::proofs::AppendLemmas::appends_all))]
fn write_each_block<W: Write>(
    alloc: Global,
    source: &Source<'_>,
    cursor: &mut Cursor,
    blocks: &[Block],
    out: &mut W,
) -> Result<(), InspectFault>
    requires sound { IsSound (replay_of source.now) }
    requires behind { IsBehind (replay_of source.now) cursor.old }
    ensures written { OnOk result (Appends (W.contents out.old) (W.contents out.new)
        (flat_map (left_text (replay_of source.now)) blocks.now)) }
    ensures fault { IfErr result (λ e. (e ≡ OutOfMemory) ⊎ (e ≡ Writing)) }
{
    for block in blocks {
        write_taken(alloc, source, cursor, block, out)?;
    }
    Ok(())
}

/// Blocks, with what a second look tells of each.
pub(crate) fn write_blocks<W: Write>(
    alloc: Global,
    source: &Source<'_>,
    blocks: &[Block],
    out: &mut W,
) -> Result<(), InspectFault>
    requires sound { IsSound (replay_of source.now) }
    ensures written { OnOk result (Appends (W.contents out.old) (W.contents out.new)
        (flat_map (left_text (replay_of source.now)) blocks.now)) }
    ensures fault { IfErr result (λ e. (e ≡ OutOfMemory) ⊎ (e ≡ Writing)) }
{
    let Ok(mut cursor) = Cursor::new(alloc, source) else {
        return Err(InspectFault::OutOfMemory);
    };
    write_each_block(alloc, source, &mut cursor, blocks, out)
}
