//! Blocks that weren't given back when the program ended.
ghost use Rattle.std.specs.Prelude.{◌≡◌, ◌⊎◌, ◌++◌, IfErr, IfOk, OnOk, length, take};
ghost use Rattle.std.specs.Io.KnownBytes.{Appends};
ghost use Rattle.std.specs.List.{flat_map};
ghost use Rattle.ckrt_inspect.specs.declared.fault.InspectFault.TheVariants.{OutOfMemory, Write as Writing};
ghost use Rattle.ckrt_look_calls.specs.Replays.{IsSound, replay_of};
ghost use Rattle.ckrt_look_heap.specs.Again.{left_text};
ghost use Rattle.ckrt_look_heap.specs.Shadow.{left_from, left_in};
ghost use Rattle.ckrt_look_heap.specs.Texts.{blocks_text, bytes_of, counted_text, left_lines, more_text, sum_text};

use crate::again::write_blocks;
use crate::block::{Block, Cell};
use crate::shadow::Shadow;
use ckrt_inspect::InspectFault;
use ckrt_look_calls::{Source, write_counted};
use std::alloc::{AllocError, Global};
use std::io::{Result as Written, Write};

/// How many blocks have lines of their own.
const SHOWN: usize = 16;

/// The block of a word joins others, if there is one.
fn append(blocks: &mut Vec<Block>, word: usize, cell: &Cell) -> Result<(), AllocError>
    ensures { OnOk result
        (blocks.new.items ≡ blocks.old.items ++ left_in word cell.now) }
{
    match cell {
        Cell::Given(block) if block.first as usize == word => match blocks.push(*block) {
            Ok(()) => Ok(()),
            Err(_) => Err(AllocError),
        },
        _ => Ok(()),
    }
}

/// All blocks that weren't given back.
#[tactic(auto, using(crate::proofs::LeftLemmas::left_next, crate::proofs::LeftLemmas::left_all))]
fn left_blocks(alloc: Global, shadow: &Shadow) -> Result<Vec<Block>, AllocError>
    ensures { IfOk result (λ blocks. blocks.items ≡ left_from 0 shadow.now.heap.cells) }
{
    let mut blocks = Vec::new(alloc);
    for word in 0..shadow.len() {
        append(&mut blocks, word, &shadow.told_of(word))?;
    }
    Ok(blocks)
}

/// How many bytes they have together.
fn bytes_of(blocks: &[Block]) -> u64
    ensures { result ≡ bytes_of 0 blocks.now }
{
    let mut sum: u64 = 0;
    for block in blocks {
        sum = sum.saturating_add(u64::from(block.bytes));
    }
    sum
}

/// How many there are, and how many bytes they have.
#[tactic(auto, using(ckrt_look_calls::proofs::AppendLemmas::appends_both))]
fn write_sum<W: Write>(out: &mut W, blocks: &[Block]) -> Written<()>
    ensures { OnOk result
        (Appends (W.contents out.old) (W.contents out.new) (sum_text blocks.now)) }
{
    write_counted(out, b"never given back: ", blocks.len() as u64)?;
    write_counted(out, b" blocks, bytes: ", bytes_of(blocks))?;
    out.write_all(b"\n")
}

/// How many have no lines of their own.
#[tactic(auto, using(ckrt_look_calls::proofs::AppendLemmas::appends_both, ckrt_look_calls::proofs::AppendLemmas::appends_none))]
fn write_more<W: Write>(out: &mut W, count: usize) -> Written<()>
    ensures { OnOk result
        (Appends (W.contents out.old) (W.contents out.new) (more_text count)) }
{
    if count <= SHOWN {
        return Ok(());
    }
    write_counted(out, b"    and ", (count - SHOWN) as u64)?;
    out.write_all(b" others\n")
}

/// The first few of these.
fn first_blocks(blocks: &[Block]) -> &[Block]
    ensures { result.now ≡ take 16 blocks.now }
{
    if blocks.len() <= SHOWN {
        return blocks;
    }
    let (first, _) = blocks.split_at(SHOWN);
    first
}

/// The first few, and how many have no lines of their own.
#[tactic(auto, using(ckrt_look_calls::proofs::AppendLemmas::appends_both))]
fn write_shown<W: Write>(
    alloc: Global,
    source: &Source<'_>,
    blocks: &[Block],
    out: &mut W,
) -> Result<(), InspectFault>
    requires sound { IsSound (replay_of source.now) }
    ensures written { OnOk result (Appends (W.contents out.old) (W.contents out.new)
        (flat_map (left_text (replay_of source.now)) (take 16 blocks.now)
        ++ more_text (length blocks.now))) }
    ensures fault { IfErr result (λ e. (e ≡ OutOfMemory) ⊎ (e ≡ Writing)) }
{
    write_blocks(alloc, source, first_blocks(blocks), out)?;
    match write_more(out, blocks.len()) {
        Ok(()) => Ok(()),
        Err(_) => Err(InspectFault::Write),
    }
}

/// How many there are, and the first few.
#[tactic(auto, using(ckrt_look_calls::proofs::AppendLemmas::appends_both))]
fn write_counted_blocks<W: Write>(
    alloc: Global,
    source: &Source<'_>,
    blocks: &[Block],
    out: &mut W,
) -> Result<(), InspectFault>
    requires sound { IsSound (replay_of source.now) }
    ensures written { OnOk result (Appends (W.contents out.old) (W.contents out.new)
        (counted_text (left_text (replay_of source.now)) blocks.now)) }
    ensures fault { IfErr result (λ e. (e ≡ OutOfMemory) ⊎ (e ≡ Writing)) }
{
    let Ok(()) = write_sum(out, blocks) else {
        return Err(InspectFault::Write);
    };
    write_shown(alloc, source, blocks, out)
}

/// All of them, if there are some.
#[tactic(auto, using(ckrt_look_calls::proofs::AppendLemmas::appends_none))]
fn write_some<W: Write>(
    alloc: Global,
    source: &Source<'_>,
    blocks: &[Block],
    out: &mut W,
) -> Result<(), InspectFault>
    requires sound { IsSound (replay_of source.now) }
    ensures written { OnOk result (Appends (W.contents out.old) (W.contents out.new)
        (blocks_text (left_text (replay_of source.now)) blocks.now)) }
    ensures fault { IfErr result (λ e. (e ≡ OutOfMemory) ⊎ (e ≡ Writing)) }
{
    match blocks.len() {
        0 => Ok(()),
        _ => write_counted_blocks(alloc, source, blocks, out),
    }
}

/// Those of a shadow.
fn write_left_of<W: Write>(
    alloc: Global,
    source: &Source<'_>,
    shadow: &Shadow,
    out: &mut W,
) -> Result<(), InspectFault>
    requires sound { IsSound (replay_of source.now) }
    ensures written { OnOk result (Appends (W.contents out.old) (W.contents out.new)
        (blocks_text (left_text (replay_of source.now)) (left_from 0 shadow.now.heap.cells))) }
    ensures fault { IfErr result (λ e. (e ≡ OutOfMemory) ⊎ (e ≡ Writing)) }
{
    let Ok(blocks) = left_blocks(alloc, shadow) else {
        return Err(InspectFault::OutOfMemory);
    };
    write_some(alloc, source, blocks.as_slice(), out)
}

/// The blocks that weren't given back, if the program has ended.
#[tactic(auto, using(ckrt_look_calls::proofs::AppendLemmas::appends_none))]
pub(crate) fn write_left<W: Write>(
    alloc: Global,
    source: &Source<'_>,
    shadow: &Shadow,
    out: &mut W,
) -> Result<(), InspectFault>
    requires sound { IsSound (replay_of source.now) }
    ensures written { OnOk result (Appends (W.contents out.old) (W.contents out.new)
        (left_lines (left_text (replay_of source.now)) shadow.now.heap)) }
    ensures fault { IfErr result (λ e. (e ≡ OutOfMemory) ⊎ (e ≡ Writing)) }
{
    if !shadow.has_ended() {
        return Ok(());
    }
    write_left_of(alloc, source, shadow, out)
}
