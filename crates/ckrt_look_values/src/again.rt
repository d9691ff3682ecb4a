//! The second look at uses of values.
ghost use Rattle.std.specs.Prelude.{◌≡◌, ◌⊎◌, ◌++◌, IfErr, IfOk, OnOk};
ghost use Rattle.std.specs.Io.KnownBytes.{Appends};
ghost use Rattle.std.specs.List.{flat_map};
ghost use Rattle.ckrt_inspect.specs.declared.fault.InspectFault.TheVariants.{OutOfMemory, Write as Writing};
ghost use Rattle.ckrt_look_calls.specs.Replays.{IsBehind, IsSound, replay_of};
ghost use Rattle.ckrt_look_values.specs.Again.{AreBehind, beneath_text, finding_text, given_text};

use crate::finding::Finding;
use crate::texts::{from_text, write_finding};
use crate::value::{Value, moment_of};
use ckrt_inspect::InspectFault;
use ckrt_look_calls::{Cursor, Source, write_made};
use ckrt_look_heap::write_back;
use std::alloc::{AllocError, Global};
use std::io::Write;

/// Machines that look at uses, and at where memory was given.
#[derive(Drop)]
pub(crate) struct Cursors {
    pub(crate) made: Cursor,
    pub(crate) given: Cursor,
}

impl Cursors {
    /// At the begin of a recording.
    fn new(alloc: Global, source: &Source<'_>) -> Result<Cursors, AllocError>
        ensures { IfOk result (AreBehind (replay_of source.now)) }
    {
        Ok(Cursors {
            made: Cursor::new(alloc, source)?,
            given: Cursor::new(alloc, source)?,
        })
    }
}

/// Who was given memory, and where.
fn write_given<W: Write>(
    alloc: Global,
    source: &Source<'_>,
    cursor: &mut Cursor,
    value: &Value,
    out: &mut W,
) -> Result<(), InspectFault>
    requires sound { IsSound (replay_of source.now) }
    requires behind { IsBehind (replay_of source.now) cursor.old }
    ensures written { OnOk result (Appends (W.contents out.old) (W.contents out.new)
        (given_text (replay_of source.now) value.now)) }
    ensures behind { OnOk result (IsBehind (replay_of source.now) cursor.new) }
    ensures fault { IfErr result (λ e. (e ≡ OutOfMemory) ⊎ (e ≡ Writing)) }
{
    let word = from_text(value.is_block);
    write_back(alloc, source, cursor, word, &moment_of(value), out)
}

/// Who made a use, and who was given its memory.
#[tactic(auto, using(ckrt_look_calls::proofs::AppendLemmas::appends_both))]
fn write_beneath<W: Write>(
    alloc: Global,
    source: &Source<'_>,
    cursors: &mut Cursors,
    finding: &Finding,
    out: &mut W,
) -> Result<(), InspectFault>
    requires sound { IsSound (replay_of source.now) }
    requires behind { AreBehind (replay_of source.now) cursors.old }
    ensures written { OnOk result (Appends (W.contents out.old) (W.contents out.new)
        (beneath_text (replay_of source.now) finding.now)) }
    ensures behind { OnOk result (AreBehind (replay_of source.now) cursors.new) }
    ensures fault { IfErr result (λ e. (e ≡ OutOfMemory) ⊎ (e ≡ Writing)) }
{
    let it = &finding.first;
    write_made(alloc, source, &mut cursors.made, &it.moment, out)?;
    write_given(alloc, source, &mut cursors.given, &it.value, out)
}

/// The uses at a place, with what is told of the first.
#[tactic(auto, using(ckrt_look_calls::proofs::AppendLemmas::appends_both))]
fn write_one<W: Write>(
    alloc: Global,
    source: &Source<'_>,
    cursors: &mut Cursors,
    finding: &Finding,
    out: &mut W,
) -> Result<(), InspectFault>
    requires sound { IsSound (replay_of source.now) }
    requires behind { AreBehind (replay_of source.now) cursors.old }
    ensures written { OnOk result (Appends (W.contents out.old) (W.contents out.new)
        (finding_text (replay_of source.now) finding.now)) }
    ensures behind { OnOk result (AreBehind (replay_of source.now) cursors.new) }
    ensures fault { IfErr result (λ e. (e ≡ OutOfMemory) ⊎ (e ≡ Writing)) }
{
    let Ok(()) = write_finding(out, finding) else {
        return Err(InspectFault::Write);
    };
    write_beneath(alloc, source, cursors, finding, out)
}

/// Uses, with what is told of each.
#[tactic(auto, using(ckrt_look_calls::proofs::AppendLemmas::appends_none, ckrt_look_calls::proofs::AppendLemmas::appends_more, ckrt_look_calls::proofs::AppendLemmas::appends_all))]
fn write_each<W: Write>(
    alloc: Global,
    source: &Source<'_>,
    cursors: &mut Cursors,
    findings: &[Finding],
    out: &mut W,
) -> Result<(), InspectFault>
    requires sound { IsSound (replay_of source.now) }
    requires behind { AreBehind (replay_of source.now) cursors.old }
    ensures written { OnOk result (Appends (W.contents out.old) (W.contents out.new)
        (flat_map (finding_text (replay_of source.now)) findings.now)) }
    ensures fault { IfErr result (λ e. (e ≡ OutOfMemory) ⊎ (e ≡ Writing)) }
{
    for finding in findings {
        write_one(alloc, source, cursors, finding, out)?;
    }
    Ok(())
}

/// Uses, with what a second look tells of each.
pub(crate) fn write_findings<W: Write>(
    alloc: Global,
    source: &Source<'_>,
    findings: &[Finding],
    out: &mut W,
) -> Result<(), InspectFault>
    requires sound { IsSound (replay_of source.now) }
    ensures written { OnOk result (Appends (W.contents out.old) (W.contents out.new)
        (flat_map (finding_text (replay_of source.now)) findings.now)) }
    ensures fault { IfErr result (λ e. (e ≡ OutOfMemory) ⊎ (e ≡ Writing)) }
{
    let Ok(mut cursors) = Cursors::new(alloc, source) else {
        return Err(InspectFault::OutOfMemory);
    };
    write_each(alloc, source, &mut cursors, findings, out)
}
