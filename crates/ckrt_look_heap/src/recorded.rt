//! The errors of memory of events.
ghost use Rattle.std.specs.Prelude.{◌≡◌, ◌⊎◌, ◌<◌, ◌+◌, ◌^◌, IfErr, IfOk, OnOk, length};
ghost use Rattle.std.specs.Io.KnownBytes.{Appends};
ghost use Rattle.ckrt_inspect.specs.declared.fault.InspectFault.TheVariants.{OutOfMemory, Write as Writing};
ghost use Rattle.ckrt_look_calls.specs.Replays.{IsSound, replay_of};
ghost use Rattle.ckrt_look_heap.specs.Again.{finding_text};
ghost use Rattle.ckrt_look_heap.specs.Recorded.{fresh_for, text_by};
ghost use Rattle.ckrt_look_heap.specs.Texts.{found_text};

use crate::again::write_findings;
use crate::left::write_left;
use crate::parts::PART_BYTES;
use crate::shadow::Shadow;
use crate::texts::{write_none, write_untold};
use ckrt_inspect::InspectFault;
use ckrt_look_calls::{Source, slots_in, words_of, write_others_line};
use ckrt_machine::Machine;
use std::alloc::{AllocError, Global};
use std::io::Write;

/// A shadow for what a machine does after so many events: nothing is known of what was told before. It takes 64 bytes for each page of the
/// guest's memory, and a room of so many bytes, or of as many as a shadow of all the guest's memory takes where these are fewer.
pub fn shadow_for(
    alloc: Global,
    machine: &Machine,
    count: u64,
    room: u64,
) -> Result<Shadow, AllocError>
    ensures { IfOk result (λ shadow. shadow ≡ fresh_for room count machine.now.state) }
{
    let words = words_of(machine);
    Shadow::new(alloc, count == 0, words, slots_in(room, PART_BYTES, words))
}

/// Writes the errors that were found.
#[tactic(auto, using(ckrt_look_calls::proofs::AppendLemmas::appends_both))]
fn write_found<W: Write>(
    alloc: Global,
    source: &Source<'_>,
    shadow: &Shadow,
    out: &mut W,
) -> Result<(), InspectFault>
    requires few { source.now.count + length source.now.events.now < 2 ^ 64 }
    requires sound { IsSound (replay_of source.now) }
    ensures found { OnOk result (Appends (W.contents out.old) (W.contents out.new)
        (found_text (finding_text (replay_of source.now)) source.now.count
        (source.now.count + length source.now.events.now) shadow.now.heap.found)) }
    ensures fault { IfErr result (λ e. (e ≡ OutOfMemory) ⊎ (e ≡ Writing)) }
{
    let findings = shadow.findings();
    if findings.is_empty() {
        let end = source.count + source.events.len() as u64;
        return match write_none(out, source.count, end) {
            Ok(()) => Ok(()),
            Err(_) => Err(InspectFault::Write),
        };
    }
    write_findings(alloc, source, findings, out)?;
    match write_others_line(out, shadow.others()) {
        Ok(()) => Ok(()),
        Err(_) => Err(InspectFault::Write),
    }
}

/// Writes the errors of memory that a shadow tells of events: what is done at each place in the program once, with the first one there, and how
/// often, or where there were none. Beneath each stand the callers of its thread, and the block that has its word, with who took it and who gave
/// it back. After these stand the blocks that weren't given back, if the program has ended. Where it looks at an error again it takes six bytes
/// for each of the guest's memory.
///
/// # Errors
///
/// `OutOfMemory` where a growth was refused, `Write` where the writer failed.
#[tactic(auto, using(ckrt_look_calls::proofs::AppendLemmas::appends_both))]
pub fn write_errors<W: Write>(
    alloc: Global,
    source: &Source<'_>,
    shadow: &Shadow,
    out: &mut W,
) -> Result<(), InspectFault>
    requires few { source.now.count + length source.now.events.now < 2 ^ 64 }
    requires sound { IsSound (replay_of source.now) }
    ensures written { OnOk result (Appends (W.contents out.old) (W.contents out.new)
        (text_by (replay_of source.now) source.now.count shadow.now.heap)) }
    ensures fault { IfErr result (λ e. (e ≡ OutOfMemory) ⊎ (e ≡ Writing)) }
{
    if !shadow.is_told() {
        let end = source.count + source.events.len() as u64;
        return match write_untold(out, source.count, end) {
            Ok(()) => Ok(()),
            Err(_) => Err(InspectFault::Write),
        };
    }
    write_found(alloc, source, shadow, out)?;
    write_left(alloc, source, shadow, out)
}
