//! The callers of a thread, as lines.
ghost use Rattle.std.specs.Prelude.{◌≡◌, OnOk};
ghost use Rattle.std.specs.Io.KnownBytes.{Appends};
ghost use Rattle.ckrt_look_calls.specs.Moments.{caller_line, caller_lines, callers_by, callers_text};

use crate::moment::{Moment, write_moment_line};
use ckrt_look_recording::{Frame, Rule, caller_of};
use ckrt_machine::Machine;
use ckrt_memory::Memory;
use ckrt_registers::Regs;
use std::io::{Result, Write};

/// How many callers are told at most.
const MOST_CALLERS: u32 = 16;

/// A caller.
fn write_caller<W: Write>(out: &mut W, moment: &Moment, frame: &Frame) -> Result<()>
    ensures { OnOk result
        (Appends (W.contents out.old) (W.contents out.new) (caller_line moment.now frame.now)) }
{
    write_moment_line(out, moment, b" called from ", frame.place, b"\n")
}

/// The callers of a frame.
fn write_frames<W: Write>(
    out: &mut W,
    moment: &Moment,
    rules: &[Rule],
    memory: &Memory,
    frame: &Frame,
) -> Result<()>
    ensures { OnOk result
        (Appends (W.contents out.old) (W.contents out.new)
        (caller_lines 16 moment.now rules.now memory.now.bytes frame.now)) }
{
    let mut inner = *frame;
    let mut left = MOST_CALLERS;
    while left > 0 {
        let Some(caller) = caller_of(rules, memory, &inner) else {
            return Ok(());
        };
        write_caller(out, moment, &caller)?;
        inner = caller;
        left -= 1;
    }
    Ok(())
}

/// The callers of a thread with these registers, if it has some.
#[tactic(auto, using(crate::proofs::AppendLemmas::appends_none))]
fn write_callers_by<W: Write>(
    out: &mut W,
    moment: &Moment,
    rules: &[Rule],
    memory: &Memory,
    regs: Option<Regs>,
) -> Result<()>
    ensures { OnOk result
        (Appends (W.contents out.old) (W.contents out.new)
        (callers_by moment.now rules.now memory.now.bytes regs)) }
{
    match regs {
        Some(regs) => write_frames(out, moment, rules, memory, &Frame::of(&regs, false)),
        None => Ok(()),
    }
}

/// Writes the callers of the thread of a moment, in a machine's state, from the innermost on, sixteen at most.
pub fn write_callers<W: Write>(
    out: &mut W,
    moment: &Moment,
    rules: &[Rule],
    machine: &Machine,
) -> Result<()>
    ensures { OnOk result
        (Appends (W.contents out.old) (W.contents out.new)
        (callers_text moment.now rules.now machine.now.state)) }
{
    let regs = machine.tables().threads.regs(moment.thread);
    write_callers_by(out, moment, rules, machine.memory(), regs)
}
