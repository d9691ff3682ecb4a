//! The lines that a writer is told of commands.
ghost use Rattle.std.specs.Prelude.{◌≡◌, ◌+◌, ◌<◌, ◌^◌, [], length, OnErr, OnOk};
ghost use Rattle.ckrt_main.specs.Pieces.{TellsPart};
ghost use Rattle.ckrt_main.specs.Replies.{line_of, outputs};
ghost use Rattle.ckrt_main.specs.Service.{Writes};

use crate::listener::Listener;
use crate::replies::{self, OUTPUT_BYTES};
use ckrt_disk::{WriteFault, write_text};
use ckrt_machine::Answer;
use ckrt_recovery::{CommitFault, SubmitFault};
use std::io::Write;

/// Writes output as lines of at most 64 bytes, from its offset on.
fn write_lines<W: Write>(writer: &mut W, offset: u64, bytes: &[u8]) -> Result<(), WriteFault>
    requires { offset + length bytes.now < 2 ^ 64 }
    ensures ok { OnOk result
        (Writes (W.contents writer.old) (W.contents writer.new) (outputs offset bytes.now) []) }
    ensures broken { OnErr result (TellsPart line_of (W.contents writer.old) (W.contents writer.new)
        (outputs offset bytes.now)) }
{
    let mut at = offset;
    let mut rest = bytes;
    while !rest.is_empty() {
        let (line, more) = rest.split_at(rest.len().min(OUTPUT_BYTES));
        write_text(writer, &replies::out(at, line))?;
        at += line.len() as u64;
        rest = more;
    }
    Ok(())
}

/// A line of text for each reply.
pub struct Lines;

impl<W: Write> Listener<W> for Lines {
    type Fault = WriteFault;

    ghost contents = { W.contents };

    ghost text = { line_of };

    fn accepted(writer: &mut W, count: u64, answer: Answer) -> Result<(), WriteFault> {
        write_text(writer, &replies::ok(count, answer))
    }

    fn refused(writer: &mut W, fault: SubmitFault) -> Result<(), WriteFault> {
        write_text(writer, &replies::refused_event(fault))
    }

    fn acknowledged(writer: &mut W, count: u64) -> Result<(), WriteFault> {
        write_text(writer, &replies::ack(count))
    }

    fn not_saved(writer: &mut W, fault: CommitFault) -> Result<(), WriteFault> {
        write_text(writer, &replies::refused_commit(fault))
    }

    fn output(writer: &mut W, offset: u64, bytes: &[u8]) -> Result<(), WriteFault> {
        write_lines(writer, offset, bytes)
    }
}
