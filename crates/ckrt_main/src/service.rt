//! Lines in, replies and output out.
ghost use Rattle.std.specs.Prelude.{◌≡◌, ◌∷◌, ◌⊎◌, [], Bool, true, false, IfOk, IfErr, OnOk, OnErr};
ghost use Rattle.std.specs.Str.Lines.{lines, strip_carriage_return};
ghost use Rattle.std.specs.Io.KnownBytes.{Appends};
ghost use Rattle.ckrt_disk.specs.Disk.{HasFailed};
ghost use Rattle.ckrt_events.specs.Line.{command_of, IsInRangeCommand};
ghost use Rattle.ckrt_main.specs.Transcript as transcript;
ghost use Rattle.ckrt_main.specs.Transcript.{view_after};
ghost use Rattle.ckrt_recovery.specs.View.{view_of};
ghost use Rattle.ckrt_main.specs.Service.{is_open, Writes, Processed, ProcessedPart, Processes, Completes, Served};
ghost use Rattle.ckrt_main.specs.Pieces.{Answers, BreaksOff};
ghost use Rattle.ckrt_disk.specs.Writing.{AppendsPart};

use crate::fault::ServeFault;
use crate::lines::Lines;
use crate::performing::{perform, release};
use crate::replies;
use arrayvec::ArrayVec;
use ckrt_disk::{Disk, write_text};
use ckrt_events::{Command, LineFault, parse_command};
use ckrt_recovery::Session;
use std::io::{ErrorKind, Read, Write};

/// What is kept of a line: a byte past its limit of 160, and a carriage return.
type Line = ArrayVec<u8, 162>;

/// Writes a text whole, and flushes it. Where the writer fails, what it took is a beginning of the text.
///
/// # Errors
///
/// `Write` where the writer failed, or took nothing.
pub fn write_reply<W: Write>(writer: &mut W, text: &[u8]) -> Result<(), ServeFault>
    ensures ok { OnOk result (Appends (W.contents writer.old) (W.contents writer.new) text.now) }
    ensures part { OnErr result
        (AppendsPart (W.contents writer.old) (W.contents writer.new) text.now) }
    ensures err { IfErr result (λ e. e ≡ ServeFault.Write) }
{
    write_text(writer, text)?;
    Ok(())
}

/// Does what a command says, and answers whether it was `quit`.
fn answer<W: Write, D: Disk>(
    session: &mut Session<D>,
    writer: &mut W,
    command: Result<Command, LineFault>,
) -> Result<bool, ServeFault>
    requires { IfOk command IsInRangeCommand }
    ensures ok { IfOk result (λ quit.
        Answers (transcript.respond command) quit
        (Writes (W.contents writer.old) (W.contents writer.new)) session.old
        session.new) }
    ensures broken { OnErr result (BreaksOff (transcript.respond command)
        (Writes (W.contents writer.old) (W.contents writer.new)) session.old
        session.new) }
    ensures err { IfErr result (λ e. e ≡ ServeFault.Write) }
{
    match command {
        Ok(command) => Ok(perform::<Lines, W, D>(session, writer, &command)?),
        Err(fault) => {
            write_reply(writer, &replies::refused_line(fault))?;
            Ok(false)
        }
    }
}

/// Does what a line says, and answers whether it was `quit`.
fn respond<W: Write, D: Disk>(
    session: &mut Session<D>,
    writer: &mut W,
    line: &[u8],
) -> Result<bool, ServeFault>
    ensures ok { IfOk result (λ quit.
        Answers (transcript.respond (command_of line.now)) quit
        (Writes (W.contents writer.old) (W.contents writer.new)) session.old
        session.new) }
    ensures broken { OnErr result (BreaksOff (transcript.respond (command_of line.now))
        (Writes (W.contents writer.old) (W.contents writer.new)) session.old
        session.new) }
    ensures err { IfErr result (λ e. e ≡ ServeFault.Write) }
{
    answer(session, writer, parse_command(line))
}

/// A line without the one carriage return at its end.
fn without_carriage_return(line: &[u8]) -> &[u8]
    ensures { result.now ≡ strip_carriage_return line.now }
{
    match line {
        [front @ .., b'\r'] => front,
        _ => line,
    }
}

/// Takes a byte of input, and answers whether it ended a line `quit`.
fn take_byte<W: Write, D: Disk>(
    session: &mut Session<D>,
    writer: &mut W,
    line: &mut Line,
    byte: u8,
) -> Result<bool, ServeFault>
    requires { is_open line.old.items ≡ true }
    ensures open { OnOk result (is_open line.new.items ≡ true) }
    ensures processed { IfOk result (λ quit.
        Processed (W.contents writer.old) (W.contents writer.new) line.old.items
        (byte ∷ []) session.old session.new line.new.items quit) }
    ensures broken { OnErr result (ProcessedPart (W.contents writer.old) (W.contents writer.new)
        line.old.items (byte ∷ []) session.old session.new) }
    ensures err { IfErr result (λ e. e ≡ ServeFault.Write) }
{
    if byte == b'\n' {
        let quit = respond(session, writer, without_carriage_return(line))?;
        line.clear();
        return Ok(quit);
    }
    if line.is_full() {
        return Ok(false);
    }
    line.push(byte);
    Ok(false)
}

/// Takes bytes of input up to a line `quit`, and answers whether there was one.
fn take_bytes<W: Write, D: Disk>(
    session: &mut Session<D>,
    writer: &mut W,
    line: &mut Line,
    bytes: &[u8],
) -> Result<bool, ServeFault>
    requires { is_open line.old.items ≡ true }
    ensures open { OnOk result (is_open line.new.items ≡ true) }
    ensures processed { IfOk result (λ quit.
        Processed (W.contents writer.old) (W.contents writer.new) line.old.items
        bytes.now session.old session.new line.new.items quit) }
    ensures broken { OnErr result (ProcessedPart (W.contents writer.old) (W.contents writer.new)
        line.old.items bytes.now session.old session.new) }
    ensures err { IfErr result (λ e. e ≡ ServeFault.Write) }
{
    for byte in bytes {
        if take_byte(session, writer, line, *byte)? {
            return Ok(true);
        }
    }
    Ok(false)
}

/// Takes the end of the input, with the last line before it, which counts if it isn't empty.
fn take_end<W: Write, D: Disk>(
    session: &mut Session<D>,
    writer: &mut W,
    line: &[u8],
) -> Result<(), ServeFault>
    requires { is_open line.now ≡ true }
    ensures ok { OnOk result ((quit : Bool)
        × Answers (transcript.respond_all (lines line.now)) quit
        (Writes (W.contents writer.old) (W.contents writer.new)) session.old
        session.new) }
    ensures broken { OnErr result (BreaksOff (transcript.respond_all (lines line.now))
        (Writes (W.contents writer.old) (W.contents writer.new)) session.old
        session.new) }
    ensures err { IfErr result (λ e. e ≡ ServeFault.Write) }
{
    if line.is_empty() {
        return Ok(());
    }
    respond(session, writer, line)?;
    Ok(())
}

/// Writes the output that isn't confirmed, and then answers the lines of a reader, up to its end or a line `quit`.
fn serve_lines<R: Read, W: Write, D: Disk>(
    reader: &mut R,
    writer: &mut W,
    session: &mut Session<D>,
) -> Result<(), ServeFault>
    ensures whole { OnOk result (Completes (W.contents writer.old) (W.contents writer.new)
        (R.remaining reader.old) (R.remaining reader.new) session.old session.new) }
    ensures processed { Processes (W.contents writer.old) (W.contents writer.new)
        (R.remaining reader.old) (R.remaining reader.new) session.old session.new }
    ensures err { IfErr result (λ e. (e ≡ ServeFault.Read) ⊎ (e ≡ ServeFault.Write)) }
{
    release::<Lines, W, D>(session, writer)?;
    let mut line = Line::new();
    let mut chunk = [0u8; 512];
    for _ in 0..u64::MAX {
        match reader.read(&mut chunk) {
            Ok(0) => {
                take_end(session, writer, &line)?;
                return Ok(());
            }
            Ok(count) => {
                if take_bytes(session, writer, &mut line, &chunk[..count])? {
                    return Ok(());
                }
            }
            Err(error) => {
                if error.kind() != ErrorKind::Interrupted {
                    return Err(ServeFault::Read);
                }
            }
        }
    }
    Err(ServeFault::Read)
}

/// Writes the committed output that isn't confirmed, and then answers the lines of a reader, up to its end or a line `quit`.
///
/// Each line gets its reply before more lines are waited for, and what a commit releases is written after its `ack` and then
/// confirmed. Nothing is committed but by a line `commit`. After a commit that the disk failed the lines go on: events
/// and commits are then refused as `21 Failed`. Where the writer fails nothing more is confirmed.
pub fn serve<R: Read, W: Write, D: Disk>(
    reader: &mut R,
    writer: &mut W,
    session: &mut Session<D>,
) -> Result<(), ServeFault>
    ensures ok { OnOk result (session.old.failed ≡ false
        → ¬ HasFailed (D.failures session.old.disk) (D.failures session.new.disk)
        → (served : Served (W.contents writer.old) (W.contents writer.new)
        (R.remaining reader.old) (R.remaining reader.new)
        (view_of session.old))
        × (view_of session.new ≡ view_after (view_of session.old) served.read)) }
    ensures whole { OnOk result (Completes (W.contents writer.old) (W.contents writer.new)
        (R.remaining reader.old) (R.remaining reader.new) session.old session.new) }
    ensures processed { Processes (W.contents writer.old) (W.contents writer.new)
        (R.remaining reader.old) (R.remaining reader.new) session.old session.new }
    ensures failed { session.new.failed ≡ true
        → (session.old.failed ≡ true)
        ⊎ HasFailed (D.failures session.old.disk) (D.failures session.new.disk) }
    ensures honest { D.is_honest session.new.disk → D.is_honest session.old.disk }
    ensures size { D.size session.new.disk ≡ D.size session.old.disk }
    ensures named_stop { D.named_stop session.new.disk ≡ D.named_stop session.old.disk }
    ensures err { IfErr result (λ e. (e ≡ ServeFault.Read) ⊎ (e ≡ ServeFault.Write)) }
{
    serve_lines(reader, writer, session)
}
