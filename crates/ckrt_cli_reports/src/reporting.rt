//! What the program prints for an outcome, and its status.
ghost use Rattle.std.specs.Prelude.{◌≡◌, ◌≤◌, ◌<◌, ◌+◌, ◌++◌, ◌∷◌, [], length, decimal, true, false, OnOk, OnErr, Err, Ok};
ghost use Rattle.std.specs.Io.KnownBytes.{Appends};
ghost use Rattle.arrayvec.specs.ArrayVec.{array_vec_len};
ghost use Rattle.ckrt_calls.specs.declared.table.Status.TheVariants.{Exited, Faulted};
ghost use Rattle.ckrt_inspect.specs.Texts.{hex_text, status_text};
ghost use Rattle.ckrt_cli_reports.specs.Ends.{address_text, end_line, end_text, ended_text, hex_between, hint_text, place_text, unbegun_text};
ghost use Rattle.ckrt_cli_reports.specs.Lines.{EndsWith, ReportsOutcome, ReportsWords, Says, SaysLine, fault_line, formatted_line, version_line};
ghost use Rattle.ckrt_cli_reports.specs.Statuses.{status_of, status_of_words};

use crate::done::Done;
use crate::driven::Driven;
use crate::fault::JobFault;
use crate::reporter::{Reporter, Unsaid};
use crate::sentences::{Piece, numbers_of, subject_of};
use crate::version::VERSION;
use arrayvec::ArrayVec;
use ckrt_calls::Status;
use ckrt_cli_files::JobFile;
use ckrt_cli_words::{Job, WordsFault};
use ckrt_main::write_reply;
use ckrt_rv32i::Cause;
use ckrt_schedule::ScheduleEnd;
use ckrt_thread::ThreadId;
use std::io::Write;

/// A line of standard output.
type Line = ArrayVec<u8, 80>;

/// Puts bytes behind a line.
fn push(line: &mut Line, bytes: &[u8])
    requires { array_vec_len line.old + length bytes.now ≤ 80 }
    ensures { line.new.items ≡ line.old.items ++ bytes.now }
{
    match line.try_extend_from_slice(bytes) {
        Ok(()) => {}
        Err(_) => unreachable!(),
    }
}

/// The line of a word with its text behind it.
fn line_of(word: &[u8], text: &[u8]) -> Line
    requires { length word.now + length text.now < 80 }
    ensures { result.items ≡ word.now ++ (text.now ++ 10 ∷ []) }
{
    let mut line = Line::new();
    push(&mut line, word);
    push(&mut line, text);
    push(&mut line, b"\n");
    line
}

/// Writes a word with its text behind it and a line feed, and flushes it.
fn write_line<W: Write>(writer: &mut W, word: &[u8], text: &[u8]) -> Result<(), JobFault>
    requires { length word.now + length text.now < 80 }
    ensures { SaysLine (W.contents writer.old) (W.contents writer.new)
        (word.now ++ (text.now ++ 10 ∷ [])) result }
{
    match write_reply(writer, &line_of(word, text)) {
        Ok(()) => Ok(()),
        Err(fault) => Err(JobFault::Serve(fault)),
    }
}

/// Says a word with its text behind it and a line feed.
fn say_line<E: Reporter>(reporter: &mut E, word: &[u8], text: &[u8]) -> Result<(), Unsaid>
    ensures said { OnOk result (Appends (E.said reporter.old) (E.said reporter.new)
        (word.now ++ (text.now ++ 10 ∷ []))) }
    ensures failed { OnErr result (E.has_failed reporter.new ≡ true) }
{
    reporter.say(word)?;
    reporter.say(text)?;
    reporter.say(b"\n")
}

/// Says a piece.
fn say_piece<E: Reporter>(reporter: &mut E, piece: Piece<'_>) -> Result<(), Unsaid>
    ensures said { OnOk result (Says (E.said reporter.old) (E.said reporter.new)) }
    ensures failed { OnErr result (E.has_failed reporter.new ≡ true) }
{
    match piece {
        Piece::Text(text) => reporter.say(text.as_bytes()),
        Piece::Number(number) => say_number(reporter, number),
        Piece::Digest(digest) => say_digest(reporter, &digest),
    }
}

/// Says pieces, one behind another.
fn say_pieces<E: Reporter>(reporter: &mut E, pieces: &[Piece<'_>]) -> Result<(), Unsaid>
    ensures said { OnOk result (Says (E.said reporter.old) (E.said reporter.new)) }
    ensures failed { OnErr result (E.has_failed reporter.new ≡ true) }
{
    for piece in pieces {
        say_piece(reporter, *piece)?;
    }
    Ok(())
}

/// Says of which file a fault is, where it is of one.
fn say_file<E: Reporter>(
    reporter: &mut E,
    job: &Job<'_>,
    file: Option<JobFile>,
) -> Result<(), Unsaid>
    ensures said { OnOk result (Says (E.said reporter.old) (E.said reporter.new)) }
    ensures failed { OnErr result (E.has_failed reporter.new ≡ true) }
{
    match file {
        Some(file) => say_pieces(reporter, &subject_of(job, file)),
        None => say_pieces(reporter, &[]),
    }
}

/// Says of which file a fault is, and its numbers.
fn say_subject<E: Reporter>(reporter: &mut E, job: &Job<'_>, fault: JobFault) -> Result<(), Unsaid>
    ensures said { OnOk result (Says (E.said reporter.old) (E.said reporter.new)) }
    ensures failed { OnErr result (E.has_failed reporter.new ≡ true) }
{
    say_file(reporter, job, fault.file())?;
    say_pieces(reporter, &numbers_of(job, fault))
}

/// Says the line with a fault's name.
fn say_name<E: Reporter>(reporter: &mut E, fault: JobFault) -> Result<(), Unsaid>
    ensures said { OnOk result
        (Appends (E.said reporter.old) (E.said reporter.new) (fault_line fault)) }
    ensures failed { OnErr result (E.has_failed reporter.new ≡ true) }
{
    say_line(reporter, b"ckrt: ", fault.name().as_bytes())
}

/// Says what is wrong in plain words, and then the line with the fault's name.
fn say_fault<E: Reporter>(reporter: &mut E, job: &Job<'_>, fault: JobFault) -> Result<(), Unsaid>
    ensures said { OnOk result
        (EndsWith (E.said reporter.old) (E.said reporter.new) (fault_line fault)) }
    ensures failed { OnErr result (E.has_failed reporter.new ≡ true) }
{
    say_subject(reporter, job, fault)?;
    say_line(reporter, fault.advice().as_bytes(), b"")?;
    say_name(reporter, fault)
}

/// Says a number in decimal.
fn say_number<E: Reporter>(reporter: &mut E, number: u64) -> Result<(), Unsaid>
    ensures said { OnOk result
        (Appends (E.said reporter.old) (E.said reporter.new) (decimal number)) }
    ensures failed { OnErr result (E.has_failed reporter.new ≡ true) }
{
    let mut buffer = itoa::Buffer::new();
    reporter.say(buffer.format(number).as_bytes())
}

/// Says a digest in 64 hexadecimal digits.
fn say_digest<E: Reporter>(reporter: &mut E, digest: &[u8; 32]) -> Result<(), Unsaid>
    ensures said { OnOk result (Says (E.said reporter.old) (E.said reporter.new)) }
    ensures failed { OnErr result (E.has_failed reporter.new ≡ true) }
{
    let mut digits = [0u8; 64];
    match hex::encode_to_slice(digest, &mut digits) {
        Ok(()) => reporter.say(&digits),
        Err(_) => unreachable!(),
    }
}

/// Says a pc in eight hexadecimal digits.
fn say_hex<E: Reporter>(reporter: &mut E, number: u32) -> Result<(), Unsaid>
    ensures said { OnOk result
        (Appends (E.said reporter.old) (E.said reporter.new) (hex_text number)) }
    ensures failed { OnErr result (E.has_failed reporter.new ≡ true) }
{
    let bytes = number.to_be_bytes();
    let mut digits = [0u8; 8];
    match hex::encode_to_slice(&bytes, &mut digits) {
        Ok(()) => reporter.say(&digits),
        Err(_) => unreachable!(),
    }
}

/// Says how a thread's fault ended the program.
fn say_program_fault<E: Reporter>(
    reporter: &mut E,
    thread: ThreadId,
    pc: u32,
    cause: Cause,
) -> Result<(), Unsaid>
    ensures said { OnOk result (Appends (E.said reporter.old) (E.said reporter.new)
        (status_text (Faulted thread pc cause))) }
    ensures failed { OnErr result (E.has_failed reporter.new ≡ true) }
{
    reporter.say(b"fault ")?;
    say_number(reporter, u64::from(thread))?;
    reporter.say(b" ")?;
    say_hex(reporter, pc)?;
    reporter.say(b" ")?;
    reporter.say(cause.name().as_bytes())
}

/// Says with which status the program ended.
fn say_exit<E: Reporter>(reporter: &mut E, code: u32) -> Result<(), Unsaid>
    ensures said { OnOk result
        (Appends (E.said reporter.old) (E.said reporter.new) (status_text (Exited code))) }
    ensures failed { OnErr result (E.has_failed reporter.new ≡ true) }
{
    reporter.say(b"exit ")?;
    say_number(reporter, u64::from(code))
}

/// Says how the program stands.
fn say_status<E: Reporter>(reporter: &mut E, status: Status) -> Result<(), Unsaid>
    ensures said { OnOk result
        (Appends (E.said reporter.old) (E.said reporter.new) (status_text status)) }
    ensures failed { OnErr result (E.has_failed reporter.new ≡ true) }
{
    match status {
        Status::Running => reporter.say(b"running"),
        Status::Exited(code) => say_exit(reporter, code),
        Status::Faulted(thread, pc, cause) => say_program_fault(reporter, thread, pc, cause),
    }
}

/// Says the address that a fault is about.
fn say_address<E: Reporter>(reporter: &mut E, address: Option<u32>) -> Result<(), Unsaid>
    ensures said { OnOk result
        (Appends (E.said reporter.old) (E.said reporter.new) (address_text address)) }
    ensures failed { OnErr result (E.has_failed reporter.new ≡ true) }
{
    match address {
        Some(address) => {
            reporter.say(b" ")?;
            say_hex(reporter, address)
        }
        None => reporter.say(b""),
    }
}

/// Says a word in eight hexadecimal digits between two texts.
fn say_hex_between<E: Reporter>(
    reporter: &mut E,
    before: &[u8],
    word: u32,
    behind: &[u8],
) -> Result<(), Unsaid>
    ensures said { OnOk result (Appends (E.said reporter.old) (E.said reporter.new)
        (hex_between before.now word behind.now)) }
    ensures failed { OnErr result (E.has_failed reporter.new ≡ true) }
{
    reporter.say(before)?;
    say_hex(reporter, word)?;
    reporter.say(behind)
}

/// Says which commands name the place of a fault.
fn say_place<E: Reporter>(reporter: &mut E, pc: u32, address: Option<u32>) -> Result<(), Unsaid>
    ensures said { OnOk result
        (Appends (E.said reporter.old) (E.said reporter.new) (place_text pc address)) }
    ensures failed { OnErr result (E.has_failed reporter.new ≡ true) }
{
    let other = b"` says where that is; so does `addr2line -e PROGRAM.elf ";
    say_hex_between(reporter, b"`guest/where PROGRAM.elf ", pc, b"")?;
    say_address(reporter, address)?;
    say_hex_between(reporter, other, pc, b"`\n")
}

/// The status of a guest of the kit that couldn't begin.
const UNBEGUN: u32 = 126;

/// Says what that status means, and what to do.
fn say_unbegun<E: Reporter>(reporter: &mut E) -> Result<(), Unsaid>
    ensures said { OnOk result (Appends (E.said reporter.old) (E.said reporter.new) unbegun_text) }
    ensures failed { OnErr result (E.has_failed reporter.new ≡ true) }
{
    reporter.say(b"exit 126: the guest couldn't begin, and its output says why; ")?;
    reporter.say(b"if it needs more pages, remove disk and output, and give it --pages\n")
}

/// Says what to do about a fault of the program, if that ended it, or about a program that couldn't begin.
fn say_hint<E: Reporter>(
    reporter: &mut E,
    status: Status,
    address: Option<u32>,
) -> Result<(), Unsaid>
    ensures said { OnOk result
        (Appends (E.said reporter.old) (E.said reporter.new) (hint_text status address)) }
    ensures failed { OnErr result (E.has_failed reporter.new ≡ true) }
{
    match status {
        Status::Faulted(_, pc, _) => say_place(reporter, pc, address),
        Status::Exited(UNBEGUN) => say_unbegun(reporter),
        Status::Exited(_) | Status::Running => reporter.say(b""),
    }
}

/// Says that the program ended, and how.
fn say_ended<E: Reporter>(
    reporter: &mut E,
    status: Status,
    address: Option<u32>,
) -> Result<(), Unsaid>
    ensures said { OnOk result
        (Appends (E.said reporter.old) (E.said reporter.new) (ended_text status address)) }
    ensures failed { OnErr result (E.has_failed reporter.new ≡ true) }
{
    say_hint(reporter, status, address)?;
    reporter.say(b"ended: ")?;
    say_status(reporter, status)?;
    say_address(reporter, address)
}

/// Says an end in words.
fn say_end_text<E: Reporter>(reporter: &mut E, driven: Driven) -> Result<(), Unsaid>
    ensures said { OnOk result (Appends (E.said reporter.old) (E.said reporter.new)
        (end_text driven.ending driven.status driven.address)) }
    ensures failed { OnErr result (E.has_failed reporter.new ≡ true) }
{
    match driven.ending {
        Some(ScheduleEnd::Ended) => say_ended(reporter, driven.status, driven.address),
        Some(ScheduleEnd::WaitsForInput) => reporter.say(b"waits for input"),
        Some(ScheduleEnd::Deadlock) => reporter.say(b"deadlock"),
        Some(ScheduleEnd::Enough) | None => reporter.say(b"enough"),
    }
}

/// Says what a drive came to.
fn say_end<E: Reporter>(reporter: &mut E, driven: Driven) -> Result<(), Unsaid>
    ensures said { OnOk result
        (Appends (E.said reporter.old) (E.said reporter.new) (end_line driven)) }
    ensures failed { OnErr result (E.has_failed reporter.new ≡ true) }
{
    say_end_text(reporter, driven)?;
    reporter.say(b"\n")
}

/// Writes the line of a disk that was made.
pub fn write_formatted<W: Write>(writer: &mut W, size: u64) -> Result<(), JobFault>
    ensures { SaysLine (W.contents writer.old) (W.contents writer.new) (formatted_line size)
        result }
{
    let mut buffer = itoa::Buffer::new();
    write_line(writer, b"formatted ", buffer.format(size).as_bytes())
}

/// Writes the line of the version.
pub fn write_version<W: Write>(writer: &mut W) -> Result<(), JobFault>
    ensures { SaysLine (W.contents writer.old) (W.contents writer.new) version_line result }
{
    write_line(writer, b"ckrt ", VERSION)
}

/// Says what a drive came to, or why a job wasn't done, if it wasn't. The answer is the program's status.
pub fn report<E: Reporter>(reporter: &mut E, job: &Job<'_>, outcome: Result<Done, JobFault>) -> u8
    ensures status { result ≡ status_of outcome }
    ensures reports { ReportsOutcome outcome (E.said reporter.old) (E.said reporter.new)
        (E.has_failed reporter.new) }
{
    match outcome {
        Ok(Done::Whole) => 0,
        Ok(Done::Several) => 8,
        Ok(Done::Bad) => 9,
        Ok(Done::Driven(driven)) => {
            let _ = say_end(reporter, driven);
            driven.exit_status()
        }
        Err(fault) => {
            let _ = say_fault(reporter, job, fault);
            1
        }
    }
}

/// Says why words name no job: the text on usage as it is, or that memory was refused. The answer is the program's status.
pub fn report_words<E: Reporter>(reporter: &mut E, fault: WordsFault) -> u8
    ensures status { result ≡ status_of_words fault }
    ensures said { ReportsWords fault (E.said reporter.old) (E.said reporter.new)
        (E.has_failed reporter.new) }
{
    match fault {
        WordsFault::Usage(text) => {
            let _ = reporter.say(text.as_bytes());
            2
        }
        WordsFault::OutOfMemory => {
            let _ = say_fault(reporter, &Job::Stored, JobFault::OutOfMemory);
            1
        }
    }
}
