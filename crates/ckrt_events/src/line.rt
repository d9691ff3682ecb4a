//! From a line to its command.
ghost use Rattle.std.specs.Prelude.{◌≡◌, ◌≤◌, length, IfOk, MatchResult, Ok, Err};
ghost use Rattle.ckrt_events.specs.Words.{words_of};
ghost use Rattle.ckrt_events.specs.Bytes.{LAST_HART};
ghost use Rattle.ckrt_events.specs.Line.{IsInRangeCommand, command_of, named_command, bare_of, one_of, two_of, hart_and_steps_of, place_of, run_of, run_long_of, tick_of, auto_of, input_of};

use crate::command::{Command, LineFault};
use crate::event::{Event, LAST_HART, LAST_THREAD, LONG_RUN_LIMIT, RUN_LIMIT};
use crate::words::{next_word, number};
use arrayvec::ArrayVec;

/// How many bytes a line may have, its end not counted.
pub const LINE_LIMIT: usize = 160;

/// The meaning of a line, its end left off. A line that is too long is reported first; then an unknown first word or a wrong count of
/// words; then the arguments' faults from left to right. A line without words is `Blank`.
pub fn parse_command(line: &[u8]) -> Result<Command, LineFault>
    ensures value { result ≡ command_of line.now }
    ensures in_range { IfOk result IsInRangeCommand }
{
    if line.len() > LINE_LIMIT {
        return Err(LineFault::TooLong);
    }
    match next_word(line) {
        None => Ok(Command::Blank),
        Some((name, args)) => command_named(name, args),
    }
}

fn command_named(name: &[u8], args: &[u8]) -> Result<Command, LineFault>
    requires { length args.now ≤ LINE_LIMIT }
    ensures value { result ≡ named_command name.now (words_of args.now) }
    ensures in_range { IfOk result IsInRangeCommand }
{
    if name == b"place".as_slice() {
        place(args)
    } else if name == b"run".as_slice() {
        run(args)
    } else if name == b"runlong".as_slice() {
        run_long(args)
    } else if name == b"in".as_slice() {
        input(args)
    } else if name == b"eof".as_slice() {
        bare(Command::Submit(Event::Eof), args)
    } else if name == b"tick".as_slice() {
        tick(args)
    } else if name == b"auto".as_slice() {
        auto(args)
    } else if name == b"commit".as_slice() {
        bare(Command::Commit, args)
    } else if name == b"checkpoint".as_slice() {
        bare(Command::Checkpoint, args)
    } else if name == b"quit".as_slice() {
        bare(Command::Quit, args)
    } else {
        Err(LineFault::Unknown)
    }
}

/// A command that takes no argument.
fn bare(command: Command, args: &[u8]) -> Result<Command, LineFault>
    requires { IsInRangeCommand command }
    ensures value { result ≡ bare_of command (words_of args.now) }
    ensures in_range { IfOk result IsInRangeCommand }
{
    match next_word(args) {
        None => Ok(command),
        Some(_) => Err(LineFault::Unknown),
    }
}

/// The only word.
fn only_word(args: &[u8]) -> Result<&[u8], LineFault>
    ensures some { IfOk result (λ w. 1 ≤ length w.now) }
    ensures within { IfOk result (λ w. length w.now ≤ length args.now) }
    ensures value { MatchResult result (λ w. one_of (words_of args.now) ≡ Ok w.now)
        (λ e. one_of (words_of args.now) ≡ Err e) }
{
    let (word, rest) = next_word(args).ok_or(LineFault::Unknown)?;
    match next_word(rest) {
        None => Ok(word),
        Some(_) => Err(LineFault::Unknown),
    }
}

/// The only two words.
fn two_words(args: &[u8]) -> Result<(&[u8], &[u8]), LineFault>
    ensures { MatchResult result (λ w. two_of (words_of args.now) ≡ Ok (w.0.now, w.1.now))
        (λ e. two_of (words_of args.now) ≡ Err e) }
{
    let (first, rest) = next_word(args).ok_or(LineFault::Unknown)?;
    Ok((first, only_word(rest)?))
}

/// The arguments `h n`: a hart and a number of steps, that many at most.
fn hart_and_steps(args: &[u8], most: u32) -> Result<(u8, u32), LineFault>
    ensures value { result ≡ hart_and_steps_of most (words_of args.now) }
    ensures in_range { IfOk result (λ s. (s.0 ≤ LAST_HART) × (1 ≤ s.1) × (s.1 ≤ most)) }
{
    let (hart, steps) = two_words(args)?;
    let hart = number(hart, 0, LAST_HART as u32)? as u8;
    let steps = number(steps, 1, most)?;
    Ok((hart, steps))
}

fn place(args: &[u8]) -> Result<Command, LineFault>
    ensures value { result ≡ place_of (words_of args.now) }
    ensures in_range { IfOk result IsInRangeCommand }
{
    let (hart, thread) = two_words(args)?;
    let hart = number(hart, 0, LAST_HART as u32)? as u8;
    let thread = number(thread, 1, LAST_THREAD as u32)? as u8;
    Ok(Command::Submit(Event::Place(hart, thread)))
}

fn run(args: &[u8]) -> Result<Command, LineFault>
    ensures value { result ≡ run_of (words_of args.now) }
    ensures in_range { IfOk result IsInRangeCommand }
{
    let (hart, steps) = hart_and_steps(args, RUN_LIMIT)?;
    Ok(Command::Submit(Event::Run(hart, steps as u16)))
}

fn run_long(args: &[u8]) -> Result<Command, LineFault>
    ensures value { result ≡ run_long_of (words_of args.now) }
    ensures in_range { IfOk result IsInRangeCommand }
{
    let (hart, steps) = hart_and_steps(args, LONG_RUN_LIMIT)?;
    Ok(Command::Submit(Event::RunLong(hart, steps)))
}

fn auto(args: &[u8]) -> Result<Command, LineFault>
    ensures value { result ≡ auto_of (words_of args.now) }
    ensures in_range { IfOk result IsInRangeCommand }
{
    let (hart, steps) = hart_and_steps(args, RUN_LIMIT)?;
    Ok(Command::Auto(hart, steps as u16))
}

fn tick(args: &[u8]) -> Result<Command, LineFault>
    ensures value { result ≡ tick_of (words_of args.now) }
    ensures in_range { IfOk result IsInRangeCommand }
{
    let ticks = number(only_word(args)?, 1, u32::MAX)?;
    Ok(Command::Submit(Event::Tick(ticks)))
}

/// Bytes of input, as pairs of hexadecimal digits. The whole line's digits have room, so that too many bytes are reported only once
/// all of them are found to be digits.
fn input(args: &[u8]) -> Result<Command, LineFault>
    requires { length args.now ≤ LINE_LIMIT }
    ensures value { result ≡ input_of (words_of args.now) }
    ensures in_range { IfOk result IsInRangeCommand }
{
    let word = only_word(args)?;
    let mut bytes = [0u8; LINE_LIMIT / 2];
    let count = word.len() / 2;
    if hex::decode_to_slice(word, &mut bytes[..count]).is_err() {
        return Err(LineFault::Hex);
    }
    let mut input = ArrayVec::new();
    if input.try_extend_from_slice(&bytes[..count]).is_err() {
        return Err(LineFault::Range);
    }
    Ok(Command::Submit(Event::Input(input)))
}
