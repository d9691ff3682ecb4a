//! What gdb's user commands by `monitor`.
ghost use Rattle.std.specs.Prelude.{◌≡◌, IfOk, IfSome, ok_or};
ghost use Rattle.std.specs.List.{before_first};
ghost use Rattle.ckrt_gdb_stub.specs.Commands.{IsInRangeCommand, IsInRangeEvent, about, alone, command_in, command_of, event_of, going_of, is_plus, number_of, place_of, positive_in, positive_of, steps_of, with_word, without_word, word_in, word_of};
ghost use Rattle.ckrt_gdb_stub.specs.declared.command.Misread.TheVariants.{Number, Position};

use ckrt_events::{Command as LineCommand, Event, LineFault, parse_command};

/// A position by the events that are done since the disk was formatted, and the steps of the next.
#[derive(Clone, Copy)]
pub struct Place {
    pub events: u64,
    pub steps: u32,
}

/// What gdb's user commands.
#[derive(Drop)]
pub enum Command {
    /// To go there.
    GoTo(Place),
    /// To go behind the last event.
    GoToEnd,
    /// To end motions there.
    Until(Place),
    /// To make so many steps at most in a motion, 1 or more.
    Limit(u32),
    /// To say which events there are, and where it stands.
    Events,
    /// To list the state as `ckrt inspect` does.
    Inspect,
    /// To forget the events behind where it stands.
    Fork,
    /// To make one more event behind the last, if the line is that of one.
    Append(Result<Event, LineFault>),
    /// To make so many at most behind the last, 1 or more, each the one that is next by turns.
    Extend(u32),
    /// To tell which commands there are.
    Help,
}

/// Why a text is no command.
#[derive(Clone, Copy, Drop)]
pub enum Misread {
    /// What it is about is no place.
    Position,
    /// What it is about is no number from 1 to 4,294,967,295.
    Number,
    /// Something is behind the name of a command that stands alone.
    Superfluous,
    /// There is no command of that name.
    Name,
}

/// The number of 64 bits that a text is.
#[tactic(auto, using(crate::proofs::NumberLemmas::number_read))]
fn number_of(text: &str) -> Option<u64>
    ensures { result ≡ number_of text.now }
{
    text.parse::<u64>().ok()
}

/// A number, if it is one of 32 bits.
fn word_in(number: u64) -> Option<u32>
    ensures { result ≡ word_in number }
{
    u32::try_from(number).ok()
}

/// The number of 32 bits that a text is.
fn word_of(text: &str) -> Option<u32>
    ensures { result ≡ word_of text.now }
{
    word_in(number_of(text)?)
}

/// The steps behind a plus, or none.
fn steps_of(text: &str) -> Option<u32>
    ensures { result ≡ steps_of text.now }
{
    match text.split_once('+') {
        Some((_, steps)) => word_of(steps),
        None => Some(0),
    }
}

/// The events before a plus, or up to the end.
fn events_of(text: &str) -> Option<u64>
    ensures { result ≡ number_of (before_first is_plus text.now) }
{
    match text.split_once('+') {
        Some((events, _)) => number_of(events),
        None => number_of(text),
    }
}

/// The place that a text `K` or `K+S` names.
fn place_of(text: &str) -> Option<Place>
    ensures { result ≡ place_of text.now }
{
    let events = events_of(text)?;
    let steps = steps_of(text)?;
    Some(Place { events, steps })
}

/// A number, if it is 1 or more.
fn positive_in(number: u32) -> Option<u32>
    ensures { result ≡ positive_in number }
{
    if number > 0 { Some(number) } else { None }
}

/// The number from 1 to 4,294,967,295 that a text is.
fn positive_of(text: &str) -> Option<u32>
    ensures { result ≡ positive_of text.now }
{
    positive_in(word_of(text)?)
}

/// The event of a line, as a session of `ckrt run` takes it.
fn event_of(line: &str) -> Result<Event, LineFault>
    ensures event { result ≡ event_of line.now }
    ensures in_range { IsInRangeEvent result }
{
    match parse_command(line.as_bytes())? {
        LineCommand::Submit(event) => Ok(event),
        _ => Err(LineFault::Unknown),
    }
}

/// The place that a command is about.
fn place_in(word: &str) -> Result<Place, Misread>
    ensures { result ≡ ok_or (place_of word.now) Position }
{
    place_of(word).ok_or(Misread::Position)
}

/// The number that a command is about.
fn count_in(word: &str) -> Result<u32, Misread>
    ensures { result ≡ ok_or (positive_of word.now) Number }
{
    positive_of(word).ok_or(Misread::Number)
}

/// A command that stands alone, by its name.
fn alone(name: &str) -> Option<Command>
    ensures command { result ≡ alone name.now }
    ensures in_range { IfSome result IsInRangeCommand }
{
    if name == "events" {
        Some(Command::Events)
    } else if name == "inspect" {
        Some(Command::Inspect)
    } else if name == "fork" {
        Some(Command::Fork)
    } else if name == "help" {
        Some(Command::Help)
    } else {
        None
    }
}

/// To go to the place that a word names, or to the end.
fn going_in(word: &str) -> Result<Command, Misread>
    ensures command { result ≡ ok_or (going_of word.now) Position }
    ensures in_range { IfOk result IsInRangeCommand }
{
    if word == "end" {
        return Ok(Command::GoToEnd);
    }
    Ok(Command::GoTo(place_in(word)?))
}

/// A command that is about a word, by its name.
fn about(name: &str, word: &str) -> Result<Command, Misread>
    ensures command { result ≡ about name.now word.now }
    ensures in_range { IfOk result IsInRangeCommand }
{
    if name == "goto" {
        going_in(word)
    } else if name == "until" {
        Ok(Command::Until(place_in(word)?))
    } else if name == "limit" {
        Ok(Command::Limit(count_in(word)?))
    } else if name == "live" {
        Ok(Command::Extend(count_in(word)?))
    } else if name == "event" {
        Ok(Command::Append(event_of(word)))
    } else {
        Err(Misread::Name)
    }
}

/// A command with a word behind its name.
fn with_word(name: &str, word: &str) -> Result<Command, Misread>
    ensures command { result ≡ with_word name.now word.now }
    ensures in_range { IfOk result IsInRangeCommand }
{
    match alone(name) {
        Some(_) => Err(Misread::Superfluous),
        None => about(name, word),
    }
}

/// A command without a word.
fn without_word(name: &str) -> Result<Command, Misread>
    ensures command { result ≡ without_word name.now }
    ensures in_range { IfOk result IsInRangeCommand }
{
    match alone(name) {
        Some(command) => Ok(command),
        None => about(name, ""),
    }
}

/// The command of a text that is UTF-8, or why it is none.
fn command_in(text: &str) -> Result<Command, Misread>
    ensures command { result ≡ command_in text.now }
    ensures in_range { IfOk result IsInRangeCommand }
{
    match text.split_once(' ') {
        Some((name, word)) => with_word(name, word),
        None => without_word(text),
    }
}

/// The command of a text, or why it is none.
pub fn command_of(text: &[u8]) -> Result<Command, Misread>
    ensures command { result ≡ command_of text.now }
    ensures in_range { IfOk result IsInRangeCommand }
{
    if text.is_empty() {
        return Ok(Command::Help);
    }
    match std::str::from_utf8(text) {
        Ok(text) => command_in(text),
        Err(_) => Err(Misread::Name),
    }
}
