//! What gdb asks.
ghost use Rattle.std.specs.Prelude.{◌≡◌};
ghost use Rattle.ckrt_gdb_forms.specs.Requests.{by_letter, choosing_of, command_of, named, object_of, query_of, request_of, restart_of, with_arguments};

use crate::arguments::{choice, mark, motion, pair, text};
use crate::numbers::number;
use crate::parts::{split_at, split_name};
use arrayvec::ArrayVec;

/// How many bytes a text of gdb's user has at most.
pub const TEXT_LIMIT: usize = 256;

/// A text of gdb's user: a command for the stub, or where a program is to begin.
pub type Text = ArrayVec<u8, TEXT_LIMIT>;

/// Which threads are meant.
#[derive(Clone, Copy, Debug, Drop, PartialEq, Eq)]
pub enum Choice {
    All,
    /// Any that the stub takes.
    Any,
    /// The thread with this id.
    One(u32),
}

/// Where gdb wants a stop: an address, and the length of what is watched.
#[derive(Clone, Copy, Debug, Drop, PartialEq, Eq)]
pub enum Mark {
    Execution(u32),
    Writes(u32, u32),
    Reads(u32, u32),
    Accesses(u32, u32),
}

/// How threads move.
#[derive(Clone, Copy, Debug, Drop, PartialEq, Eq)]
pub enum Motion {
    /// All go on.
    Continue,
    /// One makes a step.
    Step(Choice),
    /// One makes steps while its pc is in this range, the end not among it.
    StepOut(u32, u32, Choice),
}

/// What gdb asks with a packet.
#[derive(Clone, Debug, Drop, PartialEq, Eq)]
pub enum Request {
    /// What the stub has.
    Features,
    /// Neither side is to acknowledge packets any more.
    WithoutAcknowledgements,
    /// The stub is to stay after the program's end.
    Extended,
    /// Why the program stands.
    LastStop,
    /// The registers of the examined thread.
    Registers,
    /// Memory, from an address on, and how many bytes.
    Memory(u32, u32),
    /// Whose registers are asked for from now on.
    Examine(Choice),
    /// Who steps back from now on.
    Choose(Choice),
    /// Whether a thread has not ended.
    IsAlive(Choice),
    FirstThreads,
    MoreThreads,
    /// What is to say of a thread.
    ThreadText(Choice),
    Insert(Mark),
    Remove(Mark),
    /// A step back.
    StepBack,
    /// Back to the last stop.
    ContinueBack,
    /// In which ways threads may move.
    Motions,
    Move(Motion),
    /// A command for the stub.
    Monitor(Text),
    /// The program is to begin anew, where this says.
    Restart(Text),
    Detach,
    Kill,
    /// Whether the program was there before gdb.
    IsAttached,
    /// gdb has symbols, if the stub wants some.
    Symbols,
    /// Of the target's description the bytes from an offset on, so many at most.
    Description(u32, u32),
    /// Registers or memory are to be written.
    Change,
    /// A packet that there is, with arguments that can't be read.
    Malformed,
    /// Any other packet.
    Unknown,
}

/// What a payload asks.
pub fn parse_request(packet: &[u8]) -> Request
    ensures { result ≡ request_of packet.now }
{
    let (name, args) = split_name(packet);
    named(name, args).unwrap_or(Request::Malformed)
}

fn named(name: &[u8], args: &[u8]) -> Option<Request>
    ensures { result ≡ named name.now args.now }
{
    if let Some(request) = command(name) {
        return Some(request);
    }
    if let Some(request) = query(name) {
        return Some(request);
    }
    with_arguments(name, args)
}

/// A command by its whole name.
fn command(name: &[u8]) -> Option<Request>
    ensures { result ≡ command_of name.now }
{
    if name == b"?".as_slice() {
        Some(Request::LastStop)
    } else if name == b"g".as_slice() {
        Some(Request::Registers)
    } else if name == b"bs".as_slice() {
        Some(Request::StepBack)
    } else if name == b"bc".as_slice() {
        Some(Request::ContinueBack)
    } else if name == b"vCont?".as_slice() {
        Some(Request::Motions)
    } else if name == b"!".as_slice() {
        Some(Request::Extended)
    } else if name == b"D".as_slice() {
        Some(Request::Detach)
    } else if name == b"k".as_slice() || name == b"vKill".as_slice() {
        Some(Request::Kill)
    } else {
        None
    }
}

/// A question by its whole name.
fn query(name: &[u8]) -> Option<Request>
    ensures { result ≡ query_of name.now }
{
    if name == b"qSupported".as_slice() {
        Some(Request::Features)
    } else if name == b"QStartNoAckMode".as_slice() {
        Some(Request::WithoutAcknowledgements)
    } else if name == b"qfThreadInfo".as_slice() {
        Some(Request::FirstThreads)
    } else if name == b"qsThreadInfo".as_slice() {
        Some(Request::MoreThreads)
    } else if name == b"qAttached".as_slice() {
        Some(Request::IsAttached)
    } else if name == b"qSymbol".as_slice() {
        Some(Request::Symbols)
    } else {
        None
    }
}

fn with_arguments(name: &[u8], args: &[u8]) -> Option<Request>
    ensures { result ≡ with_arguments name.now args.now }
{
    if name == b"vCont".as_slice() {
        Some(Request::Move(motion(args)?))
    } else if name == b"qRcmd".as_slice() {
        Some(Request::Monitor(text(args)?))
    } else if name == b"qXfer".as_slice() {
        object(args)
    } else if name == b"qThreadExtraInfo".as_slice() {
        Some(Request::ThreadText(choice(args)?))
    } else if name == b"vRun".as_slice() {
        restart(args)
    } else {
        by_letter(name, args)
    }
}

/// A packet whose name is a letter, with an argument right behind it.
fn by_letter(name: &[u8], args: &[u8]) -> Option<Request>
    ensures { result ≡ by_letter name.now args.now }
{
    let [letter, word @ ..] = name else {
        return Some(Request::Unknown);
    };
    match *letter {
        b'm' => Some(Request::Memory(number(word)?, number(args)?)),
        b'H' => choosing(word),
        b'T' => Some(Request::IsAlive(choice(word)?)),
        b'Z' => Some(Request::Insert(mark(word, args)?)),
        b'z' => Some(Request::Remove(mark(word, args)?)),
        b'G' | b'P' | b'M' | b'X' => Some(Request::Change),
        _ => Some(Request::Unknown),
    }
}

fn choosing(word: &[u8]) -> Option<Request>
    ensures { result ≡ choosing_of word.now }
{
    let [what, word @ ..] = word else {
        return None;
    };
    let choice = choice(word)?;
    match *what {
        b'g' => Some(Request::Examine(choice)),
        b'c' => Some(Request::Choose(choice)),
        _ => None,
    }
}

/// An object that gdb reads: the description of the target is the only one.
fn object(args: &[u8]) -> Option<Request>
    ensures { result ≡ object_of args.now }
{
    match args.strip_prefix(b"features:read:target.xml:") {
        Some(range) => {
            let (from, count) = pair(range)?;
            Some(Request::Description(from, count))
        }
        None => Some(Request::Unknown),
    }
}

/// Where the program is to begin anew: the first argument behind its name.
fn restart(args: &[u8]) -> Option<Request>
    ensures { result ≡ restart_of args.now }
{
    let argument = match split_at(args, b';') {
        (_, Some(rest)) => split_at(rest, b';').0,
        (_, None) => &[],
    };
    Some(Request::Restart(text(argument)?))
}
